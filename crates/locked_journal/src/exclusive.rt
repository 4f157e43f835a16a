//! A journal that nobody shares any longer: nobody but its owner makes a step.
ghost use Rattle.std.specs.Prelude.{◌≡◌, ◌≤◌, length};
ghost use Rattle.journal_model.specs.Transaction.{entries};
ghost use Rattle.journal_world.specs.Front.{held, transactions};
ghost use Rattle.journal_steps.specs.Legal.{KeepsLegal};
ghost use Rattle.locked_journal.specs.Sides.{Reconciles};
ghost use Rattle.locked_journal.specs.Begun.{ComesFrom};
ghost use Rattle.locked_journal.specs.Own.{Confirms};
ghost use Rattle.locked_journal.specs.Known.{own_of_ticket};

use crate::both;
use crate::known::{Knowing, Recorded, look};
use crate::locked::{Counters, Locked, Tally};
use crate::name::{EngineSide, SidesReconciler, UnlockedFront};
use crate::stopped::SharedReceipt;
use block_device::Device;
use group_commit::{Journal as OneJournal, Record};
use handle::{Credits, JournalName, Raiser};
use std::marker::Model;

/// A journal that was shared, in the hands of its one owner. It holds credits, so it can't be dropped: end it with `into_single`.
pub struct Exclusive<J: JournalName, D: Device, R: Record> {
    counters: Counters<J>,
    journal: OneJournal<D, R>,
    credits: Credits<J>,
    raiser: Raiser<J>,
    knowing: Knowing<J, R>,
    recorded: Recorded<J, R>,
}

impl<J: JournalName, D: Device, R: Record> Model for Exclusive<J, D, R> {
    ghost use Rattle.std.specs.Prelude.{◌≡◌};
    ghost use Rattle.journal_steps.specs.Values.{JournalValue};
    ghost use Rattle.locked_journal.specs.Begun.{ComesFrom};
    ghost use Rattle.locked_journal.specs.Locked.{IsHeld};

    ghost Value = { JournalValue D };

    ghost view = { λ s. s.journal };

    ghost invariant = { λ s. IsHeld D.state J.name.capacity J.name.shape s.credits s.raiser s.journal × (s.recorded ≡ s.journal.journal.front)
        × ComesFrom D.state D.honest J.name s.journal };
}

impl<J: JournalName, D: Device, R: Record> Exclusive<J, D, R> {
    /// Reconciles both sides for the last time, into one journal with its two words.
    pub fn of(
        counters: Counters<J>,
        reconciler: &SidesReconciler<J, D>,
        locked: Locked<J, D, R>,
        engine: EngineSide<J, D>,
    ) -> Exclusive<J, D, R>
        ensures { Reconciles D.state locked engine result }
    {
        let Locked {
            journal,
            credits,
            mut raiser,
            knowing,
            mut recorded,
        } = locked;
        let journal = both::into_single(reconciler, UnlockedFront { side: journal }, engine);
        knowing.go_on(&mut recorded, journal.front());
        let notified = journal.mark();
        counters.mark.raise(&mut raiser, notified);
        Exclusive {
            counters,
            journal,
            credits,
            raiser,
            knowing,
            recorded,
        }
    }

    /// As `Locked::audit`, of the record that `into_single` returns.
    /// Source: this project's own.
    pub fn audit(&mut self, receipt: &mut SharedReceipt<J, R>)
        ensures stands { Confirms self.old.journal.engine.committed (transactions self.old.journal.front) (own_of_ticket receipt.old) }
        ensures legal { KeepsLegal D.honest self.old }
        ensures same { (self.new ≡ self.old) × (receipt.new ≡ receipt.old) }
    {
        self.journal.recall_invariant();
        self.counters
            .mark
            .confirm(&mut self.raiser, &mut receipt.inner);
        let front = self.journal.front();
        look(&self.knowing, &mut self.recorded, &mut receipt.part, front);
    }

    /// The tally of the journal that `into_single` returns. The word is at least the credits that the front holds, one of them for each
    /// entry.
    /// Source: fs/jbd2/transaction.c by behaviour (`t_outstanding_credits` beside the buffers of the transaction).
    pub fn tally(&mut self) -> Tally
        ensures word { held self.old.journal.front ≤ result.word }
        ensures entries { result.entries ≡ length (entries self.old.journal.front.running.steps) }
        ensures same { self.new ≡ self.old }
    {
        Tally {
            word: self.credits.word(&self.counters.pool),
            entries: self.journal.entries() as u64,
        }
    }

    /// The journal of one thread; the held credits are returned. No handle is open, since each borrowed the shared journal and had to be
    /// stopped.
    pub fn into_single(self) -> OneJournal<D, R>
        ensures journal { result ≡ self }
        ensures reserved { result.journal.front.reserved ≡ 0 }
        ensures capacity { result.journal.front.capacity ≡ J.name.capacity }
        ensures shape { (D.state result.device).shape ≡ J.name.shape }
        ensures comes { ComesFrom D.state D.honest J.name result }
    {
        let Exclusive {
            counters,
            journal,
            credits,
            raiser: _,
            knowing: _,
            recorded: _,
        } = self;
        credits.give_back(&counters.pool);
        journal
    }
}
