//! Calls that take many turns: commit one transaction, commit all, make room ahead of need, release all.
ghost use Rattle.std.specs.Prelude.{◌≡◌, ◌≤◌, IfErr, IfOk, OnOk};
ghost use Rattle.journal_world.specs.declared.stage.Stage.TheVariants.{Idle};
ghost use Rattle.log_epochs.specs.EngineWorld.Phase.{Running};
ghost use Rattle.group_commit.specs.AllTurns.{AllTurnsRefused, CommitRefused, CommitsAll, CommitsThrough, ReleaseRefused};
ghost use Rattle.group_commit.specs.Calls.{CallsForTurns};
ghost use Rattle.group_commit.specs.Close.{ComesTo, Went};
ghost use Rattle.group_commit.specs.During.{HoldsDuringRounds, HoldsDuringTurns};
ghost use Rattle.group_commit.specs.Rounds.{KeepsRoom};
ghost use Rattle.journal_steps.specs.Journal.{NothingToRelease};

use crate::close::{finish_commit, seal_last};
use crate::journal::Journal;
use crate::ticket::{Receipt, Ticket};
use block_device::Device;
use journal_front::Record;
use journal_model::{JournalError, Tid};
use journal_steps::CheckTurn;

impl<D: Device, R: Record> Journal<D, R> {
    /// Requests the commit of the ticket's transaction and takes all turns, as `commit_all` does; the ticket becomes its receipt.
    ///
    /// # Errors
    ///
    /// The ticket comes back. Those of `commit_all`, and the request stays made unless the answer is `Aborted`; `NotRunning` if another
    /// handle of the transaction is still open: it takes no further ones, so call again once that has stopped. A ticket of another journal
    /// may get this answer too. After `Device` the transaction may be committed all the same, as `status` then says.
    /// Source: fs/jbd2/journal.c by behaviour (`jbd2_complete_transaction`).
    pub fn commit(&mut self, ticket: Ticket) -> Result<Receipt, (Ticket, JournalError)>
        ensures ok { IfOk result (λ receipt. (receipt ≡ ticket) × (ticket.tid ≤ self.new.journal.front.mark)) }
        ensures turns { OnOk result (CommitsThrough D.state ticket.tid self.old self.new) }
        ensures err { IfErr result (λ e. (e.0 ≡ ticket) × CommitRefused D.state ticket.tid self.old self.new e.1) }
        ensures path { ComesTo self.old.journal (D.state self.old.device).disk self.new.journal (D.state self.new.device).disk Running }
        ensures shape { (D.state self.new.device).shape ≡ (D.state self.old.device).shape }
        ensures calls { CallsForTurns D.state self.old self.new }
        ensures moments { D.honest self.new.device → HoldsDuringTurns D.state self.old self.new }
        ensures honest { D.honest self.new.device → D.honest self.old.device }
    {
        match self.commit_through(ticket.tid()) {
            Ok(()) => Ok(Receipt::new(ticket.handle(), ticket.tid())),
            Err(e) => Err((ticket, e)),
        }
    }

    /// Requests the commit of this transaction, then takes all turns.
    fn commit_through(&mut self, tid: Tid) -> Result<(), JournalError>
        ensures ok { OnOk result (tid ≤ self.new.journal.front.mark) }
        ensures turns { OnOk result (CommitsThrough D.state tid self.old self.new) }
        ensures err { IfErr result (CommitRefused D.state tid self.old self.new) }
        ensures path { ComesTo self.old.journal (D.state self.old.device).disk self.new.journal (D.state self.new.device).disk Running }
        ensures shape { (D.state self.new.device).shape ≡ (D.state self.old.device).shape }
        ensures calls { CallsForTurns D.state self.old self.new }
        ensures moments { D.honest self.new.device → HoldsDuringTurns D.state self.old self.new }
        ensures honest { D.honest self.new.device → D.honest self.old.device }
    {
        self.recall_invariant();
        self.request_commit(tid)?;
        let mark = self.commit_all()?;
        if mark.0 < tid.0 {
            return Err(JournalError::NotRunning);
        }
        Ok(())
    }

    /// Commits everything that can be committed, and answers the commit mark. It finishes the commit under way, then seals and commits
    /// the running transaction if that is locked without open handles, after checkpoint rounds if the ring lacks room. If it sealed one, it
    /// then takes checkpoint turns ahead of need, as `keep_room` does: as many as these commits took ring blocks. It makes the device calls
    /// of these steps alone, and at each moment the crash image opens as between them.
    ///
    /// # Errors
    ///
    /// `Aborted`, `Device`, `Memory`. What was sealed and committed stays so. `Device` may also come of a turn ahead of need, when all is
    /// committed: `mark` says so. `Memory` is for the seal, and comes before the first device call, so nothing is done. (The contract also
    /// allows it after the commit under way, with the transaction as it was.)
    /// Source: fs/jbd2/journal.c by behaviour (`jbd2_journal_flush` up to its checkpoint).
    pub fn commit_all(&mut self) -> Result<Tid, JournalError>
        ensures mark { IfOk result (λ tid. tid ≡ self.new.journal.front.mark) }
        ensures ok { OnOk result (CommitsAll D.state self.old self.new) }
        ensures idle { OnOk result (self.new.journal.engine.stage ≡ Idle) }
        ensures err { IfErr result (AllTurnsRefused D.state self.old self.new) }
        ensures path { ComesTo self.old.journal (D.state self.old.device).disk self.new.journal (D.state self.new.device).disk Running }
        ensures shape { (D.state self.new.device).shape ≡ (D.state self.old.device).shape }
        ensures calls { CallsForTurns D.state self.old self.new }
        ensures moments { D.honest self.new.device → HoldsDuringTurns D.state self.old self.new }
        ensures honest { D.honest self.new.device → D.honest self.old.device }
    {
        self.recall_invariant();
        if self.is_aborted() {
            return Err(JournalError::Aborted);
        }
        if self.is_ready() {
            let before = self.position();
            seal_last(self)?;
            let blocks = self.position().saturating_sub(before);
            self.keep_room(blocks)?;
            return Ok(self.mark());
        }
        finish_commit(self)?;
        Ok(self.mark())
    }

    /// Takes so many checkpoint turns, or fewer: each only while a round is due, since one is under way or committed transactions that are
    /// not released take at least half of the ring, or are 128. Whoever takes commit turns makes room ahead of need by it: after
    /// each commit, as many turns as the commit had. It takes no commit step, and leaves handles and credits. It makes the device calls of
    /// its rounds alone, and at each moment the crash image opens as between them.
    ///
    /// A round writes no more blocks than the ring had taken when it began. With as many turns for each commit as that took ring blocks, it is
    /// over when about as many more are taken.
    ///
    /// # Errors
    ///
    /// `Aborted`, `Device`. What was written home stays.
    /// Source: fs/jbd2/checkpoint.c by behaviour; that a round is made in parts is this project's own.
    pub fn keep_room(&mut self, turns: u64) -> Result<(), JournalError>
        ensures ok { OnOk result (Went D.state self.old self.new) }
        ensures rounds { OnOk result (KeepsRoom D.state turns self.old self.new) }
        ensures stage { self.new.journal.engine.stage ≡ self.old.journal.engine.stage }
        ensures committed { self.new.journal.engine.committed ≡ self.old.journal.engine.committed }
        ensures front { OnOk result (self.new.journal.front ≡ self.old.journal.front) }
        ensures err { IfErr result (ReleaseRefused D.state self.old self.new) }
        ensures calls { CallsForTurns D.state self.old self.new }
        ensures moments { D.honest self.new.device → HoldsDuringRounds D.state self.old self.new }
        ensures honest { D.honest self.new.device → D.honest self.old.device }
    {
        self.recall_invariant();
        if self.is_aborted() {
            return Err(JournalError::Aborted);
        }
        for _ in 0..turns {
            self.recall_invariant();
            if !self.is_round_due() {
                return Ok(());
            }
            self.checkpoint_turn()?;
        }
        Ok(())
    }

    /// Takes checkpoint turns until everything committed is home and the whole ring is free. It takes no commit step, and leaves
    /// handles and credits. It makes the device calls of its rounds alone, and at each moment the crash image opens as between them.
    ///
    /// # Errors
    ///
    /// `Aborted`, `Device`. What was written home stays.
    /// Source: fs/jbd2/checkpoint.c by behaviour (`jbd2_log_do_checkpoint`).
    pub fn release_all(&mut self) -> Result<(), JournalError>
        ensures ok { OnOk result (Went D.state self.old self.new) }
        ensures released { OnOk result (NothingToRelease self.new.journal.engine) }
        ensures free { OnOk result (self.new.journal.engine.start ≡ self.new.journal.engine.tail) }
        ensures stage { self.new.journal.engine.stage ≡ self.old.journal.engine.stage }
        ensures committed { self.new.journal.engine.committed ≡ self.old.journal.engine.committed }
        ensures front { OnOk result (self.new.journal.front ≡ self.old.journal.front) }
        ensures err { IfErr result (ReleaseRefused D.state self.old self.new) }
        ensures calls { CallsForTurns D.state self.old self.new }
        ensures moments { D.honest self.new.device → HoldsDuringRounds D.state self.old self.new }
        ensures honest { D.honest self.new.device → D.honest self.old.device }
    {
        self.recall_invariant();
        if self.is_aborted() {
            return Err(JournalError::Aborted);
        }
        loop {
            self.recall_invariant();
            match self.checkpoint_turn()? {
                CheckTurn::Idle => {
                    self.recall_invariant();
                    return Ok(());
                }
                CheckTurn::Step | CheckTurn::Released(_) => {}
            }
        }
    }
}
