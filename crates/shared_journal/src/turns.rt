//! What a thread may do with a journal that it commits for: lock the running transaction, take turns, wait and look. `leading` says when.
ghost use Rattle.std.specs.Prelude.{◌≡◌, true, IfErr, IfOk, OnOk};
ghost use Rattle.journal_model.specs.declared.refusal.JournalError.TheVariants.{Aborted};
ghost use Rattle.journal_steps.specs.Journal.{Requests};
ghost use Rattle.journal_steps.specs.Values.{JournalValue};
ghost use Rattle.shared_journal.specs.Moments.{AtOneMoment};
ghost use Rattle.shared_journal.specs.Turns.{CheckTurnThen, FailureKnownThen, RefusalKnown, RoundRefusedThen, TurnAcknowledged, TurnRefusedThen, TurnThen};

use crate::event_counter::EventCounter;
use crate::journal::Journal;
use crate::leading::Pace;
use block_device::Device;
use group_commit::{CheckTurn, Record, Turn};
use handle::JournalName;
use journal_model::{JournalError, Tid};
use std::sync::{MutexGuard, Wait};

/// A journal whose turns can be taken, and whose running transaction can be locked. Who has only this starts no handle and writes no block,
/// not directly either: nothing leads from it to the journal. Each call is the journal's of that name, or takes turns by these.
#[derive(Drop)]
pub struct Turns<'s, J: JournalName, D: Device, R: Record> {
    journal: &'s Journal<J, D, R>,
}

impl<'s, J: JournalName, D: Device, R: Record> Turns<'s, J, D, R> {
    /// Those of this journal.
    pub fn of(journal: &'s Journal<J, D, R>) -> Self {
        Turns { journal }
    }

    /// As `Journal::lock`.
    ///
    /// # Errors
    ///
    /// `Aborted` after a device failure: nothing changes.
    pub fn lock<W: Wait>(&self, rt: &W) -> Result<Tid, JournalError>
        ensures locks { IfOk result (λ tid. AtOneMoment (λ (old new : JournalValue D). (tid ≡ old.journal.front.running.tid) × Requests D.state tid old new)) }
        ensures err { IfErr result (λ e. e ≡ Aborted) }
        ensures why { IfErr result (λ e. AtOneMoment (λ (old new : JournalValue D). (old.journal.front.aborted ≡ true) × (new ≡ old))) }
    {
        self.journal.lock(rt)
    }

    /// As `Journal::commit_turn`.
    ///
    /// # Errors
    ///
    /// Those of `Journal::commit_turn`.
    pub fn commit_turn<W: Wait>(&self, rt: &W) -> Result<Turn, JournalError>
        ensures ok { IfOk result (TurnThen D.state) }
        ensures acknowledged { IfOk result (TurnAcknowledged D) }
        ensures why { IfErr result (TurnRefusedThen D.state) }
        ensures known { IfErr result (RefusalKnown D) }
    {
        self.journal.commit_turn(rt)
    }

    /// As `Journal::checkpoint_turn`.
    ///
    /// # Errors
    ///
    /// Those of `Journal::checkpoint_turn`.
    pub fn checkpoint_turn<W: Wait>(&self, rt: &W) -> Result<CheckTurn, JournalError>
        ensures ok { IfOk result (CheckTurnThen D.state) }
        ensures why { IfErr result (RoundRefusedThen D.state) }
        ensures known { IfErr result (λ _. FailureKnownThen D) }
    {
        self.journal.checkpoint_turn(rt)
    }

    // For who leads alone

    /// `Journal::due_round_turn`.
    pub(crate) fn due_round_turn<W: Wait>(&self, rt: &W) -> Result<bool, JournalError>
        ensures why { IfErr result (RoundRefusedThen D.state) }
        ensures known { IfErr result (λ _. FailureKnownThen D) }
    {
        self.journal.due_round_turn(rt)
    }

    /// `Journal::lock_half_full`.
    pub(crate) fn lock_half_full<W: Wait>(&self, rt: &W) -> Result<(), JournalError>
        ensures err { IfErr result (λ e. e ≡ Aborted) }
        ensures why { IfErr result (λ e. AtOneMoment (λ (old new : JournalValue D). (old.journal.front.aborted ≡ true) × (new ≡ old))) }
    {
        self.journal.lock_half_full(rt)
    }

    /// `Journal::is_half_full`.
    pub(crate) fn is_half_full(&self) -> bool {
        self.journal.is_half_full()
    }

    /// `Journal::is_aborted`.
    pub(crate) fn is_aborted<W: Wait>(&self, rt: &W) -> bool
        ensures { AtOneMoment (λ (old new : JournalValue D). (result ≡ old.journal.engine.aborted) × (new ≡ old)) }
    {
        self.journal.is_aborted(rt)
    }

    /// The right to lead, unless another thread has it.
    pub(crate) fn try_pace(&self) -> Option<MutexGuard<'s, Pace>> {
        self.journal.pace.try_lock()
    }

    /// Waits for a commit that have begun.
    pub(crate) fn arrivals(&self) -> &'s EventCounter {
        &self.journal.arrivals
    }

    /// What those sleep on who wait for a leader.
    pub(crate) fn commits(&self) -> &'s EventCounter {
        &self.journal.commits
    }

    /// What those sleep on who wait for stops, credits or a seal.
    pub(crate) fn changes(&self) -> &'s EventCounter {
        &self.journal.changes
    }

    /// Has whoever leads notify `changes` in the end.
    pub(crate) fn follow(&self) {
        self.journal.follow();
    }

    /// Whether somebody called `follow` since this was last asked.
    pub(crate) fn take_followers(&self) -> bool {
        self.journal.take_followers()
    }
}
