//! What a close does before it closes the log: it seals the running transaction, commits everything and releases it.
ghost use Rattle.std.specs.Prelude.{◌≡◌, ◌<◌, ◌≤◌, false, length, [], IfErr, OnOk};
ghost use Rattle.journal_model.specs.declared.refusal.JournalError.TheVariants.{Device as DeviceFailed};
ghost use Rattle.journal_world.specs.declared.stage.Stage.TheVariants.{Idle};
ghost use Rattle.log_epochs.specs.EngineWorld.Phase.{Running};
ghost use Rattle.group_commit.specs.Calls.{CallsForTurns};
ghost use Rattle.group_commit.specs.During.{HoldsDuringTurns};
ghost use Rattle.group_commit.specs.Close.{CloseRefused, ComesTo, HasSealed, IsFinished, LastRefused, Went, WentWrong};
ghost use Rattle.group_commit.specs.Rounds.{MakesNoRound, MakesRoomAlone};
ghost use Rattle.journal_steps.specs.Journal.{HasRoomFor};

use crate::journal::Journal;
use block_device::Device;
use journal_front::Record;
use journal_model::JournalError;

/// Seals the running transaction if a handle has joined it, then commits and releases everything.
pub(crate) fn finish<D: Device, R: Record>(journal: &mut Journal<D, R>) -> Result<(), JournalError>
    requires { journal.old.journal.front.open_handles ≡ [] }
    ensures ok { OnOk result (IsFinished D.state journal.old journal.new) }
    ensures err { IfErr result (λ e. CloseRefused D.state journal.old journal.new.device journal.new.journal.front.sealed journal.new.journal.engine.committed e) }
    ensures path { ComesTo journal.old.journal (D.state journal.old.device).disk journal.new.journal (D.state journal.new.device).disk Running }
    ensures measures { journal.new.journal.engine.shape ≡ journal.old.journal.engine.shape }
    ensures shape { (D.state journal.new.device).shape ≡ (D.state journal.old.device).shape }
    ensures calls { CallsForTurns D.state journal.old journal.new }
    ensures moments { D.honest journal.new.device → HoldsDuringTurns D.state journal.old journal.new }
    ensures honest { D.honest journal.new.device → D.honest journal.old.device }
{
    journal.recall_invariant();
    if journal.is_aborted() {
        return Err(JournalError::Aborted);
    }
    if journal.has_joined() {
        seal_last(journal)?;
    } else {
        finish_commit(journal)?;
    }
    journal.release_all()
}

/// Seals and commits the running transaction, after the commit under way. It requests all memory first: if that runs out, nothing is
/// done.
pub(crate) fn seal_last<D: Device, R: Record>(
    journal: &mut Journal<D, R>,
) -> Result<(), JournalError>
    requires running { journal.old.journal.engine.aborted ≡ false }
    requires joined { 0 < length journal.old.journal.front.running.handles }
    requires stopped { journal.old.journal.front.open_handles ≡ [] }
    ensures ok { OnOk result (HasSealed D.state journal.old journal.new) }
    ensures rounds { OnOk result (MakesRoomAlone D.state journal.old journal.new) }
    ensures idle { OnOk result (journal.new.journal.engine.stage ≡ Idle) }
    ensures err { IfErr result (LastRefused D.state journal.old journal.new) }
    ensures path { ComesTo journal.old.journal (D.state journal.old.device).disk journal.new.journal (D.state journal.new.device).disk Running }
    ensures measures { journal.new.journal.engine.shape ≡ journal.old.journal.engine.shape }
    ensures shape { (D.state journal.new.device).shape ≡ (D.state journal.old.device).shape }
    ensures calls { CallsForTurns D.state journal.old journal.new }
    ensures moments { D.honest journal.new.device → HoldsDuringTurns D.state journal.old journal.new }
    ensures honest { D.honest journal.new.device → D.honest journal.old.device }
{
    journal.recall_invariant();
    let batch = journal.ready_batch()?;
    make_room(journal)?;
    journal.seal_running(batch)?;
    finish_commit(journal)
}

/// Takes the remaining steps of the commit under way.
pub(crate) fn finish_commit<D: Device, R: Record>(
    journal: &mut Journal<D, R>,
) -> Result<(), JournalError>
    requires { journal.old.journal.engine.aborted ≡ false }
    ensures ok { OnOk result (Went D.state journal.old journal.new) }
    ensures rounds { OnOk result (MakesNoRound journal.old.journal.engine journal.new.journal.engine) }
    ensures idle { OnOk result (journal.new.journal.engine.stage ≡ Idle) }
    ensures err { IfErr result (λ e. (e ≡ DeviceFailed) × WentWrong D.state journal.old journal.new) }
    ensures calls { CallsForTurns D.state journal.old journal.new }
    ensures moments { D.honest journal.new.device → HoldsDuringTurns D.state journal.old journal.new }
    ensures honest { D.honest journal.new.device → D.honest journal.old.device }
{
    journal.recall_invariant();
    while !journal.is_idle() {
        journal.recall_invariant();
        journal.commit_step()?;
    }
    Ok(())
}

/// Finishes the commit under way, then releases everything if the ring has too few free blocks for the running transaction.
fn make_room<D: Device, R: Record>(journal: &mut Journal<D, R>) -> Result<(), JournalError>
    requires { journal.old.journal.engine.aborted ≡ false }
    ensures ok { OnOk result (Went D.state journal.old journal.new) }
    ensures rounds { OnOk result (MakesRoomAlone D.state journal.old journal.new) }
    ensures idle { OnOk result (journal.new.journal.engine.stage ≡ Idle) }
    ensures room { OnOk result (HasRoomFor journal.new.journal) }
    ensures err { IfErr result (λ e. (e ≡ DeviceFailed) × WentWrong D.state journal.old journal.new) }
    ensures calls { CallsForTurns D.state journal.old journal.new }
    ensures moments { D.honest journal.new.device → HoldsDuringTurns D.state journal.old journal.new }
    ensures honest { D.honest journal.new.device → D.honest journal.old.device }
{
    finish_commit(journal)?;
    journal.recall_invariant();
    if journal.has_room() {
        return Ok(());
    }
    journal.release_all()
}
