//! Laws: what an engine did alone are moves of the journal's machine; which of the holders' facts each step of a journal preserves or adds.
//! The functions have no body to run.
ghost use Rattle.std.specs.Prelude.{◌≡◌, ◌≢◌, ◌≤◌, ◌+◌, ◌++◌, [], ◌∷◌, List, None, Some, ℕ};
ghost use Rattle.std.specs.List.{flat_map};
ghost use Rattle.journal_model.specs.declared.transaction.Step.{Step};
ghost use Rattle.journal_model.specs.Disk.{Disk};
ghost use Rattle.journal_world.specs.Front.FrontEvent.{ExtendHandle, Join, RevokeBlock, StopHandle, WriteBlock};
ghost use Rattle.journal_world.specs.Front.{Front, FrontHappens, next_handle, read_step, reading_block, revoke_step, transactions, write_step};
ghost use Rattle.journal_world.specs.Journal.{Event, Happens, Journal};
ghost use Rattle.journal_world.specs.Journal.Event.{FrontStep};
ghost use Rattle.log_engine.specs.Engine.{EngineValue};
ghost use Rattle.log_epochs.specs.EngineWorld.Phase.{Running};
ghost use Rattle.group_commit.specs.Close.{ComesTo};
ghost use Rattle.journal_front.specs.Front.{IsOpenHandle, Spends};
ghost use Rattle.journal_front.specs.Values.{HandleValue};
ghost use Rattle.journal_steps.specs.Handles.{KeepsHandles};
ghost use Rattle.journal_steps.specs.Journal.{Agrees};
ghost use Rattle.journal_steps.specs.Values.{JournalValue, together};
ghost use Rattle.locked_journal.specs.Alone.{RanAlone};
ghost use Rattle.locked_journal.specs.declared.own.OwnSteps.{OwnSteps};
ghost use Rattle.locked_journal.specs.Knowing.{MayAdd, MayGo, actor};
ghost use Rattle.locked_journal.specs.Own.{Confirms, IsOwn, open_own, steps_by, stopped_own};
ghost use Rattle.locked_journal.specs.Run.{HasMade, Runs, block_steps};
ghost use Rattle.locked_journal.specs.Sides.{Reconciles};

use block_device::Device;

/// The steps of an engine alone are moves of the machine, whatever its front. So what holds of every run holds of them.
pub fn what_an_engine_did_alone_are_moves_of_its_journal<D: Device>()
    ensures { (f : Front) (old new : EngineValue D) → RanAlone D.state old new →
        ComesTo (together f old).journal (D.state old.device).disk (together f new).journal (D.state new.device).disk Running }
{}

/// A reconciliation is moves of the machine: the engine's steps, then the front's learning of a failure or of a commit.
pub fn a_reconciliation_makes_moves_of_its_journal<D: Device>()
    ensures { (front mid : JournalValue D) (engine : EngineValue D) → Reconciles D.state front engine mid →
        ComesTo front.journal (D.state front.device).disk mid.journal (D.state mid.device).disk Running }
{}

/// Each step preserves the facts of every holder but the one whose handle makes it.
pub fn a_step_leaves_the_others_what_they_know()
    ensures { (old new : Journal) (disk after : Disk) (event : Event) (x : OwnSteps) → KeepsHandles old.front → actor event ≢ Some x.number →
        Happens old disk event new after → IsOwn old.front x → IsOwn new.front x }
{}

/// A handle that joins has no steps.
pub fn a_handle_that_joins_has_no_steps()
    ensures { (old new : Front) (n : ℕ) → KeepsHandles old → FrontHappens old (Join n) new →
        MayAdd old new (open_own (record { number = next_handle old; tid = old.running.tid; left = n }) []) }
{}

/// A handle gains exactly the steps that it makes.
pub fn a_step_is_noted_for_its_handle()
    ensures extend { (old new : Front) (h : HandleValue) (n : ℕ) (steps : List Step) → KeepsHandles old →
        FrontHappens old (ExtendHandle h.number n) new →
        MayGo old (open_own h steps) new (open_own (record h { left = h.left + n }) steps) }
    ensures write { (old new : Front) (h after : HandleValue) (b : ℕ) (v : List ℕ) (steps : List Step) → KeepsHandles old →
        FrontHappens old (WriteBlock h.number b v) new → Spends old b h after →
        MayGo old (open_own h steps) new (open_own after (steps ++ write_step h.number b v ∷ [])) }
    ensures revoke { (old new : Front) (h after : HandleValue) (b : ℕ) (steps : List Step) → KeepsHandles old →
        FrontHappens old (RevokeBlock h.number b) new → Spends old b h after →
        MayGo old (open_own h steps) new (open_own after (steps ++ revoke_step h.number b ∷ [])) }
    ensures read { (old : Front) (h : HandleValue) (b : ℕ) (v : List ℕ) (steps : List Step) →
        MayGo old (open_own h steps) (reading_block old h.number b v) (open_own h (steps ++ read_step h.number b v ∷ [])) }
    ensures stop { (old new : Front) (h : HandleValue) (steps : List Step) → KeepsHandles old → FrontHappens old (StopHandle h.number) new →
        MayGo old (open_own h steps) new (stopped_own h.number h.tid steps) }
{}

/// Over every run of events, a handle gains exactly its own steps on blocks, in order, after those that its holder knew, all in its one
/// transaction.
pub fn over_every_run_a_handle_has_its_own_steps()
    ensures { (old new : Journal) (disk after : Disk) (events : List Event) (own : OwnSteps) → KeepsHandles old.front →
        Runs old disk events new after → IsOwn old.front own → HasMade new.front own (steps_by own.number (flat_map block_steps events)) }
{}

/// A handle that is open to its holder is an open one of the front, and the running transaction has exactly its steps.
pub fn a_handle_that_has_not_stopped_is_open()
    ensures open_handle { (f : Front) (h : HandleValue) (steps : List Step) → IsOwn f (open_own h steps) → IsOpenHandle f h }
    ensures steps { (f : Front) (h : HandleValue) (steps : List Step) → IsOwn f (open_own h steps) → steps_by h.number f.running.steps ≡ steps }
{}

/// The record confirms each receipt.
pub fn the_record_confirms_a_receipt()
    ensures { (j : Journal) (own : OwnSteps) → Agrees j → IsOwn j.front own → own.tid ≤ j.front.mark →
        Confirms j.engine.committed (transactions j.front) own }
{}

/// Whatever events follow a join: once the handle's transaction is acknowledged, the record confirms that the handle has exactly the steps
/// that it made.
pub fn the_record_has_what_a_handle_did()
    ensures { (old mid new : Journal) (disk between after : Disk) (n : ℕ) (events : List Event) → KeepsHandles old.front →
        Happens old disk (FrontStep (Join n)) mid between → Runs mid between events new after → Agrees new →
        old.front.running.tid ≤ new.front.mark →
        Confirms new.engine.committed (transactions new.front)
        (stopped_own (next_handle old.front) old.front.running.tid (steps_by (next_handle old.front) (flat_map block_steps events))) }
{}
