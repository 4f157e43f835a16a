//! The engine's side: the engine, its place at the reconciler, and the steps that it makes without the front.
ghost use Rattle.std.specs.Prelude.{◌≡◌, ◌↔◌, IfErr, IfOk, IsTrue, OnOk};
ghost use Rattle.block_device.specs.Call.{MakesOneCall};
ghost use Rattle.log_engine.specs.Engine.{IsDuringCommit, IsDuringRound, RoundDid, RoundRefused, StepDid, StepRefused};
ghost use Rattle.log_engine.specs.Left.{LeavesFewer, commit_calls, round_calls};
ghost use Rattle.log_engine.specs.Rounds.{IsRoundDue};
ghost use Rattle.locked_journal.specs.Alone.{StepsAlone};

use block_device::{Device, Durable, Syncing};
use journal_model::{Area, JournalError};
use log_engine::{Engine, Progress};
use parts::{Owner, PartsName, Reconciler, Since};
use std::marker::{Model, PhantomData};

/// What a front knows of the engine as last reconciled: since then the engine has gone on alone.
pub struct Alone<D> {
    of: PhantomData<D>,
}

impl<D: Device> Since<Engine<D>> for Alone<D> {
    ghost use Rattle.locked_journal.specs.Alone.{IsSince};

    ghost since = { λ reconciled now. IsSince D.state D.honest reconciled now };
}

/// Where the two sides of the journal that J names are reconciled.
pub type SidesReconciler<J, D> = Reconciler<J, Engine<D>, Alone<D>>;

/// The engine's side of a journal.
#[derive(Drop)]
pub struct EngineSide<J: PartsName, D: Device> {
    pub(crate) engine: Engine<D>,
    pub(crate) owner: Owner<J, Engine<D>>,
}

impl<J: PartsName, D: Device> Model for EngineSide<J, D> {
    ghost use Rattle.std.specs.Prelude.{◌≡◌};
    ghost use Rattle.log_engine.specs.Engine.{EngineValue};

    ghost Value = { EngineValue D };

    ghost view = { λ s. s.engine };

    ghost invariant = { λ s. s.owner ≡ s.engine };
}

impl<J: PartsName, D: Device> EngineSide<J, D> {
    /// One step of the commit in progress, as `Engine::commit_step`: at most one device call. The front learns of it when reconciled.
    ///
    /// # Errors
    ///
    /// `Aborted` after a device failure. `Device` if the device failed now.
    pub fn commit_step(
        &mut self,
        reconciler: &SidesReconciler<J, D>,
    ) -> Result<Progress, JournalError>
        ensures alone { StepsAlone D.state self.old self.new }
        ensures ok { IfOk result (λ p. StepDid p self.old.engine (D.state self.old.device).disk self.new.engine (D.state self.new.device).disk) }
        ensures err { IfErr result (λ e. StepRefused self.old.engine (D.state self.old.device) self.new.engine (D.state self.new.device) e) }
        ensures no_fault { OnOk result ((D.state self.new.device).faults ≡ (D.state self.old.device).faults) }
        ensures fewer { IfOk result (λ p. LeavesFewer commit_calls p self.old.engine self.new.engine) }
        ensures device { MakesOneCall D.state D.honest (IsDuringCommit self.old.engine (D.state self.old.device).disk) self.old.device self.new.device }
    {
        let step = self.engine.commit_step();
        reconciler.go_on(&mut self.owner, &self.engine);
        step
    }

    /// One step of a checkpoint round, as `Engine::checkpoint_step`: at most one device call. The front learns of it when reconciled.
    ///
    /// # Errors
    ///
    /// `Aborted` after a device failure. `Device` if the device failed now.
    pub fn checkpoint_step(
        &mut self,
        reconciler: &SidesReconciler<J, D>,
    ) -> Result<Progress, JournalError>
        ensures alone { StepsAlone D.state self.old self.new }
        ensures ok { IfOk result (λ p. RoundDid p self.old.engine (D.state self.old.device).disk self.new.engine (D.state self.new.device).disk) }
        ensures err { IfErr result (λ e. RoundRefused self.old.engine (D.state self.old.device) self.new.engine (D.state self.new.device) e) }
        ensures no_fault { OnOk result ((D.state self.new.device).faults ≡ (D.state self.old.device).faults) }
        ensures fewer { IfOk result (λ p. LeavesFewer round_calls p self.old.engine self.new.engine) }
        ensures device { MakesOneCall D.state D.honest (IsDuringRound self.old.engine (D.state self.old.device).disk) self.old.device self.new.device }
    {
        let step = self.engine.checkpoint_step();
        reconciler.go_on(&mut self.owner, &self.engine);
        step
    }

    /// As `Engine::begin_flush`, if the commit's next step is a flush.
    pub fn begin_commit_flush(&mut self, reconciler: &SidesReconciler<J, D>) -> Option<Syncing>
        ensures alone { StepsAlone D.state self.old self.new }
        ensures engine { self.new.engine ≡ self.old.engine }
    {
        let area = self.engine.commit_flush()?;
        self.begin_flush(reconciler, area)
    }

    /// As `Engine::begin_flush`, if the round's next step is a flush.
    pub fn begin_round_flush(&mut self, reconciler: &SidesReconciler<J, D>) -> Option<Syncing>
        ensures alone { StepsAlone D.state self.old self.new }
        ensures engine { self.new.engine ≡ self.old.engine }
    {
        let area = self.engine.round_flush()?;
        self.begin_flush(reconciler, area)
    }

    fn begin_flush(&mut self, reconciler: &SidesReconciler<J, D>, area: Area) -> Option<Syncing>
        ensures alone { StepsAlone D.state self.old self.new }
        ensures engine { self.new.engine ≡ self.old.engine }
    {
        let syncing = self.engine.begin_flush(area);
        reconciler.go_on(&mut self.owner, &self.engine);
        syncing
    }

    /// As `Engine::end_flush`.
    pub fn end_flush(&mut self, reconciler: &SidesReconciler<J, D>, durable: Durable)
        ensures alone { StepsAlone D.state self.old self.new }
        ensures engine { self.new.engine ≡ self.old.engine }
    {
        self.engine.end_flush(durable);
        reconciler.go_on(&mut self.owner, &self.engine);
    }

    /// Whether a checkpoint round is due, as `Engine::is_round_due`.
    pub fn is_round_due(&self) -> bool
        ensures { IsTrue result ↔ IsRoundDue self.now.engine }
    {
        self.engine.is_round_due()
    }

    /// Whether the device has failed.
    pub fn is_aborted(&self) -> bool
        ensures { result ≡ self.now.engine.aborted }
    {
        self.engine.is_aborted()
    }
}
