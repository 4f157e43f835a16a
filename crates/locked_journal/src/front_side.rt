//! The front's side: the front with the engine as last reconciled, whose calls are those of `KnownFront`.
ghost use Rattle.std.specs.Prelude.{◌≡◌};
ghost use Rattle.locked_journal.specs.Alone.{IsSince};
ghost use Rattle.locked_journal.specs.Sides.{IsSeen};

use crate::engine_side::SidesReconciler;
use block_device::Device;
use group_commit::{KnownFront, KnowsEngine};
use journal_front::{Record, Unrecorded};
use log_engine::Engine;
use parts::{Follower, Owner, PartsName};
use std::marker::{Model, PhantomData};

/// The engine as the front knows it: as last reconciled.
#[derive(Drop)]
pub struct SeenEngine<J: PartsName, D: Device> {
    pub(crate) follower: Follower<J, Engine<D>>,
}

impl<J: PartsName, D: Device> Model for SeenEngine<J, D> {
    ghost use Rattle.log_engine.specs.Engine.{EngineValue};
    ghost use Rattle.locked_journal.specs.Sides.{IsSeen};

    ghost Value = { EngineValue D };

    ghost view = { λ s. s.follower };

    ghost invariant = { λ s. IsSeen D.state D.honest s.follower };
}

impl<J: PartsName, D: Device> SeenEngine<J, D> {
    /// States the invariant for callers' proofs, and does nothing.
    pub(crate) fn recall_invariant(&self)
        ensures { IsSeen D.state D.honest self.now }
    {
        let _follower = &self.follower;
    }

    /// Reconciles: the front now knows the engine as it is, and the engine has gone on alone since the front last saw it.
    pub(crate) fn see(
        &mut self,
        reconciler: &SidesReconciler<J, D>,
        owner: &mut Owner<J, Engine<D>>,
        engine: &Engine<D>,
    )
        ensures was { IsSeen D.state D.honest self.old }
        ensures is { IsSeen D.state D.honest engine.now }
        ensures since { IsSince D.state D.honest self.old owner.old }
        ensures seen { self.new ≡ engine.now }
        ensures owner { owner.new ≡ engine.now }
    {
        engine.recall_invariant();
        reconciler.reconcile(&mut self.follower, owner, engine);
    }
}

/// Knows the engine of the journal that J names as last reconciled.
pub struct LastSeen<J> {
    of: PhantomData<J>,
}

impl<J: PartsName, D: Device> KnowsEngine<D> for LastSeen<J> {
    type Known = SeenEngine<J, D>;

    ghost engine = { λ e. e };

    fn recall_invariant(known: &SeenEngine<J, D>) {
        known.recall_invariant();
    }
}

/// The front's side of a journal. Contracts see the front with the engine as last reconciled: the journal of now, except for what the
/// engine has done alone since. A step of the front is a step of that journal.
pub type FrontSide<J, D, R> = KnownFront<D, LastSeen<J>, R>;

/// The front's side of a journal as a value to pass on: under no lock yet, or no more.
#[derive(Drop)]
pub struct UnlockedFront<J: PartsName, D: Device, R: Record = Unrecorded> {
    pub(crate) side: FrontSide<J, D, R>,
}

impl<J: PartsName, D: Device, R: Record> Model for UnlockedFront<J, D, R> {
    ghost use Rattle.journal_steps.specs.Values.{JournalValue};

    ghost Value = { JournalValue D };

    ghost view = { λ s. s.side };
}
