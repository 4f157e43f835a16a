//! Makes the two sides of a journal on an opened log.
ghost use Rattle.std.specs.Prelude.{◌≡◌, IfErr, IfOk};
ghost use Rattle.journal_model.specs.declared.refusal.JournalError.TheVariants.{Memory};
ghost use Rattle.journal_world.specs.Journal.{IsFresh};
ghost use Rattle.log_epochs.specs.JournalWorld.{Begins};
ghost use Rattle.group_commit.specs.Begun.{world_of_new};
ghost use Rattle.locked_journal.specs.Sides.{engine_of};

use crate::engine_side::{Alone, EngineSide, SidesReconciler};
use crate::front_side::{SeenEngine, UnlockedFront};
use block_device::Device;
use group_commit::{Journal as OneJournal, KnownFront};
use journal_front::{Front, Record, Unrecorded};
use journal_model::JournalError;
use log_engine::Engine;
use parts::{PartsName, UnnamedReconciler};
use recovery::Opened;
use std::alloc::Global;
use std::marker::Model;

/// The two sides of an unnamed journal.
#[derive(Drop)]
pub struct UnnamedSides<D: Device, R: Record = Unrecorded> {
    front: Front<R>,
    engine: Engine<D>,
    reconciler: UnnamedReconciler<Engine<D>, Alone<D>>,
}

impl<D: Device, R: Record> Model for UnnamedSides<D, R> {
    ghost use Rattle.journal_steps.specs.Journal.{Agrees};
    ghost use Rattle.journal_steps.specs.Legal.{KeepsLegal};
    ghost use Rattle.journal_steps.specs.Values.{together};
    ghost use Rattle.locked_journal.specs.Sides.{SidesValue};

    ghost Value = { SidesValue D };

    ghost view = { λ s. record { reconciler = s.reconciler; journal = together s.front s.engine } };

    ghost invariant = { λ s. Agrees (together s.front s.engine).journal × KeepsLegal D.honest (together s.front s.engine) };
}

impl<D: Device, R: Record> UnnamedSides<D, R> {
    /// The sides of a journal on an opened log, as `group_commit::Journal::new` makes one.
    ///
    /// # Errors
    ///
    /// `Memory`: the opened log comes back.
    pub fn new(alloc: Global, opened: Opened<D>) -> Result<Self, (Opened<D>, JournalError)>
        ensures fresh { IfOk result (λ sides. IsFresh (D.state opened.device).shape opened.superblock opened.next sides.journal.journal) }
        ensures device { IfOk result (λ sides. sides.journal.device ≡ opened.device) }
        ensures begins { IfOk result (λ sides. D.honest opened.device → Begins (world_of_new D.state opened.device sides.journal)) }
        ensures err { IfErr result (λ e. (e.0 ≡ opened) × (e.1 ≡ Memory)) }
    {
        let Ok(reconciler) = UnnamedReconciler::new(alloc) else {
            return Err((opened, JournalError::Memory));
        };
        let journal = OneJournal::new(alloc, opened)?;
        let (front, engine) = journal.into_sides();
        Ok(UnnamedSides {
            front,
            engine,
            reconciler,
        })
    }

    /// The size of a block in bytes.
    pub fn block_size(&self) -> usize
        ensures { result ≡ (D.state self.now.journal.device).shape.block_size }
    {
        self.engine.block_size()
    }

    /// The number of blocks of the home area.
    pub fn home_blocks(&self) -> u64
        ensures { result ≡ (D.state self.now.journal.device).shape.home_blocks }
    {
        self.engine.recall_invariant();
        self.engine.home_blocks()
    }

    /// The sides of the journal that J names, and their reconciler. The caller must show that J names this reconciler.
    pub fn named<J: PartsName>(
        self,
    ) -> (
        SidesReconciler<J, D>,
        UnlockedFront<J, D, R>,
        EngineSide<J, D>,
    )
        requires { self.reconciler ≡ J.parts }
        ensures front { result.1 ≡ self.journal }
        ensures engine { result.2 ≡ engine_of self.journal }
    {
        self.engine.recall_invariant();
        let UnnamedSides {
            front,
            engine,
            reconciler,
        } = self;
        let (reconciler, follower, owner) = reconciler.named::<J>(&engine);
        let side = KnownFront::of(front, SeenEngine { follower });
        (
            reconciler,
            UnlockedFront { side },
            EngineSide { engine, owner },
        )
    }
}
