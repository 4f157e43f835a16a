//! Steps of both sides: each reconciles front and engine, and then makes one step of `journal_steps`, as one journal. `keeps_copy` makes none.
ghost use Rattle.std.specs.Prelude.{◌≡◌, length, IfErr, IfOk};
ghost use Rattle.journal_steps.specs.Journal.{SealDid, TurnRefused};
ghost use Rattle.journal_steps.specs.Unreleased.{KeptUntold, TellsKept};
ghost use Rattle.journal_steps.specs.Values.{JournalValue};
ghost use Rattle.journal_steps.specs.Verbs.{LeftByRead, Reads, ReadsNewest, SyncsDirectly, WritesDirectly};
ghost use Rattle.locked_journal.specs.Sides.{Reconciles, ReconcilesAnd, engine_of};

use crate::catching::catch_up;
use crate::engine_side::{EngineSide, SidesReconciler};
use crate::front_side::{FrontSide, UnlockedFront};
use block_device::Device;
use group_commit::Journal as OneJournal;
use journal_front::{Handle, Record};
use journal_model::{BlockNo, JournalError};
use journal_steps::{Turn, steps};
use parts::PartsName;

/// Reconciles: the front learns of a failure, and finishes and acknowledges what the engine has committed. The engine does not change, and
/// the device is not called.
pub(crate) fn reconcile<J: PartsName, D: Device, R: Record>(
    reconciler: &SidesReconciler<J, D>,
    front: &mut FrontSide<J, D, R>,
    engine: &mut EngineSide<J, D>,
)
    ensures engine { engine.new ≡ engine.old }
    ensures reconciled { Reconciles D.state front.old engine.old front.new }
    ensures before { D.honest engine.old.device → D.honest front.old.device }
{
    front
        .engine
        .see(reconciler, &mut engine.owner, &engine.engine);
    catch_up(&mut front.front, &engine.engine);
}

/// Reconciles, and seals a transaction that takes no further handles and has none open, handing its entries to the engine. None, and
/// nothing is done, if another is being committed. The device is not called.
///
/// # Errors
///
/// `Aborted` after a device failure. `NeedSpace` if the ring has too little room for the transaction, and `Memory`: the transaction stays
/// as it is.
/// Source: fs/jbd2/commit.c by behaviour.
pub(crate) fn seal<J: PartsName, D: Device, R: Record>(
    reconciler: &SidesReconciler<J, D>,
    front: &mut FrontSide<J, D, R>,
    engine: &mut EngineSide<J, D>,
) -> Result<Option<Turn>, JournalError>
    ensures engine { engine.new ≡ engine_of front.new }
    ensures ok { IfOk result (λ turn. ReconcilesAnd D.state front.old engine.old (λ (mid : JournalValue D). SealDid D.state turn mid front.new)) }
    ensures err { IfErr result (λ e. ReconcilesAnd D.state front.old engine.old (λ (mid : JournalValue D). TurnRefused D.state mid front.new e)) }
    ensures device { engine.new.device ≡ engine.old.device }
    ensures before { D.honest engine.old.device → D.honest front.old.device }
{
    reconcile(reconciler, front, engine);
    let turn = steps::seal_due(&mut front.front, &mut engine.engine);
    front
        .engine
        .see(reconciler, &mut engine.owner, &engine.engine);
    turn
}

/// Reconciles, and reads as `journal_steps::steps::read`.
///
/// # Errors
///
/// Those of `journal_steps::steps::read`: the buffer stays as it is.
/// Source: journalling.rst (handles see the running transaction).
pub(crate) fn read<J: PartsName, D: Device, R: Record>(
    reconciler: &SidesReconciler<J, D>,
    front: &mut FrontSide<J, D, R>,
    engine: &mut EngineSide<J, D>,
    handle: &Handle,
    block: BlockNo,
    into: &mut [u8],
) -> Result<(), JournalError>
    requires { length into.old ≡ (D.state front.old.device).shape.block_size }
    ensures engine { engine.new ≡ engine_of front.new }
    ensures reads { ReconcilesAnd D.state front.old engine.old (λ (mid : JournalValue D). Reads D.state D.honest mid handle.now block into.old into.new front.new result
        × LeftByRead D.state D.honest mid front.new result) }
    ensures before { D.honest engine.old.device → D.honest front.old.device }
{
    reconcile(reconciler, front, engine);
    let answer = steps::read(&mut front.front, &mut engine.engine, handle, block, into);
    front
        .engine
        .see(reconciler, &mut engine.owner, &engine.engine);
    answer
}

/// Reconciles, and reads without a handle as `journal_steps::steps::read_newest`.
///
/// # Errors
///
/// Those of `journal_steps::steps::read_newest`: the buffer stays as it is, except for `Device`.
/// Source: journalling.rst (handles see the running transaction); a read without a handle is this project's own.
pub(crate) fn read_newest<J: PartsName, D: Device, R: Record>(
    reconciler: &SidesReconciler<J, D>,
    front: &mut FrontSide<J, D, R>,
    engine: &mut EngineSide<J, D>,
    block: BlockNo,
    into: &mut [u8],
) -> Result<(), JournalError>
    requires { length into.old ≡ (D.state front.old.device).shape.block_size }
    ensures engine { engine.new ≡ engine_of front.new }
    ensures reads { ReconcilesAnd D.state front.old engine.old (λ (mid : JournalValue D). ReadsNewest D.state D.honest mid block into.old into.new front.new result
        × LeftByRead D.state D.honest mid front.new result) }
    ensures before { D.honest engine.old.device → D.honest front.old.device }
{
    reconcile(reconciler, front, engine);
    let answer = steps::read_newest(&mut front.front, &mut engine.engine, block, into);
    front
        .engine
        .see(reconciler, &mut engine.owner, &engine.engine);
    answer
}

/// Tells of both sides, which have to be reconciled, as `journal_steps::steps::keeps_copy`.
///
/// # Errors
///
/// Those of `journal_steps::steps::keeps_copy`.
/// Source: this project's own.
pub(crate) fn keeps_copy<J: PartsName, D: Device, R: Record>(
    front: &FrontSide<J, D, R>,
    engine: &EngineSide<J, D>,
    block: BlockNo,
) -> Result<bool, JournalError>
    requires { engine.now ≡ engine_of front.now }
    ensures ok { IfOk result (TellsKept front.now.journal block) }
    ensures err { IfErr result (KeptUntold front.now.journal block) }
{
    steps::keeps_copy(&front.front, &engine.engine, block)
}

/// Reconciles, and writes one block of bytes directly, as `journal_steps::steps::write_direct`.
///
/// # Errors
///
/// Those of `journal_steps::steps::write_direct`.
/// Source: this project's own, by what journal.rst says of revokes.
pub(crate) fn write_direct<J: PartsName, D: Device, R: Record>(
    reconciler: &SidesReconciler<J, D>,
    front: &mut FrontSide<J, D, R>,
    engine: &mut EngineSide<J, D>,
    block: BlockNo,
    bytes: &[u8],
) -> Result<(), JournalError>
    requires { length bytes.now ≡ (D.state front.old.device).shape.block_size }
    ensures engine { engine.new ≡ engine_of front.new }
    ensures writes { ReconcilesAnd D.state front.old engine.old (λ (mid : JournalValue D). WritesDirectly D.state D.honest mid block bytes.now front.new result) }
    ensures before { D.honest engine.old.device → D.honest front.old.device }
{
    reconcile(reconciler, front, engine);
    let answer = steps::write_direct(&mut front.front, &mut engine.engine, block, bytes);
    front
        .engine
        .see(reconciler, &mut engine.owner, &engine.engine);
    answer
}

/// Reconciles, and makes earlier direct writes durable, as `journal_steps::steps::sync_direct`.
///
/// # Errors
///
/// Those of `journal_steps::steps::sync_direct`.
/// Source: this project's own; a flush request (the kernel's writeback_cache_control.rst).
pub(crate) fn sync_direct<J: PartsName, D: Device, R: Record>(
    reconciler: &SidesReconciler<J, D>,
    front: &mut FrontSide<J, D, R>,
    engine: &mut EngineSide<J, D>,
) -> Result<(), JournalError>
    ensures engine { engine.new ≡ engine_of front.new }
    ensures syncs { ReconcilesAnd D.state front.old engine.old (λ (mid : JournalValue D). SyncsDirectly D.state D.honest mid front.new result) }
    ensures before { D.honest engine.old.device → D.honest front.old.device }
{
    reconcile(reconciler, front, engine);
    let answer = steps::sync_direct(&mut front.front, &mut engine.engine);
    front
        .engine
        .see(reconciler, &mut engine.owner, &engine.engine);
    answer
}

/// Reconciles both sides and makes them a journal of one thread.
pub(crate) fn into_single<J: PartsName, D: Device, R: Record>(
    reconciler: &SidesReconciler<J, D>,
    front: UnlockedFront<J, D, R>,
    engine: EngineSide<J, D>,
) -> OneJournal<D, R>
    ensures reconciled { Reconciles D.state front engine result }
    ensures before { D.honest engine.device → D.honest front.device }
{
    let UnlockedFront { mut side } = front;
    let mut engine = engine;
    reconcile(reconciler, &mut side, &mut engine);
    let (front, _seen) = side.into_sides();
    let EngineSide { engine, owner: _ } = engine;
    OneJournal::of(front, engine)
}
