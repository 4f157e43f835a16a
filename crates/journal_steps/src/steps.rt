//! The steps that need both front and engine. Each is one step of the machine, or several that nobody sees between; front and engine
//! agree before and after it.
//!
//! In their errors, `Aborted` means that the device failed in an earlier call, and nothing changes. `Device` means that it failed in
//! this one, and the journal is then aborted.
ghost use Rattle.std.specs.Prelude.{◌≡◌, ◌<◌, ◌≢◌, ◌↔◌, List, ℕ, false, length, is_some, option_map, Some, IfOk, IfErr, IfSome, OnOk, IsTrue};
ghost use Rattle.journal_model.specs.declared.entry.Entry.TheVariants.{Copy, Revoke as RevokeEntry};
ghost use Rattle.journal_model.specs.declared.refusal.JournalError.TheVariants.{Memory, Revoked};
ghost use Rattle.journal_model.specs.Transaction.{last_effect};
ghost use Rattle.journal_world.specs.declared.stage.Stage.TheVariants.{Idle};
ghost use Rattle.journal_world.specs.Front.{IsOpen, reading_block, unfinished};
ghost use Rattle.journal_world.specs.Journal.{batch_of};
ghost use Rattle.block_device.specs.Call.{MakesOneCall};
ghost use Rattle.log_engine.specs.Left.{commit_calls};
ghost use Rattle.journal_steps.specs.declared.turn.CheckTurn.TheVariants.{Idle as IdleCheck};
ghost use Rattle.journal_steps.specs.Journal.{Agrees, CheckTurnDid, CheckTurnRefused, HandsOut, HasRoomFor, HoldsCopy, IsDuringCheckTurn, IsDuringTurn, LeavesFewerRounds, NoCopy, SealDid, SealIsDue, TurnDid, TurnRefused, need_of};
ghost use Rattle.journal_steps.specs.Unreleased.{KeptUntold, TellsKept};
ghost use Rattle.journal_front.specs.Front.{MayStep};
ghost use Rattle.journal_steps.specs.Values.{together};
ghost use Rattle.journal_steps.specs.Verbs.{LeftByRead, Reads, ReadsNewest, SyncsDirectly, WritesDirectly};

use crate::turn::{CheckTurn, Turn};
use block_device::Device;
use journal_front::{Front, Handle, Record};
use journal_model::{Batch, Block, BlockNo, Entry, JournalError};
use log_engine::{Engine, Progress};

/// The copy that is a block's last entry in the unfinished transactions, if there is an entry.
///
/// # Errors
///
/// `Revoked` (the entry is a revoke), `Memory`, only if the front holds a copy.
/// Source: journalling.rst (handles see the running transaction).
pub fn held_copy<R: Record>(front: &Front<R>, block: BlockNo) -> Result<Option<Block>, JournalError>
    ensures ok { IfOk result (λ copy. last_effect block (unfinished front.now) ≡ option_map Copy copy) }
    ensures err { IfErr result (NoCopy front.now block) }
    ensures memory { IfErr result (λ e. e ≡ Memory → HoldsCopy front.now block) }
{
    match front.newest(block) {
        Some(Entry::Copy(copy)) => Ok(Some(copy.try_clone()?)),
        Some(Entry::Revoke) => Err(JournalError::Revoked),
        None => Ok(None),
    }
}

/// Records a read as a step of its handle, and hands out its bytes.
///
/// # Errors
///
/// `Memory`: nothing changes.
/// Source: this project's own.
pub fn register_read<R: Record>(
    front: &mut Front<R>,
    handle: &Handle,
    block: BlockNo,
    seen: Block,
    into: &mut [u8],
) -> Result<(), JournalError>
    requires may { MayStep front.old handle.now block }
    requires length { length into.old ≡ length seen }
    ensures ok { OnOk result ((front.new ≡ reading_block front.old handle.now.number block seen) × (into.new ≡ seen)) }
    ensures open { OnOk result (IsOpen front.old handle.now.number) }
    ensures err { IfErr result (λ e. (e ≡ Memory) × (front.new ≡ front.old) × (into.new ≡ into.old)) }
    ensures length { length into.new ≡ length into.old }
{
    front.register_read(handle, block, seen.try_clone()?)?;
    into.copy_from_slice(seen.bytes());
    Ok(())
}

/// Reads one block of the home area by an open handle: the running transaction's copy, else the copy being committed, else what the
/// engine reads. The read becomes a step of the handle, and takes no credit. A legal record stays legal, whatever the answer.
///
/// # Errors
///
/// The buffer stays, and so does the journal, except after `Device`. The first of: `Aborted`; `BadBlock` (home has no such block, or
/// its number is not below 2^32, in a log with 64-bit numbers 2^48); `NoCredit` (the handle is not open); `Revoked` (the block's last
/// uncommitted entry is a revoke); `Memory` (for the step); `Device`.
pub fn read<D: Device, R: Record>(
    front: &mut Front<R>,
    engine: &mut Engine<D>,
    handle: &Handle,
    block: BlockNo,
    into: &mut [u8],
) -> Result<(), JournalError>
    requires length { length into.old ≡ (D.state engine.old.device).shape.block_size }
    requires agrees { Agrees (together front.old engine.old).journal }
    ensures agrees { Agrees (together front.new engine.new).journal }
    ensures reads { Reads D.state D.honest (together front.old engine.old) handle.now block into.old into.new (together front.new engine.new) result }
    ensures left { LeftByRead D.state D.honest (together front.old engine.old) (together front.new engine.new) result }
{
    engine.recall_invariant();
    front.admit(handle, block)?;
    if let Some(copy) = held_copy(front, block)? {
        return register_read(front, handle, block, copy, into);
    }
    let mut bytes = front.room_for_read()?;
    if let Err(e) = engine.read(block, &mut bytes) {
        front.abort();
        return Err(e);
    }
    register_read(front, handle, block, Block::new(bytes)?, into)
}

/// Copies a block's last entry in the unfinished transactions into the buffer, if it is a copy, and answers whether it did.
///
/// # Errors
///
/// `Revoked`: the entry is a revoke. The buffer stays.
/// Source: journalling.rst (handles see the running transaction).
pub fn hand_out<R: Record>(
    front: &Front<R>,
    block: BlockNo,
    into: &mut [u8],
) -> Result<bool, JournalError>
    requires { (v : List ℕ) → last_effect block (unfinished front.now) ≡ Some (Copy v) → length into.old ≡ length v }
    ensures ok { IfOk result (λ held. HandsOut front.now block into.old held into.new) }
    ensures err { IfErr result (λ e. (e ≡ Revoked) × (last_effect block (unfinished front.now) ≡ Some RevokeEntry) × (into.new ≡ into.old)) }
    ensures length { length into.new ≡ length into.old }
{
    let copy = match front.newest(block) {
        Some(Entry::Copy(copy)) => copy,
        Some(Entry::Revoke) => return Err(JournalError::Revoked),
        None => return Ok(false),
    };
    into.copy_from_slice(copy.bytes());
    Ok(true)
}

/// Reads the bytes that `read` would give, without a handle. It records no step, makes no transaction and takes no memory. Only a block
/// without a copy, or whose copy was released, needs a device call.
///
/// # Errors
///
/// `Aborted`, `BadBlock`, `Revoked` as in `read`: nothing changes. `Device`: the buffer's bytes are unspecified.
pub fn read_newest<D: Device, R: Record>(
    front: &mut Front<R>,
    engine: &mut Engine<D>,
    block: BlockNo,
    into: &mut [u8],
) -> Result<(), JournalError>
    requires length { length into.old ≡ (D.state engine.old.device).shape.block_size }
    requires agrees { Agrees (together front.old engine.old).journal }
    ensures agrees { Agrees (together front.new engine.new).journal }
    ensures reads { ReadsNewest D.state D.honest (together front.old engine.old) block into.old into.new (together front.new engine.new) result }
    ensures left { LeftByRead D.state D.honest (together front.old engine.old) (together front.new engine.new) result }
{
    engine.recall_invariant();
    if front.is_aborted() {
        return Err(JournalError::Aborted);
    }
    if !front.may_touch(block) {
        return Err(JournalError::BadBlock);
    }
    if hand_out(front, block, into)? {
        return Ok(());
    }
    if let Err(e) = engine.read(block, into) {
        front.abort();
        return Err(e);
    }
    Ok(())
}

/// Whether the block's last entry in the transactions that are not released is a copy. Older ones don't count.
///
/// # Errors
///
/// `Aborted`, `BadBlock` as in `read`.
/// Source: this project's own.
pub fn keeps_copy<D: Device, R: Record>(
    front: &Front<R>,
    engine: &Engine<D>,
    block: BlockNo,
) -> Result<bool, JournalError>
    requires { Agrees (together front.now engine.now).journal }
    ensures ok { IfOk result (λ kept. TellsKept (together front.now engine.now).journal block kept) }
    ensures err { IfErr result (KeptUntold (together front.now engine.now).journal block) }
{
    engine.recall_invariant();
    if front.is_aborted() {
        return Err(JournalError::Aborted);
    }
    if !front.may_touch(block) {
        return Err(JournalError::BadBlock);
    }
    match front.newest(block) {
        Some(Entry::Copy(_)) => Ok(true),
        Some(Entry::Revoke) => Ok(false),
        None => Ok(engine.has_pending(block)),
    }
}

/// Takes the next commit step: one device call of a commit, or the seal of a transaction that is locked without open handles.
///
/// # Errors
///
/// `Aborted`, `Device`. `NeedSpace` (too few free ring blocks) and `Memory`: the transaction stays as it is.
/// Source: fs/jbd2/commit.c by behaviour; that each step is one device call is this project's own.
pub fn commit_turn<D: Device, R: Record>(
    front: &mut Front<R>,
    engine: &mut Engine<D>,
) -> Result<Turn, JournalError>
    requires agrees { Agrees (together front.old engine.old).journal }
    ensures agrees { Agrees (together front.new engine.new).journal }
    ensures ok { IfOk result (λ turn. TurnDid D.state turn (together front.old engine.old) (together front.new engine.new)) }
    ensures err { IfErr result (λ e. TurnRefused D.state (together front.old engine.old) (together front.new engine.new) e) }
    ensures no_fault { OnOk result ((D.state engine.new.device).faults ≡ (D.state engine.old.device).faults) }
    ensures device { MakesOneCall D.state D.honest (IsDuringTurn (together front.old engine.old).journal (D.state engine.old.device).disk) engine.old.device engine.new.device }
{
    engine.recall_invariant();
    match seal_due(front, engine)? {
        Some(turn) => Ok(turn),
        None => commit_step(front, engine),
    }
}

/// Seals a transaction that is locked without open handles, with no device call. None, and nothing is done, if another is being committed:
/// a step of that commit is then due.
///
/// # Errors
///
/// `Aborted`. `NeedSpace` (too few free ring blocks), `Memory`: nothing changes.
/// Source: fs/jbd2/commit.c by behaviour.
pub fn seal_due<D: Device, R: Record>(
    front: &mut Front<R>,
    engine: &mut Engine<D>,
) -> Result<Option<Turn>, JournalError>
    requires agrees { Agrees (together front.old engine.old).journal }
    ensures agrees { Agrees (together front.new engine.new).journal }
    ensures ok { IfOk result (λ turn. SealDid D.state turn (together front.old engine.old) (together front.new engine.new)) }
    ensures err { IfErr result (λ e. TurnRefused D.state (together front.old engine.old) (together front.new engine.new) e) }
    ensures device { engine.new.device ≡ engine.old.device }
{
    if engine.is_aborted() {
        return Err(JournalError::Aborted);
    }
    if !engine.is_idle() {
        return Ok(None);
    }
    if !front.is_locked() {
        return Ok(Some(Turn::Idle));
    }
    if front.has_open_handles() {
        return Ok(Some(Turn::Waiting));
    }
    match seal(front, engine) {
        Ok(turn) => Ok(Some(turn)),
        Err(e) => Err(e),
    }
}

/// Takes one step of the commit under way. After the last one the front records and acknowledges the commit.
///
/// # Errors
///
/// `Device`.
pub fn commit_step<D: Device, R: Record>(
    front: &mut Front<R>,
    engine: &mut Engine<D>,
) -> Result<Turn, JournalError>
    requires agrees { Agrees (together front.old engine.old).journal }
    requires running { engine.old.engine.aborted ≡ false }
    requires busy { engine.old.engine.stage ≢ Idle }
    ensures agrees { Agrees (together front.new engine.new).journal }
    ensures ok { IfOk result (λ turn. TurnDid D.state turn (together front.old engine.old) (together front.new engine.new)) }
    ensures err { IfErr result (λ e. TurnRefused D.state (together front.old engine.old) (together front.new engine.new) e) }
    ensures fewer { OnOk result (commit_calls engine.new.engine < commit_calls engine.old.engine) }
    ensures no_fault { OnOk result ((D.state engine.new.device).faults ≡ (D.state engine.old.device).faults) }
    ensures device { MakesOneCall D.state D.honest (IsDuringTurn (together front.old engine.old).journal (D.state engine.old.device).disk) engine.old.device engine.new.device }
{
    engine.recall_invariant();
    let progress = match engine.commit_step() {
        Ok(progress) => progress,
        Err(e) => {
            front.abort();
            return Err(e);
        }
    };
    match progress {
        Progress::Idle => Ok(Turn::Idle),
        Progress::Step => Ok(Turn::Step),
        Progress::Done(tid) => {
            front.finish();
            front.raise(tid);
            Ok(Turn::Committed(tid))
        }
    }
}

/// Seals the locked transaction, and hands its entries to the engine.
///
/// # Errors
///
/// `NeedSpace` (too few free ring blocks), `Memory`: nothing changes.
/// Source: fs/jbd2/commit.c by behaviour.
pub fn seal<D: Device, R: Record>(
    front: &mut Front<R>,
    engine: &mut Engine<D>,
) -> Result<Turn, JournalError>
    requires agrees { Agrees (together front.old engine.old).journal }
    requires due { SealIsDue (together front.old engine.old).journal }
    ensures agrees { Agrees (together front.new engine.new).journal }
    ensures ok { IfOk result (λ turn. TurnDid D.state turn (together front.old engine.old) (together front.new engine.new)) }
    ensures err { IfErr result (λ e. TurnRefused D.state (together front.old engine.old) (together front.new engine.new) e) }
    ensures device { engine.new.device ≡ engine.old.device }
{
    if room_for(front, engine).is_none() {
        return Err(JournalError::NeedSpace);
    }
    let batch = ready_batch(front, engine)?;
    seal_batch(front, engine, batch)
}

/// The running transaction's entries, with all memory reserved for their seal. A seal by them requests none, even after other commits,
/// as long as no handle makes a step in between.
///
/// # Errors
///
/// `Memory`: nothing changes.
pub fn ready_batch<D: Device, R: Record>(
    front: &Front<R>,
    engine: &mut Engine<D>,
) -> Result<Batch, JournalError>
    ensures ok { IfOk result (λ batch. batch ≡ batch_of front.now.running) }
    ensures err { IfErr result (λ e. e ≡ Memory) }
    ensures same { engine.new ≡ engine.old }
{
    let batch = front.batch()?;
    engine.reserve(batch.entries.len())?;
    Ok(batch)
}

/// Seals the locked transaction, which has these entries (`ready_batch`), and hands them to the engine.
///
/// # Errors
///
/// `NeedSpace` (too few free ring blocks), `Memory` (not after `ready_batch`): nothing changes.
/// Source: fs/jbd2/commit.c by behaviour.
pub fn seal_batch<D: Device, R: Record>(
    front: &mut Front<R>,
    engine: &mut Engine<D>,
    batch: Batch,
) -> Result<Turn, JournalError>
    requires agrees { Agrees (together front.old engine.old).journal }
    requires due { SealIsDue (together front.old engine.old).journal }
    requires batch { batch ≡ batch_of front.old.running }
    ensures agrees { Agrees (together front.new engine.new).journal }
    ensures ok { IfOk result (λ turn. TurnDid D.state turn (together front.old engine.old) (together front.new engine.new)) }
    ensures err { IfErr result (λ e. TurnRefused D.state (together front.old engine.old) (together front.new engine.new) e) }
    ensures device { engine.new.device ≡ engine.old.device }
{
    engine.recall_invariant();
    let Some(blocks) = room_for(front, engine) else {
        return Err(JournalError::NeedSpace);
    };
    let tid = front.tid();
    if let Err(refused) = engine.accept(batch, blocks) {
        return Err(refused.1);
    }
    front.seal();
    Ok(Turn::Sealed(tid))
}

/// How many log blocks the running transaction needs, if the ring has as many free.
pub fn room_for<D: Device, R: Record>(front: &Front<R>, engine: &Engine<D>) -> Option<u64>
    requires { engine.now.engine.stage ≡ Idle }
    ensures blocks { IfSome result (λ n. n ≡ need_of engine.now.engine.layout front.now.running) }
    ensures room { IsTrue (is_some result) ↔ HasRoomFor (together front.now engine.now).journal }
{
    let (copies, revokes) = front.counts();
    engine.room_for(copies, revokes)
}

/// Takes the next checkpoint step: at most one device call, and none if it answers `Idle`.
///
/// # Errors
///
/// `Aborted`, `Device`.
/// Source: fs/jbd2/checkpoint.c by behaviour; that each step is one device call is this project's own.
pub fn checkpoint_turn<D: Device, R: Record>(
    front: &mut Front<R>,
    engine: &mut Engine<D>,
) -> Result<CheckTurn, JournalError>
    requires agrees { Agrees (together front.old engine.old).journal }
    ensures agrees { Agrees (together front.new engine.new).journal }
    ensures ok { IfOk result (λ turn. CheckTurnDid D.state turn (together front.old engine.old) (together front.new engine.new)) }
    ensures err { IfErr result (λ e. CheckTurnRefused D.state (together front.old engine.old) (together front.new engine.new) e) }
    ensures fewer { IfOk result (λ turn. LeavesFewerRounds turn engine.old.engine engine.new.engine) }
    ensures idle { IfOk result (λ turn. turn ≡ IdleCheck → engine.new.device ≡ engine.old.device) }
    ensures no_fault { OnOk result ((D.state engine.new.device).faults ≡ (D.state engine.old.device).faults) }
    ensures device { MakesOneCall D.state D.honest (IsDuringCheckTurn (together front.old engine.old).journal (D.state engine.old.device).disk) engine.old.device engine.new.device }
{
    let progress = match engine.checkpoint_step() {
        Ok(progress) => progress,
        Err(e) => {
            front.abort();
            return Err(e);
        }
    };
    match progress {
        Progress::Idle => Ok(CheckTurn::Idle),
        Progress::Step => Ok(CheckTurn::Step),
        Progress::Done(tid) => Ok(CheckTurn::Released(tid)),
    }
}

/// Writes one block directly home, past the log, by one device call.
///
/// # Errors
///
/// `Aborted`; `BadBlock` as in `read`; `NotDirect` (the transactions have a copy of the block, or an uncommitted one an entry): nothing
/// changes. `Device`.
/// Source: this project's own, by what journal.rst says of revokes.
pub fn write_direct<D: Device, R: Record>(
    front: &mut Front<R>,
    engine: &mut Engine<D>,
    block: BlockNo,
    bytes: &[u8],
) -> Result<(), JournalError>
    requires length { length bytes.now ≡ (D.state engine.old.device).shape.block_size }
    requires agrees { Agrees (together front.old engine.old).journal }
    ensures agrees { Agrees (together front.new engine.new).journal }
    ensures writes { WritesDirectly D.state D.honest (together front.old engine.old) block bytes.now (together front.new engine.new) result }
{
    engine.recall_invariant();
    if engine.is_aborted() {
        return Err(JournalError::Aborted);
    }
    if !front.may_touch(block) {
        return Err(JournalError::BadBlock);
    }
    if !front.is_untouched(block) {
        return Err(JournalError::NotDirect);
    }
    match engine.write_direct(block, bytes) {
        Ok(()) => Ok(()),
        Err(e) => {
            front.learn(engine.is_aborted());
            Err(e)
        }
    }
}

/// Flushes the home area: every earlier direct write that answered Ok is durable.
///
/// # Errors
///
/// `Aborted`. `Device`: nothing more is durable.
/// Source: this project's own; a flush request (the kernel's writeback_cache_control.rst).
pub fn sync_direct<D: Device, R: Record>(
    front: &mut Front<R>,
    engine: &mut Engine<D>,
) -> Result<(), JournalError>
    requires agrees { Agrees (together front.old engine.old).journal }
    ensures agrees { Agrees (together front.new engine.new).journal }
    ensures syncs { SyncsDirectly D.state D.honest (together front.old engine.old) (together front.new engine.new) result }
{
    match engine.sync_direct() {
        Ok(()) => Ok(()),
        Err(e) => {
            front.abort();
            Err(e)
        }
    }
}
