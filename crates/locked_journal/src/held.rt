//! Reads of blocks whose last copy the front holds: in the running transaction or the one being committed.
ghost use Rattle.std.specs.Prelude.{◌≡◌, ◌≢◌, false, length, IfErr, IfOk};
ghost use Rattle.journal_model.specs.declared.refusal.JournalError.TheVariants.{Device as DeviceFailed, Memory};
ghost use Rattle.journal_steps.specs.Journal.{HoldsCopy, NewestRefused, ReadRefused};
ghost use Rattle.locked_journal.specs.Sides.{HeldNewestDid, HeldReadDid};

use crate::front_side::FrontSide;
use block_device::Device;
use journal_front::{Handle, Record};
use journal_model::{BlockNo, JournalError};
use journal_steps::steps;
use parts::PartsName;

/// Reads a home block by an open handle into a buffer of one block, if the front holds a copy: the running transaction's, else that of
/// the one being committed. The read is a step of the handle, and takes no credit. It returns whether there is a copy; if not, nothing
/// changes, and both sides have to read.
///
/// # Errors
///
/// The first that applies of `Aborted`, `BadBlock` (as in `KnownFront::write`), `NoCredit` if the handle is not open here, `Revoked` if
/// the block's last uncommitted entry is a revoke, and `Memory`, only if the front holds a copy. Nothing changes.
/// Source: journalling.rst (handles see the running transaction).
pub(crate) fn read_held<J: PartsName, D: Device, R: Record>(
    front: &mut FrontSide<J, D, R>,
    handle: &Handle,
    block: BlockNo,
    into: &mut [u8],
) -> Result<bool, JournalError>
    requires { length into.old ≡ (D.state front.old.device).shape.block_size }
    ensures ok { IfOk result (λ held. HeldReadDid D.state held handle.now block into.new front.old front.new) }
    ensures none { IfOk result (λ held. held ≡ false → into.new ≡ into.old) }
    ensures err { IfErr result (λ e. ReadRefused D.state front.old handle.now block front.new e × (front.new ≡ front.old) × (into.new ≡ into.old)) }
    ensures memory { IfErr result (λ e. e ≡ Memory → HoldsCopy front.old.journal.front block) }
    ensures device { front.new.device ≡ front.old.device }
    ensures length { length into.new ≡ length into.old }
{
    front.engine.recall_invariant();
    front.front.admit(handle, block)?;
    let Some(copy) = steps::held_copy(&front.front, block)? else {
        return Ok(false);
    };
    if copy.bytes().len() != into.len() {
        return Ok(false);
    }
    steps::register_read(&mut front.front, handle, block, copy, into)?;
    Ok(true)
}

/// As `read_held`, without a handle: it records nothing, makes no transaction and takes no memory.
///
/// # Errors
///
/// The first that applies of `Aborted`, `BadBlock` and `Revoked`, as for `read_held`: the buffer stays as it is.
/// Source: journalling.rst (handles see the running transaction); a read without a handle is this project's own.
pub(crate) fn read_newest_held<J: PartsName, D: Device, R: Record>(
    front: &FrontSide<J, D, R>,
    block: BlockNo,
    into: &mut [u8],
) -> Result<bool, JournalError>
    requires { length into.old ≡ (D.state front.now.device).shape.block_size }
    ensures ok { IfOk result (λ held. HeldNewestDid D.state D.honest held block into.old into.new front.now) }
    ensures err { IfErr result (λ e. NewestRefused D.state front.now block front.now e × (e ≢ DeviceFailed) × (into.new ≡ into.old)) }
    ensures length { length into.new ≡ length into.old }
{
    front.engine.recall_invariant();
    if front.front.is_aborted() {
        return Err(JournalError::Aborted);
    }
    if !front.front.may_touch(block) {
        return Err(JournalError::BadBlock);
    }
    steps::hand_out(&front.front, block, into)
}
