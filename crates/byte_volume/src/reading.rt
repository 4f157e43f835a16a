//! Reads byte ranges, block by block, with the newest bytes.
ghost use Rattle.std.specs.Prelude.{◌≡◌, ◌≤◌, ◌<◌, ◌+◌, ◌/◌, ◌%◌, ◌^◌, length, take, IfErr, IfOk, OnOk};
ghost use Rattle.byte_volume.specs.Reading.{AddsPart, BlockRefused, RangeRefused, ReadsBlock, ReadsPart, ReadsRange};
ghost use Rattle.byte_volume.specs.Refusals.{PartRefused};

use block_device::Device;
use journal_model::{BlockNo, JournalError};
use shared_journal::{JournalName, Record};
use std::alloc::Global;
use std::sync::Wait;
use volume_service::{Gate, Session};

/// Reads a block's newest bytes; zeros if it has an unfinished revoke.
fn read_block<J: JournalName, D: Device, R: Record, G: Gate, W: Wait>(
    rt: &W,
    session: &Session<'_, J, D, R, G>,
    block: u64,
    into: &mut [u8],
) -> Result<(), JournalError>
    requires { length into.old ≡ J.name.shape.block_size }
    ensures reads { OnOk result (ReadsBlock D.state D.honest J.name block into.new) }
    ensures err { IfErr result (BlockRefused D.state block) }
    ensures length { length into.new ≡ length into.old }
{
    match session.read_newest(rt, BlockNo(block), into) {
        Ok(()) => Ok(()),
        Err(e) => match e {
            JournalError::Revoked => {
                into.fill(0);
                Ok(())
            }
            _ => Err(e),
        },
    }
}

/// Adds `count` bytes of a block, from byte `from` of it on, to a list. `room` is a buffer of one block.
pub(crate) fn read_part<J: JournalName, D: Device, R: Record, G: Gate, W: Wait>(
    rt: &W,
    session: &Session<'_, J, D, R, G>,
    room: &mut [u8],
    block: u64,
    from: usize,
    count: usize,
    list: &mut Vec<u8>,
) -> Result<(), JournalError>
    requires room { length room.old ≡ J.name.shape.block_size }
    requires fits { from + count ≤ J.name.shape.block_size }
    ensures adds { OnOk result (AddsPart D.state D.honest J.name J.name.shape.block_size block from count list.old.items list.new.items) }
    ensures length { length room.new ≡ length room.old }
    ensures err { IfErr result (PartRefused D.state block) }
{
    read_block(rt, session, block, room)?;
    list.extend_from_slice(&room[from..from + count])?;
    Ok(())
}

/// Fills the beginning of a buffer with the bytes from byte `at` to the end of its block, or with as many as the buffer has. It returns how
/// many these were. `room` is a buffer of one block.
fn read_on<J: JournalName, D: Device, R: Record, G: Gate, W: Wait>(
    rt: &W,
    session: &Session<'_, J, D, R, G>,
    room: &mut [u8],
    at: u64,
    into: &mut [u8],
) -> Result<usize, JournalError>
    requires room { length room.old ≡ J.name.shape.block_size }
    requires some { 0 < length into.old }
    ensures some { IfOk result (λ n. (0 < n) × (n ≤ length into.old)) }
    ensures part { IfOk result (λ n. ReadsPart D.state D.honest J.name J.name.shape.block_size (at / J.name.shape.block_size) (at % J.name.shape.block_size) n (take n into.new)) }
    ensures length { (length into.new ≡ length into.old) × (length room.new ≡ length room.old) }
    ensures err { IfErr result (BlockRefused D.state (at / J.name.shape.block_size)) }
{
    let size = session.block_size();
    let (block, from) = (at / size as u64, (at % size as u64) as usize);
    let count = into.len().min(size - from);
    if count == size {
        read_block(rt, session, block, &mut into[..size])?;
    } else {
        read_block(rt, session, block, room)?;
        into[..count].copy_from_slice(&room[from..from + count]);
    }
    Ok(count)
}

/// Fills a buffer with the newest bytes from byte `offset` on. Other clients may write between the reads of two blocks.
///
/// # Errors
///
/// The buffer has some of the bytes, or none. Those of `Session::read_newest`, except `Revoked`; `BadBlock` also if the range ends past
/// 2^64; `Memory`.
pub fn read_range<J: JournalName, D: Device, R: Record, G: Gate, W: Wait>(
    rt: &W,
    alloc: Global,
    session: &Session<'_, J, D, R, G>,
    offset: u64,
    into: &mut [u8],
) -> Result<(), JournalError>
    ensures reads { OnOk result (ReadsRange D.state D.honest J.name J.name.shape.block_size offset into.new) }
    ensures length { length into.new ≡ length into.old }
    ensures err { IfErr result (RangeRefused D.state offset (length into.old)) }
{
    if offset.checked_add(into.len() as u64).is_none() {
        return Err(JournalError::BadBlock);
    }
    let mut room = vec![in alloc; 0u8; session.block_size()]?;
    read_all(rt, session, room.as_mut_slice(), offset, into)
}

/// As `read_range`, with a buffer of one block.
fn read_all<J: JournalName, D: Device, R: Record, G: Gate, W: Wait>(
    rt: &W,
    session: &Session<'_, J, D, R, G>,
    room: &mut [u8],
    offset: u64,
    into: &mut [u8],
) -> Result<(), JournalError>
    requires room { length room.old ≡ J.name.shape.block_size }
    requires fits { offset + length into.old < 2 ^ 64 }
    ensures reads { OnOk result (ReadsRange D.state D.honest J.name J.name.shape.block_size offset into.new) }
    ensures length { length into.new ≡ length into.old }
    ensures err { IfErr result (RangeRefused D.state offset (length into.old)) }
{
    let mut done = 0;
    while done < into.len() {
        let at = offset + done as u64;
        done += read_on(rt, session, room, at, &mut into[done..])?;
    }
    Ok(())
}
