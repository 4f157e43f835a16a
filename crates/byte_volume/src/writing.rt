//! Cuts a write of a byte range into handles, and keeps the rest of its first and last block.
ghost use Rattle.std.specs.Prelude.{◌≡◌, ◌≤◌, ◌<◌, ◌+◌, ◌-◌, ◌*◌, ◌/◌, ◌%◌, ◌^◌, ◌++◌, true, false, [], length, min, replicate, None, IfErr, IfOk, IfSome, OnErr, OnOk};
ghost use Rattle.byte_volume.specs.Numbers.{last_taken};
ghost use Rattle.byte_volume.specs.Refusals.{CutRefused, HandleRefused, IsAmong, StepRefused, WriteRefused};
ghost use Rattle.byte_volume.specs.Writing.{AddsFirst, AddsHead, AddsTail, AddsTicket, AreNoted, BeginsRange, IsOverlay, LieWithin, MayAddTicket, WritesAll, WritesFirst, WritesPieces, WritesRange, WritesSome, write_steps};

use crate::leaving::Leaving;
use crate::numbers::start;
use crate::reading::read_part;
use crate::stopped::Stopped;
use crate::tickets::Tickets;
use block_device::Device;
use journal_model::{BlockNo, JournalError};
use shared_journal::{JournalName, Record, SharedHandle, SharedTicket};
use std::alloc::Global;
use std::sync::Wait;
use volume_service::{Gate, Session};

/// Writes bytes from byte `offset` on. If one handle has credits for the range's blocks, it alone writes exactly these, each whole; the
/// rest of the first and last stays as a read finds it. A longer range is written in pieces, in order, each by such a handle. Other clients
/// may write a block between the read of its rest and the write. `tickets` has those of the handles afterwards, and no others.
///
/// # Errors
///
/// `BadBlock`: home has no such block, or the range ends past 2^64. `Device`: the rest of a block could not be read. `Aborted`: a device
/// failure. `SequenceEnd`: no number is left that a later opening takes. `Memory`. Handles that wrote the first pieces have stopped, and are
/// noted; `tickets` has theirs. So has the refused one, if it was started: it may have written the first blocks of its piece.
pub fn write_range<J: JournalName, D: Device, R: Record, G: Gate, W: Wait>(
    rt: &W,
    alloc: Global,
    session: &mut Session<'_, J, D, R, G>,
    offset: u64,
    bytes: &[u8],
    stopped: &mut Stopped,
    tickets: &mut Tickets<J, R>,
) -> Result<(), JournalError>
    ensures once { OnOk result (WritesAll D.state D.honest J.name J.name.shape.block_size J.name.capacity offset bytes.now tickets.new) }
    ensures left { OnErr result (WritesSome D.state D.honest J.name J.name.shape.block_size offset bytes.now tickets.new) }
    ensures noted { AreNoted stopped.new tickets.new }
    ensures kept { stopped.old ≤ stopped.new }
    ensures taken { stopped.old ≤ last_taken → stopped.new ≤ last_taken }
    ensures err { IfErr result (WriteRefused D.state J.name.shape.block_size J.name.capacity offset (length bytes.now)) }
{
    tickets.list.clear();
    if offset.checked_add(bytes.len() as u64).is_none() {
        return Err(JournalError::BadBlock);
    }
    if lie_within(
        session.block_size(),
        offset,
        bytes.len(),
        session.capacity(),
    ) {
        let list = &mut tickets.list;
        return write_once(rt, alloc, session, offset, bytes, stopped, list);
    }
    let list = &mut tickets.list;
    write_pieces(rt, alloc, session, offset, bytes, stopped, list)
}

/// Whether these bytes lie in at most this many blocks.
fn lie_within(size: usize, offset: u64, count: usize, blocks: u64) -> bool
    requires some { 0 < size }
    requires fits { offset + count < 2 ^ 64 }
    ensures within { result ≡ true → LieWithin size offset count blocks }
    ensures more { result ≡ false → LieWithin size offset count blocks → ⊥ }
{
    let end = offset + count as u64;
    let (first, past) = (offset / size as u64, end.div_ceil(size as u64));
    past <= first || past - first <= blocks
}

/// Writes a byte range through one handle, and adds its ticket, even if a write is refused.
fn write_once<J: JournalName, D: Device, R: Record, G: Gate, W: Wait>(
    rt: &W,
    alloc: Global,
    session: &mut Session<'_, J, D, R, G>,
    offset: u64,
    bytes: &[u8],
    stopped: &mut Stopped,
    tickets: &mut Vec<SharedTicket<J, R>>,
) -> Result<(), JournalError>
    requires fits { offset + length bytes.now < 2 ^ 64 }
    requires credits { LieWithin J.name.shape.block_size offset (length bytes.now) J.name.capacity }
    ensures once { OnOk result (AddsTicket (WritesRange D.state D.honest J.name J.name.shape.block_size offset bytes.now) stopped.new tickets.old.items tickets.new.items) }
    ensures left { OnErr result (MayAddTicket (BeginsRange D.state D.honest J.name J.name.shape.block_size offset bytes.now) stopped.new tickets.old.items tickets.new.items) }
    ensures kept { stopped.old ≤ stopped.new }
    ensures taken { stopped.old ≤ last_taken → stopped.new ≤ last_taken }
    ensures err { IfErr result (WriteRefused D.state J.name.shape.block_size J.name.capacity offset (length bytes.now)) }
{
    let size = session.block_size() as u64;
    let end = offset + bytes.len() as u64;
    if offset % size == 0 && end % size == 0 {
        return write_blocks(rt, session, offset / size, bytes, stopped, tickets);
    }
    let whole = overlay(rt, alloc, session, offset, bytes)?;
    write_blocks(rt, session, offset / size, &whole, stopped, tickets)
}

/// Whole blocks: these bytes, the rest of their first block before them and that of their last after them, as a read finds it.
fn overlay<J: JournalName, D: Device, R: Record, G: Gate, W: Wait>(
    rt: &W,
    alloc: Global,
    session: &Session<'_, J, D, R, G>,
    offset: u64,
    bytes: &[u8],
) -> Result<Vec<u8>, JournalError>
    requires fits { offset + length bytes.now < 2 ^ 64 }
    ensures overlay { IfOk result (λ whole. IsOverlay D.state D.honest J.name J.name.shape.block_size offset bytes.now whole.items) }
    ensures err { IfErr result (WriteRefused D.state J.name.shape.block_size J.name.capacity offset (length bytes.now)) }
{
    let mut whole = Vec::new(alloc);
    add_head(rt, alloc, session, offset, &mut whole)?;
    whole.extend_from_slice(bytes)?;
    let end = offset + bytes.len() as u64;
    add_tail(rt, alloc, session, end, &mut whole)?;
    Ok(whole)
}

/// Adds the bytes before byte `at` in its block.
fn add_head<J: JournalName, D: Device, R: Record, G: Gate, W: Wait>(
    rt: &W,
    alloc: Global,
    session: &Session<'_, J, D, R, G>,
    at: u64,
    list: &mut Vec<u8>,
) -> Result<(), JournalError>
    ensures adds { OnOk result (AddsHead D.state D.honest J.name J.name.shape.block_size at list.old.items list.new.items) }
    ensures err { IfErr result (CutRefused D.state J.name.shape.block_size at) }
{
    let size = session.block_size();
    let from = (at % size as u64) as usize;
    if from == 0 {
        return Ok(());
    }
    let mut room = vec![in alloc; 0u8; size]?;
    let block = at / size as u64;
    read_part(rt, session, room.as_mut_slice(), block, 0, from, list)
}

/// Adds the bytes from byte `at` to the end of its block; none at a block boundary.
fn add_tail<J: JournalName, D: Device, R: Record, G: Gate, W: Wait>(
    rt: &W,
    alloc: Global,
    session: &Session<'_, J, D, R, G>,
    at: u64,
    list: &mut Vec<u8>,
) -> Result<(), JournalError>
    ensures adds { OnOk result (AddsTail D.state D.honest J.name J.name.shape.block_size at list.old.items list.new.items) }
    ensures err { IfErr result (CutRefused D.state J.name.shape.block_size at) }
{
    let size = session.block_size();
    let from = (at % size as u64) as usize;
    if from == 0 {
        return Ok(());
    }
    let mut room = vec![in alloc; 0u8; size]?;
    let block = at / size as u64;
    read_part(
        rt,
        session,
        room.as_mut_slice(),
        block,
        from,
        size - from,
        list,
    )
}

/// Writes whole blocks through one handle, which is stopped and noted, and its ticket added, even if a write is refused. Room for the ticket
/// is made first: nothing fails between the handle's start and its stop but its writes.
fn write_blocks<J: JournalName, D: Device, R: Record, G: Gate, W: Wait>(
    rt: &W,
    session: &mut Session<'_, J, D, R, G>,
    first: u64,
    bytes: &[u8],
    stopped: &mut Stopped,
    tickets: &mut Vec<SharedTicket<J, R>>,
) -> Result<(), JournalError>
    requires fits { first + length bytes.now / J.name.shape.block_size < 2 ^ 64 }
    requires credits { length bytes.now / J.name.shape.block_size ≤ J.name.capacity }
    ensures steps { OnOk result (AddsTicket (λ ticket. ticket.steps ≡ write_steps ticket.ticket.handle first J.name.shape.block_size bytes.now (length bytes.now / J.name.shape.block_size)) stopped.new tickets.old.items tickets.new.items) }
    ensures left { OnErr result (MayAddTicket (WritesFirst first J.name.shape.block_size bytes.now) stopped.new tickets.old.items tickets.new.items) }
    ensures kept { stopped.old ≤ stopped.new }
    ensures taken { stopped.old ≤ last_taken → stopped.new ≤ last_taken }
    ensures err { IfErr result (HandleRefused D J.name.capacity (IsAmong first (length bytes.now / J.name.shape.block_size))) }
{
    let size = session.block_size();
    let blocks = (bytes.len() / size) as u64;
    tickets.try_reserve(1)?;
    let mut handle = start(rt, session, blocks)?;
    stopped.register(handle.tid());
    let filled = fill(rt, session, &mut handle, first, bytes, size);
    let ticket = session.stop(rt, handle);
    tickets.push_reserved(ticket);
    filled
}

/// Writes whole blocks through a handle.
fn fill<'s, J: JournalName, D: Device, R: Record, G: Gate, W: Wait>(
    rt: &W,
    session: &Session<'s, J, D, R, G>,
    handle: &mut SharedHandle<'s, J, R>,
    first: u64,
    bytes: &[u8],
    size: usize,
) -> Result<(), JournalError>
    requires some { 0 < size }
    requires block { size ≡ J.name.shape.block_size }
    requires fits { first + length bytes.now / size < 2 ^ 64 }
    requires credits { length bytes.now / size ≤ handle.old.handle.left }
    ensures number { handle.new.handle.number ≡ handle.old.handle.number }
    ensures tid { handle.new.handle.tid ≡ handle.old.handle.tid }
    ensures steps { OnOk result (handle.new.steps ≡ handle.old.steps ++ write_steps handle.old.handle.number first size bytes.now (length bytes.now / size)) }
    ensures left { OnErr result (AddsFirst (write_steps handle.old.handle.number first size bytes.now) (length bytes.now / size) handle.old.steps handle.new.steps) }
    ensures err { IfErr result (StepRefused D (IsAmong first (length bytes.now / size))) }
{
    for k in 0..bytes.len() / size {
        let block = BlockNo(first + k as u64);
        session.write(rt, handle, block, &bytes[k * size..k * size + size])?;
    }
    Ok(())
}

/// Writes a byte range through one or more handles, in order.
fn write_pieces<J: JournalName, D: Device, R: Record, G: Gate, W: Wait>(
    rt: &W,
    alloc: Global,
    session: &mut Session<'_, J, D, R, G>,
    offset: u64,
    bytes: &[u8],
    stopped: &mut Stopped,
    tickets: &mut Vec<SharedTicket<J, R>>,
) -> Result<(), JournalError>
    requires fits { offset + length bytes.now < 2 ^ 64 }
    requires empty { tickets.old.items ≡ [] }
    ensures pieces { OnOk result (WritesPieces D.state D.honest J.name J.name.shape.block_size offset tickets.new.items bytes.now) }
    ensures left { OnErr result (WritesSome D.state D.honest J.name J.name.shape.block_size offset bytes.now tickets.new.items) }
    ensures noted { AreNoted stopped.new tickets.new.items }
    ensures kept { stopped.old ≤ stopped.new }
    ensures taken { stopped.old ≤ last_taken → stopped.new ≤ last_taken }
    ensures err { IfErr result (WriteRefused D.state J.name.shape.block_size J.name.capacity offset (length bytes.now)) }
{
    let mut done = 0;
    while done < bytes.len() {
        let at = offset + done as u64;
        let most = piece_length(session.block_size(), session.capacity(), at);
        let count = most.min(bytes.len() - done);
        write_once(
            rt,
            alloc,
            session,
            at,
            &bytes[done..done + count],
            stopped,
            tickets,
        )?;
        done += count;
    }
    Ok(())
}

/// How many bytes one handle writes at most from byte `at` on.
fn piece_length(size: usize, capacity: u64, at: u64) -> usize
    requires size { 0 < size }
    requires capacity { 0 < capacity }
    ensures some { 0 < result }
    ensures full { at % size + result ≡ min (capacity * size) (2 ^ 64 - 1) }
{
    let before = (at % size as u64) as usize;
    (capacity as usize)
        .saturating_mul(size)
        .saturating_sub(before)
        .max(1)
}

/// Writes zeros, as `write_range` writes bytes. It takes memory for the zeros of one handle. If it takes more than one handle, it ends early
/// once whoever asked for it has left, and returns what shows that; a part of them is then written, as after an error.
///
/// # Errors
///
/// Those of `write_range`.
pub fn write_zeros<J: JournalName, D: Device, R: Record, G: Gate, X: Copy, W: Wait>(
    rt: &W,
    alloc: Global,
    session: &mut Session<'_, J, D, R, G>,
    offset: u64,
    count: usize,
    stopped: &mut Stopped,
    tickets: &mut Tickets<J, R>,
    leaving: &Leaving<X>,
) -> Result<Option<X>, JournalError>
    ensures once { IfOk result (λ early. early ≡ None → WritesAll D.state D.honest J.name J.name.shape.block_size J.name.capacity offset (replicate count 0) tickets.new) }
    ensures early { IfOk result (λ early. IfSome early (λ _. WritesSome D.state D.honest J.name J.name.shape.block_size offset (replicate count 0) tickets.new)) }
    ensures left { OnErr result (WritesSome D.state D.honest J.name J.name.shape.block_size offset (replicate count 0) tickets.new) }
    ensures noted { AreNoted stopped.new tickets.new }
    ensures kept { stopped.old ≤ stopped.new }
    ensures taken { stopped.old ≤ last_taken → stopped.new ≤ last_taken }
    ensures err { IfErr result (WriteRefused D.state J.name.shape.block_size J.name.capacity offset count) }
{
    tickets.list.clear();
    if offset.checked_add(count as u64).is_none() {
        return Err(JournalError::BadBlock);
    }
    if lie_within(session.block_size(), offset, count, session.capacity()) {
        let list = &mut tickets.list;
        zero_once(rt, alloc, session, offset, count, stopped, list)?;
        return Ok(None);
    }
    let list = &mut tickets.list;
    zero_pieces(rt, alloc, session, offset, count, stopped, list, leaving)
}

/// Writes zeros through one handle.
fn zero_once<J: JournalName, D: Device, R: Record, G: Gate, W: Wait>(
    rt: &W,
    alloc: Global,
    session: &mut Session<'_, J, D, R, G>,
    offset: u64,
    count: usize,
    stopped: &mut Stopped,
    tickets: &mut Vec<SharedTicket<J, R>>,
) -> Result<(), JournalError>
    requires fits { offset + count < 2 ^ 64 }
    requires credits { LieWithin J.name.shape.block_size offset count J.name.capacity }
    ensures once { OnOk result (AddsTicket (WritesRange D.state D.honest J.name J.name.shape.block_size offset (replicate count 0)) stopped.new tickets.old.items tickets.new.items) }
    ensures left { OnErr result (MayAddTicket (BeginsRange D.state D.honest J.name J.name.shape.block_size offset (replicate count 0)) stopped.new tickets.old.items tickets.new.items) }
    ensures kept { stopped.old ≤ stopped.new }
    ensures taken { stopped.old ≤ last_taken → stopped.new ≤ last_taken }
    ensures err { IfErr result (WriteRefused D.state J.name.shape.block_size J.name.capacity offset count) }
{
    let zeros = vec![in alloc; 0u8; count]?;
    write_once(rt, alloc, session, offset, &zeros, stopped, tickets)
}

/// Writes zeros through one or more handles, in order.
fn zero_pieces<J: JournalName, D: Device, R: Record, G: Gate, X: Copy, W: Wait>(
    rt: &W,
    alloc: Global,
    session: &mut Session<'_, J, D, R, G>,
    offset: u64,
    count: usize,
    stopped: &mut Stopped,
    tickets: &mut Vec<SharedTicket<J, R>>,
    leaving: &Leaving<X>,
) -> Result<Option<X>, JournalError>
    requires fits { offset + count < 2 ^ 64 }
    requires empty { tickets.old.items ≡ [] }
    ensures pieces { IfOk result (λ early. early ≡ None → WritesPieces D.state D.honest J.name J.name.shape.block_size offset tickets.new.items (replicate count 0)) }
    ensures early { IfOk result (λ early. IfSome early (λ _. WritesSome D.state D.honest J.name J.name.shape.block_size offset (replicate count 0) tickets.new.items)) }
    ensures left { OnErr result (WritesSome D.state D.honest J.name J.name.shape.block_size offset (replicate count 0) tickets.new.items) }
    ensures noted { AreNoted stopped.new tickets.new.items }
    ensures kept { stopped.old ≤ stopped.new }
    ensures taken { stopped.old ≤ last_taken → stopped.new ≤ last_taken }
    ensures err { IfErr result (WriteRefused D.state J.name.shape.block_size J.name.capacity offset count) }
{
    let mut done = 0;
    while done < count {
        if let Some(by) = leaving.shown(rt) {
            return Ok(Some(by));
        }
        let at = offset + done as u64;
        let most = piece_length(session.block_size(), session.capacity(), at);
        let some = most.min(count - done);
        zero_once(rt, alloc, session, at, some, stopped, tickets)?;
        done += some;
    }
    Ok(None)
}
