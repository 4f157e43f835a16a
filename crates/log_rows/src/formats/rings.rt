//! Rows of places in the ring, room, and layouts of transactions.
use crate::RowError;
use crate::spelling::layout_in;
use crate::telling::{refusal_text, text};
use crate::words::{cut, number, split_width, values};
use journal_model::JournalError;
use log_ring::{Layout, Part, Ring};
use std::alloc::Global;
use std::fmt::Write;

/// The greatest position in a row.
const MOST_POSITION: u64 = 1_000_000;

/// The ring of the log blocks `first` to `maxlen - 1`.
fn ring_of(first: u64, maxlen: u64) -> Result<Ring, RowError> {
    let (Ok(first), Ok(maxlen)) = (u32::try_from(first), u32::try_from(maxlen)) else {
        return Err(RowError::Unread);
    };
    if first == 0 || maxlen < first || maxlen - first < 16 {
        return Err(RowError::Unread);
    }
    Ok(Ring::new(first, maxlen))
}

fn release(ring: &mut Ring, count: u64) -> Result<u64, RowError> {
    if ring.blocks() - ring.free() < count {
        return Err(RowError::Unread);
    }
    ring.release(count);
    Ok(ring.free())
}

fn take(ring: &mut Ring, count: u64) -> Result<Result<u64, JournalError>, RowError> {
    if ring.head() > MOST_POSITION {
        return Err(RowError::Unread);
    }
    Ok(ring.take(count))
}

fn asked(ring: &Ring, name: &str) -> Result<u64, RowError> {
    match name {
        "blocks" => Ok(ring.blocks()),
        "free" => Ok(ring.free()),
        "head" => Ok(ring.head()),
        "tail" => Ok(ring.tail()),
        _ => Err(RowError::Unread),
    }
}

fn called(
    ring: &mut Ring,
    name: &str,
    operands: &str,
) -> Result<Result<u64, JournalError>, RowError> {
    match name {
        "place" => Ok(Ok(ring.place(number(operands)?))),
        "release" => Ok(Ok(release(ring, number(operands)?)?)),
        "take" => take(ring, number(operands)?),
        "advance" => {
            let (place, count) = cut(operands, " ")?;
            Ok(Ok(ring.advance(number(place)?, number(count)?)))
        }
        _ => Err(RowError::Unread),
    }
}

fn answer_to(ring: &mut Ring, call: &str) -> Result<Result<u64, JournalError>, RowError> {
    match call.split_once(' ') {
        Some((name, operands)) => called(ring, name, operands),
        None => Ok(Ok(asked(ring, call)?)),
    }
}

fn answer_text(alloc: Global, answer: Result<u64, JournalError>) -> Result<String, RowError> {
    match answer {
        Ok(number) => Ok(format!(in alloc; "{number}")?),
        Err(e) => refusal_text(alloc, e),
    }
}

/// Calls of a ring. Given: a line `first=N maxlen=N`, and a call a line: `blocks`, `free`, `head`, `tail`, `place P`, `advance B N`, `take
/// N`, `release N`. Found: each call with its answer; a release answers how many blocks are then free.
pub fn ring_calls(alloc: Global, given: &str) -> Result<String, RowError> {
    let (measures, calls) = cut(given, "\n")?;
    let [first, maxlen] = values::<2>(measures, "first maxlen")?;
    let mut ring = ring_of(first, maxlen)?;
    let mut told = String::new(alloc);
    for call in calls.lines() {
        let answer = answer_to(&mut ring, call)?;
        let answer = answer_text(alloc, answer)?;
        writeln!(told, "{call} = {answer}")?;
    }
    text(alloc, told.as_str().trim_end())
}

fn layout_of(size: u64, wide: bool, copies: u64, revokes: u64) -> Result<Layout, RowError> {
    let known = size == 1024 || size == 2048 || size == 4096;
    if !known || copies > 2000 || revokes > 2000 {
        return Err(RowError::Unread);
    }
    Ok(Layout::new(layout_in(size as usize, wide), copies, revokes))
}

fn need(size: u64, wide: bool, copies: u64, revokes: u64) -> Result<u64, RowError> {
    let known = size == 1024 || size == 2048 || size == 4096;
    if !known || copies > 2000 || revokes > 2000 {
        return Err(RowError::Unread);
    }
    Ok(Ring::need(layout_in(size as usize, wide), copies, revokes))
}

fn capacity(size: u64, wide: bool, ring: u64) -> Result<u64, RowError> {
    let known = size == 1024 || size == 2048 || size == 4096;
    if !known || ring < 16 || ring > 1_048_576 {
        return Err(RowError::Unread);
    }
    Ok(Layout::capacity(layout_in(size as usize, wide), ring))
}

/// Room of transactions. Given: `block=N copies=N revokes=N`, and `wide` for block numbers of 64 bits. Found: how many log blocks such a
/// transaction needs.
pub fn needs(alloc: Global, given: &str) -> Result<String, RowError> {
    let (given, wide) = split_width(given);
    let [block_size, copies, revokes] = values::<3>(given, "block copies revokes")?;
    let need = need(block_size, wide, copies, revokes)?;
    Ok(format!(in alloc; "{need}")?)
}

/// The most copies of a transaction. Given: `block=N ring=N`, a block's bytes and the ring's blocks, and `wide` for block numbers of 64
/// bits. Found: the most copies.
pub fn capacities(alloc: Global, given: &str) -> Result<String, RowError> {
    let (given, wide) = split_width(given);
    let [block_size, ring] = values::<2>(given, "block ring")?;
    let capacity = capacity(block_size, wide, ring)?;
    Ok(format!(in alloc; "{capacity}")?)
}

fn add_part(told: &mut String, place: u64, part: Part) -> Result<(), RowError> {
    match part {
        Part::Revokes { first, numbers } => {
            writeln!(told, "{place} revokes from {first}, {numbers}")?
        }
        Part::Descriptor { first, tags } => {
            writeln!(told, "{place} descriptor from {first}, {tags}")?
        }
        Part::Copy(copy) => writeln!(told, "{place} copy {copy}")?,
        Part::Commit => writeln!(told, "{place} commit")?,
    }
    Ok(())
}

/// Parts of transactions. Given: `block=N copies=N revokes=N from=N to=N`, and `wide` for block numbers of 64 bits. Found: what each block
/// of such a transaction is, between these places, counted from 0, as far as it has any; or `none`.
pub fn parts(alloc: Global, given: &str) -> Result<String, RowError> {
    let (given, wide) = split_width(given);
    let [block_size, copies, revokes, from, to] = values::<5>(
        given,
        "block copies revokes from to",
    )?;
    let layout = layout_of(block_size, wide, copies, revokes)?;
    let mut told = String::new(alloc);
    for place in from..=to.min(layout.blocks() - 1) {
        add_part(&mut told, place, layout.part(place))?;
    }
    if told.is_empty() {
        return text(alloc, "none");
    }
    text(alloc, told.as_str().trim_end())
}

/// Places of transactions. Given: `first=N maxlen=N block=N copies=N revokes=N start=N at=N`: a ring, a transaction that begins at this
/// position of it, and a block of that, counted from 0. Found: the log block where it is.
pub fn places(alloc: Global, given: &str) -> Result<String, RowError> {
    let [first, maxlen, block_size, copies, revokes, start, at] = values::<7>(
        given,
        "first maxlen block copies revokes start at",
    )?;
    let ring = ring_of(first, maxlen)?;
    let layout = layout_of(block_size, false, copies, revokes)?;
    if at >= layout.blocks() || start > MOST_POSITION {
        return Err(RowError::Unread);
    }
    let place = layout.place(&ring, start, at);
    Ok(format!(in alloc; "{place}")?)
}
