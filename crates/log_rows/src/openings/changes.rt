//! Rows of openings of one log with single changed bytes.
use crate::RowError;
use crate::logs::{RowLog, block_at, log_of};
use crate::openings::opening::told_of;
use crate::openings::tally::AnswerTally;
use crate::words::{cut, hex_bytes, next_word, no_word, series, value_of};
use journal_model::{Block, Items};
use std::alloc::Global;

/// Each of these bytes of these blocks gets each of these values in turn.
#[derive(Drop)]
struct Changes {
    blocks: (u64, u64),
    bytes: (u64, u64),
    values: Vec<u8>,
}

/// Reads a line like `blocks=0..32 bytes=0..63 values=00ff`.
fn changes_of(alloc: Global, line: &str) -> Result<Changes, RowError> {
    let mut words = line.split_whitespace();
    let blocks = series(value_of(next_word(&mut words)?, "blocks")?)?;
    let bytes = series(value_of(next_word(&mut words)?, "bytes")?)?;
    let values = hex_bytes(alloc, value_of(next_word(&mut words)?, "values")?)?;
    no_word(&mut words)?;
    Ok(Changes {
        blocks,
        bytes,
        values,
    })
}

fn with_block(alloc: Global, log: &RowLog, place: u64, bytes: Vec<u8>) -> Result<RowLog, RowError> {
    let mut blocks = Items::new(alloc);
    for (other, block) in log.blocks.as_slice() {
        blocks.push((*other, block.try_clone()?))?;
    }
    blocks.push((place, Block::new(bytes)?))?;
    Ok(RowLog {
        shape: log.shape,
        blocks,
    })
}

/// The log with this value as byte `at` of a block.
fn changed(
    alloc: Global,
    log: &RowLog,
    (place, at): (u64, u64),
    value: u8,
) -> Result<RowLog, RowError> {
    let mut bytes = block_at(alloc, log, place)?.bytes().to_vec(alloc)?;
    *bytes.get_mut(at as usize).ok_or(RowError::Unread)? = value;
    with_block(alloc, log, place, bytes)
}

fn change_byte(
    alloc: Global,
    log: &RowLog,
    (place, at): (u64, u64),
    values: &[u8],
    tally: &mut AnswerTally,
) -> Result<(), RowError> {
    for value in values {
        let told = told_of(alloc, &changed(alloc, log, (place, at), *value)?)?;
        tally.add(alloc, &told, told.answer.as_str())?;
    }
    Ok(())
}

fn change_block(
    alloc: Global,
    log: &RowLog,
    place: u64,
    changes: &Changes,
    tally: &mut AnswerTally,
) -> Result<(), RowError> {
    let (first, last) = changes.bytes;
    for at in first..=last {
        change_byte(alloc, log, (place, at), &changes.values, tally)?;
    }
    Ok(())
}

/// Openings of changed logs. Given: a line like `blocks=0..32 bytes=0..63 values=00ff`, and a log; each of these bytes of each of these
/// blocks gets each value in turn. Found: the number of images, the writes of their openings, how often each answer comes, and a digest, as
/// for `random_logs`.
pub fn changed_bytes(alloc: Global, given: &str) -> Result<String, RowError> {
    let (line, spelled) = cut(given, "\n")?;
    let changes = changes_of(alloc, line)?;
    let log = log_of(alloc, spelled)?;
    let mut tally = AnswerTally::new(alloc);
    let (first, last) = changes.blocks;
    for place in first..=last {
        change_block(alloc, &log, place, &changes, &mut tally)?;
    }
    tally.text(alloc)
}
