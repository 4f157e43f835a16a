//! The spelling of logs, which all rows share:
//!
//! ```text
//! LOG    = [ DEVICE ] { BLOCKS }
//! DEVICE = "device" { "log=" N | "home=" N | "block=" N | "wide" }   33 blocks of the log's area, 64 home blocks, and 1024
//!                                                           bytes of a block, unless they are said; block numbers of 32 bits,
//!                                                           or of 64
//! BLOCKS = P ":" BLOCK { "|" BLOCK }                        blocks of the log's area, from block P on
//! ```
//!
//! Each part is a line. Other blocks are zeros. `spelling` has the spelling of a block.
use crate::RowError;
use crate::spelling::{SuperblockMeasures, block_of};
use crate::words::{count, cut, number};
use block_device::{Device, MemDevice};
use journal_model::{Area, Block, Items};
use std::alloc::{AllocError, Global};

/// The measures of a device.
#[derive(Clone, Copy)]
pub struct Shape {
    /// Bytes of a block, blocks of the log's area, and the width of block numbers.
    pub measures: SuperblockMeasures,
    /// Blocks of home.
    pub home_blocks: u64,
}

/// Measures that a row has unless it states others.
const USUAL: Shape = Shape {
    measures: SuperblockMeasures {
        block_size: 1024,
        log_blocks: 33,
        wide: false,
    },
    home_blocks: 64,
};

/// A log that a row spells.
#[derive(Drop)]
pub struct RowLog {
    /// The measures of its device.
    pub shape: Shape,
    /// The spelled blocks with their places, in the order of their lines.
    pub blocks: Items<(u64, Block)>,
}

fn shape_of(words: &str) -> Result<Shape, RowError> {
    let mut shape = USUAL;
    for word in words.split_whitespace() {
        if word == "wide" {
            shape.measures.wide = true;
        } else {
            set_measure(&mut shape, word)?;
        }
    }
    Ok(shape)
}

fn set_measure(shape: &mut Shape, word: &str) -> Result<(), RowError> {
    let (name, value) = cut(word, "=")?;
    match name {
        "log" => shape.measures.log_blocks = number(value)?,
        "home" => shape.home_blocks = number(value)?,
        "block" => shape.measures.block_size = count(value)?,
        _ => return Err(RowError::Unread),
    }
    Ok(())
}

/// The measures that the first line may give, and the other lines.
fn split_shape(given: &str) -> Result<(Shape, &str), RowError> {
    match given.strip_prefix("device ") {
        Some(behind) => {
            let (words, lines) = behind.split_once('\n').unwrap_or((behind, ""));
            Ok((shape_of(words)?, lines))
        }
        None => Ok((USUAL, given)),
    }
}

fn push_line(
    alloc: Global,
    blocks: &mut Items<(u64, Block)>,
    measures: &SuperblockMeasures,
    line: &str,
) -> Result<(), RowError> {
    let (first, spelled) = cut(line, ":")?;
    let mut place = number(first)?;
    for words in spelled.split('|') {
        let block = block_of(alloc, measures, words.trim())?;
        blocks.push((place, Block::new(block)?))?;
        place = place.saturating_add(1);
    }
    Ok(())
}

/// The log that a text spells.
pub fn log_of(alloc: Global, given: &str) -> Result<RowLog, RowError> {
    let (shape, lines) = split_shape(given)?;
    let mut blocks = Items::new(alloc);
    for line in lines.lines() {
        push_line(alloc, &mut blocks, &shape.measures, line)?;
    }
    Ok(RowLog { shape, blocks })
}

/// The block at a place of the log's area; zeros if no line spells it.
pub fn block_at(alloc: Global, log: &RowLog, place: u64) -> Result<Block, AllocError> {
    for (other, block) in log.blocks.as_slice().iter().rev() {
        if *other == place {
            return block.try_clone();
        }
    }
    Block::new(vec![in alloc; 0; log.shape.measures.block_size]?)
}

fn write_block(device: &mut MemDevice, place: u64, bytes: &[u8]) -> Result<(), RowError> {
    if bytes.len() != device.block_size() || place >= device.blocks(Area::Log) {
        return Err(RowError::Unread);
    }
    device.write(Area::Log, place, bytes)?;
    Ok(())
}

/// A device that lost power with a log on it. No write is counted yet, and home is zeros.
pub fn device_of(alloc: Global, log: &RowLog) -> Result<MemDevice, RowError> {
    let SuperblockMeasures {
        block_size,
        log_blocks,
        wide: _,
    } = log.shape.measures;
    let mut device = MemDevice::new(alloc, block_size, log_blocks, log.shape.home_blocks);
    for (place, block) in log.blocks.as_slice() {
        write_block(&mut device, *place, block.bytes())?;
    }
    device.flush(Area::Log)?;
    Ok(device.crash(&[]))
}
