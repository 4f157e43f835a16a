//! Rows of verdicts on hand-made records and devices, which no run leaves.
//!
//! A row has parts with `; ` between them. `2 writes 3 07` is a sealed transaction 2 that writes bytes 07 to block 3; `acknowledged 2` the
//! greatest acknowledged transaction; `end 3` the end that an opening reported; `home 3 07` a named home block with these bytes. A block
//! has 16 bytes.
use block_device::{Device, MemDevice};
use journal_model::{Area, Block, BlockNo, HandleNo, Items, Op, Sealed, Step, Tid};
use journal_script::NamedBlocks;
use log_rows::RowError;
use log_rows::words::{cut, hex_bytes, number, number32};
use script_run::RunRecord;
use std::alloc::{AllocError, Global};

const SIZE: usize = 16;

const HOME: u64 = 8;

#[derive(Drop)]
struct RecordedRun {
    record: RunRecord,
    end: u64,
    device: MemDevice,
    named: NamedBlocks,
}

/// The number of recorded transactions below the end, and the verdict on the named blocks after these: like `n=1, right true`.
pub fn verdict(alloc: Global, given: &str) -> Result<String, RowError> {
    let mut left = nothing_left(alloc);
    for part in given.split("; ") {
        let (word, behind) = cut(part, " ")?;
        add_part(alloc, &mut left, word, behind)?;
    }
    let n = left.record.count_below(left.end);
    match left.record.judge(alloc, &mut left.device, &left.named, n) {
        Ok(right) => Ok(format!(in alloc; "n={n}, right {right}")?),
        Err(_) => Err(RowError::Unread),
    }
}

fn nothing_left(alloc: Global) -> RecordedRun {
    RecordedRun {
        record: RunRecord {
            sealed: Vec::new(alloc),
            acknowledged: None,
        },
        end: 0,
        device: MemDevice::new(alloc, SIZE, 4, HOME),
        named: NamedBlocks::none(alloc),
    }
}

fn add_part(
    alloc: Global,
    left: &mut RecordedRun,
    word: &str,
    behind: &str,
) -> Result<(), RowError> {
    match word {
        "acknowledged" => left.record.acknowledged = Some(Tid(number32(behind)?)),
        "end" => left.end = number(behind)?,
        "home" => write_home(alloc, left, behind)?,
        tid => {
            let written = behind.strip_prefix("writes ").ok_or(RowError::Unread)?;
            seal(
                &mut left.record,
                transaction(alloc, number32(tid)?, written)?,
            )?;
        }
    }
    Ok(())
}

fn seal(record: &mut RunRecord, transaction: Sealed) -> Result<(), AllocError> {
    Ok(record.sealed.push(transaction)?)
}

/// The transaction with one write, spelled like `3 07`.
fn transaction(alloc: Global, tid: u32, written: &str) -> Result<Sealed, RowError> {
    let (block, bytes) = block_in(alloc, written)?;
    let mut steps = Items::new(alloc);
    steps.push(Step {
        handle: HandleNo(1),
        block: BlockNo(block),
        op: Op::Write(Block::copy_of(alloc, &bytes)?),
    })?;
    Ok(Sealed {
        tid: Tid(tid),
        handles: Items::new(alloc),
        steps,
    })
}

fn write_home(alloc: Global, left: &mut RecordedRun, written: &str) -> Result<(), RowError> {
    let (block, bytes) = block_in(alloc, written)?;
    if block >= left.device.blocks(Area::Home) || left.device.block_size() != SIZE {
        return Err(RowError::Unread);
    }
    left.named.blocks.insert(block).map_err(AllocError::from)?;
    match left.device.write(Area::Home, block, &bytes) {
        Ok(()) => Ok(()),
        Err(_) => Err(RowError::Memory),
    }
}

fn block_in(alloc: Global, written: &str) -> Result<(u64, [u8; SIZE]), RowError> {
    let (block, byte) = cut(written, " ")?;
    match hex_bytes(alloc, byte)?.as_slice() {
        [byte] => Ok((number(block)?, [*byte; SIZE])),
        _ => Err(RowError::Unread),
    }
}
