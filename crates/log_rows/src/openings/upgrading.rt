//! Rows of upgrades of empty logs to block numbers of 64 bits.
use crate::RowError;
use crate::logs::{RowLog, block_at, device_of, log_of};
use crate::openings::calls::NotedCalls;
use crate::openings::opening::opened_or_refused;
use crate::telling::refusal_text;
use block_device::{Device, FailOnce, MemDevice, StopAt};
use journal_model::{Area, JournalError};
use log_format::Super;
use recovery::upgrade;
use std::alloc::Global;
use std::fmt::Write;

/// More device calls than an upgrade makes.
const MOST_CALLS: u64 = 20;

fn answer_text(alloc: Global, answer: Result<u32, JournalError>) -> Result<String, RowError> {
    match answer {
        Ok(sequence) => Ok(format!(in alloc; "upgraded sequence={sequence}")?),
        Err(e) => refusal_text(alloc, e),
    }
}

fn read_log(alloc: Global, device: &mut MemDevice, place: u64) -> Result<Vec<u8>, RowError> {
    if place >= device.blocks(Area::Log) {
        return Err(RowError::Unread);
    }
    let mut bytes = vec![in alloc; 0; device.block_size()]?;
    device.read(Area::Log, place, &mut bytes)?;
    Ok(bytes)
}

fn add_changes(told: &mut String, place: u64, old: &[u8], new: &[u8]) -> Result<(), RowError> {
    for (byte, (before, after)) in old.iter().zip(new).enumerate() {
        if before != after {
            writeln!(
                told,
                "block {place} byte {byte}: {before:02x} to {after:02x}"
            )?;
        }
    }
    Ok(())
}

fn changes_text(alloc: Global, log: &RowLog, device: &mut MemDevice) -> Result<String, RowError> {
    let mut told = String::new(alloc);
    for place in 0..log.shape.measures.log_blocks {
        let old = block_at(alloc, log, place)?;
        let new = read_log(alloc, device, place)?;
        add_changes(&mut told, place, old.bytes(), &new)?;
    }
    Ok(told)
}

/// Upgrades. Given: a log, on a device that lost power with it. Found: the answer of the upgrade; a line for each of its writes and
/// flushes, in order; a line for each changed byte of the log's area; and what an opening finds after one more loss of power.
pub fn upgrades(alloc: Global, given: &str) -> Result<String, RowError> {
    let log = log_of(alloc, given)?;
    let mut device = NotedCalls::new(device_of(alloc, &log)?);
    let answer = upgrade(alloc, &mut device);
    let mut told = answer_text(alloc, answer)?;
    told.push('\n')?;
    told.push_str(device.text(alloc)?.as_str())?;
    let mut device = device.into_inner().crash(&[]);
    told.push_str(changes_text(alloc, &log, &mut device)?.as_str())?;
    let (found, _) = opened_or_refused(alloc, device)?;
    told.push_str(found.as_str())?;
    Ok(told)
}

/// An upgrade that stops at a write or fails a call (0 for none): its answer, and with these writes kept the superblock's features and what
/// an opening finds; also how many calls it made.
fn broken_upgrade(
    alloc: Global,
    log: &RowLog,
    (stop, fail): (u64, u64),
    keep: &[u64],
) -> Result<(String, u64), RowError> {
    let mut device = FailOnce::new(StopAt::new(device_of(alloc, log)?, stop), fail);
    let answer = upgrade(alloc, &mut device);
    let answer = answer_text(alloc, answer)?;
    let calls = device.calls();
    let mut left = device.into_inner().into_inner().crash(keep);
    let block = read_log(alloc, &mut left, 0)?;
    if block.len() < 1024 {
        return Err(RowError::Unread);
    }
    let features = Super::fields(&block).s_feature_incompat;
    let (found, _) = opened_or_refused(alloc, left)?;
    let line = format!(in alloc; "{answer}, s_feature_incompat={features}, {found}")?;
    Ok((line, calls))
}

/// Upgrades that a stop ends. Given: as for `upgrades`. Found: a line for each choice of a stop at the first write or none, and of no
/// unflushed write kept or the first: the answer of the upgrade, the superblock's features, and what an opening finds.
pub fn stopped_upgrades(alloc: Global, given: &str) -> Result<String, RowError> {
    let log = log_of(alloc, given)?;
    let mut all = String::new(alloc);
    for (name, stop) in &[("stop 1", 1), ("no stop", 0)] {
        let (lost, _) = broken_upgrade(alloc, &log, (*stop, 0), &[])?;
        let (kept, _) = broken_upgrade(alloc, &log, (*stop, 0), &[1])?;
        writeln!(all, "{name}, keep: {lost}\n{name}, keep 1: {kept}")?;
    }
    Ok(all)
}

/// Upgrades whose calls fail in turn, followed by a loss of power. Given: as for `upgrades`. Found: a line for each failing call, and for
/// no unflushed write kept or the first: the answer of the upgrade, the superblock's features, and what an opening finds. The last two
/// lines are of an upgrade without a failure.
pub fn failed_upgrades(alloc: Global, given: &str) -> Result<String, RowError> {
    let log = log_of(alloc, given)?;
    let mut all = String::new(alloc);
    for call in 1..=MOST_CALLS {
        let (lost, calls) = broken_upgrade(alloc, &log, (0, call), &[])?;
        let (kept, _) = broken_upgrade(alloc, &log, (0, call), &[1])?;
        writeln!(
            all,
            "call {call}, keep: {lost}\ncall {call}, keep 1: {kept}"
        )?;
        if calls < call {
            return Ok(all);
        }
    }
    Err(RowError::Unread)
}
