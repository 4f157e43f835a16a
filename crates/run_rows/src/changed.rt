//! Rows of runs over hand-changed logs, and of the bytes that runs leave.
//!
//! `log 3 from 8: 00000002` spells these bytes at byte 8 of log block 3 and after; `home` names the home area.
use crate::journals::Runner;
use crate::scripts::given_script;
use crate::texts::{write_hex, written};
use block_device::{Device, MemDevice};
use journal_model::{Area, JournalError};
use journal_script::{Operation, Script};
use log_rows::RowError;
use log_rows::words::{cut, hex_bytes, number};
use recovery::open;
use script_run::{Fault, RunDevice, StoppedRun, empty_disk, judge, run_device};
use std::alloc::{AllocError, Global};
use std::fmt::Write;

/// Runs over a log changed by hand, and changes the image by hand. Given: lines of bytes for the formatted log, a line `run`, a script on
/// one line, and lines of bytes for the image. Found: the lines of the run and of the verdict; the verdict or the refusal.
pub fn changed<J: Runner>(alloc: Global, journal: &J, given: &str) -> Result<String, RowError> {
    let (before, behind) = cut(given, "run\n")?;
    let (text, after) = behind.split_once('\n').unwrap_or((behind, ""));
    let script = given_script(alloc, text)?;
    let mut out = Vec::new(alloc);
    let answer = run_changed(alloc, journal, &script, before, after, &mut out)?;
    let mut found = String::from_str(alloc, written(&out)?)?;
    write_answer(&mut found, answer)?;
    Ok(found)
}

type Answer = Result<bool, JournalError>;

fn write_answer(found: &mut String, answer: Answer) -> Result<(), AllocError> {
    match answer {
        Ok(right) => write!(found, "right {right}"),
        Err(e) => write!(found, "refusal {} {}", e.number(), e.name()),
    }
}

/// The answer of a call whose output fails only if memory runs out.
fn answer_of<T: Drop>(answer: Result<T, Fault>) -> Result<Result<T, JournalError>, RowError> {
    match answer {
        Ok(value) => Ok(Ok(value)),
        Err(Fault::Refused(JournalError::Memory) | Fault::Output(_)) => Err(RowError::Memory),
        Err(Fault::Refused(e)) => Ok(Err(e)),
    }
}

/// Runs a script over its log with the bytes `before`, then judges the image with the bytes `after`.
fn run_changed<J: Runner>(
    alloc: Global,
    journal: &J,
    script: &Script,
    before: &str,
    after: &str,
    out: &mut Vec<u8>,
) -> Result<Answer, RowError> {
    let device = run_device(changed_disk(alloc, script, before)?, None, None);
    let answer = run_over(alloc, journal, device, &script.operations, out);
    match answer_of(answer)? {
        Ok(stopped) => judge_changed(alloc, script, stopped, after, out),
        Err(e) => Ok(Err(e)),
    }
}

fn run_over<J: Runner>(
    alloc: Global,
    journal: &J,
    device: RunDevice,
    operations: &[Operation],
    out: &mut Vec<u8>,
) -> Result<StoppedRun, Fault> {
    match open(alloc, device) {
        Ok(opened) => journal.run_operations_over(alloc, opened, operations, out),
        Err((_, e)) => Err(Fault::Refused(e)),
    }
}

fn changed_disk(alloc: Global, script: &Script, lines: &str) -> Result<MemDevice, RowError> {
    match empty_disk(alloc, &script.measures) {
        Ok(disk) => with_bytes(alloc, disk, lines),
        Err(_) => Err(RowError::Memory),
    }
}

fn judge_changed(
    alloc: Global,
    script: &Script,
    stopped: StoppedRun,
    lines: &str,
    out: &mut Vec<u8>,
) -> Result<Answer, RowError> {
    let StoppedRun {
        device,
        recorded,
        at_write,
    } = stopped;
    let changed = StoppedRun {
        device: with_bytes(alloc, device.crash(&[]), lines)?,
        recorded,
        at_write,
    };
    let named = script.named_blocks(alloc)?;
    answer_of(judge(alloc, changed, &[], &named, out))
}

/// The device with the bytes of these lines, durable; its writes are numbered from 1 again.
fn with_bytes(alloc: Global, mut device: MemDevice, lines: &str) -> Result<MemDevice, RowError> {
    for line in lines.lines() {
        write_line(alloc, &mut device, line)?;
    }
    flush(&mut device, Area::Log)?;
    flush(&mut device, Area::Home)?;
    Ok(device.crash(&[]))
}

fn flush(device: &mut MemDevice, area: Area) -> Result<(), RowError> {
    match device.flush(area) {
        Ok(()) => Ok(()),
        Err(_) => Err(RowError::Memory),
    }
}

fn write_line(alloc: Global, device: &mut MemDevice, line: &str) -> Result<(), RowError> {
    let (place, digits) = cut(line, ": ")?;
    let (area, n, from) = place_of(place)?;
    let mut block = block_of(alloc, device, area, n)?;
    put(&mut block, from, &hex_bytes(alloc, digits)?)?;
    if block.len() != device.block_size() || n >= device.blocks(area) {
        return Err(RowError::Unread);
    }
    match device.write(area, n, &block) {
        Ok(()) => Ok(()),
        Err(_) => Err(RowError::Memory),
    }
}

/// Reads a place like `log 3 from 8`.
fn place_of(text: &str) -> Result<(Area, u64, usize), RowError> {
    let (block, from) = cut(text, " from ")?;
    let (area, n) = named_block(block)?;
    Ok((area, n, number(from)? as usize))
}

/// Reads a block's name, like `log 3`.
fn named_block(text: &str) -> Result<(Area, u64), RowError> {
    let (area, n) = cut(text, " ")?;
    match area {
        "log" => Ok((Area::Log, number(n)?)),
        "home" => Ok((Area::Home, number(n)?)),
        _ => Err(RowError::Unread),
    }
}

fn put(block: &mut [u8], from: usize, bytes: &[u8]) -> Result<(), RowError> {
    if from.saturating_add(bytes.len()) > block.len() {
        return Err(RowError::Unread);
    }
    for (place, byte) in block.iter_mut().skip(from).zip(bytes) {
        *place = *byte;
    }
    Ok(())
}

fn block_of(
    alloc: Global,
    device: &mut MemDevice,
    area: Area,
    n: u64,
) -> Result<Vec<u8>, RowError> {
    if n >= device.blocks(area) {
        return Err(RowError::Unread);
    }
    let mut bytes = vec![in alloc; 0; device.block_size()]?;
    match device.read(area, n, &mut bytes) {
        Ok(()) => Ok(bytes),
        Err(_) => Err(RowError::Memory),
    }
}

/// The bytes that a run leaves. Given: a script on one line, and lines that name a block, like `log 3`, or some bytes of it, like `log 3
/// from 8 for 4`. Found: these lines with the device's bytes after the run; those after a line `opened` show a crash and an opening.
pub fn bytes<J: Runner>(alloc: Global, journal: &J, given: &str) -> Result<String, RowError> {
    let (text, lines) = cut(given, "\n")?;
    let script = given_script(alloc, text)?;
    let device = device_after(alloc, journal, &script)?;
    let (left, opened) = lines.split_once("opened\n").unwrap_or((lines, ""));
    let mut all = String::new(alloc);
    let device = write_lines(&mut all, alloc, device, left)?;
    if !opened.is_empty() {
        all.push_str("opened\n")?;
        write_lines(&mut all, alloc, opened_device(alloc, device)?, opened)?;
    }
    Ok(all)
}

fn device_after<J: Runner>(
    alloc: Global,
    journal: &J,
    script: &Script,
) -> Result<MemDevice, RowError> {
    match journal.run_operations(alloc, script, None, None, &mut Vec::new(alloc)) {
        Ok(stopped) => Ok(stopped.device),
        Err(_) => Err(RowError::Memory),
    }
}

fn opened_device(alloc: Global, device: MemDevice) -> Result<MemDevice, RowError> {
    match open(alloc, device.crash(&[])) {
        Ok(opened) => Ok(opened.into_device()),
        Err(_) => Err(RowError::Unread),
    }
}

fn write_lines(
    all: &mut String,
    alloc: Global,
    mut device: MemDevice,
    lines: &str,
) -> Result<MemDevice, RowError> {
    for line in lines.lines() {
        write!(all, "{line}: ")?;
        write_named(all, alloc, &mut device, line)?;
        all.push('\n')?;
    }
    Ok(device)
}

fn write_named(
    all: &mut String,
    alloc: Global,
    device: &mut MemDevice,
    line: &str,
) -> Result<(), RowError> {
    let (block, part) = line.split_once(" from ").unwrap_or((line, "0 for 4096"));
    let (area, n) = named_block(block)?;
    let bytes = block_of(alloc, device, area, n)?;
    write_part(all, &bytes, part)
}

/// Writes the bytes of a text like `8 for 4`; the block's end cuts them.
fn write_part(all: &mut String, block: &[u8], part: &str) -> Result<(), RowError> {
    let (from, count) = cut(part, " for ")?;
    let from = number(from)? as usize;
    let to = from
        .saturating_add(number(count)? as usize)
        .min(block.len());
    match block.get(from..to) {
        Some(bytes) => Ok(write_bytes(all, bytes)?),
        None => Err(RowError::Unread),
    }
}

/// Writes hex digits; more than eight zeros at the end are counted instead.
fn write_bytes(all: &mut String, bytes: &[u8]) -> Result<(), AllocError> {
    let used = bytes
        .iter()
        .rposition(|byte| *byte != 0)
        .map_or(0, |last| last.saturating_add(1));
    let zeros = bytes.len().saturating_sub(used);
    if zeros <= 8 {
        return write_hex(all, bytes);
    }
    if used > 0 {
        write_hex(all, bytes.get(..used).unwrap_or(bytes))?;
        all.push_str(" and ")?;
    }
    write!(all, "{zeros} zeros")
}
