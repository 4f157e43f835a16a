//! Rows of devices in memory that lose power, stop, and fail once.
//!
//! The device has 4 log blocks and 400 home blocks, of 4 bytes each. Its calls are spelled like this, with bars between them:
//!
//! ```text
//! write log 1 0a       fills block 1 of the log with the byte 0a
//! write home 0..3 0b   fills these home blocks, in order
//! flush home           flushes an area
//! read log 1           answers the bytes of a block
//! writes               answers how many writes are counted
//! stop 3               from here on the device stops at write 3; at none for 0
//! stopped              answers whether it has stopped
//! fail 3               from here on call 3 of the device fails; none for 0
//! calls                answers how many calls that device has counted
//! behind               goes on with the device inside the one that stops or fails
//! crash 1 3            power is lost, and writes 1 and 3 are kept
//! ```
//!
//! A failed call answers why. A block is printed without the zeros at its end.
use crate::RowError;
use crate::devices::images::known_images;
use crate::telling::{add_bytes, text};
use crate::words::{cut, hex_byte, number, series};
use block_device::{Device, DeviceFault, FailOnce, MemDevice, StopAt};
use journal_model::{Area, Items};
use std::alloc::Global;
use std::fmt::Write;

const SIZE: usize = 4;

/// A device in memory, or one over it that stops, or that fails once.
#[derive(Drop)]
enum Rig {
    Memory(MemDevice),
    Stopping(StopAt<MemDevice>),
    Failing(FailOnce<MemDevice>),
}

fn area_of(name: &str) -> Result<Area, RowError> {
    match name {
        "log" => Ok(Area::Log),
        "home" => Ok(Area::Home),
        _ => Err(RowError::Unread),
    }
}

fn add_answer(told: &mut String, answer: Result<(), DeviceFault>) -> Result<(), RowError> {
    if let Err(fault) = answer {
        write!(told, "{fault} | ")?;
    }
    Ok(())
}

fn fill<D: Device>(
    told: &mut String,
    device: &mut D,
    (area, block): (Area, u64),
    byte: u8,
) -> Result<(), RowError> {
    if device.block_size() != SIZE || block >= device.blocks(area) {
        return Err(RowError::Unread);
    }
    add_answer(told, device.write(area, block, &[byte; SIZE]))
}

fn fill_series<D: Device>(told: &mut String, device: &mut D, words: &str) -> Result<(), RowError> {
    let (area, behind) = cut(words, " ")?;
    let (blocks, byte) = cut(behind, " ")?;
    let area = area_of(area)?;
    let byte = hex_byte(byte)?;
    let (first, last) = series(blocks)?;
    for block in first..=last {
        fill(told, device, (area, block), byte)?;
    }
    Ok(())
}

fn read<D: Device>(told: &mut String, device: &mut D, words: &str) -> Result<(), RowError> {
    let (area, block) = cut(words, " ")?;
    let area = area_of(area)?;
    let block = number(block)?;
    if device.block_size() != SIZE || block >= device.blocks(area) {
        return Err(RowError::Unread);
    }
    let mut bytes = [0xee; SIZE];
    match device.read(area, block, &mut bytes) {
        Ok(()) => add_bytes(told, &bytes)?,
        Err(fault) => write!(told, "{fault}")?,
    }
    Ok(told.push_str(" | ")?)
}

fn call<D: Device>(told: &mut String, device: &mut D, spelled: &str) -> Result<(), RowError> {
    let (name, words) = cut(spelled, " ")?;
    match name {
        "write" => fill_series(told, device, words),
        "read" => read(told, device, words),
        "flush" => add_answer(told, device.flush(area_of(words)?)),
        _ => Err(RowError::Unread),
    }
}

fn numbers_of(alloc: Global, words: &str) -> Result<Items<u64>, RowError> {
    let mut numbers = Items::new(alloc);
    for word in words.split_whitespace() {
        numbers.push(number(word)?)?;
    }
    Ok(numbers)
}

fn call_memory(
    alloc: Global,
    told: &mut String,
    mut device: MemDevice,
    spelled: &str,
) -> Result<Rig, RowError> {
    if spelled == "writes" {
        write!(told, "writes {} | ", device.writes())?;
    } else if let Some(keep) = spelled.strip_prefix("crash") {
        let keep = numbers_of(alloc, keep)?;
        return Ok(Rig::Memory(device.crash(keep.as_slice())));
    } else if let Some(write) = spelled.strip_prefix("stop ") {
        return Ok(Rig::Stopping(StopAt::new(device, number(write)?)));
    } else if let Some(at) = spelled.strip_prefix("fail ") {
        return Ok(Rig::Failing(FailOnce::new(device, number(at)?)));
    } else {
        call(told, &mut device, spelled)?;
    }
    Ok(Rig::Memory(device))
}

fn call_stopping(
    told: &mut String,
    mut device: StopAt<MemDevice>,
    spelled: &str,
) -> Result<Rig, RowError> {
    match spelled {
        "behind" => return Ok(Rig::Memory(device.into_inner())),
        "stopped" => write!(told, "stopped {} | ", device.is_stopped())?,
        _ => call(told, &mut device, spelled)?,
    }
    Ok(Rig::Stopping(device))
}

fn call_failing(
    told: &mut String,
    mut device: FailOnce<MemDevice>,
    spelled: &str,
) -> Result<Rig, RowError> {
    match spelled {
        "behind" => return Ok(Rig::Memory(device.into_inner())),
        "calls" => write!(told, "calls {} | ", device.calls())?,
        _ => call(told, &mut device, spelled)?,
    }
    Ok(Rig::Failing(device))
}

fn answers_text(alloc: Global, answers: &str) -> Result<String, RowError> {
    text(alloc, answers.strip_suffix(" | ").unwrap_or(answers))
}

/// Calls of a device in memory. Given: calls. Found: their answers, with bars between them.
pub fn memory_calls(alloc: Global, given: &str) -> Result<String, RowError> {
    let mut told = String::new(alloc);
    let mut rig = Rig::Memory(MemDevice::new(alloc, SIZE, 4, 400));
    for spelled in given.split('|') {
        let spelled = spelled.trim();
        rig = match rig {
            Rig::Memory(device) => call_memory(alloc, &mut told, device, spelled)?,
            Rig::Stopping(device) => call_stopping(&mut told, device, spelled)?,
            Rig::Failing(device) => call_failing(&mut told, device, spelled)?,
        };
    }
    answers_text(alloc, told.as_str())
}

/// What a crash leaves of the images of the program `known_images`. Given: the kept writes. Found: block 1 of the log and block 2 of home.
pub fn crashed_images(alloc: Global, given: &str) -> Result<String, RowError> {
    let keep = given.strip_prefix("keep").ok_or(RowError::Unread)?;
    let keep = numbers_of(alloc, keep)?;
    let mut device = MemDevice::new(alloc, SIZE, 4, 4);
    known_images(&mut device, &[1; SIZE], &[2; SIZE], &[3; SIZE])?;
    let mut device = device.crash(keep.as_slice());
    let mut told = String::new(alloc);
    read(&mut told, &mut device, "log 1")?;
    read(&mut told, &mut device, "home 2")?;
    answers_text(alloc, told.as_str())
}
