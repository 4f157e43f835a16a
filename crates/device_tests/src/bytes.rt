//! Steps over a device whose blocks each hold one repeated byte.
use block_device::{Device, DeviceFault};
use journal_model::Area;

/// Bytes of a block.
pub const SIZE: usize = 4;

/// The two areas.
pub const LOG: Area = Area::Log;

pub const HOME: Area = Area::Home;

/// A call of a device, with its expected result.
#[derive(Clone, Copy)]
pub enum DeviceStep {
    /// An area has this many blocks.
    Has(Area, u64),
    /// A block is filled with a byte.
    Writes(Area, u64, u8),
    /// A write of this block fails.
    CantWrite(Area, u64, u8),
    /// A block reads as this byte.
    Reads(Area, u64, u8),
    /// An area has exactly these blocks, by their bytes.
    ReadsAll(Area, &'static [u8]),
    /// A read fails.
    CantRead(Area, u64),
    /// An area is flushed.
    Flushes(Area),
    /// A flush of this area fails.
    CantFlush(Area),
    /// A flush of this area is begun, and waited for without the device.
    WaitsApart(Area),
    /// It can't be waited for so.
    CantWaitApart(Area),
}

/// Fills a block, if it exists.
pub(crate) fn write<D: Device>(
    device: &mut D,
    area: Area,
    block: u64,
    byte: u8,
) -> Option<Result<(), DeviceFault>> {
    if device.block_size() != SIZE || device.blocks(area) <= block {
        return None;
    }
    Some(device.write(area, block, &[byte; SIZE]))
}

/// The first byte of a block, if it exists.
fn read<D: Device>(device: &mut D, area: Area, block: u64) -> Option<Result<u8, DeviceFault>> {
    if device.block_size() != SIZE || device.blocks(area) <= block {
        return None;
    }
    let mut bytes = [0xee; SIZE];
    Some(match device.read(area, block, &mut bytes) {
        Ok(()) => Ok(bytes[0]),
        Err(e) => Err(e),
    })
}

fn reads_all<D: Device>(device: &mut D, area: Area, bytes: &[u8]) -> bool {
    for (block, byte) in bytes.iter().enumerate() {
        if read(device, area, block as u64) != Some(Ok(*byte)) {
            return false;
        }
    }
    device.blocks(area) == bytes.len() as u64
}

/// Waits for an area's flush without the device; whether that was done, if the device lets it be.
fn wait_apart<D: Device>(device: &mut D, area: Area) -> Option<bool> {
    let syncing = device.begin_flush(area)?;
    match syncing.wait() {
        Some(durable) => {
            device.end_flush(durable);
            Some(true)
        }
        None => Some(false),
    }
}

/// Makes a step's call; whether its result is the expected one.
fn is_so<D: Device>(device: &mut D, step: &DeviceStep) -> bool {
    match *step {
        DeviceStep::Has(area, blocks) => device.blocks(area) == blocks,
        DeviceStep::Writes(area, block, byte) => write(device, area, block, byte) == Some(Ok(())),
        DeviceStep::CantWrite(area, block, byte) => {
            write(device, area, block, byte) == Some(Err(DeviceFault))
        }
        DeviceStep::Reads(area, block, byte) => read(device, area, block) == Some(Ok(byte)),
        DeviceStep::ReadsAll(area, bytes) => reads_all(device, area, bytes),
        DeviceStep::CantRead(area, block) => read(device, area, block) == Some(Err(DeviceFault)),
        DeviceStep::Flushes(area) => device.flush(area) == Ok(()),
        DeviceStep::CantFlush(area) => device.flush(area) == Err(DeviceFault),
        DeviceStep::WaitsApart(area) => wait_apart(device, area) == Some(true),
        DeviceStep::CantWaitApart(area) => wait_apart(device, area).is_none(),
    }
}

/// The first step with another result.
pub fn first_wrong<D: Device>(device: &mut D, steps: &[DeviceStep]) -> Option<usize> {
    for (n, step) in steps.iter().enumerate() {
        if !is_so(device, step) {
            return Some(n);
        }
    }
    None
}
