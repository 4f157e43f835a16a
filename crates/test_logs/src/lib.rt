//! Logs for the tests of libraries: a new one on a device in memory, and an opened one.
#![tactic(auto)]

use block_device::{Device, MemDevice};
use journal_model::JournalError;
use recovery::Opened;
use std::alloc::Global;

/// Bytes of a block.
pub const BLOCK_SIZE: usize = 1024;

/// A device in memory with a new log of this many blocks, and this many home blocks.
///
/// # Errors
///
/// Those of `recovery::format`. The device is dropped.
pub fn formatted(alloc: Global, log: u32, home: u64) -> Result<MemDevice, JournalError> {
    let mut device = MemDevice::new(alloc, BLOCK_SIZE, u64::from(log), home);
    recovery::format(&mut device, log, &[7; 16], false)?;
    Ok(device)
}

/// The opened log of a device.
///
/// # Errors
///
/// Those of `recovery::open`. The device is dropped.
pub fn opened<D: Device + Drop>(alloc: Global, device: D) -> Result<Opened<D>, JournalError> {
    match recovery::open(alloc, device) {
        Ok(opened) => Ok(opened),
        Err((_, e)) => Err(e),
    }
}
