//! Shared journals on logs that are opened.
use block_device::Device;
use journal_model::JournalError;
use recovery::Opened;
use shared_journal::{Record, UnnamedJournal, create};
use std::alloc::Global;
use test_logs::opened;

/// An unnamed shared journal on an opened log.
///
/// # Errors
///
/// Those of `shared_journal::create`. The opened log is dropped.
pub fn create_on<D: Device + Drop, K: Record>(
    alloc: Global,
    opened: Opened<D>,
) -> Result<UnnamedJournal<D, K>, JournalError> {
    match create(alloc, opened) {
        Ok(unnamed) => Ok(unnamed),
        Err((_, e)) => Err(e),
    }
}

/// An unnamed shared journal on the log of a device.
///
/// # Errors
///
/// Those of `recovery::open` and `shared_journal::create`. The device is dropped.
pub fn unnamed_on<D: Device + Drop, K: Record>(
    alloc: Global,
    device: D,
) -> Result<UnnamedJournal<D, K>, JournalError> {
    create_on(alloc, opened(alloc, device)?)
}
