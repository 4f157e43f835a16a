//! Why a row has no answer.
use block_device::DeviceFault;
use std::alloc::AllocError;
use std::fmt;

/// Why a row has no answer.
#[derive(Clone, Copy, Debug, PartialEq, Eq)]
pub enum RowError {
    /// Memory ran out.
    Memory,
    /// The row's text can't be read.
    Unread,
}

impl From<AllocError> for RowError {
    fn from(_e: AllocError) -> RowError {
        RowError::Memory
    }
}

impl From<fmt::Error> for RowError {
    /// Writing a text in memory fails only if memory runs out.
    fn from(_e: fmt::Error) -> RowError {
        RowError::Memory
    }
}

impl From<DeviceFault> for RowError {
    /// A device in memory fails only if memory runs out.
    fn from(_e: DeviceFault) -> RowError {
        RowError::Memory
    }
}
