//! Which system call failed, and what the system answered.
use journal_model::Area;
use std::{fmt, io};

/// A failed call on a file of a device.
#[derive(Drop)]
pub struct Failure {
    /// The area whose file it was.
    pub area: Area,
    /// The call.
    pub call: FailedCall,
    /// The system's answer.
    pub error: io::Error,
}

/// A call on a file.
#[derive(Clone, Copy)]
pub enum FailedCall {
    /// A read, from this byte on.
    Read(u64),
    /// A write, from this byte on.
    Write(u64),
    /// A sync.
    Sync,
}

impl Failure {
    pub(crate) fn new(area: Area, call: FailedCall, error: io::Error) -> Failure {
        Failure { area, call, error }
    }
}

impl fmt::Display for Failure {
    fn fmt<W: fmt::Write>(&self, f: &mut fmt::Formatter<W>) -> fmt::Result {
        match self.call {
            FailedCall::Read(at) => write!(f, "it can't be read from byte {at} on: {}", self.error),
            FailedCall::Write(at) => {
                write!(f, "it can't be written from byte {at} on: {}", self.error)
            }
            FailedCall::Sync => write!(f, "it can't be synced: {}", self.error),
        }
    }
}
