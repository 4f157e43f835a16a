//! Why a script's operations can't go on.
use journal_model::JournalError;
use std::io;

/// Why a script's operations, or a run of them, can't go on.
#[derive(Debug, Drop, thiserror::Error)]
pub enum Fault {
    /// The journal, a log or the device refused, or memory ran out.
    #[error("{0}")]
    Refused(#[from] JournalError),
    /// The output can't be written.
    #[error("{0}")]
    Output(#[from] io::Error),
}
