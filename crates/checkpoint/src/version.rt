//! Where a copy stands in the log, and which copy goes home.
use journal_model::{BlockNo, Tid};

/// Where a copy stands in the log.
#[derive(Clone, Copy, PartialEq, Eq)]
pub struct Version {
    pub tid: Tid,
    /// Entries of the transaction before it.
    pub place: usize,
}

/// A pending copy to write home.
#[derive(Clone, Copy, PartialEq, Eq)]
pub struct HomeCopy {
    pub block: BlockNo,
    pub version: Version,
}
