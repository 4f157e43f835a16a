//! Whether a transaction is committed.

/// Whether a handle's transaction is committed, by the commit mark.
#[derive(Clone, Copy, Debug, PartialEq, Eq)]
pub enum Status {
    /// The mark has reached its number: it is durable.
    Committed,
    /// The mark has not reached it.
    Open,
}
