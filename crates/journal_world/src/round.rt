//! Which device call of a checkpoint round is due.

/// How far a checkpoint round has come, by its due device call.
/// Source: fs/jbd2/checkpoint.c by behaviour; the order is this project's own.
#[derive(Clone, Copy, Debug, PartialEq, Eq)]
pub enum Round {
    /// No round.
    Idle,
    /// Copies go home, by transaction and then block. Those before this block of this transaction (counted from 0 since
    /// the opening) are written. Due: the next copy or, after the last, the flush of home.
    Copies { transaction: u64, block: u64 },
    /// The copies are durable at home. Due: the superblock with the tail after the round's transactions.
    TailWrite,
    /// Due: the flush of that write.
    TailFlush,
}
