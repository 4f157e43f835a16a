//! Which device call of a commit is due.

/// How far the commit of a transaction has come, by its due device call.
/// Source: journalling.rst and fs/jbd2/commit.c by behaviour; the order is this project's own.
#[derive(Clone, Copy, Debug, PartialEq, Eq)]
pub enum Stage {
    /// No commit.
    Idle,
    /// The log is clean. Due: the superblock that names the transaction's place.
    SuperblockWrite,
    /// Due: the flush of that write.
    SuperblockFlush,
    /// So many log blocks of the transaction are written. Due: the next one or, before the commit block, their
    /// flush.
    Blocks(u64),
    /// All other blocks are durable. Due: the commit block.
    CommitWrite,
    /// Due: its flush.
    CommitFlush,
}
