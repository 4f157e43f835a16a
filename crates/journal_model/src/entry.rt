//! What a transaction leaves of a block, and what goes to the log for it.
ghost use Rattle.std.specs.Prelude.{◌≡◌, IfOk};

use crate::{Block, BlockNo, Items, Tid};
use std::alloc::AllocError;

/// What a transaction leaves of a block that it touched.
#[derive(Debug, Drop)]
pub enum Entry {
    /// The last operation was a write of these bytes.
    Copy(Block),
    /// The last operation was a revoke: no older copy of the block may be replayed.
    Revoke,
}

impl Entry {
    /// The same entry, sharing the bytes of a copy. It fails as `Block::try_clone` does.
    pub fn try_clone(&self) -> Result<Self, AllocError>
        ensures { IfOk result (λ entry. entry ≡ self.now) }
    {
        match self {
            Entry::Copy(block) => Ok(Entry::Copy(block.try_clone()?)),
            Entry::Revoke => Ok(Entry::Revoke),
        }
    }
}

/// What goes to the log for one transaction.
#[derive(Debug, Drop)]
pub struct Batch {
    pub tid: Tid,
    /// One entry for each touched block, in the order of first touches.
    pub entries: Items<(BlockNo, Entry)>,
}

/// What a block is after some transactions.
#[derive(Debug, Drop)]
pub enum Content {
    /// The last effect is this copy.
    Copy(Block),
    /// What home holds: the transactions have no copy of it, or the last effect is a revoke.
    Direct,
}
