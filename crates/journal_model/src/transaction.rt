//! Which steps handles make, and what a transaction keeps of them.
use crate::{Block, BlockNo, HandleNo, Items, Tid};

/// What a step does to its block.
#[derive(Debug, Drop)]
pub enum Op {
    /// Writes these bytes.
    Write(Block),
    /// Revokes older copies of the block: none may be replayed.
    Revoke,
    /// Reads these bytes.
    Read(Block),
}

/// One accepted operation of a handle.
#[derive(Debug, Drop)]
pub struct Step {
    pub handle: HandleNo,
    pub block: BlockNo,
    pub op: Op,
}

/// A transaction that takes no more handles.
#[derive(Debug, Drop)]
pub struct Sealed {
    pub tid: Tid,
    /// In the order of joining.
    pub handles: Items<HandleNo>,
    /// In the order of acceptance.
    pub steps: Items<Step>,
}
