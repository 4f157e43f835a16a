//! What a block is: its bytes, shared by its clones.
ghost use Rattle.std.specs.Prelude.{◌≡◌, ◌<◌, List, ℕ, IfOk};

use std::alloc::{AllocError, Global};
use std::marker::Model;
use std::sync::Arc;

/// The bytes of one block, shared by its clones. Contracts see the list of bytes.
#[derive(Debug, Drop)]
pub struct Block {
    bytes: Arc<Vec<u8>>,
}

impl Model for Block {
    ghost use Rattle.std.specs.Prelude.{List, ℕ};
    ghost use Rattle.std.specs.Arc.{arc_value};

    ghost Value = { List ℕ };

    ghost view = { λ b. (arc_value b.bytes).items };
}

impl Block {
    /// A block of these bytes.
    ///
    /// # Errors
    ///
    /// `AllocError`: memory ran out.
    pub fn new(bytes: Vec<u8>) -> Result<Self, AllocError>
        ensures { IfOk result (λ block. block ≡ bytes.items) }
    {
        let alloc = *bytes.allocator();
        Ok(Block {
            bytes: Arc::new(alloc, bytes)?,
        })
    }

    /// A block with a copy of these bytes.
    ///
    /// # Errors
    ///
    /// `AllocError`: memory ran out.
    pub fn copy_of(alloc: Global, bytes: &[u8]) -> Result<Self, AllocError>
        ensures { IfOk result (λ block. block ≡ bytes.now) }
    {
        Block::new(Vec::from_slice(alloc, bytes)?)
    }

    /// A block that shares these bytes, without new memory.
    ///
    /// # Errors
    ///
    /// `AllocError`: they have too many holders to count.
    pub fn try_clone(&self) -> Result<Self, AllocError>
        ensures { IfOk result (λ block. block ≡ self.now) }
    {
        Ok(Block {
            bytes: Arc::try_clone(&self.bytes)?,
        })
    }

    pub fn bytes(&self) -> &[u8]
        ensures { result.now ≡ self.now }
    {
        self.bytes.as_slice()
    }

    /// The number of blocks that share these bytes, with this one.
    pub fn holders(&self) -> usize
        ensures { 0 < result }
    {
        Arc::strong_count(&self.bytes)
    }
}
