//! Keeps blocks that were read before they were asked for.
ghost use Rattle.std.specs.Prelude.{◌≡◌, ◌+◌, ◌*◌, ◌<◌, ◌≤◌, length, true, IfSome};
ghost use Rattle.journal_model.specs.Disk.{same_area};
ghost use Rattle.file_device.specs.Ahead.{IsForgotten};
ghost use Rattle.file_device.specs.Blocks.{block_of};

use crate::gathered::are_one;
use journal_model::Area;
use std::alloc::Global;

/// How many bytes are read at once.
pub(crate) const MOST_BYTES: usize = 65_536;

/// Blocks with fewer than this many between them are near.
const NEAR_BLOCKS: u64 = 8;

/// Consecutive blocks of one area: a reader that goes on from block to block needs one system call for many.
#[derive(Drop)]
pub(crate) struct Ahead {
    pub(crate) bytes: Vec<u8>,
    /// The area of the blocks, the first one's number, and how many there are.
    pub(crate) area: Area,
    pub(crate) first: u64,
    pub(crate) count: u64,
    /// The block after the last one that was asked for.
    pub(crate) next_area: Area,
    pub(crate) next: u64,
    /// Whether the last two blocks that were asked for were near.
    pub(crate) is_steady: bool,
}

impl Ahead {
    /// Keeps no block, and takes no memory.
    pub(crate) fn new(alloc: Global) -> Self
        ensures { result.count ≡ 0 }
    {
        Ahead {
            bytes: Vec::new(alloc),
            area: Area::Log,
            first: 0,
            count: 0,
            next_area: Area::Log,
            next: 0,
            is_steady: false,
        }
    }

    /// The place of block `n` of an area among the kept blocks, if it is one.
    pub(crate) fn place(&self, area: Area, n: u64) -> Option<u64>
        ensures whose { IfSome result (λ _. same_area area self.now.area ≡ true) }
        ensures place { IfSome result (λ k. (k < self.now.count) × (self.now.first + k ≡ n)) }
    {
        if !are_one(area, self.area) {
            return None;
        }
        let place = n.checked_sub(self.first)?;
        if place < self.count {
            Some(place)
        } else {
            None
        }
    }

    /// Drops the kept blocks if their area is to be written.
    pub(crate) fn forget(&mut self, area: Area)
        ensures { IsForgotten area self.old self.new }
    {
        if are_one(self.area, area) {
            self.count = 0;
        }
    }

    /// Whether block `n` of an area is near the last one that was asked for, and after it.
    pub(crate) fn is_near(&self, area: Area, n: u64) -> bool {
        if !are_one(area, self.next_area) {
            return false;
        }
        match n.checked_sub(self.next) {
            Some(between) => between < NEAR_BLOCKS,
            None => false,
        }
    }
}

pub(crate) fn copy_block(bytes: &[u8], size: usize, k: u64, into: &mut [u8])
    requires there { (k + 1) * size ≤ length bytes.now }
    requires block { length into.old ≡ size }
    ensures { into.new ≡ block_of size bytes.now k }
{
    let at = k as usize * size;
    into.copy_from_slice(&bytes[at..at + size]);
}
