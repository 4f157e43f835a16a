//! Gathers consecutive blocks, so that one system call writes them.
ghost use Rattle.std.specs.Prelude.{◌≡◌, ◌+◌, ◌<◌, ◌≤◌, [], length, false, true, IfSome, IsNone, IsTrue};
ghost use Rattle.journal_model.specs.Disk.{same_area};
ghost use Rattle.file_device.specs.Gathered.{HoldsSame, IsAmong, IsApart, IsFreeOf, IsPushed};

use journal_model::Area;
use std::alloc::Global;

/// How many bytes are gathered at most.
const MOST_GATHERED: usize = 65_536;

/// Consecutive blocks of one area, which one system call is to write.
#[derive(Drop)]
pub(crate) struct Gathered {
    /// The bytes of these blocks, and no others.
    pub(crate) bytes: Vec<u8>,
    /// The area of the blocks, and the first one's number; without blocks, where they would begin.
    pub(crate) area: Area,
    pub(crate) first: u64,
    /// How many blocks there are.
    pub(crate) count: u64,
}

/// Whether these are one area.
pub(crate) fn are_one(one: Area, other: Area) -> bool
    ensures { result ≡ same_area one other }
{
    match one {
        Area::Log => match other {
            Area::Log => true,
            Area::Home => false,
        },
        Area::Home => match other {
            Area::Log => false,
            Area::Home => true,
        },
    }
}

impl Gathered {
    /// Gathers no block, and takes no memory.
    pub(crate) fn new(alloc: Global) -> Self
        ensures none { result.count ≡ 0 }
        ensures bytes { result.bytes.items ≡ [] }
    {
        Gathered {
            bytes: Vec::new(alloc),
            area: Area::Log,
            first: 0,
            count: 0,
        }
    }

    /// Drops all blocks, and lets block `n` of an area be the next. Keeps the memory.
    pub(crate) fn begin_at(&mut self, area: Area, n: u64)
        ensures bytes { self.new.bytes.items ≡ [] }
        ensures rest { self.new ≡ record self.old { bytes = self.new.bytes; area = area; first = n; count = 0 } }
    {
        self.bytes.clear();
        self.area = area;
        self.first = n;
        self.count = 0;
    }

    /// The place of block `n` of an area among these, if it is one.
    pub(crate) fn place(&self, area: Area, n: u64) -> Option<u64>
        ensures found { IfSome result (λ k. IsAmong self.now area n k) }
        ensures apart { IsNone result → IsApart self.now area n }
    {
        if !are_one(area, self.area) {
            return None;
        }
        let k = n.checked_sub(self.first)?;
        if k < self.count { Some(k) } else { None }
    }

    /// Whether no block of this area is gathered.
    pub(crate) fn is_free_of(&self, area: Area) -> bool
        ensures { IsTrue result → IsFreeOf self.now area }
    {
        self.count == 0 || !are_one(area, self.area)
    }

    fn is_next(&self, area: Area, n: u64) -> bool
        ensures { IsTrue result → (same_area area self.now.area ≡ true) × (n ≡ self.now.first + self.now.count) }
    {
        if !are_one(area, self.area) {
            return false;
        }
        match n.checked_sub(self.first) {
            Some(k) => k == self.count,
            None => false,
        }
    }

    /// Adds block `n` of an area, if it follows the others and there is room and memory; whether it did.
    pub(crate) fn push(&mut self, area: Area, n: u64, bytes: &[u8]) -> bool
        requires some { 0 < length bytes.now }
        ensures taken { IsTrue result → IsPushed self.old self.new area n bytes.now }
        ensures left { result ≡ false → HoldsSame self.old self.new }
    {
        let room = (MOST_GATHERED / bytes.len()) as u64;
        if self.count >= room || !self.is_next(area, n) {
            return false;
        }
        if self.bytes.extend_from_slice(bytes).is_err() {
            return false;
        }
        self.count += 1;
        true
    }
}
