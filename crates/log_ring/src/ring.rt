//! Which blocks of the ring are taken, and which are free.
ghost use Rattle.std.specs.Prelude.{◌≡◌, ◌+◌, ◌-◌, ◌<◌, ◌≤◌, ◌^◌, OnOk, IfOk, IfErr};
ghost use Rattle.journal_model.specs.declared.refusal.JournalError.TheVariants.{NeedSpace};
ghost use Rattle.log_model.specs.Chain.{place_from, ring_place};
ghost use Rattle.journal_model.specs.Layout.{IsLayout};
ghost use Rattle.log_model.specs.Room.{need};
ghost use Rattle.log_model.specs.Superblock.{least_ring};
ghost use Rattle.log_ring.specs.Ring.{IsRing, free, taken};

use crate::layout::Layout;
use journal_model::{JournalError, LogLayout};
use std::marker::Model;

/// The ring of a log, taken from tail to head. Both are positions: they count blocks over all laps and never fall.
/// Source: fs/jbd2 by behaviour (`j_head`, `j_tail`, `j_free`); positions in the place of places are this project's own.
#[derive(Drop)]
pub struct Ring {
    /// The first log block of the ring, and the number of its blocks.
    first: u64,
    blocks: u64,
    /// The oldest taken block's position, and the one after the newest.
    tail: u64,
    head: u64,
}

impl Model for Ring {
    ghost use Rattle.log_ring.specs.Ring.{IsRing, RingValue};

    ghost Value = { RingValue };

    ghost view = { λ r. record { ring = record { first = r.first; blocks = r.blocks }; tail = r.tail; head = r.head } };

    ghost invariant = { λ r. IsRing (record { ring = record { first = r.first; blocks = r.blocks }; tail = r.tail; head = r.head }) };
}

impl Ring {
    /// The ring of log blocks `first` to `maxlen - 1`, at least 16, all free.
    pub fn new(first: u32, maxlen: u32) -> Self
        requires behind { 0 < first }
        requires least { first + least_ring ≤ maxlen }
        ensures { result ≡ record { ring = record { first = first; blocks = maxlen - first }; tail = 0; head = 0 } }
    {
        Ring {
            first: u64::from(first),
            blocks: u64::from(maxlen - first),
            tail: 0,
            head: 0,
        }
    }

    /// The number of ring blocks.
    pub fn blocks(&self) -> u64
        ensures blocks { result ≡ self.now.ring.blocks }
        ensures sound { IsRing self.now }
    {
        self.blocks
    }

    /// The log block of a position.
    pub fn place(&self, position: u64) -> u64
        ensures place { result ≡ ring_place self.now.ring position }
        ensures low { self.now.ring.first ≤ result }
        ensures high { result < self.now.ring.first + self.now.ring.blocks }
        ensures small { result < 2 ^ 32 }
    {
        self.first + position % self.blocks
    }

    /// The log block `count` blocks after this one; the first follows the last. From a block before the ring, as block 0,
    /// it counts from the first.
    pub fn advance(&self, place: u64, count: u64) -> u64
        ensures place { result ≡ place_from self.now.ring place count }
        ensures low { self.now.ring.first ≤ result }
        ensures high { result < self.now.ring.first + self.now.ring.blocks }
        ensures small { result < 2 ^ 32 }
    {
        let behind = place.saturating_sub(self.first) % self.blocks;
        self.first + (behind + count % self.blocks) % self.blocks
    }

    /// The log blocks that so many copies and revokes need, at most 2^32 of either.
    /// Source: journal.rst, "Layout".
    pub fn need(layout: LogLayout, copies: u64, revokes: u64) -> u64
        requires taken { IsLayout layout }
        requires copies { copies ≤ 2 ^ 32 }
        requires revokes { revokes ≤ 2 ^ 32 }
        ensures { result ≡ need layout copies revokes }
    {
        Layout::new(layout, copies, revokes).blocks()
    }

    /// The number of free ring blocks.
    pub fn free(&self) -> u64
        ensures free { result ≡ free self.now }
        ensures sound { IsRing self.now }
    {
        self.blocks - (self.head - self.tail)
    }

    /// The position of the next block to take.
    pub fn head(&self) -> u64
        ensures head { result ≡ self.now.head }
        ensures sound { IsRing self.now }
    {
        let head = self.head;
        head
    }

    /// The position of the oldest taken block; the head if none is taken.
    pub fn tail(&self) -> u64
        ensures tail { result ≡ self.now.tail }
        ensures sound { IsRing self.now }
    {
        let tail = self.tail;
        tail
    }

    /// Takes `count` blocks from the head on, and answers the position of the first. The head must be at least a lap below
    /// 2^64; a log of 2^32 transactions does not come near it.
    ///
    /// # Errors
    ///
    /// `NeedSpace`: fewer blocks are free, and nothing changes.
    pub fn take(&mut self, count: u64) -> Result<u64, JournalError>
        requires { self.old.head + self.old.ring.blocks ≤ u64.MAX }
        ensures ok { IfOk result (λ position. (count ≤ free self.old) × (position ≡ self.old.head) × (self.new ≡ record self.old { head = self.old.head + count })) }
        ensures err { IfErr result (λ e. (e ≡ NeedSpace) × (free self.old < count) × (self.new ≡ self.old)) }
        ensures sound { IsRing self.old × IsRing self.new }
    {
        if self.free() < count {
            return Err(JournalError::NeedSpace);
        }
        let position = self.head;
        self.head += count;
        Ok(position)
    }

    /// Releases `count` taken blocks from the tail on.
    pub fn release(&mut self, count: u64)
        requires { count ≤ taken self.old }
        ensures released { self.new ≡ record self.old { tail = self.old.tail + count } }
        ensures sound { IsRing self.old × IsRing self.new }
    {
        self.tail += count;
    }
}
