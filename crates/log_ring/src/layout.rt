//! How many log blocks a transaction takes, and what each of them is.
ghost use Rattle.std.specs.Prelude.{◌≡◌, ℕ, ◌+◌, ◌<◌, ◌≤◌, ◌^◌, List, length, Some, slice_get};
ghost use Rattle.journal_model.specs.declared.entry.Entry.{Entry};
ghost use Rattle.log_model.specs.Chain.{ring_place};
ghost use Rattle.journal_model.specs.Layout.{IsLayout, numbers_of, tags_of};
ghost use Rattle.journal_model.specs.Transaction.{copied, revoked};
ghost use Rattle.log_model.specs.OwnText.{ceil_div, own_text};
ghost use Rattle.log_model.specs.Room.{IsCapacity, need};
ghost use Rattle.log_model.specs.Superblock.{least_ring};
ghost use Rattle.log_model.specs.Text.{text_blocks};
ghost use Rattle.log_ring.specs.Parts.{FitsPart, copy_parts, part_block, parts, revoke_parts};

use crate::ring::Ring;
use journal_model::LogLayout;
use journal_model::layout::{HEADER_BYTES, REVOKE_HEADER_BYTES, UUID_BYTES};
use std::marker::Model;

/// A descriptor's header, its first tag's UUID, and room for a UUID after the last tag.
const DESCRIPTOR_BYTES: usize = HEADER_BYTES + 2 * UUID_BYTES;

/// What a log block of a transaction is. Copies and revokes are counted from 0, in the order of the entries.
#[derive(Clone, Copy)]
pub enum Part {
    /// A revoke block with so many numbers, from this revoke on.
    Revokes { first: u64, numbers: u64 },
    /// A descriptor with so many tags, from this copy on; their copies follow.
    Descriptor { first: u64, tags: u64 },
    Copy(u64),
    Commit,
}

/// The log blocks of one transaction: revoke blocks, descriptors with their copies, the commit block.
/// Source: journal.rst, "Layout"; fs/jbd2/commit.c by behaviour: revoke blocks come first.
#[derive(Drop)]
pub struct Layout {
    layout: LogLayout,
    copies: u64,
    revokes: u64,
}

impl Model for Layout {
    ghost use Rattle.std.specs.Prelude.{◌≤◌, ◌^◌};
    ghost use Rattle.journal_model.specs.Layout.{IsLayout};
    ghost use Rattle.log_ring.specs.Parts.{LayoutValue};

    ghost Value = { LayoutValue };

    ghost view = { λ l. record { layout = l.layout; copies = l.copies; revokes = l.revokes } };

    ghost invariant = { λ l. IsLayout l.layout × (l.copies ≤ 2 ^ 32) × (l.revokes ≤ 2 ^ 32) };
}

fn numbers_of(layout: LogLayout) -> u64
    requires { IsLayout layout }
    ensures numbers { result ≡ numbers_of layout }
    ensures some { 0 < result }
    ensures few { result ≤ 1020 }
{
    ((layout.block_size - REVOKE_HEADER_BYTES) / layout.number_bytes) as u64
}

impl Layout {
    /// The layout of a transaction of so many copies and revokes.
    pub fn new(layout: LogLayout, copies: u64, revokes: u64) -> Self
        requires taken { IsLayout layout }
        requires copies { copies ≤ 2 ^ 32 }
        requires revokes { revokes ≤ 2 ^ 32 }
        ensures { result ≡ record { layout = layout; copies = copies; revokes = revokes } }
    {
        Layout {
            layout,
            copies,
            revokes,
        }
    }

    /// The most tags that the writer puts into a descriptor: by block size 122, 250 or 506; with 64-bit numbers 81, 167 or 337.
    /// Source: journal.rst, "Descriptor Block"; fs/jbd2/commit.c by behaviour (room for one more UUID is left).
    pub fn tags_of(layout: LogLayout) -> u64
        requires { IsLayout layout }
        ensures tags { result ≡ tags_of layout }
        ensures some { 0 < result }
        ensures few { result ≤ 506 }
    {
        ((layout.block_size - DESCRIPTOR_BYTES) / layout.tag_bytes()) as u64
    }

    /// The most copies of one transaction: with its descriptors and commit block it takes at most a quarter of the ring.
    /// Source: fs/jbd2 by behaviour (`j_max_transaction_buffers` is a quarter of the log; `j_transaction_overhead_buffers` of it are
    /// for descriptors and the commit block).
    pub fn capacity(layout: LogLayout, ring_blocks: u64) -> u64
        requires taken { IsLayout layout }
        requires least { least_ring ≤ ring_blocks }
        ensures { IsCapacity layout ring_blocks result }
    {
        let tags = Self::tags_of(layout);
        let left = ring_blocks / 4 - 1;
        left / (tags + 1) * tags + (left % (tags + 1)).saturating_sub(1)
    }

    /// The number of its log blocks.
    pub fn blocks(&self) -> u64
        ensures { result ≡ need self.now.layout self.now.copies self.now.revokes }
    {
        self.copies + self.descriptors() + self.revoke_blocks() + 1
    }

    fn descriptors(&self) -> u64
        ensures { result ≡ ceil_div self.now.copies (tags_of self.now.layout) }
    {
        self.copies.div_ceil(Self::tags_of(self.layout))
    }

    fn revoke_blocks(&self) -> u64
        ensures { result ≡ ceil_div self.now.revokes (numbers_of self.now.layout) }
    {
        self.revokes.div_ceil(numbers_of(self.layout))
    }

    /// What block `k`, counted from 0, is in the own text of any transaction with so many copies and revokes.
    pub fn part(&self, k: u64) -> Part
        requires { k < need self.now.layout self.now.copies self.now.revokes }
        ensures part { slice_get (parts self.now.layout self.now.copies self.now.revokes) k ≡ Some result }
        ensures fits { FitsPart self.now.layout self.now.copies self.now.revokes result }
        ensures text { (uuid : List ℕ) (sequence : ℕ) (entries : List (ℕ × Entry)) →
            length (copied entries) ≡ self.now.copies → length (revoked entries) ≡ self.now.revokes →
            slice_get (text_blocks (own_text self.now.layout uuid sequence entries)) k
            ≡ Some (part_block self.now.layout uuid sequence entries result) }
    {
        let part = self.part_at(k);
        part
    }

    fn part_at(&self, k: u64) -> Part
        requires { k < need self.now.layout self.now.copies self.now.revokes }
        ensures part { slice_get (parts self.now.layout self.now.copies self.now.revokes) k ≡ Some result }
        ensures fits { FitsPart self.now.layout self.now.copies self.now.revokes result }
    {
        let revoke_blocks = self.revoke_blocks();
        if k < revoke_blocks {
            return self.revoke_part(k);
        }
        let behind = k - revoke_blocks;
        if behind < self.copies + self.descriptors() {
            self.copy_part(behind)
        } else {
            Part::Commit
        }
    }

    fn revoke_part(&self, k: u64) -> Part
        requires { k < ceil_div self.now.revokes (numbers_of self.now.layout) }
        ensures part { slice_get (revoke_parts self.now.layout self.now.revokes) k ≡ Some result }
        ensures fits { FitsPart self.now.layout self.now.copies self.now.revokes result }
    {
        let most = numbers_of(self.layout);
        let first = k * most;
        Part::Revokes {
            first,
            numbers: most.min(self.revokes - first),
        }
    }

    /// Block `k` of the descriptors and their copies.
    fn copy_part(&self, k: u64) -> Part
        requires { k < self.now.copies + ceil_div self.now.copies (tags_of self.now.layout) }
        ensures part { slice_get (copy_parts self.now.layout self.now.copies) k ≡ Some result }
        ensures fits { FitsPart self.now.layout self.now.copies self.now.revokes result }
    {
        let most = Self::tags_of(self.layout);
        let first = k / (most + 1) * most;
        let place = k % (most + 1);
        if place > 0 {
            Part::Copy(first + place - 1)
        } else {
            Part::Descriptor {
                first,
                tags: most.min(self.copies - first),
            }
        }
    }

    /// The log block of block `k`, if the transaction begins at position `start`.
    pub fn place(&self, ring: &Ring, start: u64, k: u64) -> u64
        requires there { k < need self.now.layout self.now.copies self.now.revokes }
        requires few { start + k ≤ u64.MAX }
        ensures place { result ≡ ring_place ring.now.ring (start + k) }
        ensures low { ring.now.ring.first ≤ result }
        ensures high { result < ring.now.ring.first + ring.now.ring.blocks }
        ensures small { result < 2 ^ 32 }
    {
        ring.place(start + k)
    }
}
