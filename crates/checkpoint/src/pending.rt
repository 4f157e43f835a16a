//! Which copies are pending: what a commit adds, what goes home next, what a release drops.
ghost use Rattle.std.specs.Prelude.{◌≡◌, ℕ, ◌+◌, ◌<◌, ◌≤◌, List, [], None, Some, IfNone, IfOk, IfSome, length, map, drop, nat_eq, slice_get};
ghost use Rattle.std.specs.List.{AllByRecursion, IsDistinct};
ghost use Rattle.journal_model.specs.Transaction.{copied};
ghost use Rattle.checkpoint.specs.Pending.{ArePending, IsCommitted, IsOldest, IsReleased, newest_of};

use crate::copies::Copies;
use crate::steps::{drop_released, list_copies, push_listed, skip_dead, withdraw_touched};
use crate::{HomeCopy, Version};
use journal_model::{BlockNo, Entry, Tid};
use std::alloc::{AllocError, Global};
use std::marker::Model;

/// The pending copies, and which of them are not yet written home. Only `new` takes memory.
///
/// `next` and `oldest` take constant time; so does `lookup`, if block numbers spread evenly over `room` buckets. A
/// commit of k entries takes about k log k, a release time proportional to the dropped copies. Besides, `commit`,
/// `wrote` and `release` pass over each replaced copy twice in its life.
#[derive(Drop)]
pub struct Pending {
    /// Committed, unreleased copies, by transaction and then block.
    copies: Copies,
    /// Blocks of the copies that a commit adds, with their places among its entries.
    added: Vec<(BlockNo, usize)>,
    /// The place of the first live copy, or the end.
    front: usize,
    /// The place of the first live copy not written home, or the end.
    unwritten: usize,
}

impl Model for Pending {
    ghost use Rattle.checkpoint.specs.Pending.{PendingValue, pending_code};

    ghost Value = { PendingValue };

    ghost coded = { pending_code };

    ghost use Rattle.checkpoint.specs.PendingView.{KeepsPending, pending_of};

    ghost view = { pending_of };

    ghost invariant = { KeepsPending };
}

impl Pending {
    /// No pending copies, with room for so many committed, unreleased ones.
    ///
    /// # Errors
    ///
    /// `AllocError`: memory ran out.
    pub fn new(alloc: Global, room: usize) -> Result<Self, AllocError>
        ensures newest { IfOk result (λ pending. (b : ℕ) → newest_of pending b ≡ None) }
        ensures queue { IfOk result (λ pending. pending.queue ≡ []) }
        ensures unwritten { IfOk result (λ pending. pending.unwritten ≡ []) }
        ensures room { IfOk result (λ pending. pending.room ≡ room) }
        ensures kept { IfOk result ArePending }
    {
        Ok(Pending {
            copies: Copies::new(alloc, room)?,
            added: Vec::with_capacity(alloc, room)?,
            front: 0,
            unwritten: 0,
        })
    }

    /// Adds the copies of a committed transaction. Each entry replaces the pending copy of its block; a revoke leaves
    /// none.
    /// Source: fs/jbd2/commit.c by behaviour (a buffer of a newer transaction leaves the older one's checkpoint list).
    pub fn commit(&mut self, entries: &[(BlockNo, Entry)], tid: Tid)
        requires distinct { IsDistinct nat_eq (map (λ e. e.0) entries.now) }
        requires later { AllByRecursion (λ k. k.0 < tid) self.old.queue }
        requires room { length self.old.queue + length (copied entries.now) ≤ self.old.room }
        ensures committed { IsCommitted self.old entries.now tid self.new }
        ensures kept { ArePending self.new }
    {
        withdraw_touched(&mut self.copies, entries);
        list_copies(&mut self.added, entries);
        self.added.sort_unstable();
        push_listed(&mut self.copies, &self.added, tid);
        self.front = skip_dead(&self.copies, self.front);
        self.unwritten = skip_dead(&self.copies, self.unwritten);
    }

    /// The first copy to write home, by transaction and then block, of a transaction up to `bound`.
    pub fn next(&self, bound: Tid) -> Option<HomeCopy>
        ensures bound { IfSome result (λ copy. copy.version.tid ≤ bound) }
        ensures first { IfSome result (λ copy. slice_get self.now.unwritten 0 ≡ Some (copy.version.tid, copy.block)) }
        ensures newest { IfSome result (λ copy. newest_of self.now copy.block ≡ Some copy.version) }
        ensures none { IfNone result ((t b : ℕ) → slice_get self.now.unwritten 0 ≡ Some (t, b) → bound < t) }
        ensures kept { ArePending self.now }
    {
        if self.unwritten >= self.copies.len() {
            return None;
        }
        let copy = self.copies.at(self.unwritten);
        if copy.tid > bound {
            return None;
        }
        Some(HomeCopy {
            block: copy.block,
            version: copy.version(),
        })
    }

    /// Records that the first copy to write home is written.
    pub fn wrote(&mut self)
        requires { 0 < length self.old.unwritten }
        ensures written { self.new ≡ record self.old { unwritten = drop 1 self.old.unwritten } }
        ensures kept { ArePending self.new }
    {
        self.unwritten = skip_dead(&self.copies, self.unwritten + 1);
    }

    /// Releases the copies of the transactions up to `bound`, which are durable at home or were replaced.
    pub fn release(&mut self, bound: Tid)
        ensures released { IsReleased self.old bound self.new }
        ensures kept { ArePending self.new }
    {
        let dropped = drop_released(&mut self.copies, bound);
        self.front = skip_dead(&self.copies, self.front.saturating_sub(dropped));
        self.unwritten = skip_dead(&self.copies, self.unwritten.saturating_sub(dropped));
    }

    /// The lowest transaction with a pending copy, if any.
    pub fn oldest(&self) -> Option<Tid>
        ensures some { IfSome result (IsOldest self.now) }
        ensures none { IfNone result ((b : ℕ) → newest_of self.now b ≡ None) }
        ensures kept { ArePending self.now }
    {
        if self.front >= self.copies.len() {
            return None;
        }
        Some(self.copies.at(self.front).tid)
    }

    /// Where the pending copy of a block stands.
    pub fn lookup(&self, block: BlockNo) -> Option<Version>
        ensures newest { result ≡ newest_of self.now block }
        ensures kept { ArePending self.now }
    {
        self.copies.newest(block)
    }
}
