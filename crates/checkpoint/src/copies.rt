//! Which committed copies are unreleased, in order, and which copy of each block is live.
ghost use Rattle.std.specs.Prelude.{◌≡◌, ◌<◌, ◌≤◌, ◌++◌, ◌∷◌, ℕ, List, [], None, Some, true, false, IfOk, IfNone, IfSome, length, map, drop, slice_get, slice_index};
ghost use Rattle.checkpoint.specs.Copies.{AreCopies, bucket_of, is_live_of, newest_in, version_of, withdrawn};
ghost use Rattle.checkpoint.specs.Places.{place_of};
ghost use Rattle.checkpoint.specs.declared.copies.QueuedCopy.{QueuedCopy};

use crate::Version;
use journal_model::{BlockNo, Tid};
use std::alloc::{AllocError, Global};
use std::collections::VecDeque;
use std::marker::Model;

#[derive(Clone, Copy)]
pub(crate) struct QueuedCopy {
    pub(crate) tid: Tid,
    pub(crate) block: BlockNo,
    /// Its place among the transaction's entries.
    pub(crate) place: usize,
    /// No later transaction has an entry of its block.
    pub(crate) live: bool,
}

/// A copy, and the number of its bucket's link before it, if any.
#[derive(Clone, Copy)]
struct Link {
    copy: QueuedCopy,
    before: u64,
}

/// Committed copies in order, chained by bucket of block numbers, from each bucket's last copy back. Links are
/// numbered in order, modulo 2^64; the number of a dropped link leads nowhere.
#[derive(Drop)]
pub(crate) struct Copies {
    room: usize,
    /// The number of the first link.
    first: u64,
    /// The number of each bucket's last link, if any.
    lasts: Vec<u64>,
    links: VecDeque<Link>,
}

impl Model for Copies {
    ghost use Rattle.checkpoint.specs.Copies.{CopiesValue};

    ghost Value = { CopiesValue };

    ghost use Rattle.checkpoint.specs.Chains.{KeepsCopies, copies_of};

    ghost view = { copies_of };

    ghost invariant = { KeepsCopies };
}

fn bucket_of(block: BlockNo, buckets: usize) -> usize
    requires { 0 < buckets }
    ensures bucket { result ≡ bucket_of buckets block }
    ensures within { result < buckets }
{
    (block.0.wrapping_mul(0x9e37_79b9_7f4a_7c15) >> 32) as usize % buckets
}

impl QueuedCopy {
    fn is_live_of(&self, block: BlockNo) -> bool
        ensures { result ≡ is_live_of block self.now }
    {
        self.live && self.block == block
    }

    pub(crate) fn version(&self) -> Version
        ensures { result ≡ version_of self.now }
    {
        Version {
            tid: self.tid,
            place: self.place,
        }
    }
}

/// The place of the link with this number.
fn place_of(first: u64, number: u64) -> usize
    ensures { result ≡ place_of first number }
{
    number.wrapping_sub(first) as usize
}

impl Copies {
    /// No copies, with this room. It fails if memory runs out.
    pub(crate) fn new(alloc: Global, room: usize) -> Result<Self, AllocError>
        ensures empty { IfOk result (λ copies. copies ≡ record { room = room; copies = [] }) }
        ensures kept { IfOk result AreCopies }
    {
        let mut lasts = Vec::new(alloc);
        lasts.resize(room.max(1), 0)?;
        Ok(Copies {
            room,
            first: 0,
            lasts,
            links: VecDeque::with_capacity(alloc, room)?,
        })
    }

    pub(crate) fn len(&self) -> usize
        ensures { result ≡ length self.now.copies }
    {
        self.links.len()
    }

    pub(crate) fn at(&self, place: usize) -> QueuedCopy
        requires { place < length self.now.copies }
        ensures { slice_get self.now.copies place ≡ Some result }
    {
        self.links[place].copy
    }

    fn find(&self, block: BlockNo) -> Option<usize>
        ensures some { IfSome result (λ place. (copy : QueuedCopy) × (slice_get self.now.copies place ≡ Some copy) × (is_live_of block copy ≡ true)) }
        ensures none { IfNone result ((place : ℕ) (copy : QueuedCopy) → slice_get self.now.copies place ≡ Some copy → is_live_of block copy ≡ false) }
        ensures kept { AreCopies self.now }
    {
        let buckets = self.lasts.len();
        let bucket = bucket_of(block, buckets);
        let mut limit = self.links.len();
        let mut place = place_of(self.first, self.lasts[bucket]);
        while place < limit {
            let copy = self.at(place);
            if copy.is_live_of(block) {
                return Some(place);
            }
            if bucket_of(copy.block, buckets) != bucket {
                return None;
            }
            limit = place;
            place = place_of(self.first, self.links[place].before);
        }
        None
    }

    pub(crate) fn newest(&self, block: BlockNo) -> Option<Version>
        ensures { result ≡ newest_in self.now.copies block }
    {
        match self.find(block) {
            Some(place) => Some(self.at(place).version()),
            None => None,
        }
    }

    /// Makes the block's live copy, if any, not live.
    pub(crate) fn withdraw(&mut self, block: BlockNo)
        ensures withdrawn { self.new ≡ record self.old { copies = map (withdrawn block) self.old.copies } }
        ensures kept { AreCopies self.new }
    {
        match self.find(block) {
            Some(place) => {
                let mut link = self.links[place];
                link.copy.live = false;
                self.links[place] = link;
            }
            None => {}
        }
    }

    pub(crate) fn push(&mut self, tid: Tid, block: BlockNo, place: usize)
        requires room { length self.old.copies < self.old.room }
        requires single { newest_in self.old.copies block ≡ None }
        ensures pushed { self.new ≡ record self.old { copies = self.old.copies ++ record { tid = tid; block = block; place = place; live = true } ∷ [] } }
        ensures kept { AreCopies self.new }
    {
        let bucket = bucket_of(block, self.lasts.len());
        let before = self.lasts[bucket];
        let copy = QueuedCopy {
            tid,
            block,
            place,
            live: true,
        };
        self.lasts[bucket] = self.first.wrapping_add(self.links.len() as u64);
        self.links.push_back_reserved(Link { copy, before });
    }

    pub(crate) fn pop(&mut self)
        ensures popped { self.new ≡ record self.old { copies = drop 1 self.old.copies } }
        ensures kept { AreCopies self.new }
    {
        if let Some(_) = self.links.pop_front() {
            self.first = self.first.wrapping_add(1);
        }
    }
}
