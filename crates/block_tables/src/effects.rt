//! Which effect on each block is the last.
ghost use Rattle.std.specs.Prelude.{◌≡◌, ◌↔◌, ◌≤◌, ◌<◌, ◌+◌, ◌==◌, ℕ, if◌then◌else◌, IsTrue, None, Some, length, IfErr, OnOk};
ghost use Rattle.journal_model.specs.declared.refusal.JournalError.TheVariants.{Memory};
ghost use Rattle.block_tables.specs.Effects.{IsLeft, effect_of, effect_on, last_among, once_committed};

use crate::block_set::BlockSet;
use indexmap::IndexSet;
use journal_model::{Batch, BlockNo, Entry, JournalError, Tid};
use std::alloc::Global;
use std::marker::Model;

/// The last effect on each block that a transaction has. Revokes of all but the last transaction are forgotten, because their
/// blocks are as good as blocks without an entry once they are committed. So memory is in proportion to the blocks of the last
/// transaction, and a bit for each block that was ever copied. Contracts see how many more entries can be noted without memory, the
/// number of the last transaction, and these effects.
#[derive(Drop)]
pub struct LastEffects {
    copied: BlockSet,
    /// The blocks that the last transaction revokes; none of them is in `copied`.
    revoked: IndexSet<BlockNo>,
    last: Tid,
}

impl Model for LastEffects {
    ghost use Rattle.std.specs.Prelude.{◌≡◌, ℕ, true, false, min, nat_eq};
    ghost use Rattle.std.specs.List.{list_any};
    ghost use Rattle.indexmap.specs.IndexSet.{spare};
    ghost use Rattle.block_tables.specs.BlockSet.{has_block};
    ghost use Rattle.block_tables.specs.Effects.{EffectsValue};

    ghost Value = { EffectsValue };

    ghost view = { λ t. record {
      room = min t.copied.room (spare t.revoked);
      last = t.last;
      copied = t.copied.pages;
      revoked = t.revoked.keys;
    } };

    ghost invariant = { λ t. (b : ℕ) → list_any (nat_eq b) t.revoked.keys ≡ true → has_block t.copied.pages b ≡ false };
}

impl LastEffects {
    /// The effects of no transactions. It takes no memory.
    pub fn new(alloc: Global) -> Self
        ensures { (b : ℕ) → effect_on result b ≡ None }
    {
        LastEffects {
            copied: BlockSet::new(alloc),
            revoked: IndexSet::new(alloc),
            last: Tid(0),
        }
    }

    /// Reserves memory for so many entries of the next transaction.
    ///
    /// # Errors
    ///
    /// `Memory`. No effect changes, whatever the answer.
    pub fn reserve(&mut self, entries: usize) -> Result<(), JournalError>
        ensures ok { OnOk result (entries ≤ self.new.room) }
        ensures err { IfErr result (λ e. e ≡ Memory) }
        ensures same { (b : ℕ) → effect_on self.new b ≡ effect_on self.old b }
    {
        self.copied.reserve(entries)?;
        self.revoked.reserve(entries)?;
        Ok(())
    }

    /// Notes the entries of the next transaction handed over, in reserved memory and in time proportional to them. All earlier ones
    /// must be committed.
    pub fn note(&mut self, batch: &Batch)
        requires { length batch.now.entries ≤ self.old.room }
        ensures { (b : ℕ) → effect_on self.new b ≡ last_among batch.now.tid batch.now.entries b (once_committed (effect_on self.old b)) }
    {
        self.begin(batch.tid);
        for (block, entry) in batch.entries.as_slice() {
            self.note_entry(*block, entry);
        }
    }

    /// Forgets the revokes of the last transaction, and begins the one with this number.
    fn begin(&mut self, tid: Tid)
        ensures effects { (b : ℕ) → effect_on self.new b ≡ once_committed (effect_on self.old b) }
        ensures last { self.new.last ≡ tid }
        ensures room { self.old.room ≤ self.new.room }
    {
        self.revoked.clear();
        self.last = tid;
    }

    /// Notes one entry of the last transaction.
    fn note_entry(&mut self, block: BlockNo, entry: &Entry)
        requires { 0 < self.old.room }
        ensures effects { (b : ℕ) → effect_on self.new b ≡ (if block == b then Some (effect_of self.old.last entry.now) else effect_on self.old b) }
        ensures last { self.new.last ≡ self.old.last }
        ensures room { self.old.room ≤ self.new.room + 1 }
    {
        match entry {
            Entry::Copy(_) => {
                let _was_revoked = self.revoked.swap_remove(&block);
                self.copied.put(block, true);
            }
            Entry::Revoke => {
                self.copied.put(block, false);
                let _is_new = self.revoked.insert(block);
            }
        }
    }

    /// Whether a block is left to home, if exactly the noted transactions below `next` are committed: it has no entry, or its
    /// last one is a committed revoke. Two look-ups.
    pub fn is_left_to_home(&self, block: BlockNo, next: Tid) -> bool
        ensures { IsTrue result ↔ IsLeft (effect_on self.now block) next }
    {
        if self.revoked.contains(&block) {
            self.last < next
        } else {
            !self.copied.has(block)
        }
    }
}
