//! A set of block numbers: a bit for each, in pages that are made once they have a member.
ghost use Rattle.std.specs.Prelude.{◌≡◌, ◌≤◌, ◌<◌, ◌+◌, ◌==◌, ℕ, if◌then◌else◌, false, IfErr, OnOk};
ghost use Rattle.indexmap.specs.IndexMap.{spare};
ghost use Rattle.journal_model.specs.declared.refusal.JournalError.TheVariants.{Memory};
ghost use Rattle.block_tables.specs.BlockSet.{has_bit, has_block};

use indexmap::IndexMap;
use journal_model::{BlockNo, JournalError};
use std::alloc::Global;
use std::marker::Model;

/// The members among 512 neighbouring blocks.
#[derive(Drop)]
pub(crate) struct Page {
    words: [u64; 8],
}

impl Model for Page {
    ghost use Rattle.std.specs.Prelude.{◌≡◌, ℕ, List, length};

    ghost Value = { List ℕ };

    ghost view = { λ p. p.words };

    ghost invariant = { λ p. length p.words ≡ 8 };
}

impl Page {
    fn new() -> Self
        ensures { (i : ℕ) → i < 512 → has_bit result i ≡ false }
    {
        Page { words: [0; 8] }
    }

    fn has(&self, i: usize) -> bool
        requires { i < 512 }
        ensures { result ≡ has_bit self.now i }
    {
        self.words[i / 64] >> (i % 64) & 1 == 1
    }

    fn put(&mut self, i: usize, is_member: bool)
        requires { i < 512 }
        ensures { (j : ℕ) → j < 512 → has_bit self.new j ≡ (if i == j then is_member else has_bit self.old j) }
    {
        let bit = 1u64 << (i % 64);
        if is_member {
            self.words[i / 64] |= bit;
        } else {
            self.words[i / 64] &= !bit;
        }
    }
}

/// A set of blocks. Contracts see how many further pages can be made without memory, and whether each block is a member.
#[derive(Drop)]
pub(crate) struct BlockSet {
    pages: IndexMap<u64, Page>,
}

impl Model for BlockSet {
    ghost use Rattle.indexmap.specs.IndexMap.{spare};
    ghost use Rattle.block_tables.specs.BlockSet.{BlockSetValue};

    ghost Value = { BlockSetValue };

    ghost view = { λ s. record { room = spare s.pages; pages = s.pages.entries } };
}

impl BlockSet {
    /// The empty set. It takes no memory.
    pub(crate) fn new(alloc: Global) -> Self
        ensures { (b : ℕ) → has_block result.pages b ≡ false }
    {
        BlockSet {
            pages: IndexMap::new(alloc),
        }
    }

    /// Reserves memory for so many further pages.
    ///
    /// # Errors
    ///
    /// `Memory`. No member changes, whatever the answer.
    pub(crate) fn reserve(&mut self, pages: usize) -> Result<(), JournalError>
        ensures ok { OnOk result (pages ≤ self.new.room) }
        ensures err { IfErr result (λ e. e ≡ Memory) }
        ensures same { (b : ℕ) → has_block self.new.pages b ≡ has_block self.old.pages b }
        ensures room { self.old.room ≤ self.new.room }
    {
        self.pages.reserve(pages)?;
        Ok(())
    }

    /// Whether the block is a member. One look-up.
    pub(crate) fn has(&self, block: BlockNo) -> bool
        ensures { result ≡ has_block self.now.pages block }
    {
        match self.pages.get(&(block.0 / 512)) {
            None => false,
            Some(page) => page.has((block.0 % 512) as usize),
        }
    }

    /// Makes the block a member, or no member, in reserved memory. One look-up.
    pub(crate) fn put(&mut self, block: BlockNo, is_member: bool)
        requires { 0 < self.old.room }
        ensures has { (b : ℕ) → has_block self.new.pages b ≡ (if block == b then is_member else has_block self.old.pages b) }
        ensures room { self.old.room ≤ self.new.room + 1 }
    {
        let (number, i) = (block.0 / 512, (block.0 % 512) as usize);
        match self.pages.get_mut(&number) {
            Some(page) => page.put(i, is_member),
            None => {
                if is_member {
                    let mut page = Page::new();
                    page.put(i, true);
                    let _none = self.pages.insert(number, page);
                }
            }
        }
    }
}
