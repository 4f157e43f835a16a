//! Which entries of each block the running and the committing transaction have.
ghost use Rattle.std.specs.Prelude.{◌≡◌, [], nat_eq, IsOk, IsSome, OnOk, OnErr};
ghost use Rattle.std.specs.Map.{lookup};
ghost use Rattle.std.specs.Option.{option_copied};
ghost use Rattle.indexmap.specs.IndexMap.{insert_entry};
ghost use Rattle.frozen_copy.specs.Versions.{newer};

use indexmap::IndexMap;
use journal_model::{BlockNo, Entry};
use std::alloc::{AllocError, Global};
use std::marker::Model;

/// The entries of two transactions by block: the running one and the one being committed. Contracts see two finite maps, as lists
/// of blocks with their entries, in the order of first writes.
///
/// A seal swaps the maps, and a finish empties one; both keep their memory. So a transaction takes memory only if it touches more
/// blocks than earlier ones did.
#[derive(Drop)]
pub struct VersionCache {
    running: IndexMap<BlockNo, Entry>,
    committing: IndexMap<BlockNo, Entry>,
}

impl Model for VersionCache {
    ghost use Rattle.frozen_copy.specs.Versions.{Versions};

    ghost Value = { Versions };

    ghost view = { λ c. record { running = c.running.entries; committing = c.committing.entries } };
}

impl VersionCache {
    /// No entries, without memory.
    pub fn new(alloc: Global) -> Self
        ensures { result ≡ record { running = []; committing = [] } }
    {
        VersionCache {
            running: IndexMap::new(alloc),
            committing: IndexMap::new(alloc),
        }
    }

    /// Notes what the running transaction leaves of a block: in place of its earlier entry, else after its other blocks. The
    /// entries of the one being committed stay.
    ///
    /// # Errors
    ///
    /// `AllocError` if memory ran out: nothing changes. A block that the running transaction has takes no memory.
    pub fn write(&mut self, block: BlockNo, entry: Entry) -> Result<(), AllocError>
        ensures running { OnOk result (self.new.running ≡ insert_entry nat_eq self.old.running block entry) }
        ensures committing { self.new.committing ≡ self.old.committing }
        ensures err { OnErr result (self.new ≡ self.old) }
        ensures again { IsSome (lookup (nat_eq block) self.old.running) → IsOk result }
    {
        self.running.insert(block, entry)?;
        Ok(())
    }

    /// Makes the running transaction the one being committed; the next one has no entries. It copies nothing and takes no memory.
    /// The transaction before must be finished.
    pub fn seal(&mut self)
        requires { self.old.committing ≡ [] }
        ensures { self.new ≡ record { running = []; committing = self.old.running } }
    {
        std::mem::swap(&mut self.running, &mut self.committing);
    }

    /// Finishes the transaction being committed, and drops its entries.
    pub fn finish(&mut self)
        ensures { self.new ≡ record { running = self.old.running; committing = [] } }
    {
        self.committing.clear();
    }

    /// The entries of the running transaction, in the order of first writes.
    pub fn running(&self) -> &IndexMap<BlockNo, Entry>
        ensures { result.now.entries ≡ self.now.running }
    {
        &self.running
    }

    /// The entry of a block by the transaction being committed.
    pub fn committing(&self, block: BlockNo) -> Option<&Entry>
        ensures { option_copied result ≡ lookup (nat_eq block) self.now.committing }
    {
        self.committing.get(&block)
    }

    /// The newer entry of a block: that of the running transaction, else that of the one being committed.
    pub fn get(&self, block: BlockNo) -> Option<&Entry>
        ensures { option_copied result ≡ newer self.now block }
    {
        match self.running.get(&block) {
            Some(entry) => Some(entry),
            None => self.committing.get(&block),
        }
    }
}
