//! Where the copies of a transaction stand among its entries, and which blocks it revokes.
ghost use Rattle.std.specs.Prelude.{◌≡◌, ◌≤◌, [], OnOk, vec_capacity};
ghost use Rattle.log_ledger.specs.Text.{IsPlanOf};

use journal_model::{BlockNo, Entry};
use std::alloc::{AllocError, Global};

/// Copies and revokes in the order of the entries, so that a log block is built without a search.
#[derive(Drop)]
pub struct LogPlan {
    /// The places of the copies among the entries.
    pub copies: Vec<usize>,
    /// The revoked blocks.
    pub revokes: Vec<BlockNo>,
}

impl LogPlan {
    /// The plan of no entries.
    pub fn new(alloc: Global) -> Self
        ensures { IsPlanOf [] result }
    {
        LogPlan {
            copies: Vec::new(alloc),
            revokes: Vec::new(alloc),
        }
    }

    /// Reserves memory for a plan of so many entries, so that its `make` requests none. The plan stays the same.
    pub fn reserve(&mut self, entries: usize) -> Result<(), AllocError>
        ensures copies { self.new.copies.items ≡ self.old.copies.items }
        ensures revokes { self.new.revokes.items ≡ self.old.revokes.items }
        ensures room { OnOk result ((entries ≤ vec_capacity self.new.copies) × (entries ≤ vec_capacity self.new.revokes)) }
    {
        let further = entries.saturating_sub(self.copies.len());
        self.copies.try_reserve(further)?;
        let further = entries.saturating_sub(self.revokes.len());
        self.revokes.try_reserve(further)
    }

    /// Makes the plan of `entries`, in memory proportional to them: at most two requests, none after a plan of as many. If memory
    /// runs out, it is the plan of no entries.
    pub fn make(&mut self, entries: &[(BlockNo, Entry)]) -> Result<(), AllocError>
        ensures { OnOk result (IsPlanOf entries.now self.new) }
    {
        self.copies.clear();
        self.revokes.clear();
        self.copies.try_reserve(entries.len())?;
        self.revokes.try_reserve(entries.len())?;
        for (place, (block, entry)) in entries.iter().enumerate() {
            match entry {
                Entry::Copy(_) => self.copies.push(place)?,
                Entry::Revoke => self.revokes.push(*block)?,
            }
        }
        Ok(())
    }
}
