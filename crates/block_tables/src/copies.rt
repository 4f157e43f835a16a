//! Which copy of each block is the newest of a chain.
ghost use Rattle.std.specs.Prelude.{◌≡◌, IfErr, None, OnErr, OnOk};
ghost use Rattle.std.specs.FinMap as map;
ghost use Rattle.journal_model.specs.declared.refusal.JournalError.TheVariants.{Memory};

use journal_model::{BlockNo, JournalError};
use std::alloc::{AllocError, Global};
use std::collections::HashMap;
use std::marker::Model;

/// For each copied block the number of copies before its newest one in the chain. Contracts see a map from blocks to
/// these places.
#[derive(Drop)]
pub struct CopyTable {
    newest: HashMap<BlockNo, u64>,
}

impl Model for CopyTable {
    ghost use Rattle.std.specs.FinMap as map;
    ghost use Rattle.std.specs.Coded.{coded_ℕ};
    ghost use Rattle.block_tables.specs.Revokes.{BlockTable};

    ghost Value = { BlockTable };

    ghost coded = { map.code coded_ℕ coded_ℕ };

    ghost view = { λ t. map.from_entries t.newest.entries };
}

impl CopyTable {
    /// A table without copies. It takes no memory.
    pub fn new(alloc: Global) -> Self
        ensures { result ≡ map.empty }
    {
        CopyTable {
            newest: HashMap::new(alloc),
        }
    }

    /// Notes the place of a copy, over an earlier one of its block; copies come in chain order.
    ///
    /// # Errors
    ///
    /// `Memory`: nothing is noted. A block that has a place takes none.
    pub fn note(&mut self, block: BlockNo, place: u64) -> Result<(), JournalError>
        ensures ok { OnOk result (self.new ≡ map.insert self.old block place) }
        ensures refused { IfErr result (λ e. (e ≡ Memory) × (self.new ≡ self.old)) }
        ensures absent { OnErr result (map.get self.old block ≡ None) }
    {
        match self.newest.insert(block, place) {
            Ok(_) => Ok(()),
            Err(e) => Err(AllocError::from(e).into()),
        }
    }

    /// The place noted last for a block.
    pub fn newest(&self, block: BlockNo) -> Option<u64>
        ensures { result ≡ map.get self.now block }
    {
        self.newest.get(&block).copied()
    }
}
