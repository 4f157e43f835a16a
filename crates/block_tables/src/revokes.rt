//! Which transaction is the last to revoke each block.
ghost use Rattle.std.specs.Prelude.{◌≡◌, ◌↔◌, IsTrue, IfErr, None, OnErr, OnOk};
ghost use Rattle.std.specs.FinMap as map;
ghost use Rattle.journal_model.specs.declared.refusal.JournalError.TheVariants.{Memory};
ghost use Rattle.block_tables.specs.Revokes.{Covers, noted};

use journal_model::{BlockNo, JournalError, Tid};
use std::alloc::{AllocError, Global};
use std::collections::HashMap;
use std::marker::Model;

/// An opening leaves out the copies revoked in their own or a later transaction. Contracts see a map from each revoked block to
/// the greatest transaction that revokes it.
/// Source: fs/jbd2/revoke.c by behaviour.
#[derive(Drop)]
pub struct RevokeTable {
    greatest: HashMap<BlockNo, Tid>,
}

impl Model for RevokeTable {
    ghost use Rattle.std.specs.FinMap as map;
    ghost use Rattle.std.specs.Coded.{coded_ℕ};
    ghost use Rattle.block_tables.specs.Revokes.{BlockTable};

    ghost Value = { BlockTable };

    ghost coded = { map.code coded_ℕ coded_ℕ };

    ghost view = { λ t. map.from_entries t.greatest.entries };
}

impl RevokeTable {
    /// A table that covers nothing. It takes no memory.
    pub fn new(alloc: Global) -> Self
        ensures { result ≡ map.empty }
    {
        RevokeTable {
            greatest: HashMap::new(alloc),
        }
    }

    /// Notes that a transaction revokes a block, in any order: the greatest transaction counts.
    ///
    /// # Errors
    ///
    /// `Memory`: nothing is noted. A block that was noted before takes none.
    pub fn note(&mut self, block: BlockNo, tid: Tid) -> Result<(), JournalError>
        ensures ok { OnOk result (self.new ≡ noted self.old block tid) }
        ensures refused { IfErr result (λ e. (e ≡ Memory) × (self.new ≡ self.old)) }
        ensures absent { OnErr result (map.get self.old block ≡ None) }
    {
        if self.covers(block, tid) {
            return Ok(());
        }
        match self.greatest.insert(block, tid) {
            Ok(_) => Ok(()),
            Err(e) => Err(AllocError::from(e).into()),
        }
    }

    /// Whether a copy of the block in this transaction is covered: a revoke in it or a later one was noted.
    pub fn covers(&self, block: BlockNo, tid: Tid) -> bool
        ensures { IsTrue result ↔ Covers self.now block tid }
    {
        match self.greatest.get(&block) {
            Some(greatest) => tid <= *greatest,
            None => false,
        }
    }
}
