//! How a journal records its transactions, sealed and running.
ghost use Rattle.std.specs.Prelude.{◌≡◌, Bool, true, [], ◌∷◌, ◌++◌, IfErr, OnOk};
ghost use Rattle.journal_model.specs.declared.refusal.JournalError.TheVariants.{Memory};
ghost use Rattle.journal_model.specs.Transaction.{History as Transactions};

use crate::known::KnownTransaction;
use journal_model::{History, JournalError, Sealed};
use std::alloc::Global;

/// A record of a journal's transactions since the opening: as data, or for contracts alone.
pub trait Record: Drop {
    /// Whether handles and steps are data, of sealed and running transactions.
    const KEEPS: bool;

    ghost KEEPS: { Bool };

    /// The sealed transactions, in order.
    ghost transactions: { Self → Transactions };

    /// One more can be added without memory.
    ghost has_room: { Self → Type 0 };

    /// An empty record.
    fn new(alloc: Global) -> Self
        ensures { transactions result ≡ [] };

    /// Makes room for one more transaction.
    ///
    /// # Errors
    ///
    /// `Memory`: nothing changes.
    fn make_room(&mut self) -> Result<(), JournalError>
        ensures room { OnOk result (has_room self.new) }
        ensures same { transactions self.new ≡ transactions self.old }
        ensures kept { has_room self.old → has_room self.new }
        ensures err { IfErr result (λ e. e ≡ Memory) };

    /// Adds a transaction: `known` is its value for contracts, `kept` the same as data, if the record keeps data.
    fn register(&mut self, known: &KnownTransaction, kept: Sealed)
        requires room { has_room self.old }
        requires data { KEEPS ≡ true → kept ≡ known.now }
        ensures { transactions self.new ≡ transactions self.old ++ known.now ∷ [] };
}

/// Keeps transactions as data, with each step's bytes: memory grows with each.
impl Record for Vec<Sealed> {
    ghost use Rattle.std.specs.Prelude.{◌<◌, length, vec_capacity};

    const KEEPS: bool = true;

    ghost KEEPS = { true };

    ghost transactions = { λ v. v.items };

    ghost has_room = { λ v. length v.items < vec_capacity v };

    fn new(alloc: Global) -> Self {
        Vec::new(alloc)
    }

    fn make_room(&mut self) -> Result<(), JournalError> {
        self.try_reserve(1)?;
        Ok(())
    }

    fn register(&mut self, _known: &KnownTransaction, kept: Sealed) {
        self.push_reserved(kept);
    }
}

/// A record known to contracts alone, which takes no memory.
#[derive(Drop)]
pub struct Unrecorded {
    transactions: History<KnownTransaction>,
}

/// A sealed transaction's memory is freed; the running one keeps one entry for each block.
impl Record for Unrecorded {
    ghost use Rattle.std.specs.Prelude.{⊤, false};

    const KEEPS: bool = false;

    ghost KEEPS = { false };

    ghost transactions = { λ u. u.transactions.items };

    ghost has_room = { λ _. ⊤ };

    fn new(_alloc: Global) -> Self {
        Unrecorded {
            transactions: History::new(),
        }
    }

    fn make_room(&mut self) -> Result<(), JournalError> {
        Ok(())
    }

    fn register(&mut self, known: &KnownTransaction, kept: Sealed) {
        self.transactions.push(known);
        drop(kept);
    }
}
