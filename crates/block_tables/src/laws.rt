//! What the tables say of noted revokes, copies and entries. Each function states one law; no body runs.
ghost use Rattle.std.specs.Prelude.{◌≡◌, ◌⊎◌, ◌↔◌, ◌+◌, ◌≤◌, Contains, List, None, Some, ℕ};
ghost use Rattle.std.specs.FinMap.{empty};
ghost use Rattle.journal_model.specs.declared.entry.Batch.{Batch};
ghost use Rattle.log_model.specs.Replay.{HasNoLive, IsCovered, IsNewest};
ghost use Rattle.log_model.specs.declared.log.Text.{Text};
ghost use Rattle.block_tables.specs.Copies.{GoesHome};
ghost use Rattle.block_tables.specs.Effects.{HasLast, HasNoEntry, LastEffect, last_effect};
ghost use Rattle.block_tables.specs.Revokes.{BlockTable, Covers, noted, noted_all, revokes_of};

/// One more revoke covers its block up to its transaction, and nothing else.
pub fn a_revoke_covers_up_to_its_transaction()
    ensures { (table : BlockTable) (b u c t : ℕ) → Covers (noted table b u) c t ↔ (Covers table c t ⊎ ((b ≡ c) × (t ≤ u))) }
{}

/// A copy is covered exactly if a revoke of its block in its transaction or a later one was noted, in any order.
pub fn covered_is_what_was_noted()
    ensures { (notes : List (ℕ × ℕ)) (b t : ℕ) →
        Covers (noted_all empty notes) b t ↔ ((u : ℕ) × Contains notes (b, u) × (t ≤ u)) }
{}

/// The table of a chain's revokes covers what the chain covers by definition.
pub fn covered_is_the_definition()
    ensures { (first : ℕ) (texts : List Text) (i b : ℕ) → Covers (revokes_of first texts) b (first + i) ↔ IsCovered texts i b }
{}

/// The copy that both tables of a chain send home is the newest live copy by definition. A block of which they send none has no live copy.
pub fn what_goes_home_is_the_newest_live_copy()
    ensures newest { (first : ℕ) (texts : List Text) (b i k : ℕ) (bytes : List ℕ) →
        GoesHome first texts b i k bytes → IsNewest texts b bytes }
    ensures none { (first : ℕ) (texts : List Text) (b : ℕ) →
        ((i k : ℕ) (bytes : List ℕ) → GoesHome first texts b i k bytes → ⊥) → HasNoLive texts b }
{}

/// A block has no last effect exactly if no transaction has an entry of it; otherwise that of its entry in the last such
/// transaction.
pub fn the_last_effect_is_that_of_the_last_entry()
    ensures none { (ts : List Batch) (b : ℕ) → (last_effect ts b None ≡ None) ↔ HasNoEntry ts b }
    ensures some { (ts : List Batch) (b : ℕ) (effect : LastEffect) → last_effect ts b None ≡ Some effect → HasLast ts b effect }
{}
