//! What holds of the one text that the writer makes of a transaction. Each function states one law; no body runs.
ghost use Rattle.std.specs.Prelude.{◌≡◌, ℕ, ◌^◌, ◌<◌, false, List, length, All};
ghost use Rattle.journal_model.specs.declared.entry.Entry.{Entry};
ghost use Rattle.journal_model.specs.Block.{IsAllowedBlock};
ghost use Rattle.log_model.specs.Escape.{escaped, unescaped};
ghost use Rattle.journal_model.specs.Layout.{Layout, IsLayout, begins_with_magic, uuid_bytes};
ghost use Rattle.journal_model.specs.Transaction.{copied, revoked};
ghost use Rattle.log_model.specs.OwnText.{own_text};
ghost use Rattle.log_model.specs.Room.{need};
ghost use Rattle.log_model.specs.Text.{IsText, text_blocks, text_copies, text_revokes};

/// Unescaping restores each copy, and an escaped copy does not begin with the magic.
pub fn unescaping_undoes_escaping()
    ensures undone { (v : List ℕ) → unescaped (begins_with_magic v) (escaped v) ≡ v }
    ensures no_magic { (v : List ℕ) → begins_with_magic (escaped v) ≡ false }
{}

/// Readers accept the own text of allowed entries.
pub fn own_text_is_a_text()
    ensures { (l : Layout) (uuid : List ℕ) (count sequence : ℕ) (entries : List (ℕ × Entry)) →
        IsLayout l → length uuid ≡ uuid_bytes → sequence < 2 ^ 32 →
        All (λ p. IsAllowedBlock l count p.0) entries →
        IsText l count sequence (own_text l uuid sequence entries) }
{}

/// Readers take from the own text the unescaped copies and the revoked blocks of its entries, in order.
pub fn own_text_says_its_entries()
    ensures copies { (l : Layout) (uuid : List ℕ) (sequence : ℕ) (entries : List (ℕ × Entry)) →
        IsLayout l → text_copies (own_text l uuid sequence entries) ≡ copied entries }
    ensures revokes { (l : Layout) (uuid : List ℕ) (sequence : ℕ) (entries : List (ℕ × Entry)) →
        IsLayout l → text_revokes (own_text l uuid sequence entries) ≡ revoked entries }
{}

/// The own text has as many log blocks as `need` gives.
pub fn need_is_the_length_of_the_own_text()
    ensures { (l : Layout) (uuid : List ℕ) (sequence : ℕ) (entries : List (ℕ × Entry)) →
        IsLayout l →
        length (text_blocks (own_text l uuid sequence entries)) ≡ need l (length (copied entries)) (length (revoked entries)) }
{}

/// Each log block of the own text has the block size, if each copy has.
pub fn own_text_has_whole_blocks()
    ensures { (l : Layout) (uuid : List ℕ) (sequence : ℕ) (entries : List (ℕ × Entry)) →
        IsLayout l → length uuid ≡ uuid_bytes → All (λ c. length c.1 ≡ l.block_size) (copied entries) →
        All (λ b. length b ≡ l.block_size) (text_blocks (own_text l uuid sequence entries)) }
{}
