//! What holds of the layout of a transaction. Each function states one law; no body runs.
ghost use Rattle.std.specs.Prelude.{◌≡◌, ℕ, List, length, map};
ghost use Rattle.journal_model.specs.declared.entry.Entry.{Entry};
ghost use Rattle.journal_model.specs.Layout.{IsLayout, Layout};
ghost use Rattle.journal_model.specs.Transaction.{copied, revoked};
ghost use Rattle.log_model.specs.OwnText.{own_text};
ghost use Rattle.log_model.specs.Room.{need};
ghost use Rattle.log_model.specs.Text.{text_blocks};
ghost use Rattle.log_ring.specs.Parts.{part_block, parts};

/// The own text of a transaction has the log blocks of its layout, in order.
pub fn the_own_text_has_the_parts_of_its_layout()
    ensures { (l : Layout) (uuid : List ℕ) (sequence : ℕ) (entries : List (ℕ × Entry)) → IsLayout l →
        text_blocks (own_text l uuid sequence entries)
        ≡ map (part_block l uuid sequence entries) (parts l (length (copied entries)) (length (revoked entries))) }
{}

/// There are as many parts as `need` gives.
pub fn need_is_the_number_of_parts()
    ensures { (l : Layout) (copies revokes : ℕ) → IsLayout l → length (parts l copies revokes) ≡ need l copies revokes }
{}
