//! Blocks of a log can be read in at most one way.

ghost use Rattle.std.specs.Prelude.{◌≡◌, ℕ, ◌<◌, List, ◌++◌};
ghost use Rattle.log_model.specs.declared.log.Text.{Text};
ghost use Rattle.journal_model.specs.Layout.{Layout};
ghost use Rattle.log_model.specs.Text.{IsText, text_blocks};
ghost use Rattle.log_model.specs.Chain.{IsChain, IsDamaged};

/// Two texts of one number at the front of the same blocks are equal, and so are the blocks after them. Block
/// numbers have at least one byte.
pub fn no_text_begins_another()
    ensures { (l : Layout) (count sequence : ℕ) → 0 < l.number_bytes → (t u : Text) (x y : List (List ℕ)) → IsText l count sequence t → IsText l count sequence u → text_blocks t ++ x ≡ text_blocks u ++ y → (t ≡ u) × (x ≡ y) }
{}

/// The blocks of a log have at most one chain.
pub fn one_chain()
    ensures { (l : Layout) (count sequence : ℕ) → 0 < l.number_bytes → (blocks : List (List ℕ)) (texts others : List Text) → IsChain l count sequence blocks texts → IsChain l count sequence blocks others → texts ≡ others }
{}

/// At most one block of a log is the damaged one after its chain.
pub fn one_damage()
    ensures { (l : Layout) (count sequence : ℕ) → 0 < l.number_bytes → (blocks : List (List ℕ)) (j k : ℕ) → IsDamaged l count sequence blocks j → IsDamaged l count sequence blocks k → j ≡ k }
{}
