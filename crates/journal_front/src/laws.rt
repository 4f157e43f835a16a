//! Laws of a transaction's entries, each a function of its own. Those on their order are in `journal_model::transaction_laws`.

ghost use Rattle.std.specs.Prelude.{◌≡◌, ◌++◌, ◌+◌, ◌∷◌, [], List, Some, length, nat_eq, ℕ};
ghost use Rattle.std.specs.Map.{lookup};
ghost use Rattle.journal_model.specs.declared.entry.Entry.{Entry};
ghost use Rattle.journal_model.specs.declared.entry.Entry.TheVariants.{Revoke};
ghost use Rattle.journal_model.specs.declared.transaction.Step.{Step};
ghost use Rattle.journal_model.specs.Transaction.{effect, entries, entry_of};
ghost use Rattle.journal_front.specs.Transaction.{cost, touch_of};

/// Each credit that a touch costs adds one entry: a transaction has as many entries as its handles paid credits.
pub fn a_touch_costs_a_credit_for_each_entry_that_it_adds()
    ensures { (ss : List Step) (s : Step) (e : Entry) → entry_of s.op ≡ Some e →
        length (entries (ss ++ s ∷ [])) ≡ length (entries ss) + cost (touch_of (effect s.block ss)) }
{}

/// A revoke of a block whose entry is a revoke changes no entry.
pub fn a_second_revoke_changes_no_entry()
    ensures { (ss : List Step) (s : Step) → entry_of s.op ≡ Some Revoke → effect s.block ss ≡ Some Revoke →
        entries (ss ++ s ∷ []) ≡ entries ss }
{}

/// The entry of a block is the effect of the steps on it.
pub fn a_look_up_finds_the_effect()
    ensures { (ss : List Step) (b : ℕ) → lookup (nat_eq b) (entries ss) ≡ effect b ss }
{}
