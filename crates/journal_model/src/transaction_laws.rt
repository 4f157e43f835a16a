//! What follows from the definitions of transactions. Each function states one law; no body runs.

ghost use Rattle.std.specs.Prelude.{◌≡◌, ◌++◌, ◌<◌, ◌==◌, ◌∷◌, ◌↔◌, [], Contains, List, None, Some, if◌then◌else◌, map, nat_eq, ℕ};
ghost use Rattle.std.specs.List.{IsDistinct};
ghost use Rattle.journal_model.specs.declared.entry.Entry.{Entry};
ghost use Rattle.journal_model.specs.declared.transaction.Step.{Step};
ghost use Rattle.journal_model.specs.Transaction.{History, Recovered, Volume, effect, entries, entry_of};

/// The entries of a transaction name each touched block once, with the effect of its steps, and no other block.
pub fn entries_list_each_touched_block_once()
    ensures once { (ss : List Step) → IsDistinct nat_eq (map (λ p. p.0) (entries ss)) }
    ensures exact { (ss : List Step) (b : ℕ) (e : Entry) → Contains (entries ss) (b, e) ↔ (effect b ss ≡ Some e) }
{}

/// One more step keeps the entries in order. A read changes none; a write or revoke changes the block's entry
/// in place, or adds one at the end.
pub fn a_step_keeps_the_order_of_entries()
    ensures read { (ss : List Step) (s : Step) → entry_of s.op ≡ None → entries (ss ++ s ∷ []) ≡ entries ss }
    ensures changed { (ss : List Step) (s : Step) (e old : Entry) → entry_of s.op ≡ Some e → effect s.block ss ≡ Some old →
        entries (ss ++ s ∷ []) ≡ map (λ p. if p.0 == s.block then (s.block, e) else p) (entries ss) }
    ensures added { (ss : List Step) (s : Step) (e : Entry) → entry_of s.op ≡ Some e → effect s.block ss ≡ None →
        entries (ss ++ s ∷ []) ≡ entries ss ++ (s.block, e) ∷ [] }
{}

/// The first `n` transactions lead from a volume to at most one, on its first `count` blocks.
pub fn recovered_is_determined()
    ensures { (count n : ℕ) (ts : History) (left one other : Volume) →
        Recovered count ts n left one → Recovered count ts n left other →
        (b : ℕ) → b < count → one b ≡ other b }
{}
