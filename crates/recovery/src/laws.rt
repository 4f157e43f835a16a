//! Laws of the lists by which a replay goes. Each function states one, and has no body.
ghost use Rattle.std.specs.Prelude.{◌≡◌, ◌≢◌, ◌↔◌, Contains, List, ℕ};
ghost use Rattle.std.specs.List.{AllPairs};
ghost use Rattle.log_model.specs.declared.log.Text.{Text};
ghost use Rattle.log_model.specs.Replay.{IsNewest};
ghost use Rattle.recovery.specs.Choice.{chosen_all};
ghost use Rattle.recovery.specs.Gather.{tables_of};
ghost use Rattle.recovery.specs.HomeCopies.{home_copies};

/// A chain brings home exactly the newest live copy of each block that has one.
pub fn what_goes_home_is_the_newest_live_copy()
    ensures { (texts : List Text) (b : ℕ) (bytes : List ℕ) → Contains (home_copies texts) (b, bytes) ↔ IsNewest texts b bytes }
{}

/// At most one copy of each block goes home.
pub fn no_block_goes_home_twice()
    ensures { (texts : List Text) → AllPairs (λ x y. x.0 ≢ y.0) (home_copies texts) }
{}

/// The copies that a chain's tables choose, in order, are those that go home.
pub fn the_tables_choose_what_goes_home()
    ensures { (first : ℕ) (texts : List Text) →
        chosen_all (tables_of first texts).revokes (tables_of first texts).copies first 0 texts ≡ home_copies texts }
{}
