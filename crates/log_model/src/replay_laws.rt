//! What follows from the definition of replay. Each function states one law; no body runs.

ghost use Rattle.std.specs.Prelude.{◌≡◌, ◌<◌, List, ℕ};
ghost use Rattle.log_model.specs.declared.log.Text.{Text};
ghost use Rattle.log_model.specs.Replay.{IsNewest, IsReplayed};
ghost use Rattle.journal_model.specs.Transaction.{Volume};

/// A block has at most one newest live copy in a chain.
pub fn one_newest_copy()
    ensures { (texts : List Text) (b : ℕ) (one other : List ℕ) →
        IsNewest texts b one → IsNewest texts b other → one ≡ other }
{}

/// A replay of one chain over one volume makes one volume.
pub fn replay_is_determined()
    ensures { (count : ℕ) (texts : List Text) (left one other : Volume) →
        IsReplayed count texts left one → IsReplayed count texts left other →
        (b : ℕ) → b < count → one b ≡ other b }
{}
