//! What a commit or checkpoint turn did.
use journal_model::Tid;

/// The answer of a commit turn.
#[derive(Clone, Copy, Debug, PartialEq, Eq)]
pub enum Turn {
    /// Nothing: the transaction is running.
    Idle,
    /// Nothing: the transaction is locked, and has an open handle.
    Waiting,
    /// One step of a commit.
    Step,
    /// It sealed this transaction, which is then to be committed.
    Sealed(Tid),
    /// The last step of a commit: this transaction is committed and acknowledged.
    Committed(Tid),
}

/// The answer of a checkpoint turn.
#[derive(Clone, Copy, Debug, PartialEq, Eq)]
pub enum CheckTurn {
    /// Nothing: every committed transaction is released.
    Idle,
    /// One step of a round.
    Step,
    /// The last step of a round: the transactions up to this one are released.
    Released(Tid),
}
