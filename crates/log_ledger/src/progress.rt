//! How far a step has come.
use journal_model::Tid;

/// How far a step of a commit or checkpoint round has come.
#[derive(Clone, Copy)]
pub enum Progress {
    /// Nothing to do: no commit is under way, or all committed transactions are released.
    Idle,
    /// Another step is due.
    Step,
    /// This transaction is committed, or all up to it are released.
    Done(Tid),
}
