//! What a holder knows, and when it agrees with a front.
use journal_front::{Front, Record};
use journal_model::{HandleNo, Items, Step, Tid};
use parts::Agreement;

/// How far a handle has come.
pub enum HandleStage {
    /// It has not stopped, and has this many credits left.
    Open(u64),
    /// It has stopped.
    Stopped,
    /// It has stopped, and a commit of its transaction was requested.
    Asked,
}

/// What a holder knows; it exists in proofs alone.
pub struct OwnSteps {
    /// The handle.
    pub number: HandleNo,
    /// Its transaction.
    pub tid: Tid,
    /// Its steps, in the order in which they were accepted.
    pub steps: Items<Step>,
    pub stage: HandleStage,
}

/// The front's record has exactly the steps that each holder knows of, and no two holders have one handle.
pub struct KnowsOwnSteps;

impl<R: Record> Agreement<Front<R>, OwnSteps> for KnowsOwnSteps {
    ghost use Rattle.locked_journal.specs.Own.{AreApart, IsOwn};

    ghost agrees = { IsOwn };

    ghost apart = { AreApart };
}
