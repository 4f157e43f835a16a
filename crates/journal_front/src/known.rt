//! A transaction known to contracts alone, but for its number.
ghost use Rattle.std.specs.Prelude.{◌≡◌, ◌++◌, ◌∷◌, []};

use journal_model::{HandleNo, History, Step, Tid};
use std::marker::Model;

/// A transaction whose handles and steps only contracts know. It takes no memory.
#[derive(Drop)]
pub struct KnownTransaction {
    tid: Tid,
    handles: History<HandleNo>,
    steps: History<Step>,
}

impl Model for KnownTransaction {
    ghost use Rattle.journal_model.specs.Transaction.{Transaction};

    ghost Value = { Transaction };

    ghost view = { λ t. record { tid = t.tid; handles = t.handles.items; steps = t.steps.items } };
}

impl KnownTransaction {
    pub(crate) fn new(tid: Tid) -> Self
        ensures { result ≡ record { tid = tid; handles = []; steps = [] } }
    {
        KnownTransaction {
            tid,
            handles: History::new(),
            steps: History::new(),
        }
    }

    /// The transaction's number.
    pub fn tid(&self) -> Tid
        ensures { result ≡ self.now.tid }
    {
        self.tid
    }

    pub(crate) fn join(&mut self, handle: HandleNo)
        ensures { self.new ≡ record self.old { handles = self.old.handles ++ handle ∷ [] } }
    {
        self.handles.push(&handle);
    }

    /// Adds a step, which the caller keeps.
    pub(crate) fn register(&mut self, step: &Step)
        ensures { self.new ≡ record self.old { steps = self.old.steps ++ step.now ∷ [] } }
    {
        self.steps.push(step);
    }
}
