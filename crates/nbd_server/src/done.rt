//! How a connection went.
use journal_model::Tid;
use std::alloc::Global;
use std::{io, mem};

/// A success answer to a flush, or to a change with `FUA`.
#[derive(Clone, Copy, Debug)]
pub struct Confirmed {
    /// The request's cookie.
    pub cookie: u64,
    /// All transactions up to this one were committed at the answer. It covers all handles that had stopped when the request came.
    pub upto: Tid,
}

/// How a connection went.
#[derive(Debug, Drop)]
pub struct Done {
    /// The requests read, without the one that ended the connection.
    pub requests: u64,
    /// The greatest transaction of a handle that the connection stopped, or 0.
    pub upto: Tid,
    /// The first answers that confirmed a commit, in order, as many as were to be kept.
    pub committed: Vec<Confirmed>,
    /// An error if the client could not be read or written, ended within a message, or sent no NBD.
    pub end: io::Result<()>,
}

impl Done {
    /// The part of a task that reads no requests and records no answers.
    pub(crate) fn of_task(alloc: Global, upto: Tid, end: io::Result<()>) -> Done {
        Done {
            requests: 0,
            upto,
            committed: Vec::new(alloc),
            end,
        }
    }

    /// Adds another task's part.
    pub(crate) fn add(&mut self, other: &mut Done) {
        self.requests = self.requests.max(other.requests);
        if self.upto.0 < other.upto.0 {
            self.upto = other.upto;
        }
        if self.committed.is_empty() {
            mem::swap(&mut self.committed, &mut other.committed);
        }
        if let Err(e) = &other.end {
            self.end = Err(*e);
        }
    }
}
