//! Tickets and receipts, which only a `Journal` makes.
use journal_model::{HandleNo, Tid};
use std::marker::Model;

/// What a stopped handle leaves, to ask whether its transaction is committed.
#[derive(Debug, Drop)]
pub struct Ticket {
    handle: HandleNo,
    tid: Tid,
}

impl Model for Ticket {
    ghost use Rattle.group_commit.specs.Values.{TicketValue};

    ghost Value = { TicketValue };

    ghost view = { λ t. record { handle = t.handle; tid = t.tid } };
}

impl Ticket {
    ghost use Rattle.std.specs.Prelude.{◌≡◌};

    pub(crate) fn new(handle: HandleNo, tid: Tid) -> Self
        ensures { result ≡ record { handle = handle; tid = tid } }
    {
        Ticket { handle, tid }
    }

    /// The stopped handle's number.
    pub fn handle(&self) -> HandleNo
        ensures { result ≡ self.now.handle }
    {
        self.handle
    }

    /// Its transaction's number.
    pub fn tid(&self) -> Tid
        ensures { result ≡ self.now.tid }
    {
        self.tid
    }
}

/// Proof that a handle's transaction is committed: after any crash its changes are there, or what later transactions and direct writes
/// made of those blocks.
#[derive(Debug, Drop)]
pub struct Receipt {
    handle: HandleNo,
    tid: Tid,
}

impl Model for Receipt {
    ghost use Rattle.group_commit.specs.Values.{TicketValue};

    ghost Value = { TicketValue };

    ghost view = { λ t. record { handle = t.handle; tid = t.tid } };
}

impl Receipt {
    ghost use Rattle.std.specs.Prelude.{◌≡◌};

    pub(crate) fn new(handle: HandleNo, tid: Tid) -> Self
        ensures { result ≡ record { handle = handle; tid = tid } }
    {
        Receipt { handle, tid }
    }

    /// The handle's number.
    pub fn handle(&self) -> HandleNo
        ensures { result ≡ self.now.handle }
    {
        self.handle
    }

    /// Its transaction's number.
    pub fn tid(&self) -> Tid
        ensures { result ≡ self.now.tid }
    {
        self.tid
    }
}
