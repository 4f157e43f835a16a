//! The greatest transaction of stopped handles, and the receipt for its commit.
ghost use Rattle.std.specs.Prelude.{◌≡◌, ◌≤◌, max, IfErr, IfOk};
ghost use Rattle.shared_journal.specs.Waiting.{NotAwaited};

use block_device::Device;
use journal_model::{JournalError, Tid};
use shared_journal::{JournalName, Record};
use std::marker::Model;
use std::sync::Wait;
use volume_service::{Gate, Session};

/// A bound: each noted handle's transaction has at most this number.
#[derive(Debug, Drop)]
pub struct Stopped {
    upto: Tid,
}

impl Model for Stopped {
    ghost use Rattle.std.specs.Prelude.{ℕ};

    ghost Value = { ℕ };

    ghost view = { λ s. s.upto };
}

impl Stopped {
    /// No handle is noted: the bound is 0.
    pub fn new() -> Stopped
        ensures { result ≡ 0 }
    {
        Stopped { upto: Tid(0) }
    }

    /// The bound: no noted handle has a later transaction.
    pub fn upto(&self) -> Tid
        ensures { result ≡ self.now }
    {
        self.upto
    }

    /// Registers that a handle of this transaction has stopped.
    pub fn register(&mut self, tid: Tid)
        ensures noted { tid ≤ self.new }
        ensures kept { self.old ≤ self.new }
        ensures least { self.new ≡ max self.old tid }
    {
        if self.upto.0 < tid.0 {
            self.upto = tid;
        }
    }
}

/// A receipt: all transactions up to this number are committed. Only a successful wait makes one.
#[derive(Debug, Drop)]
pub struct Committed {
    upto: Tid,
}

impl Model for Committed {
    ghost use Rattle.std.specs.Prelude.{ℕ};

    ghost Value = { ℕ };

    ghost view = { λ c. c.upto };
}

impl Committed {
    /// Commits all transactions up to a number, or waits until other threads have.
    ///
    /// # Errors
    ///
    /// Those of `Session::wait_for`.
    pub fn wait_for<J: JournalName, D: Device, R: Record, G: Gate, W: Wait>(
        rt: &W,
        session: &mut Session<'_, J, D, R, G>,
        upto: Tid,
    ) -> Result<Committed, JournalError>
        ensures of { IfOk result (λ receipt. receipt ≡ upto) }
        ensures seen { IfOk result (λ receipt. receipt ≤ session.new.seat.seen) }
        ensures err { IfErr result (NotAwaited D) }
    {
        match session.wait_for(rt, upto) {
            Ok(()) => Ok(Committed { upto }),
            Err(e) => Err(e),
        }
    }

    /// The number of the transaction up to which all is committed.
    pub fn upto(&self) -> Tid
        ensures { result ≡ self.now }
    {
        self.upto
    }
}
