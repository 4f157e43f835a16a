//! How a scan goes over a log, piece by piece.
ghost use Rattle.std.specs.Prelude.{◌≡◌, ◌<◌, ◌≤◌, ◌^◌, List, length, IfOk, IfErr, OnErr, MatchResult};
ghost use Rattle.log_model.specs.declared.log.Piece.{Piece};
ghost use Rattle.log_model.specs.declared.log.Text.{Text};
ghost use Rattle.journal_model.specs.Disk.{reading};
ghost use Rattle.log_model.specs.Opening.{layout_of, ring_of};
ghost use Rattle.block_device.specs.Call.{OnlyReads};
ghost use Rattle.block_device.specs.State.{IsDeviceFailure};
ghost use Rattle.log_format.specs.Accepted.{IsAccepted};
ghost use Rattle.log_scan.specs.Finding.{Fits, MakesCalls, limit_of, reads_of};
ghost use Rattle.log_scan.specs.Passing.{IsPassed, LeadsTo, cursor_behind};

use crate::finding::{Finder, Found};
use crate::log::Log;
use block_device::Device;
use journal_model::JournalError;

/// How far a scan has come.
#[derive(Clone, Copy, Debug, PartialEq, Eq)]
pub struct Cursor {
    /// In ring blocks from the begin of the log.
    pub position: u64,
    /// The complete transactions before it.
    pub transactions: u64,
}

impl Cursor {
    /// A cursor at the begin of the log.
    pub fn new() -> Self
        ensures { result ≡ record { position = 0; transactions = 0 } }
    {
        Cursor {
            position: 0,
            transactions: 0,
        }
    }

    /// Finds what stands at the cursor and moves after it: a revoke block, a descriptor with its copies, or a
    /// commit block. At a malformed block, or one that is no part of the due transaction, it stays. `home_blocks`
    /// are tested if known.
    ///
    /// # Errors
    ///
    /// `Device`: the read failed, and the cursor stays.
    pub fn advance<D: Device>(
        &mut self,
        device: &mut D,
        log: &Log,
        home_blocks: Option<u64>,
        finder: &mut Finder,
    ) -> Result<Found, JournalError>
        requires layout { finder.old.layout ≡ layout_of log.now }
        requires accepted { IsAccepted (D.state device.old).shape.block_size (D.state device.old).shape.log_blocks log.now }
        requires within { self.old.position ≤ (ring_of log.now).blocks }
        requires few { self.old.transactions ≤ self.old.position }
        ensures layout { finder.new.layout ≡ finder.old.layout }
        ensures fits { IfOk result (Fits (limit_of log.now home_blocks) (ring_of log.now).blocks self.old.position finder.new) }
        ensures behind { IfOk result (λ found. self.new ≡ cursor_behind self.old found) }
        ensures err { OnErr result (self.new ≡ self.old) }
        ensures within { self.new.position ≤ (ring_of log.now).blocks }
        ensures few { self.new.transactions ≤ self.new.position }
        ensures leads { IfOk result (λ found. D.honest device.new → (texts : List Text) (pieces : List Piece) →
            IsPassed log.now (limit_of log.now home_blocks) (reading (D.state device.old).disk) texts pieces self.old →
            LeadsTo log.now (limit_of log.now home_blocks) (reading (D.state device.old).disk) texts pieces finder.new self.old self.new found) }
        ensures faults { MatchResult result (λ _. (D.state device.new).faults ≡ (D.state device.old).faults) (IsDeviceFailure (D.state device.old) (D.state device.new)) }
        ensures calls { IfOk result (λ found. MakesCalls (reads_of found) (D.state device.old) (D.state device.new)) }
        ensures device { OnlyReads D.state D.honest device.old device.new }
    {
        let sequence = log.first_number() + self.transactions;
        let found = finder.look(device, log, home_blocks, self.position, sequence)?;
        *self = self.behind(found);
        Ok(found)
    }

    fn behind(self, found: Found) -> Self
        requires few { self.transactions ≤ self.position }
        requires room { (cursor_behind self found).position < 2 ^ 64 }
        ensures { result ≡ cursor_behind self found }
    {
        let Cursor {
            position,
            transactions,
        } = self;
        match found {
            Found::RevokeBlock(_) => Cursor {
                position: position + 1,
                transactions,
            },
            Found::Descriptor(tags) => Cursor {
                position: position + (1 + tags as u64),
                transactions,
            },
            Found::CommitBlock => Cursor {
                position: position + 1,
                transactions: transactions + 1,
            },
            Found::Malformed | Found::Nothing => self,
        }
    }
}
