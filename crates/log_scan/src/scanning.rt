//! Where the chain of a log ends.
ghost use Rattle.std.specs.Prelude.{◌≡◌, ◌≤◌, length, IfOk, IfErr, MatchResult, OnOk};
ghost use Rattle.journal_model.specs.Disk.{reading};
ghost use Rattle.log_model.specs.Opening.{layout_of, ring_of};
ghost use Rattle.block_device.specs.Call.{OnlyReads};
ghost use Rattle.block_device.specs.State.{IsDeviceFailure};
ghost use Rattle.log_format.specs.Accepted.{IsAccepted};
ghost use Rattle.log_scan.specs.Finding.{limit_of};
ghost use Rattle.log_scan.specs.Scanning.{IsDamageOf, IsEndOf, IsScanned, IsScanRefused, IsWithinRing};

use crate::cursor::Cursor;
use crate::finding::{Finder, Found};
use crate::log::Log;
use block_device::Device;
use journal_model::JournalError;

/// The end of a log's chain.
#[derive(Clone, Copy, Debug, PartialEq, Eq)]
pub struct ChainEnd {
    /// The complete transactions before it.
    pub transactions: u64,
    /// The log place of the malformed block of the due number that ends it, if any.
    pub damaged: Option<u64>,
}

/// Scans a log that is not clean to the end of its chain: its complete transactions, and the malformed block after them, if any. It
/// reads one block at a time, and no copies.
///
/// `home_blocks` are tested if known. A scan ends after one lap, or at a descriptor whose copies do not fit that lap.
/// Source: fs/jbd2/recovery.c by behaviour; the bound and the malformed block are this project's own.
///
/// # Errors
///
/// `Device`: a read failed.
pub fn find_end<D: Device>(
    device: &mut D,
    log: &Log,
    home_blocks: Option<u64>,
    finder: &mut Finder,
) -> Result<ChainEnd, JournalError>
    requires layout { finder.old.layout ≡ layout_of log.now }
    requires accepted { IsAccepted (D.state device.old).shape.block_size (D.state device.old).shape.log_blocks log.now }
    ensures layout { finder.new.layout ≡ finder.old.layout }
    ensures few { IfOk result (λ end. end.transactions ≤ (ring_of log.now).blocks) }
    ensures within { IfOk result (λ end. IsWithinRing log.now end.damaged) }
    ensures ends { IfOk result (λ end. D.honest device.new → IsEndOf log.now (limit_of log.now home_blocks) (reading (D.state device.old).disk) end) }
    ensures faults { MatchResult result (λ _. (D.state device.new).faults ≡ (D.state device.old).faults) (IsDeviceFailure (D.state device.old) (D.state device.new)) }
    ensures device { OnlyReads D.state D.honest device.old device.new }
{
    let mut cursor = Cursor::new();
    loop {
        match cursor.advance(device, log, home_blocks, finder)? {
            Found::RevokeBlock(_) | Found::Descriptor(_) | Found::CommitBlock => {}
            Found::Malformed => {
                return Ok(ChainEnd {
                    transactions: cursor.transactions,
                    damaged: Some(log.place(cursor.position)),
                });
            }
            Found::Nothing => {
                return Ok(ChainEnd {
                    transactions: cursor.transactions,
                    damaged: None,
                });
            }
        }
    }
}

/// The number of complete transactions of a log that is not clean, found as by `find_end`.
/// Source: fs/jbd2/recovery.c by behaviour; the bound and `Damage` are this project's own.
///
/// # Errors
///
/// - `Damage`: a malformed descriptor or revoke block of the due number follows these transactions, at this log place.
/// - `Device`: a read failed.
pub fn scan<D: Device>(
    device: &mut D,
    log: &Log,
    home_blocks: Option<u64>,
    finder: &mut Finder,
) -> Result<u64, JournalError>
    requires layout { finder.old.layout ≡ layout_of log.now }
    requires accepted { IsAccepted (D.state device.old).shape.block_size (D.state device.old).shape.log_blocks log.now }
    ensures layout { finder.new.layout ≡ finder.old.layout }
    ensures few { IfOk result (λ count. count ≤ (ring_of log.now).blocks) }
    ensures scanned { IfOk result (λ count. D.honest device.new → IsScanned log.now (limit_of log.now home_blocks) (reading (D.state device.old).disk) count) }
    ensures refused { IfErr result (IsScanRefused (D.honest device.new) log.now (limit_of log.now home_blocks) (D.state device.old) (D.state device.new)) }
    ensures faults { OnOk result ((D.state device.new).faults ≡ (D.state device.old).faults) }
    ensures device { OnlyReads D.state D.honest device.old device.new }
{
    let end = find_end(device, log, home_blocks, finder)?;
    match end.damaged {
        Some(place) => Err(JournalError::Damage(place)),
        None => Ok(end.transactions),
    }
}
