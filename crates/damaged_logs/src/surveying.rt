//! How far a log's chain goes, which numbers are in use, and why an opening refuses it.
ghost use Rattle.std.specs.Prelude.{◌≡◌, ◌⊎◌, ◌+◌, ◌≤◌, None, IfOk, MatchOption, MatchResult};
ghost use Rattle.journal_model.specs.Disk.{reading};
ghost use Rattle.log_model.specs.Opening.{layout_of, ring_of};
ghost use Rattle.block_device.specs.Call.{OnlyReads};
ghost use Rattle.block_device.specs.State.{IsDeviceFailure};
ghost use Rattle.log_format.specs.Accepted.{IsAccepted};
ghost use Rattle.log_scan.specs.Scanning.{IsWithinRing};
ghost use Rattle.damaged_logs.specs.Before.{IsGreatest};
ghost use Rattle.damaged_logs.specs.BeforeSteps.{HasEnd, IsSurveyed, refusal_of};

use block_device::Device;
use journal_model::{Area, JournalError};
use log_scan::{ChainEnd, Finder, Log, find_end};
use recovery::lowest_ahead;

#[derive(Clone, Copy)]
pub(crate) struct Survey {
    /// The complete transactions of its chain; 0 in a clean log.
    pub(crate) transactions: u64,
    /// The number after these transactions, or that of a ring block above it.
    pub(crate) greatest: u64,
    /// The refusal for a damaged block, or for one ahead.
    pub(crate) stopped_by: Option<JournalError>,
}

/// Scans chain and ring. It refuses no content, and takes no memory.
pub(crate) fn survey_ring<D: Device>(
    device: &mut D,
    log: &Log,
    finder: &mut Finder,
) -> Result<Survey, JournalError>
    requires layout { finder.old.layout ≡ layout_of log.now }
    requires accepted { IsAccepted (D.state device.old).shape.block_size (D.state device.old).shape.log_blocks log.now }
    ensures layout { finder.new.layout ≡ finder.old.layout }
    ensures clean { IfOk result (λ s. log.now.s_start ≡ 0 → s.transactions ≡ 0) }
    ensures end { IfOk result (λ s. log.now.s_sequence + s.transactions ≤ s.greatest) }
    ensures alone { IfOk result (λ s. s.stopped_by ≡ None → s.greatest ≡ log.now.s_sequence + s.transactions) }
    ensures surveyed { IfOk result (λ s. D.honest device.new → IsSurveyed log.now (D.state device.old).shape.home_blocks (reading (D.state device.old).disk) s.transactions s.greatest s.stopped_by) }
    ensures faults { MatchResult result (λ _. (D.state device.new).faults ≡ (D.state device.old).faults) (IsDeviceFailure (D.state device.old) (D.state device.new)) }
    ensures device { OnlyReads D.state D.honest device.old device.new }
{
    let end = chain_end(device, log, finder)?;
    let limit = log.first_number() + end.transactions;
    let ahead = lowest_ahead(device, log, limit, finder)?;
    let mut greatest = limit;
    if ahead.is_some() {
        greatest = greatest_in_ring(device, log, limit, finder)?;
    }
    Ok(Survey {
        transactions: end.transactions,
        greatest,
        stopped_by: refusal(end.damaged, ahead),
    })
}

/// Where the chain of a log ends; a clean log has none.
fn chain_end<D: Device>(
    device: &mut D,
    log: &Log,
    finder: &mut Finder,
) -> Result<ChainEnd, JournalError>
    requires layout { finder.old.layout ≡ layout_of log.now }
    requires accepted { IsAccepted (D.state device.old).shape.block_size (D.state device.old).shape.log_blocks log.now }
    ensures layout { finder.new.layout ≡ finder.old.layout }
    ensures few { IfOk result (λ end. end.transactions ≤ (ring_of log.now).blocks) }
    ensures clean { IfOk result (λ end. log.now.s_start ≡ 0 → end.transactions ≡ 0) }
    ensures ends { IfOk result (λ end. D.honest device.new → HasEnd log.now (D.state device.old).shape.home_blocks (reading (D.state device.old).disk) end) }
    ensures faults { MatchResult result (λ _. (D.state device.new).faults ≡ (D.state device.old).faults) (IsDeviceFailure (D.state device.old) (D.state device.new)) }
    ensures device { OnlyReads D.state D.honest device.old device.new }
{
    if log.is_clean() {
        return Ok(ChainEnd {
            transactions: 0,
            damaged: None,
        });
    }
    let home_blocks = device.blocks(Area::Home);
    find_end(device, log, Some(home_blocks), finder)
}

/// The refusal of an opening that finds this block damaged, or this one ahead.
fn refusal(damaged: Option<u64>, ahead: Option<u64>) -> Option<JournalError>
    ensures { result ≡ refusal_of damaged ahead }
{
    if let Some(place) = damaged {
        return Some(JournalError::Damage(place));
    }
    if let Some(place) = ahead {
        return Some(JournalError::Ahead(place));
    }
    None
}

/// The greatest number of a ring block with the magic, at least `limit`.
fn greatest_in_ring<D: Device>(
    device: &mut D,
    log: &Log,
    limit: u64,
    finder: &mut Finder,
) -> Result<u64, JournalError>
    requires layout { finder.old.layout ≡ layout_of log.now }
    requires accepted { IsAccepted (D.state device.old).shape.block_size (D.state device.old).shape.log_blocks log.now }
    ensures layout { finder.new.layout ≡ finder.old.layout }
    ensures least { IfOk result (λ greatest. limit ≤ greatest) }
    ensures greatest { IfOk result (λ greatest. D.honest device.new → IsGreatest log.now (reading (D.state device.old).disk) limit greatest) }
    ensures faults { MatchResult result (λ _. (D.state device.new).faults ≡ (D.state device.old).faults) (IsDeviceFailure (D.state device.old) (D.state device.new)) }
    ensures device { OnlyReads D.state D.honest device.old device.new }
{
    let first = u64::from(log.fields().s_first);
    let end = u64::from(log.fields().s_maxlen);
    let mut greatest = limit;
    for place in first..end {
        greatest = greater(greatest, finder.sequence_at(device, place)?);
    }
    Ok(greatest)
}

fn greater(number: u64, sequence: Option<u32>) -> u64
    ensures least { number ≤ result }
    ensures above { MatchOption sequence (result ≡ number) (λ n. (n ≤ result) × ((result ≡ number) ⊎ (result ≡ n))) }
{
    match sequence {
        Some(sequence) => number.max(u64::from(sequence)),
        None => number,
    }
}
