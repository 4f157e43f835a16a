//! Finding a copy in a log by its place.
ghost use Rattle.std.specs.Prelude.{◌≡◌, ◌<◌, ◌≤◌, length, slice_get, take, Some, IfOk, IfSome, IsTrue};
ghost use Rattle.journal_model.specs.Disk.{reading};
ghost use Rattle.log_model.specs.Chain.{place_from};
ghost use Rattle.log_model.specs.Opening.{layout_of, ring_of, super_of};
ghost use Rattle.block_device.specs.Call.{OnlyReads};
ghost use Rattle.log_format.specs.Accepted.{IsAccepted};
ghost use Rattle.log_scan.specs.Finding.{every_block};
ghost use Rattle.log_scan.specs.Scanning.{IsEndOf};
ghost use Rattle.log_views.specs.Copies.{IsCopyIn};

use crate::ring::read_log;
use block_device::Device;
use journal_model::JournalError;
use log_model::Tag;
use log_scan::{ChainEnd, Cursor, Finder, Found, Log, find_end};
use std::alloc::Global;

/// A copy in a log, as it goes home.
#[derive(Drop)]
pub struct Copy {
    finder: Finder,
}

impl Copy {
    /// Its bytes; if it is escaped, with the magic back in the first four.
    pub fn bytes(&self) -> &[u8]
        ensures { result.now ≡ self.now.finder.block }
    {
        self.finder.block()
    }
}

/// The copy at this place of the device's log, if a complete transaction has one there. The contract covers a copy that is found.
/// Blocks after the complete transactions are not examined, and nothing is written.
///
/// # Errors
///
/// Those of `read_log`. `Device`: a read failed.
pub fn copy_at<D: Device>(
    alloc: Global,
    device: &mut D,
    place: u64,
) -> Result<Option<Copy>, JournalError>
    ensures found { IfOk result (λ found. IfSome found (λ copy. D.honest device.new →
        IsCopyIn (super_of (reading (D.state device.old).disk)) (reading (D.state device.old).disk) place copy.finder.block)) }
    ensures device { OnlyReads D.state D.honest device.old device.new }
{
    let log = read_log(alloc, device)?;
    if log.is_clean() {
        return Ok(None);
    }
    let mut finder = Finder::new(log.layout());
    let end = find_end(device, &log, None, &mut finder)?;
    if find_copy(device, &log, end, place, &mut finder)? {
        Ok(Some(Copy { finder }))
    } else {
        Ok(None)
    }
}

/// Reads the copy at this place, if a complete transaction of this chain has one there.
fn find_copy<D: Device>(
    device: &mut D,
    log: &Log,
    end: ChainEnd,
    place: u64,
    finder: &mut Finder,
) -> Result<bool, JournalError>
    requires layout { finder.old.layout ≡ layout_of log.now }
    requires accepted { IsAccepted (D.state device.old).shape.block_size (D.state device.old).shape.log_blocks log.now }
    ensures found { IfOk result (λ found. IsTrue found → D.honest device.new →
        IsEndOf log.now (every_block log.now) (reading (D.state device.old).disk) end → IsCopyIn log.now (reading (D.state device.old).disk) place finder.new.block) }
    ensures device { OnlyReads D.state D.honest device.old device.new }
{
    let mut cursor = Cursor::new();
    while cursor.transactions < end.transactions {
        match cursor.advance(device, log, None, finder)? {
            Found::RevokeBlock(_) | Found::CommitBlock => {}
            Found::Descriptor(count) => {
                let first = cursor.position - count as u64;
                if let Some(position) = position_at(log, first, cursor.position, place) {
                    let escaped = tag_of(finder, count, (position - first) as usize).escaped;
                    finder.read_copy(device, log, position, escaped)?;
                    return Ok(true);
                }
            }
            Found::Malformed | Found::Nothing => return Ok(false),
        }
    }
    Ok(false)
}

/// The position in `first..end` at this place, if there is one.
fn position_at(log: &Log, first: u64, end: u64, place: u64) -> Option<u64>
    ensures { IfSome result (λ position. (first ≤ position) × (position < end) × (place ≡ place_from (ring_of log.now) log.now.s_start position)) }
{
    for position in first..end {
        if log.place(position) == place {
            return Some(position);
        }
    }
    None
}

/// Tag `k` of the last descriptor found, which has `count` tags.
fn tag_of(finder: &Finder, count: usize, k: usize) -> Tag
    requires there { count ≤ length finder.now.tags }
    requires one { k < count }
    ensures { slice_get (take count finder.now.tags) k ≡ Some result }
{
    let tags = finder.tags(count);
    tags[k]
}
