//! How much of a log's ring is used.
ghost use Rattle.std.specs.Prelude.{◌≡◌, ◌≤◌, IfOk};
ghost use Rattle.journal_model.specs.Disk.{reading};
ghost use Rattle.log_model.specs.Opening.{layout_of, ring_of, super_of};
ghost use Rattle.block_device.specs.Call.{OnlyReads};
ghost use Rattle.log_format.specs.Accepted.{IsAccepted};
ghost use Rattle.log_views.specs.Ring.{IsUseOf};

use block_device::{Device, read_block};
use journal_model::{Area, JournalError};
use log_format::Super;
use log_scan::{ChainEnd, Cursor, Finder, Log, find_end};
use std::alloc::Global;

/// The use of a log's ring.
#[derive(Clone, Copy, Debug, PartialEq, Eq)]
pub struct RingUse {
    /// Blocks of the ring.
    pub blocks: u64,
    /// How many of them the complete transactions take. The contract says only that it is at most `blocks`.
    pub used: u64,
    /// The first transaction's number.
    pub first: u64,
    /// How many complete transactions there are, and the damaged block after them, if any.
    pub end: ChainEnd,
}

/// Reads and tests the superblock of a log.
///
/// # Errors
///
/// `BadLength`: the log area has no block. Those of `Super::read`. `Device`: the read failed. `Memory`.
pub fn read_log<D: Device>(alloc: Global, device: &mut D) -> Result<Log, JournalError>
    ensures accepted { IfOk result (λ log. IsAccepted (D.state device.old).shape.block_size (D.state device.old).shape.log_blocks log) }
    ensures fields { IfOk result (λ log. D.honest device.new → log ≡ super_of (reading (D.state device.old).disk)) }
    ensures device { OnlyReads D.state D.honest device.old device.new }
{
    let log_blocks = device.blocks(Area::Log);
    if log_blocks == 0 {
        return Err(JournalError::BadLength);
    }
    let superblock = read_block(alloc, device, Area::Log, 0)?;
    let fields = Super::read(superblock.bytes(), log_blocks)?;
    Ok(Log::new(fields))
}

/// How much of the ring of the device's log is used, whatever follows its complete transactions; in a clean log, nothing. Nothing is
/// written.
///
/// # Errors
///
/// Those of `read_log`.
pub fn ring_use<D: Device>(alloc: Global, device: &mut D) -> Result<RingUse, JournalError>
    ensures used { IfOk result (λ u. D.honest device.new → IsUseOf (super_of (reading (D.state device.old).disk)) (reading (D.state device.old).disk) u) }
    ensures device { OnlyReads D.state D.honest device.old device.new }
{
    let log = read_log(alloc, device)?;
    let (blocks, first) = (log.blocks(), log.first_number());
    if log.is_clean() {
        return Ok(RingUse {
            blocks,
            used: 0,
            first,
            end: ChainEnd {
                transactions: 0,
                damaged: None,
            },
        });
    }
    let mut finder = Finder::new(log.layout());
    let end = find_end(device, &log, None, &mut finder)?;
    let used = blocks_of(device, &log, end.transactions, &mut finder)?;
    Ok(RingUse {
        blocks,
        used,
        first,
        end,
    })
}

/// How many ring blocks the first `transactions` transactions take.
fn blocks_of<D: Device>(
    device: &mut D,
    log: &Log,
    transactions: u64,
    finder: &mut Finder,
) -> Result<u64, JournalError>
    requires layout { finder.old.layout ≡ layout_of log.now }
    requires accepted { IsAccepted (D.state device.old).shape.block_size (D.state device.old).shape.log_blocks log.now }
    ensures within { IfOk result (λ used. used ≤ (ring_of log.now).blocks) }
    ensures device { OnlyReads D.state D.honest device.old device.new }
{
    let mut cursor = Cursor::new();
    for _ in 0..log.blocks() {
        if cursor.transactions >= transactions {
            break;
        }
        cursor.advance(device, log, None, finder)?;
    }
    Ok(cursor.position)
}
