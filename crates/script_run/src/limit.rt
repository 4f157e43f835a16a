//! Tells what an opening of a log would find, by reads alone.
ghost use Rattle.std.specs.Prelude.{◌≡◌, IfOk};
ghost use Rattle.journal_model.specs.Disk.{reading};
ghost use Rattle.block_device.specs.Call.{OnlyReads};
ghost use Rattle.log_format.specs.Accepted.{IsAccepted};
ghost use Rattle.recovery.specs.Opening.{Tells};
ghost use Rattle.script_run.specs.Limit.{IsReadLog};

use crate::blocks::read_block;
use block_device::Device;
use journal_model::{Area, JournalError};
use log_format::Super;
use log_scan::{Finder, Log, scan};
use recovery::Report;
use std::alloc::Global;

/// Finds where a log's transactions end, and how many there are. It writes nothing, and does not look for a block ahead of the end.
///
/// # Errors
///
/// `BadMagic` to `ErrnoSet`, `BadLength`: the superblock is refused, or there is none. `Damage`: a block of the ring is damaged. `Device`.
/// `Memory`.
pub(crate) fn report_of<D: Device>(alloc: Global, device: &mut D) -> Result<Report, JournalError>
    ensures tells { IfOk result (λ report. D.honest device.new →
        Tells (D.state device.old).shape (reading (D.state device.old).disk) report.clean report.ends_at report.transactions) }
    ensures device { OnlyReads D.state D.honest device.old device.new }
{
    let log = read_log(alloc, device)?;
    if log.is_clean() {
        return Ok(Report {
            clean: true,
            ends_at: log.first_number(),
            transactions: 0,
        });
    }
    let home_blocks = device.blocks(Area::Home);
    let mut finder = Finder::new(log.layout());
    let transactions = scan(device, &log, Some(home_blocks), &mut finder)?;
    Ok(Report {
        clean: false,
        ends_at: log.first_number() + transactions,
        transactions,
    })
}

fn read_log<D: Device>(alloc: Global, device: &mut D) -> Result<Log, JournalError>
    ensures accepted { IfOk result (λ log. IsAccepted (D.state device.old).shape.block_size (D.state device.old).shape.log_blocks log) }
    ensures read { IfOk result (λ log. D.honest device.new → IsReadLog (D.state device.old).shape (reading (D.state device.old).disk) log) }
    ensures device { OnlyReads D.state D.honest device.old device.new }
{
    let superblock = read_block(alloc, device, Area::Log, 0)?;
    let fields = Super::read(superblock.bytes(), device.blocks(Area::Log))?;
    Ok(Log::new(fields))
}
