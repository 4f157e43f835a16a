//! What an opening in spite of damage would do, without doing it.
ghost use Rattle.std.specs.Prelude.{◌≡◌, IfErr, IfOk, OnOk};
ghost use Rattle.block_device.specs.Call.{OnlyReads};
ghost use Rattle.damaged_logs.specs.Before.{BeforeRefused};
ghost use Rattle.damaged_logs.specs.Planned.{IsPlannedBefore};

use crate::before_damage::{ReadLog, read_log, report_of};
use block_device::Device;
use journal_model::{Area, JournalError, Tid};
use recovery::{Plan, count_copies, number_from};
use std::alloc::Global;

/// What `open_before_damage` would do to this log, and which refusal it would pass over. Nothing is written or flushed.
///
/// # Errors
///
/// As `open_before_damage`.
pub fn plan_before_damage<D: Device>(
    alloc: Global,
    device: &mut D,
) -> Result<(Plan, Option<JournalError>), JournalError>
    ensures planned { IfOk result (λ r. D.honest device.new → IsPlannedBefore (D.state device.old).shape (D.state device.old).disk r.1 r.0.report.clean r.0.report.ends_at r.0.report.transactions r.0.blocks r.0.next) }
    ensures refused { IfErr result (BeforeRefused (D.honest device.new) (D.state device.old) (D.state device.new)) }
    ensures no_fault { OnOk result ((D.state device.new).faults ≡ (D.state device.old).faults) }
    ensures device { OnlyReads D.state D.honest device.old device.new }
{
    if device.blocks(Area::Log) == 0 {
        return Err(JournalError::BadLength);
    }
    let read = read_log(alloc, device)?;
    let report = report_of(&read);
    let ReadLog {
        superblock: _,
        log,
        transactions,
        tables,
        finder,
        greatest,
        stopped_by,
    } = read;
    let mut finder = finder;
    let blocks = count_copies(device, &log, transactions, &tables, &mut finder)?;
    let plan = Plan {
        report,
        blocks,
        next: Tid(number_from(greatest)),
    };
    Ok((plan, stopped_by))
}
