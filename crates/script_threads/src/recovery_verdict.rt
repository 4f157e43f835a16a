//! The verdict on the crash image of the device.
ghost use Rattle.std.specs.Prelude.{◌≡◌, ◌≢◌, ◌↔◌, [], IfOk, IsTrue, false};
ghost use Rattle.journal_model.specs.declared.refusal.JournalError.TheVariants.{Device, Memory};
ghost use Rattle.journal_model.specs.declared.number.Area.TheVariants.{Home};
ghost use Rattle.journal_model.specs.Disk.{reading};
ghost use Rattle.log_model.specs.Opening.{numbered_below};
ghost use Rattle.block_device.specs.Memory.{state_of};
ghost use Rattle.script_run.specs.Verdict.{IsRight};
ghost use Rattle.script_threads.specs.Verdicts.{IsRecovered};

use block_device::MemDevice;
use journal_model::JournalError;
use journal_script::NamedBlocks;
use script_run::{OpenedImage, RunRecord, open_image};
use std::alloc::Global;

/// Whether the crash image without any unflushed write opens to all acknowledged transactions, with each named block as they leave it.
///
/// # Errors
///
/// `Memory`; also `Device` if memory ran out for the device.
pub(crate) fn recovers(
    alloc: Global,
    device: MemDevice,
    recorded: &RunRecord,
    named: &NamedBlocks,
) -> Result<bool, JournalError>
    ensures { IfOk result (IsRecovered device recorded.now.sealed.items recorded.now.acknowledged named.now) }
{
    match open_image(alloc, device.crash(&[])) {
        Ok(opened) => is_recovered(alloc, opened, recorded, named),
        Err(e) => unopened(e),
    }
}

/// False for an image that is not opened, unless memory ran out.
fn unopened(e: JournalError) -> Result<bool, JournalError>
    ensures refused { IfOk result (λ right. (e ≢ Device) × (e ≢ Memory)) }
    ensures wrong { IfOk result (λ right. right ≡ false) }
{
    match e {
        JournalError::Memory | JournalError::Device => Err(e),
        _ => Ok(false),
    }
}

/// Whether an opening recovered all acknowledged transactions, with each named block as they leave it.
fn is_recovered(
    alloc: Global,
    opened: OpenedImage,
    recorded: &RunRecord,
    named: &NamedBlocks,
) -> Result<bool, JournalError>
    ensures { IfOk result (λ right. IsTrue right ↔ IsRight recorded.now.sealed.items recorded.now.acknowledged named.now (numbered_below opened.report.ends_at recorded.now.sealed.items)
        opened.device.shape.block_size (reading (state_of opened.device).disk Home)) }
{
    let n = recorded.count_below(opened.report.ends_at);
    let mut device = opened.device;
    recorded.judge(alloc, &mut device, named, n)
}
