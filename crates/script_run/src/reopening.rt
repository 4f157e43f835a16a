//! Opens an image over a device that stops at a write of the opening, opens the result again, and judges that.
ghost use Rattle.std.specs.Prelude.{◌≡◌, ◌↔◌, ◌<◌, All, IfErr, IfOk, IsTrue};
ghost use Rattle.std.specs.BTreeSet.{keys};
ghost use Rattle.journal_model.specs.declared.number.Area.TheVariants.{Home};
ghost use Rattle.journal_model.specs.declared.refusal.JournalError.TheVariants.{Device};
ghost use Rattle.journal_model.specs.Disk.{reading};
ghost use Rattle.log_model.specs.Opening.{numbered_below};
ghost use Rattle.block_device.specs.Memory.{state_of};
ghost use Rattle.script_run.specs.OpenedImages.{IsUnopened};
ghost use Rattle.script_run.specs.Reopening.{FollowsOn, IsAttempt, IsOpeningVerdict, IsSecondVerdict, IsStoppedAttempt, IsWholeAttempt};
ghost use Rattle.script_run.specs.Verdict.{IsRight};

use crate::limit::report_of;
use crate::opening::{
    OpenedImage, judge_home, judge_opened, open_image, write_opening, write_verdict,
};
use crate::verdict::RunRecord;
use block_device::{MemDevice, StopAt};
use journal_model::{JournalError, Tid};
use journal_script::NamedBlocks;
use recovery::{Report, open};
use script_client::Fault;
use std::alloc::Global;
use std::io::Write;

/// The result of an opening over a device that stops at one of its writes.
#[derive(Drop)]
pub enum Attempt {
    /// The opening ended before that write.
    Whole(OpenedImage),
    /// The device stopped; this is left of it, with its cache.
    Stopped(MemDevice),
}

/// Opens an image over a device that stops at write `k` of the opening, counted from 1, and keeps the unflushed writes of `keep`. Opens
/// that again, prints the stop, and does as `judge_reopened`; if the opening makes fewer writes, as `judge_opened`.
pub(crate) fn judge_stopped_opening(
    alloc: Global,
    image: MemDevice,
    k: u64,
    keep: &[u64],
    recorded: &RunRecord,
    named: &NamedBlocks,
    out: &mut impl Write,
) -> Result<bool, Fault>
    ensures { IfOk result (IsOpeningVerdict (state_of image) k keep.now recorded.now.sealed.items recorded.now.acknowledged named.now) }
{
    let mut image = image;
    let first = report_of(alloc, &mut image)?;
    match open_to(alloc, image, k)? {
        Attempt::Whole(opened) => judge_opened(alloc, opened, recorded, named, out),
        Attempt::Stopped(device) => {
            writeln!(out, "stopped again {k}")?;
            judge_second(alloc, device.crash(keep), first, recorded, named, out)
        }
    }
}

/// Opens an image over a device that stops at write `k` of the opening, counted from 1.
///
/// # Errors
///
/// Those of an opening that failed before that write.
pub fn open_to(alloc: Global, image: MemDevice, k: u64) -> Result<Attempt, JournalError>
    ensures attempt { IfOk result (IsAttempt (state_of image) k) }
    ensures err { IfErr result (IsUnopened image.shape (reading (state_of image).disk)) }
{
    match open(alloc, StopAt::new(image, k)) {
        Ok(opened) => {
            let (report, next) = (opened.report(), opened.next());
            whole(opened.into_device().into_inner(), report, next, k)
        }
        Err((device, e)) => stopped(device.into_inner(), k, e),
    }
}

fn whole(device: MemDevice, report: Report, next: Tid, k: u64) -> Result<Attempt, JournalError>
    ensures whole { IfOk result (IsWholeAttempt (record { device = device; report = report; next = next }) k) }
    ensures other { IfErr result (λ e. e ≡ Device) }
{
    if device.writes() < k {
        Ok(Attempt::Whole(OpenedImage {
            device,
            report,
            next,
        }))
    } else {
        // Not reached: a device that stops at write k never answers Ok to it.
        Err(JournalError::Device)
    }
}

/// A stopped opening, if write `k` was its last; else its error.
fn stopped(device: MemDevice, k: u64, e: JournalError) -> Result<Attempt, JournalError>
    ensures stopped { IfOk result (IsStoppedAttempt device k) }
    ensures before { IfErr result (λ same. same ≡ e) }
{
    if device.writes() == k {
        Ok(Attempt::Stopped(device))
    } else {
        Err(e)
    }
}

fn judge_second(
    alloc: Global,
    left: MemDevice,
    first: Report,
    recorded: &RunRecord,
    named: &NamedBlocks,
    out: &mut impl Write,
) -> Result<bool, Fault>
    ensures { IfOk result (IsSecondVerdict left.shape (reading (state_of left).disk) first.clean first.ends_at recorded.now.sealed.items recorded.now.acknowledged named.now) }
{
    let opened = open_image(alloc, left)?;
    judge_reopened(alloc, opened, first, recorded, named, out)
}

/// Prints what a second opening found, how the named home blocks begin, and the verdict, which is the answer. `first` is what the first
/// image's log held.
///
/// # Errors
///
/// Those of `judge_opened`.
pub fn judge_reopened(
    alloc: Global,
    opened: OpenedImage,
    first: Report,
    recorded: &RunRecord,
    named: &NamedBlocks,
    out: &mut impl Write,
) -> Result<bool, Fault>
    ensures { IfOk result (λ right. All (λ b. b < opened.device.shape.home_blocks) (keys named.now.blocks) × (IsTrue right ↔
        FollowsOn first.clean first.ends_at opened.report.clean opened.report.ends_at
        × IsRight recorded.now.sealed.items recorded.now.acknowledged named.now (numbered_below first.ends_at recorded.now.sealed.items)
        opened.device.shape.block_size (reading (state_of opened.device).disk Home))) }
{
    let n = recorded.count_below(first.ends_at);
    write_opening(out, "reopen", opened.report, opened.next, n)?;
    let mut device = opened.device;
    let right = judge_home(alloc, &mut device, recorded, named, n, out)?;
    let verdict = follows_on(first, opened.report) && right;
    write_verdict(out, verdict)?;
    Ok(verdict)
}

/// Whether a second opening found what a stop within the first can leave: the same end and state, or a clean log with the next number.
fn follows_on(first: Report, second: Report) -> bool
    ensures { IsTrue result ↔ FollowsOn first.clean first.ends_at second.clean second.ends_at }
{
    if first.clean == second.clean {
        second.ends_at == first.ends_at
    } else {
        second.clean && first.ends_at.checked_add(1) == Some(second.ends_at)
    }
}
