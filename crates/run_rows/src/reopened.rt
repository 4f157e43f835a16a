//! Rows of devices that are opened again after a failed call, without a crash.
use crate::endings::{
    InterruptedScript, RunEnding, endings_text, given_of, in_one_line, kept, note,
};
use crate::journals::Runner;
use crate::texts::{numbers_in, written};
use block_device::{MemDevice, StopAt};
use journal_model::JournalError;
use journal_script::NamedBlocks;
use log_rows::RowError;
use log_rows::words::cut;
use recovery::{Opened, Report, open};
use script_run::{Fault, OpenedImage, StoppedRun, judge_opened, judge_reopened, open_image};
use std::alloc::Global;

/// Opens the device of a run with a failed call as it is, without a crash: it reads all that was written. That opening stops at each write,
/// and its crash image is opened again. Given: a line like `call 8 fails`, one like `openings that stop at writes 1 to 4, any of the last 4
/// writes kept`, and a script. Found: as for `stops`, for the last opening.
pub fn reopened_devices<J: Runner>(
    alloc: Global,
    journal: &J,
    given: &str,
) -> Result<String, RowError> {
    let (line, given) = cut(given, "\n")?;
    let [call] = numbers_in::<1>(line)?;
    let given = given_of(alloc, given)?;
    let failed = failed_of(alloc, journal, &given, call)?;
    let mut endings = Vec::new(alloc);
    for k in given.first..=given.last {
        add_stops(alloc, &given, &failed, k, &mut endings)?;
    }
    Ok(endings_text(alloc, &endings, "stops")?)
}

/// A run with a failed call.
#[derive(Drop)]
struct FailedRun {
    /// Its device has not crashed.
    run: StoppedRun,
    /// The blocks that the script names.
    named: NamedBlocks,
    /// The report of an opening of the device.
    first: Report,
}

fn failed_of<J: Runner>(
    alloc: Global,
    journal: &J,
    given: &InterruptedScript,
    call: u64,
) -> Result<FailedRun, RowError> {
    let named = given.script.named_blocks(alloc)?;
    let Ok(run) = journal.run_operations(
        alloc,
        &given.script,
        None,
        Some(call),
        &mut Vec::new(alloc),
    ) else {
        return Err(RowError::Memory);
    };
    let Ok(opened) = open(alloc, run.device.try_clone()?) else {
        return Err(RowError::Unread);
    };
    let first = opened.report();
    Ok(FailedRun { run, named, first })
}

/// Adds the endings of openings that stop at write `k`, for each choice of the last writes.
fn add_stops(
    alloc: Global,
    given: &InterruptedScript,
    failed: &FailedRun,
    k: u64,
    endings: &mut Vec<RunEnding>,
) -> Result<(), RowError> {
    let last = failed.run.device.writes().saturating_add(k);
    for bits in 0..given.choices {
        let kept = kept(alloc, last, bits)?;
        add_stop(alloc, failed, k, &kept, endings)?;
    }
    Ok(())
}

fn add_stop(
    alloc: Global,
    failed: &FailedRun,
    k: u64,
    kept: &[u64],
    endings: &mut Vec<RunEnding>,
) -> Result<(), RowError> {
    let mut out = Vec::new(alloc);
    let device = StopAt::new(failed.run.device.try_clone()?, k);
    let right = match open(alloc, device) {
        Ok(opened) => judge_whole(alloc, failed, opened, &mut out)?,
        Err((device, _)) => judge_left(alloc, failed, device.into_inner().crash(kept), &mut out)?,
    };
    let lines = in_one_line(alloc, written(&out)?)?;
    let text = format!(in alloc; "{lines}, right {right}")?;
    Ok(note(alloc, endings, text, Some(k))?)
}

fn judge_whole(
    alloc: Global,
    failed: &FailedRun,
    opened: Opened<StopAt<MemDevice>>,
    out: &mut Vec<u8>,
) -> Result<bool, RowError> {
    let opened = OpenedImage {
        report: opened.report(),
        next: opened.next(),
        device: opened.into_device().into_inner(),
    };
    let recorded = &failed.run.recorded;
    right_of(judge_opened(alloc, opened, recorded, &failed.named, out))
}

fn judge_left(
    alloc: Global,
    failed: &FailedRun,
    image: MemDevice,
    out: &mut Vec<u8>,
) -> Result<bool, RowError> {
    let Ok(opened) = open_image(alloc, image) else {
        return Err(RowError::Unread);
    };
    let recorded = &failed.run.recorded;
    right_of(judge_reopened(alloc, opened, failed.first, recorded, &failed.named, out))
}

fn right_of(verdict: Result<bool, Fault>) -> Result<bool, RowError> {
    match verdict {
        Ok(right) => Ok(right),
        Err(Fault::Refused(JournalError::Memory)) => Err(RowError::Memory),
        Err(_) => Err(RowError::Unread),
    }
}
