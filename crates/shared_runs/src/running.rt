//! Runs scripts over a shared journal, as `script_run` does over the journal of one thread.
ghost use Rattle.std.specs.Prelude.{◌≡◌, true};

use crate::interpreter::SharedInterpreter;
use crate::outcome::{SharedOutcome, write_line};
use block_device::Device;
use journal_model::{JournalError, Sealed, Tid};
use journal_script::{NamedBlocks, Operation, Script};
use recovery::Opened;
use script_run::{
    AfterFailure, Fault, RunDevice, RunRecord, StoppedRun, Stops, empty_log, judge_copied,
    judge_left,
};
use shared_journal::{Journal, JournalName, Seat, UnnamedJournal, create};
use std::alloc::Global;
use std::marker::Brand;
use std::sync::Wait;

/// The device and the record after the operations.
#[derive(Drop)]
struct FinishedRun {
    device: RunDevice,
    recorded: RunRecord,
}

/// Runs a script, prints its lines, the crash image's dump and the verdict on its openings, and answers the verdict.
///
/// # Errors
///
/// Those of `script_run::run`.
pub fn run<R: Wait>(
    rt: &R,
    alloc: Global,
    script: &Script,
    stops: &Stops<'_>,
    out: &mut Vec<u8>,
) -> Result<bool, Fault> {
    let stopped = run_operations(
        rt,
        alloc,
        script,
        stops.run.at_write,
        stops.failing_call,
        out,
    )?;
    let named = named_in(alloc, script)?;
    judge_left(
        alloc,
        stopped.crash(stops.run.keep),
        stops.opening,
        &named,
        out,
    )
}

/// As `run`, and copies the crash image to a device before it is opened.
///
/// # Errors
///
/// Those of `script_run::run_copied`.
pub fn run_copied<D: Device, R: Wait>(
    rt: &R,
    alloc: Global,
    script: &Script,
    stops: &Stops<'_>,
    to: &mut D,
    out: &mut Vec<u8>,
) -> Result<bool, Fault> {
    let stopped = run_operations(
        rt,
        alloc,
        script,
        stops.run.at_write,
        stops.failing_call,
        out,
    )?;
    let named = named_in(alloc, script)?;
    let left = stopped.crash(stops.run.keep);
    judge_copied(alloc, left, to, stops.opening, &named, out)
}

fn named_in(alloc: Global, script: &Script) -> Result<NamedBlocks, JournalError> {
    Ok(script.named_blocks(alloc)?)
}

/// Runs a script's operations on an empty log, and prints a line for each. The device stops at write `stop`, else at the end. If
/// `failing_call` is given, that call fails.
///
/// # Errors
///
/// Those of `script_run::run_operations`.
pub fn run_operations<R: Wait>(
    rt: &R,
    alloc: Global,
    script: &Script,
    stop: Option<u64>,
    failing_call: Option<u64>,
    out: &mut Vec<u8>,
) -> Result<StoppedRun, Fault> {
    let after = match failing_call {
        Some(_) => AfterFailure::GoOn,
        None => AfterFailure::End,
    };
    let opened = empty_log(alloc, &script.measures, stop, failing_call)?;
    run_operations_over(rt, alloc, opened, &script.operations, after, stop, out)
}

/// Runs operations on an opened log, and prints a line for each.
///
/// # Errors
///
/// Those of `script_run::run_operations_over`.
pub fn run_operations_over<R: Wait>(
    rt: &R,
    alloc: Global,
    opened: Opened<RunDevice>,
    operations: &[Operation],
    after: AfterFailure,
    stop: Option<u64>,
    out: &mut Vec<u8>,
) -> Result<StoppedRun, Fault> {
    let done = done_on(rt, alloc, opened, operations, after, out)?;
    let device = done.device.into_inner();
    Ok(StoppedRun {
        at_write: if device.is_stopped() { stop } else { None },
        device: device.into_inner(),
        recorded: done.recorded,
    })
}

/// The number of device calls of a script's operations, without a stop or a failure.
///
/// # Errors
///
/// Those of a run.
pub fn calls_of_run<R: Wait>(rt: &R, alloc: Global, script: &Script) -> Result<u64, Fault> {
    let opened = empty_log(alloc, &script.measures, None, None)?;
    let mut out = Vec::new(alloc);
    let operations = &script.operations;
    let done = done_on(rt, alloc, opened, operations, AfterFailure::End, &mut out)?;
    Ok(done.device.calls())
}

/// Performs operations with a new journal on an opened log. The journal ends without a close.
fn done_on<R: Wait>(
    rt: &R,
    alloc: Global,
    opened: Opened<RunDevice>,
    operations: &[Operation],
    after: AfterFailure,
    out: &mut Vec<u8>,
) -> Result<FinishedRun, Fault> {
    match create(alloc, opened) {
        Ok(unnamed) => {
            let unnamed = unnamed.with_direct_writes();
            done_by::<Brand, R>(rt, alloc, unnamed, operations, after, out)
        }
        Err((_, e)) => Err(Fault::Refused(e)),
    }
}

fn done_by<J: JournalName, R: Wait>(
    rt: &R,
    alloc: Global,
    unnamed: UnnamedJournal<RunDevice, Vec<Sealed>>,
    operations: &[Operation],
    after: AfterFailure,
    out: &mut Vec<u8>,
) -> Result<FinishedRun, Fault>
    requires name { unnamed.name ≡ J.name }
    requires direct { unnamed.name.direct ≡ true }
{
    let (journal, seat) = unnamed.named::<J>();
    let shown = perform(rt, alloc, &journal, seat, operations, after, out);
    let parts = journal.into_single().into_parts();
    Ok(FinishedRun {
        device: parts.device,
        recorded: RunRecord {
            sealed: parts.sealed,
            acknowledged: shown?,
        },
    })
}

/// Performs operations, prints a line for each, and stops the open handles. It returns the greatest acknowledged transaction.
fn perform<J: JournalName, R: Wait>(
    rt: &R,
    alloc: Global,
    journal: &Journal<J, RunDevice, Vec<Sealed>>,
    seat: Seat<J>,
    operations: &[Operation],
    after: AfterFailure,
    out: &mut Vec<u8>,
) -> Result<Option<Tid>, Fault>
    requires { J.name.direct ≡ true }
{
    let mut interpreter = SharedInterpreter::new(rt, alloc, journal, seat, operations)?;
    let performed = perform_all(&mut interpreter, operations, after, out);
    let shown = interpreter.finish();
    match performed {
        Ok(()) => Ok(shown),
        Err(fault) => Err(fault),
    }
}

/// Performs operations and prints a line for each, up to the one that ends the list.
fn perform_all<J: JournalName, R: Wait>(
    interpreter: &mut SharedInterpreter<'_, J, R>,
    operations: &[Operation],
    after: AfterFailure,
    out: &mut Vec<u8>,
) -> Result<(), Fault> {
    for operation in operations {
        let outcome = interpreter.perform(operation);
        write_line(operation, &outcome, out)?;
        if is_last(&outcome, after) {
            return Ok(());
        }
    }
    Ok(())
}

fn is_last(outcome: &SharedOutcome, after: AfterFailure) -> bool {
    after == AfterFailure::End && matches!(outcome, SharedOutcome::Refused(JournalError::Device))
}
