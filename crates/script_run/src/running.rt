//! Runs a script's operations over a device that stops or fails, crashes it, and judges what openings give back.
ghost use Rattle.std.specs.Prelude.{◌≡◌, ◌↔◌, ℕ, List, [], IfOk, IsTrue, true};
ghost use Rattle.std.specs.BTreeSet.{keys};
ghost use Rattle.journal_model.specs.declared.number.Area.{Area};
ghost use Rattle.block_device.specs.Memory.{crashed, state_of, writes_of};
ghost use Rattle.journal_script.specs.declared.script.Operation.{Operation};
ghost use Rattle.journal_script.specs.Named.{AreNamedBy};
ghost use Rattle.script_client.specs.Outcomes.{Writes};
ghost use Rattle.script_client.specs.Told.{IsLedTo, IsZeroHome};
ghost use Rattle.script_run.specs.Disks.{disk_behind, run_state};
ghost use Rattle.script_run.specs.Left.{HasRun, HasRunAnew, IsLeftVerdict, IsRunOf, IsStoppedBy, after_call};
ghost use Rattle.script_run.specs.Verdict.{IsVerdict};

use crate::disk::{NEVER, RunDevice, empty_log};
use crate::opening::judge_image;
use crate::reopening::judge_stopped_opening;
use crate::stops::{Stop, Stops};
use crate::verdict::RunRecord;
use block_device::MemDevice;
use journal_model::JournalError;
use journal_script::{NamedBlocks, Operation, Script};
use log_dump::dump;
use recovery::Opened;
use script_client::{AfterFailure, Fault, HomeFact, Performed, ZeroHome, perform};
use std::alloc::Global;
use std::io;
use std::io::Write;

/// A run whose device has stopped.
#[derive(Drop)]
pub struct StoppedRun {
    /// The device, with its cache.
    pub device: MemDevice,
    /// What the run recorded.
    pub recorded: RunRecord,
    /// The write at which the device stopped, if before the end.
    pub at_write: Option<u64>,
}

/// The crash image of a stopped run.
#[derive(Drop)]
pub struct CrashedRun {
    /// The device, with an empty cache.
    pub image: MemDevice,
    /// What the run recorded.
    pub recorded: RunRecord,
    /// The write at which the device stopped, if before the end.
    pub at_write: Option<u64>,
}

impl StoppedRun {
    /// Crashes the device: each block has its greatest unflushed write that `keep` names, else what was flushed last.
    pub fn crash(self, keep: &[u64]) -> CrashedRun
        ensures image { (a : Area) (n : ℕ) → (state_of result.image).disk a n ≡ record { reads = crashed keep.now self.device a n; others = [] } }
        ensures numbers { writes_of result.image.calls ≡ 0 }
        ensures shape { result.image.shape ≡ self.device.shape }
        ensures recorded { result.recorded ≡ self.recorded }
        ensures stop { result.at_write ≡ self.at_write }
    {
        let StoppedRun {
            device,
            recorded,
            at_write,
        } = self;
        CrashedRun {
            image: device.crash(keep),
            recorded,
            at_write,
        }
    }
}

/// Runs a script over a device in memory. Prints a line for each operation, the dump of the crash image, and the verdict on its openings,
/// which is the answer. Writes and calls are numbered from 1 after the format and the opening; writes of the later opening from 1 again.
/// After a call that is to fail the script goes on; else it ends at the first operation that the device refuses.
///
/// # Errors
///
/// `Fault::Refused`: memory ran out. `Fault::Output`: the output can't be written. Earlier lines may have been written.
pub fn run(
    alloc: Global,
    script: &Script,
    stops: &Stops<'_>,
    out: &mut impl Write,
) -> Result<bool, Fault>
    ensures run { IfOk result (IsRunOf script.now stops.now) }
    ensures right { IfOk result (λ right. right ≡ true) }
{
    let named = named_in(alloc, script)?;
    let stopped = run_operations(alloc, script, stops.run.at_write, stops.failing_call, out)?;
    let left = stopped.crash(stops.run.keep);
    judge_left(alloc, left, stops.opening, &named, out)
}

/// The blocks that a script names.
pub(crate) fn named_in(alloc: Global, script: &Script) -> Result<NamedBlocks, JournalError>
    ensures { IfOk result (AreNamedBy script.now) }
{
    Ok(script.named_blocks(alloc)?)
}

/// Runs a script's operations over a device in memory that stops at write `stop`, or at the end, and prints a line for each. After a
/// failure of call `failing_call` the operations go on.
///
/// # Errors
///
/// Those of `run`.
pub fn run_operations<W: Write>(
    alloc: Global,
    script: &Script,
    stop: Option<u64>,
    failing_call: Option<u64>,
    out: &mut W,
) -> Result<StoppedRun, Fault>
    ensures led { IfOk result (λ stopped. IsLedTo IsZeroHome script.now.operations.items (state_of stopped.device) stopped.recorded.sealed.items stopped.recorded.acknowledged) }
    ensures outcomes { IfOk result (λ stopped. Writes (W.contents out.old) (W.contents out.new)
        (HasRunAnew script.now stop failing_call stopped.device stopped.recorded.sealed.items stopped.recorded.acknowledged)) }
    ensures stop { IfOk result (λ stopped. IsStoppedBy stop stopped) }
{
    let after = after_failing(failing_call);
    let opened = empty_log(alloc, &script.measures, stop, failing_call)?;
    run_operations_over::<ZeroHome, _>(alloc, opened, &script.operations, after, stop, out)
}

fn after_failing(failing_call: Option<u64>) -> AfterFailure
    ensures { result ≡ after_call failing_call }
{
    match failing_call {
        Some(_) => AfterFailure::GoOn,
        None => AfterFailure::End,
    }
}

/// Runs operations on an opened log in memory, whose disk satisfies `H`, and prints a line for each. `stop` is the write at which the
/// device stops, if any.
///
/// # Errors
///
/// Those of `run`.
pub fn run_operations_over<H: HomeFact, W: Write>(
    alloc: Global,
    opened: Opened<RunDevice>,
    operations: &[Operation],
    after: AfterFailure,
    stop: Option<u64>,
    out: &mut W,
) -> Result<StoppedRun, Fault>
    requires { H.holds (run_state opened.device).shape (run_state opened.device).disk }
    ensures led { IfOk result (λ stopped. IsLedTo H.holds operations.now (state_of stopped.device) stopped.recorded.sealed.items stopped.recorded.acknowledged) }
    ensures outcomes { IfOk result (λ stopped. Writes (W.contents out.old) (W.contents out.new)
        (HasRun opened operations.now after stopped.device stopped.recorded.sealed.items stopped.recorded.acknowledged)) }
    ensures stop { IfOk result (λ stopped. IsStoppedBy stop stopped) }
{
    let performed = perform::<RunDevice, H, _>(alloc, opened, operations, after, out)?;
    let stopped = stopped_of::<H>(performed, stop);
    if is_stopped_by(stop, &stopped) {
        Ok(stopped)
    } else {
        // Not reached: the device stops at that write, and counts each.
        Err(Fault::Refused(JournalError::Device))
    }
}

fn stopped_of<H: HomeFact>(performed: Performed<RunDevice>, stop: Option<u64>) -> StoppedRun
    ensures led { (operations : List Operation) → IsLedTo H.holds operations (run_state performed.device) performed.sealed.items performed.acknowledged
        → IsLedTo H.holds operations (state_of result.device) result.recorded.sealed.items result.recorded.acknowledged }
    ensures behind { result.device ≡ disk_behind performed.device }
    ensures recorded { result.recorded ≡ record { sealed = performed.sealed; acknowledged = performed.acknowledged } }
{
    let device = performed.device.into_inner();
    StoppedRun {
        at_write: if device.is_stopped() { stop } else { None },
        device: device.into_inner(),
        recorded: RunRecord {
            sealed: performed.sealed,
            acknowledged: performed.acknowledged,
        },
    }
}

fn is_stopped_by(stop: Option<u64>, stopped: &StoppedRun) -> bool
    ensures { IsTrue result ↔ IsStoppedBy stop stopped.now }
{
    match (stop, stopped.at_write) {
        (Some(k), Some(at)) => at == k && stopped.device.writes() == k,
        (Some(k), None) => k == NEVER || stopped.device.writes() < k,
        (None, at_write) => at_write.is_none(),
    }
}

/// Crashes the device with the unflushed writes of `keep`, dumps and opens the image, and prints how the named home blocks begin and the
/// verdict, which is the answer.
///
/// # Errors
///
/// `Fault::Refused`: memory ran out, the image is refused, or home lacks a named block. `Fault::Output`: the output can't be written.
/// Earlier lines may have been written.
pub fn judge(
    alloc: Global,
    stopped: StoppedRun,
    keep: &[u64],
    named: &NamedBlocks,
    out: &mut impl Write,
) -> Result<bool, Fault>
    ensures { IfOk result (IsVerdict stopped.device keep.now stopped.recorded.sealed.items stopped.recorded.acknowledged named.now) }
{
    let none = Stop {
        at_write: None,
        keep: &[],
    };
    judge_left(alloc, stopped.crash(keep), none, named, out)
}

/// Dumps a crash image and opens it; if the opening makes the write that `opening` names, the device stops there, and what that leaves is
/// opened again. Prints how the named home blocks begin after the last opening, and the verdict, which is the answer.
///
/// # Errors
///
/// Those of `judge`.
pub fn judge_left(
    alloc: Global,
    left: CrashedRun,
    opening: Stop<'_>,
    named: &NamedBlocks,
    out: &mut impl Write,
) -> Result<bool, Fault>
    ensures { IfOk result (IsLeftVerdict left.image opening.entry left.recorded.sealed.items left.recorded.acknowledged named.now) }
{
    write_stop(out, left.at_write)?;
    let mut image = left.image;
    match dump(alloc, &mut image, out) {
        Ok(()) => {}
        Err(fault) => return Err(of_dump(fault)),
    }
    match opening.at_write {
        Some(k) => judge_stopped_opening(alloc, image, k, opening.keep, &left.recorded, named, out),
        None => judge_image(alloc, image, &left.recorded, named, out),
    }
}

fn of_dump(fault: log_dump::Fault) -> Fault {
    match fault {
        log_dump::Fault::Refused(e) => Fault::Refused(e),
        log_dump::Fault::Output(e) => Fault::Output(e),
    }
}

fn write_stop(out: &mut impl Write, at_write: Option<u64>) -> io::Result<()> {
    match at_write {
        Some(k) => writeln!(out, "stopped {k}"),
        None => writeln!(out, "stopped at end"),
    }
}
