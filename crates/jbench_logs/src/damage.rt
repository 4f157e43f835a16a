//! The command `recover --before-damage`, over devices: opens a log even if a block is damaged or ahead.
ghost use Rattle.std.specs.Prelude.{◌≡◌, ◌≢◌, IfErr, IfOk, MatchResult};
ghost use Rattle.block_device.specs.State.{EachMoment};
ghost use Rattle.damaged_logs.specs.Before.{BeforeRefused, IsMomentBefore};
ghost use Rattle.jbench_words.specs.declared.fault.CommandStatus.TheVariants.{Fine, Refused};
ghost use Rattle.jbench_logs.specs.Done.{IsRecoveredBefore, IsRefusedBy, IsTakenBefore};

use crate::logs::{number_left, refuse, say_last, write_left};
use crate::objects::{begin_found, write_refusal};
use crate::watched::Watched;
use block_device::Device;
use jbench_words::fault::CommandStatus;
use jbench_words::watch::Watch;
use jbench_words::words::RecoverWords;
use journal_model::{JournalError, Tid};
use recovery::Report;
use std::alloc::Global;
use std::io;
use std::io::Write;

/// What was taken of a log.
#[derive(Drop)]
pub struct TakenLog {
    /// Which transactions were taken.
    pub report: Report,
    /// The next transaction's number.
    pub next: Tid,
    /// The refusal of a plain opening, if any.
    pub stopped_by: Option<JournalError>,
}

impl TakenLog {
    /// Whether the opening wrote the next number into the log.
    fn is_written(&self) -> bool {
        is_number_written(self.report, self.stopped_by)
    }
}

/// Whether an opening before damage writes the next number: the log was not clean, or something stopped it.
pub(crate) fn is_number_written(report: Report, stopped_by: Option<JournalError>) -> bool {
    !report.clean || stopped_by.is_some()
}

/// Opens a device's log as `recover` does, even if it is damaged or ahead. The complete transactions go home, of a damaged log those before
/// the damage, and the log is left clean. Prints the report, the transactions taken, and the refusal of a plain opening, as lines or as an
/// object. If the log is refused anyway, a line on `err` says why. `watch` learns of each read and write, and of their end before anything
/// is printed. The device comes back.
///
/// # Errors
///
/// The output could not be written.
pub(crate) fn recover_before_damage<D: Device + Drop, H: Watch + Drop, W: Write, E: Write + Drop>(
    alloc: Global,
    words: &RecoverWords<'_>,
    device: D,
    watch: H,
    out: &mut W,
    err: E,
) -> io::Result<(CommandStatus, D)>
    ensures recovered { IfOk result (λ done. done.0 ≡ Fine → D.honest done.1 → IsRecoveredBefore (D.state device) (D.state done.1)) }
    ensures refused { IfOk result (λ done. done.0 ≢ Fine → (done.0 ≡ Refused) × IsRefusedBy BeforeRefused D.state D.honest (D.state device) done.1) }
    // Whatever the answer: each moment is one of such an opening.
    ensures moments { IfOk result (λ done. D.honest done.1 → EachMoment (IsMomentBefore (D.state device).shape (D.state device).disk) (D.state device) (D.state done.1)) }
{
    let mut err = err;
    match open_watched(alloc, device, watch) {
        Ok((device, taken)) => {
            say_taken(words.json, &taken, out)?;
            say_last(taken.is_written(), taken.next, &mut err)?;
            Ok((CommandStatus::Fine, device))
        }
        Err((device, e)) => {
            let mut device = device;
            let status = refuse(alloc, words.paths.log, &mut device, e, &mut err)?;
            Ok((status, device))
        }
    }
}

/// Opens a device's log in spite of damage. `watch` learns of each read and write, then of their end.
fn open_watched<D: Device + Drop, H: Watch + Drop>(
    alloc: Global,
    device: D,
    watch: H,
) -> Result<(D, TakenLog), (D, JournalError)>
    ensures opened { IfOk result (λ opened. D.honest opened.0 → IsTakenBefore (D.state device) (D.state opened.0) opened.1) }
    ensures refused { IfErr result (λ e. BeforeRefused (D.honest e.0) (D.state device) (D.state e.0) e.1) }
    ensures moments { MatchResult result
        (λ opened. D.honest opened.0 → EachMoment (IsMomentBefore (D.state device).shape (D.state device).disk) (D.state device) (D.state opened.0))
        (λ e. D.honest e.0 → EachMoment (IsMomentBefore (D.state device).shape (D.state device).disk) (D.state device) (D.state e.0)) }
{
    match damaged_logs::open_before_damage(alloc, Watched::new(device, watch)) {
        Ok((opened, stopped_by)) => {
            let taken = TakenLog {
                report: opened.report(),
                next: opened.next(),
                stopped_by,
            };
            let (device, mut watch) = opened.into_device().into_parts();
            watch.ends();
            Ok((device, taken))
        }
        Err((device, e)) => {
            let (device, mut watch) = device.into_parts();
            watch.ends();
            Err((device, e))
        }
    }
}

/// Prints what was taken of a log, as lines or as an object.
fn say_taken<W: Write>(json: bool, taken: &TakenLog, out: &mut W) -> io::Result<()> {
    let (report, is_written) = (taken.report, taken.is_written());
    if json {
        begin_found(
            out,
            "recovered",
            report,
            number_left(is_written, taken.next),
        )?;
        write_stopped(report, taken.stopped_by, out)?;
        return writeln!(out, "}}");
    }
    write_left(report, is_written, taken.next, out)?;
    say_stopped(report, taken.stopped_by, out)
}

/// Writes the members that say the same as the line of `say_stopped`.
pub(crate) fn write_stopped<W: Write>(
    report: Report,
    stopped_by: Option<JournalError>,
    out: &mut W,
) -> io::Result<()> {
    let Some(e) = stopped_by else {
        return Ok(());
    };
    if report.transactions > 0 {
        let (first, last) = numbers_of(report);
        write!(out, ",\"first\":{first},\"last\":{last}")?;
    }
    write!(out, ",\"stopped_by\":")?;
    write_refusal(out, e)
}

/// The numbers of the first and the last transaction taken, if there are any.
fn numbers_of(report: Report) -> (u64, u64) {
    let first = report.ends_at.saturating_sub(report.transactions);
    (first, report.ends_at.saturating_sub(1))
}

/// Prints which transactions are taken of a log, and the refusal of a plain opening, if any.
pub(crate) fn say_stopped<W: Write>(
    report: Report,
    stopped_by: Option<JournalError>,
    out: &mut W,
) -> io::Result<()> {
    let Some(e) = stopped_by else {
        return Ok(());
    };
    if report.transactions == 0 {
        write!(out, "  no transactions")?;
    } else {
        let (first, last) = numbers_of(report);
        write!(out, "  transactions {first} to {last}")?;
    }
    writeln!(out, ", stopped by refusal {} {}", e.number(), e.name())
}
