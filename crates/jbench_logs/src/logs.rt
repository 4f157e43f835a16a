//! The commands `format`, `dump`, `recover` and `upgrade`, over devices.
ghost use Rattle.std.specs.Prelude.{◌≡◌, ◌≢◌, ◌&&◌, not, nat_lt, IfErr, IfOk, IsOk, MatchResult, OnOk};
ghost use Rattle.std.specs.Io.KnownBytes.{Appends};
ghost use Rattle.journal_model.specs.Disk.{reading};
ghost use Rattle.log_model.specs.Opening.{greatest_number};
ghost use Rattle.block_device.specs.Call.{OnlyReads};
ghost use Rattle.block_device.specs.State.{EachMoment, Stays};
ghost use Rattle.log_dump.specs.Dumping.{HasDump, shape_of};
ghost use Rattle.log_epochs.specs.OpeningRun.{IsMoment};
ghost use Rattle.log_epochs.specs.UpgradeRun.{IsUpgradeMoment};
ghost use Rattle.recovery.specs.Opening.{OpeningRefused};
ghost use Rattle.jbench_words.specs.declared.fault.CommandStatus.TheVariants.{Fine, Refused};
ghost use Rattle.jbench_logs.specs.Done.{HasUpgraded, IsMade, IsMakeMoment, IsOpeningTold, IsRecovered, IsRefusedBy, IsUpgradeLeft, SaysOpened};
ghost use Rattle.jbench_logs.specs.Said.{left_line, none_line, number_left, opened_line, recovered_line, recovered_object, recovered_text};

use crate::objects::begin_found;
use crate::reasons::say_why;
use crate::watched::Watched;
use block_device::Device;
use jbench_words::fault::{self, CommandStatus, Fault};
use jbench_words::watch::Watch;
use jbench_words::words::RecoverWords;
use journal_model::layout::GREATEST_NUMBER;
use journal_model::{Area, JournalError, Tid};
use journal_script::Measures;
use recovery::Report;
use std::alloc::Global;
use std::io;
use std::io::{BufWriter, Write};

/// Makes an empty log on a device of these measures, makes home durable as it reads, and prints the result. `path` names the log's file. A
/// line on `err` says why it cannot go on.
///
/// # Errors
///
/// The output could not be written.
pub fn format<D: Device, W: Write + Drop, E: Write + Drop>(
    path: &str,
    measures: &Measures,
    device: &mut D,
    out: W,
    err: E,
) -> io::Result<CommandStatus>
    ensures made { IfOk result (λ status. status ≡ Fine → IsMade measures.now.log_blocks measures.now.uuid measures.now.wide (D.state device.old) (D.state device.new)) }
    ensures other { IfOk result (λ status. status ≢ Fine → status ≡ Refused) }
    // Whatever the answer: home stays as it reads, and may become durable.
    ensures moments { EachMoment (IsMakeMoment (D.state device.old).shape measures.now.log_blocks measures.now.uuid measures.now.wide (D.state device.old).disk) (D.state device.old) (D.state device.new) }
{
    match make_log(measures, device) {
        Ok(()) => end(path, say_made(measures, out), err),
        Err(fault) => end(path, Err(fault), err),
    }
}

/// Makes an empty log, then makes home durable.
fn make_log<D: Device>(measures: &Measures, device: &mut D) -> Result<(), Fault>
    ensures made { OnOk result (IsMade measures.now.log_blocks measures.now.uuid measures.now.wide (D.state device.old) (D.state device.new)) }
    ensures moments { EachMoment (IsMakeMoment (D.state device.old).shape measures.now.log_blocks measures.now.uuid measures.now.wide (D.state device.old).disk) (D.state device.old) (D.state device.new) }
{
    recovery::format(device, measures.log_blocks, &measures.uuid, measures.wide)?;
    match device.flush(Area::Home) {
        Ok(()) => Ok(()),
        Err(e) => Err(Fault::Refused(e.into())),
    }
}

fn say_made<W: Write + Drop>(measures: &Measures, mut out: W) -> Result<(), Fault> {
    writeln!(
        out,
        "formatted {} blocks of {}",
        measures.log_blocks, measures.block_size
    )
    .map_err(Fault::from)
}

/// Prints a device's log. `path` names its file. Lines on `err` say why the log is refused.
///
/// # Errors
///
/// The output could not be written.
pub fn dump<D: Device, W: Write + Drop, E: Write + Drop>(
    alloc: Global,
    path: &str,
    device: &mut D,
    out: W,
    err: E,
) -> io::Result<CommandStatus>
    ensures dumped { IfOk result (λ status. status ≡ Fine → D.honest device.new → HasDump (shape_of (D.state device.old)) (reading (D.state device.old).disk)) }
    ensures other { IfOk result (λ status. status ≢ Fine → status ≡ Refused) }
    ensures stays { Stays (D.state device.old) (D.state device.new) }
{
    let mut err = err;
    match dump_device(alloc, device, out) {
        Ok(()) => Ok(CommandStatus::Fine),
        Err(fault) => refuse_fault(alloc, path, device, fault, &mut err),
    }
}

/// Prints a device's log.
fn dump_device<D: Device, W: Write + Drop>(
    alloc: Global,
    device: &mut D,
    out: W,
) -> Result<(), Fault>
    ensures dumped { OnOk result (D.honest device.new → HasDump (shape_of (D.state device.old)) (reading (D.state device.old).disk)) }
    ensures stays { Stays (D.state device.old) (D.state device.new) }
{
    let mut out = BufWriter::new(alloc, out)?;
    log_dump::dump(alloc, device, &mut out)?;
    out.flush()?;
    Ok(())
}

/// Opens a device's log: its complete transactions go home, it is left clean, and the report is printed, as a line or as an object. Lines on
/// `err` say why it is refused, also for a home area that is too short. `watch` learns of each read and write, and of their end before
/// anything is printed. The device comes back.
///
/// # Errors
///
/// The output could not be written.
pub(crate) fn recover<D: Device + Drop, H: Watch + Drop, W: Write, E: Write + Drop>(
    alloc: Global,
    words: &RecoverWords<'_>,
    device: D,
    watch: H,
    out: &mut W,
    err: E,
) -> io::Result<(CommandStatus, D)>
    ensures recovered { IfOk result (λ done. done.0 ≡ Fine → D.honest done.1 → IsRecovered (D.state device) (D.state done.1)) }
    ensures says { IfOk result (λ done. done.0 ≡ Fine → SaysOpened words.now.json (D.honest done.1) (D.state device) (D.state done.1) (W.contents out.old) (W.contents out.new)) }
    ensures refused { IfOk result (λ done. done.0 ≢ Fine → (done.0 ≡ Refused) × IsRefusedBy OpeningRefused D.state D.honest (D.state device) done.1) }
    // Whatever the answer: each moment is one of an opening.
    ensures moments { IfOk result (λ done. D.honest done.1 → EachMoment (IsMoment (D.state device).shape (D.state device).disk) (D.state device) (D.state done.1)) }
{
    let mut err = err;
    match open_watched(alloc, device, watch) {
        Ok((device, report, next)) => {
            say_recovered(words.json, report, next, out)?;
            say_last(!report.clean, next, &mut err)?;
            Ok((CommandStatus::Fine, device))
        }
        Err((device, e)) => {
            let mut device = device;
            let status = refuse(alloc, words.paths.log, &mut device, e, &mut err)?;
            Ok((status, device))
        }
    }
}

/// Opens a device's log. `watch` learns of each read and write, then of their end.
fn open_watched<D: Device + Drop, H: Watch + Drop>(
    alloc: Global,
    device: D,
    watch: H,
) -> Result<(D, Report, Tid), (D, JournalError)>
    ensures opened { IfOk result (λ opened. D.honest opened.0 → IsRecovered (D.state device) (D.state opened.0)) }
    ensures tells { IfOk result (λ opened. D.honest opened.0 →
        IsOpeningTold (D.state device) (D.state opened.0) opened.1.clean opened.1.ends_at opened.1.transactions opened.2) }
    ensures refused { IfErr result (λ e. OpeningRefused (D.honest e.0) (D.state device) (D.state e.0) e.1) }
    ensures moments { MatchResult result
        (λ opened. D.honest opened.0 → EachMoment (IsMoment (D.state device).shape (D.state device).disk) (D.state device) (D.state opened.0))
        (λ e. D.honest e.0 → EachMoment (IsMoment (D.state device).shape (D.state device).disk) (D.state device) (D.state e.0)) }
{
    match recovery::open(alloc, Watched::new(device, watch)) {
        Ok(opened) => {
            let (report, next) = (opened.report(), opened.next());
            let (device, mut watch) = opened.into_device().into_parts();
            watch.ends();
            Ok((device, report, next))
        }
        Err((device, e)) => {
            let (device, mut watch) = device.into_parts();
            watch.ends();
            Err((device, e))
        }
    }
}

/// Gives a device's empty log 64-bit block numbers, and prints its sequence. `path` names its file. A line on `err` says why it is refused.
///
/// # Errors
///
/// The output could not be written.
pub fn upgrade<D: Device, W: Write + Drop, E: Write + Drop>(
    alloc: Global,
    path: &str,
    device: &mut D,
    out: W,
    err: E,
) -> io::Result<CommandStatus>
    ensures upgraded { IfOk result (λ status. status ≡ Fine → D.honest device.new → HasUpgraded (D.state device.old) (D.state device.new)) }
    ensures other { IfOk result (λ status. status ≢ Fine → status ≡ Refused) }
    // Whatever the answer: nothing else was written, and only in this order.
    ensures left { D.honest device.new → IsUpgradeLeft (D.state device.old) (D.state device.new) }
    ensures moments { D.honest device.new → EachMoment (IsUpgradeMoment (D.state device.old).shape (D.state device.old).disk) (D.state device.old) (D.state device.new) }
{
    end(path, upgrade_device(alloc, device, out), err)
}

/// Gives a device's empty log 64-bit block numbers, and prints that.
fn upgrade_device<D: Device, W: Write + Drop>(
    alloc: Global,
    device: &mut D,
    out: W,
) -> Result<(), Fault>
    ensures upgraded { OnOk result (D.honest device.new → HasUpgraded (D.state device.old) (D.state device.new)) }
    ensures left { D.honest device.new → IsUpgradeLeft (D.state device.old) (D.state device.new) }
    ensures moments { D.honest device.new → EachMoment (IsUpgradeMoment (D.state device.old).shape (D.state device.old).disk) (D.state device.old) (D.state device.new) }
{
    let mut out = out;
    let sequence = recovery::upgrade(alloc, device)?;
    writeln!(out, "upgraded sequence={sequence}")?;
    Ok(())
}

/// Prints why a device's log is refused, and answers `Refused`. `path` names its file.
///
/// # Errors
///
/// The lines could not be written.
pub fn refuse<D: Device>(
    alloc: Global,
    path: &str,
    device: &mut D,
    e: JournalError,
    err: &mut impl Write,
) -> io::Result<CommandStatus>
    ensures refused { IfOk result (λ status. status ≡ Refused) }
    ensures device { OnlyReads D.state D.honest device.old device.new }
{
    let status = fault::refuse(err, path, &Fault::Refused(e))?;
    say_why(alloc, device, e, err)?;
    Ok(status)
}

/// Prints why a command on a device's log cannot go on, and answers `Refused`. `path` names its file.
///
/// # Errors
///
/// The fault is one of output, or the lines could not be written.
pub fn refuse_fault<D: Device>(
    alloc: Global,
    path: &str,
    device: &mut D,
    fault: Fault,
    err: &mut impl Write,
) -> io::Result<CommandStatus>
    ensures refused { IfOk result (λ status. status ≡ Refused) }
    ensures device { OnlyReads D.state D.honest device.old device.new }
{
    match fault {
        Fault::Output(e) => Err(e),
        Fault::Refused(e) => refuse(alloc, path, device, e, err),
        fault => fault::refuse(err, path, &fault),
    }
}

/// Prints an opening's report and next number.
pub fn say_opened<W: Write>(report: Report, next: Tid, out: &mut W) -> Result<(), Fault>
    ensures { OnOk result (Appends (W.contents out.old) (W.contents out.new) (opened_line report.clean report.ends_at report.transactions next)) }
{
    write_opened(report, next, out)?;
    Ok(())
}

/// Writes the report of `recover`, whose log stays for a later opening, as a line or as an object.
fn say_recovered<W: Write>(json: bool, report: Report, next: Tid, out: &mut W) -> io::Result<()>
    ensures { OnOk result (Appends (W.contents out.old) (W.contents out.new) (recovered_text json report.clean report.ends_at report.transactions next)) }
{
    if json {
        write_object(report, next, out)
    } else {
        write_recovered(report, next, out)
    }
}

/// Writes the object of `recover`, and a newline.
fn write_object<W: Write>(report: Report, next: Tid, out: &mut W) -> io::Result<()>
    ensures { OnOk result (Appends (W.contents out.old) (W.contents out.new) (recovered_object report.clean report.ends_at report.transactions next)) }
{
    begin_found(out, "recovered", report, number_left(!report.clean, next))?;
    writeln!(out, "}}")
}

/// Writes the line of `recover`, whose log stays for a later opening.
fn write_recovered<W: Write>(report: Report, next: Tid, out: &mut W) -> io::Result<()>
    ensures { OnOk result (Appends (W.contents out.old) (W.contents out.new) (recovered_line report.clean report.ends_at report.transactions next)) }
{
    if report.clean {
        write_left(report, false, next, out)
    } else {
        write_left(report, true, next, out)
    }
}

/// Writes the line of an opening whose log stays for a later one; `is_written`: it wrote the next number into the log.
pub(crate) fn write_left<W: Write>(
    report: Report,
    is_written: bool,
    next: Tid,
    out: &mut W,
) -> io::Result<()>
    ensures { OnOk result (Appends (W.contents out.old) (W.contents out.new) (left_line report.clean is_written report.ends_at report.transactions next)) }
{
    if is_last(is_written, next) {
        write_none(report, out)
    } else {
        write_opened(report, next, out)
    }
}

/// Writes the line of an opening that leaves no number.
fn write_none<W: Write>(report: Report, out: &mut W) -> io::Result<()>
    ensures { OnOk result (Appends (W.contents out.old) (W.contents out.new) (none_line report.clean report.ends_at report.transactions)) }
{
    if report.clean {
        writeln!(out, "clean next=none")
    } else {
        writeln!(
            out,
            "recovered end={} next=none transactions={}",
            report.ends_at, report.transactions
        )
    }
}

/// Whether the next opening finds no number above this one, written into the log or not.
pub(crate) fn is_last(is_written: bool, next: Tid) -> bool
    ensures { result ≡ (is_written && not (nat_lt next greatest_number)) }
{
    is_written && next.0 >= GREATEST_NUMBER
}

/// The next transaction's number, if the next opening finds one above it.
pub(crate) fn number_left(is_written: bool, next: Tid) -> Option<Tid>
    ensures { result ≡ number_left is_written next }
{
    if is_last(is_written, next) {
        None
    } else {
        Some(next)
    }
}

/// Says what to do if the next opening finds no number above this one.
pub(crate) fn say_last(is_written: bool, next: Tid, err: &mut impl Write) -> io::Result<()> {
    if is_last(is_written, next) {
        writeln!(
            err,
            "jbench: no transaction number is left in this log, which is clean: make a new one beside the same home, by jbench format LOG HOME --keep-home"
        )
    } else {
        Ok(())
    }
}

/// Writes an opening's line.
pub(crate) fn write_opened<W: Write>(report: Report, next: Tid, out: &mut W) -> io::Result<()>
    ensures { OnOk result (Appends (W.contents out.old) (W.contents out.new) (opened_line report.clean report.ends_at report.transactions next)) }
{
    if report.clean {
        writeln!(out, "clean next={}", next.0)
    } else {
        writeln!(
            out,
            "recovered end={} next={} transactions={}",
            report.ends_at, next.0, report.transactions
        )
    }
}

/// A command's status; writes why it could not go on.
pub(crate) fn end<E: Write + Drop>(
    path: &str,
    done: Result<(), Fault>,
    mut err: E,
) -> io::Result<CommandStatus>
    ensures fine { IfOk result (λ status. status ≡ Fine → IsOk done) }
    ensures other { IfOk result (λ status. status ≢ Fine → status ≡ Refused) }
{
    match done {
        Ok(()) => Ok(CommandStatus::Fine),
        Err(Fault::Output(e)) => Err(e),
        Err(fault) => fault::refuse(&mut err, path, &fault),
    }
}
