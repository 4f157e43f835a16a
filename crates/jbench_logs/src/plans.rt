//! The command `recover --dry-run`, over devices: says what an opening would do.
ghost use Rattle.std.specs.Prelude.{◌≡◌, ◌≢◌, IfErr, IfOk, true, false};
ghost use Rattle.block_device.specs.Call.{OnlyReads};
ghost use Rattle.block_device.specs.State.{Stays};
ghost use Rattle.jbench_words.specs.declared.fault.CommandStatus.TheVariants.{Fine, Refused};
ghost use Rattle.jbench_logs.specs.Done.{IsFoundOut, IsPlanOf, IsRefusalOf, IsRefusedBy};

use crate::damage::{is_number_written, say_stopped, write_stopped};
use crate::logs::{is_last, number_left, refuse, say_last};
use crate::objects::{begin_found, write_lines};
use crate::reasons::say_why;
use crate::watched::Watched;
use block_device::Device;
use damaged_logs::plan_before_damage;
use jbench_words::fault::CommandStatus;
use jbench_words::watch::Watch;
use jbench_words::words::RecoverWords;
use journal_model::JournalError;
use recovery::{Plan, plan_opening};
use std::alloc::Global;
use std::io;
use std::io::Write;

/// What an opening would do.
#[derive(Drop)]
pub struct Planned {
    /// Its report, home blocks and next number.
    pub plan: Plan,
    /// The refusal of a plain opening, if any.
    pub stopped_by: Option<JournalError>,
}

impl Planned {
    /// Whether the opening would write the next number into the log.
    fn writes_number(&self) -> bool {
        is_number_written(self.plan.report, self.stopped_by)
    }
}

/// Prints what `recover` with these words would do to a device's log, and the count of home blocks that it would write. A line on `err`
/// says why the log is refused. `watch` learns of each read, and of their end before anything is printed. The device comes back.
///
/// # Errors
///
/// The output could not be written.
pub(crate) fn plan<D: Device + Drop, H: Watch + Drop, W: Write, E: Write + Drop>(
    alloc: Global,
    words: &RecoverWords<'_>,
    device: D,
    watch: H,
    out: &mut W,
    err: E,
) -> io::Result<(CommandStatus, D)>
    ensures stays { IfOk result (λ done. Stays (D.state device) (D.state done.1)) }
    ensures planned { IfOk result (λ done. done.0 ≡ Fine → D.honest done.1 → IsFoundOut words.now.before_damage (D.state device)) }
    ensures refused { IfOk result (λ done. done.0 ≢ Fine → (done.0 ≡ Refused) × IsRefusedBy (IsRefusalOf words.now.before_damage) D.state D.honest (D.state device) done.1) }
{
    let mut err = err;
    let path = words.paths.log;
    let (device, planned) = plan_watched(alloc, words.before_damage, device, watch);
    let mut device = device;
    match planned {
        Ok(planned) => {
            say_plan(alloc, words.json, &mut device, &planned, out)?;
            say_last(planned.writes_number(), planned.plan.next, &mut err)?;
            Ok((CommandStatus::Fine, device))
        }
        Err(e) => {
            let status = refuse(alloc, path, &mut device, e, &mut err)?;
            Ok((status, device))
        }
    }
}

/// Finds out what an opening would do. `watch` learns of each read, then of their end.
fn plan_watched<D: Device + Drop, H: Watch + Drop>(
    alloc: Global,
    before_damage: bool,
    device: D,
    watch: H,
) -> (D, Result<Planned, JournalError>)
    ensures stays { Stays (D.state device) (D.state result.0) }
    ensures planned { IfOk result.1 (λ planned. D.honest result.0 → IsPlanOf before_damage (D.state device) planned) }
    ensures refused { IfErr result.1 (IsRefusalOf before_damage (D.honest result.0) (D.state device) (D.state result.0)) }
{
    let mut watched = Watched::new(device, watch);
    let planned = plan_of(alloc, before_damage, &mut watched);
    let (device, mut watch) = watched.into_parts();
    watch.ends();
    (device, planned)
}

/// What an opening would do to a device's log.
fn plan_of<D: Device>(
    alloc: Global,
    before_damage: bool,
    device: &mut D,
) -> Result<Planned, JournalError>
    ensures stays { Stays (D.state device.old) (D.state device.new) }
    ensures planned { IfOk result (λ planned. D.honest device.new → IsPlanOf before_damage (D.state device.old) planned) }
    ensures refused { IfErr result (IsRefusalOf before_damage (D.honest device.new) (D.state device.old) (D.state device.new)) }
{
    if before_damage {
        let (plan, stopped_by) = plan_before_damage(alloc, device)?;
        return Ok(Planned { plan, stopped_by });
    }
    let plan = plan_opening(alloc, device)?;
    Ok(Planned {
        plan,
        stopped_by: None,
    })
}

/// Prints what an opening would do, and whether a home area that is too short would stop it.
fn say_plan<D: Device, W: Write>(
    alloc: Global,
    json: bool,
    device: &mut D,
    planned: &Planned,
    out: &mut W,
) -> io::Result<()>
    ensures device { OnlyReads D.state D.honest device.old device.new }
{
    let mut why = Vec::new(alloc);
    if let Some(e) = planned.stopped_by {
        say_why(alloc, device, e, &mut why)?;
    }
    if json {
        write_planned(planned, &why, out)
    } else {
        say_planned(planned, out)?;
        out.write_all(&why)
    }
}

/// Writes a plan as an object. `why` has the lines on what stops an opening, if anything.
fn write_planned(planned: &Planned, why: &[u8], out: &mut impl Write) -> io::Result<()> {
    let Plan {
        report,
        blocks,
        next,
    } = planned.plan;
    let next = number_left(planned.writes_number(), next);
    begin_found(out, "would recover", report, next)?;
    if !report.clean {
        write!(out, ",\"blocks\":{blocks}")?;
    }
    write_stopped(report, planned.stopped_by, out)?;
    if planned.stopped_by.is_some() {
        write!(out, ",\"advice\":")?;
        write_lines(out, why)?;
    }
    writeln!(out, "}}")
}

fn say_planned(planned: &Planned, out: &mut impl Write) -> io::Result<()> {
    let Plan {
        report,
        blocks,
        next,
    } = planned.plan;
    if !report.clean {
        write!(out, "would recover end={} ", report.ends_at)?;
    } else {
        write!(out, "clean ")?;
    }
    if is_last(planned.writes_number(), next) {
        write!(out, "next=none")?;
    } else {
        write!(out, "next={}", next.0)?;
    }
    if !report.clean {
        write!(out, " transactions={} blocks={blocks}", report.transactions)?;
    }
    writeln!(out)?;
    say_stopped(report, planned.stopped_by, out)
}
