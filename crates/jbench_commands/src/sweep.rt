//! The command `sweep`: reads a script's text, and sweeps it.
ghost use Rattle.std.specs.Prelude.{◌≡◌, ◌<◌, IfOk};
ghost use Rattle.jbench_words.specs.declared.fault.CommandStatus.TheVariants.{Fine, VerdictFalse};
ghost use Rattle.jbench_commands.specs.Sweeps.{HasSwept, HasSweptFailures, HasSweptStops, IsSweptTo};

use crate::faults::of_run;
use crate::run::read_script;
use jbench_words::fault::{self, CommandStatus, Fault};
use jbench_words::watch::Watch;
use jbench_words::words::SweepWords;
use journal_script::Script;
use script_sweep::{Counts, FailureCounts, ThisJournal};
use std::alloc::Global;
use std::io;
use std::io::Write;

/// Runs a script with a stop at each of its writes, opens and judges the crash images, and prints the counts. The images are those of each
/// choice among the last four writes. If the words ask for it, each device call then fails in turn, and a second line has those counts; or
/// both are one JSON object. `err` names each false verdict, and says why the sweep cannot go on.
///
/// # Errors
///
/// The output could not be written.
pub fn sweep<P: Watch + Drop, W: Write + Drop, E: Write + Drop>(
    alloc: Global,
    words: &SweepWords<'_>,
    script: &[u8],
    watch: P,
    out: W,
    err: E,
) -> io::Result<CommandStatus>
    ensures { IfOk result (IsSweptTo script.now words.now.fails) }
{
    let (mut watch, mut out, mut err) = (watch, out, err);
    match sweep_as_told(alloc, words, script, &mut watch, &mut out, &mut err) {
        Ok(count) => Ok(status_of(count)),
        Err(Fault::Output(e)) => Err(e),
        Err(fault) => fault::refuse(&mut err, words.script, &fault),
    }
}

/// A sweep's status, by its count of openings that were not right; that count is 0 for this journal.
fn status_of(count: u64) -> CommandStatus
    ensures fine { count ≡ 0 → result ≡ Fine }
    ensures wrong { 0 < count → result ≡ VerdictFalse }
{
    if count == 0 {
        CommandStatus::Fine
    } else {
        CommandStatus::VerdictFalse
    }
}

/// Reads and sweeps a script, and returns how many openings were not right. If the words ask for it, one object has the counts, printed at
/// the end.
fn sweep_as_told<W: Write>(
    alloc: Global,
    words: &SweepWords<'_>,
    script: &[u8],
    watch: &mut impl Watch,
    out: &mut W,
    err: &mut impl Write,
) -> Result<u64, Fault>
    ensures swept { IfOk result (HasSwept script.now words.now.fails) }
    ensures right { IfOk result (λ count. count ≡ 0) }
{
    if !words.json {
        return sweep_script(alloc, words, script, watch, out, err);
    }
    let mut text = Vec::new(alloc);
    let count = sweep_script(alloc, words, script, watch, &mut text, err)?;
    out.write_all(&text)?;
    let verdict = if count == 0 { "ok" } else { "false" };
    writeln!(out, ",\"verdict\":\"{verdict}\"}}")?;
    Ok(count)
}

/// Reads and sweeps a script, and returns how many openings were not right.
fn sweep_script<W: Write>(
    alloc: Global,
    words: &SweepWords<'_>,
    script: &[u8],
    watch: &mut impl Watch,
    out: &mut W,
    err: &mut impl Write,
) -> Result<u64, Fault>
    ensures swept { IfOk result (HasSwept script.now words.now.fails) }
    ensures right { IfOk result (λ count. count ≡ 0) }
{
    let script = read_script(alloc, script)?;
    let of_stops = sweep_stops(alloc, &script, words.json, watch, out, err)?;
    if !words.fails {
        return Ok(of_stops);
    }
    let of_failures = sweep_failures(alloc, &script, words.json, watch, out, err)?;
    Ok(of_stops.saturating_add(of_failures))
}

/// Sweeps a script's stops, prints the counts, and returns how many openings were not right.
fn sweep_stops<W: Write>(
    alloc: Global,
    script: &Script,
    json: bool,
    watch: &mut impl Watch,
    out: &mut W,
    err: &mut impl Write,
) -> Result<u64, Fault>
    ensures swept { IfOk result (HasSweptStops script.now) }
    ensures right { IfOk result (λ count. count ≡ 0) }
{
    match script_sweep::sweep(alloc, &ThisJournal, script, watch, err) {
        Ok(counts) => {
            print(counts, json, out)?;
            Ok(counts.not_right.count())
        }
        Err(fault) => Err(of_run(fault)),
    }
}

/// Sweeps a script's failing calls, prints the counts, and returns how many openings were not right.
fn sweep_failures<W: Write>(
    alloc: Global,
    script: &Script,
    json: bool,
    watch: &mut impl Watch,
    out: &mut W,
    err: &mut impl Write,
) -> Result<u64, Fault>
    ensures swept { IfOk result (HasSweptFailures script.now) }
    ensures right { IfOk result (λ count. count ≡ 0) }
{
    match script_sweep::sweep_failures(alloc, &ThisJournal, script, watch, err) {
        Ok(counts) => {
            print_failures(counts, json, out)?;
            Ok(counts.not_right.count())
        }
        Err(fault) => Err(of_run(fault)),
    }
}

/// Prints the counts of stops, or the front of an object with them.
fn print<W: Write>(counts: Counts, json: bool, out: &mut W) -> io::Result<()> {
    let Counts {
        writes,
        images,
        again,
        not_right,
    } = counts;
    let wrong = not_right.count();
    if json {
        write!(
            out,
            "{{\"writes\":{writes},\"images\":{images},\"again\":{again},\"false\":{wrong}"
        )
    } else {
        writeln!(
            out,
            "sweep writes={writes} images={images} again={again} false={wrong}"
        )
    }
}

/// Prints the counts of failing calls, or that part of an object.
fn print_failures<W: Write>(counts: FailureCounts, json: bool, out: &mut W) -> io::Result<()> {
    let (calls, wrong) = (counts.calls, counts.not_right.count());
    if json {
        write!(out, ",\"fail\":{{\"calls\":{calls},\"false\":{wrong}}}")
    } else {
        writeln!(out, "fail calls={calls} false={wrong}")
    }
}
