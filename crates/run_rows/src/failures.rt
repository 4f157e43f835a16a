//! Rows of runs with a failed device call.
use crate::endings::{
    InterruptedScript, RunEnding, endings_text, given_of, in_one_line, kept, note,
};
use crate::journals::Runner;
use crate::texts::written;
use journal_script::Script;
use log_rows::RowError;
use log_rows::words::cut;
use script_run::{Stop, Stops};
use std::alloc::Global;

/// Runs with each call failing in turn. Given: a line like `calls 1 to 13, any of the last 4 writes kept`, and a script. Found: as for
/// `stops` of `run_rows`, for calls.
pub fn failures<J: Runner>(alloc: Global, journal: &J, given: &str) -> Result<String, RowError> {
    let given = given_of(alloc, given)?;
    let mut endings = Vec::new(alloc);
    for call in given.first..=given.last {
        add_failure(alloc, journal, &given, call, &mut endings)?;
    }
    Ok(endings_text(alloc, &endings, "calls")?)
}

/// Adds the endings of runs with this failed call, for each choice of the last writes.
fn add_failure<J: Runner>(
    alloc: Global,
    journal: &J,
    given: &InterruptedScript,
    call: u64,
    endings: &mut Vec<RunEnding>,
) -> Result<(), RowError> {
    let writes = writes_of(alloc, journal, &given.script, call)?;
    for bits in 0..given.choices {
        let kept = kept(alloc, writes, bits)?;
        add_run(alloc, journal, &given.script, call, &kept, endings)?;
    }
    Ok(())
}

fn writes_of<J: Runner>(
    alloc: Global,
    journal: &J,
    script: &Script,
    call: u64,
) -> Result<u64, RowError> {
    match journal.run_operations(alloc, script, None, Some(call), &mut Vec::new(alloc)) {
        Ok(stopped) => Ok(stopped.device.writes()),
        Err(_) => Err(RowError::Memory),
    }
}

fn add_run<J: Runner>(
    alloc: Global,
    journal: &J,
    script: &Script,
    call: u64,
    kept: &[u64],
    endings: &mut Vec<RunEnding>,
) -> Result<(), RowError> {
    let mut out = Vec::new(alloc);
    let stops = Stops {
        failing_call: Some(call),
        run: Stop {
            at_write: None,
            keep: kept,
        },
        opening: Stop {
            at_write: None,
            keep: &[],
        },
    };
    match journal.run(alloc, script, &stops, &mut out) {
        Ok(right) => add_lines(alloc, written(&out)?, right, call, endings),
        Err(_) => Err(RowError::Memory),
    }
}

/// Adds an ending from these lines. The call failed if an operation was refused `Device`.
fn add_lines(
    alloc: Global,
    lines: &str,
    right: bool,
    call: u64,
    endings: &mut Vec<RunEnding>,
) -> Result<(), RowError> {
    let (operations, behind) = cut(lines, "\nstopped ")?;
    let (_, ending) = cut(behind, " n=")?;
    let text = format!(in alloc; "n={}, right {right}", in_one_line(alloc, ending)?)?;
    let failed = operations.contains(" = refused 2 Device");
    Ok(note(alloc, endings, text, failed.then_some(call))?)
}
