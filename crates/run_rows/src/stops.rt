//! Rows of runs, and of openings after runs, that stop at each write.
use crate::endings::{
    InterruptedScript, RunEnding, endings_text, given_of, in_one_line, kept, note,
};
use crate::journals::Runner;
use crate::texts::written;
use journal_script::Script;
use log_rows::RowError;
use log_rows::words::cut;
use script_run::{Stop, Stops};
use std::alloc::Global;

/// Runs that stop at each write. Given: a line like `stops 1 to 13, any of the last 4 writes kept`, and a script. Found: each ending (the
/// opening's report, the named blocks, the verdict), with the stops that lead to it for some kept writes.
pub fn stops<J: Runner>(alloc: Global, journal: &J, given: &str) -> Result<String, RowError> {
    let given = given_of(alloc, given)?;
    let mut endings = Vec::new(alloc);
    for k in given.first..=given.last {
        add_stop(alloc, journal, &given, k, &mut endings)?;
    }
    Ok(endings_text(alloc, &endings, "stops")?)
}

/// Adds the endings of runs that stop at write `k`, for each choice of the last writes.
fn add_stop<J: Runner>(
    alloc: Global,
    journal: &J,
    given: &InterruptedScript,
    k: u64,
    endings: &mut Vec<RunEnding>,
) -> Result<(), RowError> {
    for bits in 0..given.choices {
        let kept = kept(alloc, k, bits)?;
        add_run(alloc, journal, &given.script, k, &kept, endings)?;
    }
    Ok(())
}

fn stop_at<'a>(k: u64, kept: &'a [u64]) -> Stop<'a> {
    Stop {
        at_write: Some(k),
        keep: kept,
    }
}

const NO_STOP: Stop<'static> = Stop {
    at_write: None,
    keep: &[],
};

fn add_run<J: Runner>(
    alloc: Global,
    journal: &J,
    script: &Script,
    k: u64,
    kept: &[u64],
    endings: &mut Vec<RunEnding>,
) -> Result<(), RowError> {
    let mut out = Vec::new(alloc);
    let stops = Stops {
        failing_call: None,
        run: stop_at(k, kept),
        opening: NO_STOP,
    };
    match journal.run(alloc, script, &stops, &mut out) {
        Ok(right) => add_lines(alloc, written(&out)?, right, endings),
        Err(_) => Err(RowError::Memory),
    }
}

fn add_lines(
    alloc: Global,
    lines: &str,
    right: bool,
    endings: &mut Vec<RunEnding>,
) -> Result<(), RowError> {
    let (_, behind) = cut(lines, "\nstopped ")?;
    let (stop, behind) = cut(behind, "\n")?;
    let (_, ending) = cut(behind, " n=")?;
    let text = format!(in alloc; "n={}, right {right}", in_one_line(alloc, ending)?)?;
    Ok(note(alloc, endings, text, stop.parse().ok())?)
}

/// Runs to the end, then openings that stop at each write. Given: a line like `openings that stop at writes 1 to 5, any of the last 4
/// kept`, and a script. Found: as for `stops`, for the last opening.
pub fn stops_of_openings<J: Runner>(
    alloc: Global,
    journal: &J,
    given: &str,
) -> Result<String, RowError> {
    let given = given_of(alloc, given)?;
    let mut endings = Vec::new(alloc);
    for k in given.first..=given.last {
        add_openings(alloc, journal, &given, k, &mut endings)?;
    }
    Ok(endings_text(alloc, &endings, "stops")?)
}

/// Adds the endings of openings that stop at write `k`, for each choice of the last writes.
fn add_openings<J: Runner>(
    alloc: Global,
    journal: &J,
    given: &InterruptedScript,
    k: u64,
    endings: &mut Vec<RunEnding>,
) -> Result<(), RowError> {
    for bits in 0..given.choices {
        let kept = kept(alloc, k, bits)?;
        add_opening(alloc, journal, &given.script, k, &kept, endings)?;
    }
    Ok(())
}

fn add_opening<J: Runner>(
    alloc: Global,
    journal: &J,
    script: &Script,
    k: u64,
    kept: &[u64],
    endings: &mut Vec<RunEnding>,
) -> Result<(), RowError> {
    let mut out = Vec::new(alloc);
    let stops = Stops {
        failing_call: None,
        run: NO_STOP,
        opening: stop_at(k, kept),
    };
    match journal.run(alloc, script, &stops, &mut out) {
        Ok(right) => add_opened(alloc, written(&out)?, right, k, endings),
        Err(_) => Err(RowError::Memory),
    }
}

/// Adds an ending from these lines; its text begins at the last opening.
fn add_opened(
    alloc: Global,
    lines: &str,
    right: bool,
    k: u64,
    endings: &mut Vec<RunEnding>,
) -> Result<(), RowError> {
    let (word, behind) = match lines.split_once("\nreopen ") {
        Some((_, behind)) => ("reopen", behind),
        None => ("open", cut(lines, "\nopen ")?.1),
    };
    let text = format!(in alloc; "{word} {}, right {right}", in_one_line(alloc, behind)?)?;
    Ok(note(alloc, endings, text, Some(k))?)
}
