//! Rows of sweeps.
use crate::scripts::given_script;
use crate::texts::written;
use crate::wrong_journals::{Order, WrongJournal};
use log_rows::RowError;
use log_rows::words::cut;
use script_sweep::{Counts, FailureCounts, NotRight, Swept, sweep, sweep_failures};
use std::alloc::{AllocError, Global};
use std::fmt::Write;

/// Sweeps of a journal. Given: a script. Found: the counts of writes, of images, of crash images of stopped openings, and of openings
/// without an ok verdict, with the lines on the last.
pub fn sweeps<J: Swept>(alloc: Global, journal: &J, given: &str) -> Result<String, RowError> {
    let mut err = Vec::new(alloc);
    let counts = counts_of(alloc, journal, given, &mut err)?;
    let mut told = String::new(alloc);
    writeln!(
        told,
        "writes={} images={} again={} false={}",
        counts.writes,
        counts.images,
        counts.again,
        counts.not_right.count()
    )?;
    told.push_str(written(&err)?)?;
    Ok(told)
}

/// Sweeps of a journal's failing calls. Given: a script. Found: the counts of its calls and of openings without an ok verdict after a
/// failed call, with the lines on the last.
pub fn failure_sweeps<J: Swept>(
    alloc: Global,
    journal: &J,
    given: &str,
) -> Result<String, RowError> {
    let mut err = Vec::new(alloc);
    let counts = failure_counts_of(alloc, journal, given, &mut err)?;
    let mut told = String::new(alloc);
    writeln!(
        told,
        "calls={} false={}",
        counts.calls,
        counts.not_right.count()
    )?;
    told.push_str(written(&err)?)?;
    Ok(told)
}

/// Sweeps of wrong journals. Given: a script, after a line with the call that overtakes a flush: `a commit block`, `a superblock`, `a
/// transaction`, or `a superblock of an opening`. Found: whether a verdict is false.
pub fn wrong_journals(alloc: Global, given: &str) -> Result<String, RowError> {
    let (name, script) = cut(given, "\n")?;
    let mut err = Vec::new(alloc);
    let counts = counts_of(alloc, &wrong_journal(name)?, script, &mut err)?;
    found_text(alloc, counts.not_right)
}

/// Sweeps of a journal's failing calls. Given: a script, after a line `heeded`, or `ignored` if the journal goes on as if no call had
/// failed. Found: for each call whose failure leads to a false verdict, the first such line.
pub fn ignored_failures(alloc: Global, given: &str) -> Result<String, RowError> {
    let (word, script) = cut(given, "\n")?;
    let mut err = Vec::new(alloc);
    let counts = failure_counts_of(alloc, &failing_journal(word)?, script, &mut err)?;
    if counts.not_right.count() == 0 {
        return found_text(alloc, counts.not_right);
    }
    Ok(first_of_each_call(alloc, written(&err)?)?)
}

fn first_of_each_call(alloc: Global, named: &str) -> Result<String, AllocError> {
    let mut firsts = String::new(alloc);
    let mut last = None;
    for line in named.lines() {
        let call = call_named(line);
        if call.is_some() && call != last {
            writeln!(firsts, "{line}")?;
            last = call;
        }
    }
    Ok(firsts)
}

fn call_named(line: &str) -> Option<u64> {
    let (options, _) = line.strip_prefix("not right: --fail ")?.split_once(',')?;
    options.split(' ').next()?.parse().ok()
}

fn found_text(alloc: Global, not_right: NotRight) -> Result<String, RowError> {
    let told = if not_right.count() > 0 {
        "a verdict is false"
    } else {
        "no verdict is false"
    };
    Ok(String::from_str(alloc, told)?)
}

fn wrong_journal(name: &str) -> Result<WrongJournal, RowError> {
    let (runs, openings) = match name {
        "nothing" => (Order::AsMade, Order::AsMade),
        "a commit block" => (Order::CommitBlockFirst, Order::AsMade),
        "a superblock" => (Order::SuperblockFirst, Order::AsMade),
        "a transaction" => (Order::TransactionFirst, Order::AsMade),
        "a superblock of an opening" => (Order::AsMade, Order::SuperblockFirst),
        _ => return Err(RowError::Unread),
    };
    Ok(WrongJournal {
        runs,
        openings,
        ignores_failures: false,
    })
}

fn failing_journal(word: &str) -> Result<WrongJournal, RowError> {
    let ignores_failures = match word {
        "heeded" => false,
        "ignored" => true,
        _ => return Err(RowError::Unread),
    };
    Ok(WrongJournal {
        runs: Order::AsMade,
        openings: Order::AsMade,
        ignores_failures,
    })
}

fn counts_of<J: Swept>(
    alloc: Global,
    journal: &J,
    script: &str,
    err: &mut Vec<u8>,
) -> Result<Counts, RowError> {
    let script = given_script(alloc, script)?;
    match sweep(alloc, journal, &script, &mut Unwatched, err) {
        Ok(counts) => Ok(counts),
        Err(_) => Err(RowError::Memory),
    }
}

fn failure_counts_of<J: Swept>(
    alloc: Global,
    journal: &J,
    script: &str,
    err: &mut Vec<u8>,
) -> Result<FailureCounts, RowError> {
    let script = given_script(alloc, script)?;
    match sweep_failures(alloc, journal, &script, &mut Unwatched, err) {
        Ok(counts) => Ok(counts),
        Err(_) => Err(RowError::Memory),
    }
}

use jbench_words::watch::Unwatched;
