//! Rows of closes of a journal.
use crate::closing::{Closed, ClosingFault, close_after};
use crate::endings::{RunEnding, endings_text, in_one_line, kept, note};
use crate::texts::{numbers_in, written};
use journal_model::{Sealed, Tid};
use log_rows::RowError;
use log_rows::words::{cut, number};
use recovery::open;
use script_run::{RunRecord, StoppedRun, judge};
use std::alloc::Global;
use std::fmt::Write;

/// Closes a journal after some steps. Given: steps with ` | ` between them. The first is the fault: `stop 4` stops the device at the
/// journal's fourth write, `fail 7` makes its seventh call fail, 0 is none. Each other step is a handle's writes, like `9=11 10=22` (home
/// block and first byte), after which it stops; the same with `, request`, which requests a commit; or commit or checkpoint turns, like
/// `turns 3` or `checks 2`. Found: the close's answer; the counts of sealed and committed transactions and of writes; after a crash, the
/// log's dump, the opening's report and the verdict; that opening's writes.
pub fn closes(alloc: Global, given: &str) -> Result<String, RowError> {
    let (first, steps) = given.split_once(" | ").unwrap_or((given, ""));
    let fault = fault_of(first)?;
    let reopened = writes_of_opening(alloc, close_after(alloc, fault, steps)?)?;
    let closed = close_after(alloc, fault, steps)?;
    let mut told = String::new(alloc);
    writeln!(told, "{}", closed.answer)?;
    writeln!(
        told,
        "sealed {} committed {} writes {}",
        closed.sealed.len(),
        closed.committed,
        closed.device.writes()
    )?;
    let (lines, _) = judged(alloc, closed, &[])?;
    let (_, lines) = cut(lines.as_str(), "\n")?;
    told.push_str(lines)?;
    writeln!(told, "reopened with {reopened} writes")?;
    Ok(told)
}

/// Closes with a stop at each write, or with each call failing. Given: steps as for `closes`. The first step is like `stops 1 to 8, any of
/// the last 2 writes kept`, or `fails 1 to 14` with the same after it. Found: each ending (answer, sealed, committed, the opening's report,
/// written blocks, verdict), with the stops or failing calls that lead to it.
pub fn interrupted_closes(alloc: Global, given: &str) -> Result<String, RowError> {
    let (line, steps) = cut(given, " | ")?;
    let [first, last, back] = numbers_in::<3>(line)?;
    let fails = line.starts_with("fails ");
    let mut endings = Vec::new(alloc);
    for k in first..=last {
        let fault = if fails {
            ClosingFault::Fail(k)
        } else {
            ClosingFault::Stop(k)
        };
        add_closes(alloc, fault, steps, k, back, &mut endings)?;
    }
    let places = if fails { "fails" } else { "stops" };
    Ok(endings_text(alloc, &endings, places)?)
}

/// Adds the endings of closes with this fault, for each choice of the last `back` writes.
fn add_closes(
    alloc: Global,
    fault: ClosingFault,
    steps: &str,
    k: u64,
    back: u64,
    endings: &mut Vec<RunEnding>,
) -> Result<(), RowError> {
    if back > 8 {
        return Err(RowError::Unread);
    }
    for bits in 0..1u64 << back {
        let closed = close_after(alloc, fault, steps)?;
        let kept = kept(alloc, closed.device.writes(), bits)?;
        let text = ending_of(alloc, closed, &kept)?;
        note(alloc, endings, text, Some(k))?;
    }
    Ok(())
}

/// How a close ends if the device then crashes and keeps these writes.
fn ending_of(alloc: Global, closed: Closed, kept: &[u64]) -> Result<String, RowError> {
    let mut told = String::new(alloc);
    write!(
        told,
        "{}, sealed {} committed {}",
        closed.answer,
        closed.sealed.len(),
        closed.committed
    )?;
    let (lines, right) = judged(alloc, closed, kept)?;
    let (_, ending) = cut(lines.as_str(), " n=")?;
    let ending = in_one_line(alloc, ending)?;
    write!(told, ", n={ending}, right {right}")?;
    Ok(told)
}

fn fault_of(step: &str) -> Result<ClosingFault, RowError> {
    if let Some(k) = step.strip_prefix("fail ") {
        return Ok(ClosingFault::Fail(number(k)?));
    }
    match step.strip_prefix("stop ") {
        Some(k) => Ok(ClosingFault::Stop(number(k)?)),
        None => Err(RowError::Unread),
    }
}

fn writes_of_opening(alloc: Global, closed: Closed) -> Result<u64, RowError> {
    match open(alloc, closed.device.crash(&[])) {
        Ok(opened) => Ok(opened.into_device().writes()),
        Err((device, _)) => Ok(device.writes()),
    }
}

/// The verdict's lines, and whether it is right, if the device crashes after a close and keeps these writes. Committed transactions count
/// as acknowledged.
fn judged(alloc: Global, closed: Closed, kept: &[u64]) -> Result<(String, bool), RowError> {
    let Closed {
        answer: _,
        sealed,
        committed,
        device,
        named,
    } = closed;
    let acknowledged = last_committed(&sealed, committed);
    let stopped = StoppedRun {
        device,
        recorded: RunRecord {
            sealed,
            acknowledged,
        },
        at_write: None,
    };
    let mut out = Vec::new(alloc);
    match judge(alloc, stopped, kept, &named, &mut out) {
        Ok(right) => Ok((String::from_str(alloc, written(&out)?)?, right)),
        Err(_) => Err(RowError::Memory),
    }
}

fn last_committed(sealed: &[Sealed], committed: u64) -> Option<Tid> {
    let last = usize::try_from(committed).ok()?.checked_sub(1)?;
    Some(sealed.get(last)?.tid)
}
