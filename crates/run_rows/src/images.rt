//! Rows of runs whose image is copied to another device before it is opened.
use crate::endings::{endings_text, note};
use crate::journals::Runner;
use crate::scripts::given_script;
use crate::texts::{numbers_in, written};
use block_device::{Device, FailOnce, MemDevice};
use journal_model::JournalError;
use journal_script::Script;
use log_rows::RowError;
use log_rows::words::cut;
use recovery::open;
use script_run::{Fault, Stop, Stops};
use std::alloc::{AllocError, Global};
use std::fmt::Write;

/// Copies images. Given: a line with the write at which the run stops, 0 for none, and the kept writes, like `stop 5, keep 5`; and a
/// script. Found: the report of the run's opening, and that of an opening of the copy after a crash.
pub fn images<J: Runner>(alloc: Global, journal: &J, given: &str) -> Result<String, RowError> {
    let (line, text) = cut(given, "\n")?;
    let (stop, keep) = cut(line, ", keep")?;
    let [stop] = numbers_in::<1>(stop)?;
    let script = given_script(alloc, text)?;
    let keep = all_numbers(alloc, keep)?.ok_or(RowError::Unread)?;
    let run = Stop {
        at_write: if stop == 0 { None } else { Some(stop) },
        keep: &keep,
    };
    let mut copy = blank(alloc, &script);
    let found = opening_of_run(alloc, journal, &script, run, &mut copy)?;
    let mut told = String::new(alloc);
    writeln!(told, "run: {found}")?;
    told.push_str("copy: ")?;
    told.push_str(opening_of_copy(alloc, copy)?.as_str())?;
    Ok(told)
}

/// `None` if a word is no number.
fn all_numbers(alloc: Global, text: &str) -> Result<Option<Vec<u64>>, AllocError> {
    let mut numbers = Vec::new(alloc);
    for word in text.split_whitespace() {
        match word.parse::<u64>() {
            Ok(number) => numbers.push(number)?,
            Err(_) => return Ok(None),
        }
    }
    Ok(Some(numbers))
}

fn blank(alloc: Global, script: &Script) -> MemDevice {
    let measures = &script.measures;
    let log_blocks = u64::from(measures.log_blocks);
    MemDevice::new(alloc, measures.block_size, log_blocks, measures.home_blocks)
}

/// The report of the opening of a copied image, or why there is none.
fn opening_of_run<J: Runner, D: Device>(
    alloc: Global,
    journal: &J,
    script: &Script,
    run: Stop<'_>,
    copy: &mut D,
) -> Result<String, RowError> {
    let stops = Stops {
        failing_call: None,
        run,
        opening: Stop {
            at_write: None,
            keep: &[],
        },
    };
    let mut out = Vec::new(alloc);
    let answer = journal.run_copied(alloc, script, &stops, copy, &mut out);
    let lines = written(&out)?;
    match answer {
        Ok(_) => {
            let (_, behind) = cut(lines, "\nopen ")?;
            let (found, _) = cut(behind, "\n")?;
            Ok(String::from_str(alloc, found)?)
        }
        Err(Fault::Refused(JournalError::Memory) | Fault::Output(_)) => Err(RowError::Memory),
        Err(Fault::Refused(e)) => {
            let count = lines.lines().count();
            Ok(format!(in alloc; "refused {} {} behind {count} lines", e.number(), e.name())?)
        }
    }
}

fn opening_of_copy(alloc: Global, copy: MemDevice) -> Result<String, RowError> {
    match open(alloc, copy.crash(&[])) {
        Ok(opened) => {
            let (report, next) = (opened.report(), opened.next().0);
            if report.clean {
                Ok(format!(in alloc; "clean next={next}")?)
            } else {
                Ok(format!(in alloc; "end={} next={next}", report.ends_at)?)
            }
        }
        Err((_, e)) => Ok(format!(in alloc; "refused {} {}", e.number(), e.name())?),
    }
}

/// Copies with each call failing in turn. Given: a line like `calls 1 to 21`, and a script. Found: the opening's report, or its refusal and
/// how many lines precede it; with the failing calls that lead to it.
pub fn failed_copies<J: Runner>(
    alloc: Global,
    journal: &J,
    given: &str,
) -> Result<String, RowError> {
    let (line, text) = cut(given, "\n")?;
    let [first, last] = numbers_in::<2>(line)?;
    let script = given_script(alloc, text)?;
    let mut endings = Vec::new(alloc);
    for call in first..=last {
        let run = Stop {
            at_write: None,
            keep: &[],
        };
        let mut copy = FailOnce::new(blank(alloc, &script), call);
        let found = opening_of_run(alloc, journal, &script, run, &mut copy)?;
        note(alloc, &mut endings, found, Some(call))?;
    }
    Ok(endings_text(alloc, &endings, "calls")?)
}
