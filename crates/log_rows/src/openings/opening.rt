//! Rows of openings.
use crate::RowError;
use crate::logs::{RowLog, device_of, log_of};
use crate::openings::told::{ReopeningResult, add_home, report_text};
use crate::telling::refusal_text;
use block_device::{Device, FailOnce, MemDevice};
use journal_model::Area;
use recovery::{Opened, open};
use std::alloc::Global;
use std::fmt::Write;

/// More calls than an opening of a row's log makes.
const MOST_CALLS: u64 = 10_000;

fn read_home(alloc: Global, device: &mut MemDevice, block: u64) -> Result<Vec<u8>, RowError> {
    if block >= device.blocks(Area::Home) {
        return Err(RowError::Unread);
    }
    let mut bytes = vec![in alloc; 0; device.block_size()]?;
    device.read(Area::Home, block, &mut bytes)?;
    Ok(bytes)
}

/// The lines of the home blocks that are not zeros.
pub(crate) fn home_text(alloc: Global, device: &mut MemDevice) -> Result<String, RowError> {
    let mut told = String::new(alloc);
    for block in 0..device.blocks(Area::Home) {
        add_home(&mut told, block, &read_home(alloc, device, block)?)?;
    }
    Ok(told)
}

fn opened_text<D: Device>(alloc: Global, opened: &Opened<D>) -> Result<String, RowError> {
    report_text(alloc, opened.report(), u64::from(opened.next().0))
}

/// The answer of an opening, and the device after it.
pub(crate) fn opened_or_refused<D: Device + Drop>(
    alloc: Global,
    device: D,
) -> Result<(String, D), RowError> {
    match open(alloc, device) {
        Ok(opened) => Ok((opened_text(alloc, &opened)?, opened.into_device())),
        Err((device, e)) => Ok((refusal_text(alloc, e)?, device)),
    }
}

/// The result of opening a log, on a device that lost power with it and whose home is zeros.
pub fn told_of(alloc: Global, log: &RowLog) -> Result<ReopeningResult, RowError> {
    let (answer, device) = opened_or_refused(alloc, device_of(alloc, log)?)?;
    let writes = device.writes();
    let (again, mut device) = opened_or_refused(alloc, device.crash(&[]))?;
    Ok(ReopeningResult {
        answer,
        writes,
        again,
        writes_again: device.writes(),
        home: home_text(alloc, &mut device)?,
    })
}

/// Openings. Given: a log, on a device that lost power with it and whose home is zeros. Found: a line with the opening's answer, each home
/// block that is not zeros after one more loss of power, and the opening's writes.
pub fn openings(alloc: Global, given: &str) -> Result<String, RowError> {
    let told = told_of(alloc, &log_of(alloc, given)?)?;
    Ok(format!(in alloc; "{}{}\nwrites {}", told.answer, told.home, told.writes)?)
}

/// Second openings. Given: as for `openings`. Found: the answer of the first opening, and then what `openings` finds of a second one, after
/// a loss of power right after the first; the writes are the second one's.
pub fn second_openings(alloc: Global, given: &str) -> Result<String, RowError> {
    let told = told_of(alloc, &log_of(alloc, given)?)?;
    Ok(format!(in alloc;
        "{}\n{}{}\nwrites {}",
        told.answer, told.again, told.home, told.writes_again
    )?)
}

/// Openings whose calls fail in turn. Given: as for `openings`. Found: a line for each way in which they go, in the order of the failing
/// calls: the answer of the opening, the answer of a second one right after it, each home block that is then not zeros, and the writes of
/// both. The last line is of an opening without a failure.
pub fn failed_openings(alloc: Global, given: &str) -> Result<String, RowError> {
    let log = log_of(alloc, given)?;
    let mut all = String::new(alloc);
    let mut before = String::new(alloc);
    for call in 1..=MOST_CALLS {
        let device = FailOnce::new(device_of(alloc, &log)?, call);
        let (line, calls) = failed_opening(alloc, device)?;
        if line.as_str() != before.as_str() {
            writeln!(all, "{line}")?;
        }
        if calls < call {
            return Ok(all);
        }
        before = line;
    }
    Err(RowError::Unread)
}

/// The line of an opening of a device whose call may fail, and how many calls it made.
fn failed_opening(alloc: Global, device: FailOnce<MemDevice>) -> Result<(String, u64), RowError> {
    let (first, device) = opened_or_refused(alloc, device)?;
    let calls = device.calls();
    let (again, mut device) = opened_or_refused(alloc, device.into_inner())?;
    let home = home_text(alloc, &mut device)?;
    let told = format!(in alloc; "{first}\n{again}{home}\nwrites {}", device.writes())?;
    Ok((told.replace(alloc, "\n", ", ")?, calls))
}
