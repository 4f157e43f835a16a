//! Rows of openings of logs that are damaged or ahead.
use crate::RowError;
use crate::logs::{device_of, log_of};
use crate::openings::opening::{home_text, opened_or_refused};
use crate::openings::told::report_text;
use crate::telling::refusal_text;
use block_device::MemDevice;
use damaged_logs::open_before_damage;
use std::alloc::Global;

fn taken_or_refused(alloc: Global, device: MemDevice) -> Result<(String, MemDevice), RowError> {
    match open_before_damage(alloc, device) {
        Ok((opened, stopped_by)) => {
            let taken = report_text(alloc, opened.report(), u64::from(opened.next().0))?;
            let device = opened.into_device();
            match stopped_by {
                Some(e) => {
                    let passed_over = refusal_text(alloc, e)?;
                    let told = format!(in alloc; "{taken}, in spite of {passed_over}")?;
                    Ok((told, device))
                }
                None => Ok((taken, device)),
            }
        }
        Err((device, e)) => Ok((refusal_text(alloc, e)?, device)),
    }
}

/// Openings of logs that are damaged or ahead. Given: as for `openings`. Found: a line with the answer of `open_before_damage` and what it
/// passed over; a line with the answer of an `open` after one more loss of power; each home block that is then not zeros; and the writes of
/// the first opening.
pub fn openings_before_damage(alloc: Global, given: &str) -> Result<String, RowError> {
    let (taken, device) = taken_or_refused(alloc, device_of(alloc, &log_of(alloc, given)?)?)?;
    let writes = device.writes();
    let (again, mut device) = opened_or_refused(alloc, device.crash(&[]))?;
    let home = home_text(alloc, &mut device)?;
    Ok(format!(in alloc; "{taken}\n{again}{home}\nwrites {writes}")?)
}
