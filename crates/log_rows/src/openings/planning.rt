//! Rows of what openings would do.
use crate::RowError;
use crate::logs::{device_of, log_of};
use crate::openings::told::report_text;
use crate::telling::refusal_text;
use damaged_logs::plan_before_damage;
use journal_model::JournalError;
use recovery::{Plan, plan_opening};
use std::alloc::Global;

fn plan_text(alloc: Global, plan: Plan) -> Result<String, RowError> {
    let told = report_text(alloc, plan.report, u64::from(plan.next.0))?;
    Ok(format!(in alloc; "{told} blocks={}", plan.blocks)?)
}

fn plan_in_spite_of(
    alloc: Global,
    plan: Plan,
    stopped_by: Option<JournalError>,
) -> Result<String, RowError> {
    let told = plan_text(alloc, plan)?;
    match stopped_by {
        Some(e) => {
            let passed_over = refusal_text(alloc, e)?;
            Ok(format!(in alloc; "{told}, in spite of {passed_over}")?)
        }
        None => Ok(told),
    }
}

/// What openings would do. Given: as for `openings`. Found: a line with the answer of `plan_opening`, a line with that of
/// `plan_before_damage` and what it would pass over, and the writes of both.
pub fn plans(alloc: Global, given: &str) -> Result<String, RowError> {
    let mut device = device_of(alloc, &log_of(alloc, given)?)?;
    let opening = match plan_opening(alloc, &mut device) {
        Ok(plan) => plan_text(alloc, plan)?,
        Err(e) => refusal_text(alloc, e)?,
    };
    let before = match plan_before_damage(alloc, &mut device) {
        Ok((plan, stopped_by)) => plan_in_spite_of(alloc, plan, stopped_by)?,
        Err(e) => refusal_text(alloc, e)?,
    };
    Ok(format!(in alloc; "{opening}\n{before}\nwrites {}", device.writes())?)
}
