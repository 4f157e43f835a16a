//! The result of an opening.
use crate::RowError;
use crate::telling::add_bytes;
use recovery::Report;
use std::alloc::{AllocError, Global};
use std::fmt::Write;

/// The result of opening a log, losing power right after, and opening it again.
#[derive(Drop)]
pub struct ReopeningResult {
    /// The answer of the first opening.
    pub answer: String,
    /// How many writes it makes.
    pub writes: u64,
    /// The answer of the second opening.
    pub again: String,
    /// How many writes that makes.
    pub writes_again: u64,
    /// A line for each home block that is not zeros after both.
    pub home: String,
}

impl ReopeningResult {
    /// Adds the text of the result.
    pub fn add_to(&self, all: &mut String) -> Result<(), AllocError> {
        let ReopeningResult {
            answer,
            writes,
            again,
            writes_again,
            home,
        } = self;
        writeln!(
            all,
            "{answer}, writes {writes}\n{again}, writes {writes_again}{home}"
        )
    }
}

/// The line of an opening with this report and next number.
pub fn report_text(alloc: Global, report: Report, next: u64) -> Result<String, RowError> {
    if report.clean {
        return Ok(format!(in alloc; "clean next={next}")?);
    }
    let ends_at = report.ends_at;
    let transactions = report.transactions;
    Ok(format!(in alloc; "recovered end={ends_at} next={next} transactions={transactions}")?)
}

/// Adds the line of a home block, if it is not zeros.
pub fn add_home(told: &mut String, block: u64, bytes: &[u8]) -> Result<(), RowError> {
    if bytes.iter().any(|byte| *byte != 0) {
        write!(told, "\nhome {block} ")?;
        add_bytes(told, bytes)?;
    }
    Ok(())
}
