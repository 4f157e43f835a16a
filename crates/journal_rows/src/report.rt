//! Checks the rows of a file, and reports which did not hold.
use crate::kinds::{Found, found};
use crate::repetition::written_out;
use crate::row_file::{Row, RowFile, read};
use log_rows::RowError;
use std::alloc::{AllocError, Global};
use std::fmt::Write;
use std::sync::Wait;

/// The report on a file.
#[derive(Drop)]
pub struct RowsReport {
    /// The lines to print.
    pub lines: String,
    /// Whether each row could be checked.
    pub is_whole: bool,
}

/// The results of a file's rows.
#[derive(Drop)]
struct Findings {
    held: u64,
    /// Lines on the rows that did not hold.
    others: String,
    is_whole: bool,
}

/// Checks the rows of a file with this name and text. The report has a line with the name and how many rows held; then the name, wanted and
/// found text of each other row.
///
/// # Errors
///
/// `Unread`: the text is no file of rows, or its kind is unknown. `Memory`.
pub fn report_of<R: Wait>(
    rt: &R,
    alloc: Global,
    name: &str,
    text: &str,
) -> Result<RowsReport, RowError> {
    let file = read(alloc, text)?;
    let found = findings_of(rt, alloc, &file)?;
    let (held, count) = (found.held, file.rows.len());
    let lines = format!(in alloc; "{name}: {held} of {count} rows held\n{}", found.others)?;
    Ok(RowsReport {
        lines,
        is_whole: found.is_whole,
    })
}

fn findings_of<R: Wait>(rt: &R, alloc: Global, file: &RowFile<'_>) -> Result<Findings, RowError> {
    let mut findings = Findings {
        held: 0,
        others: String::new(alloc),
        is_whole: true,
    };
    for row in &file.rows {
        check_row(rt, alloc, file.kind, row, &mut findings)?;
    }
    Ok(findings)
}

/// Checks one row, and notes the result.
fn check_row<R: Wait>(
    rt: &R,
    alloc: Global,
    kind: &str,
    row: &Row<'_>,
    findings: &mut Findings,
) -> Result<(), RowError> {
    let given = written_out(alloc, row.given)?;
    let wanted = written_out(alloc, row.wanted)?;
    let found = found(rt, alloc, kind, given.as_str()).ok_or(RowError::Unread)?;
    note(findings, row.name, wanted.as_str(), found)
}

/// Notes a row's result.
fn note(findings: &mut Findings, name: &str, wanted: &str, found: Found) -> Result<(), RowError> {
    match found {
        Ok(found) if found.trim_end() == wanted.trim_end() => {
            findings.held = findings.held.saturating_add(1);
        }
        Ok(found) => write_other(&mut findings.others, name, wanted, found.as_str())?,
        Err(RowError::Unread) => {
            writeln!(findings.others, "  {name}: its given text can't be read")?;
            findings.is_whole = false;
        }
        Err(RowError::Memory) => return Err(RowError::Memory),
    }
    Ok(())
}

/// Writes the lines on a row that did not hold.
fn write_other(
    others: &mut String,
    name: &str,
    wanted: &str,
    found: &str,
) -> Result<(), AllocError> {
    writeln!(others, "  {name}\n    wanted:")?;
    write_indented(others, wanted)?;
    writeln!(others, "    found:")?;
    write_indented(others, found)
}

/// Writes indented lines.
fn write_indented(others: &mut String, text: &str) -> Result<(), AllocError> {
    for line in text.lines() {
        writeln!(others, "      {line}")?;
    }
    Ok(())
}
