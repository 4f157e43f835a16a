//! Reads a file of rows: lines that begin with `#`, a line `rows KIND`, then the rows. A long row is a line `== NAME`, what is given, a
//! line `-->`, and what is wanted. A short row is a line `NAME: GIVEN --> WANTED`.
use log_rows::RowError;
use log_rows::words::cut;
use std::alloc::{AllocError, Global};

/// A row: the function of its kind must turn the given text into the wanted one.
#[derive(Clone, Copy)]
pub struct Row<'a> {
    pub name: &'a str,
    pub given: &'a str,
    pub wanted: &'a str,
}

#[derive(Drop)]
pub struct RowFile<'a> {
    /// The kind of the rows.
    pub kind: &'a str,
    /// The rows, in order.
    pub rows: Vec<Row<'a>>,
}

/// Reads a file of rows.
///
/// # Errors
///
/// `Unread`: no line at the front says what the rows show, no line has their kind, or a row has no name or no arrow. `Memory`.
pub fn read<'a>(alloc: Global, text: &'a str) -> Result<RowFile<'a>, RowError> {
    let (head, behind) = cut(text, "\nrows ")?;
    if !head.lines().all(|line| line.starts_with('#')) {
        return Err(RowError::Unread);
    }
    let (kind, body) = cut(behind, "\n")?;
    let rows = rows_of(alloc, body.trim())?;
    Ok(RowFile { kind, rows })
}

/// A file's rows, which are all long or all short.
fn rows_of<'a>(alloc: Global, body: &'a str) -> Result<Vec<Row<'a>>, RowError> {
    match body.strip_prefix("== ") {
        Some(long) => long_rows(alloc, long),
        None => short_rows(alloc, body),
    }
}

/// Long rows; the first begins with its name.
fn long_rows<'a>(alloc: Global, body: &'a str) -> Result<Vec<Row<'a>>, RowError> {
    let mut rows = Vec::new(alloc);
    for part in body.split("\n== ") {
        let (name, behind) = cut(part, "\n")?;
        push(&mut rows, row_of(name, behind)?)?;
    }
    Ok(rows)
}

fn push<'a>(rows: &mut Vec<Row<'a>>, row: Row<'a>) -> Result<(), AllocError> {
    Ok(rows.push(row)?)
}

/// Rows of one line each; blank lines may come between.
fn short_rows<'a>(alloc: Global, body: &'a str) -> Result<Vec<Row<'a>>, RowError> {
    let mut rows = Vec::new(alloc);
    for line in body.lines() {
        if !line.trim().is_empty() {
            let (name, behind) = cut(line, ": ")?;
            push(&mut rows, row_of(name, behind)?)?;
        }
    }
    Ok(rows)
}

/// The row with this name, from its texts with the arrow between them.
fn row_of<'a>(name: &'a str, texts: &'a str) -> Result<Row<'a>, RowError> {
    let (given, wanted) = cut(texts, "-->")?;
    if name.trim().is_empty() {
        return Err(RowError::Unread);
    }
    Ok(Row {
        name,
        given: given.trim(),
        wanted: wanted.trim(),
    })
}
