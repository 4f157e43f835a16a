//! Reads a row: a line `serves` with `readonly` or `writable` and a name, a line `hello` with the client's bytes before its first request,
//! and a line `requests` with the rest. More lines may follow, `after N` with bytes: the client gives these once it has N bytes of answers.
use crate::spelling::bytes_of;
use log_rows::RowError;
use log_rows::words::{count, cut};
use std::alloc::Global;

#[derive(Drop)]
pub struct ConnectionRow<'a> {
    /// The export's name.
    pub name: &'a str,
    /// Whether the export is read-only.
    pub read_only: bool,
    /// All bytes from the client.
    pub stream: Vec<u8>,
    /// How many of them come before the first request.
    pub before: usize,
    /// The parts of its requests, a line each.
    pub parts: Vec<RequestPart>,
}

/// A part of the client's bytes.
#[derive(Clone, Copy, Debug)]
pub struct RequestPart {
    /// Where it begins.
    pub from: usize,
    /// How many bytes of answers the client has before it.
    pub after: usize,
}

pub fn read<'a>(alloc: Global, text: &'a str) -> Result<ConnectionRow<'a>, RowError> {
    let (first, rest) = cut(text, "\nhello")?;
    let (hello, requests) = cut(rest, "\nrequests")?;
    let (_serves, words) = cut(first, " ")?;
    let (kind, name) = cut(words, " ")?;
    let mut stream = bytes_of(alloc, hello)?;
    let before = stream.len();
    let parts = add_parts(alloc, &mut stream, requests)?;
    Ok(ConnectionRow {
        name: name.trim(),
        read_only: kind == "readonly",
        stream,
        before,
        parts,
    })
}

/// Adds the bytes of each line to the stream. Returns the lines' parts.
fn add_parts(
    alloc: Global,
    stream: &mut Vec<u8>,
    lines: &str,
) -> Result<Vec<RequestPart>, RowError> {
    let mut parts = Vec::new(alloc);
    for line in lines.lines() {
        let (after, bytes) = words_of(line)?;
        let from = stream.len();
        if parts.push(RequestPart { from, after }).is_err() {
            return Err(RowError::Memory);
        }
        stream.extend_from_slice(&bytes_of(alloc, bytes)?)?;
    }
    Ok(parts)
}

/// The number of a line, or 0, and the words of its bytes.
fn words_of(line: &str) -> Result<(usize, &str), RowError> {
    let Some(words) = line.strip_prefix("after ") else {
        return Ok((0, line));
    };
    let (bytes, rest) = words.split_once(' ').unwrap_or((words, ""));
    Ok((count(bytes)?, rest))
}
