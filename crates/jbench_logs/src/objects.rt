//! The parts of what commands print about a log as JSON. No text in it has a quote or a backslash.
ghost use Rattle.std.specs.Prelude.{◌≡◌, OnOk, Some};
ghost use Rattle.std.specs.Io.KnownBytes.{Appends};
ghost use Rattle.jbench_logs.specs.Said.{found_members, value_text};

use journal_model::{JournalError, Tid};
use recovery::Report;
use std::io::Write;
use std::str::from_utf8;
use std::{fmt, io};

/// A transaction number, or null if none is left.
#[derive(Clone, Copy)]
struct TidOrNull(Option<Tid>);

impl fmt::Display for TidOrNull {
    ghost use Rattle.std.specs.Prelude.{Some};
    ghost use Rattle.jbench_logs.specs.Said.{value_text};

    ghost output = { λ value. Some (value_text value.0) };

    fn fmt<W: fmt::Write>(&self, f: &mut fmt::Formatter<W>) -> fmt::Result {
        match self.0 {
            Some(tid) => write!(f, "{}", tid.0),
            None => f.write_str("null"),
        }
    }
}

/// Begins the object of an opening, with the members that its line has. `found` is the outcome if the log was not clean.
pub(crate) fn begin_found<W: Write>(
    out: &mut W,
    found: &str,
    report: Report,
    next: Option<Tid>,
) -> io::Result<()>
    ensures { OnOk result (Appends (W.contents out.old) (W.contents out.new) (found_members found.now report.clean report.ends_at report.transactions next)) }
{
    let value = TidOrNull(next);
    if report.clean {
        write!(out, "{{\"outcome\":\"clean\",\"next\":{value}")
    } else {
        write!(
            out,
            "{{\"outcome\":\"{found}\",\"end\":{},\"next\":{value},\"transactions\":{}",
            report.ends_at, report.transactions
        )
    }
}

/// Writes a refusal: its number, its name, and the place of a block if it has one.
///
/// # Errors
///
/// The output could not be written.
pub fn write_refusal<W: Write>(out: &mut W, e: JournalError) -> io::Result<()> {
    let number = e.number();
    match e {
        JournalError::Ahead(place) => write!(
            out,
            "{{\"number\":{number},\"name\":\"Ahead\",\"place\":{place}}}"
        ),
        JournalError::Damage(place) => write!(
            out,
            "{{\"number\":{number},\"name\":\"Damage\",\"place\":{place}}}"
        ),
        _ => {
            let name = e.name();
            write!(out, "{{\"number\":{number},\"name\":\"{name}\"}}")
        }
    }
}

/// Writes the words of a line as members: `KEY=NUMBER` is a number, `KEY=none` is null, and a single word is true.
pub fn write_members<W: Write>(out: &mut W, words: &str) -> io::Result<()> {
    let mut is_later = false;
    for word in words.split_whitespace() {
        if is_later {
            write!(out, ",")?;
        }
        match word.split_once('=') {
            Some((key, "none")) => write!(out, "\"{key}\":null")?,
            Some((key, number)) => write!(out, "\"{key}\":{number}")?,
            None => write!(out, "\"{word}\":true")?,
        }
        is_later = true;
    }
    Ok(())
}

/// Writes the lines of a text as a list.
///
/// # Errors
///
/// The output could not be written.
pub fn write_lines<W: Write>(out: &mut W, text: &[u8]) -> io::Result<()> {
    let mut is_later = false;
    write!(out, "[")?;
    for line in from_utf8(text).unwrap_or("").lines() {
        if is_later {
            write!(out, ",")?;
        }
        write!(out, "\"{}\"", line.trim_start())?;
        is_later = true;
    }
    write!(out, "]")
}
