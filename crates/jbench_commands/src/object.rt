//! Prints a run's lines as one JSON object. No line has a quote or a backslash, so each stands for itself in JSON.
use jbench_words::fault::Fault;
use std::alloc::Global;
use std::io;
use std::io::{BufWriter, ErrorKind, Write};
use std::str::from_utf8;

/// The key under which a line is printed. A run's lines come in this order.
#[derive(Clone, Copy, PartialEq, Eq)]
enum LineKey {
    /// An operation's outcome.
    Operations,
    /// Where the device stopped.
    Stopped,
    /// The dump of the crash image.
    Dump,
    /// What openings found, or where one stopped.
    Openings,
    /// The front of a home block.
    Home,
    Verdict,
}

impl LineKey {
    /// The key of a line after one of this key.
    fn after(self, line: &str) -> LineKey {
        match self {
            LineKey::Operations if !line.starts_with("stopped ") => LineKey::Operations,
            LineKey::Operations => LineKey::Stopped,
            LineKey::Stopped => LineKey::Dump,
            LineKey::Dump if !line.starts_with("open ") && !line.starts_with("stopped ") =>
                LineKey::Dump,
            _ if line.starts_with("home ") => LineKey::Home,
            _ if line.starts_with("verdict ") => LineKey::Verdict,
            _ => LineKey::Openings,
        }
    }
}

/// Writes the object with the lines of this text, which a run printed, and a newline.
///
/// # Errors
///
/// `Fault::Output`: it could not be written. `Fault::Refused` with `Memory`.
pub(crate) fn write_object<W: Write + Drop>(
    alloc: Global,
    text: &[u8],
    out: W,
) -> Result<(), Fault> {
    let mut out = BufWriter::new(alloc, out)?;
    match from_utf8(text) {
        Ok(text) => write_members(text, &mut out)?,
        Err(_) => return Err(Fault::Output(io::Error::from(ErrorKind::InvalidData))),
    }
    out.flush()?;
    Ok(())
}

fn write_members<W: Write>(text: &str, out: &mut W) -> io::Result<()> {
    write!(out, "{{\"operations\":")?;
    write_list(text, LineKey::Operations, out)?;
    write!(out, ",\"stopped\":{}", stop_in(text))?;
    write!(out, ",\"dump\":")?;
    write_list(text, LineKey::Dump, out)?;
    write!(out, ",\"openings\":")?;
    write_list(text, LineKey::Openings, out)?;
    write!(out, ",\"home\":")?;
    write_list(text, LineKey::Home, out)?;
    writeln!(
        out,
        ",\"verdict\":\"{}\"}}",
        told_in(text, LineKey::Verdict)
    )
}

/// The write at which the device stopped, or null.
fn stop_in(text: &str) -> &str {
    match told_in(text, LineKey::Stopped) {
        "at end" => "null",
        write => write,
    }
}

/// The text after the first word of the line of this key.
fn told_in(text: &str, wanted: LineKey) -> &str {
    let mut key = LineKey::Operations;
    for line in text.lines() {
        key = key.after(line);
        if key == wanted {
            return sides_of(line, " ").1;
        }
    }
    ""
}

/// Writes the list of the lines of this key.
fn write_list<W: Write>(text: &str, wanted: LineKey, out: &mut W) -> io::Result<()> {
    let mut key = LineKey::Operations;
    let mut first = true;
    write!(out, "[")?;
    for line in text.lines() {
        key = key.after(line);
        if key == wanted {
            if !first {
                write!(out, ",")?;
            }
            write_line(key, line, out)?;
            first = false;
        }
    }
    write!(out, "]")
}

/// Writes a line of this key.
fn write_line<W: Write>(key: LineKey, line: &str, out: &mut W) -> io::Result<()> {
    match key {
        LineKey::Operations => {
            let (operation, answer) = sides_of(line, " = ");
            write!(
                out,
                "{{\"operation\":\"{operation}\",\"answer\":\"{answer}\"}}"
            )
        }
        LineKey::Home => {
            let (block, begins) = sides_of(sides_of(line, " ").1, " ");
            write!(out, "{{\"block\":{block},\"begins\":\"{begins}\"}}")
        }
        _ => write!(out, "\"{line}\""),
    }
}

/// The parts of a line before and after this text.
fn sides_of<'a>(line: &'a str, between: &str) -> (&'a str, &'a str) {
    line.split_once(between).unwrap_or((line, ""))
}
