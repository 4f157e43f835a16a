//! The lines of an apply, each as a JSON object.
use jbench_logs::objects::write_members;
use std::alloc::Global;
use std::io;
use std::io::{ErrorKind, LineWriter, Write};
use std::str::from_utf8;

/// A writer that takes lines, and writes each complete line as an object on a line.
#[derive(Drop)]
pub(crate) struct Objects<W: Write + Drop> {
    /// The incomplete line.
    line: Vec<u8>,
    out: LineWriter<W>,
}

impl<W: Write + Drop> Objects<W> {
    /// A writer of objects to `out`.
    pub(crate) fn new(alloc: Global, out: W) -> io::Result<Objects<W>> {
        Ok(Objects {
            line: Vec::new(alloc),
            out: LineWriter::new(alloc, out)?,
        })
    }

    /// Writes the object of the line, which is complete, and clears the line.
    fn write_object(&mut self) -> io::Result<()> {
        match from_utf8(&self.line) {
            Ok(line) => write_line(&mut self.out, line)?,
            Err(_) => return Err(io::Error::from(ErrorKind::InvalidData)),
        }
        self.line.clear();
        Ok(())
    }
}

impl<W: Write + Drop> Write for Objects<W> {
    fn write(&mut self, buf: &[u8]) -> io::Result<usize> {
        if buf.is_empty() {
            return Ok(0);
        }
        match buf[0] {
            b'\n' => self.write_object()?,
            byte => self.line.push(byte)?,
        }
        Ok(1)
    }

    fn flush(&mut self) -> io::Result<()> {
        self.out.flush()
    }
}

/// Writes a line of an apply as an object.
fn write_line<W: Write>(out: &mut W, line: &str) -> io::Result<()> {
    match line.split_once(" = ") {
        Some((operation, answer)) => {
            write_operation(out, operation)?;
            write_answer(out, operation, answer)?;
        }
        None => {
            let (outcome, numbers) = sides_of(line);
            write!(out, "{{\"outcome\":\"{outcome}\",")?;
            write_members(out, numbers)?;
        }
    }
    writeln!(out, "}}")
}

/// Begins the object of an operation, with its name and its numbers.
fn write_operation<W: Write>(out: &mut W, operation: &str) -> io::Result<()> {
    let (name, numbers) = sides_of(operation);
    let (first, second) = sides_of(numbers);
    write!(out, "{{\"operation\":\"{name}\"")?;
    match name {
        "start" | "extend" | "restart" => {
            write!(out, ",\"handle\":{first},\"credits\":{second}")
        }
        "write" | "revoke" | "read" => write!(out, ",\"handle\":{first},\"block\":{second}"),
        "direct" => write!(out, ",\"block\":{first}"),
        _ if !first.is_empty() => write!(out, ",\"handle\":{first}"),
        _ => Ok(()),
    }
}

/// Writes an operation's result: a refusal or an answer. A turn that names a transaction has that too.
fn write_answer<W: Write>(out: &mut W, operation: &str, answer: &str) -> io::Result<()> {
    let (word, rest) = sides_of(answer);
    if word == "refused" {
        write_refusal(out, rest)
    } else if rest.is_empty() {
        write_word(out, operation, word)
    } else {
        write_turn(out, word, rest)
    }
}

/// Writes a refusal, which is a number and a name.
fn write_refusal<W: Write>(out: &mut W, refusal: &str) -> io::Result<()> {
    let (number, name) = sides_of(refusal);
    write!(
        out,
        ",\"refusal\":{{\"number\":{number},\"name\":\"{name}\"}}"
    )
}

/// Writes the answer of a turn that names a transaction.
fn write_turn<W: Write>(out: &mut W, word: &str, transaction: &str) -> io::Result<()> {
    write!(out, ",\"answer\":\"{word}\",\"transaction\":{transaction}")
}

/// Writes an answer of one word: a transaction's number as a number, but what a read gives always as a text.
fn write_word<W: Write>(out: &mut W, operation: &str, word: &str) -> io::Result<()> {
    if !operation.starts_with("read ") && word.parse::<u64>().is_ok() {
        write!(out, ",\"answer\":{word}")
    } else {
        write!(out, ",\"answer\":\"{word}\"")
    }
}

/// The first word of a text, and the rest.
fn sides_of(text: &str) -> (&str, &str) {
    text.split_once(' ').unwrap_or((text, ""))
}
