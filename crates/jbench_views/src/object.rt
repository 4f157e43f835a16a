//! The lines of a dump as one JSON object.
use jbench_logs::objects::write_members;
use std::alloc::Global;
use std::io;
use std::io::{BufWriter, ErrorKind, Write};
use std::str::from_utf8;

/// Writes the object of this dump, and a newline. Writes nothing if a refusal kept the dump from its end.
///
/// # Errors
///
/// The output could not be written.
pub(crate) fn write_object<W: Write + Drop>(alloc: Global, text: &[u8], out: W) -> io::Result<()> {
    let Ok(text) = from_utf8(text) else {
        return Err(io::Error::from(ErrorKind::InvalidData));
    };
    if !has_end(text) {
        return Ok(());
    }
    let mut out = BufWriter::new(alloc, out)?;
    write_dump(text, &mut out)?;
    out.flush()
}

/// Whether a dump has its last line.
fn has_end(text: &str) -> bool {
    for line in text.lines() {
        if is_end(sides_of(line).0) {
            return true;
        }
    }
    false
}

/// Whether this is the first word of the last line of a dump.
fn is_end(word: &str) -> bool {
    word == "end" || word == "empty"
}

/// Writes the lines of a dump: the superblock's, a list of the blocks', and the last one.
fn write_dump<W: Write>(text: &str, out: &mut W) -> io::Result<()> {
    let mut is_later = false;
    for line in text.lines() {
        let (word, rest) = sides_of(line);
        if word == "super" {
            write_super(out, rest)?;
        } else if is_end(word) {
            write_end(out, word, rest)?;
        } else {
            if is_later {
                write!(out, ",")?;
            }
            write_block(out, word, rest)?;
            is_later = true;
        }
    }
    Ok(())
}

/// Writes the superblock's line, and begins the list of the blocks'.
fn write_super<W: Write>(out: &mut W, words: &str) -> io::Result<()> {
    write!(out, "{{\"super\":{{")?;
    write_members(out, words)?;
    write!(out, "}},\"blocks\":[")
}

/// Ends the list of the blocks' lines, and writes the last line, which begins with `word`.
fn write_end<W: Write>(out: &mut W, word: &str, words: &str) -> io::Result<()> {
    write!(out, "],\"{word}\":{{")?;
    write_members(out, words)?;
    writeln!(out, "}}}}")
}

/// Writes a block's line as an object. Its place is before these words.
fn write_block<W: Write>(out: &mut W, place: &str, words: &str) -> io::Result<()> {
    let (kind, rest) = sides_of(words);
    let (transaction, rest) = sides_of(rest);
    write!(
        out,
        "{{\"place\":{place},\"kind\":\"{kind}\",\"transaction\":{transaction}"
    )?;
    if let Some(numbers) = rest.strip_prefix("blocks=") {
        write!(out, ",\"blocks\":[{numbers}]")?;
    } else if !rest.is_empty() {
        write!(out, ",")?;
        write_members(out, rest)?;
    }
    write!(out, "}}")
}

/// The first word of a line, and the rest.
fn sides_of(line: &str) -> (&str, &str) {
    line.split_once(' ').unwrap_or((line, ""))
}
