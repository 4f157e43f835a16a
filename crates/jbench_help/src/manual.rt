//! The program's page for `man`.
use crate::parser::VERSION;
use crate::usage::{PROGRAM, Usage, commands};
use crate::words::Word;
use std::io;
use std::io::Write;

/// Writes the page in `roff`, from the help of the program and its commands. No text has a backslash.
///
/// # Errors
///
/// It could not be written.
pub fn write_manual<W: Write>(out: &mut W) -> io::Result<()> {
    writeln!(
        out,
        ".TH JBENCH 1 \"\" \"jbench {VERSION}\"\n.ad l\n.nh\n.tr -\\-\n.SH NAME\njbench \\- runs, makes and recovers logs\n\
.SH SYNOPSIS\n.B jbench\nCOMMAND [OPTIONS]\n.SH DESCRIPTION\n{}.\n.SH COMMANDS",
        PROGRAM.about
    )?;
    for usage in &commands() {
        write_command(usage, out)?;
    }
    Ok(())
}

fn write_command<W: Write>(usage: &Usage, out: &mut W) -> io::Result<()> {
    write_form(usage, out)?;
    writeln!(out, "\n{}.", usage.about)?;
    write_options(usage.words, out)?;
    writeln!(out, ".PP")?;
    write_text(usage.after_help, out)
}

/// Writes a command's name and its required values.
fn write_form<W: Write>(usage: &Usage, out: &mut W) -> io::Result<()> {
    write!(out, ".SS {}", usage.name)?;
    for word in usage.words {
        if !word.is_option {
            write!(out, " {}", word.value)?;
        }
    }
    Ok(())
}

/// Writes the words that are options.
fn write_options<W: Write>(words: &[Word], out: &mut W) -> io::Result<()> {
    for word in words {
        if word.is_option {
            write_option(word, out)?;
        }
    }
    Ok(())
}

fn write_option<W: Write>(word: &Word, out: &mut W) -> io::Result<()> {
    writeln!(
        out,
        ".TP\n.BI --{} \" {}\"\n{}",
        word.name, word.value, word.help
    )
}

/// Writes a text. Lines that begin with a blank stay lines; others flow. A line that begins like a `roff` request is marked as text.
fn write_text<W: Write>(text: &str, out: &mut W) -> io::Result<()> {
    for line in text.lines() {
        let mark = if line.starts_with('\'') || line.starts_with('.') {
            "\\&"
        } else {
            ""
        };
        writeln!(out, "{mark}{line}")?;
    }
    Ok(())
}
