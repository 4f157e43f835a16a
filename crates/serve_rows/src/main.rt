//! Replays recorded client streams against a server in memory. Each row's answers and effects must be as wanted, also with a stop at each
//! device write.
//!
//! `given` reads a row, `spelling` spells bytes, `client` sends and gets them, `connection` serves a row, and `stops` serves it with a stop at
//! each write.
#![tactic(auto)]

mod client;
mod connection;
mod given;
mod spelling;
mod stops;

use log_rows::RowError;
use log_rows::words::cut;
use std::alloc::Global;
use std::fmt::Write;
use std::process::ExitCode;
use std::sync::Wait;
use std::thread::Threads;
use std::{env, fs, io};

fn main(rt: HostRuntime) -> ExitCode {
    match check_files(&rt, &rt) {
        Ok(true) => ExitCode::from(0),
        _ => ExitCode::from(1),
    }
}

/// Checks each file that the words name; false if one could not be checked.
fn check_files<T: Threads + Wait + Sync>(rt: &HostRuntime, threads: &T) -> io::Result<bool> {
    let words: Vec<String> = env::args(rt)?.collect(rt.alloc())?;
    let mut is_whole = true;
    for name in words.iter().skip(1) {
        let text = fs::read_to_string(rt, name.as_str())?;
        match report_of(threads, rt.alloc(), name.as_str(), text.as_str()) {
            Ok(lines) => print!(rt; "{lines}")?,
            Err(_) => {
                println!(rt; "{name}: a row can't be done")?;
                is_whole = false;
            }
        }
    }
    Ok(is_whole)
}

/// Checks a file's rows. Returns how many held, and the result of each other one.
fn report_of<T: Threads + Wait + Sync>(
    threads: &T,
    alloc: Global,
    name: &str,
    text: &str,
) -> Result<String, RowError> {
    let (mut held, mut count) = (0u64, 0u64);
    let mut others = String::new(alloc);
    for row in text.split("\n== ").skip(1) {
        count = count.saturating_add(1);
        let (given, wanted) = cut(row, "\n-->\n")?;
        let found = found_of(threads, alloc, text, given)?;
        if found.as_str().trim() == wanted.trim() {
            held = held.saturating_add(1);
        } else {
            write_other(&mut others, given, wanted, found.as_str())?;
        }
    }
    Ok(format!(in alloc; "{name}: {held} of {count} rows held\n{others}")?)
}

/// The result of a row. A file has lines about its rows, a line `rows KIND`, and rows: a line `== NAME`, what is given, a line `-->`, and
/// what is wanted.
fn found_of<T: Threads + Wait + Sync>(
    threads: &T,
    alloc: Global,
    file: &str,
    row: &str,
) -> Result<String, RowError> {
    let (_name, given) = cut(row, "\n")?;
    let given = given::read(alloc, given)?;
    if file.contains("\nrows stops\n") {
        stops::found(threads, alloc, &given)
    } else {
        connection::found(threads, alloc, &given)
    }
}

/// Writes the lines about a row that did not hold.
fn write_other(others: &mut String, row: &str, wanted: &str, found: &str) -> Result<(), RowError> {
    let (name, _given) = cut(row, "\n")?;
    writeln!(others, "  {name}\n    wanted:")?;
    write_indented(others, wanted)?;
    writeln!(others, "    found:")?;
    write_indented(others, found)
}

/// Writes indented lines.
fn write_indented(others: &mut String, text: &str) -> Result<(), RowError> {
    for line in text.trim().lines() {
        writeln!(others, "      {line}")?;
    }
    Ok(())
}
