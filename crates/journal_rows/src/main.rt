//! Checks examples in files of rows: it does what each row gives by public functions of the crates, and prints how many of a file's rows
//! held, and each row that did not.
//!
//! `row_file` reads a file of rows, `repetition` expands a row's repetitions, `kinds` finds a row's function, and `report` compares the
//! result with the wanted one. `log_rows` and `run_rows` have the functions for blocks, logs and openings, and for stops and sweeps of runs;
//! `runs` those for whole runs, `words` and `benches` those for the words of `jbench` and its times.
#![tactic(auto)]

mod benches;
mod kinds;
mod repetition;
mod report;
mod row_file;
mod runs;
mod words;

use log_rows::RowError;
use report::report_of;
use std::process::ExitCode;
use std::sync::Wait;
use std::{env, fs, io};

fn main(rt: HostRuntime) -> ExitCode {
    match check_files(&rt, &rt) {
        Ok(true) => ExitCode::from(0),
        _ => ExitCode::from(1),
    }
}

/// Checks each file that the words name, and prints the results; false if one could not be checked.
fn check_files<W: Wait>(rt: &HostRuntime, waits: &W) -> io::Result<bool> {
    let words: Vec<String> = env::args(rt)?.collect(rt.alloc())?;
    let mut is_whole = true;
    for name in words.iter().skip(1) {
        is_whole = check_file(rt, waits, name.as_str())? && is_whole;
    }
    Ok(is_whole)
}

/// Checks one file, and prints the result; false if it could not be checked.
fn check_file<W: Wait>(rt: &HostRuntime, waits: &W, name: &str) -> io::Result<bool> {
    match fs::read_to_string(rt, name) {
        Ok(text) => print_report(rt, waits, name, text.as_str()),
        Err(_) => print_failure(rt, name, "it can't be read"),
    }
}

/// Prints the result of a text's rows.
fn print_report<W: Wait>(rt: &HostRuntime, waits: &W, name: &str, text: &str) -> io::Result<bool> {
    match report_of(waits, rt.alloc(), name, text) {
        Ok(report) => {
            print!(rt; "{}", report.lines)?;
            Ok(report.is_whole)
        }
        Err(RowError::Unread) => print_failure(
            rt,
            name,
            "its head, its kind or a row can't be read",
        ),
        Err(RowError::Memory) => print_failure(rt, name, "memory ran out"),
    }
}

/// Prints why a file's rows cannot be checked.
fn print_failure(rt: &HostRuntime, name: &str, why: &str) -> io::Result<bool> {
    println!(rt; "{name}: {why}")?;
    Ok(false)
}
