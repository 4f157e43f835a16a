//! The program `jbench`: reads its words, and holds closed standard streams so that no log file gets their number.
//!
//! `obeying` runs the command that the words name, `serving` is the command `serve`, `telling` its device, and `fetching`
//! what it fetches.
#![tactic(auto)]

mod fetching;
mod obeying;
mod serving;
mod telling;

use crate::obeying::obey;
use file_device::UnknownContents;
use jbench_files::ScriptText;
use jbench_words::fault::{CommandStatus, refuse_rest};
use jbench_words::{arguments, words};
use std::fs::File;
use std::process::ExitCode;
use std::sync::Wait;
use std::thread::Threads;
use std::time::Clock;
use std::{fs, io};

/// An empty file.
const NOTHING: &str = "/dev/null";

fn main(rt: HostRuntime) -> ExitCode {
    match jbench(&rt, &rt) {
        Ok(status) => ExitCode::from(status),
        Err(e) => ExitCode::from(refuse_rest(&mut rt.stderr(), e)),
    }
}

/// Opens three files, which take the numbers of closed standard streams. Otherwise a log's file could take one, and output would overwrite
/// the log.
fn hold_streams(rt: &HostRuntime) -> io::Result<(File, File, File)> {
    Ok((
        fs::open(rt, NOTHING)?,
        fs::open(rt, NOTHING)?,
        fs::open(rt, NOTHING)?,
    ))
}

/// Reads the program's words and runs their command, while the standard streams are held.
fn jbench<T: Threads + Wait + Clock + Sync>(
    rt: &HostRuntime,
    threads: &T,
) -> io::Result<CommandStatus> {
    let _held = hold_streams(rt)?;
    let arguments = arguments::read(rt, rt.alloc())?;
    let mut text = ScriptText::new(rt.alloc());
    match words::parse(rt.alloc(), arguments.words()) {
        Ok(words) => match arguments.no_text() {
            Some(word) => words::refuse_no_text(rt.alloc(), &words, word, &mut rt.stderr()),
            None => obey(
                rt,
                threads,
                UnknownContents,
                &mut text,
                &words,
                io::writer(rt),
                rt.stderr(),
            ),
        },
        Err(e) => words::answer(&e, &mut io::writer(rt), &mut rt.stderr()),
    }
}
