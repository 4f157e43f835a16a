//! Rows of runs, over both journals.
use crate::words::{text_of, words_in};
use jbench_words::fault::CommandStatus;
use jbench_words::words::{CommandWords, OneThreadWords, RunWords, StopWords, parse};
use log_rows::RowError;
use log_rows::words::cut;
use run_rows::journals::Runner;
use run_rows::scripts::given_script;
use script_run::{Stop, Stops};
use std::alloc::Global;

/// Runs. Given: the words of `jbench run` on a line, and a script. Found: the lines that it prints, and its exit status.
pub fn run<J: Runner>(alloc: Global, journal: &J, given: &str) -> Result<String, RowError> {
    let (line, script) = cut(given, "\n")?;
    let words = words_in(alloc, line)?;
    match parse(alloc, &words) {
        Ok(CommandWords::OneThread(OneThreadWords::Run(words))) => run_script(
            alloc, journal, &words, script,
        ),
        _ => Err(RowError::Unread),
    }
}

/// The lines and the exit status of a run over this journal.
fn run_script<J: Runner>(
    alloc: Global,
    journal: &J,
    words: &RunWords<'_>,
    script: &str,
) -> Result<String, RowError> {
    let script = given_script(alloc, script)?;
    let stops = Stops {
        failing_call: words.failing_call,
        run: stop_told(&words.run),
        opening: stop_told(&words.opening),
    };
    let mut out = Vec::new(alloc);
    match journal.run(alloc, &script, &stops, &mut out) {
        Ok(right) => text_of(alloc, &out, &[], status_of(right)),
        Err(_) => Err(RowError::Unread),
    }
}

/// A device's stop, by the words.
fn stop_told(words: &StopWords) -> Stop<'_> {
    Stop {
        at_write: words.at_write,
        keep: &words.keep,
    }
}

/// The status of a run with this verdict.
fn status_of(right: bool) -> CommandStatus {
    if right {
        CommandStatus::Fine
    } else {
        CommandStatus::VerdictFalse
    }
}
