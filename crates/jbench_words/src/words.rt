//! Parses the program's words, and answers `--help`, `--version` and bad words.
use crate::fault::{self, CommandStatus, Fault};
use crate::reading::words_of;
use crate::wanted::{Wanted, fault_of};
use clap::error::ErrorKind;
use clap::{ArgMatches, Command, Error};
use jbench_help::{Shell, program};
use journal_model::JournalError;
use journal_script::Measures;
use std::alloc::Global;
use std::convert::AsStr;
use std::io;
use std::io::Write;
use std::time::Duration;

/// What the program has to do.
#[derive(Drop)]
pub enum CommandWords<'a> {
    /// Runs the clients of the script in this file in threads.
    Threads(&'a str),
    /// Measures the time of transactions on a log.
    Bench(BenchWords<'a>),
    /// Serves a log's home area as a block device.
    Serve(ServeWords<'a>),
    /// Does what starts no thread.
    OneThread(OneThreadWords<'a>),
}

/// What the program does in its own thread.
#[derive(Drop)]
pub enum OneThreadWords<'a> {
    /// Runs a script.
    Run(RunWords<'a>),
    /// Sweeps a script.
    Sweep(SweepWords<'a>),
    /// Checks the script in this file.
    Check(&'a str),
    /// Makes an empty log.
    Format(FormatWords<'a>),
    /// Prints a log.
    Dump(DumpWords<'a>),
    /// Prints a block as an opening would leave it.
    Cat(CatWords<'a>),
    /// Prints a log's superblock.
    Show(ShowWords<'a>),
    /// Opens a log, or says what that would do.
    Recover(RecoverWords<'a>),
    /// Gives the empty log in this file 64-bit block numbers.
    Upgrade(&'a str),
    /// Applies a script's operations to a log.
    Apply(ApplyWords<'a>),
    /// Prints the completions for this shell.
    Completions(Shell),
    /// Prints the page for `man`.
    Man,
}

#[derive(Drop)]
pub struct SweepWords<'a> {
    /// The script's file.
    pub script: &'a str,
    /// Whether each call of the run also fails in turn.
    pub fails: bool,
    /// Whether to print JSON.
    pub json: bool,
}

/// The seconds of `bench` without a given end.
const SECONDS: u64 = 10;

#[derive(Clone, Copy)]
pub struct BenchWords<'a> {
    pub paths: LogPaths<'a>,
    /// The most seconds, if given.
    pub seconds: Option<u64>,
    /// The most transactions, if given.
    pub transactions: Option<u64>,
    /// Blocks that each transaction writes.
    pub copies: u64,
    /// How many clients run in threads; `None` for one client without threads.
    pub threads: Option<u64>,
    /// Whether to print values with commas.
    pub csv: bool,
    /// The most seconds to wait for a locked file.
    pub wait: u64,
}

impl BenchWords<'_> {
    /// The most transactions that it commits.
    pub fn most_transactions(&self) -> u64 {
        self.transactions.unwrap_or(u64::MAX)
    }

    /// The time after which it begins no transaction, if there is one.
    pub fn most_time(&self) -> Option<Duration> {
        match (self.seconds, self.transactions) {
            (Some(seconds), _) => Some(Duration::from_secs(seconds)),
            (None, Some(_)) => None,
            (None, None) => Some(Duration::from_secs(SECONDS)),
        }
    }
}

#[derive(Clone, Copy)]
pub struct ServeWords<'a> {
    pub paths: LogPaths<'a>,
    /// Whether to refuse changes.
    pub read_only: bool,
    /// The export's name.
    pub export: &'a str,
    /// The most seconds between an answer and its commit; 0: no bound.
    pub commit_interval: u64,
    /// The most seconds to wait for locked files.
    pub wait: u64,
}

#[derive(Clone, Copy)]
pub struct ApplyWords<'a> {
    pub paths: LogPaths<'a>,
    /// The script's file.
    pub script: &'a str,
    /// Whether to leave the journal open.
    pub stay: bool,
    /// Whether to go on after a refused operation.
    pub keep_going: bool,
    /// Whether to make a checkpoint round when the ring has no room for an operation.
    pub make_room: bool,
    /// Whether to print an object of JSON for each line.
    pub json: bool,
    /// The most seconds to wait for a locked file.
    pub wait: u64,
}

#[derive(Clone, Copy)]
pub struct DumpWords<'a> {
    /// The log's file.
    pub log: &'a str,
    /// Whether to print a damaged log up to the damage.
    pub damaged: bool,
    /// The place of the copy to print instead of the log, if given.
    pub copy: Option<u64>,
    /// Whether to print an object of JSON.
    pub json: bool,
}

#[derive(Clone, Copy)]
pub struct ShowWords<'a> {
    /// The log's file.
    pub log: &'a str,
    /// Whether to print an object of JSON.
    pub json: bool,
}

#[derive(Clone, Copy)]
pub struct CatWords<'a> {
    pub paths: LogPaths<'a>,
    /// The home block.
    pub block: u64,
    /// The most seconds to wait for a file that another program writes.
    pub wait: u64,
}

#[derive(Clone, Copy)]
pub struct RecoverWords<'a> {
    pub paths: LogPaths<'a>,
    /// Whether to open a log even if it is damaged or ahead.
    pub before_damage: bool,
    /// Whether to say what would be done, and write nothing.
    pub dry_run: bool,
    /// Whether to print an object of JSON.
    pub json: bool,
    /// The most seconds to wait for a locked file.
    pub wait: u64,
}

/// The files of a log.
#[derive(Clone, Copy)]
pub struct LogPaths<'a> {
    /// The log's file.
    pub log: &'a str,
    /// The home area's file.
    pub home: &'a str,
}

#[derive(Drop)]
pub struct FormatWords<'a> {
    /// The files to make.
    pub paths: LogPaths<'a>,
    /// The log's measures, within their limits; a kept home area has at least these blocks.
    pub measures: Measures,
    /// Whether home exists and stays as it is.
    pub keep_home: bool,
    /// Whether to refuse a file that exists.
    pub has_to_be_new: bool,
    /// Whether transactions that the log's file holds may be lost.
    pub discards: bool,
    /// Whether a home area that is a block device is filled with zeros.
    pub zero_home: bool,
    /// Whether what another program keeps on a block device may be lost.
    pub force: bool,
}

#[derive(Drop)]
pub struct RunWords<'a> {
    /// The script's file.
    pub script: &'a str,
    /// The run's failing call, if given.
    pub failing_call: Option<u64>,
    /// The stop of the run.
    pub run: StopWords,
    /// The stop of the opening of the crash image.
    pub opening: StopWords,
    /// The files for the crash image, if given.
    pub image: Option<LogPaths<'a>>,
    /// Whether to print JSON.
    pub json: bool,
}

/// Where a device stops.
#[derive(Drop)]
pub struct StopWords {
    /// The write at which it stops, if given.
    pub at_write: Option<u64>,
    /// The unflushed writes that a crash keeps.
    pub keep: Vec<u64>,
}

/// The program's work, or what is wrong with the words.
fn told<'a>(alloc: Global, matches: &ArgMatches<'a>) -> Result<CommandWords<'a>, Error> {
    match words_of(alloc, matches) {
        Ok(words) => Ok(words),
        Err(wanted) => Err(fault_of(alloc, matches.subcommand_name().unwrap_or(""), wanted)),
    }
}

/// Parses the words of this program.
fn parse_as<'a, S: AsStr>(
    alloc: Global,
    program: &mut Command<'a>,
    words: &'a [S],
) -> Result<CommandWords<'a>, Error> {
    match program.try_get_matches_from_mut(words) {
        Ok(matches) => told(alloc, &matches),
        Err(e) => Err(e),
    }
}

/// Parses the words; the first is the program's own name.
///
/// # Errors
///
/// The words are wrong, as `clap` says; they ask for help or the version; memory ran out.
pub fn parse<'a, S: AsStr>(alloc: Global, words: &'a [S]) -> Result<CommandWords<'a>, Error> {
    match program(alloc) {
        Ok(mut program) => parse_as(alloc, &mut program, words),
        Err(e) => Err(Error::from(e)),
    }
}

/// Writes the answer to words that name no work: help or the version to `out`, which is no refusal, or what is wrong to `err`.
///
/// # Errors
///
/// The answer could not be written.
pub fn answer(e: &Error, out: &mut impl Write, err: &mut impl Write) -> io::Result<CommandStatus> {
    if e.use_stderr() || e.kind() == ErrorKind::OutOfMemory {
        refuse_words(e, err)
    } else {
        say(out, e, CommandStatus::Fine)
    }
}

/// Writes what is wrong with the words, or that memory ran out.
fn refuse_words(e: &Error, err: &mut impl Write) -> io::Result<CommandStatus> {
    if e.kind() == ErrorKind::OutOfMemory {
        fault::refuse(err, "", &Fault::Refused(JournalError::Memory))
    } else {
        say(err, e, CommandStatus::Refused)
    }
}

/// Writes what is wrong with a word that is not UTF-8, in which wrong bytes are U+FFFD: an export's name, or a file's.
///
/// # Errors
///
/// The lines could not be written.
pub fn refuse_no_text(
    alloc: Global,
    words: &CommandWords<'_>,
    word: &str,
    err: &mut impl Write,
) -> io::Result<CommandStatus> {
    match words {
        CommandWords::Serve(told) if is_export(told.export, word) => {
            refuse_words(&fault_of(alloc, "serve", Wanted::ExportName), err)
        }
        _ => fault::refuse_file(err, word, io::Error::from(io::ErrorKind::InvalidFilename)),
    }
}

/// Whether a word that is not UTF-8 has this export's name, perhaps after `--export=`.
fn is_export(name: &str, word: &str) -> bool {
    name.contains(char::REPLACEMENT_CHARACTER) && word.ends_with(name)
}

/// Writes an answer, and gives the status back.
fn say(to: &mut impl Write, e: &Error, status: CommandStatus) -> io::Result<CommandStatus> {
    write!(to, "{e}")?;
    Ok(status)
}
