//! Reads the values of a command's words, and checks their limits.
ghost use Rattle.std.specs.Prelude.{◌≡◌, ◌≤◌, IfOk, IfSome};
ghost use Rattle.journal_script.specs.Measures.{AreLimited};
ghost use Rattle.log_format.specs.Size.{IsBlockSize};

use crate::wanted::Wanted;
use crate::words::{
    ApplyWords, BenchWords, CatWords, CommandWords, DumpWords, FormatWords, LogPaths,
    OneThreadWords, RecoverWords, RunWords, ServeWords, ShowWords, StopWords, SweepWords,
};
use clap::ArgMatches;
use jbench_help::Shell;
use journal_script::{DEFAULTS, HOMES, LENGTHS, Measures, is_block_size, limited, uuid_of};
use std::alloc::{AllocError, Global};

/// The default seconds of the commit interval: those of ext4.
const COMMIT_INTERVAL: u64 = 5;

/// The default blocks of a transaction of `bench`.
const COPIES: u64 = 4;

/// The numbers of a list with commas; `None` if it is malformed. An empty text is an empty list.
fn list_of(alloc: Global, text: &str) -> Result<Option<Vec<u64>>, AllocError> {
    if text.is_empty() {
        return Ok(Some(Vec::new(alloc)));
    }
    let mut numbers = Vec::new(alloc);
    for word in text.split(',') {
        match word.parse::<u64>() {
            Ok(number) => numbers.push(number)?,
            Err(_) => return Ok(None),
        }
    }
    Ok(Some(numbers))
}

/// An option's number, which must be within inclusive limits; `None` without the option.
fn number_of(
    matches: &ArgMatches<'_>,
    name: &str,
    limits: (u64, u64),
    wanted: Wanted,
) -> Result<Option<u64>, Wanted>
    ensures least { IfOk result (λ told. IfSome told (λ number. limits.0 ≤ number)) }
    ensures most { IfOk result (λ told. IfSome told (λ number. number ≤ limits.1)) }
{
    match matches.get_str(name) {
        Some(word) => match limited(word, limits) {
            Some(number) => Ok(Some(number)),
            None => Err(wanted),
        },
        None => Ok(None),
    }
}

/// The numbers of an option's list; none without the option.
fn numbers_of(
    alloc: Global,
    matches: &ArgMatches<'_>,
    name: &str,
    wanted: Wanted,
) -> Result<Vec<u64>, Wanted> {
    list_of(alloc, matches.get_str(name).unwrap_or(""))?.ok_or(wanted)
}

/// The stop of the run of `run`.
fn run_stop(alloc: Global, matches: &ArgMatches<'_>) -> Result<StopWords, Wanted> {
    Ok(StopWords {
        at_write: number_of(matches, "stop", (1, u64::MAX), Wanted::WriteNumber)?,
        keep: numbers_of(alloc, matches, "keep", Wanted::WriteNumbers)?,
    })
}

/// The stop of the opening of `run`.
fn opening_stop(alloc: Global, matches: &ArgMatches<'_>) -> Result<StopWords, Wanted> {
    Ok(StopWords {
        at_write: number_of(matches, "stop2", (1, u64::MAX), Wanted::OpeningNumber)?,
        keep: numbers_of(alloc, matches, "keep2", Wanted::OpeningNumbers)?,
    })
}

/// The image files of `run`.
fn image_paths<'a>(matches: &ArgMatches<'a>) -> Result<Option<LogPaths<'a>>, Wanted> {
    match (matches.get_str("image-log"), matches.get_str("image-home")) {
        (Some(log), Some(home)) => Ok(Some(LogPaths { log, home })),
        (None, None) => Ok(None),
        _ => Err(Wanted::ImageFiles),
    }
}

/// The failing call of `run`, if there is no stop.
fn failing_call(matches: &ArgMatches<'_>) -> Result<Option<u64>, Wanted> {
    let call = number_of(matches, "fail", (1, u64::MAX), Wanted::CallNumber)?;
    if call.is_some() && matches.get_str("stop").is_some() {
        return Err(Wanted::StopOrFail);
    }
    Ok(call)
}

fn run_words<'a>(alloc: Global, matches: &ArgMatches<'a>) -> Result<RunWords<'a>, Wanted> {
    let run = run_stop(alloc, matches)?;
    Ok(RunWords {
        script: script_told(matches),
        failing_call: failing_call(matches)?,
        run,
        opening: opening_stop(alloc, matches)?,
        image: image_paths(matches)?,
        json: matches.get_flag("json"),
    })
}

/// The block size of `format` in bytes.
fn block_size_told(matches: &ArgMatches<'_>) -> Result<usize, Wanted>
    ensures { IfOk result IsBlockSize }
{
    let told = number_of(matches, "block", (1024, 4096), Wanted::BlockSize)?;
    let bytes = told.unwrap_or(DEFAULTS.block_size as u64);
    if is_block_size(bytes) {
        Ok(bytes as usize)
    } else {
        Err(Wanted::BlockSize)
    }
}

/// The UUID of `format`.
fn uuid_told(alloc: Global, matches: &ArgMatches<'_>) -> Result<[u8; 16], Wanted> {
    match matches.get_str("uuid") {
        Some(digits) => uuid_of(alloc, digits)?.ok_or(Wanted::HexDigits),
        None => Ok(DEFAULTS.uuid),
    }
}

/// The home blocks of `format`; without the option, a kept home area needs only one.
fn home_blocks_told(matches: &ArgMatches<'_>, keep_home: bool) -> Result<u64, Wanted>
    ensures some { IfOk result (λ blocks. 1 ≤ blocks) }
    ensures most { IfOk result (λ blocks. blocks ≤ 1048576) }
{
    match number_of(matches, "home", HOMES, Wanted::HomeBlocks)? {
        Some(blocks) => Ok(blocks),
        None if keep_home => Ok(1),
        None => Ok(DEFAULTS.home_blocks),
    }
}

/// The measures of `format`.
fn measures_of(alloc: Global, matches: &ArgMatches<'_>, keep_home: bool) -> Result<Measures, Wanted>
    ensures { IfOk result AreLimited }
{
    let block_size = block_size_told(matches)?;
    let lengths = (u64::from(LENGTHS.0), u64::from(LENGTHS.1));
    let log_blocks = number_of(matches, "length", lengths, Wanted::LogBlocks)?;
    Ok(Measures {
        block_size,
        log_blocks: log_blocks.unwrap_or(u64::from(DEFAULTS.log_blocks)) as u32,
        home_blocks: home_blocks_told(matches, keep_home)?,
        uuid: uuid_told(alloc, matches)?,
        wide: matches.get_flag("wide"),
    })
}

fn format_words<'a>(alloc: Global, matches: &ArgMatches<'a>) -> Result<FormatWords<'a>, Wanted> {
    let keep_home = matches.get_flag("keep-home");
    let zero_home = matches.get_flag("zero-home");
    if keep_home && zero_home {
        return Err(Wanted::KeepOrZero);
    }
    Ok(FormatWords {
        paths: log_paths(matches),
        measures: measures_of(alloc, matches, keep_home)?,
        keep_home,
        has_to_be_new: matches.get_flag("new"),
        discards: matches.get_flag("discard"),
        zero_home,
        force: matches.get_flag("force"),
    })
}

fn sweep_words<'a>(matches: &ArgMatches<'a>) -> SweepWords<'a> {
    SweepWords {
        script: script_told(matches),
        fails: matches.get_flag("fail"),
        json: matches.get_flag("json"),
    }
}

/// A command's log files.
fn log_paths<'a>(matches: &ArgMatches<'a>) -> LogPaths<'a> {
    LogPaths {
        log: log_told(matches),
        home: matches.get_str("home_file").unwrap_or(""),
    }
}

fn dump_words<'a>(matches: &ArgMatches<'a>) -> Result<DumpWords<'a>, Wanted> {
    let damaged = matches.get_flag("damaged");
    let copy = number_of(matches, "copy", (1, u64::MAX), Wanted::Place)?;
    if damaged && copy.is_some() {
        return Err(Wanted::DamagedOrCopy);
    }
    let json = matches.get_flag("json");
    if json && copy.is_some() {
        return Err(Wanted::JsonOrCopy);
    }
    Ok(DumpWords {
        log: log_told(matches),
        damaged,
        copy,
        json,
    })
}

fn show_words<'a>(matches: &ArgMatches<'a>) -> ShowWords<'a> {
    ShowWords {
        log: log_told(matches),
        json: matches.get_flag("json"),
    }
}

fn cat_words<'a>(matches: &ArgMatches<'a>) -> Result<CatWords<'a>, Wanted> {
    match number_of(matches, "block", (0, u64::MAX), Wanted::Block)? {
        Some(block) => Ok(CatWords {
            paths: log_paths(matches),
            block,
            wait: wait_told(matches)?,
        }),
        None => Err(Wanted::Block),
    }
}

fn recover_words<'a>(matches: &ArgMatches<'a>) -> Result<RecoverWords<'a>, Wanted> {
    Ok(RecoverWords {
        paths: log_paths(matches),
        before_damage: matches.get_flag("before-damage"),
        dry_run: matches.get_flag("dry-run"),
        json: matches.get_flag("json"),
        wait: wait_told(matches)?,
    })
}

fn apply_words<'a>(matches: &ArgMatches<'a>) -> Result<ApplyWords<'a>, Wanted> {
    Ok(ApplyWords {
        paths: log_paths(matches),
        script: script_told(matches),
        stay: matches.get_flag("stay"),
        keep_going: matches.get_flag("keep-going"),
        make_room: matches.get_flag("make-room"),
        json: matches.get_flag("json"),
        wait: wait_told(matches)?,
    })
}

fn bench_words<'a>(matches: &ArgMatches<'a>) -> Result<BenchWords<'a>, Wanted> {
    let copies = number_of(matches, "copies", (1, u64::MAX), Wanted::Copies)?;
    Ok(BenchWords {
        paths: log_paths(matches),
        seconds: number_of(matches, "seconds", (1, 86_400), Wanted::Seconds)?,
        transactions: number_of(matches, "transactions", (1, u64::MAX), Wanted::Transactions)?,
        copies: copies.unwrap_or(COPIES),
        threads: number_of(matches, "threads", (1, 64), Wanted::Threads)?,
        csv: matches.get_flag("csv"),
        wait: wait_told(matches)?,
    })
}

fn serve_words<'a>(matches: &ArgMatches<'a>) -> Result<ServeWords<'a>, Wanted> {
    Ok(ServeWords {
        paths: log_paths(matches),
        read_only: matches.get_flag("read-only"),
        export: matches.get_str("export").unwrap_or(""),
        commit_interval: interval_told(matches)?,
        wait: wait_told(matches)?,
    })
}

/// The seconds of the commit interval.
fn interval_told(matches: &ArgMatches<'_>) -> Result<u64, Wanted> {
    let told = number_of(
        matches,
        "commit-interval",
        (0, 86_400),
        Wanted::CommitInterval,
    )?;
    Ok(told.unwrap_or(COMMIT_INTERVAL))
}

/// The most seconds to wait for locked files; 0 without the option.
fn wait_told(matches: &ArgMatches<'_>) -> Result<u64, Wanted> {
    let told = number_of(matches, "wait", (1, 86_400), Wanted::Wait)?;
    Ok(told.unwrap_or(0))
}

/// The shell of `completions`.
fn shell_told(matches: &ArgMatches<'_>) -> Result<Shell, Wanted> {
    Shell::named(matches.get_str("shell").unwrap_or("")).ok_or(Wanted::Shell)
}

/// A command's script file.
fn script_told<'a>(matches: &ArgMatches<'a>) -> &'a str {
    matches.get_str("script").unwrap_or("")
}

/// A command's log file.
fn log_told<'a>(matches: &ArgMatches<'a>) -> &'a str {
    matches.get_str("log").unwrap_or("")
}

pub(crate) fn words_of<'a>(
    alloc: Global,
    matches: &ArgMatches<'a>,
) -> Result<CommandWords<'a>, Wanted> {
    match matches.subcommand() {
        Some((name, told)) => command_words(alloc, name, told),
        None => Err(Wanted::Command),
    }
}

/// The words of the command of this name.
fn command_words<'a>(
    alloc: Global,
    name: &str,
    told: &ArgMatches<'a>,
) -> Result<CommandWords<'a>, Wanted> {
    match name {
        "threads" => Ok(CommandWords::Threads(script_told(told))),
        "bench" => bench_words(told).map(CommandWords::Bench),
        "serve" => serve_words(told).map(CommandWords::Serve),
        _ => one_thread_words(alloc, name, told).map(CommandWords::OneThread),
    }
}

/// The words of the command of this name, if it starts no thread.
fn one_thread_words<'a>(
    alloc: Global,
    name: &str,
    told: &ArgMatches<'a>,
) -> Result<OneThreadWords<'a>, Wanted> {
    match name {
        "run" => run_words(alloc, told).map(OneThreadWords::Run),
        "sweep" => Ok(OneThreadWords::Sweep(sweep_words(told))),
        "check" => Ok(OneThreadWords::Check(script_told(told))),
        "format" => format_words(alloc, told).map(OneThreadWords::Format),
        "dump" => dump_words(told).map(OneThreadWords::Dump),
        "cat" => cat_words(told).map(OneThreadWords::Cat),
        "show" => Ok(OneThreadWords::Show(show_words(told))),
        "recover" => recover_words(told).map(OneThreadWords::Recover),
        "upgrade" => Ok(OneThreadWords::Upgrade(log_told(told))),
        "apply" => apply_words(told).map(OneThreadWords::Apply),
        "completions" => Ok(OneThreadWords::Completions(shell_told(told)?)),
        "man" => Ok(OneThreadWords::Man),
        _ => Err(Wanted::Command),
    }
}
