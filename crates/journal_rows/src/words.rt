//! Rows of what the words of `jbench` say, and texts of commands.
use jbench_words::fault::CommandStatus;
use jbench_words::words::{
    ApplyWords, BenchWords, CatWords, CommandWords, DumpWords, FormatWords, OneThreadWords,
    RecoverWords, RunWords, ServeWords, StopWords, SweepWords, parse,
};
use log_rows::RowError;
use run_rows::scripts::measures_text;
use run_rows::texts::written;
use std::alloc::{AllocError, Global};
use std::fmt::Write;

/// The program's words. Given: words that name some work. Found: the command with all its values.
pub fn words(alloc: Global, given: &str) -> Result<String, RowError> {
    let words = words_in(alloc, given)?;
    match parse(alloc, &words) {
        Ok(words) => told(alloc, &words),
        Err(_) => Err(RowError::Unread),
    }
}

fn told(alloc: Global, words: &CommandWords<'_>) -> Result<String, RowError> {
    match words {
        CommandWords::Threads(script) => Ok(format!(in alloc; "threads {script}")?),
        CommandWords::Bench(words) => Ok(told_bench(alloc, words)?),
        CommandWords::Serve(words) => told_serve(alloc, words),
        CommandWords::OneThread(words) => told_one_thread(alloc, words),
    }
}

fn told_one_thread(alloc: Global, words: &OneThreadWords<'_>) -> Result<String, RowError> {
    match words {
        OneThreadWords::Run(words) => Ok(told_run(alloc, words)?),
        OneThreadWords::Sweep(words) => told_sweep(alloc, words),
        OneThreadWords::Check(script) => Ok(format!(in alloc; "check {script}")?),
        OneThreadWords::Format(words) => told_format(alloc, words),
        OneThreadWords::Dump(words) => Ok(told_dump(alloc, words)?),
        OneThreadWords::Cat(words) => Ok(told_cat(alloc, words)?),
        OneThreadWords::Show(words) => {
            let json = if words.json { ", json" } else { "" };
            Ok(format!(in alloc; "show {}{json}", words.log)?)
        }
        OneThreadWords::Recover(words) => Ok(told_recover(alloc, words)?),
        OneThreadWords::Upgrade(log) => Ok(format!(in alloc; "upgrade {log}")?),
        OneThreadWords::Apply(words) => Ok(told_apply(alloc, words)?),
        OneThreadWords::Completions(shell) => Ok(format!(in alloc; "completions {shell:?}")?),
        OneThreadWords::Man => Ok(format!(in alloc; "man")?),
    }
}

fn told_serve(alloc: Global, words: &ServeWords<'_>) -> Result<String, RowError> {
    let only = if words.read_only { ", read-only" } else { "" };
    let mut text = format!(in alloc;
        "serve {} {} export={}{only}",
        words.paths.log, words.paths.home, words.export
    )?;
    push_wait(&mut text, words.wait)?;
    Ok(text)
}

fn told_sweep(alloc: Global, words: &SweepWords<'_>) -> Result<String, RowError> {
    let fails = if words.fails { ", calls fail" } else { "" };
    let json = if words.json { ", json" } else { "" };
    Ok(format!(in alloc; "sweep {}{fails}{json}", words.script)?)
}

fn told_run(alloc: Global, words: &RunWords<'_>) -> Result<String, AllocError> {
    let mut text = format!(in alloc; "run {}", words.script)?;
    if let Some(call) = words.failing_call {
        write!(text, ", fail {call}")?;
    }
    write_stop(&mut text, &words.run)?;
    if words.opening.at_write.is_some() || !words.opening.keep.is_empty() {
        text.push_str(", opening")?;
        write_stop(&mut text, &words.opening)?;
    }
    if let Some(image) = &words.image {
        write!(text, ", image {} {}", image.log, image.home)?;
    }
    if words.json {
        text.push_str(", json")?;
    }
    Ok(text)
}

/// Writes where a device stops, and what it keeps.
fn write_stop(text: &mut String, words: &StopWords) -> Result<(), AllocError> {
    match words.at_write {
        Some(k) => write!(text, ", stop {k}")?,
        None => text.push_str(", no stop")?,
    }
    text.push_str(", keep")?;
    for number in &words.keep {
        write!(text, " {number}")?;
    }
    Ok(())
}

fn told_format(alloc: Global, words: &FormatWords<'_>) -> Result<String, RowError> {
    let measures = measures_text(alloc, &words.measures)?;
    Ok(format!(in alloc;
        "format {} {}: {measures}{}{}{}",
        words.paths.log,
        words.paths.home,
        if words.keep_home { ", home stays" } else { "" },
        if words.has_to_be_new { ", new" } else { "" },
        if words.discards { ", discards" } else { "" }
    )?)
}

fn told_dump(alloc: Global, words: &DumpWords<'_>) -> Result<String, AllocError> {
    let mut text = format!(in alloc; "dump {}", words.log)?;
    if words.damaged {
        text.push_str(", damaged")?;
    }
    if let Some(place) = words.copy {
        write!(text, ", copy {place}")?;
    }
    if words.json {
        text.push_str(", json")?;
    }
    Ok(text)
}

fn told_cat(alloc: Global, words: &CatWords<'_>) -> Result<String, AllocError> {
    let mut text = format!(in alloc;
        "cat {} {} {}",
        words.paths.log, words.paths.home, words.block
    )?;
    push_wait(&mut text, words.wait)?;
    Ok(text)
}

fn told_recover(alloc: Global, words: &RecoverWords<'_>) -> Result<String, AllocError> {
    let mut text = format!(in alloc;
        "recover {} {}{}{}{}",
        words.paths.log,
        words.paths.home,
        if words.before_damage {
            ", before damage"
        } else {
            ""
        },
        if words.dry_run { ", dry run" } else { "" },
        if words.json { ", json" } else { "" }
    )?;
    push_wait(&mut text, words.wait)?;
    Ok(text)
}

fn told_apply(alloc: Global, words: &ApplyWords<'_>) -> Result<String, AllocError> {
    let mut text = format!(in alloc;
        "apply {} {} {}{}{}{}{}",
        words.paths.log,
        words.paths.home,
        words.script,
        if words.stay { ", stay" } else { "" },
        if words.keep_going { ", keep going" } else { "" },
        if words.make_room { ", make room" } else { "" },
        if words.json { ", json" } else { "" }
    )?;
    push_wait(&mut text, words.wait)?;
    Ok(text)
}

/// Adds how long a command waits, if it does.
fn push_wait(text: &mut String, seconds: u64) -> Result<(), AllocError> {
    if seconds > 0 {
        write!(text, ", wait {seconds}")?;
    }
    Ok(())
}

fn told_bench(alloc: Global, words: &BenchWords<'_>) -> Result<String, AllocError> {
    let mut text = format!(in alloc;
        "bench {} {}, copies {}",
        words.paths.log, words.paths.home, words.copies
    )?;
    if let Some(time) = words.most_time() {
        write!(text, ", {} seconds", time.as_secs())?;
    }
    if let Some(transactions) = words.transactions {
        write!(text, ", {transactions} transactions")?;
    }
    if let Some(threads) = words.threads {
        write!(text, ", {threads} threads")?;
    }
    if words.csv {
        text.push_str(", csv")?;
    }
    push_wait(&mut text, words.wait)?;
    Ok(text)
}

/// The words of a line, separated by blanks. A word in quotes may have blanks, or be empty.
pub(crate) fn words_in(alloc: Global, line: &str) -> Result<Vec<&str>, AllocError> {
    let mut words = Vec::new(alloc);
    for (i, part) in line.split('\'').enumerate() {
        if i % 2 == 1 {
            words.push(part)?;
        } else {
            push_words(&mut words, part)?;
        }
    }
    Ok(words)
}

/// Adds the words of a text without quotes.
fn push_words<'a>(words: &mut Vec<&'a str>, text: &'a str) -> Result<(), AllocError> {
    for word in text.split_whitespace() {
        words.push(word)?;
    }
    Ok(())
}

/// A command's standard output and standard error, and its exit status.
pub(crate) fn text_of(
    alloc: Global,
    out: &[u8],
    err: &[u8],
    status: CommandStatus,
) -> Result<String, RowError> {
    let mut text = String::from_str(alloc, written(out)?)?;
    for line in written(err)?.lines() {
        writeln!(text, "stderr: {line}")?;
    }
    write!(text, "exit {}", exit_status(status))?;
    Ok(text)
}

/// The exit status of a command.
fn exit_status(status: CommandStatus) -> u8 {
    match status {
        CommandStatus::Fine => 0,
        CommandStatus::Refused => 1,
        CommandStatus::VerdictFalse => 2,
    }
}
