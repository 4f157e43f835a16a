//! Opens the files that the words name, and runs the command on them. What it did with a script's text is said of a `ScriptText`, which has
//! it afterwards.
ghost use Rattle.std.specs.Prelude.{◌≡◌, ◌≢◌, ◌↔◌, Bool, IfOk, IsOk, false, is_some, true};
ghost use Rattle.jbench_words.specs.declared.fault.CommandStatus.TheVariants.{Fine, Refused};
ghost use Rattle.jbench_files.specs.Cleared.{cleared, log_cleared};
ghost use Rattle.jbench_files.specs.Over.{IsOver};
ghost use Rattle.jbench_logs.specs.Done.{HasUpgraded, Recovers};
ghost use Rattle.jbench_views.specs.Looked.{HasDumped, HasLeft};
ghost use Rattle.jbench_commands.specs.Obeying.{HasObeyed, IsAppliedOver, IsDoneOver, IsFormatDone, IsMadeOn, IsMadeTold, IsOfText, IsOverAny, IsOverHomeDevice, IsOverTwo, over_told};
ghost use Rattle.jbench_commands.specs.Runs.{HasRun, HasTakenEither, runs_told};
ghost use Rattle.jbench_commands.specs.Sweeps.{HasSwept};

use crate::image::ImageFiles;
use crate::progress::ProgressLine;
use crate::{apply, check, run, sweep};
use file_device::{Contents, FileDevice};
use jbench_files::{
    Cleared, KeptHome, KeptPair, LogCleared, LogPair, ScriptText, TextFile, Unmade, Unopened,
    device_before, device_of, device_to_read, home_bytes, make_device, make_log_device,
    names_device, open_log, open_log_to_write, open_or_make_image, open_or_make_log,
    open_or_make_pair, open_pair_within, open_script, open_text, say_failure, sectors_at,
};
use jbench_help::{Shell, write_completions, write_manual};
use jbench_logs::overwriting::may_overwrite;
use jbench_logs::{logs, recovering};
use jbench_views::{cat, dump, show};
use jbench_words::fault::{CommandStatus, refuse, refuse_file};
use jbench_words::watch::Watch;
use jbench_words::words::{
    ApplyWords, CatWords, DumpWords, FormatWords, LogPaths, OneThreadWords, RecoverWords, RunWords,
    ShowWords, SweepWords,
};
use std::alloc::Global;
use std::io;
use std::io::{ErrorKind, Write};

/// Runs the command that the words name. `contents` is what a log's files are assumed to hold. `text` takes the text of a script that the
/// command reads. No command ends with status 2: a sweep counts only right openings.
///
/// # Errors
///
/// The output could not be written, or memory ran out.
pub fn obey<C: Contents, W: Write + Drop, E: Write + Drop>(
    rt: &HostRuntime,
    contents: C,
    text: &mut ScriptText,
    words: &OneThreadWords<'_>,
    out: W,
    err: E,
) -> io::Result<CommandStatus>
    ensures done { IfOk result (λ status. status ≡ Fine → HasObeyed C.contents text.new (W.contents out) words.now) }
    ensures other { IfOk result (λ status. status ≢ Fine → status ≡ Refused) }
{
    match words {
        OneThreadWords::Run(words) => run_file(rt, text, words, out, err),
        OneThreadWords::Sweep(words) => sweep_file(rt, text, words, out, err),
        OneThreadWords::Check(path) => check_file(rt, text, path, out, err),
        OneThreadWords::Format(words) => format_files(rt, contents, words, out, err),
        OneThreadWords::Dump(words) => dump_file(rt, contents, words, out, err),
        OneThreadWords::Cat(words) => cat_files(rt, contents, words, out, err),
        OneThreadWords::Show(words) => show_file(rt, contents, words, out, err),
        OneThreadWords::Recover(words) => recover_files(rt, contents, words, out, err),
        OneThreadWords::Upgrade(path) => upgrade_file(rt, contents, path, out, err),
        OneThreadWords::Apply(words) => apply_files(rt, contents, text, words, out, err),
        OneThreadWords::Completions(shell) => print_completions(*shell, out),
        OneThreadWords::Man => print_manual(out),
    }
}

fn print_completions<W: Write + Drop>(shell: Shell, out: W) -> io::Result<CommandStatus>
    ensures other { IfOk result (λ status. status ≢ Fine → status ≡ Refused) }
{
    let mut out = out;
    write_completions(shell, &mut out)?;
    Ok(CommandStatus::Fine)
}

fn print_manual<W: Write + Drop>(out: W) -> io::Result<CommandStatus>
    ensures other { IfOk result (λ status. status ≢ Fine → status ≡ Refused) }
{
    let mut out = out;
    write_manual(&mut out)?;
    Ok(CommandStatus::Fine)
}

/// Runs the script in a file. The files of an image are opened before it is read.
fn run_file<W: Write + Drop, E: Write + Drop>(
    rt: &HostRuntime,
    text: &mut ScriptText,
    words: &RunWords<'_>,
    out: W,
    err: E,
) -> io::Result<CommandStatus>
    ensures done { IfOk result (λ status. status ≡ Fine → IsOfText text.new words.now.script.now (λ bytes. HasRun (runs_told (is_some words.now.image)) bytes words.now true)) }
    ensures other { IfOk result (λ status. status ≢ Fine → status ≡ Refused) }
{
    let (alloc, mut err) = (rt.alloc(), err);
    let script = match open_text(rt, words.script) {
        Ok(script) => script,
        Err(e) => return refuse_file(&mut err, words.script, e),
    };
    let image = match open_image(rt, words, &script) {
        Ok(image) => image,
        Err(unopened) => return unopened.refuse(&mut err),
    };
    match text.read(alloc, script) {
        Ok(()) => run::run(alloc, words, text.bytes(), image, out, err),
        Err(fault) => refuse(&mut err, words.script, &fault),
    }
}

/// Opens the files of a run's image, if the words name some. They are not the script's.
fn open_image<'a>(
    rt: &HostRuntime,
    words: &RunWords<'a>,
    script: &TextFile<'_>,
) -> Result<Option<ImageFiles>, Unopened<'a>>
    ensures { IfOk result (λ image. is_some image ≡ is_some words.now.image) }
{
    match words.image {
        Some(image) => match open_or_make_image(rt, image, script.file()) {
            Ok(files) => Ok(Some(ImageFiles {
                alloc: rt.alloc(),
                files,
            })),
            Err(unopened) => Err(unopened),
        },
        None => Ok(None),
    }
}

fn sweep_file<W: Write + Drop, E: Write + Drop>(
    rt: &HostRuntime,
    text: &mut ScriptText,
    words: &SweepWords<'_>,
    out: W,
    err: E,
) -> io::Result<CommandStatus>
    ensures done { IfOk result (λ status. status ≡ Fine → IsOfText text.new words.now.script.now (λ bytes. HasSwept bytes words.now.fails 0)) }
    ensures other { IfOk result (λ status. status ≢ Fine → status ≡ Refused) }
{
    let (alloc, mut err) = (rt.alloc(), err);
    match text.read_at(rt, alloc, words.script) {
        Ok(()) => sweep::sweep(alloc, words, text.bytes(), ProgressLine::new(rt), out, err),
        Err(fault) => refuse(&mut err, words.script, &fault),
    }
}

fn check_file<W: Write + Drop, E: Write + Drop>(
    rt: &HostRuntime,
    text: &mut ScriptText,
    path: &str,
    out: W,
    err: E,
) -> io::Result<CommandStatus>
    ensures done { IfOk result (λ status. status ≡ Fine → IsOfText text.new path.now HasTakenEither) }
    ensures other { IfOk result (λ status. status ≢ Fine → status ≡ Refused) }
{
    let (alloc, mut err) = (rt.alloc(), err);
    match text.read_at(rt, alloc, path) {
        Ok(()) => check::check(alloc, text.bytes(), out, err),
        Err(fault) => refuse(&mut err, path, &fault),
    }
}

/// Makes an empty log in two files, or in one with home kept. Both files are opened before either is changed.
fn format_files<C: Contents, W: Write + Drop, E: Write + Drop>(
    rt: &HostRuntime,
    contents: C,
    words: &FormatWords<'_>,
    out: W,
    err: E,
) -> io::Result<CommandStatus>
    ensures done { IfOk result (λ status. status ≡ Fine → IsFormatDone C.contents words.now) }
    ensures other { IfOk result (λ status. status ≢ Fine → status ≡ Refused) }
{
    if words.keep_home {
        format_log(rt, contents, words, out, err)
    } else if stays_as_device(rt, words) {
        format_beside_device(rt, contents, words, out, err)
    } else {
        format_both(rt, contents, words, out, err)
    }
}

/// Whether home is a block device that no words ask to be made or to be filled with zeros.
fn stays_as_device(rt: &HostRuntime, words: &FormatWords<'_>) -> bool
    ensures zeros { result ≡ true → words.now.zero_home ≡ false }
    ensures new { result ≡ true → words.now.has_to_be_new ≡ false }
{
    !words.has_to_be_new && !words.zero_home && names_device(rt, words.paths.home)
}

/// Makes an empty log in two files, and clears both.
fn format_both<C: Contents, W: Write + Drop, E: Write + Drop>(
    rt: &HostRuntime,
    contents: C,
    words: &FormatWords<'_>,
    out: W,
    err: E,
) -> io::Result<CommandStatus>
    ensures done { IfOk result (λ status. status ≡ Fine → IsDoneOver (cleared C.contents) (over_told words.now.has_to_be_new false) (IsMadeTold words.now)) }
    ensures other { IfOk result (λ status. status ≢ Fine → status ≡ Refused) }
{
    let (mut err, paths) = (err, words.paths);
    let files = match open_or_make_pair(rt, paths, words.has_to_be_new, words.zero_home) {
        Ok(files) => files,
        Err(unopened) => return unopened.refuse(&mut err),
    };
    if keeps_foreign(words, true, &files, &mut err)?
        || !may_format(rt.alloc(), words, &files, &mut err)?
    {
        return Ok(CommandStatus::Refused);
    }
    match make_both(rt, contents, words, files) {
        Ok(device) => format_device(words, device, out, err),
        Err(unmade) => unmade.refuse(words.paths, &mut err),
    }
}

/// Makes an empty log in a file, and keeps home as it is.
fn format_log<C: Contents, W: Write + Drop, E: Write + Drop>(
    rt: &HostRuntime,
    contents: C,
    words: &FormatWords<'_>,
    out: W,
    err: E,
) -> io::Result<CommandStatus>
    ensures done { IfOk result (λ status. status ≡ Fine → IsDoneOver (log_cleared C.contents) (over_told words.now.has_to_be_new true) (IsMadeTold words.now)) }
    ensures other { IfOk result (λ status. status ≢ Fine → status ≡ Refused) }
{
    let mut err = err;
    let home = home_kept(words, false);
    let files = match open_or_make_log(rt, words.paths, home, words.has_to_be_new) {
        Ok(files) => files,
        Err(unopened) => return unopened.refuse(&mut err),
    };
    if keeps_foreign(words, false, files.pair(), &mut err)?
        || !may_format(rt.alloc(), words, files.pair(), &mut err)?
    {
        return Ok(CommandStatus::Refused);
    }
    match make_beside_home(rt, contents, words, files) {
        Ok(device) => format_device(words, device, out, err),
        Err(unmade) => unmade.refuse(words.paths, &mut err),
    }
}

/// Makes an empty log in a file, and keeps home, a block device, as it is.
fn format_beside_device<C: Contents, W: Write + Drop, E: Write + Drop>(
    rt: &HostRuntime,
    contents: C,
    words: &FormatWords<'_>,
    out: W,
    err: E,
) -> io::Result<CommandStatus>
    ensures done { IfOk result (λ status. status ≡ Fine → IsDoneOver (log_cleared C.contents) IsOverHomeDevice (IsMadeTold words.now)) }
    ensures other { IfOk result (λ status. status ≢ Fine → status ≡ Refused) }
{
    let mut err = err;
    let files = match open_or_make_log(rt, words.paths, home_kept(words, true), false) {
        Ok(files) => files,
        Err(unopened) => return unopened.refuse(&mut err),
    };
    if keeps_foreign(words, true, files.pair(), &mut err)?
        || !may_format(rt.alloc(), words, files.pair(), &mut err)?
    {
        return Ok(CommandStatus::Refused);
    }
    match make_beside_home(rt, contents, words, files) {
        Ok(device) => format_device(words, device, out, err),
        Err(unmade) => unmade.refuse(words.paths, &mut err),
    }
}

/// What is wanted of a home area that is kept.
fn home_kept(words: &FormatWords<'_>, is_device: bool) -> KeptHome
    ensures { result.is_device ≡ is_device }
{
    KeptHome {
        bytes: home_bytes(&words.measures),
        is_device,
    }
}

/// Makes a device over two files, and clears both.
fn make_both<C: Contents>(
    rt: &HostRuntime,
    contents: C,
    words: &FormatWords<'_>,
    files: LogPair,
) -> Result<FileDevice<Cleared<C>>, Unmade>
    ensures { IfOk result (IsOver files.log.file.file files.home.file.file) }
{
    let mut progress = ProgressLine::new(rt);
    let made = make_device(rt.alloc(), contents, &words.measures, files, &mut progress);
    progress.ends();
    made
}

/// Makes a device over a log's file, which it clears, and a home area's file, which stays.
fn make_beside_home<C: Contents>(
    rt: &HostRuntime,
    contents: C,
    words: &FormatWords<'_>,
    files: KeptPair,
) -> Result<FileDevice<LogCleared<C>>, Unmade>
    ensures { IfOk result (IsOver files.pair.log.file.file files.pair.home.file.file) }
{
    let mut progress = ProgressLine::new(rt);
    let made = make_log_device(rt.alloc(), contents, &words.measures, files, &mut progress);
    progress.ends();
    made
}

/// Whether a log's file, or home `with_home`, is a block device that another program keeps something on which may not be lost; says what,
/// and which files were made and stay. Nothing is written but lines.
fn keeps_foreign<E: Write>(
    words: &FormatWords<'_>,
    with_home: bool,
    files: &LogPair,
    err: &mut E,
) -> io::Result<bool>
    ensures forced { IfOk result (λ keeps. keeps ≡ true → words.now.force ≡ false) }
{
    if words.force {
        return Ok(false);
    }
    files.say_foreign(words.paths, with_home, err)
}

/// Whether the content of a log's file may be overwritten. Says what it is, unless it is empty; and if it may not, which file was made and
/// stays. Nothing is written but lines.
fn may_format<E: Write>(
    alloc: Global,
    words: &FormatWords<'_>,
    files: &LogPair,
    err: &mut E,
) -> io::Result<bool>
    ensures kept { IfOk result (λ may. may ≡ false → words.now.discards ≡ false) }
{
    if files.is_log_empty()? {
        return Ok(true);
    }
    let may = may_overwrite_file(alloc, words, files, err)?;
    if !may {
        files.say_made(words.paths, err)?;
    }
    Ok(may)
}

/// Whether the content of a log's file, which is not empty, may be overwritten; says what it is.
fn may_overwrite_file<E: Write>(
    alloc: Global,
    words: &FormatWords<'_>,
    files: &LogPair,
    err: &mut E,
) -> io::Result<bool>
    ensures kept { IfOk result (λ may. may ≡ false → words.now.discards ≡ false) }
{
    match device_before(alloc, files) {
        Ok(mut device) => {
            let may = may_overwrite(alloc, words.paths.log, words.discards, &mut device, err)?;
            say_failure(&device, words.paths, err)?;
            Ok(may)
        }
        Err(e) if e.kind() == ErrorKind::OutOfMemory => Err(e),
        Err(_) if words.discards => Ok(true),
        Err(e) => {
            refuse_file(err, words.paths.log, e)?;
            Ok(false)
        }
    }
}

/// Makes an empty log on this device.
fn format_device<C: Contents, W: Write + Drop, E: Write + Drop>(
    words: &FormatWords<'_>,
    device: FileDevice<C>,
    out: W,
    err: E,
) -> io::Result<CommandStatus>
    ensures made { IfOk result (λ status. status ≡ Fine → IsMadeOn C.contents words.now device) }
    ensures other { IfOk result (λ status. status ≢ Fine → status ≡ Refused) }
{
    let (mut device, mut err) = (device, err);
    let status = logs::format(words.paths.log, &words.measures, &mut device, out, &mut err)?;
    say_failure(&device, words.paths, &mut err)?;
    Ok(status)
}

/// Opens a log in two files, or says what that would do. Both files are opened before either is read.
fn recover_files<C: Contents, W: Write + Drop, E: Write + Drop>(
    rt: &HostRuntime,
    contents: C,
    words: &RecoverWords<'_>,
    out: W,
    err: E,
) -> io::Result<CommandStatus>
    ensures done { IfOk result (λ status. status ≡ Fine → IsDoneOver C.contents IsOverTwo (Recovers words.now.dry_run words.now.before_damage)) }
    ensures other { IfOk result (λ status. status ≢ Fine → status ≡ Refused) }
{
    if words.dry_run {
        return plan_files(rt, contents, words, out, err);
    }
    let mut err = err;
    let files = match open_pair_within(rt, words.paths, words.wait) {
        Ok(files) => files,
        Err(unopened) => return unopened.refuse(&mut err),
    };
    match device_of(rt.alloc(), contents, files) {
        Ok(device) => recover_device(rt, words, device, out, err),
        Err(unfit) => unfit.refuse(words.paths, &mut err),
    }
}

/// Opens this device's log, or says what that would do.
fn recover_device<C: Contents, W: Write + Drop, E: Write + Drop>(
    rt: &HostRuntime,
    words: &RecoverWords<'_>,
    device: FileDevice<C>,
    out: W,
    err: E,
) -> io::Result<CommandStatus>
    ensures done { IfOk result (λ status. status ≡ Fine → IsOverTwo device → IsDoneOver C.contents IsOverTwo (Recovers words.now.dry_run words.now.before_damage)) }
    ensures other { IfOk result (λ status. status ≢ Fine → status ≡ Refused) }
{
    let (mut out, mut err) = (out, err);
    let progress = ProgressLine::new(rt);
    let (status, left) = recovering::recover(
        rt.alloc(),
        words,
        device,
        progress,
        &mut out,
        &mut err,
    )?;
    say_failure(&left, words.paths, &mut err)?;
    Ok(status)
}

/// Says what an opening of a log in two files would do. It opens both only to read.
fn plan_files<C: Contents, W: Write + Drop, E: Write + Drop>(
    rt: &HostRuntime,
    contents: C,
    words: &RecoverWords<'_>,
    out: W,
    err: E,
) -> io::Result<CommandStatus>
    ensures done { IfOk result (λ status. status ≡ Fine → IsDoneOver C.contents IsOverTwo (Recovers words.now.dry_run words.now.before_damage)) }
    ensures other { IfOk result (λ status. status ≢ Fine → status ≡ Refused) }
{
    let mut err = err;
    let files = match open_pair_within(rt, words.paths, words.wait) {
        Ok(files) => files,
        Err(unopened) => return unopened.refuse(&mut err),
    };
    match device_to_read(rt.alloc(), contents, files) {
        Ok(device) => recover_device(rt, words, device, out, err),
        Err(unfit) => unfit.refuse(words.paths, &mut err),
    }
}

/// Applies a script's operations to a log in two files. All three files are opened before any is read.
fn apply_files<C: Contents, W: Write + Drop, E: Write + Drop>(
    rt: &HostRuntime,
    contents: C,
    text: &mut ScriptText,
    words: &ApplyWords<'_>,
    out: W,
    err: E,
) -> io::Result<CommandStatus>
    ensures done { IfOk result (λ status. status ≡ Fine → IsOfText text.new words.now.script.now (IsAppliedOver C.contents words.now (W.contents out))) }
    ensures other { IfOk result (λ status. status ≢ Fine → status ≡ Refused) }
{
    let mut err = err;
    let files = match open_pair_within(rt, words.paths, words.wait) {
        Ok(files) => files,
        Err(unopened) => return unopened.refuse(&mut err),
    };
    let script = match open_script(rt, words.script, &files) {
        Ok(script) => script,
        Err(e) => return refuse_file(&mut err, words.script, e),
    };
    match text.read(rt.alloc(), script) {
        Ok(()) => apply_opened(rt, contents, words, files, text.bytes(), out, err),
        Err(fault) => refuse(&mut err, words.script, &fault),
    }
}

/// Applies a script's operations to the log in these files.
fn apply_opened<C: Contents, W: Write + Drop, E: Write + Drop>(
    rt: &HostRuntime,
    contents: C,
    words: &ApplyWords<'_>,
    files: LogPair,
    script: &[u8],
    out: W,
    err: E,
) -> io::Result<CommandStatus>
    ensures done { IfOk result (λ status. status ≡ Fine → IsAppliedOver C.contents words.now (W.contents out) script.now) }
    ensures other { IfOk result (λ status. status ≢ Fine → status ≡ Refused) }
{
    let mut err = err;
    match device_of(rt.alloc(), contents, files) {
        Ok(device) => {
            let alloc = rt.alloc();
            let done = apply::apply(alloc, words, device, script, out, &mut err)?;
            say_failure(apply::device_of(&done), words.paths, &mut err)?;
            Ok(status_of_all(&done))
        }
        Err(unfit) => unfit.refuse(words.paths, &mut err),
    }
}

/// The status of a command that gives back what is left, in either case.
fn status_of_all<T, U>(done: &Result<T, U>) -> CommandStatus
    ensures fine { result ≡ Fine ↔ IsOk done.now }
    ensures other { result ≢ Fine → result ≡ Refused }
{
    match done {
        Ok(_) => CommandStatus::Fine,
        Err(_) => CommandStatus::Refused,
    }
}

/// Prints the log in a file, or one of its copies.
fn dump_file<C: Contents, W: Write + Drop, E: Write + Drop>(
    rt: &HostRuntime,
    contents: C,
    words: &DumpWords<'_>,
    out: W,
    err: E,
) -> io::Result<CommandStatus>
    ensures done { IfOk result (λ status. status ≡ Fine → IsDoneOver C.contents IsOverAny (λ old new. HasDumped words.now.copy old)) }
    ensures other { IfOk result (λ status. status ≢ Fine → status ≡ Refused) }
{
    let mut err = err;
    match open_log(rt.alloc(), contents, rt, words.log) {
        Ok(mut device) => {
            let status = dump(rt.alloc(), words, &mut device, out, &mut err)?;
            say_failure(&device, lone(words.log), &mut err)?;
            Ok(status)
        }
        Err(e) => refuse_file(&mut err, words.log, e),
    }
}

/// The path of a log without a home area.
fn lone(log: &str) -> LogPaths<'_> {
    LogPaths { log, home: "" }
}

/// Prints a block as an opening of a log in two files would leave it. It opens both only to read.
fn cat_files<C: Contents, W: Write + Drop, E: Write + Drop>(
    rt: &HostRuntime,
    contents: C,
    words: &CatWords<'_>,
    out: W,
    err: E,
) -> io::Result<CommandStatus>
    ensures done { IfOk result (λ status. status ≡ Fine → IsDoneOver C.contents IsOverTwo (λ old new. HasLeft words.now.block old)) }
    ensures other { IfOk result (λ status. status ≢ Fine → status ≡ Refused) }
{
    let (mut out, mut err) = (out, err);
    let files = match open_pair_within(rt, words.paths, words.wait) {
        Ok(files) => files,
        Err(unopened) => return unopened.refuse(&mut err),
    };
    match device_to_read(rt.alloc(), contents, files) {
        Ok(mut device) => {
            let status = cat(rt.alloc(), words, &mut device, &mut out, &mut err)?;
            say_failure(&device, words.paths, &mut err)?;
            Ok(status)
        }
        Err(unfit) => unfit.refuse(words.paths, &mut err),
    }
}

/// Gives the empty log in a file 64-bit block numbers.
fn upgrade_file<C: Contents, W: Write + Drop, E: Write + Drop>(
    rt: &HostRuntime,
    contents: C,
    path: &str,
    out: W,
    err: E,
) -> io::Result<CommandStatus>
    ensures done { IfOk result (λ status. status ≡ Fine → IsDoneOver C.contents IsOverAny HasUpgraded) }
    ensures other { IfOk result (λ status. status ≢ Fine → status ≡ Refused) }
{
    let mut err = err;
    match open_log_to_write(rt.alloc(), contents, rt, path) {
        Ok(mut device) => {
            let status = logs::upgrade(rt.alloc(), path, &mut device, out, &mut err)?;
            say_failure(&device, lone(path), &mut err)?;
            Ok(status)
        }
        Err(e) => refuse_file(&mut err, path, e),
    }
}

/// Prints the superblock of the log in a file, and the use of its ring.
fn show_file<C: Contents, W: Write + Drop, E: Write + Drop>(
    rt: &HostRuntime,
    contents: C,
    words: &ShowWords<'_>,
    out: W,
    err: E,
) -> io::Result<CommandStatus>
    ensures other { IfOk result (λ status. status ≢ Fine → status ≡ Refused) }
{
    let mut err = err;
    match open_log(rt.alloc(), contents, rt, words.log) {
        Ok(mut device) => {
            let sectors = sectors_at(rt, words.log);
            let status = show(rt.alloc(), words, &mut device, sectors, out, &mut err)?;
            say_failure(&device, lone(words.log), &mut err)?;
            Ok(status)
        }
        Err(e) => refuse_file(&mut err, words.log, e),
    }
}
