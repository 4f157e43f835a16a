//! Runs the command that the words name, in threads if it wants them.
ghost use Rattle.std.specs.Prelude.{◌≡◌, ◌≢◌, ◌↔◌, IfOk, IfSome, IsSome};
ghost use Rattle.jbench_words.specs.declared.fault.CommandStatus.TheVariants.{Fine, Refused, VerdictFalse};
ghost use Rattle.jbench_commands.specs.Obeying.{IsOfText};
ghost use Rattle.crash_bench.specs.Obeying.{HasFoundWrong, HasObeyed, IsClosedDone, IsClosedLeft};
ghost use Rattle.script_threads.specs.Runs.{HasFoundFalse, HasServed};

use crate::fetching::HomePrefetch;
use crate::serving;
use crate::telling::Telling;
use commit_times::{bench, threads as timed};
use file_device::{Contents, FileDevice};
use jbench_commands::obeying as one_thread;
use jbench_commands::progress::ProgressLine;
use jbench_files::{ScriptText, device_of, open_again, open_pair_within};
use jbench_words::fault::{CommandStatus, refuse, refuse_file};
use jbench_words::words::{BenchWords, CommandWords, LogPaths, ServeWords};
use journal_model::Area;
use nbd_server::Every;
use std::io;
use std::io::{BufWriter, Write};
use std::sync::Wait;
use std::thread::Threads;
use std::time::{Clock, Duration};

/// Bytes of answers that `serve` gathers.
const GATHERED: usize = 4096;

/// Runs the command that the words name. `contents` is what the files of a log are assumed to hold. `text` takes the text of a script that
/// the command reads.
///
/// # Errors
///
/// The output could not be written, or memory ran out.
pub(crate) fn obey<
    T: Threads + Wait + Clock + Sync,
    C: Contents + Send,
    W: Write + Drop,
    E: Write + Drop,
>(
    rt: &HostRuntime,
    threads: &T,
    contents: C,
    text: &mut ScriptText,
    words: &CommandWords<'_>,
    out: W,
    err: E,
) -> io::Result<CommandStatus>
    ensures done { IfOk result (λ status. status ≡ Fine → HasObeyed C.contents text.new (W.contents out) words.now) }
    ensures wrong { IfOk result (λ status. status ≡ VerdictFalse → HasFoundWrong text.new words.now) }
{
    match words {
        CommandWords::Threads(path) => threads_file(rt, threads, text, path, out, err),
        CommandWords::Bench(words) => bench_files(rt, threads, contents, words, out, err),
        CommandWords::Serve(words) => serve_files(rt, threads, contents, words, err),
        CommandWords::OneThread(words) => one_thread::obey(rt, contents, text, words, out, err),
    }
}

/// Runs the clients of a script's file in threads.
fn threads_file<T: Threads + Wait + Clock + Sync, W: Write + Drop, E: Write + Drop>(
    rt: &HostRuntime,
    threads: &T,
    text: &mut ScriptText,
    path: &str,
    out: W,
    err: E,
) -> io::Result<CommandStatus>
    ensures done { IfOk result (λ status. status ≡ Fine → IsOfText text.new path.now HasServed) }
    ensures wrong { IfOk result (λ status. status ≡ VerdictFalse → IsOfText text.new path.now HasFoundFalse) }
{
    let (alloc, mut err) = (rt.alloc(), err);
    match text.read_at(rt, alloc, path) {
        Ok(()) => script_threads::threads(threads, alloc, path, text.bytes(), out, err),
        Err(fault) => refuse(&mut err, path, &fault),
    }
}

/// Commits transactions to a log in two files, and opens both before it reads one.
fn bench_files<
    T: Threads + Wait + Clock + Sync,
    C: Contents + Send,
    W: Write + Drop,
    E: Write + Drop,
>(
    rt: &HostRuntime,
    threads: &T,
    contents: C,
    words: &BenchWords<'_>,
    out: W,
    err: E,
) -> io::Result<CommandStatus>
    ensures done { IfOk result (λ status. status ≡ Fine → IsClosedDone C.contents) }
    ensures other { IfOk result (λ status. status ≢ Fine → status ≡ Refused) }
{
    let mut err = err;
    let files = match open_pair_within(rt, words.paths, words.wait) {
        Ok(files) => files,
        Err(unopened) => return refuse_file(&mut err, unopened.path, unopened.error),
    };
    match device_of(rt.alloc(), contents, files) {
        Ok(device) => {
            let done = bench_device(rt, threads, words, device, out, err)?;
            Ok(status_of(&done))
        }
        Err(unfit) => unfit.refuse(words.paths, &mut err),
    }
}

/// Commits transactions to a device's log, by clients in threads if the words ask for them.
fn bench_device<
    T: Threads + Wait + Clock + Sync,
    C: Contents + Send,
    W: Write + Drop,
    E: Write + Drop,
>(
    rt: &HostRuntime,
    threads: &T,
    words: &BenchWords<'_>,
    device: FileDevice<C>,
    out: W,
    err: E,
) -> io::Result<Option<FileDevice<C>>>
    ensures { IfOk result (λ done. IfSome done (IsClosedLeft C.contents)) }
{
    let (alloc, progress) = (rt.alloc(), ProgressLine::new(rt));
    match words.threads {
        None => bench::bench(alloc, words, device, rt, progress, out, err),
        Some(clients) => {
            let device = open_twice(rt, device, words.paths);
            timed::bench(
                threads, rt, alloc, words, clients, device, progress, out, err,
            )
        }
    }
}

/// Opens a device's files once more, so that threads wait for a flush while others use the device. What can't be opened is waited for in
/// the device.
fn open_twice<C: Contents>(
    rt: &HostRuntime,
    device: FileDevice<C>,
    paths: LogPaths<'_>,
) -> FileDevice<C>
    ensures { result ≡ device }
{
    let mut device = device;
    if let Ok(file) = open_again(rt, paths.log) {
        device.sync_by(rt.alloc(), Area::Log, file);
    }
    if let Ok(file) = open_again(rt, paths.home) {
        device.sync_by(rt.alloc(), Area::Home, file);
    }
    device
}

/// Serves the home area of a log in two files over the standard streams, and opens both files before it reads one.
fn serve_files<T: Threads + Wait + Clock + Sync, C: Contents + Send, E: Write + Drop>(
    rt: &HostRuntime,
    threads: &T,
    contents: C,
    words: &ServeWords<'_>,
    err: E,
) -> io::Result<CommandStatus>
    ensures done { IfOk result (λ status. status ≡ Fine → IsClosedDone C.contents) }
    ensures other { IfOk result (λ status. status ≢ Fine → status ≡ Refused) }
{
    let mut err = err;
    let files = match open_pair_within(rt, words.paths, words.wait) {
        Ok(files) => files,
        Err(unopened) => return refuse_file(&mut err, unopened.path, unopened.error),
    };
    match device_of(rt.alloc(), contents, files) {
        Ok(device) => {
            let done = serve_device(rt, threads, words, device, &mut err)?;
            Ok(status_of(&done))
        }
        Err(unfit) => unfit.refuse(words.paths, &mut err),
    }
}

/// Serves the home area of a device's log over the standard streams.
fn serve_device<T: Threads + Wait + Clock + Sync, C: Contents + Send, E: Write>(
    rt: &HostRuntime,
    threads: &T,
    words: &ServeWords<'_>,
    device: FileDevice<C>,
    err: &mut E,
) -> io::Result<Option<FileDevice<C>>>
    ensures { IfOk result (λ done. IfSome done (IsClosedLeft C.contents)) }
{
    let device = open_twice(rt, device, words.paths);
    let out = BufWriter::with_capacity(rt.alloc(), GATHERED, rt.stdout())?;
    let ahead = HomePrefetch::new(device.fetcher(), threads);
    let interval = Every {
        clock: threads,
        length: Duration::from_secs(words.commit_interval),
    };
    let device = Telling::new(device, words.paths, rt.stderr());
    match serving::serve(
        threads,
        rt.alloc(),
        words,
        device,
        rt.stdin(),
        out,
        &ahead,
        &interval,
        err,
    )? {
        Ok(device) => Ok(Some(device.into_device())),
        Err(_) => Ok(None),
    }
}

/// The status of a command that answers something only if all was done.
fn status_of<T>(done: &Option<T>) -> CommandStatus
    ensures fine { result ≡ Fine ↔ IsSome done.now }
    ensures other { result ≢ Fine → result ≡ Refused }
{
    match done {
        Some(_) => CommandStatus::Fine,
        None => CommandStatus::Refused,
    }
}
