//! The command `bench` with clients in threads, over a device in memory, also a failing one.
use crate::expected::expect;
use block_device::{FailOnce, MemDevice};
use commit_times::threads::bench;
use jbench_words::watch::Unwatched;
use jbench_words::words::{CommandWords, parse};
use journal_model::JournalError;
use std::alloc::Global;
use std::io;
use std::str::from_utf8;
use std::sync::Wait;
use std::test::Fail;
use std::thread::Threads;
use std::time::Clock;
use test_logs::{formatted, opened};

/// How many of the device's calls fail in turn.
const FAILING_CALLS: u64 = 150;

/// A device whose call `fail` fails; 0 is none. So few blocks of the log that there is a checkpoint round every few commits.
fn few_blocks(alloc: Global, fail: u64) -> Result<FailOnce<MemDevice>, JournalError> {
    Ok(FailOnce::new(formatted(alloc, 33, 64)?, fail))
}

/// What `bench` prints of four clients; the device comes back if all was done.
fn said<R: Threads + Wait + Sync, C: Clock + Sync>(
    rt: &R,
    clock: &C,
    alloc: Global,
    device: FailOnce<MemDevice>,
    out: &mut Vec<u8>,
    err: &mut Vec<u8>,
) -> io::Result<Option<FailOnce<MemDevice>>> {
    let words = [
        "jbench",
        "bench",
        "log",
        "home",
        "--transactions",
        "200",
        "--copies",
        "2",
    ];
    match parse(alloc, &words) {
        Ok(CommandWords::Bench(words)) => bench(
            rt, clock, alloc, &words, 4, device, Unwatched, out, err,
        ),
        _ => Ok(None),
    }
}

fn is_clean(alloc: Global, device: FailOnce<MemDevice>) -> bool {
    match opened(alloc, device) {
        Ok(opened) => opened.report().clean,
        Err(_) => false,
    }
}

/// Whether `bench` printed the time of all transactions, and the commits, and left a clean log.
fn is_durable<R: Threads + Wait + Sync, C: Clock + Sync>(
    rt: &R,
    clock: &C,
    alloc: Global,
    out: &mut Vec<u8>,
    err: &mut Vec<u8>,
) -> Result<[bool; 3], Fail> {
    let Some(device) = said(rt, clock, alloc, few_blocks(alloc, 0)?, out, err)? else {
        return Err("a refusal".into());
    };
    let is_clean = is_clean(alloc, device);
    let text = from_utf8(out)?;
    Ok([
        text.starts_with("transactions 200 in "),
        text.contains("\ncommits "),
        is_clean,
    ])
}

#[test]
fn clients_commit_at_once(rt: HostRuntime) -> Result<(), Fail> {
    let (mut out, mut err) = (Vec::new(rt.alloc()), Vec::new(rt.alloc()));
    let told = is_durable(&rt, &rt, rt.alloc(), &mut out, &mut err)?;
    expect(&rt, &told, &[true, true, true]);
    Ok(())
}

/// Whether clients end after a failure of this device call, and the message names that and not the abort after it.
fn is_told<R: Threads + Wait + Sync, C: Clock + Sync>(
    rt: &R,
    clock: &C,
    alloc: Global,
    call: u64,
) -> Result<bool, Fail> {
    let (mut out, mut err) = (Vec::new(alloc), Vec::new(alloc));
    let device = few_blocks(alloc, call)?;
    let has_failed = said(rt, clock, alloc, device, &mut out, &mut err)?.is_none();
    let told = from_utf8(&err)?;
    Ok(has_failed && told.starts_with("jbench: refusal 2 Device\n"))
}

fn first_untold<R: Threads + Wait + Sync, C: Clock + Sync>(
    rt: &R,
    clock: &C,
    alloc: Global,
) -> Result<Option<u64>, Fail> {
    for call in 1..=FAILING_CALLS {
        if !is_told(rt, clock, alloc, call)? {
            return Ok(Some(call));
        }
    }
    Ok(None)
}

/// Each device call fails in turn: all clients end, and the message names that failure and not the abort after it.
#[test]
fn a_device_fails_once_under_clients(rt: HostRuntime) -> Result<(), Fail> {
    expect(&rt, &first_untold(&rt, &rt, rt.alloc())?, &None);
    Ok(())
}
