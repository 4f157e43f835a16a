//! Rows of the command `bench`, over a device in memory and a clock that advances by itself.
use crate::words::{text_of, words_in};
use block_device::MemDevice;
use commit_times::bench;
use jbench_words::fault::CommandStatus;
use jbench_words::watch::{Watch, WatchStep};
use jbench_words::words::{BenchWords, CommandWords, parse};
use log_rows::RowError;
use log_rows::words::cut;
use run_rows::texts::numbers_in;
use std::alloc::Global;
use std::cell::Cell;
use std::fmt::Write;
use std::io;
use std::time::{Clock, Duration};

/// A clock that advances at each reading: first by `next` nanoseconds, then each time by `more` nanoseconds more.
#[derive(Drop)]
struct Ticks {
    nanoseconds: Cell<u64>,
    /// How far it advances at the next reading.
    next: Cell<u64>,
    more: u64,
}

impl Clock for Ticks {
    fn monotonic(&self) -> io::Result<Duration> {
        let next = self.next.get();
        let now = self.nanoseconds.get().saturating_add(next);
        self.nanoseconds.set(now);
        self.next.set(next.saturating_add(self.more));
        Ok(Duration::from_nanos(now))
    }

    fn since_1970(&self) -> io::Result<Duration> {
        self.monotonic()
    }
}

/// Records the reported seconds.
#[derive(Drop)]
struct Seconds<'a> {
    text: &'a mut String,
}

impl Watch for Seconds<'_> {
    fn goes_on(&mut self, step: WatchStep) {
        if let WatchStep::Second {
            second,
            transactions,
        } = step
        {
            let _written = writeln!(self.text, "second {second}: {transactions} transactions");
        }
    }

    fn ends(&mut self) {}
}

/// Transactions on an empty log. Given: the program's words on a line, and, like `1024 33 64 1000`, the block size in bytes, the blocks of
/// log and home, and the clock's first advance in nanoseconds. Found: the reported seconds, then as for a run.
pub fn bench(alloc: Global, given: &str) -> Result<String, RowError> {
    let (line, shape) = cut(given, "\n")?;
    let words = words_in(alloc, line)?;
    let [size, log, home, step] = numbers_in::<4>(shape)?;
    let device = formatted(MemDevice::new(alloc, size as usize, log, home), log)?;
    match parse(alloc, &words) {
        Ok(CommandWords::Bench(words)) => bench_device(alloc, &words, device, step),
        _ => Err(RowError::Unread),
    }
}

/// This device with an empty log of this many blocks.
fn formatted(device: MemDevice, log_blocks: u64) -> Result<MemDevice, RowError> {
    let mut device = device;
    let log_blocks = u32::try_from(log_blocks).unwrap_or(0);
    match recovery::format(&mut device, log_blocks, &[0xaa; 16], false) {
        Ok(()) => Ok(device),
        Err(_) => Err(RowError::Unread),
    }
}

/// The output of `bench` for this device's log, with such a clock.
fn bench_device(
    alloc: Global,
    words: &BenchWords<'_>,
    device: MemDevice,
    step: u64,
) -> Result<String, RowError> {
    let clock = Ticks {
        nanoseconds: Cell::new(0),
        next: Cell::new(step),
        more: step,
    };
    let mut text = String::new(alloc);
    let mut out = Vec::new(alloc);
    let mut err = Vec::new(alloc);
    let seconds = Seconds { text: &mut text };
    match bench::bench(alloc, words, device, &clock, seconds, &mut out, &mut err) {
        Ok(done) => {
            let status = match done {
                Some(_) => CommandStatus::Fine,
                None => CommandStatus::Refused,
            };
            text.push_str(text_of(alloc, &out, &err, status)?.as_str())?;
            Ok(text)
        }
        Err(_) => Err(RowError::Memory),
    }
}
