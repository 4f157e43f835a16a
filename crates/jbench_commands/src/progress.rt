//! The line that shows a command's progress.
use jbench_words::watch::{Watch, WatchStep};
use journal_model::Area;
use std::io::{IsTerminal, Write};
use std::time::{Duration, Instant};

/// A shorter command shows no line: milliseconds.
const FIRST: u64 = 1000;

/// The least time between two lines: milliseconds.
const NEXT: u64 = 200;

/// Shows progress on standard error, if that is a terminal, once a command has taken a second: the log block being read and the home blocks
/// written, the filled part of a file, the stops being swept, or the failing call. The line vanishes when the command ends.
#[derive(Drop)]
pub struct ProgressLine<'a> {
    rt: &'a HostRuntime,
    /// When the command began, if a line may be shown.
    begun: Option<Instant>,
    /// The command's time at which the next line is due.
    due: Duration,
    /// Whether the line is on the terminal.
    shown: bool,
    /// How many home blocks are written.
    written: u64,
}

impl<'a> ProgressLine<'a> {
    /// A line for a command that begins now.
    pub fn new(rt: &'a HostRuntime) -> Self {
        let begun = if rt.stderr().is_terminal() {
            Instant::now(rt).ok()
        } else {
            None
        };
        ProgressLine {
            rt,
            begun,
            due: Duration::from_millis(FIRST),
            shown: false,
            written: 0,
        }
    }

    /// The command's time, if the line is due.
    fn time(&self) -> Option<Duration> {
        let taken = self.begun?.elapsed(self.rt).ok()?;
        if taken < self.due { None } else { Some(taken) }
    }

    /// Notes that the line is shown at this time.
    fn show(&mut self, taken: Duration) {
        self.due = taken.saturating_add(Duration::from_millis(NEXT));
        self.shown = true;
    }

    /// A block will be read.
    fn reads(&mut self, area: Area, n: u64, blocks: u64) {
        if area == Area::Home {
            return;
        }
        let Some(taken) = self.time() else {
            return;
        };
        self.show(taken);
        let _shown = write!(
            self.rt.stderr(),
            "\r\x1b[Kjbench: reading block {n} of {blocks} of the log, {} blocks of home written",
            self.written
        );
    }

    /// A block will be written.
    fn writes(&mut self, area: Area) {
        if area == Area::Home {
            self.written = self.written.saturating_add(1);
        }
    }

    /// The stops at a write will be swept.
    fn stops_at(&mut self, write: u64, writes: u64) {
        let Some(taken) = self.time() else {
            return;
        };
        self.show(taken);
        let _shown = write!(
            self.rt.stderr(),
            "\r\x1b[Kjbench: sweeping the stops at write {write} of {writes}"
        );
    }

    /// The run with this failing call will be made.
    fn fails_at(&mut self, call: u64, calls: u64) {
        let Some(taken) = self.time() else {
            return;
        };
        self.show(taken);
        let _shown = write!(
            self.rt.stderr(),
            "\r\x1b[Kjbench: letting call {call} of {calls} fail"
        );
    }

    /// A file of `bytes` bytes will be filled further, from byte `at` on.
    fn fills(&mut self, area: Area, at: u64, bytes: u64) {
        let Some(taken) = self.time() else {
            return;
        };
        self.show(taken);
        let name = match area {
            Area::Log => "the log",
            Area::Home => "home",
        };
        let _shown = write!(
            self.rt.stderr(),
            "\r\x1b[Kjbench: filling {name}, {} of {} MiB are written",
            at >> 20,
            bytes >> 20
        );
    }

    /// Another second of a bench is over.
    fn second(&mut self, second: u64, transactions: u64) {
        if self.begun.is_some() {
            let _shown = writeln!(
                self.rt.stderr(),
                "jbench: {second} s, {transactions} transactions, {} a second",
                transactions / second.max(1)
            );
        }
    }

    /// Removes the line.
    fn hide(&mut self) {
        if self.shown {
            let _gone = write!(self.rt.stderr(), "\r\x1b[K");
        }
    }
}

impl Watch for ProgressLine<'_> {
    fn goes_on(&mut self, step: WatchStep) {
        match step {
            WatchStep::Reads { area, n, blocks } => self.reads(area, n, blocks),
            WatchStep::Writes { area } => self.writes(area),
            WatchStep::Fills { area, at, bytes } => self.fills(area, at, bytes),
            WatchStep::StopsAt { write, writes } => self.stops_at(write, writes),
            WatchStep::FailsAt { call, calls } => self.fails_at(call, calls),
            WatchStep::Second {
                second,
                transactions,
            } => self.second(second, transactions),
        }
    }

    fn ends(&mut self) {
        self.hide();
    }
}
