//! Reports a command's progress.
use journal_model::Area;

/// A step that a command makes or has made.
#[derive(Clone, Copy)]
pub enum WatchStep {
    /// Block `n` of an area of `blocks` blocks will be read.
    Reads { area: Area, n: u64, blocks: u64 },
    /// A block of this area will be written.
    Writes { area: Area },
    /// Stops at this write, of `writes` writes, will be swept.
    StopsAt { write: u64, writes: u64 },
    /// The run with this failing call, of `calls` calls, will be made.
    FailsAt { call: u64, calls: u64 },
    /// An area's file of `bytes` bytes will be filled further, from byte `at` on.
    Fills { area: Area, at: u64, bytes: u64 },
    /// Another second is over, counted from 1; this many transactions are durable.
    Second { second: u64, transactions: u64 },
}

/// Learns a command's progress; no answer of a command depends on it.
pub trait Watch {
    /// The command is at this step.
    fn goes_on(&mut self, step: WatchStep);

    /// The command has made its last step.
    fn ends(&mut self);
}

/// Ignores progress.
#[derive(Clone, Copy)]
pub struct Unwatched;

impl Watch for Unwatched {
    fn goes_on(&mut self, _step: WatchStep) {}

    fn ends(&mut self) {}
}
