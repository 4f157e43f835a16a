//! Where devices stop, and which call of a run fails.

/// Where a device stops, and what it keeps.
#[derive(Clone, Copy, Debug)]
pub struct Stop<'a> {
    /// The write at which it stops, counted from 1, if any.
    pub at_write: Option<u64>,
    /// The unflushed writes that it keeps: of each block the greatest that is named here, else what was flushed last.
    pub keep: &'a [u64],
}

/// The stops and the failure of a run and of the opening after it.
#[derive(Clone, Copy, Debug)]
pub struct Stops<'a> {
    /// The run's call that fails and does nothing, counted from 1 among reads, writes and flushes, if any.
    pub failing_call: Option<u64>,
    /// The stop of the run. With no write, or with fewer writes made, it comes at the end.
    pub run: Stop<'a>,
    /// The stop of the opening. With no write, or with fewer writes made, there is none.
    pub opening: Stop<'a>,
}
