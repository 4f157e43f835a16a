//! Where a device stopped or failed, and what it kept.
ghost use Rattle.std.specs.Prelude.{◌≡◌, ◌+◌, ◌≤◌, IfOk, max};
ghost use Rattle.script_sweep.specs.Places.{choices_of, first_of, kept_of};

use std::alloc::{AllocError, Global};
use std::fmt;

/// How many of the last writes may each be kept or lost.
const LAST_WRITES: u64 = 4;

/// A stop or a failure of a device.
#[derive(Clone, Copy)]
pub enum Event {
    /// It stopped at this write of a run, counted from 1.
    Stop(u64),
    /// This call of a run failed, counted from 1, and the device stopped at the end.
    Failure(u64),
    /// It stopped at this write of an opening, counted from 1.
    StopOfOpening(u64),
}

impl Event {
    /// The option of `run` for it, its value, and the option for what is kept.
    fn options(self) -> (&'static str, u64, &'static str) {
        match self {
            Event::Stop(k) => ("stop", k, "keep"),
            Event::Failure(k) => ("fail", k, "keep"),
            Event::StopOfOpening(k) => ("stop2", k, "keep2"),
        }
    }
}

/// A stop or a failure, and the unflushed writes that the device kept, displayed as the options of `run` that show it.
#[derive(Clone, Copy)]
pub struct SweepPlace<'a> {
    /// The stop or failure.
    pub event: Event,
    /// The writes that were kept.
    pub keep: &'a [u64],
}

impl fmt::Display for SweepPlace<'_> {
    fn fmt<W: fmt::Write>(&self, f: &mut fmt::Formatter<W>) -> fmt::Result {
        let (option, number, keep) = self.event.options();
        write!(f, " --{option} {number}")?;
        if self.keep.is_empty() {
            return Ok(());
        }
        write!(f, " --{keep} ")?;
        for (i, number) in self.keep.iter().enumerate() {
            let comma = if i > 0 { "," } else { "" };
            write!(f, "{comma}{number}")?;
        }
        Ok(())
    }
}

/// The first of the last writes up to write `k`.
fn first_of_last(k: u64) -> u64
    ensures first { result ≡ first_of k }
    ensures most { result + 3 ≤ max k 4 }
{
    k.saturating_sub(LAST_WRITES - 1).max(1)
}

/// How many choices there are among the last four writes up to write `k`, or among all.
pub fn choices(k: u64) -> u64
    ensures { result ≡ choices_of k }
{
    1 << k.min(LAST_WRITES)
}

/// The last writes up to write `k` whose bit is set, in order.
pub fn choice(alloc: Global, k: u64, bits: u64) -> Result<Vec<u64>, AllocError>
    ensures { IfOk result (λ kept. kept.items ≡ kept_of k bits) }
{
    let first = first_of_last(k);
    let mut kept = Vec::new(alloc);
    for bit in 0..LAST_WRITES {
        if (bits >> bit) % 2 == 1 {
            kept.push(first + bit)?;
        }
    }
    Ok(kept)
}
