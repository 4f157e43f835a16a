//! Keeps how long commits took.
ghost use Rattle.std.specs.Prelude.{◌≡◌};

use journal_model::JournalError;
use std::alloc::{AllocFailed, Global};
use std::time::Duration;

/// The time of each commit, in nanoseconds.
#[derive(Drop)]
pub(crate) struct TimesTally {
    nanoseconds: Vec<u64>,
}

impl TimesTally {
    pub(crate) fn new(alloc: Global) -> Self {
        TimesTally {
            nanoseconds: Vec::new(alloc),
        }
    }

    /// Adds a commit that took this long.
    ///
    /// # Errors
    ///
    /// Memory ran out.
    pub(crate) fn add(&mut self, taken: Duration) -> Result<(), AllocFailed<u64>> {
        let nanoseconds = u64::try_from(taken.as_nanos()).unwrap_or(u64::MAX);
        self.nanoseconds.push(nanoseconds)
    }

    /// Adds these commits.
    ///
    /// # Errors
    ///
    /// Memory ran out.
    pub(crate) fn add_all(&mut self, others: &TimesTally) -> Result<(), JournalError> {
        self.nanoseconds.extend_from_slice(&others.nanoseconds)?;
        Ok(())
    }

    /// How many commits there were.
    pub(crate) fn commits(&self) -> u64 {
        self.nanoseconds.len() as u64
    }

    /// The tally, sorted by time.
    pub(crate) fn into_ranked(self) -> Ranked {
        let mut nanoseconds = self.nanoseconds;
        nanoseconds.sort_unstable();
        Ranked { nanoseconds }
    }
}

/// The time of each commit, in nanoseconds, the shortest first.
#[derive(Drop)]
pub(crate) struct Ranked {
    nanoseconds: Vec<u64>,
}

impl Ranked {
    /// The shortest time that `share` of 100 commits did not exceed; 0 without commits.
    pub(crate) fn of_hundred(&self, share: u8) -> u64 {
        let commits = self.nanoseconds.len() as u128;
        let rank = (commits * u128::from(share)).div_ceil(100);
        let place = rank.saturating_sub(1);
        match usize::try_from(place) {
            Ok(place) => self.nanoseconds.get(place).copied().unwrap_or(0),
            Err(_) => 0,
        }
    }

    /// The greatest time; 0 without commits.
    pub(crate) fn greatest(&self) -> u64 {
        self.nanoseconds.last().copied().unwrap_or(0)
    }
}
