//! The counts of a sweep.
ghost use Rattle.std.specs.Prelude.{◌≡◌};
ghost use Rattle.script_sweep.specs.Sweeping.{not_right_of};

/// Openings without an ok verdict.
#[derive(Clone, Copy, Debug, PartialEq, Eq)]
pub struct NotRight {
    /// Those with a false verdict.
    pub wrong: u64,
    /// Those that were refused.
    pub refused: u64,
}

impl NotRight {
    /// No opening was wrong or refused.
    pub fn none() -> Self
        ensures { result ≡ record { wrong = 0; refused = 0 } }
    {
        NotRight {
            wrong: 0,
            refused: 0,
        }
    }

    /// How many there are, up to 2^64 - 1.
    pub fn count(&self) -> u64
        ensures { result ≡ not_right_of self.now }
    {
        self.wrong.saturating_add(self.refused)
    }
}

/// The counts of a sweep of stops.
#[derive(Clone, Copy, Debug, PartialEq, Eq)]
pub struct Counts {
    /// The writes of the run that did not stop.
    pub writes: u64,
    /// The crash images of stopped runs.
    pub images: u64,
    /// The crash images of stopped openings.
    pub again: u64,
    /// The openings of both that are not right.
    pub not_right: NotRight,
}

impl Counts {
    /// The counts at the start, with the writes of a run.
    pub fn of_writes(writes: u64) -> Self
        ensures { result ≡ record { writes = writes; images = 0; again = 0; not_right = record { wrong = 0; refused = 0 } } }
    {
        Counts {
            writes,
            images: 0,
            again: 0,
            not_right: NotRight::none(),
        }
    }
}

/// The counts of a sweep of failing calls.
#[derive(Clone, Copy, Debug, PartialEq, Eq)]
pub struct FailureCounts {
    /// The calls of the run in which none failed.
    pub calls: u64,
    /// The openings that are not right, of the images of runs with a failed call.
    pub not_right: NotRight,
}

impl FailureCounts {
    /// The counts at the start, with the calls of a run.
    pub fn of_calls(calls: u64) -> Self
        ensures { result ≡ record { calls = calls; not_right = record { wrong = 0; refused = 0 } } }
    {
        FailureCounts {
            calls,
            not_right: NotRight::none(),
        }
    }
}
