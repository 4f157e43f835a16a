//! Rows of runs: scripts, stops of runs and openings, copied images, hand-changed logs, and closes; rows of sweeps, also of wrong journals;
//! of runs with failing calls; and of verdicts on hand-made records.
#![tactic(auto)]

pub mod changed;
pub mod closes;
mod closing;
pub mod endings;
pub mod failures;
pub mod images;
pub mod journals;
pub mod reopened;
pub mod scripts;
pub mod shared;
pub mod stops;
pub mod sweeps;
pub mod texts;
pub mod verdicts;
mod wrong_journals;
