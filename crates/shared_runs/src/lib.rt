//! Runs scripts over a shared journal, and prints the lines that runs over the journal of one thread print.
//!
//! There is one thread, with a seat and credits. It refuses a call that would wait for another thread.
#![tactic(auto)]

mod interpreter;
mod outcome;
mod running;
mod slots;

pub use running::{calls_of_run, run, run_copied, run_operations, run_operations_over};
