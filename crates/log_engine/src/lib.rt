//! The engine of a journal: it takes the entries of one transaction after another, commits each to the log, and writes committed copies
//! home, which frees their log blocks.
//!
//! Each step makes at most one device call; commit and checkpoint steps may alternate in any way. Memory is taken when the engine is
//! made, by `reserve` and by `accept`, and by no step.
#![tactic(auto)]

mod call;
mod close;
mod direct;
mod engine;

pub use engine::Engine;
pub use log_ledger::Progress;
