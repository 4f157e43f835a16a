//! Performs a script's operations on a journal over any device, and records what the journal answered.
#![tactic(auto)]

mod client;
mod fault;
mod interpreter;
mod outcome;
mod performing;
mod slots;

pub use client::{AnyHome, HomeFact, ZeroHome};
pub use fault::Fault;
pub use outcome::{Hex, PRINTED_BYTES};
pub use performing::{AfterFailure, AfterRefusal, Applied, Ending, Performed, apply, perform};
