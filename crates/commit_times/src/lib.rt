//! The command `bench` of the program `jbench`: durable transactions on the log of a device, for a time or a count, and their times.
#![tactic(auto)]

pub mod bench;
mod client;
mod counted;
mod tally;
pub mod threads;
mod work;
