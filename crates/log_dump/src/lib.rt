//! Prints the log of a device: its superblock, and one line for each block of its complete transactions.
//!
//! It passes over the log twice: first it tests the log and counts the transactions (`log_scan`), then it prints them (`printing`). So
//! it holds one block at a time, and prints nothing before all tests have passed. Copies are not read: their descriptor's tags say what
//! is printed. `lines` has the form of each line, and `dumping` joins the parts. `specs/Dump.antt` of `log_model` defines what a dump
//! is.
#![tactic(auto)]

mod dumping;
mod fault;
mod lines;
mod printing;

pub use dumping::{dump, dump_up_to_damage};
pub use fault::Fault;
