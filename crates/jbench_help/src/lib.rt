//! The help of the program `jbench`, and the texts derived from it.
//!
//! `usage` has the help texts, and `words` what several commands share; `parser` makes the program for `clap`, `completions` the shells'
//! completions, and `manual` the page for `man`.
#![tactic(auto)]

mod completions;
mod manual;
mod parser;
mod usage;
mod words;

pub use completions::{Shell, write_completions};
pub use manual::write_manual;
pub use parser::{command_named, program};
