//! The words of the program `jbench`, and how its commands end.
//!
//! `arguments` reads the words from the system, and `words` parses them: `reading` reads values, `wanted` names wrong ones. `fault` has
//! exit statuses and messages, `advice` the line below a refusal, `watch` reports progress, `numbers` has the last number of a transaction,
//! and `text` reads a script. `jbench_help` has the help and the program for `clap`; `jbench_commands` and `commit_times` have commands.
#![tactic(auto)]

mod advice;
pub mod arguments;
pub mod fault;
pub mod numbers;
mod reading;
pub mod text;
mod wanted;
pub mod watch;
pub mod words;
