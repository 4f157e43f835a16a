//! The commands of `jbench`: what they print, and how they end. The caller gives each its text or device and its two writers. `obeying`
//! opens the files that the words name, and `progress` shows a command's progress on a terminal.
//!
//! `apply` applies a script's operations to a log in files, and `objects` prints its lines as JSON; `jbench_logs` has the commands on a log
//! alone. `run`, `sweep` and `check` take a script and a disk in memory: `image` has the files for a run's image, `object` prints its lines
//! as JSON. `faults` translates a run's faults, and `uncommitted` counts the changes that no commit took.
#![tactic(auto)]

pub mod apply;
pub mod check;
mod faults;
pub mod image;
pub mod obeying;
mod object;
mod objects;
pub mod progress;
pub mod run;
pub mod sweep;
mod uncommitted;
