//! Rows of the log: its blocks byte for byte, what logs hold, devices in memory, and openings. A row gives a text, and the text that is
//! wanted. Each kind of rows is a function: it does what the row gives by public functions of the crates below, and returns the text that
//! it found. The program `journal_rows` reads the files of rows and compares. `spelling` says how rows spell blocks, `logs` how they spell
//! logs.
#![tactic(auto)]

pub mod devices;
pub mod dumping;
mod error;
pub mod formats;
pub mod logs;
pub mod openings;
pub mod spelling;
pub mod telling;
pub mod words;

pub use error::RowError;
