//! The output of commands with readers and writers that fail, and over devices in memory; words that are not UTF-8; a file that is
//! replaced.
mod arguments;
mod faults;
mod format;
mod replaced;
