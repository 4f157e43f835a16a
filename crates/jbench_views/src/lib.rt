//! The commands that look something up in a log, over devices: `dump` with its options, `cat`, and `show`.
//!
//! `printing` has `dump` and `cat`, and `object` a dump as JSON. `showing` has `show`, with the `fields` of a superblock.
#![tactic(auto)]

mod fields;
mod object;
mod printing;
mod showing;

pub use printing::{cat, dump};
pub use showing::show;
