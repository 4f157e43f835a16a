//! Places and room in a log: the ring of its blocks, and what each block of a transaction is. No call takes memory.
#![tactic(auto)]

mod layout;
pub mod layout_laws;
mod ring;
pub mod ring_laws;

pub use layout::{Layout, Part};
pub use ring::Ring;
