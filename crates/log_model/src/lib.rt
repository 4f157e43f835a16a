//! What a reader finds in a log and a writer puts there.
//!
//! `specs/` defines superblock, pieces and texts, the chain and its replay, an opening, and the dump.
#![tactic(auto)]

mod log;
pub mod log_laws;
pub mod own_text_laws;
pub mod replay_laws;

pub use log::{Piece, Tag, Text};
