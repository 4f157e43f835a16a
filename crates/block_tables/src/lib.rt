//! Tables by block: the revokes and copies of a chain, for an opening, and the last effect on each block, for direct writes.
//!
//! They are hash tables, with constant time a call on average if the hashes spread evenly. Memory is proportional to the noted blocks of a
//! chain; of the blocks copied since the opening a bit each is kept.
#![tactic(auto)]

mod block_set;
mod copies;
mod effects;
pub mod laws;
mod revokes;

pub use copies::CopyTable;
pub use effects::LastEffects;
pub use revokes::RevokeTable;
