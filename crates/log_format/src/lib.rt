//! The bytes of every block of the log, read from and written into buffers of the caller, without memory.
//!
//! Block numbers have 32 or 64 bits, and blocks 1024, 2048 or 4096 bytes.
#![tactic(auto)]

mod block_number;
mod commit_block;
mod descriptor;
mod escaping;
mod header;
pub mod laws;
mod malformed;
mod revoke_block;
mod superblock;
pub mod worked_examples;

pub use commit_block::CommitBlock;
pub use descriptor::Descriptor;
pub use escaping::{escape, unescape};
pub use header::Header;
pub use malformed::Malformed;
pub use revoke_block::RevokeBlock;
pub use superblock::Super;
