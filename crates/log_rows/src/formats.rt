//! Rows of the log's format: blocks byte for byte, places, room and layouts.
mod blocks;
mod copies;
mod rings;
mod superblocks;

pub use blocks::{allowed_blocks, full_blocks, headers, read_blocks, written_blocks};
pub use copies::escapes;
pub use rings::{capacities, needs, parts, places, ring_calls};
pub use superblocks::{
    formatted_superblocks, started_superblocks, superblock_fields, tested_superblocks,
};
