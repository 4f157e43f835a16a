//! The measures of a device as a script or a command line gives them, and their limits.
ghost use Rattle.std.specs.Prelude.{◌≡◌, ◌↔◌, ◌≤◌, IfOk, IfSome, IsTrue};
ghost use Rattle.hex.specs.Hex.{decode_of};
ghost use Rattle.log_format.specs.Size.{IsBlockSize};
ghost use Rattle.journal_script.specs.Measures.{most_home_blocks};

use hex::FromHexError;
use journal_model::layout::{GREATEST_LENGTH, LEAST_LENGTH};
use std::alloc::{AllocError, Global};

/// The measures of a device, and its journal's UUID and width.
#[derive(Clone, Copy)]
pub struct Measures {
    /// Bytes of a block: 1024, 2048 or 4096.
    pub block_size: usize,
    /// Blocks of the log: 17 to 1,048,576.
    pub log_blocks: u32,
    /// Blocks of the home area: 1 to 1,048,576, or to 1,099,511,627,776 with block numbers of 64 bits.
    pub home_blocks: u64,
    /// The journal's UUID.
    pub uuid: [u8; 16],
    /// Whether the log's block numbers have 64 bits.
    pub wide: bool,
}

/// The fewest and the most log blocks.
pub const LENGTHS: (u32, u32) = (LEAST_LENGTH, GREATEST_LENGTH);

/// The fewest and the most home blocks of a home area that is made or copied whole.
pub const HOMES: (u64, u64) = (1, 1_048_576);

const MOST_WIDE_HOME: u64 = 1_099_511_627_776;

/// The defaults.
pub const DEFAULTS: Measures = Measures {
    block_size: 1024,
    log_blocks: 33,
    home_blocks: 64,
    uuid: [0xaa; 16],
    wide: false,
};

/// The fewest and the most home blocks of a script.
pub(crate) fn homes(wide: bool) -> (u64, u64)
    ensures { result ≡ (1, most_home_blocks wide) }
{
    let most = if wide { MOST_WIDE_HOME } else { HOMES.1 };
    (HOMES.0, most)
}

/// Whether a block may have this many bytes.
pub fn is_block_size(bytes: u64) -> bool
    ensures { IsTrue result ↔ IsBlockSize bytes }
{
    bytes == 1024 || bytes == 2048 || bytes == 4096
}

/// The block size that a superblock gives, if a block may have it, else 1024.
pub fn block_size_of(told: u32) -> usize
    ensures { IsBlockSize result }
{
    match told {
        2048 => 2048,
        4096 => 4096,
        _ => 1024,
    }
}

/// The number that a word gives, if it is within these limits, both included.
pub fn limited(word: &str, limits: (u64, u64)) -> Option<u64>
    ensures least { IfSome result (λ number. limits.0 ≤ number) }
    ensures most { IfSome result (λ number. number ≤ limits.1) }
{
    match word.parse::<u64>() {
        Ok(number) if limits.0 <= number && number <= limits.1 => Some(number),
        _ => None,
    }
}

/// The UUID of 32 hex digits; `None` for any other text. Fails if memory runs out.
pub fn uuid_of(alloc: Global, digits: &str) -> Result<Option<[u8; 16]>, AllocError>
    ensures { IfOk result (λ found. IfSome found (λ uuid. decode_of digits.now ≡ Ok uuid)) }
{
    match hex::decode(alloc, digits) {
        Ok(bytes) => Ok(<[u8; 16]>::try_from(bytes.as_slice()).ok()),
        Err(FromHexError::OutOfMemory) => Err(AllocError),
        Err(_) => Ok(None),
    }
}
