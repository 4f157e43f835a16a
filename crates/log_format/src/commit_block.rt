//! What a commit block is, and how it is written.
ghost use Rattle.std.specs.Prelude.{◌≡◌, length};
ghost use Rattle.journal_model.specs.Layout.{Layout};
ghost use Rattle.log_model.specs.OwnText.{commit_block};
ghost use Rattle.log_format.specs.Size.{IsBlockSize};

use crate::Header;
use journal_model::layout::{COMMIT_TYPE, HEADER_BYTES};

/// A commit block, which ends a transaction. Nothing after its header is read.
/// Source: journal.rst, "Commit Block".
pub struct CommitBlock;

impl CommitBlock {
    /// Writes a commit block over all of `block` (1024, 2048 or 4096 bytes, in either layout), for the
    /// transaction number `sequence`.
    /// Source: journal.rst, "Commit Block".
    pub fn write(block: &mut [u8], sequence: u32)
        requires { IsBlockSize (length block.old) }
        ensures { (l : Layout) → l.block_size ≡ length block.old → block.new ≡ commit_block l sequence }
    {
        let header = Header {
            block_type: COMMIT_TYPE,
            sequence,
        };
        header.write(block);
        block[HEADER_BYTES..].fill(0);
    }
}
