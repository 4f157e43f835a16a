//! How headers of the log's own blocks are read and written.
ghost use Rattle.std.specs.Prelude.{◌≡◌, ◌≤◌, ◌+◌, ◌++◌, true, false, length, drop, MatchOption};
ghost use Rattle.journal_model.specs.Layout.{begins_with_magic, header, header_bytes, number_at, sequence_in, type_in};

use byteorder::{BigEndian, ByteOrder};
use journal_model::layout::MAGIC;

/// The header of the superblock and of each descriptor, commit and revoke block.
/// Source: journal.rst, "Block Header".
#[derive(Clone, Copy)]
pub struct Header {
    /// 1 a descriptor, 2 a commit block, 4 a superblock, 5 a revoke block.
    pub block_type: u32,
    /// The number of the block's transaction. In a superblock it is written as 0, and not tested.
    pub sequence: u32,
}

impl Header {
    /// The header of a log block of at least 12 bytes; `None` exactly if it does not begin with the magic. Type
    /// and sequence are not tested.
    /// Source: journal.rst, "Block Header".
    pub fn read(block: &[u8]) -> Option<Header>
        requires { header_bytes ≤ length block.now }
        ensures { MatchOption result (begins_with_magic block.now ≡ false)
            (λ h. (begins_with_magic block.now ≡ true) × (h.block_type ≡ type_in block.now) × (h.sequence ≡ sequence_in block.now)) }
    {
        if !block.starts_with(&MAGIC) {
            return None;
        }
        Some(Header {
            block_type: number_in(block, 4),
            sequence: number_in(block, 8),
        })
    }

    pub(crate) fn write(self, block: &mut [u8])
        requires { header_bytes ≤ length block.old }
        ensures { block.new ≡ header self.block_type self.sequence ++ drop header_bytes block.old }
    {
        block[..4].copy_from_slice(&MAGIC);
        BigEndian::write_u32(&mut block[4..], self.block_type);
        BigEndian::write_u32(&mut block[8..], self.sequence);
    }
}

/// The number in the four bytes of a block from byte `at` on.
pub(crate) fn number_in(block: &[u8], at: usize) -> u32
    requires { at + 4 ≤ length block.now }
    ensures { result ≡ number_at at 4 block.now }
{
    BigEndian::read_u32(&block[at..])
}
