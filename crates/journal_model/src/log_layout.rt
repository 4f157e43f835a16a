//! What differs from log to log in the bytes of its blocks.
ghost use Rattle.std.specs.Prelude.{◌≡◌, ◌^◌, min};
ghost use Rattle.journal_model.specs.Layout.{IsLayout, every_number, narrow, tag_bytes, wide};

/// The layout of a log, as its superblock has it.
/// Source: journal.rst, "Layout".
#[derive(Clone, Copy, Debug, PartialEq, Eq)]
pub struct LogLayout {
    /// Bytes of a block.
    pub block_size: usize,
    /// Bytes of a block number: 4 or 8.
    pub number_bytes: usize,
}

impl LogLayout {
    /// The layout with 32-bit block numbers.
    pub const fn narrow(block_size: usize) -> Self
        ensures { result ≡ narrow block_size }
    {
        LogLayout {
            block_size,
            number_bytes: 4,
        }
    }

    /// The layout with 64-bit block numbers.
    pub const fn wide(block_size: usize) -> Self
        ensures { result ≡ wide block_size }
    {
        LogLayout {
            block_size,
            number_bytes: 8,
        }
    }

    /// Bytes of a tag, without a UUID.
    /// Source: journal.rst, "Descriptor Block".
    pub fn tag_bytes(self) -> usize
        requires { IsLayout self }
        ensures { result ≡ tag_bytes self }
    {
        self.number_bytes + 4
    }

    /// One more than the greatest block that a transaction may touch, by the width of numbers and the limit of
    /// 48 bits.
    pub fn block_limit(self) -> u64
        requires { IsLayout self }
        ensures { result ≡ min (every_number self) (2 ^ 48) }
    {
        if self.number_bytes == 4 {
            1 << 32
        } else {
            1 << 48
        }
    }
}
