//! How the numbers of a revoke block are written and read.
ghost use Rattle.std.specs.Prelude.{ℕ, ◌≡◌, ◌<◌, ◌≤◌, ◌+◌, ◌*◌, length, take, List, MatchResult};
ghost use Rattle.journal_model.specs.Layout.{every_number, number_at, numbers_of, revoke_type, sequence_in, HasHeader, IsLayout};
ghost use Rattle.log_model.specs.RevokeBlock.{IsRevokeBlock, revoke_block};
ghost use Rattle.log_format.specs.Size.{FitRevokeBlock, count_of};

use crate::block_number::{is_outside, read_whole, write_whole};
use crate::header::number_in;
use crate::{Header, Malformed};
use byteorder::{BigEndian, ByteOrder};
use journal_model::layout::{HEADER_BYTES, REVOKE_HEADER_BYTES, REVOKE_TYPE};
use journal_model::{BlockNo, LogLayout};

/// A revoke block: no copy of the home blocks that it names may be replayed from its own or an earlier transaction.
/// Source: journal.rst, "Revocation Block".
pub struct RevokeBlock;

impl RevokeBlock {
    /// Writes a revoke block of the transaction `sequence` over all of `block`, with `numbers` in order. They fit one block (at
    /// most 252, 508 or 1020 by block size; with 64-bit numbers 126, 254 or 510), and the layout can spell each.
    /// Source: journal.rst, "Revocation Block".
    pub fn write(layout: LogLayout, block: &mut [u8], sequence: u32, numbers: &[BlockNo])
        requires taken { IsLayout layout }
        requires size { length block.old ≡ layout.block_size }
        requires fit { FitRevokeBlock layout numbers.now }
        ensures { block.new ≡ revoke_block layout sequence numbers.now }
    {
        let header = Header {
            block_type: REVOKE_TYPE,
            sequence,
        };
        header.write(block);
        let used = REVOKE_HEADER_BYTES + layout.number_bytes * numbers.len();
        BigEndian::write_u32(&mut block[HEADER_BYTES..], used as u32);
        let mut at = REVOKE_HEADER_BYTES;
        for number in numbers {
            write_whole(layout, &mut block[at..], number.0);
            at += layout.number_bytes;
        }
        block[at..].fill(0);
    }

    /// Reads the numbers of a revoke block, whose header was checked, into the first places of `numbers`, and answers how many
    /// there are, maybe 0. `numbers` has room for the most (252, 508 or 1020 by block size; with 64-bit numbers 126, 254 or
    /// 510); later places are unspecified.
    ///
    /// # Errors
    ///
    /// `Malformed`, with all of `numbers` unspecified: the count of used bytes is below 16, above the block size, or not 16 and
    /// a multiple of a number's bytes; or a number is not below `home_blocks`, if known.
    /// Source: journal.rst, "Revocation Block"; all these tests are this project's own.
    pub fn read(
        layout: LogLayout,
        block: &[u8],
        home_blocks: Option<u64>,
        numbers: &mut [BlockNo],
    ) -> Result<usize, Malformed>
        requires taken { IsLayout layout }
        requires size { length block.now ≡ layout.block_size }
        requires has_header { HasHeader revoke_type (sequence_in block.now) block.now }
        requires room { numbers_of layout ≤ length numbers.old }
        ensures { MatchResult result
            (λ n. (n ≤ length numbers.new) × IsRevokeBlock layout (count_of layout home_blocks) (sequence_in block.now) block.now (take n numbers.new))
            (λ _. (bs : List ℕ) → IsRevokeBlock layout (count_of layout home_blocks) (sequence_in block.now) block.now bs → ⊥) }
    {
        let used = number_in(block, HEADER_BYTES) as usize;
        if used < REVOKE_HEADER_BYTES || used > block.len() || used % layout.number_bytes != 0 {
            return Err(Malformed);
        }
        let count = (used - REVOKE_HEADER_BYTES) / layout.number_bytes;
        for i in 0..count {
            let number = nth_number(layout, block, i);
            if is_outside(number, home_blocks) {
                return Err(Malformed);
            }
            numbers[i] = BlockNo(number);
        }
        Ok(count)
    }
}

/// The number of a revoke block that `i` others precede.
fn nth_number(layout: LogLayout, block: &[u8], i: usize) -> u64
    requires taken { IsLayout layout }
    requires room { 16 + layout.number_bytes * i + layout.number_bytes ≤ length block.now }
    ensures number { result ≡ number_at (16 + layout.number_bytes * i) layout.number_bytes block.now }
    ensures below { result < every_number layout }
{
    let at = REVOKE_HEADER_BYTES + layout.number_bytes * i;
    read_whole(layout, &block[at..])
}
