//! How home block numbers stand in descriptors and revoke blocks: in 4 or 8 bytes.
ghost use Rattle.std.specs.Prelude.{◌≡◌, ◌+◌, ◌-◌, ◌*◌, ◌/◌, ◌^◌, ◌++◌, ◌<◌, ◌≤◌, drop, length, nat_le, unwrap_or};
ghost use Rattle.journal_model.specs.Layout.{IsLayout, big_endian, every_number, number_at, tag_bytes};

use byteorder::{BigEndian, ByteOrder};
use journal_model::LogLayout;

/// Bytes of a 32-bit number, and of half of a 64-bit one.
const HALF_BYTES: usize = 4;

/// The place of the high half of a tag's number.
const HIGH_HALF_PLACE: usize = 8;

pub(crate) fn low_half(number: u64) -> u32
    ensures { big_endian 4 result ≡ big_endian 4 number }
{
    (number % (1 << 32)) as u32
}

/// Writes a whole number over the first bytes.
pub(crate) fn write_whole(layout: LogLayout, bytes: &mut [u8], number: u64)
    requires taken { IsLayout layout }
    requires room { layout.number_bytes ≤ length bytes.old }
    ensures { bytes.new ≡ big_endian layout.number_bytes number ++ drop layout.number_bytes bytes.old }
{
    if layout.number_bytes == HALF_BYTES {
        BigEndian::write_u32(bytes, low_half(number));
    } else {
        BigEndian::write_u64(bytes, number);
    }
}

/// The whole number that bytes begin with.
pub(crate) fn read_whole(layout: LogLayout, bytes: &[u8]) -> u64
    requires taken { IsLayout layout }
    requires room { layout.number_bytes ≤ length bytes.now }
    ensures number { result ≡ number_at 0 layout.number_bytes bytes.now }
    ensures below { result < every_number layout }
{
    if layout.number_bytes == HALF_BYTES {
        u64::from(BigEndian::read_u32(bytes))
    } else {
        BigEndian::read_u64(bytes)
    }
}

/// Writes the high half of a tag's number, if the layout has one.
pub(crate) fn write_high_half(layout: LogLayout, bytes: &mut [u8], number: u64)
    requires taken { IsLayout layout }
    requires room { layout.number_bytes - 4 ≤ length bytes.old }
    ensures { bytes.new ≡ big_endian (layout.number_bytes - 4) (number / 2 ^ 32) ++ drop (layout.number_bytes - 4) bytes.old }
{
    if layout.number_bytes != HALF_BYTES {
        BigEndian::write_u32(bytes, (number >> 32) as u32);
    }
}

/// The block number of the tag at the front.
pub(crate) fn read_tag_number(layout: LogLayout, bytes: &[u8]) -> u64
    requires taken { IsLayout layout }
    requires room { tag_bytes layout ≤ length bytes.now }
    ensures number { result ≡ number_at 0 4 bytes.now + 2 ^ 32 * number_at 8 (layout.number_bytes - 4) bytes.now }
    ensures below { result < every_number layout }
{
    let low = u64::from(BigEndian::read_u32(bytes));
    if layout.number_bytes == HALF_BYTES {
        return low;
    }
    low + (u64::from(BigEndian::read_u32(&bytes[HIGH_HALF_PLACE..])) << 32)
}

/// Whether the number is at or above a known count of home blocks.
pub(crate) fn is_outside(number: u64, home_blocks: Option<u64>) -> bool
    ensures { result ≡ nat_le (unwrap_or home_blocks (number + 1)) number }
{
    match home_blocks {
        Some(count) => count <= number,
        None => false,
    }
}
