//! Reads and writes the bytes of the handshake.
ghost use Rattle.std.specs.Prelude.{◌≡◌, ◌≢◌, ◌≤◌, ◌<◌, ◌+◌, ◌^◌, ◌++◌, List, ℕ, length, drop, IfNone, IfSome, MatchOption};
ghost use Rattle.nbd_protocol.specs.Layout.{IsOption, IsQuestion, block_sizes, export_of, fact_reply, fact_reply_bytes, flags_of_export, greeting, most_data, name_reply, name_reply_bytes, number_at, option_bytes, option_magic, option_reply, option_reply_bytes};

use crate::numbers::{HAS_FLAGS, LIST, MOST_DATA, OF_EXPORT, READ_ONLY, SERVER, TAKES_ALL};
use byteorder::{BigEndian, ByteOrder};

/// Bytes of a greeting.
pub const GREETING_BYTES: usize = 18;

/// Bytes of an option, without its data.
pub const OPTION_BYTES: usize = 16;

/// Bytes of a reply to an option, without its data.
pub const OPTION_REPLY_BYTES: usize = 20;

/// Bytes of the reply that names an export, without the name.
pub const NAME_REPLY_BYTES: usize = 24;

/// Bytes of the reply that tells a fact, without the fact.
pub const FACT_REPLY_BYTES: usize = 22;

/// Bytes of an export's size and flags.
pub const EXPORT_BYTES: usize = 10;

/// Bytes of the three block sizes.
pub const SIZES_BYTES: usize = 12;

/// "NBDMAGIC".
const SERVER_MAGIC: u64 = 0x4e42_444d_4147_4943;

/// "IHAVEOPT".
const OPTION_MAGIC: u64 = 0x4948_4156_454f_5054;

/// The magic of each reply to an option.
const OPTION_REPLY_MAGIC: u64 = 0x0003_e889_0455_65a9;

/// Writes the server's greeting over the front of a buffer.
pub fn write_greeting(into: &mut [u8], flags: u16)
    requires { 18 ≤ length into.old }
    ensures { into.new ≡ greeting flags ++ drop 18 into.old }
{
    BigEndian::write_u64(into, SERVER_MAGIC);
    BigEndian::write_u64(&mut into[8..], OPTION_MAGIC);
    BigEndian::write_u16(&mut into[16..], flags);
}

/// The header of an option.
#[derive(Clone, Copy, Debug)]
pub struct OptionHeader {
    /// The option's number.
    pub option: u32,
    /// How many bytes of data follow.
    pub length: u32,
}

impl OptionHeader {
    /// Reads an option's header; `None` if the magic is wrong.
    pub fn read(bytes: &[u8]) -> Option<OptionHeader>
        requires { option_bytes ≤ length bytes.now }
        ensures { MatchOption result (number_at 0 8 bytes.now ≢ option_magic) (IsOption bytes.now) }
    {
        if BigEndian::read_u64(bytes) != OPTION_MAGIC {
            return None;
        }
        Some(OptionHeader {
            option: BigEndian::read_u32(&bytes[8..]),
            length: BigEndian::read_u32(&bytes[12..]),
        })
    }

    /// How many bytes of data follow; `None` if they exceed `MOST_DATA`. The caller then skips them.
    pub fn data_bytes(&self) -> Option<usize>
        ensures some { IfSome result (λ n. (n ≡ self.now.length) × (n ≤ most_data)) }
        ensures none { IfNone result (most_data < self.now.length) }
    {
        if self.length > MOST_DATA {
            return None;
        }
        Some(self.length as usize)
    }
}

/// Writes the reply to an option over the front of a buffer; `bytes` of data follow it.
pub fn write_option_reply(into: &mut [u8], option: u32, kind: u32, bytes: u32)
    requires { option_reply_bytes ≤ length into.old }
    ensures { into.new ≡ option_reply option kind bytes ++ drop option_reply_bytes into.old }
{
    BigEndian::write_u64(into, OPTION_REPLY_MAGIC);
    BigEndian::write_u32(&mut into[8..], option);
    BigEndian::write_u32(&mut into[12..], kind);
    BigEndian::write_u32(&mut into[16..], bytes);
}

/// Writes the reply that names an export over the front of a buffer; a name of `bytes` bytes follows it.
pub fn write_name_reply(into: &mut [u8], bytes: u32)
    requires room { name_reply_bytes ≤ length into.old }
    requires fits { bytes + 4 < 2 ^ 32 }
    ensures { into.new ≡ name_reply bytes ++ drop name_reply_bytes into.old }
{
    write_option_reply(into, LIST, SERVER, bytes + 4);
    BigEndian::write_u32(&mut into[20..], bytes);
}

/// Writes the reply that tells a fact over the front of a buffer; a fact of `bytes` bytes follows it.
pub fn write_fact_reply(into: &mut [u8], option: u32, fact: u16, bytes: u32)
    requires room { fact_reply_bytes ≤ length into.old }
    requires fits { bytes + 2 < 2 ^ 32 }
    ensures { into.new ≡ fact_reply option fact bytes ++ drop fact_reply_bytes into.old }
{
    write_option_reply(into, option, OF_EXPORT, bytes + 2);
    BigEndian::write_u16(&mut into[20..], fact);
}

/// The flags of an export.
/// Source: proto.md, "Transmission flags".
pub fn export_flags(read_only: bool) -> u16
    ensures { result ≡ flags_of_export read_only }
{
    if read_only {
        HAS_FLAGS | READ_ONLY | TAKES_ALL
    } else {
        HAS_FLAGS | TAKES_ALL
    }
}

/// Writes an export's size in bytes and its flags over the front of a buffer.
pub fn write_export(into: &mut [u8], size: u64, flags: u16)
    requires { 10 ≤ length into.old }
    ensures { into.new ≡ export_of size flags ++ drop 10 into.old }
{
    BigEndian::write_u64(into, size);
    BigEndian::write_u16(&mut into[8..], flags);
}

/// Writes the least, best and greatest block size, in bytes, over the front of a buffer.
pub fn write_block_sizes(into: &mut [u8], least: u32, best: u32, most: u32)
    requires { 12 ≤ length into.old }
    ensures { into.new ≡ block_sizes least best most ++ drop 12 into.old }
{
    BigEndian::write_u32(into, least);
    BigEndian::write_u32(&mut into[4..], best);
    BigEndian::write_u32(&mut into[8..], most);
}

/// The question of `INFO` and `GO`.
#[derive(Clone, Copy, Debug)]
pub struct Question<'a> {
    /// An export's name.
    pub name: &'a [u8],
    /// The wanted facts: big-endian 16-bit numbers.
    pub wanted: &'a [u8],
}

impl Question<'_> {
    /// Reads the data of `INFO` or `GO`; `None` if they are malformed.
    /// Source: proto.md, "Option types".
    pub fn read(bytes: &[u8]) -> Option<Question<'_>>
        ensures found { IfSome result (λ question. IsQuestion bytes.now question.name.now question.wanted.now) }
        ensures none { IfNone result ((name wanted : List ℕ) → IsQuestion bytes.now name wanted → ⊥) }
    {
        if bytes.len() < 6 {
            return None;
        }
        let length = BigEndian::read_u32(bytes) as usize;
        if bytes.len() - 6 < length {
            return None;
        }
        let count = usize::from(BigEndian::read_u16(&bytes[4 + length..]));
        let wanted = &bytes[6 + length..];
        if wanted.len() != 2 * count {
            return None;
        }
        let name = &bytes[4..4 + length];
        Some(Question { name, wanted })
    }
}
