//! How the tags of a descriptor block are written and read.
ghost use Rattle.std.specs.Prelude.{ℕ, ◌≡◌, ◌<◌, ◌≤◌, ◌+◌, ◌++◌, ◌∷◌, [], length, take, drop, List, MatchResult};
ghost use Rattle.log_model.specs.declared.log.Tag.{Tag};
ghost use Rattle.journal_model.specs.Layout.{big_endian, descriptor_type, every_number, sequence_in, tag_bytes, HasHeader, IsLayout};
ghost use Rattle.log_model.specs.Descriptor.{BeginsWithTag, IsDescriptor, descriptor_block, flag_word, tag_spelling, uuid_behind};
ghost use Rattle.log_format.specs.Size.{FitDescriptor, count_of, most_tags};

use crate::block_number::{is_outside, low_half, read_tag_number, write_high_half};
use crate::{Header, Malformed};
use byteorder::{BigEndian, ByteOrder};
use journal_model::layout::{DESCRIPTOR_TYPE, HEADER_BYTES, UUID_BYTES};
use journal_model::{BlockNo, LogLayout};
use log_model::Tag;

const ESCAPED: u16 = 1;

/// No UUID follows the tag.
const SAME_UUID: u16 = 2;

/// The last tag of its descriptor.
const LAST: u16 = 8;

/// A descriptor block names the home blocks of the copies that follow it.
/// Source: journal.rst, "Descriptor Block".
pub struct Descriptor;

impl Descriptor {
    /// Writes a descriptor of the transaction `sequence` over all of `block`, with the tags in order. The UUID `uuid` follows
    /// each tag without the same-UUID flag, which all but the first have. The tags fit one descriptor (at most 122, 250 or 506
    /// by block size; with 64-bit numbers 81, 167 or 337), and the layout can spell each home block.
    /// Source: journal.rst, "Descriptor Block".
    pub fn write(layout: LogLayout, block: &mut [u8], uuid: &[u8; 16], sequence: u32, tags: &[Tag])
        requires taken { IsLayout layout }
        requires size { length block.old ≡ layout.block_size }
        requires fit { FitDescriptor layout tags.now }
        ensures { block.new ≡ descriptor_block layout uuid.now sequence tags.now }
    {
        let header = Header {
            block_type: DESCRIPTOR_TYPE,
            sequence,
        };
        header.write(block);
        let mut at = HEADER_BYTES;
        for tag in tags {
            at += write_tag(layout, &mut block[at..], uuid, tag);
        }
        block[at..].fill(0);
    }

    /// Reads the tags of a descriptor, whose header was checked, into the first places of `tags`, and answers how many there
    /// are. `tags` has room for the most tags (126, 254 or 510 by block size; with 64-bit numbers 84, 169 or 340); later places
    /// are unspecified. Checksum fields, UUIDs and bytes after the last tag are not read.
    ///
    /// # Errors
    ///
    /// `Malformed`, with all of `tags` unspecified: a tag, or the UUID after one that is not the last, does not fit; a tag has a
    /// flag other than 1, 2 and 8; or a home block is not below `home_blocks`, if known.
    /// Source: journal.rst, "Descriptor Block"; all these tests are this project's own.
    pub fn read(
        layout: LogLayout,
        block: &[u8],
        home_blocks: Option<u64>,
        tags: &mut [Tag],
    ) -> Result<usize, Malformed>
        requires taken { IsLayout layout }
        requires size { length block.now ≡ layout.block_size }
        requires has_header { HasHeader descriptor_type (sequence_in block.now) block.now }
        requires room { most_tags layout ≤ length tags.old }
        ensures { MatchResult result
            (λ n. (n ≤ length tags.new) × IsDescriptor layout (count_of layout home_blocks) (sequence_in block.now) block.now (take n tags.new))
            (λ _. (ts : List Tag) → IsDescriptor layout (count_of layout home_blocks) (sequence_in block.now) block.now ts → ⊥) }
    {
        let mut at = HEADER_BYTES;
        for count in 0..tags.len() {
            tags[count] = read_tag(layout, &block[at..], home_blocks)?;
            let tag = &tags[count];
            if tag.last {
                return Ok(count + 1);
            }
            at += spelled_bytes(layout, tag);
            if at > block.len() {
                return Err(Malformed);
            }
        }
        Err(Malformed)
    }
}

/// Writes a tag, with the UUID unless its same-UUID flag is set, and answers its bytes.
fn write_tag(layout: LogLayout, bytes: &mut [u8], uuid: &[u8; 16], tag: &Tag) -> usize
    requires taken { IsLayout layout }
    requires room { tag_bytes layout + uuid_behind tag.now ≤ length bytes.old }
    requires spelled { tag.now.block < every_number layout }
    ensures taken { result ≡ tag_bytes layout + uuid_behind tag.now }
    ensures bytes { bytes.new ≡ tag_spelling layout uuid.now tag.now ++ drop (tag_bytes layout + uuid_behind tag.now) bytes.old }
{
    let end = layout.tag_bytes();
    write_front(bytes, tag);
    write_high_half(layout, &mut bytes[8..], tag.block.0);
    if tag.same_uuid {
        return end;
    }
    bytes[end..end + UUID_BYTES].copy_from_slice(uuid);
    end + UUID_BYTES
}

/// Writes the front of a tag, which is alike in both layouts: the low half of its number, two zeros for a checksum, and its flags.
fn write_front(bytes: &mut [u8], tag: &Tag)
    requires { 8 ≤ length bytes.old }
    ensures { bytes.new ≡ (big_endian 4 tag.now.block ++ (0 ∷ 0 ∷ []) ++ big_endian 2 (flag_word tag.now)) ++ drop 8 bytes.old }
{
    BigEndian::write_u32(bytes, low_half(tag.block.0));
    BigEndian::write_u16(&mut bytes[4..], 0);
    BigEndian::write_u16(&mut bytes[6..], flags_of(tag));
}

fn flags_of(tag: &Tag) -> u16
    ensures { result ≡ flag_word tag.now }
{
    let escaped = if tag.escaped { ESCAPED } else { 0 };
    let same_uuid = if tag.same_uuid { SAME_UUID } else { 0 };
    let last = if tag.last { LAST } else { 0 };
    escaped | same_uuid | last
}

fn spelled_bytes(layout: LogLayout, tag: &Tag) -> usize
    requires { IsLayout layout }
    ensures { result ≡ tag_bytes layout + uuid_behind tag.now }
{
    let bytes = layout.tag_bytes();
    if tag.same_uuid {
        bytes
    } else {
        bytes + UUID_BYTES
    }
}

/// The tag at the front. It is malformed if its bytes are missing, it has a flag other than 1, 2 and 8, or its home block is not
/// below a known `home_blocks`.
fn read_tag(layout: LogLayout, bytes: &[u8], home_blocks: Option<u64>) -> Result<Tag, Malformed>
    requires { IsLayout layout }
    ensures { MatchResult result
        (λ t. BeginsWithTag layout bytes.now t × (t.block < count_of layout home_blocks))
        (λ _. (t : Tag) → BeginsWithTag layout bytes.now t → t.block < count_of layout home_blocks → ⊥) }
{
    if bytes.len() < layout.tag_bytes() {
        return Err(Malformed);
    }
    let block = read_tag_number(layout, bytes);
    let flags = BigEndian::read_u16(&bytes[6..]);
    if is_outside(block, home_blocks) || flags & !(ESCAPED | SAME_UUID | LAST) != 0 {
        return Err(Malformed);
    }
    Ok(Tag {
        block: BlockNo(block),
        escaped: flags & ESCAPED != 0,
        same_uuid: flags & SAME_UUID != 0,
        last: flags & LAST != 0,
    })
}
