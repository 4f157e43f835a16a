//! The spelling of blocks, which all rows share:
//!
//! ```text
//! BLOCK = [ WORD { WORD } [ "..HH" ] ]    its words in order, then zeros, or else bytes HH
//! WORD  = N "*" WORD           the word N times, if none of these is in it
//!       | "descriptor=" T      the header of a descriptor with the sequence T
//!       | "commit=" T          the header of a commit block
//!       | "revoke=" T          the header of a revoke block
//!       | B "/" HHHH           a tag of home block B with these flags; no UUID follows it
//!       | A ".." B "/" HHHH    such tags of the home blocks A to B
//!       | B "/" HHHHHHHH       a tag whose checksum field is not zero: it comes first
//!       | "used=" N            a number of four bytes, as the count in a revoke block
//!       | N                    the number of a home block, as in a revoke block: four bytes, in a wide log eight
//!       | A ".." B             the numbers A to B
//!       | "magic"              the first four bytes of a log block
//!       | "uuid"               the journal's UUID: 16 bytes aa
//!       | "bytes=" HH..        these bytes, as the first ones of a copy
//!       | "super"              a superblock as it is formatted, with the block size, the length of the log's area and its width
//!       | FIELD "=" N          this number in a field of the superblock: "s_maxlen=17"
//!       | "@" P "=" HH..       these bytes from byte P of the block on
//! ```
//!
//! A wide log has block numbers of 64 bits: in a tag a number's higher four bytes follow the flags. H is a hex digit. Numbers are
//! decimal, or hex digits after `0x`. A number of more than one byte has its highest byte first. `logs` has the
//! spelling of a log.
ghost use Rattle.std.specs.Prelude.{◌≡◌, ◌⊎◌};

use crate::RowError;
use crate::words::{count, hex_byte, hex_bytes, hex32, number32, series};
use journal_model::LogLayout;
use std::alloc::Global;

const MAGIC: u32 = 0xc03b_3998;

/// The journal's UUID.
pub const UUID: [u8; 16] = [0xaa; 16];

const MOST_BYTES: usize = 4096;

/// The measures of a formatted superblock.
#[derive(Clone, Copy)]
pub struct SuperblockMeasures {
    /// Bytes of a block.
    pub block_size: usize,
    /// Blocks of the log's area.
    pub log_blocks: u64,
    /// Whether block numbers have 64 bits.
    pub wide: bool,
}

/// The layout of a log in blocks of this size, for block numbers of 64 bits or 32.
pub fn layout_in(block_size: usize, wide: bool) -> LogLayout
    ensures size { result.block_size ≡ block_size }
    ensures width { (result.number_bytes ≡ 4) ⊎ (result.number_bytes ≡ 8) }
{
    if wide {
        LogLayout::wide(block_size)
    } else {
        LogLayout::narrow(block_size)
    }
}

/// The block that these words spell.
pub fn block_of(
    alloc: Global,
    measures: &SuperblockMeasures,
    words: &str,
) -> Result<Vec<u8>, RowError> {
    let (words, rest) = match words.rsplit_once(" ..") {
        Some((words, byte)) => (words, hex_byte(byte)?),
        None => (words, 0),
    };
    let mut bytes = Vec::new(alloc);
    for word in words.split_whitespace() {
        push_word(&mut bytes, measures, word)?;
    }
    if bytes.len() > measures.block_size {
        return Err(RowError::Unread);
    }
    bytes.resize(measures.block_size, rest)?;
    Ok(bytes)
}

/// Adds a word, as often as it says.
fn push_word(
    bytes: &mut Vec<u8>,
    measures: &SuperblockMeasures,
    word: &str,
) -> Result<(), RowError> {
    let (times, word) = match word.split_once('*') {
        Some((times, word)) => (count(times)?, word),
        None => (1, word),
    };
    if times > MOST_BYTES {
        return Err(RowError::Unread);
    }
    for _ in 0..times {
        push_one(bytes, measures, word)?;
    }
    Ok(())
}

fn push_one(
    bytes: &mut Vec<u8>,
    measures: &SuperblockMeasures,
    word: &str,
) -> Result<(), RowError> {
    if let Some((name, value)) = word.split_once('=') {
        return push_named(bytes, name, value);
    }
    if let Some((blocks, flags)) = word.split_once('/') {
        return push_tags(bytes, measures, blocks, flags);
    }
    match word {
        "magic" => push_number(bytes, MAGIC),
        "uuid" => push_bytes(bytes, &UUID),
        "super" => push_super(bytes, measures),
        _ => push_numbers(bytes, measures, word),
    }
}

fn push_bytes(bytes: &mut Vec<u8>, more: &[u8]) -> Result<(), RowError> {
    bytes.extend_from_slice(more)?;
    Ok(())
}

fn push_number(bytes: &mut Vec<u8>, number: u32) -> Result<(), RowError> {
    push_bytes(bytes, &number.to_be_bytes())
}

fn push_header(bytes: &mut Vec<u8>, block_type: u32, sequence: &str) -> Result<(), RowError> {
    push_number(bytes, MAGIC)?;
    push_number(bytes, block_type)?;
    push_number(bytes, number32(sequence)?)
}

/// The first and the last number of a series that fits a block.
fn short_series(word: &str) -> Result<(u64, u64), RowError> {
    let (first, last) = series(word)?;
    if last.saturating_sub(first) > MOST_BYTES as u64 {
        return Err(RowError::Unread);
    }
    Ok((first, last))
}

fn narrow(number: u64) -> Result<u32, RowError> {
    u32::try_from(number).ok().ok_or(RowError::Unread)
}

fn push_numbers(
    bytes: &mut Vec<u8>,
    measures: &SuperblockMeasures,
    word: &str,
) -> Result<(), RowError> {
    let (first, last) = short_series(word)?;
    for number in first..=last {
        if measures.wide {
            push_bytes(bytes, &number.to_be_bytes())?;
        } else {
            push_number(bytes, narrow(number)?)?;
        }
    }
    Ok(())
}

/// Adds tags; the text after the slash follows the lower half of each number.
fn push_tags(
    bytes: &mut Vec<u8>,
    measures: &SuperblockMeasures,
    blocks: &str,
    flags: &str,
) -> Result<(), RowError> {
    let (first, last) = short_series(blocks)?;
    let flags = hex32(flags)?;
    for block in first..=last {
        push_tag(bytes, measures.wide, block, flags)?;
    }
    Ok(())
}

fn push_tag(bytes: &mut Vec<u8>, wide: bool, block: u64, flags: u32) -> Result<(), RowError> {
    if wide {
        push_number(bytes, (block % (1 << 32)) as u32)?;
        push_number(bytes, flags)?;
        return push_number(bytes, (block >> 32) as u32);
    }
    push_number(bytes, narrow(block)?)?;
    push_number(bytes, flags)
}

fn push_super(bytes: &mut Vec<u8>, measures: &SuperblockMeasures) -> Result<(), RowError> {
    let length = narrow(measures.log_blocks)?;
    let block_size = narrow(measures.block_size as u64)?;
    let features = if measures.wide { 3 } else { 1 };
    for number in [MAGIC, 4, 0, block_size, length, 1, 1, 0, 0, 0, features, 0] {
        push_number(bytes, number)?;
    }
    push_bytes(bytes, &UUID)?;
    push_number(bytes, 1)
}

fn push_named(bytes: &mut Vec<u8>, name: &str, value: &str) -> Result<(), RowError> {
    match name {
        "descriptor" => push_header(bytes, 1, value),
        "commit" => push_header(bytes, 2, value),
        "revoke" => push_header(bytes, 5, value),
        "used" => push_number(bytes, number32(value)?),
        "bytes" => {
            let more = hex_bytes(*bytes.allocator(), value)?;
            push_bytes(bytes, &more)
        }
        _ => put_named(bytes, name, value),
    }
}

fn put_named(bytes: &mut Vec<u8>, name: &str, value: &str) -> Result<(), RowError> {
    if let Some(place) = name.strip_prefix('@') {
        let more = hex_bytes(*bytes.allocator(), value)?;
        return put(bytes, count(place)?, &more);
    }
    let place = place_of(name)?;
    put(bytes, place, &number32(value)?.to_be_bytes())
}

fn place_of(field: &str) -> Result<usize, RowError> {
    Ok(match field {
        "s_blocksize" => 0x0c,
        "s_maxlen" => 0x10,
        "s_first" => 0x14,
        "s_sequence" => 0x18,
        "s_start" => 0x1c,
        "s_errno" => 0x20,
        "s_feature_compat" => 0x24,
        "s_feature_incompat" => 0x28,
        "s_feature_ro_compat" => 0x2c,
        "s_nr_users" => 0x40,
        _ => return Err(RowError::Unread),
    })
}

/// Puts bytes at a place, after zeros if the block is shorter.
fn put(bytes: &mut Vec<u8>, place: usize, more: &[u8]) -> Result<(), RowError> {
    let end = place.checked_add(more.len()).ok_or(RowError::Unread)?;
    if end > MOST_BYTES {
        return Err(RowError::Unread);
    }
    if bytes.len() < end {
        bytes.resize(end, 0)?;
    }
    bytes[place..end].copy_from_slice(more);
    Ok(())
}
