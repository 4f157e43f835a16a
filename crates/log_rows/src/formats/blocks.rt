//! Rows of descriptors, revoke blocks and commit blocks, byte for byte.
ghost use Rattle.std.specs.Prelude.{◌≡◌, ◌≤◌, length};
ghost use Rattle.journal_model.specs.Layout.{IsLayout, numbers_of};
ghost use Rattle.log_format.specs.Size.{most_tags};

use crate::RowError;
use crate::spelling::{SuperblockMeasures, UUID, block_of, layout_in};
use crate::telling::{
    block_text, bytes_before_zeros, malformed_text, numbers_text, tags_text, text,
};
use crate::words::{cut, hex32, number32, series, split_width, values};
use journal_model::{BlockNo, Items, LogLayout};
use log_format::{CommitBlock, Descriptor, Header, Malformed, RevokeBlock};
use log_model::Tag;
use std::alloc::Global;

/// Blocks of 1024 bytes.
pub(crate) const USUAL: SuperblockMeasures = SuperblockMeasures {
    block_size: 1024,
    log_blocks: 33,
    wide: false,
};

/// The result for tags or numbers that do not fit one block.
const NO_ROOM: &str = "does not fit";

/// Headers of blocks. Given: a block of 1024 bytes. Found: the type and the sequence in its header, or that it has none.
pub fn headers(alloc: Global, given: &str) -> Result<String, RowError> {
    let block = block_of(alloc, &USUAL, given)?;
    if block.len() < 12 {
        return Err(RowError::Unread);
    }
    match Header::read(&block) {
        Some(
            Header {
                block_type,
                sequence,
            },
        ) => Ok(format!(in alloc; "type {block_type} sequence {sequence}")?),
        None => text(alloc, "no header"),
    }
}

fn tag(block: u64, flags: u32) -> Tag {
    Tag {
        block: BlockNo(block),
        escaped: flags & 1 != 0,
        same_uuid: flags & 2 != 0,
        last: flags & 8 != 0,
    }
}

fn push_tags(tags: &mut Items<Tag>, word: &str) -> Result<(), RowError> {
    let (blocks, flags) = cut(word, "/")?;
    let (first, last) = series(blocks)?;
    let flags = hex32(flags)?;
    for block in first..=last {
        tags.push(tag(block, flags))?;
    }
    Ok(())
}

fn tags_of(alloc: Global, words: &str) -> Result<Items<Tag>, RowError> {
    let mut tags = Items::new(alloc);
    for word in words.split_whitespace() {
        push_tags(&mut tags, word)?;
    }
    Ok(tags)
}

fn push_numbers(numbers: &mut Items<BlockNo>, word: &str) -> Result<(), RowError> {
    let (first, last) = series(word)?;
    for number in first..=last {
        numbers.push(BlockNo(number))?;
    }
    Ok(())
}

fn numbers_of(alloc: Global, words: &str) -> Result<Items<BlockNo>, RowError> {
    let mut numbers = Items::new(alloc);
    for word in words.split_whitespace() {
        push_numbers(&mut numbers, word)?;
    }
    Ok(numbers)
}

/// False if the tags do not fit.
fn write_tags(layout: LogLayout, block: &mut [u8], sequence: u32, tags: &[Tag]) -> bool
    requires taken { IsLayout layout }
    requires size { length block.old ≡ layout.block_size }
{
    if tags.is_empty() || tags.len() > (block.len() - 44) / layout.tag_bytes() {
        return false;
    }
    let (_, later) = tags.split_at(1);
    let limit = layout.block_limit();
    if later.iter().all(|t| t.same_uuid) && tags.iter().all(|t| t.block.0 < limit) {
        Descriptor::write(layout, block, &UUID, sequence, tags);
        return true;
    }
    false
}

/// False if the numbers do not fit.
fn write_numbers(layout: LogLayout, block: &mut [u8], sequence: u32, numbers: &[BlockNo]) -> bool
    requires taken { IsLayout layout }
    requires size { length block.old ≡ layout.block_size }
{
    let few = numbers.len() <= (block.len() - 16) / layout.number_bytes;
    let limit = layout.block_limit();
    let spelled = numbers.iter().all(|b| b.0 < limit);
    if few && spelled {
        RevokeBlock::write(layout, block, sequence, numbers);
        return true;
    }
    false
}

/// Writes a block like `descriptor=2 9/0008`, `revoke=3 7 9` or `commit=3`. False if its tags or numbers do not fit.
fn write_words(
    alloc: Global,
    layout: LogLayout,
    block: &mut [u8],
    words: &str,
) -> Result<bool, RowError>
    requires taken { IsLayout layout }
    requires size { length block.old ≡ layout.block_size }
{
    let (head, behind) = words.split_once(' ').unwrap_or((words, ""));
    let (name, sequence) = cut(head, "=")?;
    let sequence = number32(sequence)?;
    match name {
        "descriptor" => {
            let tags = tags_of(alloc, behind)?;
            Ok(write_tags(layout, block, sequence, tags.as_slice()))
        }
        "revoke" => {
            let numbers = numbers_of(alloc, behind)?;
            Ok(write_numbers(layout, block, sequence, numbers.as_slice()))
        }
        "commit" => {
            CommitBlock::write(block, sequence);
            Ok(true)
        }
        _ => Err(RowError::Unread),
    }
}

/// Written blocks. Given: `descriptor=T` and tags, `revoke=T` and numbers, or `commit=T`, followed by `wide` for block numbers of 64 bits.
/// Found: the bytes of the block of 1024 bytes that is written so over bytes ff.
pub fn written_blocks(alloc: Global, given: &str) -> Result<String, RowError> {
    let (words, wide) = split_width(given);
    let mut block = [0xff; 1024];
    if write_words(alloc, layout_in(1024, wide), &mut block, words)? {
        block_text(alloc, &block)
    } else {
        text(alloc, NO_ROOM)
    }
}

/// `None` if the block is no descriptor.
fn read_tags(
    layout: LogLayout,
    block: &[u8],
    home_blocks: u64,
    tags: &mut [Tag],
) -> Option<Result<usize, Malformed>>
    requires taken { IsLayout layout }
    requires size { length block.now ≡ layout.block_size }
    requires room { most_tags layout ≤ length tags.old }
{
    let header = Header::read(block)?;
    if header.block_type != 1 {
        return None;
    }
    Some(Descriptor::read(layout, block, Some(home_blocks), tags))
}

/// `None` if the block is no revoke block.
fn read_numbers(
    layout: LogLayout,
    block: &[u8],
    home_blocks: u64,
    numbers: &mut [BlockNo],
) -> Option<Result<usize, Malformed>>
    requires taken { IsLayout layout }
    requires size { length block.now ≡ layout.block_size }
    requires room { numbers_of layout ≤ length numbers.old }
{
    let header = Header::read(block)?;
    if header.block_type != 5 {
        return None;
    }
    Some(RevokeBlock::read(layout, block, Some(home_blocks), numbers))
}

fn told_tags(
    alloc: Global,
    layout: LogLayout,
    block: &[u8],
    home_blocks: u64,
) -> Result<Option<String>, RowError>
    requires taken { IsLayout layout }
    requires size { length block.now ≡ layout.block_size }
{
    let mut tags = [tag(0, 0); 510];
    match read_tags(layout, block, home_blocks, &mut tags) {
        Some(Ok(count)) => Ok(Some(tags_text(alloc, &tags[..count.min(510)])?)),
        Some(Err(e)) => Ok(Some(malformed_text(alloc, e)?)),
        None => Ok(None),
    }
}

fn told_numbers(
    alloc: Global,
    layout: LogLayout,
    block: &[u8],
    home_blocks: u64,
) -> Result<Option<String>, RowError>
    requires taken { IsLayout layout }
    requires size { length block.now ≡ layout.block_size }
{
    let mut numbers = [BlockNo(0); 1020];
    match read_numbers(layout, block, home_blocks, &mut numbers) {
        Some(Ok(count)) => Ok(Some(numbers_text(alloc, &numbers[..count.min(1020)])?)),
        Some(Err(e)) => Ok(Some(malformed_text(alloc, e)?)),
        None => Ok(None),
    }
}

fn told(
    alloc: Global,
    layout: LogLayout,
    block: &[u8],
    home_blocks: u64,
) -> Result<String, RowError>
    requires taken { IsLayout layout }
    requires size { length block.now ≡ layout.block_size }
{
    if let Some(tags) = told_tags(alloc, layout, block, home_blocks)? {
        return Ok(tags);
    }
    match told_numbers(alloc, layout, block, home_blocks)? {
        Some(numbers) => Ok(numbers),
        None => text(alloc, "neither"),
    }
}

/// Read blocks. Given: `home=N`, or `home=N wide` for block numbers of 64 bits, `|`, and a block of 1024 bytes. Found: the tags of a
/// descriptor or the numbers of a revoke block for a home of N blocks, `malformed block`, or `neither` for another block.
pub fn read_blocks(alloc: Global, given: &str) -> Result<String, RowError> {
    let (home, words) = cut(given, " | ")?;
    let (home, wide) = split_width(home);
    let [home_blocks] = values::<1>(home, "home")?;
    let measures = SuperblockMeasures { wide, ..USUAL };
    let block = block_of(alloc, &measures, words)?;
    if block.len() != 1024 {
        return Err(RowError::Unread);
    }
    told(alloc, layout_in(1024, wide), &block, home_blocks)
}

fn words_text(alloc: Global, words: &str) -> Result<String, RowError> {
    let (head, behind) = cut(words, " ")?;
    if head.starts_with("descriptor") {
        tags_text(alloc, tags_of(alloc, behind)?.as_slice())
    } else {
        numbers_text(alloc, numbers_of(alloc, behind)?.as_slice())
    }
}

/// A full block's bytes before the zeros at its end, and what is read from it.
fn told_full(
    alloc: Global,
    layout: LogLayout,
    block: &[u8],
    home_blocks: u64,
    words: &str,
) -> Result<String, RowError>
    requires taken { IsLayout layout }
    requires size { length block.now ≡ layout.block_size }
{
    let bytes = bytes_before_zeros(block);
    let same = told(alloc, layout, block, home_blocks)? == words_text(alloc, words)?;
    let read = if same {
        "read as written"
    } else {
        "read otherwise"
    };
    let below = told(alloc, layout, block, home_blocks.saturating_sub(1))?;
    Ok(format!(in alloc; "{bytes} bytes, {read}, {below}")?)
}

/// Full blocks. Given: `block=N home=N`, or `block=N home=N wide` for block numbers of 64 bits, `|`, and what is written into a block of
/// that size, as for `written_blocks`. Found: its bytes before the zeros at its end, whether it is read as written for a home of that many
/// blocks, and what is read if home has one less.
pub fn full_blocks(alloc: Global, given: &str) -> Result<String, RowError> {
    let (measures, words) = cut(given, " | ")?;
    let (measures, wide) = split_width(measures);
    let [block_size, home_blocks] = values::<2>(measures, "block home")?;
    if block_size != 1024 && block_size != 2048 && block_size != 4096 {
        return Err(RowError::Unread);
    }
    let layout = layout_in(block_size as usize, wide);
    let mut block = vec![in alloc; 0xff; block_size as usize]?;
    if write_words(alloc, layout, &mut block, words)? {
        told_full(alloc, layout, &block, home_blocks, words)
    } else {
        text(alloc, NO_ROOM)
    }
}

/// Home blocks that a transaction may touch. Given: `home=N block=N`, and `wide` for block numbers of 64 bits. Found: `allowed` if it may
/// touch this block of a home of that many blocks, else `refused`.
pub fn allowed_blocks(alloc: Global, given: &str) -> Result<String, RowError> {
    let (given, wide) = split_width(given);
    let [home_blocks, block] = values::<2>(given, "home block")?;
    if BlockNo(block).is_allowed(layout_in(1024, wide), home_blocks) {
        text(alloc, "allowed")
    } else {
        text(alloc, "refused")
    }
}
