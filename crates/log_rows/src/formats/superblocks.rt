//! Rows of superblocks.
use crate::RowError;
use crate::formats::blocks::USUAL;
use crate::spelling::{UUID, block_of};
use crate::telling::{block_text, refusal_text};
use crate::words::{cut, split_width, values};
use log_format::Super;
use std::alloc::Global;
use std::fmt::Write;

fn fields_text(alloc: Global, fields: &Super) -> Result<String, RowError> {
    let mut told = String::new(alloc);
    let named = [
        ("s_blocksize", fields.s_blocksize),
        ("s_maxlen", fields.s_maxlen),
        ("s_first", fields.s_first),
        ("s_sequence", fields.s_sequence),
        ("s_start", fields.s_start),
        ("s_errno", fields.s_errno),
        ("s_feature_compat", fields.s_feature_compat),
        ("s_feature_incompat", fields.s_feature_incompat),
        ("s_feature_ro_compat", fields.s_feature_ro_compat),
        ("s_nr_users", fields.s_nr_users),
    ];
    for (name, value) in &named {
        write!(told, "{name}={value} ")?;
    }
    told.push_str("s_uuid=")?;
    for byte in &fields.s_uuid {
        write!(told, "{byte:02x}")?;
    }
    Ok(told)
}

/// Formatted superblocks. Given: `block=N length=N`, and `wide` for block numbers of 64 bits. Found: the bytes of a block of that size,
/// formatted over bytes ff for a log of that many blocks.
pub fn formatted_superblocks(alloc: Global, given: &str) -> Result<String, RowError> {
    let (given, wide) = split_width(given);
    let [block_size, length] = values::<2>(given, "block length")?;
    let Ok(length) = u32::try_from(length) else {
        return Err(RowError::Unread);
    };
    if block_size != 1024 && block_size != 2048 && block_size != 4096 {
        return Err(RowError::Unread);
    }
    let mut block = vec![in alloc; 0xff; block_size as usize]?;
    Super::format(&mut block, length, &UUID, wide);
    block_text(alloc, &block)
}

/// Superblocks with a new tail. Given: `sequence=N start=N`, `|`, and a block of 1024 bytes. Found: its bytes with that tail.
pub fn started_superblocks(alloc: Global, given: &str) -> Result<String, RowError> {
    let (tail, words) = cut(given, " | ")?;
    let [sequence, start] = values::<2>(tail, "sequence start")?;
    let (Ok(sequence), Ok(start)) = (u32::try_from(sequence), u32::try_from(start)) else {
        return Err(RowError::Unread);
    };
    let mut block = block_of(alloc, &USUAL, words)?;
    if block.len() != 1024 {
        return Err(RowError::Unread);
    }
    Super::write(&mut block, sequence, start);
    block_text(alloc, &block)
}

/// Tested superblocks. Given: `bytes=N log=N`, `|`, and a block of 1024 bytes, whose first N are read as block 0 of a log's area of that
/// many blocks. Found: its fields if it is accepted, or the refusal.
pub fn tested_superblocks(alloc: Global, given: &str) -> Result<String, RowError> {
    let (measures, words) = cut(given, " | ")?;
    let [bytes, log_blocks] = values::<2>(measures, "bytes log")?;
    let block = block_of(alloc, &USUAL, words)?;
    let block = block.get(..bytes as usize).ok_or(RowError::Unread)?;
    match Super::read(block, log_blocks) {
        Ok(fields) => fields_text(alloc, &fields),
        Err(e) => refusal_text(alloc, e),
    }
}

/// Fields that are read without a test. Given: a block of 1024 bytes. Found: its fields.
pub fn superblock_fields(alloc: Global, given: &str) -> Result<String, RowError> {
    let block = block_of(alloc, &USUAL, given)?;
    if block.len() != 1024 {
        return Err(RowError::Unread);
    }
    fields_text(alloc, &Super::fields(&block))
}
