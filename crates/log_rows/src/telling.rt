//! Texts for blocks, their bytes, and refusals.
use crate::RowError;
use journal_model::{BlockNo, JournalError};
use log_format::Malformed;
use log_model::Tag;
use std::alloc::Global;
use std::fmt::Write;

/// How many bytes a block has before the equal ones at its end.
fn bytes_before_rest(block: &[u8]) -> usize {
    let Some(rest) = block.last() else {
        return 0;
    };
    match block.iter().rposition(|byte| byte != rest) {
        Some(place) => place.saturating_add(1),
        None => 0,
    }
}

/// How many bytes a block has before the zeros at its end.
pub fn bytes_before_zeros(block: &[u8]) -> usize {
    match block.last() {
        Some(0) => bytes_before_rest(block),
        _ => block.len(),
    }
}

fn add_byte(told: &mut String, place: usize, byte: u8) -> Result<(), RowError> {
    if place > 0 && place % 4 == 0 {
        told.push(' ')?;
    }
    write!(told, "{byte:02x}")?;
    Ok(())
}

fn add_rest(told: &mut String, rest: u8) -> Result<(), RowError> {
    if !told.is_empty() {
        told.push(' ')?;
    }
    write!(told, "..{rest:02x}")?;
    Ok(())
}

/// The bytes of a block in hex digits, four together, without the equal ones at its end. These are left out if they are zeros, else shown
/// like `..11`.
pub fn block_text(alloc: Global, block: &[u8]) -> Result<String, RowError> {
    let mut told = String::new(alloc);
    for (place, byte) in block.iter().take(bytes_before_rest(block)).enumerate() {
        add_byte(&mut told, place, *byte)?;
    }
    match block.last() {
        None | Some(0) => {}
        Some(rest) => add_rest(&mut told, *rest)?,
    }
    Ok(told)
}

/// Adds the bytes of a block in hex digits, without the zeros at its end; `00` for a block of zeros.
pub fn add_bytes(told: &mut String, block: &[u8]) -> Result<(), RowError> {
    let bytes = bytes_before_zeros(block).max(1);
    for byte in block.iter().take(bytes) {
        write!(told, "{byte:02x}")?;
    }
    Ok(())
}

fn flags_of(tag: &Tag) -> u8 {
    let escaped = u8::from(tag.escaped);
    let same_uuid = if tag.same_uuid { 2 } else { 0 };
    let last = if tag.last { 8 } else { 0 };
    escaped | same_uuid | last
}

/// The word for a tag.
pub fn tag_word(alloc: Global, tag: &Tag) -> Result<String, RowError> {
    let flags = flags_of(tag);
    Ok(format!(in alloc; "{}/{flags:04x}", tag.block.0)?)
}

fn number_word(alloc: Global, number: &BlockNo) -> Result<String, RowError> {
    Ok(format!(in alloc; "{}", number.0)?)
}

fn add_run(told: &mut String, times: u64, word: &str) -> Result<(), RowError> {
    if !told.is_empty() {
        told.push(' ')?;
    }
    if times > 1 {
        write!(told, "{times}*")?;
    }
    told.push_str(word)?;
    Ok(())
}

/// Words like `3*9/0002 9/0008`: equal neighbours are counted. `nothing` for an empty list.
fn runs<T: PartialEq, F: Fn(Global, &T) -> Result<String, RowError>>(
    alloc: Global,
    items: &[T],
    word: F,
) -> Result<String, RowError>
    requires { F.IsAlwaysCallable word }
{
    let mut told = String::new(alloc);
    let mut times = 0u64;
    for (i, item) in items.iter().enumerate() {
        times = times.saturating_add(1);
        if items.get(i.saturating_add(1)) != Some(item) {
            add_run(&mut told, times, word(alloc, item)?.as_str())?;
            times = 0;
        }
    }
    if told.is_empty() {
        return text(alloc, "nothing");
    }
    Ok(told)
}

/// The words of tags.
pub fn tags_text(alloc: Global, tags: &[Tag]) -> Result<String, RowError> {
    runs(alloc, tags, tag_word)
}

/// The words of numbers.
pub fn numbers_text(alloc: Global, numbers: &[BlockNo]) -> Result<String, RowError> {
    runs(alloc, numbers, number_word)
}

/// A copy of a text.
pub fn text(alloc: Global, told: &str) -> Result<String, RowError> {
    Ok(String::from_str(alloc, told)?)
}

/// The text for a malformed block.
pub fn malformed_text(alloc: Global, malformed: Malformed) -> Result<String, RowError> {
    Ok(format!(in alloc; "{malformed}")?)
}

/// The text for a refusal.
pub fn refusal_text(alloc: Global, refusal: JournalError) -> Result<String, RowError> {
    Ok(format!(in alloc; "refusal {} {}", refusal.number(), refusal.name())?)
}
