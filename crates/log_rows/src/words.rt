//! Reads the words of rows: numbers, bytes, and values with names.
use crate::RowError;
use hex::FromHexError;
use std::alloc::Global;
use std::str::SplitWhitespace;

/// The text before the first such mark, and the text after it.
pub fn cut<'a>(text: &'a str, mark: &str) -> Result<(&'a str, &'a str), RowError> {
    text.split_once(mark).ok_or(RowError::Unread)
}

/// The number in decimal digits, or in hex digits after `0x`.
pub fn number(word: &str) -> Result<u64, RowError> {
    let number = match word.strip_prefix("0x") {
        Some(digits) => u64::from_str_radix(digits, 16).ok(),
        None => word.parse().ok(),
    };
    number.ok_or(RowError::Unread)
}

/// The same for a number of four bytes.
pub fn number32(word: &str) -> Result<u32, RowError> {
    u32::try_from(number(word)?).ok().ok_or(RowError::Unread)
}

/// The same for a count of things in memory.
pub fn count(word: &str) -> Result<usize, RowError> {
    usize::try_from(number(word)?).ok().ok_or(RowError::Unread)
}

/// A number of four bytes in hex digits.
pub fn hex32(digits: &str) -> Result<u32, RowError> {
    u32::from_str_radix(digits, 16).ok().ok_or(RowError::Unread)
}

/// A byte in hex digits.
pub fn hex_byte(digits: &str) -> Result<u8, RowError> {
    u8::from_str_radix(digits, 16).ok().ok_or(RowError::Unread)
}

/// Bytes in hex digits.
pub fn hex_bytes(alloc: Global, digits: &str) -> Result<Vec<u8>, RowError> {
    match hex::decode(alloc, digits) {
        Ok(bytes) => Ok(bytes),
        Err(FromHexError::OutOfMemory) => Err(RowError::Memory),
        Err(_) => Err(RowError::Unread),
    }
}

/// The first and the last number of a series `3..7`, or one number twice.
pub fn series(word: &str) -> Result<(u64, u64), RowError> {
    let (first, last) = word.split_once("..").unwrap_or((word, word));
    Ok((number(first)?, number(last)?))
}

/// The words before a last word `wide`, and whether there is one.
pub fn split_width(words: &str) -> (&str, bool) {
    match words.strip_suffix(" wide") {
        Some(others) => (others, true),
        None => (words, false),
    }
}

/// The next word.
pub fn next_word<'a>(words: &mut SplitWhitespace<'a>) -> Result<&'a str, RowError> {
    words.next().ok_or(RowError::Unread)
}

/// Fails if there is another word.
pub fn no_word(words: &mut SplitWhitespace<'_>) -> Result<(), RowError> {
    match words.next() {
        None => Ok(()),
        Some(_) => Err(RowError::Unread),
    }
}

/// The value of a word `NAME=VALUE` with this name.
pub fn value_of<'a>(word: &'a str, name: &str) -> Result<&'a str, RowError> {
    let (found, value) = cut(word, "=")?;
    if found == name {
        Ok(value)
    } else {
        Err(RowError::Unread)
    }
}

/// The values of exactly these names, in this order, each in a word `NAME=VALUE`. Words and names are separated by blanks.
pub fn values<const N: usize>(given: &str, names: &str) -> Result<[u64; N], RowError> {
    let mut found = [0; N];
    let mut words = given.split_whitespace();
    let mut names = names.split_whitespace();
    for value in &mut found {
        *value = number(value_of(next_word(&mut words)?, next_word(&mut names)?)?)?;
    }
    no_word(&mut words)?;
    Ok(found)
}
