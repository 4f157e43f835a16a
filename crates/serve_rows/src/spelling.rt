//! Spells bytes as words: hex digits, or `N*HH` for one byte N times. Eight equal bytes or more are counted.
use log_rows::RowError;
use log_rows::words::{count, hex_byte, hex_bytes};
use std::alloc::{AllocError, Global};
use std::fmt::Write;

/// The most bytes of a word.
const MOST: usize = 1 << 20;

/// The least number of equal bytes that is counted.
const COUNTED: usize = 8;

pub fn bytes_of(alloc: Global, words: &str) -> Result<Vec<u8>, RowError> {
    let mut bytes = Vec::new(alloc);
    for word in words.split_whitespace() {
        match word.split_once('*') {
            Some((times, digits)) => {
                let length = bytes.len().saturating_add(count(times)?);
                if length > MOST {
                    return Err(RowError::Unread);
                }
                bytes.resize(length, hex_byte(digits)?)?;
            }
            None => bytes.extend_from_slice(&hex_bytes(alloc, word)?)?,
        }
    }
    Ok(bytes)
}

/// Adds the words for these bytes.
pub fn spell(text: &mut String, bytes: &[u8]) -> Result<(), AllocError> {
    let mut rest = bytes;
    let mut is_open = false;
    for _ in 0..bytes.len() {
        let Some(first) = rest.first() else {
            break;
        };
        let times = run_of(rest, *first);
        if times >= COUNTED {
            write!(text, " {times}*{:02x}", *first)?;
            is_open = false;
        } else {
            if !is_open {
                write!(text, " ")?;
            }
            for _ in 0..times {
                write!(text, "{:02x}", *first)?;
            }
            is_open = true;
        }
        rest = &rest[times.min(rest.len())..];
    }
    Ok(())
}

/// How many bytes at the front are this one.
fn run_of(bytes: &[u8], byte: u8) -> usize {
    bytes
        .iter()
        .position(|other| *other != byte)
        .unwrap_or(bytes.len())
}
