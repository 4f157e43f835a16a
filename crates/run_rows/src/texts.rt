//! Numbers and bytes in the texts of rows.
use log_rows::RowError;
use std::alloc::AllocError;
use std::fmt::Write;
use std::str::from_utf8;

/// The first `N` numbers of a line; other words are skipped.
pub fn numbers_in<const N: usize>(line: &str) -> Result<[u64; N], RowError> {
    let mut found = [0; N];
    let mut numbers = line
        .split_whitespace()
        .filter_map(|word| word.trim_end_matches(',').parse().ok());
    for number in &mut found {
        *number = numbers.next().ok_or(RowError::Unread)?;
    }
    Ok(found)
}

/// Writes bytes as hex digits.
pub fn write_hex(all: &mut String, bytes: &[u8]) -> Result<(), AllocError> {
    for byte in bytes {
        write!(all, "{byte:02x}")?;
    }
    Ok(())
}

pub fn written(bytes: &[u8]) -> Result<&str, RowError> {
    from_utf8(bytes).ok().ok_or(RowError::Unread)
}
