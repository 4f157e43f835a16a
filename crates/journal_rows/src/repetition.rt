//! Expands repetitions in a row.
use log_rows::RowError;
use log_rows::words::cut;
use run_rows::texts::numbers_in;
use std::alloc::Global;
use std::fmt::Write;

/// The text with its repetitions expanded. `<2 4 1|#=@ >` gives `2=3 3=4 4=5 `: the text after the bar for each number from 2 to 4, with
/// the number for `#`, the number plus 1 for `@`, and that in base 16 for `$`.
///
/// # Errors
///
/// `Unread`: a `<` begins no repetition. `Memory`.
pub fn written_out(alloc: Global, text: &str) -> Result<String, RowError> {
    let mut all = String::new(alloc);
    let mut parts = text.split('<');
    all.push_str(parts.next().unwrap_or(""))?;
    for part in parts {
        let (repetition, behind) = cut(part, ">")?;
        write_repetition(&mut all, repetition)?;
        all.push_str(behind)?;
    }
    Ok(all)
}

/// Writes a repetition, spelled `first last more|text`.
fn write_repetition(all: &mut String, repetition: &str) -> Result<(), RowError> {
    let (line, text) = cut(repetition, "|")?;
    let [first, last, more] = numbers_in::<3>(line)?;
    for number in first..=last {
        write_numbered(all, text, number, number.saturating_add(more))?;
    }
    Ok(())
}

/// Writes the text with this number for `#`, the other for `@`, and that as two hex digits for `$`.
fn write_numbered(all: &mut String, text: &str, number: u64, other: u64) -> Result<(), RowError> {
    for c in text.chars() {
        match c {
            '#' => write!(all, "{number}")?,
            '@' => write!(all, "{other}")?,
            '$' => write!(all, "{other:02x}")?,
            _ => all.push(c)?,
        }
    }
    Ok(())
}
