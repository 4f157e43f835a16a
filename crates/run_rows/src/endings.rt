//! Groups interrupted runs by how they end.
use crate::scripts::given_script;
use crate::texts::numbers_in;
use journal_script::Script;
use log_rows::RowError;
use log_rows::words::cut;
use std::alloc::{AllocError, Global};
use std::fmt::Write;

/// A row's interruptions and script.
#[derive(Drop)]
pub struct InterruptedScript {
    pub script: Script,
    /// The first place of an interruption.
    pub first: u64,
    /// The last place of an interruption.
    pub last: u64,
    /// The number of choices of the last writes to keep.
    pub choices: u64,
}

/// Reads a row: a line with three numbers, then the script.
///
/// # Errors
///
/// `Unread`: more than 8 last writes may be kept, or the text is no script. `Memory`.
pub fn given_of(alloc: Global, given: &str) -> Result<InterruptedScript, RowError> {
    let (line, text) = cut(given, "\n")?;
    let [first, last, back] = numbers_in::<3>(line)?;
    if back > 8 {
        return Err(RowError::Unread);
    }
    Ok(InterruptedScript {
        script: given_script(alloc, text)?,
        first,
        last,
        choices: 1 << back,
    })
}

/// One ending, and the interruptions that lead to it.
#[derive(Drop)]
pub struct RunEnding {
    /// The opening's report, the named blocks, and the verdict.
    text: String,
    /// Series of places after which runs end so, each by its first and last.
    places: Vec<(u64, u64)>,
    /// Whether an uninterrupted run ends so.
    is_of_end: bool,
}

/// The writes up to `k` whose bit is set, the last write first; bit 0 is write `k`.
pub fn kept(alloc: Global, k: u64, bits: u64) -> Result<Vec<u64>, AllocError> {
    let mut kept = Vec::new(alloc);
    for back in 0..8 {
        if bits >> back & 1 == 1 {
            kept.push(k.saturating_sub(back))?;
        }
    }
    Ok(kept)
}

/// Joins lines with commas.
pub fn in_one_line(alloc: Global, lines: &str) -> Result<String, AllocError> {
    lines.trim_end().replace(alloc, "\n", ", ")
}

/// Notes that a run ends so after an interruption at this place, or without one.
pub fn note(
    alloc: Global,
    endings: &mut Vec<RunEnding>,
    text: String,
    place: Option<u64>,
) -> Result<(), AllocError> {
    for ending in endings.iter_mut() {
        if ending.text.as_str() == text.as_str() {
            return add_to(ending, place);
        }
    }
    let mut ending = RunEnding {
        text,
        places: Vec::new(alloc),
        is_of_end: false,
    };
    add_to(&mut ending, place)?;
    Ok(endings.push(ending)?)
}

fn add_to(ending: &mut RunEnding, place: Option<u64>) -> Result<(), AllocError> {
    match place {
        Some(k) => add_number(&mut ending.places, k),
        None => {
            ending.is_of_end = true;
            Ok(())
        }
    }
}

fn add_number(series: &mut Vec<(u64, u64)>, k: u64) -> Result<(), AllocError> {
    match series.last_mut() {
        Some((_, last)) if *last == k || last.saturating_add(1) == k => {
            *last = k;
            Ok(())
        }
        _ => Ok(series.push((k, k))?),
    }
}

/// The lines of all endings; this word names the places.
pub fn endings_text(
    alloc: Global,
    endings: &[RunEnding],
    places: &str,
) -> Result<String, AllocError> {
    let mut all = String::new(alloc);
    for ending in endings {
        write_ending(&mut all, ending, places)?;
    }
    Ok(all)
}

fn write_ending(all: &mut String, ending: &RunEnding, places: &str) -> Result<(), AllocError> {
    write!(all, "{}: {places}", ending.text)?;
    for (first, last) in &ending.places {
        write!(all, " {first} to {last}")?;
    }
    if ending.is_of_end {
        all.push_str(" and the end")?;
    }
    all.push('\n')
}
