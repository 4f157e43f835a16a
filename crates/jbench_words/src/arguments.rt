//! Reads the program's words from the system, as any bytes.
use std::alloc::Global;
use std::env::{Env, FillError};
use std::io;
use std::io::ErrorKind;
use std::str::from_utf8;

/// Most words have at most this many bytes.
const FIRST_LENGTH: usize = 256;

/// The program's words; the first is its own name.
#[derive(Drop)]
pub struct Arguments {
    words: Vec<String>,
    /// The first word after the program's name that is not UTF-8.
    no_text: Option<usize>,
}

impl Arguments {
    /// The words; bytes that are not UTF-8 become U+FFFD.
    pub fn words(&self) -> &[String] {
        &self.words
    }

    /// The first word after the program's name that is not UTF-8. It names no file, and no option takes it.
    pub fn no_text(&self) -> Option<&str> {
        match self.words.get(self.no_text?) {
            Some(word) => Some(word.as_str()),
            None => None,
        }
    }

    fn push(&mut self, alloc: Global, bytes: &[u8]) -> io::Result<()> {
        let place = self.words.len();
        if place > 0 && self.no_text.is_none() && from_utf8(bytes).is_err() {
            self.no_text = Some(place);
        }
        self.words.push(String::from_utf8_lossy(alloc, bytes)?)?;
        Ok(())
    }
}

/// Reads all words.
///
/// # Errors
///
/// Memory ran out.
pub fn read<R: Env>(rt: &R, alloc: Global) -> io::Result<Arguments> {
    let mut arguments = Arguments {
        words: Vec::new(alloc),
        no_text: None,
    };
    for place in 0..usize::MAX {
        match bytes_at(rt, alloc, place)? {
            Some(bytes) => arguments.push(alloc, &bytes)?,
            None => break,
        }
    }
    Ok(arguments)
}

/// The bytes of the word at this place; `None` after the last.
fn bytes_at<R: Env>(rt: &R, alloc: Global, place: usize) -> io::Result<Option<Vec<u8>>> {
    let mut length = FIRST_LENGTH;
    for _ in 0..usize::BITS {
        let mut bytes = vec![in alloc; 0; length]?;
        match rt.arg(place, &mut bytes) {
            Ok(n) => {
                bytes.truncate(n);
                return Ok(Some(bytes));
            }
            Err(FillError::NotPresent) => return Ok(None),
            Err(FillError::TooLong) => length = length.saturating_add(length),
        }
    }
    Err(io::Error::from(ErrorKind::OutOfMemory))
}
