//! Reads the system's lists line by line, in a buffer of one size.
use std::io::Read;
use std::str::from_utf8;
use std::{fmt, io};

/// The most lines that are read of a list.
pub(crate) const MOST_LINES: u32 = 65_536;

/// The most bytes that are read of a line.
const MOST_BYTES: u32 = 65_536;

/// The bytes of one read.
const CHUNK: usize = 4096;

/// The bytes of a line that are kept.
const LINE_BYTES: usize = 512;

/// The first bytes of a line of text.
#[derive(Drop)]
pub(crate) struct Line {
    bytes: [u8; LINE_BYTES],
    length: usize,
}

impl Line {
    /// A line without text.
    pub(crate) fn new() -> Line {
        Line {
            bytes: [0; LINE_BYTES],
            length: 0,
        }
    }

    /// Adds a byte.
    fn push(&mut self, byte: u8) {
        if let Some(place) = self.bytes.get_mut(self.length) {
            *place = byte;
            self.length = self.length.saturating_add(1);
        }
    }

    /// Its text; empty if the bytes are none.
    pub(crate) fn text(&self) -> &str {
        let bytes = self.bytes.get(..self.length).unwrap_or(&[]);
        from_utf8(bytes).unwrap_or("")
    }
}

impl fmt::Write for Line {
    fn write_str(&mut self, text: &str) -> fmt::Result {
        for byte in text.as_bytes() {
            self.push(*byte);
        }
        Ok(())
    }
}

/// Why a list can't be read, with its place.
fn unread(place: &str, e: io::Error) -> io::Error {
    let mut line = Line::new();
    let _written = fmt::Write::write_fmt(&mut line, format_args!("{place} can't be read: {e}"));
    io::Error::new(e.kind(), line.text())
}

/// The lines of the list at this place, each ended by this byte.
#[derive(Drop)]
pub(crate) struct Lines<'a, F: Read + Drop> {
    place: &'a str,
    from: F,
    end: u8,
    chunk: [u8; CHUNK],
    at: usize,
    count: usize,
}

impl<'a, F: Read + Drop> Lines<'a, F> {
    /// The lines of a list that was opened.
    ///
    /// # Errors
    ///
    /// It wasn't; the error names its place.
    pub(crate) fn new(place: &'a str, opened: io::Result<F>, end: u8) -> io::Result<Lines<'a, F>> {
        match opened {
            Ok(from) => Ok(Lines {
                place,
                from,
                end,
                chunk: [0; CHUNK],
                at: 0,
                count: 0,
            }),
            Err(e) => Err(unread(place, e)),
        }
    }

    /// Reads the next line, without its end; whether there was one.
    ///
    /// # Errors
    ///
    /// The list can't be read; the error names its place.
    pub(crate) fn read(&mut self, line: &mut Line) -> io::Result<bool> {
        line.length = 0;
        for _ in 0..MOST_BYTES {
            match self.byte()? {
                None => return Ok(line.length > 0),
                Some(byte) if byte == self.end => return Ok(true),
                Some(byte) => line.push(byte),
            }
        }
        Ok(true)
    }

    /// The next byte, if there is one.
    fn byte(&mut self) -> io::Result<Option<u8>> {
        if self.at >= self.count {
            self.count = match self.from.read(&mut self.chunk) {
                Ok(count) => count,
                Err(e) => return Err(unread(self.place, e)),
            };
            self.at = 0;
        }
        if self.at >= self.count {
            return Ok(None);
        }
        let byte = self.chunk.get(self.at).copied();
        self.at = self.at.saturating_add(1);
        Ok(byte)
    }
}
