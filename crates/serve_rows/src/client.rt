//! A client that gives each part of its bytes once it has the answers that the part waits for.
use crate::given::ConnectionRow;
use std::io::{ErrorKind, Read, Write};
use std::sync::atomic::{AtomicUsize, Ordering};
use std::{io, thread};

/// How often a client looks whether it has an answer.
const LOOKS: u64 = 2_000_000;

/// The client's bytes. A read fails if the answers do not come that the next part waits for.
#[derive(Drop)]
pub struct RowClient<'a> {
    given: &'a ConnectionRow<'a>,
    at: usize,
    /// How many bytes of answers were sent.
    sent: &'a AtomicUsize,
}

impl<'a> RowClient<'a> {
    /// `sent` is what its answers count.
    pub fn new(given: &'a ConnectionRow<'a>, sent: &'a AtomicUsize) -> RowClient<'a> {
        RowClient { given, at: 0, sent }
    }

    /// The rest of the part that comes next, and for how many bytes of answers it waits.
    fn next(&self) -> (&'a [u8], usize) {
        let given = self.given;
        let (mut end, mut after) = (given.stream.len(), 0);
        for part in given.parts.iter() {
            if part.from <= self.at {
                after = part.after;
            } else {
                end = end.min(part.from);
            }
        }
        (given.stream.get(self.at..end).unwrap_or(&[]), after)
    }

    /// Waits for so many bytes of answers; whether they came.
    fn has(&self, bytes: usize) -> bool {
        for _ in 0..LOOKS {
            if self.sent.load(Ordering::SeqCst) >= bytes {
                return true;
            }
            thread::yield_now();
        }
        false
    }
}

impl Read for RowClient<'_> {
    fn read(&mut self, buf: &mut [u8]) -> io::Result<usize> {
        let (part, after) = self.next();
        if !self.has(after) {
            return Err(io::Error::from(ErrorKind::WouldBlock));
        }
        let count = part.len().min(buf.len());
        buf[..count].copy_from_slice(&part[..count]);
        self.at = self.at.saturating_add(count);
        Ok(count)
    }
}

/// What a server answers. An answer that was not sent is lost.
#[derive(Drop)]
pub struct Answers<'a> {
    bytes: Vec<u8>,
    /// How many of the bytes were sent.
    sent: &'a AtomicUsize,
}

impl<'a> Answers<'a> {
    /// None yet, with room in `bytes`.
    pub fn new(bytes: Vec<u8>, sent: &'a AtomicUsize) -> Answers<'a> {
        Answers { bytes, sent }
    }

    /// The bytes that were sent.
    pub fn into_sent(self) -> Vec<u8> {
        let Answers { bytes, sent } = self;
        let mut bytes = bytes;
        bytes.truncate(sent.load(Ordering::SeqCst));
        bytes
    }
}

impl Write for Answers<'_> {
    fn write(&mut self, buf: &[u8]) -> io::Result<usize> {
        self.bytes.extend_from_slice(buf)?;
        Ok(buf.len())
    }

    fn flush(&mut self) -> io::Result<()> {
        self.sent.store(self.bytes.len(), Ordering::SeqCst);
        Ok(())
    }
}
