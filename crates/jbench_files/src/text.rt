//! Reads a script's text, up to a limit: the writer to a pipe may never end.
//!
//! Contracts name a script's text by the bytes that came, and by the path that they came from. No proof sees what a call on a file does, so
//! read `open_text` and `ScriptText::read`: one that opened another file, or kept other bytes, would prove as well.
ghost use Rattle.std.specs.Prelude.{◌≡◌, [], IfOk, IfSome, OnErr, OnOk, string_bytes};
ghost use Rattle.jbench_files.specs.Apart.{AreApart};

use crate::regular::{RegularFile, given_twice, open_input};
use jbench_words::fault::Fault;
use jbench_words::text::read_text;
use std::alloc::Global;
use std::fs::{File, Files};
use std::io;
use std::io::{ErrorKind, Read};

/// The most bytes of a text.
const MOST_BYTES: u64 = 256 * 1024 * 1024;

/// An open file of a script, and its path; only `open_text` opens one.
#[derive(Drop)]
pub struct TextFile<'a> {
    path: &'a str,
    file: RegularFile,
}

impl<'a> TextFile<'a> {
    pub fn file(&self) -> &RegularFile
        ensures { result.now ≡ self.now.file }
    {
        &self.file
    }

    /// This file, if it differs from the other.
    ///
    /// # Errors
    ///
    /// `InvalidInput`: they are the same.
    pub(crate) fn other_than(self, other: &RegularFile) -> io::Result<TextFile<'a>>
        ensures same { IfOk result (λ script. script ≡ self.entry) }
        ensures apart { IfOk result (λ script. AreApart other.now script.file) }
    {
        if other.is(&self.file) {
            Err(given_twice())
        } else {
            Ok(self)
        }
    }
}

/// Opens a script to read: a regular file, a pipe, or standard input for the path `-`.
///
/// # Errors
///
/// The path names no such file, or it cannot be read.
pub fn open_text<'a, R: Files<File = File>>(rt: &R, path: &'a str) -> io::Result<TextFile<'a>>
    ensures { IfOk result (λ script. script.path.now ≡ path.now) }
{
    let file = open_input(rt, path)?;
    Ok(TextFile { path, file })
}

/// A text that was read to its end, and the path that it came from. Before that both are empty.
#[derive(Drop)]
pub struct ScriptText {
    path: String,
    bytes: Vec<u8>,
}

impl ScriptText {
    /// No text so far.
    pub fn new(alloc: Global) -> ScriptText
        ensures path { string_bytes result.path ≡ [] }
        ensures bytes { result.bytes.items ≡ [] }
    {
        ScriptText {
            path: String::new(alloc),
            bytes: Vec::new(alloc),
        }
    }

    pub fn bytes(&self) -> &[u8]
        ensures { result.now ≡ self.now.bytes.items }
    {
        &self.bytes
    }

    /// All that a reader gives, as it came from this path.
    fn of<R: Read + Drop>(alloc: Global, path: &str, reader: R) -> Result<ScriptText, Fault>
        ensures path { IfOk result (λ text. string_bytes text.path ≡ path.now) }
        ensures bytes { IfOk result (λ text. IfSome (R.remaining reader) (λ bytes. text.bytes.items ≡ bytes)) }
    {
        let bytes = read_text(alloc, reader)?;
        match String::from_str(alloc, path) {
            Ok(path) => Ok(ScriptText { path, bytes }),
            Err(e) => Err(Fault::of_file(io::Error::from(e))),
        }
    }

    /// Takes all that a script's file gives, and its path.
    ///
    /// # Errors
    ///
    /// It cannot be read, it has more than 256 MiB, or memory ran out. The text stays as it was.
    pub fn read(&mut self, alloc: Global, script: TextFile<'_>) -> Result<(), Fault>
        ensures path { OnOk result (string_bytes self.new.path ≡ script.entry.path.now) }
        ensures kept { OnErr result (self.new ≡ self.old) }
    {
        let TextFile { path, file } = script;
        *self = ScriptText::of(alloc, path, Limited::new(file.into_file()))?;
        Ok(())
    }

    /// Opens a script as `open_text` does, and takes all that it gives.
    ///
    /// # Errors
    ///
    /// Those of `open_text` and `read`. The text stays as it was.
    pub fn read_at<R: Files<File = File>>(
        &mut self,
        rt: &R,
        alloc: Global,
        path: &str,
    ) -> Result<(), Fault>
        ensures path { OnOk result (string_bytes self.new.path ≡ path.now) }
        ensures kept { OnErr result (self.new ≡ self.old) }
    {
        match open_text(rt, path) {
            Ok(script) => self.read(alloc, script),
            Err(e) => Err(Fault::of_file(e)),
        }
    }
}

/// A file of at most `MOST_BYTES`; the read of a longer one fails.
#[derive(Drop)]
struct Limited {
    file: File,
    /// How many more bytes may be read.
    left: u64,
}

impl Limited {
    /// A file from its current place.
    fn new(file: File) -> Limited {
        Limited {
            file,
            left: MOST_BYTES,
        }
    }

    /// Fails if the file has another byte.
    fn end(&mut self) -> io::Result<usize>
        ensures { IfOk result (λ count. count ≡ 0) }
    {
        let mut further = [0; 1];
        match self.file.read(&mut further) {
            Ok(0) => Ok(0),
            Ok(_) => Err(io::Error::new(ErrorKind::InvalidData, "it has more than 256 MiB")),
            Err(e) => Err(e),
        }
    }
}

impl Read for Limited {
    fn read(&mut self, buf: &mut [u8]) -> io::Result<usize> {
        if self.left == 0 && !buf.is_empty() {
            return self.end();
        }
        let most = self.left.min(buf.len() as u64) as usize;
        let count = self.file.read(&mut buf[..most])?;
        self.left = self.left.saturating_sub(count as u64);
        Ok(count)
    }
}
