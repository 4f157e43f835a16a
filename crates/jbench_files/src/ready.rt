//! Makes a log's file ready for a device.
ghost use Rattle.std.specs.Prelude.{◌≡◌, IfOk};

use crate::locked::LockedFile;
use crate::pairs::LogFile;
use crate::room::{AreaFile, Room, clear};
use file_device::{ReadLock, WriteLock, make_durable};
use jbench_words::watch::Watch;
use journal_model::Area;
use journal_model::layout::MAGIC;
use std::alloc::Global;
use std::fs::File;
use std::io;
use std::io::ErrorKind;
use std::os::unix::fs::FileExt;

/// Where the superblock has s_blocksize.
pub(crate) const BLOCK_SIZE_PLACE: u64 = 0x0c;

/// Where the superblock has s_maxlen.
const BLOCKS_PLACE: u64 = 0x10;

/// Where the superblock has s_start.
const START_PLACE: u64 = 0x1c;

/// Bytes of the largest block.
const MOST_BYTES: u64 = 4096;

/// A log's file from which a device may be made. With a write lock, what an opening relies on is on the disk, not only in the system's
/// memory: only `made_durable`, `with_superblock` and `cleared` make such a log.
#[derive(Drop)]
pub(crate) struct ReadyLog {
    file: File,
}

impl ReadyLog {
    /// A log to open. The part that an opening relies on is rewritten as it reads, and synced: after a failed sync it may be in the
    /// system's memory alone.
    ///
    /// # Errors
    ///
    /// The log cannot be read, written or synced.
    pub(crate) fn made_durable(log: LogFile<WriteLock>) -> io::Result<ReadyLog>
        ensures { IfOk result (λ ready. ready.file ≡ log.file) }
    {
        let file = log.into_file();
        make_durable(&file, relied_on(&file)?)?;
        Ok(ReadyLog { file })
    }

    /// A log whose superblock alone is used. It is rewritten as it reads, and synced.
    ///
    /// # Errors
    ///
    /// The log cannot be read, written or synced.
    pub(crate) fn with_superblock(log: LockedFile<WriteLock>) -> io::Result<ReadyLog>
        ensures { IfOk result (λ ready. ready.file ≡ log.file.file) }
    {
        let file = log.into_file();
        make_durable(&file, relied_on(&file)?.min(MOST_BYTES))?;
        Ok(ReadyLog { file })
    }

    /// A log to read. Nothing is written.
    pub(crate) fn to_read(log: LogFile<ReadLock>) -> ReadyLog
        ensures { result.file ≡ log.file }
    {
        ReadyLog {
            file: log.into_file(),
        }
    }

    /// Overwrites a log with zeros, and makes them durable; the disk has room for them. `watch` learns what is written.
    ///
    /// # Errors
    ///
    /// The log cannot be overwritten or synced; its old content may be lost.
    pub(crate) fn cleared(
        alloc: Global,
        log: LogFile<WriteLock>,
        room: Room,
        watch: &mut impl Watch,
    ) -> io::Result<ReadyLog>
        ensures { IfOk result (λ ready. ready.file ≡ log.file) }
    {
        let file = log.into_file();
        let of = AreaFile {
            area: Area::Log,
            file: &file,
        };
        clear(alloc, of, room, watch)?;
        Ok(ReadyLog { file })
    }

    pub(crate) fn file(&self) -> &File
        ensures { result.now ≡ self.now.file }
    {
        &self.file
    }

    pub(crate) fn into_file(self) -> File
        ensures { result ≡ self.file }
    {
        self.file
    }
}

/// How many bytes of a log an opening relies on: a clean log's superblock, all blocks that any other one says it has, and none if this is no
/// log. (A clean log's ring has only transactions below the next number, of which only headers are read.)
fn relied_on(log: &File) -> io::Result<u64> {
    if number_at(log, 0)? != Some(u32::from_be_bytes(MAGIC)) {
        return Ok(0);
    }
    match number_at(log, START_PLACE)? {
        Some(0) => Ok(MOST_BYTES),
        _ => bytes_of(log),
    }
}

/// How many bytes the blocks of a log have by its superblock, and at least one block's.
fn bytes_of(log: &File) -> io::Result<u64> {
    match (
        number_at(log, BLOCK_SIZE_PLACE)?,
        number_at(log, BLOCKS_PLACE)?,
    ) {
        (Some(size), Some(blocks)) => Ok(
            u64::from(size)
                .saturating_mul(u64::from(blocks))
                .max(MOST_BYTES),
        ),
        _ => Ok(u64::MAX),
    }
}

/// The number at a place of a file, if the file is long enough.
pub(crate) fn number_at(file: &File, place: u64) -> io::Result<Option<u32>> {
    let mut bytes = [0; 4];
    match file.read_exact_at(&mut bytes, place) {
        Ok(()) => Ok(Some(u32::from_be_bytes(bytes))),
        Err(e) if e.kind() == ErrorKind::UnexpectedEof => Ok(None),
        Err(e) => Err(e),
    }
}
