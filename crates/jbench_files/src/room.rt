//! Reserves disk space for a file before its old content is lost. A block device has its space, and keeps its length.
use crate::regular::require_room;
use file_device::length_of;
use jbench_words::watch::{Watch, WatchStep};
use journal_model::Area;
use std::alloc::Global;
use std::fs::File;
use std::io;
use std::os::unix::fs::{FileExt, FileTypeExt, MetadataExt};

/// Bytes of one read or write.
const PIECE: usize = 65_536;

/// Bytes of the blocks in which the system counts a file's disk space.
const COUNTED: u64 = 512;

#[derive(Clone, Copy)]
pub(crate) struct AreaFile<'a> {
    pub(crate) area: Area,
    pub(crate) file: &'a File,
}

/// Proof that the disk has room for this many bytes of a file; only `reserve` makes one.
#[derive(Clone, Copy)]
pub(crate) struct Room {
    /// So many of the file's bytes have room on the disk.
    bytes: u64,
    /// The file's bytes before; the others are zeros.
    held: u64,
    /// It is a block device.
    is_device: bool,
}

/// Reserves disk space for this many bytes of a file, whose content stays. It fills holes with the zeros that they read as, and adds zeros
/// at the end. A disk that keeps versions of blocks or compresses may lack room nevertheless. `watch` learns of each piece. Nothing is
/// written to a block device.
///
/// # Errors
///
/// The file cannot be read or written, or the disk is full. The content stays, and so does the length unless the system refuses to restore
/// it. `InvalidInput`: it is a block device with fewer bytes.
pub(crate) fn reserve(
    alloc: Global,
    of: AreaFile<'_>,
    bytes: u64,
    watch: &mut impl Watch,
) -> io::Result<Room> {
    let metadata = of.file.metadata()?;
    let held = length_of(of.file)?;
    let is_device = metadata.file_type().is_block_device();
    let room = Room {
        bytes,
        held,
        is_device,
    };
    if is_device {
        require_room(held, bytes)?;
        return Ok(room);
    }
    let is_whole = metadata.blocks().saturating_mul(COUNTED) >= held;
    let first = if is_whole { held } else { 0 };
    match fill_up(alloc, of, first, room, watch) {
        Ok(()) => Ok(room),
        Err(e) => {
            of.file.set_len(held)?;
            Err(e)
        }
    }
}

/// Frees the space after the file's old content.
pub(crate) fn give_back(file: &File, room: Room) -> io::Result<()> {
    set_length(file, room, room.held)
}

/// Sets the length of a file; a block device keeps its own.
fn set_length(file: &File, room: Room, bytes: u64) -> io::Result<()> {
    if room.is_device {
        Ok(())
    } else {
        file.set_len(bytes)
    }
}

/// Rewrites a file's bytes from `first` to its old end, adds zeros up to the new length, and makes both durable.
fn fill_up(
    alloc: Global,
    of: AreaFile<'_>,
    first: u64,
    room: Room,
    watch: &mut impl Watch,
) -> io::Result<()> {
    let (area, bytes, held) = (of.area, room.bytes, room.held);
    let mut buffer = vec![in alloc; 0; PIECE]?;
    let pieces = bytes.saturating_sub(first).div_ceil(PIECE as u64);
    for piece in 0..pieces {
        let at = first.saturating_add(piece.saturating_mul(PIECE as u64));
        let count = bytes.saturating_sub(at).min(PIECE as u64) as usize;
        watch.goes_on(WatchStep::Fills { area, at, bytes });
        buffer.clear();
        buffer.resize(count, 0)?;
        read_held(of.file, at, held, &mut buffer)?;
        of.file.write_all_at(&buffer, at)?;
    }
    of.file.sync_all()
}

/// Reads a file's bytes at a place, up to its old end; the rest of the buffer stays.
fn read_held(file: &File, at: u64, held: u64, into: &mut [u8]) -> io::Result<()> {
    let count = held.saturating_sub(at).min(into.len() as u64) as usize;
    file.read_exact_at(&mut into[..count], at)
}

/// Overwrites a file's old content with zeros, sets its length to the reserved one, and makes both durable. Of a block device the reserved
/// bytes alone are overwritten. `watch` learns of each piece.
pub(crate) fn clear(
    alloc: Global,
    of: AreaFile<'_>,
    room: Room,
    watch: &mut impl Watch,
) -> io::Result<()> {
    write_zeros(alloc, of, room.held.min(room.bytes), watch)?;
    set_length(of.file, room, room.bytes)?;
    of.file.sync_all()
}

/// Writes zeros over this many bytes at a file's front.
fn write_zeros(
    alloc: Global,
    of: AreaFile<'_>,
    bytes: u64,
    watch: &mut impl Watch,
) -> io::Result<()> {
    let area = of.area;
    let mut zeros = vec![in alloc; 0; PIECE]?;
    for piece in 0..bytes.div_ceil(PIECE as u64) {
        let at = piece.saturating_mul(PIECE as u64);
        watch.goes_on(WatchStep::Fills { area, at, bytes });
        zeros.truncate(bytes.saturating_sub(at).min(PIECE as u64) as usize);
        of.file.write_all_at(&zeros, at)?;
    }
    Ok(())
}
