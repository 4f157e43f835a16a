//! Advises the owner of a refused log, by the bytes in the superblock's place.
ghost use Rattle.std.specs.Prelude.{◌≡◌, ◌≤◌, length};
ghost use Rattle.block_device.specs.State.{Stays};

use crate::features::{
    COMPATIBLE, INCOMPATIBLE, READ_ONLY_COMPATIBLE, REVOKE, WIDE_NUMBERS, write_ways_out,
};
use block_device::{Device, read_block};
use journal_model::layout::{GREATEST_LENGTH, LEAST_LENGTH, MAGIC};
use journal_model::{Area, JournalError};
use log_format::Super;
use std::alloc::Global;
use std::io;
use std::io::Write;

/// Bytes of a superblock.
pub const SUPER_BYTES: usize = 1024;

/// The place of the two-byte magic of ext2, ext3 and ext4 volumes.
const VOLUME_PLACE: usize = 0x438;

const VOLUME_MAGIC: [u8; 2] = [0x53, 0xef];

/// The content of the superblock's place.
#[derive(Clone, Copy)]
pub enum Standing {
    /// A block that begins with a log's magic.
    Superblock,
    /// The beginning of a volume with a file system.
    Volume,
    /// Zeros.
    Zeros,
    /// Anything else.
    Other,
}

/// The content of a device's log area, whose block 0 has these bytes.
///
/// # Errors
///
/// `Device`, `Memory`: block 1 could not be read.
pub fn standing_of<D: Device>(
    alloc: Global,
    device: &mut D,
    bytes: &[u8],
) -> Result<Standing, JournalError>
    ensures { Stays (D.state device.old) (D.state device.new) }
{
    if bytes.starts_with(&MAGIC) {
        return Ok(Standing::Superblock);
    }
    if begins_volume(alloc, device, bytes)? {
        return Ok(Standing::Volume);
    }
    if bytes.iter().all(|byte| *byte == 0) {
        Ok(Standing::Zeros)
    } else {
        Ok(Standing::Other)
    }
}

/// Whether a log area, whose block 0 has these bytes, begins like a volume with a file system.
fn begins_volume<D: Device>(
    alloc: Global,
    device: &mut D,
    bytes: &[u8],
) -> Result<bool, JournalError>
    ensures { Stays (D.state device.old) (D.state device.new) }
{
    if bytes.len() > VOLUME_PLACE {
        return Ok(has_volume_magic(bytes, VOLUME_PLACE));
    }
    if device.blocks(Area::Log) < 2 {
        return Ok(false);
    }
    let second = read_block(alloc, device, Area::Log, 1)?;
    let place = VOLUME_PLACE.saturating_sub(bytes.len());
    Ok(has_volume_magic(second.bytes(), place))
}

/// Whether a file system's magic is at this place.
fn has_volume_magic(bytes: &[u8], place: usize) -> bool {
    match bytes.get(place..) {
        Some(rest) => rest.starts_with(&VOLUME_MAGIC),
        None => false,
    }
}

/// Says what an owner can do about this refusal of these superblock bytes. `standing` is in the superblock's place; the log has `blocks`
/// blocks.
///
/// # Errors
///
/// The lines could not be written.
pub fn print_ways_out(
    bytes: &[u8],
    blocks: u64,
    standing: Standing,
    refusal: JournalError,
    out: &mut impl Write,
) -> io::Result<()>
    requires { 1024 ≤ length bytes.now }
{
    match refusal {
        JournalError::SequenceEnd => print_end(&Super::fields(bytes), out),
        e => print_way_out(bytes, blocks, standing, e, out),
    }
}

/// Says what an owner can do about a log that has no number left for another transaction.
fn print_end(fields: &Super, out: &mut impl Write) -> io::Result<()> {
    if fields.s_start == 0 {
        writeln!(
            out,
            "  no transaction number is left, and the log is clean: make a new one beside the same home, by jbench format LOG HOME --keep-home"
        )
    } else {
        writeln!(
            out,
            "  no transaction number is left, and what the log holds can't be brought home here: keep a copy of both files"
        )
    }
}

/// Says what the owner can do about this refusal.
fn print_way_out(
    bytes: &[u8],
    blocks: u64,
    standing: Standing,
    e: JournalError,
    out: &mut impl Write,
) -> io::Result<()>
    requires { 1024 ≤ length bytes.now }
{
    match standing {
        Standing::Superblock => print_superblock(bytes, blocks, e, out),
        Standing::Volume => writeln!(
            out,
            "  a file system of ext2, ext3 or ext4 stands here, and its log is inode 8 of it: debugfs dumps that into a file"
        ),
        Standing::Zeros => writeln!(
            out,
            "  zeros stand here: no log was made, or that did not come to its end; jbench format LOG HOME --keep-home makes one, and leaves HOME as it is"
        ),
        Standing::Other => writeln!(
            out,
            "  this is no log, which begins with c03b3998: is it the right file?"
        ),
    }
}

/// Says what the owner can do about this refusal of a superblock with the magic.
fn print_superblock(
    bytes: &[u8],
    blocks: u64,
    e: JournalError,
    out: &mut impl Write,
) -> io::Result<()>
    requires { 1024 ≤ length bytes.now }
{
    let fields = Super::fields(bytes);
    match e {
        JournalError::BadType => writeln!(
            out,
            "  this block begins as one of a log, and is no superblock of version 2: is it the right file?"
        ),
        JournalError::BadLength => {
            say_length(&fields, blocks, out)?;
            print_features(&fields, out)
        }
        _ => print_features(&fields, out),
    }
}

/// Says how long a log is and must be, if its file is too short.
pub(crate) fn say_length(fields: &Super, blocks: u64, out: &mut impl Write) -> io::Result<()> {
    let length = fields.s_maxlen;
    if !(LEAST_LENGTH..=GREATEST_LENGTH).contains(&length) || u64::from(length) <= blocks {
        return Ok(());
    }
    let bytes = u64::from(length).saturating_mul(u64::from(fields.s_blocksize));
    writeln!(
        out,
        "  the file has {blocks} whole blocks, and the log has {length}: make it as long again, by truncate -s {bytes} LOG, and then recover; a format would lose its transactions"
    )
}

/// Says for each feature that prevents an opening what its owner does about it.
fn print_features(fields: &Super, out: &mut impl Write) -> io::Result<()> {
    write_ways_out(out, fields.s_feature_compat, 0, COMPATIBLE)?;
    let taken = REVOKE | WIDE_NUMBERS;
    write_ways_out(out, fields.s_feature_incompat, taken, INCOMPATIBLE)?;
    write_ways_out(out, fields.s_feature_ro_compat, 0, READ_ONLY_COMPATIBLE)?;
    if fields.s_feature_incompat & REVOKE == 0 {
        writeln!(
            out,
            "  without revoke: mount its file system and write to it, so that the kernel writes the superblock anew"
        )?;
    }
    Ok(())
}
