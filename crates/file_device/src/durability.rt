//! Makes a log durable that, after a failed sync, may be in the system's memory alone.
ghost use Rattle.std.specs.Prelude.{◌≤◌};

use crate::length::length_of;
use std::fs::File;
use std::io;
use std::os::unix::fs::FileExt;

/// How many bytes are written at once: a page of the system's memory.
const PAGE: usize = 4096;

/// How many pairs of pages make a stretch.
const STRETCH: u64 = 64;

/// How many pairs, at the beginning of each stretch, are read whole.
const WHOLE_PAIRS: u64 = 2;

/// Writes a file's first `bytes` bytes again, as they read, and syncs them; all, if it has fewer. A loss of power then leaves what was
/// read.
///
/// After a failed sync the system may hand out bytes that its disk lacks, and a later sync may still answer Ok, since it takes them to be
/// written. A program that did not see the failure can't know this. So call this before a log is opened to be written, with its lock held
/// and before a device is made of it: what is read of these bytes afterwards is on the disk, or this fails. (The kernel marks a written
/// page as one that its disk lacks, whatever it knew before.)
///
/// It writes and syncs every other page, and then those between them. So no two pages of one sync are neighbours, and none is written
/// within a longer write: a loop device answers Ok to one that fails after its first page.
///
/// Each page is written with what it held, so other readers see no change, and a crash leaves each block as the disk had it or as it read.
/// No clause can say this; it is tested by hand.
///
/// # Errors
///
/// The file can't be read, written or synced: what the disk has is as unknown as before.
pub fn make_durable(file: &File, bytes: u64) -> io::Result<()> {
    let bytes = bytes.min(length_of(file)?);
    rewrite_every_other(file, 0, bytes)?;
    rewrite_every_other(file, PAGE as u64, bytes)
}

/// Does so with every other page, from byte `from` on.
fn rewrite_every_other(file: &File, from: u64, bytes: u64) -> io::Result<()> {
    let mut room = [0; 2 * PAGE];
    for pair in 0..bytes.div_ceil(2 * PAGE as u64) {
        let at = pair.saturating_mul(2 * PAGE as u64).saturating_add(from);
        let size = bytes.saturating_sub(at).min(read_at_once(pair)) as usize;
        write_again(file, at, &mut room[..size])?;
    }
    file.sync_data()
}

/// How many bytes are read where this pair of pages begins: a page, or sometimes both. The system reads ahead only of a reader that leaves
/// no page out, and then goes on while every other page is read. Without this, a log that is on the disk alone is read 16 KiB at a time. In
/// memory one page is cheaper: a larger read would copy each page twice.
fn read_at_once(pair: u64) -> u64
    ensures { result ≤ 8192 }
{
    if pair % STRETCH < WHOLE_PAIRS {
        2 * PAGE as u64
    } else {
        PAGE as u64
    }
}

/// Fills `room` from byte `at` on, and writes its first page back.
fn write_again(file: &File, at: u64, room: &mut [u8]) -> io::Result<()> {
    file.read_exact_at(room, at)?;
    let size = room.len().min(PAGE);
    file.write_all_at(&room[..size], at)
}
