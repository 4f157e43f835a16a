//! Explains refusals that come of a home area or a log file that is too short.
ghost use Rattle.std.specs.Prelude.{◌≡◌, length};
ghost use Rattle.block_device.specs.Call.{OnlyReads};

use crate::ways_out::{SUPER_BYTES, say_length};
use block_device::{Device, read_block};
use journal_model::{Area, JournalError};
use log_format::Super;
use log_scan::{Finder, scan};
use log_views::read_log;
use std::alloc::Global;
use std::io;
use std::io::Write;

/// After a refusal's line, says if the home area lacks a block that the log names, or the log's file is too short. If that cannot be found
/// out, it says nothing.
///
/// # Errors
///
/// The line could not be written.
pub(crate) fn say_why<D: Device>(
    alloc: Global,
    device: &mut D,
    e: JournalError,
    err: &mut impl Write,
) -> io::Result<()>
    ensures device { OnlyReads D.state D.honest device.old device.new }
{
    match e {
        JournalError::Damage(place) => say_short_home(alloc, device, place, err),
        JournalError::BadLength => say_short_log(alloc, device, err),
        _ => Ok(()),
    }
}

/// Says if the block at this place is damaged because it names a missing home block.
fn say_short_home<D: Device>(
    alloc: Global,
    device: &mut D,
    place: u64,
    err: &mut impl Write,
) -> io::Result<()>
    ensures device { OnlyReads D.state D.honest device.old device.new }
{
    let home_blocks = device.blocks(Area::Home);
    match is_whole_without_home(alloc, device, place) {
        Ok(true) => writeln!(
            err,
            "  it names home blocks that are not there: the home area has {home_blocks}"
        ),
        _ => Ok(()),
    }
}

/// Says how many blocks a log has, and how many its superblock requires.
fn say_short_log<D: Device>(alloc: Global, device: &mut D, err: &mut impl Write) -> io::Result<()>
    ensures device { OnlyReads D.state D.honest device.old device.new }
{
    let blocks = device.blocks(Area::Log);
    if blocks == 0 {
        return writeln!(err, "  it has not one whole block: is it the right file?");
    }
    match read_block(alloc, device, Area::Log, 0) {
        Ok(block) if block.bytes().len() >= SUPER_BYTES => {
            say_length(&Super::fields(block.bytes()), blocks, err)
        }
        _ => Ok(()),
    }
}

/// Whether the block at this place is damaged only by a home block's number: without a limit on these, the chain does not end there by
/// damage.
fn is_whole_without_home<D: Device>(
    alloc: Global,
    device: &mut D,
    place: u64,
) -> Result<bool, JournalError>
    ensures device { OnlyReads D.state D.honest device.old device.new }
{
    let log = read_log(alloc, device)?;
    let mut finder = Finder::new(log.layout());
    match scan(device, &log, None, &mut finder) {
        Err(JournalError::Damage(other)) => Ok(other != place),
        Err(e) => Err(e),
        Ok(_) => Ok(true),
    }
}
