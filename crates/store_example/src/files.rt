//! The files of the store, in the current folder.

use anyhow::Result;
use keelsoursop::files::{FileDevice, UnknownContents, lock, make_durable};
use std::fs;
use std::fs::{File, OpenOptions};

/// Bytes of a block: 1024, 2048 or 4096. The log records it.
const BLOCK_SIZE: usize = 1024;

/// Blocks of the log, at least 17.
const LOG_BLOCKS: u32 = 33;

/// Blocks of the home area, the volume that the journal protects.
const HOME_BLOCKS: u64 = 64;

/// The store's device, over the files `store_home` and `store_log`, which it makes if they are not there.
///
/// # Errors
///
/// A file can't be opened, made, locked, measured or synced, or memory ran out.
pub fn device(rt: &HostRuntime) -> Result<FileDevice<UnknownContents>> {
    let home = file_of(rt, "store_home", HOME_BLOCKS * BLOCK_SIZE as u64)?;
    if !fs::exists(rt, "store_log")? {
        make_log(rt)?;
    }
    let log = OpenOptions::new()
        .read(true)
        .write(true)
        .open(rt, "store_log")?;
    lock(&log)?;
    make_durable(&log, u64::MAX)?;
    Ok(FileDevice::new(rt.alloc(), UnknownContents, BLOCK_SIZE, log, Some(home))?)
}

/// Makes an empty log under another name, and gives it its own once it is durable: a crash leaves no log, or all of it.
fn make_log(rt: &HostRuntime) -> Result<()> {
    let log = file_of(
        rt,
        "store_log.new",
        u64::from(LOG_BLOCKS) * BLOCK_SIZE as u64,
    )?;
    let mut device = FileDevice::new(rt.alloc(), UnknownContents, BLOCK_SIZE, log, None)?;
    keelsoursop::format(&mut device, LOG_BLOCKS, &[0xaa; 16], false)?;
    fs::rename(rt, "store_log.new", "store_log")?;
    File::open(rt, ".")?.sync_all()?;
    Ok(())
}

/// Opens or makes a file, locks it, and makes its length durable.
fn file_of(rt: &HostRuntime, path: &str, bytes: u64) -> Result<File> {
    let file = OpenOptions::new()
        .read(true)
        .write(true)
        .create(true)
        .open(rt, path)?;
    lock(&file)?;
    file.set_len(bytes)?;
    file.sync_all()?;
    Ok(file)
}
