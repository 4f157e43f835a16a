//! Makes devices over a log's files.
ghost use Rattle.std.specs.Prelude.{◌≡◌, ◌*◌, ◌-◌, ◌^◌, min, IfOk, None};
ghost use Rattle.journal_model.specs.declared.number.Area.TheVariants.{Home, Log};
ghost use Rattle.log_format.specs.Size.{IsBlockSize};
ghost use Rattle.jbench_files.specs.Over.{IsOver};
ghost use Rattle.jbench_words.specs.declared.fault.CommandStatus.TheVariants.{Refused};

use crate::locked::{take, take_shared};
use crate::pairs::{HomeFile, KeptPair, LockedPair, LogFile, LogPair, ReadPair};
use crate::ready::{BLOCK_SIZE_PLACE, ReadyLog, number_at};
use crate::regular::{open_there, open_to_read};
use crate::room::{AreaFile, Room, clear, give_back, reserve};
use crate::unfit::{Unfit, path_of};
use file_device::{Contents, FileDevice, UnknownContents, WriteLock, length_of};
use jbench_words::fault::{CommandStatus, refuse_file};
use jbench_words::watch::Watch;
use jbench_words::words::LogPaths;
use journal_model::Area;
use journal_script::{Measures, is_block_size};
use std::alloc::Global;
use std::fs::{File, Files};
use std::io;
use std::io::{ErrorKind, Write};
use std::os::unix::fs::FileTypeExt;

/// The assumption that files hold zeros, durably; only `make_device` makes it, of files that it cleared.
#[derive(Drop)]
pub struct Cleared<C: Contents>(C);

impl<C: Contents> Contents for Cleared<C> {
    ghost use Rattle.jbench_files.specs.Cleared.{cleared};

    ghost contents = { cleared C.contents };
}

/// The assumption that a log holds zeros, durably, and home its old content; only `make_log_device` makes it, of a log that it cleared.
#[derive(Drop)]
pub struct LogCleared<C: Contents>(C);

impl<C: Contents> Contents for LogCleared<C> {
    ghost use Rattle.jbench_files.specs.Cleared.{log_cleared};

    ghost contents = { log_cleared C.contents };
}

/// A file of a log that cannot get its length.
#[derive(Drop)]
pub struct Unmade {
    /// The file's area.
    pub area: Area,
    pub error: io::Error,
    /// Whether all files still hold their old content.
    pub is_kept: bool,
}

impl Unmade {
    /// The file's path.
    pub fn path<'a>(&self, paths: LogPaths<'a>) -> &'a str
        ensures log { self.now.area ≡ Log → result ≡ paths.entry.log }
        ensures home { self.now.area ≡ Home → result ≡ paths.entry.home }
    {
        path_of(self.area, paths)
    }

    /// A refused file, after old content may have been lost.
    fn of(area: Area, error: io::Error) -> Unmade {
        Unmade {
            area,
            error,
            is_kept: false,
        }
    }

    /// A refused file, while all files hold their old content.
    fn kept(area: Area, error: io::Error) -> Unmade {
        Unmade {
            area,
            error,
            is_kept: true,
        }
    }

    /// Prints why the file cannot get its length, and whether old content is lost; answers `Refused`.
    ///
    /// # Errors
    ///
    /// The lines could not be written.
    pub fn refuse(self, paths: LogPaths<'_>, err: &mut impl Write) -> io::Result<CommandStatus>
        ensures { IfOk result (λ status. status ≡ Refused) }
    {
        let path = self.path(paths);
        let Unmade {
            area: _,
            error,
            is_kept,
        } = self;
        let status = refuse_file(err, path, error)?;
        if is_kept {
            writeln!(err, "  no file was changed: each holds what it held")?;
        } else {
            writeln!(err, "  what the files held may be lost")?;
        }
        Ok(status)
    }
}

/// Opens a log to read, without a home area, and takes its read lock. The superblock gives the block size; if it is no valid one, 1024
/// bytes.
///
/// # Errors
///
/// The path names neither a regular file nor a block device, it cannot be read, another program writes it, or memory ran out.
pub fn open_log<C: Contents, R: Files<File = File>>(
    alloc: Global,
    contents: C,
    rt: &R,
    path: &str,
) -> io::Result<FileDevice<C>>
    ensures home { IfOk result (λ device. device.home_file ≡ None) }
{
    log_in(
        alloc,
        contents,
        take_shared(rt, open_to_read(rt, path)?)?.into_file(),
    )
}

/// Opens a log to read and write, without a home area, and takes its write lock. The block size is that of `open_log`. The superblock is
/// rewritten as it reads, and synced.
///
/// # Errors
///
/// The path names neither a regular file nor a block device, it cannot be read, written or synced, another program has it, or memory ran out.
/// `InvalidInput`: it is a device whose sectors are longer than the log's blocks.
pub fn open_log_to_write<C: Contents, R: Files<File = File>>(
    alloc: Global,
    contents: C,
    rt: &R,
    path: &str,
) -> io::Result<FileDevice<C>>
    ensures home { IfOk result (λ device. device.home_file ≡ None) }
{
    let log = take(rt, path, open_there(rt, path)?)?;
    log.file().require_blocks(block_size_of(&log.file().file)?)?;
    log_in(alloc, contents, ReadyLog::with_superblock(log)?.into_file())
}

/// A device over a log's file alone.
fn log_in<C: Contents>(alloc: Global, contents: C, file: File) -> io::Result<FileDevice<C>>
    ensures { IfOk result (λ device. (device.log_file ≡ file) × (device.home_file ≡ None)) }
{
    let size = block_size_of(&file)?;
    Ok(FileDevice::new(alloc, contents, size, file, None)?)
}

/// A device over a log's two files, whose assumed contents are `contents`. The block size is that of `open_log`. The part of the log that
/// an opening relies on is rewritten as it reads, and synced: after a failed sync it may be in the system's memory alone.
///
/// # Errors
///
/// The file that is at fault: the log cannot be read, written or synced, the system has no data on a file, or memory ran out.
/// `InvalidInput`: a file is a device whose sectors are longer than the log's blocks, or home has not one whole block. Nothing is written
/// then.
pub fn device_of<C: Contents>(
    alloc: Global,
    contents: C,
    files: LogPair,
) -> Result<FileDevice<C>, Unfit>
    ensures { IfOk result (IsOver files.log.file.file files.home.file.file) }
{
    let size = size_in(&files)?;
    files.require_blocks(size)?;
    files.require_home(size)?;
    let (log, home) = files.into_files();
    match ReadyLog::made_durable(log) {
        Ok(log) => device_over(alloc, contents, size, log, home),
        Err(error) => Err(Unfit::of_log(error)),
    }
}

/// A device over a log's two files, to read. Nothing is written.
///
/// # Errors
///
/// The file that is at fault: the log cannot be read, the system has no data on a file, or memory ran out. `InvalidInput`: home has not one
/// whole block.
pub fn device_to_read<C: Contents>(
    alloc: Global,
    contents: C,
    files: ReadPair,
) -> Result<FileDevice<C>, Unfit>
    ensures { IfOk result (IsOver files.log.file.file files.home.file.file) }
{
    let size = size_in(&files)?;
    files.require_home(size)?;
    let (log, home) = files.into_files();
    device_over(alloc, contents, size, ReadyLog::to_read(log), home)
}

/// The block size of the log of these files.
fn size_in<L: Drop>(files: &LockedPair<L>) -> Result<usize, Unfit>
    ensures { IfOk result IsBlockSize }
{
    match block_size_of(files.log_file()) {
        Ok(size) => Ok(size),
        Err(error) => Err(Unfit::of_log(error)),
    }
}

/// A device over a log's two files, with blocks of `size` bytes.
fn device_over<C: Contents>(
    alloc: Global,
    contents: C,
    size: usize,
    log: ReadyLog,
    home: HomeFile,
) -> Result<FileDevice<C>, Unfit>
    requires { IsBlockSize size }
    ensures { IfOk result (IsOver log.file home.file) }
{
    let (log, home) = (log.into_file(), home.into_file());
    Ok(FileDevice::new(alloc, contents, size, log, Some(home))?)
}

/// Makes both files as long as the measures say, all zeros and durable, and a device over them. Disk space is reserved before old content
/// is lost. `watch` learns what is written. Block devices keep their length: the log has the first blocks of one, and all of one that is
/// home becomes zeros.
///
/// # Errors
///
/// The block size is not valid, or shorter than a device's sectors, or the disk has no room: both files are as before. A file cannot be
/// overwritten or synced, or memory ran out: the old content of both may be lost.
pub fn make_device<C: Contents>(
    alloc: Global,
    contents: C,
    measures: &Measures,
    files: LogPair,
    watch: &mut impl Watch,
) -> Result<FileDevice<Cleared<C>>, Unmade>
    ensures { IfOk result (IsOver files.log.file.file files.home.file.file) }
{
    let size = tested_size(measures, &files)?;
    let (log, home) = files.into_files();
    let log_room = log_room(alloc, measures, &log, watch)?;
    let home_room = match home_room(alloc, measures, &home, watch) {
        Ok(room) => room,
        Err(error) => {
            return Err(match give_back(log.file(), log_room) {
                Ok(()) => Unmade::kept(Area::Home, error),
                Err(_) => Unmade::of(Area::Home, error),
            });
        }
    };
    let log = clear_log(alloc, log, log_room, watch)?;
    if let Err(error) = clear(alloc, of_home(&home), home_room, watch) {
        return Err(Unmade::of(Area::Home, error));
    }
    device_in(
        alloc,
        Cleared(contents),
        size,
        log_bytes(measures),
        log,
        home,
    )
}

/// Makes a log's file as long as the measures say, all zeros and durable, and a device over it and the home area's file, which stays. Disk
/// space is reserved before old content is lost. `watch` learns what is written. A log that is a block device has its first blocks.
///
/// # Errors
///
/// The block size is not valid, or shorter than a device's sectors, or the disk has no room: the log is as before. The log cannot be overwritten or synced, the system has no
/// data on the home area's file, or memory ran out: the log's old content may be lost.
pub fn make_log_device<C: Contents>(
    alloc: Global,
    contents: C,
    measures: &Measures,
    files: KeptPair,
    watch: &mut impl Watch,
) -> Result<FileDevice<LogCleared<C>>, Unmade>
    ensures { IfOk result (IsOver files.pair.log.file.file files.pair.home.file.file) }
{
    let files = files.into_pair();
    let size = tested_size(measures, &files)?;
    let (log, home) = files.into_files();
    let room = log_room(alloc, measures, &log, watch)?;
    let log = clear_log(alloc, log, room, watch)?;
    device_in(
        alloc,
        LogCleared(contents),
        size,
        log_bytes(measures),
        log,
        home,
    )
}

/// A device to read a log's file before it is made anew: without a home area, with the superblock's block size.
///
/// # Errors
///
/// The log cannot be read, the system has no data on it, or memory ran out.
pub fn device_before<L: Drop>(
    alloc: Global,
    files: &LockedPair<L>,
) -> io::Result<FileDevice<UnknownContents>> {
    log_in(alloc, UnknownContents, files.log_again()?)
}

/// Prints which call on this device's files failed last, if any: the file, the first byte, and the system's answer. `paths` names the
/// files.
///
/// # Errors
///
/// The line could not be written.
pub fn say_failure<C: Contents>(
    device: &FileDevice<C>,
    paths: LogPaths<'_>,
    err: &mut impl Write,
) -> io::Result<()> {
    let Some(failure) = device.failure() else {
        return Ok(());
    };
    let path = path_of(failure.area, paths);
    writeln!(err, "  {path}: {failure}")
}

/// The home area's bytes, at most 2^64 - 1.
pub fn home_bytes(measures: &Measures) -> u64
    ensures { result ≡ min (measures.now.home_blocks * measures.now.block_size) (2 ^ 64 - 1) }
{
    measures
        .home_blocks
        .saturating_mul(measures.block_size as u64)
}

/// The log's bytes, at most 2^64 - 1.
fn log_bytes(measures: &Measures) -> u64 {
    u64::from(measures.log_blocks).saturating_mul(measures.block_size as u64)
}

/// The measures' block size, if it is valid, and no shorter than the sectors of these files.
fn tested_size(measures: &Measures, files: &LogPair) -> Result<usize, Unmade>
    ensures { IfOk result IsBlockSize }
{
    let size = measures.block_size;
    if !is_block_size(size as u64) {
        return Err(Unmade::kept(Area::Log, io::Error::from(ErrorKind::InvalidInput)));
    }
    match files.require_blocks(size) {
        Ok(()) => Ok(size),
        Err(unfit) => Err(Unmade::kept(unfit.area, unfit.error)),
    }
}

fn of_home(home: &HomeFile) -> AreaFile<'_> {
    AreaFile {
        area: Area::Home,
        file: home.file(),
    }
}

/// Reserves disk space for a log of these measures.
fn log_room(
    alloc: Global,
    measures: &Measures,
    log: &LogFile<WriteLock>,
    watch: &mut impl Watch,
) -> Result<Room, Unmade> {
    let of = AreaFile {
        area: Area::Log,
        file: log.file(),
    };
    match reserve(alloc, of, log_bytes(measures), watch) {
        Ok(room) => Ok(room),
        Err(error) => Err(Unmade::kept(Area::Log, error)),
    }
}

/// Reserves disk space for a home area of these measures; of a block device all of it.
fn home_room(
    alloc: Global,
    measures: &Measures,
    home: &HomeFile,
    watch: &mut impl Watch,
) -> io::Result<Room> {
    let of = of_home(home);
    let bytes = home_bytes(measures);
    if of.file.metadata()?.file_type().is_block_device() {
        reserve(alloc, of, bytes.max(length_of(of.file)?), watch)
    } else {
        reserve(alloc, of, bytes, watch)
    }
}

/// Overwrites a log's file with zeros, up to the reserved length, and makes them durable.
fn clear_log(
    alloc: Global,
    log: LogFile<WriteLock>,
    room: Room,
    watch: &mut impl Watch,
) -> Result<ReadyLog, Unmade>
    ensures { IfOk result (λ ready. ready.file ≡ log.file) }
{
    match ReadyLog::cleared(alloc, log, room, watch) {
        Ok(log) => Ok(log),
        Err(error) => Err(Unmade::of(Area::Log, error)),
    }
}

/// A device over these files, with blocks of `size` bytes; its log has at most so many bytes of its file.
fn device_in<C: Contents>(
    alloc: Global,
    contents: C,
    size: usize,
    log_bytes: u64,
    log: ReadyLog,
    home: HomeFile,
) -> Result<FileDevice<C>, Unmade>
    requires { IsBlockSize size }
    ensures { IfOk result (IsOver log.file home.file) }
{
    let (log, home) = (log.into_file(), home.into_file());
    match FileDevice::with_log_of(alloc, contents, size, log, log_bytes, Some(home)) {
        Ok(device) => Ok(device),
        Err(e) => Err(Unmade::of(e.area, e.error)),
    }
}

/// The block size of this file's log.
fn block_size_of(log: &File) -> io::Result<usize>
    ensures { IfOk result IsBlockSize }
{
    match number_at(log, BLOCK_SIZE_PLACE)? {
        Some(bytes) => Ok(journal_script::block_size_of(bytes)),
        None => Ok(1024),
    }
}
