//! Opens files with their lock.
ghost use Rattle.std.specs.Prelude.{◌≡◌, IfOk};

use crate::holder::held;
use crate::nodes::require_writable;
use crate::regular::{Identity, RegularFile, open_there, open_to_read};
use crate::users::require_unused;
use file_device::{ReadLock, Unlocked, WriteLock, lock, lock_shared};
use std::fs::{File, Files};
use std::io::ErrorKind;
use std::{fs, io};

/// A file with its lock. A `WriteLock` excludes all other locks, a `ReadLock` those of writers.
#[derive(Drop)]
pub struct LockedFile<L> {
    file: RegularFile,
    lock: L,
}

/// A kind of lock, and how a file is opened for it.
pub trait FileLock: Drop {
    /// Opens an existing file for what the lock allows. Its content stays.
    ///
    /// # Errors
    ///
    /// The path names neither a regular file nor a block device, or it cannot be read, or written if the lock allows that.
    fn open<R: Files<File = File>>(rt: &R, path: &str) -> io::Result<RegularFile>;

    /// Takes the lock of a file that was opened by this path.
    ///
    /// # Errors
    ///
    /// Those of `take` and `take_shared`.
    fn take<R: Files<File = File>>(
        rt: &R,
        path: &str,
        file: RegularFile,
    ) -> io::Result<LockedFile<Self>>
    where
        Self: Sized,
        ensures { IfOk result (λ locked. locked.file ≡ file) };
}

impl FileLock for WriteLock {
    fn open<R: Files<File = File>>(rt: &R, path: &str) -> io::Result<RegularFile> {
        open_there(rt, path)
    }

    fn take<R: Files<File = File>>(
        rt: &R,
        path: &str,
        file: RegularFile,
    ) -> io::Result<LockedFile<WriteLock>> {
        take(rt, path, file)
    }
}

impl FileLock for ReadLock {
    fn open<R: Files<File = File>>(rt: &R, path: &str) -> io::Result<RegularFile> {
        open_to_read(rt, path)
    }

    fn take<R: Files<File = File>>(
        rt: &R,
        _path: &str,
        file: RegularFile,
    ) -> io::Result<LockedFile<ReadLock>> {
        take_shared(rt, file)
    }
}

/// Takes the write lock of a file that was opened by this path.
///
/// # Errors
///
/// `WouldBlock`: another program has a lock; its process is named if the system tells it. `NotFound`: another program renamed or removed
/// the file, so the path names another one. `ResourceBusy`: the system names a user of its bytes; `ReadOnlyFilesystem`: it is a block device
/// that can't be written. Otherwise the system's answer.
pub(crate) fn take<R: Files<File = File>>(
    rt: &R,
    path: &str,
    file: RegularFile,
) -> io::Result<LockedFile<WriteLock>>
    ensures { IfOk result (λ locked. locked.file ≡ file) }
{
    match lock(&file.file) {
        Ok(lock) => {
            require_name(rt, path, &file)?;
            if let Some(device) = file.device() {
                require_writable(rt, device)?;
            }
            require_unused(rt, &file)?;
            Ok(LockedFile { file, lock })
        }
        Err(e) => Err(unlocked(rt, &file, e)),
    }
}

/// Why a file can't be locked.
fn unlocked<R: Files<File = File>>(rt: &R, file: &RegularFile, e: Unlocked) -> io::Error {
    match e {
        Unlocked::Held => held(rt, file.place),
        Unlocked::Failed(e) => e,
    }
}

/// Fails if the path no longer names this file.
///
/// # Errors
///
/// `NotFound`: it names another file. Otherwise the system's answer.
pub(crate) fn require_name<R: Files<File = File>>(
    rt: &R,
    path: &str,
    file: &RegularFile,
) -> io::Result<()> {
    if Identity::of(&fs::metadata(rt, path)?) == file.identity {
        Ok(())
    } else {
        Err(io::Error::new(
            ErrorKind::NotFound,
            "another program replaced it: its path names another file",
        ))
    }
}

/// Takes the read lock of an open file.
///
/// # Errors
///
/// `WouldBlock`: another program has the write lock; its process is named if the system tells it. Otherwise the system's answer.
pub(crate) fn take_shared<R: Files<File = File>>(
    rt: &R,
    file: RegularFile,
) -> io::Result<LockedFile<ReadLock>>
    ensures { IfOk result (λ locked. locked.file ≡ file) }
{
    match lock_shared(&file.file) {
        Ok(lock) => Ok(LockedFile { file, lock }),
        Err(e) => Err(unlocked(rt, &file, e)),
    }
}

impl<L: Drop> LockedFile<L> {
    pub fn file(&self) -> &RegularFile
        ensures { result.now ≡ self.now.file }
    {
        &self.file
    }

    /// The file, locked until it is dropped.
    pub fn into_file(self) -> File
        ensures { result ≡ self.file.file }
    {
        let LockedFile { file, lock: _ } = self;
        file.into_file()
    }
}
