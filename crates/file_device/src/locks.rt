//! Locks files, so that programs keep off a log and a home area that another one has open.
//!
//! A lock is advisory: it stops only those who ask for it. It belongs to one opening of a file, so it also stops a second opening in the
//! same program. It lasts until the `File` that took it, and each clone of that, is closed, or the program ends in any way. So lock both
//! files of a log before anything is read and a device is made of them: the device then has the locks until it is dropped, after it wrote
//! what it gathered. All this is the system's promise (`flock`); no clause can say it.
use std::error::Error;
use std::fs::{File, TryLockError};
use std::io::ErrorKind;
use std::{fmt, io};

/// Why a file is not locked. This opening then has no lock.
#[derive(Debug, Drop)]
pub enum Unlocked {
    /// Another opening has a lock that excludes this one.
    Held,
    /// The system can't lock the file: its file system has no locks, or there is no room for one more.
    Failed(io::Error),
}

/// Shows that `lock` took the lock to write, which lasts as long as the file's opening, whatever becomes of this value.
#[derive(Debug, Drop)]
pub struct WriteLock(());

/// Shows that `lock_shared` took the lock to read, which lasts as long as the file's opening.
#[derive(Debug, Drop)]
pub struct ReadLock(());

/// Takes the lock to write. No other opening has a lock, or gets one from then on. It does not wait.
///
/// # Errors
///
/// `Held`: another opening has a lock. `Failed`: any other answer of the system. Nothing is read or written, and no other opening loses its
/// lock.
pub fn lock(file: &File) -> Result<WriteLock, Unlocked> {
    file.try_lock()?;
    Ok(WriteLock(()))
}

/// Takes the lock to read. No other opening has the lock to write, or gets it from then on; others may take this one. It does not wait.
///
/// # Errors
///
/// `Held`: another opening has the lock to write. `Failed`: any other answer of the system. Nothing is read or written, and no other
/// opening loses its lock.
pub fn lock_shared(file: &File) -> Result<ReadLock, Unlocked> {
    file.try_lock_shared()?;
    Ok(ReadLock(()))
}

impl fmt::Display for Unlocked {
    fn fmt<W: fmt::Write>(&self, f: &mut fmt::Formatter<W>) -> fmt::Result {
        f.write_str(match self {
            Unlocked::Held => "another program has it",
            Unlocked::Failed(_) => "the system can't lock it",
        })
    }
}

impl Error for Unlocked {}

impl From<TryLockError> for Unlocked {
    fn from(e: TryLockError) -> Self {
        match e {
            TryLockError::WouldBlock => Unlocked::Held,
            TryLockError::Error(e) => Unlocked::Failed(e),
        }
    }
}

impl From<Unlocked> for io::Error {
    fn from(e: Unlocked) -> Self {
        match e {
            Unlocked::Held => io::Error::from(ErrorKind::WouldBlock),
            Unlocked::Failed(e) => e,
        }
    }
}
