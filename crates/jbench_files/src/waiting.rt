//! Waits for a log's files that another program has locked.
use crate::locked::FileLock;
use crate::pairs::{LockedPair, Unopened, open_pair};
use jbench_words::words::LogPaths;
use std::fs::{File, Files};
use std::thread;
use std::time::{Clock, Duration};

/// Milliseconds between two tries.
const PAUSE: u64 = 100;

/// Pauses in a second.
const PAUSES: u64 = 10;

/// Opens a log's two distinct files, and takes each one's lock as it opens it; their content stays. If another program has a lock that
/// excludes this one, it tries again, for `seconds` seconds.
///
/// # Errors
///
/// Those of the last try: the first file that is neither a regular one nor a block device, cannot be read (and written, for a write lock),
/// is the same as the other or shares bytes with it, as far as the system tells, has such a lock, or, for a write lock, can't be written or
/// has bytes that the system names a user of. `NotFound`: the log's path names another file by the time home is opened.
pub fn open_pair_within<'a, L: FileLock, R: Files<File = File> + Clock>(
    rt: &R,
    paths: LogPaths<'a>,
    seconds: u64,
) -> Result<LockedPair<L>, Unopened<'a>> {
    for _ in 0..seconds.saturating_mul(PAUSES) {
        match open_pair(rt, paths) {
            Err(unopened) if unopened.is_held() => pause(rt),
            opened => return opened,
        }
    }
    open_pair(rt, paths)
}

/// Sleeps until the next try.
fn pause<R: Clock>(rt: &R) {
    let _slept = thread::sleep(rt, Duration::from_millis(PAUSE));
}
