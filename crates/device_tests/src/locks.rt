//! Locks that two openings of a file can have.
use file_device::{Unlocked, lock, lock_shared};
use std::fs;
use std::fs::{File, OpenOptions};
use std::test::Fail;

const PATH: &str = "locked";

/// An existing file.
fn opened(rt: &HostRuntime, path: &str) -> Result<File, Fail> {
    Ok(OpenOptions::new().read(true).write(true).open(rt, path)?)
}

/// Whether a lock was refused because another opening has one.
fn is_held<L: Drop>(taken: Result<L, Unlocked>) -> bool {
    matches!(taken, Err(Unlocked::Held))
}

/// Which locks two openings of a file can have at once: two readers; a reader, then a writer; a writer, then either.
fn held(rt: &HostRuntime) -> Result<[bool; 4], Fail> {
    let (one, other) = (opened(rt, PATH)?, opened(rt, PATH)?);
    lock_shared(&one)?;
    let two_readers = is_held(lock_shared(&other));
    lock_shared(&other)?;
    let reader_and_writer = is_held(lock(&one));
    drop(one);
    lock(&other)?;
    let one = opened(rt, PATH)?;
    Ok([
        two_readers,
        reader_and_writer,
        is_held(lock_shared(&one)),
        is_held(lock(&one)),
    ])
}

#[test]
fn locks_of_two_openings(rt: HostRuntime) -> Result<(), Fail> {
    fs::write(&rt, PATH, b"")?;
    assert_eq!(rt; held(&rt)?, [false, true, true, true]);
    fs::remove_file(&rt, PATH)?;
    Ok(())
}
