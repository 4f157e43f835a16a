//! Which process took a file's lock, by the system's list.
ghost use Rattle.std.specs.Prelude.{◌≤◌};

use crate::lines::{Line, Lines, MOST_LINES};
use crate::regular::LockPlace;
use std::fs::{File, Files};
use std::io::ErrorKind;
use std::{fmt, fs, io};

/// The system's list of locks, each on a line.
/// Source: proc_locks(5).
const LOCKS: &str = "/proc/locks";

/// Why a file can't be locked: another opening has its lock. Names the process that took it, if the system tells it and that still runs.
pub(crate) fn held<R: Files<File = File>>(rt: &R, file: LockPlace) -> io::Error {
    match taker_of(rt, file) {
        Some(process) if is_running(rt, process) => taken_by(process),
        _ => io::Error::new(ErrorKind::WouldBlock, "another program has it"),
    }
}

/// Why a file can't be locked: this process took its lock.
fn taken_by(process: u64) -> io::Error {
    let mut line = Line::new();
    let _ = fmt::Write::write_fmt(&mut line, format_args!("process {process} took its lock"));
    io::Error::new(ErrorKind::WouldBlock, line.text())
}

/// Whether a process has not ended. Another one may keep the lock of one that has.
fn is_running<R: Files<File = File>>(rt: &R, process: u64) -> bool {
    let mut path = Line::new();
    let _ = fmt::Write::write_fmt(&mut path, format_args!("/proc/{process}"));
    fs::metadata(rt, path.text()).is_ok()
}

/// The process that took a file's lock, if the system tells it.
fn taker_of<R: Files<File = File>>(rt: &R, file: LockPlace) -> Option<u64> {
    match Lines::new(LOCKS, fs::open(rt, LOCKS), b'\n') {
        Ok(locks) => taker_in(locks, file),
        Err(_) => None,
    }
}

/// The process that took a file's lock, by a list of locks.
fn taker_in(locks: Lines<'_, File>, file: LockPlace) -> Option<u64> {
    let mut lines = locks;
    let mut line = Line::new();
    for _ in 0..MOST_LINES {
        match lines.read(&mut line) {
            Ok(true) => {}
            Ok(false) | Err(_) => return None,
        }
        if let Some(process) = process_in(line.text(), file) {
            return Some(process);
        }
    }
    None
}

/// The process that took a file's lock, if this line of the list names it: `1: FLOCK ADVISORY WRITE 4711 fe:00:123456 0 EOF`. The line of a
/// process that waits has `->` before the kind.
fn process_in(line: &str, file: LockPlace) -> Option<u64> {
    let mut words = line.split_whitespace();
    words.next()?;
    if words.next()? != "FLOCK" {
        return None;
    }
    words.next()?;
    words.next()?;
    let process = words.next()?.parse::<u64>().ok()?;
    if process > 0 && names(words.next()?, file) {
        Some(process)
    } else {
        None
    }
}

/// Whether this word of the list names a file: its device's numbers in hex, and its inode.
fn names(place: &str, file: LockPlace) -> bool {
    match place.split_once(':') {
        Some((major, rest)) => match rest.split_once(':') {
            Some((minor, inode)) => {
                is_number(major, 16, file.device.major)
                    && is_number(minor, 16, file.device.minor)
                    && is_number(inode, 10, file.inode)
            }
            None => false,
        },
        None => false,
    }
}

/// Whether these are the digits of a number.
fn is_number(digits: &str, radix: u32, number: u64) -> bool
    requires least { 2 ≤ radix }
    requires most { radix ≤ 36 }
{
    u64::from_str_radix(digits, radix) == Ok(number)
}
