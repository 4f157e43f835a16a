//! Hands requests and answers to another task.
use crossbeam_channel::Sender;
use std::io;
use std::io::ErrorKind;
use std::sync::Wait;

/// Hands something to another task, and waits for room.
///
/// # Errors
///
/// `BrokenPipe`: that task has ended.
pub(crate) fn hand_on<T: Drop, W: Wait>(rt: &W, to: &Sender<T>, it: T) -> io::Result<()> {
    match to.send(rt, it) {
        Ok(()) => Ok(()),
        Err(_) => Err(io::Error::from(ErrorKind::BrokenPipe)),
    }
}
