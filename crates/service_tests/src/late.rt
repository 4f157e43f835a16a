//! Ends a test that doesn't end by itself.
use std::alloc::AllocError;
use std::process::Abort;
use std::thread::{self, Threads};
use std::time::{Clock, Duration};

/// How many seconds a test may take: many times as many as each takes. The gate kills it after 60.
const MOST_SECONDS: u64 = 50;

/// Fails the test unless it ends in time: a thread of it may sleep, and none be left to wake it. Nobody joins the thread that sees to this:
/// the end of the test cuts it off.
pub(crate) fn fail_if_late<R: Threads + Clock + Abort + Copy + Send + 'static>(
    rt: R,
) -> Result<(), AllocError> {
    thread::spawn(&rt, move || fail_late(&rt))?;
    Ok(())
}

fn fail_late<R: Clock + Abort>(rt: &R) {
    thread::sleep(rt, Duration::from_secs(MOST_SECONDS));
    panic!(rt; "the test does not end: perhaps a thread sleeps that nobody wakes")
}
