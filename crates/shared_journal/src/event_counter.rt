//! What threads sleep on: a count of events.

use std::sync::Wait;
use std::sync::atomic::{AtomicU64, Ordering};
use std::thread;

/// How often a thread looks for others that are on their way, and yields: they come within microseconds, unless the processors are taken.
/// So many yields cost some two hundred microseconds, about as much as a commit on a fast disk.
const LOOKS: u32 = 200;

/// A count that rises each time something may have become possible. A waiter reads it, checks whether it can go on, and sleeps only
/// while the count is unchanged. So no event between check and sleep is lost, unless 2^32 events come in between.
/// Source: an event count, as of D. P. Reed and R. K. Kanodia; Linux's futex(2) by behaviour.
#[derive(Drop)]
pub struct EventCounter {
    count: AtomicU64,
    /// Threads that sleep, or are about to.
    sleepers: AtomicU64,
}

impl EventCounter {
    /// A count of no events.
    pub fn new() -> EventCounter {
        EventCounter {
            count: AtomicU64::new(0),
            sleepers: AtomicU64::new(0),
        }
    }

    /// The number of events.
    pub fn count(&self) -> u64 {
        self.count.load(Ordering::SeqCst)
    }

    /// The low 32 bits of the count, for `wait`.
    pub fn seen(&self) -> u32 {
        (self.count() % (1 << 32)) as u32
    }

    /// Counts one more event and wakes all sleepers. Without sleepers it makes no system call: a later sleeper finds the new count.
    pub fn notify(&self) {
        self.count.fetch_add(1, Ordering::SeqCst);
        if self.sleepers.load(Ordering::SeqCst) != 0 {
            self.count.wake_all();
        }
    }

    /// Looks for a short while until there were this many events.
    pub(crate) fn look_for(&self, count: u64) {
        for _ in 0..LOOKS {
            if self.count() >= count {
                break;
            }
            thread::yield_now();
        }
    }

    /// Sleeps while the low 32 bits of the count equal `seen`. It may also return without cause.
    pub fn wait<W: Wait>(&self, rt: &W, seen: u32) {
        self.sleepers.fetch_add(1, Ordering::SeqCst);
        self.count.park(rt, seen);
        self.sleepers.fetch_sub(1, Ordering::SeqCst);
    }
}
