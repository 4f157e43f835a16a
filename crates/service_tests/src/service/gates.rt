//! What holds a thread until another has come so far, or gives up.
use std::sync::atomic::{AtomicU64, Ordering};
use std::thread;
use volume_service::{Gate, Point};

/// How often a gate looks before it gives up.
pub(crate) const LOOKS: u32 = 2_000_000;

/// How often a pause yields.
const PAUSES: u32 = 10_000;

/// Looks until the word is at least this number. False if it stayed below.
pub(crate) fn comes_to(word: &AtomicU64, least: u64) -> bool {
    for _ in 0..LOOKS {
        if word.load(Ordering::SeqCst) >= least {
            return true;
        }
        thread::yield_now();
    }
    false
}

/// Yields so often that a thread that is about to sleep does.
pub(crate) fn pause() {
    for _ in 0..PAUSES {
        thread::yield_now();
    }
}

/// Holds each client's handle open until two clients have opened one.
#[derive(Drop)]
pub(crate) struct Meeting {
    opened: AtomicU64,
    given_up: AtomicU64,
}

impl Meeting {
    pub(crate) fn new() -> Meeting {
        Meeting {
            opened: AtomicU64::new(0),
            given_up: AtomicU64::new(0),
        }
    }

    /// Whether a second client never came.
    pub(crate) fn failed(&self) -> bool {
        self.given_up.load(Ordering::SeqCst) != 0
    }
}

impl Gate for Meeting {
    fn pass(&self, point: Point) {
        if let Point::Opened(_) = point {
            self.opened.fetch_add(1, Ordering::SeqCst);
            if !comes_to(&self.opened, 2) {
                self.given_up.store(1, Ordering::SeqCst);
            }
        }
    }
}
