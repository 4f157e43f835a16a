//! Fetches what a client will read, as long as that pays.
use file_device::Fetcher;
use nbd_server::Prefetch;
use std::sync::atomic::{AtomicU32, Ordering};
use std::time::{Clock, Duration};

/// A fetch that takes more microseconds had to ask the disk.
const FROM_MEMORY: u64 = 20;

/// After so many fetches that did not ask the disk, few are made.
const PATIENCE: u32 = 256;

/// Then one look in so many still fetches, to learn whether the disk has to be asked again.
const SELDOM: u32 = 64;

/// Fetches bytes of HOME, if the system opened its file once more. Where home lies in the system's memory already a fetch only takes time,
/// so few are made there.
#[derive(Drop)]
pub(crate) struct HomePrefetch<'c, C> {
    fetcher: Option<Fetcher>,
    clock: &'c C,
    /// How many fetches may still be made that need not ask the disk.
    left: AtomicU32,
    /// How often it was asked whether a fetch pays.
    looks: AtomicU32,
}

impl<'c, C> HomePrefetch<'c, C> {
    /// Nothing is known of home's bytes yet.
    pub(crate) fn new(fetcher: Option<Fetcher>, clock: &'c C) -> Self {
        HomePrefetch {
            fetcher,
            clock,
            left: AtomicU32::new(PATIENCE),
            looks: AtomicU32::new(0),
        }
    }

    /// Notes how long a fetch took.
    fn note(&self, took: Duration) {
        let left = if took > Duration::from_micros(FROM_MEMORY) {
            PATIENCE
        } else {
            self.left.load(Ordering::Relaxed).saturating_sub(1)
        };
        self.left.store(left, Ordering::Relaxed);
    }
}

impl<C: Clock> Prefetch for HomePrefetch<'_, C> {
    fn is_any(&self) -> bool {
        self.fetcher.is_some()
    }

    fn pays(&self) -> bool {
        self.left.load(Ordering::Relaxed) > 0
            || self.looks.fetch_add(1, Ordering::Relaxed) % SELDOM == 0
    }

    fn fetch(&self, offset: u64, length: u64) {
        let (Some(fetcher), Ok(begun)) = (&self.fetcher, self.clock.monotonic()) else {
            return;
        };
        fetcher.fetch(offset, length);
        if let Ok(now) = self.clock.monotonic() {
            self.note(now.saturating_sub(begun));
        }
    }
}
