//! How long what nobody waits for may wait for its commit.
use crossbeam_channel::Receiver;
use std::sync::Wait;
use std::time::{Clock, Duration};

/// How long a stopped handle may wait for its commit.
/// Source: jbd2's commit interval.
pub trait Interval {
    /// Whether there is one.
    fn is_any(&self) -> bool;

    /// Waits that long, or until nobody can send any more.
    fn pass<T: Drop>(&self, from: &Receiver<T>);
}

/// What nobody waits for is committed once it fills half of a transaction.
#[derive(Clone, Copy, Debug)]
pub struct NoInterval;

impl Interval for NoInterval {
    fn is_any(&self) -> bool {
        false
    }

    fn pass<T: Drop>(&self, _from: &Receiver<T>) {}
}

/// It is committed so much later at the latest, if the device is able; with no length, as by `NoInterval`.
#[derive(Clone, Copy)]
pub struct Every<'c, C> {
    pub clock: &'c C,
    pub length: Duration,
}

impl<C: Wait + Clock> Interval for Every<'_, C> {
    fn is_any(&self) -> bool {
        !self.length.is_zero()
    }

    fn pass<T: Drop>(&self, from: &Receiver<T>) {
        let _none = from.recv_timeout(self.clock, self.length);
    }
}
