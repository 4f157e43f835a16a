//! Tells a long change that whoever asked for it has left.
use std::sync::{Mutex, Wait};

/// Where a change of more than one handle looks before each: once somebody has left, it ends early. Only a value of type X shows that.
#[derive(Drop)]
pub struct Leaving<X> {
    shown: Mutex<Option<X>>,
}

impl<X: Copy> Leaving<X> {
    /// Nobody has left.
    pub fn new() -> Self {
        Leaving {
            shown: Mutex::new(None),
        }
    }

    /// Somebody has left.
    pub fn show<W: Wait>(&self, rt: &W, by: X) {
        *self.shown.lock(rt) = Some(by);
    }

    /// What shows that somebody has left, if somebody has.
    pub fn shown<W: Wait>(&self, rt: &W) -> Option<X> {
        *self.shown.lock(rt)
    }
}
