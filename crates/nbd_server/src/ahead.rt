//! Has the bytes fetched of reads that wait in the input, so that the disk works for several while one is answered.
use crate::done::Done;
use crate::replies::LONG_BYTES;
use crossbeam_channel::{Receiver, Sender};
use journal_model::Tid;
use nbd_protocol::numbers::{READ, WRITE};
use nbd_protocol::{REQUEST_BYTES, Request};
use std::alloc::Global;
use std::sync::Wait;

/// Brings bytes of home nearer that will be read. It hands out no bytes, so no answer rests on it.
pub trait Prefetch {
    /// Whether there is anything to fetch from.
    fn is_any(&self) -> bool;

    /// Whether to fetch what waits now: bytes that are near already need not be.
    fn pays(&self) -> bool;

    /// Fetches these bytes of home, and returns once they are near. Several tasks call it at once.
    fn fetch(&self, offset: u64, length: u64);
}

/// Nothing is fetched.
#[derive(Clone, Copy, Debug)]
pub struct NoPrefetch;

impl Prefetch for NoPrefetch {
    fn is_any(&self) -> bool {
        false
    }

    fn pays(&self) -> bool {
        false
    }

    fn fetch(&self, _offset: u64, _length: u64) {}
}

/// Bytes of home.
#[derive(Clone, Copy, Debug, Drop)]
pub(crate) struct HomeRange {
    offset: u64,
    length: u64,
}

/// How many waiting requests are looked at.
const MOST: usize = 64;

/// Has the bytes fetched of each short read that stands in these bytes of the input, which begin with a request. It waits for nobody: what
/// finds no room is not fetched.
pub(crate) fn look<A: Prefetch, W: Wait>(rt: &W, ahead: &A, to: &Sender<HomeRange>, input: &[u8]) {
    if !ahead.pays() {
        return;
    }
    let mut rest = input;
    for _ in 0..MOST {
        let Some(request) = first(rest) else {
            return;
        };
        if request.command == READ && (request.length as usize) < LONG_BYTES {
            let (offset, length) = (request.offset, request.length as u64);
            let _full = to.try_send(rt, HomeRange { offset, length });
        }
        let Some(next) = rest.get(bytes_of(&request)..) else {
            return;
        };
        rest = next;
    }
}

/// The request that these bytes begin with.
fn first(bytes: &[u8]) -> Option<Request> {
    Request::read(bytes.get(..REQUEST_BYTES)?)
}

/// How many bytes of the input a request has, with those after it.
fn bytes_of(request: &Request) -> usize {
    if request.command == WRITE {
        return REQUEST_BYTES.saturating_add(request.length as usize);
    }
    REQUEST_BYTES
}

/// A task that fetches.
#[derive(Drop)]
pub(crate) struct Fetching<'m, A> {
    pub(crate) alloc: Global,
    pub(crate) ahead: &'m A,
    pub(crate) places: Receiver<HomeRange>,
}

impl<A: Prefetch> Fetching<'_, A> {
    /// Fetches until nothing more can come.
    pub(crate) fn run<W: Wait>(self, rt: &W) -> Done {
        for _ in rt.forever() {
            let Ok(place) = self.places.recv(rt) else {
                break;
            };
            self.ahead.fetch(place.offset, place.length);
        }
        Done::of_task(self.alloc, Tid(0), Ok(()))
    }
}
