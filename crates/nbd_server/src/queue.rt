//! A connection's end of the changes that another task performs.
use crate::asked::Payload;
use crate::handing::hand_on;
use crate::taken::Taken;
use crossbeam_channel::{Receiver, Sender};
use nbd_protocol::numbers::MOST_BYTES;
use std::alloc::Global;
use std::io;
use std::io::ErrorKind;
use std::sync::Wait;

/// How many changes may be handed on at once.
pub(crate) const MOST_CHANGES: usize = 64;

/// Changes that were handed on, and the memory of those that were made. They have the bytes of one longest write at most, so that memory
/// stays bounded; one that does not fit waits for those before it.
#[derive(Drop)]
pub(crate) struct Queue<I> {
    to: Sender<Taken<I>>,
    /// The memory of each change that was made.
    back: Receiver<Payload<I>>,
    /// How many were handed on, and are not back.
    count: usize,
    /// The bytes of these.
    bytes: usize,
    /// Memory for the next request.
    spare: Option<Payload<I>>,
}

impl<I> Queue<I> {
    /// No change is handed on.
    pub(crate) fn new(to: Sender<Taken<I>>, back: Receiver<Payload<I>>) -> Self {
        Queue {
            to,
            back,
            count: 0,
            bytes: 0,
            spare: None,
        }
    }

    /// Whether each change that was handed on is made.
    pub(crate) fn is_idle(&self) -> bool {
        self.back.len() >= self.count
    }

    /// Memory for the next request.
    pub(crate) fn room<W: Wait>(&mut self, rt: &W, alloc: Global) -> Payload<I> {
        if let Some(payload) = self.spare.take() {
            return payload;
        }
        match self.back.try_recv(rt) {
            Ok(payload) => {
                self.note_back(&payload);
                payload
            }
            Err(_) => Payload::new(alloc),
        }
    }

    /// Keeps the memory of a request that was not handed on.
    pub(crate) fn keep(&mut self, payload: Payload<I>) {
        self.spare = Some(payload);
    }

    /// Hands a change on, after those before it, once there is room.
    ///
    /// # Errors
    ///
    /// `BrokenPipe`: the other task has ended.
    pub(crate) fn push<W: Wait>(&mut self, rt: &W, change: Taken<I>) -> io::Result<()> {
        let length = change.bytes().len();
        for _ in 0..self.count {
            if self.has_room(length) {
                break;
            }
            match self.back.recv(rt) {
                Ok(payload) => self.note_back(&payload),
                Err(_) => return Err(io::Error::from(ErrorKind::BrokenPipe)),
            }
        }
        self.count = self.count.saturating_add(1);
        self.bytes = self.bytes.saturating_add(length);
        hand_on(rt, &self.to, change)
    }

    fn has_room(&self, length: usize) -> bool {
        self.count < MOST_CHANGES && self.bytes.saturating_add(length) <= MOST_BYTES as usize
    }

    fn note_back(&mut self, payload: &Payload<I>) {
        self.count = self.count.saturating_sub(1);
        self.bytes = self.bytes.saturating_sub(payload.bytes().len());
    }
}
