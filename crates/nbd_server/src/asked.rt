//! A request that the client sent, with the one right to answer it, and the bytes that it sent after it.
ghost use Rattle.std.specs.Prelude.{◌≡◌, [], true, false, ℕ, List, length, IfOk, IfSome, OnOk};
ghost use Rattle.std.specs.Io.KnownBytes.{Consumes};
ghost use Rattle.nbd_server.specs.Input.{TakesPayload, TakesRequest};

use crate::handshake::{begin, skip};
use crate::replies::LONG_BYTES;
use nbd_protocol::numbers::WRITE;
use nbd_protocol::{REQUEST_BYTES, Request};
use std::alloc::Global;
use std::io;
use std::io::{ErrorKind, Read};
use std::marker::{Model, PhantomData};

/// A request that was read from an input of type I, and the one right to answer it: an answer takes it, so there is one at most.
///
/// Only the next bytes of such an input make one. A function that is generic over I has no other input of that type, so each value is a
/// request of its client.
#[derive(Drop)]
pub struct Asked<I> {
    request: Request,
    of: PhantomData<I>,
}

impl<I> Model for Asked<I> {
    ghost use Rattle.nbd_protocol.specs.declared.request.Request.{Request};

    ghost Value = { Request };

    ghost view = { λ a. a.request };
}

impl<I: Read> Asked<I> {
    /// The next request of the client; `None` if it ended before one.
    ///
    /// # Errors
    ///
    /// `UnexpectedEof`: the client ended within it. `InvalidData`: these bytes are no request.
    pub fn next(input: &mut I) -> io::Result<Option<Asked<I>>>
        ensures { IfOk result (λ next. IfSome next (TakesRequest (Consumes (I.remaining input.old) (I.remaining input.new)))) }
    {
        let mut bytes = [0; REQUEST_BYTES];
        let whole = begin(input, &mut bytes)?;
        if !whole {
            return Ok(None);
        }
        match Request::read(&bytes) {
            Some(request) => Ok(Some(Asked {
                request,
                of: PhantomData,
            })),
            None => Err(io::Error::from(ErrorKind::InvalidData)),
        }
    }
}

impl<I> Asked<I> {
    /// What it asks.
    pub fn request(&self) -> &Request
        ensures { result.now ≡ self.now }
    {
        &self.request
    }
}

/// Shows that a client left without saying so: its input ended or failed. Only its connection makes one.
#[derive(Clone, Copy, Debug, Drop)]
pub struct Gone {
    _left: (),
}

impl Gone {
    pub(crate) fn new() -> Gone {
        Gone { _left: () }
    }
}

/// The most bytes of memory that a request keeps if it needs fewer: a short one may grow to that.
const KEPT_BYTES: usize = 2 * LONG_BYTES;

/// The bytes after a write, for the memory to be used again. Only the next bytes of an input of type I fill it.
#[derive(Drop)]
pub struct Payload<I> {
    bytes: Vec<u8>,
    of: PhantomData<I>,
}

impl<I> Model for Payload<I> {
    ghost use Rattle.std.specs.Prelude.{ℕ, List};

    ghost Value = { List ℕ };

    ghost view = { λ p. p.bytes.items };
}

impl<I> Payload<I> {
    /// No bytes. It takes no memory.
    pub fn new(alloc: Global) -> Self
        ensures { result ≡ [] }
    {
        Payload {
            bytes: Vec::new(alloc),
            of: PhantomData,
        }
    }

    /// The bytes.
    pub fn bytes(&self) -> &[u8]
        ensures { result.now ≡ self.now }
    {
        self.bytes.as_slice()
    }

    /// Gives memory back that is for more bytes than these, and for more than a short request may keep. Otherwise short changes that wait
    /// would hold the memory of long ones before them.
    fn fit(&mut self, count: usize) {
        if self.bytes.capacity() > count.max(KEPT_BYTES) {
            self.bytes = Vec::new(*self.bytes.allocator());
        }
    }
}

impl<I: Read> Payload<I> {
    /// Takes the bytes after a request, in place of what was there: for a write as many as it says, and else none. `false`: there is no
    /// memory for them, and none were taken.
    ///
    /// # Errors
    ///
    /// The client could not be read, or ended within them.
    pub fn take(&mut self, input: &mut I, request: &Request) -> io::Result<bool>
        ensures took { IfOk result (λ all. all ≡ true → TakesPayload request.now (Consumes (I.remaining input.old) (I.remaining input.new)) self.new) }
        ensures none { IfOk result (λ all. all ≡ false → (request.now.command ≡ 1) × (I.remaining input.new ≡ I.remaining input.old)) }
    {
        if request.command == WRITE {
            self.fit(request.length as usize);
            return fill(input, &mut self.bytes, request.length as usize);
        }
        self.fit(0);
        self.bytes.clear();
        Ok(true)
    }

    /// Skips the bytes after a request.
    ///
    /// # Errors
    ///
    /// The client could not be read, or ended within them.
    pub(crate) fn skip(input: &mut I, request: &Request) -> io::Result<()>
        ensures { OnOk result ((bytes : List ℕ) × TakesPayload request.now (Consumes (I.remaining input.old) (I.remaining input.new)) bytes) }
    {
        if request.command == WRITE {
            return skip(input, request.length);
        }
        Ok(())
    }
}

/// Fills a list with the next bytes of an input, this many. `false`: there is no memory for them, and none were taken.
fn fill<I: Read>(input: &mut I, bytes: &mut Vec<u8>, count: usize) -> io::Result<bool>
    ensures took { IfOk result (λ all. all ≡ true → Consumes (I.remaining input.old) (I.remaining input.new) bytes.new.items × (length bytes.new.items ≡ count)) }
    ensures none { IfOk result (λ all. all ≡ false → I.remaining input.new ≡ I.remaining input.old) }
{
    if bytes.resize(count, 0).is_err() {
        return Ok(false);
    }
    input.read_exact(bytes.as_mut_slice())?;
    Ok(true)
}
