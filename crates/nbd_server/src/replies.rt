//! Answers to requests, when each may be given, and the one output.
ghost use Rattle.std.specs.Prelude.{◌≡◌, ◌≢◌, ◌≤◌, ◌+◌, length, take, IfErr, IfOk, IfSome};
ghost use Rattle.nbd_protocol.specs.Layout.{simple_reply};
ghost use Rattle.nbd_protocol.specs.Requests.{WantsCommit};
ghost use Rattle.byte_volume.specs.Writing.{AreNoted};
ghost use Rattle.nbd_server.specs.Answers.{AnswersRead, IsDone, IsOwedTo};
ghost use Rattle.nbd_server.specs.Causes.{ReadFails, error_number};
ghost use Rattle.nbd_server.specs.declared.replies.Answer.TheVariants.{Later};

use crate::asked::{Asked, Gone, Payload};
use crate::export::Volume;
use crate::handshake::shake_hands;
use block_device::Device;
use byte_volume::{Committed, Leaving, Stopped, Tickets, read_range};
use journal_model::{JournalError, Tid};
use nbd_protocol::numbers::{EINVAL, EIO, ENOMEM, ESHUTDOWN};
use nbd_protocol::{REPLY_BYTES, Request, write_reply};
use shared_journal::{JournalName, Record};
use std::alloc::{AllocError, Global};
use std::io::{Read, Write};
use std::marker::{Model, PhantomData};
use std::sync::{Mutex, Wait};
use std::{io, mem};
use volume_service::Session;

/// An answer with this many bytes is long.
pub(crate) const LONG_BYTES: usize = 65_536;

/// An owed answer to a flush, or to a change with `FUA` that was made: it may come once all transactions up to a number are committed. It
/// is made of the request, which only an input of type I makes.
#[derive(Drop)]
pub struct Due<I> {
    cookie: u64,
    upto: Tid,
    of: PhantomData<I>,
}

impl<I> Model for Due<I> {
    ghost use Rattle.nbd_server.specs.Owing.{DueValue};

    ghost Value = { DueValue };

    ghost view = { λ d. record { cookie = d.cookie; upto = d.upto } };
}

impl<I> Due<I> {
    /// The owed answer of a request that was done, by the handles of these tickets. Its number covers them, and every handle that has
    /// stopped, of this connection or another. It takes the journal's lock.
    /// Source: fs/jbd2/journal.c by behaviour (`jbd2_journal_start_commit`).
    pub fn of<J: JournalName, D: Device, R: Record, W: Wait>(
        rt: &W,
        session: &Session<'_, J, D, R>,
        asked: Asked<I>,
        _payload: &Payload<I>,
        _tickets: &Tickets<J, R>,
        stopped: &Stopped,
    ) -> Due<I>
        requires done { IsDone D.state D.honest J.name J.name.shape.block_size J.name.capacity asked _payload.now _tickets.now }
        requires noted { AreNoted stopped.now _tickets.now }
        ensures { IsOwedTo D.state D.honest J.name asked stopped.now result }
    {
        let (last, noted) = (session.last_joined(rt), stopped.upto());
        let upto = if last.0 < noted.0 { noted } else { last };
        Due {
            cookie: asked.request().cookie,
            upto,
            of: PhantomData,
        }
    }

    /// The request's cookie.
    pub fn cookie(&self) -> u64
        ensures { result ≡ self.now.cookie }
    {
        self.cookie
    }

    /// The number up to which all transactions must be committed.
    pub fn upto(&self) -> Tid
        ensures { result ≡ self.now.upto }
    {
        self.upto
    }
}

/// An answer without bytes after it, to a request of an input of type I.
#[derive(Drop)]
pub struct Reply<I> {
    bytes: [u8; REPLY_BYTES],
    of: PhantomData<I>,
}

impl<I> Model for Reply<I> {
    ghost use Rattle.std.specs.Prelude.{ℕ, List};

    ghost Value = { List ℕ };

    ghost view = { λ r. r.bytes };
}

impl<I> Reply<I> {
    /// An answer with this error, or 0 for success.
    fn new(error: u32, cookie: u64) -> Reply<I>
        ensures { result ≡ simple_reply error cookie }
    {
        let mut bytes = [0; REPLY_BYTES];
        write_reply(&mut bytes, error, cookie);
        Reply {
            bytes,
            of: PhantomData,
        }
    }

    /// An error.
    pub fn refused(asked: Asked<I>, error: u32) -> Reply<I>
        requires { error ≢ 0 }
        ensures { result ≡ simple_reply error asked.cookie }
    {
        Reply::new(error, asked.request().cookie)
    }

    /// The error of a change that ended early, since its client has left.
    pub fn given_up(asked: Asked<I>, _gone: Gone) -> Reply<I>
        ensures { result ≡ simple_reply 108 asked.cookie }
    {
        Reply::new(ESHUTDOWN, asked.request().cookie)
    }

    /// Success of a request that was done, by the handles of these tickets, and wants no commit.
    pub fn done<J: JournalName, D: Device, R: Record>(
        _session: &Session<'_, J, D, R>,
        asked: Asked<I>,
        _payload: &Payload<I>,
        _tickets: &Tickets<J, R>,
    ) -> Reply<I>
        requires change { asked.command ≢ 0 }
        requires done { IsDone D.state D.honest J.name J.name.shape.block_size J.name.capacity asked _payload.now _tickets.now }
        requires at_once { WantsCommit asked → ⊥ }
        ensures { result ≡ simple_reply 0 asked.cookie }
    {
        Reply::new(0, asked.request().cookie)
    }

    /// Success of an owed answer, with a receipt for its transactions.
    pub fn committed(due: Due<I>, receipt: &Committed) -> Reply<I>
        requires { due.upto ≤ receipt.now }
        ensures { result ≡ simple_reply 0 due.cookie }
    {
        let _no_earlier = receipt.upto();
        Reply::new(0, due.cookie)
    }

    /// The error for an owed answer whose wait was refused.
    pub fn not_committed(due: Due<I>, why: JournalError) -> Reply<I>
        ensures { result ≡ simple_reply (error_number why) due.cookie }
    {
        Reply::new(error_of(why), due.cookie)
    }
}

/// As many bytes as wanted; many are those of `room`, if it has as many.
fn take_room(alloc: Global, wanted: usize, room: &mut Vec<u8>) -> Result<Vec<u8>, AllocError>
    ensures { IfOk result (λ bytes. length bytes.items ≡ wanted) }
{
    if wanted < LONG_BYTES || room.len() < wanted {
        return vec![in alloc; 0u8; wanted];
    }
    let mut bytes = mem::replace(room, Vec::new(alloc));
    bytes.truncate(wanted);
    Ok(bytes)
}

/// A read's success, with its bytes, to a request of an input of type I.
#[derive(Drop)]
pub struct ReadReply<I> {
    bytes: Vec<u8>,
    of: PhantomData<I>,
}

impl<I> Model for ReadReply<I> {
    ghost use Rattle.std.specs.Prelude.{ℕ, List};

    ghost Value = { List ℕ };

    ghost view = { λ r. r.bytes.items };
}

/// The answer's header, with room for the bytes after it. A long one takes the memory of `room`.
fn begin_read(alloc: Global, request: &Request, room: &mut Vec<u8>) -> Result<Vec<u8>, AllocError>
    ensures length { IfOk result (λ bytes. length bytes.items ≡ 16 + request.now.length) }
    ensures head { IfOk result (λ bytes. take 16 bytes.items ≡ simple_reply 0 request.now.cookie) }
{
    let length = REPLY_BYTES + request.length as usize;
    let mut bytes = take_room(alloc, length, room)?;
    write_reply(&mut bytes, 0, request.cookie);
    Ok(bytes)
}

/// The bytes of a read's success.
fn read_bytes<J: JournalName, D: Device, R: Record, W: Wait>(
    rt: &W,
    alloc: Global,
    session: &Session<'_, J, D, R>,
    request: &Request,
    room: &mut Vec<u8>,
) -> Result<Vec<u8>, JournalError>
    ensures ok { IfOk result (λ bytes. AnswersRead D.state D.honest J.name J.name.shape.block_size request.now bytes.items) }
    ensures err { IfErr result (ReadFails D.state request.now) }
{
    let mut bytes = begin_read(alloc, request, room)?;
    read_range(
        rt,
        alloc,
        session,
        request.offset,
        &mut bytes[REPLY_BYTES..],
    )?;
    Ok(bytes)
}

impl<I> ReadReply<I> {
    /// Answers a read with the newest bytes of each block. A long answer uses the memory of `room`.
    ///
    /// # Errors
    ///
    /// The request comes back. Those of `byte_volume::read_range`.
    pub fn read<J: JournalName, D: Device, R: Record, W: Wait>(
        rt: &W,
        alloc: Global,
        session: &Session<'_, J, D, R>,
        asked: Asked<I>,
        room: &mut Vec<u8>,
    ) -> Result<ReadReply<I>, (Asked<I>, JournalError)>
        requires read { asked.command ≡ 0 }
        ensures ok { IfOk result (AnswersRead D.state D.honest J.name J.name.shape.block_size asked) }
        ensures err { IfErr result (λ e. (e.0 ≡ asked) × ReadFails D.state asked e.1) }
    {
        match read_bytes(rt, alloc, session, asked.request(), room) {
            Ok(bytes) => Ok(ReadReply {
                bytes,
                of: PhantomData,
            }),
            Err(e) => Err((asked, e)),
        }
    }

    /// The memory of an answer that was given.
    pub(crate) fn into_room(self) -> Vec<u8> {
        let ReadReply { bytes, of: _ } = self;
        bytes
    }

    /// Whether it has so many bytes that another task is to send it.
    fn is_long(&self) -> bool {
        self.bytes.len() >= LONG_BYTES
    }
}

/// An answer to a request of an input of type I.
#[derive(Drop)]
pub enum Answer<I> {
    /// Given at once, without bytes after it.
    Now(Reply<I>),
    /// A read's bytes.
    Bytes(ReadReply<I>),
    /// Given once a commit is done.
    Later(Due<I>),
}

/// The one output of answers to requests of an input of type I. An answer is written whole: no other thread's bytes come between. If the
/// writer gathers what it is given, answers wait there for `send`.
#[derive(Drop)]
pub struct Output<I: Drop, O: Write + Drop> {
    out: Mutex<O>,
    /// The last long answer that was given: the next takes its memory.
    given: Mutex<Option<ReadReply<I>>>,
    /// Whether the client has left.
    pub(crate) leaving: Leaving<Gone>,
}

impl<I: Drop, O: Write + Drop> Output<I, O> {
    pub fn new(out: O) -> Self {
        Output {
            out: Mutex::new(out),
            given: Mutex::new(None),
            leaving: Leaving::new(),
        }
    }

    pub fn into_inner(self) -> O {
        let Output {
            out,
            given: _,
            leaving: _,
        } = self;
        out.into_inner()
    }

    /// Makes the handshake; true if requests follow.
    pub(crate) fn shake_hands<N: Read, W: Wait>(
        &self,
        rt: &W,
        alloc: Global,
        input: &mut N,
        volume: &Volume<'_>,
    ) -> io::Result<bool> {
        let mut out = self.out.lock(rt);
        shake_hands(rt, alloc, input, &mut *out, volume)
    }

    /// Gives an answer, or returns it if it is owed. A long one is sent, with all before it.
    pub fn give<W: Wait>(&self, rt: &W, answer: Answer<I>) -> io::Result<Option<Due<I>>>
        ensures { IfOk result (λ owed. IfSome owed (λ due. answer ≡ Later due)) }
    {
        match answer {
            Answer::Now(reply) => self.write(rt, &reply.bytes)?,
            Answer::Bytes(reply) => {
                self.write(rt, &reply.bytes)?;
                self.keep(rt, reply)?;
            }
            Answer::Later(due) => return Ok(Some(due)),
        }
        Ok(None)
    }

    /// Sends a long answer that was given, and keeps its memory.
    fn keep<W: Wait>(&self, rt: &W, reply: ReadReply<I>) -> io::Result<()> {
        if reply.is_long() {
            self.send(rt)?;
            *self.given.lock(rt) = Some(reply);
        }
        Ok(())
    }

    /// Lets a buffer have the memory of the last long answer that was given, if it is not in use again.
    pub(crate) fn lend<W: Wait>(&self, rt: &W, room: &mut Vec<u8>) {
        if let Some(reply) = self.given.lock(rt).take() {
            *room = reply.into_room();
        }
    }

    /// Writes bytes whole.
    fn write<W: Wait>(&self, rt: &W, bytes: &[u8]) -> io::Result<()> {
        self.out.lock(rt).write_all(bytes)
    }

    /// Sends the answers that were given.
    pub fn send<W: Wait>(&self, rt: &W) -> io::Result<()> {
        self.out.lock(rt).flush()
    }
}

/// A task's way to the output. It sends only if it gave an answer since: who sends waits for the answer that is being written.
#[derive(Drop)]
pub(crate) struct Outlet<'m, I: Drop, O: Write + Drop> {
    pub(crate) out: &'m Output<I, O>,
    /// Whether it gave an answer that it did not send.
    unsent: bool,
}

impl<'m, I: Drop, O: Write + Drop> Outlet<'m, I, O> {
    /// Nothing is given yet.
    pub(crate) fn new(out: &'m Output<I, O>) -> Self {
        Outlet { out, unsent: false }
    }

    /// Gives an answer, or returns it if it is owed.
    pub(crate) fn give<W: Wait>(
        &mut self,
        rt: &W,
        answer: Answer<I>,
    ) -> io::Result<Option<Due<I>>> {
        let owed = self.out.give(rt, answer)?;
        if owed.is_none() {
            self.unsent = true;
        }
        Ok(owed)
    }

    /// Sends what it gave.
    pub(crate) fn send<W: Wait>(&mut self, rt: &W) -> io::Result<()> {
        if !self.unsent {
            return Ok(());
        }
        self.unsent = false;
        self.out.send(rt)
    }
}

/// The error number for a refusal.
pub(crate) fn error_of(refusal: JournalError) -> u32
    ensures number { result ≡ error_number refusal }
    ensures some { result ≢ 0 }
{
    match refusal {
        JournalError::Memory => ENOMEM,
        JournalError::BadBlock | JournalError::TooMany => EINVAL,
        _ => EIO,
    }
}
