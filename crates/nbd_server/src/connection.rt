//! Reads requests in a task. Performs those that take no time and want no commit; hands long changes and reads to other tasks.
use crate::ahead::{HomeRange, Prefetch, look};
use crate::answering::perform;
use crate::asked::{Asked, Gone};
use crate::done::Done;
use crate::export::{Export, Volume};
use crate::handing::hand_on;
use crate::queue::Queue;
use crate::replies::{Answer, Due, LONG_BYTES, Outlet};
use crate::taken::{Taken, volume_bytes};
use block_device::Device;
use byte_volume::{Stopped, Tickets};
use crossbeam_channel::Sender;
use nbd_protocol::numbers::{DISCONNECT, FLUSH, READ, TRIM, WRITE, WRITE_ZEROES};
use nbd_protocol::{REQUEST_BYTES, Request};
use shared_journal::{JournalName, Record};
use std::alloc::Global;
use std::io;
use std::io::{BufReader, Read, Write};
use std::sync::Wait;
use volume_service::Session;

#[derive(Drop)]
pub(crate) struct Connection<'m, I: Read + Drop, O: Write + Drop, A> {
    pub(crate) alloc: Global,
    pub(crate) export: Export<'m>,
    pub(crate) input: BufReader<I>,
    pub(crate) outlet: Outlet<'m, BufReader<I>, O>,
    /// The flusher's end of owed answers.
    pub(crate) owed: Sender<Due<BufReader<I>>>,
    /// Changes that another task makes.
    pub(crate) changes: Queue<BufReader<I>>,
    /// Long reads that other tasks perform.
    pub(crate) reads: Sender<Taken<BufReader<I>>>,
    pub(crate) ahead: &'m A,
    /// Bytes that other tasks fetch.
    pub(crate) places: Sender<HomeRange>,
}

impl<I: Read + Drop, O: Write + Drop, A: Prefetch> Connection<'_, I, O, A> {
    /// Serves the client until it ends.
    pub(crate) fn run<J: JournalName, D: Device, R: Record, W: Wait>(
        self,
        rt: &W,
        session: &mut Session<'_, J, D, R>,
    ) -> Done {
        let mut connection = self;
        let mut stopped = Stopped::new();
        let mut requests = 0;
        let said = connection.talk(rt, session, &mut stopped, &mut requests);
        let (end, left) = match said {
            Ok(left) => (Ok(()), left),
            Err(e) => (Err(e), true),
        };
        if left {
            connection.outlet.out.leaving.show(rt, Gone::new());
        }
        let sent = connection.outlet.send(rt);
        Done {
            requests,
            upto: stopped.upto(),
            committed: Vec::new(connection.alloc),
            end: end.and(sent),
        }
    }

    /// Shakes hands, then answers requests until the client ends. Returns whether it left without saying so.
    fn talk<J: JournalName, D: Device, R: Record, W: Wait>(
        &mut self,
        rt: &W,
        session: &mut Session<'_, J, D, R>,
        stopped: &mut Stopped,
        requests: &mut u64,
    ) -> io::Result<bool> {
        if !self.shake_hands(rt, session)? {
            return Ok(false);
        }
        let mut tickets = Tickets::new(self.alloc);
        for _ in rt.forever() {
            self.send_before_a_wait(rt, REQUEST_BYTES)?;
            let comes = self.input.buffer().len() < REQUEST_BYTES;
            let Some(asked) = Asked::next(&mut self.input)? else {
                return Ok(true);
            };
            if comes && asked.request().command == READ {
                look(rt, self.ahead, &self.places, self.input.buffer());
            }
            if asked.request().command == DISCONNECT {
                return Ok(false);
            }
            *requests = requests.saturating_add(1);
            self.send_before(rt, asked.request())?;
            let room = self.changes.room(rt, self.alloc);
            match Taken::take(session, &self.export, &mut self.input, asked, room)? {
                Ok(taken) => self.proceed(rt, session, stopped, &mut tickets, taken)?,
                Err((reply, room)) => {
                    self.changes.keep(room);
                    self.give(rt, Answer::Now(reply))?;
                }
            }
        }
        unreachable!()
    }

    /// Performs a request, or hands it on: a long read; a long change, and each change that comes before that is made.
    fn proceed<J: JournalName, D: Device, R: Record, W: Wait>(
        &mut self,
        rt: &W,
        session: &mut Session<'_, J, D, R>,
        stopped: &mut Stopped,
        tickets: &mut Tickets<J, R>,
        taken: Taken<BufReader<I>>,
    ) -> io::Result<()> {
        let (is_long, command) = (is_long(taken.request()), taken.request().command);
        if command == READ && is_long {
            return hand_on(rt, &self.reads, taken);
        }
        if is_change(command) && (is_long || !self.changes.is_idle()) {
            self.outlet.send(rt)?;
            return self.changes.push(rt, taken);
        }
        let mut no_room = Vec::new(self.alloc);
        let (alloc, no_room) = (self.alloc, &mut no_room);
        let leaving = &self.outlet.out.leaving;
        let (answer, payload) = perform(
            rt, alloc, session, stopped, taken, no_room, tickets, leaving,
        );
        self.changes.keep(payload);
        self.give(rt, answer)
    }

    /// Sends what was given, if the client has to be waited for before so many of its bytes are here.
    fn send_before_a_wait<W: Wait>(&mut self, rt: &W, wanted: usize) -> io::Result<()> {
        if self.input.buffer().len() < wanted {
            return self.outlet.send(rt);
        }
        Ok(())
    }

    /// Sends what was given before any request but a flush, and a write whose bytes are here. If such a write waits for a commit, so do
    /// the answers before it.
    fn send_before<W: Wait>(&mut self, rt: &W, request: &Request) -> io::Result<()> {
        match request.command {
            FLUSH => Ok(()),
            WRITE => self.send_before_a_wait(rt, request.length as usize),
            _ => self.outlet.send(rt),
        }
    }

    /// Makes the handshake; true if requests follow.
    fn shake_hands<J: JournalName, D: Device, R: Record, W: Wait>(
        &mut self,
        rt: &W,
        session: &Session<'_, J, D, R>,
    ) -> io::Result<bool> {
        let (block_size, capacity) = (session.block_size(), session.capacity());
        let description = format!(in self.alloc;
            "journal: a write of up to {capacity} blocks of {block_size} bytes is atomic"
        )?;
        let volume = Volume {
            export: self.export,
            description: description.as_str(),
            size: volume_bytes(session, self.export.nameable),
            block_size,
        };
        let (alloc, out) = (self.alloc, self.outlet.out);
        out.shake_hands(rt, alloc, &mut self.input, &volume)
    }

    /// Gives an answer, or hands it to the flusher.
    fn give<W: Wait>(&mut self, rt: &W, answer: Answer<BufReader<I>>) -> io::Result<()> {
        match self.outlet.give(rt, answer)? {
            Some(due) => hand_on(rt, &self.owed, due),
            None => Ok(()),
        }
    }
}

/// Whether a request is for so many bytes that others are not to wait for it.
fn is_long(request: &Request) -> bool {
    request.length as usize >= LONG_BYTES
}

/// Whether a request of this kind changes the volume.
fn is_change(command: u16) -> bool {
    command == WRITE || command == WRITE_ZEROES || command == TRIM
}
