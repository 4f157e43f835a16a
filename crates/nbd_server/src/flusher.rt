//! The task that waits for commits, and gives the answers owed after them.
ghost use Rattle.std.specs.Prelude.{◌≡◌, ◌++◌, [], ◌∷◌, OnOk};
ghost use Rattle.nbd_server.specs.Answers.{Releases};

use crate::done::{Confirmed, Done};
use crate::replies::{Answer, Due, Outlet, Reply};
use block_device::Device;
use byte_volume::Committed;
use crossbeam_channel::Receiver;
use journal_model::Tid;
use shared_journal::{JournalName, Record};
use std::alloc::Global;
use std::io;
use std::io::{ErrorKind, Write};
use std::sync::Wait;
use volume_service::Session;

#[derive(Drop)]
pub(crate) struct Flusher<'m, I: Drop, O: Write + Drop> {
    pub(crate) alloc: Global,
    pub(crate) outlet: Outlet<'m, I, O>,
    /// The owed answers.
    pub(crate) owed: Receiver<Due<I>>,
    /// How many answers are recorded.
    pub(crate) keep: usize,
}

impl<I: Drop, O: Write + Drop> Flusher<'_, I, O> {
    /// Gives the owed answers, in order, until no more can come.
    pub(crate) fn run<J: JournalName, D: Device, R: Record, W: Wait>(
        self,
        rt: &W,
        session: &mut Session<'_, J, D, R>,
    ) -> Done {
        let mut flusher = self;
        let mut committed = Vec::new(flusher.alloc);
        let end = flusher.release_all(rt, session, &mut committed);
        let sent = flusher.outlet.send(rt);
        Done {
            requests: 0,
            upto: Tid(0),
            committed,
            end: end.and(sent),
        }
    }

    /// As `run`, and records answers. Those of one commit are sent together.
    fn release_all<J: JournalName, D: Device, R: Record, W: Wait>(
        &mut self,
        rt: &W,
        session: &mut Session<'_, J, D, R>,
        committed: &mut Vec<Confirmed>,
    ) -> io::Result<()> {
        let mut reached = Tid(0);
        for _ in rt.forever() {
            let Ok(due) = self.owed.recv(rt) else {
                break;
            };
            let (cookie, upto) = (due.cookie(), due.upto());
            if reached.0 < upto.0 {
                self.outlet.send(rt)?;
            }
            let (reply, is_committed) = release(rt, session, due);
            if is_committed {
                reached = upto;
            }
            self.outlet.give(rt, Answer::Now(reply))?;
            if self.owed.is_empty() {
                self.outlet.send(rt)?;
            }
            if is_committed && committed.len() < self.keep {
                register(committed, Confirmed { cookie, upto })?;
            }
        }
        Ok(())
    }
}

/// Adds this answer to the recorded ones.
fn register(committed: &mut Vec<Confirmed>, answer: Confirmed) -> io::Result<()>
    ensures { OnOk result (committed.new.items ≡ committed.old.items ++ answer ∷ []) }
{
    match committed.push(answer) {
        Ok(()) => Ok(()),
        Err(_) => Err(io::Error::from(ErrorKind::OutOfMemory)),
    }
}

/// Waits for the commit of an owed answer. Returns the answer, and whether it is a success, which needs a receipt.
pub fn release<J: JournalName, D: Device, R: Record, I, W: Wait>(
    rt: &W,
    session: &mut Session<'_, J, D, R>,
    due: Due<I>,
) -> (Reply<I>, bool)
    ensures { Releases D due session.new.seat.seen result.0 result.1 }
{
    match Committed::wait_for(rt, session, due.upto()) {
        Ok(receipt) => (Reply::committed(due, &receipt), true),
        Err(e) => (Reply::not_committed(due, e), false),
    }
}
