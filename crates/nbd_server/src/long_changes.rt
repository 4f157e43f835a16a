//! The task that performs the changes that take long, and those that come after them, while others are read.
use crate::answering::perform;
use crate::asked::{Gone, Payload};
use crate::done::Done;
use crate::handing::hand_on;
use crate::replies::{Answer, Due, Outlet, Reply};
use crate::taken::Taken;
use block_device::Device;
use byte_volume::{Stopped, Tickets};
use crossbeam_channel::{Receiver, Sender};
use shared_journal::{JournalName, Record};
use std::alloc::Global;
use std::io;
use std::io::Write;
use std::sync::Wait;
use volume_service::Session;

#[derive(Drop)]
pub(crate) struct LongChanges<'m, I: Drop, O: Write + Drop> {
    pub(crate) alloc: Global,
    pub(crate) outlet: Outlet<'m, I, O>,
    /// The changes, in the order in which they came.
    pub(crate) changes: Receiver<Taken<I>>,
    /// The memory of each change that was made.
    pub(crate) back: Sender<Payload<I>>,
    /// The flusher's end of owed answers.
    pub(crate) owed: Sender<Due<I>>,
}

impl<I: Drop, O: Write + Drop> LongChanges<'_, I, O> {
    /// Makes the changes, in order, until no more can come.
    pub(crate) fn run<J: JournalName, D: Device, R: Record, W: Wait>(
        self,
        rt: &W,
        session: &mut Session<'_, J, D, R>,
    ) -> Done {
        let mut changes = self;
        let mut stopped = Stopped::new();
        let end = changes.change_all(rt, session, &mut stopped);
        let sent = changes.outlet.send(rt);
        Done::of_task(changes.alloc, stopped.upto(), end.and(sent))
    }

    /// As `run`. Once the client has left, what is still to be changed is given up, so that nothing is done after a change that ended early.
    fn change_all<J: JournalName, D: Device, R: Record, W: Wait>(
        &mut self,
        rt: &W,
        session: &mut Session<'_, J, D, R>,
        stopped: &mut Stopped,
    ) -> io::Result<()> {
        let mut tickets = Tickets::new(self.alloc);
        let mut room = Vec::new(self.alloc);
        for _ in rt.forever() {
            let Ok(taken) = self.changes.recv(rt) else {
                break;
            };
            let (alloc, leaving) = (self.alloc, &self.outlet.out.leaving);
            let (answer, payload) = match leaving.shown(rt) {
                None => {
                    let (room, tickets) = (&mut room, &mut tickets);
                    perform(rt, alloc, session, stopped, taken, room, tickets, leaving)
                }
                Some(gone) => give_up(taken, gone),
            };
            let _ended = self.back.send(rt, payload);
            self.give(rt, answer)?;
        }
        Ok(())
    }

    /// Gives an answer, or hands it to the flusher. Answers are sent together while changes wait.
    fn give<W: Wait>(&mut self, rt: &W, answer: Answer<I>) -> io::Result<()> {
        if let Some(due) = self.outlet.give(rt, answer)? {
            hand_on(rt, &self.owed, due)?;
        }
        if self.changes.is_empty() {
            return self.outlet.send(rt);
        }
        Ok(())
    }
}

/// The answer to a change that is not made, since its client has left.
fn give_up<I>(taken: Taken<I>, gone: Gone) -> (Answer<I>, Payload<I>) {
    let Taken { asked, payload } = taken;
    (Answer::Now(Reply::given_up(asked, gone)), payload)
}
