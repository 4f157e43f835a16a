//! A task that performs long reads and sends their answers, while the next requests are read.
use crate::answering::perform;
use crate::done::Done;
use crate::replies::Output;
use crate::taken::Taken;
use block_device::Device;
use byte_volume::{Stopped, Tickets};
use crossbeam_channel::Receiver;
use journal_model::Tid;
use shared_journal::{JournalName, Record};
use std::alloc::Global;
use std::io;
use std::io::Write;
use std::sync::Wait;
use volume_service::Session;

#[derive(Drop)]
pub(crate) struct LongReads<'m, I: Drop, O: Write + Drop> {
    pub(crate) alloc: Global,
    pub(crate) out: &'m Output<I, O>,
    pub(crate) reads: Receiver<Taken<I>>,
}

impl<I: Drop, O: Write + Drop> LongReads<'_, I, O> {
    /// Answers reads until no more can come.
    pub(crate) fn run<J: JournalName, D: Device, R: Record, W: Wait>(
        self,
        rt: &W,
        session: &mut Session<'_, J, D, R>,
    ) -> Done {
        Done::of_task(self.alloc, Tid(0), self.read_all(rt, session))
    }

    /// As `run`.
    fn read_all<J: JournalName, D: Device, R: Record, W: Wait>(
        &self,
        rt: &W,
        session: &mut Session<'_, J, D, R>,
    ) -> io::Result<()> {
        let (mut stopped, mut tickets) = (Stopped::new(), Tickets::new(self.alloc));
        let mut room = Vec::new(self.alloc);
        for _ in rt.forever() {
            let Ok(taken) = self.reads.recv(rt) else {
                break;
            };
            self.out.lend(rt, &mut room);
            let (alloc, leaving) = (self.alloc, &self.out.leaving);
            let (stopped, room, tickets) = (&mut stopped, &mut room, &mut tickets);
            let (answer, _none) = perform(
                rt, alloc, session, stopped, taken, room, tickets, leaving,
            );
            self.out.give(rt, answer)?;
            self.out.send(rt)?;
        }
        Ok(())
    }
}
