//! What nobody waits for is committed once the interval has passed.
use super::{LOG_BLOCKS, stop_one};
use crate::expected::expect;
use crate::late::fail_if_late;
use block_device::{Device, MemDevice};
use crossbeam_channel::Receiver;
use journal_model::{JournalError, Status};
use shared_journal::{JournalName, Record, Unrecorded};
use std::alloc::Global;
use std::sync::Wait;
use std::test::Fail;
use std::thread::Threads;
use test_logs::formatted;
use thread_tests::journals::unnamed_on;
use volume_service::{Gate, Interval, OpenGate, Session, Task, do_tasks};

/// An interval that has passed as soon as it begins.
#[derive(Clone, Copy, Debug)]
struct AtOnce;

impl Interval for AtOnce {
    fn is_any(&self) -> bool {
        true
    }

    fn pass<T: Drop>(&self, _from: &Receiver<T>) {}
}

/// Stops handles, one after another, and looks at the status of each until it is committed. It never waits for a commit.
#[derive(Clone, Copy, Debug)]
struct Looker {
    alloc: Global,
}

/// How many handles.
const HANDLES: u64 = 3;

impl<D: Device, R: Record, G: Gate> Task<D, R, G> for Looker {
    type Answer = Result<u64, JournalError>;

    fn run<J: JournalName, W: Wait>(
        self,
        rt: &W,
        session: &mut Session<'_, J, D, R, G>,
    ) -> Result<u64, JournalError>
        ensures { Unit {0} }
    {
        let mut committed = 0u64;
        for k in 0..HANDLES {
            let ticket = stop_one(rt, self.alloc, session, 1, k, 65)?;
            for _ in rt.forever() {
                if session.status(&ticket) == Status::Committed {
                    committed = committed.saturating_add(1);
                    break;
                }
            }
        }
        Ok(committed)
    }
}

/// How many of its handles one such task saw committed.
fn look<R: Threads + Wait + Sync>(rt: &R, alloc: Global) -> Result<u64, JournalError> {
    let mut tasks = Vec::new(alloc);
    tasks.push(Looker { alloc })?;
    let device: MemDevice = formatted(alloc, LOG_BLOCKS, HANDLES)?;
    let unnamed = unnamed_on::<MemDevice, Unrecorded>(alloc, device)?;
    match do_tasks(rt, alloc, unnamed, tasks, &OpenGate, &AtOnce) {
        Ok(done) => match done.answers.first() {
            Some(answer) => *answer,
            None => Err(JournalError::Memory),
        },
        Err((_, e)) => Err(e),
    }
}

#[test]
fn what_nobody_waits_for_is_committed_after_the_interval(rt: HostRuntime) -> Result<(), Fail> {
    fail_if_late(rt)?;
    expect(&rt, &look(&rt, rt.alloc()), &Ok(HANDLES));
    Ok(())
}
