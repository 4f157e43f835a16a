//! Tasks over a device in memory: what a flush answers and leaves, alone and beside others; and a wait for a transaction that nobody has
//! joined yet.
use super::gates::pause;
use super::{LOG_BLOCKS, stop_one};
use crate::expected::expect;
use crate::late::fail_if_late;
use block_device::{Device, MemDevice};
use journal_model::{JournalError, Status, Tid};
use shared_journal::{JournalName, Record, Unrecorded};
use std::alloc::Global;
use std::sync::Wait;
use std::test::Fail;
use std::thread::Threads;
use test_logs::formatted;
use thread_tests::journals::unnamed_on;
use volume_service::{Gate, NoInterval, OpenGate, Session, Task, do_tasks};

/// Blocks of home.
const HOME_BLOCKS: u64 = 64;

/// How many tasks flush beside one another.
const TASKS: u64 = 8;

/// How many handles each of them has.
const HANDLES: u64 = 50;

/// The first transaction of a new log.
const FIRST: Tid = Tid(2);

/// What a task does.
#[derive(Clone, Copy, Debug)]
enum Job {
    /// Flushes an empty journal, flushes after three handles, and flushes again.
    Flushes,
    /// Waits for the first transaction.
    Awaits,
    /// Stops a handle after a while, and waits for nobody.
    Stops,
    /// Flushes after every fifth handle, and checks that its own are committed.
    Beside(u64),
}

#[derive(Clone, Copy, Debug)]
struct Worker {
    alloc: Global,
    job: Job,
}

/// A task's answer: numbers, and whether all is as expected.
type Told = Result<([Tid; 3], bool), JournalError>;

/// Returns the three numbers, and whether all three tickets then had their receipts without a wait.
fn flush_thrice<J: JournalName, D: Device, R: Record, G: Gate, W: Wait>(
    rt: &W,
    alloc: Global,
    session: &mut Session<'_, J, D, R, G>,
) -> Told {
    let empty = session.flush(rt)?;
    let first = stop_one(rt, alloc, session, 1, 3, 7)?;
    let second = stop_one(rt, alloc, session, 1, 4, 7)?;
    let last = stop_one(rt, alloc, session, 1, 4, 7)?;
    let before = session.last_joined(rt);
    let flushed = session.flush(rt)?;
    let committed = session.status(&first) == Status::Committed;
    let reached = [
        session.reach(first),
        session.reach(second),
        session.reach(last),
    ];
    let again = session.flush(rt)?;
    let all = reached.iter().all(|one| one.is_ok());
    let measures = session.home_blocks() == HOME_BLOCKS && session.block_size() > 0;
    Ok((
        [empty, flushed, again],
        committed && all && before == flushed && measures,
    ))
}

fn stop_later<J: JournalName, D: Device, R: Record, G: Gate, W: Wait>(
    rt: &W,
    alloc: Global,
    session: &mut Session<'_, J, D, R, G>,
) -> Told {
    pause();
    let tid = stop_one(rt, alloc, session, 1, 3, 7)?.tid();
    Ok(([tid, tid, tid], true))
}

/// Five handles, a flush, and a check of each ticket.
fn five_and_flush<J: JournalName, D: Device, R: Record, G: Gate, W: Wait>(
    rt: &W,
    alloc: Global,
    session: &mut Session<'_, J, D, R, G>,
    block: u64,
) -> Result<bool, JournalError> {
    let mut tickets = Vec::new(alloc);
    for n in 0..5u64 {
        let ticket = stop_one(rt, alloc, session, 1, block.saturating_add(n), 7)?;
        if tickets.push(ticket).is_err() {
            return Err(JournalError::Memory);
        }
    }
    let flushed = session.flush(rt)?;
    let mut all = true;
    for ticket in tickets {
        all = all && ticket.tid().0 <= flushed.0 && session.reach(ticket).is_ok();
    }
    Ok(all)
}

/// Returns whether its own handles were committed after each flush.
fn flush_beside<J: JournalName, D: Device, R: Record, G: Gate, W: Wait>(
    rt: &W,
    alloc: Global,
    session: &mut Session<'_, J, D, R, G>,
    block: u64,
) -> Told {
    let mut all = true;
    for _ in 0..HANDLES / 5 {
        all = five_and_flush(rt, alloc, session, block)? && all;
    }
    let last = session.last_joined(rt);
    session.wait_for(rt, last)?;
    Ok(([last, last, last], all))
}

impl<D: Device, R: Record, G: Gate> Task<D, R, G> for Worker {
    type Answer = Told;

    fn run<J: JournalName, W: Wait>(self, rt: &W, session: &mut Session<'_, J, D, R, G>) -> Told
        ensures { Unit {0} }
    {
        match self.job {
            Job::Flushes => flush_thrice(rt, self.alloc, session),
            Job::Awaits => {
                session.wait_for(rt, FIRST)?;
                Ok(([FIRST, FIRST, FIRST], true))
            }
            Job::Stops => stop_later(rt, self.alloc, session),
            Job::Beside(block) => flush_beside(rt, self.alloc, session, block),
        }
    }
}

/// Runs tasks over a new log in memory. Returns their answers, the committed transactions, and whether the journal was closed.
fn run<R: Threads + Wait + Sync>(
    rt: &R,
    alloc: Global,
    jobs: &[Job],
) -> Result<(Vec<Told>, u64, bool), JournalError> {
    let mut tasks = Vec::new(alloc);
    for job in jobs {
        tasks.push(Worker { alloc, job: *job })?;
    }
    let device: MemDevice = formatted(alloc, LOG_BLOCKS, HOME_BLOCKS)?;
    let unnamed = unnamed_on::<MemDevice, Unrecorded>(alloc, device)?;
    match do_tasks(rt, alloc, unnamed, tasks, &OpenGate, &NoInterval) {
        Ok(done) => Ok((done.answers, done.parts.committed, done.closed.is_ok())),
        Err((_, e)) => Err(e),
    }
}

#[test]
fn a_flush_has_all_stopped_handles_committed(rt: HostRuntime) -> Result<(), Fail> {
    let Ok((told, home, closed)) = run(&rt, rt.alloc(), &[Job::Flushes]) else {
        return Err("the task is not run".into());
    };
    let numbers = [Tid(1), Tid(2), Tid(2)];
    expect(&rt, &told.first(), &Some(&Ok((numbers, true))));
    expect(&rt, &(home, closed), &(1, true));
    Ok(())
}

/// Nothing is there to commit when two tasks begin to wait. If the stop of the third tells nobody, they wait for ever.
#[test]
fn a_wait_for_a_number_ends_though_nobody_has_joined_it_yet(rt: HostRuntime) -> Result<(), Fail> {
    fail_if_late(rt)?;
    let jobs = [Job::Awaits, Job::Awaits, Job::Stops];
    let Ok((told, _, closed)) = run(&rt, rt.alloc(), &jobs) else {
        return Err("the tasks are not run".into());
    };
    for one in &told {
        expect(&rt, one, &Ok(([FIRST, FIRST, FIRST], true)));
    }
    expect(&rt, &(told.len(), closed), &(3, true));
    Ok(())
}

#[test]
fn eight_tasks_flush_beside_one_another(rt: HostRuntime) -> Result<(), Fail> {
    fail_if_late(rt)?;
    let mut jobs = Vec::new(rt.alloc());
    for n in 0..TASKS {
        jobs.push(Job::Beside(n * 5))?;
    }
    let Ok((told, _, closed)) = run(&rt, rt.alloc(), &jobs) else {
        return Err("the tasks are not run".into());
    };
    expect(&rt, &told.len(), &8);
    expect(
        &rt,
        &told.iter().all(|one| matches!(one, Ok((_, true)))),
        &true,
    );
    expect(&rt, &closed, &true);
    Ok(())
}
