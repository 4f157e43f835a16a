//! Rounds that nobody asks for: a part by who leads, before the next commit, and whole ones by the checkpoint worker. How many transactions
//! an opening then finds tells whether they were made.
ghost use Rattle.std.specs.Prelude.{◌≡◌};

use super::gates::LOOKS;
use super::{LOG_BLOCKS, serve_all, stop_one};
use crate::expected::expect;
use crate::late::fail_if_late;
use block_device::{Device, MemDevice};
use journal_model::{JournalError, Status};
use shared_journal::{JournalName, Record, SharedTicket, UnnamedJournal};
use std::alloc::Global;
use std::marker::Brand;
use std::process::Abort;
use std::sync::Wait;
use std::test::Fail;
use std::thread::{self, Threads};
use test_logs::{formatted, opened};
use thread_tests::journals::unnamed_on;
use volume_service::{Client, Gate, Session};

/// A client that has groups of handles committed, one group after the other.
#[derive(Clone, Copy, Debug)]
struct Groups {
    alloc: Global,
    groups: u64,
    /// Handles of a group; each writes a block of its own.
    handles: u64,
    /// Whether it waits for each group. If not, it looks until another thread has committed it.
    waits: bool,
}

/// How many groups were committed before the next one began.
type Told = Result<u64, JournalError>;

impl<J: JournalName, D: Device, R: Record, G: Gate> Client<J, D, R, G> for Groups {
    type Answer = Told;

    fn run<W: Wait>(self, rt: &W, session: &mut Session<'_, J, D, R, G>) -> Told
        ensures { Unit {0} }
    {
        let mut committed = 0u64;
        for _ in 0..self.groups {
            let mut last = stop_one(rt, self.alloc, session, 1, 0, 7)?;
            for block in 1..self.handles {
                last = stop_one(rt, self.alloc, session, 1, block, 7)?;
            }
            if self.comes_to_commit(rt, session, &last)? {
                committed = committed.saturating_add(1);
            }
        }
        Ok(committed)
    }
}

impl Groups {
    /// Waits for a ticket's transaction, or looks. Whether it is committed.
    fn comes_to_commit<J: JournalName, D: Device, R: Record, G: Gate, W: Wait>(
        &self,
        rt: &W,
        session: &mut Session<'_, J, D, R, G>,
        ticket: &SharedTicket<J, R>,
    ) -> Result<bool, JournalError> {
        if self.waits {
            session.wait_for(rt, ticket.tid())?;
            return Ok(session.status(ticket) == Status::Committed);
        }
        for _ in 0..LOOKS {
            if session.status(ticket) == Status::Committed {
                return Ok(true);
            }
            thread::yield_now();
        }
        Ok(false)
    }
}

/// Runs them over a journal of this name.
fn serve<J: JournalName + Send + Sync, R: Threads + Wait + Sync>(
    rt: &R,
    alloc: Global,
    unnamed: UnnamedJournal<MemDevice>,
    clients: Vec<Groups>,
) -> Result<(Vec<Told>, MemDevice), JournalError>
    requires name { unnamed.name ≡ J.name }
{
    serve_all::<J, _, _, _>(rt, alloc, unnamed, clients)
}

/// Runs such a client over a new log. Returns its answer, and how many transactions an opening finds.
fn left<R: Threads + Wait + Sync>(
    rt: &R,
    alloc: Global,
    (groups, handles, waits): (u64, u64, bool),
) -> Result<(Vec<Told>, u64), JournalError> {
    let mut clients = Vec::new(alloc);
    clients.push(Groups {
        alloc,
        groups,
        handles,
        waits,
    })?;
    let unnamed = unnamed_on(alloc, formatted(alloc, LOG_BLOCKS, 64)?)?;
    let (told, device) = serve::<Brand, _>(rt, alloc, unnamed, clients)?;
    Ok((told, opened(alloc, device)?.report().transactions))
}

/// Asserts how many of so many groups are committed in time, and how many transactions an opening finds.
fn expect_left<R: Threads + Wait + Abort + Sync>(
    rt: &R,
    alloc: Global,
    groups: (u64, u64, bool),
    expected: u64,
) -> Result<(), JournalError> {
    let (told, left) = left(rt, alloc, groups)?;
    expect(rt, &told.first(), &Some(&Ok(groups.0)));
    expect(rt, &left, &expected);
    Ok(())
}

/// Six commits of one block take more than half of the ring, and a seventh leader makes the round that is then due. One that never does
/// leaves all nine.
#[test]
fn a_leader_makes_the_part_of_a_round_that_is_owed(rt: HostRuntime) -> Result<(), Fail> {
    fail_if_late(rt)?;
    expect_left(&rt, rt.alloc(), (6, 1, true), 6)?;
    expect_left(&rt, rt.alloc(), (9, 1, true), 3)?;
    Ok(())
}

/// Three handles take half of the credits, so that the commit worker commits them. Four such commits take more than half of the ring, and
/// the checkpoint worker makes the round: nobody leads after them.
#[test]
fn what_nobody_waits_for_is_committed_and_brought_home(rt: HostRuntime) -> Result<(), Fail> {
    fail_if_late(rt)?;
    expect_left(&rt, rt.alloc(), (3, 3, false), 3)?;
    expect_left(&rt, rt.alloc(), (4, 3, false), 0)?;
    Ok(())
}
