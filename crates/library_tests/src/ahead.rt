//! Commits by single turns: with room kept ahead of need no seal lacks room.
use crate::expected::expect;
use crate::newest::{change, journal_on};
use block_device::MemDevice;
use group_commit::{Journal, Turn};
use journal_model::JournalError;
use std::alloc::Global;
use std::test::Fail;
use test_logs::{formatted, opened};

/// Four times as many commits of three log blocks as a ring of 32 takes.
const COMMITS: u64 = 40;

/// More turns than a commit of one block has.
const MOST_TURNS: u64 = 20;

/// Commits one change by turns, and returns how many it took; none if the ring lacks room.
fn turns_of(journal: &mut Journal<MemDevice>) -> Result<Option<u64>, JournalError> {
    let ticket = change(journal, 9, 0x11)?;
    journal.request(&ticket)?;
    for turns in 0..MOST_TURNS {
        match journal.commit_turn() {
            Ok(Turn::Committed(_)) => return Ok(Some(turns)),
            Ok(_) => {}
            Err(JournalError::NeedSpace) => return Ok(None),
            Err(e) => return Err(e),
        }
    }
    Err(JournalError::NotRunning)
}

/// How many commits are made before the ring lacks room. After each one room is kept, by as many turns as it had, or by none.
fn commits(journal: &mut Journal<MemDevice>, keeps: bool) -> Result<u64, JournalError> {
    for done in 0..COMMITS {
        let Some(turns) = turns_of(journal)? else {
            return Ok(done);
        };
        journal.keep_room(if keeps { turns } else { 0 })?;
    }
    Ok(COMMITS)
}

fn commits_on(alloc: Global, keeps: bool) -> Result<u64, JournalError> {
    let mut journal = journal_on(alloc, opened(alloc, formatted(alloc, 33, 64)?)?)?;
    commits(&mut journal, keeps)
}

#[test]
fn room_is_kept_ahead_of_need(rt: HostRuntime) -> Result<(), Fail> {
    expect(&rt, &commits_on(rt.alloc(), true), &Ok(COMMITS));
    expect(&rt, &commits_on(rt.alloc(), false), &Ok(10));
    Ok(())
}
