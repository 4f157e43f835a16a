//! A close that finishes a commit asks for all its memory before its first device call. The gate refuses no request:
//! `tests/refused-memory/refused_memory.py` runs this test once for each request, and refuses it.
use crate::newest::{change, journal_on};
use block_device::MemDevice;
use group_commit::{Journal, Parts};
use journal_model::{JournalError, Sealed};
use std::alloc::Global;
use std::ops::Range;
use std::test::Fail;
use test_logs::{formatted, opened};

/// A journal whose record is kept as data.
type Kept = Journal<MemDevice, Vec<Sealed>>;

/// Room for a transaction of all the running blocks.
const LOG_BLOCKS: u32 = 129;

/// More blocks than a journal's lists and tables hold before they grow.
const RUNNING: Range<u64> = 10..30;

/// Writes a block, takes four turns of its commit, and writes other blocks.
fn commit_beside(journal: &mut Kept) -> Result<(), JournalError> {
    let ticket = change(journal, 9, 7)?;
    journal.request(&ticket)?;
    for _ in 0..4 {
        journal.commit_turn()?;
    }
    for block in RUNNING {
        let _running = change(journal, block, 7)?;
    }
    Ok(())
}

fn with_a_commit_under_way(alloc: Global) -> Result<Kept, JournalError> {
    let opened = opened(alloc, formatted(alloc, LOG_BLOCKS, 64)?)?;
    let mut journal = journal_on(alloc, opened)?;
    commit_beside(&mut journal)?;
    Ok(journal)
}

/// How many transactions are sealed and committed, and how many writes were made.
fn counts(parts: &Parts<MemDevice, Vec<Sealed>>) -> (usize, u64, u64) {
    (parts.sealed.len(), parts.committed, parts.device.writes())
}

fn unclosed(alloc: Global) -> Result<(usize, u64, u64), JournalError> {
    Ok(counts(&with_a_commit_under_way(alloc)?.into_parts()))
}

/// Closes the journal. Returns the refusal, if any, and the counts.
fn closed(alloc: Global) -> Result<(Option<JournalError>, (usize, u64, u64)), JournalError> {
    let journal = with_a_commit_under_way(alloc)?;
    if journal.has_open_handles() {
        return Ok((
            Some(JournalError::NotRunning),
            counts(&journal.into_parts()),
        ));
    }
    match journal.close() {
        Ok(parts) => Ok((None, counts(&parts))),
        Err((parts, e)) => Ok((Some(e), counts(&parts))),
    }
}

/// Prints the result of the close, unless an earlier request for memory was refused.
#[test]
fn a_close_takes_its_memory_before_its_first_call(rt: HostRuntime) -> Result<(), Fail> {
    let (Ok(before), Ok((refusal, left))) = (unclosed(rt.alloc()), closed(rt.alloc())) else {
        return Ok(());
    };
    assert_eq!(&rt; (before.0, before.1), (1, 0));
    match refusal {
        None => {
            assert_eq!(&rt; (left.0, left.1), (2, 2));
            println!(rt; "closed")?;
        }
        Some(e) => {
            assert!(&rt; e == JournalError::Device || e == JournalError::Memory && left == before);
            println!(rt; "refused {e:?}")?;
        }
    }
    Ok(())
}
