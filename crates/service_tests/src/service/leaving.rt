//! Zeros and trims of more than one handle end early once whoever asked for them has left.
use super::LOG_BLOCKS;
use crate::expected::expect;
use block_device::{Device, MemDevice};
use byte_volume::{Leaving, Stopped, Tickets, read_range, trim_range, write_range, write_zeros};
use journal_model::JournalError;
use shared_journal::{JournalName, Record, Unrecorded};
use std::alloc::Global;
use std::sync::Wait;
use std::test::Fail;
use std::thread::Threads;
use test_logs::{BLOCK_SIZE, formatted};
use thread_tests::journals::unnamed_on;
use volume_service::{Gate, NoInterval, OpenGate, Session, Task, do_tasks};

/// Blocks of home: many more than one handle has credits for.
const HOME_BLOCKS: u64 = 64;

/// The byte that shows that the one who asked has left.
const SIGN: u8 = 7;

/// Fills home with a byte, and has it zeroed or trimmed for somebody who may have left.
#[derive(Clone, Copy, Debug)]
struct Asker {
    alloc: Global,
    trims: bool,
    has_left: bool,
}

/// What the change answered, how many handles it had, and the first byte of home after it.
type Told = Result<(Option<u8>, usize, u8), JournalError>;

impl<D: Device, R: Record, G: Gate> Task<D, R, G> for Asker {
    type Answer = Told;

    fn run<J: JournalName, W: Wait>(self, rt: &W, session: &mut Session<'_, J, D, R, G>) -> Told
        ensures { Unit {0} }
    {
        let (alloc, length) = (self.alloc, HOME_BLOCKS as usize * BLOCK_SIZE);
        let (mut stopped, mut tickets) = (Stopped::new(), Tickets::new(alloc));
        let bytes = vec![in alloc; 65u8; length]?;
        write_range(rt, alloc, session, 0, &bytes, &mut stopped, &mut tickets)?;
        let leaving = Leaving::new();
        if self.has_left {
            leaving.show(rt, SIGN);
        }
        let (stopped, kept) = (&mut stopped, &mut tickets);
        let early = if self.trims {
            trim_range(rt, session, 0, length as u64, stopped, kept, &leaving)?
        } else {
            write_zeros(rt, alloc, session, 0, length, stopped, kept, &leaving)?
        };
        let mut first = [0u8];
        read_range(rt, alloc, session, 0, &mut first)?;
        Ok((early, tickets.into_list().len(), first[0]))
    }
}

/// Runs one such task over a new log in memory.
fn ask<R: Threads + Wait + Sync>(
    rt: &R,
    alloc: Global,
    trims: bool,
    has_left: bool,
) -> Result<Vec<Told>, JournalError> {
    let mut tasks = Vec::new(alloc);
    tasks.push(Asker {
        alloc,
        trims,
        has_left,
    })?;
    let device: MemDevice = formatted(alloc, LOG_BLOCKS, HOME_BLOCKS)?;
    let unnamed = unnamed_on::<MemDevice, Unrecorded>(alloc, device)?;
    match do_tasks(rt, alloc, unnamed, tasks, &OpenGate, &NoInterval) {
        Ok(done) => Ok(done.answers),
        Err((_, e)) => Err(e),
    }
}

#[test]
fn zeros_and_trims_for_nobody_end_early(rt: HostRuntime) -> Result<(), Fail> {
    for trims in [false, true] {
        let Ok(told) = ask(&rt, rt.alloc(), trims, true) else {
            return Err("the task is not run".into());
        };
        expect(&rt, &told.first(), &Some(&Ok((Some(SIGN), 0, 65))));
    }
    Ok(())
}

/// A handle has at most six credits, so that the zeros of 64 blocks have eleven.
#[test]
fn zeros_for_somebody_are_written_whole(rt: HostRuntime) -> Result<(), Fail> {
    let Ok(told) = ask(&rt, rt.alloc(), false, false) else {
        return Err("the task is not run".into());
    };
    expect(&rt, &told.first(), &Some(&Ok((None, 11, 0))));
    Ok(())
}
