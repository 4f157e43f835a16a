//! Calls that need credits, a seal or a commit, in a thread that is alone: it takes the turns itself. Also over a device that fails.
ghost use Rattle.std.specs.Prelude.{◌≡◌};

use crate::expected::expect;
use crate::journals::unnamed_on;
use block_device::{Device, MemDevice, StopAt};
use journal_model::{BlockNo, JournalError, Tid};
use shared_journal::{Journal, JournalName, Seat, SharedHandle, UnnamedJournal};
use std::alloc::Global;
use std::marker::Brand;
use std::process::Abort;
use std::sync::Wait;
use std::test::Fail;
use test_logs::formatted;

/// The state of a journal before the calls.
#[derive(Drop)]
enum Before {
    /// The entries of the running transaction hold all credits.
    Full,
    /// The running transaction has an entry, takes no more handles, and is not sealed.
    Locked,
    /// A transaction is sealed, and the entries of the running one hold all credits.
    Sealed,
}

/// Writes this many blocks through a handle.
fn write_blocks<J: JournalName, D: Device, R: Wait>(
    rt: &R,
    journal: &Journal<J, D>,
    handle: &mut SharedHandle<'_, J>,
    blocks: u64,
) -> Result<(), JournalError> {
    if journal.block_size() != 1024 {
        return Err(JournalError::BadBlockSize);
    }
    for block in 0..blocks {
        journal.write(rt, handle, BlockNo(block), &[7; 1024])?;
    }
    Ok(())
}

/// The same through a handle of its own, started without a wait.
fn fill<J: JournalName, D: Device, R: Wait>(
    rt: &R,
    journal: &Journal<J, D>,
    seat: &mut Seat<J>,
    blocks: u64,
) -> Result<(), JournalError> {
    let mut handle = journal.try_start(rt, seat, blocks)?;
    let written = write_blocks(rt, journal, &mut handle, blocks);
    journal.stop(rt, handle);
    written
}

/// Brings a new journal to this state.
fn prepare<J: JournalName, D: Device, R: Wait>(
    rt: &R,
    journal: &Journal<J, D>,
    seat: &mut Seat<J>,
    before: &Before,
) -> Result<(), JournalError> {
    match before {
        Before::Full => fill(rt, journal, seat, journal.capacity()),
        Before::Locked => {
            fill(rt, journal, seat, 1)?;
            journal.lock(rt)?;
            Ok(())
        }
        Before::Sealed => {
            fill(rt, journal, seat, 1)?;
            journal.lock(rt)?;
            journal.commit_turn(rt)?;
            fill(rt, journal, seat, journal.capacity())
        }
    }
}

/// Writes a block with one credit, restarts with all credits, stops, and waits for the receipt. Returns both transactions.
fn go_through<J: JournalName, D: Device, R: Wait>(
    rt: &R,
    journal: &Journal<J, D>,
    mut seat: Seat<J>,
) -> Result<(Tid, Tid), JournalError> {
    let mut handle = journal.start(rt, &mut seat, 1)?;
    let first = handle.tid();
    let written = write_blocks(rt, journal, &mut handle, 1);
    let ticket = match journal.restart(rt, handle, &mut seat, journal.capacity()) {
        Ok(other) => journal.stop(rt, other),
        Err((_, e)) => return Err(e),
    };
    written?;
    match journal.wait(rt, ticket) {
        Ok(receipt) => {
            let mut receipt = receipt;
            journal.audit(rt, &mut receipt);
            Ok((first, receipt.tid()))
        }
        Err((_, e)) => Err(e),
    }
}

/// Prepares a journal so that a start without a wait is refused, and goes through. Returns the result, and how many transactions are
/// committed after the close.
fn waited<J: JournalName, R: Wait + Abort>(
    rt: &R,
    unnamed: UnnamedJournal<StopAt<MemDevice>>,
    before: &Before,
) -> (Result<(Tid, Tid), JournalError>, u64)
    requires name { unnamed.name ≡ J.name }
{
    let (journal, mut seat) = unnamed.named::<J>();
    expect(rt, &prepare(rt, &journal, &mut seat, before), &Ok(()));
    match journal.try_start(rt, &mut seat, 1) {
        Ok(handle) => {
            journal.stop(rt, handle);
            panic!(rt; "there is nothing to wait for")
        }
        Err(e) => assert!(rt; matches!(e, JournalError::Full | JournalError::NotRunning)),
    }
    let gone = go_through(rt, &journal, seat);
    match journal.close() {
        Ok(parts) => (gone, parts.committed),
        Err((parts, _)) => (gone, parts.committed),
    }
}

/// Over an empty log of 33 blocks in memory, on a device that crashes at write `stop`; 0 is never. A transaction has at most six credits.
fn waited_over<R: Wait + Abort>(
    rt: &R,
    alloc: Global,
    stop: u64,
    before: &Before,
) -> Result<(Result<(Tid, Tid), JournalError>, u64), JournalError> {
    let device = StopAt::new(formatted(alloc, 33, 64)?, stop);
    let unnamed = unnamed_on(alloc, device)?;
    Ok(waited::<Brand, _>(rt, unnamed, before))
}

/// A start commits a transaction whose entries hold the credits, one that is locked, though credits are left, or one that is sealed and
/// the next. A restart and a wait commit two more. If the device fails in the first of these commits, the start is refused.
#[test]
fn a_start_and_a_wait_commit_alone(rt: HostRuntime) -> Result<(), Fail> {
    for (before, stop, expected) in [
        (Before::Full, 0, (Ok((Tid(3), Tid(4))), 3)),
        (Before::Locked, 0, (Ok((Tid(3), Tid(4))), 3)),
        (Before::Sealed, 0, (Ok((Tid(4), Tid(5))), 4)),
        (Before::Sealed, 1, (Err(JournalError::Aborted), 0)),
    ] {
        expect(
            &rt,
            &waited_over(&rt, rt.alloc(), stop, &before)?,
            &expected,
        );
    }
    Ok(())
}
