//! Two threads that share one journal over files.
ghost use Rattle.std.specs.Prelude.{◌≡◌};

use crate::expected::expect;
use crate::journals::unnamed_on;
use block_device::Device;
use file_device::{FileDevice, UnknownContents};
use journal_model::BlockNo;
use shared_journal::{
    Journal, JournalName, Seat, SharedTicket, Status, Tally, Turn, UnnamedJournal,
};
use std::fs::{File, OpenOptions};
use std::marker::Brand;
use std::process::Abort;
use std::sync::Wait;
use std::test::Fail;
use std::thread::{Threads, join};
use std::{fs, io};

/// Handles of each thread.
const HANDLES: u64 = 20;

/// Whether the ticket's handle has a greater number than that of an earlier ticket, and no earlier transaction.
fn follows<J: JournalName>(ticket: &SharedTicket<J>, before: &Option<SharedTicket<J>>) -> bool {
    match before {
        Some(before) => before.handle().0 < ticket.handle().0 && before.tid().0 <= ticket.tid().0,
        None => true,
    }
}

/// Writes blocks from `first` on, each through its own handle, which is started after the one before. Returns the last ticket.
fn write_all<J: JournalName, D: Device, R: Wait>(
    rt: &R,
    journal: &Journal<J, D>,
    mut seat: Seat<J>,
    first: u64,
) -> Option<SharedTicket<J>> {
    if journal.block_size() != 1024 {
        return None;
    }
    let bytes = [7; 1024];
    let mut last = None;
    for block in first..first.saturating_add(HANDLES) {
        match journal.start_after(rt, &mut seat, 1, &mut last) {
            Ok(handle) => {
                let mut handle = handle;
                let wrote = journal.write(rt, &mut handle, BlockNo(block), &bytes);
                let left = handle.left();
                let ticket = journal.stop(rt, handle);
                if wrote.is_err() || left != 0 || !follows(&ticket, &last) {
                    return None;
                }
                last = Some(ticket);
            }
            Err(_) => return None,
        }
    }
    last
}

/// Takes turns until the ticket's transaction is committed.
fn commit<J: JournalName, D: Device, R: Wait>(
    rt: &R,
    journal: &Journal<J, D>,
    ticket: &mut SharedTicket<J>,
) -> bool {
    if journal.request(rt, ticket).is_err() {
        return false;
    }
    for _ in 0..1000 {
        match journal.commit_turn(rt) {
            Ok(Turn::Committed(_)) => return true,
            Ok(_) => {}
            Err(_) => return false,
        }
    }
    false
}

fn write_at_once<J: JournalName + Send + Sync, D: Device + Send, R: Threads + Wait + Sync>(
    rt: &R,
    journal: &Journal<J, D>,
    one: Seat<J>,
    two: Seat<J>,
) -> Option<(SharedTicket<J>, SharedTicket<J>)> {
    let (first, second) = join(
        rt,
        || -> Option<SharedTicket<J>> { write_all(rt, journal, one, 0) },
        || -> Option<SharedTicket<J>> { write_all(rt, journal, two, 100) },
    );
    match (first, second) {
        (Some(first), Some(second)) => Some((first, second)),
        _ => None,
    }
}

/// Whether both tickets are of one committed transaction. The record confirms both receipts.
fn both_stand<J: JournalName, D: Device, R: Wait>(
    rt: &R,
    journal: &Journal<J, D>,
    first: SharedTicket<J>,
    second: SharedTicket<J>,
) -> bool {
    match (journal.reach(first), journal.reach(second)) {
        (Ok(first), Ok(second)) => {
            let (mut first, mut second) = (first, second);
            journal.audit(rt, &mut first);
            journal.audit(rt, &mut second);
            first.tid() == second.tid() && first.handle() != second.handle()
        }
        _ => false,
    }
}

/// Whether this many credits are granted.
fn all_are_left<J: JournalName, D: Device>(
    journal: &Journal<J, D>,
    seat: &mut Seat<J>,
    all: u64,
) -> bool {
    match journal.reserve(seat, all) {
        Ok(credits) => {
            journal.give_back(credits);
            true
        }
        Err(_) => false,
    }
}

/// A quarter of the ring's 255 blocks holds this many copies, a descriptor and a commit block.
const ALL: u64 = 61;

/// The credits that the entries of both threads hold.
const HELD: u64 = 2 * HANDLES;

/// A ticket's status, the tally, and whether one credit more than the free ones is granted, and whether the free ones are.
fn told_before<J: JournalName, D: Device, R: Wait>(
    rt: &R,
    journal: &Journal<J, D>,
    seat: &mut Seat<J>,
    ticket: &SharedTicket<J>,
) -> (Status, Tally, [bool; 2]) {
    let status = journal.status(ticket, seat);
    let tally = journal.tally(rt, seat);
    let more = all_are_left(journal, seat, ALL - HELD + 1);
    (
        status,
        tally,
        [more, all_are_left(journal, seat, ALL - HELD)],
    )
}

/// Commits the transaction of both tickets. Returns whether that was done, whether all credits are free, the second ticket's status, and
/// the answer of `both_stand`.
fn told_after<J: JournalName, D: Device, R: Wait>(
    rt: &R,
    journal: &Journal<J, D>,
    seat: &mut Seat<J>,
    tickets: (SharedTicket<J>, SharedTicket<J>),
) -> (bool, bool, Status, bool) {
    let (mut first, second) = tickets;
    let committed = commit(rt, journal, &mut first);
    let left = all_are_left(journal, seat, ALL);
    let status = journal.status(&second, seat);
    (
        committed,
        left,
        status,
        both_stand(rt, journal, first, second),
    )
}

/// The folder of the files.
const FOLDER: &str = "two_threads_test";

const LOG: &str = "two_threads_test/log";

const HOME: &str = "two_threads_test/home";

/// Blocks of the home file.
const HOME_BLOCKS: usize = 128;

/// A new file of this many zeros.
fn zeros(rt: &HostRuntime, path: &str, bytes: u64) -> io::Result<File> {
    let file = OpenOptions::new()
        .read(true)
        .write(true)
        .create(true)
        .open(rt, path)?;
    file.set_len(bytes)?;
    Ok(file)
}

fn two_files(rt: &HostRuntime) -> io::Result<FileDevice<UnknownContents>> {
    let _ = fs::remove_dir_all(rt, FOLDER);
    fs::create_dir(rt, FOLDER)?;
    let log = zeros(rt, LOG, 1024 * 256)?;
    let home = zeros(rt, HOME, 1024 * HOME_BLOCKS as u64)?;
    Ok(FileDevice::new(rt.alloc(), UnknownContents, 1024, log, Some(home))?)
}

/// Two threads write at once. All is committed in one transaction and written home, and the credits are back.
fn written<J: JournalName + Send + Sync, D: Device + Drop + Send, R: Threads + Wait + Abort + Sync>(
    rt: &R,
    unnamed: UnnamedJournal<D>,
) -> D
    requires name { unnamed.name ≡ J.name }
{
    let (journal, mut seat) = unnamed.named::<J>();
    let (Some(one), Some(two)) = (journal.split_seat(&mut seat), journal.split_seat(&mut seat))
    else {
        panic!(rt; "there is no further seat")
    };
    let Some(tickets) = write_at_once(rt, &journal, one, two) else {
        panic!(rt; "a handle is refused")
    };
    let before = told_before(rt, &journal, &mut seat, &tickets.0);
    let after = told_after(rt, &journal, &mut seat, tickets);
    let Ok(parts) = journal.close() else {
        panic!(rt; "the close is refused")
    };
    let tally = Tally {
        word: HELD,
        entries: HELD,
    };
    expect(rt, &before, &(Status::Open, tally, [false, true]));
    expect(rt, &after, &(true, true, Status::Committed, true));
    expect(rt, &parts.committed, &1);
    parts.device
}

fn expected_home(rt: &HostRuntime) -> io::Result<Vec<u8>> {
    let mut home = vec![in rt.alloc(); 0; 1024 * HOME_BLOCKS]?;
    home[..1024 * 20].fill(7);
    home[1024 * 100..1024 * 120].fill(7);
    Ok(home)
}

/// Whether the home file has what the threads wrote. Removes the folder.
fn is_home(rt: &HostRuntime) -> io::Result<bool> {
    let home = fs::read(rt, HOME)?;
    let expected = expected_home(rt)?;
    fs::remove_dir_all(rt, FOLDER)?;
    Ok(home.as_slice() == expected.as_slice())
}

#[test]
fn two_threads_share_a_journal_over_files(rt: HostRuntime) -> Result<(), Fail> {
    let mut device = two_files(&rt)?;
    recovery::format(&mut device, 256, &[7; 16], false)?;
    let unnamed = unnamed_on(rt.alloc(), device)?;
    drop(written::<Brand, _, _>(&rt, unnamed));
    expect(&rt, &is_home(&rt)?, &true);
    Ok(())
}
