//! Four threads write, read, revoke, write directly and audit over one journal. After its close the log is opened again, and home is judged
//! by the record.
ghost use Rattle.std.specs.Prelude.{◌≡◌, true};

use crate::expected::expect;
use crate::journals::unnamed_on;
use block_device::{Device, MemDevice};
use journal_model::{Area, BlockNo, JournalError, Op, Sealed, Step};
use shared_journal::{
    Journal, JournalName, Parts, Record, Seat, SharedHandle, SharedTicket, UnnamedJournal,
};
use std::alloc::Global;
use std::marker::Brand;
use std::process::Abort;
use std::sync::Wait;
use std::test::Fail;
use std::thread::{self, Threads, join};
use test_logs::{formatted, opened};

/// How often all four run.
const RUNS: u64 = 100;

/// Handles of each thread.
const HANDLES: u8 = 6;

const ALL_HANDLES: u64 = 24;

/// How often a thread asks again if it must wait.
const ASKS: u64 = 100_000;

/// Blocks of the home area.
const HOME_BLOCKS: u64 = 64;

/// A block that all threads write.
const SHARED: u64 = 40;

/// The first of four blocks; each is written directly by one thread.
const DIRECT: u64 = 50;

/// Takes a commit turn, or a checkpoint turn if the log is full. False if it is refused otherwise.
fn take_turn<J: JournalName, D: Device, K: Record, R: Wait>(
    rt: &R,
    journal: &Journal<J, D, K>,
) -> bool {
    match journal.commit_turn(rt) {
        Ok(_) => true,
        Err(JournalError::NeedSpace) => journal.checkpoint_turn(rt).is_ok(),
        Err(_) => false,
    }
}

/// Starts a handle of three credits; if there is no room, locks the running transaction and takes turns.
fn start<'a, J: JournalName, D: Device, K: Record, R: Wait>(
    rt: &R,
    journal: &'a Journal<J, D, K>,
    seat: &mut Seat<J>,
) -> Option<SharedHandle<'a, J, K>> {
    for _ in 0..ASKS {
        match journal.try_start(rt, seat, 3) {
            Ok(handle) => return Some(handle),
            Err(JournalError::Full | JournalError::NotRunning) => {
                if journal.lock(rt).is_err() || !take_turn(rt, journal) {
                    return None;
                }
                thread::yield_now();
            }
            Err(_) => return None,
        }
    }
    None
}

/// Writes the thread's own block and the shared one, reads its own, and revokes one. Whether all was done, and the own block reads as
/// written.
fn touch<J: JournalName, D: Device, K: Record, R: Wait>(
    rt: &R,
    journal: &Journal<J, D, K>,
    handle: &mut SharedHandle<'_, J, K>,
    thread: u8,
    round: u8,
) -> bool {
    let byte = thread.wrapping_mul(50).wrapping_add(round).wrapping_add(1);
    let first = u64::from(thread).saturating_mul(8);
    let own = BlockNo(first.saturating_add(u64::from(round % 3)));
    let revoked = BlockNo(first.saturating_add(4));
    let mut seen = [0; 1024];
    journal.block_size() == 1024
        && journal.write(rt, handle, own, &[byte; 1024]).is_ok()
        && journal
            .write(rt, handle, BlockNo(SHARED), &[byte; 1024])
            .is_ok()
        && journal.read(rt, handle, BlockNo(SHARED), &mut seen).is_ok()
        && journal.read(rt, handle, own, &mut seen).is_ok()
        && seen[1023] == byte
        && journal.revoke(rt, handle, revoked).is_ok()
}

/// Takes turns until the ticket's transaction is committed, and audits the receipt.
fn finish<J: JournalName, D: Device, K: Record, R: Wait>(
    rt: &R,
    journal: &Journal<J, D, K>,
    ticket: SharedTicket<J, K>,
) -> bool {
    let mut ticket = ticket;
    if journal.request(rt, &mut ticket).is_err() {
        return false;
    }
    for _ in 0..ASKS {
        match journal.reach(ticket) {
            Ok(receipt) => {
                let mut receipt = receipt;
                journal.audit(rt, &mut receipt);
                return true;
            }
            Err(back) => ticket = back,
        }
        if !take_turn(rt, journal) {
            return false;
        }
        thread::yield_now();
    }
    false
}

/// The work of one thread: its handles, every other one waited for, and a direct write. Whether all was done.
fn work<J: JournalName, D: Device, K: Record, R: Wait>(
    rt: &R,
    journal: &Journal<J, D, K>,
    mut seat: Seat<J>,
    thread: u8,
) -> bool
    requires { J.name.direct ≡ true }
{
    for round in 0..HANDLES {
        let Some(mut handle) = start(rt, journal, &mut seat) else {
            return false;
        };
        let touched = touch(rt, journal, &mut handle, thread, round);
        let ticket = journal.stop(rt, handle);
        if !touched || round % 2 == 1 && !finish(rt, journal, ticket) {
            return false;
        }
    }
    let direct = BlockNo(DIRECT.saturating_add(u64::from(thread)));
    journal.block_size() == 1024
        && journal
            .write_direct(rt, direct, &[thread.wrapping_add(1); 1024])
            .is_ok()
        && journal.sync_direct(rt).is_ok()
}

fn first_two<
    J: JournalName + Send + Sync,
    D: Device + Send,
    K: Record + Send,
    R: Threads + Wait + Sync,
>(rt: &R, journal: &Journal<J, D, K>, one: Seat<J>, two: Seat<J>) -> bool
    requires { J.name.direct ≡ true }
{
    let (one, two) = join(
        rt,
        || -> bool { work(rt, journal, one, 0) },
        || -> bool { work(rt, journal, two, 1) },
    );
    one && two
}

fn last_two<
    J: JournalName + Send + Sync,
    D: Device + Send,
    K: Record + Send,
    R: Threads + Wait + Sync,
>(rt: &R, journal: &Journal<J, D, K>, one: Seat<J>, two: Seat<J>) -> bool
    requires { J.name.direct ≡ true }
{
    let (one, two) = join(
        rt,
        || -> bool { work(rt, journal, one, 2) },
        || -> bool { work(rt, journal, two, 3) },
    );
    one && two
}

fn all_four<
    J: JournalName + Send + Sync,
    D: Device + Send,
    K: Record + Send,
    R: Threads + Wait + Sync,
>(rt: &R, journal: &Journal<J, D, K>, seats: [Seat<J>; 4]) -> bool
    requires { J.name.direct ≡ true }
{
    let [one, two, three, four] = seats;
    let (first, last) = join(
        rt,
        || -> bool
            requires { J.name.direct ≡ true }
        { first_two(rt, journal, one, two) },
        || -> bool
            requires { J.name.direct ≡ true }
        { last_two(rt, journal, three, four) },
    );
    first && last
}

/// A block's bytes after these steps, if their last write or revoke of it is a write.
fn last_write(steps: &[Step], block: BlockNo) -> Option<&[u8]> {
    let mut last = None;
    for step in steps.iter() {
        if step.block == block {
            match &step.op {
                Op::Write(bytes) => last = Some(bytes.bytes()),
                Op::Revoke => last = None,
                Op::Read(_) => {}
            }
        }
    }
    last
}

/// How many handles the record has.
fn handles(sealed: &[Sealed]) -> u64 {
    let mut handles: u64 = 0;
    for transaction in sealed.iter() {
        handles = handles.saturating_add(transaction.handles.len() as u64);
    }
    handles
}

fn touches(steps: &[Step], block: BlockNo) -> bool {
    let mut touches = false;
    for step in steps.iter() {
        touches = touches || step.block == block && !matches!(step.op, Op::Read(_));
    }
    touches
}

/// A block's last copy, if no revoke follows it.
fn last_copy(sealed: &[Sealed], block: BlockNo) -> Option<&[u8]> {
    let mut last = None;
    for transaction in sealed.iter() {
        let steps = transaction.steps.as_slice();
        if touches(steps, block) {
            last = last_write(steps, block);
        }
    }
    last
}

/// What fills a block without a copy in the record: a thread's direct write, or 0.
fn direct_byte(block: u64) -> u8 {
    match block {
        50 => 1,
        51 => 2,
        52 => 3,
        53 => 4,
        _ => 0,
    }
}

/// Whether a home block reads as the record says, or as direct writes left it.
fn is_home(device: &mut MemDevice, sealed: &[Sealed], block: BlockNo) -> bool {
    let mut bytes = [0; 1024];
    if device.block_size() != 1024
        || device.blocks(Area::Home) <= block.0
        || device.read(Area::Home, block.0, &mut bytes).is_err()
    {
        return false;
    }
    match last_copy(sealed, block) {
        Some(copy) => copy == bytes.as_slice(),
        None => bytes == [direct_byte(block.0); 1024],
    }
}

/// Whether the record has all handles, and the log is opened again as a clean one whose home is as the record says.
fn is_right(alloc: Global, parts: Parts<MemDevice, Vec<Sealed>>) -> bool {
    let Parts {
        device,
        sealed,
        committed,
    } = parts;
    let Ok(opened) = opened(alloc, device) else {
        return false;
    };
    let is_clean = opened.report().clean;
    let mut device = opened.into_device();
    let mut is_right = is_clean
        && committed == sealed.len() as u64
        && handles(&sealed) == ALL_HANDLES;
    for block in 0..HOME_BLOCKS {
        is_right = is_home(&mut device, &sealed, BlockNo(block)) && is_right;
    }
    is_right
}

fn worked<J: JournalName + Send + Sync, R: Threads + Wait + Abort + Sync>(
    rt: &R,
    alloc: Global,
    unnamed: UnnamedJournal<MemDevice, Vec<Sealed>>,
)
    requires name { unnamed.name ≡ J.name }
    requires direct { unnamed.name.direct ≡ true }
{
    let (journal, mut seat) = unnamed.named::<J>();
    let (Some(one), Some(two), Some(three)) = (
        journal.split_seat(&mut seat),
        journal.split_seat(&mut seat),
        journal.split_seat(&mut seat),
    ) else {
        panic!(rt; "there is no further seat")
    };
    let done = all_four(rt, &journal, [one, two, three, seat]);
    let Ok(parts) = journal.close() else {
        panic!(rt; "the close is refused")
    };
    expect(rt, &(done, is_right(alloc, parts)), &(true, true));
}

/// One run, over a ring that wraps several times.
fn run<R: Threads + Wait + Abort + Sync>(rt: &R, alloc: Global) -> Result<(), JournalError> {
    let unnamed = unnamed_on(alloc, formatted(alloc, 65, HOME_BLOCKS)?)?.with_direct_writes();
    worked::<Brand, _>(rt, alloc, unnamed);
    Ok(())
}

#[test]
fn four_threads_share_a_journal(rt: HostRuntime) -> Result<(), Fail> {
    for _ in 0..RUNS {
        run(&rt, rt.alloc())?;
    }
    Ok(())
}
