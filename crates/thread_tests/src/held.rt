//! A handle writes and reads, and a read is made without one, while a device write of a commit or a checkpoint round is held and another
//! thread waits for the engine.
ghost use Rattle.std.specs.Prelude.{◌≡◌};

use crate::expected::expect;
use crate::journals::unnamed_on;
use block_device::{Device, DeviceFault};
use journal_model::{Area, BlockNo, JournalError};
use shared_journal::{CheckTurn, Journal, JournalName, Seat, SharedTicket, Turn, UnnamedJournal};
use std::alloc::Global;
use std::marker::Brand;
use std::process::Abort;
use std::sync::Wait;
use std::sync::atomic::{AtomicU64, Ordering};
use std::test::Fail;
use std::thread::{self, Threads, join};
use test_logs::formatted;

/// How often a thread looks before it gives up.
const LOOKS: u32 = 2_000_000;

/// Yields, so that another thread comes to wait for the engine's lock.
const PAUSES: u32 = 10_000;

/// Looks until the word is not 0. False if it stayed 0.
fn is_set(word: &AtomicU64) -> bool {
    for _ in 0..LOOKS {
        if word.load(Ordering::SeqCst) != 0 {
            return true;
        }
        thread::yield_now();
    }
    false
}

/// May hold a write for a limited time.
trait WriteGate {
    /// Called before a write to this area.
    fn pass(&self, area: Area);
}

/// Holds the first write of an area until a block was written meanwhile, or gives up.
#[derive(Drop)]
struct Overtaking {
    area: Area,
    held: AtomicU64,
    asked: AtomicU64,
    written: AtomicU64,
    given_up: AtomicU64,
}

impl Overtaking {
    fn new(area: Area) -> Overtaking {
        Overtaking {
            area,
            held: AtomicU64::new(0),
            asked: AtomicU64::new(0),
            written: AtomicU64::new(0),
            given_up: AtomicU64::new(0),
        }
    }
}

impl WriteGate for Overtaking {
    fn pass(&self, area: Area) {
        if area != self.area || self.held.fetch_add(1, Ordering::SeqCst) != 0 {
            return;
        }
        if !is_set(&self.written) {
            self.given_up.store(1, Ordering::SeqCst);
        }
    }
}

impl<G: WriteGate> WriteGate for &G {
    fn pass(&self, area: Area) {
        (**self).pass(area)
    }
}

/// A device that passes a gate before each write.
#[derive(Drop)]
struct GatedDevice<D, G> {
    device: D,
    gate: G,
}

impl<D: Device, G: WriteGate> Device for GatedDevice<D, G> {
    ghost state = { λ s. D.state s.device };

    ghost honest = { λ s. D.honest s.device };

    fn read(&mut self, area: Area, n: u64, into: &mut [u8]) -> Result<(), DeviceFault> {
        self.device.read(area, n, into)
    }

    fn write(&mut self, area: Area, n: u64, bytes: &[u8]) -> Result<(), DeviceFault> {
        self.gate.pass(area);
        self.device.write(area, n, bytes)
    }

    fn flush(&mut self, area: Area) -> Result<(), DeviceFault> {
        self.device.flush(area)
    }

    fn blocks(&self, area: Area) -> u64 {
        self.device.blocks(area)
    }

    fn block_size(&self) -> usize {
        self.device.block_size()
    }
}

/// Writes one block through a handle of its own.
fn write_one<J: JournalName, D: Device, R: Wait>(
    rt: &R,
    journal: &Journal<J, D>,
    mut seat: Seat<J>,
    block: u64,
) -> Option<SharedTicket<J>> {
    if journal.block_size() != 1024 {
        return None;
    }
    let Ok(mut handle) = journal.try_start(rt, &mut seat, 1) else {
        return None;
    };
    let wrote = journal.write(rt, &mut handle, BlockNo(block), &[7; 1024]);
    let ticket = journal.stop(rt, handle);
    match wrote {
        Ok(()) => Some(ticket),
        Err(_) => None,
    }
}

/// Writes one block, and takes turns until it is committed.
fn commit_one<J: JournalName, D: Device, R: Wait>(
    rt: &R,
    journal: &Journal<J, D>,
    seat: Seat<J>,
) -> bool {
    let Some(mut ticket) = write_one(rt, journal, seat, 3) else {
        return false;
    };
    if journal.request(rt, &mut ticket).is_err() {
        return false;
    }
    for _ in 0..1000 {
        match journal.commit_turn(rt) {
            Ok(Turn::Committed(_)) => return true,
            Ok(_) => {}
            Err(_) => return false,
        }
    }
    false
}

/// The same, and takes turns until all is home. The copy is kept until then.
fn commit_and_checkpoint<J: JournalName, D: Device, R: Wait>(
    rt: &R,
    journal: &Journal<J, D>,
    seat: Seat<J>,
) -> bool {
    if !commit_one(rt, journal, seat) || !matches!(journal.keeps_copy(rt, BlockNo(3)), Ok(true)) {
        return false;
    }
    for _ in 0..1000 {
        match journal.checkpoint_turn(rt) {
            Ok(CheckTurn::Idle) => {
                return matches!(journal.keeps_copy(rt, BlockNo(3)), Ok(false));
            }
            Ok(_) => {}
            Err(_) => return false,
        }
    }
    false
}

/// Once a write is held, reads a home block without a copy in the front, and so waits for the engine.
fn read_home<J: JournalName, D: Device, R: Wait>(
    rt: &R,
    journal: &Journal<J, D>,
    mut seat: Seat<J>,
    held: &AtomicU64,
    asked: &AtomicU64,
) -> bool {
    if journal.block_size() != 1024 || !is_set(held) {
        return false;
    }
    let Ok(mut handle) = journal.try_start(rt, &mut seat, 0) else {
        return false;
    };
    let mut bytes = [1; 1024];
    asked.store(1, Ordering::SeqCst);
    let read = journal.read(rt, &mut handle, BlockNo(20), &mut bytes);
    journal.stop(rt, handle);
    read.is_ok() && bytes[0] == 0
}

/// Writes a block through a handle, and reads it and, if given, the one that is being committed; the front has both.
fn write_and_read<J: JournalName, D: Device, R: Wait>(
    rt: &R,
    journal: &Journal<J, D>,
    mut seat: Seat<J>,
    committing: Option<BlockNo>,
) -> bool {
    if journal.block_size() != 1024 {
        return false;
    }
    let Ok(mut handle) = journal.try_start(rt, &mut seat, 1) else {
        return false;
    };
    let wrote = journal.write(rt, &mut handle, BlockNo(9), &[8; 1024]);
    let mut bytes = [0; 1024];
    let read = journal.read(rt, &mut handle, BlockNo(9), &mut bytes);
    let newest = bytes[0];
    let read_other = match committing {
        Some(block) => journal.read(rt, &mut handle, block, &mut bytes).is_ok() && bytes[0] == 7,
        None => true,
    };
    journal.stop(rt, handle);
    wrote.is_ok() && read.is_ok() && newest == 8 && read_other
}

/// Whether a block with a copy in the front begins with this byte, by a read without a handle.
fn begins_with<J: JournalName, D: Device, R: Wait>(
    rt: &R,
    journal: &Journal<J, D>,
    block: u64,
    byte: u8,
) -> bool {
    if journal.block_size() != 1024 {
        return false;
    }
    let mut bytes = [0; 1024];
    let read = journal.read_newest(rt, BlockNo(block), &mut bytes);
    read.is_ok() && bytes[0] == byte
}

/// Once a write is held and another thread waits for the engine, writes and reads with and without a handle, and releases the held write.
fn overtake<J: JournalName, D: Device, R: Wait>(
    rt: &R,
    journal: &Journal<J, D>,
    seat: Seat<J>,
    gate: &Overtaking,
) -> bool {
    if !is_set(&gate.held) || !is_set(&gate.asked) {
        return false;
    }
    for _ in 0..PAUSES {
        thread::yield_now();
    }
    let committing = match gate.area {
        Area::Log => Some(BlockNo(3)),
        Area::Home => None,
    };
    let done = write_and_read(rt, journal, seat, committing);
    let newest = begins_with(rt, journal, 9, 8);
    let older = gate.area == Area::Home || begins_with(rt, journal, 3, 7);
    gate.written.store(1, Ordering::SeqCst);
    done && newest && older
}

fn read_and_overtake<J: JournalName + Send + Sync, D: Device + Send, R: Threads + Wait + Sync>(
    rt: &R,
    journal: &Journal<J, D>,
    one: Seat<J>,
    two: Seat<J>,
    held: &AtomicU64,
    asked: &AtomicU64,
    gate: &Overtaking,
) -> bool {
    let (read, written) = join(
        rt,
        || -> bool { read_home(rt, journal, one, held, asked) },
        || -> bool { overtake(rt, journal, two, gate) },
    );
    read && written
}

/// One thread commits and writes home; two others read and write while one of its writes is held.
fn commit_and_overtake<J: JournalName + Send + Sync, D: Device + Send, R: Threads + Wait + Sync>(
    rt: &R,
    journal: &Journal<J, D>,
    seats: [Seat<J>; 3],
    gate: &Overtaking,
) -> bool {
    let [one, two, three] = seats;
    let (committed, overtaken) = join(
        rt,
        || -> bool { commit_and_checkpoint(rt, journal, one) },
        || -> bool { read_and_overtake(rt, journal, two, three, &gate.held, &gate.asked, gate) },
    );
    committed && overtaken
}

/// The next transaction's write does not wait for the held one. Returns how many transactions are committed at the close.
fn overtaken<
    J: JournalName + Send + Sync,
    D: Device + Drop + Send,
    R: Threads + Wait + Abort + Sync,
>(rt: &R, unnamed: UnnamedJournal<D>, gate: &Overtaking) -> u64
    requires name { unnamed.name ≡ J.name }
{
    let (journal, mut seat) = unnamed.named::<J>();
    let (Some(one), Some(two)) = (journal.split_seat(&mut seat), journal.split_seat(&mut seat))
    else {
        panic!(rt; "there is no further seat")
    };
    let done = commit_and_overtake(rt, &journal, [one, two, seat], gate);
    expect(rt, &done, &true);
    let Ok(parts) = journal.close() else {
        panic!(rt; "the close is refused")
    };
    parts.committed
}

/// The first write of an area is held until a handle has written, and the gate does not give up.
fn is_overtaken<R: Threads + Wait + Abort + Sync>(
    rt: &R,
    alloc: Global,
    area: Area,
) -> Result<(), JournalError> {
    let gate = Overtaking::new(area);
    let device = GatedDevice {
        device: formatted(alloc, 1024, 4096)?,
        gate: &gate,
    };
    let unnamed = unnamed_on(alloc, device)?;
    let committed = overtaken::<Brand, _, _>(rt, unnamed, &gate);
    let has_held = gate.held.load(Ordering::SeqCst) != 0;
    let has_given_up = gate.given_up.load(Ordering::SeqCst) != 0;
    expect(rt, &(committed, has_held, has_given_up), &(2, true, false));
    Ok(())
}

/// The handle would wait for the held write, and the gate would give up, with one lock for front and engine. So would it if reads always
/// took both locks, or if a call held the front's lock while it waited for the engine's.
#[test]
fn a_handle_writes_while_a_commit_is_held(rt: HostRuntime) -> Result<(), Fail> {
    is_overtaken(&rt, rt.alloc(), Area::Log)?;
    Ok(())
}

/// The same for a write of a checkpoint round.
#[test]
fn a_handle_writes_while_a_checkpoint_is_held(rt: HostRuntime) -> Result<(), Fail> {
    is_overtaken(&rt, rt.alloc(), Area::Home)?;
    Ok(())
}
