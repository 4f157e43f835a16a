//! Wrong journals: this journal over a memory disk that reorders some calls, or silently loses one. The disk then holds the same as under a
//! journal that makes its calls in that order, or ignores a failed call.
ghost use Rattle.std.specs.Prelude.{◌≡◌};

use block_device::{Device, DeviceFault, FailOnce, MemDevice, StopAt};
use journal_model::{Area, JournalError};
use journal_script::{Measures, Script};
use recovery::{Opened, open};
use script_client::{Performed, perform};
use script_run::{AfterFailure, AnyHome, RunRecord, empty_disk, run_device};
use script_sweep::{Attempt, Fault, OpenedImage, StoppedRun, Swept, calls_of_run};
use std::alloc::Global;
use std::io;

/// Which calls overtake an earlier flush; the disk then flushes before the call after them.
#[derive(Clone, Copy, PartialEq, Eq)]
pub enum Order {
    AsMade,
    /// A commit block overtakes the flush of the blocks before it.
    CommitBlockFirst,
    /// A superblock overtakes the flush of home before it.
    SuperblockFirst,
    /// A transaction's blocks overtake the flush of the superblock before them.
    TransactionFirst,
}

/// This journal over a disk that makes its calls in these orders.
#[derive(Clone, Copy)]
pub struct WrongJournal {
    /// The order in runs.
    pub runs: Order,
    /// The order in openings.
    pub openings: Order,
    /// Whether it ignores a failed call of a run.
    pub ignores_failures: bool,
}

/// No stop, no failure and no lost call, for `StopAt`, `FailOnce` and `Reordered`.
const NEVER: u64 = 0;

type WrongDevice = FailOnce<StopAt<Reordered>>;

/// A disk that reorders calls and loses one, but answers as if it had made each in turn.
#[derive(Drop)]
struct Reordered {
    told: MemDevice,
    real: MemDevice,
    order: Order,
    /// The lost call, counted from 1.
    lost: u64,
    /// The calls so far.
    calls: u64,
    /// The waiting flush, if any.
    waiting: Option<Area>,
    /// Whether the last write was to the superblock.
    after_superblock: bool,
}

/// The first bytes of a commit block: the magic and the type.
const COMMIT_BLOCK: [u8; 8] = [0xc0, 0x3b, 0x39, 0x98, 0, 0, 0, 2];

impl Reordered {
    fn over(disk: MemDevice, order: Order, lost: u64) -> Result<Self, JournalError> {
        match disk.try_clone() {
            Ok(told) => Ok(Reordered {
                told,
                real: disk,
                order,
                lost,
                calls: 0,
                waiting: None,
                after_superblock: false,
            }),
            Err(e) => Err(JournalError::from(e)),
        }
    }

    /// The true content after the last call, with the waiting flush made.
    fn into_real(mut self) -> MemDevice {
        self.flush_waiting();
        self.into_stopped()
    }

    /// The true content after a crash.
    fn into_stopped(self) -> MemDevice {
        let Reordered {
            told: _,
            real,
            order: _,
            lost: _,
            calls: _,
            waiting: _,
            after_superblock: _,
        } = self;
        real
    }

    fn overtakes(&self, waiting: Area, area: Area, n: u64, bytes: &[u8]) -> bool {
        match self.order {
            Order::AsMade => false,
            Order::CommitBlockFirst => {
                waiting == Area::Log && area == Area::Log && bytes.starts_with(&COMMIT_BLOCK)
            }
            Order::SuperblockFirst => waiting == Area::Home && area == Area::Log && n == 0,
            Order::TransactionFirst => {
                waiting == Area::Log && self.after_superblock && area == Area::Log && n != 0
            }
        }
    }

    fn loses(&mut self) -> bool
        ensures { self.new.told ≡ self.old.told }
    {
        self.calls = self.calls.saturating_add(1);
        self.calls == self.lost
    }

    fn flush_waiting(&mut self)
        ensures { self.new.told ≡ self.old.told }
    {
        if let Some(area) = self.waiting.take() {
            let _ = self.real.flush(area);
        }
    }

    /// Writes, after the waiting flush unless the write overtakes it.
    fn write_real(&mut self, area: Area, n: u64, bytes: &[u8])
        ensures { self.new.told ≡ self.old.told }
    {
        if self.loses() {
            return;
        }
        let stays = match self.waiting {
            Some(waiting) => self.overtakes(waiting, area, n, bytes),
            None => false,
        };
        if !stays {
            self.flush_waiting();
            self.after_superblock = area == Area::Log && n == 0;
        }
        if n < self.real.blocks(area) && bytes.len() == self.real.block_size() {
            let _ = self.real.write(area, n, bytes);
        }
    }

    /// Makes a flush wait.
    fn flush_real(&mut self, area: Area)
        ensures { self.new.told ≡ self.old.told }
    {
        if self.loses() {
            return;
        }
        self.flush_waiting();
        self.waiting = Some(area);
    }
}

impl Device for Reordered {
    ghost use Rattle.block_device.specs.Memory.{state_of};

    ghost state = { λ d. state_of d.told };

    ghost honest = { λ _. Unit {0} };

    fn read(&mut self, area: Area, n: u64, into: &mut [u8]) -> Result<(), DeviceFault> {
        let _is_lost = self.loses();
        self.told.read(area, n, into)
    }

    fn write(&mut self, area: Area, n: u64, bytes: &[u8]) -> Result<(), DeviceFault> {
        self.write_real(area, n, bytes);
        self.told.write(area, n, bytes)
    }

    fn flush(&mut self, area: Area) -> Result<(), DeviceFault> {
        self.flush_real(area);
        self.told.flush(area)
    }

    fn blocks(&self, area: Area) -> u64 {
        self.told.blocks(area)
    }

    fn block_size(&self) -> usize {
        self.told.block_size()
    }
}

impl WrongJournal {
    fn device(&self, disk: MemDevice, k: u64) -> Result<StopAt<Reordered>, JournalError> {
        let disk = Reordered::over(disk, self.openings, NEVER)?;
        Ok(StopAt::new(disk, k))
    }

    /// The disk of a run. It stops at write `stop`; call `call` fails, or is lost if this journal ignores failures.
    fn run_device(
        &self,
        disk: MemDevice,
        stop: u64,
        call: u64,
    ) -> Result<WrongDevice, JournalError> {
        let (fails, lost) = if self.ignores_failures {
            (NEVER, call)
        } else {
            (call, NEVER)
        };
        let disk = Reordered::over(disk, self.runs, lost)?;
        Ok(FailOnce::new(StopAt::new(disk, stop), fails))
    }

    /// Opens an empty log for a run, and counts the stop and the call from then on.
    fn opened(
        &self,
        alloc: Global,
        script: &Script,
        stop: Option<u64>,
        failing_call: Option<u64>,
    ) -> Result<Opened<WrongDevice>, JournalError> {
        let measures = &script.measures;
        let call = call_after_opening(alloc, measures, failing_call)?;
        let disk = empty_disk(alloc, measures)?;
        let device = self.run_device(disk, stop.unwrap_or(NEVER), call)?;
        match open(alloc, device) {
            Ok(opened) => Ok(opened),
            Err((_, e)) => Err(e),
        }
    }
}

/// The number of a call, counted from 1 after the opening, as counted from before it; `NEVER` for none.
fn call_after_opening(
    alloc: Global,
    measures: &Measures,
    call: Option<u64>,
) -> Result<u64, JournalError> {
    match call {
        Some(call) => Ok(call.saturating_add(calls_of_opening(alloc, measures)?)),
        None => Ok(NEVER),
    }
}

fn calls_of_opening(alloc: Global, measures: &Measures) -> Result<u64, JournalError> {
    match open(alloc, run_device(empty_disk(alloc, measures)?, None, None)) {
        Ok(opened) => Ok(opened.into_device().calls()),
        Err((_, e)) => Err(e),
    }
}

fn real_of(device: StopAt<Reordered>) -> MemDevice {
    let is_stopped = device.is_stopped();
    let disk = device.into_inner();
    if is_stopped {
        disk.into_stopped()
    } else {
        disk.into_real()
    }
}

fn stopped(performed: Performed<WrongDevice>) -> StoppedRun {
    let Performed {
        device,
        sealed,
        acknowledged,
        open_wait: _,
    } = performed;
    StoppedRun {
        device: real_of(device.into_inner()),
        recorded: RunRecord {
            sealed,
            acknowledged,
        },
        at_write: None,
    }
}

impl Swept for WrongJournal {
    ghost keeps = { ⊥ };

    fn run(
        &self,
        alloc: Global,
        script: &Script,
        stop: Option<u64>,
        failing_call: Option<u64>,
    ) -> Result<StoppedRun, Fault> {
        let opened = self.opened(alloc, script, stop, failing_call)?;
        let after = if failing_call.is_some() {
            AfterFailure::GoOn
        } else {
            AfterFailure::End
        };
        let operations = &script.operations;
        Ok(stopped(perform::<WrongDevice, AnyHome, _>(
            alloc,
            opened,
            operations,
            after,
            &mut io::sink(),
        )?))
    }

    fn calls(&self, alloc: Global, script: &Script) -> Result<u64, Fault> {
        // It makes this journal's calls, in whatever order.
        calls_of_run(alloc, script)
    }

    fn open(&self, alloc: Global, image: MemDevice) -> Result<OpenedImage, JournalError> {
        match open(alloc, self.device(image, NEVER)?) {
            Ok(opened) => Ok(OpenedImage {
                report: opened.report(),
                next: opened.next(),
                device: real_of(opened.into_device()),
            }),
            Err((_, e)) => Err(e),
        }
    }

    fn open_to(&self, alloc: Global, image: MemDevice, k: u64) -> Result<Attempt, JournalError> {
        match open(alloc, self.device(image, k)?) {
            Ok(opened) => Ok(Attempt::Whole(OpenedImage {
                report: opened.report(),
                next: opened.next(),
                device: real_of(opened.into_device()),
            })),
            Err((device, JournalError::Device)) => Ok(Attempt::Stopped(real_of(device))),
            Err((_, e)) => Err(e),
        }
    }
}
