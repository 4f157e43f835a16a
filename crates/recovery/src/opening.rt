//! Opening a log: it replays what a crash left, and leaves the log clean.
ghost use Rattle.std.specs.Prelude.{◌<◌, ◌≡◌, ◌+◌, OnOk, IfOk, IfErr, MatchResult};
ghost use Rattle.journal_model.specs.declared.refusal.JournalError.TheVariants.{BadLength};
ghost use Rattle.journal_model.specs.Disk.{reading};
ghost use Rattle.journal_model.specs.Layout.{IsLayout};
ghost use Rattle.log_model.specs.Opening.{greatest_number, layout_of};
ghost use Rattle.log_model.specs.Superblock.{super_in};
ghost use Rattle.block_device.specs.State.{EachMoment};
ghost use Rattle.journal_world.specs.Opening.{IsOpenedLog, IsOpening};
ghost use Rattle.log_epochs.specs.EngineWorld.{LeadsToEngine};
ghost use Rattle.log_epochs.specs.OpeningRun.{IsMoment};
ghost use Rattle.recovery.specs.Values.{IsNextNamed};
ghost use Rattle.recovery.specs.Opening.{IsBroken, IsDone, IsDoneWith, OpeningRefused, Tells};

use crate::examine::{Examined, examine};
use crate::replaying::{clean_log, replay};
use block_device::Device;
use journal_model::{Area, JournalError, LogLayout, Tid};
use log_format::Super;
use std::alloc::Global;
use std::marker::Model;

/// What an opening found in a log.
#[derive(Clone, Copy, Debug, PartialEq, Eq)]
pub struct Report {
    /// The log was clean, with nothing to replay.
    pub clean: bool,
    /// The number after the log's last complete transaction; in a clean log, its s_sequence.
    pub ends_at: u64,
    /// How many complete transactions the log had.
    pub transactions: u64,
}

/// A device with an opened log, which is clean, its copies home. Make a journal of it, or take the device back.
#[derive(Drop)]
pub struct Opened<D: Device> {
    pub(crate) device: D,
    pub(crate) superblock: Vec<u8>,
    pub(crate) next: Tid,
    pub(crate) report: Report,
}

impl<D: Device> Model for Opened<D> {
    ghost use Rattle.journal_world.specs.Opening.{IsOpenedLog};
    ghost use Rattle.recovery.specs.Values.{OpenedValue, IsNextNamed};

    ghost Value = { OpenedValue D };

    ghost view = { λ o. record {
      device = o.device;
      superblock = o.superblock.items;
      next = o.next;
      clean = o.report.clean;
      ends_at = o.report.ends_at;
      transactions = o.report.transactions;
    } };

    ghost invariant = { λ o. IsNextNamed (D.state o.device).shape o.superblock.items o.next
        × (D.honest o.device → IsOpenedLog (D.state o.device).shape (D.state o.device).disk o.superblock.items o.next) };
}

/// Opens the log of a device: it tests the log, replays its transactions and leaves it clean. The log area is flushed first, so that no
/// later crash takes back what was read.
///
/// `opening_calls` (`specs/Calls.antt`) lists the calls: a flush of the log; if it is not clean, one write of each home block with a
/// live copy, in the chain's order, a flush of home, the superblock's write and a flush of the log. Memory is taken once all tests have
/// passed: for block 0, and in proportion to the blocks that the chain names. (Block 0 is read into memory first if blocks exceed 4096
/// bytes, as no log's do.)
///
/// # Errors
///
/// The device comes back.
/// - Nothing is written: `BadMagic` to `ErrnoSet` (superblock), `Damage` and `Ahead` (ring block), `SequenceEnd` (no number left),
///   `Memory` (the log is not refused), `BadLength` (the log area has no block; no call is made).
/// - `Device`: home and the superblock may have been written. After the log's flush, each crash image opens to the same transactions.
/// - `Damage` too if the log reads otherwise during replay than in the tests, which needs incorrect reads. Copies may be home, and the
///   log is not clean.
///
/// Source: fs/jbd2/recovery.c by behaviour; the flush, the tests of ring blocks, and that each home block is written once are this
/// project's own.
pub fn open<D: Device>(alloc: Global, device: D) -> Result<Opened<D>, (D, JournalError)>
    ensures opened { IfOk result (λ o. D.honest o.device → IsOpening (D.state device).shape (D.state device).disk (D.state o.device).disk o.superblock o.next) }
    // It is a run of the machine, whatever came before on a device that nobody uses.
    ensures run { IfOk result (λ o. D.honest o.device → LeadsToEngine (D.state device).shape (D.state device).disk (D.state o.device).disk o.superblock o.next) }
    ensures report { IfOk result (λ o. D.honest o.device → Tells (D.state device).shape (reading (D.state device).disk) o.clean o.ends_at o.transactions) }
    ensures calls { MatchResult result
        (λ o. D.honest o.device → IsDone (D.state device) (D.state o.device))
        (λ e. D.honest e.0 → IsBroken (D.state device) (D.state e.0)) }
    ensures moments { MatchResult result
        (λ o. D.honest o.device → EachMoment (IsMoment (D.state device).shape (D.state device).disk) (D.state device) (D.state o.device))
        (λ e. D.honest e.0 → EachMoment (IsMoment (D.state device).shape (D.state device).disk) (D.state device) (D.state e.0)) }
    ensures refused { IfErr result (λ e. OpeningRefused (D.honest e.0) (D.state device) (D.state e.0) e.1) }
    ensures no_log { MatchResult result
        (λ _. 0 < (D.state device).shape.log_blocks)
        (λ e. (D.state device).shape.log_blocks ≡ 0 → (e.0 ≡ device) × (e.1 ≡ BadLength)) }
    ensures no_fault { IfOk result (λ o. (D.state o.device).faults ≡ (D.state device).faults) }
    ensures shape { MatchResult result (λ o. (D.state o.device).shape ≡ (D.state device).shape) (λ e. (D.state e.0).shape ≡ (D.state device).shape) }
    ensures honest { MatchResult result (λ o. D.honest o.device → D.honest device) (λ e. D.honest e.0 → D.honest device) }
{
    if device.blocks(Area::Log) == 0 {
        return Err((device, JournalError::BadLength));
    }
    let mut device = device;
    match recover(alloc, &mut device) {
        Ok((superblock, number, report)) => Ok(Opened {
            device,
            superblock,
            next: Tid(number),
            report,
        }),
        Err(e) => Err((device, e)),
    }
}

impl<D: Device> Opened<D> {
    /// An opened log of the parts that `into_parts` gave, and its report. The device may be another one with the same blocks, such as a
    /// `FailOnce`.
    pub fn from_parts(device: D, superblock: Vec<u8>, next: Tid, report: Report) -> Self
        requires named { IsNextNamed (D.state device).shape superblock.items next }
        requires log { D.honest device → IsOpenedLog (D.state device).shape (D.state device).disk superblock.items next }
        ensures { result ≡ record {
          device = device;
          superblock = superblock.items;
          next = next;
          clean = report.clean;
          ends_at = report.ends_at;
          transactions = report.transactions;
        } }
    {
        Opened {
            device,
            superblock,
            next,
            report,
        }
    }

    /// What the opening found.
    pub fn report(&self) -> Report
        ensures { result ≡ record { clean = self.now.clean; ends_at = self.now.ends_at; transactions = self.now.transactions } }
    {
        self.report
    }

    /// The next transaction's number.
    pub fn next(&self) -> Tid
        ensures next { result ≡ self.now.next }
        ensures some { 0 < result }
    {
        self.next
    }

    /// Its log's layout.
    pub fn layout(&self) -> LogLayout
        ensures layout { result ≡ layout_of (super_in self.now.superblock) }
        ensures taken { IsLayout result }
        ensures size { result.block_size ≡ (D.state self.now.device).shape.block_size }
    {
        Super::fields(&self.superblock).layout()
    }

    /// Bytes per block of the device.
    pub fn block_size(&self) -> usize
        ensures { result ≡ (D.state self.now.device).shape.block_size }
    {
        self.device.block_size()
    }

    /// Block 0 of its log: the superblock of a clean log.
    pub fn superblock(&self) -> &[u8]
        ensures block { result.now ≡ self.now.superblock }
        ensures named { IsNextNamed (D.state self.now.device).shape self.now.superblock self.now.next }
    {
        &self.superblock
    }

    /// Its device, for calls that change nothing.
    pub fn device(&self) -> &D
        ensures { result.now ≡ self.now.device }
    {
        &self.device
    }

    /// The device, whose log is clean.
    pub fn into_device(self) -> D
        ensures { result ≡ self.device }
    {
        let Opened {
            device,
            superblock: _,
            next: _,
            report: _,
        } = self;
        device
    }

    /// A journal's parts: the device, block 0 of its log, and the next transaction's number, at least 1. Block 0 is a clean log's
    /// superblock, which names that number or the one before. If reads were correct, it is durable, and no ring block can pass for part
    /// of a coming transaction.
    pub fn into_parts(self) -> (D, Vec<u8>, Tid)
        ensures device { result.0 ≡ self.device }
        ensures superblock { result.1.items ≡ self.superblock }
        ensures next { result.2 ≡ self.next }
        ensures named { IsNextNamed (D.state self.device).shape self.superblock self.next }
        ensures log { D.honest self.device → IsOpenedLog (D.state self.device).shape (D.state self.device).disk self.superblock self.next }
    {
        let Opened {
            device,
            superblock,
            next,
            report: _,
        } = self;
        (device, superblock, next)
    }
}

/// The next transaction's number, after this greatest one in use.
pub fn number_from(limit: u64) -> u32
    requires { limit < greatest_number }
    ensures { result ≡ limit + 1 }
{
    (limit + 1) as u32
}

/// Reads the log, replays it and leaves it clean.
fn recover<D: Device>(alloc: Global, device: &mut D) -> Result<(Vec<u8>, u32, Report), JournalError>
    requires some { 0 < (D.state device.old).shape.log_blocks }
    ensures named { IfOk result (λ r. IsNextNamed (D.state device.new).shape r.0.items r.1) }
    ensures done { IfOk result (λ r. D.honest device.new → IsDoneWith (D.state device.old) (D.state device.new) r.0.items r.1) }
    ensures report { IfOk result (λ r. D.honest device.new → Tells (D.state device.old).shape (reading (D.state device.old).disk) r.2.clean r.2.ends_at r.2.transactions) }
    ensures broken { IfErr result (λ e. D.honest device.new → IsBroken (D.state device.old) (D.state device.new)) }
    ensures refused { IfErr result (OpeningRefused (D.honest device.new) (D.state device.old) (D.state device.new)) }
    ensures no_fault { OnOk result ((D.state device.new).faults ≡ (D.state device.old).faults) }
    ensures shape { (D.state device.new).shape ≡ (D.state device.old).shape }
    ensures honest { D.honest device.new → D.honest device.old }
{
    let Examined {
        superblock,
        log,
        transactions,
        tables,
        finder,
    } = examine(alloc, device)?;
    device.flush(Area::Log)?;
    let limit = log.first_number() + transactions;
    let next = number_from(limit);
    let report = Report {
        clean: log.is_clean(),
        ends_at: limit,
        transactions,
    };
    if report.clean {
        return Ok((superblock, next, report));
    }
    let mut finder = finder;
    let mut superblock = superblock;
    replay(device, &log, transactions, &tables, &mut finder)?;
    clean_log(device, &mut superblock, next)?;
    Ok((superblock, next, report))
}
