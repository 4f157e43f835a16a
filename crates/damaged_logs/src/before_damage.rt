//! How a log is opened in spite of damage, or of blocks ahead: with the complete transactions before it.
ghost use Rattle.std.specs.Prelude.{◌≡◌, ◌≢◌, ◌+◌, ◌<◌, ◌≤◌, ◌==◌, ◌^◌, ◌++◌, List, ℕ, length, OnErr, OnOk, IfOk, IfErr, MatchResult};
ghost use Rattle.journal_model.specs.declared.number.Area.TheVariants.{Log as LogArea};
ghost use Rattle.journal_model.specs.declared.refusal.JournalError.TheVariants.{BadLength, Device as DeviceFailed};
ghost use Rattle.journal_model.specs.Disk.{reading};
ghost use Rattle.log_model.specs.declared.log.Text.{Text};
ghost use Rattle.log_model.specs.Opening.{greatest_number, layout_of};
ghost use Rattle.log_model.specs.Superblock.{with_tail};
ghost use Rattle.block_device.specs.Call.{OnlyReads};
ghost use Rattle.block_device.specs.State.{EachMoment};
ghost use Rattle.log_format.specs.Accepted.{IsAccepted};
ghost use Rattle.log_format.specs.Size.{IsBlockSize};
ghost use Rattle.recovery.specs.Calls.{HasBegun, HasMade, cleaning_calls, writes_home};
ghost use Rattle.recovery.specs.Gather.{IsReplayRefused, tables_of};
ghost use Rattle.recovery.specs.HomeCopies.{home_copies};
ghost use Rattle.recovery.specs.Values.{IsNextNamed};
ghost use Rattle.damaged_logs.specs.Before.{BeforeRefused, IsMomentBefore, IsOpeningBefore, TellsBefore};
ghost use Rattle.damaged_logs.specs.BeforeSteps.{HasDoneBefore, HoldsTexts, IsBrokenBefore, IsDoneBefore, IsReadBefore, IsReadBeforeOn};

use crate::surveying::survey_ring;
use block_device::Device;
use journal_model::layout::GREATEST_NUMBER;
use journal_model::{Area, JournalError, Tid};
use log_scan::{Finder, Log};
use recovery::{Opened, Report, Tables, clean_log, gather, number_from, read_super, replay};
use std::alloc::Global;

/// A log that was read, whatever stands in it.
#[derive(Drop)]
pub(crate) struct ReadLog {
    pub(crate) superblock: Vec<u8>,
    pub(crate) log: Log,
    /// The complete transactions of its chain.
    pub(crate) transactions: u64,
    /// What the replay uses.
    pub(crate) tables: Tables,
    pub(crate) finder: Finder,
    /// The greatest number in use.
    pub(crate) greatest: u64,
    /// Why `open` refuses it.
    pub(crate) stopped_by: Option<JournalError>,
}

/// Opens a log that `recovery::open` refuses with `Damage` or `Ahead`. It replays the complete transactions before the damaged block,
/// or those of the chain if a block is ahead, and leaves the log clean. All that follows is given up, also complete transactions to
/// which the chain does not lead. A log that `open` accepts is opened in the same way.
///
/// The answer has the opened log, and the refusal of `open` (`SequenceEnd` aside), if any. The report counts the transactions taken,
/// which end before the number `ends_at`. The next number is one more than the greatest in use, so that nothing given up can be taken
/// for part of a later transaction.
///
/// It calls the device as `open` does; for a clean log with a block ahead it also flushes home, writes the superblock and flushes the
/// log. After the first flush of the log, the same call makes the same home of every crash image.
///
/// # Errors
///
/// The device comes back with the refusal.
/// - `BadLength`, if the log area has no block: no call is made.
/// - `BadMagic` to `ErrnoSet`: the superblock's tests; `SequenceEnd`: no number is left; `Memory`: memory ran out. Nothing is written.
/// - `Device`: home and the superblock may have been written.
/// - `Damage`: the log read differently in a later pass, as only incorrect reads do. Some copies may be home; the log is as it was.
///
/// Source: this project's own; fs/jbd2 takes what it finds before the first block that it can't follow.
pub fn open_before_damage<D: Device>(
    alloc: Global,
    device: D,
) -> Result<(Opened<D>, Option<JournalError>), (D, JournalError)>
    ensures opened { IfOk result (λ r. D.honest r.0.device → (texts : List Text) × (greatest : ℕ) ×
        IsOpeningBefore (D.state device).shape (D.state device).disk (D.state r.0.device).disk texts greatest r.1 r.0.superblock r.0.next
        × TellsBefore (reading (D.state device).disk) texts r.0.clean r.0.ends_at r.0.transactions) }
    ensures calls { MatchResult result
        (λ r. D.honest r.0.device → HasDoneBefore (D.state device) (D.state r.0.device) r.1 r.0.superblock r.0.next)
        (λ e. D.honest e.0 → IsBrokenBefore (D.state device) (D.state e.0)) }
    ensures moments { MatchResult result
        (λ r. D.honest r.0.device → EachMoment (IsMomentBefore (D.state device).shape (D.state device).disk) (D.state device) (D.state r.0.device))
        (λ e. D.honest e.0 → EachMoment (IsMomentBefore (D.state device).shape (D.state device).disk) (D.state device) (D.state e.0)) }
    ensures refused { IfErr result (λ e. BeforeRefused (D.honest e.0) (D.state device) (D.state e.0) e.1) }
    ensures no_log { MatchResult result
        (λ _. 0 < (D.state device).shape.log_blocks)
        (λ e. (D.state device).shape.log_blocks ≡ 0 → (e.0 ≡ device) × (e.1 ≡ BadLength)) }
    ensures no_fault { IfOk result (λ r. (D.state r.0.device).faults ≡ (D.state device).faults) }
    ensures shape { MatchResult result (λ r. (D.state r.0.device).shape ≡ (D.state device).shape) (λ e. (D.state e.0).shape ≡ (D.state device).shape) }
    ensures honest { MatchResult result (λ r. D.honest r.0.device → D.honest device) (λ e. D.honest e.0 → D.honest device) }
{
    if device.blocks(Area::Log) == 0 {
        return Err((device, JournalError::BadLength));
    }
    let mut device = device;
    match recover_before(alloc, &mut device) {
        Ok((superblock, next, report, stopped_by)) => {
            let opened = Opened::from_parts(device, superblock, next, report);
            Ok((opened, stopped_by))
        }
        Err(e) => Err((device, e)),
    }
}

/// Answers block 0, the next number, the report, and the refusal of `open`.
fn recover_before<D: Device>(
    alloc: Global,
    device: &mut D,
) -> Result<(Vec<u8>, Tid, Report, Option<JournalError>), JournalError>
    requires some { 0 < (D.state device.old).shape.log_blocks }
    ensures named { IfOk result (λ r. IsNextNamed (D.state device.new).shape r.0.items r.1) }
    ensures done { IfOk result (λ r. D.honest device.new → (texts : List Text) × (greatest : ℕ) × IsDoneBefore (D.state device.old) (D.state device.new) r.3 r.0.items r.1 texts greatest
        × TellsBefore (reading (D.state device.old).disk) texts r.2.clean r.2.ends_at r.2.transactions) }
    ensures broken { IfErr result (λ e. D.honest device.new → IsBrokenBefore (D.state device.old) (D.state device.new)) }
    ensures refused { IfErr result (BeforeRefused (D.honest device.new) (D.state device.old) (D.state device.new)) }
    ensures no_fault { OnOk result ((D.state device.new).faults ≡ (D.state device.old).faults) }
    ensures shape { (D.state device.new).shape ≡ (D.state device.old).shape }
    ensures honest { D.honest device.new → D.honest device.old }
{
    let read = read_log(alloc, device)?;
    device.flush(Area::Log)?;
    let next = number_from(read.greatest);
    let report = report_of(&read);
    let stopped_by = read.stopped_by;
    if report.clean && stopped_by.is_none() {
        return Ok((read.superblock, Tid(next), report, stopped_by));
    }
    let superblock = leave_clean(device, read, next)?;
    Ok((superblock, Tid(next), report, stopped_by))
}

/// Scans chain and ring without memory (for blocks of at most 4096 bytes), then gathers what the replay uses. It writes nothing, and
/// takes all memory that is needed.
pub(crate) fn read_log<D: Device>(alloc: Global, device: &mut D) -> Result<ReadLog, JournalError>
    requires some { 0 < (D.state device.old).shape.log_blocks }
    ensures read { IfOk result (λ r. IsReadBefore (D.state device.old).shape r.superblock.items r.log r.transactions r.greatest r.stopped_by) }
    ensures layout { IfOk result (λ r. r.finder.layout ≡ layout_of r.log) }
    ensures on { IfOk result (λ r. D.honest device.new → (texts : List Text) × IsReadBeforeOn (D.state device.old).shape (D.state device.old).disk r.superblock.items r.log r.transactions r.tables r.greatest r.stopped_by texts) }
    ensures faults { OnOk result ((D.state device.new).faults ≡ (D.state device.old).faults) }
    ensures refused { IfErr result (BeforeRefused (D.honest device.new) (D.state device.old) (D.state device.new)) }
    ensures device { OnlyReads D.state D.honest device.old device.new }
{
    let (block, log) = read_super(alloc, device)?;
    let mut finder = Finder::new(log.layout());
    let found = survey_ring(device, &log, &mut finder)?;
    if found.greatest >= u64::from(GREATEST_NUMBER) {
        return Err(JournalError::SequenceEnd);
    }
    let superblock = block.bytes().to_vec(alloc)?;
    let tables = gather(alloc, device, &log, found.transactions, &mut finder)?;
    Ok(ReadLog {
        superblock,
        log,
        transactions: found.transactions,
        tables,
        finder,
        greatest: found.greatest,
        stopped_by: found.stopped_by,
    })
}

pub(crate) fn report_of(read: &ReadLog) -> Report
    requires { read.now.log.s_sequence + read.now.transactions < 2 ^ 64 }
    ensures clean { result.clean ≡ (read.now.log.s_start == 0) }
    ensures ends { result.ends_at ≡ read.now.log.s_sequence + read.now.transactions }
    ensures transactions { result.transactions ≡ read.now.transactions }
{
    Report {
        clean: read.log.is_clean(),
        ends_at: read.log.first_number() + read.transactions,
        transactions: read.transactions,
    }
}

/// Replays a log that was read and flushed, and leaves it clean with this number. Answers block 0.
fn leave_clean<D: Device>(device: &mut D, read: ReadLog, next: u32) -> Result<Vec<u8>, JournalError>
    requires layout { read.finder.layout ≡ layout_of read.log }
    requires accepted { IsAccepted (D.state device.old).shape.block_size (D.state device.old).shape.log_blocks read.log }
    requires numbers { read.log.s_sequence + read.transactions ≤ greatest_number }
    requires clean { read.log.s_start ≡ 0 → read.transactions ≡ 0 }
    requires size { length read.superblock.items ≡ (D.state device.old).shape.block_size }
    ensures superblock { IfOk result (λ b. b.items ≡ with_tail read.superblock.items next 0) }
    ensures made { OnOk result (D.honest device.new → (texts : List Text) → HoldsTexts read.log (D.state device.old).shape.home_blocks (reading (D.state device.old).disk) texts →
        read.transactions ≡ length texts → (read.log.s_start ≢ 0 → read.tables ≡ tables_of read.log.s_sequence texts) →
        HasMade (writes_home (home_copies texts) ++ cleaning_calls (with_tail read.superblock.items next 0)) (D.state device.old) (D.state device.new)) }
    ensures begun { OnErr result (D.honest device.new → (texts : List Text) → HoldsTexts read.log (D.state device.old).shape.home_blocks (reading (D.state device.old).disk) texts →
        read.transactions ≡ length texts → (read.log.s_start ≢ 0 → read.tables ≡ tables_of read.log.s_sequence texts) →
        HasBegun (writes_home (home_copies texts) ++ cleaning_calls (with_tail read.superblock.items next 0)) (D.state device.old) (D.state device.new)) }
    ensures refused { IfErr result (IsReplayRefused (D.honest device.new) read.log read.transactions (D.state device.old) (D.state device.new)) }
    ensures unmarked { IfErr result (λ e. e ≢ DeviceFailed → (D.state device.new).disk LogArea ≡ (D.state device.old).disk LogArea) }
    ensures faults { OnOk result ((D.state device.new).faults ≡ (D.state device.old).faults) }
    ensures shape { (D.state device.new).shape ≡ (D.state device.old).shape }
    ensures honest { D.honest device.new → D.honest device.old }
{
    let ReadLog {
        superblock,
        log,
        transactions,
        tables,
        finder,
        greatest: _,
        stopped_by: _,
    } = read;
    let mut finder = finder;
    let mut superblock = superblock;
    replay(device, &log, transactions, &tables, &mut finder)?;
    clean_log(device, &mut superblock, next)?;
    Ok(superblock)
}
