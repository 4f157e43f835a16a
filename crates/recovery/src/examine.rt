//! Reading a log, and testing everything in it before anything is written.
ghost use Rattle.std.specs.Prelude.{◌≡◌, ◌↔◌, ◌+◌, ◌<◌, ◌≤◌, IsTrue, length, IfOk, IfErr, OnOk, MatchOption, MatchResult};
ghost use Rattle.journal_model.specs.declared.number.Area.TheVariants.{Log as LogArea};
ghost use Rattle.journal_model.specs.Disk.{reading};
ghost use Rattle.log_model.specs.Opening.{greatest_number, layout_of, ring_of};
ghost use Rattle.block_device.specs.Call.{OnlyReads};
ghost use Rattle.block_device.specs.State.{IsDeviceFailure, IsFailure, MakesAtMostOneCall};
ghost use Rattle.log_format.specs.Accepted.{IsAccepted};
ghost use Rattle.log_scan.specs.Finding.{most_bytes};
ghost use Rattle.log_scan.specs.Scanning.{IsWithinRing};
ghost use Rattle.log_epochs.specs.OpeningSteps.{Found};
ghost use Rattle.recovery.specs.Opening.{HasTransactions, IsExamined, IsExaminedOn, IsLowestAhead, IsReadingRefused, IsTestRefused, IsTested, IsWellRead, NoneAhead, OpeningRefused};

use crate::gathering::{Tables, gather};
use block_device::Device;
use journal_model::layout::GREATEST_NUMBER;
use journal_model::{Area, Block, JournalError};
use log_format::Super;
use log_scan::{BlockBuffer, Finder, Log, scan};
use std::alloc::Global;

/// A log that was read and not refused: block 0, the superblock's fields, the count of complete transactions, and replay's tables.
#[derive(Drop)]
pub(crate) struct Examined {
    pub(crate) superblock: Vec<u8>,
    pub(crate) log: Log,
    pub(crate) transactions: u64,
    pub(crate) tables: Tables,
    pub(crate) finder: Finder,
}

/// Reads and tests the log, then gathers replay's tables. Nothing is written, and an opening takes all its memory here; the tests take
/// none unless blocks exceed 4096 bytes.
pub(crate) fn examine<D: Device>(alloc: Global, device: &mut D) -> Result<Examined, JournalError>
    requires some { 0 < (D.state device.old).shape.log_blocks }
    ensures examined { IfOk result (λ e. IsExamined (D.state device.old).shape e.superblock.items e.log e.transactions) }
    ensures layout { IfOk result (λ e. e.finder.layout ≡ layout_of e.log) }
    ensures on { IfOk result (λ e. D.honest device.new → (found : Found) × IsExaminedOn (D.state device.old).shape (D.state device.old).disk e.superblock.items e.log e.transactions e.tables found) }
    ensures faults { OnOk result ((D.state device.new).faults ≡ (D.state device.old).faults) }
    ensures refused { IfErr result (OpeningRefused (D.honest device.new) (D.state device.old) (D.state device.new)) }
    ensures device { OnlyReads D.state D.honest device.old device.new }
{
    let (block, log) = read_super(alloc, device)?;
    let mut finder = Finder::new(log.layout());
    let transactions = test_log(device, &log, &mut finder)?;
    let superblock = block.bytes().to_vec(alloc)?;
    let tables = gather(alloc, device, &log, transactions, &mut finder)?;
    Ok(Examined {
        superblock,
        log,
        transactions,
        tables,
        finder,
    })
}

/// Reads block 0 of the log area, which must have one, and tests it. It answers the block and the superblock's fields. It writes
/// nothing, and takes memory only for blocks above 4096 bytes, which no log has.
/// Source: fs/jbd2/journal.c by behaviour; the tests are those of `Super::read`.
///
/// # Errors
///
/// `BadMagic` to `ErrnoSet`: the superblock. `Device`: the read failed. `Memory`: for such a large block.
pub fn read_super<D: Device>(
    alloc: Global,
    device: &mut D,
) -> Result<(BlockBuffer, Log), JournalError>
    requires some { 0 < (D.state device.old).shape.log_blocks }
    ensures well { IfOk result (λ r. IsWellRead (D.state device.old).shape r.0 r.1) }
    ensures read { IfOk result (λ r. D.honest device.new → r.0 ≡ reading (D.state device.old).disk LogArea 0) }
    ensures faults { MatchResult result (λ _. (D.state device.new).faults ≡ (D.state device.old).faults) (IsReadingRefused (D.honest device.new) (D.state device.old) (D.state device.new)) }
    ensures calls { MakesAtMostOneCall (D.state device.old) (D.state device.new) }
    ensures device { OnlyReads D.state D.honest device.old device.new }
{
    if device.block_size() > BlockBuffer::MOST_BYTES {
        return Err(refusal_of_large(alloc, device));
    }
    let mut block = BlockBuffer::new(device.block_size());
    block.read(device, Area::Log, 0)?;
    let fields = Super::read(block.bytes(), device.blocks(Area::Log))?;
    Ok((block, Log::new(fields)))
}

/// Why a log is refused whose blocks exceed any log's.
fn refusal_of_large<D: Device>(alloc: Global, device: &mut D) -> JournalError
    requires some { 0 < (D.state device.old).shape.log_blocks }
    requires large { most_bytes < (D.state device.old).shape.block_size }
    ensures refused { IsReadingRefused (D.honest device.new) (D.state device.old) (D.state device.new) result }
    ensures calls { MakesAtMostOneCall (D.state device.old) (D.state device.new) }
    ensures device { OnlyReads D.state D.honest device.old device.new }
{
    let block = match read_large(alloc, device) {
        Ok(block) => block,
        Err(e) => return e,
    };
    match Super::read(block.bytes(), device.blocks(Area::Log)) {
        // Unreachable: no log has such blocks.
        Ok(_) => JournalError::BadBlockSize,
        Err(e) => e,
    }
}

/// Reads block 0 into allocated memory.
///
/// # Errors
///
/// `Device`: the read failed. `Memory`: nothing was read.
fn read_large<D: Device>(alloc: Global, device: &mut D) -> Result<Block, JournalError>
    requires { 0 < (D.state device.old).shape.log_blocks }
    ensures bytes { IfOk result (λ block. D.honest device.new → block ≡ reading (D.state device.old).disk LogArea 0) }
    ensures size { IfOk result (λ block. length block ≡ (D.state device.old).shape.block_size) }
    ensures faults { MatchResult result (λ _. (D.state device.new).faults ≡ (D.state device.old).faults) (IsFailure (D.state device.old) (D.state device.new)) }
    ensures calls { MakesAtMostOneCall (D.state device.old) (D.state device.new) }
    ensures device { OnlyReads D.state D.honest device.old device.new }
{
    let mut bytes = vec![in alloc; 0; device.block_size()]?;
    device.read(Area::Log, 0, &mut bytes)?;
    Ok(Block::new(bytes)?)
}

/// Counts the log's complete transactions, and refuses what its ring must not hold. It takes no memory.
fn test_log<D: Device>(device: &mut D, log: &Log, finder: &mut Finder) -> Result<u64, JournalError>
    requires layout { finder.old.layout ≡ layout_of log.now }
    requires accepted { IsAccepted (D.state device.old).shape.block_size (D.state device.old).shape.log_blocks log.now }
    ensures layout { finder.new.layout ≡ finder.old.layout }
    ensures number { IfOk result (λ transactions. log.now.s_sequence + transactions < greatest_number) }
    ensures clean { IfOk result (λ transactions. log.now.s_start ≡ 0 → transactions ≡ 0) }
    ensures tested { IfOk result (λ transactions. D.honest device.new → IsTested log.now (D.state device.old).shape.home_blocks (reading (D.state device.old).disk) transactions) }
    ensures refused { IfErr result (IsTestRefused (D.honest device.new) log.now (D.state device.old) (D.state device.new)) }
    ensures faults { OnOk result ((D.state device.new).faults ≡ (D.state device.old).faults) }
    ensures device { OnlyReads D.state D.honest device.old device.new }
{
    let transactions = count_transactions(device, log, finder)?;
    let limit = log.first_number() + transactions;
    if let Some(place) = lowest_ahead(device, log, limit, finder)? {
        return Err(JournalError::Ahead(place));
    }
    if limit >= u64::from(GREATEST_NUMBER) {
        return Err(JournalError::SequenceEnd);
    }
    Ok(transactions)
}

/// Counts the log's complete transactions: none if it is clean.
fn count_transactions<D: Device>(
    device: &mut D,
    log: &Log,
    finder: &mut Finder,
) -> Result<u64, JournalError>
    requires layout { finder.old.layout ≡ layout_of log.now }
    requires accepted { IsAccepted (D.state device.old).shape.block_size (D.state device.old).shape.log_blocks log.now }
    ensures layout { finder.new.layout ≡ finder.old.layout }
    ensures few { IfOk result (λ transactions. transactions ≤ (ring_of log.now).blocks) }
    ensures clean { IfOk result (λ transactions. log.now.s_start ≡ 0 → transactions ≡ 0) }
    ensures has { IfOk result (λ transactions. D.honest device.new → HasTransactions log.now (D.state device.old).shape.home_blocks (reading (D.state device.old).disk) transactions) }
    ensures refused { IfErr result (IsTestRefused (D.honest device.new) log.now (D.state device.old) (D.state device.new)) }
    ensures faults { OnOk result ((D.state device.new).faults ≡ (D.state device.old).faults) }
    ensures device { OnlyReads D.state D.honest device.old device.new }
{
    if log.is_clean() {
        return Ok(0);
    }
    let home_blocks = device.blocks(Area::Home);
    scan(device, log, Some(home_blocks), finder)
}

/// The lowest place, if any, of a ring block that has the magic and a sequence above `limit`, the number after the chain's last
/// transaction. It takes no memory and writes nothing.
/// Source: this project's own.
///
/// # Errors
///
/// `Device`: a read failed.
pub fn lowest_ahead<D: Device>(
    device: &mut D,
    log: &Log,
    limit: u64,
    finder: &mut Finder,
) -> Result<Option<u64>, JournalError>
    requires layout { finder.old.layout ≡ layout_of log.now }
    requires accepted { IsAccepted (D.state device.old).shape.block_size (D.state device.old).shape.log_blocks log.now }
    ensures layout { finder.new.layout ≡ finder.old.layout }
    ensures within { IfOk result (IsWithinRing log.now) }
    ensures ahead { IfOk result (λ found. D.honest device.new → MatchOption found (NoneAhead log.now (reading (D.state device.old).disk) limit) (IsLowestAhead log.now (reading (D.state device.old).disk) limit)) }
    ensures faults { MatchResult result (λ _. (D.state device.new).faults ≡ (D.state device.old).faults) (IsDeviceFailure (D.state device.old) (D.state device.new)) }
    ensures device { OnlyReads D.state D.honest device.old device.new }
{
    let first = u64::from(log.fields().s_first);
    let end = u64::from(log.fields().s_maxlen);
    for place in first..end {
        if is_ahead(finder.sequence_at(device, place)?, limit) {
            return Ok(Some(place));
        }
    }
    Ok(None)
}

/// Whether a block header's sequence, if it has one, is above the limit.
fn is_ahead(sequence: Option<u32>, limit: u64) -> bool
    ensures ahead { IsTrue result ↔ MatchOption sequence ⊥ (λ n. limit < n) }
{
    match sequence {
        Some(sequence) => u64::from(sequence) > limit,
        None => false,
    }
}
