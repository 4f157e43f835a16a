//! Dumping the log of a device: the superblock is tested, the transactions are counted, then all is printed.
ghost use Rattle.std.specs.Prelude.{◌≡◌, ◌≢◌, ◌⊎◌, ◌<◌, ◌≤◌, List, [], length, None, IfOk, IfErr, OnOk, OnErr, MatchResult};
ghost use Rattle.std.specs.Io.KnownBytes.{Appends};
ghost use Rattle.log_model.specs.declared.log.Text.{Text};
ghost use Rattle.journal_model.specs.Disk.{reading};
ghost use Rattle.log_model.specs.Dump.{dump_text};
ghost use Rattle.log_model.specs.Opening.{layout_of, ring_of};
ghost use Rattle.block_device.specs.Call.{OnlyReads};
ghost use Rattle.log_format.specs.Accepted.{IsAccepted};
ghost use Rattle.log_scan.specs.Finding.{every_block, most_bytes};
ghost use Rattle.log_scan.specs.Scanning.{IsChainOf};
ghost use Rattle.log_dump.specs.Dumping.{HasDump, IsDumpFault, IsLogRefused, IsPrintRefused, IsReadLog, PrintsDump, PrintsUpTo, shape_of};

use crate::fault::Fault;
use crate::lines::{write_empty, write_end, write_super};
use crate::printing::write_transactions;
use block_device::{Device, read_block};
use journal_model::{Area, JournalError};
use log_format::Super;
use log_scan::{BlockBuffer, Finder, Log, find_end, scan};
use std::alloc::Global;
use std::io;
use std::io::Write;

/// Prints the dump of the device's log: a line for the superblock, one for each block of its complete transactions, and the number
/// after the last of them. A transaction without a commit block is not printed. `docs/JBENCH.md` has the lines.
///
/// All tests of an opening pass before anything is printed, except those of home block numbers, of remains of earlier laps, and of a
/// next number. No block is read more than twice; the device is not written, and no memory is taken. (If blocks exceed 4096 bytes, as
/// no log's do, block 0 is read into allocated memory.)
/// Source: fs/jbd2/recovery.c by behaviour; the refusals and the lines are this project's own.
///
/// # Errors
///
/// The device is as it was.
/// - `BadMagic` to `ErrnoSet` and `BadLength`: the superblock is refused, or there is none. `Damage`: a descriptor or revoke block
///   after the complete transactions, with the number due there, is malformed at this place of the log area. If reads were correct,
///   nothing is printed.
/// - `Memory` for such a large block 0: nothing is printed.
/// - `Device`: a read failed; the first lines may have been printed.
/// - `Fault::Output`: the log is not refused, and the output can't be written; part of the dump may have been.
pub fn dump<D: Device, W: Write>(alloc: Global, device: &mut D, out: &mut W) -> Result<(), Fault>
    ensures printed { OnOk result (D.honest device.new → PrintsDump (shape_of (D.state device.old)) (reading (D.state device.old).disk) (W.contents out.old) (W.contents out.new)) }
    ensures refused { IfErr result (IsDumpFault (D.honest device.new) (out.new ≡ out.old) (D.state device.old) (D.state device.new)) }
    ensures tested { OnErr result ((out.new ≡ out.old) ⊎ (D.honest device.new → HasDump (shape_of (D.state device.old)) (reading (D.state device.old).disk))) }
    ensures no_fault { OnOk result ((D.state device.new).faults ≡ (D.state device.old).faults) }
    ensures device { OnlyReads D.state D.honest device.old device.new }
{
    let log = read_log(alloc, device)?;
    if log.is_clean() {
        write_clean(out, log.fields())?;
        return Ok(());
    }
    let mut finder = Finder::new(log.layout());
    let transactions = scan(device, &log, None, &mut finder)?;
    write_log(device, &log, &mut finder, transactions, out)
}

/// Prints as `dump`, up to a damaged block: a malformed block after the complete transactions refuses nothing. It answers that block's
/// place, if there is one.
///
/// # Errors
///
/// Those of `dump`. `Damage` comes only if the log reads otherwise during printing, with part of the dump printed.
pub fn dump_up_to_damage<D: Device, W: Write>(
    alloc: Global,
    device: &mut D,
    out: &mut W,
) -> Result<Option<u64>, Fault>
    ensures printed { IfOk result (λ damaged. D.honest device.new →
        PrintsUpTo damaged (shape_of (D.state device.old)) (reading (D.state device.old).disk) (W.contents out.old) (W.contents out.new)) }
    ensures whole { IfOk result (λ damaged. damaged ≡ None → D.honest device.new → HasDump (shape_of (D.state device.old)) (reading (D.state device.old).disk)) }
    ensures device { OnlyReads D.state D.honest device.old device.new }
{
    let log = read_log(alloc, device)?;
    if log.is_clean() {
        write_clean(out, log.fields())?;
        return Ok(None);
    }
    let mut finder = Finder::new(log.layout());
    let end = find_end(device, &log, None, &mut finder)?;
    write_log(device, &log, &mut finder, end.transactions, out)?;
    Ok(end.damaged)
}

/// Reads and tests the superblock.
fn read_log<D: Device>(alloc: Global, device: &mut D) -> Result<Log, JournalError>
    ensures accepted { IfOk result (λ log. IsAccepted (D.state device.old).shape.block_size (D.state device.old).shape.log_blocks log) }
    ensures read { IfOk result (λ log. D.honest device.new → IsReadLog (shape_of (D.state device.old)) (reading (D.state device.old).disk) log) }
    ensures faults { MatchResult result (λ _. (D.state device.new).faults ≡ (D.state device.old).faults) (IsLogRefused (D.honest device.new) (D.state device.old) (D.state device.new)) }
    ensures device { OnlyReads D.state D.honest device.old device.new }
{
    let log_blocks = device.blocks(Area::Log);
    if log_blocks == 0 {
        return Err(JournalError::BadLength);
    }
    if device.block_size() > BlockBuffer::MOST_BYTES {
        return Err(refusal_of_large(alloc, device));
    }
    let mut superblock = BlockBuffer::new(device.block_size());
    superblock.read(device, Area::Log, 0)?;
    let fields = Super::read(superblock.bytes(), log_blocks)?;
    Ok(Log::new(fields))
}

/// Why a log is refused whose blocks exceed any log's. It reads block 0 into allocated memory.
fn refusal_of_large<D: Device>(alloc: Global, device: &mut D) -> JournalError
    requires some { 0 < (D.state device.old).shape.log_blocks }
    requires large { most_bytes < (D.state device.old).shape.block_size }
    ensures refused { IsLogRefused (D.honest device.new) (D.state device.old) (D.state device.new) result }
    ensures device { OnlyReads D.state D.honest device.old device.new }
{
    let block = match read_block(alloc, device, Area::Log, 0) {
        Ok(block) => block,
        Err(e) => return e,
    };
    match Super::read(block.bytes(), device.blocks(Area::Log)) {
        // Unreachable: no log has such blocks.
        Ok(_) => JournalError::BadBlockSize,
        Err(e) => e,
    }
}

/// Prints the dump of a clean log.
fn write_clean<W: Write>(out: &mut W, fields: &Super) -> io::Result<()>
    ensures { OnOk result (fields.now.s_start ≡ 0 → Appends (W.contents out.old) (W.contents out.new) (dump_text fields.now [])) }
{
    write_super(out, fields)?;
    write_empty(out, fields.s_sequence)
}

/// Prints the dump of a log that is not clean, with this many complete transactions.
fn write_log<D: Device, W: Write>(
    device: &mut D,
    log: &Log,
    finder: &mut Finder,
    transactions: u64,
    out: &mut W,
) -> Result<(), Fault>
    requires layout { finder.old.layout ≡ layout_of log.now }
    requires accepted { IsAccepted (D.state device.old).shape.block_size (D.state device.old).shape.log_blocks log.now }
    requires few { transactions ≤ (ring_of log.now).blocks }
    ensures printed { OnOk result (D.honest device.new → (texts : List Text) → log.now.s_start ≢ 0 → IsChainOf log.now (every_block log.now) (reading (D.state device.old).disk) texts → transactions ≡ length texts → Appends (W.contents out.old) (W.contents out.new) (dump_text log.now texts)) }
    ensures refused { IfErr result (IsPrintRefused (D.honest device.new) ((texts : List Text) → IsChainOf log.now (every_block log.now) (reading (D.state device.old).disk) texts → transactions ≡ length texts → ⊥) log.now (D.state device.old) (D.state device.new)) }
    ensures faults { OnOk result ((D.state device.new).faults ≡ (D.state device.old).faults) }
    ensures device { OnlyReads D.state D.honest device.old device.new }
{
    write_super(out, log.fields())?;
    write_transactions(device, log, finder, transactions, out)?;
    write_end(out, log.first_number() + transactions, transactions)?;
    Ok(())
}
