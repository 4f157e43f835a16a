//! The second pass over a log, which prints the complete transactions.
ghost use Rattle.std.specs.Prelude.{◌≡◌, ℕ, ◌+◌, ◌≤◌, List, length, IfOk, IfErr, OnOk, MatchResult};
ghost use Rattle.std.specs.Io.KnownBytes.{Appends};
ghost use Rattle.log_model.specs.declared.log.Text.{Text};
ghost use Rattle.journal_model.specs.Disk.{reading};
ghost use Rattle.log_model.specs.Dump.{texts_captions};
ghost use Rattle.log_model.specs.Opening.{layout_of, ring_of};
ghost use Rattle.log_model.specs.ReadingLog.{NoTextBegins};
ghost use Rattle.log_model.specs.Superblock.{greatest_length};
ghost use Rattle.block_device.specs.Call.{OnlyReads};
ghost use Rattle.log_format.specs.Accepted.{IsAccepted};
ghost use Rattle.log_scan.specs.Finding.{blocks_from, every_block};
ghost use Rattle.log_scan.specs.Scanning.{IsChainOf};
ghost use Rattle.log_dump.specs.Dumping.{IsPrinted, IsPrintRefused};
ghost use Rattle.log_dump.specs.Lines.{placed_lines, tags_captions};

use crate::fault::Fault;
use crate::lines::{write_commit, write_copy, write_descriptor, write_revokes};
use block_device::Device;
use journal_model::JournalError;
use log_model::Tag;
use log_scan::{Finder, Found, Log};
use std::io;
use std::io::Write;

/// Prints the lines of the first `transactions` transactions.
pub(crate) fn write_transactions<D: Device, W: Write>(
    device: &mut D,
    log: &Log,
    finder: &mut Finder,
    transactions: u64,
    out: &mut W,
) -> Result<(), Fault>
    requires layout { finder.old.layout ≡ layout_of log.now }
    requires accepted { IsAccepted (D.state device.old).shape.block_size (D.state device.old).shape.log_blocks log.now }
    requires few { transactions ≤ (ring_of log.now).blocks }
    ensures printed { OnOk result (D.honest device.new → (texts : List Text) → IsChainOf log.now (every_block log.now) (reading (D.state device.old).disk) texts → transactions ≡ length texts → Appends (W.contents out.old) (W.contents out.new) (placed_lines log.now 0 (texts_captions log.now.s_sequence texts))) }
    ensures refused { IfErr result (IsPrintRefused (D.honest device.new) ((texts : List Text) → IsChainOf log.now (every_block log.now) (reading (D.state device.old).disk) texts → transactions ≡ length texts → ⊥) log.now (D.state device.old) (D.state device.new)) }
    ensures faults { OnOk result ((D.state device.new).faults ≡ (D.state device.old).faults) }
    ensures device { OnlyReads D.state D.honest device.old device.new }
{
    let mut position = 0;
    for k in 0..transactions {
        position = write_text(device, log, finder, position, log.first_number() + k, out)?;
    }
    Ok(())
}

/// Prints the lines of the transaction that begins at this position, and answers the position after it.
fn write_text<D: Device, W: Write>(
    device: &mut D,
    log: &Log,
    finder: &mut Finder,
    start: u64,
    sequence: u64,
    out: &mut W,
) -> Result<u64, Fault>
    requires layout { finder.old.layout ≡ layout_of log.now }
    requires accepted { IsAccepted (D.state device.old).shape.block_size (D.state device.old).shape.log_blocks log.now }
    requires within { start ≤ (ring_of log.now).blocks }
    ensures layout { finder.new.layout ≡ finder.old.layout }
    ensures within { IfOk result (λ end. (start ≤ end) × (end ≤ (ring_of log.now).blocks)) }
    ensures printed { IfOk result (λ end. D.honest device.new → IsPrinted log.now (reading (D.state device.old).disk) sequence (W.contents out.old) (W.contents out.new) start end) }
    ensures refused { IfErr result (IsPrintRefused (D.honest device.new) (NoTextBegins (layout_of log.now) (every_block log.now) sequence (blocks_from log.now (reading (D.state device.old).disk) start)) log.now (D.state device.old) (D.state device.new)) }
    ensures faults { OnOk result ((D.state device.new).faults ≡ (D.state device.old).faults) }
    ensures device { OnlyReads D.state D.honest device.old device.new }
{
    let mut position = start;
    loop {
        let place = log.place(position);
        match finder.look(device, log, None, position, sequence)? {
            Found::RevokeBlock(numbers) => {
                write_revokes(out, place, sequence, finder.numbers(numbers))?;
                position += 1;
            }
            Found::Descriptor(tags) => {
                write_copies(out, log, position, sequence, finder.tags(tags))?;
                position += 1 + tags as u64;
            }
            Found::CommitBlock => {
                write_commit(out, place, sequence)?;
                return Ok(position + 1);
            }
            // The block reads otherwise than before.
            Found::Malformed | Found::Nothing => {
                return Err(Fault::Refused(JournalError::Damage(place)));
            }
        }
    }
}

/// Prints the lines of the descriptor at this position, and of its copies.
fn write_copies<W: Write>(
    out: &mut W,
    log: &Log,
    position: u64,
    sequence: u64,
    tags: &[Tag],
) -> io::Result<()>
    requires within { position + 1 + length tags.now ≤ (ring_of log.now).blocks }
    requires few { (ring_of log.now).blocks ≤ greatest_length }
    ensures { OnOk result (Appends (W.contents out.old) (W.contents out.new) (placed_lines log.now position (tags_captions sequence tags.now))) }
{
    write_descriptor(out, log.place(position), sequence, tags.len())?;
    for i in 0..tags.len() {
        write_copy(out, log.place(position + 1 + i as u64), sequence, &tags[i])?;
    }
    Ok(())
}
