//! Gathering the tables for replay in one pass over the chain.
ghost use Rattle.std.specs.Prelude.{◌≡◌, ◌≢◌, ◌⊎◌, ◌+◌, ◌<◌, ◌≤◌, ◌^◌, List, length, IfOk, IfErr, OnOk};
ghost use Rattle.log_model.specs.declared.log.Text.{Text};
ghost use Rattle.journal_model.specs.declared.refusal.JournalError.TheVariants.{Memory};
ghost use Rattle.journal_model.specs.Disk.{reading};
ghost use Rattle.log_model.specs.Opening.{greatest_number, layout_of};
ghost use Rattle.block_device.specs.Call.{OnlyReads};
ghost use Rattle.log_format.specs.Accepted.{IsAccepted};
ghost use Rattle.log_scan.specs.Scanning.{IsChainOf};
ghost use Rattle.block_tables.specs.Revokes.{noted_all, notes_of};
ghost use Rattle.block_tables.specs.Copies.{placed_all};
ghost use Rattle.recovery.specs.Choice.{goes_by};
ghost use Rattle.recovery.specs.Gather.{IsGatherRefused, empty_tables, tables_of, with_copies, with_revokes};

use block_device::Device;
use block_tables::{CopyTable, RevokeTable};
use journal_model::{Area, BlockNo, JournalError, Tid};
use log_model::Tag;
use log_scan::{Cursor, Finder, Found, Log};
use std::alloc::Global;
use std::marker::Model;

/// Replay's tables: the greatest transaction that revokes each block, and the place of each block's newest copy among the chain's
/// copies.
#[derive(Drop)]
pub struct Tables {
    revokes: RevokeTable,
    copies: CopyTable,
}

impl Model for Tables {
    ghost use Rattle.recovery.specs.Gather.{TablesValue, tables_code};

    ghost Value = { TablesValue };

    ghost coded = { tables_code };

    ghost view = { λ t. record { revokes = t.revokes; copies = t.copies } };
}

impl Tables {
    /// Empty tables, which take no memory.
    pub fn new(alloc: Global) -> Self
        ensures { result ≡ empty_tables }
    {
        Tables {
            revokes: RevokeTable::new(alloc),
            copies: CopyTable::new(alloc),
        }
    }

    /// Whether the copy of this transaction at this place goes home: it is its block's newest, and neither its own transaction nor a
    /// later one revokes the block.
    pub fn goes_home(&self, block: BlockNo, tid: Tid, place: u64) -> bool
        ensures { result ≡ goes_by self.now.revokes self.now.copies tid place block }
    {
        self.copies.newest(block) == Some(place) && !self.revokes.covers(block, tid)
    }

    /// Adds the revokes of a transaction.
    fn note_revokes(&mut self, numbers: &[BlockNo], tid: Tid) -> Result<(), JournalError>
        ensures ok { OnOk result (self.new ≡ with_revokes self.old tid numbers.now) }
        ensures refused { IfErr result (λ e. e ≡ Memory) }
    {
        for number in numbers {
            self.revokes.note(*number, tid)?;
        }
        Ok(())
    }

    /// Adds the copies of a descriptor's tags, from this place on.
    fn note_copies(&mut self, tags: &[Tag], place: u64) -> Result<(), JournalError>
        requires { place + length tags.now < 2 ^ 64 }
        ensures ok { OnOk result (self.new ≡ with_copies self.old place tags.now) }
        ensures refused { IfErr result (λ e. e ≡ Memory) }
    {
        for (k, tag) in tags.iter().enumerate() {
            self.copies.note(tag.block, place + k as u64)?;
        }
        Ok(())
    }
}

/// The number of the transaction after these.
pub(crate) fn number_of(log: &Log, transactions: u64) -> Tid
    requires { log.now.s_sequence + transactions ≤ greatest_number }
    ensures { result ≡ log.now.s_sequence + transactions }
{
    Tid((log.first_number() + transactions) as u32)
}

/// Gathers the revokes and copies of the complete transactions, which `scan` counted in a log that is not clean. It reads no copies,
/// and writes nothing. Numbers do not wrap, as an opening refuses a log without a next number first.
/// Source: fs/jbd2/recovery.c by behaviour; the table of copies is this project's own.
///
/// # Errors
///
/// `Memory`. `Device`: a read failed. `Damage`: the log reads otherwise than to `scan`, at the place named.
pub fn gather<D: Device>(
    alloc: Global,
    device: &mut D,
    log: &Log,
    transactions: u64,
    finder: &mut Finder,
) -> Result<Tables, JournalError>
    requires layout { finder.old.layout ≡ layout_of log.now }
    requires accepted { IsAccepted (D.state device.old).shape.block_size (D.state device.old).shape.log_blocks log.now }
    requires numbers { log.now.s_sequence + transactions ≤ greatest_number }
    ensures layout { finder.new.layout ≡ finder.old.layout }
    ensures tables { IfOk result (λ tables. D.honest device.new → (texts : List Text) → IsChainOf log.now (D.state device.old).shape.home_blocks (reading (D.state device.old).disk) texts →
        transactions ≡ length texts → tables ≡ tables_of log.now.s_sequence texts) }
    ensures refused { IfErr result (IsGatherRefused (D.honest device.new) log.now transactions (D.state device.old) (D.state device.new)) }
    ensures faults { OnOk result ((D.state device.new).faults ≡ (D.state device.old).faults) }
    ensures device { OnlyReads D.state D.honest device.old device.new }
{
    let home_blocks = Some(device.blocks(Area::Home));
    let mut tables = Tables::new(alloc);
    let mut cursor = Cursor::new();
    let mut copies = 0;
    while cursor.transactions < transactions {
        let tid = number_of(log, cursor.transactions);
        match cursor.advance(device, log, home_blocks, finder)? {
            Found::RevokeBlock(count) => tables.note_revokes(finder.numbers(count), tid)?,
            Found::Descriptor(count) => {
                tables.note_copies(finder.tags(count), copies)?;
                copies += count as u64;
            }
            Found::CommitBlock => {}
            Found::Malformed | Found::Nothing => {
                return Err(JournalError::Damage(log.place(cursor.position)));
            }
        }
    }
    Ok(tables)
}
