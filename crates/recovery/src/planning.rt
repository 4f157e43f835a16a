//! Planning: what an opening would do, found without doing it.
ghost use Rattle.std.specs.Prelude.{◌≡◌, ◌+◌, ◌<◌, ◌≤◌, ◌==◌, ◌^◌, List, length, IfErr, IfOk, OnOk};
ghost use Rattle.journal_model.specs.Disk.{reading};
ghost use Rattle.log_model.specs.declared.log.Text.{Text};
ghost use Rattle.log_model.specs.Opening.{greatest_number, layout_of};
ghost use Rattle.block_device.specs.Call.{OnlyReads};
ghost use Rattle.log_format.specs.Accepted.{IsAccepted};
ghost use Rattle.log_scan.specs.Scanning.{IsChainOf};
ghost use Rattle.recovery.specs.Gather.{IsReplayRefused, count_chosen, tables_of};
ghost use Rattle.recovery.specs.HomeCopies.{home_copies};
ghost use Rattle.recovery.specs.Opening.{OpeningRefused};
ghost use Rattle.recovery.specs.Planned.{IsPlanned};

use crate::examine::{Examined, examine};
use crate::gathering::{Tables, number_of};
use crate::opening::{Report, number_from};
use block_device::Device;
use journal_model::{Area, JournalError, Tid};
use log_model::Tag;
use log_scan::{Cursor, Finder, Found, Log};
use std::alloc::Global;

/// What an opening would do to a log.
#[derive(Clone, Copy, Debug, PartialEq, Eq)]
pub struct Plan {
    /// What it would report.
    pub report: Report,
    /// How many home blocks it would write.
    pub blocks: u64,
    /// The next transaction's number.
    pub next: Tid,
}

/// What `open` would do to this log. It reads as an opening does, and the chain's descriptors once more; it writes and flushes nothing.
/// A later opening does just that if nobody writes the log meanwhile.
///
/// # Errors
///
/// Those of `open`; nothing is written.
pub fn plan_opening<D: Device>(alloc: Global, device: &mut D) -> Result<Plan, JournalError>
    ensures planned { IfOk result (λ p. D.honest device.new → IsPlanned (D.state device.old).shape (D.state device.old).disk p.report.clean p.report.ends_at p.report.transactions p.blocks p.next) }
    ensures refused { IfErr result (OpeningRefused (D.honest device.new) (D.state device.old) (D.state device.new)) }
    ensures no_fault { OnOk result ((D.state device.new).faults ≡ (D.state device.old).faults) }
    ensures device { OnlyReads D.state D.honest device.old device.new }
{
    if device.blocks(Area::Log) == 0 {
        return Err(JournalError::BadLength);
    }
    let examined = examine(alloc, device)?;
    let report = report_of(&examined);
    let blocks = count_home(device, examined)?;
    Ok(Plan {
        report,
        blocks,
        next: Tid(number_from(report.ends_at)),
    })
}

/// The report of an opening of this log.
fn report_of(examined: &Examined) -> Report
    requires { examined.now.log.s_sequence + examined.now.transactions < 2 ^ 64 }
    ensures clean { result.clean ≡ (examined.now.log.s_start == 0) }
    ensures ends { result.ends_at ≡ examined.now.log.s_sequence + examined.now.transactions }
    ensures transactions { result.transactions ≡ examined.now.transactions }
{
    Report {
        clean: examined.log.is_clean(),
        ends_at: examined.log.first_number() + examined.transactions,
        transactions: examined.transactions,
    }
}

/// How many copies of this log go home.
fn count_home<D: Device>(device: &mut D, examined: Examined) -> Result<u64, JournalError>
    requires layout { examined.finder.layout ≡ layout_of examined.log }
    requires accepted { IsAccepted (D.state device.old).shape.block_size (D.state device.old).shape.log_blocks examined.log }
    requires numbers { examined.log.s_sequence + examined.transactions ≤ greatest_number }
    ensures count { IfOk result (λ count. D.honest device.new → (texts : List Text) → IsChainOf examined.log (D.state device.old).shape.home_blocks (reading (D.state device.old).disk) texts →
        examined.transactions ≡ length texts → examined.tables ≡ tables_of examined.log.s_sequence texts → count ≡ length (home_copies texts)) }
    ensures none { IfOk result (λ count. examined.transactions ≡ 0 → count ≡ 0) }
    ensures refused { IfErr result (IsReplayRefused (D.honest device.new) examined.log examined.transactions (D.state device.old) (D.state device.new)) }
    ensures faults { OnOk result ((D.state device.new).faults ≡ (D.state device.old).faults) }
    ensures device { OnlyReads D.state D.honest device.old device.new }
{
    let Examined {
        superblock: _,
        log,
        transactions,
        tables,
        finder,
    } = examined;
    let mut finder = finder;
    count_copies(device, &log, transactions, &tables, &mut finder)
}

/// Counts the copies that `replay` would write home, by the tables. It takes no memory and writes nothing.
///
/// # Errors
///
/// Those of `replay`; nothing is written.
pub fn count_copies<D: Device>(
    device: &mut D,
    log: &Log,
    transactions: u64,
    tables: &Tables,
    finder: &mut Finder,
) -> Result<u64, JournalError>
    requires layout { finder.old.layout ≡ layout_of log.now }
    requires accepted { IsAccepted (D.state device.old).shape.block_size (D.state device.old).shape.log_blocks log.now }
    requires numbers { log.now.s_sequence + transactions ≤ greatest_number }
    ensures count { IfOk result (λ count. D.honest device.new → (texts : List Text) → IsChainOf log.now (D.state device.old).shape.home_blocks (reading (D.state device.old).disk) texts →
        transactions ≡ length texts → tables.now ≡ tables_of log.now.s_sequence texts → count ≡ length (home_copies texts)) }
    ensures none { IfOk result (λ count. transactions ≡ 0 → count ≡ 0) }
    ensures refused { IfErr result (IsReplayRefused (D.honest device.new) log.now transactions (D.state device.old) (D.state device.new)) }
    ensures faults { OnOk result ((D.state device.new).faults ≡ (D.state device.old).faults) }
    ensures device { OnlyReads D.state D.honest device.old device.new }
{
    let home_blocks = Some(device.blocks(Area::Home));
    let mut cursor = Cursor::new();
    let mut place = 0;
    let mut count = 0;
    while cursor.transactions < transactions {
        let tid = number_of(log, cursor.transactions);
        match cursor.advance(device, log, home_blocks, finder)? {
            Found::RevokeBlock(_) | Found::CommitBlock => {}
            Found::Descriptor(n) => {
                count += count_tagged(tables, tid, place, finder.tags(n));
                place += n as u64;
            }
            Found::Malformed | Found::Nothing => {
                return Err(JournalError::Damage(log.place(cursor.position)));
            }
        }
    }
    Ok(count)
}

/// How many copies of these tags go home, from this place on.
fn count_tagged(tables: &Tables, tid: Tid, place: u64, tags: &[Tag]) -> u64
    requires { place + length tags.now < 2 ^ 64 }
    ensures count { result ≡ count_chosen tables.now tid place tags.now }
    ensures few { result ≤ length tags.now }
{
    let mut count = 0;
    for (k, tag) in tags.iter().enumerate() {
        if tables.goes_home(tag.block, tid, place + k as u64) {
            count += 1;
        }
    }
    count
}
