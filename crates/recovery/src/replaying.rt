//! Replay: writes the newest copies home, then marks the log clean.
ghost use Rattle.std.specs.Prelude.{◌≡◌, ℕ, ◌+◌, ◌<◌, ◌≤◌, ◌^◌, [], ◌∷◌, List, All, length, take, IfErr, OnOk, OnErr, MatchResult};
ghost use Rattle.log_model.specs.declared.log.Text.{Text};
ghost use Rattle.journal_model.specs.declared.number.Area.TheVariants.{Log as LogArea};
ghost use Rattle.journal_model.specs.Disk.{reading};
ghost use Rattle.log_model.specs.Opening.{greatest_number, layout_of, ring_of};
ghost use Rattle.log_model.specs.Superblock.{with_tail};
ghost use Rattle.block_device.specs.State.{IsDeviceFailure, Stays};
ghost use Rattle.log_format.specs.Accepted.{IsAccepted};
ghost use Rattle.log_format.specs.Size.{IsBlockSize};
ghost use Rattle.log_scan.specs.Finding.{MakesCalls};
ghost use Rattle.log_scan.specs.Passing.{StandAt};
ghost use Rattle.log_scan.specs.Scanning.{IsChainOf};
ghost use Rattle.recovery.specs.Calls.{HasBegun, HasMade, cleaning_calls, writes_home};
ghost use Rattle.recovery.specs.Gather.{IsReplayRefused, chosen_after, copy_calls, tables_of};
ghost use Rattle.recovery.specs.HomeCopies.{home_copies};

use crate::gathering::{Tables, number_of};
use block_device::Device;
use journal_model::{Area, JournalError, Tid};
use log_format::Super;
use log_model::Tag;
use log_scan::{Cursor, Finder, Found, Log};

/// The copies of one descriptor.
#[derive(Clone, Copy)]
struct Copies {
    /// The transaction of these copies.
    tid: Tid,
    /// How many copies of the chain come before them.
    place: u64,
    /// The first one's position in the ring.
    position: u64,
    /// How many there are.
    count: usize,
}

/// Writes home the copies of a log that is not clean, in the chain's order: each block's newest, unescaped, unless its own or a later
/// transaction revokes the block. `transactions` is what `scan` answered, `tables` what `gather` did. It writes no block twice and
/// nothing to the log, and takes no memory. It answers Ok only after passing every transaction.
/// Source: fs/jbd2/recovery.c by behaviour; that a block is written once is this project's own.
///
/// # Errors
///
/// `Device`: some copies are home. `Damage`: the log reads otherwise than to `scan`, at the place named, which needs incorrect reads.
/// Copies at home may be wrong: do not mark the log clean.
pub fn replay<D: Device>(
    device: &mut D,
    log: &Log,
    transactions: u64,
    tables: &Tables,
    finder: &mut Finder,
) -> Result<(), JournalError>
    requires layout { finder.old.layout ≡ layout_of log.now }
    requires accepted { IsAccepted (D.state device.old).shape.block_size (D.state device.old).shape.log_blocks log.now }
    requires numbers { log.now.s_sequence + transactions ≤ greatest_number }
    ensures made { OnOk result (D.honest device.new → (texts : List Text) → IsChainOf log.now (D.state device.old).shape.home_blocks (reading (D.state device.old).disk) texts →
        transactions ≡ length texts → tables.now ≡ tables_of log.now.s_sequence texts → HasMade (writes_home (home_copies texts)) (D.state device.old) (D.state device.new)) }
    ensures begun { OnErr result (D.honest device.new → (texts : List Text) → IsChainOf log.now (D.state device.old).shape.home_blocks (reading (D.state device.old).disk) texts →
        transactions ≡ length texts → tables.now ≡ tables_of log.now.s_sequence texts → HasBegun (writes_home (home_copies texts)) (D.state device.old) (D.state device.new)) }
    ensures none { transactions ≡ 0 → Stays (D.state device.old) (D.state device.new) }
    ensures passed { OnOk result (MakesCalls transactions (D.state device.old) (D.state device.new)) }
    ensures refused { IfErr result (IsReplayRefused (D.honest device.new) log.now transactions (D.state device.old) (D.state device.new)) }
    ensures faults { OnOk result ((D.state device.new).faults ≡ (D.state device.old).faults) }
    ensures log { (D.state device.new).disk LogArea ≡ (D.state device.old).disk LogArea }
    ensures shape { (D.state device.new).shape ≡ (D.state device.old).shape }
    ensures honest { D.honest device.new → D.honest device.old }
{
    let home_blocks = Some(device.blocks(Area::Home));
    let mut cursor = Cursor::new();
    let mut place = 0;
    while cursor.transactions < transactions {
        let tid = number_of(log, cursor.transactions);
        let position = cursor.position + 1;
        match cursor.advance(device, log, home_blocks, finder)? {
            Found::RevokeBlock(_) | Found::CommitBlock => {}
            Found::Descriptor(count) => {
                let copies = Copies {
                    tid,
                    place,
                    position,
                    count,
                };
                write_copies(device, log, tables, copies, finder)?;
                place += count as u64;
            }
            Found::Malformed | Found::Nothing => {
                return Err(JournalError::Damage(log.place(cursor.position)));
            }
        }
    }
    Ok(())
}

/// Writes home those copies of the last descriptor that the tables choose.
fn write_copies<D: Device>(
    device: &mut D,
    log: &Log,
    tables: &Tables,
    copies: Copies,
    finder: &mut Finder,
) -> Result<(), JournalError>
    requires layout { finder.old.layout ≡ layout_of log.now }
    requires accepted { IsAccepted (D.state device.old).shape.block_size (D.state device.old).shape.log_blocks log.now }
    requires tags { copies.count ≤ length finder.old.tags }
    requires there { All (λ t. t.block < (D.state device.old).shape.home_blocks) (take copies.count finder.old.tags) }
    requires within { copies.position + copies.count ≤ (ring_of log.now).blocks }
    requires room { copies.place + copies.count < 2 ^ 64 }
    ensures layout { finder.new.layout ≡ finder.old.layout }
    ensures made { OnOk result (D.honest device.new → (blocks : List (List ℕ)) → StandAt log.now (reading (D.state device.old).disk) copies.position copies.count blocks →
        HasMade (writes_home (chosen_after tables.now copies.tid copies.place (take copies.count finder.old.tags) blocks)) (D.state device.old) (D.state device.new)) }
    ensures begun { OnErr result (D.honest device.new → (blocks : List (List ℕ)) → StandAt log.now (reading (D.state device.old).disk) copies.position copies.count blocks →
        HasBegun (writes_home (chosen_after tables.now copies.tid copies.place (take copies.count finder.old.tags) blocks)) (D.state device.old) (D.state device.new)) }
    ensures faults { MatchResult result (λ _. (D.state device.new).faults ≡ (D.state device.old).faults) (IsDeviceFailure (D.state device.old) (D.state device.new)) }
    ensures log { (D.state device.new).disk LogArea ≡ (D.state device.old).disk LogArea }
    ensures calls { OnOk result (MakesCalls 0 (D.state device.old) (D.state device.new)) }
    ensures shape { (D.state device.new).shape ≡ (D.state device.old).shape }
    ensures honest { D.honest device.new → D.honest device.old }
{
    for k in 0..copies.count {
        let tag = finder.tag(k);
        if tables.goes_home(tag.block, copies.tid, copies.place + k as u64) {
            copy_home(device, log, copies.position + k as u64, tag, finder)?;
        }
    }
    Ok(())
}

/// Writes home the copy at this position of the ring.
fn copy_home<D: Device>(
    device: &mut D,
    log: &Log,
    position: u64,
    tag: Tag,
    finder: &mut Finder,
) -> Result<(), JournalError>
    requires layout { finder.old.layout ≡ layout_of log.now }
    requires accepted { IsAccepted (D.state device.old).shape.block_size (D.state device.old).shape.log_blocks log.now }
    requires there { tag.block < (D.state device.old).shape.home_blocks }
    ensures layout { finder.new.layout ≡ finder.old.layout }
    ensures tags { finder.new.tags ≡ finder.old.tags }
    ensures made { OnOk result (D.honest device.new → HasMade (copy_calls log.now (reading (D.state device.old).disk) position tag) (D.state device.old) (D.state device.new)) }
    ensures begun { OnErr result (D.honest device.new → HasBegun (copy_calls log.now (reading (D.state device.old).disk) position tag) (D.state device.old) (D.state device.new)) }
    ensures faults { MatchResult result (λ _. (D.state device.new).faults ≡ (D.state device.old).faults) (IsDeviceFailure (D.state device.old) (D.state device.new)) }
    ensures log { (D.state device.new).disk LogArea ≡ (D.state device.old).disk LogArea }
    ensures calls { OnOk result (MakesCalls 0 (D.state device.old) (D.state device.new)) }
    ensures shape { (D.state device.new).shape ≡ (D.state device.old).shape }
    ensures honest { D.honest device.new → D.honest device.old }
{
    finder.read_copy(device, log, position, tag.escaped)?;
    device.write(Area::Home, tag.block.0, finder.block())?;
    Ok(())
}

/// Makes home durable, then marks the log clean: a flush of home, the write of block 0, a flush of the log. `superblock` is block 0 as
/// read, and becomes what is written; `next` is the next transaction's number.
/// Source: fs/jbd2/recovery.c by behaviour.
///
/// # Errors
///
/// `Device`: the superblock may have been written, and then home is durable.
pub fn clean_log<D: Device>(
    device: &mut D,
    superblock: &mut [u8],
    next: u32,
) -> Result<(), JournalError>
    requires size { length superblock.old ≡ (D.state device.old).shape.block_size }
    requires allowed { IsBlockSize (length superblock.old) }
    requires there { 0 < (D.state device.old).shape.log_blocks }
    ensures superblock { OnOk result (superblock.new ≡ with_tail superblock.old next 0) }
    ensures made { OnOk result (HasMade (cleaning_calls (with_tail superblock.old next 0)) (D.state device.old) (D.state device.new)) }
    ensures begun { OnErr result (HasBegun (cleaning_calls (with_tail superblock.old next 0)) (D.state device.old) (D.state device.new)) }
    ensures faults { MatchResult result (λ _. (D.state device.new).faults ≡ (D.state device.old).faults) (IsDeviceFailure (D.state device.old) (D.state device.new)) }
    ensures shape { (D.state device.new).shape ≡ (D.state device.old).shape }
    ensures honest { D.honest device.new → D.honest device.old }
{
    device.flush(Area::Home)?;
    Super::write(superblock, next, 0);
    device.write(Area::Log, 0, superblock)?;
    device.flush(Area::Log)?;
    Ok(())
}
