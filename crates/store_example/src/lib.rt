//! An example: a store over the journal of one thread, which keeps a block of bytes under a key. `docs/TUTORIAL.md` builds it in five steps.
//!
//! Block 0 of the volume is the index: its byte `key` is the number of the block that has the key's value, its *slot*, or 0.
#![tactic(auto)]

ghost use Rattle.std.specs.Prelude.{◌≡◌, ℕ, ◌<◌, ◌≤◌, List, length, slice_index, slice_set, IfOk, OnOk, IfSome, MatchOption};
ghost use Rattle.keelsoursop.specs.journal_front.Front.{IsOpenHandle};
ghost use Rattle.store_example.specs.Store.{Holds, WritesTogether};

mod files;

use anyhow::{Result, bail};
pub use files::device;
use keelsoursop::{BlockNo, Device, Handle, Journal, JournalError, Receipt, Ticket};
use std::alloc::Global;

/// The index.
const INDEX: BlockNo = BlockNo(0);

/// Opens the store of a device that has a log. Whatever happened before, it has what was committed.
///
/// # Errors
///
/// The log is refused, the device failed, or memory ran out.
pub fn open<D: Device + Drop>(alloc: Global, device: D) -> Result<Journal<D>> {
    let opened = match keelsoursop::open(alloc, device) {
        Ok(opened) => opened,
        Err((_device, e)) => bail!("{e}"),
    };
    match Journal::new(alloc, opened) {
        Ok(journal) => Ok(journal),
        Err((_opened, e)) => bail!("{e}"),
    }
}

/// Stores a block of bytes under a key. The receipt says that it survives every crash from now on.
///
/// # Errors
///
/// The value is not one block, the key is not below the block size, no slot is free, or a call of the journal is refused. The key has its
/// old value or this one.
pub fn put<D: Device + Drop>(
    alloc: Global,
    journal: &mut Journal<D>,
    key: usize,
    value: &[u8],
) -> Result<Receipt>
    ensures safe { IfOk result (λ receipt. receipt.tid ≤ journal.new.journal.front.mark) }
    ensures stored { OnOk result (Holds D.state journal.new key value.now) }
{
    if value.len() != journal.block_size() {
        bail!("a value is one block long");
    }
    let mut index = vec![in alloc; 0u8; journal.block_size()]?;
    journal.read_newest(INDEX, &mut index)?;
    let Some(slot) = free_slot(&index, journal.home_blocks()) else {
        bail!("no slot is free");
    };
    if index.len() <= key {
        bail!("there is no such key");
    }
    index[key] = slot;
    let ticket = change(journal, slot, value, &index)?;
    match journal.commit(ticket) {
        Ok(receipt) => Ok(receipt),
        Err((_ticket, e)) => bail!("{e}"),
    }
}

/// The first slot that no key has.
fn free_slot(index: &[u8], home_blocks: u64) -> Option<u8>
    ensures { IfSome result (λ slot. 0 < slot) }
{
    for slot in 1..=u8::MAX {
        if u64::from(slot) < home_blocks && !index.contains(&slot) {
            return Some(slot);
        }
    }
    None
}

/// Changes a slot and the index together, through one handle.
fn change<D: Device + Drop>(
    journal: &mut Journal<D>,
    slot: u8,
    value: &[u8],
    index: &[u8],
) -> Result<Ticket, JournalError>
    requires value { length value.now ≡ (D.state journal.old.device).shape.block_size }
    requires index { length index.now ≡ (D.state journal.old.device).shape.block_size }
    ensures together { IfOk result (λ ticket. WritesTogether ticket slot value.now index.now journal.old journal.new) }
{
    let mut handle = journal.try_start(2)?;
    let written = write_both(journal, &mut handle, slot, value, index);
    let ticket = journal.stop(handle);
    written?;
    Ok(ticket)
}

/// Writes the slot first, to which nothing refers yet, and the index last, which refers to it.
fn write_both<D: Device + Drop>(
    journal: &mut Journal<D>,
    handle: &mut Handle,
    slot: u8,
    value: &[u8],
    index: &[u8],
) -> Result<(), JournalError>
    requires value { length value.now ≡ (D.state journal.old.device).shape.block_size }
    requires index { length index.now ≡ (D.state journal.old.device).shape.block_size }
    ensures together { OnOk result (WritesTogether (record { handle = handle.old.number; tid = handle.old.tid }) slot value.now index.now
        journal.old journal.new) }
    ensures open { OnOk result (IsOpenHandle journal.new.journal.front handle.new) }
    ensures number { OnOk result (handle.new.number ≡ handle.old.number) }
{
    journal.write(handle, BlockNo(u64::from(slot)), value)?;
    journal.write(handle, INDEX, index)
}

/// Reads the value of a key, if it has one.
///
/// # Errors
///
/// A call of the journal is refused, or memory ran out.
pub fn get<D: Device + Drop>(
    alloc: Global,
    journal: &mut Journal<D>,
    key: usize,
) -> Result<Option<Vec<u8>>>
    ensures { (value : List ℕ) → Holds D.state journal.old key value → D.honest journal.new.device
        → IfOk result (λ found. MatchOption found ⊥ (λ bytes. bytes.items ≡ value)) }
{
    let mut bytes = vec![in alloc; 0u8; journal.block_size()]?;
    journal.read_newest(INDEX, &mut bytes)?;
    let slot = bytes.get(key).copied().unwrap_or(0);
    if slot == 0 {
        return Ok(None);
    }
    journal.read_newest(BlockNo(u64::from(slot)), &mut bytes)?;
    Ok(Some(bytes))
}

/// Ends the store: all is home, and the log is clean.
///
/// # Errors
///
/// A handle is open, or the close is refused: the next opening does the rest.
pub fn close<D: Device + Drop>(journal: Journal<D>) -> Result<()> {
    if journal.has_open_handles() {
        bail!("a handle has not stopped");
    }
    match journal.close() {
        Ok(_parts) => Ok(()),
        Err((_parts, e)) => bail!("{e}"),
    }
}
