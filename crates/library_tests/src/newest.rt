//! Reads without a handle, in a journal of one thread.

use crate::expected::expect;
use block_device::{Device, MemDevice};
use group_commit::{Journal, Record, Ticket, Turn};
use journal_model::{Area, BlockNo, JournalError};
use recovery::Opened;
use std::alloc::Global;
use std::test::Fail;
use test_logs::{BLOCK_SIZE, formatted, opened};

/// A journal on an opened log.
pub fn journal_on<K: Record>(
    alloc: Global,
    opened: Opened<MemDevice>,
) -> Result<Journal<MemDevice, K>, JournalError> {
    match Journal::new(alloc, opened) {
        Ok(journal) => Ok(journal),
        Err((_, e)) => Err(e),
    }
}

/// The first byte of a block, if the journal has the measures of its device.
fn first(journal: &mut Journal<MemDevice>, block: u64) -> Result<u8, JournalError> {
    let mut bytes = [0xee; BLOCK_SIZE];
    if journal.block_size() != BLOCK_SIZE {
        return Err(JournalError::TooMany);
    }
    if journal.home_blocks() != journal.device().blocks(Area::Home) {
        return Err(JournalError::TooMany);
    }
    journal.read_newest(BlockNo(block), &mut bytes)?;
    Ok(bytes[0])
}

/// A handle writes this byte to a block, or revokes it if the byte is 0, and stops.
pub fn change<K: Record>(
    journal: &mut Journal<MemDevice, K>,
    block: u64,
    byte: u8,
) -> Result<Ticket, JournalError> {
    if journal.block_size() != BLOCK_SIZE {
        return Err(JournalError::BadBlockSize);
    }
    let mut handle = journal.try_start(1)?;
    let changed = match byte {
        0 => journal.revoke(&mut handle, BlockNo(block)),
        _ => journal.write(&mut handle, BlockNo(block), &[byte; BLOCK_SIZE]),
    };
    let ticket = journal.stop(handle);
    changed?;
    Ok(ticket)
}

/// A block before a write, after it, during its commit, after another write, after both commits, and when it is home; and whether a commit
/// was under way, and the number of entries is the same before and after the last reads.
fn read_by_turns(journal: &mut Journal<MemDevice>) -> Result<([u8; 6], [bool; 2]), JournalError> {
    let empty = first(journal, 9)?;
    let one = change(journal, 9, 0x11)?;
    let running = first(journal, 9)?;
    journal.request(&one)?;
    let is_sealed = matches!(journal.commit_turn()?, Turn::Sealed(_));
    let committing = first(journal, 9)?;
    let two = change(journal, 9, 0x22)?;
    let newer = first(journal, 9)?;
    if let Err((_, e)) = journal.commit(two) {
        return Err(e);
    }
    let entries = journal.entries();
    let committed = first(journal, 9)?;
    journal.release_all()?;
    let read = [
        empty,
        running,
        committing,
        newer,
        committed,
        first(journal, 9)?,
    ];
    Ok((read, [is_sealed, journal.entries() == entries]))
}

/// How many transactions are committed after the close.
fn closed(journal: Journal<MemDevice>) -> Option<u64> {
    if journal.has_open_handles() {
        return None;
    }
    match journal.close() {
        Ok(parts) => Some(parts.committed),
        Err(_) => None,
    }
}

/// It sees what a handle's read would, and makes no transaction.
#[test]
fn a_read_without_a_handle_sees_the_newest_copy(rt: HostRuntime) -> Result<(), Fail> {
    let mut journal = journal_on(
        rt.alloc(),
        opened(rt.alloc(), formatted(rt.alloc(), 33, 64)?)?,
    )?;
    let told = read_by_turns(&mut journal);
    let read = [0, 0x11, 0x11, 0x22, 0x22, 0x22];
    expect(
        &rt,
        &(told, closed(journal)),
        &(Ok((read, [true, true])), Some(2)),
    );
    Ok(())
}
