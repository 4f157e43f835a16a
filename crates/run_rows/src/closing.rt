//! Closes a journal over a device that stops or fails.
ghost use Rattle.std.specs.Prelude.{◌≡◌, length, IfOk};

use block_device::{FailOnce, MemDevice, StopAt};
use group_commit::{Handle, Journal, Parts};
use journal_model::{BlockNo, JournalError, Sealed};
use journal_script::NamedBlocks;
use log_rows::RowError;
use log_rows::telling::refusal_text;
use log_rows::words::{cut, hex_byte, number};
use recovery::{Opened, format, open};
use std::alloc::{AllocError, Global};

/// A fault of a journal's device.
#[derive(Clone, Copy)]
pub enum ClosingFault {
    /// Stops at this write of the journal; 0 is none.
    Stop(u64),
    /// Fails this call for the journal; 0 is none.
    Fail(u64),
}

type FaultyDevice = FailOnce<StopAt<MemDevice>>;

/// A journal's parts after its close.
#[derive(Drop)]
pub struct Closed {
    pub answer: String,
    pub sealed: Vec<Sealed>,
    /// How many sealed transactions are committed.
    pub committed: u64,
    /// The device, with its cache.
    pub device: MemDevice,
    /// The home blocks that handles wrote.
    pub named: NamedBlocks,
}

/// A journal, and the home blocks that handles wrote.
#[derive(Drop)]
struct User {
    journal: Journal<FaultyDevice, Vec<Sealed>>,
    named: NamedBlocks,
}

/// Closes a journal after these steps, over a new log of 33 blocks and 64 home blocks, of 1024 bytes each.
///
/// # Errors
///
/// `Unread`: a step is malformed or cannot be made. `Memory`.
pub fn close_after(alloc: Global, fault: ClosingFault, steps: &str) -> Result<Closed, RowError> {
    let mut user = User {
        journal: new_journal(alloc, fault)?,
        named: NamedBlocks::none(alloc),
    };
    for step in steps.split(" | ") {
        make_step(alloc, &mut user, step)?;
    }
    close(alloc, user)
}

fn close(alloc: Global, user: User) -> Result<Closed, RowError> {
    let User { journal, named } = user;
    if journal.has_open_handles() {
        return Err(RowError::Unread);
    }
    let (answer, parts) = match journal.close() {
        Ok(parts) => (String::from_str(alloc, "closed")?, parts),
        Err((parts, e)) => (refusal_text(alloc, e)?, parts),
    };
    let Parts {
        device,
        sealed,
        committed,
    } = parts;
    Ok(Closed {
        answer,
        sealed,
        committed,
        device: device.into_inner().into_inner(),
        named,
    })
}

fn new_journal(
    alloc: Global,
    fault: ClosingFault,
) -> Result<Journal<FaultyDevice, Vec<Sealed>>, RowError> {
    let (stop, fail) = match fault {
        ClosingFault::Stop(k) => (k, 0),
        ClosingFault::Fail(0) => (0, 0),
        ClosingFault::Fail(k) => (0, calls_of_opening(alloc)?.saturating_add(k)),
    };
    Journal::new(alloc, opened(alloc, stop, fail)?)
        .ok()
        .ok_or(RowError::Memory)
}

fn calls_of_opening(alloc: Global) -> Result<u64, RowError> {
    Ok(opened(alloc, 0, 0)?.into_device().calls())
}

fn opened(alloc: Global, stop: u64, fail: u64) -> Result<Opened<FaultyDevice>, RowError> {
    let mut device = MemDevice::new(alloc, 1024, 33, 64);
    if format(&mut device, 33, &[0xaa; 16], false).is_err() {
        return Err(RowError::Memory);
    }
    let device = FailOnce::new(StopAt::new(device.crash(&[]), stop), fail);
    open(alloc, device).ok().ok_or(RowError::Memory)
}

/// Makes one step; refused turns are skipped.
fn make_step(alloc: Global, user: &mut User, step: &str) -> Result<(), RowError> {
    if let Some(count) = step.strip_prefix("turns ") {
        for _ in 0..number(count)? {
            let _ = user.journal.commit_turn();
        }
        return Ok(());
    }
    if let Some(count) = step.strip_prefix("checks ") {
        for _ in 0..number(count)? {
            let _ = user.journal.checkpoint_turn();
        }
        return Ok(());
    }
    if step.is_empty() {
        return Ok(());
    }
    write_and_stop(alloc, user, step)
}

/// Makes a handle write its blocks and stop; requests a commit if the step says so.
fn write_and_stop(alloc: Global, user: &mut User, step: &str) -> Result<(), RowError> {
    let (writes, request) = match step.strip_suffix(", request") {
        Some(writes) => (writes, true),
        None => (step, false),
    };
    let mut handle = new_handle(user)?;
    let written = write_all(alloc, user, &mut handle, writes);
    let ticket = user.journal.stop(handle);
    written?;
    if request {
        let _ = user.journal.request(&ticket);
    }
    Ok(())
}

fn new_handle(user: &mut User) -> Result<Handle, RowError> {
    let Ok(credits) = user.journal.reserve(2) else {
        return Err(RowError::Unread);
    };
    match user.journal.try_join(credits) {
        Ok(handle) => Ok(handle),
        Err((credits, _)) => {
            user.journal.give_back(credits);
            Err(RowError::Unread)
        }
    }
}

fn write_all(
    alloc: Global,
    user: &mut User,
    handle: &mut Handle,
    words: &str,
) -> Result<(), RowError> {
    for word in words.split_whitespace() {
        let (block, byte) = cut(word, "=")?;
        let (block, byte) = (number(block)?, hex_byte(byte)?);
        if user.named.blocks.insert(block).is_err() {
            return Err(RowError::Memory);
        }
        let bytes = block_of(alloc, user.journal.block_size(), byte)?;
        match user.journal.write(handle, BlockNo(block), &bytes) {
            Ok(()) => {}
            Err(JournalError::Memory) => return Err(RowError::Memory),
            Err(_) => return Err(RowError::Unread),
        }
    }
    Ok(())
}

/// A block that begins with this byte, then zeros.
fn block_of(alloc: Global, size: usize, first: u8) -> Result<Vec<u8>, AllocError>
    ensures { IfOk result (λ block. length block.items ≡ size) }
{
    let mut block = vec![in alloc; 0; size]?;
    if size > 0 {
        block[0] = first;
    }
    Ok(block)
}
