//! Trims the whole blocks of a byte range.
ghost use Rattle.std.specs.Prelude.{◌≡◌, ◌≤◌, ◌<◌, ◌+◌, ◌^◌, ◌++◌, [], None, IfErr, IfOk, IfSome, OnErr, OnOk};
ghost use Rattle.byte_volume.specs.Numbers.{last_taken};
ghost use Rattle.byte_volume.specs.Refusals.{AskRefused, BlocksRefused, IsAmong, RevokeRefused, StepRefused, TrimRefused};
ghost use Rattle.byte_volume.specs.Writing.{AddsFirst, AddsTicket, AreNoted, KeptNone, MayAddTicket, RevokesFirst, TrimsBlocks, TrimsSome, first_whole, revoke_steps, whole_blocks};

use crate::leaving::Leaving;
use crate::numbers::start;
use crate::stopped::Stopped;
use crate::tickets::Tickets;
use block_device::Device;
use journal_model::{BlockNo, JournalError};
use shared_journal::{JournalName, Record, SharedHandle, SharedTicket};
use std::sync::Wait;
use volume_service::{Gate, Session};

/// Trims exactly the blocks that lie whole in a byte range, and writes nothing. Those that keep a copy (`Session::keeps_copy`) are revoked,
/// the others left out. A revoked block reads as zeros until its revoke is finished, then as home has it. `tickets` has those of its handles
/// afterwards, and no others. It ends early once whoever asked for it has left, and returns what shows that; the first blocks are then
/// trimmed.
///
/// # Errors
///
/// Those of `revoke_blocks`, except `TooMany`. Handles that revoked the first blocks have stopped, and are noted; `tickets` has theirs.
pub fn trim_range<J: JournalName, D: Device, R: Record, G: Gate, X: Copy, W: Wait>(
    rt: &W,
    session: &mut Session<'_, J, D, R, G>,
    offset: u64,
    count: u64,
    stopped: &mut Stopped,
    tickets: &mut Tickets<J, R>,
    leaving: &Leaving<X>,
) -> Result<Option<X>, JournalError>
    ensures blocks { IfOk result (λ early. early ≡ None → TrimsBlocks D.state D.honest J.name (first_whole J.name.shape.block_size offset) tickets.new (whole_blocks J.name.shape.block_size offset count)) }
    ensures early { IfOk result (λ early. IfSome early (λ _. TrimsSome D.state D.honest J.name (first_whole J.name.shape.block_size offset) (whole_blocks J.name.shape.block_size offset count) tickets.new)) }
    ensures left { OnErr result (TrimsSome D.state D.honest J.name (first_whole J.name.shape.block_size offset) (whole_blocks J.name.shape.block_size offset count) tickets.new) }
    ensures noted { AreNoted stopped.new tickets.new }
    ensures kept { stopped.old ≤ stopped.new }
    ensures taken { stopped.old ≤ last_taken → stopped.new ≤ last_taken }
    ensures err { IfErr result (TrimRefused D J.name.shape.block_size J.name.capacity offset count) }
{
    tickets.list.clear();
    let Some(end) = offset.checked_add(count) else {
        return Err(JournalError::BadBlock);
    };
    let size = session.block_size() as u64;
    let first = offset.div_ceil(size);
    let blocks = (end / size).saturating_sub(first);
    let list = &mut tickets.list;
    trim_blocks(rt, session, first, blocks, stopped, list, leaving)
}

/// Trims this many blocks from block `first` on, in order. Blocks in a row that keep a copy are revoked through one or more handles.
fn trim_blocks<J: JournalName, D: Device, R: Record, G: Gate, X: Copy, W: Wait>(
    rt: &W,
    session: &mut Session<'_, J, D, R, G>,
    first: u64,
    blocks: u64,
    stopped: &mut Stopped,
    tickets: &mut Vec<SharedTicket<J, R>>,
    leaving: &Leaving<X>,
) -> Result<Option<X>, JournalError>
    requires fits { first + blocks < 2 ^ 64 }
    requires empty { tickets.old.items ≡ [] }
    ensures blocks { IfOk result (λ early. early ≡ None → TrimsBlocks D.state D.honest J.name first tickets.new.items blocks) }
    ensures early { IfOk result (λ early. IfSome early (λ _. TrimsSome D.state D.honest J.name first blocks tickets.new.items)) }
    ensures left { OnErr result (TrimsSome D.state D.honest J.name first blocks tickets.new.items) }
    ensures noted { AreNoted stopped.new tickets.new.items }
    ensures kept { stopped.old ≤ stopped.new }
    ensures taken { stopped.old ≤ last_taken → stopped.new ≤ last_taken }
    ensures err { IfErr result (BlocksRefused D J.name.capacity first blocks) }
{
    let mut done = 0;
    while done < blocks {
        if let Some(by) = leaving.shown(rt) {
            return Ok(Some(by));
        }
        let most = session.capacity().min(blocks - done);
        let kept = count_kept(rt, session, first + done, most)?;
        if kept == 0 {
            done += 1;
            continue;
        }
        revoke_once(rt, session, first + done, kept, stopped, tickets)?;
        done += kept;
    }
    Ok(None)
}

/// How many blocks in a row from block `first` on keep a copy, at most `most`.
fn count_kept<J: JournalName, D: Device, R: Record, G: Gate, W: Wait>(
    rt: &W,
    session: &Session<'_, J, D, R, G>,
    first: u64,
    most: u64,
) -> Result<u64, JournalError>
    requires some { 0 < most }
    requires fits { first + most < 2 ^ 64 }
    ensures few { IfOk result (λ kept. kept ≤ most) }
    ensures none { IfOk result (λ kept. kept ≡ 0 → KeptNone D.state D.honest J.name first) }
    ensures err { IfErr result (AskRefused D (IsAmong first most)) }
{
    for k in 0..most {
        if !session.keeps_copy(rt, BlockNo(first + k))? {
            return Ok(k);
        }
    }
    Ok(most)
}

/// Revokes this many blocks from block `first` on through one handle, which is stopped and noted even if a revoke is refused. `tickets` has
/// its ticket afterwards, and no other.
///
/// # Errors
///
/// `TooMany`: one handle cannot have so many credits. `BadBlock`: home has no such block, or the numbers pass 2^64. `Aborted`: a device
/// failure. `SequenceEnd`: no number is left that a later opening takes. `Memory`. The handle may have revoked the first blocks; `tickets`
/// then has its ticket.
pub fn revoke_blocks<J: JournalName, D: Device, R: Record, G: Gate, W: Wait>(
    rt: &W,
    session: &mut Session<'_, J, D, R, G>,
    first: u64,
    count: u64,
    stopped: &mut Stopped,
    tickets: &mut Tickets<J, R>,
) -> Result<(), JournalError>
    ensures steps { OnOk result (AddsTicket (λ ticket. ticket.steps ≡ revoke_steps ticket.ticket.handle first count) stopped.new [] tickets.new) }
    ensures left { OnErr result (MayAddTicket (RevokesFirst first count) stopped.new [] tickets.new) }
    ensures kept { stopped.old ≤ stopped.new }
    ensures taken { stopped.old ≤ last_taken → stopped.new ≤ last_taken }
    ensures err { IfErr result (RevokeRefused D J.name.capacity first count) }
{
    tickets.list.clear();
    revoke_once(rt, session, first, count, stopped, &mut tickets.list)
}

/// As `revoke_blocks`, and adds the ticket to a list. Room for it is made first: nothing fails between the handle's start and its stop but
/// its revokes.
fn revoke_once<J: JournalName, D: Device, R: Record, G: Gate, W: Wait>(
    rt: &W,
    session: &mut Session<'_, J, D, R, G>,
    first: u64,
    count: u64,
    stopped: &mut Stopped,
    tickets: &mut Vec<SharedTicket<J, R>>,
) -> Result<(), JournalError>
    ensures steps { OnOk result (AddsTicket (λ ticket. ticket.steps ≡ revoke_steps ticket.ticket.handle first count) stopped.new tickets.old.items tickets.new.items) }
    ensures left { OnErr result (MayAddTicket (RevokesFirst first count) stopped.new tickets.old.items tickets.new.items) }
    ensures kept { stopped.old ≤ stopped.new }
    ensures taken { stopped.old ≤ last_taken → stopped.new ≤ last_taken }
    ensures err { IfErr result (RevokeRefused D J.name.capacity first count) }
{
    if first.checked_add(count).is_none() {
        return Err(JournalError::BadBlock);
    }
    tickets.try_reserve(1)?;
    let mut handle = start(rt, session, count)?;
    stopped.register(handle.tid());
    let revoked = revoke_all(rt, session, &mut handle, first, count);
    let ticket = session.stop(rt, handle);
    tickets.push_reserved(ticket);
    revoked
}

/// Revokes blocks through a handle.
fn revoke_all<'s, J: JournalName, D: Device, R: Record, G: Gate, W: Wait>(
    rt: &W,
    session: &Session<'s, J, D, R, G>,
    handle: &mut SharedHandle<'s, J, R>,
    first: u64,
    count: u64,
) -> Result<(), JournalError>
    requires fits { first + count < 2 ^ 64 }
    requires credits { count ≤ handle.old.handle.left }
    ensures number { handle.new.handle.number ≡ handle.old.handle.number }
    ensures tid { handle.new.handle.tid ≡ handle.old.handle.tid }
    ensures steps { OnOk result (handle.new.steps ≡ handle.old.steps ++ revoke_steps handle.old.handle.number first count) }
    ensures left { OnErr result (AddsFirst (revoke_steps handle.old.handle.number first) count handle.old.steps handle.new.steps) }
    ensures err { IfErr result (StepRefused D (IsAmong first count)) }
{
    for k in 0..count {
        session.revoke(rt, handle, BlockNo(first + k))?;
    }
    Ok(())
}
