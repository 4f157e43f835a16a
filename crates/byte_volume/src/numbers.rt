//! Starts handles only in transactions whose numbers a later opening takes.
ghost use Rattle.std.specs.Prelude.{◌≡◌, ◌≤◌, IfErr, IfOk, []};
ghost use Rattle.byte_volume.specs.Numbers.{HasLeft, last_taken};
ghost use Rattle.byte_volume.specs.Refusals.{CouldNotStart};

use block_device::Device;
use journal_model::JournalError;
use journal_model::layout::GREATEST_NUMBER;
use shared_journal::{JournalName, Record, SharedHandle};
use std::sync::Wait;
use volume_service::{Gate, Session};

/// The last transaction that a later opening takes while it is not home: the number after it has to be below the greatest.
pub const LAST_TAKEN: u32 = GREATEST_NUMBER - 2;

/// How many transactions a handle may still join, after the last one that a handle has joined, so that a later opening takes them. At 0
/// changes are refused.
pub fn numbers_left<J: JournalName, D: Device, R: Record, G: Gate, W: Wait>(
    rt: &W,
    session: &Session<'_, J, D, R, G>,
) -> u64
    ensures { HasLeft D.state D.honest J.name result }
{
    u64::from(LAST_TAKEN.saturating_sub(session.last_joined(rt).0))
}

/// `Session::start`, unless the handle might join a transaction that no later opening takes. While a single client starts handles, none
/// joins such a transaction.
///
/// # Errors
///
/// Those of `Session::start`; `SequenceEnd` also if `numbers_left` is 0, or other clients took the last number meanwhile.
pub(crate) fn start<'s, J: JournalName, D: Device, R: Record, G: Gate, W: Wait>(
    rt: &W,
    session: &mut Session<'s, J, D, R, G>,
    credits: u64,
) -> Result<SharedHandle<'s, J, R>, JournalError>
    ensures ok { IfOk result (λ handle. (handle.handle.left ≡ credits) × (handle.steps ≡ [])) }
    ensures taken { IfOk result (λ handle. handle.handle.tid ≤ last_taken) }
    ensures err { IfErr result (CouldNotStart D J.name.capacity credits) }
{
    if numbers_left(rt, session) == 0 {
        return Err(JournalError::SequenceEnd);
    }
    let handle = session.start(rt, credits)?;
    if handle.tid().0 <= LAST_TAKEN {
        return Ok(handle);
    }
    let _ticket = session.stop(rt, handle);
    Err(JournalError::SequenceEnd)
}
