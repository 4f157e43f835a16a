//! Performs a request, and decides how it is answered.
ghost use Rattle.std.specs.Prelude.{◌≡◌, ◌≤◌, length, None, IfErr, IfOk, IfSome};
ghost use Rattle.byte_volume.specs.Numbers.{last_taken};
ghost use Rattle.byte_volume.specs.Writing.{AreNoted};
ghost use Rattle.nbd_server.specs.Answers.{EndsEarly, IsDone, IsPerformed};
ghost use Rattle.nbd_server.specs.Causes.{ChangeFails};

use crate::asked::{Asked, Gone, Payload};
use crate::replies::{Answer, Due, ReadReply, Reply, error_of};
use crate::taken::Taken;
use block_device::Device;
use byte_volume::{Leaving, Stopped, Tickets, trim_range, write_range, write_zeros};
use journal_model::JournalError;
use nbd_protocol::Request;
use nbd_protocol::numbers::{READ, TRIM, WRITE, WRITE_ZEROES};
use shared_journal::{JournalName, Record};
use std::alloc::Global;
use std::sync::Wait;
use volume_service::Session;

/// Performs a request that the volume takes, with the bytes after it, and gives their memory back. The answer to a request that wants a
/// commit is owed until all transactions of handles stopped by now are committed. A long read uses the memory of `room`. `tickets` has those
/// of the request's handles afterwards, and no others. A change of more than one handle ends early once the client has left.
pub fn perform<J: JournalName, D: Device, R: Record, I, W: Wait>(
    rt: &W,
    alloc: Global,
    session: &mut Session<'_, J, D, R>,
    stopped: &mut Stopped,
    taken: Taken<I>,
    room: &mut Vec<u8>,
    tickets: &mut Tickets<J, R>,
    leaving: &Leaving<Gone>,
) -> (Answer<I>, Payload<I>)
    ensures performed { IsPerformed D.state D.honest J.name J.name.shape.block_size J.name.capacity taken.request taken.bytes stopped.new tickets.new result.0 }
    ensures noted { AreNoted stopped.new tickets.new }
    ensures kept { stopped.old ≤ stopped.new }
    ensures taken { stopped.old ≤ last_taken → stopped.new ≤ last_taken }
{
    let Taken { asked, payload } = taken;
    let answer = perform_with(
        rt, alloc, session, stopped, asked, &payload, room, tickets, leaving,
    );
    (answer, payload)
}

/// As `perform`.
fn perform_with<J: JournalName, D: Device, R: Record, I, W: Wait>(
    rt: &W,
    alloc: Global,
    session: &mut Session<'_, J, D, R>,
    stopped: &mut Stopped,
    asked: Asked<I>,
    payload: &Payload<I>,
    room: &mut Vec<u8>,
    tickets: &mut Tickets<J, R>,
    leaving: &Leaving<Gone>,
) -> Answer<I>
    requires long { asked.command ≡ 1 → length payload.now ≡ asked.length }
    ensures performed { IsPerformed D.state D.honest J.name J.name.shape.block_size J.name.capacity asked payload.now stopped.new tickets.new result }
    ensures noted { AreNoted stopped.new tickets.new }
    ensures kept { stopped.old ≤ stopped.new }
    ensures taken { stopped.old ≤ last_taken → stopped.new ≤ last_taken }
{
    let request = *asked.request();
    if request.command == READ {
        tickets.clear();
        return match ReadReply::read(rt, alloc, session, asked, room) {
            Ok(reply) => Answer::Bytes(reply),
            Err((back, e)) => Answer::Now(Reply::refused(back, error_of(e))),
        };
    }
    let early = match change(
        rt, alloc, session, stopped, &request, payload, tickets, leaving,
    ) {
        Ok(early) => early,
        Err(e) => return Answer::Now(Reply::refused(asked, error_of(e))),
    };
    if let Some(gone) = early {
        return Answer::Now(Reply::given_up(asked, gone));
    }
    if request.wants_commit() {
        return Answer::Later(Due::of(rt, session, asked, payload, tickets, stopped));
    }
    Answer::Now(Reply::done(session, asked, payload, tickets))
}

/// Makes a change: writes the bytes after the request, writes zeros, or trims. A request without bytes, or of another kind, changes nothing.
/// `tickets` has those of its handles afterwards, and no others. A trim or a write of zeros may end early, as `byte_volume` says.
///
/// # Errors
///
/// Those of `byte_volume::write_range` and `trim_range`, and what they leave.
pub fn change<J: JournalName, D: Device, R: Record, I, W: Wait>(
    rt: &W,
    alloc: Global,
    session: &mut Session<'_, J, D, R>,
    stopped: &mut Stopped,
    request: &Request,
    payload: &Payload<I>,
    tickets: &mut Tickets<J, R>,
    leaving: &Leaving<Gone>,
) -> Result<Option<Gone>, JournalError>
    requires long { request.now.command ≡ 1 → length payload.now ≡ request.now.length }
    ensures done { IfOk result (λ early. early ≡ None → IsDone D.state D.honest J.name J.name.shape.block_size J.name.capacity request.now payload.now tickets.new) }
    ensures early { IfOk result (λ early. IfSome early (λ _. EndsEarly D.state D.honest J.name J.name.shape.block_size request.now tickets.new)) }
    ensures err { IfErr result (ChangeFails D.state D.honest J.name J.name.shape.block_size J.name.capacity request.now payload.now tickets.new) }
    ensures noted { AreNoted stopped.new tickets.new }
    ensures kept { stopped.old ≤ stopped.new }
    ensures taken { stopped.old ≤ last_taken → stopped.new ≤ last_taken }
{
    let (offset, length) = (request.offset, request.length);
    if length == 0 {
        tickets.clear();
        return Ok(None);
    }
    if request.command == WRITE {
        let bytes = payload.bytes();
        return match write_range(rt, alloc, session, offset, bytes, stopped, tickets) {
            Ok(()) => Ok(None),
            Err(e) => Err(e),
        };
    }
    if request.command == WRITE_ZEROES {
        let count = length as usize;
        return write_zeros(rt, alloc, session, offset, count, stopped, tickets, leaving);
    }
    if request.command == TRIM {
        let count = length as u64;
        return trim_range(rt, session, offset, count, stopped, tickets, leaving);
    }
    tickets.clear();
    Ok(None)
}
