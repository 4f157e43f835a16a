//! A request that the volume takes, with the bytes that the client sent after it.
ghost use Rattle.std.specs.Prelude.{◌≡◌, ◌≢◌, ℕ, List, length, IfErr, IfOk, OnOk};
ghost use Rattle.std.specs.Io.KnownBytes.{Consumes};
ghost use Rattle.nbd_protocol.specs.Layout.{simple_reply};
ghost use Rattle.nbd_server.specs.Answers.{volume_size};
ghost use Rattle.nbd_server.specs.Input.{TakesPayload};
ghost use Rattle.nbd_server.specs.Taking.{IsTakenAs, IsTurnedAway};

use crate::asked::{Asked, Payload};
use crate::export::Export;
use crate::replies::Reply;
use block_device::Device;
use nbd_protocol::Request;
use nbd_protocol::numbers::ENOMEM;
use shared_journal::{JournalName, Record};
use std::io;
use std::io::Read;
use std::marker::Model;
use volume_service::Session;

/// A request of a client whose input has type I, and the bytes that followed it there. Only `take` makes one; another task may perform it.
#[derive(Drop)]
pub struct Taken<I> {
    pub(crate) asked: Asked<I>,
    pub(crate) payload: Payload<I>,
}

impl<I> Model for Taken<I> {
    ghost use Rattle.std.specs.Prelude.{◌≡◌, length};
    ghost use Rattle.nbd_server.specs.Taking.{TakenValue};

    ghost Value = { TakenValue };

    ghost view = { λ t. record { request = t.asked; bytes = t.payload } };

    ghost invariant = { λ t. t.asked.command ≡ 1 → length t.payload ≡ t.asked.length };
}

impl<I> Taken<I> {
    /// What it asks.
    pub fn request(&self) -> &Request
        ensures { result.now ≡ self.now.request }
    {
        self.asked.request()
    }

    /// The bytes that followed it.
    pub fn bytes(&self) -> &[u8]
        ensures { result.now ≡ self.now.bytes }
    {
        self.payload.bytes()
    }
}

impl<I: Read> Taken<I> {
    /// Takes a request, and the bytes that come next in the input, whole, in place of what was in `room`. If the volume does not take it, or
    /// there is no memory for them, they are skipped, and its answer is there at once, with the memory of `room`.
    ///
    /// # Errors
    ///
    /// The client could not be read, or ended within the request.
    pub fn take<J: JournalName, D: Device, R: Record>(
        session: &Session<'_, J, D, R>,
        export: &Export<'_>,
        input: &mut I,
        asked: Asked<I>,
        room: Payload<I>,
    ) -> io::Result<Result<Taken<I>, (Reply<I>, Payload<I>)>>
        ensures taken { IfOk result (λ came. IfOk came (IsTakenAs (volume_size J.name.shape export.now.nameable) export.now.read_only asked (Consumes (I.remaining input.old) (I.remaining input.new)))) }
        ensures refused { IfOk result (λ came. IfErr came (λ back. IsTurnedAway (volume_size J.name.shape export.now.nameable) export.now.read_only asked (Consumes (I.remaining input.old) (I.remaining input.new)) back.0)) }
    {
        let request = *asked.request();
        let size = volume_bytes(session, export.nameable);
        if let Some(error) = request.refusal(size, export.read_only) {
            let reply = refuse(input, asked, error)?;
            return Ok(Err((reply, room)));
        }
        let mut payload = room;
        let came = payload.take(input, &request)?;
        if came {
            return Ok(Ok(Taken { asked, payload }));
        }
        let reply = refuse(input, asked, ENOMEM)?;
        Ok(Err((reply, payload)))
    }
}

/// The size in bytes that is offered: home's blocks, or as many of them as the log can name.
pub(crate) fn volume_bytes<J: JournalName, D: Device, R: Record>(
    session: &Session<'_, J, D, R>,
    nameable: u64,
) -> u64
    ensures { result ≡ volume_size J.name.shape nameable }
{
    session
        .home_blocks()
        .min(nameable)
        .saturating_mul(session.block_size() as u64)
}

/// The answer with this error to a request, whose bytes are skipped.
fn refuse<I: Read>(input: &mut I, asked: Asked<I>, error: u32) -> io::Result<Reply<I>>
    requires { error ≢ 0 }
    ensures refused { IfOk result (λ reply. reply ≡ simple_reply error asked.cookie) }
    ensures skipped { OnOk result ((bytes : List ℕ) × TakesPayload asked (Consumes (I.remaining input.old) (I.remaining input.new)) bytes) }
{
    Payload::skip(input, asked.request())?;
    Ok(Reply::refused(asked, error))
}
