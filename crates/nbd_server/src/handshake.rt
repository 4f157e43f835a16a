//! The handshake before the first request.
ghost use Rattle.std.specs.Prelude.{◌≡◌, ◌<◌, true, length, IfOk, IfSome, OnOk};
ghost use Rattle.std.specs.Io.KnownBytes.{Consumes};
ghost use Rattle.nbd_server.specs.Input.{TakesData, TakesHandshake, TakesOption, TakesOptions, TakesSome};

use crate::export::Volume;
use byteorder::{BigEndian, ByteOrder};
use nbd_protocol::numbers::{
    ABORT, ACK, EXPORT_NAME, FIXED_NEWSTYLE, GO, INFO, INFO_BLOCK_SIZE, INFO_DESCRIPTION,
    INFO_EXPORT, INFO_NAME, INVALID, LIST, MOST_BYTES, NO_ZEROES, TOO_BIG, UNKNOWN, UNSUPPORTED,
};
use nbd_protocol::{
    EXPORT_BYTES, FACT_REPLY_BYTES, GREETING_BYTES, NAME_REPLY_BYTES, OPTION_BYTES,
    OPTION_REPLY_BYTES, OptionHeader, Question, SIZES_BYTES, export_flags, write_block_sizes,
    write_export, write_fact_reply, write_greeting, write_name_reply, write_option_reply,
};
use std::alloc::Global;
use std::io;
use std::io::{ErrorKind, Read, Write};
use std::sync::Wait;

/// How many bytes are skipped at once.
const STEP: usize = 4096;

/// Bytes of an export with the 124 zeros after it, for a client that wants them.
const ZEROED_BYTES: usize = EXPORT_BYTES + 124;

/// What follows an option.
#[derive(Clone, Copy, Debug, PartialEq, Eq)]
enum AfterOption {
    Option,
    Request,
    End,
}

/// Fills a buffer; `false` if the input ended before it.
///
/// # Errors
///
/// `UnexpectedEof`: the input ends within it.
pub(crate) fn begin<I: Read>(input: &mut I, into: &mut [u8]) -> io::Result<bool>
    requires { 0 < length into.old }
    ensures { IfOk result (λ all. all ≡ true → Consumes (I.remaining input.old) (I.remaining input.new) into.new) }
{
    let (first, rest) = into.split_at_mut(1);
    match input.read_exact(first) {
        Ok(()) => {}
        Err(e) => {
            return if e.kind() == ErrorKind::UnexpectedEof {
                Ok(false)
            } else {
                Err(e)
            };
        }
    }
    input.read_exact(rest)?;
    Ok(true)
}

/// Skips bytes.
pub(crate) fn skip<I: Read>(input: &mut I, bytes: u32) -> io::Result<()>
    ensures { OnOk result (TakesSome bytes (Consumes (I.remaining input.old) (I.remaining input.new))) }
{
    let mut room = [0; STEP];
    let mut left = bytes as usize;
    while left > 0 {
        let some = left.min(STEP);
        input.read_exact(&mut room[..some])?;
        left -= some;
    }
    Ok(())
}

/// Greets a client and answers its options; true if requests follow.
///
/// # Errors
///
/// The client could not be read or written, or ended within its bytes. `InvalidData`: it has unknown flags, or these bytes are no option.
/// Source: proto.md, "Client flags".
pub(crate) fn shake_hands<I: Read, O: Write, W: Wait>(
    rt: &W,
    alloc: Global,
    input: &mut I,
    out: &mut O,
    volume: &Volume<'_>,
) -> io::Result<bool>
    ensures { IfOk result (λ follow. follow ≡ true → TakesHandshake (Consumes (I.remaining input.old) (I.remaining input.new))) }
{
    let mut greeting = [0; GREETING_BYTES];
    write_greeting(&mut greeting, FIXED_NEWSTYLE | NO_ZEROES);
    out.write_all(&greeting)?;
    out.flush()?;
    let mut bytes = [0; 4];
    let whole = begin(input, &mut bytes)?;
    if !whole {
        return Ok(false);
    }
    let flags = BigEndian::read_u32(&bytes);
    if flags > u32::from(FIXED_NEWSTYLE | NO_ZEROES) {
        return Err(io::Error::from(ErrorKind::InvalidData));
    }
    let zeroed = flags / u32::from(NO_ZEROES) == 0;
    answer_options(rt, alloc, input, out, volume, zeroed)
}

/// Answers a client's options; true if requests follow.
fn answer_options<I: Read, O: Write, W: Wait>(
    rt: &W,
    alloc: Global,
    input: &mut I,
    out: &mut O,
    volume: &Volume<'_>,
    zeroed: bool,
) -> io::Result<bool>
    ensures { IfOk result (λ follow. follow ≡ true → TakesOptions (Consumes (I.remaining input.old) (I.remaining input.new))) }
{
    'answering: for _ in rt.forever() {
        let Some(told) = read_option(alloc, input)? else {
            return Ok(false);
        };
        let next = answer_option(out, volume, zeroed, &told)?;
        out.flush()?;
        if next != AfterOption::Option {
            return Ok(next == AfterOption::Request);
        }
    }
    unreachable!()
}

/// An option that a client told.
#[derive(Drop)]
struct ReadOption {
    option: u32,
    /// `None` if they are too long.
    data: Option<Vec<u8>>,
}

/// Reads the next option; `None` if the client ended before it.
///
/// # Errors
///
/// The client could not be read, or ended within it. `InvalidData`: these bytes are no option.
fn read_option<I: Read>(alloc: Global, input: &mut I) -> io::Result<Option<ReadOption>>
    ensures { IfOk result (λ next. IfSome next (λ told. TakesOption (Consumes (I.remaining input.old) (I.remaining input.new)) told.option (λ bs. IfSome told.data (λ kept. kept.items ≡ bs)))) }
{
    let mut bytes = [0; OPTION_BYTES];
    let whole = begin(input, &mut bytes)?;
    if !whole {
        return Ok(None);
    }
    match OptionHeader::read(&bytes) {
        Some(header) => {
            let data = read_data(alloc, input, &header)?;
            Ok(Some(ReadOption {
                option: header.option,
                data,
            }))
        }
        None => Err(io::Error::from(ErrorKind::InvalidData)),
    }
}

/// Reads the data of an option. If they are too long they are skipped.
fn read_data<I: Read>(
    alloc: Global,
    input: &mut I,
    header: &OptionHeader,
) -> io::Result<Option<Vec<u8>>>
    ensures { IfOk result (λ told. TakesData (Consumes (I.remaining input.old) (I.remaining input.new)) header.now.length (λ bs. IfSome told (λ kept. kept.items ≡ bs))) }
{
    if let Some(length) = header.data_bytes() {
        let mut data = vec![in alloc; 0u8; length]?;
        input.read_exact(data.as_mut_slice())?;
        return Ok(Some(data));
    }
    skip(input, header.length)?;
    Ok(None)
}

/// Answers an option.
fn answer_option<O: Write>(
    out: &mut O,
    volume: &Volume<'_>,
    zeroed: bool,
    told: &ReadOption,
) -> io::Result<AfterOption> {
    let Some(data) = &told.data else {
        return too_long(out, told.option);
    };
    match told.option {
        EXPORT_NAME => enter(out, volume, zeroed, data),
        INFO | GO => tell(out, volume, told.option, data),
        LIST => list(out, volume, data),
        ABORT => {
            say(out, ABORT, ACK)?;
            Ok(AfterOption::End)
        }
        _ => {
            say(out, told.option, UNSUPPORTED)?;
            Ok(AfterOption::Option)
        }
    }
}

/// Answers an option with too long data; `EXPORT_NAME`, which has no reply, ends the connection.
fn too_long<O: Write>(out: &mut O, option: u32) -> io::Result<AfterOption> {
    if option == EXPORT_NAME {
        return Ok(AfterOption::End);
    }
    say(out, option, TOO_BIG)?;
    Ok(AfterOption::Option)
}

/// Answers an option without data.
fn say<O: Write>(out: &mut O, option: u32, kind: u32) -> io::Result<()> {
    let mut bytes = [0; OPTION_REPLY_BYTES];
    write_option_reply(&mut bytes, option, kind, 0);
    out.write_all(&bytes)
}

/// Enters the export for `EXPORT_NAME`; an unknown name ends the connection.
fn enter<O: Write>(
    out: &mut O,
    volume: &Volume<'_>,
    zeroed: bool,
    name: &[u8],
) -> io::Result<AfterOption> {
    if !volume.is_named(name) {
        return Ok(AfterOption::End);
    }
    let mut bytes = [0; ZEROED_BYTES];
    write_export(
        &mut bytes,
        volume.size,
        export_flags(volume.export.read_only),
    );
    let wanted = if zeroed { ZEROED_BYTES } else { EXPORT_BYTES };
    out.write_all(&bytes[..wanted])?;
    Ok(AfterOption::Request)
}

fn list<O: Write>(out: &mut O, volume: &Volume<'_>, told: &[u8]) -> io::Result<AfterOption> {
    if !told.is_empty() {
        say(out, LIST, INVALID)?;
        return Ok(AfterOption::Option);
    }
    let name = volume.export.name.as_bytes();
    let length = name.len().min(u16::MAX as usize) as u32;
    let mut bytes = [0; NAME_REPLY_BYTES];
    write_name_reply(&mut bytes, length);
    out.write_all(&bytes)?;
    out.write_all(&name[..length as usize])?;
    say(out, LIST, ACK)?;
    Ok(AfterOption::Option)
}

/// Tells the wanted facts of the export, and enters it for `GO`.
fn tell<O: Write>(
    out: &mut O,
    volume: &Volume<'_>,
    option: u32,
    told: &[u8],
) -> io::Result<AfterOption> {
    let Some(question) = Question::read(told) else {
        say(out, option, INVALID)?;
        return Ok(AfterOption::Option);
    };
    if !volume.is_named(question.name) {
        say(out, option, UNKNOWN)?;
        return Ok(AfterOption::Option);
    }
    tell_export(out, volume, option)?;
    for k in 0..question.wanted.len() / 2 {
        match BigEndian::read_u16(&question.wanted[2 * k..2 * k + 2]) {
            INFO_NAME => tell_text(out, option, INFO_NAME, volume.export.name)?,
            INFO_DESCRIPTION => tell_text(out, option, INFO_DESCRIPTION, volume.description)?,
            INFO_BLOCK_SIZE => tell_sizes(out, volume, option)?,
            _ => {}
        }
    }
    say(out, option, ACK)?;
    Ok(if option == GO {
        AfterOption::Request
    } else {
        AfterOption::Option
    })
}

/// Begins to tell a fact of `bytes` bytes.
fn begin_fact<O: Write>(out: &mut O, option: u32, fact: u16, bytes: u16) -> io::Result<()> {
    let mut head = [0; FACT_REPLY_BYTES];
    write_fact_reply(&mut head, option, fact, u32::from(bytes));
    out.write_all(&head)
}

fn tell_export<O: Write>(out: &mut O, volume: &Volume<'_>, option: u32) -> io::Result<()> {
    let mut bytes = [0; EXPORT_BYTES];
    write_export(
        &mut bytes,
        volume.size,
        export_flags(volume.export.read_only),
    );
    begin_fact(out, option, INFO_EXPORT, EXPORT_BYTES as u16)?;
    out.write_all(&bytes)
}

/// Tells the block sizes: any range is accepted, whole blocks are best.
fn tell_sizes<O: Write>(out: &mut O, volume: &Volume<'_>, option: u32) -> io::Result<()> {
    let mut bytes = [0; SIZES_BYTES];
    let best = volume.block_size.clamp(512, 65_536) as u32;
    write_block_sizes(&mut bytes, 1, best, MOST_BYTES);
    begin_fact(out, option, INFO_BLOCK_SIZE, SIZES_BYTES as u16)?;
    out.write_all(&bytes)
}

/// Tells a fact that is a text.
fn tell_text<O: Write>(out: &mut O, option: u32, fact: u16, text: &str) -> io::Result<()> {
    let bytes = text.as_bytes();
    let length = bytes.len().min(u16::MAX as usize);
    begin_fact(out, option, fact, length as u16)?;
    out.write_all(&bytes[..length])
}
