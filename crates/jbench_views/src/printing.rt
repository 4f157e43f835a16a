//! Prints the results of look-ups in a log.
ghost use Rattle.std.specs.Prelude.{◌≡◌, ◌≢◌, IfOk, None};
ghost use Rattle.journal_model.specs.Disk.{reading};
ghost use Rattle.block_device.specs.State.{Stays};
ghost use Rattle.log_dump.specs.Dumping.{HasDump, shape_of};
ghost use Rattle.jbench_words.specs.declared.fault.CommandStatus.TheVariants.{Fine, Refused};
ghost use Rattle.jbench_views.specs.Looked.{HasCopyAt, HasDumped, PrintsLeft};

use crate::object::write_object;
use block_device::Device;
use jbench_logs::logs;
use jbench_words::fault::CommandStatus;
use jbench_words::words::{CatWords, DumpWords};
use journal_model::JournalError;
use log_dump::{Fault, dump_up_to_damage};
use log_views::{block_left, copy_at};
use std::alloc::Global;
use std::io;
use std::io::{BufWriter, Write};

/// Bytes of a line of hex.
const LINE: usize = 32;

/// Prints a device's log as lines or as one object, up to a damaged block if the words ask for it; or the bytes of one copy in hex, 32 a
/// line. Lines on `err` say why the log is refused, or that it has no such copy.
///
/// # Errors
///
/// The output could not be written.
pub fn dump<D: Device, W: Write + Drop, E: Write + Drop>(
    alloc: Global,
    words: &DumpWords<'_>,
    device: &mut D,
    out: W,
    err: E,
) -> io::Result<CommandStatus>
    ensures dumped { IfOk result (λ status. status ≡ Fine → D.honest device.new → HasDumped words.now.copy (D.state device.old)) }
    ensures other { IfOk result (λ status. status ≢ Fine → status ≡ Refused) }
    ensures stays { Stays (D.state device.old) (D.state device.new) }
{
    if let Some(place) = words.copy {
        return dump_copy(alloc, words.log, place, device, out, err);
    }
    if !words.json {
        return dump_lines(alloc, words, device, out, err);
    }
    let mut text = Vec::new(alloc);
    let status = dump_lines(alloc, words, device, &mut text, err)?;
    write_object(alloc, &text, out)?;
    Ok(status)
}

/// Prints a device's log as lines, up to a damaged block if the words ask for it.
fn dump_lines<D: Device, W: Write + Drop, E: Write + Drop>(
    alloc: Global,
    words: &DumpWords<'_>,
    device: &mut D,
    out: W,
    err: E,
) -> io::Result<CommandStatus>
    ensures dumped { IfOk result (λ status. status ≡ Fine → D.honest device.new → HasDump (shape_of (D.state device.old)) (reading (D.state device.old).disk)) }
    ensures other { IfOk result (λ status. status ≢ Fine → status ≡ Refused) }
    ensures stays { Stays (D.state device.old) (D.state device.new) }
{
    if words.damaged {
        dump_damaged(alloc, words.log, device, out, err)
    } else {
        logs::dump(alloc, words.log, device, out, err)
    }
}

/// Prints the copy at a place of a device's log.
fn dump_copy<D: Device, W: Write + Drop, E: Write + Drop>(
    alloc: Global,
    path: &str,
    place: u64,
    device: &mut D,
    out: W,
    err: E,
) -> io::Result<CommandStatus>
    ensures found { IfOk result (λ status. status ≡ Fine → D.honest device.new → HasCopyAt place (D.state device.old)) }
    ensures other { IfOk result (λ status. status ≢ Fine → status ≡ Refused) }
    ensures stays { Stays (D.state device.old) (D.state device.new) }
{
    let (mut out, mut err) = (out, err);
    match copy_at(alloc, device, place) {
        Ok(Some(copy)) => {
            write_hex(copy.bytes(), &mut out)?;
            Ok(CommandStatus::Fine)
        }
        Ok(None) => {
            writeln!(
                err,
                "jbench: file {path}\n  no complete transaction has a copy in block {place}: jbench dump LOG --damaged says where the copies are"
            )?;
            Ok(CommandStatus::Refused)
        }
        Err(e) => logs::refuse(alloc, path, device, e, &mut err),
    }
}

/// Writes bytes in hex, `LINE` on a line.
fn write_hex(bytes: &[u8], out: &mut impl Write) -> io::Result<()> {
    for line in bytes.chunks(LINE) {
        for byte in line {
            write!(out, "{byte:02x}")?;
        }
        writeln!(out)?;
    }
    Ok(())
}

/// Prints a device's log up to a damaged block, and then says if there is one.
fn dump_damaged<D: Device, W: Write + Drop, E: Write + Drop>(
    alloc: Global,
    path: &str,
    device: &mut D,
    out: W,
    err: E,
) -> io::Result<CommandStatus>
    ensures dumped { IfOk result (λ status. status ≡ Fine → D.honest device.new → HasDump (shape_of (D.state device.old)) (reading (D.state device.old).disk)) }
    ensures other { IfOk result (λ status. status ≢ Fine → status ≡ Refused) }
    ensures stays { Stays (D.state device.old) (D.state device.new) }
{
    let mut err = err;
    match dump_buffered(alloc, device, out) {
        Ok(None) => Ok(CommandStatus::Fine),
        Ok(Some(place)) => logs::refuse(alloc, path, device, JournalError::Damage(place), &mut err),
        Err(Fault::Refused(e)) => logs::refuse(alloc, path, device, e, &mut err),
        Err(Fault::Output(e)) => Err(e),
    }
}

/// Prints a device's log up to a damaged block, through a buffer. Returns that block's place, if there is one.
fn dump_buffered<D: Device, W: Write + Drop>(
    alloc: Global,
    device: &mut D,
    out: W,
) -> Result<Option<u64>, Fault>
    ensures dumped { IfOk result (λ damaged. damaged ≡ None → D.honest device.new → HasDump (shape_of (D.state device.old)) (reading (D.state device.old).disk)) }
    ensures stays { Stays (D.state device.old) (D.state device.new) }
{
    let mut out = match BufWriter::new(alloc, out) {
        Ok(out) => out,
        Err(_) => return Err(Fault::Refused(JournalError::Memory)),
    };
    let damaged = dump_up_to_damage(alloc, device, &mut out)?;
    out.flush()?;
    Ok(damaged)
}

/// Prints the bytes of a home block as an opening of the log would leave it. Lines on `err` say why the log is refused, or that there is no
/// such block.
///
/// # Errors
///
/// The output could not be written.
pub fn cat<D: Device, W: Write, E: Write + Drop>(
    alloc: Global,
    words: &CatWords<'_>,
    device: &mut D,
    out: &mut W,
    err: E,
) -> io::Result<CommandStatus>
    ensures printed { IfOk result (λ status. status ≡ Fine → PrintsLeft words.now.block (D.state device.old) (D.honest device.new) (W.contents out.old) (W.contents out.new)) }
    ensures other { IfOk result (λ status. status ≢ Fine → status ≡ Refused) }
    ensures stays { Stays (D.state device.old) (D.state device.new) }
{
    let mut err = err;
    match block_left(alloc, device, words.block) {
        Ok(block) => {
            out.write_all(block.bytes())?;
            Ok(CommandStatus::Fine)
        }
        Err(e) => logs::refuse(alloc, words.paths.log, device, e, &mut err),
    }
}
