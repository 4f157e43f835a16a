//! The command `show`: each superblock field by name with the test that it fails, then whether an opening accepts the superblock, and an
//! owner's ways out.
ghost use Rattle.std.specs.Prelude.{◌≡◌, ◌≢◌, ◌≤◌, length, IfOk};
ghost use Rattle.block_device.specs.State.{Stays};
ghost use Rattle.jbench_words.specs.declared.fault.CommandStatus.TheVariants.{Fine, Refused};

use crate::fields::{FailedTest, Field, FieldValue, fields_of};
use block_device::{Device, read_block};
use jbench_files::Sectors;
use jbench_logs::features::{write_features, write_names};
use jbench_logs::logs::refuse_fault;
use jbench_logs::objects::{write_lines, write_refusal};
use jbench_logs::ways_out::{SUPER_BYTES, Standing, print_ways_out, standing_of};
use jbench_words::fault::{CommandStatus, Fault};
use jbench_words::words::ShowWords;
use journal_model::layout::GREATEST_NUMBER;
use journal_model::{Area, Block, JournalError};
use log_format::Super;
use log_views::{RingUse, ring_use};
use std::alloc::Global;
use std::io::Write;
use std::{fmt, io};

/// Bytes that print as hex.
#[derive(Clone, Copy)]
struct HexBytes<'a>(&'a [u8]);

impl fmt::Display for HexBytes<'_> {
    fn fmt<W: fmt::Write>(&self, f: &mut fmt::Formatter<W>) -> fmt::Result {
        for byte in self.0 {
            write!(f, "{byte:02x}")?;
        }
        Ok(())
    }
}

/// Prints the sectors of the log's block device, if it is on one; the superblock of a device's log, whether an opening accepts it, and, if
/// so, the use of the ring. Lines on `err` say that the log has no whole block, or cannot be read.
///
/// # Errors
///
/// The output could not be written.
pub fn show<D: Device, W: Write + Drop, E: Write + Drop>(
    alloc: Global,
    words: &ShowWords<'_>,
    device: &mut D,
    sectors: Option<Sectors>,
    out: W,
    err: E,
) -> io::Result<CommandStatus>
    ensures stays { Stays (D.state device.old) (D.state device.new) }
    ensures other { IfOk result (λ status. status ≢ Fine → status ≡ Refused) }
{
    let (mut out, mut err) = (out, err);
    match show_device(alloc, words.json, device, sectors, &mut out) {
        Ok(()) => Ok(CommandStatus::Fine),
        Err(fault) => refuse_fault(alloc, words.log, device, fault, &mut err),
    }
}

/// Prints the superblock of a device's log, and the use of its ring, as lines or as one object.
fn show_device<D: Device, W: Write>(
    alloc: Global,
    json: bool,
    device: &mut D,
    sectors: Option<Sectors>,
    out: &mut W,
) -> Result<(), Fault>
    ensures { Stays (D.state device.old) (D.state device.new) }
{
    let blocks = device.blocks(Area::Log);
    let block = read_first(alloc, device)?;
    let bytes = block.bytes();
    if bytes.len() < SUPER_BYTES {
        return Err(Fault::Refused(JournalError::BadLength));
    }
    let standing = standing_of(alloc, device, bytes)?;
    let shown = Shown::of(alloc, bytes, blocks, sectors, standing)?;
    if json {
        let ring = ring_of(alloc, device)?;
        write_object(&shown, ring, out)?;
        return Ok(());
    }
    show_lines(&shown, out)?;
    if let Some(ring) = ring_of(alloc, device)? {
        say_ring(ring, out)?;
    }
    Ok(())
}

/// What `show` prints of a superblock.
#[derive(Drop)]
struct Shown<'a> {
    /// The log's blocks.
    blocks: u64,
    /// The bytes of a block.
    block_size: usize,
    /// Of the block device that the log is on, if it is on one.
    sectors: Option<Sectors>,
    fields: Vec<Field<'a>>,
    /// Why an opening refuses the log, as far as the superblock shows it.
    refusal: Option<JournalError>,
    /// Lines that say what the owner can do then.
    ways_out: Vec<u8>,
}

impl<'a> Shown<'a> {
    /// What `show` prints of these superblock bytes. `standing` is in the superblock's place; the log has `blocks` blocks.
    fn of(
        alloc: Global,
        bytes: &'a [u8],
        blocks: u64,
        sectors: Option<Sectors>,
        standing: Standing,
    ) -> io::Result<Shown<'a>>
        requires { 1024 ≤ length bytes.now }
    {
        let refusal = refusal_of(bytes, blocks);
        let mut ways_out = Vec::new(alloc);
        if let Some(e) = refusal {
            print_ways_out(bytes, blocks, standing, e, &mut ways_out)?;
        }
        Ok(Shown {
            blocks,
            block_size: bytes.len(),
            sectors,
            fields: fields_of(alloc, bytes, blocks)?,
            refusal,
            ways_out,
        })
    }
}

/// Why an opening refuses a log with these superblock bytes and this many blocks, as far as the superblock shows it.
fn refusal_of(bytes: &[u8], blocks: u64) -> Option<JournalError>
    requires { 1024 ≤ length bytes.now }
{
    match Super::read(bytes, blocks) {
        Ok(fields) if fields.s_sequence < GREATEST_NUMBER => None,
        Ok(_) => Some(JournalError::SequenceEnd),
        Err(e) => Some(e),
    }
}

/// The use of a log's ring, if its superblock is accepted.
fn ring_of<D: Device>(alloc: Global, device: &mut D) -> Result<Option<RingUse>, Fault>
    ensures { Stays (D.state device.old) (D.state device.new) }
{
    match ring_use(alloc, device) {
        Ok(ring) => Ok(Some(ring)),
        Err(e) if e == JournalError::Device || e == JournalError::Memory => Err(Fault::Refused(e)),
        Err(_) => Ok(None),
    }
}

/// Prints a ring's used and free blocks, its oldest and newest transaction, and the damaged block after them.
fn say_ring(ring: RingUse, out: &mut impl Write) -> io::Result<()> {
    let RingUse {
        blocks,
        used,
        first,
        end,
    } = ring;
    let (free, transactions) = (blocks.saturating_sub(used), end.transactions);
    write!(
        out,
        "ring blocks={blocks} used={used} free={free} transactions={transactions}"
    )?;
    if transactions > 0 {
        let newest = first.saturating_add(transactions).saturating_sub(1);
        write!(out, " oldest={first} newest={newest}")?;
    }
    writeln!(out)?;
    match end.damaged {
        Some(place) => writeln!(
            out,
            "  block {place} is damaged: jbench dump LOG --damaged prints the transactions before it"
        ),
        None => Ok(()),
    }
}

/// Writes the same as an object.
fn write_ring(ring: RingUse, out: &mut impl Write) -> io::Result<()> {
    let RingUse {
        blocks,
        used,
        first,
        end,
    } = ring;
    let (free, transactions) = (blocks.saturating_sub(used), end.transactions);
    write!(
        out,
        "{{\"blocks\":{blocks},\"used\":{used},\"free\":{free},\"transactions\":{transactions}"
    )?;
    if transactions > 0 {
        let newest = first.saturating_add(transactions).saturating_sub(1);
        write!(out, ",\"oldest\":{first},\"newest\":{newest}")?;
    }
    if let Some(place) = end.damaged {
        write!(out, ",\"damaged\":{place}")?;
    }
    write!(out, "}}")
}

/// Reads block 0 of the log.
fn read_first<D: Device>(alloc: Global, device: &mut D) -> Result<Block, JournalError>
    ensures { Stays (D.state device.old) (D.state device.new) }
{
    if device.blocks(Area::Log) == 0 {
        return Err(JournalError::BadLength);
    }
    read_block(alloc, device, Area::Log, 0)
}

/// Prints a superblock as lines.
fn show_lines(shown: &Shown<'_>, out: &mut impl Write) -> io::Result<()> {
    writeln!(
        out,
        "log blocks={} blocksize={}",
        shown.blocks, shown.block_size
    )?;
    if let Some(sectors) = shown.sectors {
        writeln!(
            out,
            "device logical_sector={} physical_sector={}",
            sectors.logical, sectors.physical
        )?;
    }
    for field in &shown.fields {
        show_field(field, out)?;
    }
    say_refusal(shown.refusal, out)?;
    out.write_all(&shown.ways_out)
}

/// Says whether an opening accepts a superblock that this refusal, if any, is for.
fn say_refusal(refusal: Option<JournalError>, out: &mut impl Write) -> io::Result<()> {
    match refusal {
        None => writeln!(out, "an opening takes this superblock"),
        Some(JournalError::SequenceEnd) => writeln!(
            out,
            "an opening takes this superblock, and then refuses the log: 10 SequenceEnd"
        ),
        Some(e) => writeln!(
            out,
            "an opening refuses this superblock: {} {}",
            e.number(),
            e.name()
        ),
    }
}

/// Prints a field. Below one that fails its test, prints the refusal and what is wanted.
fn show_field(field: &Field<'_>, out: &mut impl Write) -> io::Result<()> {
    let name = field.name;
    match field.value {
        FieldValue::Number(number) => writeln!(out, "{name} {number}")?,
        FieldValue::Bytes(bytes) => writeln!(out, "{name} {}", HexBytes(bytes))?,
        FieldValue::Features(bits, features) => write_features(out, name, bits, features)?,
    }
    match field.failed {
        Some(FailedTest { refusal, wanted }) => {
            writeln!(
                out,
                "  refusal {} {}: wanted is {wanted}",
                refusal.number(),
                refusal.name()
            )
        }
        None => Ok(()),
    }
}

/// Prints a superblock and the use of the ring as an object.
fn write_object(shown: &Shown<'_>, ring: Option<RingUse>, out: &mut impl Write) -> io::Result<()> {
    write!(
        out,
        "{{\"log\":{{\"blocks\":{},\"blocksize\":{}}},\"device\":",
        shown.blocks, shown.block_size
    )?;
    write_sectors(shown.sectors, out)?;
    write!(out, ",\"superblock\":{{")?;
    write_fields(&shown.fields, out)?;
    write!(out, "}},\"failed\":[")?;
    write_failed(&shown.fields, out)?;
    write!(out, "],\"refusal\":")?;
    match shown.refusal {
        Some(e) => write_refusal(out, e)?,
        None => write!(out, "null")?,
    }
    write!(out, ",\"advice\":")?;
    write_lines(out, &shown.ways_out)?;
    write!(out, ",\"ring\":")?;
    match ring {
        Some(ring) => write_ring(ring, out)?,
        None => write!(out, "null")?,
    }
    writeln!(out, "}}")
}

/// Writes the sectors of a block device as an object.
fn write_sectors(sectors: Option<Sectors>, out: &mut impl Write) -> io::Result<()> {
    match sectors {
        Some(sectors) => write!(
            out,
            "{{\"logical_sector\":{},\"physical_sector\":{}}}",
            sectors.logical, sectors.physical
        ),
        None => write!(out, "null"),
    }
}

/// Writes fields as members. The names of features follow their number.
fn write_fields(fields: &[Field<'_>], out: &mut impl Write) -> io::Result<()> {
    let mut comma = "";
    for field in fields {
        let name = field.name;
        write!(out, "{comma}\"{name}\":")?;
        match field.value {
            FieldValue::Number(number) => write!(out, "{number}")?,
            FieldValue::Bytes(bytes) => write!(out, "\"{}\"", HexBytes(bytes))?,
            FieldValue::Features(bits, features) => {
                write!(out, "{bits},\"{name}_names\":")?;
                write_names(out, bits, features)?;
            }
        }
        comma = ",";
    }
    Ok(())
}

/// Writes an object for each field that fails its test.
fn write_failed(fields: &[Field<'_>], out: &mut impl Write) -> io::Result<()> {
    let mut comma = "";
    for field in fields {
        if let Some(FailedTest { refusal, wanted }) = field.failed {
            write!(out, "{comma}{{\"field\":\"{}\",\"refusal\":", field.name)?;
            write_refusal(out, refusal)?;
            write!(out, ",\"wanted\":\"{wanted}\"}}")?;
            comma = ",";
        }
    }
    Ok(())
}
