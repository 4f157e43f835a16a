//! Says what a log holds that is to be made anew, and whether that may be lost.
ghost use Rattle.std.specs.Prelude.{◌≡◌, ◌≢◌, ◌≤◌, true, false, IfOk, None};
ghost use Rattle.journal_model.specs.Disk.{reading};
ghost use Rattle.log_model.specs.Opening.{layout_of, ring_of};
ghost use Rattle.block_device.specs.Call.{OnlyReads};
ghost use Rattle.log_format.specs.Accepted.{IsAccepted};
ghost use Rattle.log_scan.specs.Finding.{every_block};
ghost use Rattle.log_scan.specs.Scanning.{IsEndOf};
ghost use Rattle.jbench_logs.specs.Holding.{HasFound, HoldsNothing, IsHeldFor, IsHeldIn, IsHeldWhole, IsNothing};

use block_device::Device;
use journal_model::layout::GREATEST_NUMBER;
use journal_model::{Area, JournalError};
use log_scan::{ChainEnd, Finder, Log, find_end};
use recovery::{lowest_ahead, read_super};
use std::alloc::Global;
use std::io;
use std::io::{ErrorKind, Write};

/// The content of a log's place.
#[derive(Clone, Copy)]
pub enum Held {
    /// No log.
    NoLog,
    /// A log whose transactions are all home.
    AllHome,
    /// A log with complete transactions that are not home, or with damage.
    NotHome(ChainEnd),
    /// A log that is refused for another cause.
    Refused(JournalError),
}

/// Says that a device's log will be overwritten, and what it is; or, if it has or may have transactions that are not home and these must
/// not be lost, that it is kept, and the way out. Returns whether it may be overwritten. `path` names its file. The device is only read.
///
/// # Errors
///
/// The lines could not be written, or memory ran out.
pub fn may_overwrite<D: Device>(
    alloc: Global,
    path: &str,
    discards: bool,
    device: &mut D,
    err: &mut impl Write,
) -> io::Result<bool>
    ensures may { IfOk result (λ may. may ≡ true → discards ≡ false → D.honest device.new → HoldsNothing (D.state device.old)) }
    ensures kept { IfOk result (λ may. may ≡ false → discards ≡ false) }
    ensures device { OnlyReads D.state D.honest device.old device.new }
{
    let held = look(alloc, device)?;
    if must_stay(held, discards) {
        say_kept(path, held, err)?;
        return Ok(false);
    }
    say_overwritten(path, held, err)?;
    Ok(true)
}

/// Whether what is held must not be overwritten: it has or may have transactions that are not home.
fn must_stay(held: Held, discards: bool) -> bool
    ensures nothing { result ≡ false → discards ≡ false → IsNothing held }
    ensures stays { result ≡ true → discards ≡ false }
{
    match held {
        Held::NoLog | Held::AllHome => false,
        Held::NotHome(_) | Held::Refused(_) => !discards,
    }
}

/// What a device's log area holds; `Refused(Device)` if it can't be read.
///
/// # Errors
///
/// Memory ran out.
fn look<D: Device>(alloc: Global, device: &mut D) -> io::Result<Held>
    ensures held { IfOk result (λ held. IsNothing held → D.honest device.new → HasFound (D.state device.old) held) }
    ensures device { OnlyReads D.state D.honest device.old device.new }
{
    match held_by(alloc, device) {
        Ok(held) => Ok(held),
        Err(JournalError::Memory) => Err(io::Error::from(ErrorKind::OutOfMemory)),
        Err(e) => Ok(Held::Refused(e)),
    }
}

/// What a device's log area holds. Home blocks are not tested: a home area need not be there.
///
/// # Errors
///
/// `Device`: it can't be read. `Memory`.
pub fn held_by<D: Device>(alloc: Global, device: &mut D) -> Result<Held, JournalError>
    ensures held { IfOk result (λ held. D.honest device.new → HasFound (D.state device.old) held) }
    ensures device { OnlyReads D.state D.honest device.old device.new }
{
    if device.blocks(Area::Log) == 0 {
        return Ok(Held::NoLog);
    }
    match read_super(alloc, device) {
        Ok((_, log)) => held_in(device, &log),
        Err(e) => held_for(e),
    }
}

/// What is held where reading the superblock was refused.
fn held_for(e: JournalError) -> Result<Held, JournalError>
    ensures { IfOk result (IsHeldFor e) }
{
    match e {
        JournalError::BadMagic => Ok(Held::NoLog),
        JournalError::Device | JournalError::Memory => Err(e),
        _ => Ok(Held::Refused(e)),
    }
}

/// What is held by a log whose superblock was accepted.
fn held_in<D: Device>(device: &mut D, log: &Log) -> Result<Held, JournalError>
    requires accepted { IsAccepted (D.state device.old).shape.block_size (D.state device.old).shape.log_blocks log.now }
    ensures held { IfOk result (λ held. D.honest device.new → IsHeldIn log.now (reading (D.state device.old).disk) held) }
    ensures device { OnlyReads D.state D.honest device.old device.new }
{
    let mut finder = Finder::new(log.layout());
    let end = end_of(device, log, &mut finder)?;
    if end.damaged.is_some() {
        return Ok(Held::NotHome(end));
    }
    let limit = log.first_number() + end.transactions;
    match lowest_ahead(device, log, limit, &mut finder)? {
        Some(place) => Ok(Held::Refused(JournalError::Ahead(place))),
        None => Ok(held_whole(end, limit)),
    }
}

/// What is held by a log without damage, and without a number above `limit`.
fn held_whole(end: ChainEnd, limit: u64) -> Held
    ensures { IsHeldWhole end limit result }
{
    if end.transactions == 0 {
        Held::AllHome
    } else if limit >= u64::from(GREATEST_NUMBER) {
        Held::Refused(JournalError::SequenceEnd)
    } else {
        Held::NotHome(end)
    }
}

/// The end of a log's chain; a clean log has none of its transactions.
fn end_of<D: Device>(
    device: &mut D,
    log: &Log,
    finder: &mut Finder,
) -> Result<ChainEnd, JournalError>
    requires layout { finder.old.layout ≡ layout_of log.now }
    requires accepted { IsAccepted (D.state device.old).shape.block_size (D.state device.old).shape.log_blocks log.now }
    ensures layout { finder.new.layout ≡ finder.old.layout }
    ensures few { IfOk result (λ end. end.transactions ≤ (ring_of log.now).blocks) }
    ensures clean { IfOk result (λ end. log.now.s_start ≡ 0 → end ≡ record { transactions = 0; damaged = None }) }
    ensures ends { IfOk result (λ end. D.honest device.new → log.now.s_start ≢ 0 → IsEndOf log.now (every_block log.now) (reading (D.state device.old).disk) end) }
    ensures device { OnlyReads D.state D.honest device.old device.new }
{
    if log.is_clean() {
        return Ok(ChainEnd {
            transactions: 0,
            damaged: None,
        });
    }
    find_end(device, log, None, finder)
}

/// Says what is overwritten.
fn say_overwritten(path: &str, held: Held, err: &mut impl Write) -> io::Result<()> {
    write!(err, "jbench: overwrites {path}: it held ")?;
    say_held(held, err)
}

/// Says what is kept, and the way out.
fn say_kept(path: &str, held: Held, err: &mut impl Write) -> io::Result<()> {
    write!(err, "jbench: keeps {path}: it holds ")?;
    say_held(held, err)?;
    writeln!(err, "  {}", way_out(held))
}

/// Ends the line with what a log's place holds.
fn say_held(held: Held, err: &mut impl Write) -> io::Result<()> {
    match held {
        Held::NoLog => writeln!(err, "no log"),
        Held::AllHome => writeln!(err, "a log, all of which is home"),
        Held::Refused(JournalError::Device) => writeln!(err, "what can't be read"),
        Held::Refused(e) => writeln!(err, "a log that is refused, {} {}", e.number(), e.name()),
        Held::NotHome(end) => {
            write!(
                err,
                "a log with transactions that are not home: {}",
                end.transactions
            )?;
            match end.damaged {
                Some(place) => writeln!(err, " before the damaged block {place}"),
                None => writeln!(err),
            }
        }
    }
}

/// What a user can do with a log that is kept.
fn way_out(held: Held) -> &'static str {
    match held {
        Held::NotHome(end) if end.damaged.is_none() => {
            "jbench recover LOG HOME brings them home; format --discard loses them"
        }
        Held::NotHome(_) | Held::Refused(JournalError::Ahead(_)) => {
            "keep a copy of both files, and see what jbench recover LOG HOME --before-damage --dry-run says; format --discard loses what the log holds"
        }
        Held::Refused(JournalError::SequenceEnd) => {
            "no transaction number is left, and what the log holds can't be brought home here: keep a copy of both files; format --discard loses it"
        }
        Held::Refused(JournalError::Device) => {
            "see to its disk first (df, dmesg); format --discard makes the log without a look at the old one"
        }
        _ => {
            "jbench show LOG says why, and what to do; format --discard loses what the log holds"
        }
    }
}
