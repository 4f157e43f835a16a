//! The command `apply`, over devices: applies a script's operations to a log in files.
ghost use Rattle.std.specs.Prelude.{◌≡◌, false, IfErr, IfOk, IsErr, IsOk, OnOk};
ghost use Rattle.jbench_commands.specs.declared.apply.Unapplied.TheVariants.{Undone};
ghost use Rattle.journal_model.specs.declared.refusal.JournalError.TheVariants.{Memory};
ghost use Rattle.std.specs.Io.Buffered.{line_writer_contents};
ghost use Rattle.std.specs.Io.KnownBytes.{Appends, Keeps};
ghost use Rattle.journal_model.specs.Disk.{reading};
ghost use Rattle.log_model.specs.Opening.{super_of};
ghost use Rattle.block_device.specs.Call.{OnlyReads};
ghost use Rattle.block_device.specs.State.{Stays};
ghost use Rattle.script_client.specs.declared.performing.Ending.TheVariants.{Close, Stay};
ghost use Rattle.script_client.specs.Ended.{IsEnded, IsLeftClosed};
ghost use Rattle.script_client.specs.Told.{IsLedTo};
ghost use Rattle.jbench_commands.specs.Unapplied.{IsUnapplied, IsUnappliedAfter};
ghost use Rattle.jbench_commands.specs.Applying.{AreForDevice, AreOf, EndsWithNext, IsDoneAfter, IsDoneTo, IsOperated, SaysAfter, SaysNext, after_told, closed_line, ending_told, lines_told};

use crate::faults::of_run;
use crate::objects::Objects;
use crate::uncommitted::{changes_in, say_last_numbers, say_open_wait, say_uncommitted};
use block_device::{Device, read_block};
use jbench_logs::logs::{refuse, refuse_fault, say_opened};
use jbench_words::fault::{self, Fault};
use jbench_words::words::ApplyWords;
use journal_model::layout::GREATEST_NUMBER;
use journal_model::{Area, JournalError};
use journal_script::{Measures, Operation};
use log_format::Super;
use recovery::Opened;
use script_client::{AfterRefusal, AnyHome, Applied, Ending, HomeFact, Performed};
use std::alloc::Global;
use std::io;
use std::io::{LineWriter, Write};

/// What an apply needs before it opens the log: the operations, and line-buffered output.
#[derive(Drop)]
struct Prepared<W: Write + Drop> {
    operations: Vec<Operation>,
    out: LineWriter<W>,
}

/// What a refused apply leaves.
#[derive(Drop)]
pub enum Unapplied<D> {
    /// The device, whose log was not opened: no more was done than a refused opening does.
    Unopened(D),
    /// The device, whose log was opened; no operation was done.
    Unbegun(D),
    /// What the operations left, up to the refused one or the close.
    Undone(Performed<D>),
}

/// Opens a device's log and prints the report, then applies a script's operations and prints a line for each. Then it closes the journal,
/// unless the words ask it to stay. The first refused operation is the last, unless the words ask to go on. If they ask to make room, a
/// checkpoint round precedes an operation that the ring has no room for. Keys of the script that describe the device must agree with it.
/// After a refusal a line on `err` says why. Committed transactions are then in the log or at home, and nothing of others is. Each line is
/// an object if the words ask for it.
///
/// # Errors
///
/// The output could not be written.
pub fn apply<D: Device + Drop, W: Write + Drop, E: Write + Drop>(
    alloc: Global,
    words: &ApplyWords<'_>,
    device: D,
    script: &[u8],
    out: W,
    err: E,
) -> io::Result<Result<Performed<D>, Unapplied<D>>>
    ensures closed { words.now.stay ≡ false → IfOk result (λ done. IfOk done (λ left. D.honest left.device →
        IsLeftClosed (D.state left.device) left.sealed.items)) }
    ensures done { IfOk result (λ done. IfOk done (λ left.
        IsDoneTo D.state D.honest device script.now (after_told words.now.keep_going words.now.make_room) (ending_told words.now.stay) left.device left.sealed.items left.acknowledged
        (lines_told words.now.json (W.contents out)))) }
    ensures left { IfOk result (λ done. IfErr done (IsUnapplied D.state D.honest device script.now (after_told words.now.keep_going words.now.make_room) (ending_told words.now.stay))) }
{
    if words.json {
        let objects = Objects::new(alloc, out)?;
        apply_lines(alloc, words, device, script, objects, err)
    } else {
        apply_lines(alloc, words, device, script, out, err)
    }
}

/// `apply`, with lines.
fn apply_lines<D: Device + Drop, W: Write + Drop, E: Write + Drop>(
    alloc: Global,
    words: &ApplyWords<'_>,
    device: D,
    script: &[u8],
    out: W,
    err: E,
) -> io::Result<Result<Performed<D>, Unapplied<D>>>
    ensures closed { words.now.stay ≡ false → IfOk result (λ done. IfOk done (λ left. D.honest left.device →
        IsLeftClosed (D.state left.device) left.sealed.items)) }
    ensures done { IfOk result (λ done. IfOk done (λ left.
        IsDoneTo D.state D.honest device script.now (after_told words.now.keep_going words.now.make_room) (ending_told words.now.stay) left.device left.sealed.items left.acknowledged (W.contents out))) }
    ensures left { IfOk result (λ done. IfErr done (IsUnapplied D.state D.honest device script.now (after_told words.now.keep_going words.now.make_room) (ending_told words.now.stay))) }
{
    let (mut device, mut err) = (device, err);
    let prepared = match prepare(alloc, &mut device, script, out) {
        Ok(prepared) => prepared,
        Err(fault) => {
            refuse_fault(alloc, words.script, &mut device, fault, &mut err)?;
            return Ok(Err(Unapplied::Unopened(device)));
        }
    };
    let changes = changes_in(&prepared.operations);
    match recovery::open(alloc, device) {
        Ok(opened) => match apply_script(alloc, words, opened, prepared) {
            Ok(left) => {
                say_uncommitted(words, changes, &left.sealed, &mut err)?;
                say_open_wait(words, &left, &mut err)?;
                say_last_numbers(words.stay, &left.sealed, &mut err)?;
                Ok(Ok(left))
            }
            Err((unapplied, fault)) => {
                say_unapplied(words, fault, &unapplied, &mut err)?;
                Ok(Err(unapplied))
            }
        },
        Err((device, e)) => {
            let mut device = device;
            refuse(alloc, words.script, &mut device, e, &mut err)?;
            Ok(Err(Unapplied::Unopened(device)))
        }
    }
}

/// The device that an apply leaves, in either case.
pub(crate) fn device_of<D>(done: &Result<Performed<D>, Unapplied<D>>) -> &D {
    match done {
        Ok(left) => &left.device,
        Err(Unapplied::Unopened(device)) | Err(Unapplied::Unbegun(device)) => device,
        Err(Unapplied::Undone(left)) => &left.device,
    }
}

/// Prints why a script was not applied.
fn say_refused(words: &ApplyWords<'_>, fault: Fault, err: &mut impl Write) -> io::Result<()> {
    match fault {
        Fault::Output(e) => Err(e),
        fault => {
            fault::refuse(err, words.script, &fault)?;
            Ok(())
        }
    }
}

/// Prints why a script was not applied to its end, and whether a later opening takes what was.
fn say_unapplied<D>(
    words: &ApplyWords<'_>,
    fault: Fault,
    unapplied: &Unapplied<D>,
    err: &mut impl Write,
) -> io::Result<()> {
    say_refused(words, fault, err)?;
    match unapplied {
        Unapplied::Undone(left) => say_last_numbers(true, &left.sealed, err),
        Unapplied::Unopened(_) | Unapplied::Unbegun(_) => Ok(()),
    }
}

/// Reads the operations of a script that agrees with a device, and buffers the output by lines.
fn prepare<D: Device, W: Write + Drop>(
    alloc: Global,
    device: &mut D,
    script: &[u8],
    out: W,
) -> Result<Prepared<W>, Fault>
    ensures for_device { IfOk result (λ prepared. AreForDevice script.now (D.state device.old) (D.honest device.new) prepared.operations.items) }
    ensures out { IfOk result (λ prepared. Keeps (W.contents out) (line_writer_contents W.contents prepared.out)) }
    ensures stays { Stays (D.state device.old) (D.state device.new) }
{
    Ok(Prepared {
        operations: read_operations(alloc, device, script)?,
        out: LineWriter::new(alloc, out)?,
    })
}

/// Applies operations to an opened log.
fn apply_script<D: Device + Drop, W: Write + Drop>(
    alloc: Global,
    words: &ApplyWords<'_>,
    opened: Opened<D>,
    prepared: Prepared<W>,
) -> Result<Performed<D>, (Unapplied<D>, Fault)>
    ensures closed { words.now.stay ≡ false → IfOk result (λ left. D.honest left.device →
        IsLeftClosed (D.state left.device) left.sealed.items) }
    ensures left { IfErr result (λ e. IsUnappliedAfter D.state D.honest opened prepared.operations.items (after_told words.now.keep_going words.now.make_room) (ending_told words.now.stay) e.0) }
    ensures done { IfOk result (λ left. IsDoneAfter D.state D.honest opened prepared.operations.items (after_told words.now.keep_going words.now.make_room) (ending_told words.now.stay)
        left.device left.sealed.items left.acknowledged (line_writer_contents W.contents prepared.out)) }
{
    let Prepared {
        operations,
        mut out,
    } = prepared;
    match say_opened(opened.report(), opened.next(), &mut out) {
        Ok(()) => {}
        Err(fault) => return Err((Unapplied::Unbegun(opened.into_device()), fault)),
    }
    match apply_operations::<D, AnyHome, _>(
        alloc,
        opened,
        &operations,
        after_of(words.keep_going, words.make_room),
        ending_of(words.stay),
        &mut out,
    ) {
        Ok(applied) => left_of(applied),
        Err((opened, e)) => Err((Unapplied::Unbegun(opened.into_device()), Fault::Refused(e))),
    }
}

/// What applied operations leave; and why not all was done, if so.
fn left_of<D: Device>(applied: Applied<D>) -> Result<Performed<D>, (Unapplied<D>, Fault)>
    ensures all { IfOk result (λ left. IsOk applied.end × (left ≡ applied.left)) }
    ensures err { IfErr result (λ e. IsErr applied.end × (e.0 ≡ Undone applied.left)) }
{
    let Applied { left, end } = applied;
    match end {
        Ok(()) => Ok(left),
        Err(fault) => Err((Unapplied::Undone(left), of_run(fault))),
    }
}

/// How the journal is left, by the words.
fn ending_of(stay: bool) -> Ending
    ensures { result ≡ ending_told stay }
{
    if stay { Ending::Stay } else { Ending::Close }
}

/// What a refused operation does, by the words.
fn after_of(keep_going: bool, make_room: bool) -> AfterRefusal
    ensures { result ≡ after_told keep_going make_room }
{
    AfterRefusal {
        makes_room: make_room,
        goes_on: keep_going,
    }
}

/// Reads the operations of a script that agrees with a device.
fn read_operations<D: Device>(
    alloc: Global,
    device: &mut D,
    script: &[u8],
) -> Result<Vec<Operation>, Fault>
    ensures for_device { IfOk result (λ operations. AreForDevice script.now (D.state device.old) (D.honest device.new) operations.items) }
    ensures stays { Stays (D.state device.old) (D.state device.new) }
{
    let measures = measures_of(alloc, device)?;
    Ok(journal_script::read_over(alloc, script, &measures)?)
}

/// The measures of a device and its log.
///
/// # Errors
///
/// `Device`, `Memory`, and the refusals of its superblock.
fn measures_of<D: Device>(alloc: Global, device: &mut D) -> Result<Measures, JournalError>
    ensures measures { IfOk result (λ measures. D.honest device.new → AreOf (D.state device.old) measures) }
    ensures stays { Stays (D.state device.old) (D.state device.new) }
{
    let superblock = read_super(alloc, device)?;
    let (uuid, wide) = (superblock.s_uuid, superblock.has_wide_numbers());
    Ok(Measures {
        block_size: device.block_size(),
        log_blocks: superblock.s_maxlen,
        home_blocks: device.blocks(Area::Home),
        uuid,
        wide,
    })
}

/// Reads and tests the superblock.
fn read_super<D: Device>(alloc: Global, device: &mut D) -> Result<Super, JournalError>
    ensures fields { IfOk result (λ superblock. D.honest device.new → superblock ≡ super_of (reading (D.state device.old).disk)) }
    ensures device { OnlyReads D.state D.honest device.old device.new }
{
    let log_blocks = device.blocks(Area::Log);
    if log_blocks == 0 {
        return Err(JournalError::BadLength);
    }
    let block = read_block(alloc, device, Area::Log, 0)?;
    Super::read(block.bytes(), log_blocks)
}

/// Performs operations on a new journal on an opened log, and prints a line for each; `H` is known of its disk. `after` says whether a
/// refused operation is the last and whether room is made for one; after a device failure it is always the last. Then open handles stop,
/// and the journal is closed if `ending` is `Close`; the last line then has the number that the next opening gives the next transaction.
/// In each case the device comes back. If `end` is an error, the journal is not closed, unless the error came after the close: its line
/// could not be written, or the superblock not be read. Committed transactions are in the log or at home.
///
/// # Errors
///
/// `Memory`: there was none for the journal. Nothing was done, and the opened log comes back.
fn apply_operations<D: Device + Drop, H: HomeFact, W: Write>(
    alloc: Global,
    opened: Opened<D>,
    operations: &[Operation],
    after: AfterRefusal,
    ending: Ending,
    out: &mut W,
) -> Result<Applied<D>, (Opened<D>, JournalError)>
    requires { D.honest opened.device → H.holds (D.state opened.device).shape (D.state opened.device).disk }
    ensures ended { IfOk result (λ applied. D.honest applied.left.device →
        IsEnded H.holds operations.now (D.state applied.left.device) applied.left.sealed.items applied.left.acknowledged) }
    ensures closed { ending ≡ Close → IfOk result (λ applied. OnOk applied.end (D.honest applied.left.device →
        IsLeftClosed (D.state applied.left.device) applied.left.sealed.items)) }
    ensures says { ending ≡ Close → IfOk result (λ applied. OnOk applied.end (D.honest applied.left.device →
        EndsWithNext (D.state applied.left.device) (W.contents out.new))) }
    ensures stays { ending ≡ Stay → IfOk result (λ applied. D.honest applied.left.device →
        IsLedTo H.holds operations.now (D.state applied.left.device) applied.left.sealed.items applied.left.acknowledged) }
    ensures operated { IfOk result (λ applied. IsOperated D.state D.honest opened operations.now after ending applied.left.device applied.left.sealed.items applied.left.acknowledged applied.end
        (W.contents out.old) (W.contents out.new)) }
    ensures honest { IfOk result (λ applied. D.honest applied.left.device → D.honest opened.device) }
    ensures err { IfErr result (λ e. (e.0 ≡ opened) × (e.1 ≡ Memory)) }
{
    match script_client::apply::<D, H, W>(alloc, opened, operations, after, ending, out) {
        Ok(applied) => Ok(say_end(alloc, ending, applied, out)),
        Err(refused) => Err(refused),
    }
}

/// Prints the next number, if a journal was closed after all operations.
fn say_end<D: Device + Drop, W: Write>(
    alloc: Global,
    ending: Ending,
    applied: Applied<D>,
    out: &mut W,
) -> Applied<D>
    ensures after { SaysAfter D.state D.honest ending applied.left.device result.left.device applied.end result.end (W.contents out.old) (W.contents out.new) }
    ensures sealed { result.left.sealed ≡ applied.left.sealed }
    ensures acknowledged { result.left.acknowledged ≡ applied.left.acknowledged }
    ensures device { OnlyReads D.state D.honest applied.left.device result.left.device }
{
    match ending {
        Ending::Stay => applied,
        Ending::Close => say_close(alloc, applied, out),
    }
}

/// Prints the next number, if the close succeeded.
fn say_close<D: Device + Drop, W: Write>(
    alloc: Global,
    applied: Applied<D>,
    out: &mut W,
) -> Applied<D>
    ensures after { SaysAfter D.state D.honest Close applied.left.device result.left.device applied.end result.end (W.contents out.old) (W.contents out.new) }
    ensures sealed { result.left.sealed ≡ applied.left.sealed }
    ensures acknowledged { result.left.acknowledged ≡ applied.left.acknowledged }
    ensures device { OnlyReads D.state D.honest applied.left.device result.left.device }
{
    if applied.end.is_err() {
        return applied;
    }
    say_closed(alloc, applied, out)
}

/// Prints the number that the next opening of a closed log gives the next transaction.
fn say_closed<D: Device + Drop, W: Write>(
    alloc: Global,
    applied: Applied<D>,
    out: &mut W,
) -> Applied<D>
    ensures said { OnOk result.end (D.honest result.left.device → SaysNext (D.state applied.left.device) (W.contents out.old) (W.contents out.new)) }
    ensures sealed { result.left.sealed ≡ applied.left.sealed }
    ensures acknowledged { result.left.acknowledged ≡ applied.left.acknowledged }
    ensures device { OnlyReads D.state D.honest applied.left.device result.left.device }
{
    let Applied { left, end: _ } = applied;
    let mut left = left;
    let end = write_closed(alloc, &mut left.device, out);
    Applied { left, end }
}

/// Reads the superblock of a closed log, and writes the close's line.
fn write_closed<D: Device, W: Write>(
    alloc: Global,
    device: &mut D,
    out: &mut W,
) -> Result<(), script_client::Fault>
    ensures said { OnOk result (D.honest device.new → SaysNext (D.state device.old) (W.contents out.old) (W.contents out.new)) }
    ensures device { OnlyReads D.state D.honest device.old device.new }
{
    let superblock = read_super(alloc, device)?;
    write_next(superblock.s_sequence, out)?;
    Ok(())
}

/// Writes the close's line for a clean log whose greatest number is `limit`: the next transaction has the number after it, if one is left.
fn write_next<W: Write>(limit: u32, out: &mut W) -> io::Result<()>
    ensures { OnOk result (Appends (W.contents out.old) (W.contents out.new) (closed_line limit)) }
{
    if limit < GREATEST_NUMBER {
        writeln!(out, "closed next={}", limit + 1)
    } else {
        writeln!(out, "closed next=none")
    }
}
