//! Runs a list of operations, prints a line for each, and ends the journal.
ghost use Rattle.std.specs.Prelude.{◌≡◌, ◌↔◌, IfErr, IfNone, IfOk, IfSome, IsTrue, OnErr, OnOk};
ghost use Rattle.std.specs.Io.KnownBytes.{Appends};
ghost use Rattle.journal_model.specs.declared.refusal.JournalError.TheVariants.{Memory};
ghost use Rattle.script_client.specs.declared.outcome.OperationOutcome.TheVariants.{Refused};
ghost use Rattle.script_client.specs.declared.performing.Ending.TheVariants.{Close, Stay};
ghost use Rattle.script_client.specs.Ended.{IsEnded, IsLeftClosed};
ghost use Rattle.script_client.specs.Lines.{line_of};
ghost use Rattle.script_client.specs.Outcomes.{Applies, EndsApply, HasApplied, HasPerformed, IsAppliedAs, IsClosedAs, IsLast, IsLastApplied, IsUnperformed, PerformsAll, Writes};
ghost use Rattle.script_client.specs.Performed.{HasDone, HasDoneAs};
ghost use Rattle.script_client.specs.Shown.{IsLeftOf};
ghost use Rattle.script_client.specs.Told.{IsLedTo};

use crate::client::{ClosedJournal, HomeFact};
use crate::fault::Fault;
use crate::interpreter::Interpreter;
use crate::outcome::OperationOutcome;
use block_device::Device;
use journal_model::{JournalError, Sealed, Tid};
use journal_script::Operation;
use recovery::Opened;
use std::alloc::Global;
use std::io;
use std::io::Write;
use std::marker::Brand;

/// Whether operations go on after one that a device failure refused.
#[derive(Clone, Copy, Debug, PartialEq, Eq)]
pub enum AfterFailure {
    /// The operation refused for the failure is the last.
    End,
    /// They go on; the aborted journal refuses them or answers as it does then.
    GoOn,
}

/// What follows a refusal.
#[derive(Clone, Copy, Debug)]
pub struct AfterRefusal {
    /// An operation for which the ring has no room is tried again after checkpoint turns, up to the first that has nothing to do. It is
    /// refused if it is so then, or if such a turn is.
    pub makes_room: bool,
    /// Operations go on, unless the device failed: that refusal is the last outcome. Else they end at the first refusal, so that no half of
    /// a change is committed.
    pub goes_on: bool,
}

/// What is left of a journal after `perform` or `apply`.
#[derive(Drop)]
pub struct Performed<D> {
    /// The journal's device.
    pub device: D,
    /// The sealed transactions, in order.
    pub sealed: Vec<Sealed>,
    /// The greatest acknowledged transaction.
    pub acknowledged: Option<Tid>,
    /// The greatest transaction for which a wait came to `open`: where it is above `acknowledged` no later line showed it committed.
    pub open_wait: Option<Tid>,
}

/// How `apply` leaves the journal after its last operation.
#[derive(Clone, Copy, Debug, PartialEq, Eq)]
pub enum Ending {
    /// Closed: the log is clean, and home has all that was committed.
    Close,
    /// Not closed: what was committed stays in the log, for the next opening.
    Stay,
}

/// What is left after `apply`, and how it ended.
#[derive(Drop)]
pub struct Applied<D> {
    /// What is left of the journal.
    pub left: Performed<D>,
    /// Why not all was done, if not.
    pub end: Result<(), Fault>,
}

/// Performs operations on a new journal on an opened log, whose disk satisfies `H`, and prints a line for each. Stops the open handles at
/// the end, and does not close the journal.
///
/// # Errors
///
/// `Fault::Refused` with `Memory`: none for the journal. `Fault::Output`: a line can't be written; earlier lines may have been.
pub fn perform<D: Device + Drop, H: HomeFact, W: Write>(
    alloc: Global,
    opened: Opened<D>,
    operations: &[Operation],
    after: AfterFailure,
    out: &mut W,
) -> Result<Performed<D>, Fault>
    requires { D.honest opened.device → H.holds (D.state opened.device).shape (D.state opened.device).disk }
    ensures led { IfOk result (λ performed. D.honest performed.device →
        IsLedTo H.holds operations.now (D.state performed.device) performed.sealed.items performed.acknowledged) }
    ensures outcomes { IfOk result (λ performed. Writes (W.contents out.old) (W.contents out.new)
        (HasPerformed D.state D.honest opened operations.now after performed.device performed.sealed.items performed.acknowledged)) }
    ensures err { IfErr result IsUnperformed }
{
    let mut interpreter = match Interpreter::<D, H>::new(alloc, opened, operations) {
        Ok(interpreter) => interpreter,
        Err((_, e)) => return Err(Fault::Refused(e)),
    };
    match perform_all(&mut interpreter, operations, after, out) {
        Ok(()) => Ok(left_of(interpreter)),
        Err(e) => {
            let _ = left_of(interpreter);
            Err(Fault::Output(e))
        }
    }
}

/// Performs operations on a new journal on an opened log, whose disk satisfies `H`, and prints a line for each. `after` says at which
/// refusal it ends; it always ends if the device failed. Then it stops the open handles and, if all was performed and `ending` is `Close`,
/// closes the journal.
///
/// `Applied` has what is left, and why it ended early: `Fault::Output` if a line could not be written, else the refusal of the last
/// operation or of the close. Then, and with `Stay`, the journal is not closed: what was committed is in the log or at home.
///
/// # Errors
///
/// `Memory`: none for the journal. Nothing was done, and the opened log comes back.
pub fn apply<D: Device + Drop, H: HomeFact, W: Write>(
    alloc: Global,
    opened: Opened<D>,
    operations: &[Operation],
    after: AfterRefusal,
    ending: Ending,
    out: &mut W,
) -> Result<Applied<D>, (Opened<D>, JournalError)>
    requires { D.honest opened.device → H.holds (D.state opened.device).shape (D.state opened.device).disk }
    ensures ended { IfOk result (λ applied. D.honest applied.left.device →
        IsEnded H.holds operations.now (D.state applied.left.device) applied.left.sealed.items applied.left.acknowledged) }
    ensures closed { ending ≡ Close → IfOk result (λ applied. OnOk applied.end (D.honest applied.left.device →
        IsLeftClosed (D.state applied.left.device) applied.left.sealed.items)) }
    ensures stays { ending ≡ Stay → IfOk result (λ applied. D.honest applied.left.device →
        IsLedTo H.holds operations.now (D.state applied.left.device) applied.left.sealed.items applied.left.acknowledged) }
    ensures outcomes { IfOk result (λ applied.
        HasApplied D.state D.honest opened operations.now after ending applied.left.device applied.left.sealed.items applied.left.acknowledged applied.end (W.contents out.old) (W.contents out.new)) }
    ensures honest { IfOk result (λ applied. D.honest applied.left.device → D.honest opened.device) }
    ensures err { IfErr result (λ e. (e.0 ≡ opened) × (e.1 ≡ Memory)) }
    ensures unwritten { OnErr result (out.new ≡ out.old) }
{
    apply_known::<D, Brand, W>(alloc, opened, operations, after, ending, out)
}

/// `apply`, for any choice of what is known of the disk.
fn apply_known<D: Device + Drop, H: HomeFact, W: Write>(
    alloc: Global,
    opened: Opened<D>,
    operations: &[Operation],
    after: AfterRefusal,
    ending: Ending,
    out: &mut W,
) -> Result<Applied<D>, (Opened<D>, JournalError)>
    requires { D.honest opened.device → H.holds (D.state opened.device).shape (D.state opened.device).disk }
    ensures ended { IfOk result (λ applied. D.honest applied.left.device →
        IsEnded H.holds operations.now (D.state applied.left.device) applied.left.sealed.items applied.left.acknowledged) }
    ensures closed { ending ≡ Close → IfOk result (λ applied. OnOk applied.end (D.honest applied.left.device →
        IsLeftClosed (D.state applied.left.device) applied.left.sealed.items)) }
    ensures stays { ending ≡ Stay → IfOk result (λ applied. D.honest applied.left.device →
        IsLedTo H.holds operations.now (D.state applied.left.device) applied.left.sealed.items applied.left.acknowledged) }
    ensures outcomes { IfOk result (λ applied.
        HasApplied D.state D.honest opened operations.now after ending applied.left.device applied.left.sealed.items applied.left.acknowledged applied.end (W.contents out.old) (W.contents out.new)) }
    ensures err { IfErr result (λ e. (e.0 ≡ opened) × (e.1 ≡ Memory)) }
    ensures unwritten { OnErr result (out.new ≡ out.old) }
{
    match Interpreter::<D, H>::new(alloc, opened, operations) {
        Ok(interpreter) => {
            let mut interpreter = interpreter;
            let applied = apply_all(&mut interpreter, operations, after, out);
            Ok(end_of(interpreter, applied, ending))
        }
        Err(refused) => Err(refused),
    }
}

/// Performs operations up to the one that ends the list, and prints a line for each. `Fault::Refused`: the refusal that ended the list.
/// `Fault::Output`: a line can't be written.
fn apply_all<D: Device + Drop, H: HomeFact, W: Write>(
    interpreter: &mut Interpreter<'_, D, H>,
    operations: &[Operation],
    after: AfterRefusal,
    out: &mut W,
) -> Result<(), Fault>
    requires { interpreter.old.client.operations ≡ operations.now }
    ensures operations { interpreter.new.client.operations ≡ interpreter.old.client.operations }
    ensures applies { Applies (HasDoneAs after.makes_room D.state D.honest) (IsLastApplied after) operations.now
        (record { client = interpreter.old.client; names = interpreter.old.slots }) (record { client = interpreter.new.client; names = interpreter.new.slots })
        (W.contents out.old) (W.contents out.new) result }
{
    for operation in operations {
        let outcome = interpreter.perform_as(operation, after.makes_room);
        match write_line(operation, &outcome, out) {
            Ok(()) => {}
            Err(e) => return Err(Fault::Output(e)),
        }
        if let Some(e) = last_refusal(outcome, after) {
            return Err(Fault::Refused(e));
        }
    }
    Ok(())
}

fn write_line<W: Write>(
    operation: &Operation,
    outcome: &OperationOutcome,
    out: &mut W,
) -> io::Result<()>
    ensures { OnOk result (Appends (W.contents out.old) (W.contents out.new) (line_of operation.now outcome.now)) }
{
    writeln!(out, "{operation} = {outcome}")
}

fn last_refusal(outcome: OperationOutcome, after: AfterRefusal) -> Option<JournalError>
    ensures some { IfSome result (λ e. (outcome ≡ Refused e) × EndsApply after e) }
    ensures none { IfNone result (IsLastApplied after outcome → ⊥) }
{
    match outcome {
        OperationOutcome::Refused(e) if !after.goes_on || e == JournalError::Device => Some(e),
        _ => None,
    }
}

/// Ends the journal: without a close if operations failed, else as `ending` says.
fn end_of<D: Device + Drop, H: HomeFact>(
    interpreter: Interpreter<'_, D, H>,
    applied: Result<(), Fault>,
    ending: Ending,
) -> Applied<D>
    ensures ended { D.honest result.left.device → IsEnded H.holds interpreter.entry.client.operations (D.state result.left.device) result.left.sealed.items result.left.acknowledged }
    ensures closed { ending ≡ Close → OnOk result.end (D.honest result.left.device → IsLeftClosed (D.state result.left.device) result.left.sealed.items) }
    ensures stays { ending ≡ Stay → D.honest result.left.device → IsLedTo H.holds interpreter.entry.client.operations (D.state result.left.device) result.left.sealed.items result.left.acknowledged }
    ensures applied { IsAppliedAs D.state applied ending interpreter.entry.client result.left.device result.left.sealed.items result.left.acknowledged result.end }
{
    match applied {
        Ok(()) => match ending {
            Ending::Close => close(interpreter),
            Ending::Stay => stay(interpreter, Ok(())),
        },
        Err(fault) => stay(interpreter, Err(fault)),
    }
}

fn stay<D: Device + Drop, H: HomeFact>(
    interpreter: Interpreter<'_, D, H>,
    end: Result<(), Fault>,
) -> Applied<D>
    ensures ended { D.honest result.left.device → IsEnded H.holds interpreter.entry.client.operations (D.state result.left.device) result.left.sealed.items result.left.acknowledged }
    ensures led { D.honest result.left.device → IsLedTo H.holds interpreter.entry.client.operations (D.state result.left.device) result.left.sealed.items result.left.acknowledged }
    ensures left { IsLeftOf interpreter.entry.client result.left.device result.left.sealed.items result.left.acknowledged }
    ensures end { result.end ≡ end }
{
    Applied {
        left: left_of(interpreter),
        end,
    }
}

fn close<D: Device + Drop, H: HomeFact>(interpreter: Interpreter<'_, D, H>) -> Applied<D>
    ensures ended { D.honest result.left.device → IsEnded H.holds interpreter.entry.client.operations (D.state result.left.device) result.left.sealed.items result.left.acknowledged }
    ensures closed { OnOk result.end (D.honest result.left.device → IsLeftClosed (D.state result.left.device) result.left.sealed.items) }
    ensures closed_as { IsClosedAs D.state interpreter.entry.client result.left.device result.left.sealed.items result.left.acknowledged result.end }
{
    let open_wait = interpreter.open_wait();
    let ClosedJournal {
        parts,
        acknowledged,
        closed,
    } = interpreter.into_stopped().close();
    let left = Performed {
        device: parts.device,
        sealed: parts.sealed,
        acknowledged,
        open_wait,
    };
    match closed {
        Ok(()) => Applied { left, end: Ok(()) },
        Err(e) => Applied {
            left,
            end: Err(Fault::Refused(e)),
        },
    }
}

fn perform_all<D: Device + Drop, H: HomeFact, W: Write>(
    interpreter: &mut Interpreter<'_, D, H>,
    operations: &[Operation],
    after: AfterFailure,
    out: &mut W,
) -> io::Result<()>
    requires { interpreter.old.client.operations ≡ operations.now }
    ensures operations { interpreter.new.client.operations ≡ interpreter.old.client.operations }
    ensures all { OnOk result (Writes (W.contents out.old) (W.contents out.new) (PerformsAll (HasDone D.state D.honest) (IsLast after) operations.now
        (record { client = interpreter.old.client; names = interpreter.old.slots }) (record { client = interpreter.new.client; names = interpreter.new.slots }))) }
{
    for operation in operations {
        let outcome = interpreter.perform(operation);
        write_line(operation, &outcome, out)?;
        if is_last(outcome, after) {
            return Ok(());
        }
    }
    Ok(())
}

fn is_last(outcome: OperationOutcome, after: AfterFailure) -> bool
    ensures { IsTrue result ↔ IsLast after outcome }
{
    after == AfterFailure::End && matches!(outcome, OperationOutcome::Refused(JournalError::Device))
}

fn left_of<D: Device + Drop, H: HomeFact>(interpreter: Interpreter<'_, D, H>) -> Performed<D>
    ensures led { D.honest result.device → IsLedTo H.holds interpreter.entry.client.operations (D.state result.device) result.sealed.items result.acknowledged }
    ensures left { IsLeftOf interpreter.entry.client result.device result.sealed.items result.acknowledged }
{
    let open_wait = interpreter.open_wait();
    let (parts, acknowledged) = interpreter.into_stopped().finish();
    Performed {
        device: parts.device,
        sealed: parts.sealed,
        acknowledged,
        open_wait,
    }
}
