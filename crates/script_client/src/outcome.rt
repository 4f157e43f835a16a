//! The outcome of an operation, as the right side of its line.
ghost use Rattle.std.specs.Fmt.{WritesOnOk};
ghost use Rattle.script_client.specs.Lines.{check_turn_text, done_text, hex_digits, refused_text, turn_text};

use group_commit::{CheckTurn, Turn};
use journal_model::{JournalError, Tid};
use std::fmt;

/// How many bytes of a read block are printed.
pub const PRINTED_BYTES: usize = 8;

/// The outcome of an operation.
#[derive(Clone, Copy)]
pub enum OperationOutcome {
    /// Accepted; the number of the transaction that it is about.
    Transaction(Tid),
    /// Accepted; there is nothing more to tell.
    Done,
    /// Accepted; the first bytes of the block.
    Begins([u8; PRINTED_BYTES]),
    /// What a commit turn did.
    Turn(Turn),
    /// What a checkpoint turn did.
    CheckTurn(CheckTurn),
    /// The transaction is committed. Its number is not printed.
    Committed(Tid),
    /// The transaction is not committed.
    Open,
    /// It did not run: its name stands for nothing that it needs or, for a start, for an open handle.
    Skipped,
    /// Refused for this cause.
    Refused(JournalError),
}

impl fmt::Display for OperationOutcome {
    ghost use Rattle.std.specs.Prelude.{Some};
    ghost use Rattle.script_client.specs.Lines.{outcome_text};

    ghost output = { λ outcome. Some (outcome_text outcome) };

    fn fmt<W: fmt::Write>(&self, f: &mut fmt::Formatter<W>) -> fmt::Result {
        match self {
            OperationOutcome::Transaction(tid) => write!(f, "{}", tid.0),
            OperationOutcome::Done => f.write_str("ok"),
            OperationOutcome::Begins(bytes) => write!(f, "{}", Hex(bytes)),
            OperationOutcome::Turn(turn) => write_turn(f, *turn),
            OperationOutcome::CheckTurn(turn) => write_check_turn(f, *turn),
            OperationOutcome::Committed(_) => f.write_str("committed"),
            OperationOutcome::Open => f.write_str("open"),
            OperationOutcome::Skipped => f.write_str("skipped"),
            OperationOutcome::Refused(e) => write_refusal(f, *e),
        }
    }
}

/// Bytes, displayed as hex digits.
#[derive(Clone, Copy)]
pub struct Hex<'a>(pub &'a [u8]);

impl fmt::Display for Hex<'_> {
    ghost use Rattle.std.specs.Prelude.{Some};
    ghost use Rattle.script_client.specs.Lines.{hex_text};

    ghost output = { λ hex. Some (hex_text hex.0.now) };

    fn fmt<W: fmt::Write>(&self, f: &mut fmt::Formatter<W>) -> fmt::Result {
        for byte in self.0 {
            write_byte(f, *byte)?;
        }
        Ok(())
    }
}

fn write_byte<W: fmt::Write>(f: &mut fmt::Formatter<W>, byte: u8) -> fmt::Result
    ensures { WritesOnOk W.write_str_gives f.old result (hex_digits byte) f.new }
{
    write!(f, "{byte:02x}")
}

fn write_refusal<W: fmt::Write>(f: &mut fmt::Formatter<W>, e: JournalError) -> fmt::Result
    ensures { WritesOnOk W.write_str_gives f.old result (refused_text e) f.new }
{
    write!(f, "refused {} {}", e.number(), e.name())
}

fn write_turn<W: fmt::Write>(f: &mut fmt::Formatter<W>, turn: Turn) -> fmt::Result
    ensures { WritesOnOk W.write_str_gives f.old result (turn_text turn) f.new }
{
    match turn {
        Turn::Idle => f.write_str("idle"),
        Turn::Waiting => f.write_str("waiting"),
        Turn::Step => f.write_str("step"),
        Turn::Sealed(tid) => write_done(f, "sealed", tid),
        Turn::Committed(tid) => write_done(f, "committed", tid),
    }
}

fn write_check_turn<W: fmt::Write>(f: &mut fmt::Formatter<W>, turn: CheckTurn) -> fmt::Result
    ensures { WritesOnOk W.write_str_gives f.old result (check_turn_text turn) f.new }
{
    match turn {
        CheckTurn::Idle => f.write_str("idle"),
        CheckTurn::Step => f.write_str("step"),
        CheckTurn::Released(tid) => write_done(f, "released", tid),
    }
}

fn write_done<W: fmt::Write>(f: &mut fmt::Formatter<W>, done: &str, tid: Tid) -> fmt::Result
    ensures { WritesOnOk W.write_str_gives f.old result (done_text done.now tid) f.new }
{
    write!(f, "{done} {}", tid.0)
}
