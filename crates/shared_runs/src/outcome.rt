//! The outcome of an operation, and its line.
use journal_model::{JournalError, Tid};
use journal_script::Operation;
use shared_journal::{CheckTurn, Turn};
use std::io;
use std::io::Write;

/// How many bytes of a read block are printed.
pub(crate) const PRINTED_BYTES: usize = 8;

#[derive(Clone, Copy)]
pub(crate) enum SharedOutcome {
    /// Accepted; the number of its transaction.
    Transaction(Tid),
    Done,
    /// The first bytes of the block that was read.
    Begins([u8; PRINTED_BYTES]),
    Turn(Turn),
    CheckTurn(CheckTurn),
    Committed,
    /// The transaction is not committed.
    Open,
    /// The operation did not run.
    Skipped,
    Refused(JournalError),
}

/// Writes the line of an operation.
pub(crate) fn write_line(
    operation: &Operation,
    outcome: &SharedOutcome,
    out: &mut Vec<u8>,
) -> io::Result<()> {
    write!(out, "{operation} = ")?;
    write_outcome(outcome, out)?;
    writeln!(out)
}

fn write_outcome(outcome: &SharedOutcome, out: &mut Vec<u8>) -> io::Result<()> {
    match outcome {
        SharedOutcome::Transaction(tid) => write!(out, "{}", tid.0),
        SharedOutcome::Done => write!(out, "ok"),
        SharedOutcome::Begins(bytes) => write_bytes(bytes, out),
        SharedOutcome::Turn(turn) => write_turn(*turn, out),
        SharedOutcome::CheckTurn(turn) => write_check_turn(*turn, out),
        SharedOutcome::Committed => write!(out, "committed"),
        SharedOutcome::Open => write!(out, "open"),
        SharedOutcome::Skipped => write!(out, "skipped"),
        SharedOutcome::Refused(e) => write!(out, "refused {} {}", e.number(), e.name()),
    }
}

fn write_bytes(bytes: &[u8], out: &mut Vec<u8>) -> io::Result<()> {
    for byte in bytes {
        write!(out, "{byte:02x}")?;
    }
    Ok(())
}

fn write_turn(turn: Turn, out: &mut Vec<u8>) -> io::Result<()> {
    match turn {
        Turn::Idle => write!(out, "idle"),
        Turn::Waiting => write!(out, "waiting"),
        Turn::Step => write!(out, "step"),
        Turn::Sealed(tid) => write!(out, "sealed {}", tid.0),
        Turn::Committed(tid) => write!(out, "committed {}", tid.0),
    }
}

fn write_check_turn(turn: CheckTurn, out: &mut Vec<u8>) -> io::Result<()> {
    match turn {
        CheckTurn::Idle => write!(out, "idle"),
        CheckTurn::Step => write!(out, "step"),
        CheckTurn::Released(tid) => write!(out, "released {}", tid.0),
    }
}
