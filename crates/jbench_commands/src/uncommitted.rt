//! What an apply says about uncommitted changes, and about waits that found an open transaction.
use jbench_words::numbers::LAST_TAKEN;
use jbench_words::words::ApplyWords;
use journal_model::{Op, Sealed, Tid};
use journal_script::Operation;
use script_client::Performed;
use std::io;
use std::io::Write;

/// How many operations change a block through a handle: writes and revokes.
pub(crate) fn changes_in(operations: &[Operation]) -> u64 {
    let mut changes: u64 = 0;
    for operation in operations {
        if let Operation::Write(..) | Operation::Revoke(..) = operation {
            changes = changes.saturating_add(1);
        }
    }
    changes
}

/// How many steps of sealed transactions change a block.
fn changes_sealed(sealed: &[Sealed]) -> u64 {
    let mut changes: u64 = 0;
    for transaction in sealed {
        for step in transaction.steps.as_slice() {
            if let Op::Write(_) | Op::Revoke = step.op {
                changes = changes.saturating_add(1);
            }
        }
    }
    changes
}

/// Says how many of a script's changes no commit took, after all operations were done; these are lost. With `--keep-going` it says nothing,
/// as some may have been refused.
///
/// # Errors
///
/// The line could not be written.
pub(crate) fn say_uncommitted(
    words: &ApplyWords<'_>,
    changes: u64,
    sealed: &[Sealed],
    err: &mut impl Write,
) -> io::Result<()> {
    let lost = changes.saturating_sub(changes_sealed(sealed));
    if words.keep_going || lost == 0 {
        return Ok(());
    }
    writeln!(
        err,
        "jbench: {lost} of {changes} changes were not committed, and are not there: after them their handle has to stop, and [\"commit\"] to follow"
    )
}

/// Says which transaction a wait found `open`, if no later line showed it committed. A wait commits nothing, nor does a refused commit.
///
/// # Errors
///
/// The lines could not be written.
pub(crate) fn say_open_wait<D>(
    words: &ApplyWords<'_>,
    left: &Performed<D>,
    err: &mut impl Write,
) -> io::Result<()> {
    match left.open_wait {
        Some(tid) if !is_shown(tid, left.acknowledged) => {
            writeln!(
                err,
                "jbench: a wait for transaction {} came to open, and no line after it showed that committed: [\"commit\"] has to come before it",
                tid.0
            )?;
            say_room(words, err)
        }
        _ => Ok(()),
    }
}

/// Says what lets a commit through that was refused for want of room, if the script went on after one.
fn say_room(words: &ApplyWords<'_>, err: &mut impl Write) -> io::Result<()> {
    if words.keep_going && !words.make_room {
        return writeln!(
            err,
            "  if one came, and was refused 11 NeedSpace: --make-room brings home what is committed, and makes room"
        );
    }
    Ok(())
}

/// Says that an apply committed a transaction whose number no later opening takes, and whether it is home. `stays`: the journal was not
/// closed.
///
/// # Errors
///
/// The lines could not be written.
pub(crate) fn say_last_numbers(
    stays: bool,
    sealed: &[Sealed],
    err: &mut impl Write,
) -> io::Result<()> {
    let Some(last) = sealed.last() else {
        return Ok(());
    };
    if last.tid.0 <= LAST_TAKEN {
        return Ok(());
    }
    writeln!(
        err,
        "jbench: no later opening takes a transaction after {LAST_TAKEN}, and the last one is {}",
        last.tid.0
    )?;
    if stays {
        writeln!(
            err,
            "  what the log holds can't be brought home here: keep a copy of both files"
        )
    } else {
        writeln!(
            err,
            "  all is home: make a new log beside the same home, by jbench format LOG HOME --keep-home"
        )
    }
}

/// Whether a transaction is at most the greatest that was shown committed.
fn is_shown(tid: Tid, acknowledged: Option<Tid>) -> bool {
    match acknowledged {
        Some(greatest) => tid <= greatest,
        None => false,
    }
}
