//! The cause of each refusal and what to do about it, in a line.
use journal_model::JournalError;

/// The line below a refusal: its cause and the next step.
pub(crate) fn advice_of(e: JournalError) -> &'static str {
    match e {
        JournalError::Memory => {
            "memory was refused, or a thread, and nothing is wrong with the files: raise ulimit -v or -u, and call it again"
        }
        JournalError::Device => {
            "a file could not be read, written or synced: see to its disk first (df, dmesg), and then call jbench recover LOG HOME"
        }
        JournalError::Aborted => {
            "a file failed in a call before: see to its disk first, and then call jbench recover LOG HOME"
        }
        JournalError::SequenceEnd => {
            "no transaction number is left: where jbench show LOG has s_start 0 the log is clean, and jbench format LOG HOME --keep-home makes a new one beside the same home"
        }
        JournalError::AlreadyWide => {
            "the log has block numbers of 64 bits already, so there is nothing to do"
        }
        JournalError::NotEmpty => "the log is not clean: call jbench recover LOG HOME first",
        JournalError::Ahead(_) => {
            "that block has a number which the log can't have yet: keep a copy of both files, and see what jbench recover LOG HOME --before-damage --dry-run says"
        }
        JournalError::Damage(_) => {
            "that block is malformed: keep a copy of both files, and see what jbench recover LOG HOME --before-damage --dry-run says"
        }
        _ => advice_of_operation(e),
    }
}

/// As `advice_of`, for refusals of a script's operation.
fn advice_of_operation(e: JournalError) -> &'static str {
    match e {
        JournalError::NoCredit => {
            "the handle has no credit left for a further block: start it with more of them, or extend it"
        }
        JournalError::Full => {
            "open handles have the credits that are left: stop some of them and commit, and then ask again"
        }
        JournalError::TooMany => {
            "no transaction of this log takes so many blocks: use several handles, or format a longer log"
        }
        JournalError::NotRunning => {
            "the handle's transaction takes nothing more: stop the handle, and start another one"
        }
        JournalError::BadBlock => {
            "the home area has no such block: the length of HOME, or home of the script, says how many it has"
        }
        JournalError::NotDirect => {
            "the log may still bring home an older copy of that block: write it by a handle, or revoke it and commit first"
        }
        JournalError::NeedSpace => {
            "the log has no room left for the transaction: [\"check\"] before its commit brings home what is committed, and makes room; apply --make-room does both"
        }
        JournalError::Revoked => {
            "the block was revoked, and holds nothing to be read: write it first, or read it once the revoke is committed"
        }
        _ => advice_of_superblock(e),
    }
}

/// As `advice_of`, for refusals of a superblock.
fn advice_of_superblock(e: JournalError) -> &'static str {
    match e {
        JournalError::BadMagic => {
            "no log stands there: jbench show LOG says what does, and what to do then"
        }
        JournalError::BadLength => {
            "the file is too short for its log, or that says a length which no log has"
        }
        JournalError::BadFeature => {
            "the log has features that are not taken: jbench show LOG names each, and what to do about it"
        }
        JournalError::ErrnoSet => {
            "its file system noted an error in the log: check that with fsck, which takes the note away"
        }
        _ =>
            "a field of the superblock is not taken: jbench show LOG says which, and what is wanted",
    }
}
