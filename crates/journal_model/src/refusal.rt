//! Why calls are refused, and the number of each refusal.
use std::alloc::{AllocError, AllocFailed};
use std::error::Error;
use std::fmt;

/// Why a call was refused. Displayed it is a sentence with its number and its name: `refusal 5 Full: the credits held leave fewer than
/// asked`. A sentence names each cause that the refusal may have.
#[derive(Clone, Copy, Debug, PartialEq, Eq)]
pub enum JournalError {
    /// 1: memory ran out, or a thread could not be started.
    Memory,
    /// 2: the device failed during this call.
    Device,
    /// 3: the device failed earlier.
    Aborted,
    /// 4: the first touch of a block by a handle with no credit left; or a handle or credits of another journal.
    NoCredit,
    /// 5: the credits held, with those of refused reserves, leave fewer than asked.
    Full,
    /// 6: more credits than one transaction can have, or more tasks than a journal can serve.
    TooMany,
    /// 7: the current transaction is locked; where it has to be committed, other handles are open, or the ticket is another journal's.
    NotRunning,
    /// 8: a block number that is not allowed, or bytes that are not one block.
    BadBlock,
    /// 9: a direct write to a block that is not free for it.
    NotDirect,
    /// 10: no transaction number up to 0xfffffff0 is left, or no handle number below 2^64.
    SequenceEnd,
    /// 11: the ring has fewer free blocks than needed.
    NeedSpace,
    /// 12: a read of a block whose last effect is a revoke in an unfinished transaction.
    Revoked,
    /// 13: a superblock without the magic.
    BadMagic,
    /// 14: the superblock's type isn't 4.
    BadType,
    /// 15: s_blocksize isn't 1024, 2048 or 4096, or isn't the device's.
    BadBlockSize,
    /// 16: s_maxlen is outside its limits or above the log area's blocks, or the log area has no block.
    BadLength,
    /// 17: s_first is 0, or leaves a ring of fewer than 16 blocks.
    BadFirst,
    /// 18: a feature, or a count of users, that this journal does not take.
    BadFeature,
    /// 19: s_start is not 0 and lies outside the ring.
    BadStart,
    /// 20: s_errno isn't 0.
    ErrnoSet,
    /// 21: the lowest ring block (its place in the log area) with the magic and a sequence above what the log
    /// may hold.
    Ahead(u64),
    /// 22: the first malformed block after the log's complete transactions (its place in the log area).
    Damage(u64),
    /// 23: an upgrade of a log that already has 64-bit block numbers.
    AlreadyWide,
    /// 24: an upgrade of a log that is not clean.
    NotEmpty,
}

/// The sentence.
impl fmt::Display for JournalError {
    ghost use Rattle.std.specs.Prelude.{Some};
    ghost use Rattle.journal_model.specs.Refusal.{sentence_of};

    ghost output = { λ e. Some (sentence_of e) };

    fn fmt<W: fmt::Write>(&self, f: &mut fmt::Formatter<W>) -> fmt::Result {
        write!(
            f,
            "refusal {} {}: {}",
            self.number(),
            self.name(),
            self.cause()
        )
    }
}

/// A refusal's name, and the block's place if it has one: `Full`, `Ahead 7`.
#[derive(Clone, Copy, Debug)]
pub struct RefusalName(pub JournalError);

impl fmt::Display for RefusalName {
    ghost use Rattle.std.specs.Prelude.{Some};
    ghost use Rattle.journal_model.specs.Refusal.{refusal_text};

    ghost output = { λ name. Some (refusal_text name.0) };

    fn fmt<W: fmt::Write>(&self, f: &mut fmt::Formatter<W>) -> fmt::Result {
        match self.0 {
            JournalError::Memory => f.write_str("Memory"),
            JournalError::Device => f.write_str("Device"),
            JournalError::Aborted => f.write_str("Aborted"),
            JournalError::NoCredit => f.write_str("NoCredit"),
            JournalError::Full => f.write_str("Full"),
            JournalError::TooMany => f.write_str("TooMany"),
            JournalError::NotRunning => f.write_str("NotRunning"),
            JournalError::BadBlock => f.write_str("BadBlock"),
            JournalError::NotDirect => f.write_str("NotDirect"),
            JournalError::SequenceEnd => f.write_str("SequenceEnd"),
            JournalError::NeedSpace => f.write_str("NeedSpace"),
            JournalError::Revoked => f.write_str("Revoked"),
            JournalError::BadMagic => f.write_str("BadMagic"),
            JournalError::BadType => f.write_str("BadType"),
            JournalError::BadBlockSize => f.write_str("BadBlockSize"),
            JournalError::BadLength => f.write_str("BadLength"),
            JournalError::BadFirst => f.write_str("BadFirst"),
            JournalError::BadFeature => f.write_str("BadFeature"),
            JournalError::BadStart => f.write_str("BadStart"),
            JournalError::ErrnoSet => f.write_str("ErrnoSet"),
            JournalError::Ahead(place) => write!(f, "Ahead {place}"),
            JournalError::Damage(place) => write!(f, "Damage {place}"),
            JournalError::AlreadyWide => f.write_str("AlreadyWide"),
            JournalError::NotEmpty => f.write_str("NotEmpty"),
        }
    }
}

impl Error for JournalError {}

impl From<AllocError> for JournalError {
    ghost use Rattle.std.specs.Prelude.{◌≡◌};
    ghost use Rattle.journal_model.specs.declared.refusal.JournalError.TheVariants.{Memory};

    ghost from_gives = { λ _ e. e ≡ Memory };

    fn from(_e: AllocError) -> Self {
        JournalError::Memory
    }
}

/// So that `list.push(value)?` answers `Memory`. The value is dropped.
impl<T: Drop> From<AllocFailed<T>> for JournalError {
    ghost use Rattle.std.specs.Prelude.{◌≡◌};
    ghost use Rattle.journal_model.specs.declared.refusal.JournalError.TheVariants.{Memory};

    ghost from_gives = { λ _ e. e ≡ Memory };

    fn from(_e: AllocFailed<T>) -> Self {
        JournalError::Memory
    }
}

impl JournalError {
    ghost use Rattle.std.specs.Prelude.{◌≡◌};
    ghost use Rattle.journal_model.specs.Refusal.{cause_of, number_of};

    /// The refusal's number, from 1 to 24.
    pub fn number(&self) -> u8
        ensures { result ≡ number_of self.now }
    {
        match self {
            JournalError::Memory => 1,
            JournalError::Device => 2,
            JournalError::Aborted => 3,
            JournalError::NoCredit => 4,
            JournalError::Full => 5,
            JournalError::TooMany => 6,
            JournalError::NotRunning => 7,
            JournalError::BadBlock => 8,
            JournalError::NotDirect => 9,
            JournalError::SequenceEnd => 10,
            JournalError::NeedSpace => 11,
            JournalError::Revoked => 12,
            JournalError::BadMagic => 13,
            JournalError::BadType => 14,
            JournalError::BadBlockSize => 15,
            JournalError::BadLength => 16,
            JournalError::BadFirst => 17,
            JournalError::BadFeature => 18,
            JournalError::BadStart => 19,
            JournalError::ErrnoSet => 20,
            JournalError::Ahead(_) => 21,
            JournalError::Damage(_) => 22,
            JournalError::AlreadyWide => 23,
            JournalError::NotEmpty => 24,
        }
    }

    /// Its name, to be displayed in place of the sentence.
    pub fn name(&self) -> RefusalName
        ensures { result.0 ≡ self.now }
    {
        RefusalName(*self)
    }

    /// What happened.
    fn cause(&self) -> &'static str
        ensures { result.now ≡ cause_of self.now }
    {
        match self {
            JournalError::Memory => "memory ran out, or a thread could not be started",
            JournalError::Device => "the device failed during this call",
            JournalError::Aborted => "the device failed in an earlier call",
            JournalError::NoCredit =>
                "no credit is left for a block that is new to the transaction, or the handle or the credits are of another journal",
            JournalError::Full => "the credits held leave fewer than asked",
            JournalError::TooMany =>
                "more credits than one transaction can have, or more tasks than a journal can serve",
            JournalError::NotRunning =>
                "the transaction takes no more handles, other handles are open, or the ticket is of another journal",
            JournalError::BadBlock =>
                "home has no such block, the log can not spell its number, or the bytes are not one block",
            JournalError::NotDirect => "the block is not left to home, so it takes no direct write",
            JournalError::SequenceEnd => "no number is left for a transaction or a handle",
            JournalError::NeedSpace => "the ring has fewer free blocks than the transaction needs",
            JournalError::Revoked => "an uncommitted transaction revoked the block last",
            JournalError::BadMagic => "the superblock does not begin with the magic",
            JournalError::BadType => "the type of the superblock is not 4",
            JournalError::BadBlockSize =>
                "s_blocksize is not 1024, 2048 or 4096, or is not that of the device",
            JournalError::BadLength =>
                "the length of the log is outside its limits or above the blocks of the log area, or that has no block",
            JournalError::BadFirst => "s_first is 0, or leaves a ring of fewer than 16 blocks",
            JournalError::BadFeature => "a feature is not taken, or s_nr_users is not 1",
            JournalError::BadStart => "s_start is not 0, and outside the ring",
            JournalError::ErrnoSet => "s_errno is not 0",
            JournalError::Ahead(_) => "that block has a number above what the log may hold",
            JournalError::Damage(_) => "that block is malformed",
            JournalError::AlreadyWide => "the log has 64-bit block numbers already",
            JournalError::NotEmpty => "the log is not clean",
        }
    }
}
