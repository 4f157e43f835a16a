//! Which value is wanted in place of a wrong one, and the line that says so.
use clap::error::ErrorKind;
use clap::{Command, Error};
use jbench_help::command_named;
use std::alloc::{AllocError, Global};

/// What is wanted in place of words that `clap` accepts.
#[derive(Clone, Copy)]
pub(crate) enum Wanted {
    /// A write number for `--stop`.
    WriteNumber,
    /// A call number for `--fail`.
    CallNumber,
    /// Only one of `--stop` and `--fail`.
    StopOrFail,
    /// Write numbers with commas for `--keep`.
    WriteNumbers,
    /// A write number for `--stop2`.
    OpeningNumber,
    /// Write numbers with commas for `--keep2`.
    OpeningNumbers,
    /// Both files of an image, or neither.
    ImageFiles,
    /// Only one of `--keep-home` and `--zero-home`.
    KeepOrZero,
    /// A block size for `--block`.
    BlockSize,
    /// A log's blocks for `--length`.
    LogBlocks,
    /// A home area's blocks for `--home`.
    HomeBlocks,
    /// Hex digits for `--uuid`.
    HexDigits,
    /// Seconds for `--seconds`.
    Seconds,
    /// A number of transactions for `--transactions`.
    Transactions,
    /// A number of blocks for `--copies`.
    Copies,
    /// A number of clients for `--threads`.
    Threads,
    /// Seconds for `--wait`.
    Wait,
    /// Seconds for `--commit-interval`.
    CommitInterval,
    /// A copy's place for `--copy`.
    Place,
    /// Only one of `--damaged` and `--copy`.
    DamagedOrCopy,
    /// Only one of `--json` and `--copy`.
    JsonOrCopy,
    /// A home block for `cat`.
    Block,
    /// A shell's name for `completions`.
    Shell,
    /// UTF-8 for `--export`.
    ExportName,
    Command,
    Memory,
}

impl From<AllocError> for Wanted {
    fn from(_: AllocError) -> Wanted {
        Wanted::Memory
    }
}

fn line_of(wanted: Wanted) -> &'static str {
    match wanted {
        Wanted::WriteNumber =>
            "invalid value for '--stop <K>': a number from 1 to 18446744073709551615 is wanted",
        Wanted::CallNumber =>
            "invalid value for '--fail <K>': a number from 1 to 18446744073709551615 is wanted",
        Wanted::StopOrFail => "the argument '--stop <K>' cannot be used with '--fail <K>'",
        Wanted::WriteNumbers => {
            "invalid value for '--keep <LIST>': write numbers with commas are wanted"
        }
        Wanted::OpeningNumber =>
            "invalid value for '--stop2 <K>': a number from 1 to 18446744073709551615 is wanted",
        Wanted::OpeningNumbers => {
            "invalid value for '--keep2 <LIST>': write numbers with commas are wanted"
        }
        Wanted::ImageFiles => {
            "'--image-log <PATH>' and '--image-home <PATH>' are wanted together, or neither"
        }
        Wanted::KeepOrZero => "the argument '--keep-home' cannot be used with '--zero-home'",
        Wanted::BlockSize => "invalid value for '--block <B>': 1024, 2048 or 4096 is wanted",
        Wanted::LogBlocks => "invalid value for '--length <M>': 17 to 1048576 is wanted",
        Wanted::HomeBlocks => "invalid value for '--home <N>': 1 to 1048576 is wanted",
        Wanted::HexDigits => "invalid value for '--uuid <DIGITS>': 32 hex digits are wanted",
        Wanted::Seconds => "invalid value for '--seconds <N>': 1 to 86400 is wanted",
        Wanted::Transactions => {
            "invalid value for '--transactions <N>': a number from 1 to 18446744073709551615 is wanted"
        }
        Wanted::Copies =>
            "invalid value for '--copies <K>': a number from 1 to 18446744073709551615 is wanted",
        Wanted::Threads => "invalid value for '--threads <N>': 1 to 64 is wanted",
        Wanted::Wait => "invalid value for '--wait <SECONDS>': 1 to 86400 is wanted",
        Wanted::CommitInterval => {
            "invalid value for '--commit-interval <SECONDS>': 0 to 86400 is wanted"
        }
        Wanted::Place =>
            "invalid value for '--copy <PLACE>': a number from 1 to 18446744073709551615 is wanted",
        Wanted::DamagedOrCopy => "the argument '--damaged' cannot be used with '--copy <PLACE>'",
        Wanted::JsonOrCopy => "the argument '--json' cannot be used with '--copy <PLACE>'",
        Wanted::Block =>
            "invalid value for '<BLOCK>': a number from 0 to 18446744073709551615 is wanted",
        Wanted::Shell => "invalid value for '<SHELL>': bash, zsh or fish is wanted",
        Wanted::ExportName => "invalid value for '--export <NAME>': UTF-8 is wanted",
        Wanted::Command => "a command is wanted",
        Wanted::Memory => "memory is wanted",
    }
}

/// The kind of the error.
fn kind_of(wanted: Wanted) -> ErrorKind {
    match wanted {
        Wanted::StopOrFail | Wanted::KeepOrZero | Wanted::DamagedOrCopy | Wanted::JsonOrCopy =>
            ErrorKind::ArgumentConflict,
        _ => ErrorKind::ValueValidation,
    }
}

/// The error, with the usage of the command of this name.
pub(crate) fn fault_of(alloc: Global, name: &str, wanted: Wanted) -> Error {
    match command_named(alloc, name) {
        Ok(mut command) => error_of(&mut command, wanted),
        Err(e) => Error::from(e),
    }
}

/// The error of this command.
fn error_of(command: &mut Command<'_>, wanted: Wanted) -> Error {
    match wanted {
        Wanted::Memory => Error::from(AllocError),
        _ => command
            .error(kind_of(wanted), line_of(wanted))
            .unwrap_or_else(Error::from),
    }
}
