//! How a command ends, and what it prints if it cannot go on.
ghost use Rattle.std.specs.Prelude.{◌≡◌, IfOk};
ghost use Rattle.jbench_words.specs.declared.fault.CommandStatus.TheVariants.{Refused};

use crate::advice::advice_of;
use journal_model::JournalError;
use journal_script::{BadScript, ScriptError};
use std::alloc::AllocFailed;
use std::io;
use std::io::{ErrorKind, Write};
use std::process::ExitCode;

#[derive(Clone, Copy)]
pub enum CommandStatus {
    /// The command did its work: exit status 0.
    Fine,
    /// The words, a file, the script or the log was refused: exit status 1.
    Refused,
    /// An opening broke the run's promise: exit status 2.
    VerdictFalse,
}

impl From<CommandStatus> for ExitCode {
    fn from(status: CommandStatus) -> ExitCode {
        ExitCode::from(match status {
            CommandStatus::Fine => 0,
            CommandStatus::Refused => 1,
            CommandStatus::VerdictFalse => 2,
        })
    }
}

/// Why a command cannot go on.
#[derive(Drop)]
pub enum Fault {
    /// A file cannot be opened or read.
    File(io::Error),
    /// The text is no script.
    BadScript(BadScript),
    /// The files of an image cannot be made.
    ImageFile(io::Error),
    /// The clock cannot be read.
    Clock,
    /// The journal refused, or memory ran out.
    Refused(JournalError),
    /// The output cannot be written.
    Output(io::Error),
}

impl Fault {
    /// The fault of a file that cannot be opened or read.
    pub fn of_file(e: io::Error) -> Fault {
        match e.kind() {
            ErrorKind::OutOfMemory => Fault::Refused(JournalError::Memory),
            _ => Fault::File(e),
        }
    }

    /// The fault of a clock that cannot be read.
    pub fn of_clock(e: io::Error) -> Fault {
        match e.kind() {
            ErrorKind::OutOfMemory => Fault::Refused(JournalError::Memory),
            _ => Fault::Clock,
        }
    }

    /// The fault of image files that cannot be made.
    pub fn of_image(e: io::Error) -> Fault {
        match e.kind() {
            ErrorKind::OutOfMemory => Fault::Refused(JournalError::Memory),
            _ => Fault::ImageFile(e),
        }
    }
}

impl From<io::Error> for Fault {
    ghost use Rattle.jbench_words.specs.Images.{IsUnmade};

    ghost from_gives = { λ _ fault. ¬ IsUnmade fault };

    fn from(e: io::Error) -> Fault {
        match e.kind() {
            ErrorKind::OutOfMemory => Fault::Refused(JournalError::Memory),
            _ => Fault::Output(e),
        }
    }
}

impl From<JournalError> for Fault {
    fn from(e: JournalError) -> Fault {
        Fault::Refused(e)
    }
}

impl<T: Drop> From<AllocFailed<T>> for Fault {
    fn from(_e: AllocFailed<T>) -> Fault {
        Fault::Refused(JournalError::Memory)
    }
}

impl From<ScriptError> for Fault {
    fn from(e: ScriptError) -> Fault {
        match e {
            ScriptError::BadScript(bad) => Fault::BadScript(bad),
            ScriptError::Memory => Fault::Refused(JournalError::Memory),
        }
    }
}

impl From<log_dump::Fault> for Fault {
    ghost use Rattle.jbench_words.specs.Images.{IsUnmade};

    ghost from_gives = { λ _ fault. ¬ IsUnmade fault };

    fn from(fault: log_dump::Fault) -> Fault {
        match fault {
            log_dump::Fault::Refused(e) => Fault::Refused(e),
            log_dump::Fault::Output(e) => Fault::from(e),
        }
    }
}

/// Writes a fault's line, then one with its cause and advice. `path` names the file. If the output's reader went away, it writes nothing.
///
/// # Errors
///
/// The lines could not be written.
fn report(err: &mut impl Write, path: &str, fault: &Fault) -> io::Result<()> {
    match fault {
        Fault::File(e) | Fault::ImageFile(e) => report_file(err, path, e),
        Fault::BadScript(bad) => writeln!(err, "jbench: bad script\n  {bad}"),
        Fault::Clock => writeln!(err, "jbench: clock"),
        Fault::Refused(e) => writeln!(
            err,
            "jbench: refusal {} {}\n  {}",
            e.number(),
            e.name(),
            advice_of(*e)
        ),
        Fault::Output(e) if e.kind() == ErrorKind::BrokenPipe => Ok(()),
        Fault::Output(e) => writeln!(err, "jbench: output\n  {e}"),
    }
}

/// Writes a file's name and why the command cannot go on with it.
fn report_file(err: &mut impl Write, path: &str, e: &io::Error) -> io::Result<()> {
    writeln!(err, "jbench: file {path}\n  {e}")
}

/// Writes why a command on the file `path` cannot go on, and answers `Refused`.
///
/// # Errors
///
/// The lines could not be written.
pub fn refuse(err: &mut impl Write, path: &str, fault: &Fault) -> io::Result<CommandStatus>
    ensures { IfOk result (λ status. status ≡ Refused) }
{
    match report(err, path, fault) {
        Ok(()) => Ok(CommandStatus::Refused),
        Err(e) => Err(e),
    }
}

/// Writes why the file `path` cannot be opened, or that memory ran out, and answers `Refused`.
///
/// # Errors
///
/// The line could not be written.
pub fn refuse_file(err: &mut impl Write, path: &str, e: io::Error) -> io::Result<CommandStatus>
    ensures { IfOk result (λ status. status ≡ Refused) }
{
    refuse(err, path, &Fault::of_file(e))
}

/// Writes why the program cannot go on: memory ran out, or its output could not be written.
pub fn refuse_rest(err: &mut impl Write, e: io::Error) -> CommandStatus {
    let _ = report(err, "", &Fault::from(e));
    CommandStatus::Refused
}
