//! Why no device is made over a log's files.
ghost use Rattle.std.specs.Prelude.{◌≡◌, IfOk};
ghost use Rattle.journal_model.specs.declared.number.Area.TheVariants.{Home, Log};
ghost use Rattle.jbench_words.specs.declared.fault.CommandStatus.TheVariants.{Refused};

use file_device::Unmeasured;
use jbench_words::fault::{CommandStatus, refuse_file};
use jbench_words::words::LogPaths;
use journal_model::Area;
use std::io;
use std::io::Write;

/// The path of an area's file.
pub(crate) fn path_of<'a>(area: Area, paths: LogPaths<'a>) -> &'a str
    ensures log { area ≡ Log → result ≡ paths.entry.log }
    ensures home { area ≡ Home → result ≡ paths.entry.home }
{
    match area {
        Area::Log => paths.log,
        Area::Home => paths.home,
    }
}

/// A file of a log over which no device is made. Both files hold what they held.
#[derive(Drop)]
pub struct Unfit {
    /// The file's area.
    pub area: Area,
    pub error: io::Error,
}

impl From<Unmeasured> for Unfit {
    fn from(e: Unmeasured) -> Unfit {
        let Unmeasured { area, error } = e;
        Unfit { area, error }
    }
}

impl Unfit {
    /// The refusal of a log's file.
    pub(crate) fn of_log(error: io::Error) -> Unfit
        ensures { result.area ≡ Log }
    {
        Unfit {
            area: Area::Log,
            error,
        }
    }

    /// The refusal of a home area's file.
    pub(crate) fn of_home(error: io::Error) -> Unfit
        ensures { result.area ≡ Home }
    {
        Unfit {
            area: Area::Home,
            error,
        }
    }

    /// Prints the file's path, and why no device is made over it; answers `Refused`.
    ///
    /// # Errors
    ///
    /// The lines could not be written.
    pub fn refuse(self, paths: LogPaths<'_>, err: &mut impl Write) -> io::Result<CommandStatus>
        ensures { IfOk result (λ status. status ≡ Refused) }
    {
        let Unfit { area, error } = self;
        refuse_file(err, path_of(area, paths), error)
    }
}
