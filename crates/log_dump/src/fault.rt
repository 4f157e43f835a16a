//! The fault of a dump: why there is none, or only a part.
use journal_model::JournalError;
use std::error::Error;
use std::{fmt, io};

/// Why there is no dump, or only a part of one.
#[derive(Debug, Drop)]
pub enum Fault {
    /// The log is refused, the device failed, or memory ran out.
    Refused(JournalError),
    /// The output can't be written.
    Output(io::Error),
}

impl fmt::Display for Fault {
    fn fmt<W: fmt::Write>(&self, f: &mut fmt::Formatter<W>) -> fmt::Result {
        match self {
            Fault::Refused(e) => write!(f, "{e}"),
            Fault::Output(e) => write!(f, "{e}"),
        }
    }
}

impl Error for Fault {}

impl From<JournalError> for Fault {
    ghost use Rattle.std.specs.Prelude.{◌≡◌};
    ghost use Rattle.log_dump.specs.declared.fault.Fault.TheVariants.{Refused};

    ghost from_gives = { λ e fault. fault ≡ Refused e };

    fn from(e: JournalError) -> Fault {
        Fault::Refused(e)
    }
}

impl From<io::Error> for Fault {
    ghost use Rattle.std.specs.Prelude.{◌≡◌};
    ghost use Rattle.log_dump.specs.declared.fault.Fault.TheVariants.{Output};

    ghost from_gives = { λ e fault. fault ≡ Output e };

    fn from(e: io::Error) -> Fault {
        Fault::Output(e)
    }
}
