//! Why no device is made over files.
use journal_model::Area;
use std::error::Error;
use std::{fmt, io};

/// The system can't tell the length of a file.
#[derive(Debug, Drop)]
pub struct Unmeasured {
    /// The area whose file it is.
    pub area: Area,
    /// The system's answer.
    pub error: io::Error,
}

impl fmt::Display for Unmeasured {
    fn fmt<W: fmt::Write>(&self, f: &mut fmt::Formatter<W>) -> fmt::Result {
        f.write_str(match self.area {
            Area::Log => "the length of the log file is unknown",
            Area::Home => "the length of the home file is unknown",
        })
    }
}

impl Error for Unmeasured {}

impl From<Unmeasured> for io::Error {
    fn from(e: Unmeasured) -> Self {
        let Unmeasured { area: _, error } = e;
        error
    }
}
