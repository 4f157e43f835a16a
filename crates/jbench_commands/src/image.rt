//! The files that take a run's image.
use crate::run::MakeImage;
use file_device::{FileDevice, UnknownContents};
use jbench_files::{Cleared, LogPair, make_device};
use jbench_words::watch::Unwatched;
use journal_script::Measures;
use std::alloc::Global;
use std::io;

/// The two files that take a run's crash image. They are open, and lose their content once the script is accepted.
#[derive(Drop)]
pub struct ImageFiles {
    pub alloc: Global,
    pub files: LogPair,
}

impl MakeImage for ImageFiles {
    type Device = FileDevice<Cleared<UnknownContents>>;

    fn make(self, measures: &Measures) -> io::Result<FileDevice<Cleared<UnknownContents>>> {
        let ImageFiles { alloc, files } = self;
        match make_device(alloc, UnknownContents, measures, files, &mut Unwatched) {
            Ok(device) => Ok(device),
            Err(unmade) => Err(unmade.error),
        }
    }
}
