//! Makes a device's calls on its files. Each function makes one call of `std::fs::File` on an area's file, and notes it with its exact
//! answer. No proof sees what the call does, so read these functions.
ghost use Rattle.std.specs.Prelude.{◌≡◌, ◌+◌, ◌/◌, ◌<◌, ◌≤◌, ◌^◌, length, [], option_map, IsNone, IfOk, IfErr, OnOk, OnErr};
ghost use Rattle.journal_model.specs.declared.number.Area.TheVariants.{Home};
ghost use Rattle.file_device.specs.Calls.{Measured, Read, ReadFailed, Wrote, WriteFailed, GatheredFailed, Synced, SyncFailed};

use crate::apart::are_openings_of_one;
use crate::history::{History, Note};
use crate::length::length_of;
use crate::unmeasured::Unmeasured;
use block_device::Durable;
use journal_model::Area;
use std::fs::File;
use std::io;
use std::os::unix::fs::FileExt;

/// The files of both areas, and the calls that were made on them.
#[derive(Drop)]
pub(crate) struct NotedFiles {
    log: File,
    home: Option<File>,
    history: History,
}

impl NotedFiles {
    ghost use Rattle.file_device.specs.Blocks.{reads_of, writes_of};
    ghost use Rattle.file_device.specs.NotedFiles.{file_of, with_call, with_calls};

    pub(crate) fn new(log: File, home: Option<File>) -> NotedFiles
        ensures { result ≡ record { log = log; home = home; history = record { calls = [] } } }
    {
        NotedFiles {
            log,
            home,
            history: History::new(),
        }
    }

    /// Home's file once more, for `Fetcher`; `None` if there is none, or the system gives no more.
    pub(crate) fn home_again(&self) -> Option<File> {
        self.home.as_ref()?.try_clone().ok()
    }

    /// Whether this is another opening of an area's file.
    pub(crate) fn is(&self, area: Area, other: &File) -> bool {
        match self.file(area) {
            Some(file) => are_openings_of_one(file, other),
            None => false,
        }
    }

    fn file(&self, area: Area) -> Option<&File>
        ensures { option_map (λ file. file.now) result ≡ file_of self.now area }
    {
        match area {
            Area::Log => Some(&self.log),
            Area::Home => self.home.as_ref(),
        }
    }

    /// The length of an area's file in bytes, of which the area has at most so many; 0 without a file, and then there is no call. A failed
    /// call is not noted: no device is made then.
    pub(crate) fn measure(&mut self, area: Area, most: u64) -> Result<u64, Unmeasured>
        ensures noted { IfOk result (λ length. self.new ≡ with_call self.old (Measured area length)) }
        ensures lone { IsNone self.old.home → area ≡ Home → result ≡ Ok 0 }
        ensures most { IfOk result (λ length. length ≤ most) }
        ensures whose { IfErr result (λ e. e.area ≡ area) }
    {
        match self.length(area) {
            Ok(length) => {
                let length = length.min(most);
                self.history = self.history.then(&Note::Measured(area, length));
                Ok(length)
            }
            Err(error) => Err(Unmeasured { area, error }),
        }
    }

    fn length(&self, area: Area) -> io::Result<u64>
        ensures { IsNone self.now.home → area ≡ Home → result ≡ Ok 0 }
    {
        match self.file(area) {
            Some(file) => length_of(file),
            None => Ok(0),
        }
    }

    /// Fills a buffer from byte `at` of an area's file on. An area without a file can't be read.
    pub(crate) fn read(&mut self, area: Area, at: u64, into: &mut [u8]) -> io::Result<()>
        ensures ok { OnOk result (self.new ≡ with_call self.old (Read area at into.new)) }
        ensures err { OnErr result (self.new ≡ with_call self.old (ReadFailed area at)) }
    {
        let answer = match self.file(area) {
            Some(file) => file.read_exact_at(into, at),
            None => Err(io::ErrorKind::NotFound.into()),
        };
        self.history = match answer {
            Ok(()) => self.history.then(&Note::Read(area, at, into)),
            Err(_) => self.history.then(&Note::ReadFailed(area, at)),
        };
        answer
    }

    /// Fills a buffer with whole blocks from byte `at` on. Notes a read of each.
    pub(crate) fn read_blocks(
        &mut self,
        area: Area,
        at: u64,
        size: usize,
        into: &mut [u8],
    ) -> io::Result<()>
        requires some { 0 < size }
        requires small { at + length into.old < 2 ^ 64 }
        ensures ok { OnOk result (self.new ≡ with_calls self.old (reads_of area at size into.new (length into.new / size))) }
        ensures err { OnErr result (self.new ≡ with_call self.old (ReadFailed area at)) }
        ensures size { length into.new ≡ length into.old }
    {
        let answer = match self.file(area) {
            Some(file) => file.read_exact_at(into, at),
            None => Err(io::ErrorKind::NotFound.into()),
        };
        if answer.is_err() {
            self.history = self.history.then(&Note::ReadFailed(area, at));
            return answer;
        }
        for k in 0..into.len() / size {
            let block = &into[k * size..k * size + size];
            self.history = self
                .history
                .then(&Note::Read(area, at + (k * size) as u64, block));
        }
        answer
    }

    /// Writes bytes into an area's file, from byte `at` on. An area without a file can't be written.
    pub(crate) fn write(&mut self, area: Area, at: u64, bytes: &[u8]) -> io::Result<()>
        ensures ok { OnOk result (self.new ≡ with_call self.old (Wrote area at bytes.now)) }
        ensures err { OnErr result (self.new ≡ with_call self.old (WriteFailed area at bytes.now)) }
    {
        let answer = match self.file(area) {
            Some(file) => file.write_all_at(bytes, at),
            None => Err(io::ErrorKind::NotFound.into()),
        };
        self.history = match answer {
            Ok(()) => self.history.then(&Note::Wrote(area, at, bytes)),
            Err(_) => self.history.then(&Note::WriteFailed(area, at, bytes)),
        };
        answer
    }

    /// Writes whole blocks by one call, from byte `at` on. Notes a write of each, or one failed call.
    pub(crate) fn write_blocks(
        &mut self,
        area: Area,
        at: u64,
        size: usize,
        bytes: &[u8],
    ) -> io::Result<()>
        requires some { 0 < size }
        requires small { at + length bytes.now < 2 ^ 64 }
        ensures ok { OnOk result (self.new ≡ with_calls self.old (writes_of area at size bytes.now (length bytes.now / size))) }
        ensures err { OnErr result (self.new ≡ with_call self.old (GatheredFailed area at bytes.now)) }
    {
        let answer = match self.file(area) {
            Some(file) => file.write_all_at(bytes, at),
            None => Err(io::ErrorKind::NotFound.into()),
        };
        if answer.is_err() {
            self.history = self.history.then(&Note::GatheredFailed(area, at, bytes));
            return answer;
        }
        for k in 0..bytes.len() / size {
            let block = &bytes[k * size..k * size + size];
            self.history = self
                .history
                .then(&Note::Wrote(area, at + (k * size) as u64, block));
        }
        answer
    }

    /// Makes durable what was written into an area's file, if it has one. If that was done apart since the file's last change, it makes no
    /// call.
    pub(crate) fn sync(&mut self, area: Area, durable: Option<Durable>) -> io::Result<()>
        ensures ok { OnOk result (self.new ≡ with_call self.old (Synced area)) }
        ensures err { OnErr result (self.new ≡ with_call self.old (SyncFailed area)) }
    {
        let answer = match self.file(area) {
            Some(file) if durable.is_none() => file.sync_data(),
            _ => Ok(()),
        };
        self.history = match answer {
            Ok(()) => self.history.then(&Note::Synced(area)),
            Err(_) => self.history.then(&Note::SyncFailed(area)),
        };
        answer
    }
}
