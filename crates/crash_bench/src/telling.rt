//! A device that tells its owner at once what a server has to know while its client is connected.
ghost use Rattle.std.specs.Prelude.{◌≡◌};
ghost use Rattle.journal_model.specs.Layout.{header_bytes};

use block_device::{Device, DeviceFault, Durable, Syncing};
use file_device::{Contents, FileDevice};
use jbench_files::say_failure;
use jbench_words::numbers::LAST_TAKEN;
use jbench_words::words::LogPaths;
use journal_model::Area;
use journal_model::layout::{COMMIT_TYPE, HEADER_BYTES};
use log_format::Header;
use std::io;
use std::io::Write;

/// When so many transaction numbers are left, or fewer, the owner is told.
pub(crate) const FEW: u32 = 10_000_000;

/// A device that can say which call on its files failed last.
pub(crate) trait SaysFailure {
    /// Prints it. `paths` names the files.
    fn say_failure(&self, paths: LogPaths<'_>, err: &mut impl Write) -> io::Result<()>;
}

impl<C: Contents> SaysFailure for FileDevice<C> {
    fn say_failure(&self, paths: LogPaths<'_>, err: &mut impl Write) -> io::Result<()> {
        say_failure(self, paths, err)
    }
}

/// A device that prints its first failed call, and the commit that leaves few transaction numbers.
#[derive(Drop)]
pub(crate) struct Telling<'a, D, E> {
    device: D,
    paths: LogPaths<'a>,
    err: E,
    has_failed: bool,
}

impl<'a, D: Device + SaysFailure + Drop, E: Write + Drop> Telling<'a, D, E> {
    pub(crate) fn new(device: D, paths: LogPaths<'a>, err: E) -> Self
        ensures { result.device ≡ device }
    {
        Telling {
            device,
            paths,
            err,
            has_failed: false,
        }
    }

    pub(crate) fn into_device(self) -> D
        ensures { result ≡ self.entry.device }
    {
        let Telling {
            device,
            paths: _,
            err: _,
            has_failed: _,
        } = self;
        device
    }
}

impl<D: SaysFailure, E: Write> Telling<'_, D, E> {
    /// Prints which call failed, if it is the first.
    fn tell(&mut self, done: Result<(), DeviceFault>) -> Result<(), DeviceFault>
        ensures done { result ≡ done }
        ensures device { self.new.device ≡ self.old.device }
    {
        if done.is_err() && !self.has_failed {
            self.has_failed = true;
            let _told = say_failed(&self.device, self.paths, &mut self.err);
        }
        done
    }
}

/// Prints that a file failed, and which call.
fn say_failed<D: SaysFailure, E: Write>(
    device: &D,
    paths: LogPaths<'_>,
    err: &mut E,
) -> io::Result<()> {
    writeln!(
        err,
        "jbench: a file failed, and no change is taken until the log is opened again"
    )?;
    device.say_failure(paths, err)
}

/// Whether these bytes are the commit block after which the owner is told of the numbers.
fn leaves_few(area: Area, bytes: &[u8]) -> bool {
    if area != Area::Log || bytes.len() < HEADER_BYTES {
        return false;
    }
    match Header::read(bytes) {
        Some(header) => header.block_type == COMMIT_TYPE && header.sequence == LAST_TAKEN - FEW,
        None => false,
    }
}

/// Prints how many transaction numbers are left, and the way out.
///
/// # Errors
///
/// The lines could not be written.
pub(crate) fn say_left(left: u32, err: &mut impl Write) -> io::Result<()> {
    writeln!(
        err,
        "jbench: transaction numbers left in this log: {left}; at 0 each change is refused"
    )?;
    writeln!(
        err,
        "  end the client, so that the log is closed, and make a new one beside the same home, by jbench format LOG HOME --keep-home"
    )
}

impl<D: Device + SaysFailure, E: Write> Device for Telling<'_, D, E> {
    ghost use Rattle.block_device.specs.State.{CountsFaults, Moves, Stays, Writes, blocks_in};
    ghost use Rattle.journal_model.specs.Disk.{flushed, written};

    ghost state = { λ s. D.state s.device };

    ghost honest = { λ s. D.honest s.device };

    fn read(&mut self, area: Area, n: u64, into: &mut [u8]) -> Result<(), DeviceFault> {
        let done = self.device.read(area, n, into);
        self.tell(done)
    }

    fn write(&mut self, area: Area, n: u64, bytes: &[u8]) -> Result<(), DeviceFault> {
        if leaves_few(area, bytes) {
            let _told = say_left(FEW, &mut self.err);
        }
        let done = self.device.write(area, n, bytes);
        self.tell(done)
    }

    fn flush(&mut self, area: Area) -> Result<(), DeviceFault> {
        let done = self.device.flush(area);
        self.tell(done)
    }

    fn begin_flush(&mut self, area: Area) -> Option<Syncing> {
        self.device.begin_flush(area)
    }

    fn end_flush(&mut self, durable: Durable) {
        self.device.end_flush(durable);
    }

    fn blocks(&self, area: Area) -> u64 {
        self.device.blocks(area)
    }

    fn block_size(&self) -> usize {
        self.device.block_size()
    }
}
