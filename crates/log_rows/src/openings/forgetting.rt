//! Rows of openings of a device that forgets its log while it is read.
ghost use Rattle.std.specs.Prelude.{◌≡◌, false};

use crate::RowError;
use crate::logs::{device_of, log_of};
use crate::openings::opening::{home_text, opened_or_refused};
use block_device::{Device, DeviceFault, MemDevice};
use journal_model::Area;
use std::alloc::Global;
use std::fmt::Write;

/// More reads of the log than an opening of a row's log makes.
const MOST_READS: u64 = 10_000;

/// A device whose first reads of the log are correct; each later one finds zeros.
#[derive(Drop)]
struct Forgetful<D> {
    device: D,
    /// How many more reads of the log are correct.
    honest_reads: u64,
    /// Whether a read was wrong.
    has_forgotten: bool,
}

impl<D: Device> Device for Forgetful<D> {
    ghost state = { λ f. D.state f.device };

    ghost honest = { λ f. D.honest f.device × (f.has_forgotten ≡ false) };

    fn read(&mut self, area: Area, n: u64, into: &mut [u8]) -> Result<(), DeviceFault> {
        self.device.read(area, n, into)?;
        if area == Area::Home {
            return Ok(());
        }
        if self.honest_reads > 0 {
            self.honest_reads -= 1;
        } else {
            self.has_forgotten = true;
            into.fill(0);
        }
        Ok(())
    }

    fn write(&mut self, area: Area, n: u64, bytes: &[u8]) -> Result<(), DeviceFault> {
        self.device.write(area, n, bytes)
    }

    fn flush(&mut self, area: Area) -> Result<(), DeviceFault> {
        self.device.flush(area)
    }

    fn blocks(&self, area: Area) -> u64 {
        self.device.blocks(area)
    }

    fn block_size(&self) -> usize {
        self.device.block_size()
    }
}

/// Openings of a device that forgets its log. Given: as for `openings`. Found: a line for each way in which they go, with the first 0, 1, 2
/// and so on reads of the log correct and zeros after that. A line has the answer of the opening, the answer of one with correct reads on
/// the same device, each home block that is then not zeros, and the writes of both. The last line is of an opening with correct reads
/// alone.
pub fn forgetful_openings(alloc: Global, given: &str) -> Result<String, RowError> {
    let log = log_of(alloc, given)?;
    let mut all = String::new(alloc);
    let mut before = String::new(alloc);
    for honest_reads in 0..=MOST_READS {
        let device = Forgetful {
            device: device_of(alloc, &log)?,
            honest_reads,
            has_forgotten: false,
        };
        let (line, has_forgotten) = forgetful_opening(alloc, device)?;
        if line.as_str() != before.as_str() {
            writeln!(all, "{line}")?;
        }
        if !has_forgotten {
            return Ok(all);
        }
        before = line;
    }
    Err(RowError::Unread)
}

fn forgetful_opening(
    alloc: Global,
    device: Forgetful<MemDevice>,
) -> Result<(String, bool), RowError> {
    let (first, device) = opened_or_refused(alloc, device)?;
    let Forgetful {
        device,
        honest_reads: _,
        has_forgotten,
    } = device;
    let (again, mut device) = opened_or_refused(alloc, device)?;
    let home = home_text(alloc, &mut device)?;
    let told = format!(in alloc; "{first}\n{again}{home}\nwrites {}", device.writes())?;
    Ok((told.replace(alloc, "\n", ", ")?, has_forgotten))
}
