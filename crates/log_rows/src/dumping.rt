//! Rows of dumps.
ghost use Rattle.std.specs.Prelude.{◌≡◌, OnOk, OnErr};
ghost use Rattle.block_device.specs.State.{one_more_call, one_more_fault, with_own_counts};

use crate::RowError;
use crate::logs::{device_of, log_of};
use crate::telling::text;
use crate::words::{cut, values};
use block_device::{Device, DeviceFault};
use journal_model::Area;
use log_dump::{Fault, dump};
use std::alloc::Global;
use std::fmt::Write;
use std::str::from_utf8;

fn add_fault(told: &mut String, fault: &Fault) -> Result<(), RowError> {
    match fault {
        Fault::Refused(e) => write!(told, "refusal {} {}\n", e.number(), e.name())?,
        Fault::Output(_) => write!(told, "output: {fault}\n")?,
    }
    Ok(())
}

/// The dump's text, followed by why it ended early, if it did.
fn dump_text(alloc: Global, written: &[u8], answer: Result<(), Fault>) -> Result<String, RowError> {
    let written = from_utf8(written).ok().ok_or(RowError::Unread)?;
    let mut told = text(alloc, written)?;
    if let Err(fault) = answer {
        add_fault(&mut told, &fault)?;
    }
    Ok(told)
}

fn dumped<D: Device>(alloc: Global, device: &mut D) -> Result<String, RowError> {
    let mut out = Vec::new(alloc);
    let answer = dump(alloc, device, &mut out);
    dump_text(alloc, &out, answer)
}

/// Dumps. Given: a log. Found: what its dump writes, followed by the refusal, if it is refused.
pub fn dumps(alloc: Global, given: &str) -> Result<String, RowError> {
    let log = log_of(alloc, given)?;
    let told = dumped(alloc, &mut device_of(alloc, &log)?)?;
    text(alloc, told.as_str().trim_end())
}

/// Dumps into little room. Given: a line `room=N`, and a log. Found: why its dump ends early, if the output takes only N bytes.
pub fn short_dumps(alloc: Global, given: &str) -> Result<String, RowError> {
    let (room, log) = cut(given, "\n")?;
    let [room] = values::<1>(room, "room")?;
    if room > 4096 {
        return Err(RowError::Unread);
    }
    let log = log_of(alloc, log)?;
    let mut room = vec![in alloc; 0; room as usize]?;
    let mut out = room.as_mut_slice();
    let answer = dump(alloc, &mut device_of(alloc, &log)?, &mut out);
    let told = dump_text(alloc, &[], answer)?;
    text(alloc, told.as_str().trim_end())
}

/// A device that counts the reads of its log's first 40 blocks, and fails from read `fails_at` on; with 0 it never fails.
#[derive(Drop)]
struct CountedReads<D> {
    device: D,
    counts: [u8; 40],
    fails_at: u64,
    faults: u64,
    calls: u64,
}

impl<D: Device> CountedReads<D> {
    fn running(&mut self) -> Result<(), DeviceFault>
        ensures ok { OnOk result ((self.new.device ≡ self.old.device) × (self.new.faults ≡ self.old.faults)) }
        ensures err { OnErr result ((self.new.device ≡ self.old.device) × (self.new.faults ≡ one_more_fault self.old.faults)) }
        ensures calls { self.new.calls ≡ one_more_call self.old.calls }
    {
        self.calls = self.calls.saturating_add(1);
        if self.fails_at == 1 {
            self.faults = self.faults.saturating_add(1);
            return Err(DeviceFault);
        }
        self.fails_at = self.fails_at.saturating_sub(1);
        Ok(())
    }
}

impl<D: Device> Device for CountedReads<D> {
    ghost state = { λ r. with_own_counts (D.state r.device) r.faults r.calls };

    ghost honest = { λ r. D.honest r.device };

    fn read(&mut self, area: Area, n: u64, into: &mut [u8]) -> Result<(), DeviceFault> {
        self.running()?;
        if let Some(count) = self.counts.get_mut(n as usize) {
            *count = count.saturating_add(1);
        }
        self.device.read(area, n, into)
    }

    fn write(&mut self, area: Area, n: u64, bytes: &[u8]) -> Result<(), DeviceFault> {
        self.calls = self.calls.saturating_add(1);
        self.device.write(area, n, bytes)
    }

    fn flush(&mut self, area: Area) -> Result<(), DeviceFault> {
        self.calls = self.calls.saturating_add(1);
        self.device.flush(area)
    }

    fn blocks(&self, area: Area) -> u64 {
        self.device.blocks(area)
    }

    fn block_size(&self) -> usize {
        self.device.block_size()
    }
}

fn add_counts(told: &mut String, counts: &[u8; 40]) -> Result<(), RowError> {
    told.push_str("reads")?;
    for (block, count) in counts.iter().enumerate() {
        if *count > 0 {
            write!(told, " {block}:{count}")?;
        }
    }
    Ok(())
}

/// Dumps whose reads are counted, and fail. Given: a line `fails=N`, and a log. Found: as for `dumps`, where read N and each later one
/// fails, or none for 0; and a line with how often each block of the log was read.
pub fn counted_dumps(alloc: Global, given: &str) -> Result<String, RowError> {
    let (fails, log) = cut(given, "\n")?;
    let [fails_at] = values::<1>(fails, "fails")?;
    let log = log_of(alloc, log)?;
    let mut device = CountedReads {
        device: device_of(alloc, &log)?,
        counts: [0; 40],
        fails_at,
        faults: 0,
        calls: 0,
    };
    let mut told = dumped(alloc, &mut device)?;
    add_counts(&mut told, &device.counts)?;
    Ok(told)
}
