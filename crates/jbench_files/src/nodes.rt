//! What the system's folder of block devices says of one.
use crate::lines::{Line, Lines};
use std::fs::{File, Files};
use std::io::ErrorKind;
use std::{fmt, fs, io};

/// Bytes of a sector where the system doesn't tell: those of the largest block.
const SECTOR: u64 = 4096;

/// The most lines of a device's file of facts.
const MOST_FACTS: u32 = 64;

/// The numbers of a device; each of its nodes has them.
#[derive(Clone, Copy, Debug, PartialEq, Eq)]
pub struct DeviceNumber {
    pub(crate) major: u64,
    pub(crate) minor: u64,
}

impl DeviceNumber {
    /// The numbers in the system's encoding of both.
    pub(crate) fn of(number: u64) -> DeviceNumber {
        DeviceNumber {
            major: (number >> 8) & 0xfff | (number >> 32) & 0xffff_f000,
            minor: number & 0xff | (number >> 12) & 0xffff_ff00,
        }
    }

    /// The numbers of a text like `8:1`.
    pub(crate) fn parse(text: &str) -> Option<DeviceNumber> {
        match text.split_once(':') {
            Some((major, minor)) => Some(DeviceNumber {
                major: major.parse::<u64>().ok()?,
                minor: minor.parse::<u64>().ok()?,
            }),
            None => None,
        }
    }
}

impl fmt::Display for DeviceNumber {
    fn fmt<W: fmt::Write>(&self, f: &mut fmt::Formatter<W>) -> fmt::Result {
        write!(f, "{}:{}", self.major, self.minor)
    }
}

/// A path below the device's folder, which also is one.
fn place_of(device: DeviceNumber, name: &str) -> Line {
    text_of(format_args!("/sys/dev/block/{device}/{name}"))
}

/// The first bytes of a text.
pub(crate) fn text_of<D: fmt::Display + Drop>(text: D) -> Line {
    let mut line = Line::new();
    let _written = fmt::Write::write_fmt(&mut line, text);
    line
}

/// The first line of a file of the system.
pub(crate) fn first_line<R: Files<File = File>>(rt: &R, path: &str) -> io::Result<Line> {
    let mut line = Line::new();
    Lines::new(path, fs::open(rt, path), b'\n')?.read(&mut line)?;
    Ok(line)
}

/// The first line of a file of the device's folder.
pub(crate) fn line_at<R: Files<File = File>>(
    rt: &R,
    device: DeviceNumber,
    name: &str,
) -> io::Result<Line> {
    first_line(rt, place_of(device, name).text())
}

/// Bytes of a logical sector: the least that the device reads or writes. A partition has those of its disk.
pub(crate) fn sector_of<R: Files<File = File>>(rt: &R, device: DeviceNumber) -> u64 {
    number_at(
        rt,
        device,
        ["queue/logical_block_size", "../queue/logical_block_size"],
    )
}

/// Bytes of a physical sector: the least that the disk itself writes.
pub(crate) fn physical_sector_of<R: Files<File = File>>(rt: &R, device: DeviceNumber) -> u64 {
    number_at(
        rt,
        device,
        ["queue/physical_block_size", "../queue/physical_block_size"],
    )
}

/// The number in the first of these files of the device's folder that is there, in bytes of a sector.
fn number_at<R: Files<File = File>>(rt: &R, device: DeviceNumber, names: [&str; 2]) -> u64 {
    for name in names {
        if let Ok(line) = line_at(rt, device, name) {
            return line.text().parse::<u64>().unwrap_or(SECTOR);
        }
    }
    SECTOR
}

/// Fails if the device can't be written; the system opens it to write nevertheless.
///
/// # Errors
///
/// `ReadOnlyFilesystem`: it can't.
pub(crate) fn require_writable<R: Files<File = File>>(
    rt: &R,
    device: DeviceNumber,
) -> io::Result<()> {
    match line_at(rt, device, "ro") {
        Ok(line) if line.text() == "1" => Err(io::Error::new(
            ErrorKind::ReadOnlyFilesystem,
            "it is read-only",
        )),
        _ => Ok(()),
    }
}

/// The disk of which this device is a partition, if it is one.
pub(crate) fn disk_of<R: Files<File = File>>(rt: &R, device: DeviceNumber) -> Option<DeviceNumber> {
    if !is_there(rt, &place_of(device, "partition")) {
        return None;
    }
    match line_at(rt, device, "../dev") {
        Ok(line) => DeviceNumber::parse(line.text()),
        Err(_) => None,
    }
}

/// The device's own name, as the system's folders have it.
pub(crate) fn name_of<R: Files<File = File>>(rt: &R, device: DeviceNumber) -> io::Result<Line> {
    let place = place_of(device, "uevent");
    let mut lines = Lines::new(place.text(), fs::open(rt, place.text()), b'\n')?;
    let mut line = Line::new();
    for _ in 0..MOST_FACTS {
        if !lines.read(&mut line)? {
            break;
        }
        if let Some(name) = line.text().strip_prefix("DEVNAME=") {
            return Ok(text_of(format_args!("{name}")));
        }
    }
    Err(io::Error::from(ErrorKind::NotFound))
}

/// Whether a file is there.
pub(crate) fn is_there<R: Files<File = File>>(rt: &R, path: &Line) -> bool {
    fs::metadata(rt, path.text()).is_ok()
}
