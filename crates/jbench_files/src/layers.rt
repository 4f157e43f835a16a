//! Of which disks and files a block device's bytes are: a partition's are its disk's, and a loop device's are those of the file behind it.
ghost use Rattle.std.specs.Prelude.{◌≡◌, ◌-◌, ◌<◌, ◌^◌, ◌↔◌, true};

use crate::lines::Line;
use crate::nodes::{DeviceNumber, disk_of, line_at, name_of, text_of};
use crate::regular::{Identity, RegularFile};
use std::fs::{File, Files};
use std::io::ErrorKind;
use std::{fs, io};

/// The most layers that are looked at.
const MOST_LAYERS: usize = 8;

/// Bytes of the sectors in which the system counts.
const COUNTED: u64 = 512;

/// Bytes of a file or a block device, from `first` on up to `end`.
#[derive(Clone, Copy)]
struct Extent {
    identity: Identity,
    first: u64,
    end: u64,
}

impl Extent {
    /// All bytes.
    fn whole(identity: Identity) -> Extent
        ensures { (result.identity ≡ identity) × (result.first ≡ 0) × (result.end ≡ 2 ^ 64 - 1) }
    {
        Extent {
            identity,
            first: 0,
            end: u64::MAX,
        }
    }

    /// Where these bytes of a device are in what is below it, whose bytes from `first` on, so many, are the device's.
    fn below(self, identity: Identity, first: u64, length: u64) -> Extent {
        Extent {
            identity,
            first: first.saturating_add(self.first),
            end: first.saturating_add(self.end.min(length)),
        }
    }

    /// Whether some byte is one of both.
    fn meets(self, other: Extent) -> bool
        ensures { result ≡ true ↔ (self.identity ≡ other.identity) × (self.first < other.end) × (other.first < self.end) }
    {
        self.identity == other.identity && self.first < other.end && other.first < self.end
    }
}

/// A file or block device, and where its bytes are in each of what is below it. What the system doesn't tell is taken for all bytes.
#[derive(Drop)]
pub(crate) struct Layers {
    /// From the uppermost down; the rest are the uppermost once more.
    extents: [Extent; MOST_LAYERS],
    /// The path of what is behind the lowest loop device.
    path: Line,
}

impl Layers {
    pub(crate) fn of<R: Files<File = File>>(rt: &R, identity: Identity) -> Layers {
        let mut lowest = Extent::whole(identity);
        let mut layers = Layers {
            extents: [lowest; MOST_LAYERS],
            path: Line::new(),
        };
        for place in 1..MOST_LAYERS {
            match layer_below(rt, lowest, &mut layers.path) {
                Some(extent) => lowest = extent,
                None => break,
            }
            layers.extents[place] = lowest;
        }
        layers
    }

    /// That of the file or device whose layers these are.
    pub(crate) fn identity(&self) -> Identity {
        self.extents[0].identity
    }

    /// The disk or file of which both have some byte, if there is one.
    pub(crate) fn shared_with(&self, other: &Layers) -> Option<Identity> {
        for one in &self.extents {
            for another in &other.extents {
                if one.meets(*another) {
                    return Some(one.identity);
                }
            }
        }
        None
    }
}

/// What is right below these bytes of a device, if the system tells; `path` becomes that of what is behind a loop device.
fn layer_below<R: Files<File = File>>(rt: &R, of: Extent, path: &mut Line) -> Option<Extent> {
    let device = of.identity.device()?;
    let (identity, first) = match disk_of(rt, device) {
        Some(disk) => (Identity::of_device(disk), bytes_in(rt, device, "start")),
        None => (
            behind(rt, device, path)?,
            number_in(rt, device, "loop/offset"),
        ),
    };
    match (first, bytes_in(rt, device, "size")) {
        (Some(first), Some(length)) => Some(of.below(identity, first, length)),
        _ => Some(Extent::whole(identity)),
    }
}

/// What is behind a loop device, if it is one, and its path.
fn behind<R: Files<File = File>>(
    rt: &R,
    device: DeviceNumber,
    path: &mut Line,
) -> Option<Identity> {
    *path = line_at(rt, device, "loop/backing_file").ok()?;
    Some(Identity::of(&fs::metadata(rt, path.text()).ok()?))
}

/// The number in a file of a device's folder.
fn number_in<R: Files<File = File>>(rt: &R, device: DeviceNumber, name: &str) -> Option<u64> {
    line_at(rt, device, name).ok()?.text().parse::<u64>().ok()
}

/// The number of sectors in a file of a device's folder, in bytes.
fn bytes_in<R: Files<File = File>>(rt: &R, device: DeviceNumber, name: &str) -> Option<u64> {
    Some(number_in(rt, device, name)?.saturating_mul(COUNTED))
}

/// Fails if this file and the log's have a byte in common: one is a partition of the other, or a loop device over it, or both have the same
/// bytes of what is below them.
///
/// # Errors
///
/// `InvalidInput`: they have, with the name of what they share.
pub(crate) fn require_unshared<R: Files<File = File>>(
    rt: &R,
    log: &RegularFile,
    file: &RegularFile,
) -> io::Result<()> {
    let (log, file) = (Layers::of(rt, log.identity), Layers::of(rt, file.identity));
    let Some(shared) = file.shared_with(&log) else {
        return Ok(());
    };
    let name = match shared.device() {
        Some(device) => called(rt, device),
        None if file.identity() == shared => log.path,
        None => file.path,
    };
    let line = text_of(format_args!("it and the log share bytes of {}", name.text()));
    Err(io::Error::new(ErrorKind::InvalidInput, line.text()))
}

/// A device's own name, or its numbers if the system doesn't tell that.
pub(crate) fn called<R: Files<File = File>>(rt: &R, device: DeviceNumber) -> Line {
    match name_of(rt, device) {
        Ok(name) => name,
        Err(_) => text_of(format_args!("{device}")),
    }
}
