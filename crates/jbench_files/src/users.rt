//! Who else uses a file or a block device, by the system's lists. The library opens no device by `O_EXCL`, by which the system would say
//! so.
use crate::layers::{Layers, called};
use crate::lines::{Line, Lines, MOST_LINES};
use crate::nodes::{DeviceNumber, first_line, is_there, text_of};
use crate::regular::{Identity, RegularFile};
use std::fs::{File, Files};
use std::io::ErrorKind;
use std::{fmt, fs, io};

/// The mounts that this process sees, each on a line: `36 35 98:0 / /mnt rw,noatime master:1 - ext3 /dev/root rw`.
/// Source: proc(5).
const MOUNTS: &str = "/proc/self/mountinfo";

/// The devices and files of swap space, each on a line, below a line of titles.
const SWAPS: &str = "/proc/swaps";

/// Folders in which a file system has an entry for the device that it is on, or that has its journal, whoever sees the mount.
const FILE_SYSTEMS: [&str; 4] = [
    "/sys/fs/ext4",
    "/sys/fs/xfs",
    "/sys/fs/f2fs",
    "/proc/fs/jbd2",
];

/// The folder of all block devices, partitions too.
const DEVICES: &str = "/sys/class/block";

/// Fails if the system names a user of this file or device, or of a device that shares bytes with it: of a partition or a loop device over
/// it, or of what is below it.
///
/// # Errors
///
/// `ResourceBusy`: a file system that is mounted, swap space, or a device that is made of it (md, dm), named. Where a list can't be read, of
/// a device the system's answer with the list's name; a regular file is then taken.
pub(crate) fn require_unused<R: Files<File = File>>(rt: &R, file: &RegularFile) -> io::Result<()> {
    match require_no_user(rt, &Layers::of(rt, file.identity)) {
        Err(e) if file.is_device() || e.kind() == ErrorKind::ResourceBusy => Err(e),
        _ => Ok(()),
    }
}

/// Fails if a list names a user of these bytes, or can't be read.
fn require_no_user<R: Files<File = File>>(rt: &R, own: &Layers) -> io::Result<()> {
    require_on_no_line(rt, own, MOUNTS)?;
    match require_on_no_line(rt, own, SWAPS) {
        Err(e) if e.kind() == ErrorKind::NotFound => {}
        done => done?,
    }
    require_no_device_used(rt, own)
}

/// Why a device is refused.
fn in_use<D: fmt::Display + Drop>(why: D) -> io::Error {
    io::Error::new(ErrorKind::ResourceBusy, text_of(why).text())
}

/// How a device that has some of these bytes is called.
fn called_in<R: Files<File = File>>(rt: &R, own: &Layers, identity: Identity) -> Line {
    match identity.device() {
        Some(device) if own.identity() != identity => {
            let name = called(rt, device);
            text_of(format_args!("{}, which shares its bytes,", name.text()))
        }
        _ => text_of(format_args!("it")),
    }
}

/// Fails if a line of this list names what shares bytes with these.
fn require_on_no_line<R: Files<File = File>>(rt: &R, own: &Layers, list: &str) -> io::Result<()> {
    let mut lines = Lines::new(list, fs::open(rt, list), b'\n')?;
    let mut line = Line::new();
    for _ in 0..MOST_LINES {
        if !lines.read(&mut line)? {
            break;
        }
        if list == MOUNTS {
            require_other_mount(rt, own, line.text())?;
        } else {
            require_other_swap(rt, own, line.text())?;
        }
    }
    Ok(())
}

/// Fails if this line of the mounts names such a device, by its numbers or by a path: a file system may have numbers of its own.
fn require_other_mount<R: Files<File = File>>(rt: &R, own: &Layers, line: &str) -> io::Result<()> {
    let mut words = line.split(' ').skip(2);
    let number = DeviceNumber::parse(words.next().unwrap_or(""));
    let folder = words.nth(1).unwrap_or("");
    let source = match line.split_once(" - ") {
        Some((_, rest)) => rest.split(' ').nth(1).unwrap_or(""),
        None => "",
    };
    let device = match number {
        Some(number) => Some(Identity::of_device(number)),
        None => None,
    };
    for named in [device, identity_at(rt, source)] {
        if let Some(user) = user_of(rt, own, named) {
            return Err(in_use(format_args!("{} is mounted on {folder}", user.text())));
        }
    }
    Ok(())
}

/// Fails if this line of swap space names such a device or file.
fn require_other_swap<R: Files<File = File>>(rt: &R, own: &Layers, line: &str) -> io::Result<()> {
    let path = line.split(' ').next().unwrap_or("");
    match user_of(rt, own, identity_at(rt, path)) {
        Some(user) => Err(in_use(format_args!("{} is swap space", user.text()))),
        None => Ok(()),
    }
}

/// What is at a path, if it is one from the root on and something is there.
fn identity_at<R: Files<File = File>>(rt: &R, path: &str) -> Option<Identity> {
    if !path.starts_with('/') {
        return None;
    }
    Some(Identity::of(&fs::metadata(rt, path).ok()?))
}

/// How what shares bytes with these is called; `None` if this doesn't.
fn user_of<R: Files<File = File>>(rt: &R, own: &Layers, other: Option<Identity>) -> Option<Line> {
    let other = other?;
    own.shared_with(&Layers::of(rt, other))?;
    Some(called_in(rt, own, other))
}

/// Fails if a device that shares bytes with these is a part of another, or a file system has an entry for it; or if these are of a device
/// that isn't listed.
fn require_no_device_used<R: Files<File = File>>(rt: &R, own: &Layers) -> io::Result<()> {
    let mut names = Lines::new(DEVICES, rt.open_dir(DEVICES), 0)?;
    let mut name = Line::new();
    let mut is_listed = false;
    for _ in 0..MOST_LINES {
        if !names.read(&mut name)? {
            break;
        }
        let identity = identity_of(rt, name.text());
        is_listed = is_listed || identity == Some(own.identity());
        if let Some(user) = user_of(rt, own, identity) {
            require_no_holder(rt, name.text(), user.text())?;
            require_no_file_system(rt, name.text(), user.text())?;
        }
    }
    if is_listed {
        Ok(())
    } else {
        let line = text_of(format_args!("{DEVICES} doesn't list it"));
        Err(io::Error::new(ErrorKind::NotFound, line.text()))
    }
}

/// The device of this name in the folder of all.
fn identity_of<R: Files<File = File>>(rt: &R, name: &str) -> Option<Identity> {
    if name.starts_with('.') {
        return None;
    }
    let place = text_of(format_args!("{DEVICES}/{name}/dev"));
    let number = first_line(rt, place.text()).ok()?;
    Some(Identity::of_device(DeviceNumber::parse(number.text())?))
}

/// Fails if a device is made of this one.
fn require_no_holder<R: Files<File = File>>(rt: &R, name: &str, user: &str) -> io::Result<()> {
    let folder = text_of(format_args!("{DEVICES}/{name}/holders"));
    let mut names = Lines::new(folder.text(), rt.open_dir(folder.text()), 0)?;
    let mut holder = Line::new();
    for _ in 0..MOST_LINES {
        if !names.read(&mut holder)? {
            break;
        }
        if !holder.text().starts_with('.') {
            return Err(in_use(format_args!("{} is made of {user}", holder.text())));
        }
    }
    Ok(())
}

/// Fails if a file system has an entry for this device: it may be mounted where this process doesn't see it.
fn require_no_file_system<R: Files<File = File>>(rt: &R, name: &str, user: &str) -> io::Result<()> {
    for folder in FILE_SYSTEMS {
        let entry = text_of(format_args!("{folder}/{name}"));
        if is_there(rt, &entry) {
            return Err(in_use(format_args!("{} is there: {user} is mounted", entry.text())));
        }
    }
    Ok(())
}
