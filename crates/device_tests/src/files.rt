//! Devices over real files.
ghost use Rattle.std.specs.Prelude.{◌<◌};

use crate::bytes::{DeviceStep, HOME, LOG, SIZE, first_wrong, write};
use crate::expected::expect;
use block_device::Device;
use file_device::{FileDevice, UnknownContents};
use std::fs::{File, OpenOptions};
use std::test::Fail;
use std::{fs, io};

/// A file for a device.
#[derive(Clone, Copy)]
pub enum TestFile<'a> {
    /// It holds these bytes.
    Written(&'a [u8]),
    /// It holds these bytes, and the device can't write it.
    ReadOnly(&'a [u8]),
    /// It is empty, and a sync of it fails.
    Unsynced,
}

/// Calls of a device over files, with their expected results.
pub struct Case {
    /// The folder of the files, which holds nothing else.
    pub folder: &'static str,
    pub log: TestFile<'static>,
    pub home: Option<TestFile<'static>>,
    pub steps: &'static [DeviceStep],
    /// What the files hold after the calls, by name.
    pub files: &'static [(&'static str, &'static [u8])],
}

fn path_of(rt: &HostRuntime, folder: &str, name: &str) -> io::Result<String> {
    Ok(format!(in rt.alloc(); "{folder}/{name}")?)
}

fn open(rt: &HostRuntime, path: &str) -> io::Result<File> {
    OpenOptions::new().read(true).write(true).open(rt, path)
}

fn make_at(rt: &HostRuntime, path: &str, made: &TestFile) -> io::Result<File> {
    match made {
        TestFile::Written(bytes) => {
            fs::write(rt, path, *bytes)?;
            open(rt, path)
        }
        TestFile::ReadOnly(bytes) => {
            fs::write(rt, path, *bytes)?;
            fs::open(rt, path)
        }
        TestFile::Unsynced => open(rt, "/dev/null"),
    }
}

fn make(rt: &HostRuntime, folder: &str, name: &str, made: &TestFile) -> io::Result<File> {
    make_at(rt, path_of(rt, folder, name)?.as_str(), made)
}

fn make_home(rt: &HostRuntime, folder: &str, home: Option<&TestFile>) -> io::Result<Option<File>> {
    match home {
        Some(home) => Ok(Some(make(rt, folder, "home", home)?)),
        None => Ok(None),
    }
}

fn make_folder(rt: &HostRuntime, folder: &str) -> io::Result<()> {
    let _ = fs::remove_dir_all(rt, folder);
    fs::create_dir(rt, folder)
}

/// A device over the files `log` and `home` in a new folder.
fn device_over(
    rt: &HostRuntime,
    folder: &str,
    block_size: usize,
    log: &TestFile,
    home: Option<&TestFile>,
) -> io::Result<FileDevice<UnknownContents>>
    requires { 0 < block_size }
{
    make_folder(rt, folder)?;
    let home = make_home(rt, folder, home)?;
    let log = make(rt, folder, "log", log)?;
    Ok(FileDevice::new(rt.alloc(), UnknownContents, block_size, log, home)?)
}

fn holds_at(rt: &HostRuntime, path: &str, bytes: &[u8]) -> io::Result<bool> {
    Ok(fs::read(rt, path)?.as_slice() == bytes)
}

/// Whether a file of a folder holds exactly these bytes.
fn holds(rt: &HostRuntime, folder: &str, name: &str, bytes: &[u8]) -> io::Result<bool> {
    holds_at(rt, path_of(rt, folder, name)?.as_str(), bytes)
}

/// Whether the files of a case hold what they should.
fn hold(rt: &HostRuntime, case: &Case) -> bool {
    for (name, bytes) in case.files {
        if !matches!(holds(rt, case.folder, name, bytes), Ok(true)) {
            return false;
        }
    }
    true
}

/// The first step with another result; whether other handles saw the expected bytes while the device existed; and whether they did after it
/// was dropped.
pub type Told = (Option<usize>, bool, bool);

/// All is as expected.
pub const RIGHT: Told = (None, true, true);

/// Makes the calls of a case, and drops its device.
fn call(
    rt: &HostRuntime,
    device: FileDevice<UnknownContents>,
    case: &Case,
) -> (Option<usize>, bool) {
    let mut device = device;
    (first_wrong(&mut device, case.steps), hold(rt, case))
}

/// Makes the calls of a case, drops its device, and removes the folder.
fn called(rt: &HostRuntime, device: FileDevice<UnknownContents>, case: &Case) -> io::Result<Told> {
    let (wrong, held) = call(rt, device, case);
    let kept = hold(rt, case);
    fs::remove_dir_all(rt, case.folder)?;
    Ok((wrong, held, kept))
}

fn device_of(rt: &HostRuntime, case: &Case) -> io::Result<FileDevice<UnknownContents>> {
    device_over(rt, case.folder, SIZE, &case.log, case.home.as_ref())
}

/// Makes a case's device and its calls.
pub fn told(rt: &HostRuntime, case: &Case) -> io::Result<Told> {
    called(rt, device_of(rt, case)?, case)
}

#[test]
fn a_device_over_two_files_has_their_whole_blocks(rt: HostRuntime) -> Result<(), Fail> {
    const CASE: Case = Case {
        folder: "two_files_test",
        log: TestFile::Written(b"aaaabbbbccccdd"),
        home: Some(TestFile::Written(b"eeeeffff")),
        steps: &[
            DeviceStep::Has(LOG, 3),
            DeviceStep::Has(HOME, 2),
            DeviceStep::Reads(LOG, 2, b'c'),
            DeviceStep::Reads(HOME, 1, b'f'),
            DeviceStep::Writes(LOG, 1, 0xa),
            DeviceStep::Flushes(LOG),
            DeviceStep::Writes(HOME, 0, 0xb),
            DeviceStep::Flushes(HOME),
            DeviceStep::Reads(LOG, 1, 0xa),
            DeviceStep::Reads(HOME, 0, 0xb),
        ],
        files: &[
            ("log", b"aaaa\x0a\x0a\x0a\x0accccdd"),
            ("home", b"\x0b\x0b\x0b\x0bffff"),
        ],
    };
    expect(&rt, &told(&rt, &CASE)?, &RIGHT);
    Ok(())
}

/// A case's device with its log opened once more, and for home a file that is not its own.
fn opened_twice(rt: &HostRuntime, case: &Case) -> io::Result<FileDevice<UnknownContents>> {
    let mut device = device_of(rt, case)?;
    let log = path_of(rt, case.folder, "log")?;
    device.sync_by(rt.alloc(), LOG, open(rt, log.as_str())?);
    device.sync_by(rt.alloc(), HOME, open(rt, log.as_str())?);
    Ok(device)
}

/// A flush is waited for without the device by a second opening of the area's own file, and then made.
#[test]
fn a_flush_is_waited_for_apart(rt: HostRuntime) -> Result<(), Fail> {
    const CASE: Case = Case {
        folder: "second_opening_test",
        log: TestFile::Written(b"aaaabbbb"),
        home: Some(TestFile::Written(b"cccc")),
        steps: &[
            DeviceStep::Writes(LOG, 0, 0xa),
            DeviceStep::WaitsApart(LOG),
            DeviceStep::Flushes(LOG),
            DeviceStep::WaitsApart(LOG),
            DeviceStep::Writes(LOG, 1, 0xb),
            DeviceStep::Flushes(LOG),
            DeviceStep::CantWaitApart(HOME),
            DeviceStep::Flushes(HOME),
        ],
        files: &[
            ("log", b"\x0a\x0a\x0a\x0a\x0b\x0b\x0b\x0b"),
            ("home", b"cccc"),
        ],
    };
    expect(&rt, &called(&rt, opened_twice(&rt, &CASE)?, &CASE)?, &RIGHT);
    Ok(())
}

/// The device reads through a handle that can't write, and flushes home.
#[test]
fn a_log_alone_has_no_home_block(rt: HostRuntime) -> Result<(), Fail> {
    const CASE: Case = Case {
        folder: "lone_log_test",
        log: TestFile::ReadOnly(b"aaaabbbb"),
        home: None,
        steps: &[
            DeviceStep::Has(LOG, 2),
            DeviceStep::Has(HOME, 0),
            DeviceStep::Reads(LOG, 1, b'b'),
            DeviceStep::Flushes(HOME),
        ],
        files: &[("log", b"aaaabbbb")],
    };
    expect(&rt, &told(&rt, &CASE)?, &RIGHT);
    Ok(())
}

/// After a failed write of one area the other is read, but neither written nor flushed.
#[test]
fn after_a_failed_write_nothing_is_written(rt: HostRuntime) -> Result<(), Fail> {
    const CASE: Case = Case {
        folder: "failed_write_test",
        log: TestFile::Written(b"aaaabbbb"),
        home: Some(TestFile::ReadOnly(b"cccc")),
        steps: &[
            DeviceStep::Writes(LOG, 1, 0xb),
            DeviceStep::CantWrite(HOME, 0, 0xc),
            DeviceStep::CantWrite(LOG, 0, 0xd),
            DeviceStep::CantFlush(LOG),
            DeviceStep::Reads(LOG, 0, b'a'),
        ],
        files: &[("log", b"aaaa\x0b\x0b\x0b\x0b"), ("home", b"cccc")],
    };
    expect(&rt, &told(&rt, &CASE)?, &RIGHT);
    Ok(())
}

/// The same after a failed flush.
#[test]
fn after_a_failed_flush_nothing_is_written(rt: HostRuntime) -> Result<(), Fail> {
    const CASE: Case = Case {
        folder: "failed_flush_test",
        log: TestFile::Written(b"aaaabbbb"),
        home: Some(TestFile::Unsynced),
        steps: &[
            DeviceStep::Flushes(LOG),
            DeviceStep::CantFlush(HOME),
            DeviceStep::CantWrite(LOG, 0, 0xd),
            DeviceStep::CantFlush(LOG),
            DeviceStep::Reads(LOG, 0, b'a'),
        ],
        files: &[("log", b"aaaabbbb")],
    };
    expect(&rt, &told(&rt, &CASE)?, &RIGHT);
    Ok(())
}

#[test]
fn a_flush_of_the_log_syncs_its_file(rt: HostRuntime) -> Result<(), Fail> {
    const CASE: Case = Case {
        folder: "unsynced_log_test",
        log: TestFile::Unsynced,
        home: Some(TestFile::Written(b"aaaabbbb")),
        steps: &[
            DeviceStep::Flushes(HOME),
            DeviceStep::CantFlush(LOG),
            DeviceStep::CantWrite(HOME, 0, 0xd),
            DeviceStep::CantFlush(HOME),
            DeviceStep::Reads(HOME, 0, b'a'),
        ],
        files: &[("home", b"aaaabbbb")],
    };
    expect(&rt, &told(&rt, &CASE)?, &RIGHT);
    Ok(())
}

fn cut_log(rt: &HostRuntime, case: &Case) -> io::Result<()> {
    open(rt, path_of(rt, case.folder, "log")?.as_str())?.set_len(6)
}

/// Runs a case whose log is cut once its device exists.
fn told_once_cut(rt: &HostRuntime, case: &Case) -> io::Result<Told> {
    let device = device_of(rt, case)?;
    cut_log(rt, case)?;
    called(rt, device, case)
}

/// Another handle cut the log within its second block, so that a read of it meets the end of the file.
#[test]
fn after_a_failed_read_the_device_goes_on(rt: HostRuntime) -> Result<(), Fail> {
    const CASE: Case = Case {
        folder: "failed_read_test",
        log: TestFile::Written(b"aaaabbbb"),
        home: None,
        steps: &[
            DeviceStep::CantRead(LOG, 1),
            DeviceStep::Reads(LOG, 0, b'a'),
            DeviceStep::Writes(LOG, 1, 0xb),
            DeviceStep::Flushes(LOG),
            DeviceStep::Reads(LOG, 1, 0xb),
            DeviceStep::Has(LOG, 2),
        ],
        files: &[("log", b"aaaa\x0b\x0b\x0b\x0b")],
    };
    expect(&rt, &told_once_cut(&rt, &CASE)?, &RIGHT);
    Ok(())
}

/// What the device reports after a failed write to home.
fn told_failure(rt: &HostRuntime, folder: &str, home: &TestFile) -> Result<String, Fail> {
    let log = TestFile::Written(b"aaaabbbb");
    let mut device = device_over(rt, folder, SIZE, &log, Some(home))?;
    let before = device.failure().is_none();
    let _ = write(&mut device, HOME, 1, 0xc);
    let _ = device.flush(HOME);
    let told = match device.failure() {
        Some(failure) if before && failure.area == HOME => format!(in rt.alloc(); "{failure}")?,
        _ => String::new(rt.alloc()),
    };
    fs::remove_dir_all(rt, folder)?;
    Ok(told)
}

#[test]
fn a_failure_tells_what_the_system_answered(rt: HostRuntime) -> Result<(), Fail> {
    let told = told_failure(&rt, "told_failure_test", &TestFile::ReadOnly(b"ccccdddd"))?;
    assert_eq!(rt;
        told.as_str(),
        "it can't be written from byte 4 on: Bad file descriptor (os error 9)"
    );
    Ok(())
}

/// Bytes of a log's largest block.
const LARGEST: usize = 4096;

const THREE: usize = 3 * LARGEST;

/// A log of zeros, but for consecutive bytes in block 1.
fn one_written_block() -> [u8; THREE] {
    let mut log = [0; THREE];
    let mut byte = 0u8;
    for slot in &mut log[LARGEST..2 * LARGEST] {
        byte = if byte < 250 { byte + 1 } else { 0 };
        *slot = byte;
    }
    log
}

/// Writes block 1; whether it reads back.
fn reads_as_written<D: Device>(device: &mut D, block: &[u8]) -> bool {
    let mut read = [0xff; LARGEST];
    device.block_size() == LARGEST
        && block.len() == LARGEST
        && 1 < device.blocks(LOG)
        && device.write(LOG, 1, block).is_ok()
        && device.flush(LOG).is_ok()
        && device.read(LOG, 1, &mut read).is_ok()
        && read.as_slice() == block
}

/// Whether the device, and then the file, has block 1 as written.
fn written_whole(rt: &HostRuntime, folder: &str, log: &[u8; THREE]) -> io::Result<(bool, bool)> {
    let zeros = TestFile::Written(&[0; THREE]);
    let mut device = device_over(rt, folder, LARGEST, &zeros, None)?;
    let read = reads_as_written(&mut device, &log[LARGEST..2 * LARGEST]);
    Ok((read, holds(rt, folder, "log", log)?))
}

#[test]
fn every_byte_of_a_block_is_written_and_read(rt: HostRuntime) -> Result<(), Fail> {
    let told = written_whole(&rt, "whole_block_test", &one_written_block())?;
    expect(&rt, &told, &(true, true));
    fs::remove_dir_all(&rt, "whole_block_test")?;
    Ok(())
}
