//! Consecutive writes over real files.
use crate::bytes::{DeviceStep, HOME, LOG};
use crate::expected::expect;
use crate::files::{Case, RIGHT, TestFile, told};
use std::test::Fail;

#[test]
fn a_gathered_block_reads_as_it_was_written_last(rt: HostRuntime) -> Result<(), Fail> {
    const CASE: Case = Case {
        folder: "gathered_test",
        log: TestFile::Written(b"aaaabbbbccccdddd"),
        home: None,
        steps: &[
            DeviceStep::Writes(LOG, 1, 1),
            DeviceStep::Writes(LOG, 2, 2),
            DeviceStep::ReadsAll(LOG, b"a\x01\x02d"),
            DeviceStep::Writes(LOG, 2, 3),
            DeviceStep::ReadsAll(LOG, b"a\x01\x03d"),
            DeviceStep::Flushes(LOG),
            DeviceStep::ReadsAll(LOG, b"a\x01\x03d"),
        ],
        files: &[("log", b"aaaa\x01\x01\x01\x01\x03\x03\x03\x03dddd")],
    };
    expect(&rt, &told(&rt, &CASE)?, &RIGHT);
    Ok(())
}

/// The file lacks it before that.
#[test]
fn what_is_gathered_is_written_when_the_device_is_let_go(rt: HostRuntime) -> Result<(), Fail> {
    const CASE: Case = Case {
        folder: "let_go_test",
        log: TestFile::Written(b"aaaabbbbccccdddd"),
        home: None,
        steps: &[DeviceStep::Writes(LOG, 1, 1), DeviceStep::Writes(LOG, 2, 2)],
        files: &[("log", b"aaaa\x01\x01\x01\x01\x02\x02\x02\x02dddd")],
    };
    expect(&rt, &told(&rt, &CASE)?, &(None, false, true));
    Ok(())
}

/// A log that can't be written takes two blocks, and their flush fails. They are still read, and nothing else is written or flushed.
#[test]
fn gathered_blocks_that_fail_are_read_from_the_device(rt: HostRuntime) -> Result<(), Fail> {
    const CASE: Case = Case {
        folder: "late_test",
        log: TestFile::ReadOnly(b"aaaabbbbccccdddd"),
        home: None,
        steps: &[
            DeviceStep::Writes(LOG, 1, 1),
            DeviceStep::Writes(LOG, 2, 2),
            DeviceStep::CantFlush(LOG),
            DeviceStep::CantWrite(LOG, 3, 4),
            DeviceStep::CantFlush(HOME),
            DeviceStep::ReadsAll(LOG, b"a\x01\x02d"),
        ],
        files: &[("log", b"aaaabbbbccccdddd")],
    };
    expect(&rt, &told(&rt, &CASE)?, &RIGHT);
    Ok(())
}

/// A log that can't be written takes a block, which fails at a write to home; that write is not made.
#[test]
fn a_write_elsewhere_fails_with_what_was_gathered(rt: HostRuntime) -> Result<(), Fail> {
    const CASE: Case = Case {
        folder: "elsewhere_test",
        log: TestFile::ReadOnly(b"aaaabbbb"),
        home: Some(TestFile::Written(b"cccc")),
        steps: &[
            DeviceStep::Writes(LOG, 1, 1),
            DeviceStep::CantWrite(HOME, 0, 2),
            DeviceStep::Reads(LOG, 1, 1),
            DeviceStep::Reads(HOME, 0, b'c'),
        ],
        files: &[("log", b"aaaabbbb"), ("home", b"cccc")],
    };
    expect(&rt, &told(&rt, &CASE)?, &RIGHT);
    Ok(())
}

/// Consecutive writes to one area alternate with writes to the other; then only home is flushed.
#[test]
fn writes_to_both_areas_by_turns_are_kept(rt: HostRuntime) -> Result<(), Fail> {
    const CASE: Case = Case {
        folder: "turns_test",
        log: TestFile::Written(b"aaaabbbb"),
        home: Some(TestFile::Written(b"eeeeffffgggghhhh")),
        steps: &[
            DeviceStep::Writes(HOME, 0, 0xa),
            DeviceStep::Writes(HOME, 1, 0xb),
            DeviceStep::Writes(HOME, 2, 0xc),
            DeviceStep::Writes(LOG, 0, 0xd),
            DeviceStep::Writes(HOME, 2, 0xe),
            DeviceStep::Writes(LOG, 1, 0xf),
            DeviceStep::Flushes(HOME),
            DeviceStep::ReadsAll(HOME, b"\x0a\x0b\x0eh"),
            DeviceStep::ReadsAll(LOG, b"\x0d\x0f"),
        ],
        files: &[
            ("log", b"\x0d\x0d\x0d\x0d\x0f\x0f\x0f\x0f"),
            (
                "home",
                b"\x0a\x0a\x0a\x0a\x0b\x0b\x0b\x0b\x0e\x0e\x0e\x0ehhhh",
            ),
        ],
    };
    expect(&rt, &told(&rt, &CASE)?, &RIGHT);
    Ok(())
}

/// The log is read through around a gathered write of block 2, and again after a flush.
#[test]
fn a_log_that_is_gone_over_shows_what_is_gathered(rt: HostRuntime) -> Result<(), Fail> {
    const CASE: Case = Case {
        folder: "gone_over_test",
        log: TestFile::Written(b"aaaabbbbccccdddd"),
        home: None,
        steps: &[
            DeviceStep::ReadsAll(LOG, b"abcd"),
            DeviceStep::Writes(LOG, 2, 9),
            DeviceStep::ReadsAll(LOG, b"ab\x09d"),
            DeviceStep::Flushes(LOG),
            DeviceStep::ReadsAll(LOG, b"ab\x09d"),
        ],
        files: &[("log", b"aaaabbbb\x09\x09\x09\x09dddd")],
    };
    expect(&rt, &told(&rt, &CASE)?, &RIGHT);
    Ok(())
}
