//! The command `format` over devices that it can't make of files, and its progress.
use crate::output::text_of;
use block_device::MemDevice;
use file_device::UnknownContents;
use jbench_files::{make_device, open_or_make_pair};
use jbench_logs::logs::format;
use jbench_words::watch::{Watch, WatchStep as CommandStep};
use jbench_words::words::LogPaths;
use journal_model::Area;
use journal_script::{DEFAULTS, Measures};
use std::alloc::Global;
use std::fmt::Write;
use std::fs;
use std::test::Fail;

/// The output of `format` for a log of the default measures on a device in memory.
fn said(alloc: Global, block_size: usize, log_blocks: u64) -> Result<String, Fail> {
    let mut device = MemDevice::new(alloc, block_size, log_blocks, 64);
    let mut out = Vec::new(alloc);
    let mut err = Vec::new(alloc);
    let status = format("log", &DEFAULTS, &mut device, &mut out, &mut err)?;
    text_of(alloc, &out, &err, status)
}

/// The output for a device that is too small for the log.
const TOO_SMALL: &str =
    "| jbench: refusal 16 BadLength\n  the file is too short for its log, or that says a length which no log has\nRefused";

/// The output for a device whose blocks may not be so large.
const TOO_LARGE: &str =
    "| jbench: refusal 15 BadBlockSize\n  a field of the superblock is not taken: jbench show LOG says which, and what is wanted\nRefused";

#[test]
fn devices_that_can_have_no_log(rt: HostRuntime) -> Result<(), Fail> {
    assert_eq!(rt; said(rt.alloc(), 1024, 32)?.as_str(), TOO_SMALL);
    assert_eq!(rt; said(rt.alloc(), 8192, 33)?.as_str(), TOO_LARGE);
    Ok(())
}

/// Measures of larger blocks, with the shortest log and home.
const SHORTEST: Measures = Measures {
    block_size: 4096,
    log_blocks: 17,
    home_blocks: 1,
    uuid: [0x5c; 16],
    wide: false,
};

/// Records the progress of files that are filled.
#[derive(Drop)]
struct Pieces<'a> {
    text: &'a mut String,
}

impl Watch for Pieces<'_> {
    fn goes_on(&mut self, step: CommandStep) {
        if let CommandStep::Fills { area, at, bytes } = step {
            let name = match area {
                Area::Log => "log",
                Area::Home => "home",
            };
            let _written = writeln!(self.text, "{name} from {at} of {bytes}");
        }
    }

    fn ends(&mut self) {}
}

/// The progress while a log of these measures is made of the new files `filled_log` and `filled_home`.
fn filling_lines(rt: &HostRuntime, measures: &Measures) -> Result<String, Fail> {
    let paths = LogPaths {
        log: "filled_log",
        home: "filled_home",
    };
    let mut text = String::new(rt.alloc());
    let mut watch = Pieces { text: &mut text };
    match open_or_make_pair(rt, paths, false, false) {
        Ok(files) => match make_device(rt.alloc(), UnknownContents, measures, files, &mut watch) {
            Ok(_) => Ok(text),
            Err(unmade) => Err(Fail::from(unmade.error)),
        },
        Err(unopened) => Err(Fail::from(unopened.error)),
    }
}

/// In pieces of 65,536 bytes.
#[test]
fn it_is_told_how_far_new_files_are_filled(rt: HostRuntime) -> Result<(), Fail> {
    let told = filling_lines(&rt, &SHORTEST)?;
    fs::remove_file(&rt, "filled_log")?;
    fs::remove_file(&rt, "filled_home")?;
    assert_eq!(rt;
        told.as_str(),
        "log from 0 of 69632\nlog from 65536 of 69632\nhome from 0 of 4096\n"
    );
    Ok(())
}
