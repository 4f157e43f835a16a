//! Readers and writers that fail.
use crate::output::text_of;
use jbench_commands::image::ImageFiles;
use jbench_commands::run::run;
use jbench_words::fault::{CommandStatus, refuse};
use jbench_words::text::read_text;
use jbench_words::words::{RunWords, StopWords};
use std::alloc::Global;
use std::io;
use std::io::{ErrorKind, Read, Write};
use std::test::Fail;

/// One handle writes block 9 and is waited for.
const ONE_WRITE: &str =
    r#"{"ops": [["start",1,1],["write",1,9,"11"],["stop",1],["request",1],["commit"],["wait",1]]}"#;

/// The words of a run that is not stopped.
fn no_stop(alloc: Global) -> StopWords {
    StopWords {
        at_write: None,
        keep: Vec::new(alloc),
    }
}

/// The words of a run without options.
fn words(alloc: Global) -> RunWords<'static> {
    RunWords {
        script: "a.json",
        failing_call: None,
        run: no_stop(alloc),
        opening: no_stop(alloc),
        image: None,
        json: false,
    }
}

#[derive(Drop)]
struct BrokenReader;

impl Read for BrokenReader {
    fn read(&mut self, _buf: &mut [u8]) -> io::Result<usize> {
        Err(io::Error::from(ErrorKind::Other))
    }
}

/// A writer that fails after this many calls.
#[derive(Drop)]
struct BrokenWriter {
    calls: u32,
}

impl Write for BrokenWriter {
    fn write(&mut self, buf: &[u8]) -> io::Result<usize> {
        if self.calls == 0 {
            return Err(io::Error::from(ErrorKind::BrokenPipe));
        }
        self.calls -= 1;
        Ok(buf.len().min(7))
    }

    fn flush(&mut self) -> io::Result<()> {
        Ok(())
    }
}

/// What is said of a script that cannot be read.
fn said_of_no_script(alloc: Global) -> Result<String, Fail> {
    let mut err = Vec::new(alloc);
    let status = match read_text(alloc, BrokenReader) {
        Ok(_) => CommandStatus::Fine,
        Err(fault) => refuse(&mut err, "a.json", &fault)?,
    };
    text_of(alloc, &[], &err, status)
}

#[test]
fn a_script_that_cannot_be_read(rt: HostRuntime) -> Result<(), Fail> {
    let said = said_of_no_script(rt.alloc())?;
    assert_eq!(rt;
        said.as_str(),
        "| jbench: file a.json\n  other error\nRefused"
    );
    Ok(())
}

/// Whether a run whose output fails after this many calls fails too, without a message.
fn is_broken(alloc: Global, calls: u32) -> bool {
    let mut err = Vec::new(alloc);
    let (writer, image) = (BrokenWriter { calls }, None::<ImageFiles>);
    let script = ONE_WRITE.as_bytes();
    let answer = run(alloc, &words(alloc), script, image, writer, &mut err);
    answer.is_err() && err.is_empty()
}

/// The first number of calls, up to nine, with another result.
fn first_whole(alloc: Global) -> Option<u32> {
    for calls in 0..10 {
        if !is_broken(alloc, calls) {
            return Some(calls);
        }
    }
    None
}

#[test]
fn output_that_cannot_be_written(rt: HostRuntime) {
    assert_eq!(rt; first_whole(rt.alloc()), None);
}
