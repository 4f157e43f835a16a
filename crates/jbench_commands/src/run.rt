//! The command `run`: reads a script's text, and runs it.
ghost use Rattle.std.specs.Prelude.{◌≡◌, ◌≢◌, true, is_some, IfErr, IfOk};
ghost use Rattle.jbench_words.specs.Images.{IsUnmade};
ghost use Rattle.jbench_words.specs.declared.fault.CommandStatus.TheVariants.{Fine, Refused};
ghost use Rattle.jbench_commands.specs.Runs.{AreStopsTold, HasRun, IsStopTold, IsTaken, runs_told};

use crate::faults::of_run;
use crate::object::write_object;
use block_device::Device;
use jbench_words::fault::{self, CommandStatus, Fault};
use jbench_words::words::{RunWords, StopWords};
use journal_script::{HOMES, Measures, Script};
use script_run::{Stop, Stops};
use std::alloc::Global;
use std::io;
use std::io::{BufWriter, ErrorKind, Write};

/// Runs a script, and prints its lines, the crash image's dump and the verdict on its openings; as one JSON object if the words ask for it.
/// The crash image is written durably to the device that `image` makes, if it is given, before it is opened. If that device cannot be made,
/// only a line on `err` is printed. A line on `err` also says why else the run cannot go on.
///
/// # Errors
///
/// The output could not be written.
pub fn run<M: MakeImage + Drop, W: Write + Drop, E: Write + Drop>(
    alloc: Global,
    words: &RunWords<'_>,
    script: &[u8],
    image: Option<M>,
    out: W,
    err: E,
) -> io::Result<CommandStatus>
    ensures run { IfOk result (λ status. status ≡ Fine → HasRun (runs_told (is_some image)) script.now words.now true) }
    ensures other { IfOk result (λ status. status ≢ Fine → status ≡ Refused) }
{
    let mut err = err;
    match verdict_of(alloc, words, script, image, out) {
        Ok(true) => Ok(CommandStatus::Fine),
        Ok(false) => Ok(CommandStatus::VerdictFalse),
        Err(Fault::Output(e)) => Err(e),
        Err(fault) => fault::refuse(&mut err, path_of(words, &fault), &fault),
    }
}

/// Makes the device for an image.
pub trait MakeImage {
    type Device: Device + Drop;

    /// Makes a device of these measures.
    ///
    /// # Errors
    ///
    /// It could not be made.
    fn make(self, measures: &Measures) -> io::Result<Self::Device>;
}

/// The file of a fault.
fn path_of<'a>(words: &RunWords<'a>, fault: &Fault) -> &'a str {
    match (&words.image, fault) {
        (Some(image), Fault::ImageFile(_)) => image.log,
        _ => words.script,
    }
}

/// A device's stop, by the words.
fn stop_of(words: &StopWords) -> Stop<'_>
    ensures { IsStopTold words.now result }
{
    Stop {
        at_write: words.at_write,
        keep: &words.keep,
    }
}

/// The stops of the run and the opening, and the failing call.
fn stops_of<'a>(words: &'a RunWords<'_>) -> Stops<'a>
    ensures { AreStopsTold words.now result }
{
    Stops {
        failing_call: words.failing_call,
        run: stop_of(&words.run),
        opening: stop_of(&words.opening),
    }
}

/// Runs a tested script, and returns the verdict. If an image is given, its device is made first.
///
/// # Errors
///
/// `Fault::ImageFile`: the device cannot be made, or home has more than 1,048,576 blocks to copy; nothing was printed. Otherwise those of a
/// run, and of the copy of its image.
fn run_tested<M: MakeImage + Drop, W: Write>(
    alloc: Global,
    script: &Script,
    stops: &Stops<'_>,
    image: Option<M>,
    out: &mut W,
) -> Result<bool, Fault>
    ensures unmade { IfErr result (λ fault. IsUnmade fault → out.new ≡ out.old) }
    ensures run { IfOk result (runs_told (is_some image) script.now stops.now) }
    ensures right { IfOk result (λ right. right ≡ true) }
{
    let Some(image) = image else {
        return match script_run::run(alloc, script, stops, out) {
            Ok(verdict) => Ok(verdict),
            Err(fault) => Err(of_run(fault)),
        };
    };
    if script.measures.home_blocks > HOMES.1 {
        return Err(too_large());
    }
    match image.make(&script.measures) {
        Ok(mut device) => match script_run::run_copied(alloc, script, stops, &mut device, out) {
            Ok(verdict) => Ok(verdict),
            Err(fault) => Err(of_run(fault)),
        },
        Err(e) => Err(Fault::of_image(e)),
    }
}

/// The script's home area is too large for an image.
fn too_large() -> Fault
    ensures { IsUnmade result }
{
    Fault::ImageFile(io::Error::new(
        ErrorKind::InvalidInput,
        "its home area would have more than 1048576 blocks",
    ))
}

/// Reads a script, runs it, and returns the verdict. If the words ask for it, everything is printed at the end, as one object.
fn verdict_of<M: MakeImage + Drop, W: Write + Drop>(
    alloc: Global,
    words: &RunWords<'_>,
    script: &[u8],
    image: Option<M>,
    out: W,
) -> Result<bool, Fault>
    ensures run { IfOk result (HasRun (runs_told (is_some image)) script.now words.now) }
    ensures right { IfOk result (λ right. right ≡ true) }
{
    let script = read_script(alloc, script)?;
    let stops = stops_of(words);
    if words.json {
        let mut text = Vec::new(alloc);
        let verdict = run_tested(alloc, &script, &stops, image, &mut text)?;
        write_object(alloc, &text, out)?;
        return Ok(verdict);
    }
    let mut out = BufWriter::new(alloc, out)?;
    let verdict = run_tested(alloc, &script, &stops, image, &mut out)?;
    out.flush()?;
    Ok(verdict)
}

/// Reads and tests a script.
pub(crate) fn read_script(alloc: Global, text: &[u8]) -> Result<Script, Fault>
    ensures { IfOk result (IsTaken text.now) }
{
    let script = journal_script::read(alloc, text)?;
    Ok(script)
}
