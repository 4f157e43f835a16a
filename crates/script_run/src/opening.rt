//! Opens the crash image of a run, and judges what that gives back.
ghost use Rattle.std.specs.Prelude.{◌↔◌, ◌<◌, All, IfErr, IfOk, IsTrue, OnOk};
ghost use Rattle.std.specs.BTreeSet.{keys};
ghost use Rattle.journal_model.specs.declared.number.Area.TheVariants.{Home};
ghost use Rattle.journal_model.specs.Disk.{reading};
ghost use Rattle.log_model.specs.Opening.{numbered_below};
ghost use Rattle.block_device.specs.Memory.{state_of};
ghost use Rattle.block_device.specs.State.{Stays};
ghost use Rattle.script_run.specs.OpenedImages.{IsOpenedImage, IsUnopened};
ghost use Rattle.script_run.specs.Verdict.{IsImageVerdict, IsRight};

use crate::blocks::read_block;
use crate::verdict::RunRecord;
use block_device::{Device, MemDevice};
use journal_model::{Area, JournalError, Tid};
use journal_script::NamedBlocks;
use recovery::{Report, open};
use script_client::{Fault, Hex, PRINTED_BYTES};
use std::alloc::Global;
use std::io;
use std::io::Write;

/// An image that was opened.
#[derive(Drop)]
pub struct OpenedImage {
    /// The device, whose log is clean.
    pub device: MemDevice,
    /// What the opening found.
    pub report: Report,
    /// The number of the next transaction.
    pub next: Tid,
}

/// Opens an image, and does as `judge_opened`.
pub(crate) fn judge_image(
    alloc: Global,
    image: MemDevice,
    recorded: &RunRecord,
    named: &NamedBlocks,
    out: &mut impl Write,
) -> Result<bool, Fault>
    ensures { IfOk result (IsImageVerdict image.shape (reading (state_of image).disk) recorded.now.sealed.items recorded.now.acknowledged named.now) }
{
    let opened = open_image(alloc, image)?;
    judge_opened(alloc, opened, recorded, named, out)
}

/// Prints what an opening found, how the named home blocks begin, and the verdict, which is the answer.
///
/// # Errors
///
/// `Fault::Refused`: memory ran out, or home lacks a named block. `Fault::Output`: the output can't be written. Earlier lines may have been
/// written.
pub fn judge_opened(
    alloc: Global,
    opened: OpenedImage,
    recorded: &RunRecord,
    named: &NamedBlocks,
    out: &mut impl Write,
) -> Result<bool, Fault>
    ensures { IfOk result (λ right. All (λ b. b < opened.device.shape.home_blocks) (keys named.now.blocks) × (IsTrue right ↔
        IsRight recorded.now.sealed.items recorded.now.acknowledged named.now (numbered_below opened.report.ends_at recorded.now.sealed.items)
        opened.device.shape.block_size (reading (state_of opened.device).disk Home))) }
{
    let n = recorded.count_below(opened.report.ends_at);
    write_opening(out, "open", opened.report, opened.next, n)?;
    let mut device = opened.device;
    let right = judge_home(alloc, &mut device, recorded, named, n, out)?;
    write_verdict(out, right)?;
    Ok(right)
}

/// Prints how the named home blocks begin, after an opening that found the first `n` recorded transactions. The answer is the verdict.
pub(crate) fn judge_home<D: Device>(
    alloc: Global,
    device: &mut D,
    recorded: &RunRecord,
    named: &NamedBlocks,
    n: usize,
    out: &mut impl Write,
) -> Result<bool, Fault>
    ensures { IfOk result (λ right. D.honest device.new → All (λ b. b < (D.state device.old).shape.home_blocks) (keys named.now.blocks) × (IsTrue right ↔
        IsRight recorded.now.sealed.items recorded.now.acknowledged named.now n (D.state device.old).shape.block_size (reading (D.state device.old).disk Home))) }
{
    write_home(alloc, device, named, out)?;
    Ok(recorded.judge(alloc, device, named, n)?)
}

/// Opens the crash image.
///
/// # Errors
///
/// Those of an opening: `Memory`, `Device`, or a refusal of the image's contents.
pub fn open_image(alloc: Global, image: MemDevice) -> Result<OpenedImage, JournalError>
    ensures opened { IfOk result (IsOpenedImage image.shape (state_of image).disk) }
    ensures err { IfErr result (IsUnopened image.shape (reading (state_of image).disk)) }
{
    match open(alloc, image) {
        Ok(opened) => Ok(OpenedImage {
            report: opened.report(),
            next: opened.next(),
            device: opened.into_device(),
        }),
        Err((_, e)) => Err(e),
    }
}

pub(crate) fn write_verdict(out: &mut impl Write, verdict: bool) -> io::Result<()> {
    writeln!(out, "verdict {}", if verdict { "ok" } else { "false" })
}

/// Prints what an opening found, after this word.
pub(crate) fn write_opening(
    out: &mut impl Write,
    word: &str,
    report: Report,
    next: Tid,
    n: usize,
) -> io::Result<()> {
    let (end, next) = (report.ends_at, next.0);
    if report.clean {
        writeln!(out, "{word} clean next={next} n={n}")
    } else {
        writeln!(out, "{word} end={end} next={next} n={n}")
    }
}

fn write_home<D: Device>(
    alloc: Global,
    device: &mut D,
    named: &NamedBlocks,
    out: &mut impl Write,
) -> Result<(), Fault>
    ensures stays { Stays (D.state device.old) (D.state device.new) }
    ensures there { OnOk result (All (λ b. b < (D.state device.old).shape.home_blocks) (keys named.now.blocks)) }
{
    for block in &named.blocks {
        write_block(alloc, device, *block, out)?;
    }
    Ok(())
}

fn write_block<D: Device>(
    alloc: Global,
    device: &mut D,
    block: u64,
    out: &mut impl Write,
) -> Result<(), Fault>
    ensures stays { Stays (D.state device.old) (D.state device.new) }
    ensures there { OnOk result (block < (D.state device.old).shape.home_blocks) }
{
    let home = read_block(alloc, device, Area::Home, block)?;
    match write_home_line(out, block, home.bytes()) {
        Ok(()) => Ok(()),
        Err(e) => Err(Fault::Output(e)),
    }
}

fn write_home_line(out: &mut impl Write, block: u64, bytes: &[u8]) -> io::Result<()> {
    let begins = &bytes[..bytes.len().min(PRINTED_BYTES)];
    writeln!(out, "home {block} {}", Hex(begins))
}
