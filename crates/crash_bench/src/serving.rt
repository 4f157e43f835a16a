//! The command `serve`: a log's volume as a block device, over the program's standard streams.
ghost use Rattle.std.specs.Prelude.{◌≡◌, IfOk};
ghost use Rattle.commit_times.specs.Closed.{IsLeftClosed};
ghost use Rattle.handle.specs.Name.{JournalId};
ghost use Rattle.volume_service.specs.Ending.{IsEndedBy};

use crate::telling::{FEW, say_left};
use block_device::Device;
use jbench_logs::logs::{refuse, say_opened};
use jbench_words::fault::{self, Fault};
use jbench_words::numbers::LAST_TAKEN;
use jbench_words::words::ServeWords;
use journal_model::{Area, JournalError};
use nbd_server::{Done, Export, Interval, Output, Prefetch, Served};
use recovery::Opened;
use shared_journal::{Parts, UnnamedJournal, Unrecorded, create};
use std::alloc::Global;
use std::io;
use std::io::{ErrorKind, Read, Write};
use std::sync::Wait;
use std::thread::Threads;

/// Opens a device's log, serves the client on `input` and `out` until it ends, and closes the journal. `err` gets the opening's report,
/// then the number of requests and the last transaction. The device comes back as `Ok` only if the journal was closed; the client must have
/// ended between two messages. Otherwise a line on `err` has the reason, and the device comes back as `Err`.
///
/// # Errors
///
/// The lines could not be written.
pub(crate) fn serve<
    T: Threads + Wait + Sync,
    D: Device + Send + Drop,
    I: Read + Send + Drop,
    O: Write + Send + Drop,
    A: Prefetch + Sync,
    V: Interval + Sync,
    E: Write,
>(
    threads: &T,
    alloc: Global,
    words: &ServeWords<'_>,
    device: D,
    input: I,
    out: O,
    ahead: &A,
    interval: &V,
    err: &mut E,
) -> io::Result<Result<D, D>>
    ensures { IfOk result (λ done. IfOk done (λ device. D.honest device → IsLeftClosed (D.state device))) }
{
    let opened = match recovery::open(alloc, device) {
        Ok(opened) => opened,
        Err((device, e)) => {
            let mut device = device;
            refuse(alloc, words.paths.log, &mut device, e, err)?;
            return Ok(Err(device));
        }
    };
    match say_opened_log(&opened, err) {
        Ok(()) => serve_opened(
            threads, alloc, words, opened, input, out, ahead, interval, err,
        ),
        Err(Fault::Output(e)) => Err(e),
        Err(fault) => {
            fault::refuse(err, words.paths.log, &fault)?;
            Ok(Err(opened.into_device()))
        }
    }
}

/// Prints the opening's report; then how many blocks of home the log can name, if not all, and how many transaction numbers are left, if
/// few.
fn say_opened_log<D: Device, E: Write>(opened: &Opened<D>, err: &mut E) -> Result<(), Fault> {
    say_opened(opened.report(), opened.next(), err)?;
    let nameable = opened.layout().block_limit();
    let blocks = opened.device().blocks(Area::Home);
    if nameable < blocks {
        writeln!(
            err,
            "jbench: the log can name {nameable} of the {blocks} blocks of HOME, and no more are served: jbench upgrade LOG makes it wide, and it names more"
        )?;
    }
    let left = LAST_TAKEN.saturating_add(1).saturating_sub(opened.next().0);
    if left < FEW {
        say_left(left, err)?;
    }
    Ok(())
}

/// As `serve`, over an opened log.
fn serve_opened<
    T: Threads + Wait + Sync,
    D: Device + Send + Drop,
    I: Read + Send + Drop,
    O: Write + Send + Drop,
    A: Prefetch + Sync,
    V: Interval + Sync,
    E: Write,
>(
    threads: &T,
    alloc: Global,
    words: &ServeWords<'_>,
    opened: Opened<D>,
    input: I,
    out: O,
    ahead: &A,
    interval: &V,
    err: &mut E,
) -> io::Result<Result<D, D>>
    ensures { IfOk result (λ done. IfOk done (λ device. D.honest device → IsLeftClosed (D.state device))) }
{
    let nameable = opened.layout().block_limit();
    let unnamed: UnnamedJournal<D> = match create(alloc, opened) {
        Ok(unnamed) => unnamed,
        Err((opened, e)) => {
            fault::refuse(err, words.paths.log, &Fault::Refused(e))?;
            return Ok(Err(opened.into_device()));
        }
    };
    let export = Export {
        name: words.export,
        read_only: words.read_only,
        nameable,
    };
    let out = Output::new(out);
    match nbd_server::serve(
        threads, alloc, unnamed, export, 0, input, &out, ahead, interval,
    ) {
        Ok(served) => match device_left(served) {
            Ok((done, device)) => say_done(done, device, err),
            Err((device, e)) => {
                fault::refuse(err, words.paths.log, &Fault::Refused(e))?;
                Ok(Err(device))
            }
        },
        Err((parts, e)) => {
            fault::refuse(err, words.paths.log, &Fault::Refused(e))?;
            Ok(Err(parts.device))
        }
    }
}

/// Prints how a connection ended, and gives `left` back, as `Err` if it ended with an error.
fn say_done<D: Drop, E: Write>(done: Done, left: D, err: &mut E) -> io::Result<Result<D, D>>
    ensures { IfOk result (λ back. IfOk back (λ one. one ≡ left)) }
{
    writeln!(
        err,
        "served requests={} transaction={}",
        done.requests, done.upto.0
    )?;
    match done.end {
        Ok(()) => Ok(Ok(left)),
        Err(e) => {
            match e.kind() {
                ErrorKind::UnexpectedEof => {
                    writeln!(err, "jbench: client: it ended within a message")?;
                }
                ErrorKind::InvalidData => {
                    writeln!(err, "jbench: client: it sent bytes that are no message")?;
                }
                _ => writeln!(err, "jbench: client: {e}")?,
            }
            Ok(Err(left))
        }
    }
}

/// How a connection ended, and its device, as `Err` with the cause if the journal was not closed.
fn device_left<D: Device + Drop>(
    served: Served<D, Unrecorded>,
) -> Result<(Done, D), (D, JournalError)>
    requires ended { (name : JournalId) × IsEndedBy D.state D.honest name served.parts.device served.parts.sealed.transactions.items served.parts.committed served.closed }
    ensures { IfOk result (λ left. D.honest left.1 → IsLeftClosed (D.state left.1)) }
{
    let Served {
        done,
        closed,
        parts,
    } = served;
    let Parts {
        device,
        sealed: _,
        committed: _,
    } = parts;
    match closed {
        Ok(()) => Ok((done, device)),
        Err(e) => Err((device, e)),
    }
}
