//! The command `bench` with clients in threads of their own over one journal.
ghost use Rattle.std.specs.Prelude.{◌≡◌, ◌≢◌, IfOk, IfSome};
ghost use Rattle.journal_model.specs.declared.refusal.JournalError.TheVariants.{Aborted};
ghost use Rattle.jbench_words.specs.declared.fault.Fault.TheVariants.{Refused};
ghost use Rattle.commit_times.specs.Closed.{IsLeftClosed};

use crate::bench::{SEED, Times, refuse, say};
use crate::client::{Changer, SharedState, now};
use crate::counted::Counted;
use crate::work::{BenchPlan, close};
use block_device::Device;
use jbench_words::fault::Fault;
use jbench_words::watch::Watch;
use jbench_words::words::BenchWords;
use journal_model::{Area, JournalError};
use shared_journal::{Journal, JournalName, Seat, UnnamedJournal};
use std::alloc::Global;
use std::io;
use std::io::Write;
use std::marker::Brand;
use std::sync::Wait;
use std::thread::Threads;
use std::time::Clock;
use volume_service::{NoInterval, OpenGate, ServedClients, serve_clients};

/// Opens the log of a device, lets this many clients commit changes as the words say, each through one handle of the given number of copies
/// at a time, and closes the journal. Prints what `bench::bench` prints, and how many handles a commit had. Each client has a thread and a
/// session of its own. `watch`, the device and `err` are as for `bench::bench`.
///
/// # Errors
///
/// The output can't be written.
pub fn bench<
    D: Device + Send + Drop,
    R: Threads + Wait + Sync,
    C: Clock + Sync,
    H: Watch + Send + Drop,
    W: Write + Drop,
    E: Write + Drop,
>(
    rt: &R,
    clock: &C,
    alloc: Global,
    words: &BenchWords<'_>,
    clients: u64,
    device: D,
    watch: H,
    out: W,
    err: E,
) -> io::Result<Option<D>>
    ensures { IfOk result (λ done. IfSome done (λ device. D.honest device → IsLeftClosed (D.state device))) }
{
    let mut out = out;
    let home_blocks = device.blocks(Area::Home);
    match do_and_say(rt, clock, alloc, words, clients, device, watch, &mut out) {
        Ok(device) => Ok(Some(device)),
        Err(fault) => {
            refuse(words, home_blocks, cause_of(fault), err)?;
            Ok(None)
        }
    }
}

/// Why a bench ended, by the refusal of one of its calls. `Aborted` tells that the device failed before that call. The bench itself opened
/// the journal, so the device failed in it.
fn cause_of(fault: Fault) -> Fault
    ensures { result ≢ Refused Aborted }
{
    match fault {
        Fault::Refused(JournalError::Aborted) => Fault::Refused(JournalError::Device),
        other => other,
    }
}

fn do_and_say<
    D: Device + Send + Drop,
    R: Threads + Wait + Sync,
    C: Clock + Sync,
    H: Watch + Send + Drop,
    W: Write,
>(
    rt: &R,
    clock: &C,
    alloc: Global,
    words: &BenchWords<'_>,
    clients: u64,
    device: D,
    watch: H,
    out: &mut W,
) -> Result<D, Fault>
    ensures { IfOk result (λ device. D.honest device → IsLeftClosed (D.state device)) }
{
    let plans = plans(alloc, words.copies, device.blocks(Area::Home), clients)?;
    let unnamed = UnnamedJournal::open(alloc, Counted::new(device))?;
    let (done, commits, device) = do_all::<Brand, _, _, _, _>(
        rt, clock, alloc, words, plans, unnamed, watch,
    )?;
    let transactions = done.tally.commits();
    say(words, done, commits, &device, out)?;
    if !words.csv {
        say_commits(commits, transactions, out)?;
    }
    Ok(device.into_device())
}

fn plans(
    alloc: Global,
    copies: u64,
    home_blocks: u64,
    clients: u64,
) -> Result<Vec<BenchPlan>, Fault> {
    let mut plans = Vec::new(alloc);
    for number in 0..clients {
        plans.push(BenchPlan::new(copies, home_blocks, SEED.saturating_add(number))?)?;
    }
    Ok(plans)
}

/// Names the journal, lets the clients work, and closes it. The caller picks the name.
fn do_all<
    J: JournalName + Send + Sync,
    D: Device + Send + Drop,
    R: Threads + Wait + Sync,
    C: Clock + Sync,
    H: Watch + Send + Drop,
>(
    rt: &R,
    clock: &C,
    alloc: Global,
    words: &BenchWords<'_>,
    plans: Vec<BenchPlan>,
    unnamed: UnnamedJournal<D>,
    watch: H,
) -> Result<(Times, u64, D), Fault>
    requires name { unnamed.name ≡ J.name }
    ensures { IfOk result (λ ended. D.honest ended.2 → IsLeftClosed (D.state ended.2)) }
{
    let (journal, seat) = unnamed.named::<J>();
    let done = work(rt, clock, alloc, words, &journal, seat, plans, watch);
    let closed = close(journal.into_single());
    let (done, commits) = done?;
    Ok((done, commits, closed?))
}

/// Lets the clients work. Returns what they have done, and in how many commits.
fn work<
    J: JournalName + Send + Sync,
    D: Device + Send,
    R: Threads + Wait + Sync,
    C: Clock + Sync,
    H: Watch + Send + Drop,
>(
    rt: &R,
    clock: &C,
    alloc: Global,
    words: &BenchWords<'_>,
    journal: &Journal<J, D>,
    seat: Seat<J>,
    plans: Vec<BenchPlan>,
    watch: H,
) -> Result<(Times, u64), Fault> {
    let mut seat = seat;
    let before = journal.seen(&mut seat);
    let count = u32::try_from(plans.len()).unwrap_or(u32::MAX);
    let shared = SharedState::new(clock, words, count, now(clock)?, watch);
    let clients = clients(alloc, &shared, plans)?;
    let served = serve_clients(rt, alloc, journal, seat, clients, &OpenGate, &NoInterval)?;
    let ServedClients {
        answers,
        tally: _,
        seat,
    } = served;
    let mut seat = seat;
    let after = journal.seen(&mut seat);
    let done = all_of(alloc, answers)?;
    Ok((done, u64::from(after.0.saturating_sub(before.0))))
}

/// A client for each plan.
fn clients<'s, C: Clock, H: Watch>(
    alloc: Global,
    shared: &'s SharedState<'s, C, H>,
    plans: Vec<BenchPlan>,
) -> Result<Vec<Changer<'s, C, H>>, JournalError> {
    let mut clients = Vec::new(alloc);
    for plan in plans {
        if clients.push(Changer::new(alloc, shared, plan)).is_err() {
            return Err(JournalError::Memory);
        }
    }
    Ok(clients)
}

/// What all clients have done, or why one of them could not go on.
fn all_of(alloc: Global, answers: Vec<Result<Times, Fault>>) -> Result<Times, Fault> {
    let mut done = Ok(Times::new(alloc));
    for answer in answers {
        done = both(done, answer);
    }
    done
}

/// What two clients have done, or why one of them could not go on; another cause is preferred to `Aborted`.
fn both(one: Result<Times, Fault>, other: Result<Times, Fault>) -> Result<Times, Fault> {
    match (one, other) {
        (Ok(one), Ok(other)) => Ok(one.and(other)?),
        (Err(Fault::Refused(JournalError::Aborted)), Err(fault)) => Err(fault),
        (Err(fault), _) | (Ok(_), Err(fault)) => Err(fault),
    }
}

fn say_commits<W: Write>(commits: u64, handles: u64, out: &mut W) -> Result<(), Fault> {
    let hundredths = u128::from(handles) * 100 / u128::from(commits.max(1));
    writeln!(
        out,
        "commits {commits}, {}.{:02} handles each",
        hundredths / 100,
        hundredths % 100
    )?;
    Ok(())
}
