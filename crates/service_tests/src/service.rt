//! Clients in threads of their own, over a device in memory: undisturbed, held at a gate, short of room, and over a failing device. A wrong
//! scheduler may leave a thread asleep; `late` then fails the test.
ghost use Rattle.std.specs.Prelude.{◌≡◌};

mod flushes;
mod gates;
mod interval;
mod leaving;
mod moments;
mod refused;
mod rounds;
mod tasks;

use crate::expected::expect;
use crate::late::fail_if_late;
use block_device::{Device, FailOnce, MemDevice};
use gates::Meeting;
use journal_model::{Block, BlockNo, JournalError, Sealed, Tid};
use recovery::Opened;
use shared_journal::{JournalName, Record, SharedTicket, Tally, UnnamedJournal, Unrecorded};
use std::alloc::{AllocError, Global};
use std::marker::Brand;
use std::sync::Wait;
use std::test::Fail;
use std::thread::Threads;
use test_logs::{BLOCK_SIZE, formatted, opened};
use thread_tests::journals::{create_on, unnamed_on};
use volume_service::{
    Client, ClientOutcome, Gate, HandlePlan, NoInterval, OpenGate, Outcome, Service, Session,
    Touch, serve_clients,
};

/// Blocks of the log; a transaction then has at most six credits.
const LOG_BLOCKS: u32 = 33;

/// Blocks of the shortest log; a transaction then has at most two credits.
const FEWEST_LOG_BLOCKS: u32 = 17;

/// How often two clients run.
const RUNS: u32 = 200;

/// Writes one block through a handle of its own with so many credits, and stops that.
fn stop_one<J: JournalName, D: Device, R: Record, G: Gate, W: Wait>(
    rt: &W,
    alloc: Global,
    session: &mut Session<'_, J, D, R, G>,
    credits: u64,
    block: u64,
    byte: u8,
) -> Result<SharedTicket<J, R>, JournalError> {
    let bytes = vec![in alloc; byte; session.block_size()]?;
    let mut handle = session.start(rt, credits)?;
    let wrote = session.write(rt, &mut handle, BlockNo(block), &bytes);
    let ticket = session.stop(rt, handle);
    wrote?;
    Ok(ticket)
}

fn write(alloc: Global, block: u64, byte: u8) -> Result<Touch, AllocError> {
    Ok(Touch::Write(
        BlockNo(block),
        Block::new(vec![in alloc; byte; BLOCK_SIZE]?)?,
    ))
}

/// One handle that writes one block, and is waited for.
fn one(alloc: Global, credits: u64, block: u64, byte: u8) -> Result<HandlePlan, AllocError> {
    let mut touches = Vec::new(alloc);
    touches.push(write(alloc, block, byte)?)?;
    Ok(HandlePlan {
        credits,
        touches,
        waits: true,
    })
}

/// Two clients of two handles each; one handle also revokes a block.
fn two_clients(alloc: Global) -> Result<Vec<Vec<HandlePlan>>, AllocError> {
    let mut first = Vec::new(alloc);
    first.push(one(alloc, 1, 3, 1)?)?;
    first.push(one(alloc, 1, 3, 2)?)?;
    let mut last = one(alloc, 2, 3, 4)?;
    last.touches.push(Touch::Revoke(BlockNo(5)))?;
    let mut second = Vec::new(alloc);
    second.push(one(alloc, 1, 4, 3)?)?;
    second.push(last)?;
    let mut plans = Vec::new(alloc);
    plans.push(first)?;
    plans.push(second)?;
    Ok(plans)
}

/// Each handle writes two blocks of its client, but every fourth gives its credits back; every handle or every other one is waited for.
fn many_clients(
    alloc: Global,
    clients: u64,
    handles: u64,
    all_wait: bool,
) -> Result<Vec<Vec<HandlePlan>>, AllocError> {
    let mut plans = Vec::new(alloc);
    for client in 0..clients {
        plans.push(many_handles(alloc, client, handles, all_wait)?)?;
    }
    Ok(plans)
}

fn many_handles(
    alloc: Global,
    client: u64,
    handles: u64,
    all_wait: bool,
) -> Result<Vec<HandlePlan>, AllocError> {
    let mut plan = Vec::new(alloc);
    for number in 0..handles {
        let byte = (number % 256) as u8;
        let mut handle = one(alloc, 2, client % 32 * 2, byte)?;
        handle
            .touches
            .push(write(alloc, client % 32 * 2 + 1, byte)?)?;
        if number % 4 == 2 {
            handle.touches.clear();
        }
        handle.waits = all_wait || number % 2 == 1;
        plan.push(handle)?;
    }
    Ok(plan)
}

/// How many clients were refused something, and why, one other than `Aborted` if there is one; how many handles were stopped and how many
/// have receipts, and the greatest transaction of these; the tally; and how many transactions were committed.
#[derive(Clone, Copy, Debug, PartialEq, Eq)]
struct Summary {
    refused: usize,
    why: Option<JournalError>,
    handles: usize,
    receipts: usize,
    acknowledged: Option<Tid>,
    tally: Tally,
    committed: u64,
}

fn count<J: JournalName>(summary: Summary, client: &ClientOutcome<J, Vec<Sealed>>) -> Summary {
    let mut summary = summary;
    if client.refusal.is_some() {
        summary.refused = summary.refused.saturating_add(1);
        if summary.why.is_none() || summary.why == Some(JournalError::Aborted) {
            summary.why = client.refusal;
        }
    }
    for handle in &client.handles {
        summary.handles = summary.handles.saturating_add(1);
        if let Some(receipt) = &handle.receipt {
            summary.receipts = summary.receipts.saturating_add(1);
            summary.acknowledged = summary.acknowledged.max(Some(receipt.tid()));
        }
    }
    summary
}

/// Runs clients over an unnamed journal.
fn try_run<
    J: JournalName + Send + Sync,
    D: Device + Send + Drop,
    G: Gate + Sync,
    R: Threads + Wait + Sync,
>(
    rt: &R,
    alloc: Global,
    unnamed: UnnamedJournal<D, Vec<Sealed>>,
    plans: &[Vec<HandlePlan>],
    gate: &G,
) -> Result<(Summary, D), JournalError>
    requires name { unnamed.name ≡ J.name }
{
    let (journal, seat) = unnamed.named::<J>();
    match Service::run(rt, alloc, journal, seat, plans, gate, &NoInterval) {
        Ok(outcome) => Ok(summary_of(outcome)),
        Err(e) => Err(e),
    }
}

fn summary_of<J: JournalName, D: Device + Drop>(
    outcome: Outcome<J, D, Vec<Sealed>>,
) -> (Summary, D) {
    let Outcome {
        parts,
        clients,
        tally,
    } = outcome;
    let mut summary = Summary {
        refused: 0,
        why: None,
        handles: 0,
        receipts: 0,
        acknowledged: None,
        tally,
        committed: parts.committed,
    };
    for client in &clients {
        summary = count(summary, client);
    }
    (summary, parts.device)
}

/// Runs clients of a type of their own over an unnamed journal, and ends it as a crash would. Returns their answers, and the device.
fn serve_all<
    J: JournalName + Send + Sync,
    D: Device + Send + Drop,
    C: Client<J, D, Unrecorded, OpenGate> + Send + Drop,
    R: Threads + Wait + Sync,
>(
    rt: &R,
    alloc: Global,
    unnamed: UnnamedJournal<D>,
    clients: Vec<C>,
) -> Result<(Vec<C::Answer>, D), JournalError>
where
    C::Answer: Send + Drop,
    requires name { unnamed.name ≡ J.name }
{
    let (journal, seat) = unnamed.named::<J>();
    let served = serve_clients(rt, alloc, &journal, seat, clients, &OpenGate, &NoInterval);
    let parts = journal.into_single().into_parts();
    Ok((served?.answers, parts.device))
}

/// Runs clients over the log of a device.
fn run_on<D: Device + Send + Drop, G: Gate + Sync, R: Threads + Wait + Sync>(
    rt: &R,
    alloc: Global,
    device: D,
    plans: &[Vec<HandlePlan>],
    gate: &G,
) -> Result<(Summary, D), JournalError> {
    let unnamed = unnamed_on(alloc, device)?;
    try_run::<Brand, _, _, _>(rt, alloc, unnamed, plans, gate)
}

/// Runs clients over a new log of so many blocks in memory.
fn run<G: Gate + Sync, R: Threads + Wait + Sync>(
    rt: &R,
    alloc: Global,
    log: u32,
    plans: &[Vec<HandlePlan>],
    gate: &G,
) -> Result<Summary, JournalError> {
    let (summary, _device) = run_on(rt, alloc, formatted(alloc, log, 64)?, plans, gate)?;
    Ok(summary)
}

/// Refused clients, stopped handles and receipts.
fn counts(summary: &Summary) -> (usize, usize, usize) {
    (summary.refused, summary.handles, summary.receipts)
}

/// The first run without two to four transactions and four receipts, or with a credit taken.
fn first_wrong_run<R: Threads + Wait + Sync>(
    rt: &R,
    alloc: Global,
    plans: &[Vec<HandlePlan>],
) -> Result<Option<Summary>, JournalError> {
    let none = Tally {
        word: 0,
        entries: 0,
    };
    for _ in 0..RUNS {
        let summary = run(rt, alloc, LOG_BLOCKS, plans, &OpenGate)?;
        let is_right = 2 <= summary.committed && summary.committed <= 4 && summary.tally == none;
        if !is_right || counts(&summary) != (0, 4, 4) {
            return Ok(Some(summary));
        }
    }
    Ok(None)
}

#[test]
fn two_clients_run(rt: HostRuntime) -> Result<(), Fail> {
    fail_if_late(rt)?;
    let plans = two_clients(rt.alloc())?;
    expect(&rt, &first_wrong_run(&rt, rt.alloc(), &plans), &Ok(None));
    Ok(())
}

/// The counts, and whether the credits taken are those of entries.
fn run_many<R: Threads + Wait + Sync>(
    rt: &R,
    alloc: Global,
    log: u32,
    plans: &[Vec<HandlePlan>],
) -> Result<((usize, usize, usize), bool), JournalError> {
    let summary = run(rt, alloc, log, plans, &OpenGate)?;
    Ok((
        counts(&summary),
        summary.tally.word == summary.tally.entries,
    ))
}

/// Each client comes at any moment of the other's commit. None waits for ever, and each wait ends with its receipt. A lost wake shows in
/// short runs rather: the next commit makes it good.
#[test]
fn two_clients_wait_a_thousand_times(rt: HostRuntime) -> Result<(), Fail> {
    fail_if_late(rt)?;
    let plans = many_clients(rt.alloc(), 2, 1000, true)?;
    let told = run_many(&rt, rt.alloc(), LOG_BLOCKS, &plans);
    expect(&rt, &told, &Ok(((0, 2000, 2000), true)));
    Ok(())
}

/// On the shortest log each start needs the commit of the handle before it, whoever stopped that. A start that sleeps and lets nobody lead,
/// or that no seal wakes, never ends.
#[test]
fn many_clients_share_a_short_ring(rt: HostRuntime) -> Result<(), Fail> {
    fail_if_late(rt)?;
    let plans = many_clients(rt.alloc(), 8, 40, false)?;
    for log in [FEWEST_LOG_BLOCKS, LOG_BLOCKS] {
        let told = run_many(&rt, rt.alloc(), log, &plans);
        expect(&rt, &told, &Ok(((0, 320, 160), true)));
    }
    Ok(())
}

/// Two clients of one handle.
fn two_handles(alloc: Global) -> Result<Vec<Vec<HandlePlan>>, AllocError> {
    let mut plans = Vec::new(alloc);
    for block in [3, 4] {
        let mut plan = Vec::new(alloc);
        plan.push(one(alloc, 1, block, 7)?)?;
        plans.push(plan)?;
    }
    Ok(plans)
}

/// The first run without two receipts of one transaction, and whether its gate gave up.
fn first_run_apart<R: Threads + Wait + Sync>(
    rt: &R,
    alloc: Global,
    plans: &[Vec<HandlePlan>],
) -> Result<Option<(Summary, bool)>, JournalError> {
    for _ in 0..RUNS {
        let gate = Meeting::new();
        let summary = run(rt, alloc, LOG_BLOCKS, plans, &gate)?;
        if counts(&summary) != (0, 2, 2) || summary.committed != 1 || gate.failed() {
            return Ok(Some((summary, gate.failed())));
        }
    }
    Ok(None)
}

/// Both handles are open at once, and then both clients wait. The leader waits for the other one's stop, and commits both handles at once.
/// If stops or a leader that leaves tell nobody, a client sleeps for ever.
#[test]
fn two_clients_wait_at_once(rt: HostRuntime) -> Result<(), Fail> {
    fail_if_late(rt)?;
    let plans = two_handles(rt.alloc())?;
    expect(&rt, &first_run_apart(&rt, rt.alloc(), &plans), &Ok(None));
    Ok(())
}

/// The device makes at least this many calls, in the opening and in 16 commits of six copies.
const FAILING_CALLS: u64 = 100;

/// Whether clients over a failing device are refused with Aborted, and the crash image opens to every transaction with a receipt.
fn fails_well<R: Threads + Wait + Sync>(
    rt: &R,
    alloc: Global,
    opened: Opened<FailOnce<MemDevice>>,
    plans: &[Vec<HandlePlan>],
) -> Result<bool, JournalError> {
    let unnamed = create_on(alloc, opened)?;
    let (summary, device) = try_run::<Brand, _, _, _>(rt, alloc, unnamed, plans, &OpenGate)?;
    let is_told = summary.refused > 0 && summary.why == Some(JournalError::Aborted);
    let left = opened_left(alloc, device.into_inner().crash(&[]))?;
    let acknowledged = summary.acknowledged.unwrap_or(Tid(0));
    Ok(is_told && left > u64::from(acknowledged.0))
}

fn opened_left(alloc: Global, device: MemDevice) -> Result<u64, JournalError> {
    Ok(u64::from(opened(alloc, device)?.report().ends_at))
}

/// The first failing call for which `fails_well` is false, if the opening does not fail.
fn first_bad<R: Threads + Wait + Sync>(
    rt: &R,
    alloc: Global,
    plans: &[Vec<HandlePlan>],
) -> Result<Option<u64>, JournalError> {
    for call in 1..=FAILING_CALLS {
        let device = FailOnce::new(formatted(alloc, LOG_BLOCKS, 64)?, call);
        if let Ok(opened) = opened(alloc, device) {
            if !fails_well(rt, alloc, opened, plans)? {
                return Ok(Some(call));
            }
        }
    }
    Ok(None)
}

/// Each device call fails in turn. Each client ends with its receipts or with Aborted, and the crash image opens to every transaction with
/// a receipt. A leader that tells nobody of its failure leaves the others asleep.
#[test]
fn a_device_fails_once_under_eight_clients(rt: HostRuntime) -> Result<(), Fail> {
    fail_if_late(rt)?;
    let plans = many_clients(rt.alloc(), 8, 6, false)?;
    expect(&rt, &first_bad(&rt, rt.alloc(), &plans), &Ok(None));
    Ok(())
}
