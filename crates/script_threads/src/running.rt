//! Runs the clients of a script, and judges the result.
ghost use Rattle.std.specs.Prelude.{◌≡◌, ℕ, ◌<◌, [], All, IfNone, IfOk, IfSome, IsNone, OnOk, length, slice_index_or, take, vec_len};
ghost use Rattle.std.specs.BTreeSet.{keys};
ghost use Rattle.std.specs.List.{AllZip};
ghost use Rattle.block_device.specs.Memory.{state_of};
ghost use Rattle.journal_script.specs.Clients.{HasTouchedAll, handles_of};
ghost use Rattle.volume_service.specs.Ending.{IsLeftWith, Stands};
ghost use Rattle.volume_service.specs.Plan.{Came};
ghost use Rattle.script_threads.specs.Runs.{IsEnded, IsEndedOn};
ghost use Rattle.script_threads.specs.Verdicts.{AreVerdicts};

use crate::plans::plans_of;
use crate::recovery_verdict::recovers;
use crate::told::{ToldHandle, told_of};
use crate::verdicts::{Verdicts, credits_are_right, greatest_receipt, never_fall, receipts_stand};
use block_device::MemDevice;
use journal_model::{JournalError, Sealed};
use journal_script::{ClientScript, NamedBlocks};
use script_run::{RunRecord, empty_disk};
use shared_journal::{JournalName, Parts, Tally, UnnamedJournal};
use std::alloc::{AllocError, Global};
use std::collections::BTreeSet;
use std::marker::Brand;
use std::sync::Wait;
use std::thread::Threads;
use volume_service::{ClientOutcome, HandlePlan, NoInterval, OpenGate, Outcome, Service};

/// A client that was refused something.
#[derive(Clone, Copy, Debug, PartialEq, Eq)]
pub struct RefusedClient {
    /// Its number, from 1.
    pub number: usize,
    /// The refusal that ended it.
    pub why: JournalError,
}

/// How a run of clients ended.
#[derive(Debug, Drop)]
pub enum Ended {
    /// These clients were refused something, and nothing is judged.
    Refused(Vec<RefusedClient>),
    /// No client was.
    Judged(Verdicts),
}

/// Runs the clients of a script, each in a thread of its own, over a disk in memory with an empty log, and judges the result.
///
/// # Errors
///
/// `Memory`, also if a thread can't be had; `Device` if memory ran out for the disk.
pub fn run<W: Threads + Wait + Sync>(
    rt: &W,
    alloc: Global,
    script: &ClientScript,
) -> Result<Ended, JournalError>
    ensures { IfOk result (IsEnded script.now) }
{
    let disk = empty_disk(alloc, &script.measures)?;
    let plans = plans_of(alloc, &script.clients, script.measures.block_size)?;
    let named = named_blocks(alloc, script)?;
    let unnamed = UnnamedJournal::open(alloc, disk)?;
    run_on::<Brand, W>(rt, alloc, unnamed, &plans, &named)
}

/// The blocks that the clients of a script touch; none is written directly.
fn named_blocks(alloc: Global, script: &ClientScript) -> Result<NamedBlocks, AllocError>
    ensures names { IfOk result (λ named. All (λ handles. HasTouchedAll handles (keys named.blocks)) (handles_of script.now)) }
    ensures no_directs { IfOk result (λ named. keys named.directs ≡ []) }
{
    let blocks = script.blocks(alloc)?;
    Ok(NamedBlocks {
        blocks,
        directs: BTreeSet::new(alloc),
    })
}

/// Runs clients over an unnamed journal, and judges the result by the blocks that they name.
fn run_on<J: JournalName + Send + Sync, W: Threads + Wait + Sync>(
    rt: &W,
    alloc: Global,
    unnamed: UnnamedJournal<MemDevice, Vec<Sealed>>,
    plans: &[Vec<HandlePlan>],
    named: &NamedBlocks,
) -> Result<Ended, JournalError>
    requires name { unnamed.name ≡ J.name }
    ensures { IfOk result (IsEndedOn plans.now named.now) }
{
    let (journal, seat) = unnamed.named::<J>();
    let capacity = journal.capacity();
    let outcome = Service::run(rt, alloc, journal, seat, plans, &OpenGate, &NoInterval)?;
    judge(alloc, outcome, plans, capacity, named)
}

/// Judges the outcome, if no client was refused anything.
fn judge<J: JournalName>(
    alloc: Global,
    outcome: Outcome<J, MemDevice, Vec<Sealed>>,
    plans: &[Vec<HandlePlan>],
    capacity: u64,
    named: &NamedBlocks,
) -> Result<Ended, JournalError>
    requires all { vec_len outcome.clients ≡ length plans.now }
    requires followed { (k : ℕ) (c : _) (p : _) → k < length plans.now → IfNone (slice_index_or outcome.clients.items k c).refusal
        (AllZip (λ h e. Came h e.tid e.receipt e.ticket) (slice_index_or plans.now k p).items (slice_index_or outcome.clients.items k c).handles.items) }
    requires stand { (k : ℕ) (c : _) → k < vec_len outcome.clients →
        All (λ e. IfSome e.receipt (Stands outcome.parts.committed outcome.parts.sealed.items)) (slice_index_or outcome.clients.items k c).handles.items }
    requires left { IsLeftWith state_of (λ d. Unit {0}) J.name outcome.parts.device outcome.parts.sealed.items outcome.parts.committed outcome.tally.word outcome.tally.entries }
    ensures { IfOk result (IsEndedOn plans.now named.now) }
{
    let refused = refused_of(alloc, &outcome.clients)?;
    if !refused.is_empty() {
        return Ok(Ended::Refused(refused));
    }
    let told = told_of(alloc, &outcome.clients)?;
    let Outcome {
        parts,
        clients: _,
        tally,
    } = outcome;
    let verdicts = verdicts_of(alloc, &told, parts, tally, capacity, named)?;
    Ok(Ended::Judged(verdicts))
}

fn refused_of<J: JournalName>(
    alloc: Global,
    clients: &[ClientOutcome<J, Vec<Sealed>>],
) -> Result<Vec<RefusedClient>, AllocError>
    ensures { IfOk result (λ refused. refused.items ≡ [] → All (λ c. IsNone c.refusal) clients.now) }
{
    let mut refused = Vec::new(alloc);
    for place in 0..clients.len() {
        note_refused(
            &mut refused,
            place.saturating_add(1),
            clients[place].refusal,
        )?;
    }
    Ok(refused)
}

/// Adds a client that was refused something.
fn note_refused(
    refused: &mut Vec<RefusedClient>,
    number: usize,
    refusal: Option<JournalError>,
) -> Result<(), AllocError>
    ensures { OnOk result (refused.new.items ≡ [] → (refused.old.items ≡ []) × IsNone refusal) }
{
    if let Some(why) = refusal {
        refused.push(RefusedClient { number, why })?;
    }
    Ok(())
}

/// The verdicts on the journal's answers to its clients, on the tally after they ended, and on the journal's parts.
fn verdicts_of(
    alloc: Global,
    told: &[Vec<ToldHandle>],
    parts: Parts<MemDevice, Vec<Sealed>>,
    tally: Tally,
    capacity: u64,
    named: &NamedBlocks,
) -> Result<Verdicts, JournalError>
    ensures { IfOk result (AreVerdicts (record {
      clients = told.now;
      word = tally.word;
      entries = tally.entries;
      capacity = capacity;
      sealed = parts.sealed.items;
      committed = parts.committed;
      device = parts.device;
    }) named.now) }
{
    let receipts = receipts_stand(told, committed_of(&parts.sealed, parts.committed));
    let record = RunRecord {
        sealed: parts.sealed,
        acknowledged: greatest_receipt(told),
    };
    let recovery = recovers(alloc, parts.device, &record, named)?;
    Ok(Verdicts {
        credits: credits_are_right(tally.word, tally.entries, capacity),
        receipts,
        order: never_fall(told),
        recovery,
    })
}

/// The first `committed` of these transactions.
fn committed_of(sealed: &[Sealed], committed: u64) -> &[Sealed]
    ensures { result.now ≡ take committed sealed.now }
{
    if committed < sealed.len() as u64 {
        &sealed[..committed as usize]
    } else {
        sealed
    }
}
