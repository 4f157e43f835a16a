//! A flush has what other sessions stopped committed, though these never wait. The flushing session has no handle, or had one before.
ghost use Rattle.std.specs.Prelude.{◌≡◌};

use super::LOG_BLOCKS;
use super::gates::comes_to;
use crate::expected::expect;
use block_device::{Device, MemDevice};
use journal_model::{Area, BlockNo, JournalError, Status, Tid};
use shared_journal::{JournalName, Record, SharedTicket, UnnamedJournal};
use std::alloc::{AllocError, Global};
use std::marker::Brand;
use std::sync::Wait;
use std::sync::atomic::{AtomicU64, Ordering};
use std::test::Fail;
use std::thread::Threads;
use test_logs::{BLOCK_SIZE, formatted, opened};
use thread_tests::journals::unnamed_on;
use volume_service::{Client, Gate, NoInterval, OpenGate, Session, serve_clients};

/// In each round handles stop, and then another session flushes. Round n writes the byte n.
const ROUNDS: u8 = 3;

/// The block that the flushing session writes.
const OWN: u64 = 40;

/// How far the rounds are.
#[derive(Drop)]
struct Rounds {
    /// Rounds in which handles may be started.
    begun: AtomicU64,
    /// How often a client has stopped its handles.
    stopped: AtomicU64,
    /// Rounds with a flush.
    flushed: AtomicU64,
}

/// What a client does in each round.
#[derive(Clone, Copy, Debug)]
enum ClientRole {
    /// Stops a handle for each of so many blocks, from this one on, and waits for none.
    Stops { first: u64, blocks: u64 },
    /// Flushes once so many clients have stopped their handles. Before these start them it may have a handle of its own committed.
    Flushes { clients: u64, has_own: bool },
}

/// A client with its part in the rounds.
#[derive(Drop)]
struct Player<'a> {
    alloc: Global,
    part: ClientRole,
    rounds: &'a Rounds,
}

/// A client's answer: its last transaction or what its last flush answered, and in how many rounds all was as it should be.
type Told = Result<(Tid, u64), JournalError>;

impl<J: JournalName, D: Device, R: Record, G: Gate> Client<J, D, R, G> for Player<'_> {
    type Answer = Told;

    fn run<W: Wait>(self, rt: &W, session: &mut Session<'_, J, D, R, G>) -> Told
        ensures { Unit {0} }
    {
        match self.part {
            ClientRole::Stops { first, blocks } => self.stop_each(rt, session, first, blocks),
            ClientRole::Flushes { clients, has_own } => self.flush_each(
                rt, session, clients, has_own,
            ),
        }
    }
}

impl Player<'_> {
    /// Counts the rounds whose flush had all of its handles committed.
    fn stop_each<J: JournalName, D: Device, R: Record, G: Gate, W: Wait>(
        &self,
        rt: &W,
        session: &mut Session<'_, J, D, R, G>,
        first: u64,
        blocks: u64,
    ) -> Told {
        let mut told = (Tid(0), 0u64);
        for round in 1..=ROUNDS {
            if !comes_to(&self.rounds.begun, u64::from(round)) {
                return Ok(told);
            }
            let tickets = self.stop_some(rt, session, (first, blocks), round)?;
            self.rounds.stopped.fetch_add(1, Ordering::SeqCst);
            let is_flushed = comes_to(&self.rounds.flushed, u64::from(round));
            if is_flushed && are_committed(session, &tickets) {
                told.1 = told.1.saturating_add(1);
            }
            if let Some(ticket) = tickets.last() {
                told.0 = ticket.tid();
            }
        }
        Ok(told)
    }

    /// Stops a handle for each of so many blocks, from one on.
    fn stop_some<J: JournalName, D: Device, R: Record, G: Gate, W: Wait>(
        &self,
        rt: &W,
        session: &mut Session<'_, J, D, R, G>,
        blocks: (u64, u64),
        byte: u8,
    ) -> Result<Vec<SharedTicket<J, R>>, JournalError> {
        let mut tickets = Vec::new(self.alloc);
        for n in 0..blocks.1 {
            let ticket = self.stop_one(rt, session, blocks.0.saturating_add(n), byte)?;
            if tickets.push(ticket).is_err() {
                return Err(JournalError::Memory);
            }
        }
        Ok(tickets)
    }

    fn stop_one<J: JournalName, D: Device, R: Record, G: Gate, W: Wait>(
        &self,
        rt: &W,
        session: &mut Session<'_, J, D, R, G>,
        block: u64,
        byte: u8,
    ) -> Result<SharedTicket<J, R>, JournalError> {
        let bytes = vec![in self.alloc; byte; BLOCK_SIZE]?;
        let mut handle = session.start(rt, 1)?;
        let wrote = session.write(rt, &mut handle, BlockNo(block), &bytes);
        let ticket = session.stop(rt, handle);
        wrote?;
        Ok(ticket)
    }

    /// Counts the rounds whose flush came after all handles had stopped.
    fn flush_each<J: JournalName, D: Device, R: Record, G: Gate, W: Wait>(
        &self,
        rt: &W,
        session: &mut Session<'_, J, D, R, G>,
        clients: u64,
        has_own: bool,
    ) -> Told {
        let mut told = (Tid(0), 0u64);
        for round in 1..=ROUNDS {
            if has_own {
                let _ticket = self.stop_one(rt, session, OWN, round)?;
                session.flush(rt)?;
            }
            self.rounds.begun.store(u64::from(round), Ordering::SeqCst);
            let all = clients.saturating_mul(u64::from(round));
            if comes_to(&self.rounds.stopped, all) {
                told.1 = told.1.saturating_add(1);
            }
            told.0 = session.flush(rt)?;
            self.rounds
                .flushed
                .store(u64::from(round), Ordering::SeqCst);
        }
        Ok(told)
    }
}

/// Whether the transactions of all tickets are committed.
fn are_committed<J: JournalName, D: Device, R: Record, G: Gate>(
    session: &mut Session<'_, J, D, R, G>,
    tickets: &[SharedTicket<J, R>],
) -> bool {
    let mut all = true;
    for ticket in tickets {
        all = session.status(ticket) == Status::Committed && all;
    }
    all
}

/// Whether each of so many home blocks, from the first on, has the last round's byte.
fn has_all(device: &mut MemDevice, blocks: u64) -> bool {
    for block in 0..blocks {
        if !is_last(device, block) {
            return false;
        }
    }
    true
}

fn is_last(device: &mut MemDevice, block: u64) -> bool {
    let mut bytes = [0; 1024];
    if device.block_size() != 1024
        || device.blocks(Area::Home) <= block
        || device.read(Area::Home, block, &mut bytes).is_err()
    {
        return false;
    }
    bytes == [ROUNDS; 1024]
}

/// Runs clients, and crashes the device, which nobody has closed. Returns the answers, and whether an opening then finds the last round's
/// bytes in so many blocks.
fn play<J: JournalName + Send + Sync, R: Threads + Wait + Sync>(
    rt: &R,
    alloc: Global,
    unnamed: UnnamedJournal<MemDevice>,
    players: Vec<Player<'_>>,
    blocks: u64,
) -> Result<(Vec<Told>, bool), JournalError>
    requires name { unnamed.name ≡ J.name }
{
    let (journal, seat) = unnamed.named::<J>();
    let served = serve_clients(rt, alloc, &journal, seat, players, &OpenGate, &NoInterval);
    let parts = journal.into_single().into_parts();
    let mut device = opened(alloc, parts.device.crash(&[]))?.into_device();
    Ok((served?.answers, has_all(&mut device, blocks)))
}

fn players<'a>(
    alloc: Global,
    parts: &[ClientRole],
    rounds: &'a Rounds,
) -> Result<Vec<Player<'a>>, AllocError> {
    let mut players = Vec::new(alloc);
    for part in parts {
        players.push(Player {
            alloc,
            part: *part,
            rounds,
        })?;
    }
    Ok(players)
}

/// The same over a new log in memory.
fn run<R: Threads + Wait + Sync>(
    rt: &R,
    alloc: Global,
    parts: &[ClientRole],
    blocks: u64,
) -> Result<(Vec<Told>, bool), JournalError> {
    let rounds = Rounds {
        begun: AtomicU64::new(0),
        stopped: AtomicU64::new(0),
        flushed: AtomicU64::new(0),
    };
    let players = players(alloc, parts, &rounds)?;
    let unnamed = unnamed_on(alloc, formatted(alloc, LOG_BLOCKS, 64)?)?;
    play::<Brand, _>(rt, alloc, unnamed, players, blocks)
}

/// What each of so many clients answers, if a round's handles are all of its last transaction.
fn expected(alloc: Global, clients: usize, last: u32) -> Result<Vec<Told>, AllocError> {
    let mut all = Vec::new(alloc);
    for _ in 0..clients {
        all.push(Ok((Tid(last), u64::from(ROUNDS))))?;
    }
    Ok(all)
}

/// Half of the credits would have the worker commit by itself: these are fewer.
#[test]
fn a_flush_without_handles_covers_those_of_another(rt: HostRuntime) -> Result<(), Fail> {
    let parts = [
        ClientRole::Stops {
            first: 0,
            blocks: 2,
        },
        ClientRole::Flushes {
            clients: 1,
            has_own: false,
        },
    ];
    let told = run(&rt, rt.alloc(), &parts, 2);
    expect(&rt, &told, &Ok((expected(rt.alloc(), 2, 4)?, true)));
    Ok(())
}

/// The flushing session's own handle is committed before the other's starts, so a flush of its own alone would wait for nothing.
#[test]
fn a_flush_covers_handles_later_than_its_own(rt: HostRuntime) -> Result<(), Fail> {
    let parts = [
        ClientRole::Flushes {
            clients: 1,
            has_own: true,
        },
        ClientRole::Stops {
            first: 0,
            blocks: 1,
        },
    ];
    let told = run(&rt, rt.alloc(), &parts, 1);
    expect(&rt, &told, &Ok((expected(rt.alloc(), 2, 7)?, true)));
    Ok(())
}

#[test]
fn a_flush_covers_several_sessions(rt: HostRuntime) -> Result<(), Fail> {
    let parts = [
        ClientRole::Stops {
            first: 0,
            blocks: 1,
        },
        ClientRole::Flushes {
            clients: 2,
            has_own: false,
        },
        ClientRole::Stops {
            first: 1,
            blocks: 1,
        },
    ];
    let told = run(&rt, rt.alloc(), &parts, 2);
    expect(&rt, &told, &Ok((expected(rt.alloc(), 3, 4)?, true)));
    Ok(())
}

fn has_all_rounds(told: &Told) -> bool {
    match told {
        Ok((_, rounds)) => *rounds == u64::from(ROUNDS),
        Err(_) => false,
    }
}

/// More handles than one transaction has credits for: the worker commits some of them, and the flush the rest.
#[test]
fn a_flush_covers_handles_of_several_transactions(rt: HostRuntime) -> Result<(), Fail> {
    let parts = [
        ClientRole::Stops {
            first: 0,
            blocks: 8,
        },
        ClientRole::Flushes {
            clients: 1,
            has_own: true,
        },
    ];
    let Ok((told, is_found)) = run(&rt, rt.alloc(), &parts, 8) else {
        return Err("the clients are not run".into());
    };
    expect(&rt, &told.iter().all(|one| has_all_rounds(one)), &true);
    expect(&rt, &is_found, &true);
    Ok(())
}
