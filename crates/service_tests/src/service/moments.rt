//! A client that comes while another thread leads. That one is held at each of its device calls in turn, until the client has come; then it
//! goes on, or fails.
ghost use Rattle.std.specs.Prelude.{◌≡◌};

use super::gates::{LOOKS, comes_to, pause};
use super::{LOG_BLOCKS, opened_left, serve_all, stop_one};
use crate::expected::expect;
use crate::late::fail_if_late;
use block_device::{Device, FailOnce, MemDevice};
use journal_model::{JournalError, Status, Tid};
use shared_journal::{JournalName, Record, SharedTicket, UnnamedJournal};
use std::alloc::{AllocError, Global};
use std::marker::Brand;
use std::sync::Wait;
use std::sync::atomic::{AtomicU64, Ordering};
use std::test::Fail;
use std::thread::{self, Threads};
use test_logs::formatted;
use thread_tests::journals::unnamed_on;
use volume_service::{Client, Gate, HeldDevice, Point, Session};

/// Commits that the first client waits for before it leads one that may be held. They take half of the ring, so that it makes a part of a
/// round first.
const WAITED: u32 = 6;

/// Commits by the worker before one that may be held. After that one, and not before, half of the ring is taken.
const WORKED: u32 = 3;

/// Device calls that are held in turn. A part of a round and a commit have nine, a commit by the worker and a round after it 13.
const CALLS: u64 = 13;

/// Who leads, and what the second client needs.
#[derive(Clone, Copy, Debug)]
struct Scene {
    /// The workers lead: one commits handles that hold half of the credits, and the other makes a round. If not, the first client leads.
    has_workers: bool,
    /// The second client can't start a handle before a commit. If not, it waits for one of a handle that has stopped.
    starts: bool,
}

/// One run: which device call is held, and how far all are.
#[derive(Drop)]
struct Moments {
    scene: Scene,
    /// The held call, counted from 1; 0 is none.
    held: u64,
    /// Device calls so far.
    calls: AtomicU64,
    /// How many of them come before those of the leader.
    before: AtomicU64,
    /// The last transaction that was committed by then.
    safe: AtomicU64,
    /// 1 once the leader is held, or has ended.
    reached: AtomicU64,
    /// 1 once the second client has come.
    come: AtomicU64,
    /// 1 if it did not come.
    given_up: AtomicU64,
}

impl Moments {
    fn new(scene: Scene, held: u64) -> Moments {
        Moments {
            scene,
            held,
            calls: AtomicU64::new(0),
            before: AtomicU64::new(0),
            safe: AtomicU64::new(0),
            reached: AtomicU64::new(0),
            come: AtomicU64::new(0),
            given_up: AtomicU64::new(0),
        }
    }

    /// Whether the held call was made.
    fn is_made(&self) -> bool {
        self.calls.load(Ordering::SeqCst) >= self.held
    }
}

impl Gate for Moments {
    fn pass(&self, _point: Point) {
        if self.calls.fetch_add(1, Ordering::SeqCst).saturating_add(1) != self.held {
            return;
        }
        self.reached.store(1, Ordering::SeqCst);
        if !comes_to(&self.come, 1) {
            self.given_up.store(1, Ordering::SeqCst);
        }
        pause();
    }
}

/// A client. Both know by their numbers what to do.
#[derive(Drop)]
struct Comer<'a> {
    alloc: Global,
    moments: &'a Moments,
}

/// The transaction of a client's receipt.
type Told = Result<Tid, JournalError>;

impl<J: JournalName, D: Device, R: Record, G: Gate> Client<J, D, R, G> for Comer<'_> {
    type Answer = Told;

    fn run<W: Wait>(self, rt: &W, session: &mut Session<'_, J, D, R, G>) -> Told
        ensures { Unit {0} }
    {
        if session.number() == 0 {
            self.lead(rt, session)
        } else {
            self.come(rt, session)
        }
    }
}

impl Comer<'_> {
    /// The first client. It lets the second one come when a call is held, or at its own end.
    fn lead<J: JournalName, D: Device, R: Record, G: Gate, W: Wait>(
        &self,
        rt: &W,
        session: &mut Session<'_, J, D, R, G>,
    ) -> Told {
        let moments = self.moments;
        let commits = if moments.scene.has_workers {
            WORKED
        } else {
            WAITED
        };
        for _ in 0..commits {
            let tid = self.commit_some(rt, session)?;
            moments.safe.store(u64::from(tid.0), Ordering::SeqCst);
        }
        let calls = moments.calls.load(Ordering::SeqCst);
        moments.before.store(calls, Ordering::SeqCst);
        let led = self.commit_some(rt, session);
        if moments.scene.has_workers && moments.held != 0 {
            comes_to(&moments.reached, 1);
        }
        moments.reached.store(1, Ordering::SeqCst);
        led
    }

    /// Waits for the commit of a handle; or stops handles for half of the credits, and waits for these once the worker is held or has
    /// committed them.
    fn commit_some<J: JournalName, D: Device, R: Record, G: Gate, W: Wait>(
        &self,
        rt: &W,
        session: &mut Session<'_, J, D, R, G>,
    ) -> Told {
        let mut ticket = stop_one(rt, self.alloc, session, 1, 3, 7)?;
        if self.moments.scene.has_workers {
            stop_one(rt, self.alloc, session, 1, 4, 7)?;
            ticket = stop_one(rt, self.alloc, session, 1, 5, 7)?;
            self.let_work(session, &ticket);
        }
        receipt_of(rt, session, ticket)
    }

    /// Looks until a worker is held, or has committed a ticket's transaction.
    fn let_work<J: JournalName, D: Device, R: Record, G: Gate>(
        &self,
        session: &mut Session<'_, J, D, R, G>,
        ticket: &SharedTicket<J, R>,
    ) {
        for _ in 0..LOOKS {
            if self.moments.reached.load(Ordering::SeqCst) != 0
                || session.status(ticket) == Status::Committed
            {
                return;
            }
            thread::yield_now();
        }
    }

    /// The second client. Up to its coming no call of it waits for the device.
    fn come<J: JournalName, D: Device, R: Record, G: Gate, W: Wait>(
        &self,
        rt: &W,
        session: &mut Session<'_, J, D, R, G>,
    ) -> Told {
        if !comes_to(&self.moments.reached, 1) {
            return Err(JournalError::NotRunning);
        }
        let mut ticket = stop_one(rt, self.alloc, session, 1, 8, 8)?;
        self.moments.come.store(1, Ordering::SeqCst);
        if self.moments.scene.starts {
            let credits = session.capacity();
            ticket = stop_one(rt, self.alloc, session, credits, 9, 9)?;
        }
        receipt_of(rt, session, ticket)
    }
}

/// Waits for a ticket's receipt.
fn receipt_of<J: JournalName, D: Device, R: Record, G: Gate, W: Wait>(
    rt: &W,
    session: &mut Session<'_, J, D, R, G>,
    ticket: SharedTicket<J, R>,
) -> Told {
    match session.wait(rt, ticket) {
        Ok(receipt) => Ok(receipt.tid()),
        Err((_ticket, e)) => Err(e),
    }
}

/// Both clients.
fn both(alloc: Global, moments: &Moments) -> Result<Vec<Comer<'_>>, AllocError> {
    let mut clients = Vec::new(alloc);
    clients.push(Comer { alloc, moments })?;
    clients.push(Comer { alloc, moments })?;
    Ok(clients)
}

/// The device that is held, and may fail.
type Held<'m> = HeldDevice<FailOnce<MemDevice>, &'m Moments>;

/// Runs both over a journal of this name.
fn serve<'m, J: JournalName + Send + Sync, R: Threads + Wait + Sync>(
    rt: &R,
    alloc: Global,
    unnamed: UnnamedJournal<Held<'m>>,
    clients: Vec<Comer<'m>>,
) -> Result<(Vec<Told>, Held<'m>), JournalError>
    requires name { unnamed.name ≡ J.name }
{
    serve_all::<J, _, _, _>(rt, alloc, unnamed, clients)
}

/// Runs both over a new log, on a device of which the call `fails` fails; 0 is none. Returns their answers, and the number after the last
/// transaction that the crash image opens to.
fn run<R: Threads + Wait + Sync>(
    rt: &R,
    alloc: Global,
    moments: &Moments,
    fails: u64,
) -> Result<(Vec<Told>, u64), JournalError> {
    let clients = both(alloc, moments)?;
    let device = FailOnce::new(formatted(alloc, LOG_BLOCKS, 64)?, fails);
    let unnamed = unnamed_on(alloc, HeldDevice::new(device, moments))?;
    let (told, device) = serve::<Brand, _>(rt, alloc, unnamed, clients)?;
    let device: MemDevice = device.into_inner().into_inner();
    Ok((told, opened_left(alloc, device.crash(&[]))?))
}

/// Whether the second client came, both have what they should, and the crash image opens to all receipts. If a call failed, the second has
/// no receipt: it came before, or leads the commit that failed.
fn ends_well(moments: &Moments, told: &[Told], left: u64, has_failed: bool) -> bool {
    let (Some(led), Some(came)) = (told.first(), told.last()) else {
        return false;
    };
    let mut safe = moments.safe.load(Ordering::SeqCst);
    for one in told {
        if let Ok(tid) = one {
            safe = safe.max(u64::from(tid.0));
        }
    }
    let is_right = match (led, came) {
        (Ok(_), Ok(_)) => !has_failed,
        (Ok(_) | Err(JournalError::Aborted), Err(JournalError::Aborted)) => has_failed,
        _ => false,
    };
    is_right && moments.given_up.load(Ordering::SeqCst) == 0 && left > safe
}

/// The first held call, counted from the leader's, at which a run does not end well, and whether that call also failed.
fn first_bad<R: Threads + Wait + Sync>(
    rt: &R,
    alloc: Global,
    scene: Scene,
) -> Result<Option<(u64, bool)>, JournalError> {
    let moments = Moments::new(scene, 0);
    let (told, left) = run(rt, alloc, &moments, 0)?;
    if !ends_well(&moments, &told, left, false) {
        return Ok(Some((0, false)));
    }
    let before = moments.before.load(Ordering::SeqCst);
    for call in 1..=CALLS {
        for fails in [false, true] {
            let held = before.saturating_add(call);
            let moments = Moments::new(scene, held);
            let (told, left) = run(rt, alloc, &moments, if fails { held } else { 0 })?;
            if !ends_well(&moments, &told, left, fails && moments.is_made()) {
                return Ok(Some((call, fails)));
            }
        }
    }
    Ok(None)
}

/// A leader that leaves, or fails, and tells nobody who waits for a commit, or nobody who can't start, leaves the second client asleep for
/// ever; so does a worker.
#[test]
fn a_client_comes_at_each_moment_of_a_lead(rt: HostRuntime) -> Result<(), Fail> {
    fail_if_late(rt)?;
    for has_workers in [false, true] {
        for starts in [false, true] {
            let scene = Scene {
                has_workers,
                starts,
            };
            expect(&rt, &first_bad(&rt, rt.alloc(), scene), &Ok(None));
        }
    }
    Ok(())
}
