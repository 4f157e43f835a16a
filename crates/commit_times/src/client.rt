//! A client: it makes one durable change after another through its session.
ghost use Rattle.std.specs.Prelude.{◌≤◌, IfOk};

use crate::bench::Times;
use crate::work::BenchPlan;
use block_device::Device;
use jbench_words::fault::Fault;
use jbench_words::numbers::LAST_TAKEN;
use jbench_words::watch::{Watch, WatchStep};
use jbench_words::words::BenchWords;
use journal_model::{JournalError, Tid};
use shared_journal::{JournalName, Record, SharedHandle, SharedReceipt, SharedTicket};
use std::alloc::Global;
use std::sync::atomic::{AtomicU64, Ordering};
use std::sync::{Mutex, Wait};
use std::time::{Clock, Duration, Instant};
use volume_service::{Client, Gate, Session};

/// What all clients share.
#[derive(Drop)]
pub(crate) struct SharedState<'s, C, H> {
    /// The clock that all clients read.
    clock: &'s C,
    /// When the work began.
    begun: Instant,
    /// The most transactions of all clients.
    most: u64,
    /// After this time no transaction begins, if it is given.
    most_time: Option<Duration>,
    /// A client that has joined a later transaction than this begins no other. Once the first has, each of the others may join once more,
    /// and each time the number rises by one at most. So the last one is still one that a later opening takes.
    last: Tid,
    /// How many transactions were begun, or refused since there were enough.
    started: AtomicU64,
    /// How many are durable.
    durable: AtomicU64,
    /// 1 once a client has ended, or could not be started: the others end too.
    ended: AtomicU64,
    /// Who learns the progress.
    told: Mutex<ToldProgress<H>>,
}

/// Who learns the progress, and how many seconds it knows of.
#[derive(Drop)]
struct ToldProgress<H> {
    watch: H,
    seconds: u64,
}

impl<'s, C, H> SharedState<'s, C, H> {
    /// The shared part of so many clients that begin now.
    pub(crate) fn new(
        clock: &'s C,
        words: &BenchWords<'_>,
        clients: u32,
        begun: Instant,
        watch: H,
    ) -> Self {
        SharedState {
            clock,
            begun,
            most: words.most_transactions(),
            most_time: words.most_time(),
            last: Tid(LAST_TAKEN.saturating_sub(clients)),
            started: AtomicU64::new(0),
            durable: AtomicU64::new(0),
            ended: AtomicU64::new(0),
            told: Mutex::new(ToldProgress { watch, seconds: 0 }),
        }
    }
}

impl<C, H: Watch> SharedState<'_, C, H> {
    /// Tells that a second is over, unless another client has, or does it now: none waits for a slow terminal.
    fn tell(&self, second: u64) {
        if let Some(mut told) = self.told.try_lock() {
            told.tell(second, self.durable.load(Ordering::SeqCst));
        }
    }
}

impl<H: Watch> ToldProgress<H> {
    /// Tells that a second is over, unless it is known.
    fn tell(&mut self, second: u64, transactions: u64) {
        if self.seconds < second {
            self.seconds = second;
            self.watch.goes_on(WatchStep::Second {
                second,
                transactions,
            });
        }
    }
}

/// Ends all clients when it is dropped.
struct EndGuard<'s> {
    ended: &'s AtomicU64,
}

impl Drop for EndGuard<'_> {
    fn drop(self) {
        let EndGuard { ended } = self;
        ended.store(1, Ordering::SeqCst);
    }
}

/// A client's own state: its plan and its results.
#[derive(Drop)]
pub(crate) struct Changer<'s, C, H> {
    /// What all clients share.
    shared: &'s SharedState<'s, C, H>,
    /// Dropped with the client: when it ends for whatever cause, or if it can't be started.
    ending: EndGuard<'s>,
    /// The blocks that each of its changes writes.
    plan: BenchPlan,
    /// The bytes of the block that it wrote last.
    bytes: Vec<u8>,
    /// The last transaction that it joined; before that, that anybody did.
    joined: Tid,
    /// What it has done.
    done: Times,
}

impl<'s, J: JournalName, D: Device, R: Record, G: Gate, C: Clock, H: Watch> Client<J, D, R, G>
    for Changer<'s, C, H> {
    type Answer = Result<Times, Fault>;

    /// Makes durable changes until there are enough, the time is over, or another client has ended.
    ///
    /// # Errors
    ///
    /// The clock can't be read; memory ran out; `SequenceEnd`; those of a start, a write and a wait of the session. No handle is left open,
    /// and the other clients end too.
    fn run<W: Wait>(self, rt: &W, session: &mut Session<'_, J, D, R, G>) -> Result<Times, Fault>
        ensures { Unit {0} }
    {
        let mut client = self;
        client.joined = session.last_joined(rt);
        for _ in rt.forever() {
            if client.is_over() {
                break;
            }
            client.one_more(rt, session)?;
        }
        Ok(client.into_done())
    }
}

impl<'s, C: Clock, H: Watch> Changer<'s, C, H> {
    /// A client with this plan.
    pub(crate) fn new(alloc: Global, shared: &'s SharedState<'s, C, H>, plan: BenchPlan) -> Self {
        Changer {
            shared,
            ending: EndGuard {
                ended: &shared.ended,
            },
            plan,
            bytes: Vec::new(alloc),
            joined: Tid(0),
            done: Times::new(alloc),
        }
    }

    fn into_done(self) -> Times {
        let Changer {
            shared: _,
            ending: _,
            plan: _,
            bytes: _,
            joined: _,
            done,
        } = self;
        done
    }

    /// Whether it must begin no other transaction; if it may, one is counted as begun.
    fn is_over(&self) -> bool {
        let late = self
            .shared
            .most_time
            .is_some_and(|most| self.done.taken >= most);
        late || self.shared.ended.load(Ordering::SeqCst) != 0
            || self.shared.started.fetch_add(1, Ordering::SeqCst) >= self.shared.most
    }

    /// Makes a durable change, times its commit, and tells of a second that is over.
    fn one_more<J: JournalName, D: Device, R: Record, G: Gate, W: Wait>(
        &mut self,
        rt: &W,
        session: &mut Session<'_, J, D, R, G>,
    ) -> Result<(), Fault> {
        let before = self.done.taken.as_secs();
        self.timed(rt, session)?;
        self.shared.durable.fetch_add(1, Ordering::SeqCst);
        let second = self.done.taken.as_secs();
        if second > before {
            self.shared.tell(second);
        }
        Ok(())
    }

    fn timed<J: JournalName, D: Device, R: Record, G: Gate, W: Wait>(
        &mut self,
        rt: &W,
        session: &mut Session<'_, J, D, R, G>,
    ) -> Result<SharedReceipt<J, R>, Fault>
        ensures { IfOk result (λ receipt. receipt.ticket.tid ≤ receipt.ticket.seen) }
    {
        let ticket = self.change(rt, session)?;
        let asked = now(self.shared.clock)?;
        let receipt = match session.wait(rt, ticket) {
            Ok(receipt) => receipt,
            Err((_, e)) => return Err(Fault::from(e)),
        };
        self.note(&receipt, asked, now(self.shared.clock)?)?;
        Ok(receipt)
    }

    /// Notes a commit by its receipt, and the times of its request and its end.
    fn note<J: JournalName, R: Record>(
        &mut self,
        receipt: &SharedReceipt<J, R>,
        asked: Instant,
        committed: Instant,
    ) -> Result<(), Fault>
        requires { receipt.now.ticket.tid ≤ receipt.now.ticket.seen }
    {
        self.joined = receipt.tid();
        self.done.tally.add(committed.duration_since(asked))?;
        self.done.taken = committed.duration_since(self.shared.begun);
        Ok(())
    }

    /// Writes the next transaction's blocks through one handle, and stops that, also after a refusal.
    fn change<J: JournalName, D: Device, R: Record, G: Gate, W: Wait>(
        &mut self,
        rt: &W,
        session: &mut Session<'_, J, D, R, G>,
    ) -> Result<SharedTicket<J, R>, JournalError> {
        let last = self.shared.last;
        if last.0 < self.joined.0 {
            return Err(JournalError::SequenceEnd);
        }
        let mut handle = session.start(rt, self.plan.copies())?;
        let written = self.write_all(rt, session, &mut handle);
        let ticket = session.stop(rt, handle);
        written?;
        Ok(ticket)
    }

    fn write_all<'j, J: JournalName, D: Device, R: Record, G: Gate, W: Wait>(
        &mut self,
        rt: &W,
        session: &Session<'j, J, D, R, G>,
        handle: &mut SharedHandle<'j, J, R>,
    ) -> Result<(), JournalError> {
        for number in 0..self.plan.copies() {
            let (block, fill) = self.plan.draw(number);
            self.bytes.resize(session.block_size(), 0)?;
            self.bytes.fill(fill);
            session.write(rt, handle, block, &self.bytes)?;
        }
        Ok(())
    }
}

/// The time of the clock, from its own start.
pub(crate) fn now<C: Clock>(clock: &C) -> Result<Instant, Fault> {
    Instant::now(clock).map_err(Fault::of_clock)
}
