//! The workers, which do what nobody waits for: one commits what is half full, one makes checkpoint rounds, and one may commit what was
//! stopped an interval ago. Each has `Turns` alone, so none starts a handle or makes a write.
use crate::interval::Interval;
use block_device::Device;
use crossbeam_channel::{Receiver, Sender};
use journal_model::JournalError;
use shared_journal::{JournalName, Record, Turns};
use std::alloc::AllocError;
use std::sync::Wait;

/// Wakes the commit worker: the running transaction may be half full.
#[derive(Clone, Copy, Debug, Drop)]
pub(crate) struct Kick;

/// Wakes the checkpoint worker: a round may be due.
#[derive(Clone, Copy, Debug, Drop)]
pub(crate) struct Round;

/// Wakes the interval's worker: a handle was stopped.
#[derive(Clone, Copy, Debug, Drop)]
pub(crate) struct Stop;

/// Says nothing; each session has a sender of it as long as it lasts.
#[derive(Clone, Copy, Debug, Drop)]
pub(crate) struct Lasts;

/// A session's ends of the channels to the workers. The workers exit once no session is left.
#[derive(Drop)]
pub(crate) struct Wakes {
    kicks: Sender<Kick>,
    stops: Sender<Stop>,
    lasts: Sender<Lasts>,
    /// Whether the interval's worker is there.
    has_interval: bool,
}

impl Wakes {
    pub(crate) fn new(
        kicks: Sender<Kick>,
        stops: Sender<Stop>,
        lasts: Sender<Lasts>,
        has_interval: bool,
    ) -> Self {
        Wakes {
            kicks,
            stops,
            lasts,
            has_interval,
        }
    }

    /// Those of one more session.
    pub(crate) fn another(&self) -> Result<Self, AllocError> {
        Ok(Wakes {
            kicks: self.kicks.clone()?,
            stops: self.stops.clone()?,
            lasts: self.lasts.clone()?,
            has_interval: self.has_interval,
        })
    }

    /// Says that a handle was stopped, and whether the running transaction is half full. It waits for nobody.
    pub(crate) fn note_stop<W: Wait>(&self, rt: &W, is_half_full: bool) {
        if is_half_full {
            let _pending = self.kicks.try_send(rt, Kick);
        }
        if self.has_interval {
            let _pending = self.stops.try_send(rt, Stop);
        }
    }
}

/// The worker that commits what was stopped an interval ago.
#[derive(Drop)]
pub(crate) struct IntervalWorker<'s, J: JournalName, D: Device, R: Record, V> {
    turns: Turns<'s, J, D, R>,
    interval: &'s V,
    /// Some handle was stopped.
    stops: Receiver<Stop>,
    /// Nobody can send any more once no session is left.
    lasts: Receiver<Lasts>,
    /// Wakes the checkpoint worker.
    rounds: Sender<Round>,
}

impl<'s, J: JournalName, D: Device, R: Record, V: Interval> IntervalWorker<'s, J, D, R, V> {
    pub(crate) fn new(
        turns: Turns<'s, J, D, R>,
        interval: &'s V,
        stops: Receiver<Stop>,
        lasts: Receiver<Lasts>,
        rounds: Sender<Round>,
    ) -> Self {
        IntervalWorker {
            turns,
            interval,
            stops,
            lasts,
            rounds,
        }
    }

    /// Commits an interval after the first stop since the last time, until no session is left. It sleeps while no handle is stopped. A
    /// refused commit is tried again after the next stop. It returns the last refusal.
    pub(crate) fn run<W: Wait>(self, rt: &W) -> Option<JournalError> {
        let mut refusal = None;
        for _ in rt.forever() {
            let Ok(Stop) = self.stops.recv(rt) else {
                break;
            };
            self.interval.pass(&self.lasts);
            match self.turns.commit_joined(rt) {
                Ok(true) => {
                    let _pending = self.rounds.try_send(rt, Round);
                }
                Ok(false) => {}
                Err(e) => refusal = Some(e),
            }
        }
        refusal
    }
}

/// The worker that commits transactions whose entries hold half of the credits, before anybody is refused.
#[derive(Drop)]
pub(crate) struct CommitWorker<'s, J: JournalName, D: Device, R: Record> {
    turns: Turns<'s, J, D, R>,
    /// The channel that wakes it.
    kicks: Receiver<Kick>,
    /// Wakes the checkpoint worker.
    rounds: Sender<Round>,
}

impl<'s, J: JournalName, D: Device, R: Record> CommitWorker<'s, J, D, R> {
    /// A worker that `kicks` wakes, and that wakes the checkpoint worker by `rounds`.
    pub(crate) fn new(
        turns: Turns<'s, J, D, R>,
        kicks: Receiver<Kick>,
        rounds: Sender<Round>,
    ) -> Self {
        CommitWorker {
            turns,
            kicks,
            rounds,
        }
    }

    /// Looks at each kick, until nobody is left to send one. It returns the last refusal.
    pub(crate) fn run<W: Wait>(self, rt: &W) -> Option<JournalError> {
        let mut refusal = None;
        for _ in rt.forever() {
            let Ok(Kick) = self.kicks.recv(rt) else {
                break;
            };
            match self.turns.commit_half_full(rt) {
                Ok(true) => {
                    let _pending = self.rounds.try_send(rt, Round);
                }
                Ok(false) => {}
                Err(e) => refusal = Some(e),
            }
        }
        refusal
    }
}

/// The worker that makes checkpoint rounds after the commits of the other.
#[derive(Drop)]
pub(crate) struct CheckpointWorker<'s, J: JournalName, D: Device, R: Record> {
    turns: Turns<'s, J, D, R>,
    /// The channel that wakes it.
    rounds: Receiver<Round>,
}

impl<'s, J: JournalName, D: Device, R: Record> CheckpointWorker<'s, J, D, R> {
    /// A worker that `rounds` wakes.
    pub(crate) fn new(turns: Turns<'s, J, D, R>, rounds: Receiver<Round>) -> Self {
        CheckpointWorker { turns, rounds }
    }

    /// Makes the due part of a round at each wake, until nobody is left to wake it. It returns the last refusal.
    pub(crate) fn run<W: Wait>(self, rt: &W) -> Option<JournalError> {
        let mut refusal = None;
        for _ in rt.forever() {
            let Ok(Round) = self.rounds.recv(rt) else {
                break;
            };
            if let Err(e) = self.turns.make_round(rt) {
                refusal = Some(e);
            }
        }
        refusal
    }
}
