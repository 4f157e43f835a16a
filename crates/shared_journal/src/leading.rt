//! Who takes the turns of a journal: a thread that waits for a commit, or for room to start, takes them for all that wait. It *leads* while
//! it holds the pace's lock. Nobody sleeps on that lock: who finds it taken sleeps on a count of events.
//!
//! No wake is lost. Each sleeper reads its count before it looks for what it waits for, and sleeps only while the count is the same.
//!
//! - Who waits for a commit behind a leader sleeps on `commits`. A leader that ends, refused or not, lets go of the lock and then notifies
//!   `commits`. So does whoever made a commit's last step, once the mark is raised.
//! - A leader that waits for stops sleeps on `changes`, which each stop and each device failure notifies.
//! - Who led and found nothing to commit sleeps on `changes`. If its transaction was committed after it looked at the mark, whoever made
//!   the last step notifies `changes` later still. If the transaction is yet to come, the stop of its handle does.
//! - Who can't start sleeps on `changes`, which returned credits, seals and failures notify. If the running transaction is locked, somebody
//!   has to lead. So before it tries to, it counts as a follower: the leader that it finds, or one before that, notifies `changes` once it
//!   has let go of the lock.
//!
//! A leader without followers doesn't notify `changes` when it ends: two that find nothing to commit would wake each other for ever.
ghost use Rattle.std.specs.Prelude.{◌≡◌, true, IfErr, IfOk};
ghost use Rattle.journal_model.specs.declared.refusal.JournalError.TheVariants.{Memory as OutOfMemory};
ghost use Rattle.shared_journal.specs.declared.leading.Led.TheVariants.{Committed as IsCommitted};
ghost use Rattle.shared_journal.specs.Turns.{CommittedThen, FailureKnownThen, IsFailure, LeadRefused, RoundRefusedThen, SealLackedMemoryThen};
ghost use Rattle.shared_journal.specs.Waiting.{NotAwaited};

use crate::turns::Turns;
use block_device::Device;
use group_commit::{CheckTurn, Record, Turn};
use handle::JournalName;
use journal_model::JournalError;
use std::sync::{MutexGuard, Wait};

/// For the leader alone: how many checkpoint turns are owed, and how many waits the next commit is for.
#[derive(Clone, Copy)]
pub(crate) struct Pace {
    /// How many checkpoint turns, while a round is due, come before the next commit: as many as the last one took.
    part: u64,
    /// How many waits had begun when a leader last locked a transaction.
    locked_at: u64,
    /// How many of these were for that transaction.
    group: u64,
    /// How many will have begun once each of that group waits again.
    awaited: u64,
}

impl Pace {
    pub(crate) fn new() -> Pace {
        Pace {
            part: 0,
            locked_at: 0,
            group: 0,
            awaited: 0,
        }
    }

    /// The running transaction is about to be locked, after this many waits have begun.
    fn lock(&mut self, arrivals: u64) {
        self.group = arrivals.saturating_sub(self.locked_at);
        self.locked_at = arrivals;
    }

    /// A transaction is committed, by this many turns, after this many waits have begun.
    fn commit(&mut self, turns: u64, arrivals: u64) {
        self.part = turns;
        self.awaited = arrivals.saturating_add(self.group);
    }

    /// The checkpoint turns owed, which then are no longer.
    fn take_part(&mut self) -> u64 {
        let part = self.part;
        self.part = 0;
        part
    }
}

/// What came of a try to lead.
#[derive(Clone, Copy)]
pub(crate) enum Led {
    /// Another thread leads.
    Busy,
    /// A transaction was committed.
    Committed,
    /// None was there to commit.
    Idle,
}

/// When a leader locks the running transaction.
#[derive(Clone, Copy)]
enum Locks {
    /// If a handle has joined it, once those that waited for the last commit wait again.
    Joined,
    /// If its entries hold half of the credits.
    HalfFull,
    /// Never.
    Never,
}

/// What was counted before a look at what a caller waits for.
#[derive(Clone, Copy)]
pub(crate) struct Seen {
    commits: u32,
    changes: u32,
}

impl<J: JournalName, D: Device, R: Record> Turns<'_, J, D, R> {
    /// What has been counted so far.
    pub(crate) fn count(&self) -> Seen {
        Seen {
            commits: self.commits().seen(),
            changes: self.changes().seen(),
        }
    }

    /// Commits for who waits for a commit; or sleeps until another thread has, or until there is something to commit.
    pub(crate) fn lead_or_wait<W: Wait>(&self, rt: &W, seen: Seen) -> Result<(), JournalError>
        ensures err { IfErr result (NotAwaited D) }
    {
        match self.lead(rt, Locks::Joined) {
            Ok(Led::Busy) => self.commits().wait(rt, seen.commits),
            Ok(Led::Committed) => {}
            Ok(Led::Idle) => self.changes().wait(rt, seen.changes),
            Err(JournalError::Memory) => return Err(JournalError::Memory),
            Err(_) => {
                if self.is_aborted(rt) {
                    return Err(JournalError::Aborted);
                }
            }
        }
        Ok(())
    }

    /// Commits for who can't start while the running transaction is locked; or sleeps until something has changed. It was locked after
    /// `changes` were counted. After a device failure it returns, as the next try meets that.
    #[tactic(auto, using(crate::proofs::LeadRefusals::lacked))]
    pub(crate) fn make_way<W: Wait>(&self, rt: &W, changes: u32) -> Result<(), JournalError>
        ensures err { IfErr result (λ e. SealLackedMemoryThen D × (e ≡ OutOfMemory)) }
    {
        self.follow();
        match self.lead(rt, Locks::Never) {
            Ok(Led::Busy | Led::Idle) => self.changes().wait(rt, changes),
            Ok(Led::Committed) => {}
            Err(JournalError::Memory) => return Err(JournalError::Memory),
            Err(_) => {}
        }
        Ok(())
    }

    /// Commits transactions as long as the running one holds half of the credits, or is locked and nobody leads: what nobody waits for. It
    /// returns whether it committed any. Where memory is short it ends too; who waits later is told.
    ///
    /// # Errors
    ///
    /// `Aborted`, `Device`.
    /// Source: this project's own; fs/jbd2/journal.c by behaviour (`kjournald2`).
    #[tactic(auto, using(crate::proofs::LeadRefusals::failed))]
    pub fn commit_half_full<W: Wait>(&self, rt: &W) -> Result<bool, JournalError>
        ensures ok { IfOk result (λ committed. committed ≡ true → CommittedThen D.state) }
        ensures err { IfErr result (λ e. IsFailure e × FailureKnownThen D) }
    {
        let mut committed = false;
        'leading: for _ in rt.forever() {
            let seen = self.commits().seen();
            match self.lead(rt, Locks::HalfFull) {
                Ok(Led::Busy) => {
                    if !self.is_half_full() {
                        break;
                    }
                    self.commits().wait(rt, seen);
                }
                Ok(Led::Committed) => committed = true,
                Ok(Led::Idle) => break,
                Err(e) => match e {
                    JournalError::Memory => break,
                    _ => return Err(e),
                },
            }
        }
        Ok(committed)
    }

    /// Commits what handles have joined by now, once nobody else leads: two transactions at most, since one may be locked or under way beside
    /// the running one. It returns whether it committed any. Where memory is short it ends too; who waits later is told.
    ///
    /// # Errors
    ///
    /// `Aborted`, `Device`.
    /// Source: fs/jbd2/journal.c by behaviour (`kjournald2`, `commit_timeout`).
    #[tactic(auto, using(crate::proofs::LeadRefusals::failed))]
    pub fn commit_joined<W: Wait>(&self, rt: &W) -> Result<bool, JournalError>
        ensures ok { IfOk result (λ committed. committed ≡ true → CommittedThen D.state) }
        ensures err { IfErr result (λ e. IsFailure e × FailureKnownThen D) }
    {
        let mut committed = false;
        'leading: for _ in rt.forever() {
            let seen = self.commits().seen();
            match self.lead(rt, Locks::Joined) {
                Ok(Led::Busy) => self.commits().wait(rt, seen),
                Ok(Led::Committed) => {
                    if committed {
                        break;
                    }
                    committed = true;
                }
                Ok(Led::Idle) => break,
                Err(e) => match e {
                    JournalError::Memory => break,
                    _ => return Err(e),
                },
            }
        }
        Ok(committed)
    }

    /// Takes checkpoint turns as long as a round is due, nobody leads, and nobody begins to wait: whoever leads then takes them.
    ///
    /// # Errors
    ///
    /// `Aborted`, `Device`.
    /// Source: this project's own; fs/jbd2/checkpoint.c by behaviour.
    pub fn make_round<W: Wait>(&self, rt: &W) -> Result<(), JournalError>
        ensures why { IfErr result (RoundRefusedThen D.state) }
        ensures known { IfErr result (λ _. FailureKnownThen D) }
    {
        let arrivals = self.arrivals().count();
        for _ in rt.forever() {
            let Some(pace) = self.try_pace() else {
                break;
            };
            let turn = self.due_round_turn(rt);
            let followed = self.end(pace);
            let goes_on = turn?;
            if !goes_on || followed || self.arrivals().count() != arrivals {
                break;
            }
        }
        Ok(())
    }

    /// Commits a transaction for all that have joined it, unless another thread leads: one that is locked or under way, or the running one,
    /// which it locks when `locks` says so.
    fn lead<W: Wait>(&self, rt: &W, locks: Locks) -> Result<Led, JournalError>
        ensures ok { IfOk result (λ led. led ≡ IsCommitted → CommittedThen D.state) }
        ensures err { IfErr result (LeadRefused D) }
    {
        let Some(mut pace) = self.try_pace() else {
            return Ok(Led::Busy);
        };
        let led = self.commit_one(rt, &mut pace, locks);
        self.end(pace);
        led
    }

    /// Lets others lead. It returns whether somebody followed.
    fn end(&self, pace: MutexGuard<'_, Pace>) -> bool {
        drop(pace);
        self.commits().notify();
        let followed = self.take_followers();
        if followed {
            self.changes().notify();
        }
        followed
    }

    /// Takes the owed part of a round, locks, and commits.
    fn commit_one<W: Wait>(
        &self,
        rt: &W,
        pace: &mut Pace,
        locks: Locks,
    ) -> Result<Led, JournalError>
        ensures ok { IfOk result (λ led. led ≡ IsCommitted → CommittedThen D.state) }
        ensures err { IfErr result (LeadRefused D) }
    {
        self.keep_part(rt, pace.take_part())?;
        match locks {
            Locks::Joined => self.lock_group(rt, pace)?,
            Locks::HalfFull => self.lock_if_half(rt)?,
            Locks::Never => {}
        }
        self.take_turns(rt, pace)
    }

    /// Locks the running transaction once those that waited for the last commit wait again, or a short while is over.
    ///
    /// Source: fs/jbd2/transaction.c by behaviour (`jbd2_journal_stop`, `j_average_commit_time`).
    #[tactic(auto, using(crate::proofs::LeadRefusals::lock_ends))]
    fn lock_group<W: Wait>(&self, rt: &W, pace: &mut Pace) -> Result<(), JournalError>
        ensures err { IfErr result (LeadRefused D) }
    {
        self.arrivals().look_for(pace.awaited);
        pace.lock(self.arrivals().count());
        match self.lock(rt) {
            Ok(_) => Ok(()),
            Err(e) => Err(e),
        }
    }

    /// Locks the running transaction if its entries hold half of the credits.
    #[tactic(auto, using(crate::proofs::LeadRefusals::lock_ends))]
    fn lock_if_half<W: Wait>(&self, rt: &W) -> Result<(), JournalError>
        ensures err { IfErr result (LeadRefused D) }
    {
        match self.lock_half_full(rt) {
            Ok(()) => Ok(()),
            Err(e) => Err(e),
        }
    }

    /// Takes commit turns until a transaction is committed, or none is there to commit.
    #[tactic(auto, using(crate::proofs::LeadRefusals::turn_ends))]
    fn take_turns<W: Wait>(&self, rt: &W, pace: &mut Pace) -> Result<Led, JournalError>
        ensures ok { IfOk result (λ led. led ≡ IsCommitted → CommittedThen D.state) }
        ensures err { IfErr result (LeadRefused D) }
    {
        let mut turns = 1u64;
        for _ in rt.forever() {
            let changes = self.changes().seen();
            match self.commit_turn(rt) {
                Ok(Turn::Step) => turns = turns.saturating_add(1),
                Ok(Turn::Sealed(_)) => {}
                Ok(Turn::Waiting) => self.changes().wait(rt, changes),
                Ok(Turn::Committed(_)) => {
                    pace.commit(turns, self.arrivals().count());
                    return Ok(Led::Committed);
                }
                Ok(Turn::Idle) => return Ok(Led::Idle),
                Err(e) => match e {
                    JournalError::NeedSpace => self.make_room(rt)?,
                    _ => return Err(e),
                },
            }
        }
        unreachable!()
    }

    /// Takes so many checkpoint turns, or fewer: each only while a round is due.
    #[tactic(auto, using(crate::proofs::LeadRefusals::round_ends))]
    fn keep_part<W: Wait>(&self, rt: &W, turns: u64) -> Result<(), JournalError>
        ensures err { IfErr result (LeadRefused D) }
    {
        for _ in 0..turns {
            match self.due_round_turn(rt) {
                Ok(true) => {}
                Ok(false) => break,
                Err(e) => return Err(e),
            }
        }
        Ok(())
    }

    /// Takes checkpoint turns until a round is over, or none is there to make: once all is released, the ring has room for any transaction.
    #[tactic(auto, using(crate::proofs::LeadRefusals::round_ends))]
    fn make_room<W: Wait>(&self, rt: &W) -> Result<(), JournalError>
        ensures err { IfErr result (LeadRefused D) }
    {
        for _ in rt.forever() {
            match self.checkpoint_turn(rt) {
                Ok(CheckTurn::Step) => {}
                Ok(CheckTurn::Idle | CheckTurn::Released(_)) => break,
                Err(e) => return Err(e),
            }
        }
        Ok(())
    }
}
