//! A front with what is known of its engine, and the calls that it answers by itself: of credits, of handles, and of requests for commits.
ghost use Rattle.std.specs.Prelude.{◌≡◌, ◌+◌, ◌<◌, ◌≤◌, length, true, IfErr, IfOk, OnOk};
ghost use Rattle.journal_model.specs.declared.refusal.JournalError.TheVariants.{Aborted};
ghost use Rattle.journal_model.specs.Transaction.{entries};
ghost use Rattle.journal_world.specs.Front.{held, next_handle};
ghost use Rattle.journal_world.specs.Front.FrontEvent.{ExtendHandle, GiveBack, Join, Reserve, RevokeBlock, StopHandle, WriteBlock};
ghost use Rattle.journal_world.specs.Journal.Event.{FrontStep};
ghost use Rattle.journal_world.specs.Sound.{IsPlain, OpensBetween};
ghost use Rattle.log_engine.specs.Engine.{EngineValue};
ghost use Rattle.group_commit.specs.Extension.{Extends, ExtensionRefused, StartRefused, Starts};
ghost use Rattle.journal_front.specs.Front.{ExtendRefused, IsOpenHandle, JoinRefused, ReserveRefused, Spends, TouchRefused};
ghost use Rattle.journal_steps.specs.Journal.{Agrees, Does, FitsQuarter, OpensNow, Requests};
ghost use Rattle.journal_steps.specs.Legal.{KeepsLegal};
ghost use Rattle.journal_steps.specs.Values.{together};

use crate::ticket::Ticket;
use block_device::Device;
use journal_front::{Credits, Front, Handle, Record, Unrecorded};
use journal_model::{BlockNo, JournalError, Tid};
use log_engine::Engine;
use std::marker::{Model, PhantomData};

/// What is known of an engine: the engine itself, or the engine as it was when it was seen last.
pub trait KnowsEngine<D: Device> {
    /// What stands for the engine.
    type Known;

    /// The engine with its device, as far as it is known.
    ghost engine: { Self.Known → EngineValue D };

    /// Gives callers' proofs what every engine keeps, and does nothing: its fields agree, its shape is the device's, and if reads were
    /// correct each crash image opens.
    fn recall_invariant(known: &Self::Known)
        ensures plain { IsPlain (engine known.now).engine }
        ensures opens { D.honest (engine known.now).device →
            OpensBetween (engine known.now).engine.shape (engine known.now).engine.accepted (engine known.now).engine.committed
            (length (engine known.now).engine.accepted) (D.state (engine known.now).device).disk }
        ensures shape { (engine known.now).engine.shape ≡ (D.state (engine known.now).device).shape };
}

/// The engine itself is known.
pub struct Itself;

impl<D: Device> KnowsEngine<D> for Itself {
    type Known = Engine<D>;

    ghost engine = { λ e. e };

    fn recall_invariant(known: &Engine<D>) {
        known.recall_invariant();
    }
}

/// A front with what is known of its engine. Contracts see the journal of both. Each call of credits, handles or requests is a step of that
/// journal, calls no device, and leaves what is known of the engine.
///
/// Its fields are public for steps that need both; whoever changes one shows that they still agree.
///
/// In the errors `Aborted` means that the front knows of a device failure.
#[derive(Drop)]
pub struct KnownFront<D: Device, K: KnowsEngine<D>, R: Record = Unrecorded> {
    /// The front.
    pub front: Front<R>,
    /// What is known of its engine.
    pub engine: K::Known,
    pub(crate) of: PhantomData<D>,
}

impl<D: Device, K: KnowsEngine<D>, R: Record> Model for KnownFront<D, K, R> {
    ghost use Rattle.journal_steps.specs.Values.{JournalValue, together};
    ghost use Rattle.journal_steps.specs.Journal.{Agrees};
    ghost use Rattle.journal_steps.specs.Legal.{KeepsLegal};

    ghost Value = { JournalValue D };

    ghost view = { λ j. together j.front (K.engine j.engine) };

    ghost invariant = { λ j. Agrees (together j.front (K.engine j.engine)).journal × KeepsLegal D.honest (together j.front (K.engine j.engine)) };
}

impl<D: Device, K: KnowsEngine<D>, R: Record> KnownFront<D, K, R> {
    /// The journal of a front and an engine that agree.
    pub fn of(front: Front<R>, engine: K::Known) -> Self
        requires agrees { Agrees (together front (K.engine engine)).journal }
        requires legal { KeepsLegal D.honest (together front (K.engine engine)) }
        ensures { result ≡ together front (K.engine engine) }
    {
        KnownFront {
            front,
            engine,
            of: PhantomData,
        }
    }

    /// Ends the journal, and answers its front and its engine.
    pub fn into_sides(self) -> (Front<R>, K::Known)
        ensures sides { together result.0 (K.engine result.1) ≡ self }
        ensures agrees { Agrees self.journal }
        ensures legal { KeepsLegal D.honest self }
    {
        let KnownFront {
            front,
            engine,
            of: _,
        } = self;
        (front, engine)
    }

    /// Gives callers' proofs what every journal keeps, and does nothing: front and engine agree, the running transaction needs at most
    /// a quarter of the ring, and if reads were correct each crash image opens and the record is legal.
    pub fn recall_invariant(&self)
        ensures plain { IsPlain self.now.journal.engine }
        ensures agrees { Agrees self.now.journal }
        ensures shape { self.now.journal.engine.shape ≡ (D.state self.now.device).shape }
        ensures quarter { FitsQuarter self.now.journal }
        ensures opens { D.honest self.now.device → OpensNow self.now.journal (D.state self.now.device).disk }
        ensures legal { KeepsLegal D.honest self.now }
    {
        K::recall_invariant(&self.engine);
    }

    /// Its front, for inspection.
    pub fn front(&self) -> &Front<R>
        ensures { result.now ≡ self.now.journal.front }
    {
        &self.front
    }

    /// How many credits are held: in no handle yet, unused in open handles, and one for each block that the running transaction touched.
    pub fn held(&self) -> u64
        ensures { result ≡ held self.now.journal.front }
    {
        self.front.held()
    }

    /// How many entries the running transaction has: one copy or revoke for each block touched.
    pub fn entries(&self) -> usize
        ensures { result ≡ length (entries self.now.journal.front.running.steps) }
    {
        self.front.entries()
    }

    /// The commit mark: the number of the last transaction acknowledged as committed, at first one less than the first number.
    pub fn mark(&self) -> Tid
        ensures { result ≡ self.now.journal.front.mark }
    {
        self.front.mark()
    }

    /// Grants `n` credits, each for the first touch of one block.
    ///
    /// # Errors
    ///
    /// Nothing changes. `TooMany` (more than one transaction can have) or `Full` (more than the credits held leave).
    /// Source: journalling.rst (`journal_start`).
    pub fn reserve(&mut self, n: u64) -> Result<Credits, JournalError>
        ensures ok { IfOk result (λ credits. (credits ≡ n) × Does D.state self.old (FrontStep (Reserve n)) self.new) }
        ensures err { IfErr result (λ e. ReserveRefused self.old.journal.front n e × (self.new ≡ self.old)) }
        ensures device { self.new.device ≡ self.old.device }
    {
        self.front.reserve(n)
    }

    /// Takes back credits that are in no handle. If this journal has granted fewer, they are another's, and nothing changes.
    pub fn give_back(&mut self, credits: Credits)
        ensures gives { credits ≤ self.old.journal.front.reserved → Does D.state self.old (FrontStep (GiveBack credits)) self.new }
        ensures other { self.old.journal.front.reserved < credits → self.new ≡ self.old }
        ensures device { self.new.device ≡ self.old.device }
    {
        self.front.take_back(credits);
    }

    /// Makes a handle of the running transaction with these credits.
    ///
    /// # Errors
    ///
    /// The credits come back, and nothing else changes. The first of: `Aborted`, `NotRunning` (the transaction is locked),
    /// `SequenceEnd` (no number is left for transaction or handle), `NoCredit` (more than this journal granted and no handle holds),
    /// `Memory`.
    /// Source: journalling.rst (`journal_start`).
    pub fn try_join(&mut self, credits: Credits) -> Result<Handle, (Credits, JournalError)>
        ensures ok { IfOk result (λ handle. Does D.state self.old (FrontStep (Join credits)) self.new
            × (handle ≡ record { number = next_handle self.old.journal.front; tid = self.old.journal.front.running.tid; left = credits })) }
        ensures open { IfOk result (IsOpenHandle self.new.journal.front) }
        ensures err { IfErr result (λ e. (e.0 ≡ credits) × JoinRefused self.old.journal.front credits e.1 × (self.new ≡ self.old)) }
        ensures device { self.new.device ≡ self.old.device }
    {
        self.front.join_with(credits)
    }

    /// Gives these credits to an open handle.
    ///
    /// # Errors
    ///
    /// The credits come back, and nothing else changes. The first of: `Aborted`, `NotRunning` (the transaction is locked), `NoCredit` (more
    /// than this journal granted and no handle holds, or the handle is not open here).
    /// Source: journalling.rst (`journal_extend`).
    pub fn give(
        &mut self,
        handle: &mut Handle,
        credits: Credits,
    ) -> Result<(), (Credits, JournalError)>
        ensures ok { OnOk result (Does D.state self.old (FrontStep (ExtendHandle handle.old.number credits)) self.new) }
        ensures open { OnOk result (IsOpenHandle self.new.journal.front handle.new) }
        ensures handle { OnOk result (handle.new ≡ record handle.old { left = handle.old.left + credits }) }
        ensures err { IfErr result (λ e. (e.0 ≡ credits) × ExtendRefused self.old.journal.front handle.old credits e.1
            × (self.new ≡ self.old) × (handle.new ≡ handle.old)) }
        ensures device { self.new.device ≡ self.old.device }
    {
        self.front.give(handle, credits)
    }

    /// Writes one block of the home area in the handle's transaction. The transaction's first touch of a block takes one credit.
    ///
    /// # Errors
    ///
    /// Nothing changes. The first of: `Aborted`; `BadBlock` (home has no such block, or its number is not below 2^32, in a log with
    /// 64-bit numbers 2^48); `NoCredit` (the handle is not open here, or has none for a first touch); `Memory`.
    /// Source: journalling.rst (`journal_get_write_access`, `journal_dirty_metadata`).
    pub fn write(
        &mut self,
        handle: &mut Handle,
        block: BlockNo,
        bytes: &[u8],
    ) -> Result<(), JournalError>
        requires { length bytes.now ≡ (D.state self.old.device).shape.block_size }
        ensures ok { OnOk result (Does D.state self.old (FrontStep (WriteBlock handle.old.number block bytes.now)) self.new) }
        ensures open { OnOk result (IsOpenHandle self.old.journal.front handle.old × IsOpenHandle self.new.journal.front handle.new) }
        ensures spends { OnOk result (Spends self.old.journal.front block handle.old handle.new) }
        ensures err { IfErr result (λ e. TouchRefused self.old.journal.front handle.old block e × (self.new ≡ self.old) × (handle.new ≡ handle.old)) }
        ensures device { self.new.device ≡ self.old.device }
    {
        K::recall_invariant(&self.engine);
        self.front.write(handle, block, bytes)
    }

    /// Revokes a block in the handle's transaction: once that commits, no checkpoint or opening brings an older copy home. The
    /// transaction's first touch of a block takes one credit; revoking a revoked block changes nothing more.
    ///
    /// # Errors
    ///
    /// Those of `write`, in that order; nothing changes.
    /// Source: journalling.rst (`journal_revoke`), fs/jbd2/revoke.c by behaviour.
    pub fn revoke(&mut self, handle: &mut Handle, block: BlockNo) -> Result<(), JournalError>
        ensures ok { OnOk result (Does D.state self.old (FrontStep (RevokeBlock handle.old.number block)) self.new) }
        ensures open { OnOk result (IsOpenHandle self.old.journal.front handle.old × IsOpenHandle self.new.journal.front handle.new) }
        ensures spends { OnOk result (Spends self.old.journal.front block handle.old handle.new) }
        ensures err { IfErr result (λ e. TouchRefused self.old.journal.front handle.old block e × (self.new ≡ self.old) × (handle.new ≡ handle.old)) }
        ensures device { self.new.device ≡ self.old.device }
    {
        self.front.revoke(handle, block)
    }

    /// Requests the commit of the transaction with this number: if it is running and a handle has joined it, it takes no further handles.
    ///
    /// # Errors
    ///
    /// `Aborted`: nothing changes.
    /// Source: fs/jbd2/journal.c by behaviour (`jbd2_log_start_commit`).
    pub fn request_commit(&mut self, tid: Tid) -> Result<(), JournalError>
        ensures ok { OnOk result (Requests D.state tid self.old self.new) }
        ensures err { IfErr result (λ e. (e ≡ Aborted) × (self.old.journal.front.aborted ≡ true) × (self.new ≡ self.old)) }
        ensures device { self.new.device ≡ self.old.device }
    {
        self.front.request_commit(tid)
    }

    /// Grants `n` credits and makes a handle of the running transaction with them.
    ///
    /// # Errors
    ///
    /// Nothing changes. Those of `reserve`, then those of `try_join` but for `NoCredit`.
    /// Source: journalling.rst (`journal_start`).
    pub fn try_start(&mut self, n: u64) -> Result<Handle, JournalError>
        ensures ok { IfOk result (λ handle. Starts D.state n self.old self.new
            × (handle ≡ record { number = next_handle self.old.journal.front; tid = self.old.journal.front.running.tid; left = n })) }
        ensures open { IfOk result (IsOpenHandle self.new.journal.front) }
        ensures err { IfErr result (λ e. StartRefused self.old.journal.front n e × (self.new ≡ self.old)) }
        ensures device { self.new.device ≡ self.old.device }
    {
        let granted = self.reserve(n)?;
        match self.try_join(granted) {
            Ok(handle) => Ok(handle),
            Err((credits, e)) => {
                self.give_back(credits);
                Err(e)
            }
        }
    }

    /// Grants `n` further credits to an open handle.
    ///
    /// # Errors
    ///
    /// Nothing changes. The first of: those of `reserve`, `Aborted`, `NotRunning` (the transaction is locked), `NoCredit` (the handle
    /// is not open here).
    /// Source: journalling.rst (`journal_extend`).
    pub fn extend(&mut self, handle: &mut Handle, n: u64) -> Result<(), JournalError>
        ensures ok { OnOk result (Extends D.state handle.old.number n self.old self.new) }
        ensures open { OnOk result (IsOpenHandle self.new.journal.front handle.new) }
        ensures handle { OnOk result (handle.new ≡ record handle.old { left = handle.old.left + n }) }
        ensures err { IfErr result (λ e. ExtensionRefused self.old.journal.front handle.old n e × (self.new ≡ self.old) × (handle.new ≡ handle.old)) }
        ensures device { self.new.device ≡ self.old.device }
    {
        let granted = self.reserve(n)?;
        match self.give(handle, granted) {
            Ok(()) => Ok(()),
            Err((returned, e)) => {
                self.give_back(returned);
                Err(e)
            }
        }
    }

    /// Ends a handle and takes back its unused credits. It always succeeds, even after a device failure; a handle not open here changes
    /// nothing.
    /// Source: journalling.rst (`journal_stop`).
    pub fn stop(&mut self, handle: Handle) -> Ticket
        ensures stops { IsOpenHandle self.old.journal.front handle → Does D.state self.old (FrontStep (StopHandle handle.number)) self.new }
        ensures other { (IsOpenHandle self.old.journal.front handle → ⊥) → self.new ≡ self.old }
        ensures given { self.new.journal.front.given ≡ self.old.journal.front.given }
        ensures running { self.new.journal.front.running ≡ self.old.journal.front.running }
        ensures ticket { result ≡ record { handle = handle.number; tid = handle.tid } }
        ensures device { self.new.device ≡ self.old.device }
    {
        let ticket = Ticket::new(handle.number(), handle.tid());
        self.front.stop_handle(handle);
        ticket
    }
}
