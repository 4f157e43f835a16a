//! The client of a journal: calls it, and records which transactions were acknowledged.
ghost use Rattle.std.specs.Prelude.{◌≡◌, ◌+◌, ◌≤◌, length, IfErr, IfOk, MatchResult, OnOk};
ghost use Rattle.journal_model.specs.declared.refusal.JournalError.TheVariants.{Memory};
ghost use Rattle.journal_model.specs.Disk.{Disk, Shape};
ghost use Rattle.journal_world.specs.Front.FrontEvent.{RevokeBlock, WriteBlock};
ghost use Rattle.journal_world.specs.Journal.Event.{DirectSync, DirectWrite, FrontStep, ReadBlock};
ghost use Rattle.journal_front.specs.Front.{Spends, TouchRefused};
ghost use Rattle.journal_script.specs.Named.{IsDirectOf};
ghost use Rattle.group_commit.specs.Extension.{EndsHandle, Extends, ExtensionRefused, RestartRefused, Restarts, StartRefused, Starts};
ghost use Rattle.group_commit.specs.Values.{StatusIs};
ghost use Rattle.journal_steps.specs.Direct.{DirectSyncRefused, DirectWriteRefused};
ghost use Rattle.journal_steps.specs.Journal.{CheckTurnDid, CheckTurnRefused, Does, RegistersRead, ReadRefused, Requests, TurnDid, TurnRefused};

use block_device::Device;
use group_commit::{CheckTurn, Handle, Journal, Parts, Receipt, Status, Ticket, Turn};
use journal_model::{BlockNo, JournalError, Sealed, Tid};
use journal_script::Operation;
use recovery::Opened;
use std::alloc::Global;
use std::marker::{Brand, Model, PhantomData};

/// A fact about the disk on which a run begins.
pub trait HomeFact {
    /// The fact: about a device's measures, and its disk after the opening of its log.
    ghost holds: { Shape → Disk → Type 0 };
}

/// No fact about the disk on which a run begins: every disk meets it.
pub struct AnyHome;

impl HomeFact for AnyHome {
    ghost use Rattle.script_client.specs.Told.{IsAnyHome};

    ghost holds = { IsAnyHome };
}

/// The fact that every home area meets, in proofs alone.
impl HomeFact for Brand {
    ghost use Rattle.script_client.specs.Told.{IsAnyHome};

    ghost holds = { IsAnyHome };
}

/// Every block of home is durable zeros.
pub struct ZeroHome;

impl HomeFact for ZeroHome {
    ghost use Rattle.script_client.specs.Told.{IsZeroHome};

    ghost holds = { IsZeroHome };
}

/// A journal, the operations that its client performs, and what was acknowledged.
#[derive(Drop)]
pub struct ScriptClient<'a, D: Device, H: HomeFact> {
    journal: Journal<D, Vec<Sealed>>,
    operations: &'a [Operation],
    /// The greatest acknowledged transaction: a wait or a status answered that it is committed.
    acknowledged: Option<Tid>,
    of: PhantomData<H>,
}

impl<'a, D: Device, H: HomeFact> Model for ScriptClient<'a, D, H> {
    ghost use Rattle.script_client.specs.Told.{ClientValue, HasLedTo};

    ghost Value = { ClientValue D };

    ghost view = { λ c. record { journal = c.journal; operations = c.operations.now; shown = c.acknowledged } };

    ghost invariant = { λ c. D.honest c.journal.device → HasLedTo H.holds c.operations.now c.journal.journal (D.state c.journal.device) c.acknowledged };
}

/// The rest of a journal after `close`, done or refused.
#[derive(Drop)]
pub struct ClosedJournal<D> {
    /// The device, and the sealed transactions.
    pub parts: Parts<D, Vec<Sealed>>,
    /// The greatest acknowledged transaction.
    pub acknowledged: Option<Tid>,
    /// Why it is not closed, if it is not.
    pub closed: Result<(), JournalError>,
}

/// The answer to a wait.
pub enum Waited {
    /// The transaction is committed.
    Committed(Receipt),
    /// The transaction is open; the ticket comes back.
    Open(Ticket),
    /// The wait is refused; the ticket comes back.
    Refused(Ticket, JournalError),
}

impl<'a, D: Device + Drop, H: HomeFact> ScriptClient<'a, D, H> {
    ghost use Rattle.group_commit.specs.Close.{IsSealedInClose, closing};
    ghost use Rattle.script_client.specs.Ended.{IsEnded, IsLeftClosed, WhyUnclosed};
    ghost use Rattle.script_client.specs.Shown.{IsWaited, IsNewClient, IsNextHandle, IsLeftOf, IsRefusedAborted, IsSameButJournal, IsShown, ticket_of};
    ghost use Rattle.script_client.specs.Told.{IsLedTo, with_told};

    /// Makes a client for `operations` over a new journal on an opened log.
    ///
    /// # Errors
    ///
    /// `Memory`: the opened log comes back.
    pub fn new(
        alloc: Global,
        opened: Opened<D>,
        operations: &'a [Operation],
    ) -> Result<Self, (Opened<D>, JournalError)>
        requires { D.honest opened.device → H.holds (D.state opened.device).shape (D.state opened.device).disk }
        ensures fresh { IfOk result (λ client. IsNewClient D.state opened operations.now client) }
        ensures err { IfErr result (λ e. (e.0 ≡ opened) × (e.1 ≡ Memory)) }
    {
        match Journal::new(alloc, opened) {
            Ok(journal) => Ok(ScriptClient {
                journal,
                operations,
                acknowledged: None,
                of: PhantomData,
            }),
            Err(refused) => Err(refused),
        }
    }

    /// The size of a block, in bytes.
    pub fn block_size(&self) -> usize
        ensures { result ≡ (D.state self.now.journal.device).shape.block_size }
    {
        self.journal.block_size()
    }

    /// Whether the device has failed.
    pub fn is_aborted(&self) -> bool
        ensures { result ≡ self.now.journal.journal.engine.aborted }
    {
        self.journal.is_aborted()
    }

    /// Starts a handle with these credits.
    ///
    /// # Errors
    ///
    /// Those of a start: nothing changes.
    pub fn start(&mut self, credits: u64) -> Result<Handle, JournalError>
        ensures ok { IfOk result (λ handle. Starts D.state credits self.old.journal self.new.journal × IsNextHandle self.old.journal.journal.front credits handle) }
        ensures err { IfErr result (λ e. StartRefused self.old.journal.journal.front credits e × (self.new.journal ≡ self.old.journal)) }
        ensures rest { IsSameButJournal self.old self.new }
    {
        self.journal.try_start(credits)
    }

    /// Writes a block through a handle.
    ///
    /// # Errors
    ///
    /// Those of a write: nothing changes.
    pub fn write(
        &mut self,
        handle: &mut Handle,
        block: BlockNo,
        bytes: &[u8],
    ) -> Result<(), JournalError>
        requires { length bytes.now ≡ (D.state self.old.journal.device).shape.block_size }
        ensures ok { OnOk result (Does D.state self.old.journal (FrontStep (WriteBlock handle.old.number block bytes.now)) self.new.journal) }
        ensures spends { OnOk result (Spends self.old.journal.journal.front block handle.old handle.new) }
        ensures err { IfErr result (λ e. TouchRefused self.old.journal.journal.front handle.old block e × (self.new.journal ≡ self.old.journal) × (handle.new ≡ handle.old)) }
        ensures rest { IsSameButJournal self.old self.new }
    {
        self.journal.write(handle, block, bytes)
    }

    /// Revokes a block through a handle.
    ///
    /// # Errors
    ///
    /// Those of a revoke: nothing changes.
    pub fn revoke(&mut self, handle: &mut Handle, block: BlockNo) -> Result<(), JournalError>
        ensures ok { OnOk result (Does D.state self.old.journal (FrontStep (RevokeBlock handle.old.number block)) self.new.journal) }
        ensures spends { OnOk result (Spends self.old.journal.journal.front block handle.old handle.new) }
        ensures err { IfErr result (λ e. TouchRefused self.old.journal.journal.front handle.old block e × (self.new.journal ≡ self.old.journal) × (handle.new ≡ handle.old)) }
        ensures rest { IsSameButJournal self.old self.new }
    {
        self.journal.revoke(handle, block)
    }

    /// Writes a block directly, as one of its operations does.
    ///
    /// # Errors
    ///
    /// Those of a direct write.
    pub fn write_direct(&mut self, block: BlockNo, bytes: &[u8]) -> Result<(), JournalError>
        requires named { IsDirectOf self.old.operations block }
        requires length { length bytes.now ≡ (D.state self.old.journal.device).shape.block_size }
        ensures ok { OnOk result (Does D.state self.old.journal (DirectWrite block bytes.now) self.new.journal) }
        ensures err { IfErr result (λ e. DirectWriteRefused D.state self.old.journal block bytes.now self.new.journal e) }
        ensures rest { IsSameButJournal self.old self.new }
    {
        self.journal.write_direct(block, bytes)
    }

    /// Makes direct writes durable.
    ///
    /// # Errors
    ///
    /// Those of a direct sync.
    pub fn sync_direct(&mut self) -> Result<(), JournalError>
        ensures ok { OnOk result (Does D.state self.old.journal DirectSync self.new.journal) }
        ensures err { IfErr result (λ e. DirectSyncRefused D.state self.old.journal self.new.journal e) }
        ensures rest { IsSameButJournal self.old self.new }
    {
        self.journal.sync_direct()
    }

    /// Reads a block through a handle.
    ///
    /// # Errors
    ///
    /// Those of a read.
    pub fn read(
        &mut self,
        handle: &mut Handle,
        block: BlockNo,
        into: &mut [u8],
    ) -> Result<(), JournalError>
        requires { length into.old ≡ (D.state self.old.journal.device).shape.block_size }
        ensures ok { OnOk result (D.honest self.new.journal.device → Does D.state self.old.journal (ReadBlock handle.old.number block into.new) self.new.journal) }
        ensures registers { OnOk result (RegistersRead D.state self.old.journal handle.old block into.new self.new.journal) }
        ensures err { IfErr result (ReadRefused D.state self.old.journal handle.old block self.new.journal) }
        ensures handle { handle.new ≡ handle.old }
        ensures rest { IsSameButJournal self.old self.new }
    {
        self.journal.read(handle, block, into)
    }

    /// Adds credits to a handle.
    ///
    /// # Errors
    ///
    /// Those of an extension: nothing changes.
    pub fn extend(&mut self, handle: &mut Handle, credits: u64) -> Result<(), JournalError>
        ensures ok { OnOk result (Extends D.state handle.old.number credits self.old.journal self.new.journal) }
        ensures handle { OnOk result (handle.new ≡ record handle.old { left = handle.old.left + credits }) }
        ensures err { IfErr result (λ e. ExtensionRefused self.old.journal.journal.front handle.old credits e × (self.new.journal ≡ self.old.journal) × (handle.new ≡ handle.old)) }
        ensures rest { IsSameButJournal self.old self.new }
    {
        self.journal.extend(handle, credits)
    }

    /// Stops a handle, and starts one in its place.
    ///
    /// # Errors
    ///
    /// Those of a restart: the handle's ticket comes back.
    pub fn restart(
        &mut self,
        handle: Handle,
        credits: u64,
    ) -> Result<Handle, (Ticket, JournalError)>
        ensures ok { IfOk result (λ other. Restarts D.state handle credits self.old.journal self.new.journal × IsNextHandle self.old.journal.journal.front credits other) }
        ensures err { IfErr result (λ e. (e.0 ≡ ticket_of handle) × RestartRefused D.state handle credits self.old.journal self.new.journal e.1) }
        ensures rest { IsSameButJournal self.old self.new }
    {
        self.journal.restart(handle, credits)
    }

    /// Stops a handle.
    pub fn stop(&mut self, handle: Handle) -> Ticket
        ensures ticket { result ≡ ticket_of handle }
        ensures ends { EndsHandle D.state handle self.old.journal self.new.journal }
        ensures rest { IsSameButJournal self.old self.new }
    {
        self.journal.stop(handle)
    }

    /// Requests the commit of a ticket's transaction.
    ///
    /// # Errors
    ///
    /// `Aborted`: nothing changes.
    pub fn request(&mut self, ticket: &Ticket) -> Result<(), JournalError>
        ensures ok { OnOk result (Requests D.state ticket.now.tid self.old.journal self.new.journal) }
        ensures err { IfErr result (λ e. IsRefusedAborted self.old e × (self.new.journal ≡ self.old.journal)) }
        ensures rest { IsSameButJournal self.old self.new }
    {
        self.journal.request(ticket)
    }

    /// Locks the running transaction, and returns its number.
    ///
    /// # Errors
    ///
    /// `Aborted`: nothing changes.
    pub fn lock(&mut self) -> Result<Tid, JournalError>
        ensures current { IfOk result (λ tid. tid ≡ self.old.journal.journal.front.running.tid) }
        ensures locks { OnOk result (Requests D.state self.old.journal.journal.front.running.tid self.old.journal self.new.journal) }
        ensures err { IfErr result (λ e. IsRefusedAborted self.old e × (self.new.journal ≡ self.old.journal)) }
        ensures rest { IsSameButJournal self.old self.new }
    {
        self.journal.lock()
    }

    /// Takes one commit turn.
    ///
    /// # Errors
    ///
    /// Those of a commit turn.
    pub fn commit_turn(&mut self) -> Result<Turn, JournalError>
        ensures ok { IfOk result (λ turn. TurnDid D.state turn self.old.journal self.new.journal) }
        ensures err { IfErr result (λ e. TurnRefused D.state self.old.journal self.new.journal e) }
        ensures rest { IsSameButJournal self.old self.new }
    {
        self.journal.commit_turn()
    }

    /// Takes one checkpoint turn.
    ///
    /// # Errors
    ///
    /// Those of a checkpoint turn.
    pub fn checkpoint_turn(&mut self) -> Result<CheckTurn, JournalError>
        ensures ok { IfOk result (λ turn. CheckTurnDid D.state turn self.old.journal self.new.journal) }
        ensures err { IfErr result (λ e. CheckTurnRefused D.state self.old.journal self.new.journal e) }
        ensures rest { IsSameButJournal self.old self.new }
    {
        self.journal.checkpoint_turn()
    }

    /// The last transaction that the journal reports committed.
    pub fn mark(&self) -> Tid
        ensures { result ≡ self.now.journal.journal.front.mark }
    {
        self.journal.mark()
    }

    /// Whether a ticket's transaction is committed; if so, that is noted.
    pub fn status(&mut self, ticket: &Ticket) -> Status
        ensures status { StatusIs result ticket.now.tid self.old.journal.journal.front }
        ensures shown { IsShown result ticket.now.tid self.old self.new }
    {
        let status = self.journal.status(ticket);
        if matches!(status, Status::Committed) {
            self.acknowledge(ticket.tid());
        }
        status
    }

    /// Whether a receipt's transaction is committed, as it is if this journal gave the receipt; if so, that is noted again.
    pub fn confirm(&mut self, receipt: &Receipt) -> Status
        ensures status { StatusIs result receipt.now.tid self.old.journal.journal.front }
        ensures shown { IsShown result receipt.now.tid self.old self.new }
    {
        if receipt.tid() > self.journal.mark() {
            return Status::Open;
        }
        self.acknowledge(receipt.tid());
        Status::Committed
    }

    /// Takes the receipt of a committed transaction, and notes it. Does not wait for an open one.
    pub fn wait(&mut self, ticket: Ticket) -> Waited
        ensures { IsWaited result ticket self.old self.new }
    {
        match self.journal.status(&ticket) {
            Status::Committed => self.wait_for(ticket),
            Status::Open => Waited::Open(ticket),
        }
    }

    fn wait_for(&mut self, ticket: Ticket) -> Waited
        requires { ticket.tid ≤ self.old.journal.journal.front.mark }
        ensures { IsWaited result ticket self.old self.new }
    {
        match self.journal.wait(ticket) {
            Ok(receipt) => {
                self.acknowledge(receipt.tid());
                Waited::Committed(receipt)
            }
            Err((ticket, e)) => Waited::Refused(ticket, e),
        }
    }

    fn acknowledge(&mut self, tid: Tid)
        requires { tid ≤ self.old.journal.journal.front.mark }
        ensures { self.new ≡ record self.old { shown = with_told tid self.old.shown } }
    {
        self.acknowledged = match self.acknowledged {
            Some(other) => Some(Tid(other.0.max(tid.0))),
            None => Some(tid),
        };
    }

    /// Ends the journal. Returns its device, the sealed transactions, and the greatest acknowledged one.
    pub fn finish(self) -> (Parts<D, Vec<Sealed>>, Option<Tid>)
        ensures led { D.honest result.0.device → IsLedTo H.holds self.entry.operations (D.state result.0.device) result.0.sealed.items result.1 }
        ensures left { IsLeftOf self.entry result.0.device result.0.sealed.items result.1 }
    {
        let ScriptClient {
            journal,
            operations: _,
            acknowledged,
            of: PhantomData,
        } = self;
        (journal.into_parts(), acknowledged)
    }

    /// Closes the journal. `NotRunning`: a handle is open, and nothing was done. Other refusals are those of a journal's close; what was
    /// sealed and committed by then stays so.
    pub fn close(self) -> ClosedJournal<D>
        ensures ended { D.honest result.parts.device → IsEnded H.holds self.entry.operations (D.state result.parts.device) result.parts.sealed.items result.acknowledged }
        ensures closed { OnOk result.closed (D.honest result.parts.device → IsLeftClosed (D.state result.parts.device) result.parts.sealed.items) }
        ensures sealed { MatchResult result.closed
            (λ _. result.parts.sealed.items ≡ closing self.entry.journal.journal.front)
            (λ _. IsSealedInClose self.entry.journal.journal.front result.parts.sealed.items) }
        ensures refused { IfErr result.closed (WhyUnclosed D.state self.entry.journal result.parts.device result.parts.sealed.items result.parts.committed) }
        ensures shown { result.acknowledged ≡ self.entry.shown }
    {
        let ScriptClient {
            journal,
            operations: _,
            acknowledged,
            of: PhantomData,
        } = self;
        if journal.has_open_handles() {
            return ClosedJournal {
                parts: journal.into_parts(),
                acknowledged,
                closed: Err(JournalError::NotRunning),
            };
        }
        match journal.close() {
            Ok(parts) => ClosedJournal {
                parts,
                acknowledged,
                closed: Ok(()),
            },
            Err((parts, e)) => ClosedJournal {
                parts,
                acknowledged,
                closed: Err(e),
            },
        }
    }
}
