//! Creates a journal on a log, and then gives it its name.
ghost use Rattle.std.specs.Prelude.{◌≡◌, ◌≤◌, false, true, IfErr, IfOk};
ghost use Rattle.journal_model.specs.declared.refusal.JournalError.TheVariants.{Memory};
ghost use Rattle.log_model.specs.Opening.{layout_of, ring_of};
ghost use Rattle.log_model.specs.Room.{IsCapacity};
ghost use Rattle.log_model.specs.Superblock.{super_in};
ghost use Rattle.journal_world.specs.Journal.{IsFresh};
ghost use Rattle.log_epochs.specs.JournalWorld.{Begins};
ghost use Rattle.group_commit.specs.Begun.{world_of_new};
ghost use Rattle.recovery.specs.Values.{IsNextNamed};
ghost use Rattle.handle.specs.Rule.{greatest_allotment, greatest_capacity};
ghost use Rattle.handle.specs.Values.{fresh_seat};
ghost use Rattle.shared_journal.specs.Unnamed.{IsBegun, IsCreatedOn, NotCreatedOn};

use crate::journal::Journal;
use block_device::Device;
use group_commit::{Record, Unrecorded};
use handle::{JournalName, Seat, UnnamedBoard, board};
use journal_model::{JournalError, Tid};
use locked_journal::{Counters, Locked, SidesOf, UnnamedKnowing, UnnamedSides};
use log_format::Super;
use log_ring::Layout;
use parts::UnnamedWhole;
use recovery::{Opened, open};
use std::alloc::Global;
use std::marker::Model;

/// An unnamed journal.
#[derive(Drop)]
pub struct UnnamedJournal<D: Device, R: Record = Unrecorded> {
    sides: UnnamedSides<D, R>,
    board: UnnamedBoard,
    knowing: UnnamedKnowing<R>,
    /// Whether its blocks may be written directly.
    direct: bool,
}

impl<D: Device, R: Record> Model for UnnamedJournal<D, R> {
    ghost use Rattle.shared_journal.specs.Unnamed.{IsUnnamed, MayBegin, UnnamedValue, unnamed_value};

    ghost Value = { UnnamedValue D };

    ghost view = { λ l. unnamed_value D.state l.board l.knowing l.direct l.sides };

    ghost invariant = { λ l. IsUnnamed D.state l.board l.sides.journal × MayBegin D.state D.honest l.sides.journal };
}

/// The capacity, in credits, of a journal on this log.
fn capacity_on<D: Device>(opened: &Opened<D>) -> u64
    ensures capacity { IsCapacity (layout_of (super_in opened.now.superblock)) (ring_of (super_in opened.now.superblock)).blocks result }
    ensures few { result ≤ greatest_capacity }
    ensures named { IsNextNamed (D.state opened.now.device).shape opened.now.superblock opened.now.next }
{
    let fields = Super::fields(opened.superblock());
    Layout::capacity(opened.layout(), u64::from(fields.s_maxlen - fields.s_first))
}

/// Creates an unnamed journal on an opened log. Its blocks can't be written directly.
///
/// # Errors
///
/// `Memory`: the opened log comes back.
pub fn create<D: Device, R: Record>(
    alloc: Global,
    opened: Opened<D>,
) -> Result<UnnamedJournal<D, R>, (Opened<D>, JournalError)>
    ensures fresh { IfOk result (λ unnamed. IsFresh (D.state opened.device).shape opened.superblock opened.next unnamed.journal.journal) }
    ensures device { IfOk result (λ unnamed. unnamed.journal.device ≡ opened.device) }
    ensures begins { IfOk result (λ unnamed. D.honest opened.device → Begins (world_of_new D.state opened.device unnamed.journal)) }
    ensures begun { IfOk result (IsBegun D.state) }
    ensures direct { IfOk result (λ unnamed. unnamed.name.direct ≡ false) }
    ensures err { IfErr result (λ e. (e.0 ≡ opened) × (e.1 ≡ Memory)) }
{
    let next = opened.next();
    let Ok(board) = board(alloc, capacity_on(&opened), Tid(next.0 - 1)) else {
        return Err((opened, JournalError::Memory));
    };
    let Ok(knowing) = UnnamedWhole::new(alloc) else {
        return Err((opened, JournalError::Memory));
    };
    let sides = UnnamedSides::new(alloc, opened)?;
    Ok(UnnamedJournal {
        sides,
        board,
        knowing,
        direct: false,
    })
}

impl<D: Device + Drop, R: Record> UnnamedJournal<D, R> {
    /// Opens the log of a device, and creates an unnamed journal on it. To keep the device after a refusal, or to see the opening's report,
    /// call `open` and `create`.
    ///
    /// # Errors
    ///
    /// Those of `open` and `create`. The device is dropped.
    pub fn open(alloc: Global, device: D) -> Result<Self, JournalError>
        ensures created { IfOk result (λ unnamed. IsCreatedOn D.state D.honest device unnamed.journal) }
        ensures begun { IfOk result (IsBegun D.state) }
        ensures direct { IfOk result (λ unnamed. unnamed.name.direct ≡ false) }
        ensures err { IfErr result (NotCreatedOn D.state D.honest device) }
    {
        match open(alloc, device) {
            Ok(opened) => match create(alloc, opened) {
                Ok(unnamed) => Ok(unnamed),
                Err((_, e)) => Err(e),
            },
            Err((_, e)) => Err(e),
        }
    }
}

impl<D: Device, R: Record> UnnamedJournal<D, R> {
    /// The same, but its blocks may be written directly.
    pub fn with_direct_writes(self) -> Self
        ensures { result ≡ record self { name = record self.name { direct = true } } }
    {
        let UnnamedJournal {
            sides,
            board,
            knowing,
            direct: _,
        } = self;
        UnnamedJournal {
            sides,
            board,
            knowing,
            direct: true,
        }
    }

    /// The journal that `J` names, and the first seat. The caller must show that `J` is this journal's name.
    pub fn named<J: JournalName>(self) -> (Journal<J, D, R>, Seat<J>)
        requires name { self.name ≡ J.name }
        ensures seat { result.1 ≡ fresh_seat greatest_allotment }
    {
        let UnnamedJournal {
            sides,
            board,
            knowing,
            direct: _,
        } = self;
        let measures = (sides.block_size(), sides.home_blocks());
        let (pool, mark, raiser, mut seat) = board.named::<J>();
        let credits = pool.none(&mut seat);
        let (reconciler, journal, engine) = sides.named::<SidesOf<J>>();
        let locked = Locked::of(journal, credits, raiser, knowing);
        let counters = Counters { pool, mark };
        (
            Journal::of(counters, reconciler, locked, engine, measures),
            seat,
        )
    }
}
