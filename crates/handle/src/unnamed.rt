//! Creates the credit word and the commit mark, and then gives them their journal's name.
ghost use Rattle.std.specs.Prelude.{◌≡◌, ◌≤◌, [], IfErr, IfOk};
ghost use Rattle.std.specs.Arc.{arc_value};
ghost use Rattle.journal_model.specs.declared.refusal.JournalError.TheVariants.{Memory};
ghost use Rattle.handle.specs.Rule.{first_place, greatest_allotment, greatest_capacity};
ghost use Rattle.handle.specs.Values.{fresh_seat};

use crate::mark::{CommitMark, Raiser};
use crate::place::{Board, JournalName, Place};
use crate::pool::CreditPool;
use crate::seat::Seat;
use crate::words::Words;
use journal_model::{JournalError, Tid};
use std::alloc::{AllocError, Global};
use std::marker::Model;
use std::sync::Arc;

/// The first seat's allotment: the most seats.
const SEATS: u64 = 1024;

/// The unnamed credit word and mark.
#[derive(Drop)]
pub struct UnnamedBoard {
    capacity: u64,
    pool: Arc<Board, Global>,
    mark: Arc<Board, Global>,
    place: Place,
}

impl Model for UnnamedBoard {
    ghost use Rattle.handle.specs.Values.{BoardValue};
    ghost use Rattle.handle.specs.BoardView.{KeepsBoard, board_value_of};

    ghost Value = { BoardValue };

    ghost view = { board_value_of };

    ghost invariant = { KeepsBoard };
}

/// Creates the two words for this capacity, which must be at most 1,048,576, the greatest length of a log. `committed` is the mark's first
/// value: the number before the journal's first transaction. No other call of this crate takes memory.
///
/// # Errors
///
/// `Memory`.
pub fn board(alloc: Global, capacity: u64, committed: Tid) -> Result<UnnamedBoard, JournalError>
    requires { capacity ≤ greatest_capacity }
    ensures ok { IfOk result (λ unnamed. (unnamed.capacity ≡ capacity) × (unnamed.committed ≡ committed)) }
    ensures err { IfErr result (λ e. e ≡ Memory) }
{
    let mark = u64::from(committed.0);
    let (board, place) = Board::of_words(alloc, &[0, mark], &(capacity, mark))?;
    let pool = match Arc::new(alloc, board) {
        Ok(pool) => pool,
        Err(e) => return Err(AllocError::from(e).into()),
    };
    let mark = Arc::try_clone(&pool)?;
    Ok(UnnamedBoard {
        capacity,
        pool,
        mark,
        place,
    })
}

impl UnnamedBoard {
    /// The pool, the mark, its raiser and the first seat of the journal that J names. The caller must show that J names this board.
    pub fn named<J: JournalName>(self) -> (CreditPool<J>, CommitMark<J>, Raiser<J>, Seat<J>)
        requires board { self.board ≡ J.name.board }
        requires capacity { self.capacity ≡ J.name.capacity }
        ensures raiser { result.2 ≡ self.committed }
        ensures seat { result.3 ≡ fresh_seat greatest_allotment }
    {
        let UnnamedBoard {
            capacity,
            pool,
            mark,
            mut place,
        } = self;
        let pool = CreditPool::of(capacity, Words::of(pool));
        let seat = pool.words.unseat(&mut place);
        let mark = CommitMark::of(Words::of(mark));
        (pool, mark, Raiser::of(place), Seat::of(SEATS, seat))
    }
}
