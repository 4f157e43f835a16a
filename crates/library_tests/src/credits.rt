//! Credits and the commit mark, in one thread and in two, with answers worked out by hand.
ghost use Rattle.std.specs.Prelude.{◌≡◌};

use crate::expected::expect;
use handle::{
    CommitMark, CreditPool, HandleToken, JournalName, Raiser, Seat, TicketToken, UnnamedBoard,
    board,
};
use journal_model::{HandleNo, Status, Tid};
use std::marker::Brand;
use std::process::Abort;
use std::sync::atomic::{AtomicU64, Ordering};
use std::test::Fail;
use std::thread::{Threads, join};

/// The refusal's number, or 0; granted credits are given back.
fn refusal<J: JournalName>(pool: &CreditPool<J>, seat: &mut Seat<J>, n: u64) -> u8 {
    match pool.reserve(seat, n) {
        Ok(credits) => {
            credits.give_back(pool);
            0
        }
        Err(e) => e.number(),
    }
}

/// Reserves, joins, splits and gives back credits of a pool of 6.
fn credits<J: JournalName, R: Abort>(rt: &R, pool: &CreditPool<J>, seat: &mut Seat<J>) {
    let too_many = refusal(pool, seat, 7);
    let Ok(mut first) = pool.reserve(seat, 3) else {
        panic!(rt; "3 of 6 credits are refused")
    };
    let Ok(second) = pool.reserve(seat, 3) else {
        panic!(rt; "3 of 3 credits are refused")
    };
    let more = [refusal(pool, seat, 1), refusal(pool, seat, 0)];
    let all = pool.word(seat);
    first.join(pool, second);
    let third = first.split(pool, 2);
    let counts = [first.count(), third.count()];
    third.give_back(pool);
    let word = pool.word(seat);
    let within = refusal(pool, seat, 2);
    first.give_back(pool);
    let words = [pool.capacity(), all, word, pool.word(seat)];
    let told = (too_many, more, within, counts, words);
    expect(rt, &told, &(6, [5, 0], 0, [4, 2], [6, 6, 4, 0]));
}

/// A handle of transaction 2 stops and asks whether it is committed; the mark is 1. Its credits are held with its entry's.
fn answers<J: JournalName, R: Abort>(
    rt: &R,
    pool: &CreditPool<J>,
    mark: &CommitMark<J>,
    raiser: &mut Raiser<J>,
    seat: &mut Seat<J>,
) {
    let Ok(credits) = pool.reserve(seat, 2) else {
        panic!(rt; "2 of 6 credits are refused")
    };
    let mut held = pool.none(seat);
    held.join(pool, credits);
    let ticket = mark.ticket(raiser, HandleNo(1), Tid(2));
    let handle = HandleToken::new(pool, raiser, ticket);
    let name = (handle.number().0, handle.tid().0);
    let open = (held.count(), pool.word(seat));
    held.split(pool, 1).give_back(pool);
    let ticket = handle.end(raiser);
    let stopped = (held.count(), pool.word(seat));
    held.give_back(pool);
    let left = (pool.word(seat), u64::from(mark.seen(seat).0));
    expect(
        rt,
        &(name, [open, stopped, left]),
        &((1, 2), [(2, 2), (1, 1), (0, 1)]),
    );
    asks(rt, mark, raiser, seat, ticket);
}

/// Asks before and after the mark reaches transaction 2.
fn asks<J: JournalName, R: Abort>(
    rt: &R,
    mark: &CommitMark<J>,
    raiser: &mut Raiser<J>,
    seat: &mut Seat<J>,
    ticket: TicketToken<J>,
) {
    let before = mark.status(&ticket, seat);
    let Err(ticket) = ticket.reach(mark) else {
        panic!(rt; "a receipt is given too early")
    };
    mark.raise(raiser, Tid(2));
    mark.raise(raiser, Tid(1));
    let seen = mark.seen(seat).0;
    let behind = mark.status(&ticket, seat);
    mark.compare(raiser, seat);
    let Ok(mut receipt) = ticket.reach(mark) else {
        panic!(rt; "no receipt is given")
    };
    mark.confirm(raiser, &mut receipt);
    let named = (receipt.handle().0, receipt.tid().0);
    let told = (before, behind, seen, named);
    expect(rt, &told, &(Status::Open, Status::Committed, 2, (1, 2)));
}

/// How often each thread reserves.
const ROUNDS: u64 = 1_000_000;

/// Reserves 4 of 6 credits over and over. Returns whether `held` never exceeded 4.
fn hammer<J: JournalName>(pool: &CreditPool<J>, mut seat: Seat<J>, held: &AtomicU64) -> bool {
    let mut within = true;
    for _ in 0..ROUNDS {
        if let Ok(credits) = pool.reserve(&mut seat, 4) {
            within = held.fetch_add(4, Ordering::SeqCst) == 0 && within;
            held.fetch_sub(4, Ordering::SeqCst);
            credits.give_back(pool);
        }
    }
    within
}

fn two_at_once<J: JournalName + Send + Sync, R: Threads + Abort + Sync>(
    rt: &R,
    pool: &CreditPool<J>,
    seat: &mut Seat<J>,
) {
    let (Some(first), Some(second)) = (seat.split(pool), seat.split(pool)) else {
        panic!(rt; "there is no further seat")
    };
    let held = AtomicU64::new(0);
    let (one, other) = join(
        rt,
        || -> bool { hammer(pool, first, &held) },
        || -> bool { hammer(pool, second, &held) },
    );
    let left = (pool.word(seat), refusal(pool, seat, 6));
    expect(rt, &(one && other, left), &(true, (0, 0)));
}

fn on_board<J: JournalName + Send + Sync, R: Threads + Abort + Sync>(rt: &R, unnamed: UnnamedBoard)
    requires { (unnamed.board ≡ J.name.board) × (unnamed.capacity ≡ J.name.capacity) }
{
    let (pool, mark, mut raiser, mut seat) = unnamed.named::<J>();
    credits(rt, &pool, &mut seat);
    answers(rt, &pool, &mark, &mut raiser, &mut seat);
    two_at_once(rt, &pool, &mut seat);
}

#[test]
fn credits_and_mark_are_kept(rt: HostRuntime) -> Result<(), Fail> {
    let unnamed = board(rt.alloc(), 6, Tid(1))?;
    on_board::<Brand, _>(&rt, unnamed);
    Ok(())
}
