//! How a commit and a release change the copies.
ghost use Rattle.std.specs.Prelude.{◌≡◌, ℕ, ◌+◌, ◌<◌, ◌≤◌, ◌++◌, List, None, Some, false, length, map, drop, nat_eq, slice_get, vec_capacity};
ghost use Rattle.std.specs.List.{IsDistinct};
ghost use Rattle.journal_model.specs.Transaction.{copied};
ghost use Rattle.checkpoint.specs.Copies.{AreCopies, newest_in};
ghost use Rattle.checkpoint.specs.Steps.{AreDead, IsAtLive, Releases, fresh, places_of, withdrawn_all};
ghost use Rattle.checkpoint.specs.declared.copies.QueuedCopy.{QueuedCopy};

use crate::copies::Copies;
use journal_model::{BlockNo, Entry, Tid};

/// Withdraws the copies of the blocks that the entries touch.
pub(crate) fn withdraw_touched(copies: &mut Copies, entries: &[(BlockNo, Entry)])
    requires kept { AreCopies copies.old }
    ensures withdrawn { copies.new ≡ record copies.old { copies = withdrawn_all (map (λ e. e.0) entries.now) copies.old.copies } }
    ensures kept { AreCopies copies.new }
{
    for (block, _) in entries {
        copies.withdraw(*block);
    }
}

/// The blocks of the copies among the entries, with their places.
pub(crate) fn list_copies(list: &mut Vec<(BlockNo, usize)>, entries: &[(BlockNo, Entry)])
    requires { length (copied entries.now) ≤ vec_capacity list.old }
    ensures places { list.new.items ≡ places_of 0 entries.now }
    ensures capacity { vec_capacity list.new ≡ vec_capacity list.old }
{
    list.clear();
    for (place, (block, entry)) in entries.iter().enumerate() {
        if let Entry::Copy(_) = entry {
            list.push_reserved((*block, place));
        }
    }
}

pub(crate) fn push_listed(copies: &mut Copies, list: &[(BlockNo, usize)], tid: Tid)
    requires kept { AreCopies copies.old }
    requires room { length copies.old.copies + length list.now ≤ copies.old.room }
    requires distinct { IsDistinct nat_eq (map (λ p. p.0) list.now) }
    requires single { (k : ℕ) (p : ℕ × ℕ) → slice_get list.now k ≡ Some p → newest_in copies.old.copies p.0 ≡ None }
    ensures pushed { copies.new ≡ record copies.old { copies = copies.old.copies ++ map (fresh tid) list.now } }
    ensures kept { AreCopies copies.new }
{
    for (block, place) in list {
        copies.push(tid, *block, *place);
    }
}

/// The place of the first live copy from `from` on, or the end.
pub(crate) fn skip_dead(copies: &Copies, from: usize) -> usize
    requires { from ≤ length copies.now.copies }
    ensures live { IsAtLive copies.now.copies result }
    ensures dead { AreDead copies.now.copies from result }
    ensures after { from ≤ result }
{
    let mut place = from;
    while place < copies.len() && !copies.at(place).live {
        place += 1;
    }
    place
}

/// Drops the first copies, of transactions up to `bound`, and answers how many.
pub(crate) fn drop_released(copies: &mut Copies, bound: Tid) -> usize
    requires kept { AreCopies copies.old }
    ensures dropped { copies.new ≡ record copies.old { copies = drop result copies.old.copies } }
    ensures releases { Releases bound copies.old.copies result }
    ensures kept { AreCopies copies.new }
{
    let all = copies.len();
    while copies.len() > 0 && copies.at(0).tid <= bound {
        copies.pop();
    }
    all - copies.len()
}
