//! Splits one seat into several.
ghost use Rattle.std.specs.Prelude.{◌≡◌, ◌<◌, ◌≤◌, IfOk, sum_by};
ghost use Rattle.std.specs.VecDeque.{deque_len};

use crate::journal::Journal;
use block_device::Device;
use group_commit::Record;
use handle::{JournalName, Seat};
use std::alloc::{AllocError, Global};
use std::collections::VecDeque;

impl<J: JournalName, D: Device, R: Record> Journal<J, D, R> {
    /// Splits a seat into as many as wanted, at least one, which share its allotment. If that is a power of 2, as the first seat's is, no
    /// seat's part is more than twice another's; there are fewer seats than wanted only if each has an allotment of 1.
    ///
    /// # Errors
    ///
    /// The seats are dropped.
    pub fn split_seats(
        &self,
        alloc: Global,
        seat: Seat<J>,
        wanted: usize,
    ) -> Result<VecDeque<Seat<J>>, AllocError>
        ensures most { IfOk result (λ seats. 0 < wanted → deque_len seats ≤ wanted) }
        ensures whole { IfOk result (λ seats. sum_by (λ s. s.allotment) seats.items ≡ seat.allotment) }
    {
        let mut seats = VecDeque::new(alloc);
        seats.push_back(seat)?;
        for count in 1..wanted {
            let Some(mut seat) = seats.pop_front() else {
                break;
            };
            let other = self.split_seat(&mut seat);
            seats.push_back(seat)?;
            if let Some(other) = other {
                seats.push_back(other)?;
            }
        }
        Ok(seats)
    }
}
