//! Credits and handles. Only a front makes them (`Front::{reserve, join}`) and ends them (`Front::{take_back, join_with, give,
//! stop_handle}`). Neither can be dropped, so none is forgotten.
ghost use Rattle.std.specs.Prelude.{◌≡◌, ◌⊎◌, ◌+◌, ◌<◌, ◌≤◌, IfErr, IfOk, OnOk};
ghost use Rattle.journal_world.specs.Front.{FrontHappens, next_handle};
ghost use Rattle.journal_world.specs.Front.FrontEvent.{ExtendHandle, GiveBack, Join, StopHandle};
ghost use Rattle.journal_front.specs.Front.{ExtendRefused, IsOpenHandle, JoinRefused};

use crate::Touch;
use crate::front::Front;
use crate::record::Record;
use journal_model::{HandleNo, JournalError, Tid};
use std::marker::Model;

/// Granted credits: each lets a handle touch one more block. They can't be dropped or copied: give them back to the journal that
/// granted them, or use them in a handle.
/// Source: journalling.rst (the credits of `journal_start`).
#[derive(Debug)]
pub struct Credits {
    count: u64,
}

impl Model for Credits {
    ghost use Rattle.std.specs.Prelude.{ℕ};

    ghost Value = { ℕ };

    ghost view = { λ c. c.count };
}

impl Credits {
    ghost use Rattle.std.specs.Prelude.{◌≡◌};

    pub(crate) fn new(count: u64) -> Self
        ensures { result ≡ count }
    {
        Credits { count }
    }

    /// How many credits these are.
    pub fn count(&self) -> u64
        ensures { result ≡ self.now }
    {
        self.count
    }
}

/// A handle: it writes and revokes blocks in one transaction; after a crash all of its changes are there, or none. It can't be dropped
/// or copied: stop it, even after a device failure. Until then its transaction can't be committed.
/// Source: journalling.rst (`journal_start` and `journal_stop`).
#[derive(Debug)]
pub struct Handle {
    number: HandleNo,
    tid: Tid,
    left: u64,
}

impl Model for Handle {
    ghost use Rattle.journal_front.specs.Values.{HandleValue};

    ghost Value = { HandleValue };

    ghost view = { λ h. record { number = h.number; tid = h.tid; left = h.left } };
}

impl Handle {
    ghost use Rattle.std.specs.Prelude.{◌≡◌, ◌+◌, ◌-◌, ◌^◌, ◌<◌, ◌≤◌};
    ghost use Rattle.journal_front.specs.Transaction.{cost};

    pub(crate) fn new(number: HandleNo, tid: Tid, left: u64) -> Self
        ensures { result ≡ record { number = number; tid = tid; left = left } }
    {
        Handle { number, tid, left }
    }

    /// Its number, unique in the journal.
    pub fn number(&self) -> HandleNo
        ensures { result ≡ self.now.number }
    {
        self.number
    }

    /// Its transaction's number.
    pub fn tid(&self) -> Tid
        ensures { result ≡ self.now.tid }
    {
        self.tid
    }

    /// How many credits it has left.
    pub fn left(&self) -> u64
        ensures { result ≡ self.now.left }
    {
        self.left
    }

    /// Pays for a touch with its credits.
    pub(crate) fn pay(&mut self, touch: Touch)
        requires { cost touch ≤ self.old.left }
        ensures { self.new ≡ record self.old { left = self.old.left - cost touch } }
    {
        self.left -= touch.cost();
    }

    /// Adds `n` credits.
    pub(crate) fn extend(&mut self, n: u64)
        requires { self.old.left + n < 2 ^ 64 }
        ensures { self.new ≡ record self.old { left = self.old.left + n } }
    {
        self.left += n;
    }
}

impl<R: Record> Front<R> {
    /// Takes back credits that are in no handle. If the front has fewer, nothing changes.
    pub fn take_back(&mut self, credits: Credits)
        ensures granted { credits ≤ self.old.reserved → FrontHappens self.old (GiveBack credits) self.new }
        ensures other { self.old.reserved < credits → self.new ≡ self.old }
    {
        let Credits { count } = credits;
        self.give_back(count);
    }

    /// Makes a handle with these credits.
    ///
    /// # Errors
    ///
    /// Those of `join`. The credits come back, and nothing else changes.
    pub fn join_with(&mut self, credits: Credits) -> Result<Handle, (Credits, JournalError)>
        ensures ok { IfOk result (λ handle. FrontHappens self.old (Join credits) self.new
            × (handle ≡ record { number = next_handle self.old; tid = self.old.running.tid; left = credits })) }
        ensures open { IfOk result (IsOpenHandle self.new) }
        ensures err { IfErr result (λ e. (e.0 ≡ credits) × JoinRefused self.old credits e.1 × (self.new ≡ self.old)) }
    {
        match self.join(credits.count) {
            Ok(handle) => {
                let Credits { count: _ } = credits;
                Ok(handle)
            }
            Err(e) => Err((credits, e)),
        }
    }

    /// Gives these credits to an open handle.
    ///
    /// # Errors
    ///
    /// Those of `extend`. The credits come back, and nothing else changes.
    pub fn give(
        &mut self,
        handle: &mut Handle,
        credits: Credits,
    ) -> Result<(), (Credits, JournalError)>
        ensures ok { OnOk result (FrontHappens self.old (ExtendHandle handle.old.number credits) self.new) }
        ensures open { OnOk result (IsOpenHandle self.new handle.new) }
        ensures handle { OnOk result (handle.new ≡ record handle.old { left = handle.old.left + credits }) }
        ensures err { IfErr result (λ e. (e.0 ≡ credits) × ExtendRefused self.old handle.old credits e.1 × (self.new ≡ self.old) × (handle.new ≡ handle.old)) }
    {
        match self.extend(handle, credits.count) {
            Ok(()) => {
                let Credits { count: _ } = credits;
                Ok(())
            }
            Err(e) => Err((credits, e)),
        }
    }

    /// Ends a handle and takes back its unused credits. One that is not open changes nothing.
    pub fn stop_handle(&mut self, handle: Handle)
        ensures stops { IsOpenHandle self.old handle → FrontHappens self.old (StopHandle handle.number) self.new }
        ensures other { (IsOpenHandle self.old handle → ⊥) → self.new ≡ self.old }
        ensures either { FrontHappens self.old (StopHandle handle.number) self.new ⊎ (self.new ≡ self.old) }
        ensures given { self.new.given ≡ self.old.given }
        ensures running { self.new.running ≡ self.old.running }
    {
        let is_open = self.is_open(&handle);
        let Handle {
            number,
            tid: _,
            left,
        } = handle;
        if is_open {
            self.stop(number, left);
        }
    }
}
