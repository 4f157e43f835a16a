//! The calls that a device made on its files, for proofs.
ghost use Rattle.std.specs.Prelude.{◌≡◌, List, [], ◌∷◌};
ghost use Rattle.std.specs.Borrow.{ftrue};
ghost use Rattle.file_device.specs.Calls.{FileCall};

use journal_model::Area;
use std::marker::Model;

/// A device's calls on its files, newest first, in proofs alone: it has no bytes, and its functions do nothing.
#[derive(Drop)]
pub(crate) struct History {
    pub ghost calls: { List FileCall },
}

impl Model for History {
    ghost also_owns = { λ _. ftrue };
}

// It owns nothing, so it may go to another thread.
unsafe impl Send for History {}

/// A call on an area's file, with its answer. Lengths and places are in bytes, places from the beginning of the file.
#[derive(Clone, Copy, Drop)]
pub(crate) enum Note<'a> {
    /// The length of the file, or the part of it that the area has; 0 for an area without a file.
    Measured(Area, u64),
    /// These bytes came from this place on.
    Read(Area, u64, &'a [u8]),
    /// A read from this place on failed.
    ReadFailed(Area, u64),
    /// These bytes were taken at this place.
    Wrote(Area, u64, &'a [u8]),
    /// These bytes were handed over for this place, and the call failed.
    WriteFailed(Area, u64, &'a [u8]),
    /// Gathered blocks were handed over for this place in one call, and it failed.
    GatheredFailed(Area, u64, &'a [u8]),
    /// The file was synced.
    Synced(Area),
    /// A sync of the file failed.
    SyncFailed(Area),
}

impl History {
    ghost use Rattle.file_device.specs.Notes.{call_of};

    /// No call so far.
    pub(crate) fn new() -> History
        ensures { result.calls ≡ [] }
    {
        History {}
    }

    /// The calls, with one more.
    pub(crate) fn then(&self, _note: &Note<'_>) -> History
        ensures { result.calls ≡ call_of _note.now ∷ self.now.calls }
    {
        History {}
    }
}
