//! A list for contracts alone, of values that the program no longer keeps. It takes no memory.
ghost use Rattle.std.specs.Prelude.{◌≡◌, List, [], ◌∷◌, ◌++◌};
ghost use Rattle.std.specs.Borrow.{ftrue};

use std::fmt;
use std::marker::{Model, PhantomData};

/// A list for contracts alone. A clause reads it as `items`, oldest first.
pub struct History<T> {
    marker: PhantomData<T>,
    pub ghost items: { List T },
}

impl<T> Model for History<T> {
    ghost also_owns = { λ _. ftrue };

    ghost also_shares = { λ _ _ _. ftrue };
}

// It owns nothing, so it may go to another thread whatever `T` is.
unsafe impl<T> Send for History<T> {}

unsafe impl<T> Sync for History<T> {}

impl<T> History<T> {
    /// An empty list.
    pub fn new() -> History<T>
        ensures { result.items ≡ [] }
    {
        History {
            marker: PhantomData,
        }
    }

    /// Adds an item, which the caller keeps.
    pub fn push(&mut self, _item: &T)
        ensures { self.new.items ≡ self.old.items ++ _item.now ∷ [] }
    {}
}

impl<T> Drop for History<T> {
    fn drop(self) {
        let Self { marker: _ } = self;
    }
}

impl<T> fmt::Debug for History<T> {
    fn fmt<W: fmt::Write>(&self, f: &mut fmt::Formatter<W>) -> fmt::Result {
        f.write_str("History")
    }
}
