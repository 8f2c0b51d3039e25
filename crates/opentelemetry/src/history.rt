//! A list that exists only in contracts, and not at run time.
ghost use Rattle.std.specs.Prelude.{◌≡◌, [], ◌∷◌, ◌++◌, List};
ghost use Rattle.std.specs.Borrow.{ftrue};
ghost use Rattle.std.specs.Coded.{coded_list};

use std::fmt;
use std::marker::{Model, PhantomData};
use std::mem::size_of;

/// What happened so far, as a list of values that only contracts see. The type has size zero. Only
/// [`History::and`] makes a longer list. Not in the Rust crate.
pub struct History<T> {
    of: PhantomData<T>,
    ghost items: { List T } by { coded_list T.code },
}

// Written out, so that a caller's proof has one call here, and not the drops of all parts.
impl<T> Drop for History<T> {
    fn drop(self) {
        let History { of: _ } = self;
    }
}

const _: () = prove!(size_of::<History<u64>>() == 0);

impl<T> Model for History<T> {
    ghost also_owns = { λ _. ftrue };
}

/// Prints only the name, since the list exists only in contracts.
impl<T> fmt::Debug for History<T> {
    fn fmt<W: fmt::Write>(&self, f: &mut fmt::Formatter<W>) -> fmt::Result {
        f.debug_struct("History").finish()
    }
}

impl<T> History<T> {
    /// Returns the empty list.
    pub fn new() -> History<T>
        ensures { result.items ≡ [] }
    {
        History { of: PhantomData }
    }

    /// Returns the list with one more item at the end.
    pub fn and(&self, _item: &T) -> History<T>
        ensures { result.items ≡ self.now.items ++ _item.now ∷ [] }
    {
        History { of: PhantomData }
    }
}
