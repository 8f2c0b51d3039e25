//! A list of batches that exists only in contracts, and not at run time.
ghost use Rattle.std.specs.Prelude.{◌≡◌, [], ◌∷◌, ◌++◌, List};
ghost use Rattle.std.specs.Borrow.{ftrue};
ghost use Rattle.std.specs.Coded.{coded_list};

use std::fmt;
use std::marker::{Model, PhantomData};
use std::mem::size_of;

/// The batches of items that an exporter has accepted. The type has size zero, since the batches
/// exist only in contracts. Only [`Accepted::and`] and
/// [`Accepted::and_one`] make a longer list. Not in the Rust crates.
pub struct Accepted<T> {
    of: PhantomData<T>,
    ghost batches: { List (List T) } by { coded_list (coded_list T.code) },
}

// Written out, so that a caller's proof has one call here, and not the drops of all parts.
impl<T> Drop for Accepted<T> {
    fn drop(self) {
        let Accepted { of: _ } = self;
    }
}

const _: () = prove!(size_of::<Accepted<u64>>() == 0);

impl<T> Model for Accepted<T> {
    ghost also_owns = { λ _. ftrue };
}

/// Prints only the name, since the batches exist only in contracts.
impl<T> fmt::Debug for Accepted<T> {
    fn fmt<W: fmt::Write>(&self, f: &mut fmt::Formatter<W>) -> fmt::Result {
        f.debug_struct("Accepted").finish()
    }
}

impl<T> Accepted<T> {
    /// Creates an empty list of batches.
    pub fn new() -> Accepted<T>
        ensures { result.batches ≡ [] }
    {
        Accepted { of: PhantomData }
    }

    /// Returns the list with one more batch at the end.
    pub fn and(&self, _batch: &[T]) -> Accepted<T>
        ensures { result.batches ≡ self.now.batches ++ _batch.now ∷ [] }
    {
        Accepted { of: PhantomData }
    }

    /// Returns the list with one more batch at the end, which contains only the item.
    pub fn and_one(&self, _item: &T) -> Accepted<T>
        ensures { result.batches ≡ self.now.batches ++ (_item.now ∷ []) ∷ [] }
    {
        Accepted { of: PhantomData }
    }
}
