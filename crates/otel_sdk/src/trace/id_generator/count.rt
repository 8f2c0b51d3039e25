//! Counting in a cell.
ghost use Rattle.std.specs.Prelude.{◌≡◌};
ghost use Rattle.otel_sdk.specs.IdGenerator.{CountsOne, CountsUp};

use crate::trace::id_generator::IdError;
use std::cell::Cell;

/// A count in a cell. Every [`Cell<u64>`](Cell) is one.
///
/// No contract sees what a cell holds. So a call ensures a ghost relation of which code that is
/// generic over this trait knows nothing: only the call shows what the cell held, or holds.
pub trait CountCell {
    ghost use Rattle.std.specs.Prelude.{ℕ};

    ghost may_have: { ℕ → Type 0 };

    ghost is_given: { ℕ → Type 0 };

    /// Returns the count.
    fn count(&self) -> u64
        ensures { may_have result };

    /// Replaces the count.
    fn set_count(&self, count: u64)
        ensures { is_given count };
}

impl CountCell for Cell<u64> {
    ghost may_have = { λ _. Unit {0} };

    ghost is_given = { λ _. Unit {0} };

    fn count(&self) -> u64 {
        self.get()
    }

    fn set_count(&self, count: u64) {
        self.set(count);
    }
}

/// Increments the count. Returns the new count.
///
/// # Errors
///
/// `Zero` if the numbers are used up. The count stays.
pub(crate) fn count_up<K: CountCell>(counter: &K) -> Result<u64, IdError>
    ensures { CountsUp K.may_have K.is_given result }
{
    let Some(next) = counter.count().checked_add(1) else {
        return Err(IdError::Zero);
    };
    counter.set_count(next);
    Ok(next)
}

/// Increments the count, up to `u64::MAX`.
pub(crate) fn count_one<K: CountCell>(counter: &K)
    ensures { CountsOne K.may_have K.is_given }
{
    counter.set_count(counter.count().saturating_add(1));
}
