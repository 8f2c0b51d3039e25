//! The calls of tracers whose results no contract sees.
use crate::trace::id_generator::count::count_one;
use otel_sdk_base::Clock;
use std::cell::Cell;

/// The calls of tracers on their clock and on their provider's cells. Every [`Clock`] has them.
///
/// No contract sees what a clock shows or what a cell holds. So each call ensures a ghost member of
/// which code that is generic over this trait knows nothing: only the call shows it. A contract
/// that cites it says that the call was made.
pub trait TracerCalls: Clock {
    ghost use Rattle.std.specs.Prelude.{ℕ, Bool};

    ghost may_show: { ℕ → Type 0 };

    ghost is_read: { Bool → Type 0 };

    ghost is_counted: { Type 0 };

    ghost is_closed: { Type 0 };

    ghost may_have_failed: { ℕ → Type 0 };

    /// Returns the current time, as [`Clock::now`].
    fn show(&self) -> u64
        ensures shown { may_show result }
        ensures read { Self.reads self.now result };

    /// Returns the flag.
    fn read(flag: &Cell<bool>) -> bool
        ensures { is_read result };

    /// Counts a span for which no ids were generated, up to `u64::MAX`.
    fn count_failed(failed: &Cell<u64>)
        ensures { is_counted };

    /// Sets the flag.
    fn close(flag: &Cell<bool>)
        ensures { is_closed };

    /// Returns the number of spans for which no ids were generated.
    fn failed(failed: &Cell<u64>) -> u64
        ensures { may_have_failed result };
}

impl<C: Clock> TracerCalls for C {
    ghost may_show = { λ _. Unit {0} };

    ghost is_read = { λ _. Unit {0} };

    ghost is_counted = { Unit {0} };

    ghost is_closed = { Unit {0} };

    ghost may_have_failed = { λ _. Unit {0} };

    fn show(&self) -> u64 {
        self.now()
    }

    fn read(flag: &Cell<bool>) -> bool {
        flag.get()
    }

    fn count_failed(failed: &Cell<u64>) {
        count_one(failed);
    }

    fn close(flag: &Cell<bool>) {
        flag.set(true);
    }

    fn failed(failed: &Cell<u64>) -> u64 {
        failed.get()
    }
}
