//! The numbers of lost items, by cause.
ghost use Rattle.std.specs.Prelude.{◌≡◌};
ghost use Rattle.otel_sdk_base.specs.Losses as spec;

use std::default::Default;
use std::fmt::{self, Display, Formatter};

/// The numbers of ended spans or log records that a receiver doesn't have, by cause. Each stops at
/// the maximum `u64`. Not in the Rust crates.
///
/// ```
/// assert!(rt; tracing.processors().losses() == Losses::default());
/// ```
#[derive(Clone, Copy, Debug, PartialEq, Eq)]
pub struct Losses {
    /// The receiver took a request, and rejected these.
    pub rejected: u64,
    /// The exporter gave these up: the receiver refused them for good, or they were too long.
    pub given_up: u64,
    /// A processor dropped these: its queue was full or shut down, or memory ran out.
    pub dropped: u64,
    /// These still wait, in a queue or in an exporter. They are lost if the program ends now.
    pub held: u64,
}

impl Default for Losses {
    ghost is_default = { λ losses. losses ≡ spec.none };

    /// Returns the numbers if nothing is lost.
    fn default() -> Losses {
        Losses {
            rejected: 0,
            given_up: 0,
            dropped: 0,
            held: 0,
        }
    }
}

impl Losses {
    /// Returns the sum for each cause.
    pub fn saturating_add(self, more: Losses) -> Losses
        ensures { result ≡ spec.saturating_add self more }
    {
        Losses {
            rejected: self.rejected.saturating_add(more.rejected),
            given_up: self.given_up.saturating_add(more.given_up),
            dropped: self.dropped.saturating_add(more.dropped),
            held: self.held.saturating_add(more.held),
        }
    }

    /// Returns the sum of all causes. Stops at the maximum `u64`.
    pub fn total(&self) -> u64
        ensures { result ≡ spec.total self.now }
    {
        self.rejected
            .saturating_add(self.given_up)
            .saturating_add(self.dropped)
            .saturating_add(self.held)
    }
}

/// Prints each number with its cause, as in `2 rejected, 0 given up, 1 dropped, 5 not exported`.
impl Display for Losses {
    fn fmt<W: fmt::Write>(&self, f: &mut Formatter<W>) -> fmt::Result {
        let Losses {
            rejected,
            given_up,
            dropped,
            held,
        } = *self;
        write!(
            f,
            "{rejected} rejected, {given_up} given up, {dropped} dropped, {held} not exported"
        )
    }
}
