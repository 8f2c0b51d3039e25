//! The time to wait before a request is sent again.
ghost use Rattle.std.specs.Prelude.{◌≡◌, ◌≤◌, ◌*◌, ◌/◌, min, max};
ghost use Rattle.otel_otlp.specs.Backoff as spec;

use std::marker::Model;
use std::random::RandomSource;

/// The wait after the first refusal, in milliseconds.
const FIRST: u64 = 1000;

/// The longest wait before the factor, in milliseconds.
const LONGEST: u64 = 30_000;

/// Says how long to wait before a refused request is sent again. Nothing waits here: the caller
/// does. Not in the Rust crate, which leaves it to its client.
///
/// The wait is 1 s after the first refusal in a row, and doubles up to 30 s. It is multiplied by a
/// random factor between 0.8 and 1.2, so that programs that were refused together don't return
/// together. A longer wait that the collector asked for wins.
///
/// ```
/// let mut backoff = Backoff::new();
/// assert_eq!(rt; backoff.refused(1000, None), 1000);
/// assert_eq!(rt; backoff.refused(1000, Some(7)), 7000);
/// backoff.accepted();
/// assert_eq!(rt; backoff.refused(1000, None), 1000);
/// ```
///
/// Contracts see the next wait before the factor, in milliseconds.
#[derive(Debug, Drop)]
pub struct Backoff {
    next: u64,
    ghost bound: { next ≤ 30_000 },
}

impl Model for Backoff {
    ghost use Rattle.std.specs.Prelude.{ℕ};

    ghost Value = { ℕ };

    ghost view = { λ backoff. backoff.next };
}

impl Backoff {
    /// Returns a backoff with no refusal yet.
    pub fn new() -> Backoff
        ensures { result ≡ spec.first }
    {
        Backoff { next: FIRST }
    }

    /// Starts anew: the next refusal is the first in a row.
    pub fn accepted(&mut self)
        ensures { self.new ≡ spec.first }
    {
        self.next = FIRST;
    }

    /// Counts a refusal, and returns the wait in milliseconds. The factor is in thousandths, and a
    /// factor above 2000 counts as 2000. `asked` is the wait that the collector asked for, in
    /// seconds.
    pub fn refused(&mut self, factor: u16, asked: Option<u64>) -> u64
        ensures wait { result ≡ spec.wait self.old factor asked }
        ensures next { self.new ≡ spec.next self.old }
    {
        let own = self.next * u64::from(factor.min(2000)) / 1000;
        self.next = (self.next * 2).min(LONGEST);
        match asked {
            Some(seconds) => own.max(seconds.saturating_mul(1000)),
            None => own,
        }
    }
}

/// Draws a factor between 0.8 and 1.2, in thousandths. It is 1 if the source fails.
pub(crate) fn drawn_factor<S: RandomSource>(source: &S) -> u16
    ensures low { 800 ≤ result }
    ensures high { result ≤ 1200 }
{
    let mut bytes = [0; 2];
    match source.fill_bytes(&mut bytes) {
        Ok(()) => 800 + u16::from_le_bytes(bytes) % 401,
        Err(_) => 1000,
    }
}
