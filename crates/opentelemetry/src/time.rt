//! Clocks, which supply the start times of spans.
ghost use Rattle.std.specs.Prelude.{◌≡◌};
ghost use Rattle.std.specs.Time.{system_time_nanos};
ghost use Rattle.opentelemetry.specs.Clock.{within_u64};

use std::cell::Cell;
use std::time::{SystemTime, UNIX_EPOCH};

/// Supplies a span's start time if its builder gives none. Not in the Rust crate, where spans read
/// the system's clock.
///
/// The ghost member `reads` says which times a clock may show, by default any. Code that is generic
/// over this trait knows nothing of it: only a reading shows it. So a contract that cites it says
/// that the clock was read.
///
/// See [`SystemClock`], [`ManualClock`] and [`CountedClock`].
pub trait Clock: Drop {
    ghost use Rattle.std.specs.Prelude.{ℕ};

    ghost reads: { Self → ℕ → Type 0 } = { λ _ _. Unit {0} };

    /// Returns the current time, in nanoseconds since 1970-01-01T00:00:00Z. A later call may return
    /// an earlier time.
    fn now(&self) -> u64
        ensures { reads self.now result };
}

/// The reading of a source of time. Every [`std::time::Clock`] has it.
///
/// No contract says what a source answers. So the call ensures a ghost member of which code that is
/// generic over this trait knows nothing: only the call shows it. A contract that cites it says
/// that the source was read, and answered so.
pub trait TimeSource: std::time::Clock {
    ghost use Rattle.std.specs.Prelude.{Option};
    ghost use Rattle.std.specs.declared.time.SystemTime.{SystemTime};

    ghost may_answer: { Option SystemTime → Type 0 };

    /// Reads the source, as [`SystemTime::now`]. Returns `None` if it can't be read.
    fn read(&self) -> Option<SystemTime>
        ensures { may_answer result };
}

impl<R: std::time::Clock> TimeSource for R {
    ghost may_answer = { λ _. Unit {0} };

    fn read(&self) -> Option<SystemTime> {
        SystemTime::now(self).ok()
    }
}

/// The system's clock.
///
/// `SystemClock::new(rt)` reads the clock of the runtime.
#[derive(Drop)]
pub struct SystemClock<R> {
    source: R,
}

impl<R: std::time::Clock + Drop> SystemClock<R> {
    /// Creates a clock that reads the given source.
    pub fn new(source: R) -> SystemClock<R> {
        SystemClock { source }
    }
}

/// Returns the nanoseconds since 1970, or `u64::MAX` from the year 2554 on.
fn nanos_of(time: SystemTime) -> u64
    ensures { result ≡ within_u64 (system_time_nanos time) }
{
    match time.duration_since(UNIX_EPOCH) {
        Ok(duration) => u64::try_from(duration.as_nanos()).unwrap_or(u64::MAX),
        Err(_) => 0,
    }
}

impl<R: TimeSource + Drop> Clock for SystemClock<R> {
    ghost use Rattle.opentelemetry.specs.Clock.{IsShown};

    ghost reads = { λ _ time. IsShown R.may_answer time };

    /// Returns the source's time, at most `u64::MAX`, or 0 if the source can't be read.
    fn now(&self) -> u64 {
        match self.source.read() {
            Some(time) => nanos_of(time),
            None => 0,
        }
    }
}

/// A clock that changes only when it is set, for tests.
///
/// ```
/// let clock = ManualClock::new(5);
/// clock.set(7);
/// ```
#[derive(Drop)]
pub struct ManualClock {
    moment: Cell<u64>,
}

impl ManualClock {
    /// Creates a clock that shows the given time, in nanoseconds since 1970-01-01T00:00:00Z.
    pub fn new(moment: u64) -> ManualClock {
        ManualClock {
            moment: Cell::new(moment),
        }
    }

    /// Sets the time, in nanoseconds since 1970-01-01T00:00:00Z. The new time may be before the old
    /// one.
    pub fn set(&self, moment: u64) {
        self.moment.set(moment);
    }
}

impl Clock for ManualClock {
    /// Returns the time that was set last.
    fn now(&self) -> u64 {
        self.moment.get()
    }
}

/// A clock that moves on by the same step at each reading, for output that is the same each time.
///
/// ```
/// let clock = CountedClock::new(2);
/// assert_eq!(rt; clock.now(), 0);
/// assert_eq!(rt; clock.now(), 2);
/// ```
#[derive(Drop)]
pub struct CountedClock {
    next: Cell<u64>,
    step: u64,
}

impl CountedClock {
    /// Creates a clock that shows 0, then `step`, and so on, in nanoseconds since
    /// 1970-01-01T00:00:00Z. Stops at the greatest `u64`.
    pub fn new(step: u64) -> CountedClock {
        CountedClock {
            next: Cell::new(0),
            step,
        }
    }
}

impl Clock for CountedClock {
    /// Returns the next time.
    fn now(&self) -> u64 {
        let now = self.next.get();
        self.next.set(now.saturating_add(self.step));
        now
    }
}
