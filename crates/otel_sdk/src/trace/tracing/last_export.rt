//! The last export of a value that traces, which is tried again for some time.
ghost use Rattle.std.specs.Prelude.{◌≡◌, ◌≢◌, ◌-◌, ◌<◌, ◌≤◌, IfOk, IsTrue, OnOk, [], false, true};
ghost use Rattle.std.specs.Prelude.{option_map, string_bytes};
ghost use Rattle.std.specs.Option.{option_copied};
ghost use Rattle.otel_sdk.specs.LastExport as spec;
ghost use Rattle.otel_sdk.specs.LastExport.{Finishes, HasGivenUp, HasWaited, IsLast, IsOutcome};
ghost use Rattle.otel_sdk.specs.LastExport.{with_moment};
ghost use Rattle.otel_sdk.specs.Exports.{ShutsDown};
ghost use Rattle.otel_sdk_base.specs.Losses as losses;

use super::Exports;
use crate::env::EnvBatches;
use crate::trace::processor::SpanProcessor;
use opentelemetry::trace::Tracing;
use otel_sdk_base::error::OTelSdkError;
use otel_sdk_base::{Clock, Losses};
use std::alloc::{AllocError, Global};
use std::error::Error;
use std::fmt::{self, Display, Formatter};
use std::marker::Model;

/// The time between two tries, in nanoseconds.
const PAUSE: u64 = 100_000_000;

/// A clock that shows no later timestamp so often in a row has stopped.
const STILL: u32 = 10_000_000;

/// The error of [`finish`]: the spans that are lost, and why.
#[derive(Debug, Drop)]
pub struct Unfinished {
    /// The sampled spans that ended and that the receivers don't have, by cause.
    pub losses: Losses,
    /// The error of the last try, if it failed.
    pub error: Option<OTelSdkError>,
    /// The last message of a receiver, if there is any. An error if out of memory.
    pub message: Result<Option<String>, AllocError>,
}

/// Prints the numbers, the error and the message, in one line.
impl Display for Unfinished {
    fn fmt<W: fmt::Write>(&self, f: &mut Formatter<W>) -> fmt::Result {
        match self.losses.total() {
            0 => f.write_str("spans may be lost")?,
            total => write!(f, "{total} spans are lost ({})", self.losses)?,
        }
        if let Some(error) = &self.error {
            write!(f, ": {error}")?;
        }
        if let Ok(Some(message)) = &self.message {
            write!(f, "; the receiver says: {message:?}")?;
        }
        Ok(())
    }
}

impl Error for Unfinished {}

/// Measures by a clock how much of a time is left. The time is no longer if the clock is set back,
/// or stops.
#[derive(Drop)]
pub(super) struct Timer {
    /// The timestamp that the clock showed last, in nanoseconds since 1970.
    last: u64,
    /// The time that is left, in nanoseconds.
    left: u64,
}

impl Model for Timer {
    ghost use Rattle.otel_sdk.specs.LastExport.{TimeLeft};

    ghost Value = { TimeLeft };

    ghost view = { λ t. record { last = t.last; left = t.left } };
}

impl Timer {
    /// Returns a timer that starts now.
    pub(super) fn new<C: Clock>(clock: &C, millis: u32) -> Timer
        ensures shown { C.reads clock.now result.last }
        ensures left { result.left ≡ spec.nanos_of millis }
    {
        Timer {
            last: clock.now(),
            left: u64::from(millis) * 1_000_000,
        }
    }

    /// Starts the time anew, at the timestamp that the clock showed last.
    pub(super) fn restart(&mut self, millis: u32)
        ensures { self.new ≡ record { last = self.old.last; left = spec.nanos_of millis } }
    {
        self.left = u64::from(millis) * 1_000_000;
    }

    /// Returns the time that is left, in nanoseconds.
    pub(super) fn left(&self) -> u64
        ensures { result ≡ self.now.left }
    {
        self.left
    }

    /// Reads the clock. Returns `true` if it shows a later timestamp than before.
    pub(super) fn read<C: Clock>(&mut self, clock: &C) -> bool
        ensures shown { C.reads clock.now self.new.last }
        ensures passed { self.new ≡ with_moment self.new.last self.old }
        ensures later { IsTrue result → self.old.last < self.new.last }
        ensures still { result ≡ false → self.new.last ≤ self.old.last }
    {
        let now = clock.now();
        let passed = now.saturating_sub(self.last);
        self.last = now;
        self.left = self.left.saturating_sub(passed);
        passed > 0
    }

    /// Reads the clock until [`PAUSE`] has passed, or the time is over. Returns `false` if the time
    /// was over before, or if the clock has stopped.
    fn wait<C: Clock>(&mut self, clock: &C) -> bool
        ensures waited { IsTrue result → HasWaited (C.reads clock.now) self.old self.new }
        ensures less { IsTrue result → self.new.left < self.old.left }
        ensures stopped { result ≡ false → self.old.left ≢ 0
            → self.old.left - PAUSE < self.new.left }
        ensures gave_up { result ≡ false → HasGivenUp (C.reads clock.now) self.old }
    {
        if self.left == 0 {
            return false;
        }
        let due = self.left.saturating_sub(PAUSE);
        let mut still = 0;
        while self.left > due && still < STILL {
            still = if self.read(clock) { 0 } else { still + 1 };
        }
        self.left <= due
    }
}

/// Shuts the value down, again and again while that leaves a processor open and the timer allows it.
fn shut_down<T: Exports, C: Clock>(
    tracing: &mut T,
    clock: &C,
    mut timer: Timer,
) -> Result<usize, OTelSdkError>
    ensures last { IsLast (λ answer old new. ShutsDown T.Source.calls T.Processors.calls
        T.processors_of T.Source.Span.after_end answer (T.Tracing.held old)
        (T.Tracing.held new)) (λ t. T.Processors.calls.is_shut_down
        (T.processors_of (T.Tracing.held t).source)) (C.reads clock.now) timer result
        tracing.old tracing.new }
    ensures none_open { (T.Tracing.held tracing.new).places ≡ [] }
    ensures closed { OnOk result (T.Processors.calls.is_shut_down
        (T.processors_of (T.Tracing.held tracing.new).source) ≡ true) }
{
    let mut answer = tracing.shutdown();
    while answer.is_err() && !tracing.processors().is_shut_down() && timer.wait(clock) {
        answer = tracing.shutdown();
    }
    answer
}

/// Returns a copy of the message.
fn copy_of(alloc: Global, message: Option<&str>) -> Result<Option<String>, AllocError>
    ensures { IfOk result (λ copy. option_map string_bytes copy ≡ option_copied message.entry) }
{
    match message {
        Some(message) => Ok(Some(String::from_str(alloc, message)?)),
        None => Ok(None),
    }
}

/// Returns the outcome of the last shutdown, which left the processors like this.
fn outcome<X: SpanProcessor>(
    alloc: Global,
    shutdown: Result<usize, OTelSdkError>,
    processors: &X,
) -> Result<(), Unfinished>
    ensures { IsOutcome shutdown (X.calls.losses processors.now)
        (X.calls.last_message processors.now) result }
{
    let losses = processors.losses();
    let error = shutdown.err();
    if error.is_none() && losses.total() == 0 {
        return Ok(());
    }
    Err(Unfinished {
        losses,
        error,
        message: copy_of(alloc, processors.last_message()),
    })
}

/// Shuts a value that traces down at the end of a program: ends every open span, exports every
/// span, and shuts the exporters down. While an exporter fails, tries again every 100 ms, for as
/// long as an export may take by the clock: `OTEL_BSP_EXPORT_TIMEOUT`. Nothing sleeps here: the
/// clock is read all the time. Not in the Rust crate, whose processor has a thread.
///
/// ```
/// finish(&mut tracing, &SystemClock::new(rt), &config.span_batches)?;
/// ```
///
/// # Errors
///
/// Each sampled span that ended and that a receiver doesn't have is counted, by cause, with the
/// error of the last try if it failed, as [`Exports::shutdown`], and the last message of a receiver.
/// If an exporter wasn't shut down, a later try may still export the spans that are held. The error
/// of an exporter's own shutdown isn't told if another exporter is tried again after it.
pub fn finish<T: Exports, C: Clock>(
    tracing: &mut T,
    clock: &C,
    batches: &EnvBatches,
) -> Result<(), Unfinished>
    ensures finishes { Finishes (λ answer old new. ShutsDown T.Source.calls
        T.Processors.calls T.processors_of T.Source.Span.after_end answer
        (T.Tracing.held old) (T.Tracing.held new)) (λ t. T.Processors.calls.is_shut_down
        (T.processors_of (T.Tracing.held t).source)) (C.reads clock.now)
        (λ t. T.Processors.calls.losses (T.processors_of (T.Tracing.held t).source))
        (λ t. T.Processors.calls.last_message (T.processors_of (T.Tracing.held t).source))
        batches.now.export_timeout_millis result tracing.old tracing.new }
    ensures none_open { (T.Tracing.held tracing.new).places ≡ [] }
    ensures closed { OnOk result (T.Processors.calls.is_shut_down
        (T.processors_of (T.Tracing.held tracing.new).source) ≡ true) }
    ensures none_lost { OnOk result (T.Processors.calls.losses
        (T.processors_of (T.Tracing.held tracing.new).source) ≡ losses.none) }
{
    let timer = Timer::new(clock, batches.export_timeout_millis);
    let shutdown = shut_down(tracing, clock, timer);
    outcome(tracing.alloc(), shutdown, tracing.processors())
}
