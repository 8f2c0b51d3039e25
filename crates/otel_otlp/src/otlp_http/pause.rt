//! When a refused request may be sent again.
ghost use Rattle.std.specs.Prelude.{◌≡◌, ◌≤◌, ◌↔◌, Some, None, IsTrue, IfOk, string_bytes};
ghost use Rattle.otel_otlp.specs.HttpPause as spec;
ghost use Rattle.otel_otlp.specs.HttpPause.{IsRefused, IsReasonText, IsRefusalText, NamesWait};

use crate::otlp_http::backoff::{Backoff, drawn_factor};
use crate::otlp_http::client::HttpError;
use crate::otlp_http::clock_calls::ClockCalls;
use crate::otlp_http::fate::{Reason, Refusal};
use http::Response;
use itoa::Buffer;
use otel_sdk_base::Accepted;
use otel_sdk_base::error::OTelSdkError;
use std::alloc::{AllocError, Global};
use std::marker::Model;
use std::random::RandomSource;

/// The nanoseconds of a second.
const SECOND: u64 = 1_000_000_000;

/// When a refused request may be sent again, by a clock, with factors from a random source. The
/// moments that the clock showed exist only in contracts.
#[derive(Drop)]
pub struct Pause<S, K> {
    backoff: Backoff,
    not_before: u64,
    reason: Option<Reason>,
    source: S,
    clock: K,
    shown: Accepted<u64>,
}

impl<S, K> Model for Pause<S, K> {
    ghost use Rattle.otel_sdk_base.specs.Export.{items_of};
    ghost use Rattle.otel_otlp.specs.HttpPause.{PauseOf};

    ghost Value = { PauseOf };

    ghost view = { λ p. record {
      delay = p.backoff;
      not_before = p.not_before;
      reason = p.reason;
      shown = items_of p.shown.batches;
    } };
}

/// Returns the whole seconds from the one moment to the other, rounded up.
fn seconds_left(now: u64, moment: u64) -> u64
    ensures { result ≡ spec.seconds_left now moment }
{
    let left = moment.saturating_sub(now);
    left / SECOND + u64::from(left % SECOND != 0)
}

/// Returns the text of the status.
fn answered_text(alloc: Global, status: u16) -> Result<String, AllocError>
    ensures { IfOk result (λ text. string_bytes text ≡ spec.answered_text status) }
{
    let mut digits = Buffer::new();
    let mut text = String::from_str(alloc, "the collector answered ")?;
    text.push_str(digits.format(status))?;
    Ok(text)
}

/// Returns the text of the reason.
fn reason_text(alloc: Global, reason: &Option<Reason>) -> Result<String, AllocError>
    ensures { IfOk result (λ text. IsReasonText reason.now (string_bytes text)) }
{
    match reason {
        Some(Reason::Answered(status)) => answered_text(alloc, *status),
        Some(Reason::NoResponse(error)) => error.to_string(alloc),
        None => String::from_str(alloc, "no response came"),
    }
}

/// Returns the text of a refusal.
fn refusal_text(alloc: Global, reason: &Option<Reason>, seconds: u64) -> Result<String, AllocError>
    ensures { IfOk result (λ text. IsRefusalText reason.now seconds (string_bytes text)) }
{
    let mut digits = Buffer::new();
    let mut text = reason_text(alloc, reason)?;
    text.push_str("; to be sent again in ")?;
    text.push_str(digits.format(seconds))?;
    text.push_str(" s")?;
    Ok(text)
}

impl<S: RandomSource, K: ClockCalls> Pause<S, K> {
    /// Returns a pause of no refusal.
    pub(crate) fn new(source: S, clock: K) -> Pause<S, K>
        ensures { result ≡ spec.started }
    {
        Pause {
            backoff: Backoff::new(),
            not_before: 0,
            reason: None,
            source,
            clock,
            shown: Accepted::new(),
        }
    }

    /// Asks the clock for the moment, in nanoseconds since 1970.
    pub(crate) fn now(&mut self) -> u64
        ensures shown { K.shows self.old.shown None result }
        ensures listed { self.new ≡ spec.after_reading result self.old }
    {
        let now = self.clock.show(&self.shown);
        self.shown = self.shown.and_one(&now);
        now
    }

    /// Asks the clock for the moment, in nanoseconds since 1970, once this answer has come.
    pub(crate) fn now_after(&mut self, answer: &Result<Response<Vec<u8>>, HttpError>) -> u64
        ensures shown { K.shows self.old.shown (Some answer.now) result }
        ensures listed { self.new ≡ spec.after_reading result self.old }
    {
        let now = self.clock.show_after(&self.shown, answer);
        self.shown = self.shown.and_one(&now);
        now
    }

    /// Returns the moment before which nothing is sent, in nanoseconds since 1970.
    pub(crate) fn not_before(&self) -> u64
        ensures { result ≡ self.now.not_before }
    {
        self.not_before
    }

    /// Returns `true` if a request may be sent at this moment.
    pub(crate) fn is_due(&self, now: u64) -> bool
        ensures { IsTrue result ↔ (self.now.not_before ≤ now) }
    {
        self.not_before <= now
    }

    /// Starts anew: a request left.
    pub(crate) fn restart(&mut self)
        ensures { self.new ≡ spec.restarted self.old }
    {
        self.backoff.accepted();
        self.not_before = 0;
        self.reason = None;
    }

    // Counts a refusal at this moment, with this factor in thousandths.
    fn refuse_by(&mut self, now: u64, factor: u16, refusal: Refusal)
        ensures { self.new ≡ spec.after_refusal now factor refusal self.old }
    {
        let wait = self.backoff.refused(factor, refusal.wait);
        self.not_before = now.saturating_add(wait.saturating_mul(1_000_000));
        self.reason = Some(refusal.reason);
    }

    /// Counts a refusal at this moment.
    pub(crate) fn refuse(&mut self, now: u64, refusal: Refusal)
        ensures { IsRefused now refusal self.old self.new }
    {
        let factor = drawn_factor(&self.source);
        self.refuse_by(now, factor, refusal);
    }

    /// Returns the error that names the last refusal and the wait from this moment on.
    pub(crate) fn error(&self, alloc: Global, now: u64) -> OTelSdkError
        ensures { NamesWait now self.now result }
    {
        match refusal_text(alloc, &self.reason, seconds_left(now, self.not_before)) {
            Ok(text) => OTelSdkError::InternalFailure(text),
            Err(_) => OTelSdkError::InternalFailure(String::new(alloc)),
        }
    }
}
