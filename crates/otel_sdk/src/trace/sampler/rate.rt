//! A sampler of at most a number of roots in each second.
ghost use Rattle.std.specs.Prelude.{◌≡◌, IfOk, string_bytes};
ghost use Rattle.otel_sdk.specs.RateLimit as spec;
ghost use Rattle.otel_sdk.specs.Sampler.{asked_of};

use crate::trace::sampler::{
    SamplingDecision, SamplingParameters, SamplingResult, ShouldSample, unchanged,
};
use opentelemetry::Context;
use opentelemetry::trace::Span;
use otel_sdk_span::SdkSpan;
use std::alloc::{AllocError, Global};
use std::marker::Model;

/// The nanoseconds of a second.
const SECOND: u64 = 1_000_000_000;

/// Samples at most a maximum number of roots in each second, by the start times of the spans, and
/// any other span if its parent is sampled. Not in the Rust crate.
///
/// A second that is over gets no more roots: if the clock is set back, a root counts in the newest
/// second. [`laws::rates_are_limited`](crate::trace::laws::rates_are_limited) states the limit.
///
/// ```
/// let builder = TracingBuilder::new(rt).with_sampler(RateLimitingSampler::new(100));
/// ```
///
/// Contracts see the maximum, the newest second, and how many sampled roots began in it.
#[derive(Clone, Copy, Debug)]
pub struct RateLimitingSampler {
    maximum: u32,
    second: u64,
    sampled: u32,
}

impl Model for RateLimitingSampler {
    ghost use Rattle.otel_sdk.specs.RateLimit.{RateLimit};

    ghost Value = { RateLimit };

    ghost view = { λ s. record { maximum = s.maximum; second = s.second; sampled = s.sampled } };

    ghost inverse = { λ l. record { maximum = l.maximum; second = l.second; sampled = l.sampled } };
}

impl RateLimitingSampler {
    /// Returns a sampler of at most this many roots in each second.
    pub fn new(maximum: u32) -> RateLimitingSampler
        ensures { result ≡ spec.new maximum }
    {
        RateLimitingSampler {
            maximum,
            second: 0,
            sampled: 0,
        }
    }

    /// Returns the second in which a root counts that starts then.
    fn second_at(&self, start: Option<u64>) -> u64
        ensures { result ≡ spec.second_at start self.now }
    {
        match start {
            Some(start) => self.second.max(start / SECOND),
            None => self.second,
        }
    }

    /// Returns how many sampled roots began in the second, which isn't over.
    fn sampled_in(&self, second: u64) -> u32
        ensures { result ≡ spec.sampled_in second self.now }
    {
        if second == self.second {
            self.sampled
        } else {
            0
        }
    }

    /// Returns `true` if a root that starts then is sampled.
    fn admits(&self, start: Option<u64>) -> bool
        ensures { result ≡ spec.admits start self.now }
    {
        self.sampled_in(self.second_at(start)) < self.maximum
    }

    /// Counts a root that starts then, if it is admitted.
    fn count(&mut self, start: Option<u64>)
        ensures { self.new ≡ spec.after_root start self.old }
    {
        if self.admits(start) {
            let second = self.second_at(start);
            self.sampled = self.sampled_in(second) + 1;
            self.second = second;
        }
    }

    /// Returns the decision about the span.
    fn decide(&self, span: &SamplingParameters<'_>) -> SamplingDecision
        ensures { result ≡ spec.decision self.now (asked_of span.now) }
    {
        let parent = span.parent_context.span_context();
        let is_sampled = if parent.is_valid() {
            parent.is_sampled()
        } else {
            self.admits(span.start_time)
        };
        if is_sampled {
            SamplingDecision::RecordAndSample
        } else {
            SamplingDecision::Drop
        }
    }
}

impl ShouldSample for RateLimitingSampler {
    ghost use Rattle.std.specs.Prelude.{◌≡◌};
    ghost use Rattle.otel_sdk.specs.RateLimit as spec;

    ghost answer = { spec.answer };

    ghost counts = { λ old parent span new. new ≡ spec.after_start parent span old };

    ghost IsStateless = { ⊥ };

    ghost may_describe = { λ sampler text. text ≡ spec.description sampler };

    /// Returns the decision, with no attributes and the parent's trace state.
    ///
    /// # Errors
    ///
    /// `AllocError` if the reference count of the trace state's pairs is at its limit.
    fn should_sample(
        &self,
        alloc: Global,
        span: &SamplingParameters<'_>,
    ) -> Result<SamplingResult, AllocError> {
        unchanged(alloc, self.decide(span), span)
    }

    /// Counts a root that is sampled.
    fn on_start(&mut self, parent: &Context, span: &SdkSpan) {
        if !parent.span_context().is_valid() && span.span_context().is_sampled() {
            let start = match span.data() {
                Some(data) => Some(data.start_time),
                None => None,
            };
            self.count(start);
        }
    }

    /// Returns, for example, `RateLimitingSampler{100}`.
    ///
    /// # Errors
    ///
    /// `AllocError` if out of memory.
    fn description(&self, alloc: Global) -> Result<String, AllocError> {
        format!(in alloc; "RateLimitingSampler{{{}}}", self.maximum)
    }
}
