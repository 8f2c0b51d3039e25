//! Samplers, which decide at a span's start whether it is recorded and exported.
ghost use Rattle.std.specs.Prelude.{◌≡◌, ◌<◌, [], IfOk, map, string_bytes, to_bits};
ghost use Rattle.std.specs.Float.{binary64};
ghost use Rattle.otel_base.specs.View.{attribute_of};
ghost use Rattle.otel_sdk.specs.Ratio.{bound, half, IsNumberText};
ghost use Rattle.otel_sdk.specs.Sampler.{asked_of, result_of, decision_of, unchanged};
ghost use Rattle.otel_sdk.specs.Sampler.{IsDescription};
ghost use Rattle.otel_sdk.specs.Sampler.{parents_trace_state};

pub mod laws;
pub(crate) mod parent_based;
pub(crate) mod rate;
mod ratio;

use crate::trace::sampler::ratio::{bound, number_text};
use opentelemetry::trace::{Link, SpanContext, SpanKind, TraceId, TraceState};
use opentelemetry::{Context, KeyValue};
use otel_sdk_span::SdkSpan;
use std::alloc::{AllocError, Global};
use std::fmt::HasDigits;

/// The decision about a span (the Rust crate's `SamplingDecision`).
#[derive(Clone, Copy, Debug, PartialEq, Eq)]
pub enum SamplingDecision {
    /// The span isn't recorded and isn't exported.
    Drop,
    /// The span is recorded, but not exported.
    RecordOnly,
    /// The span is recorded and exported: its flag `sampled` is set.
    RecordAndSample,
}

/// The answer of a sampler (the Rust crate's `SamplingResult`).
///
/// Contracts see the record of its three parts, the attributes as a list.
#[derive(Debug, Drop)]
pub struct SamplingResult {
    /// The decision about the span.
    pub decision: SamplingDecision,
    /// Attributes to set on the span, after the builder's.
    pub attributes: Vec<KeyValue>,
    /// The trace state of the span.
    pub trace_state: TraceState,
}

/// A span that is about to start, about which a sampler is asked (the parameters of the Rust
/// crate's `should_sample`, and the start time).
#[derive(Clone, Copy)]
pub struct SamplingParameters<'a> {
    /// The context of the parent.
    pub parent_context: &'a Context,
    /// The trace id.
    pub trace_id: TraceId,
    /// The name.
    pub name: &'a str,
    /// The kind.
    pub span_kind: SpanKind,
    /// The attributes of the builder.
    pub attributes: &'a [KeyValue],
    /// The links of the builder.
    pub links: &'a [Link],
    /// The start time of the builder, in nanoseconds since 1970. A value that traces always gives
    /// one: the clock's timestamp, unless the caller gave another.
    pub start_time: Option<u64>,
}

/// Decides whether a span that is about to start is recorded and exported (the Rust crate's
/// `ShouldSample`).
///
/// A sampler may keep a state, such as a count: it is told of each span that begins, and a span
/// that is refused after the sampler's answer doesn't begin. Only a value that traces tells it, so
/// [`SdkTracerProvider`](crate::trace::SdkTracerProvider) takes only samplers without a state.
///
/// Implementors define the ghost functions `answer`, the answer to a question, and `may_describe`,
/// the strings that may describe the sampler. They also define `counts`, its state after it was
/// told of a span, and `IsStateless`, unless it keeps none.
///
/// See [`Sampler`], [`crate::trace::ParentBased`] and [`crate::trace::RateLimitingSampler`].
pub trait ShouldSample: Drop {
    ghost use Rattle.std.specs.Prelude.{◌≡◌, ℕ, List};
    ghost use Rattle.otel_context.specs.Context.{ContextRecord};
    ghost use Rattle.otel_sdk.specs.Sampler.{Asked, Answer};
    ghost use Rattle.otel_sdk_span.specs.Span.{SpanState};

    ghost answer: { Self → Asked → Answer };

    ghost counts: { Self → ContextRecord → SpanState → Self → Type 0 } = { λ old _ _ new. new ≡ old };

    ghost IsStateless: { Type 0 } = { Unit {0} };

    ghost may_describe: { Self → List ℕ → Type 0 };

    /// Returns the decision about the span.
    ///
    /// # Errors
    ///
    /// `AllocError` if out of memory.
    fn should_sample(
        &self,
        alloc: Global,
        span: &SamplingParameters<'_>,
    ) -> Result<SamplingResult, AllocError>
        ensures { IfOk result (λ r. result_of r ≡ answer self.now (asked_of span.now)) };

    /// Is told that the span begins under the parent context. A sampler without a state does
    /// nothing.
    fn on_start(&mut self, parent: &Context, span: &SdkSpan)
        ensures { counts self.old parent.now span.now self.new };

    /// Returns the name of the sampler, with its parameters.
    ///
    /// # Errors
    ///
    /// `AllocError` if out of memory.
    fn description(&self, alloc: Global) -> Result<String, AllocError>
        ensures { IfOk result (λ text. may_describe self.now (string_bytes text)) };
}

/// Samplers whose decision depends only on the trace id (variants of the Rust crate's `Sampler`).
/// To follow the parent's decision, wrap one in [`ParentBased`].
#[derive(Clone, Copy, Debug, PartialEq)]
pub enum Sampler {
    /// Samples every span.
    AlwaysOn,
    /// Samples no span.
    AlwaysOff,
    /// Samples this fraction of all traces, by their ids: none if it is 0, negative or NaN, and all
    /// if it is 1 or more. A trace that is sampled at one ratio is sampled at every greater ratio.
    TraceIdRatioBased(f64),
}

impl Sampler {
    /// Returns the decision about a span of this trace.
    fn decide(&self, trace_id: TraceId) -> SamplingDecision
        ensures { result ≡ decision_of self.now trace_id }
    {
        match self {
            Sampler::AlwaysOn => SamplingDecision::RecordAndSample,
            Sampler::AlwaysOff => SamplingDecision::Drop,
            Sampler::TraceIdRatioBased(ratio) => {
                if half(trace_id) < bound(*ratio) {
                    SamplingDecision::RecordAndSample
                } else {
                    SamplingDecision::Drop
                }
            }
        }
    }
}

/// Returns the low half of the trace id without its last bit.
fn half(trace_id: TraceId) -> u64
    ensures { result ≡ half trace_id }
{
    let (_high, low) = trace_id.bits();
    low >> 1
}

/// Returns the trace state of the parent, or an empty one if an id of the parent is 0.
///
/// # Errors
///
/// `AllocError` if the reference count of the pairs is at its limit.
fn parents_trace_state(parent: &SpanContext) -> Result<TraceState, AllocError>
    ensures { IfOk result (λ state. state ≡ parents_trace_state parent.now) }
{
    if parent.is_valid() {
        parent.trace_state().clone()
    } else {
        Ok(TraceState::NONE)
    }
}

/// Returns the decision, with no attributes and the parent's trace state.
///
/// # Errors
///
/// `AllocError` if the reference count of the trace state's pairs is at its limit.
pub(crate) fn unchanged(
    alloc: Global,
    decision: SamplingDecision,
    span: &SamplingParameters<'_>,
) -> Result<SamplingResult, AllocError>
    ensures { IfOk result (λ r. result_of r ≡ unchanged decision (asked_of span.now)) }
{
    Ok(SamplingResult {
        decision,
        attributes: Vec::new(alloc),
        trace_state: parents_trace_state(span.parent_context.span_context())?,
    })
}

impl ShouldSample for Sampler {
    ghost use Rattle.otel_sdk.specs.Sampler.{decision_of, unchanged, IsDescription};

    ghost answer = { λ sampler asked. unchanged (decision_of sampler asked.trace_id) asked };

    ghost may_describe = { IsDescription };

    /// Returns the decision, with no attributes and the parent's trace state.
    ///
    /// # Errors
    ///
    /// `AllocError` if the reference count of the trace state's pairs is at its limit.
    fn should_sample(
        &self,
        alloc: Global,
        span: &SamplingParameters<'_>,
    ) -> Result<SamplingResult, AllocError> {
        unchanged(alloc, self.decide(span.trace_id), span)
    }

    fn on_start(&mut self, _parent: &Context, _span: &SdkSpan) {}

    /// Returns `AlwaysOnSampler`, `AlwaysOffSampler`, or, for example, `TraceIdRatioBased{0.5}`
    /// with the effective ratio, from 0 to 1.
    ///
    /// # Errors
    ///
    /// `AllocError` if out of memory.
    fn description(&self, alloc: Global) -> Result<String, AllocError> {
        match self {
            Sampler::AlwaysOn => String::from_str(alloc, "AlwaysOnSampler"),
            Sampler::AlwaysOff => String::from_str(alloc, "AlwaysOffSampler"),
            Sampler::TraceIdRatioBased(ratio) => {
                let mut text = String::from_str(alloc, "TraceIdRatioBased{")?;
                text.push_str(number_text(alloc, *ratio)?.as_str())?;
                text.push_str("}")?;
                Ok(text)
            }
        }
    }
}
