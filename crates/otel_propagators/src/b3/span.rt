//! The contents of the headers of B3: the ids of a span, and its sampling state.
ghost use Rattle.std.specs.Prelude.{◌≡◌, IfOk, string_bytes};
ghost use Rattle.otel_context.specs.Context.{get};
ghost use Rattle.otel_propagators.specs.B3 as spec;

use crate::b3::sampling::Sampling;
use crate::b3::single;
use opentelemetry::logs::AnyValue;
use opentelemetry::trace::{SpanContext, SpanId, TraceFlags, TraceId, TraceState};
use opentelemetry::{Context, Key, StringValue};
use std::alloc::{AllocError, Global};
use std::marker::Model;

/// The entry of a context that keeps the debug flag.
const DEBUG: &str = "b3-debug";

/// The entry of a context that keeps the span whose sampling decision is deferred.
const DEFERRED: &str = "b3-deferred";

/// The ids of a trace and of a span in it, and the sampling state.
#[derive(Clone, Copy)]
pub(crate) struct B3Span {
    pub(crate) trace_id: TraceId,
    pub(crate) span_id: SpanId,
    pub(crate) sampling: Sampling,
}

impl Model for B3Span {
    ghost use Rattle.otel_propagators.specs.B3.{B3Span as SpanRecord};

    ghost Value = { SpanRecord };

    ghost view = { λ s. record {
      trace_id = s.trace_id;
      span_id = s.span_id;
      sampling = s.sampling;
    } };

    ghost inverse = { λ s. record {
      trace_id = s.trace_id;
      span_id = s.span_id;
      sampling = s.sampling;
    } };
}

/// Returns `true` if the debug flag of a context is set.
fn is_debug(context: &Context) -> bool
    ensures { result ≡ spec.is_debug context.now }
{
    match context.get(DEBUG) {
        Some(AnyValue::Boolean(debug)) => *debug,
        _ => false,
    }
}

/// Returns the text `TRACE-SPAN` of a span context.
fn deferred_text(alloc: Global, span_context: &SpanContext) -> Result<String, AllocError>
    ensures { IfOk result (λ text. string_bytes text ≡ spec.deferred_text span_context.now) }
{
    let span = B3Span {
        trace_id: span_context.trace_id(),
        span_id: span_context.span_id(),
        sampling: Sampling::Deferred,
    };
    single::write(alloc, span)
}

/// Returns `true` if the context has a remote span context whose sampling decision is deferred.
fn is_deferred(alloc: Global, context: &Context) -> Result<bool, AllocError>
    ensures { IfOk result (λ deferred. deferred ≡ spec.is_deferred context.now) }
{
    let span_context = context.span_context();
    if !span_context.is_remote() {
        return Ok(false);
    }
    match context.get(DEFERRED) {
        Some(AnyValue::String(ids)) => {
            let text = deferred_text(alloc, span_context)?;
            Ok(ids.as_str() == text.as_str())
        }
        _ => Ok(false),
    }
}

/// Returns the state that is sent for a context.
fn sampling_of(alloc: Global, context: &Context) -> Result<Sampling, AllocError>
    ensures { IfOk result (λ sampling. sampling ≡ spec.sampling_of context.now) }
{
    if is_debug(context) {
        return Ok(Sampling::Debug);
    }
    if context.span_context().trace_flags().is_sampled() {
        return Ok(Sampling::Accepted);
    }
    if is_deferred(alloc, context)? {
        Ok(Sampling::Deferred)
    } else {
        Ok(Sampling::Denied)
    }
}

/// Returns a copy of the context with this debug flag.
fn with_debug(alloc: Global, context: &Context, debug: bool) -> Result<Context, AllocError>
    ensures { IfOk result (λ c. c ≡ spec.with_debug debug context.now) }
{
    if debug || is_debug(context) {
        context.with_value(alloc, Key::from(DEBUG), AnyValue::Boolean(debug))
    } else {
        context.clone()
    }
}

/// Returns `true` if the context keeps a deferred span.
fn keeps_deferred(context: &Context) -> bool
    ensures { result ≡ spec.is_string (get context.now spec.deferred_key) }
{
    matches!(context.get(DEFERRED), Some(AnyValue::String(_)))
}

/// Returns a copy of the context that keeps the span if it is deferred, and otherwise none.
fn with_deferred(alloc: Global, context: &Context, span: B3Span) -> Result<Context, AllocError>
    ensures { IfOk result (λ c. c ≡ spec.with_deferred span context.now) }
{
    if span.sampling.is_deferred() {
        let text = StringValue::from(single::write(alloc, span)?);
        return context.with_value(alloc, Key::from(DEFERRED), AnyValue::String(text));
    }
    if keeps_deferred(context) {
        context.with_value(alloc, Key::from(DEFERRED), AnyValue::Boolean(false))
    } else {
        context.clone()
    }
}

impl Sampling {
    fn is_debug(self) -> bool
        ensures { result ≡ spec.is_debug_state self }
    {
        matches!(self, Sampling::Debug)
    }

    fn is_deferred(self) -> bool
        ensures { result ≡ spec.is_deferred_state self }
    {
        matches!(self, Sampling::Deferred)
    }

    fn flags(self) -> TraceFlags
        ensures { result ≡ spec.flags_of self }
    {
        match self {
            Sampling::Denied | Sampling::Deferred => TraceFlags::NOT_SAMPLED,
            Sampling::Accepted | Sampling::Debug => TraceFlags::SAMPLED,
        }
    }
}

/// Returns the span with these parts, if all are there.
pub(crate) fn span_of(
    trace_id: Option<TraceId>,
    span_id: Option<SpanId>,
    sampling: Option<Sampling>,
) -> Option<B3Span>
    ensures { result ≡ spec.span_of trace_id span_id sampling }
{
    Some(B3Span {
        trace_id: trace_id?,
        span_id: span_id?,
        sampling: sampling?,
    })
}

impl B3Span {
    /// Returns the ids and the state that are sent for a context.
    pub(crate) fn sent(alloc: Global, context: &Context) -> Result<B3Span, AllocError>
        ensures { IfOk result (λ span. span ≡ spec.sent context.now) }
    {
        let span_context = context.span_context();
        Ok(B3Span {
            trace_id: span_context.trace_id(),
            span_id: span_context.span_id(),
            sampling: sampling_of(alloc, context)?,
        })
    }

    /// Returns the remote span context with these ids and flags.
    fn remote(self) -> SpanContext
        ensures { result ≡ spec.remote_of self }
    {
        SpanContext::new(
            self.trace_id,
            self.span_id,
            self.sampling.flags(),
            true,
            TraceState::NONE,
        )
    }

    /// Returns a copy of the context with the span as its remote one, and with its debug flag and
    /// that it is deferred, or a copy of the context if an id is 0.
    pub(crate) fn added_to(self, alloc: Global, context: &Context) -> Result<Context, AllocError>
        ensures { IfOk result (λ c. c ≡ spec.with_b3 context.now self) }
    {
        let remote = self.remote();
        if !remote.is_valid() {
            return context.clone();
        }
        let debug = with_debug(alloc, context, self.sampling.is_debug())?;
        with_deferred(alloc, &debug, self)?.with_remote_span_context(alloc, remote)
    }
}
