//! Reads and writes the headers `x-b3-traceid`, `x-b3-spanid`, `x-b3-sampled` and `x-b3-flags`.
ghost use Rattle.std.specs.Prelude.{◌≡◌, ◌∷◌, [], IfOk, false, option_copied, string_bytes};
ghost use Rattle.std.specs.Option.{option_and_then, option_map_or};
ghost use Rattle.otel_ids.specs.Ids.{id_text};
ghost use Rattle.opentelemetry.specs.Injection.{Injects};
ghost use Rattle.otel_propagators.specs.B3 as spec;
ghost use Rattle.otel_propagators.specs.declared.b3.form.Form.TheVariants.{Multi};

use crate::b3::id::{span_id_in, trace_id_in};
use crate::b3::sampling::Sampling;
use crate::b3::span::{B3Span, span_of};
use opentelemetry::propagation::{Extractor, Injector, PropagationError};
use opentelemetry::trace::{SpanId, TraceId};
use std::alloc::{AllocError, Global};

pub(crate) const TRACE_ID: &str = "x-b3-traceid";

pub(crate) const SPAN_ID: &str = "x-b3-spanid";

pub(crate) const SAMPLED: &str = "x-b3-sampled";

pub(crate) const FLAGS: &str = "x-b3-flags";

fn trace_id_text(alloc: Global, span: B3Span) -> Result<String, AllocError>
    ensures { IfOk result (λ text. string_bytes text ≡ id_text 32 span.trace_id) }
{
    format!(in alloc; "{}", span.trace_id)
}

fn span_id_text(alloc: Global, span: B3Span) -> Result<String, AllocError>
    ensures { IfOk result (λ text. string_bytes text ≡ id_text 16 span.span_id) }
{
    format!(in alloc; "{}", span.span_id)
}

/// Returns the name of the header for a span's state, and its value, unless it is deferred.
fn state_pair(span: B3Span) -> Option<(&'static str, &'static str)>
    ensures { option_map_or (λ p. (p.0.now, p.1.now) ∷ []) result []
        ≡ spec.state_pairs span.sampling }
{
    match span.sampling {
        Sampling::Denied => Some((SAMPLED, "0")),
        Sampling::Accepted => Some((SAMPLED, "1")),
        Sampling::Deferred => None,
        Sampling::Debug => Some((FLAGS, "1")),
    }
}

/// Sets the headers of a span's ids. Both texts are made before the first is set.
fn inject_ids(
    alloc: Global,
    span: B3Span,
    injector: &mut dyn Injector,
) -> Result<(), PropagationError>
    ensures { Injects (spec.id_pairs span) false (state injector.old) (state injector.new) result }
{
    let trace_id = trace_id_text(alloc, span)?;
    let span_id = span_id_text(alloc, span)?;
    injector.set(TRACE_ID, trace_id)?;
    injector.set(SPAN_ID, span_id)
}

/// Sets the headers of a span. All texts are made before the first is set.
pub(crate) fn inject(
    alloc: Global,
    span: B3Span,
    injector: &mut dyn Injector,
) -> Result<(), PropagationError>
    ensures { Injects (spec.span_pairs Multi span) false (state injector.old)
        (state injector.new) result }
{
    let Some((key, value)) = state_pair(span) else {
        return inject_ids(alloc, span, injector);
    };
    let value = String::from_str(alloc, value)?;
    inject_ids(alloc, span, injector)?;
    injector.set(key, value)
}

fn read_trace_id(header: Option<&str>) -> Option<TraceId>
    ensures { result ≡ option_and_then spec.trace_id_in (option_copied header.entry) }
{
    trace_id_in(header?)
}

fn read_span_id(header: Option<&str>) -> Option<SpanId>
    ensures { result ≡ option_and_then spec.span_id_in (option_copied header.entry) }
{
    span_id_in(header?)
}

/// Returns `true` if the header is there with this value.
fn is_value(value: &str, header: Option<&str>) -> bool
    ensures { result ≡ spec.is_value value.now (option_copied header.entry) }
{
    match header {
        Some(text) => text == value,
        None => false,
    }
}

/// Returns the state of two headers.
fn read_state(flags: Option<&str>, sampled: Option<&str>) -> Sampling
    ensures { result
        ≡ spec.multi_state (option_copied flags.entry) (option_copied sampled.entry) }
{
    if is_value("1", flags) {
        return Sampling::Debug;
    }
    if sampled.is_none() {
        return Sampling::Deferred;
    }
    if is_value("1", sampled) || is_value("true", sampled) {
        Sampling::Accepted
    } else {
        Sampling::Denied
    }
}

/// Reads the headers of a span, if both ids are there.
pub(crate) fn read(alloc: Global, extractor: &dyn Extractor) -> Result<Option<B3Span>, AllocError>
    ensures { IfOk result (λ span. span ≡ spec.multi_in (texts extractor.now)) }
{
    let trace_id = read_trace_id(extractor.get(alloc, TRACE_ID)?);
    let span_id = read_span_id(extractor.get(alloc, SPAN_ID)?);
    let flags = extractor.get(alloc, FLAGS)?;
    let sampled = extractor.get(alloc, SAMPLED)?;
    Ok(span_of(trace_id, span_id, Some(read_state(flags, sampled))))
}
