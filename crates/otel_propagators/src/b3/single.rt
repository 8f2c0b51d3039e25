//! Reads and writes the value of the header `b3`.
ghost use Rattle.std.specs.Prelude.{◌≡◌, ◌∷◌, [], IfOk, string_bytes, option_copied};
ghost use Rattle.std.specs.Option.{option_map_or};
ghost use Rattle.otel_propagators.specs.B3 as spec;

use crate::b3::id::{span_id_in, trace_id_in};
use crate::b3::sampling::Sampling;
use crate::b3::span::{B3Span, span_of};
use opentelemetry::trace::{SpanId, TraceId};
use otel_base::cut_blanks;
use std::alloc::{AllocError, Global};

/// Returns the state as it follows the ids.
fn state_text(sampling: Sampling) -> &'static str
    ensures { result.now ≡ spec.state_text sampling }
{
    match sampling {
        Sampling::Denied => "-0",
        Sampling::Accepted => "-1",
        Sampling::Deferred => "",
        Sampling::Debug => "-d",
    }
}

/// Writes the value of `b3`.
pub(crate) fn write(alloc: Global, span: B3Span) -> Result<String, AllocError>
    ensures { IfOk result (λ text. string_bytes text ≡ spec.single_text span) }
{
    let state = state_text(span.sampling);
    format!(in alloc; "{}-{}{state}", span.trace_id, span.span_id)
}

/// Splits a text at its first `-`, if it has one.
fn split_dash(text: &str) -> (&str, Option<&str>)
    ensures { spec.dashed text.now
        ≡ result.0.now ∷ option_map_or spec.dashed (option_copied result.1) [] }
{
    match text.split_once('-') {
        Some((first, rest)) => (first, Some(rest)),
        None => (text, None),
    }
}

/// Reads a state.
fn state_in(text: &str) -> Option<Sampling>
    ensures { result ≡ spec.state_in text.now }
{
    match text {
        "0" => Some(Sampling::Denied),
        "1" => Some(Sampling::Accepted),
        "d" => Some(Sampling::Debug),
        _ => None,
    }
}

/// Reads the state after the ids, which the id of the parent may follow.
fn state_after_ids(rest: Option<&str>) -> Option<Sampling>
    ensures { result
        ≡ spec.state_after_ids (option_map_or spec.dashed (option_copied rest.entry) []) }
{
    let Some(rest) = rest else {
        return Some(Sampling::Deferred);
    };
    let (state, rest) = split_dash(rest);
    if let Some(rest) = rest {
        let (parent, others) = split_dash(rest);
        if others.is_some() {
            return None;
        }
        span_id_in(parent)?;
    }
    state_in(state)
}

/// Reads the value of `b3`, ignoring blanks at its ends. A state alone has ids that are 0.
pub(crate) fn read(text: &str) -> Option<B3Span>
    ensures { result ≡ spec.single_in text.now }
{
    let (first, rest) = split_dash(cut_blanks(text));
    let Some(rest) = rest else {
        return span_of(
            Some(TraceId::INVALID),
            Some(SpanId::INVALID),
            state_in(first),
        );
    };
    let (span_id, rest) = split_dash(rest);
    span_of(
        trace_id_in(first),
        span_id_in(span_id),
        state_after_ids(rest),
    )
}
