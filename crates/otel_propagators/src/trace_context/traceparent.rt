//! Reads and writes the value of the header `traceparent`.
ghost use Rattle.std.specs.Prelude.{◌≡◌, ◌∷◌, [], IfOk, string_bytes};
ghost use Rattle.otel_propagators.specs.TraceParent.{parent_text, parent_of};
ghost use Rattle.otel_propagators.specs.TraceContext.{parent, remote};
ghost use Rattle.otel_propagators.specs.Digits.{IsAfter, AreNumbersOf, IsParentFrom};

use crate::trace_context::digits::{byte_text, number_before};
use opentelemetry::trace::{SpanContext, SpanId, TraceFlags, TraceId, TraceState};
use otel_base::cut_blanks;
use std::alloc::{AllocError, Global};
use std::marker::Model;

/// The contents of a `traceparent`: two ids, both nonzero, and flags.
#[derive(Clone, Copy)]
pub(crate) struct Parent {
    trace_id: TraceId,
    span_id: SpanId,
    flags: TraceFlags,
}

impl Model for Parent {
    ghost use Rattle.otel_propagators.specs.TraceParent.{Parent as ParentRecord};

    ghost Value = { ParentRecord };

    ghost view = { λ p. record {
      trace_id = p.trace_id;
      span_id = p.span_id;
      flags = p.flags;
    } };

    ghost inverse = { λ p. record {
      trace_id = p.trace_id;
      span_id = p.span_id;
      flags = p.flags;
    } };
}

impl Parent {
    /// Returns the span context with these ids, flags and trace state, marked as remote.
    pub(crate) fn remote(self, trace_state: TraceState) -> SpanContext
        ensures { result ≡ remote self trace_state }
    {
        SpanContext::new(self.trace_id, self.span_id, self.flags, true, trace_state)
    }
}

/// Writes the value of `traceparent` for a span context.
pub(crate) fn write(alloc: Global, span_context: &SpanContext) -> Result<String, AllocError>
    ensures { IfOk result (λ text. string_bytes text ≡ parent_text (parent span_context.now)) }
{
    let trace_id = span_context.trace_id();
    let span_id = span_context.span_id();
    let flags = byte_text(alloc, span_context.trace_flags().to_u8())?;
    format!(in alloc; "00-{trace_id}-{span_id}-{flags}")
}

/// Returns the bytes after `front`, if `bytes` starts with it.
fn after<'a>(bytes: &'a [u8], front: &[u8]) -> Option<&'a [u8]>
    ensures { IsAfter front.now bytes.now result }
{
    bytes.strip_prefix(front)
}

/// Returns the bytes after the version. Only the version `00` is read.
fn after_version(bytes: &[u8]) -> Option<&[u8]>
    ensures { IsAfter (48 ∷ 48 ∷ 45 ∷ []) bytes.now result }
{
    after(bytes, b"00-")
}

/// Reads the numbers of the trace id, the span id and the flags.
fn numbers(bytes: &[u8]) -> Option<(u128, u128, u128)>
    ensures { AreNumbersOf bytes.now result }
{
    let rest = after_version(bytes)?;
    let (trace_id, rest) = number_before(rest, 32)?;
    let rest = after(rest, b"-")?;
    let (span_id, rest) = number_before(rest, 16)?;
    let rest = after(rest, b"-")?;
    let (flags, rest) = number_before(rest, 2)?;
    if !rest.is_empty() {
        return None;
    }
    Some((trace_id, span_id, flags))
}

/// Returns the ids and flags of these numbers, if both ids are nonzero.
fn parent_from(trace_id: u128, span_id: u64, flags: u8) -> Option<Parent>
    ensures { IsParentFrom trace_id span_id flags result }
{
    if trace_id == 0 || span_id == 0 {
        return None;
    }
    Some(Parent {
        trace_id: TraceId::from(trace_id),
        span_id: SpanId::from(span_id),
        flags: TraceFlags::new(flags),
    })
}

/// Reads the value of a `traceparent`, ignoring blanks at its ends.
pub(crate) fn read(text: &str) -> Option<Parent>
    ensures { result ≡ parent_of text.now }
{
    let (trace_id, span_id, flags) = numbers(cut_blanks(text).as_bytes())?;
    parent_from(trace_id, span_id as u64, flags as u8)
}
