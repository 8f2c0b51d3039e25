//! Spans as they are drawn.
ghost use Rattle.std.specs.Prelude.{◌≡◌, map, IfOk};
ghost use Rattle.otel_waterfall.specs.Drawn as spec;

use crate::name::shown_name;
use crate::span::{Outcome, Span};
use opentelemetry::trace::{Event, Status};
use otel_sdk_span::SpanData;
use std::alloc::{AllocError, Global};

/// Returns the moments of events.
fn moments_of(alloc: Global, events: &[Event]) -> Result<Vec<u64>, AllocError>
    ensures { IfOk result (λ moments. moments.items ≡ map (λ e. e.timestamp) events.now) }
{
    let mut moments = Vec::with_capacity(alloc, events.len())?;
    for event in events {
        moments.push(event.timestamp)?;
    }
    Ok(moments)
}

/// Returns the outcome that a span's row shows for its status.
pub(crate) fn outcome_of(status: &Status) -> Outcome
    ensures { result ≡ spec.outcome_of status.now }
{
    match status {
        Status::Unset => Outcome::Unset,
        Status::Error { .. } => Outcome::Error,
        Status::Ok => Outcome::Ok,
    }
}

/// Returns a span as it is drawn.
#[tactic(auto, using(crate::proofs::Moments::moments_are))]
pub(crate) fn drawn_span(alloc: Global, is_ascii: bool, span: &SpanData) -> Result<Span, AllocError>
    ensures { IfOk result (λ drawn. spec.look drawn ≡ spec.look_of is_ascii span.now) }
{
    Ok(Span {
        trace_id: span.span_context.trace_id(),
        span_id: span.span_context.span_id(),
        parent_span_id: span.parent_span_id,
        is_parent_remote: span.parent_span_is_remote,
        name: shown_name(alloc, is_ascii, span.name.as_str())?,
        start: span.start_time,
        end: span.end_time,
        moments: moments_of(alloc, span.events.events.as_slice())?,
        outcome: outcome_of(&span.status),
    })
}

/// Returns the spans of a batch as they are drawn.
///
/// # Errors
///
/// Returns an error if out of memory.
pub(crate) fn drawn(
    alloc: Global,
    is_ascii: bool,
    batch: &[SpanData],
) -> Result<Vec<Span>, AllocError>
    ensures { IfOk result (λ spans.
        map spec.look spans.items ≡ map (spec.look_of is_ascii) batch.now) }
{
    let mut spans = Vec::new(alloc);
    for span in batch {
        spans.push(drawn_span(alloc, is_ascii, span)?)?;
    }
    Ok(spans)
}
