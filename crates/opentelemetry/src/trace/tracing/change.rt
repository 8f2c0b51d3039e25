//! Changes of an open span.
ghost use Rattle.std.specs.Prelude.{◌≡◌, OnOk, OnErr, Some};
ghost use Rattle.otel_context.specs.SpanCalls.{after_effect};
ghost use Rattle.opentelemetry.specs.SpanChange.{change_of};

use otel_base::{KeyValue, StringValue};
use otel_context::{Span, Spans, Status};
use otel_ids::SpanContext;
use std::alloc::{AllocError, Global};

/// A change of an open span.
#[derive(Debug, Drop)]
pub(crate) enum SpanChange {
    /// Sets the attribute.
    SetAttribute(KeyValue),
    /// Adds an event with this name, this time in nanoseconds since 1970, and these attributes.
    AddEvent(StringValue, u64, Vec<KeyValue>),
    /// Adds a link to this span context, with these attributes.
    AddLink(SpanContext, Vec<KeyValue>),
    /// Sets the status.
    SetStatus(Status),
    /// Replaces the name.
    UpdateName(StringValue),
    /// Adds an event `exception` at this time and with these attributes, and sets the status.
    Fail(u64, Vec<KeyValue>, Status),
}

/// Applies the change to the span.
///
/// # Errors
///
/// `AllocError` if out of memory. The span is unchanged.
fn make_change<S: Span>(alloc: Global, span: &mut S, change: SpanChange) -> Result<(), AllocError>
    ensures ok { OnOk result (span.new ≡ change_of S.after_event S.after_attribute S.after_link
        S.after_status S.after_name change span.old) }
    ensures err { OnErr result (span.new ≡ span.old) }
{
    match change {
        SpanChange::SetAttribute(attribute) => span.set_attribute(alloc, attribute),
        SpanChange::AddEvent(name, timestamp, attributes) => {
            span.add_event_with_timestamp(alloc, name, timestamp, attributes)
        }
        SpanChange::AddLink(span_context, attributes) => {
            span.add_link(alloc, span_context, attributes)
        }
        SpanChange::SetStatus(status) => {
            span.set_status(status);
            Ok(())
        }
        SpanChange::UpdateName(name) => {
            span.update_name(name);
            Ok(())
        }
        SpanChange::Fail(timestamp, attributes, status) => {
            let name = StringValue::from("exception");
            span.add_event_with_timestamp(alloc, name, timestamp, attributes)?;
            span.set_status(status);
            Ok(())
        }
    }
}

/// Applies the change to the span with this number, if there is one.
///
/// # Errors
///
/// `AllocError` if out of memory. The spans are unchanged.
pub(crate) fn change_in<S: Span>(
    alloc: Global,
    spans: &mut Spans<S>,
    number: u64,
    change: SpanChange,
) -> Result<(), AllocError>
    ensures ok { OnOk result (spans.new ≡ after_effect (change_of S.after_event S.after_attribute
        S.after_link S.after_status S.after_name change) spans.old (Some number)) }
    ensures err { OnErr result (spans.new ≡ spans.old) }
{
    match spans.get_mut(number) {
        Some(span) => make_change(alloc, span, change),
        None => {
            drop(change);
            Ok(())
        }
    }
}
