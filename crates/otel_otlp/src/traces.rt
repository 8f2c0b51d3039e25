//! The OTLP messages for traces. Members are written in the order of their names.
ghost use Rattle.std.specs.Prelude.{◌≡◌, ◌++◌, IfOk, codes, map, string_bytes};
ghost use Rattle.opentelemetry.specs.View.{event_of, link_of};
ghost use Rattle.otel_ids.specs.TraceState.{header};
ghost use Rattle.otel_otlp.specs.Json.{IsTextOf, text_member, number_member, text_unless_empty};
ghost use Rattle.otel_otlp.specs.Json.{trace_id_text, span_id_text};
ghost use Rattle.otel_otlp.specs.Tokens.{WritesValue, WritesMembers, WritesItems};
ghost use Rattle.otel_otlp.specs.Traces as spec;

use crate::common::put_attributes;
use crate::groups::{Grouped, ListNames, batch_text};
use crate::object::{
    begin_list, put_decimal, put_number, put_number_unless_zero, put_span_id, put_text,
    put_text_unless_empty, put_trace_id,
};
use json::Writer;
use opentelemetry::InstrumentationScope;
use opentelemetry::trace::{Event, Link, SpanContext, SpanId, SpanKind, Status};
use otel_sdk_base::resource::Resource;
use otel_sdk_span::SpanData;
use std::alloc::{AllocError, Global};

/// Writes an event (the protocol's `Span.Event`).
fn event(out: &mut Writer, event: &Event) -> Result<(), AllocError>
    ensures { WritesValue result out.old out.new (spec.event (event_of event.now)) }
{
    out.begin_object()?;
    put_attributes(out, event.attributes.as_slice())?;
    put_number_unless_zero(
        out,
        "droppedAttributesCount",
        event.dropped_attributes_count,
    )?;
    put_text(out, "name", event.name.as_str())?;
    put_decimal(out, "timeUnixNano", event.timestamp)?;
    out.end_object()
}

/// Returns the flags of a span or a link.
fn flags(context: &SpanContext, is_remote: bool) -> u32
    ensures { result ≡ spec.flags context.now.trace_flags is_remote }
{
    u32::from(context.trace_flags().to_u8()) + if is_remote { 768 } else { 256 }
}

/// Writes the members with the trace id and the trace state.
fn put_trace(out: &mut Writer, alloc: Global, context: &SpanContext) -> Result<(), AllocError>
    ensures { WritesMembers result out.old out.new
        (text_member (codes "traceId") (trace_id_text context.now.trace_id)
        ++ text_unless_empty (codes "traceState") (header context.now.trace_state)) }
{
    put_trace_id(out, "traceId", context.trace_id())?;
    let state = context.trace_state().header(alloc)?;
    put_text_unless_empty(out, "traceState", state.as_str())
}

/// Writes a link (the protocol's `Span.Link`).
fn link(out: &mut Writer, alloc: Global, link: &Link) -> Result<(), AllocError>
    ensures { WritesValue result out.old out.new (spec.link (link_of link.now)) }
{
    let context = &link.span_context;
    out.begin_object()?;
    put_attributes(out, link.attributes.as_slice())?;
    put_number_unless_zero(out, "droppedAttributesCount", link.dropped_attributes_count)?;
    put_number(out, "flags", flags(context, context.is_remote()))?;
    put_span_id(out, "spanId", context.span_id())?;
    put_trace(out, alloc, context)?;
    out.end_object()
}

/// Writes the status of a failure with this description.
fn failure(out: &mut Writer, description: &str) -> Result<(), AllocError>
    ensures { WritesValue result out.old out.new (spec.failure description.now) }
{
    out.begin_object()?;
    put_number(out, "code", 2)?;
    put_text_unless_empty(out, "message", description)?;
    out.end_object()
}

/// Writes the status of a success.
fn success(out: &mut Writer) -> Result<(), AllocError>
    ensures { WritesValue result out.old out.new spec.success }
{
    out.begin_object()?;
    put_number(out, "code", 1)?;
    out.end_object()
}

/// Writes the member with the status (the protocol's `Status`), unless it is unset.
fn put_status(out: &mut Writer, status: &Status) -> Result<(), AllocError>
    ensures { WritesMembers result out.old out.new (spec.status_member status.now) }
{
    match status {
        Status::Unset => Ok(()),
        Status::Ok => {
            out.key("status")?;
            success(out)
        }
        Status::Error { description } => {
            out.key("status")?;
            failure(out, description.as_str())
        }
    }
}

/// Returns the number of the kind of a span (the protocol's `SpanKind`).
fn kind_number(kind: SpanKind) -> u32
    ensures { result ≡ spec.kind_number kind }
{
    match kind {
        SpanKind::Internal => 1,
        SpanKind::Server => 2,
        SpanKind::Client => 3,
        SpanKind::Producer => 4,
        SpanKind::Consumer => 5,
    }
}

/// Writes the member with the kind.
fn put_kind(out: &mut Writer, kind: SpanKind) -> Result<(), AllocError>
    ensures { WritesMembers result out.old out.new
        (number_member (codes "kind") (spec.kind_number kind)) }
{
    put_number(out, "kind", kind_number(kind))
}

/// Writes the member with the span id of the parent, unless the span is a root.
fn put_parent(out: &mut Writer, id: SpanId) -> Result<(), AllocError>
    ensures { WritesMembers result out.old out.new (spec.parent_member id) }
{
    if id == SpanId::INVALID {
        return Ok(());
    }
    put_span_id(out, "parentSpanId", id)
}

/// Writes each event.
fn events(out: &mut Writer, items: &[Event]) -> Result<(), AllocError>
    ensures { WritesItems result out.old out.new (map spec.event (map event_of items.now)) }
{
    for item in items {
        event(out, item)?;
    }
    Ok(())
}

/// Writes each link.
fn links(out: &mut Writer, alloc: Global, items: &[Link]) -> Result<(), AllocError>
    ensures { WritesItems result out.old out.new (map spec.link (map link_of items.now)) }
{
    for item in items {
        link(out, alloc, item)?;
    }
    Ok(())
}

/// Writes the member with the events, unless there are none.
fn put_events(out: &mut Writer, items: &[Event]) -> Result<(), AllocError>
    ensures { WritesMembers result out.old out.new
        (spec.events_member (map event_of items.now)) }
{
    if items.is_empty() {
        return Ok(());
    }
    begin_list(out, "events")?;
    events(out, items)?;
    out.end_array()
}

/// Writes the member with the links, unless there are none.
fn put_links(out: &mut Writer, alloc: Global, items: &[Link]) -> Result<(), AllocError>
    ensures { WritesMembers result out.old out.new
        (spec.links_member (map link_of items.now)) }
{
    if items.is_empty() {
        return Ok(());
    }
    begin_list(out, "links")?;
    links(out, alloc, items)?;
    out.end_array()
}

/// Writes the members with the numbers of attributes, events and links that were dropped because of
/// limits.
fn put_losses(out: &mut Writer, span: &SpanData) -> Result<(), AllocError>
    ensures { WritesMembers result out.old out.new (spec.losses span.now) }
{
    put_number_unless_zero(out, "droppedAttributesCount", span.dropped_attributes_count)?;
    put_number_unless_zero(out, "droppedEventsCount", span.events.dropped_count)?;
    put_number_unless_zero(out, "droppedLinksCount", span.links.dropped_count)
}

/// Writes a span (the protocol's `Span`).
fn span(out: &mut Writer, alloc: Global, span: &SpanData) -> Result<(), AllocError>
    ensures { WritesValue result out.old out.new (spec.span span.now) }
{
    let context = &span.span_context;
    out.begin_object()?;
    put_attributes(out, span.attributes.as_slice())?;
    put_losses(out, span)?;
    put_decimal(out, "endTimeUnixNano", span.end_time)?;
    put_events(out, span.events.events.as_slice())?;
    put_number(out, "flags", flags(context, span.parent_span_is_remote))?;
    put_kind(out, span.span_kind)?;
    put_links(out, alloc, span.links.links.as_slice())?;
    put_text(out, "name", span.name.as_str())?;
    put_parent(out, span.parent_span_id)?;
    put_span_id(out, "spanId", context.span_id())?;
    put_decimal(out, "startTimeUnixNano", span.start_time)?;
    put_status(out, &span.status)?;
    put_trace(out, alloc, context)?;
    out.end_object()
}

impl Grouped for SpanData {
    ghost use Rattle.otel_otlp.specs.Traces as spec;

    ghost form = { spec.form };

    fn scope(&self) -> &InstrumentationScope {
        &self.instrumentation_scope
    }

    fn write(&self, out: &mut Writer, alloc: Global) -> Result<(), AllocError> {
        span(out, alloc, self)
    }

    fn list_names() -> ListNames {
        ListNames {
            resources: "resourceSpans",
            scopes: "scopeSpans",
            items: "spans",
            items_come_first: false,
        }
    }
}

/// Returns a batch of spans of one resource as one JSON object, without a line break (the
/// protocol's `TracesData`).
///
/// The scopes are in the order in which they first appear, each with its spans in order. The
/// members of an object are in the order of their names.
///
/// # Errors
///
/// `AllocError` if out of memory.
pub fn traces_text(
    alloc: Global,
    resource: &Resource,
    batch: &[SpanData],
) -> Result<String, AllocError>
    ensures text { IfOk result (λ s.
        IsTextOf (string_bytes s) (spec.traces_data resource.now batch.now)) }
{
    batch_text(alloc, resource, batch)
}
