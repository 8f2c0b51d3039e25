//! The OTLP messages for traces.
ghost use Rattle.std.specs.Prelude.{◌≡◌, ◌∷◌, [], ◌++◌, IfOk, OnOk, Some, map};
ghost use Rattle.std.specs.List.{flat_map};
ghost use Rattle.opentelemetry.specs.View.{event_of, link_of};
ghost use Rattle.otel_ids.specs.TraceState.{entry, pair_with, header};
ghost use Rattle.otel_proto.specs.Output.{Puts, put_bytes};
ghost use Rattle.otel_proto.specs.Wire.{read, varint};
ghost use Rattle.otel_proto.specs.Written.{bytes_of, bytes_unless_empty, message, messages};
ghost use Rattle.otel_proto_batches.specs.Traces as spec;

use crate::common::{put_span_id, put_trace_id};
use crate::groups::{Grouped, batch_bytes};
use opentelemetry::InstrumentationScope;
use opentelemetry::trace::{
    Event, Link, SpanContext, SpanId, SpanKind, Status, TraceState, TraceStateIter,
};
use otel_proto::{
    Output, put_attributes, put_fixed32, put_fixed64_unless_zero, put_head, put_number,
    put_number_unless_zero, put_text_unless_empty,
};
use otel_sdk_base::resource::Resource;
use otel_sdk_span::SpanData;
use std::alloc::{AllocError, Global};

/// Puts an event (the protocol's `Span.Event`).
fn event(out: &mut Output, event: &Event) -> Result<(), AllocError>
    ensures { Puts result out.old out.new (spec.event (event_of event.now)) }
{
    put_number_unless_zero(out, 4, event.dropped_attributes_count)?;
    put_attributes(out, 3, event.attributes.as_slice())?;
    put_text_unless_empty(out, 2, event.name.as_str())?;
    put_fixed64_unless_zero(out, 1, event.timestamp)
}

/// Returns the flags of a span or a link.
fn flags(context: &SpanContext, is_remote: bool) -> u32
    ensures { result ≡ spec.flags context.now.trace_flags is_remote }
{
    u32::from(context.trace_flags().to_u8()) + if is_remote { 768 } else { 256 }
}

/// Puts the text of a pair, as in `k=v`.
fn put_entry(out: &mut Output, key: &str, value: &str) -> Result<(), AllocError>
    ensures { OnOk result (out.new
        ≡ put_bytes (entry (61 ∷ []) (pair_with key.now value.now)) out.old) }
{
    out.put(value.as_bytes())?;
    out.put(b"=")?;
    out.put(key.as_bytes())
}

/// Puts a comma and the text of the pair, for each of the pairs.
fn put_entries(out: &mut Output, pairs: TraceStateIter<'_>) -> Result<(), AllocError>
    ensures { OnOk result (out.new
        ≡ put_bytes (flat_map (λ p. (44 ∷ []) ++ entry (61 ∷ []) p) pairs.entry) out.old) }
{
    let mut rest = pairs;
    let Some((key, value)) = rest.next() else {
        return Ok(());
    };
    put_entries(out, rest)?;
    put_entry(out, key, value)?;
    out.put(b",")
}

/// Puts the text of the trace state's header, unless it is empty.
fn put_trace_state(out: &mut Output, state: &TraceState) -> Result<(), AllocError>
    ensures { Puts result out.old out.new (bytes_unless_empty 3 (header state.now)) }
{
    let mut rest = state.iter();
    let Some((key, value)) = rest.next() else {
        return Ok(());
    };
    let end = out.count();
    put_entries(out, rest)?;
    put_entry(out, key, value)?;
    put_head(out, 3, end)
}

/// Puts the ids and the trace state.
fn put_context(out: &mut Output, context: &SpanContext) -> Result<(), AllocError>
    ensures { Puts result out.old out.new (spec.context context.now) }
{
    put_trace_state(out, context.trace_state())?;
    put_span_id(out, 2, context.span_id())?;
    put_trace_id(out, 1, context.trace_id())
}

/// Puts a link (the protocol's `Span.Link`).
fn link(out: &mut Output, link: &Link) -> Result<(), AllocError>
    ensures { Puts result out.old out.new (spec.link (link_of link.now)) }
{
    let context = &link.span_context;
    put_fixed32(out, 6, flags(context, context.is_remote()))?;
    put_number_unless_zero(out, 5, link.dropped_attributes_count)?;
    put_attributes(out, 4, link.attributes.as_slice())?;
    put_context(out, context)
}

/// Puts the message of the status of a success.
fn put_success(out: &mut Output) -> Result<(), AllocError>
    ensures { Puts result out.old out.new (message 15 spec.success ∷ []) }
{
    let end = out.count();
    put_number(out, 3, 1)?;
    put_head(out, 15, end)
}

/// Puts the message of the status of a failure with this description.
fn put_failure(out: &mut Output, description: &str) -> Result<(), AllocError>
    ensures { Puts result out.old out.new (message 15 (spec.failure description.now) ∷ []) }
{
    let end = out.count();
    put_number(out, 3, 2)?;
    put_text_unless_empty(out, 2, description)?;
    put_head(out, 15, end)
}

/// Puts the message of the status (the protocol's `Status`), unless it is unset.
fn put_status(out: &mut Output, status: &Status) -> Result<(), AllocError>
    ensures { Puts result out.old out.new (spec.status_fields status.now) }
{
    match status {
        Status::Unset => Ok(()),
        Status::Ok => put_success(out),
        Status::Error { description } => put_failure(out, description.as_str()),
    }
}

/// Returns the number of the kind of a span (the protocol's `SpanKind`).
fn kind_number(kind: SpanKind) -> u64
    ensures { result ≡ spec.kind_number kind }
{
    match kind {
        SpanKind::Internal => 1,
        SpanKind::Server => 2,
        SpanKind::Client => 3,
        SpanKind::Producer => 4,
        SpanKind::Consumer => 5,
    }
}

/// Puts the span id of the parent, unless the span is a root.
fn put_parent(out: &mut Output, id: SpanId) -> Result<(), AllocError>
    ensures { Puts result out.old out.new (spec.parent id) }
{
    if id == SpanId::INVALID {
        return Ok(());
    }
    put_span_id(out, 4, id)
}

/// Puts the message of each event.
fn put_events(out: &mut Output, items: &[Event]) -> Result<(), AllocError>
    ensures { Puts result out.old out.new (messages 11 spec.event (map event_of items.now)) }
{
    for item in items.iter().rev() {
        let end = out.count();
        event(out, item)?;
        put_head(out, 11, end)?;
    }
    Ok(())
}

/// Puts the message of each link.
fn put_links(out: &mut Output, items: &[Link]) -> Result<(), AllocError>
    ensures { Puts result out.old out.new (messages 13 spec.link (map link_of items.now)) }
{
    for item in items.iter().rev() {
        let end = out.count();
        link(out, item)?;
        put_head(out, 13, end)?;
    }
    Ok(())
}

/// Puts the name, the kind and the times of the span.
fn put_work(out: &mut Output, span: &SpanData) -> Result<(), AllocError>
    ensures { Puts result out.old out.new (spec.work span.now) }
{
    put_fixed64_unless_zero(out, 8, span.end_time)?;
    put_fixed64_unless_zero(out, 7, span.start_time)?;
    put_number(out, 6, kind_number(span.span_kind))?;
    put_text_unless_empty(out, 5, span.name.as_str())
}

/// Puts the attributes, the events and the links, each with the number of dropped ones.
fn put_records(out: &mut Output, span: &SpanData) -> Result<(), AllocError>
    ensures { Puts result out.old out.new (spec.records span.now) }
{
    put_number_unless_zero(out, 14, span.links.dropped_count)?;
    put_links(out, span.links.links.as_slice())?;
    put_number_unless_zero(out, 12, span.events.dropped_count)?;
    put_events(out, span.events.events.as_slice())?;
    put_number_unless_zero(out, 10, span.dropped_attributes_count)?;
    put_attributes(out, 9, span.attributes.as_slice())
}

/// Puts a span (the protocol's `Span`).
fn span(out: &mut Output, span: &SpanData) -> Result<(), AllocError>
    ensures { Puts result out.old out.new (spec.span span.now) }
{
    let context = &span.span_context;
    put_fixed32(out, 16, flags(context, span.parent_span_is_remote))?;
    put_status(out, &span.status)?;
    put_records(out, span)?;
    put_work(out, span)?;
    put_parent(out, span.parent_span_id)?;
    put_context(out, context)
}

impl Grouped for SpanData {
    ghost use Rattle.otel_proto_batches.specs.Traces as spec;

    ghost form = { spec.form };

    fn scope(&self) -> &InstrumentationScope {
        &self.instrumentation_scope
    }

    fn put(&self, out: &mut Output) -> Result<(), AllocError> {
        span(out, self)
    }
}

/// Returns a batch of spans of one resource as the bytes of the protocol's
/// `ExportTraceServiceRequest`, which are those of `TracesData`.
///
/// The scopes are in the order in which they first appear, each with its spans in order. The bytes
/// are counted first, and their buffer is allocated once.
///
/// # Errors
///
/// `AllocError` if out of memory.
pub fn traces_bytes(
    alloc: Global,
    resource: &Resource,
    batch: &[SpanData],
) -> Result<Vec<u8>, AllocError>
    ensures bytes { IfOk result (λ v. v.items ≡ bytes_of (spec.request resource.now batch.now)) }
    ensures reads { IfOk result (λ v.
        read v.items ≡ Some (spec.request resource.now batch.now)) }
{
    batch_bytes(alloc, resource, batch)
}
