//! Reads spans with their events and links.
ghost use Rattle.std.specs.Prelude.{◌≡◌, List, ℕ, None, Some, Bool, IfOk, IfErr, map};
ghost use Rattle.std.specs.Prelude.{string_bytes, codes};
ghost use Rattle.serde_json.specs.View.{view};
ghost use Rattle.otel_context.specs.declared.span.status.SpanKind.{SpanKind as Kind};
ghost use Rattle.otel_context.specs.declared.span.status.Status.{Status as State};
ghost use Rattle.otel_ids.specs.SpanContext.{SpanContextRecord};
ghost use Rattle.opentelemetry.specs.Event.{EventRecord, LinkRecord};
ghost use Rattle.opentelemetry.specs.View.{event_of, link_of};
ghost use Rattle.otel_otlp.specs.ReadErrors.{NamesPlace};
ghost use Rattle.otel_otlp.specs.ReadMembers.{IsRefused};
ghost use Rattle.otel_otlp.specs.ReadTraces as spec;

use crate::read::error::{Fault, unexpected};
use crate::read::groups::Item;
use crate::read::members::{
    check_object, member, narrow, parent_id, span_id, text, trace_id, trace_state, wide,
};
use crate::read::messages::{Message, read_list};
use crate::read::values::attributes;
use opentelemetry::trace::{Event, Link, SpanContext, SpanId, SpanKind, Status, TraceFlags};
use opentelemetry::{InstrumentationScope, StringValue};
use otel_sdk_span::{SpanData, SpanEvents, SpanLinks};
use serde_json::Value;
use std::alloc::Global;
use std::rc::Rc;

/// The protocol's `Span.Event`.
impl Message for Event {
    ghost use Rattle.opentelemetry.specs.Event.{EventRecord};
    ghost use Rattle.opentelemetry.specs.View.{event_of};
    ghost use Rattle.otel_otlp.specs.ReadTraces as spec;

    ghost Seen = { EventRecord };

    ghost seen = { event_of };

    ghost says = { spec.IsEvent };

    fn read(alloc: Global, value: &Value) -> Result<Event, Fault> {
        check_object(alloc, value)?;
        let timestamp = wide(alloc, value, "timeUnixNano")?;
        let name = text(alloc, value, "name")?;
        let given = attributes(alloc, value)?;
        let dropped = narrow(alloc, value, "droppedAttributesCount")?;
        Ok(Event::new(StringValue::from(name), timestamp, given, dropped))
    }
}

/// Returns `true` if the flags say that the parent or the linked span is remote.
fn is_remote(flags: u32) -> bool
    ensures { result ≡ spec.is_remote flags }
{
    flags / 256 % 4 == 3
}

/// Reads a span context with these flags.
fn context(alloc: Global, object: &Value, flags: u32, is_remote: bool) -> Result<SpanContext, Fault>
    ensures ok { IfOk result (spec.IsContext (view object.now) flags is_remote) }
    ensures err { IfErr result (λ e. IsRefused e
        → (c : SpanContextRecord) → ¬ spec.IsContext (view object.now) flags is_remote c) }
{
    let trace_id = trace_id(alloc, object)?;
    let span_id = span_id(alloc, object)?;
    let state = trace_state(alloc, object)?;
    Ok(SpanContext::new(
        trace_id,
        span_id,
        TraceFlags::new((flags % 256) as u8),
        is_remote,
        state,
    ))
}

/// The protocol's `Span.Link`.
impl Message for Link {
    ghost use Rattle.opentelemetry.specs.Event.{LinkRecord};
    ghost use Rattle.opentelemetry.specs.View.{link_of};
    ghost use Rattle.otel_otlp.specs.ReadTraces as spec;

    ghost Seen = { LinkRecord };

    ghost seen = { link_of };

    ghost says = { spec.IsLink };

    fn read(alloc: Global, value: &Value) -> Result<Link, Fault> {
        check_object(alloc, value)?;
        let flags = narrow(alloc, value, "flags")?;
        let linked = context(alloc, value, flags, is_remote(flags))?;
        let given = attributes(alloc, value)?;
        let dropped = narrow(alloc, value, "droppedAttributesCount")?;
        Ok(Link::new(linked, given, dropped))
    }
}

/// Returns the code of a status with this number.
fn code_numbered(number: u64) -> Option<u8>
    ensures { result ≡ spec.code_numbered number }
{
    match number {
        0 => Some(0),
        1 => Some(1),
        2 => Some(2),
        _ => None,
    }
}

/// Returns the code of a status with this name.
fn code_named(name: &str) -> Option<u8>
    ensures { result ≡ spec.code_named name.now }
{
    match name {
        "STATUS_CODE_UNSET" => Some(0),
        "STATUS_CODE_OK" => Some(1),
        "STATUS_CODE_ERROR" => Some(2),
        _ => None,
    }
}

/// Reads the code of a status, a number or a name.
fn code_of(value: &Value) -> Option<u8>
    ensures { result ≡ spec.code_of (view value.now) }
{
    match value {
        Value::String(name) => code_named(name.as_str()),
        _ => value.as_u64().and_then(code_numbered),
    }
}

/// Returns the code of the status, 0 if it is absent.
fn code(alloc: Global, object: &Value) -> Result<u8, Fault>
    ensures ok { IfOk result (spec.HasCode (view object.now)) }
    ensures err { IfErr result (λ e. IsRefused e
        → (code : ℕ) → ¬ spec.HasCode (view object.now) code) }
    ensures place { IfErr result (NamesPlace (codes "code") (codes "the code of a status")) }
{
    let Some(value) = member(object, "code") else {
        return Ok(0);
    };
    match code_of(value) {
        Some(code) => Ok(code),
        None => Err(unexpected(alloc, "code", "the code of a status")),
    }
}

/// Returns the status with this code and, if it is an error, this description.
fn status_of(code: u8, message: String) -> Status
    ensures { result ≡ spec.status_of code (string_bytes message) }
{
    match code {
        1 => Status::Ok,
        2 => Status::error(StringValue::from(message)),
        _ => Status::Unset,
    }
}

/// Reads a status (the protocol's `Status`).
fn status(alloc: Global, value: &Value) -> Result<Status, Fault>
    ensures ok { IfOk result (spec.IsStatus (view value.now)) }
    ensures err { IfErr result (λ e. IsRefused e
        → (s : State) → ¬ spec.IsStatus (view value.now) s) }
{
    check_object(alloc, value)?;
    let code = code(alloc, value)?;
    let message = text(alloc, value, "message")?;
    Ok(status_of(code, message))
}

/// Returns the status of the span, which is unset if it is absent.
fn status_in(alloc: Global, span: &Value) -> Result<Status, Fault>
    ensures ok { IfOk result (spec.HasStatus (view span.now)) }
    ensures err { IfErr result (λ e. IsRefused e
        → (s : State) → ¬ spec.HasStatus (view span.now) s) }
{
    let Some(value) = member(span, "status") else {
        return Ok(Status::Unset);
    };
    match status(alloc, value) {
        Ok(status) => Ok(status),
        Err(error) => Err(error.within(alloc, "status")),
    }
}

/// Returns the kind of a span with this number.
fn kind_numbered(number: u64) -> Option<SpanKind>
    ensures { result ≡ spec.kind_numbered number }
{
    match number {
        0 => Some(SpanKind::Internal),
        1 => Some(SpanKind::Internal),
        2 => Some(SpanKind::Server),
        3 => Some(SpanKind::Client),
        4 => Some(SpanKind::Producer),
        5 => Some(SpanKind::Consumer),
        _ => None,
    }
}

/// Returns the kind of a span with this name.
fn kind_named(name: &str) -> Option<SpanKind>
    ensures { result ≡ spec.kind_named name.now }
{
    match name {
        "SPAN_KIND_UNSPECIFIED" => Some(SpanKind::Internal),
        "SPAN_KIND_INTERNAL" => Some(SpanKind::Internal),
        "SPAN_KIND_SERVER" => Some(SpanKind::Server),
        "SPAN_KIND_CLIENT" => Some(SpanKind::Client),
        "SPAN_KIND_PRODUCER" => Some(SpanKind::Producer),
        "SPAN_KIND_CONSUMER" => Some(SpanKind::Consumer),
        _ => None,
    }
}

/// Reads the kind of a span, a number or a name.
fn kind_of(value: &Value) -> Option<SpanKind>
    ensures { result ≡ spec.kind_of (view value.now) }
{
    match value {
        Value::String(name) => kind_named(name.as_str()),
        _ => value.as_u64().and_then(kind_numbered),
    }
}

/// Returns the kind of the span, which is internal if it is absent.
fn kind(alloc: Global, span: &Value) -> Result<SpanKind, Fault>
    ensures ok { IfOk result (spec.HasKind (view span.now)) }
    ensures err { IfErr result (λ e. IsRefused e
        → (k : Kind) → ¬ spec.HasKind (view span.now) k) }
    ensures place { IfErr result (NamesPlace (codes "kind") (codes "the kind of a span")) }
{
    let Some(value) = member(span, "kind") else {
        return Ok(SpanKind::Internal);
    };
    match kind_of(value) {
        Some(kind) => Ok(kind),
        None => Err(unexpected(alloc, "kind", "the kind of a span")),
    }
}

/// The identity of a span: its context, its parent, and whether the parent is remote.
#[derive(Drop)]
struct Identity {
    context: SpanContext,
    parent_id: SpanId,
    parent_is_remote: bool,
}

/// Reads the identity of a span.
fn identity_in(alloc: Global, span: &Value) -> Result<Identity, Fault>
    ensures ok { IfOk result (λ i.
        spec.HasIdentity (view span.now) i.context i.parent_id i.parent_is_remote) }
    ensures err { IfErr result (λ e. IsRefused e
        → (c : SpanContextRecord) (parent : ℕ) (remote : Bool)
        → ¬ spec.HasIdentity (view span.now) c parent remote) }
{
    let flags = narrow(alloc, span, "flags")?;
    let context = context(alloc, span, flags, false)?;
    let parent_id = parent_id(alloc, span)?;
    Ok(Identity {
        context,
        parent_id,
        parent_is_remote: is_remote(flags),
    })
}

/// The name, the kind, the times and the status of a span.
#[derive(Drop)]
struct Work {
    name: StringValue,
    kind: SpanKind,
    start_time: u64,
    end_time: u64,
    status: Status,
}

/// Reads the name, the kind, the times and the status of a span.
fn work_in(alloc: Global, span: &Value) -> Result<Work, Fault>
    ensures ok { IfOk result (λ w.
        spec.HasWork (view span.now) w.name w.kind w.start_time w.end_time w.status) }
    ensures err { IfErr result (λ e. IsRefused e
        → (name : List ℕ) (k : Kind) (start end : ℕ) (s : State)
        → ¬ spec.HasWork (view span.now) name k start end s) }
{
    let name = text(alloc, span, "name")?;
    let kind = kind(alloc, span)?;
    let start_time = wide(alloc, span, "startTimeUnixNano")?;
    let end_time = wide(alloc, span, "endTimeUnixNano")?;
    let status = status_in(alloc, span)?;
    Ok(Work {
        name: StringValue::from(name),
        kind,
        start_time,
        end_time,
        status,
    })
}

/// Returns the events of the span.
fn events(alloc: Global, span: &Value) -> Result<SpanEvents, Fault>
    ensures ok { IfOk result (λ es.
        spec.HasEvents (view span.now) (map event_of es.events.items) es.dropped_count) }
    ensures err { IfErr result (λ e. IsRefused e
        → (es : List EventRecord) (n : ℕ) → ¬ spec.HasEvents (view span.now) es n) }
{
    let events = read_list::<Event>(alloc, span, "events")?;
    let dropped_count = narrow(alloc, span, "droppedEventsCount")?;
    Ok(SpanEvents {
        events,
        dropped_count,
    })
}

/// Returns the links of the span.
fn links(alloc: Global, span: &Value) -> Result<SpanLinks, Fault>
    ensures ok { IfOk result (λ ls.
        spec.HasLinks (view span.now) (map link_of ls.links.items) ls.dropped_count) }
    ensures err { IfErr result (λ e. IsRefused e
        → (ls : List LinkRecord) (n : ℕ) → ¬ spec.HasLinks (view span.now) ls n) }
{
    let links = read_list::<Link>(alloc, span, "links")?;
    let dropped_count = narrow(alloc, span, "droppedLinksCount")?;
    Ok(SpanLinks {
        links,
        dropped_count,
    })
}

/// The protocol's `Span`.
impl Item for SpanData {
    ghost use Rattle.otel_otlp.specs.ReadTraces as spec;

    ghost says = { spec.IsSpan };

    fn read(
        alloc: Global,
        value: &Value,
        scope: &Rc<InstrumentationScope>,
    ) -> Result<SpanData, Fault> {
        check_object(alloc, value)?;
        let identity = identity_in(alloc, value)?;
        let work = work_in(alloc, value)?;
        let given = attributes(alloc, value)?;
        let dropped = narrow(alloc, value, "droppedAttributesCount")?;
        let events = events(alloc, value)?;
        let links = links(alloc, value)?;
        let shared = scope.clone()?;
        Ok(SpanData {
            span_context: identity.context,
            parent_span_id: identity.parent_id,
            parent_span_is_remote: identity.parent_is_remote,
            span_kind: work.kind,
            name: work.name,
            start_time: work.start_time,
            end_time: work.end_time,
            attributes: given,
            dropped_attributes_count: dropped,
            events,
            links,
            status: work.status,
            instrumentation_scope: shared,
        })
    }
}
