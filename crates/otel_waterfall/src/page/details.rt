//! The details of a span: facts, attributes, events and links.
ghost use Rattle.std.specs.Prelude.{◌≡◌, ◌++◌, map, OnOk, string_bytes};
ghost use Rattle.otel_base.specs.View.{attribute_of};
ghost use Rattle.opentelemetry.specs.View.{event_of, link_of};
ghost use Rattle.otel_waterfall.specs.Details as spec;

use crate::duration::duration_text;
use crate::page::PageSpan;
use crate::page::escape::{push_between, push_count, push_field, push_html};
use opentelemetry::KeyValue;
use opentelemetry::trace::{Event, Link, SpanId, SpanKind, Status};
use std::alloc::{AllocError, Global};

/// Appends an attribute.
fn push_attribute(alloc: Global, text: &mut String, attribute: &KeyValue) -> Result<(), AllocError>
    ensures { OnOk result (string_bytes text.new
        ≡ string_bytes text.old ++ spec.attribute (attribute_of attribute.now)) }
{
    let value = attribute.value.as_str(alloc)?;
    push_field(text, attribute.key.as_str(), &value)
}

/// Appends attributes.
fn push_attributes(
    alloc: Global,
    text: &mut String,
    attributes: &[KeyValue],
) -> Result<(), AllocError>
    ensures { OnOk result (string_bytes text.new
        ≡ string_bytes text.old ++ spec.attributes (map attribute_of attributes.now)) }
{
    for attribute in attributes {
        push_attribute(alloc, text, attribute)?;
    }
    Ok(())
}

/// Appends the time from the trace's start to a moment.
fn push_offset(alloc: Global, text: &mut String, from: u64, moment: u64) -> Result<(), AllocError>
    ensures { OnOk result
        (string_bytes text.new ≡ string_bytes text.old ++ spec.offset from moment) }
{
    let offset = duration_text(alloc, from, moment)?;
    push_between(text, "<span class=at>", offset.as_str(), "</span>")
}

/// Appends the name of an event.
fn push_event_name(text: &mut String, name: &str) -> Result<(), AllocError>
    ensures { OnOk result
        (string_bytes text.new ≡ string_bytes text.old ++ spec.event_name name.now) }
{
    push_between(text, "<li><b><bdi>", name, "</bdi></b> ")
}

/// Appends an event.
fn push_event(alloc: Global, text: &mut String, from: u64, event: &Event) -> Result<(), AllocError>
    ensures { OnOk result
        (string_bytes text.new ≡ string_bytes text.old ++ spec.event from (event_of event.now)) }
{
    push_event_name(text, event.name.as_str())?;
    push_offset(alloc, text, from, event.timestamp)?;
    push_html(text, "<dl>")?;
    push_attributes(alloc, text, event.attributes.as_slice())?;
    push_count(
        alloc,
        text,
        "dropped attributes",
        event.dropped_attributes_count,
    )?;
    push_html(text, "</dl></li>")
}

/// Appends events.
fn push_events(
    alloc: Global,
    text: &mut String,
    from: u64,
    events: &[Event],
) -> Result<(), AllocError>
    ensures { OnOk result (string_bytes text.new
        ≡ string_bytes text.old ++ spec.events from (map event_of events.now)) }
{
    for event in events {
        push_event(alloc, text, from, event)?;
    }
    Ok(())
}

/// Appends a link.
fn push_link(alloc: Global, text: &mut String, link: &Link) -> Result<(), AllocError>
    ensures { OnOk result
        (string_bytes text.new ≡ string_bytes text.old ++ spec.link (link_of link.now)) }
{
    let trace = link.span_context.trace_id();
    let span = link.span_context.span_id();
    let head = format!(in alloc; "<li>trace {trace} span {span}<dl>")?;
    push_html(text, head.as_str())?;
    push_attributes(alloc, text, link.attributes.as_slice())?;
    push_count(
        alloc,
        text,
        "dropped attributes",
        link.dropped_attributes_count,
    )?;
    push_html(text, "</dl></li>")
}

/// Appends links.
fn push_links(alloc: Global, text: &mut String, links: &[Link]) -> Result<(), AllocError>
    ensures { OnOk result (string_bytes text.new
        ≡ string_bytes text.old ++ spec.links (map link_of links.now)) }
{
    for link in links {
        push_link(alloc, text, link)?;
    }
    Ok(())
}

/// Returns the word for a kind of span.
fn kind_text(kind: SpanKind) -> &'static str
    ensures { result.now ≡ spec.kind_text kind }
{
    match kind {
        SpanKind::Internal => "internal",
        SpanKind::Server => "server",
        SpanKind::Client => "client",
        SpanKind::Producer => "producer",
        SpanKind::Consumer => "consumer",
    }
}

/// Appends the status, unless it is unset: `ok`, or the description of the error.
fn push_status(text: &mut String, status: &Status) -> Result<(), AllocError>
    ensures { OnOk result
        (string_bytes text.new ≡ string_bytes text.old ++ spec.status_field status.now) }
{
    match status {
        Status::Unset => Ok(()),
        Status::Ok => push_field(text, "status", "ok"),
        Status::Error { description } => push_field(text, "error", description.as_str()),
    }
}

/// Appends the id of a span, unless it is invalid.
fn push_id(alloc: Global, text: &mut String, name: &str, id: SpanId) -> Result<(), AllocError>
    ensures { OnOk result
        (string_bytes text.new ≡ string_bytes text.old ++ spec.id_field name.now id) }
{
    if id == SpanId::INVALID {
        return Ok(());
    }
    let digits = format!(in alloc; "{id}")?;
    push_field(text, name, digits.as_str())
}

/// Appends when the span started after the trace's start.
fn push_start(alloc: Global, text: &mut String, from: u64, start: u64) -> Result<(), AllocError>
    ensures { OnOk result
        (string_bytes text.new ≡ string_bytes text.old ++ spec.start_field from start) }
{
    let offset = duration_text(alloc, from, start)?;
    push_field(text, "starts at", offset.as_str())
}

/// Appends the numbers of parts that were dropped.
fn push_dropped(alloc: Global, text: &mut String, span: &PageSpan) -> Result<(), AllocError>
    ensures { OnOk result
        (string_bytes text.new ≡ string_bytes text.old ++ spec.dropped span.now) }
{
    let span = &span.data;
    push_count(
        alloc,
        text,
        "dropped attributes",
        span.dropped_attributes_count,
    )?;
    push_count(alloc, text, "dropped events", span.events.dropped_count)?;
    push_count(alloc, text, "dropped links", span.links.dropped_count)
}

/// Appends what the span is: its error first, then its service, kind, start and ids.
fn push_facts(
    alloc: Global,
    text: &mut String,
    from: u64,
    span: &PageSpan,
) -> Result<(), AllocError>
    ensures { OnOk result
        (string_bytes text.new ≡ string_bytes text.old ++ spec.facts from span.now) }
{
    let data = &span.data;
    push_status(text, &data.status)?;
    push_field(text, "service", span.service.as_str())?;
    push_field(text, "kind", kind_text(data.span_kind))?;
    push_start(alloc, text, from, data.start_time)?;
    push_id(alloc, text, "span", data.span_context.span_id())?;
    push_id(alloc, text, "parent", data.parent_span_id)?;
    push_dropped(alloc, text, span)
}

/// Appends the lists of attributes, events and links.
fn push_lists(
    alloc: Global,
    text: &mut String,
    from: u64,
    span: &PageSpan,
) -> Result<(), AllocError>
    ensures { OnOk result
        (string_bytes text.new ≡ string_bytes text.old ++ spec.lists from span.now) }
{
    let span = &span.data;
    push_html(text, "<h4>attributes</h4><dl>")?;
    push_attributes(alloc, text, span.attributes.as_slice())?;
    push_html(text, "</dl><h4>events</h4><ol>")?;
    push_events(alloc, text, from, span.events.events.as_slice())?;
    push_html(text, "</ol><h4>links</h4><ol>")?;
    push_links(alloc, text, span.links.links.as_slice())?;
    push_html(text, "</ol>")
}

/// Appends a name, before facts.
fn push_heading(text: &mut String, name: &str) -> Result<(), AllocError>
    ensures { OnOk result
        (string_bytes text.new ≡ string_bytes text.old ++ spec.heading name.now) }
{
    push_between(text, "<div><h3><bdi>", name, "</bdi></h3><dl>")
}

/// Appends the name of a span, before its facts.
fn push_title(text: &mut String, span: &PageSpan) -> Result<(), AllocError>
    ensures { OnOk result
        (string_bytes text.new ≡ string_bytes text.old ++ spec.heading span.now.data.name) }
{
    let span = &span.data;
    push_heading(text, span.name.as_str())
}

/// Appends the details of a span, of a trace that starts at `from`.
///
/// # Errors
///
/// Returns an error if out of memory.
pub(crate) fn push_details(
    alloc: Global,
    text: &mut String,
    from: u64,
    span: &PageSpan,
) -> Result<(), AllocError>
    ensures { OnOk result
        (string_bytes text.new ≡ string_bytes text.old ++ spec.details from span.now) }
{
    push_title(text, span)?;
    push_facts(alloc, text, from, span)?;
    push_html(text, "</dl>")?;
    push_lists(alloc, text, from, span)?;
    push_html(text, "</div>")
}
