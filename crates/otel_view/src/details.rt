//! What a picture of a trace doesn't show: attributes, events, links and statuses.

use crate::clock::Clock;
use crate::color::{Colors, Paint};
use crate::logs::Line;
use anyhow::Result;
use opentelemetry::KeyValue;
use opentelemetry::trace::{Event, Link, SpanKind, Status};
use otel_sdk_span::SpanData;
use otel_waterfall::{duration_text, fit, shown_name};
use std::alloc::{AllocError, Global};

/// The columns after which a line of a text is cut.
const COLUMNS: usize = 1000;

/// Appends a line of a text as it is shown.
fn push_shown(alloc: Global, text: &mut String, line: &str) -> Result<(), AllocError> {
    let mut chars = shown_name(alloc, false, line)?;
    fit(false, COLUMNS, &mut chars);
    for c in &chars {
        text.push(*c)?;
    }
    Ok(())
}

/// Appends a text of one or more lines. Each but the first is indented further.
fn push_lines(
    alloc: Global,
    text: &mut String,
    indent: &str,
    lines: &str,
) -> Result<(), AllocError> {
    let mut is_first = true;
    for line in lines.split('\n') {
        if !is_first {
            text.push_str(indent)?;
            text.push_str("  ")?;
        }
        push_shown(alloc, text, line)?;
        text.push('\n')?;
        is_first = false;
    }
    Ok(())
}

/// Appends the attributes, a line for each.
fn push_attributes(
    alloc: Global,
    text: &mut String,
    indent: &str,
    attributes: &[KeyValue],
) -> Result<(), AllocError> {
    for attribute in attributes {
        text.push_str(indent)?;
        push_shown(alloc, text, attribute.key.as_str())?;
        text.push_str(" = ")?;
        let value = attribute.value.as_str(alloc)?;
        push_lines(alloc, text, indent, value.as_str())?;
    }
    Ok(())
}

/// Appends how many things were dropped.
fn push_dropped(
    alloc: Global,
    text: &mut String,
    indent: &str,
    count: u32,
    things: &str,
) -> Result<(), AllocError> {
    if count > 0 {
        let line = format!(in alloc; "{indent}{count} more {things} were dropped\n")?;
        text.push_str(line.as_str())?;
    }
    Ok(())
}

/// Appends an event, at its time after the start of the trace.
fn push_event(
    alloc: Global,
    text: &mut String,
    start: u64,
    event: &Event,
) -> Result<(), AllocError> {
    let after = duration_text(alloc, start, event.timestamp)?;
    let after = after.as_str();
    let line = format!(in alloc; "  event at {after}: ")?;
    text.push_str(line.as_str())?;
    push_lines(alloc, text, "  ", event.name.as_str())?;
    push_attributes(alloc, text, "    ", event.attributes.as_slice())?;
    push_dropped(
        alloc,
        text,
        "    ",
        event.dropped_attributes_count,
        "attributes",
    )
}

/// Appends a link.
fn push_link(alloc: Global, text: &mut String, link: &Link) -> Result<(), AllocError> {
    let trace = link.span_context.trace_id();
    let span = link.span_context.span_id();
    let line = format!(in alloc; "  link to span {span} of trace {trace}\n")?;
    text.push_str(line.as_str())?;
    push_attributes(alloc, text, "    ", link.attributes.as_slice())?;
    push_dropped(
        alloc,
        text,
        "    ",
        link.dropped_attributes_count,
        "attributes",
    )
}

/// Appends the status, unless it is unset.
fn push_status(
    alloc: Global,
    text: &mut String,
    colors: Colors,
    status: &Status,
) -> Result<(), AllocError> {
    match status {
        Status::Unset => Ok(()),
        Status::Ok => text.push_str("  status ok\n"),
        Status::Error { description } => {
            colors.paint(Paint::Error).push(text, "  status error:")?;
            text.push(' ')?;
            push_lines(alloc, text, "  ", description.as_str())
        }
    }
}

/// Returns the word for the kind of a span.
fn kind_word(kind: &SpanKind) -> &'static str {
    match kind {
        SpanKind::Client => "client",
        SpanKind::Server => "server",
        SpanKind::Producer => "producer",
        SpanKind::Consumer => "consumer",
        SpanKind::Internal => "internal",
    }
}

/// Appends the events, at their times after the start of the trace, and how many were dropped.
fn push_events(
    alloc: Global,
    text: &mut String,
    start: u64,
    span: &SpanData,
) -> Result<(), AllocError> {
    for event in &span.events.events {
        push_event(alloc, text, start, event)?;
    }
    push_dropped(alloc, text, "  ", span.events.dropped_count, "events")
}

/// Appends the links, and how many were dropped.
fn push_links(alloc: Global, text: &mut String, span: &SpanData) -> Result<(), AllocError> {
    for link in &span.links.links {
        push_link(alloc, text, link)?;
    }
    push_dropped(alloc, text, "  ", span.links.dropped_count, "links")
}

/// Appends the time of a log record after the start of the trace, unless it isn't known.
fn push_time(alloc: Global, text: &mut String, start: u64, time: u64) -> Result<(), AllocError> {
    if time == 0 {
        return text.push_str("  log");
    }
    let after = duration_text(alloc, start, time)?;
    let after = after.as_str();
    text.push_str(format!(in alloc; "  log at {after}")?.as_str())
}

/// Appends a log record: its time, its severity and its body.
fn push_log(alloc: Global, text: &mut String, start: u64, line: &Line) -> Result<(), AllocError> {
    push_time(alloc, text, start, line.time)?;
    if !line.severity.as_str().is_empty() {
        text.push(' ')?;
        push_shown(alloc, text, line.severity.as_str())?;
    }
    text.push_str(": ")?;
    push_lines(alloc, text, "  ", line.body.as_str())
}

/// Appends the log records of a span, at their times after the start of the trace.
fn push_logs(
    alloc: Global,
    text: &mut String,
    start: u64,
    lines: &[Line],
) -> Result<(), AllocError> {
    for line in lines {
        push_log(alloc, text, start, line)?;
    }
    Ok(())
}

/// Appends the status, the attributes, the events and the links of a span.
fn push_parts(
    alloc: Global,
    text: &mut String,
    colors: Colors,
    start: u64,
    span: &SpanData,
) -> Result<(), AllocError> {
    push_status(alloc, text, colors, &span.status)?;
    push_attributes(alloc, text, "  ", span.attributes.as_slice())?;
    let dropped = span.dropped_attributes_count;
    push_dropped(alloc, text, "  ", dropped, "attributes")?;
    push_events(alloc, text, start, span)?;
    push_links(alloc, text, span)
}

/// How the spans of a trace are shown.
#[derive(Drop)]
pub struct Details {
    /// The clock of their times.
    pub clock: Clock,
    /// Whether errors and names are coloured.
    pub colors: Colors,
    /// When the trace started.
    pub start: u64,
}

impl Details {
    /// Returns the line below the name of a span, without the service.
    fn facts(&self, alloc: Global, span: &SpanData) -> Result<String> {
        let moment = self.clock.text(alloc, span.start_time)?;
        let after = duration_text(alloc, self.start, span.start_time)?;
        let duration = duration_text(alloc, span.start_time, span.end_time)?;
        let (moment, after, duration) = (moment.as_str(), after.as_str(), duration.as_str());
        let id = span.span_context.span_id();
        let kind = kind_word(&span.span_kind);
        Ok(format!(in alloc; "  {id} {kind}, {moment}, at {after} for {duration}, ")?)
    }

    /// Appends the name of a span.
    fn push_name(&self, alloc: Global, text: &mut String, name: &str) -> Result<(), AllocError> {
        let mut lines = String::new(alloc);
        push_lines(alloc, &mut lines, "", name)?;
        let _ = lines.pop();
        self.colors.paint(Paint::Strong).push(text, lines.as_str())?;
        text.push('\n')
    }

    /// Returns the details of a span of this service, with its log records.
    ///
    /// # Errors
    ///
    /// Out of memory, or a moment that no clock shows.
    pub fn text(
        &self,
        alloc: Global,
        service: &str,
        span: &SpanData,
        logs: &[Line],
    ) -> Result<String> {
        let facts = self.facts(alloc, span)?;
        let mut text = String::from_str(alloc, "\n")?;
        self.push_name(alloc, &mut text, span.name.as_str())?;
        text.push_str(facts.as_str())?;
        push_lines(alloc, &mut text, "  ", service)?;
        push_parts(alloc, &mut text, self.colors, self.start, span)?;
        push_logs(alloc, &mut text, self.start, logs)?;
        Ok(text)
    }
}
