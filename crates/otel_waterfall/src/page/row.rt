//! The rows of a trace on a page.
ghost use Rattle.std.specs.Prelude.{◌≡◌, ◌++◌, map, OnOk, string_bytes};
ghost use Rattle.opentelemetry.specs.View.{event_of};
ghost use Rattle.otel_waterfall.specs.Drawn as drawn;
ghost use Rattle.otel_waterfall.specs.PageRow as spec;

use crate::bar::Scale;
use crate::drawn::outcome_of;
use crate::duration::duration_text;
use crate::line::outcome_text;
use crate::page::PageSpan;
use crate::page::details::push_details;
use crate::page::escape::{push_between, push_html};
use crate::rows::Row;
use crate::span::Outcome;
use opentelemetry::trace::Event;
use std::alloc::{AllocError, Global};

/// The start of a bar. Its width is the number of cells.
const OPEN_BAR: &str = "<svg viewBox=\"0 0 500 16\" preserveAspectRatio=none aria-hidden=true>";

/// Appends the mark of an event.
fn push_mark(alloc: Global, text: &mut String, cell: usize) -> Result<(), AllocError>
    ensures { OnOk result
        (string_bytes text.new ≡ string_bytes text.old ++ spec.mark_at cell) }
{
    let mark = format!(in alloc; "<rect class=mark y=0 height=16 width=3 x={cell} />")?;
    text.push_str(mark.as_str())
}

/// Appends a mark for each of the events.
fn push_marks(
    alloc: Global,
    text: &mut String,
    scale: Scale,
    events: &[Event],
) -> Result<(), AllocError>
    ensures { OnOk result (string_bytes text.new ≡ string_bytes text.old
        ++ spec.marks scale.cells scale.from scale.to (map event_of events.now)) }
{
    for event in events {
        push_mark(alloc, text, scale.cell_of(event.timestamp))?;
    }
    Ok(())
}

/// Appends the rectangle of a span with this start and this end.
fn push_rectangle(
    alloc: Global,
    text: &mut String,
    scale: Scale,
    start: u64,
    end: u64,
) -> Result<(), AllocError>
    ensures { OnOk result (string_bytes text.new ≡ string_bytes text.old
        ++ spec.rectangle_of scale.cells scale.from scale.to start end) }
{
    let first = scale.cell_of(start);
    let width = scale.filled(start, end);
    let bar = format!(in alloc; "<rect y=3 height=10 x={first} width={width} />")?;
    push_html(text, bar.as_str())
}

/// Appends the bar of a span: a picture with a rectangle from its start to its end, and a mark for
/// each event.
fn push_bar(
    alloc: Global,
    text: &mut String,
    scale: Scale,
    span: &PageSpan,
) -> Result<(), AllocError>
    ensures { OnOk result (string_bytes text.new ≡ string_bytes text.old
        ++ spec.bar scale.cells scale.from scale.to span.now) }
{
    let span = &span.data;
    push_html(text, OPEN_BAR)?;
    push_rectangle(alloc, text, scale, span.start_time, span.end_time)?;
    push_marks(alloc, text, scale, span.events.events.as_slice())?;
    push_html(text, "</svg>")
}

/// Returns the class of rows with this outcome.
fn outcome_class(outcome: Outcome) -> &'static str
    ensures { result.now ≡ spec.outcome_class outcome }
{
    match outcome {
        Outcome::Error => "error",
        Outcome::Ok => "ok",
        Outcome::Unset => "unset",
    }
}

/// Appends the name of a span.
fn push_name(text: &mut String, name: &str) -> Result<(), AllocError>
    ensures { OnOk result (string_bytes text.new ≡ string_bytes text.old ++ spec.name name.now) }
{
    push_between(text, "<span class=name><bdi>", name, "</bdi></span>")
}

/// Appends the name of a service.
fn push_service(text: &mut String, name: &str) -> Result<(), AllocError>
    ensures { OnOk result
        (string_bytes text.new ≡ string_bytes text.old ++ spec.service name.now) }
{
    push_between(text, "<span class=service><bdi>", name, "</bdi></span>")
}

/// Appends the names of a span and of its service.
///
/// # Errors
///
/// Returns an error if out of memory.
pub(crate) fn push_names(text: &mut String, span: &PageSpan) -> Result<(), AllocError>
    ensures { OnOk result
        (string_bytes text.new ≡ string_bytes text.old ++ spec.names span.now) }
{
    push_name(text, span.data.name.as_str())?;
    push_service(text, span.service.as_str())
}

/// Appends the time from a start to an end.
///
/// # Errors
///
/// Returns an error if out of memory.
pub(crate) fn push_duration(
    alloc: Global,
    text: &mut String,
    start: u64,
    end: u64,
) -> Result<(), AllocError>
    ensures { OnOk result
        (string_bytes text.new ≡ string_bytes text.old ++ spec.duration start end) }
{
    let duration = duration_text(alloc, start, end)?;
    push_between(text, "<span class=time>", duration.as_str(), "</span>")
}

/// Appends the duration of a span.
fn push_time(alloc: Global, text: &mut String, span: &PageSpan) -> Result<(), AllocError>
    ensures { OnOk result (string_bytes text.new ≡ string_bytes text.old
        ++ spec.duration span.now.data.start_time span.now.data.end_time) }
{
    let span = &span.data;
    push_duration(alloc, text, span.start_time, span.end_time)
}

/// Appends the text of an outcome.
fn push_outcome(text: &mut String, outcome: Outcome) -> Result<(), AllocError>
    ensures { OnOk result
        (string_bytes text.new ≡ string_bytes text.old ++ spec.status outcome) }
{
    push_between(
        text,
        "<span class=status>",
        outcome_text(outcome),
        "</span>",
    )
}

/// Appends the text of a span's status.
fn push_status(text: &mut String, span: &PageSpan) -> Result<(), AllocError>
    ensures { OnOk result (string_bytes text.new ≡ string_bytes text.old
        ++ spec.status (drawn.outcome_of span.now.data.status)) }
{
    let span = &span.data;
    push_outcome(text, outcome_of(&span.status))
}

/// Appends the line of a span: its names, its duration, its bar and its status.
fn push_summary(
    alloc: Global,
    text: &mut String,
    scale: Scale,
    span: &PageSpan,
) -> Result<(), AllocError>
    ensures { OnOk result (string_bytes text.new ≡ string_bytes text.old
        ++ spec.summary scale.cells scale.from scale.to span.now) }
{
    push_names(text, span)?;
    push_time(alloc, text, span)?;
    push_bar(alloc, text, scale, span)?;
    push_status(text, span)
}

/// Appends the start of a row with this outcome at a depth.
fn push_opening(
    alloc: Global,
    text: &mut String,
    outcome: Outcome,
    depth: usize,
) -> Result<(), AllocError>
    ensures { OnOk result
        (string_bytes text.new ≡ string_bytes text.old ++ spec.opening outcome depth) }
{
    let class = outcome_class(outcome);
    let open = format!(in alloc; "<details class=\"row {class}\"><summary style=--depth:{depth}>")?;
    push_html(text, open.as_str())
}

/// Appends the start of the row of a span at a depth.
fn push_open(
    alloc: Global,
    text: &mut String,
    span: &PageSpan,
    depth: usize,
) -> Result<(), AllocError>
    ensures { OnOk result (string_bytes text.new ≡ string_bytes text.old
        ++ spec.opening (drawn.outcome_of span.now.data.status) depth) }
{
    let span = &span.data;
    push_opening(alloc, text, outcome_of(&span.status), depth)
}

/// Appends the row of a span at a depth: its line, which opens its details.
fn push_span(
    alloc: Global,
    text: &mut String,
    scale: Scale,
    depth: usize,
    span: &PageSpan,
) -> Result<(), AllocError>
    ensures { OnOk result (string_bytes text.new ≡ string_bytes text.old
        ++ spec.span scale.cells scale.from scale.to depth span.now) }
{
    push_open(alloc, text, span, depth)?;
    push_summary(alloc, text, scale, span)?;
    push_html(text, "</summary>")?;
    push_details(alloc, text, scale.from, span)?;
    push_html(text, "</details>")
}

/// Returns the word for a parent that isn't among the spans.
fn absence(is_remote: bool) -> &'static str
    ensures { result.now ≡ spec.absence is_remote }
{
    if is_remote { "remote" } else { "missing" }
}

/// Appends the row of a parent that isn't among the spans.
fn push_absent(alloc: Global, text: &mut String, child: &PageSpan) -> Result<(), AllocError>
    ensures { OnOk result
        (string_bytes text.new ≡ string_bytes text.old ++ spec.absent child.now) }
{
    let child = &child.data;
    let id = child.parent_span_id;
    let word = absence(child.parent_span_is_remote);
    let row = format!(in alloc; "<p class=absent>{word} parent {id}</p>")?;
    push_html(text, row.as_str())
}

/// Appends a row.
///
/// # Errors
///
/// Returns an error if out of memory.
pub(crate) fn push_row(
    alloc: Global,
    text: &mut String,
    scale: Scale,
    spans: &[PageSpan],
    row: Row,
) -> Result<(), AllocError>
    ensures { OnOk result (string_bytes text.new ≡ string_bytes text.old
        ++ spec.row scale.cells scale.from scale.to spans.now row) }
{
    match row {
        Row::Span { place, depth, .. } => {
            if let Some(span) = spans.get(place) {
                push_span(alloc, text, scale, depth, span)?;
            }
        }
        Row::Absent { child } => {
            if let Some(child) = spans.get(child) {
                push_absent(alloc, text, child)?;
            }
        }
    }
    Ok(())
}
