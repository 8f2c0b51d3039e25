//! Traces as a page of HTML.
ghost use Rattle.std.specs.Prelude.{◌≡◌, ◌==◌, ◌++◌, ℕ, [], List, map, count_by};
ghost use Rattle.std.specs.Prelude.{IfOk, OnOk, string_bytes};
ghost use Rattle.otel_waterfall.specs.Drawn.{look, look_of};
ghost use Rattle.otel_waterfall.specs.Page as spec;

mod details;
mod escape;
mod row;
mod style;

use crate::bar::Scale;
use crate::drawn::drawn_span;
use crate::page::escape::{push_between, push_html};
use crate::page::row::{push_duration, push_names, push_row};
use crate::page::style::{BODY, END, START, STYLE};
use crate::pictures::{Extent, extent_of, spans_word};
use crate::rows::{Row, rows_of};
use crate::span::{Outcome, Span};
use opentelemetry::StringValue;
use otel_ids::TraceId;
use otel_sdk_span::SpanData;
use std::alloc::{AllocError, Global};

/// A span of a page.
#[derive(Debug, Drop)]
pub struct PageSpan {
    /// The name of the service that recorded it: the `service.name` of its resource.
    pub service: StringValue,
    /// Its data.
    pub data: SpanData,
}

/// A trace of a page.
#[derive(Debug, Drop)]
pub struct PageTrace {
    /// The id of the trace. A span of another trace isn't shown.
    pub trace_id: TraceId,
    /// The time of its start as the page shows it, in the reader's time zone.
    pub start: StringValue,
    /// Its spans, in any order.
    pub spans: Vec<PageSpan>,
}

/// The number of cells of a bar.
const CELLS: usize = 500;

/// Returns the spans as they are drawn.
fn drawn_spans(alloc: Global, spans: &[PageSpan]) -> Result<Vec<Span>, AllocError>
    ensures { IfOk result (λ drawn. map look drawn.items ≡ map spec.look_of_span spans.now) }
{
    let mut drawn = Vec::new(alloc);
    for span in spans {
        drawn.push(drawn_span(alloc, false, &span.data)?)?;
    }
    Ok(drawn)
}

/// Returns whether it is a span of the trace whose status is an error.
fn is_failed(span: &Span, trace: TraceId) -> bool
    ensures { result ≡ spec.is_failed trace (look span.now) }
{
    span.trace_id == trace && matches!(span.outcome, Outcome::Error)
}

/// Returns the number of spans of the trace whose status is an error.
fn errors_of(spans: &[Span], trace: TraceId) -> usize
    ensures { result ≡ count_by (spec.is_failed trace) (map look spans.now) }
{
    let mut errors = 0;
    for span in spans {
        if is_failed(span, trace) {
            errors += 1;
        }
    }
    errors
}

/// Returns the place of the span that names the trace: the one of its first row.
fn first_place(rows: &[Row]) -> usize
    ensures { result ≡ spec.first_place rows.now }
{
    match rows.first() {
        Some(Row::Span { place, .. }) => *place,
        Some(Row::Absent { child }) => *child,
        None => 0,
    }
}

/// Appends the names of the span at this place and of its service.
fn push_title(text: &mut String, spans: &[PageSpan], place: usize) -> Result<(), AllocError>
    ensures { OnOk result
        (string_bytes text.new ≡ string_bytes text.old ++ spec.title spans.now place) }
{
    if let Some(span) = spans.get(place) {
        push_names(text, span)?;
    }
    Ok(())
}

/// Appends the number of errors, unless it is 0.
fn push_errors(alloc: Global, text: &mut String, errors: usize) -> Result<(), AllocError>
    ensures { OnOk result
        (string_bytes text.new ≡ string_bytes text.old ++ spec.errors_text errors) }
{
    if errors == 0 {
        return Ok(());
    }
    let word = errors_word(errors);
    let errors = format!(in alloc; "<span class=errors>{errors} {word}</span>")?;
    text.push_str(errors.as_str())
}

/// Appends the number of spans.
fn push_count_of_spans(alloc: Global, text: &mut String, spans: usize) -> Result<(), AllocError>
    ensures { OnOk result
        (string_bytes text.new ≡ string_bytes text.old ++ spec.spans_text spans) }
{
    let word = spans_word(spans);
    let count = format!(in alloc; "<span class=count>{spans} {word}</span>")?;
    text.push_str(count.as_str())
}

/// Appends the numbers of spans and of errors.
fn push_counts(
    alloc: Global,
    text: &mut String,
    spans: usize,
    errors: usize,
) -> Result<(), AllocError>
    ensures { OnOk result
        (string_bytes text.new ≡ string_bytes text.old ++ spec.counts spans errors) }
{
    push_count_of_spans(alloc, text, spans)?;
    push_errors(alloc, text, errors)
}

/// Appends the start of a trace.
fn push_start(text: &mut String, start: &str) -> Result<(), AllocError>
    ensures { OnOk result
        (string_bytes text.new ≡ string_bytes text.old ++ spec.start start.now) }
{
    push_between(text, "<span class=start>", start, "</span>")
}

/// Appends the id of a trace, after the end of its line.
fn push_id(alloc: Global, text: &mut String, id: TraceId) -> Result<(), AllocError>
    ensures { OnOk result (string_bytes text.new ≡ string_bytes text.old ++ spec.id_line id) }
{
    let id = format!(in alloc; "</summary><p class=id>trace {id}</p>")?;
    text.push_str(id.as_str())
}

/// Appends the line of a trace: the names of its first span, its duration, its numbers of spans and
/// errors, and its start. Then appends its id.
fn push_head(
    alloc: Global,
    text: &mut String,
    trace: &PageTrace,
    extent: Extent,
    errors: usize,
    first: usize,
) -> Result<(), AllocError>
    ensures { OnOk result (string_bytes text.new ≡ string_bytes text.old
        ++ spec.head trace.now extent.from extent.to extent.count errors first) }
{
    push_title(text, trace.spans.as_slice(), first)?;
    push_duration(alloc, text, extent.from, extent.to)?;
    push_counts(alloc, text, extent.count, errors)?;
    push_start(text, trace.start.as_str())?;
    push_id(alloc, text, trace.trace_id)
}

/// Appends the rows.
fn push_rows(
    alloc: Global,
    text: &mut String,
    scale: Scale,
    spans: &[PageSpan],
    rows: &[Row],
) -> Result<(), AllocError>
    ensures { OnOk result (string_bytes text.new ≡ string_bytes text.old
        ++ spec.rows scale.cells scale.from scale.to spans.now rows.now) }
{
    for row in rows {
        push_row(alloc, text, scale, spans, *row)?;
    }
    Ok(())
}

/// Returns the start of a trace. It is open if it is the only one.
fn opening(is_alone: bool) -> &'static str
    ensures { result.now ≡ spec.opening is_alone }
{
    if is_alone {
        "<details class=trace open><summary>"
    } else {
        "<details class=trace><summary>"
    }
}

/// Returns the word for this number of errors.
fn errors_word(errors: usize) -> &'static str
    ensures { result.now ≡ spec.errors_word errors }
{
    if errors == 1 { "error" } else { "errors" }
}

/// Appends a trace with these drawn spans and these rows: its line, which opens the rows.
fn push_drawn(
    alloc: Global,
    text: &mut String,
    is_alone: bool,
    trace: &PageTrace,
    drawn: &[Span],
    rows: &[Row],
) -> Result<(), AllocError>
    ensures { OnOk result (string_bytes text.new ≡ string_bytes text.old
        ++ spec.trace_with is_alone trace.now (map look drawn.now) rows.now) }
{
    let extent = extent_of(drawn, trace.trace_id);
    let errors = errors_of(drawn, trace.trace_id);
    let scale = Scale {
        cells: CELLS,
        from: extent.from,
        to: extent.to.max(extent.from),
    };
    push_html(text, opening(is_alone))?;
    push_head(alloc, text, trace, extent, errors, first_place(rows))?;
    push_rows(alloc, text, scale, trace.spans.as_slice(), rows)?;
    push_html(text, "</details>\n")
}

/// Appends a trace. It is open from the start if it is the only one.
fn push_trace(
    alloc: Global,
    text: &mut String,
    is_alone: bool,
    trace: &PageTrace,
) -> Result<(), AllocError>
    ensures { OnOk result (spec.AddsTrace is_alone trace.now
        (string_bytes text.old) (string_bytes text.new)) }
{
    let drawn = drawn_spans(alloc, trace.spans.as_slice())?;
    let rows = rows_of(alloc, drawn.as_slice(), trace.trace_id)?;
    push_drawn(
        alloc,
        text,
        is_alone,
        trace,
        drawn.as_slice(),
        rows.as_slice(),
    )
}

/// Returns the page up to its traces.
fn head_text(alloc: Global) -> Result<String, AllocError>
    ensures { IfOk result (λ text. spec.IsHead (string_bytes text)) }
{
    let mut text = String::from_str(alloc, START)?;
    push_html(&mut text, STYLE)?;
    push_html(&mut text, BODY)?;
    Ok(text)
}

/// Returns the page up to the end of its traces.
fn traces_text(alloc: Global, is_alone: bool, traces: &[PageTrace]) -> Result<String, AllocError>
    ensures { IfOk result (λ text. spec.AreTraces is_alone traces.now (string_bytes text)) }
{
    let mut text = head_text(alloc)?;
    for trace in traces {
        push_trace(alloc, &mut text, is_alone, trace)?;
    }
    Ok(text)
}

/// Returns a page of HTML that shows these traces, in this order.
///
/// The page has no script and loads nothing. Each trace is a line that opens its rows. They are the
/// rows of [`WaterfallExporter`](crate::WaterfallExporter)'s picture, with the bars as SVG. The row
/// of a span opens its attributes, events and links. All texts of spans are escaped, and characters
/// that steer a terminal are shown as `?`, except newlines and tabs.
///
/// For n spans of a trace, the time is in proportion to n log n.
///
/// ```
/// let page = html_page(alloc, traces.as_slice())?;
/// ```
///
/// # Errors
///
/// `AllocError` if out of memory.
pub fn html_page(alloc: Global, traces: &[PageTrace]) -> Result<String, AllocError>
    ensures { IfOk result (λ page. spec.IsPage traces.now (string_bytes page)) }
{
    let mut text = traces_text(alloc, traces.len() == 1, traces)?;
    push_html(&mut text, END)?;
    Ok(text)
}
