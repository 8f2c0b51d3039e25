//! The picture of a batch.
ghost use Rattle.std.specs.Prelude.{◌≡◌, ◌==◌, ℕ, [], ◌++◌, List, length, map, OnOk, IfOk};
ghost use Rattle.std.specs.List.{list_any};
ghost use Rattle.std.specs.String.{string_bytes};
ghost use Rattle.otel_waterfall.specs.Columns.{bar_width};
ghost use Rattle.otel_waterfall.specs.Drawn.{look};
ghost use Rattle.otel_waterfall.specs.Picture as spec;

use crate::bar::Scale;
use crate::columns::Style;
use crate::duration::duration_text;
use crate::line::{absent_line, span_line};
use crate::rows::{Row, rows_of};
use crate::span::Span;
use otel_ids::TraceId;
use std::alloc::{AllocError, Global};

/// Appends a line.
#[tactic(auto, using(crate::proofs::Lines::line_more))]
fn push_line(text: &mut String, line: &[char]) -> Result<(), AllocError>
    ensures { OnOk result
        (string_bytes text.new ≡ string_bytes text.old ++ spec.line_text line.now) }
{
    for c in line {
        text.push(*c)?;
    }
    text.push('\n')
}

/// The number of spans of a trace, their least start and their greatest end.
#[derive(Clone, Copy, Debug)]
pub(crate) struct Extent {
    pub count: usize,
    pub from: u64,
    pub to: u64,
}

/// Returns the extent of a trace of the batch.
#[tactic(auto, using(crate::proofs::Traces::extents))]
pub(crate) fn extent_of(batch: &[Span], trace: TraceId) -> Extent
    ensures count { result.count ≡ length (spec.spans_of trace (map look batch.now)) }
    ensures from { result.from ≡ spec.least_start (spec.spans_of trace (map look batch.now)) }
    ensures to { result.to ≡ spec.greatest_end (spec.spans_of trace (map look batch.now)) }
{
    let mut extent = Extent {
        count: 0,
        from: u64::MAX,
        to: 0,
    };
    for span in batch {
        if span.trace_id == trace {
            extent.count = extent.count.saturating_add(1);
            extent.from = extent.from.min(span.start);
            extent.to = extent.to.max(span.start.max(span.end));
        }
    }
    extent
}

/// Returns the word for this number of spans.
pub(crate) fn spans_word(count: usize) -> &'static str
    ensures { result.now ≡ spec.spans_word count }
{
    if count == 1 { "span" } else { "spans" }
}

/// Appends the first line of a trace.
fn push_head(
    alloc: Global,
    text: &mut String,
    trace: TraceId,
    extent: Extent,
) -> Result<(), AllocError>
    ensures { OnOk result (string_bytes text.new
        ≡ string_bytes text.old ++ spec.head_text trace extent.from extent.to extent.count) }
{
    let duration = duration_text(alloc, extent.from, extent.to)?;
    let duration = duration.as_str();
    let count = extent.count;
    let spans = spans_word(count);
    let head = format!(in alloc; "trace {trace} {duration} {count} {spans}\n")?;
    text.push_str(head.as_str())
}

/// Moves to a row at the depth. Keeps the flags of the rows above it, and adds `own`.
fn go_to(follows: &mut Vec<bool>, depth: usize, own: bool) -> Result<(), AllocError>
    ensures { OnOk result (follows.new.items ≡ spec.moved_to depth own follows.old.items) }
{
    follows.truncate(depth.saturating_sub(1));
    if depth > 0 {
        follows.push(own)?;
    }
    Ok(())
}

/// Moves to a row, and appends its line.
#[tactic(auto, using(crate::proofs::Traces::row_of_some, crate::proofs::Traces::row_of_none))]
fn push_row(
    alloc: Global,
    style: Style,
    scale: Scale,
    text: &mut String,
    batch: &[Span],
    row: Row,
    follows: &mut Vec<bool>,
) -> Result<(), AllocError>
    requires { scale.cells ≡ bar_width style.width }
    ensures moved { OnOk result (follows.new.items ≡ spec.follows_at follows.old.items row) }
    ensures text { OnOk result (spec.AddsRow style scale (map look batch.now) follows.new.items row
        (string_bytes text.old) (string_bytes text.new)) }
{
    match row {
        Row::Span {
            place,
            depth,
            follows: own,
        } => {
            go_to(follows, depth, own)?;
            if let Some(span) = batch.get(place) {
                let line = span_line(alloc, style, scale, span, follows.as_slice())?;
                push_line(text, line.as_slice())?;
            }
        }
        Row::Absent { child } => {
            if let Some(child) = batch.get(child) {
                let line = absent_line(alloc, style, child)?;
                push_line(text, line.as_slice())?;
            }
        }
    }
    Ok(())
}

/// Appends the lines of the rows of a trace.
fn push_rows(
    alloc: Global,
    style: Style,
    scale: Scale,
    text: &mut String,
    batch: &[Span],
    rows: &[Row],
) -> Result<(), AllocError>
    requires { scale.cells ≡ bar_width style.width }
    ensures { OnOk result (string_bytes text.new ≡ string_bytes text.old
        ++ spec.rows_text style.is_ascii style.width scale.from scale.to (map look batch.now) []
        rows.now) }
{
    let mut follows = Vec::new(alloc);
    for row in rows {
        push_row(alloc, style, scale, text, batch, *row, &mut follows)?;
    }
    Ok(())
}

/// Appends the picture of a trace.
fn push_trace(
    alloc: Global,
    style: Style,
    text: &mut String,
    batch: &[Span],
    trace: TraceId,
) -> Result<(), AllocError>
    ensures { OnOk result (spec.AddsTrace style.is_ascii style.width (map look batch.now) trace
        (string_bytes text.old) (string_bytes text.new)) }
{
    let extent = extent_of(batch, trace);
    push_head(alloc, text, trace, extent)?;
    let scale = Scale {
        cells: style.bar_width(),
        from: extent.from,
        to: extent.to.max(extent.from),
    };
    let rows = rows_of(alloc, batch, trace)?;
    push_rows(alloc, style, scale, text, batch, rows.as_slice())
}

/// Appends an empty line, unless the text is empty.
fn push_gap(text: &mut String) -> Result<(), AllocError>
    ensures { OnOk result (string_bytes text.new ≡ spec.with_gap (string_bytes text.old)) }
{
    if !text.is_empty() {
        text.push('\n')?;
    }
    Ok(())
}

/// Returns `true` if one of the spans belongs to the trace.
fn appears(trace: TraceId, spans: &[Span]) -> bool
    ensures { result ≡ list_any (λ span. span.trace_id == trace) spans.now }
{
    spans.iter().any(|span| span.trace_id == trace)
}

/// Appends the picture of a trace after an empty line, unless a span of `before` belongs to it.
fn add_trace(
    alloc: Global,
    style: Style,
    text: &mut String,
    batch: &[Span],
    before: &[Span],
    trace: TraceId,
) -> Result<(), AllocError>
    ensures { OnOk result (spec.AddsNewTrace style.is_ascii style.width (map look batch.now)
        (map look before.now) trace (string_bytes text.old) (string_bytes text.new)) }
{
    if appears(trace, before) {
        return Ok(());
    }
    push_gap(text)?;
    push_trace(alloc, style, text, batch, trace)
}

/// Returns the picture of a batch: its traces in the order in which they first appear, separated by
/// empty lines.
///
/// # Errors
///
/// Returns an error if out of memory.
pub(crate) fn picture(alloc: Global, style: Style, batch: &[Span]) -> Result<String, AllocError>
    ensures { IfOk result (λ text. spec.IsPicture style.is_ascii style.width
        (map look batch.now) (string_bytes text)) }
{
    let mut text = String::new(alloc);
    for (place, span) in batch.iter().enumerate() {
        add_trace(
            alloc,
            style,
            &mut text,
            batch,
            &batch[..place],
            span.trace_id,
        )?;
    }
    Ok(text)
}
