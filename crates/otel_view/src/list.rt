//! The list of traces.

use crate::clock::Clock;
use crate::color::{Colors, Paint};
use crate::summary::{Head, Summary};
use anyhow::Result;
use opentelemetry::trace::TraceId;
use otel_waterfall::{columns_left, duration_text, fit, shown_name};
use std::alloc::{AllocError, Global};

/// The columns in front of the service.
const FIXED: usize = 52;

/// The columns of the service and of the root's name.
#[derive(Clone, Copy)]
pub struct Columns {
    service: usize,
    name: usize,
}

impl Columns {
    /// Returns the columns of a list of this width. A width below 80 counts as 80.
    pub fn new(width: u16) -> Columns {
        let left = width.max(80) as usize - FIXED;
        let service = left * 2 / 5;
        Columns {
            service,
            name: left - service - 1,
        }
    }
}

/// Appends the text as it is shown, cut to these columns. If `is_padded`, spaces fill them.
fn push_cell(
    alloc: Global,
    line: &mut String,
    text: &str,
    columns: usize,
    is_padded: bool,
) -> Result<(), AllocError> {
    let mut chars = shown_name(alloc, false, text)?;
    fit(false, columns.max(1), &mut chars);
    for c in &chars {
        line.push(*c)?;
    }
    if is_padded {
        for _ in 0..columns_left(chars.as_slice(), columns) {
            line.push(' ')?;
        }
    }
    Ok(())
}

/// Returns the first 8 digits of the id.
fn first_digits(alloc: Global, id: TraceId) -> Result<String, AllocError> {
    let [a, b, c, d, ..] = id.to_bytes();
    let first = u32::from_be_bytes([a, b, c, d]);
    format!(in alloc; "{first:08x}")
}

/// Appends the service and the name of the trace.
fn push_head(
    alloc: Global,
    line: &mut String,
    columns: Columns,
    head: &Head,
) -> Result<(), AllocError> {
    push_cell(alloc, line, head.service.as_str(), columns.service, true)?;
    line.push(' ')?;
    let name = head.name.as_str();
    if head.is_root {
        return push_cell(alloc, line, name, columns.name, false);
    }
    let name = format!(in alloc; "[no root] {name}")?;
    push_cell(alloc, line, name.as_str(), columns.name, false)
}

/// Appends the number of errors, which is shown as one unless it is 0.
fn push_errors(
    alloc: Global,
    line: &mut String,
    colors: Colors,
    errors: u64,
) -> Result<(), AllocError> {
    let count = format!(in alloc; "{errors:>6}")?;
    colors.error_if(errors > 0).push(line, count.as_str())?;
    line.push(' ')
}

/// Appends the id, the start, the duration and the number of spans.
fn push_numbers(alloc: Global, line: &mut String, clock: &Clock, record: &Summary) -> Result<()> {
    let id = first_digits(alloc, record.id)?;
    let start = clock.text(alloc, record.start)?;
    let duration = duration_text(alloc, record.start, record.end)?;
    let (id, start, duration) = (id.as_str(), start.as_str(), duration.as_str());
    let spans = record.spans;
    line.push_str(format!(in alloc; "{id} {start} {duration:>9} {spans:>5} ")?.as_str())?;
    Ok(())
}

/// Returns the line of a trace.
pub fn line(
    alloc: Global,
    clock: &Clock,
    colors: Colors,
    columns: Columns,
    record: &Summary,
) -> Result<String> {
    let mut line = String::new(alloc);
    push_numbers(alloc, &mut line, clock, record)?;
    push_errors(alloc, &mut line, colors, record.errors)?;
    push_head(alloc, &mut line, columns, &record.head)?;
    line.push('\n')?;
    Ok(line)
}

/// Returns the line above the list.
pub fn heading(
    alloc: Global,
    clock: &Clock,
    colors: Colors,
    columns: Columns,
) -> Result<String, AllocError> {
    let start = if clock.is_local() {
        "start"
    } else {
        "start (UTC)"
    };
    let mut line = format!(in alloc;
        "{:8} {start:19} {:>9} {:>5} {:>6} ",
        "trace", "duration", "spans", "errors"
    )?;
    push_cell(alloc, &mut line, "service", columns.service, true)?;
    line.push_str(" root")?;
    let mut heading = String::new(alloc);
    colors
        .paint(Paint::Strong)
        .push(&mut heading, line.as_str())?;
    heading.push('\n')?;
    Ok(heading)
}
