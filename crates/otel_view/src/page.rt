//! A page of HTML with traces.
ghost use Rattle.std.specs.Prelude.{◌≡◌, IfOk};
ghost use Rattle.indexmap.specs.IndexMap.{keys};
ghost use Rattle.otel_view.specs.Chosen as spec;

use crate::chosen::Chosen;
use crate::clock::Clock;
use crate::summary::Summary;
use crate::trace::Found;
use anyhow::{Context, Result};
use opentelemetry::StringValue;
use opentelemetry::trace::TraceId;
use otel_sdk_span::SpanData;
use otel_waterfall::{PageSpan, PageTrace, html_page};
use std::alloc::{AllocError, Global};
use std::fs;

/// Returns the least start of the spans, or 0 if there are none.
fn start_of(spans: &[SpanData]) -> u64 {
    spans.iter().map(|span| span.start_time).min().unwrap_or(0)
}

/// Returns the spans with their services.
fn page_spans(
    alloc: Global,
    services: Vec<StringValue>,
    spans: Vec<SpanData>,
) -> Result<Vec<PageSpan>, AllocError> {
    services
        .into_iter()
        .zip(spans)
        .map(|(service, data)| PageSpan { service, data })
        .collect(alloc)
}

/// Returns the moment of the least start of the spans.
fn start_text(rt: HostRuntime, spans: &[SpanData]) -> Result<String> {
    Clock::new(rt).text(rt.alloc(), start_of(spans))
}

/// Returns the spans of the trace that was found, with their services.
fn found_spans(alloc: Global, found: Found) -> Result<Vec<PageSpan>, AllocError> {
    page_spans(alloc, found.services, found.spans)
}

/// Returns the trace that was found, as a page shows it.
///
/// # Errors
///
/// A moment that no clock shows, or out of memory.
pub fn page_trace(rt: HostRuntime, found: Found) -> Result<PageTrace> {
    let start = start_text(rt, found.spans.as_slice())?;
    let trace_id = found.ids.first().copied().unwrap_or(TraceId::INVALID);
    let spans = found_spans(rt.alloc(), found)?;
    Ok(PageTrace {
        trace_id,
        start: StringValue::from(start),
        spans,
    })
}

/// Chooses the traces of these records, in this order, each once.
///
/// # Errors
///
/// A moment that no clock shows, or out of memory.
pub fn choose(rt: HostRuntime, records: &[Summary]) -> Result<Chosen>
    ensures { IfOk result (λ chosen. keys chosen.traces ≡ spec.ids_of records.now) }
{
    let clock = Clock::new(rt);
    let mut chosen = Chosen::new(rt.alloc());
    for record in records {
        let start = clock.text(rt.alloc(), record.start)?;
        chosen.choose(PageTrace {
            trace_id: record.id,
            start: StringValue::from(start),
            spans: Vec::new(rt.alloc()),
        })?;
    }
    Ok(chosen)
}

/// Writes the page of the traces to the file of this path. An existing file is replaced.
///
/// # Errors
///
/// The file isn't written, or out of memory.
pub fn write_page(rt: HostRuntime, path: &str, traces: &[PageTrace]) -> Result<()> {
    let page = html_page(rt.alloc(), traces)?;
    fs::write(&rt, path, page.as_str()).context(format_args!("{path} isn't written"))
}
