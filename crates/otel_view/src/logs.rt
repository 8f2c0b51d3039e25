//! The log records of the spans of a trace.
ghost use Rattle.std.specs.Prelude.{◌≡◌, OnOk, IfSome, IfNone, nat_eq};
ghost use Rattle.indexmap.specs.IndexMap.{get};
ghost use Rattle.otel_view.specs.Logs as spec;

use crate::input::RecordTaker;
use crate::tree::push_tree;
use indexmap::IndexMap;
use opentelemetry::StringValue;
use opentelemetry::logs::AnyValue;
use opentelemetry::trace::{Event, SpanId, TraceId};
use otel_sdk_logs::{SdkLogRecord, TraceContext};
use otel_sdk_span::SpanData;
use std::alloc::{AllocError, Global};

/// A log record, as its span shows it.
#[derive(Drop)]
pub struct Line {
    /// When it happened or, if that isn't known, when it was observed, in nanoseconds since
    /// 1970-01-01T00:00:00Z; 0 if neither is known.
    pub time: u64,
    /// Its severity, empty if it has none.
    pub severity: StringValue,
    /// Its body as a text, empty if it has none.
    pub body: StringValue,
}

/// Returns the first of the times that is known. A time of 0 isn't.
fn time_of(timestamp: Option<u64>, observed: Option<u64>) -> u64
    ensures { result ≡ spec.time_of timestamp observed }
{
    match timestamp {
        Some(time) if time > 0 => time,
        _ => observed.unwrap_or(0),
    }
}

/// Returns the severity as the record's source names it or, without a name, by its number.
fn severity_of(record: &SdkLogRecord) -> Result<StringValue, AllocError> {
    match (&record.severity_text, record.severity_number) {
        (Some(text), _) => text.clone(),
        (None, Some(severity)) => Ok(StringValue::from(severity.name())),
        (None, None) => Ok(StringValue::from("")),
    }
}

/// Returns the body as a text.
fn body_of(alloc: Global, body: &Option<AnyValue>) -> Result<StringValue, AllocError> {
    let mut text = String::new(alloc);
    if let Some(body) = body {
        push_tree(alloc, &mut text, body)?;
    }
    Ok(StringValue::from(text))
}

/// Returns the record as its span shows it.
fn line_of(alloc: Global, record: &SdkLogRecord) -> Result<Line, AllocError> {
    let severity = severity_of(record)?;
    let body = body_of(alloc, &record.body)?;
    Ok(Line {
        time: time_of(record.timestamp, record.observed_timestamp),
        severity,
        body,
    })
}

/// The log records of a trace, by the ids of its spans.
#[derive(Drop)]
pub struct Logs {
    trace: TraceId,
    spans: IndexMap<SpanId, Vec<Line>>,
    /// The number of records that belong to no span of the trace.
    pub others: u64,
}

impl Logs {
    /// Returns no records of the spans, which belong to this trace.
    ///
    /// # Errors
    ///
    /// `AllocError` if out of memory.
    pub fn new(alloc: Global, trace: TraceId, spans: &[SpanData]) -> Result<Logs, AllocError> {
        let mut known = IndexMap::new(alloc);
        for span in spans {
            known.insert(span.span_context.span_id(), Vec::new(alloc))?;
        }
        Ok(Logs {
            trace,
            spans: known,
            others: 0,
        })
    }

    /// Returns the span that was active, if it is of the trace.
    fn span_of(&self, active: Option<TraceContext>) -> Option<SpanId>
        ensures { result ≡ spec.span_of self.now.trace active }
    {
        match active {
            Some(active) => {
                if active.trace_id == self.trace {
                    Some(active.span_id)
                } else {
                    None
                }
            }
            None => None,
        }
    }

    /// Adds the record to its span, after its other records. A record of no span of the trace is
    /// counted.
    fn add(&mut self, id: SpanId, line: Line) -> Result<(), AllocError>
        ensures kept { OnOk result (IfSome (get nat_eq self.old.spans id)
            (spec.KeepsLine id line self.old self.new)) }
        ensures other { OnOk result (IfNone (get nat_eq self.old.spans id)
            (spec.CountsOther self.old self.new)) }
    {
        match self.spans.get_mut(&id) {
            Some(lines) => lines.push(line)?,
            None => self.others = self.others.saturating_add(1),
        }
        Ok(())
    }

    /// Adds the record to the span that was active. A record of no span of the trace is counted.
    fn take_record(&mut self, alloc: Global, record: &SdkLogRecord) -> Result<(), AllocError> {
        match self.span_of(record.trace_context) {
            Some(span) => self.add(span, line_of(alloc, record)?),
            None => {
                self.others = self.others.saturating_add(1);
                Ok(())
            }
        }
    }

    /// Returns the records of the span.
    pub fn of(&self, span: SpanId) -> &[Line] {
        match self.spans.get(&span) {
            Some(lines) => lines.as_slice(),
            None => &[],
        }
    }

    /// Returns the text that tells of the records of no span, with a newline, or an empty text if
    /// there are none.
    pub fn text(&self, alloc: Global) -> Result<String, AllocError> {
        let count = self.others;
        match count {
            0 => Ok(String::new(alloc)),
            1 => format!(in alloc; "1 log record is of no span of the trace\n"),
            _ => format!(in alloc; "{count} log records are of no span of the trace\n"),
        }
    }
}

impl RecordTaker for Logs {
    fn take(&mut self, alloc: Global, record: SdkLogRecord) -> Result<(), AllocError> {
        self.take_record(alloc, &record)
    }
}

/// Returns the record as an event of its span, on a page.
fn event_of(alloc: Global, line: &Line) -> Result<Event, AllocError> {
    let (severity, body) = (line.severity.as_str(), line.body.as_str());
    let name = format!(in alloc; "log {severity}: {body}")?;
    Ok(Event::new(StringValue::from(name), line.time, Vec::new(alloc), 0))
}

/// Adds the records of the span to its events.
fn add_events(alloc: Global, span: &mut SpanData, lines: &[Line]) -> Result<(), AllocError> {
    for line in lines {
        span.events.events.push(event_of(alloc, line)?)?;
    }
    Ok(())
}

/// Adds the records of each span to its events, as a page shows them.
///
/// # Errors
///
/// `AllocError` if out of memory.
pub fn add_all_events(
    alloc: Global,
    spans: &mut Vec<SpanData>,
    logs: &Logs,
) -> Result<(), AllocError> {
    for span in spans {
        let id = span.span_context.span_id();
        add_events(alloc, span, logs.of(id))?;
    }
    Ok(())
}
