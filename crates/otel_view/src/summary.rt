//! One record for each trace of a file.
ghost use Rattle.std.specs.Prelude.{◌≡◌, ◌-◌, Some, IfOk, OnOk, filter, nat_eq};
ghost use Rattle.indexmap.specs.IndexMap.{IsEmpty, Updates, get, values};
ghost use Rattle.otel_view.specs.Summary as spec;

use crate::input::SpanTaker;
use indexmap::IndexMap;
use opentelemetry::StringValue;
use opentelemetry::trace::{SpanId, Status, TraceId};
use otel_sdk_span::SpanData;
use std::alloc::{AllocError, Global};

/// The span that names a trace.
#[derive(Drop)]
pub struct Head {
    /// Whether it has no parent.
    pub is_root: bool,
    /// When it started, in nanoseconds since 1970-01-01T00:00:00Z.
    pub start: u64,
    /// Its name.
    pub name: StringValue,
    /// The name of its service.
    pub service: StringValue,
}

/// A span, as the record of its trace sees it.
#[derive(Drop)]
pub struct Part {
    /// The id of its trace.
    pub trace: TraceId,
    /// When it ended, in nanoseconds since 1970-01-01T00:00:00Z. It may be before the start.
    pub end: u64,
    /// Whether its status is an error.
    pub is_error: bool,
    /// Whether its service is the one that was asked for.
    pub is_wanted: bool,
    /// Its name and its start.
    pub head: Head,
}

/// The record of a trace.
#[derive(Drop)]
pub struct Summary {
    /// The id of the trace.
    pub id: TraceId,
    /// The least start of its spans.
    pub start: u64,
    /// The greatest start or end of its spans.
    pub end: u64,
    /// The number of its spans.
    pub spans: u64,
    /// The number of its spans whose status is an error.
    pub errors: u64,
    /// Whether a span belongs to the service that was asked for.
    pub is_wanted: bool,
    /// The root that started first or, if no root was read, the span that started first.
    pub head: Head,
}

/// Returns whether the second span names the trace rather than the first: a root before another
/// span, and otherwise the one that started before.
fn is_better(old: &Head, new: &Head) -> bool
    ensures { result ≡ spec.is_better old.now new.now }
{
    match (old.is_root, new.is_root) {
        (true, false) => false,
        (false, true) => true,
        _ => new.start < old.start,
    }
}

/// Returns the number, one greater if the span is counted.
fn counted(number: u64, is_counted: bool) -> u64
    ensures { result ≡ spec.counted number is_counted }
{
    if is_counted {
        number.saturating_add(1)
    } else {
        number
    }
}

impl Summary {
    /// Returns the record of a trace with one span.
    fn of(part: Part) -> Summary
        ensures { result ≡ spec.of_part part }
    {
        Summary {
            id: part.trace,
            start: part.head.start,
            end: part.end.max(part.head.start),
            spans: 1,
            errors: counted(0, part.is_error),
            is_wanted: part.is_wanted,
            head: part.head,
        }
    }

    /// Adds a span of the trace.
    fn add(&mut self, part: Part)
        ensures { self.new ≡ spec.with_part self.old part }
    {
        self.start = self.start.min(part.head.start);
        self.end = self.end.max(part.end.max(part.head.start));
        self.spans = counted(self.spans, true);
        self.errors = counted(self.errors, part.is_error);
        self.is_wanted = self.is_wanted || part.is_wanted;
        if is_better(&self.head, &part.head) {
            self.head = part.head;
        }
    }

    /// Returns the nanoseconds from the start to the end.
    pub fn duration(&self) -> u64
        ensures { result ≡ spec.duration self.now }
    {
        self.end.saturating_sub(self.start)
    }
}

/// The records of traces, in the order in which the traces first appear.
#[derive(Drop)]
pub struct Traces {
    records: IndexMap<TraceId, Summary>,
}

impl Traces {
    /// Returns the records of no traces.
    pub fn new(alloc: Global) -> Traces
        ensures { IsEmpty result.records }
    {
        Traces {
            records: IndexMap::new(alloc),
        }
    }

    /// Adds a span to the record of its trace.
    ///
    /// # Errors
    ///
    /// `AllocError` if out of memory.
    pub fn add(&mut self, part: Part) -> Result<(), AllocError>
        ensures { OnOk result (Updates nat_eq self.old.records self.new.records part.trace
            (Some (spec.after_part (get nat_eq self.old.records part.trace) part))) }
    {
        match self.records.get_mut(&part.trace) {
            Some(record) => record.add(part),
            None => {
                self.records.insert(part.trace, Summary::of(part))?;
            }
        }
        Ok(())
    }

    /// Returns the records that pass the filter.
    fn into_records(self, alloc: Global, wanted: Filter) -> Result<Vec<Summary>, AllocError>
        ensures { IfOk result (λ kept.
            kept.items ≡ filter (spec.takes wanted) (values self.records)) }
    {
        self.records
            .into_values()
            .filter(|trace| wanted.takes(trace))
            .collect(alloc)
    }

    /// Returns the newest records that pass the filter, at most `limit`, the newest first.
    ///
    /// # Errors
    ///
    /// `AllocError` if out of memory.
    pub fn into_newest(
        self,
        alloc: Global,
        wanted: Filter,
        limit: usize,
    ) -> Result<Vec<Summary>, AllocError>
        ensures { IfOk result (λ kept. spec.AreNewest limit
            (filter (spec.takes wanted) (values self.records)) kept.items) }
    {
        let mut records = self.into_records(alloc, wanted)?;
        keep_newest(&mut records, limit)?;
        Ok(records)
    }
}

/// Returns the span of this service as the record of its trace sees it.
fn part_of(span: SpanData, service: StringValue, is_wanted: bool) -> Part {
    Part {
        trace: span.span_context.trace_id(),
        end: span.end_time,
        is_error: matches!(&span.status, Status::Error { .. }),
        is_wanted,
        head: Head {
            is_root: span.parent_span_id == SpanId::INVALID,
            start: span.start_time,
            service,
            name: span.name,
        },
    }
}

/// Returns `true` if this service, or none, was asked for.
fn is_asked_for(wanted: Option<&str>, service: &str) -> bool {
    match wanted {
        Some(wanted) => service == wanted,
        None => true,
    }
}

/// The records of traces, of which some have a span of a service.
#[derive(Drop)]
pub struct Counting<'a> {
    /// The service that was asked for.
    pub service: Option<&'a str>,
    /// The records.
    pub traces: Traces,
}

impl<'a> SpanTaker for Counting<'a> {
    fn take(&mut self, service: &StringValue, span: SpanData) -> Result<(), AllocError> {
        let is_wanted = is_asked_for(self.service, service.as_str());
        let service = service.clone()?;
        self.traces.add(part_of(span, service, is_wanted))
    }
}

/// The traces that were asked for.
#[derive(Clone, Copy)]
pub struct Filter {
    /// Only traces with an error.
    pub errors: bool,
    /// Only traces that took longer than these nanoseconds.
    pub slower: Option<u64>,
}

impl Filter {
    /// Returns whether the trace was asked for.
    pub fn takes(self, trace: &Summary) -> bool
        ensures { result ≡ spec.takes self trace.now }
    {
        let is_slow = match self.slower {
            Some(limit) => trace.duration() > limit,
            None => true,
        };
        trace.is_wanted && is_slow && (!self.errors || trace.errors > 0)
    }
}

/// Returns the nanoseconds from the start of the trace to the last moment that a start can be at.
fn age(trace: &Summary) -> u64
    ensures { result ≡ spec.age trace.now }
{
    u64::MAX - trace.start
}

/// Keeps the newest records, at most `limit`, the newest first. Of records with one start, the one
/// that appears first in the file is first.
///
/// # Errors
///
/// `AllocError` if out of memory.
fn keep_newest(records: &mut Vec<Summary>, limit: usize) -> Result<(), AllocError>
    ensures { OnOk result (spec.AreNewest limit records.old.items records.new.items) }
{
    records.sort_by_key(|trace| age(trace))?;
    records.truncate(limit);
    Ok(())
}
