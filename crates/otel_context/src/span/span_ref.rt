//! A reference to the span of a context.
ghost use Rattle.std.specs.Prelude.{◌≡◌, false, None, IsOk, OnOk, OnErr};
ghost use Rattle.otel_base.specs.View.{attribute_of};
ghost use Rattle.otel_context.specs.SpanCalls.{OthersStay, OthersStay-prop};

use super::{Span, Spans, Status};
use otel_base::{KeyValue, StringValue};
use otel_ids::SpanContext;
use std::alloc::{AllocError, Global};
use std::fmt::Display;
use std::snapshot::Snapshot;

/// A reference to the span of a context: its span context, and the span itself if the table has it.
///
/// Each call acts only on the span with the context's number. If the context has no number, as for
/// a remote span, or the span was removed from the table, a call does nothing, returns `Ok`, and
/// doesn't allocate.
///
/// See `otel_examples::api::in_span`, which sets an attribute on the span of a context.
pub struct SpanRef<'a, S> {
    pub(crate) context: &'a SpanContext,
    pub(crate) number: Option<u64>,
    pub(crate) spans: &'a mut Spans<S>,
    // The table at the start of the borrow. Has size zero.
    pub(crate) first: Snapshot<Spans<S>>,
    ghost others: { OthersStay number first.value spans.now } by { OthersStay-prop S.code number first.value spans.now },
}

impl<S> Drop for SpanRef<'_, S> {
    fn drop(self)
        ensures { self.exit.1.1.0.now ≡ self.entry.spans.now }
    {
        let SpanRef {
            context: _,
            number: _,
            spans: _,
            first: _,
        } = self;
    }
}

impl<'a, S: Span> SpanRef<'a, S> {
    ghost use Rattle.otel_context.specs.SpanEffects.{attributes_of, SetsAttributes, SetsBeginning};
    ghost use Rattle.otel_context.specs.SpanEffects.{RecordsError};
    ghost use Rattle.otel_context.specs.SpanRef.{table_of, span_context, span_of, is_recording};
    ghost use Rattle.otel_context.specs.SpanRef.{table_after};
    ghost use Rattle.otel_context.specs.SpanRef.{Becomes, IsSameReference};

    /// Returns the span context, even if the table doesn't have the span.
    pub fn span_context(&self) -> &SpanContext
        ensures { result.now ≡ span_context self.now }
    {
        self.context
    }

    /// Returns `true` if the span records, and `false` if there is no span.
    pub fn is_recording(&self) -> bool
        ensures { result ≡ is_recording S.records self.now }
    {
        match self.spans.find(self.number) {
            Some(span) => span.is_recording(),
            None => false,
        }
    }

    /// Adds an event with the given timestamp, in nanoseconds since 1970.
    ///
    /// # Errors
    ///
    /// `AllocError` if out of memory. The span is unchanged.
    pub fn add_event_with_timestamp(
        &mut self,
        alloc: Global,
        name: StringValue,
        timestamp: u64,
        attributes: Vec<KeyValue>,
    ) -> Result<(), AllocError>
        ensures same { IsSameReference self.old self.new }
        ensures ok { OnOk result (table_of self.new ≡ table_after (λ s.
            S.after_event s name timestamp (attributes_of attributes)) self.old) }
        ensures err { OnErr result (table_of self.new ≡ table_of self.old) }
        ensures absent { span_of self.old ≡ None → IsOk result }
    {
        let spans = &mut *self.spans;
        match spans.find_mut(self.number) {
            Some(span) => span.add_event_with_timestamp(alloc, name, timestamp, attributes),
            None => Ok(()),
        }
    }

    /// Adds an event that happens now, at the given time.
    ///
    /// # Errors
    ///
    /// `AllocError` if out of memory. The span is unchanged.
    pub fn add_event(
        &mut self,
        alloc: Global,
        name: StringValue,
        attributes: Vec<KeyValue>,
        now: u64,
    ) -> Result<(), AllocError>
        ensures same { IsSameReference self.old self.new }
        ensures ok { OnOk result (table_of self.new ≡ table_after (λ s.
            S.after_event s name now (attributes_of attributes)) self.old) }
        ensures err { OnErr result (table_of self.new ≡ table_of self.old) }
        ensures absent { span_of self.old ≡ None → IsOk result }
    {
        let spans = &mut *self.spans;
        match spans.find_mut(self.number) {
            Some(span) => span.add_event(alloc, name, attributes, now),
            None => Ok(()),
        }
    }

    /// Adds an event `exception` with the error's text. Does nothing, not even print the error, if
    /// the span doesn't record.
    ///
    /// # Errors
    ///
    /// `AllocError` if out of memory or if the error's `fmt` fails, which can only happen if the
    /// span records. The span is unchanged.
    pub fn record_error<E: Display>(
        &mut self,
        alloc: Global,
        error: &E,
        now: u64,
    ) -> Result<(), AllocError>
        ensures same { IsSameReference self.old self.new }
        ensures ok { OnOk result (Becomes (λ s left.
            RecordsError S.records S.after_event s (E.output error.now) now left)
            self.old self.new) }
        ensures err { OnErr result (table_of self.new ≡ table_of self.old) }
        ensures idle { is_recording S.records self.old ≡ false
            → IsOk result × (table_of self.new ≡ table_of self.old) }
        ensures absent { span_of self.old ≡ None → IsOk result }
    {
        let spans = &mut *self.spans;
        match spans.find_mut(self.number) {
            Some(span) => span.record_error(alloc, error, now),
            None => Ok(()),
        }
    }

    /// Sets an attribute.
    ///
    /// # Errors
    ///
    /// `AllocError` if out of memory. The span is unchanged.
    pub fn set_attribute(&mut self, alloc: Global, attribute: KeyValue) -> Result<(), AllocError>
        ensures same { IsSameReference self.old self.new }
        ensures ok { OnOk result (table_of self.new ≡ table_after (λ s.
            S.after_attribute s (attribute_of attribute)) self.old) }
        ensures err { OnErr result (table_of self.new ≡ table_of self.old) }
        ensures absent { span_of self.old ≡ None → IsOk result }
    {
        let spans = &mut *self.spans;
        match spans.find_mut(self.number) {
            Some(span) => span.set_attribute(alloc, attribute),
            None => Ok(()),
        }
    }

    /// Sets each attribute, in order, if the span records. Checks once whether it does.
    ///
    /// # Errors
    ///
    /// `AllocError` if out of memory, which can only happen if the span records. The attributes
    /// before the failed one are set.
    pub fn set_attributes(
        &mut self,
        alloc: Global,
        attributes: Vec<KeyValue>,
    ) -> Result<(), AllocError>
        ensures same { IsSameReference self.old self.new }
        ensures ok { OnOk result (Becomes (λ s left.
            SetsAttributes S.records S.after_attribute s (attributes_of attributes) left)
            self.old self.new) }
        ensures err { OnErr result (Becomes (λ s left.
            SetsBeginning S.after_attribute s (attributes_of attributes) left)
            self.old self.new) }
        ensures idle { is_recording S.records self.old ≡ false
            → IsOk result × (table_of self.new ≡ table_of self.old) }
        ensures absent { span_of self.old ≡ None → IsOk result }
    {
        let spans = &mut *self.spans;
        match spans.find_mut(self.number) {
            Some(span) => span.set_attributes(alloc, attributes),
            None => Ok(()),
        }
    }

    /// Adds a link to another span.
    ///
    /// # Errors
    ///
    /// `AllocError` if out of memory. The span is unchanged.
    pub fn add_link(
        &mut self,
        alloc: Global,
        span_context: SpanContext,
        attributes: Vec<KeyValue>,
    ) -> Result<(), AllocError>
        ensures same { IsSameReference self.old self.new }
        ensures ok { OnOk result (table_of self.new ≡ table_after (λ s.
            S.after_link s span_context (attributes_of attributes)) self.old) }
        ensures err { OnErr result (table_of self.new ≡ table_of self.old) }
        ensures absent { span_of self.old ≡ None → IsOk result }
    {
        let spans = &mut *self.spans;
        match spans.find_mut(self.number) {
            Some(span) => span.add_link(alloc, span_context, attributes),
            None => Ok(()),
        }
    }

    /// Sets the status.
    pub fn set_status(&mut self, status: Status)
        ensures same { IsSameReference self.old self.new }
        ensures table { table_of self.new ≡ table_after (λ s. S.after_status s status) self.old }
    {
        let spans = &mut *self.spans;
        match spans.find_mut(self.number) {
            Some(span) => span.set_status(status),
            None => {},
        }
    }

    /// Replaces the name of the span.
    pub fn update_name(&mut self, name: StringValue)
        ensures same { IsSameReference self.old self.new }
        ensures table { table_of self.new ≡ table_after (λ s. S.after_name s name) self.old }
    {
        let spans = &mut *self.spans;
        match spans.find_mut(self.number) {
            Some(span) => span.update_name(name),
            None => {},
        }
    }

    /// Ends the span with the given timestamp, in nanoseconds since 1970.
    pub fn end_with_timestamp(&mut self, timestamp: u64)
        ensures same { IsSameReference self.old self.new }
        ensures table { table_of self.new ≡ table_after (λ s. S.after_end s timestamp) self.old }
    {
        let spans = &mut *self.spans;
        match spans.find_mut(self.number) {
            Some(span) => span.end_with_timestamp(timestamp),
            None => {},
        }
    }

    /// Ends the span now, at the given time.
    pub fn end(&mut self, now: u64)
        ensures same { IsSameReference self.old self.new }
        ensures table { table_of self.new ≡ table_after (λ s. S.after_end s now) self.old }
    {
        let spans = &mut *self.spans;
        match spans.find_mut(self.number) {
            Some(span) => span.end(now),
            None => {},
        }
    }
}
