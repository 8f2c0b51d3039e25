//! A log record of the SDK.
ghost use Rattle.std.specs.Prelude.{◌≡◌, IfOk, OnOk, OnErr, option_map};
ghost use Rattle.otel_base.specs.View.{tree, pairs_view};
ghost use Rattle.otel_sdk_logs.specs.LogRecord as spec;

use crate::attributes::{copy_all, set_all, set_one};
use crate::limits::LogRecordLimits;
use opentelemetry::logs::{AnyValue, LogRecord, Severity};
use opentelemetry::trace::{SpanId, TraceFlags, TraceId};
use opentelemetry::{Key, StringValue};
use std::alloc::{AllocError, Global};
use std::clone::Clone;
use std::marker::Model;

/// The span that was active when a log record's event happened (the Rust crate's `TraceContext`).
///
/// See [`SdkLogRecord::trace_context`].
#[derive(Clone, Copy, Debug)]
pub struct TraceContext {
    /// The span's trace.
    pub trace_id: TraceId,
    /// The span.
    pub span_id: SpanId,
    /// The flags of the trace, if they were given.
    pub trace_flags: Option<TraceFlags>,
}

/// A log record, as processors and exporters get it (the Rust crate's `SdkLogRecord`).
///
/// Its attributes have unique keys. Setting an existing key replaces the value in place. An
/// attribute with a new key is dropped and counted if the record already has the maximum number.
/// A value is truncated when it is added, if its length is limited.
///
/// ```
/// let mut record = SdkLogRecord::new(alloc);
/// ```
#[derive(Debug, Drop)]
pub struct SdkLogRecord {
    /// The name of the event, if it describes one.
    pub event_name: Option<StringValue>,
    /// The part of the program that the record comes from.
    pub target: Option<StringValue>,
    /// When the event happened, in nanoseconds since 1970-01-01T00:00:00Z.
    pub timestamp: Option<u64>,
    /// When the event was observed, in nanoseconds since 1970-01-01T00:00:00Z.
    pub observed_timestamp: Option<u64>,
    /// The severity as named by the record's source.
    pub severity_text: Option<StringValue>,
    /// The severity.
    pub severity_number: Option<Severity>,
    /// The content of the record.
    pub body: Option<AnyValue>,
    /// The attributes, in order.
    pub attributes: Vec<(Key, AnyValue)>,
    /// The number of attributes that were dropped because of the limit.
    pub dropped_attributes_count: u32,
    /// The span that was active.
    pub trace_context: Option<TraceContext>,
    limits: LogRecordLimits,
}

impl Model for SdkLogRecord {
    ghost use Rattle.std.specs.Option.{option_map};
    ghost use Rattle.otel_base.specs.Severity.{number};
    ghost use Rattle.otel_base.specs.View.{tree, pairs_view};
    ghost use Rattle.otel_sdk_logs.specs.LogRecord.{LogState, log_state_code};

    ghost Value = { LogState };

    ghost coded = { log_state_code };

    ghost view = { λ r. record {
      event_name = r.event_name;
      target = r.target;
      timestamp = r.timestamp;
      observed_timestamp = r.observed_timestamp;
      severity_text = r.severity_text;
      severity_number = option_map number r.severity_number;
      body = option_map tree r.body;
      attributes = pairs_view r.attributes.items;
      dropped_attributes = r.dropped_attributes_count;
      limits = r.limits;
      trace_context = r.trace_context;
    } };
}

impl SdkLogRecord {
    /// Creates a record with nothing set and the default limits. Never allocates.
    pub fn new(alloc: Global) -> SdkLogRecord
        ensures { result ≡ spec.empty }
    {
        SdkLogRecord::with_limits(alloc, LogRecordLimits::default())
    }

    /// Creates a record with nothing set and the given limits. Never allocates.
    pub fn with_limits(alloc: Global, limits: LogRecordLimits) -> SdkLogRecord
        ensures { result ≡ spec.empty_within limits }
    {
        SdkLogRecord {
            event_name: None,
            target: None,
            timestamp: None,
            observed_timestamp: None,
            severity_text: None,
            severity_number: None,
            body: None,
            attributes: Vec::new(alloc),
            dropped_attributes_count: 0,
            trace_context: None,
            limits,
        }
    }
}

// Returns a copy of the body. A copy has the same tree.
fn copy_body(body: &Option<AnyValue>) -> Result<Option<AnyValue>, AllocError>
    ensures { IfOk result (λ copy. option_map tree copy ≡ option_map tree body.now) }
{
    match body {
        Some(body) => Ok(Some(body.clone()?)),
        None => Ok(None),
    }
}

// Copies of the texts of a record.
#[derive(Drop)]
struct Texts {
    event_name: Option<StringValue>,
    target: Option<StringValue>,
    severity_text: Option<StringValue>,
}

fn copy_texts(log: &SdkLogRecord) -> Result<Texts, AllocError>
    ensures event_name { IfOk result (λ copies. copies.event_name ≡ log.now.event_name) }
    ensures target { IfOk result (λ copies. copies.target ≡ log.now.target) }
    ensures severity_text { IfOk result (λ copies. copies.severity_text ≡ log.now.severity_text) }
{
    Ok(Texts {
        event_name: log.event_name.clone()?,
        target: log.target.clone()?,
        severity_text: log.severity_text.clone()?,
    })
}

impl Clone for SdkLogRecord {
    ghost use Rattle.std.specs.Prelude.{◌≡◌};

    ghost is_clone = { λ r copy. copy ≡ r };

    /// Returns a copy.
    ///
    /// # Errors
    ///
    /// `AllocError` if out of memory.
    fn clone(&self) -> Result<SdkLogRecord, AllocError> {
        let attributes = copy_all(&self.attributes)?;
        let body = copy_body(&self.body)?;
        let texts = copy_texts(self)?;
        Ok(SdkLogRecord {
            event_name: texts.event_name,
            target: texts.target,
            timestamp: self.timestamp,
            observed_timestamp: self.observed_timestamp,
            severity_text: texts.severity_text,
            severity_number: self.severity_number,
            body,
            attributes,
            dropped_attributes_count: self.dropped_attributes_count,
            trace_context: self.trace_context,
            limits: self.limits,
        })
    }
}

impl LogRecord for SdkLogRecord {
    ghost use Rattle.std.specs.Prelude.{◌≡◌, ◌⊎◌, Some, refl};
    ghost use Rattle.std.proofs.Common.{inl};
    ghost use Rattle.otel_base.specs.Severity.{number};
    ghost use Rattle.otel_sdk_logs.specs.LogRecord.{with_attributes, with_attribute};
    ghost use Rattle.otel_sdk_logs.specs.LogRecord.{with_trace_context};

    ghost after_event_name = { λ log name. record log { event_name = Some name } };

    ghost after_target = { λ log target. record log { target = Some target } };

    ghost after_timestamp = { λ log timestamp. record log { timestamp = Some timestamp } };

    ghost after_observed_timestamp = { λ log timestamp.
        record log { observed_timestamp = Some timestamp } };

    ghost after_severity_text = { λ log text. record log { severity_text = Some text } };

    ghost after_severity_number = { λ log severity.
        record log { severity_number = Some (number severity) } };

    ghost after_body = { λ log body. record log { body = Some body } };

    ghost after_attributes = { with_attributes };

    ghost after_attribute = { with_attribute };

    ghost may_be_traced = { λ old trace_id span_id trace_flags new.
        (new ≡ old) ⊎ (new ≡ with_trace_context old trace_id span_id trace_flags) };

    fn set_event_name(&mut self, name: &'static str) {
        self.event_name = Some(StringValue::from(name));
    }

    fn set_target(&mut self, target: StringValue) {
        self.target = Some(target);
    }

    fn set_timestamp(&mut self, timestamp: u64) {
        self.timestamp = Some(timestamp);
    }

    fn set_observed_timestamp(&mut self, timestamp: u64) {
        self.observed_timestamp = Some(timestamp);
    }

    fn set_severity_text(&mut self, text: &'static str) {
        self.severity_text = Some(StringValue::from(text));
    }

    fn set_severity_number(&mut self, number: Severity) {
        self.severity_number = Some(number);
    }

    fn set_body(&mut self, body: AnyValue) {
        self.body = Some(body);
    }

    /// Truncates each attribute and sets it in turn. An existing key keeps its place, and a new one
    /// goes last, up to the limit.
    ///
    /// # Errors
    ///
    /// `AllocError` if out of memory. The record is unchanged; the attributes are dropped.
    fn add_attributes(
        &mut self,
        alloc: Global,
        attributes: Vec<(Key, AnyValue)>,
    ) -> Result<(), AllocError> {
        let limits = self.limits;
        let dropped = &mut self.dropped_attributes_count;
        set_all(alloc, limits, &mut self.attributes, dropped, attributes)
    }

    /// Truncates the attribute and sets it. An existing key keeps its place, and a new one goes
    /// last, up to the limit.
    ///
    /// # Errors
    ///
    /// `AllocError` if out of memory. The record is unchanged; the attribute is dropped.
    fn add_attribute(
        &mut self,
        alloc: Global,
        key: Key,
        value: AnyValue,
    ) -> Result<(), AllocError> {
        let limits = self.limits;
        let dropped = &mut self.dropped_attributes_count;
        set_one(alloc, limits, &mut self.attributes, dropped, key, value)
    }

    /// Sets the span, replacing an earlier one.
    fn set_trace_context(
        &mut self,
        trace_id: TraceId,
        span_id: SpanId,
        trace_flags: Option<TraceFlags>,
    )
        ensures { self.new ≡ with_trace_context self.old trace_id span_id trace_flags }
    {
        self.trace_context = Some(TraceContext {
            trace_id,
            span_id,
            trace_flags,
        });
    }

    ghost may_be_untraced = { λ log trace_id span_id trace_flags. inl refl };
}
