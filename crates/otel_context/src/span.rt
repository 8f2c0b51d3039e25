//! Spans, which record a piece of work.
ghost use Rattle.std.specs.Prelude.{◌≡◌, false, IsOk, OnOk, OnErr};
ghost use Rattle.otel_base.specs.View.{attribute_of};

mod active;
mod span_ref;
mod spans;
mod status;

pub use self::active::{get_active_span, mark_span_as_active};
pub use self::span_ref::SpanRef;
pub use self::spans::{SpanCause, SpanRefused, Spans};
pub use self::status::{SpanKind, Status};
use otel_base::{Key, KeyValue, StringValue, Value};
use otel_ids::SpanContext;
use std::alloc::{AllocError, Global};
use std::fmt::Display;

/// A piece of work in a trace. Records what happens while it runs.
///
/// Implementors define the effect of each writing call as a ghost function of the span and of the
/// arguments' meaning (a list of attributes, not a `Vec`, whose capacity would count):
/// `after_event` (of a name, a time and attributes), `after_attribute`, `after_link`,
/// `after_status`, `after_name` and `after_end`. They also define the results of `span_context` and
/// `is_recording`: `context_of` and `records`. Each call has its effect or, on an error, leaves the
/// span unchanged. No effect changes the span context (`event_keeps` and the five similar laws).
/// The other calls are provided. The type decides the effect of the calls after the span has ended.
///
/// One effect with its law and its call, for a span type that stores its name:
///
/// ```
/// ghost after_name = { λ span name. record span { name = name } };
///
/// fn update_name(&mut self, name: StringValue) {
///     self.name = name;
/// }
///
/// ghost name_keeps = { λ span name. refl };
/// ```
///
/// For a complete span type, see `RecordingSpan` of `otel_examples::recording`.
///
/// Timestamps are nanoseconds since 1970-01-01T00:00:00Z. The Rust crate reads the clock in
/// `add_event`, `record_error` and `end`; here the caller passes the time.
pub trait Span: Drop {
    ghost use Rattle.std.specs.Prelude.{ℕ, List, Bool};
    ghost use Rattle.otel_ids.specs.SpanContext.{SpanContextRecord};
    ghost use Rattle.otel_context.specs.declared.span.status.Status.{Status};
    ghost use Rattle.otel_base.specs.KeyValue.{Attribute};
    ghost use Rattle.otel_context.specs.SpanEffects.{attributes_of, SetsAttributes, SetsBeginning};
    ghost use Rattle.otel_context.specs.SpanEffects.{RecordsError};

    ghost context_of: { Self → SpanContextRecord };

    ghost records: { Self → Bool };

    ghost after_event: { Self → List ℕ → ℕ → List Attribute → Self };

    ghost after_attribute: { Self → Attribute → Self };

    ghost after_link: { Self → SpanContextRecord → List Attribute → Self };

    ghost after_status: { Self → Status → Self };

    ghost after_name: { Self → List ℕ → Self };

    ghost after_end: { Self → ℕ → Self };

    /// Adds an event with the given timestamp.
    ///
    /// # Errors
    ///
    /// `AllocError` if out of memory. The span is unchanged.
    fn add_event_with_timestamp(
        &mut self,
        alloc: Global,
        name: StringValue,
        timestamp: u64,
        attributes: Vec<KeyValue>,
    ) -> Result<(), AllocError>
        ensures ok { OnOk result
            (self.new ≡ after_event self.old name timestamp (attributes_of attributes)) }
        ensures err { OnErr result (self.new ≡ self.old) };

    /// Sets an attribute.
    ///
    /// # Errors
    ///
    /// `AllocError` if out of memory. The span is unchanged.
    fn set_attribute(&mut self, alloc: Global, attribute: KeyValue) -> Result<(), AllocError>
        ensures ok { OnOk result (self.new ≡ after_attribute self.old (attribute_of attribute)) }
        ensures err { OnErr result (self.new ≡ self.old) };

    /// Adds a link to another span.
    ///
    /// # Errors
    ///
    /// `AllocError` if out of memory. The span is unchanged.
    fn add_link(
        &mut self,
        alloc: Global,
        span_context: SpanContext,
        attributes: Vec<KeyValue>,
    ) -> Result<(), AllocError>
        ensures ok { OnOk result
            (self.new ≡ after_link self.old span_context (attributes_of attributes)) }
        ensures err { OnErr result (self.new ≡ self.old) };

    /// Sets the status.
    fn set_status(&mut self, status: Status)
        ensures { self.new ≡ after_status self.old status };

    /// Replaces the name of the span.
    fn update_name(&mut self, name: StringValue)
        ensures { self.new ≡ after_name self.old name };

    /// Ends the span with the given timestamp.
    fn end_with_timestamp(&mut self, timestamp: u64)
        ensures { self.new ≡ after_end self.old timestamp };

    /// Returns the span context, which identifies the span and never changes.
    fn span_context(&self) -> &SpanContext
        ensures { result.now ≡ context_of self.now };

    /// Returns `true` if the span still records the data passed to it. Check it before computing
    /// expensive attributes.
    fn is_recording(&self) -> bool
        ensures { result ≡ records self.now };

    /// Adds an event that happens now, at the given time.
    ///
    /// # Errors
    ///
    /// `AllocError` if out of memory. The span is unchanged.
    fn add_event(
        &mut self,
        alloc: Global,
        name: StringValue,
        attributes: Vec<KeyValue>,
        now: u64,
    ) -> Result<(), AllocError>
        ensures ok { OnOk result
            (self.new ≡ after_event self.old name now (attributes_of attributes)) }
        ensures err { OnErr result (self.new ≡ self.old) }
    {
        self.add_event_with_timestamp(alloc, name, now, attributes)
    }

    /// Adds an event `exception` that happens now, with the error's text as the attribute
    /// `exception.message`. Does nothing, not even print the error, if the span doesn't record.
    ///
    /// # Errors
    ///
    /// `AllocError` if out of memory or if the error's `fmt` fails, which can only happen if the
    /// span records. The span is unchanged.
    fn record_error<E: Display>(
        &mut self,
        alloc: Global,
        error: &E,
        now: u64,
    ) -> Result<(), AllocError>
        ensures ok { OnOk result
            (RecordsError records after_event self.old (E.output error.now) now self.new) }
        ensures err { OnErr result (self.new ≡ self.old) }
        ensures idle { records self.old ≡ false → IsOk result × (self.new ≡ self.old) }
    {
        if !self.is_recording() {
            return Ok(());
        }
        let text = error.to_string(alloc)?;
        let key = Key::from_static_str("exception.message");
        let message = KeyValue::new(key, Value::from(text));
        let mut attributes = Vec::new(alloc);
        attributes.push(message)?;
        self.add_event(alloc, StringValue::from("exception"), attributes, now)
    }

    /// Sets each attribute, in order, if the span records. Checks once whether it does.
    ///
    /// # Errors
    ///
    /// `AllocError` if out of memory, which can only happen if the span records. The attributes
    /// before the failed one are set.
    fn set_attributes(&mut self, alloc: Global, attributes: Vec<KeyValue>) -> Result<(), AllocError>
        ensures ok { OnOk result
            (SetsAttributes records after_attribute self.old (attributes_of attributes) self.new) }
        ensures err { OnErr result
            (SetsBeginning after_attribute self.old (attributes_of attributes) self.new) }
        ensures idle { records self.old ≡ false → IsOk result × (self.new ≡ self.old) }
    {
        if self.is_recording() {
            for attribute in attributes {
                self.set_attribute(alloc, attribute)?;
            }
        }
        Ok(())
    }

    /// Ends the span now.
    fn end(&mut self, now: u64)
        ensures { self.new ≡ after_end self.old now }
    {
        self.end_with_timestamp(now)
    }

    ghost event_keeps: { (span : Self) (name : List ℕ) (time : ℕ) (attributes : List Attribute)
        → context_of (after_event span name time attributes) ≡ context_of span };

    ghost attribute_keeps: { (span : Self) (attribute : Attribute)
        → context_of (after_attribute span attribute) ≡ context_of span };

    ghost link_keeps: { (span : Self) (linked : SpanContextRecord) (attributes : List Attribute)
        → context_of (after_link span linked attributes) ≡ context_of span };

    ghost status_keeps: { (span : Self) (status : Status)
        → context_of (after_status span status) ≡ context_of span };

    ghost name_keeps: { (span : Self) (name : List ℕ)
        → context_of (after_name span name) ≡ context_of span };

    ghost end_keeps: { (span : Self) (time : ℕ)
        → context_of (after_end span time) ≡ context_of span };
}
