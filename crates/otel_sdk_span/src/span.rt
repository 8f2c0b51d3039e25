//! The span of the SDK.
ghost use Rattle.std.specs.Prelude.{◌≡◌, false, true, IsOk, IfOk, OnOk, OnErr, option_copied, refl};
ghost use Rattle.otel_base.specs.View.{attribute_of};
ghost use Rattle.otel_context.specs.SpanEffects.{attributes_of};
ghost use Rattle.otel_sdk_span.specs.Span as spec;

use crate::data::SpanData;
use crate::limits::SpanLimits;
use opentelemetry::trace::{Event, Link, Span, SpanContext, Status};
use opentelemetry::{KeyValue, StringValue};
use std::alloc::{AllocError, Global};
use std::marker::Model;

// The content of a span: its recorded data, or only its span context.
#[derive(Debug, Drop)]
enum Kept {
    // Boxed, since a span is moved several times before it is exported.
    Recorded(Box<SpanData>),
    Context(SpanContext),
}

/// A span that records within limits, until it ends (the Rust crate's `Span`).
///
/// Items beyond a limit are dropped and counted, so the first ones stay. After the end, nothing
/// changes, and a second end does nothing. A span that doesn't record keeps only its span context
/// and whether it has ended. Its calls don't allocate.
///
/// ```
/// let mut span = SdkSpan::new(alloc, given, SpanLimits::default())?;
/// span.set_attribute(alloc, KeyValue::new(Key::from("k"), Value::I64(1)))?;
/// span.end(now);
/// ```
#[derive(Debug)]
pub struct SdkSpan {
    kept: Kept,
    limits: SpanLimits,
    has_ended: bool,
}

// Written out, so that a caller's proof has one call here, and not the drops of all parts.
impl Drop for SdkSpan {
    #[inline(always)]
    fn drop(self) {
        let SdkSpan {
            kept: _,
            limits: _,
            has_ended: _,
        } = self;
    }
}

impl Model for SdkSpan {
    ghost use Rattle.otel_sdk_span.specs.Span.{SpanState};

    ghost Value = { SpanState };

    ghost use Rattle.otel_sdk_span.specs.View.{context_in, recorded_in};

    ghost view = { λ s. record {
      context = context_in s.kept;
      recorded = recorded_in s.kept;
      limits = s.limits;
      has_ended = s.has_ended;
    } };
}

impl SdkSpan {
    /// Returns a span that starts with the given data and continues to record, within the limits.
    /// The given attributes are set in turn, and the given events and links are added in turn, as
    /// by later calls.
    ///
    /// # Errors
    ///
    /// `AllocError` if out of memory. The data is dropped.
    // Inlined, since a call copies the data.
    #[inline(always)]
    pub fn new(alloc: Global, given: SpanData, limits: SpanLimits) -> Result<SdkSpan, AllocError>
        ensures { IfOk result (λ span. span ≡ spec.started limits given) }
    {
        let mut recorded = Box::new(alloc, given)?;
        recorded.keep_within(alloc, limits)?;
        Ok(SdkSpan {
            kept: Kept::Recorded(recorded),
            limits,
            has_ended: false,
        })
    }

    /// Returns a span that doesn't record. It keeps only its span context. Doesn't allocate.
    pub fn without_data(span_context: SpanContext) -> SdkSpan
        ensures { result ≡ spec.unrecorded span_context }
    {
        SdkSpan {
            kept: Kept::Context(span_context),
            limits: SpanLimits::default(),
            has_ended: false,
        }
    }

    /// Returns `true` if the span has ended.
    pub fn has_ended(&self) -> bool
        ensures { result ≡ self.now.has_ended }
    {
        self.has_ended
    }

    /// Returns the recorded data, or `None` if the span has never recorded.
    pub fn data(&self) -> Option<&SpanData>
        ensures { option_copied result ≡ self.now.recorded }
    {
        match &self.kept {
            Kept::Recorded(recorded) => Some(recorded.as_ref()),
            Kept::Context(_) => None,
        }
    }

    /// Returns the recorded data, or `None` if the span has never recorded. Doesn't allocate.
    pub fn into_data(self) -> Option<SpanData>
        ensures { result ≡ self.recorded }
    {
        let SdkSpan {
            kept,
            limits: _,
            has_ended: _,
        } = self;
        match kept {
            Kept::Recorded(recorded) => Some(Box::into_inner(recorded)),
            Kept::Context(_) => None,
        }
    }
}

impl Span for SdkSpan {
    ghost use Rattle.otel_sdk_span.specs.Span.{after_event, after_attribute, after_link};
    ghost use Rattle.otel_sdk_span.specs.Span.{after_status};
    ghost use Rattle.otel_sdk_span.specs.Span.{after_name, after_end, is_recording};

    ghost context_of = { λ span. span.context };

    ghost records = { is_recording };

    ghost after_event = { after_event };

    ghost after_attribute = { after_attribute };

    ghost after_link = { after_link };

    ghost after_status = { after_status };

    ghost after_name = { after_name };

    ghost after_end = { after_end };

    /// Adds an event at the given time, in nanoseconds since 1970, if the span has fewer events
    /// than the limit. Otherwise counts it as dropped. The attributes of the event are truncated,
    /// and dropped and counted beyond their own limit. Does nothing if the span doesn't record.
    ///
    /// # Errors
    ///
    /// `AllocError` if out of memory. The span is unchanged.
    fn add_event_with_timestamp(
        &mut self,
        alloc: Global,
        name: StringValue,
        timestamp: u64,
        attributes: Vec<KeyValue>,
    ) -> Result<(), AllocError>
        ensures ok { OnOk result
            (self.new ≡ after_event self.old name timestamp (attributes_of attributes)) }
        ensures err { OnErr result (self.new ≡ self.old) }
        ensures idle { is_recording self.old ≡ false → IsOk result × (self.new ≡ self.old) }
    {
        let event = Event::new(name, timestamp, attributes, 0);
        if self.has_ended {
            return Ok(());
        }
        match &mut self.kept {
            Kept::Recorded(recorded) => recorded.add_event(alloc, self.limits, event),
            Kept::Context(_) => Ok(()),
        }
    }

    /// Truncates the attribute, and sets it if its key is present or the span has fewer attributes
    /// than the limit. Otherwise counts it as dropped. Does nothing if the span doesn't record.
    ///
    /// # Errors
    ///
    /// `AllocError` if out of memory. The span is unchanged.
    fn set_attribute(&mut self, alloc: Global, attribute: KeyValue) -> Result<(), AllocError>
        ensures ok { OnOk result (self.new ≡ after_attribute self.old (attribute_of attribute)) }
        ensures err { OnErr result (self.new ≡ self.old) }
        ensures idle { is_recording self.old ≡ false → IsOk result × (self.new ≡ self.old) }
    {
        if self.has_ended {
            return Ok(());
        }
        match &mut self.kept {
            Kept::Recorded(recorded) => recorded.set_attribute(alloc, self.limits, attribute),
            Kept::Context(_) => Ok(()),
        }
    }

    /// Adds a link to the span context if the span has fewer links than the limit. Otherwise counts
    /// it as dropped. The attributes of the link are truncated, and dropped and counted beyond
    /// their own limit.
    ///
    /// Does nothing if the span doesn't record, or if the link is empty: the span context isn't
    /// valid, and there are neither attributes nor a trace state.
    ///
    /// # Errors
    ///
    /// `AllocError` if out of memory. The span is unchanged.
    fn add_link(
        &mut self,
        alloc: Global,
        span_context: SpanContext,
        attributes: Vec<KeyValue>,
    ) -> Result<(), AllocError>
        ensures ok { OnOk result
            (self.new ≡ after_link self.old span_context (attributes_of attributes)) }
        ensures err { OnErr result (self.new ≡ self.old) }
        ensures idle { is_recording self.old ≡ false → IsOk result × (self.new ≡ self.old) }
    {
        if self.has_ended {
            return Ok(());
        }
        match &mut self.kept {
            Kept::Recorded(recorded) => {
                recorded.add_link(alloc, self.limits, Link::new(span_context, attributes, 0))
            }
            Kept::Context(_) => Ok(()),
        }
    }

    /// Sets the status if it is greater than the current one and the span records.
    fn set_status(&mut self, status: Status)
        ensures effect { self.new ≡ after_status self.old status }
        ensures idle { is_recording self.old ≡ false → self.new ≡ self.old }
    {
        if self.has_ended {
            return;
        }
        match &mut self.kept {
            Kept::Recorded(recorded) => recorded.set_status(status),
            Kept::Context(_) => (),
        }
    }

    /// Replaces the name if the span records.
    fn update_name(&mut self, name: StringValue)
        ensures effect { self.new ≡ after_name self.old name }
        ensures idle { is_recording self.old ≡ false → self.new ≡ self.old }
    {
        if self.has_ended {
            return;
        }
        match &mut self.kept {
            Kept::Recorded(recorded) => recorded.name = name,
            Kept::Context(_) => (),
        }
    }

    /// Ends the span at the given time, in nanoseconds since 1970. The time is kept as given, even
    /// if it is before the start. Does nothing if the span has ended.
    fn end_with_timestamp(&mut self, timestamp: u64)
        ensures effect { self.new ≡ after_end self.old timestamp }
        ensures stopped { is_recording self.new ≡ false }
        ensures again { self.old.has_ended ≡ true → self.new ≡ self.old }
    {
        if self.has_ended {
            return;
        }
        self.has_ended = true;
        match &mut self.kept {
            Kept::Recorded(recorded) => recorded.end_time = timestamp,
            Kept::Context(_) => (),
        }
    }

    fn span_context(&self) -> &SpanContext {
        match &self.kept {
            Kept::Recorded(recorded) => &recorded.span_context,
            Kept::Context(span_context) => span_context,
        }
    }

    fn is_recording(&self) -> bool {
        match &self.kept {
            Kept::Recorded(_) => !self.has_ended,
            Kept::Context(_) => false,
        }
    }

    ghost event_keeps = { λ span name time attributes. refl };

    ghost attribute_keeps = { λ span attribute. refl };

    ghost link_keeps = { λ span linked attributes. refl };

    ghost status_keeps = { λ span status. refl };

    ghost name_keeps = { λ span name. refl };

    ghost end_keeps = { λ span time. refl };
}
