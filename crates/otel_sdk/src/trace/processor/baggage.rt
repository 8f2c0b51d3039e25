//! A processor that copies baggage to spans.
ghost use Rattle.std.specs.Prelude.{◌≡◌, None, OnErr, OnOk, Some};
ghost use Rattle.otel_base.specs.Value.{text};
ghost use Rattle.otel_sdk.specs.BaggageProcessor.{SetsOrCounts, attributes_of, chooses};
ghost use Rattle.otel_sdk.specs.Processor.{ids_of};
ghost use Rattle.otel_sdk_span.specs.Span.{after_attribute};

use crate::trace::processor::SpanProcessor;
use opentelemetry::baggage::Baggage;
use opentelemetry::trace::Span;
use opentelemetry::{Context, Key, KeyValue, StringValue, Value};
use otel_sdk_base::Losses;
use otel_sdk_base::error::OTelSdkResult;
use otel_sdk_base::resource::Resource;
use otel_sdk_span::{SdkSpan, SpanData};
use std::alloc::{AllocError, Global};
use std::default::Default;
use std::marker::Model;
use std::rc::Rc;

/// Copies members of the parent context's baggage to each span that begins, as attributes (the
/// baggage span processor of other languages' SDKs).
///
/// The attribute has the member's key and its value, a string. Metadata isn't copied. Attributes
/// are set in the order of the baggage, within the span's limits, as by `set_attribute`: a key that
/// the span already has gets the member's value. A span that doesn't record gets none.
///
/// Add it before the exporters. It keeps no spans, so a flush and a shutdown do nothing. The sampler
/// is asked before, and doesn't see the attributes.
///
/// Received headers may set any member: name the keys that may be exported.
///
/// ```
/// let keys = vec![in alloc; Key::from("tenant"), Key::from("region")]?;
/// let builder = TracingBuilder::new(rt).with_processor(BaggageSpanProcessor::new(keys));
/// ```
pub struct BaggageSpanProcessor {
    // `None` for all keys.
    keys: Option<Vec<Key>>,
    missed: u64,
}

// Written out, so that a caller's proof has one call here, and not the drops of all parts.
impl Drop for BaggageSpanProcessor {
    fn drop(self) {
        let BaggageSpanProcessor { keys: _, missed: _ } = self;
    }
}

impl Model for BaggageSpanProcessor {
    ghost use Rattle.std.specs.Prelude.{option_map};
    ghost use Rattle.otel_sdk.specs.BaggageProcessor.{BaggageCopies};

    ghost Value = { BaggageCopies };

    ghost view = { λ p. record {
      keys = option_map (λ keys. keys.items) p.keys;
      missed = p.missed;
    } };
}

/// Sets the attribute with this key and this value.
///
/// # Errors
///
/// `AllocError` if out of memory. The span is unchanged.
fn copy_member(
    alloc: Global,
    span: &mut SdkSpan,
    key: &Key,
    value: &StringValue,
) -> Result<(), AllocError>
    ensures ok { OnOk result (span.new ≡ after_attribute span.old (key.now, text value.now)) }
    ensures err { OnErr result (span.new ≡ span.old) }
{
    let attribute = KeyValue::new(key.clone()?, Value::from(value.clone()?));
    span.set_attribute(alloc, attribute)
}

impl BaggageSpanProcessor {
    /// Returns a processor that copies the members with these keys. Doesn't allocate.
    pub fn new(keys: Vec<Key>) -> BaggageSpanProcessor
        ensures { result ≡ record { keys = Some keys.items; missed = 0 } }
    {
        BaggageSpanProcessor {
            keys: Some(keys),
            missed: 0,
        }
    }

    /// Returns a processor that copies every member. Doesn't allocate.
    pub fn all() -> BaggageSpanProcessor
        ensures { result ≡ record { keys = None; missed = 0 } }
    {
        BaggageSpanProcessor {
            keys: None,
            missed: 0,
        }
    }

    /// Returns the number of chosen members that weren't copied because memory ran out. Stops at
    /// the maximum `u64`.
    pub fn missed_members(&self) -> u64
        ensures { result ≡ self.now.missed }
    {
        self.missed
    }

    /// Returns `true` if members with the key are copied.
    fn chooses(&self, key: &Key) -> bool
        ensures { result ≡ chooses self.now.keys key.now }
    {
        match &self.keys {
            Some(keys) => keys.contains(key),
            None => true,
        }
    }

    /// Copies the chosen members to the span, and counts each one for which memory runs out.
    fn copy_members(&mut self, alloc: Global, span: &mut SdkSpan, baggage: &Baggage)
        ensures keys { self.new.keys ≡ self.old.keys }
        ensures members { SetsOrCounts (attributes_of self.old.keys baggage.now)
            span.old self.old.missed span.new self.new.missed }
        ensures ids { ids_of span.new ≡ ids_of span.old }
    {
        for (key, (value, _)) in baggage {
            if self.chooses(key) && copy_member(alloc, span, key, value).is_err() {
                self.missed = self.missed.saturating_add(1);
            }
        }
    }
}

impl SpanProcessor for BaggageSpanProcessor {
    ghost use Rattle.otel_sdk.specs.BaggageProcessor.{baggage_calls};

    ghost calls = { baggage_calls };

    fn on_start(&mut self, alloc: Global, span: &mut SdkSpan, parent: &Context) {
        if let Some(baggage) = parent.baggage() {
            if span.is_recording() {
                self.copy_members(alloc, span, baggage);
            }
        }
    }

    fn keeps_ended(&self) -> bool {
        false
    }

    fn on_end(&mut self, _span: SpanData) {}

    fn on_loss(&mut self, _span: &SpanData) {}

    fn force_flush(&mut self) -> OTelSdkResult {
        Ok(())
    }

    fn shutdown(&mut self) -> OTelSdkResult {
        Ok(())
    }

    fn is_shut_down(&self) -> bool {
        true
    }

    fn dropped_spans(&self) -> u64 {
        0
    }

    fn queued_spans(&self) -> usize {
        0
    }

    fn losses(&self) -> Losses {
        Losses::default()
    }

    fn last_message(&self) -> Option<&str> {
        None
    }

    fn set_resource(&mut self, _resource: &Rc<Resource>) -> Result<(), AllocError> {
        Ok(())
    }
}
