//! A processor that the configuration may turn off.
ghost use Rattle.std.specs.Prelude.{◌≡◌};

use crate::trace::processor::SpanProcessor;
use crate::trace::processor::batch::BatchSpanProcessor;
use opentelemetry::Context;
use otel_sdk_base::Losses;
use otel_sdk_base::error::OTelSdkResult;
use otel_sdk_base::resource::Resource;
use otel_sdk_span::{SdkSpan, SpanData, SpanExporter};
use std::alloc::{AllocError, Global};
use std::default::Default;
use std::marker::Model;
use std::rc::Rc;

/// A processor, unless it is off: then nothing reaches it. Not in the Rust crate.
///
/// ```
/// let picture = SimpleSpanProcessor::new(alloc, exporter);
/// let builder = builder.with_processor(ConfiguredProcessor::new(picture, !wants_picture));
/// ```
pub struct ConfiguredProcessor<P> {
    processor: P,
    is_off: bool,
}

/// The processor of an exporter that was added by
/// [`WithExporter::with_exporter`](crate::trace::WithExporter::with_exporter).
pub type ExporterProcessor<E> = ConfiguredProcessor<BatchSpanProcessor<E>>;

// Written out, so that a caller's proof has one call here, and not the drops of all parts.
impl<P: Drop> Drop for ConfiguredProcessor<P> {
    fn drop(self) {
        let ConfiguredProcessor {
            processor: _,
            is_off: _,
        } = self;
    }
}

impl<P> Model for ConfiguredProcessor<P> {
    ghost use Rattle.otel_sdk.specs.Processor.{ConfiguredState};

    ghost Value = { ConfiguredState P };

    ghost view = { λ p. record { processor = p.processor; is_off = p.is_off } };
}

impl<P: SpanProcessor> ConfiguredProcessor<P> {
    /// Returns the processor, on or off.
    pub fn new(processor: P, is_off: bool) -> ConfiguredProcessor<P>
        ensures { result ≡ record { processor = processor; is_off = is_off } }
    {
        ConfiguredProcessor { processor, is_off }
    }

    /// Returns `true` if nothing reaches the processor.
    pub fn is_off(&self) -> bool
        ensures { result ≡ self.now.is_off }
    {
        self.is_off
    }
}

impl<E: SpanExporter> ConfiguredProcessor<BatchSpanProcessor<E>> {
    /// Returns the exporter.
    pub fn exporter(&self) -> &E
        ensures { result.now ≡ self.now.processor.queue.exporter }
    {
        self.processor.exporter()
    }
}

impl<P: SpanProcessor> SpanProcessor for ConfiguredProcessor<P> {
    ghost use Rattle.otel_sdk.specs.Processor.{configured_calls};

    ghost calls = { configured_calls P.calls };

    fn reserve(&mut self, open: usize) -> Result<(), AllocError> {
        if self.is_off {
            return Ok(());
        }
        self.processor.reserve(open)
    }

    fn on_start(&mut self, alloc: Global, span: &mut SdkSpan, parent: &Context) {
        if !self.is_off {
            self.processor.on_start(alloc, span, parent);
        }
    }

    fn keeps_ended(&self) -> bool {
        !self.is_off && self.processor.keeps_ended()
    }

    fn on_end(&mut self, span: SpanData) {
        if !self.is_off {
            self.processor.on_end(span);
        }
    }

    fn on_loss(&mut self, span: &SpanData) {
        if !self.is_off {
            self.processor.on_loss(span);
        }
    }

    fn force_flush(&mut self) -> OTelSdkResult {
        if self.is_off {
            return Ok(());
        }
        self.processor.force_flush()
    }

    fn shutdown(&mut self) -> OTelSdkResult {
        if self.is_off {
            return Ok(());
        }
        self.processor.shutdown()
    }

    fn is_shut_down(&self) -> bool {
        self.is_off || self.processor.is_shut_down()
    }

    fn dropped_spans(&self) -> u64 {
        self.processor.dropped_spans()
    }

    fn queued_spans(&self) -> usize {
        self.processor.queued_spans()
    }

    fn losses(&self) -> Losses {
        if self.is_off {
            return Losses::default();
        }
        self.processor.losses()
    }

    fn last_message(&self) -> Option<&str> {
        if self.is_off {
            return None;
        }
        self.processor.last_message()
    }

    fn set_resource(&mut self, resource: &Rc<Resource>) -> Result<(), AllocError> {
        if self.is_off {
            return Ok(());
        }
        self.processor.set_resource(resource)
    }
}
