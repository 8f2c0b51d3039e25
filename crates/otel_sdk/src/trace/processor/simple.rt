//! A processor that exports each span when it ends.
ghost use Rattle.std.specs.Prelude.{◌≡◌, [], ◌∷◌};
ghost use Rattle.otel_sdk.specs.Processor.{HasReceived};
ghost use Rattle.otel_sdk_base.specs.Queue as queue_spec;

use crate::trace::processor::SpanProcessor;
use crate::trace::processor::batch::BatchSpanProcessor;
use opentelemetry::Context;
use otel_sdk_base::error::OTelSdkResult;
use otel_sdk_base::resource::Resource;
use otel_sdk_base::{BatchConfigBuilder, Losses};
use otel_sdk_span::{SdkSpan, SpanData, SpanExporter};
use std::alloc::{AllocError, Global};
use std::marker::Model;
use std::rc::Rc;

/// Exports each sampled span when it ends, in a batch of its own (the Rust crate's
/// `SimpleSpanProcessor`).
///
/// Spans that the exporter rejects stay queued, at most 2,048 of them. The next end or flush passes
/// them to the exporter again, before other spans.
///
/// ```
/// let processor = SimpleSpanProcessor::new(alloc, exporter);
/// let builder = TracingBuilder::new(rt).with_processor(processor);
/// ```
pub struct SimpleSpanProcessor<E> {
    inner: BatchSpanProcessor<E>,
}

// Written out, so that a caller's proof has one call here, and not the drops of all parts.
impl<E: Drop> Drop for SimpleSpanProcessor<E> {
    fn drop(self) {
        let SimpleSpanProcessor { inner: _ } = self;
    }
}

impl<E> Model for SimpleSpanProcessor<E> {
    ghost use Rattle.otel_sdk.specs.Processor.{BatchState};

    ghost Value = { BatchState E };

    ghost view = { λ p. p.inner };
}

impl<E: SpanExporter> SimpleSpanProcessor<E> {
    /// Returns a processor without spans. Doesn't allocate.
    pub fn new(alloc: Global, exporter: E) -> SimpleSpanProcessor<E>
        ensures state { result ≡ record {
          queue = queue_spec.new exporter queue_spec.single_limits;
          given = exporter ∷ [];
          skips = 0;
        } }
        ensures account { HasReceived E.accepted E.calls result [] }
    {
        let config = BatchConfigBuilder::default()
            .with_max_export_batch_size(1)
            .build();
        SimpleSpanProcessor {
            inner: BatchSpanProcessor::new(alloc, exporter, config),
        }
    }

    /// Returns the exporter.
    pub fn exporter(&self) -> &E
        ensures { result.now ≡ self.now.queue.exporter }
    {
        self.inner.exporter()
    }
}

impl<E: SpanExporter> SpanProcessor for SimpleSpanProcessor<E> {
    ghost use Rattle.otel_sdk.specs.Processor.{simple_calls};

    ghost calls = { simple_calls E.accepted E.calls };

    fn reserve(&mut self, open: usize) -> Result<(), AllocError> {
        self.inner.reserve(open)
    }

    fn on_start(&mut self, alloc: Global, span: &mut SdkSpan, parent: &Context) {
        self.inner.on_start(alloc, span, parent);
    }

    fn keeps_ended(&self) -> bool {
        true
    }

    // If the export fails, the span stays queued.
    fn on_end(&mut self, span: SpanData) {
        self.inner.collect(span);
        drop(self.inner.force_flush());
    }

    fn on_loss(&mut self, span: &SpanData) {
        self.inner.on_loss(span);
    }

    fn force_flush(&mut self) -> OTelSdkResult {
        self.inner.force_flush()
    }

    fn shutdown(&mut self) -> OTelSdkResult {
        self.inner.shutdown()
    }

    fn is_shut_down(&self) -> bool {
        self.inner.is_shut_down()
    }

    fn dropped_spans(&self) -> u64 {
        self.inner.dropped_spans()
    }

    fn queued_spans(&self) -> usize {
        self.inner.queued_spans()
    }

    fn losses(&self) -> Losses {
        self.inner.losses()
    }

    fn last_message(&self) -> Option<&str> {
        self.inner.last_message()
    }

    fn set_resource(&mut self, resource: &Rc<Resource>) -> Result<(), AllocError> {
        self.inner.set_resource(resource)
    }
}
