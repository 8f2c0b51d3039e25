//! A processor that exports spans in batches.
ghost use Rattle.std.specs.Prelude.{◌≡◌, [], ◌∷◌, MatchBool};
ghost use Rattle.otel_sdk.specs.Processor.{AddsToAccount, Counts, HasReceived, MakesSpace};
ghost use Rattle.otel_sdk.specs.Processor.{OfQueue, Queues, batch_calls, is_sampled};
ghost use Rattle.otel_sdk_base.specs.Queue as queue_spec;
ghost use Rattle.otel_sdk_base.specs.QueueView.{state};

use crate::trace::processor::SpanProcessor;
use opentelemetry::{Context, History};
use otel_sdk_base::error::OTelSdkResult;
use otel_sdk_base::resource::Resource;
use otel_sdk_base::{BatchConfig, Losses, Queue};
use otel_sdk_span::{SdkSpan, SpanData, SpanExporter};
use std::alloc::{AllocError, Global};
use std::marker::Model;
use std::rc::Rc;

/// Queues sampled spans, and exports them in batches when it is flushed (the Rust crate's
/// `BatchSpanProcessor`). The caller flushes it: a full batch isn't exported by itself.
///
/// A span that comes to a full queue flushes it first, so a queue of any size keeps each span while
/// exports succeed. A batch that the exporter rejects stays queued, in order. If the queue is full
/// after a flush, a batch of spans is dropped and counted before the next one flushes it again.
///
/// ```
/// let processor = BatchSpanProcessor::new(alloc, exporter, BatchConfig::default());
/// let builder = TracingBuilder::new(rt).with_processor(processor);
/// ```
pub struct BatchSpanProcessor<E> {
    queue: Queue<SpanData, E>,
    // The exporter as it was given.
    given: History<E>,
    // How many spans that come to the full queue are dropped before it is flushed again.
    skips: usize,
}

// Written out, so that a caller's proof has one call here, and not the drops of all parts.
impl<E: Drop> Drop for BatchSpanProcessor<E> {
    fn drop(self) {
        let BatchSpanProcessor {
            queue: _,
            given: _,
            skips: _,
        } = self;
    }
}

impl<E> Model for BatchSpanProcessor<E> {
    ghost use Rattle.otel_sdk.specs.Processor.{BatchState};
    ghost use Rattle.otel_sdk_base.specs.QueueView.{state};

    ghost Value = { BatchState E };

    ghost view = { λ p. record {
      queue = state p.queue;
      given = p.given.items;
      skips = p.skips;
    } };
}

/// Queues a sampled span, or drops and counts it if the queue is full or shut down, or out of
/// memory. Drops any other span.
fn queue_or_count<E: SpanExporter>(queue: &mut Queue<SpanData, E>, span: SpanData)
    ensures { Queues span (state queue.old) (state queue.new) }
{
    if span.span_context.is_sampled() {
        match queue.reserve() {
            Ok(()) => queue.add(span),
            Err(_) => queue.count_dropped(),
        }
    }
}

/// Counts the span as dropped if it is sampled.
fn count<E: SpanExporter>(queue: &mut Queue<SpanData, E>, span: &SpanData)
    ensures { Counts span.now (state queue.old) (state queue.new) }
{
    if span.span_context.is_sampled() {
        queue.count_dropped();
    }
}

impl<E: SpanExporter> BatchSpanProcessor<E> {
    /// Returns a processor without spans. Doesn't allocate.
    pub fn new(alloc: Global, exporter: E, config: BatchConfig) -> BatchSpanProcessor<E>
        ensures state { result ≡ record {
          queue = queue_spec.new exporter config;
          given = exporter ∷ [];
          skips = 0;
        } }
        ensures account { HasReceived E.accepted E.calls result [] }
    {
        let given = History::new().and(&exporter);
        BatchSpanProcessor {
            queue: Queue::new(alloc, exporter, config),
            given,
            skips: 0,
        }
    }

    /// Returns the exporter.
    pub fn exporter(&self) -> &E
        ensures { result.now ≡ self.now.queue.exporter }
    {
        self.queue.exporter()
    }

    /// Flushes a full queue to which a sampled span comes, unless a flush left it full: then not
    /// before a batch of spans has come to it since.
    fn make_space(&mut self, span: &SpanData)
        ensures space { MatchBool (is_sampled span.now)
            (MakesSpace E.accepted E.calls self.old self.new) (self.new ≡ self.old) }
    {
        if !span.span_context.is_sampled() || !self.queue.is_full() {
            return;
        }
        if self.skips > 0 {
            self.skips -= 1;
            return;
        }
        drop(self.force_flush());
    }

    /// Queues a sampled span, or drops and counts it, without a flush of a full queue.
    pub(super) fn collect(&mut self, span: SpanData)
        ensures queued { OfQueue (Queues span) self.old self.new }
        ensures account { AddsToAccount (batch_calls E.accepted E.calls) span self.old self.new }
    {
        queue_or_count(&mut self.queue, span);
    }
}

impl<E: SpanExporter> SpanProcessor for BatchSpanProcessor<E> {
    ghost use Rattle.otel_sdk.specs.Processor.{batch_calls};

    ghost calls = { batch_calls E.accepted E.calls };

    fn reserve(&mut self, open: usize) -> Result<(), AllocError> {
        if self.queue.is_shut_down() {
            return Ok(());
        }
        self.queue.reserve_for(open)
    }

    fn on_start(&mut self, _alloc: Global, _span: &mut SdkSpan, _parent: &Context) {}

    fn keeps_ended(&self) -> bool {
        true
    }

    fn on_end(&mut self, span: SpanData) {
        self.make_space(&span);
        self.collect(span);
    }

    fn on_loss(&mut self, span: &SpanData) {
        count(&mut self.queue, span);
    }

    fn force_flush(&mut self) -> OTelSdkResult {
        let flushed = self.queue.force_flush();
        self.skips = if self.queue.is_full() {
            self.queue.max_export_batch_size().saturating_sub(1)
        } else {
            0
        };
        flushed
    }

    fn shutdown(&mut self) -> OTelSdkResult {
        self.queue.shutdown()
    }

    fn is_shut_down(&self) -> bool {
        self.queue.is_shut_down()
    }

    fn dropped_spans(&self) -> u64 {
        self.queue.dropped()
    }

    fn queued_spans(&self) -> usize {
        self.queue.len()
    }

    fn losses(&self) -> Losses {
        let here = Losses {
            rejected: 0,
            given_up: 0,
            dropped: self.queue.dropped(),
            held: self.queue.len() as u64,
        };
        self.queue.exporter().losses().saturating_add(here)
    }

    fn last_message(&self) -> Option<&str> {
        self.queue.exporter().last_message()
    }

    fn set_resource(&mut self, resource: &Rc<Resource>) -> Result<(), AllocError> {
        if !self.queue.is_shut_down() {
            self.queue.set_resource(resource.clone()?);
        }
        Ok(())
    }
}
