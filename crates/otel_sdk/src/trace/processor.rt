//! Processors of spans, which are told of each span, and pass the ended ones to an exporter.
ghost use Rattle.std.specs.Prelude.{◌≡◌, IfOk, IsTrue, OnOk, false, true};
ghost use Rattle.std.specs.Option.{option_copied};
ghost use Rattle.std.specs.Rc.{rc_value};
ghost use Rattle.otel_sdk.specs.Processor.{AddsToAccount, KeepsAccount, ids_of};
ghost use Rattle.otel_sdk_span.specs.SpanData.{SpanRecord};

pub(crate) mod baggage;
pub(crate) mod batch;
pub(crate) mod configured;
mod list;
pub(crate) mod simple;

use opentelemetry::Context;
use otel_sdk_base::Losses;
use otel_sdk_base::error::OTelSdkResult;
use otel_sdk_base::resource::Resource;
use otel_sdk_span::{SdkSpan, SpanData};
use std::alloc::{AllocError, Global};
use std::rc::Rc;

/// Is told of each span that begins, and gets the data of each one that ends (the Rust crate's
/// `SpanProcessor`). There are no threads: it works only during calls.
///
/// Processors form a list of pairs, as `(((), P), Q)`, which is a processor itself. An application
/// lists them by [`TracingBuilder::with_processor`](crate::trace::TracingBuilder::with_processor).
///
/// Implementors say in the ghost member `calls` what each call does, and for which ended spans the
/// processor accounts.
///
/// See [`crate::trace::BatchSpanProcessor`] and [`crate::trace::SimpleSpanProcessor`].
pub trait SpanProcessor: Drop {
    ghost use Rattle.otel_sdk.specs.Processor.{ProcessorCalls};

    ghost calls: { ProcessorCalls Self };

    /// Reserves memory, so that this many open spans can end without any. Does nothing by default.
    ///
    /// # Errors
    ///
    /// `AllocError` if out of memory. Nothing changes.
    fn reserve(&mut self, _open: usize) -> Result<(), AllocError>
        ensures { self.new ≡ self.old }
    {
        Ok(())
    }

    /// Is told that a span begins under the parent context, before it is the current one. May
    /// change the span, but not its ids.
    fn on_start(&mut self, alloc: Global, span: &mut SdkSpan, parent: &Context)
        ensures starts { calls.starts self.old parent.now span.old self.new span.new }
        ensures ids { ids_of span.new ≡ ids_of span.old }
        ensures account { KeepsAccount calls self.old self.new };

    /// Returns `true` if the processor is told of spans that end.
    fn keeps_ended(&self) -> bool
        ensures keeps { result ≡ calls.keeps_ended self.now }
        ensures idle { result ≡ false
            → (span : SpanRecord) → AddsToAccount calls span self.now self.now };

    /// Gets the data of a span that has ended. An exporting processor drops it if it isn't sampled.
    fn on_end(&mut self, span: SpanData)
        ensures ends { calls.ends self.old span self.new }
        ensures account { AddsToAccount calls span self.old self.new };

    /// Is told of a span that has ended, if its data couldn't be copied for this processor. Counts
    /// it if it is sampled.
    fn on_loss(&mut self, span: &SpanData)
        ensures loses { calls.loses self.old span.now self.new }
        ensures account { AddsToAccount calls span.now self.old self.new };

    /// Passes the spans that the processor keeps to the exporter, and flushes it.
    ///
    /// # Errors
    ///
    /// `AlreadyShutdown` after [`SpanProcessor::shutdown`], or the exporter's error. The spans that
    /// it didn't accept are kept, in order.
    fn force_flush(&mut self) -> OTelSdkResult
        ensures flushes { calls.flushes self.old result self.new }
        ensures account { KeepsAccount calls self.old self.new }
        ensures exported { OnOk result (calls.IsEmpty self.new) };

    /// Flushes the processor, and shuts it and its exporter down. Spans that end later are dropped
    /// and counted.
    ///
    /// # Errors
    ///
    /// `AlreadyShutdown` after an earlier call, or the exporter's error. If the flush failed, the
    /// processor stays open for another try.
    fn shutdown(&mut self) -> OTelSdkResult
        ensures shuts_down { calls.shuts_down self.old result self.new }
        ensures account { KeepsAccount calls self.old self.new }
        ensures closed { OnOk result (calls.is_shut_down self.new ≡ true) };

    /// Returns `true` if the processor was shut down, or has nothing to shut down.
    fn is_shut_down(&self) -> bool
        ensures state { result ≡ calls.is_shut_down self.now }
        ensures empty { IsTrue result → calls.IsEmpty self.now };

    /// Returns the number of sampled spans that were dropped: because a queue was full or shut
    /// down, or out of memory. Several processors each count a span that they dropped. Stops at the
    /// maximum `u64`.
    fn dropped_spans(&self) -> u64
        ensures { result ≡ calls.dropped self.now };

    /// Returns the number of spans that the processor keeps to hand on: of several, the maximum.
    fn queued_spans(&self) -> usize
        ensures { result ≡ calls.queued self.now };

    /// Returns how many of the sampled spans that ended the receivers don't have, by cause: what
    /// its exporter lost or still holds, the spans that were dropped here, and those that are
    /// queued. Of several processors, the sum.
    fn losses(&self) -> Losses
        ensures { result ≡ calls.losses self.now };

    /// Returns the last message of the exporter's receiver, such as why it rejected spans: of
    /// several processors, the first one's that has any.
    fn last_message(&self) -> Option<&str>
        ensures { option_copied result ≡ calls.last_message self.now };

    /// Tells the exporter the resource of later spans, unless it was shut down.
    ///
    /// # Errors
    ///
    /// `AllocError` if out of memory. Only some exporters were told.
    fn set_resource(&mut self, resource: &Rc<Resource>) -> Result<(), AllocError>
        ensures told { OnOk result
            (calls.takes_resource self.old (rc_value resource.now) self.new) }
        ensures account { KeepsAccount calls self.old self.new };
}
