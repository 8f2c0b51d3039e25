//! Lists of processors: none, and one after others.
ghost use Rattle.std.specs.Prelude.{◌≡◌};
ghost use Rattle.otel_sdk.specs.Processor.{first_error};

use crate::trace::processor::SpanProcessor;
use opentelemetry::Context;
use otel_sdk_base::Losses;
use otel_sdk_base::error::{OTelSdkError, OTelSdkResult};
use otel_sdk_base::resource::Resource;
use otel_sdk_span::{SdkSpan, SpanData};
use std::alloc::{AllocError, Global};
use std::default::Default;
use std::rc::Rc;

/// Returns both answers if they are `Ok`, otherwise the first error.
fn both(first: OTelSdkResult, second: OTelSdkResult) -> OTelSdkResult
    ensures { result ≡ first_error first second }
{
    match first {
        Ok(()) => second,
        Err(error) => {
            drop(second);
            Err(error)
        }
    }
}

/// No processor: nothing happens.
impl SpanProcessor for () {
    ghost use Rattle.otel_sdk.specs.Processor.{none_calls};

    ghost calls = { none_calls };

    fn on_start(&mut self, _alloc: Global, _span: &mut SdkSpan, _parent: &Context) {}

    fn keeps_ended(&self) -> bool {
        false
    }

    fn on_end(&mut self, _span: SpanData) {}

    fn on_loss(&mut self, _span: &SpanData) {}

    fn force_flush(&mut self) -> OTelSdkResult {
        Ok(())
    }

    fn shutdown(&mut self) -> OTelSdkResult {
        Ok(())
    }

    fn is_shut_down(&self) -> bool {
        true
    }

    fn dropped_spans(&self) -> u64 {
        0
    }

    fn queued_spans(&self) -> usize {
        0
    }

    fn losses(&self) -> Losses {
        Losses::default()
    }

    fn last_message(&self) -> Option<&str> {
        None
    }

    fn set_resource(&mut self, _resource: &Rc<Resource>) -> Result<(), AllocError> {
        Ok(())
    }
}

/// Processors in order: those of `A`, and then `B`. Each is told of each span, once. A flush and a
/// shutdown reach each one that is open, whatever the others answer.
impl<A: SpanProcessor, B: SpanProcessor> SpanProcessor for (A, B) {
    ghost use Rattle.otel_sdk.specs.Processor.{pair_calls};

    ghost calls = { pair_calls A.calls B.calls };

    fn reserve(&mut self, open: usize) -> Result<(), AllocError> {
        self.0.reserve(open)?;
        self.1.reserve(open)
    }

    fn on_start(&mut self, alloc: Global, span: &mut SdkSpan, parent: &Context) {
        self.0.on_start(alloc, span, parent);
        self.1.on_start(alloc, span, parent);
    }

    fn keeps_ended(&self) -> bool {
        self.0.keeps_ended() || self.1.keeps_ended()
    }

    // The data is copied for each processor that keeps it but the last one.
    fn on_end(&mut self, span: SpanData) {
        if !self.1.keeps_ended() {
            if self.0.keeps_ended() {
                self.0.on_end(span);
            }
            return;
        }
        if self.0.keeps_ended() {
            match span.clone() {
                Ok(copy) => self.0.on_end(copy),
                Err(_) => self.0.on_loss(&span),
            }
        }
        self.1.on_end(span);
    }

    fn on_loss(&mut self, span: &SpanData) {
        if self.0.keeps_ended() {
            self.0.on_loss(span);
        }
        if self.1.keeps_ended() {
            self.1.on_loss(span);
        }
    }

    fn force_flush(&mut self) -> OTelSdkResult {
        if self.0.is_shut_down() {
            return self.1.force_flush();
        }
        if self.1.is_shut_down() {
            return self.0.force_flush();
        }
        let first = self.0.force_flush();
        let second = self.1.force_flush();
        both(first, second)
    }

    fn shutdown(&mut self) -> OTelSdkResult {
        if self.0.is_shut_down() {
            return self.1.shutdown();
        }
        if self.1.is_shut_down() {
            return self.0.shutdown();
        }
        let first = self.0.shutdown();
        let second = self.1.shutdown();
        both(first, second)
    }

    fn is_shut_down(&self) -> bool {
        self.0.is_shut_down() && self.1.is_shut_down()
    }

    fn dropped_spans(&self) -> u64 {
        self.0
            .dropped_spans()
            .saturating_add(self.1.dropped_spans())
    }

    fn queued_spans(&self) -> usize {
        self.0.queued_spans().max(self.1.queued_spans())
    }

    fn losses(&self) -> Losses {
        self.0.losses().saturating_add(self.1.losses())
    }

    fn last_message(&self) -> Option<&str> {
        self.0.last_message().or(self.1.last_message())
    }

    fn set_resource(&mut self, resource: &Rc<Resource>) -> Result<(), AllocError> {
        self.0.set_resource(resource)?;
        self.1.set_resource(resource)
    }
}
