//! The source of the spans of the SDK's value that traces.
ghost use Rattle.std.specs.Prelude.{◌≡◌, [], OnOk, true};
ghost use Rattle.otel_sdk.specs.Processor.{data_of};
ghost use Rattle.otel_sdk.specs.SdkSource as spec;

use crate::trace::history::SpanHistory;
use crate::trace::processor::SpanProcessor;
use crate::trace::tracer::Pipeline;
use opentelemetry::Context;
use opentelemetry::trace::{SourceWork, SpanBuilder, SpanSource};
use otel_sdk_base::error::OTelSdkResult;
use otel_sdk_span::SdkSpan;
use std::alloc::{AllocError, Global};
use std::marker::Model;

/// Starts the spans of an [`SdkTracing`](crate::trace::SdkTracing): those of a pipeline. Tells its
/// processors of each one that begins, and hands them the data of each one that ends. Not in the
/// Rust crate, whose spans hold their tracer.
pub struct SdkSource<P, X: SpanProcessor> {
    pipeline: P,
    processors: X,
    is_disabled: bool,
    begun: SpanHistory<()>,
    taken: SpanHistory<()>,
}

// Written out, so that a caller's proof has one call here, and not the drops of all parts.
impl<P: Drop, X: SpanProcessor> Drop for SdkSource<P, X> {
    fn drop(self) {
        let SdkSource {
            pipeline: _,
            processors: _,
            is_disabled: _,
            begun: _,
            taken: _,
        } = self;
    }
}

impl<P, X: SpanProcessor> Model for SdkSource<P, X> {
    ghost use Rattle.otel_sdk.specs.Processor.{data_of};
    ghost use Rattle.otel_sdk.specs.SdkSource.{SourceState};

    ghost Value = { SourceState P X };

    ghost view = { λ s. record {
      pipeline = s.pipeline;
      processors = s.processors;
      is_disabled = s.is_disabled;
      begun = s.begun.items;
      taken = s.taken.items;
    } };

    ghost invariant = { λ s. X.calls.AccountsFor s.processors (data_of s.taken.items) };
}

impl<P: Pipeline, X: SpanProcessor> SdkSource<P, X> {
    /// Returns the source, from which nothing has begun. Doesn't allocate.
    pub(crate) fn new(pipeline: P, processors: X, is_disabled: bool) -> SdkSource<P, X>
        requires { X.calls.AccountsFor processors [] }
        ensures { result ≡ spec.at_start pipeline processors is_disabled }
    {
        SdkSource {
            pipeline,
            processors,
            is_disabled,
            begun: SpanHistory::new(),
            taken: SpanHistory::new(),
        }
    }

    /// Returns the processors.
    pub(crate) fn processors(&self) -> &X
        ensures { result.now ≡ self.now.processors }
    {
        &self.processors
    }

    /// States that the processors account for the data of every span that ended.
    pub(crate) fn accounts(&self)
        ensures { X.calls.AccountsFor self.now.processors (data_of self.now.taken) }
    {
        let _ = &self.processors;
    }
}

impl<P: Pipeline, X: SpanProcessor> SpanSource for SdkSource<P, X> {
    ghost use Rattle.std.specs.Prelude.{refl};
    ghost use Rattle.otel_sdk.specs.SdkSource.{sdk_calls};
    ghost use Rattle.otel_sdk.specs.SpanIds as ids;

    type Span = SdkSpan;

    ghost calls = { sdk_calls P.may_show P.may_start P.begins X.calls };

    fn is_disabled(&self) -> bool {
        self.is_disabled
    }

    fn now(&self) -> u64 {
        if self.is_disabled {
            return 0;
        }
        self.pipeline.now()
    }

    fn build(
        &self,
        alloc: Global,
        builder: SpanBuilder,
        parent: &Context,
    ) -> Result<SdkSpan, AllocError> {
        self.pipeline.build_with_context(alloc, builder, parent)
    }

    fn reserve(&mut self, open: usize) -> Result<(), AllocError> {
        self.processors.reserve(open)
    }

    fn begin(&mut self, alloc: Global, span: &mut SdkSpan, parent: &Context) {
        self.pipeline.begin(parent, span);
        self.processors.on_start(alloc, span, parent);
        self.begun = self.begun.and(span);
    }

    fn take(&mut self, span: SdkSpan) {
        self.taken = self.taken.and(&span);
        if let Some(data) = span.into_data() {
            self.processors.on_end(data);
        }
    }

    ghost keeps_ids = { record {
      event = ids.event;
      attribute = ids.attribute;
      link = ids.link;
      status = ids.status;
      name = ids.name;
      end = ids.end;
    } };
}

/// Exports the spans that the processors keep.
#[derive(Drop)]
pub(crate) struct Flush;

impl<P: Pipeline, X: SpanProcessor> SourceWork<SdkSource<P, X>> for Flush {
    type Out = OTelSdkResult;

    ghost may_leave = { λ _ old out new. X.calls.flushes old.processors out new.processors
        × (new ≡ record old { processors = new.processors })
        × OnOk out (X.calls.IsEmpty new.processors) };

    fn call(self, source: &mut SdkSource<P, X>) -> OTelSdkResult {
        source.processors.force_flush()
    }
}

/// Exports the spans that the processors keep, and shuts them down.
#[derive(Drop)]
pub(crate) struct Shutdown;

impl<P: Pipeline, X: SpanProcessor> SourceWork<SdkSource<P, X>> for Shutdown {
    type Out = OTelSdkResult;

    ghost may_leave = { λ _ old out new. X.calls.shuts_down old.processors out new.processors
        × (new ≡ record old { processors = new.processors })
        × OnOk out (X.calls.is_shut_down new.processors ≡ true) };

    fn call(self, source: &mut SdkSource<P, X>) -> OTelSdkResult {
        source.processors.shutdown()
    }
}
