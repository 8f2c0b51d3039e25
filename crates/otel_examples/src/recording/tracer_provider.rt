//! A provider of recording tracers.
ghost use Rattle.std.specs.Prelude.{◌≡◌};

use crate::recording::span::RecordingSpan;
use crate::recording::tracer::RecordingTracer;
use opentelemetry::Context;
use opentelemetry::trace::{SpanBuilder, TraceId, Tracer, TracerProvider};
use otel_base::InstrumentationScope;
use std::alloc::{AllocError, Global};

/// A [`RecordingTracer`] for a scope.
///
/// See [`RecordingTracerProvider`].
#[derive(Debug, Drop)]
pub struct ScopedTracer {
    /// The library or module that the tracer is for.
    pub scope: InstrumentationScope,
    /// The tracer that starts the spans.
    pub tracer: RecordingTracer,
}

impl Tracer for ScopedTracer {
    ghost use Rattle.std.specs.Prelude.{◌≡◌};
    ghost use Rattle.otel_examples.specs.Tracer.{started};

    type Span = RecordingSpan;

    ghost may_build = { λ scoped builder parent span.
        span ≡ started scoped.tracer.trace_id builder parent };

    fn build_with_context(
        &self,
        alloc: Global,
        builder: SpanBuilder,
        parent: &Context,
    ) -> Result<RecordingSpan, AllocError> {
        self.tracer.build_with_context(alloc, builder, parent)
    }
}

/// A provider that returns a [`ScopedTracer`] for each scope.
#[derive(Clone, Copy, Debug)]
pub struct RecordingTracerProvider {
    /// The trace id of spans without a parent.
    pub trace_id: TraceId,
}

impl TracerProvider for RecordingTracerProvider {
    ghost use Rattle.std.specs.Prelude.{◌≡◌, IsOkAnd};

    type Tracer = ScopedTracer;

    ghost may_give = { λ provider scope given.
        (given.scope ≡ scope) × (given.tracer.trace_id ≡ provider.trace_id) };

    /// Returns a tracer for the scope. Doesn't allocate.
    fn tracer_with_scope(
        &self,
        _alloc: Global,
        scope: InstrumentationScope,
    ) -> Result<ScopedTracer, AllocError>
        ensures { IsOkAnd result (λ given.
            (given.scope ≡ scope) × (given.tracer.trace_id ≡ self.now.trace_id)) }
    {
        let tracer = RecordingTracer {
            trace_id: self.trace_id,
        };
        Ok(ScopedTracer { scope, tracer })
    }
}
