//! A tracer of recording spans.
ghost use Rattle.std.specs.Prelude.{◌≡◌};
ghost use Rattle.otel_examples.specs.Tracer.{child_of};

use crate::recording::span::RecordingSpan;
use opentelemetry::Context;
use opentelemetry::trace::{
    SpanBuilder, SpanContext, SpanId, TraceFlags, TraceId, TraceState, Tracer,
};
use std::alloc::{AllocError, Global};

/// A tracer that starts a [`RecordingSpan`] with each builder's name.
///
/// A span has the trace id of its parent, or the tracer's if the parent has none. Its span id is
/// the parent's plus one, so the ids show which span is the parent. It is sampled.
#[derive(Debug, Drop)]
pub struct RecordingTracer {
    /// The trace id of spans without a parent.
    pub trace_id: TraceId,
}

// Returns the span context of a child of `parent`.
fn child_of(trace_id: TraceId, parent: &SpanContext) -> SpanContext
    ensures { result ≡ child_of trace_id parent.now }
{
    let trace_id = if parent.trace_id() == TraceId::INVALID {
        trace_id
    } else {
        parent.trace_id()
    };
    let parent_id = u64::from_be_bytes(parent.span_id().to_bytes());
    SpanContext::new(
        trace_id,
        SpanId::from(parent_id.wrapping_add(1)),
        TraceFlags::SAMPLED,
        false,
        TraceState::NONE,
    )
}

impl Tracer for RecordingTracer {
    ghost use Rattle.std.specs.Prelude.{◌≡◌};
    ghost use Rattle.otel_examples.specs.Tracer.{started};

    type Span = RecordingSpan;

    ghost may_build = { λ tracer builder parent span.
        span ≡ started tracer.trace_id builder parent };

    fn build_with_context(
        &self,
        alloc: Global,
        builder: SpanBuilder,
        parent: &Context,
    ) -> Result<RecordingSpan, AllocError> {
        let span_context = child_of(self.trace_id, parent.span_context());
        Ok(RecordingSpan::new(alloc, span_context, builder.name))
    }
}
