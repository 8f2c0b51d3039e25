//! Spans and their parts: ids, trace states, span contexts, events, links and builders.
mod attributes;
mod event;
mod in_span;
mod link;
pub mod noop;
mod span_builder;
mod tracer;
mod tracer_provider;
mod tracing;

pub use event::Event;
pub use in_span::{CallClosure, Run, SpanBody, StartError};
pub use link::Link;
pub use otel_context::{
    Span, SpanCause, SpanKind, SpanRef, SpanRefused, Spans, Status, get_active_span,
    mark_span_as_active,
};
pub use otel_ids::{
    SpanContext, SpanId, TraceFlags, TraceId, TraceState, TraceStateError, TraceStateIter,
};
pub use span_builder::SpanBuilder;
pub use tracer::Tracer;
pub use tracer_provider::TracerProvider;
pub use tracing::{
    Attached, Entered, LocalTracing, NoopSource, NoopTracing, NotEntered, OpenSpan, SourceWork,
    SpanSource, TracerSource, Tracing,
};
