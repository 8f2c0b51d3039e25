//! A service between two others, which passes on the context in a request's headers.
ghost use Rattle.std.specs.Prelude.{◌≡◌, IfOk};
ghost use Rattle.otel_examples.specs.Service.{Forwards, Starts};

use opentelemetry::StringValue;
use opentelemetry::context::ContextStack;
use opentelemetry::propagation::{Extractor, Injector, PropagationError, TextMapPropagator};
use opentelemetry::trace::{SpanRefused, Spans, Tracer};
use std::alloc::{AllocError, Global};

/// The reason why a request wasn't forwarded.
#[derive(Drop)]
pub enum ForwardError<S> {
    /// The headers weren't read or set.
    Headers(PropagationError),
    /// Out of memory: no span was started.
    Start(AllocError),
    /// The table refused the span. The error returns it.
    Refused(SpanRefused<S>),
}

impl<S> From<PropagationError> for ForwardError<S> {
    fn from(error: PropagationError) -> ForwardError<S>
        ensures { result ≡ ForwardError.Headers error }
    {
        ForwardError::Headers(error)
    }
}

impl<S> From<AllocError> for ForwardError<S> {
    fn from(error: AllocError) -> ForwardError<S>
        ensures { result ≡ ForwardError.Start error }
    {
        ForwardError::Start(error)
    }
}

impl<S> From<SpanRefused<S>> for ForwardError<S> {
    fn from(refused: SpanRefused<S>) -> ForwardError<S>
        ensures { result ≡ ForwardError.Refused refused }
    {
        ForwardError::Refused(refused)
    }
}

/// Forwards a request: starts a span under the parent that the received headers name, and sets the
/// headers of the forwarded request. Returns the number of the span in the table.
///
/// # Errors
///
/// See [`ForwardError`]. After `Headers` the table may have the span, and a prefix of the headers
/// may be set. After the others the table and the headers to be sent are unchanged.
pub fn forward<T: Tracer, P: TextMapPropagator>(
    alloc: Global,
    tracer: &T,
    propagator: &P,
    stack: &ContextStack,
    spans: &mut Spans<T::Span>,
    received: &dyn Extractor,
    sent: &mut dyn Injector,
) -> Result<u64, ForwardError<T::Span>>
    ensures started { IfOk result (Starts P.TextMapPropagator propagator.now stack.now
        (texts received.now) (T.may_build tracer.now) spans.old spans.new) }
    ensures sent { IfOk result (Forwards P.TextMapPropagator propagator.now stack.now
        (texts received.now) T.Span.context_of spans.old spans.new (state sent.old)
        (state sent.new)) }
{
    let parent = propagator.extract(alloc, stack, received)?;
    let span = tracer.start_with_context(alloc, StringValue::from("forward"), &parent)?;
    let number = spans.next_number();
    let context = parent.with_span(alloc, spans, span)?;
    propagator.inject_context(&context, sent)?;
    Ok(number)
}
