//! Work in a span, with a child span.
ghost use Rattle.std.specs.Prelude.{◌≡◌, IfOk, IfSome};
ghost use Rattle.otel_examples.specs.InSpan.{HasChild, IsHandled};

use opentelemetry::context::{Context, ContextStack};
use opentelemetry::trace::{Span, SpanBody, Spans, StartError, Tracer};
use opentelemetry::{Key, KeyValue, StringValue, Value};
use std::alloc::Global;

/// Does nothing: the work of the child span would go here.
#[derive(Drop)]
pub struct Query;

impl<S> SpanBody<S> for Query {
    ghost use Rattle.std.specs.Prelude.{◌≡◌};

    type Out = ();

    ghost may_leave = { λ _ stack spans _ _ left left_spans.
        (left ≡ stack) × (left_spans ≡ spans) };

    fn call(self, _stack: &mut ContextStack, _spans: &mut Spans<S>, _context: Context) {}
}

/// Handles a request: sets the request's method on its span, and runs a query in a child span.
#[derive(Drop)]
pub struct Request<'a, T> {
    /// Starts the child span.
    pub tracer: &'a T,
    /// The allocator.
    pub alloc: Global,
}

impl<T: Tracer> SpanBody<T::Span> for Request<'_, T> {
    ghost use Rattle.std.specs.Prelude.{IfSome};
    ghost use Rattle.otel_examples.specs.InSpan.{HasChild};

    /// The number of the child span, or `None` if out of memory.
    type Out = Option<u64>;

    ghost may_leave = { λ _ _ spans context out _ left_spans.
        IfSome out (λ child. HasChild T.Span.after_attribute spans context child left_spans) };

    fn call(
        self,
        stack: &mut ContextStack,
        spans: &mut Spans<T::Span>,
        context: Context,
    ) -> Option<u64> {
        let method = KeyValue::new(
            Key::from_static_str("http.request.method"),
            Value::from("GET"),
        );
        if context
            .span(spans)
            .set_attribute(self.alloc, method)
            .is_err()
        {
            return None;
        }
        let name = StringValue::from("query");
        match self
            .tracer
            .in_span_with_context(self.alloc, stack, spans, name, &context, Query)
        {
            Ok((_, number)) => Some(number),
            Err(_) => None,
        }
    }
}

/// Handles a request in a span of its own, with a child span. Afterwards both spans are in the
/// table, and the request's span has the attribute.
///
/// # Errors
///
/// The errors of [`Tracer::in_span`]; the request isn't handled. If out of memory later, the
/// child's number is `None`.
pub fn handle<T: Tracer>(
    alloc: Global,
    tracer: &T,
    stack: &mut ContextStack,
    spans: &mut Spans<T::Span>,
) -> Result<(Option<u64>, u64), StartError<T::Span>>
    ensures { IfOk result (IsHandled T.Span.after_attribute spans.old spans.new) }
{
    let request = Request { tracer, alloc };
    tracer.in_span(alloc, stack, spans, StringValue::from("request"), request)
}
