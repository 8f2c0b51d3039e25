//! A call on the span of the current context.
ghost use Rattle.std.specs.Prelude.{◌≡◌};
ghost use Rattle.otel_context.specs.Context.{span_number};
ghost use Rattle.otel_context.specs.SpanCalls.{OthersStay, after_effect};
ghost use Rattle.otel_context.specs.Stack.{current};

use opentelemetry::context::ContextStack;
use opentelemetry::trace::{Span, Spans, get_active_span};

/// Ends the span of the current context, if the table has it. Other spans are unchanged.
pub fn end_active<S: Span>(stack: &ContextStack, spans: &mut Spans<S>, now: u64)
    ensures ended { let number = span_number (current stack.now.live) in
        spans.new ≡ after_effect (λ span. S.after_end span now) spans.old number }
    ensures others { OthersStay (span_number (current stack.now.live)) spans.old spans.new }
{
    get_active_span(stack, spans, |span| span.end(now));
}
