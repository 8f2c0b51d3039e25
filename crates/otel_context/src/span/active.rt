//! The span of the current context.
ghost use Rattle.std.specs.Prelude.{◌≡◌, IfOk, IfErr, IsErr, OnOk, OnErr};
ghost use Rattle.otel_context.specs.Active.{AttachesAt, CallsOnce, KeepsReference};
ghost use Rattle.otel_context.specs.Context.{with_span};
ghost use Rattle.otel_context.specs.Spans.{IsNumbered, insert, used_up, refusal, HasSameSpans};
ghost use Rattle.otel_context.specs.Stack.{current};

use super::{Span, SpanRef, SpanRefused, Spans};
use crate::stack::{ContextGuard, ContextStack};

/// Inserts a span into the table and attaches the current context with that span active. Returns
/// the guard of the position and the number of the span.
///
/// If the newest position is 65534, the span is still inserted, but nothing is attached, and
/// `is_attached` of the guard is `false`. Spend the guard like one of [`ContextStack::attach`].
///
/// # Errors
///
/// `NumbersUsedUp` if the table's next number is 18446744073709551615, and otherwise `Memory` if
/// out of memory. The error returns the span, the stack is unchanged, and the table holds the same
/// spans. After `NumbersUsedUp`, the table is unchanged. After `Memory`, its next number may be one
/// higher.
pub fn mark_span_as_active<S: Span>(
    stack: &mut ContextStack,
    spans: &mut Spans<S>,
    span: S,
) -> Result<(ContextGuard, u64), SpanRefused<S>>
    ensures attached { IfOk result (λ active. AttachesAt active.0
        (with_span (current stack.old.live) (S.context_of span) spans.old.next_number)
        stack.old stack.new) }
    ensures number { IfOk result (λ active. active.1 ≡ spans.old.next_number) }
    ensures numbered { IsNumbered spans.old }
    ensures inserted { OnOk result (spans.new ≡ insert spans.old span) }
    ensures unattached { OnErr result (stack.new ≡ stack.old) }
    ensures same_spans { OnErr result (HasSameSpans spans.old spans.new) }
    ensures used_up { spans.old.next_number ≡ used_up
        → IsErr result × (spans.new ≡ spans.old) }
    ensures refused { IfErr result (λ refused. refused ≡ refusal spans.old span) }
{
    let number = spans.next_number();
    // The span goes in first and comes out if the attach fails: an undone attach would count as
    // accepted.
    let context = match stack.current_with_span(spans, span) {
        Ok(context) => context,
        Err(refused) => return Err(refused),
    };
    let guard = match stack.attach(context) {
        Ok(guard) => guard,
        Err(_) => match spans.take(number) {
            Some(span) => return Err(SpanRefused::no_memory(span)),
            None => unreachable!(),
        },
    };
    Ok((guard, number))
}

/// Calls `f` once with a reference to the current context's span, and returns its result.
///
/// The calls of [`SpanRef`] say how `f` changes the span. No other span of the table changes.
///
/// `f` must not replace the reference with another one, since then nothing would be known of the
/// table that was lent. The prover sees that `f` keeps it if `f` is a closure whose body only calls
/// methods of the reference:
///
/// ```
/// get_active_span(&stack, &mut spans, |span| span.end(NOW));
/// ```
pub fn get_active_span<T, S: Span, F: FnOnce(&mut SpanRef<'_, S>) -> T>(
    stack: &ContextStack,
    spans: &mut Spans<S>,
    f: F,
) -> T
    requires callable { F.IsAlwaysCallable f }
    requires keeps { KeepsReference F.FnOnce f }
    ensures { CallsOnce F.FnOnce f (current stack.now.live) spans.old result spans.new }
{
    let mut active = stack.current().span(spans);
    f(&mut active)
}
