//! A context in which a span is active that a table holds.
ghost use Rattle.std.specs.Prelude.{◌≡◌, ◌<◌, IfOk, IfErr, IsErr, OnOk, OnErr};
ghost use Rattle.std.specs.Vec.{vec_len, vec_capacity};
ghost use Rattle.otel_context.specs.Context.{with_span};
ghost use Rattle.otel_context.specs.Shared.{record_of};
ghost use Rattle.otel_context.specs.SpanPlaces.{KeepsPlaces};
ghost use Rattle.otel_context.specs.Spans.{IsNumbered, insert, used_up, refusal, starting_at};
ghost use Rattle.otel_context.specs.Spans.{cause_of};

use super::places::{Place, reserve_place};
use super::{Slot, SpanCause, SpanRefused, Spans};
use crate::context::{Context, Shared, of_shared};
use crate::span::Span;
use otel_ids::SpanContext;
use std::alloc::{AllocError, Global};

impl Context {
    /// Inserts the span into the table. Returns a context in which it is active.
    ///
    /// The context holds a copy of the span's span context, and the span's number in the table.
    ///
    /// # Errors
    ///
    /// `NumbersUsedUp` if the table's next number is 18446744073709551615, and otherwise `Memory`
    /// if out of memory. The context and the table are unchanged. The error returns the span.
    // Inlined, since a call copies the span.
    #[inline(always)]
    pub fn with_span<S: Span>(
        &self,
        alloc: Global,
        spans: &mut Spans<S>,
        span: S,
    ) -> Result<Context, SpanRefused<S>>
        ensures made { IfOk result (λ c.
            c ≡ with_span self.now (S.context_of span) spans.old.next_number) }
        ensures numbered { IsNumbered spans.old }
        ensures inserted { OnOk result (spans.new ≡ insert spans.old span) }
        ensures unchanged { OnErr result (spans.new ≡ spans.old) }
        ensures used_up { spans.old.next_number ≡ used_up → IsErr result }
        ensures refused { IfErr result (λ refused. refused ≡ refusal spans.old span) }
    {
        let number = spans.next;
        let context = span.span_context();
        let made = prepare(
            alloc,
            &mut spans.slots,
            &mut spans.places,
            number,
            self,
            context,
        );
        let shared = match made {
            Ok(shared) => shared,
            Err(cause) => return Err(SpanRefused { span, cause }),
        };
        let slot = Some(spans.slots.len());
        spans.slots.push_reserved(Slot { span, number });
        spans.places.push_reserved(Place { number, slot });
        spans.next = number + 1;
        Ok(of_shared(shared))
    }
}

// Makes room for one more slot, and its place. Returns what the clones of a context share whose
// active span has this span context, and this number.
// Not inlined: everything that can fail is here, so the code that moves the span stays short.
#[inline(never)]
fn prepare<S>(
    alloc: Global,
    slots: &mut Vec<Slot<S>>,
    places: &mut Vec<Place>,
    number: u64,
    context: &Context,
    span_context: &SpanContext,
) -> Result<Shared, SpanCause>
    ensures same_slots { slots.new.items ≡ slots.old.items }
    ensures kept_places { KeepsPlaces places.old.items places.new.items }
    ensures slot { OnOk result (vec_len slots.new < vec_capacity slots.new) }
    ensures place { OnOk result (vec_len places.new < vec_capacity places.new) }
    ensures unused { OnOk result (number < used_up) }
    ensures made { IfOk result (λ s.
        record_of s ≡ with_span context.now span_context.now number) }
    ensures refused { IfErr result (λ cause. cause ≡ cause_of (starting_at {S = S} number)) }
{
    if number == u64::MAX {
        return Err(SpanCause::NumbersUsedUp);
    }
    if slots.reserve(1).is_err() || reserve_place(places, slots.len()).is_err() {
        return Err(SpanCause::Memory(AllocError));
    }
    let shared = match context.shared_with_span(alloc, span_context, number) {
        Ok(shared) => shared,
        Err(error) => return Err(SpanCause::Memory(error)),
    };
    Ok(shared)
}
