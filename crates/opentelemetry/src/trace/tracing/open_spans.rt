//! The open spans, and their places.
ghost use Rattle.std.specs.Prelude.{◌≡◌, ◌<◌, ◌↔◌, [], false, length, reverse, slice_get, IfOk};
ghost use Rattle.std.specs.Prelude.{IfErr, IsPermutation, IsTrue, None, OnErr, OnOk, Some, map};
ghost use Rattle.otel_context.specs.Context.{with_span};
ghost use Rattle.otel_context.specs.SpanCalls.{after_effect};
ghost use Rattle.otel_context.specs.Spans as table;
ghost use Rattle.opentelemetry.specs.InSpan.{Holds};
ghost use Rattle.opentelemetry.specs.OpenSpans.{Begins, EndsAt, IsSound};
ghost use Rattle.opentelemetry.specs.SpanChange.{change_of};
ghost use Rattle.opentelemetry.specs.Tracing as spec;
ghost use Rattle.opentelemetry.specs.Tracing.{FallBelow};

use super::change::{SpanChange, change_in};
use super::source::{SourceWork, SpanSource};
use otel_context::{Context, Span, SpanCause, Spans};
use std::alloc::{AllocError, Global};
use std::marker::Model;

/// The place of an open span among the others. Not in the Rust crate.
#[derive(Clone, Copy, Debug, PartialEq, Eq)]
pub struct OpenSpan {
    /// The number of the span.
    pub number: u64,
    /// The number of the open span inside which it was entered, if there is one.
    pub within: Option<u64>,
    /// The position of its context, or `None` if the span was started and not entered.
    pub position: Option<u16>,
}

/// Returns `true` if the span `outer` is the span `number`, or one inside which that was entered.
pub(super) fn is_inside(outer: u64, places: &[OpenSpan], number: u64) -> bool
    ensures { result ≡ spec.is_inside outer (reverse places.now) number }
{
    let mut wanted = number;
    let mut index = places.len();
    while index > 0 {
        index -= 1;
        let place = places[index];
        if place.number == wanted {
            if wanted == outer {
                return true;
            }
            match place.within {
                Some(within) => wanted = within,
                None => return false,
            }
        }
    }
    false
}

/// Returns the number of the context's span if that is an open one.
fn number_of<S: Span>(spans: &Spans<S>, context: &Context) -> Option<u64>
    ensures { result ≡ spec.number_of S.context_of spans.now context.now }
{
    let number = context.span_number()?;
    let own = spans.get(number)?.span_context();
    let other = context.span_context();
    let is_own = own.trace_id() == other.trace_id() && own.span_id() == other.span_id();
    is_own.then_some(number)
}

/// The open spans of a [`LocalTracing`](super::LocalTracing), and their source. Each span that
/// began is open or was taken, once.
pub(super) struct OpenSpans<B: SpanSource> {
    source: B,
    spans: Spans<B::Span>,
    // The oldest first: the numbers rise.
    places: Vec<OpenSpan>,
}

// Written out, so that a caller's proof has one call here, and not the drops of all parts.
impl<B: SpanSource> Drop for OpenSpans<B> {
    fn drop(self) {
        let OpenSpans {
            source: _,
            spans: _,
            places: _,
        } = self;
    }
}

impl<B: SpanSource> Model for OpenSpans<B> {
    ghost use Rattle.std.specs.Prelude.{reverse};
    ghost use Rattle.std.specs.Vec.{vec_capacity};
    ghost use Rattle.std.specs.Coded.{codes};
    ghost use Rattle.otel_context.specs.View.{spans_code};
    ghost use Rattle.opentelemetry.specs.OpenSpans.{OpenState, IsSound};

    ghost Value = { OpenState B B.Span };

    ghost coded = { Prim.hlevel (codes, spans_code B.Span.code) };

    ghost view = { λ t. record {
      source = t.source;
      spans = t.spans;
      places = reverse t.places.items;
      capacity = vec_capacity t.places;
    } };

    ghost invariant = { λ t. IsSound B.calls t.source t.spans (reverse t.places.items) };
}

impl<B: SpanSource> OpenSpans<B> {
    /// Returns the source without open spans. Doesn't allocate.
    pub fn new(alloc: Global, source: B) -> OpenSpans<B>
        requires { IsPermutation (map B.calls.ids_of (B.calls.taken source))
            (map B.calls.ids_of (B.calls.begun source)) }
        ensures source { result.source ≡ source }
        ensures spans { result.spans ≡ table.starting_at 0 }
        ensures places { result.places ≡ [] }
    {
        OpenSpans {
            source,
            spans: Spans::new(alloc),
            places: Vec::new(alloc),
        }
    }

    /// Returns the source.
    pub fn source(&self) -> &B
        ensures { result.now ≡ self.now.source }
    {
        &self.source
    }

    /// States that every span that began is open or was taken, once.
    pub fn is_sound(&self)
        ensures { IsSound B.calls self.now.source self.now.spans self.now.places }
    {
        let _ = &self.spans;
    }

    /// Does the work on the source.
    pub fn upkeep<W: SourceWork<B>>(&mut self, work: W) -> W::Out
        ensures does { W.may_leave work self.old.source result self.new.source }
        ensures same { self.new ≡ record self.old { source = self.new.source } }
    {
        work.call(&mut self.source)
    }

    /// Returns the number of open spans.
    pub fn len(&self) -> usize
        ensures { result ≡ length self.now.places }
    {
        self.places.len()
    }

    /// Returns the place of the open span at the index, the oldest first.
    pub fn place(&self, index: usize) -> OpenSpan
        requires { index < length self.now.places }
        ensures { slice_get (reverse self.now.places) index ≡ Some result }
    {
        self.places[index]
    }

    /// Returns `true` if the span at the index is the span `outer`, or was entered inside it.
    pub fn is_inside(&self, outer: u64, index: usize) -> bool
        requires { index < length self.now.places }
        ensures { result ≡ spec.is_inside_at outer index self.now.places }
    {
        is_inside(outer, &self.places[..=index], self.place(index).number)
    }

    /// Returns the number of the next span.
    pub fn next_number(&self) -> u64
        ensures number { result ≡ self.now.spans.next_number }
        ensures fresh { spec.is_open result self.now.places ≡ false }
    {
        self.spans.next_number()
    }

    /// Returns `true` if the span with the number is open.
    pub fn is_open(&self, number: u64) -> bool
        ensures { result ≡ spec.is_open number self.now.places }
    {
        self.places.iter().rev().any(|place| place.number == number)
    }

    /// Returns `true` if every span number was given out.
    pub fn are_numbers_used_up(&self) -> bool
        ensures { IsTrue result ↔ (self.now.spans.next_number ≡ table.used_up) }
    {
        self.spans.next_number() == u64::MAX
    }

    /// Returns the number of the context's span if that is an open one.
    pub fn number_of(&self, context: &Context) -> Option<u64>
        ensures { result ≡ spec.number_of B.Span.context_of self.now.spans context.now }
    {
        number_of(&self.spans, context)
    }

    /// Returns the number if its span records.
    pub fn recording(&self, number: Option<u64>) -> Option<u64>
        ensures { result ≡ spec.recording B.Span.records self.now.spans number }
    {
        let number = number?;
        self.spans.get(number)?.is_recording().then_some(number)
    }

    /// Reserves memory for one more open span, here and in the source.
    ///
    /// # Errors
    ///
    /// `AllocError` if out of memory. The spans are unchanged.
    pub fn reserve(&mut self) -> Result<(), AllocError>
        ensures same { self.new ≡ record self.old { capacity = self.new.capacity } }
        ensures ok { OnOk result (length self.new.places < self.new.capacity) }
        ensures below { FallBelow self.new.spans.next_number self.new.places }
    {
        self.places.reserve(1)?;
        self.source.reserve(self.places.len().saturating_add(1))
    }

    /// Puts the span, which hasn't begun, into the table under the next number. Returns the
    /// parent's context with the span active.
    ///
    /// # Errors
    ///
    /// Returns why the table refused it. Nothing changes, and the span is dropped.
    pub fn insert(
        &mut self,
        alloc: Global,
        parent: &Context,
        span: B::Span,
    ) -> Result<Context, SpanCause>
        ensures made { IfOk result (λ context. context ≡ with_span parent.now
            (B.Span.context_of span) self.old.spans.next_number) }
        ensures ok { OnOk result (self.new
            ≡ record self.old { spans = table.insert self.old.spans span }) }
        ensures fresh { table.IsNumbered self.old.spans }
        ensures err { OnErr result (self.new ≡ self.old) }
        ensures refused { IfErr result (λ cause. cause ≡ table.cause_of self.old.spans) }
    {
        match parent.with_span(alloc, &mut self.spans, span) {
            Ok(context) => Ok(context),
            Err(refused) => Err(refused.cause),
        }
    }

    /// Takes the span out that hasn't begun.
    pub fn remove(&mut self, number: u64)
        requires { spec.is_open number self.old.places ≡ false }
        ensures { self.new ≡ record self.old { spans = table.take self.old.spans number } }
    {
        self.spans.discard(number);
    }

    /// Tells the source that the span begins under the parent: it is open from now on.
    pub fn begin(&mut self, alloc: Global, parent: &Context, place: OpenSpan)
        requires room { length self.old.places < self.old.capacity }
        requires newest { FallBelow place.number self.old.places }
        requires given { place.number < self.old.spans.next_number }
        requires held { Holds self.old.spans place.number }
        ensures { Begins B.calls parent.now place self.old self.new }
    {
        match self.spans.get_mut(place.number) {
            Some(span) => self.source.begin(alloc, span, parent),
            None => unreachable!(),
        }
        self.places.push_reserved(place);
    }

    /// Ends the open span at the index, the oldest first, and hands it to the source.
    pub fn end_at(&mut self, index: usize, timestamp: u64)
        requires { index < length self.old.places }
        ensures { EndsAt B.calls B.Span.after_end timestamp index self.old self.new }
    {
        let place = self.places.remove(index);
        match self.spans.take(place.number) {
            Some(mut span) => {
                span.end_with_timestamp(timestamp);
                self.source.take(span);
            }
            None => unreachable!(),
        }
    }

    /// Changes the span with the number.
    ///
    /// # Errors
    ///
    /// `AllocError` if out of memory. Nothing changes.
    pub fn change(
        &mut self,
        alloc: Global,
        number: u64,
        change: SpanChange,
    ) -> Result<(), AllocError>
        ensures ok { OnOk result (self.new ≡ record self.old {
          spans = after_effect (change_of B.Span.after_event B.Span.after_attribute
              B.Span.after_link B.Span.after_status B.Span.after_name change)
              self.old.spans (Some number);
        }) }
        ensures err { OnErr result (self.new ≡ self.old) }
    {
        change_in(alloc, &mut self.spans, number, change)
    }
}
