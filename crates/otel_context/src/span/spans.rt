//! The table of spans, to which contexts refer by number.
ghost use Rattle.std.specs.Prelude.{◌≡◌, ◌+◌, ◌<◌, ◌↔◌, IsTrue, IsErr, OnOk, OnErr, IfOk, IfErr};
ghost use Rattle.std.specs.Prelude.{IfSome, None, Some, is_some};
ghost use Rattle.std.specs.Prelude.{option_copied, alloc_error};
ghost use Rattle.std.specs.Option.{option_copied_mut};
ghost use Rattle.std.specs.Borrow.{sem};
ghost use Rattle.std.specs.Vec.{vec_len, vec_capacity};
ghost use Rattle.otel_context.specs.SpanPlaces.{KeepsPlaces};
ghost use Rattle.otel_context.specs.SpanSlots.{BringsLast, IsSpanOf, LendsOwn, LendsSlot};

mod places;
mod with_span;

use places::{Place, drop_vacant, move_to, reserve_place, slot_of, vacate};
use std::alloc::{AllocError, Global};
use std::error::Error;
use std::fmt;
use std::marker::Model;

/// The reason why a table refused a span. Not in the Rust crate.
///
/// See [`SpanRefused`].
#[derive(Debug, Drop)]
pub enum SpanCause {
    /// Every number from 0 to 18446744073709551614 has been used or skipped.
    NumbersUsedUp,
    /// Out of memory.
    Memory(AllocError),
}

impl fmt::Display for SpanCause {
    ghost use Rattle.otel_context.specs.Spans.{cause_text};

    ghost output = { λ cause. Some (cause_text cause) };

    fn fmt<W: fmt::Write>(&self, f: &mut fmt::Formatter<W>) -> fmt::Result {
        f.write_str(match self {
            SpanCause::NumbersUsedUp => "no span number left",
            SpanCause::Memory(_) => "no memory",
        })
    }
}

impl Error for SpanCause {}

/// A refused span, and the reason. Not in the Rust crate.
///
/// See `otel_examples::api::service`, which returns the span to the caller.
#[derive(Drop)]
pub struct SpanRefused<S> {
    /// The span that was passed in.
    pub span: S,
    /// The reason for the refusal.
    pub cause: SpanCause,
}

/// Prints the reason.
impl<S> fmt::Display for SpanRefused<S> {
    ghost use Rattle.otel_context.specs.Spans.{cause_text};

    ghost output = { λ refused. Some (cause_text refused.cause) };

    fn fmt<W: fmt::Write>(&self, f: &mut fmt::Formatter<W>) -> fmt::Result {
        fmt::Display::fmt(&self.cause, f)
    }
}

/// Prints the reason without the span, whose type may not be `Debug`.
impl<S> fmt::Debug for SpanRefused<S> {
    fn fmt<W: fmt::Write>(&self, f: &mut fmt::Formatter<W>) -> fmt::Result {
        f.debug_struct("SpanRefused")
            .field("cause", &self.cause)
            .finish_non_exhaustive()
    }
}

impl<S: Drop> Error for SpanRefused<S> {}

impl<S> SpanRefused<S> {
    ghost use Rattle.otel_context.specs.declared.span.spans.SpanCause.TheVariants as Cause;

    // Returns the refusal by a table whose numbers are used up.
    pub(crate) fn numbers_used_up(span: S) -> SpanRefused<S>
        ensures { result ≡ record { span = span; cause = Cause.NumbersUsedUp } }
    {
        SpanRefused {
            span,
            cause: SpanCause::NumbersUsedUp,
        }
    }

    // Returns the refusal by a table that is out of memory.
    pub(crate) fn no_memory(span: S) -> SpanRefused<S>
        ensures { result ≡ record { span = span; cause = Cause.Memory alloc_error } }
    {
        SpanRefused {
            span,
            cause: SpanCause::Memory(AllocError),
        }
    }
}

// A span and its number. In this order, a slot is written in one copy.
#[derive(Drop)]
struct Slot<S> {
    span: S,
    number: u64,
}

impl<S> Slot<S> {
    // Returns a mutable reference to the span.
    fn span_mut(&mut self) -> Option<&mut S>
        ensures* writes_back { sem 𝓛 (LendsOwn S.row self.entry result) }
        ensures value { option_copied_mut result ≡ Some self.old.span }
    {
        Some(&mut self.span)
    }
}

/// The spans to which contexts refer by number. Not in the Rust crate, whose contexts share their
/// spans behind a lock.
///
/// Each inserted span gets the next number. No number is used twice, even after its span was taken.
/// Contracts see a finite map from numbers to spans, and the next number.
///
/// See `otel_examples::api::service`.
pub struct Spans<S> {
    // In any order, without gaps.
    slots: Vec<Slot<S>>,
    // Where each span is. The numbers rise, and are below `next`.
    places: Vec<Place>,
    next: u64,
}

// Written out, so that a caller's proof has one call here, and not the drops of all parts.
impl<S: Drop> Drop for Spans<S> {
    fn drop(self) {
        let Spans {
            slots: _,
            places: _,
            next: _,
        } = self;
    }
}

impl<S> Model for Spans<S> {
    ghost use Rattle.otel_context.specs.Spans.{SpansState};
    ghost use Rattle.otel_context.specs.View.{map_of, spans_of, spans_code, IsAscending};
    ghost use Rattle.otel_context.specs.View.{IsIndex};

    ghost Value = { SpansState S };

    ghost coded = { spans_code S.code };

    ghost view = { λ s. record { spans = spans_of s.slots.items; next_number = s.next } };

    ghost invariant = { λ s. IsAscending 0 s.places.items s.next
        × IsIndex s.slots.items (map_of s.places.items) };
}

impl<S: Drop> Spans<S> {
    ghost use Rattle.otel_context.specs.Spans.{starting_at, get, find, len, insert, take};
    ghost use Rattle.otel_context.specs.Spans.{IsNumbered, used_up, refusal};
    ghost use Rattle.otel_context.specs.SpansLent.{LendsSpan, LendsFound};

    /// Returns an empty table whose first number is 0. Doesn't allocate.
    pub fn new(alloc: Global) -> Spans<S>
        ensures { result ≡ starting_at 0 }
    {
        Spans::starting_at(alloc, 0)
    }

    /// Returns an empty table whose first number is `first`. Doesn't allocate.
    pub fn starting_at(alloc: Global, first: u64) -> Spans<S>
        ensures { result ≡ starting_at first }
    {
        Spans {
            slots: Vec::new(alloc),
            places: Vec::new(alloc),
            next: first,
        }
    }

    /// Inserts a span under the next number. Returns that number.
    ///
    /// Now and then, an insert, a `take` or a `discard` goes over the whole table. Otherwise, the
    /// other calls take at most the time of a binary search.
    ///
    /// # Errors
    ///
    /// `NumbersUsedUp` if the next number is 18446744073709551615, and otherwise `Memory` if out of
    /// memory. The table is unchanged. The error returns the span.
    // Inlined, since a call copies the span.
    #[inline(always)]
    pub fn insert(&mut self, span: S) -> Result<u64, SpanRefused<S>>
        ensures numbered { IsNumbered self.old }
        ensures number { IfOk result (λ number. number ≡ self.old.next_number) }
        ensures fresh { IfOk result (λ number. get self.old number ≡ None) }
        ensures inserted { OnOk result (self.new ≡ insert self.old span) }
        ensures unchanged { OnErr result (self.new ≡ self.old) }
        ensures used_up { self.old.next_number ≡ used_up → IsErr result }
        ensures refused { IfErr result (λ refused. refused ≡ refusal self.old span) }
    {
        let number = self.next;
        if number == u64::MAX {
            return Err(SpanRefused::numbers_used_up(span));
        }
        if make_room(&mut self.slots, &mut self.places).is_err() {
            return Err(SpanRefused::no_memory(span));
        }
        let slot = Some(self.slots.len());
        self.slots.push_reserved(Slot { span, number });
        self.places.push_reserved(Place { number, slot });
        self.next = number + 1;
        Ok(number)
    }

    /// Returns the span with the given number.
    pub fn get(&self, number: u64) -> Option<&S>
        ensures { option_copied result ≡ get self.now number }
    {
        let slot = slot_of(&self.places, number)?;
        Some(&self.slots[slot].span)
    }

    /// Returns a mutable reference to the span with the given number. Every other span is
    /// unchanged.
    pub fn get_mut(&mut self, number: u64) -> Option<&mut S>
        ensures* writes_back { sem 𝓛 (LendsSpan S.row self.entry number result) }
        ensures value { option_copied_mut result ≡ get self.old number }
    {
        span_mut(&mut self.slots, slot_of(&self.places, number))
    }

    /// Returns the span with the number of a context, if the context has a number.
    pub(crate) fn find(&self, number: Option<u64>) -> Option<&S>
        ensures { option_copied result ≡ find self.now number }
    {
        match number {
            Some(number) => self.get(number),
            None => None,
        }
    }

    /// Returns a mutable reference, as `find` does.
    pub(crate) fn find_mut(&mut self, number: Option<u64>) -> Option<&mut S>
        ensures* writes_back { sem 𝓛 (LendsFound S.row self.entry number result) }
        ensures value { option_copied_mut result ≡ find self.old number }
    {
        match number {
            Some(number) => self.get_mut(number),
            None => None,
        }
    }

    /// Removes the span with the given number, and returns it. The number isn't used again.
    ///
    /// If the table has room for many times its spans, it is shrunk first, or left as it is if out
    /// of memory.
    // Inlined, since a call copies the span.
    #[inline(always)]
    pub fn take(&mut self, number: u64) -> Option<S>
        ensures value { result ≡ get self.old number }
        ensures taken { self.new ≡ take self.old number }
    {
        // First, since the span is copied once more if anything is done after it is moved.
        self.tidy();
        let slot = vacate(&mut self.places, number)?;
        bring_last(&mut self.slots, &mut self.places, slot);
        Some(self.slots.pop()?.span)
    }

    /// Removes the span with the given number, and drops it. Returns `true` if there was one. The
    /// number isn't used again.
    ///
    /// Faster than `take`, which moves the span to the caller. Shrinks the table as `take` does.
    #[inline(always)]
    pub fn discard(&mut self, number: u64) -> bool
        ensures found { result ≡ is_some (get self.old number) }
        ensures taken { self.new ≡ take self.old number }
    {
        self.tidy();
        let slot = match vacate(&mut self.places, number) {
            Some(slot) => slot,
            None => return false,
        };
        bring_last(&mut self.slots, &mut self.places, slot);
        self.slots.pop().is_some()
    }

    // Shrinks the table if it has room for many times its spans.
    #[inline(always)]
    fn tidy(&mut self)
        ensures { self.new ≡ self.old }
    {
        if self.slots.capacity() / 8 > self.slots.len() + 8 {
            self.give_back();
        }
    }

    // Shrinks the table to about twice its spans.
    #[inline(never)]
    fn give_back(&mut self)
        ensures { self.new ≡ self.old }
    {
        drop_vacant(&mut self.places);
        self.places.shrink_to(2 * self.places.len());
        self.slots.shrink_to(2 * self.slots.len());
    }

    /// Returns the number of spans in the table.
    pub fn len(&self) -> usize
        ensures { result ≡ len self.now }
    {
        self.slots.len()
    }

    /// Returns `true` if the table has no spans.
    pub fn is_empty(&self) -> bool
        ensures { IsTrue result ↔ (len self.now ≡ 0) }
    {
        self.len() == 0
    }

    /// Returns the number of the next inserted span, or 18446744073709551615 once the numbers are
    /// used up. It is greater than every number in the table.
    pub fn next_number(&self) -> u64
        ensures numbered { IsNumbered self.now }
        ensures number { result ≡ self.now.next_number }
        ensures fresh { get self.now result ≡ None }
    {
        self.next
    }
}

// Makes room for one more slot, and its place.
#[inline(never)]
fn make_room<S>(slots: &mut Vec<Slot<S>>, places: &mut Vec<Place>) -> Result<(), AllocError>
    ensures same_slots { slots.new.items ≡ slots.old.items }
    ensures kept_places { KeepsPlaces places.old.items places.new.items }
    ensures slot { OnOk result (vec_len slots.new < vec_capacity slots.new) }
    ensures place { OnOk result (vec_len places.new < vec_capacity places.new) }
{
    slots.reserve(1)?;
    reserve_place(places, slots.len())
}

// Returns a mutable reference to the span of the slot, if there is one.
fn span_mut<S>(slots: &mut Vec<Slot<S>>, slot: Option<usize>) -> Option<&mut S>
    requires { IfSome slot (λ i. i < vec_len slots.old) }
    ensures* writes_back { sem 𝓛 (LendsSlot S.row slots.entry slot result) }
    ensures value { IsSpanOf slots.old.items slot (option_copied_mut result) }
{
    match slot {
        Some(slot) => slots[slot].span_mut(),
        None => None,
    }
}

// Moves the slot to the end, and the last one to where it was.
#[inline(always)]
fn bring_last<S>(slots: &mut Vec<Slot<S>>, places: &mut Vec<Place>, slot: usize)
    ensures { BringsLast slots.old.items places.old.items slot slots.new.items places.new.items }
{
    if slot < slots.len().saturating_sub(1) {
        swap_with_last(slots, places, slot);
    }
}

// Moves the slot to the end, and the last one to where it was.
#[inline(never)]
fn swap_with_last<S>(slots: &mut Vec<Slot<S>>, places: &mut Vec<Place>, slot: usize)
    requires { slot + 1 < vec_len slots.old }
    ensures { BringsLast slots.old.items places.old.items slot slots.new.items places.new.items }
{
    let last = slots.len() - 1;
    move_to(places, slots[last].number, slot);
    slots.swap(slot, last);
}
