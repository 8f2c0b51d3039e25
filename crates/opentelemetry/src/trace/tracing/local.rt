//! The value that traces on one thread.
ghost use Rattle.std.specs.Prelude.{◌≡◌, ◌≢◌, ◌<◌, [], false, true, length, map, reverse};
ghost use Rattle.std.specs.Prelude.{slice_get, IfErr, IfOk, IsErrOf, IsOk, IsPermutation, None};
ghost use Rattle.std.specs.Prelude.{OnErr, OnOk, Some};
ghost use Rattle.otel_context.specs.SpanEffects.{attributes_of, message};
ghost use Rattle.otel_context.specs.Spans as table;
ghost use Rattle.otel_context.specs.Stack as stack;
ghost use Rattle.opentelemetry.specs.OpenSpans.{Builds, IsSound};
ghost use Rattle.opentelemetry.specs.SpanChange.{change_of};
ghost use Rattle.opentelemetry.specs.Tracing as spec;
ghost use Rattle.opentelemetry.specs.Tracing.{EndsNewest, EndsOne, EndsTogether};
ghost use Rattle.opentelemetry.specs.Tracing.{EntersSpan, RecordsFailure, RecordsIn, Refuses};
ghost use Rattle.opentelemetry.specs.Tracing.{StartsAlone};
ghost use Rattle.opentelemetry.specs.declared.trace.tracing.NotEntered.TheVariants.{NumbersUsedUp};
ghost use Rattle.opentelemetry.specs.declared.trace.tracing.NotEntered.TheVariants.{PositionsUsedUp};
ghost use Rattle.opentelemetry.specs.declared.trace.tracing.open_spans.OpenSpan.{OpenSpan};
ghost use Rattle.opentelemetry.specs.View.{builder_of};

use super::change::SpanChange;
use super::open_spans::{OpenSpan, OpenSpans};
use super::source::{NoopSource, SourceWork, SpanSource};
use super::{Attached, Entered, NotEntered, Tracing};
use crate::trace::span_builder::SpanBuilder;
use otel_base::{Key, KeyValue, StringValue, Value};
use otel_context::{Context, ContextStack, Status};
use otel_ids::SpanContext;
use std::alloc::{AllocError, Global};
use std::fmt::Display;
use std::marker::Model;

/// The last position of an attachment.
const LAST_POSITION: u16 = 65534;

/// Traces on one thread, over any source of spans: it holds the contexts that are attached and the
/// spans that are open. Not in the Rust crate.
///
/// ```
/// let source = TracerSource::new(tracer, clock);
/// let mut tracing = LocalTracing::new(alloc, source)?;
/// let serve = tracing.enter("serve")?;
/// ```
pub struct LocalTracing<B: SpanSource> {
    alloc: Global,
    stack: ContextStack,
    spans: OpenSpans<B>,
    unrecorded: u64,
}

/// What runs if an application configures nothing: no span starts, and contexts are attached,
/// received and sent as ever, so a caller's headers are carried on.
pub type NoopTracing = LocalTracing<NoopSource>;

// Written out, so that a caller's proof has one call here, and not the drops of all parts.
impl<B: SpanSource> Drop for LocalTracing<B> {
    fn drop(self) {
        let LocalTracing {
            alloc: _,
            stack: _,
            spans: _,
            unrecorded: _,
        } = self;
    }
}

impl<B: SpanSource> Model for LocalTracing<B> {
    ghost use Rattle.std.specs.Coded.{codes};
    ghost use Rattle.otel_context.specs.View.{context_code, spans_code};
    ghost use Rattle.opentelemetry.specs.Tracing.{TracingState};

    ghost Value = { TracingState B B.Span };

    ghost coded = { Prim.hlevel (codes, context_code, spans_code B.Span.code) };

    ghost view = { λ t. record {
      source = t.spans.source;
      contexts = t.stack.live;
      spans = t.spans.spans;
      places = t.spans.places;
      unrecorded = t.unrecorded;
    } };
}

/// Returns the builder, whose span starts at the timestamp unless the builder has a start time.
fn starting_at(now: u64, builder: SpanBuilder) -> SpanBuilder
    ensures { builder_of result ≡ spec.starting_at now (builder_of builder) }
{
    let start = builder.start_time.unwrap_or(now);
    builder.with_start_time(start)
}

/// Returns the attributes of the event `exception`: `exception.message`, with the string.
///
/// # Errors
///
/// `AllocError` if out of memory. The string is dropped.
fn exception(alloc: Global, text: StringValue) -> Result<Vec<KeyValue>, AllocError>
    ensures { IfOk result (λ attributes. attributes_of attributes ≡ message text) }
{
    let key = Key::from_static_str("exception.message");
    let mut attributes = Vec::new(alloc);
    attributes.push(KeyValue::new(key, Value::from(text)))?;
    Ok(attributes)
}

/// Builds a span under the parent, and puts it into the table. Returns its number, and the parent's
/// context with the span active.
fn build<B: SpanSource>(
    spans: &mut OpenSpans<B>,
    alloc: Global,
    builder: SpanBuilder,
    parent: &Context,
) -> Result<(u64, Context), NotEntered>
    ensures number { IfOk result (λ made. made.0 ≡ spans.old.spans.next_number) }
    ensures built { IfOk result (λ made. Builds B.calls B.Span.context_of
        (builder_of builder) parent.now made.1 spans.old spans.new) }
    ensures fresh { IfOk result (λ made. table.IsNumbered spans.old.spans) }
    ensures same { OnErr result (spans.new ≡ spans.old) }
    ensures numbers { IfErr result (λ error. error ≡ NumbersUsedUp
        → spans.old.spans.next_number ≡ table.used_up) }
    ensures positions { IfErr result (λ error. error ≢ PositionsUsedUp) }
{
    let now = spans.source().now();
    let builder = starting_at(now, builder);
    let span = spans.source().build(alloc, builder, parent)?;
    let number = spans.next_number();
    let context = spans.insert(alloc, parent, span)?;
    Ok((number, context))
}

impl<B: SpanSource> LocalTracing<B> {
    /// Returns the value, with nothing attached and no span open.
    ///
    /// # Errors
    ///
    /// `AllocError` if out of memory. The source is dropped.
    pub fn new(alloc: Global, source: B) -> Result<LocalTracing<B>, AllocError>
        requires { IsPermutation (map B.calls.ids_of (B.calls.taken source))
            (map B.calls.ids_of (B.calls.begun source)) }
        ensures { IfOk result (λ tracing. tracing ≡ spec.at_start source) }
    {
        Ok(LocalTracing {
            alloc,
            stack: ContextStack::new(alloc)?,
            spans: OpenSpans::new(alloc, source),
            unrecorded: 0,
        })
    }

    /// Returns the source.
    pub fn source(&self) -> &B
        ensures { result.now ≡ self.now.source }
    {
        self.spans.source()
    }

    /// States that every span that began is open or was taken, once, with the ids with which it
    /// began. Does nothing at run time.
    pub fn is_sound(&self)
        ensures { IsSound B.calls self.now.source self.now.spans self.now.places }
    {
        self.spans.is_sound();
    }

    /// Does the work on the source, between the calls of its spans.
    pub fn upkeep<W: SourceWork<B>>(&mut self, work: W) -> W::Out
        ensures does { W.may_leave work self.old.source result self.new.source }
        ensures same { self.new ≡ record self.old { source = self.new.source } }
    {
        self.spans.upkeep(work)
    }

    /// Ends each open span, the newest first, at the clock's timestamp. Returns their number.
    pub fn end_all(&mut self) -> usize
        ensures count { result ≡ length self.old.places }
        ensures ends { EndsTogether B.calls B.Span.after_end self.old.places self.old self.new }
        ensures none_open { self.new.places ≡ [] }
    {
        self.is_sound();
        let count = self.spans.len();
        let now = self.spans.source().now();
        while self.spans.len() > 0 {
            self.end_newest(now);
        }
        count
    }

    /// Starts a span from the builder under the current context, and makes it the current one.
    fn enter_span(&mut self, builder: SpanBuilder) -> Result<Entered, NotEntered>
        ensures entered { IfOk result (EntersSpan B.calls B.Span.context_of (builder_of builder)
            self.old self.new) }
        ensures refused { Refuses B.calls result self.old self.new }
        ensures full { stack.newest_position self.old.contexts ≡ stack.last_position
            → IsErrOf result PositionsUsedUp }
        ensures used_up { stack.newest_position self.old.contexts ≢ stack.last_position
            → self.old.spans.next_number ≡ table.used_up → IsErrOf result NumbersUsedUp }
    {
        if self.stack.newest_position() == LAST_POSITION {
            return Err(NotEntered::PositionsUsedUp);
        }
        if self.spans.are_numbers_used_up() {
            return Err(NotEntered::NumbersUsedUp);
        }
        self.spans.reserve()?;
        let parent = self.stack.current().clone()?;
        let within = self.spans.number_of(&parent);
        let (number, context) = build(&mut self.spans, self.alloc, builder, &parent)?;
        let position = match self.stack.push(context) {
            Ok(position) => position,
            Err(error) => {
                self.spans.remove(number);
                return Err(NotEntered::Memory(error));
            }
        };
        let place = OpenSpan {
            number,
            within,
            position: Some(position),
        };
        self.spans.begin(self.alloc, &parent, place);
        Ok(Entered { number })
    }

    /// Starts a span from the builder under the parent context, and makes it no current one.
    fn start_alone(&mut self, parent: &Context, builder: SpanBuilder) -> Result<Context, NotEntered>
        ensures started { IfOk result (StartsAlone B.calls B.Span.context_of (builder_of builder)
            parent.now self.old self.new) }
        ensures refused { Refuses B.calls result self.old self.new }
        ensures positions { IfErr result (λ error. error ≢ PositionsUsedUp) }
        ensures used_up { self.old.spans.next_number ≡ table.used_up
            → IsErrOf result NumbersUsedUp }
    {
        if self.spans.are_numbers_used_up() {
            return Err(NotEntered::NumbersUsedUp);
        }
        self.spans.reserve()?;
        let (number, context) = build(&mut self.spans, self.alloc, builder, parent)?;
        let place = OpenSpan {
            number,
            within: None,
            position: None,
        };
        self.spans.begin(self.alloc, parent, place);
        Ok(context)
    }

    /// Ends the newest open span, and detaches it.
    fn end_newest(&mut self, timestamp: u64)
        requires { 0 < length self.old.places }
        ensures { EndsNewest B.calls B.Span.after_end timestamp self.old.places
            self.old self.new }
    {
        let newest = self.spans.len() - 1;
        self.end_at(newest, timestamp);
    }

    /// Ends the open span at the index, the oldest first, and detaches it.
    fn end_at(&mut self, index: usize, timestamp: u64)
        requires { index < length self.old.places }
        ensures { (place : OpenSpan) × (slice_get (reverse self.old.places) index ≡ Some place)
            × EndsOne B.calls B.Span.after_end timestamp place self.old self.new }
    {
        let place = self.spans.place(index);
        if let Some(position) = place.position {
            drop(self.stack.pop_id(position));
        }
        self.spans.end_at(index, timestamp);
    }

    /// Ends the open span, and before it each one inside it, the newest first, and detaches them.
    fn end_inside(&mut self, outer: u64)
        requires { spec.is_open outer self.old.places ≡ true }
        ensures { EndsTogether B.calls B.Span.after_end (spec.ending outer self.old.places)
            self.old self.new }
    {
        self.is_sound();
        let timestamp = self.spans.source().now();
        let mut index = self.spans.len();
        while index > 0 {
            index -= 1;
            let number = self.spans.place(index).number;
            if self.spans.is_inside(outer, index) {
                self.end_at(index, timestamp);
            }
            if number == outer {
                return;
            }
        }
    }

    /// Changes the current span if it records.
    fn change(&mut self, change: SpanChange) -> Result<(), AllocError>
        ensures ok { OnOk result (self.new ≡ spec.with_changed
            (change_of B.Span.after_event B.Span.after_attribute B.Span.after_link
            B.Span.after_status B.Span.after_name change)
            (spec.current_recording B.Span.context_of B.Span.records self.old) self.old) }
        ensures err { OnErr result (self.new ≡ self.old) }
        ensures idle { spec.current_recording B.Span.context_of B.Span.records self.old ≡ None
            → IsOk result }
    {
        match self.current_recording() {
            Some(number) => self.spans.change(self.alloc, number, change),
            None => {
                drop(change);
                Ok(())
            }
        }
    }

    /// Returns the number of the current span if that is an open one and records.
    fn current_recording(&self) -> Option<u64>
        ensures { result
            ≡ spec.current_recording B.Span.context_of B.Span.records self.now }
    {
        self.spans
            .recording(self.spans.number_of(self.stack.current()))
    }

    /// Adds the error's event to the span with the number, and sets its status.
    fn record_failure<X: Display>(&mut self, number: u64, error: &X) -> Result<(), AllocError>
        ensures ok { OnOk result (RecordsFailure B.calls B.Span.after_event B.Span.after_status
            (X.output error.now) number self.old self.new) }
        ensures err { OnErr result (self.new ≡ self.old) }
    {
        let now = self.spans.source().now();
        let text = StringValue::from(error.to_string(self.alloc)?);
        let status = Status::error(text.clone()?);
        let attributes = exception(self.alloc, text)?;
        self.spans.change(
            self.alloc,
            number,
            SpanChange::Fail(now, attributes, status),
        )
    }

    /// Adds the error's event to the span with the number.
    fn record_event<X: Display>(&mut self, number: u64, error: &X) -> Result<(), AllocError>
        ensures { RecordsIn B.calls B.Span.after_event (X.output error.now) (Some number) result
            self.old self.new }
    {
        let now = self.spans.source().now();
        let text = StringValue::from(error.to_string(self.alloc)?);
        let attributes = exception(self.alloc, text)?;
        let event = SpanChange::AddEvent(StringValue::from("exception"), now, attributes);
        self.spans.change(self.alloc, number, event)
    }
}

impl<B: SpanSource> Tracing for LocalTracing<B> {
    type Source = B;

    ghost held = { λ t. t };

    fn alloc(&self) -> Global {
        self.alloc
    }

    fn is_disabled(&self) -> bool {
        self.spans.source().is_disabled()
    }

    fn context(&self) -> &Context {
        self.stack.current()
    }

    fn open_spans(&self) -> usize {
        self.spans.len()
    }

    fn unrecorded(&self) -> u64 {
        self.unrecorded
    }

    fn enter_with(&mut self, builder: SpanBuilder) -> Result<Entered, NotEntered> {
        if self.spans.source().is_disabled() {
            return Ok(Entered { number: u64::MAX });
        }
        self.enter_span(builder)
    }

    fn exit(&mut self, entered: Entered) {
        if self.spans.is_open(entered.number) {
            self.end_inside(entered.number);
        }
    }

    fn start_under(
        &mut self,
        parent: &Context,
        builder: SpanBuilder,
    ) -> Result<Context, NotEntered> {
        if self.spans.source().is_disabled() {
            return Ok(parent.clone()?);
        }
        self.start_alone(parent, builder)
    }

    fn end(&mut self, context: &Context) {
        if let Some(number) = self.spans.number_of(context) {
            self.exit(Entered { number });
        }
    }

    fn set_attribute(&mut self, attribute: KeyValue) -> Result<(), AllocError> {
        self.change(SpanChange::SetAttribute(attribute))
    }

    fn add_event(
        &mut self,
        name: StringValue,
        attributes: Vec<KeyValue>,
    ) -> Result<(), AllocError> {
        let Some(number) = self.current_recording() else {
            return Ok(());
        };
        let now = self.spans.source().now();
        let event = SpanChange::AddEvent(name, now, attributes);
        self.spans.change(self.alloc, number, event)
    }

    fn add_link(
        &mut self,
        span_context: SpanContext,
        attributes: Vec<KeyValue>,
    ) -> Result<(), AllocError> {
        self.change(SpanChange::AddLink(span_context, attributes))
    }

    fn set_status(&mut self, status: Status) -> Result<(), AllocError> {
        self.change(SpanChange::SetStatus(status))
    }

    fn update_name(&mut self, name: StringValue) -> Result<(), AllocError> {
        self.change(SpanChange::UpdateName(name))
    }

    fn record_error<X: Display>(&mut self, error: &X) -> Result<(), AllocError> {
        match self.current_recording() {
            Some(number) => self.record_event(number, error),
            None => Ok(()),
        }
    }

    fn fail<X: Display>(&mut self, entered: Entered, error: &X) {
        if let Some(number) = self.spans.recording(Some(entered.number))
            && self.record_failure(number, error).is_err()
        {
            self.count_unrecorded();
        }
    }

    fn count_unrecorded(&mut self) {
        self.unrecorded = self.unrecorded.saturating_add(1);
    }

    fn attach(&mut self, context: Context) -> Result<Attached, AllocError> {
        let position = self.stack.push(context)?;
        Ok(Attached { position })
    }

    fn detach(&mut self, attached: Attached) {
        drop(self.stack.pop_id(attached.position));
    }
}
