//! The trait by which code traces.
ghost use Rattle.std.specs.Prelude.{◌≡◌, length, IfOk, IsOk, IsTrue, None, OnErr, OnOk};
ghost use Rattle.otel_base.specs.View.{attribute_of, value_of};
ghost use Rattle.otel_base.specs.declared.value.Value.{Value};
ghost use Rattle.otel_context.specs.SpanEffects.{attributes_of};
ghost use Rattle.opentelemetry.specs.Injection.{InjectsBy};
ghost use Rattle.opentelemetry.specs.Refusal.{is_refused};
ghost use Rattle.opentelemetry.specs.SpanBuilder.{from_name};
ghost use Rattle.opentelemetry.specs.Tracing as spec;
ghost use Rattle.opentelemetry.specs.Tracing.{AddsEvent, AttachesContext, Ends, Exits, ExitsWith, Fails};
ghost use Rattle.opentelemetry.specs.Tracing.{RecordsIn, Runs, Tries};
ghost use Rattle.opentelemetry.specs.Tracing.{TriesToEnter, TriesToStart};
ghost use Rattle.opentelemetry.specs.Tracing.{current_recording, with_changed};
ghost use Rattle.opentelemetry.specs.View.{builder_of};

mod change;
mod local;
mod open_spans;
mod source;

use crate::propagation::{Extractor, Injector, PropagationError, TextMapPropagator};
use crate::trace::span_builder::SpanBuilder;
pub use local::{LocalTracing, NoopTracing};
pub use open_spans::OpenSpan;
use otel_base::{Key, KeyValue, StringValue, Value};
use otel_context::{Context, Span, SpanCause, Status};
use otel_ids::SpanContext;
pub use source::{NoopSource, SourceWork, SpanSource, TracerSource};
use std::alloc::{AllocError, Global};
use std::fmt::Display;
use thiserror::Error;

/// Why a span wasn't entered or started.
///
/// See [`Tracing::enter`].
#[derive(Debug, Drop, Error)]
pub enum NotEntered {
    /// Every span number was given out.
    #[error("no span number left")]
    NumbersUsedUp,
    /// The last position is live.
    #[error("no position left")]
    PositionsUsedUp,
    /// Out of memory.
    #[error("no memory")]
    Memory(AllocError),
}

impl From<AllocError> for NotEntered {
    ghost use Rattle.std.specs.Prelude.{◌≡◌};
    ghost use Rattle.opentelemetry.specs.declared.trace.tracing.NotEntered.TheVariants.{Memory};

    ghost from_gives = { λ error converted. converted ≡ Memory error };

    fn from(error: AllocError) -> NotEntered {
        NotEntered::Memory(error)
    }
}

impl From<SpanCause> for NotEntered {
    ghost use Rattle.std.specs.Prelude.{◌≡◌};
    ghost use Rattle.opentelemetry.specs.Tracing.{not_entered};

    ghost from_gives = { λ cause converted. converted ≡ not_entered cause };

    fn from(cause: SpanCause) -> NotEntered {
        match cause {
            SpanCause::NumbersUsedUp => NotEntered::NumbersUsedUp,
            SpanCause::Memory(error) => NotEntered::Memory(error),
        }
    }
}

/// A span that was entered. It may be dropped: the span then ends with a span outside it, or at a
/// shutdown. Not in the Rust crate.
///
/// [`Tracing::enter`] returns it, and [`Tracing::exit`] takes it.
#[derive(Debug, Clone, Copy)]
pub struct Entered {
    pub(crate) number: u64,
}

/// A context that was attached: its position. It may be dropped: the context then stays attached.
/// Not in the Rust crate, whose guard can't be dropped without a detach.
///
/// [`Tracing::attach`] returns it, and [`Tracing::detach`] takes it.
#[derive(Debug, Drop)]
pub struct Attached {
    pub(crate) position: u16,
}

/// By which code traces: the current context, and the spans that are open. A library takes
/// `&mut impl Tracing`, and an application decides what is behind it: [`NoopTracing`], or an SDK's
/// value. Not in the Rust crate, where a thread has a stack of contexts and a global provider.
///
/// A span that is entered is the current one until it is exited. Its exit ends it and the spans
/// that were entered inside it and are still open, and no other, in whatever order spans are
/// exited. A span that is started instead isn't current: its context is attached for each turn in
/// which something is done for it, and it ends by itself.
///
/// ```
/// fn price(tracing: &mut impl Tracing) -> Result<(), NotEntered> {
///     let price = tracing.enter("price")?;
///     tracing.exit(price);
///     Ok(())
/// }
/// ```
///
/// Contracts see what the value holds through the ghost member `held`.
pub trait Tracing {
    ghost use Rattle.opentelemetry.specs.Tracing.{TracingState};

    /// Starts the spans, and takes those that end.
    type Source: SpanSource;

    ghost held: { Self → TracingState Self.Source Self.Source.Span };

    /// Returns the allocator.
    fn alloc(&self) -> Global;

    /// Returns `true` if no span starts. Contexts are attached, received and sent as ever.
    fn is_disabled(&self) -> bool
        ensures { result ≡ Self.Source.calls.is_disabled (held self.now).source };

    /// Returns the current context: the newest one that is attached, or the empty context.
    fn context(&self) -> &Context
        ensures { result.now ≡ spec.current (held self.now) };

    /// Returns the number of open spans.
    fn open_spans(&self) -> usize
        ensures { result ≡ length (held self.now).places };

    /// Returns how often [`Tracing::in_span`] couldn't enter a span, and [`Tracing::try_in_span`]
    /// couldn't record an error. Stops at the maximum `u64`.
    fn unrecorded(&self) -> u64
        ensures { result ≡ (held self.now).unrecorded };

    /// Starts a span from the builder under the current context, and makes it the current one until
    /// it is exited. It starts at the clock's timestamp unless the builder has a start time.
    ///
    /// # Errors
    ///
    /// Returns why no span was entered. At most one more span number was used.
    fn enter_with(&mut self, builder: SpanBuilder) -> Result<Entered, NotEntered>
        ensures { TriesToEnter Self.Source.calls Self.Source.Span.context_of (builder_of builder)
            result (held self.old) (held self.new) };

    /// Ends the span, and before it each span that was entered inside it and not exited, the newest
    /// first, at the clock's timestamp. Detaches them, and no other span or context. Does nothing
    /// if the span has ended. Succeeds even out of memory.
    fn exit(&mut self, entered: Entered)
        ensures { Exits Self.Source.calls Self.Source.Span.after_end entered.number
            (held self.old) (held self.new) };

    /// Starts a span from the builder under the parent context, and makes it no current one.
    /// Returns the parent's context with the span active: attach it for each turn in which
    /// something is done for the span, and pass it to [`Tracing::end`].
    ///
    /// # Errors
    ///
    /// Returns why no span was started. At most one more span number was used.
    fn start_under(&mut self, parent: &Context, builder: SpanBuilder) -> Result<Context, NotEntered>
        ensures { TriesToStart Self.Source.calls Self.Source.Span.context_of (builder_of builder)
            parent.now result (held self.old) (held self.new) };

    /// Ends the context's span, and before it each span that was entered inside it and not exited,
    /// as [`Tracing::exit`] does. Spans that were started under it stay open. Does nothing if the
    /// context has no open span of this value.
    fn end(&mut self, context: &Context)
        ensures { Ends Self.Source.calls Self.Source.Span.after_end Self.Source.Span.context_of
            context.now (held self.old) (held self.new) };

    /// Sets an attribute of the current span if it records.
    ///
    /// # Errors
    ///
    /// `AllocError` if out of memory. Nothing changes.
    fn set_attribute(&mut self, attribute: KeyValue) -> Result<(), AllocError>
        ensures ok { OnOk result (held self.new ≡ with_changed
            (λ span. Self.Source.Span.after_attribute span (attribute_of attribute))
            (current_recording Self.Source.Span.context_of Self.Source.Span.records
            (held self.old)) (held self.old)) }
        ensures err { OnErr result (held self.new ≡ held self.old) }
        ensures idle { current_recording Self.Source.Span.context_of Self.Source.Span.records
            (held self.old) ≡ None → IsOk result };

    /// Adds an event to the current span if it records, at the clock's timestamp.
    ///
    /// # Errors
    ///
    /// `AllocError` if out of memory. Nothing changes.
    fn add_event(&mut self, name: StringValue, attributes: Vec<KeyValue>) -> Result<(), AllocError>
        ensures { AddsEvent Self.Source.calls
            (λ span now. Self.Source.Span.after_event span name now (attributes_of attributes))
            (current_recording Self.Source.Span.context_of Self.Source.Span.records
            (held self.old)) result (held self.old) (held self.new) };

    /// Adds a link from the current span, if it records, to a span context.
    ///
    /// # Errors
    ///
    /// `AllocError` if out of memory. Nothing changes.
    fn add_link(
        &mut self,
        span_context: SpanContext,
        attributes: Vec<KeyValue>,
    ) -> Result<(), AllocError>
        ensures ok { OnOk result (held self.new ≡ with_changed
            (λ span. Self.Source.Span.after_link span span_context (attributes_of attributes))
            (current_recording Self.Source.Span.context_of Self.Source.Span.records
            (held self.old)) (held self.old)) }
        ensures err { OnErr result (held self.new ≡ held self.old) }
        ensures idle { current_recording Self.Source.Span.context_of Self.Source.Span.records
            (held self.old) ≡ None → IsOk result };

    /// Sets the status of the current span if it records and the new status is greater in the order
    /// `Unset`, `Error`, `Ok`.
    ///
    /// # Errors
    ///
    /// `AllocError` if out of memory. Nothing changes.
    fn set_status(&mut self, status: Status) -> Result<(), AllocError>
        ensures ok { OnOk result (held self.new ≡ with_changed
            (λ span. Self.Source.Span.after_status span status)
            (current_recording Self.Source.Span.context_of Self.Source.Span.records
            (held self.old)) (held self.old)) }
        ensures err { OnErr result (held self.new ≡ held self.old) }
        ensures idle { current_recording Self.Source.Span.context_of Self.Source.Span.records
            (held self.old) ≡ None → IsOk result };

    /// Renames the current span if it records.
    ///
    /// # Errors
    ///
    /// `AllocError` if out of memory. Nothing changes.
    fn update_name(&mut self, name: StringValue) -> Result<(), AllocError>
        ensures ok { OnOk result (held self.new ≡ with_changed
            (λ span. Self.Source.Span.after_name span name)
            (current_recording Self.Source.Span.context_of Self.Source.Span.records
            (held self.old)) (held self.old)) }
        ensures err { OnErr result (held self.new ≡ held self.old) }
        ensures idle { current_recording Self.Source.Span.context_of Self.Source.Span.records
            (held self.old) ≡ None → IsOk result };

    /// Adds an event `exception` with the error's string to the current span if it records, at the
    /// clock's timestamp.
    ///
    /// # Errors
    ///
    /// `AllocError` if out of memory, or if the error's `fmt` fails. Nothing changes.
    fn record_error<X: Display>(&mut self, error: &X) -> Result<(), AllocError>
        ensures { RecordsIn Self.Source.calls Self.Source.Span.after_event (X.output error.now)
            (current_recording Self.Source.Span.context_of Self.Source.Span.records
            (held self.old)) result (held self.old) (held self.new) };

    /// Records the error in the span that was entered, as [`Tracing::record_error`] does, and sets
    /// its status to `Error` with the error's string. Counts that in [`Tracing::unrecorded`] if it
    /// fails.
    fn fail<X: Display>(&mut self, entered: Entered, error: &X)
        ensures { Fails Self.Source.calls Self.Source.Span.records Self.Source.Span.after_event
            Self.Source.Span.after_status (X.output error.now) entered.number
            (held self.old) (held self.new) };

    /// Counts a span that couldn't be entered, or an error that couldn't be recorded.
    fn count_unrecorded(&mut self)
        ensures { held self.new ≡ spec.with_unrecorded (held self.old) };

    /// Makes the context the current one, until it is detached. If the last position is live,
    /// nothing changes, and the returned value detaches nothing.
    ///
    /// # Errors
    ///
    /// `AllocError` if out of memory. Nothing changes, and the context is dropped.
    fn attach(&mut self, context: Context) -> Result<Attached, AllocError>
        ensures attached { IfOk result
            (AttachesContext context (held self.old) (held self.new)) }
        ensures same { OnErr result (held self.new ≡ held self.old) };

    /// Detaches the context. The newest context that is still attached is then the current one.
    /// Takes no memory.
    fn detach(&mut self, attached: Attached)
        ensures { held self.new ≡ spec.detached attached.position (held self.old) };

    /// Starts a span under the current context, and makes it the current one, as
    /// [`Tracing::enter_with`] does.
    ///
    /// # Errors
    ///
    /// See [`Tracing::enter_with`].
    final fn enter(&mut self, name: &'static str) -> Result<Entered, NotEntered>
        ensures { TriesToEnter Self.Source.calls Self.Source.Span.context_of (from_name name.now)
            result (held self.old) (held self.new) }
    {
        self.enter_with(SpanBuilder::from_name(StringValue::from(name)))
    }

    /// Exits the span, as [`Tracing::exit`] does. If the outcome of its work is an error, records
    /// that in the span first, as [`Tracing::fail`] does.
    ///
    /// ```
    /// let entered = tracing.enter("ask")?;
    /// let answer = ask(tracing);
    /// tracing.exit_with(entered, &answer);
    /// ```
    final fn exit_with<O, X: Display>(&mut self, entered: Entered, outcome: &Result<O, X>)
        ensures { ExitsWith Self.Source.calls Self.Source.Span.after_end
            (λ error. Fails Self.Source.calls Self.Source.Span.records
            Self.Source.Span.after_event Self.Source.Span.after_status (X.output error))
            entered.number outcome.now (held self.old) (held self.new) }
    {
        match outcome {
            Ok(_) => self.exit(entered),
            Err(error) => {
                self.fail(entered, error);
                self.exit(entered);
            }
        }
    }

    /// Sets an attribute of the current span, as [`Tracing::set_attribute`] does.
    ///
    /// ```
    /// tracing.set("db.response.returned_rows", i64::from(found.is_some()))?;
    /// ```
    ///
    /// # Errors
    ///
    /// See [`Tracing::set_attribute`].
    final fn set<V>(&mut self, key: &'static str, value: V) -> Result<(), AllocError>
    where
        Value: From<V>,
        ensures ok { OnOk result ((made : Value)
            × ⟦<Value as From<V>>⟧.from_gives value made × (held self.new ≡ with_changed
            (λ span. Self.Source.Span.after_attribute span (key.now, value_of made))
            (current_recording Self.Source.Span.context_of Self.Source.Span.records
            (held self.old)) (held self.old))) }
        ensures err { OnErr result (held self.new ≡ held self.old) }
        ensures idle { current_recording Self.Source.Span.context_of Self.Source.Span.records
            (held self.old) ≡ None → IsOk result }
    {
        self.set_attribute(KeyValue::new(Key::from(key), Value::from(value)))
    }

    /// Runs the work once in a span that is entered before and exited after it. If no span can be
    /// entered, runs the work without one, and counts that in [`Tracing::unrecorded`].
    final fn in_span<O, F: FnOnce(&mut Self) -> O + Drop>(
        &mut self,
        name: &'static str,
        work: F,
    ) -> O
        requires { F.IsAlwaysCallable work }
        ensures { Runs Self.Source.calls held F.FnOnce work Self.Source.Span.context_of
            Self.Source.Span.after_end (from_name name.now) self.old self.new result }
    {
        self.in_span_with(SpanBuilder::from_name(StringValue::from(name)), work)
    }

    /// Runs the work once in a span from the builder, as [`Tracing::in_span`] does.
    final fn in_span_with<O, F: FnOnce(&mut Self) -> O + Drop>(
        &mut self,
        builder: SpanBuilder,
        work: F,
    ) -> O
        requires { F.IsAlwaysCallable work }
        ensures { Runs Self.Source.calls held F.FnOnce work Self.Source.Span.context_of
            Self.Source.Span.after_end (builder_of builder) self.old self.new result }
    {
        match self.enter_with(builder) {
            Ok(entered) => {
                let out = work(self);
                self.exit(entered);
                out
            }
            Err(_) => {
                self.count_unrecorded();
                work(self)
            }
        }
    }

    /// Runs the work once in a span, as [`Tracing::in_span`] does. If the work fails, its span gets
    /// the error as an event `exception`, and the status `Error` with the error's string. If that
    /// can't be recorded, it is counted in [`Tracing::unrecorded`].
    ///
    /// # Errors
    ///
    /// The error of the work.
    final fn try_in_span<O, X: Display, F: FnOnce(&mut Self) -> Result<O, X> + Drop>(
        &mut self,
        name: &'static str,
        work: F,
    ) -> Result<O, X>
        requires { F.IsAlwaysCallable work }
        ensures { Tries Self.Source.calls held F.FnOnce work Self.Source.Span.context_of
            Self.Source.Span.after_end (λ error. Fails Self.Source.calls
            Self.Source.Span.records Self.Source.Span.after_event Self.Source.Span.after_status
            (X.output error)) (from_name name.now) self.old self.new result }
    {
        self.try_in_span_with(SpanBuilder::from_name(StringValue::from(name)), work)
    }

    /// Runs the work once in a span from the builder, as [`Tracing::try_in_span`] does.
    ///
    /// # Errors
    ///
    /// The error of the work.
    final fn try_in_span_with<O, X: Display, F: FnOnce(&mut Self) -> Result<O, X> + Drop>(
        &mut self,
        builder: SpanBuilder,
        work: F,
    ) -> Result<O, X>
        requires { F.IsAlwaysCallable work }
        ensures { Tries Self.Source.calls held F.FnOnce work Self.Source.Span.context_of
            Self.Source.Span.after_end (λ error. Fails Self.Source.calls
            Self.Source.Span.records Self.Source.Span.after_event Self.Source.Span.after_status
            (X.output error)) (builder_of builder) self.old self.new result }
    {
        match self.enter_with(builder) {
            Ok(entered) => {
                let out = work(self);
                self.exit_with(entered, &out);
                out
            }
            Err(_) => {
                self.count_unrecorded();
                work(self)
            }
        }
    }

    /// Starts a span under the current context, as [`Tracing::start_under`] does.
    ///
    /// # Errors
    ///
    /// See [`Tracing::start_under`].
    final fn start(&mut self, name: &'static str) -> Result<Context, NotEntered>
        ensures { TriesToStart Self.Source.calls Self.Source.Span.context_of (from_name name.now)
            (spec.current (held self.old)) result (held self.old) (held self.new) }
    {
        self.start_with(SpanBuilder::from_name(StringValue::from(name)))
    }

    /// Starts a span from the builder under the current context, as [`Tracing::start_under`] does.
    ///
    /// # Errors
    ///
    /// See [`Tracing::start_under`].
    final fn start_with(&mut self, builder: SpanBuilder) -> Result<Context, NotEntered>
        ensures { TriesToStart Self.Source.calls Self.Source.Span.context_of (builder_of builder)
            (spec.current (held self.old)) result (held self.old) (held self.new) }
    {
        let parent = match self.context().clone() {
            Ok(parent) => parent,
            Err(error) => return Err(NotEntered::Memory(error)),
        };
        self.start_under(&parent, builder)
    }

    /// Attaches the context that the headers of a received request carry, until it is detached:
    /// extracts it, in the words of OpenTelemetry. Spans that are entered meanwhile continue the
    /// caller's trace.
    ///
    /// # Errors
    ///
    /// The propagator's error, or `Memory` if out of memory. Nothing changes.
    final fn receive<T: TextMapPropagator>(
        &mut self,
        propagator: &T,
        extractor: &dyn Extractor,
    ) -> Result<Attached, PropagationError>
        ensures received { IfOk result (AttachesContext (T.extracted propagator.now
            (spec.current (held self.old)) (texts extractor.now))
            (held self.old) (held self.new)) }
        ensures same { OnErr result (held self.new ≡ held self.old) }
        ensures refused { IsTrue (is_refused result) → IsTrue (T.may_refuse propagator.now) }
    {
        let context = propagator.extract_with_context(self.alloc(), self.context(), extractor)?;
        Ok(self.attach(context)?)
    }

    /// Writes the current context into the headers of a request to send: injects it, in the words
    /// of OpenTelemetry.
    ///
    /// # Errors
    ///
    /// The propagator's error. Some headers may have been set.
    final fn send<T: TextMapPropagator>(
        &self,
        propagator: &T,
        injector: &mut dyn Injector,
    ) -> Result<(), PropagationError>
        ensures { InjectsBy T.pairs T.may_refuse propagator.now (spec.current (held self.now))
            (state injector.old) (state injector.new) result }
    {
        propagator.inject_context(self.context(), injector)
    }
}
