//! Tracers, which start spans.
ghost use Rattle.std.specs.Prelude.{◌≡◌, IfOk, IfErr, IsErr, OnErr};
ghost use Rattle.otel_context.specs.Spans.{used_up};
ghost use Rattle.otel_context.specs.Stack.{current};
ghost use Rattle.opentelemetry.specs.SpanBuilder.{from_name};
ghost use Rattle.opentelemetry.specs.InSpan.{RanInSpan, RanUnderCurrent};
ghost use Rattle.opentelemetry.specs.InSpan.{NotStarted, NotStartedOn};
ghost use Rattle.opentelemetry.specs.View.{builder_of};

use crate::trace::in_span::{SpanBody, StartError, enter, enter_current, run_entered};
use crate::trace::span_builder::SpanBuilder;
use otel_base::StringValue;
use otel_context::{Context, ContextStack, Span, Spans};
use std::alloc::{AllocError, Global};

/// Starts spans (the Rust crate's `Tracer`).
///
/// Implementors define the ghost relation `may_build`: the spans that may be started from a builder
/// and a parent context. It is a relation rather than a function, so that ids may be random. The
/// other methods call `build_with_context`.
///
/// See `otel_examples::api::in_span` and `otel_examples::api::service`. For a tracer, see
/// `RecordingTracer` of `otel_examples::recording`.
pub trait Tracer: Drop {
    ghost use Rattle.otel_context.specs.Context.{ContextRecord};
    ghost use Rattle.opentelemetry.specs.SpanBuilder.{BuilderRecord};

    /// The spans that it starts.
    type Span: Span;

    ghost may_build: { Self → BuilderRecord → ContextRecord → Self.Span → Type 0 };

    /// Starts a span from a builder, with the given parent context.
    ///
    /// # Errors
    ///
    /// `AllocError` if out of memory. The builder is dropped.
    fn build_with_context(
        &self,
        alloc: Global,
        builder: SpanBuilder,
        parent: &Context,
    ) -> Result<Self::Span, AllocError>
        ensures { IfOk result (may_build self.now (builder_of builder) parent.now) };

    /// Starts a span named `name`, with the current context as its parent.
    ///
    /// # Errors
    ///
    /// `AllocError` if out of memory. The name is dropped.
    fn start(
        &self,
        alloc: Global,
        stack: &ContextStack,
        name: StringValue,
    ) -> Result<Self::Span, AllocError>
        ensures { IfOk result (may_build self.now (from_name name) (current stack.now.live)) }
    {
        self.start_with_context(alloc, name, stack.current())
    }

    /// Starts a span named `name`, with the given parent context.
    ///
    /// # Errors
    ///
    /// `AllocError` if out of memory. The name is dropped.
    fn start_with_context(
        &self,
        alloc: Global,
        name: StringValue,
        parent: &Context,
    ) -> Result<Self::Span, AllocError>
        ensures { IfOk result (may_build self.now (from_name name) parent.now) }
    {
        self.build_with_context(alloc, self.span_builder(name), parent)
    }

    /// Returns a builder with only the name set.
    fn span_builder(&self, name: StringValue) -> SpanBuilder
        ensures { builder_of result ≡ from_name name }
    {
        SpanBuilder::from_name(name)
    }

    /// Starts a span from a builder, with the current context as its parent.
    ///
    /// # Errors
    ///
    /// `AllocError` if out of memory. The builder is dropped.
    fn build(
        &self,
        alloc: Global,
        builder: SpanBuilder,
        stack: &ContextStack,
    ) -> Result<Self::Span, AllocError>
        ensures { IfOk result (may_build self.now (builder_of builder) (current stack.now.live)) }
    {
        self.build_with_context(alloc, builder, stack.current())
    }

    /// Runs a body in a span started from a builder, with the given parent context.
    ///
    /// Inserts the span into the table, attaches the parent's context with the span active, and
    /// calls the body once, with the stack, the table and that context. Then removes whatever is
    /// attached at that position. If the greatest position is live, attaches nothing, but still
    /// calls the body. Returns the body's result and the span's number. The span stays in the table
    /// until it is taken. Nothing is allocated after the body.
    ///
    /// # Errors
    ///
    /// `Build` if out of memory before the span is built. `Refused`, with the span, if the table
    /// has no number left, or if out of memory later. The body isn't called, the stack is
    /// unchanged, and the table holds the same spans. If no number is left, the table is unchanged.
    /// If out of memory, its next number may be one higher.
    fn in_span_with_builder_and_context<F: SpanBody<Self::Span>>(
        &self,
        alloc: Global,
        stack: &mut ContextStack,
        spans: &mut Spans<Self::Span>,
        builder: SpanBuilder,
        parent: &Context,
        f: F,
    ) -> Result<(F::Out, u64), StartError<Self::Span>>
        requires { F.can_call f }
        ensures ran { IfOk result (RanInSpan (may_build self.now (builder_of builder))
            Self.Span.context_of (F.may_leave f) parent.now
            stack.old spans.old stack.new spans.new) }
        ensures same_stack { OnErr result (stack.new ≡ stack.old) }
        ensures not_started { IfErr result
            (NotStarted (may_build self.now (builder_of builder) parent.now) spans.old spans.new) }
        ensures used_up { spans.old.next_number ≡ used_up
            → IsErr result × (spans.new ≡ spans.old) }
    {
        let span = match self.build_with_context(alloc, builder, parent) {
            Ok(span) => span,
            Err(error) => return Err(StartError::Build(error)),
        };
        let entered = match enter(alloc, stack, spans, parent, span) {
            Ok(entered) => entered,
            Err(error) => return Err(error),
        };
        Ok(run_entered(stack, spans, entered, f))
    }

    /// Runs a body in a span named `name`, with the given parent context, as
    /// [`Tracer::in_span_with_builder_and_context`] does.
    ///
    /// # Errors
    ///
    /// See [`Tracer::in_span_with_builder_and_context`].
    fn in_span_with_context<F: SpanBody<Self::Span>>(
        &self,
        alloc: Global,
        stack: &mut ContextStack,
        spans: &mut Spans<Self::Span>,
        name: StringValue,
        parent: &Context,
        f: F,
    ) -> Result<(F::Out, u64), StartError<Self::Span>>
        requires { F.can_call f }
        ensures ran { IfOk result (RanInSpan (may_build self.now (from_name name))
            Self.Span.context_of (F.may_leave f) parent.now
            stack.old spans.old stack.new spans.new) }
        ensures same_stack { OnErr result (stack.new ≡ stack.old) }
        ensures not_started { IfErr result
            (NotStarted (may_build self.now (from_name name) parent.now) spans.old spans.new) }
        ensures used_up { spans.old.next_number ≡ used_up
            → IsErr result × (spans.new ≡ spans.old) }
    {
        let builder = self.span_builder(name);
        // Matched, since a result that is passed on is copied, with its room for a span.
        match self.in_span_with_builder_and_context(alloc, stack, spans, builder, parent, f) {
            Ok(ran) => Ok(ran),
            Err(error) => return Err(error),
        }
    }

    /// Runs a body in a span started from a builder, with the current context as its parent, as
    /// [`Tracer::in_span_with_builder_and_context`] does.
    ///
    /// # Errors
    ///
    /// See [`Tracer::in_span_with_builder_and_context`].
    fn in_span_with_builder<F: SpanBody<Self::Span>>(
        &self,
        alloc: Global,
        stack: &mut ContextStack,
        spans: &mut Spans<Self::Span>,
        builder: SpanBuilder,
        f: F,
    ) -> Result<(F::Out, u64), StartError<Self::Span>>
        requires { F.can_call f }
        ensures ran { IfOk result (RanUnderCurrent (may_build self.now (builder_of builder))
            Self.Span.context_of (F.may_leave f) stack.old spans.old stack.new spans.new) }
        ensures same_stack { OnErr result (stack.new ≡ stack.old) }
        ensures not_started { IfErr result (NotStartedOn
            (may_build self.now (builder_of builder)) stack.old spans.old spans.new) }
        ensures used_up { spans.old.next_number ≡ used_up
            → IsErr result × (spans.new ≡ spans.old) }
    {
        let span = match self.build_with_context(alloc, builder, stack.current()) {
            Ok(span) => span,
            Err(error) => return Err(StartError::Build(error)),
        };
        let entered = match enter_current(alloc, stack, spans, span) {
            Ok(entered) => entered,
            Err(error) => return Err(error),
        };
        Ok(run_entered(stack, spans, entered, f))
    }

    /// Runs a body in a span named `name`, with the current context as its parent, as
    /// [`Tracer::in_span_with_builder_and_context`] does.
    ///
    /// # Errors
    ///
    /// See [`Tracer::in_span_with_builder_and_context`].
    fn in_span<F: SpanBody<Self::Span>>(
        &self,
        alloc: Global,
        stack: &mut ContextStack,
        spans: &mut Spans<Self::Span>,
        name: StringValue,
        f: F,
    ) -> Result<(F::Out, u64), StartError<Self::Span>>
        requires { F.can_call f }
        ensures ran { IfOk result (RanUnderCurrent (may_build self.now (from_name name))
            Self.Span.context_of (F.may_leave f) stack.old spans.old stack.new spans.new) }
        ensures same_stack { OnErr result (stack.new ≡ stack.old) }
        ensures not_started { IfErr result (NotStartedOn
            (may_build self.now (from_name name)) stack.old spans.old spans.new) }
        ensures used_up { spans.old.next_number ≡ used_up
            → IsErr result × (spans.new ≡ spans.old) }
    {
        // Here too, since a result that is passed on is copied, with its room for a span.
        let span = match self.build(alloc, self.span_builder(name), stack) {
            Ok(span) => span,
            Err(error) => return Err(StartError::Build(error)),
        };
        let entered = match enter_current(alloc, stack, spans, span) {
            Ok(entered) => entered,
            Err(error) => return Err(error),
        };
        Ok(run_entered(stack, spans, entered, f))
    }
}
