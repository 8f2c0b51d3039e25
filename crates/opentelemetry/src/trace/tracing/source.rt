//! Sources of spans, over which a value traces.
ghost use Rattle.std.specs.Prelude.{◌≡◌, [], ◌∷◌, ◌++◌, IfOk};
ghost use Rattle.opentelemetry.specs.View.{builder_of};

use crate::history::History;
use crate::time::Clock;
use crate::trace::noop::{NoopSpan, NoopTracer};
use crate::trace::span_builder::SpanBuilder;
use crate::trace::tracer::Tracer;
use otel_context::{Context, Span};
use std::alloc::{AllocError, Global};
use std::marker::Model;

/// Starts the spans of a [`LocalTracing`], and takes those that end. An SDK implements it. Not in
/// the Rust crate, whose spans share their tracer.
///
/// A span is built, then begins, and is taken once it has ended. What is built may be dropped
/// instead, and never begins. Implementors say in the ghost member `calls` what each call does.
///
/// [`LocalTracing`]: crate::trace::LocalTracing
pub trait SpanSource: Drop {
    ghost use Rattle.opentelemetry.specs.SpanSource.{SourceCalls, IsKept};

    /// The spans that it starts.
    type Span: Span;

    ghost calls: { SourceCalls Self Self.Span };

    /// Returns `true` if it starts no spans.
    fn is_disabled(&self) -> bool
        ensures { result ≡ calls.is_disabled self.now };

    /// Returns the clock's timestamp, in nanoseconds since 1970.
    fn now(&self) -> u64
        ensures { calls.may_show self.now result };

    /// Builds a span under the parent context.
    ///
    /// # Errors
    ///
    /// `AllocError` if out of memory. The builder is dropped.
    fn build(
        &self,
        alloc: Global,
        builder: SpanBuilder,
        parent: &Context,
    ) -> Result<Self::Span, AllocError>
        ensures { IfOk result (calls.may_build self.now (builder_of builder) parent.now) };

    /// Reserves memory for this many open spans, so that none is needed when they begin and end.
    ///
    /// # Errors
    ///
    /// `AllocError` if out of memory. Nothing changes.
    fn reserve(&mut self, open: usize) -> Result<(), AllocError>
        ensures { self.new ≡ self.old };

    /// Is told that a span that it built begins under the parent context, before the span is the
    /// current one. It may change the span.
    fn begin(&mut self, alloc: Global, span: &mut Self::Span, parent: &Context)
        ensures begins { calls.begins self.old parent.now span.old self.new span.new }
        ensures context { Self.Span.context_of span.new ≡ Self.Span.context_of span.old }
        ensures begun { calls.begun self.new ≡ calls.begun self.old ++ span.new ∷ [] }
        ensures taken { calls.taken self.new ≡ calls.taken self.old };

    /// Takes a span that has ended.
    fn take(&mut self, span: Self::Span)
        ensures takes { calls.takes self.old span self.new }
        ensures begun { calls.begun self.new ≡ calls.begun self.old }
        ensures taken { calls.taken self.new ≡ calls.taken self.old ++ span ∷ [] };

    ghost keeps_ids: { IsKept calls.ids_of Self.Span.after_event Self.Span.after_attribute
        Self.Span.after_link Self.Span.after_status Self.Span.after_name Self.Span.after_end };
}

/// Work on the source of a [`LocalTracing`] between the calls of its spans, such as a flush. Not in
/// the Rust crate.
///
/// [`LocalTracing`]: crate::trace::LocalTracing
pub trait SourceWork<B: SpanSource>: Drop {
    /// The type of the result.
    type Out;

    ghost may_leave: { Self → B → Self.Out → B → Type 0 };

    /// Does the work. No span begins or is taken meanwhile.
    fn call(self, source: &mut B) -> Self::Out
        ensures does { may_leave self source.old result source.new }
        ensures begun { B.calls.begun source.new ≡ B.calls.begun source.old }
        ensures taken { B.calls.taken source.new ≡ B.calls.taken source.old };
}

/// Starts the spans of any tracer, at the timestamps of any clock, and drops those that end. Not in
/// the Rust crate.
#[derive(Drop)]
pub struct TracerSource<T: Tracer, C> {
    tracer: T,
    clock: C,
    begun: History<T::Span>,
    taken: History<T::Span>,
}

impl<T: Tracer, C> Model for TracerSource<T, C> {
    ghost use Rattle.opentelemetry.specs.SpanSource.{TracerParts};

    ghost Value = { TracerParts T T.Span };

    ghost view = { λ s. record {
      tracer = s.tracer;
      begun = s.begun.items;
      taken = s.taken.items;
    } };
}

impl<T: Tracer, C> TracerSource<T, C> {
    /// Returns the source. Doesn't allocate.
    pub fn new(tracer: T, clock: C) -> TracerSource<T, C>
        ensures { result ≡ record { tracer = tracer; begun = []; taken = [] } }
    {
        TracerSource {
            tracer,
            clock,
            begun: History::new(),
            taken: History::new(),
        }
    }
}

impl<T: Tracer, C: Clock> SpanSource for TracerSource<T, C> {
    ghost use Rattle.opentelemetry.specs.SpanSource.{ids_of_context, tracer_calls};

    type Span = T::Span;

    ghost calls = { tracer_calls T.may_build T.Span.context_of (λ _. Unit {0}) };

    fn is_disabled(&self) -> bool {
        false
    }

    fn now(&self) -> u64 {
        self.clock.now()
    }

    fn build(
        &self,
        alloc: Global,
        builder: SpanBuilder,
        parent: &Context,
    ) -> Result<T::Span, AllocError> {
        self.tracer.build_with_context(alloc, builder, parent)
    }

    fn reserve(&mut self, _open: usize) -> Result<(), AllocError> {
        Ok(())
    }

    fn begin(&mut self, _alloc: Global, span: &mut T::Span, _parent: &Context) {
        self.begun = self.begun.and(span);
    }

    fn take(&mut self, span: T::Span) {
        self.taken = self.taken.and(&span);
    }

    ghost use Rattle.std.proofs.Common.{ap};

    ghost keeps_ids = { record {
      event = λ s n t a. ap ids_of_context (T.Span.event_keeps s n t a);
      attribute = λ s a. ap ids_of_context (T.Span.attribute_keeps s a);
      link = λ s l a. ap ids_of_context (T.Span.link_keeps s l a);
      status = λ s x. ap ids_of_context (T.Span.status_keeps s x);
      name = λ s n. ap ids_of_context (T.Span.name_keeps s n);
      end = λ s t. ap ids_of_context (T.Span.end_keeps s t);
    } };
}

/// Starts no spans. A value that traces over it takes no memory for spans, and still carries the
/// headers of a request on. Not in the Rust crate.
#[derive(Debug, Drop)]
pub struct NoopSource {
    begun: History<NoopSpan>,
    taken: History<NoopSpan>,
}

impl Model for NoopSource {
    ghost use Rattle.opentelemetry.specs.SpanSource.{NoopParts};

    ghost Value = { NoopParts };

    ghost view = { λ s. record { begun = s.begun.items; taken = s.taken.items } };
}

impl NoopSource {
    /// Returns the source.
    pub fn new() -> NoopSource
        ensures { result ≡ record { begun = []; taken = [] } }
    {
        NoopSource {
            begun: History::new(),
            taken: History::new(),
        }
    }
}

impl SpanSource for NoopSource {
    ghost use Rattle.std.specs.Prelude.{refl};
    ghost use Rattle.opentelemetry.specs.SpanSource.{noop_calls};

    type Span = NoopSpan;

    ghost calls = { noop_calls };

    #[inline(always)]
    fn is_disabled(&self) -> bool {
        true
    }

    fn now(&self) -> u64 {
        0
    }

    fn build(
        &self,
        alloc: Global,
        builder: SpanBuilder,
        parent: &Context,
    ) -> Result<NoopSpan, AllocError> {
        NoopTracer::new().build_with_context(alloc, builder, parent)
    }

    fn reserve(&mut self, _open: usize) -> Result<(), AllocError> {
        Ok(())
    }

    fn begin(&mut self, _alloc: Global, span: &mut NoopSpan, _parent: &Context) {
        self.begun = self.begun.and(span);
    }

    fn take(&mut self, span: NoopSpan) {
        self.taken = self.taken.and(&span);
    }

    ghost keeps_ids = { record {
      event = λ _ _ _ _. refl;
      attribute = λ _ _. refl;
      link = λ _ _ _. refl;
      status = λ _ _. refl;
      name = λ _ _. refl;
      end = λ _ _. refl;
    } };
}
