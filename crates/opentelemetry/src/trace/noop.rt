//! Types that do nothing, for programs without tracing.
ghost use Rattle.std.specs.Prelude.{◌≡◌, IsOk};
ghost use Rattle.otel_ids.specs.SpanContext.{no_span_context};

use crate::context::Context;
use crate::propagation::text_map_propagator::{FieldIter, TextMapPropagator};
use crate::propagation::{Extractor, Injector, PropagationError};
use crate::trace::span_builder::SpanBuilder;
use crate::trace::tracer::Tracer;
use crate::trace::tracer_provider::TracerProvider;
use otel_base::{InstrumentationScope, KeyValue, StringValue};
use otel_context::{Span, Status};
use otel_ids::SpanContext;
use std::alloc::{AllocError, Global};
use std::fmt::Display;
use std::marker::Model;

/// A provider of tracers whose spans do nothing (the Rust crate's `NoopTracerProvider`).
///
/// See [`TracerProvider`].
#[derive(Clone, Debug, Default, Drop)]
pub struct NoopTracerProvider;

impl NoopTracerProvider {
    /// Returns a provider of tracers whose spans do nothing.
    pub fn new() -> NoopTracerProvider {
        NoopTracerProvider
    }
}

impl TracerProvider for NoopTracerProvider {
    ghost use Rattle.std.specs.Prelude.{IsOk};

    type Tracer = NoopTracer;

    ghost may_give = { λ _ _ _. Unit {0} };

    /// Returns a tracer whose spans do nothing, whatever the scope. Doesn't allocate.
    fn tracer_with_scope(
        &self,
        _alloc: Global,
        _scope: InstrumentationScope,
    ) -> Result<NoopTracer, AllocError>
        ensures { IsOk result }
    {
        Ok(NoopTracer)
    }

    /// Returns a tracer whose spans do nothing, whatever the name. Doesn't allocate.
    fn tracer(&self, alloc: Global, name: StringValue) -> Result<NoopTracer, AllocError>
        ensures { IsOk result }
    {
        let _ = (alloc, name);
        Ok(NoopTracer)
    }
}

/// A tracer whose spans do nothing (the Rust crate's `NoopTracer`).
///
/// See [`TracerProvider`].
#[derive(Clone, Debug, Default, Drop)]
pub struct NoopTracer;

impl NoopTracer {
    /// Returns a tracer whose spans do nothing.
    pub fn new() -> NoopTracer {
        NoopTracer
    }
}

impl Tracer for NoopTracer {
    ghost use Rattle.std.specs.Prelude.{◌≡◌, [], IfOk, IsOk};
    ghost use Rattle.otel_context.specs.Context.{span_context};

    type Span = NoopSpan;

    ghost may_build = { λ _ _ parent span. span ≡ span_context parent };

    /// Returns a span with the parent's span context, valid or not, so that it is still propagated.
    /// Doesn't allocate.
    ///
    /// # Errors
    ///
    /// `AllocError` if the reference count of the trace state's pairs is at its limit, which can't
    /// happen without pairs.
    // Inlined, since a call copies the builder.
    #[inline(always)]
    fn build_with_context(
        &self,
        _alloc: Global,
        _builder: SpanBuilder,
        parent: &Context,
    ) -> Result<NoopSpan, AllocError>
        ensures built { IfOk result (λ span. span ≡ span_context parent.now) }
        ensures without_pairs { (span_context parent.now).trace_state ≡ [] → IsOk result }
    {
        Ok(NoopSpan {
            span_context: parent.span_context().clone()?,
        })
    }
}

/// A span that never records and ignores everything set on it (the Rust crate's `NoopSpan`).
///
/// Contracts see its span context.
///
/// See [`Run`](crate::trace::Run).
#[derive(Debug, Drop)]
pub struct NoopSpan {
    span_context: SpanContext,
}

impl Model for NoopSpan {
    ghost use Rattle.otel_ids.specs.SpanContext.{SpanContextRecord};
    ghost use Rattle.otel_ids.specs.View.{span_context_code};

    ghost Value = { SpanContextRecord };

    ghost coded = { span_context_code };

    ghost view = { λ s. s.span_context };

    ghost inverse = { λ c. record { span_context = c } };
}

impl NoopSpan {
    /// A span that belongs to no trace, with the span context [`SpanContext::NONE`].
    pub const DEFAULT: NoopSpan = NoopSpan {
        span_context: SpanContext::NONE,
    };
}

/// Not in the Rust crate.
impl Default for NoopSpan {
    ghost is_default = { λ span. span ≡ no_span_context };

    /// Returns [`NoopSpan::DEFAULT`].
    fn default() -> NoopSpan
        ensures { result ≡ no_span_context }
    {
        NoopSpan::DEFAULT
    }
}

impl Clone for NoopSpan {
    ghost use Rattle.std.specs.Prelude.{[]};

    ghost is_clone = { λ s copy. copy ≡ s };

    ghost is_infallible = { λ s. s.trace_state ≡ [] };

    /// Returns a span with the same span context.
    ///
    /// # Errors
    ///
    /// `AllocError` if the reference count of the trace state's pairs is at its limit, which can't
    /// happen without pairs.
    fn clone(&self) -> Result<NoopSpan, AllocError> {
        Ok(NoopSpan {
            span_context: self.span_context.clone()?,
        })
    }
}

impl Span for NoopSpan {
    ghost use Rattle.std.specs.Prelude.{◌≡◌, false, refl, IsOk};

    ghost context_of = { λ s. s };

    ghost records = { λ _. false };

    ghost after_event = { λ s _ _ _. s };

    ghost after_attribute = { λ s _. s };

    ghost after_link = { λ s _ _. s };

    ghost after_status = { λ s _. s };

    ghost after_name = { λ s _. s };

    ghost after_end = { λ s _. s };

    fn add_event_with_timestamp(
        &mut self,
        _alloc: Global,
        _name: StringValue,
        _timestamp: u64,
        _attributes: Vec<KeyValue>,
    ) -> Result<(), AllocError>
        ensures ok { IsOk result }
        ensures same { self.new ≡ self.old }
    {
        Ok(())
    }

    fn set_attribute(&mut self, _alloc: Global, _attribute: KeyValue) -> Result<(), AllocError>
        ensures ok { IsOk result }
        ensures same { self.new ≡ self.old }
    {
        Ok(())
    }

    fn add_link(
        &mut self,
        _alloc: Global,
        _span_context: SpanContext,
        _attributes: Vec<KeyValue>,
    ) -> Result<(), AllocError>
        ensures ok { IsOk result }
        ensures same { self.new ≡ self.old }
    {
        Ok(())
    }

    /// Ignores the event. Doesn't allocate.
    fn add_event(
        &mut self,
        alloc: Global,
        name: StringValue,
        attributes: Vec<KeyValue>,
        now: u64,
    ) -> Result<(), AllocError>
        ensures ok { IsOk result }
        ensures same { self.new ≡ self.old }
    {
        self.add_event_with_timestamp(alloc, name, now, attributes)
    }

    /// Ignores the error without printing it. Doesn't allocate.
    fn record_error<E: Display>(
        &mut self,
        _alloc: Global,
        error: &E,
        _now: u64,
    ) -> Result<(), AllocError>
        ensures ok { IsOk result }
        ensures same { self.new ≡ self.old }
    {
        let _ = error;
        Ok(())
    }

    /// Ignores the attributes. Doesn't allocate.
    fn set_attributes(&mut self, alloc: Global, attributes: Vec<KeyValue>) -> Result<(), AllocError>
        ensures ok { IsOk result }
        ensures same { self.new ≡ self.old }
    {
        let _ = (alloc, attributes);
        Ok(())
    }

    fn set_status(&mut self, _status: Status) {}

    fn update_name(&mut self, _name: StringValue) {}

    fn end_with_timestamp(&mut self, _timestamp: u64) {}

    fn span_context(&self) -> &SpanContext {
        &self.span_context
    }

    fn is_recording(&self) -> bool {
        false
    }

    ghost event_keeps = { λ _ _ _ _. refl };

    ghost attribute_keeps = { λ _ _. refl };

    ghost link_keeps = { λ _ _ _. refl };

    ghost status_keeps = { λ _ _. refl };

    ghost name_keeps = { λ _ _. refl };

    ghost end_keeps = { λ _ _. refl };
}

/// A propagator that sets nothing and reads nothing (the Rust crate's `NoopTextMapPropagator`).
///
/// See [`TextMapCompositePropagator`](crate::propagation::TextMapCompositePropagator).
#[derive(Clone, Copy, Debug, Default, Drop)]
pub struct NoopTextMapPropagator;

impl NoopTextMapPropagator {
    /// Returns the propagator.
    pub fn new() -> NoopTextMapPropagator {
        NoopTextMapPropagator
    }
}

/// Extraction returns a copy of the given context, as the trait specifies. In the Rust crate, it
/// returns the current context.
impl TextMapPropagator for NoopTextMapPropagator {
    ghost use Rattle.std.specs.Prelude.{[], false};

    ghost pairs = { λ _ _. [] };

    ghost extracted = { λ _ context _. context };

    ghost field_names = { λ _. [] };

    ghost may_refuse = { λ _. false };

    /// Sets nothing. Doesn't allocate.
    fn inject_context(
        &self,
        _context: &Context,
        _injector: &mut dyn Injector,
    ) -> Result<(), PropagationError> {
        Ok(())
    }

    fn extract_with_context(
        &self,
        _alloc: Global,
        context: &Context,
        _extractor: &dyn Extractor,
    ) -> Result<Context, PropagationError> {
        Ok(context.clone()?)
    }

    fn fields(&self) -> FieldIter<'_> {
        FieldIter::new(&[])
    }
}
