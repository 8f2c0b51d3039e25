//! The tracer of the SDK.
ghost use Rattle.std.specs.Prelude.{◌≡◌, false, IfOk};
ghost use Rattle.opentelemetry.specs.View.{builder_of};

pub(crate) mod calls;
pub(crate) mod config;

use crate::trace::provider::TracerProviderInner;
use crate::trace::tracer::calls::TracerCalls;
use crate::trace::tracer::config::TracerConfig;
use crate::trace::{IdGenerator, ShouldSample};
use opentelemetry::trace::{SpanBuilder, SpanContext, Tracer};
use opentelemetry::{Context, InstrumentationScope};
use otel_sdk_base::Clock;
use otel_sdk_span::SdkSpan;
use std::alloc::{AllocError, Global};
use std::marker::Model;
use std::rc::Rc;

/// The configuration with which an [`SdkTracer`] starts spans. Not in the Rust crate.
///
/// Implementors define the ghost relations `may_start`, the spans that the pipeline may start,
/// `begins`, its state after a span began, and `may_show`, the times that its clock showed.
///
/// See [`TracerPipeline`] and [`OpenPipeline`].
pub trait Pipeline: Drop {
    ghost use Rattle.std.specs.Prelude.{ℕ};
    ghost use Rattle.otel_context.specs.Context.{ContextRecord};
    ghost use Rattle.opentelemetry.specs.SpanBuilder.{BuilderRecord};
    ghost use Rattle.otel_sdk_span.specs.Span.{SpanState};

    ghost may_start: { Self → BuilderRecord → ContextRecord → SpanState → Type 0 };

    ghost begins: { Self → ContextRecord → SpanState → Self → Type 0 };

    ghost may_show: { Self → ℕ → Type 0 };

    /// Starts a span from a builder under a parent context.
    ///
    /// # Errors
    ///
    /// `AllocError` if out of memory. The builder is dropped.
    fn build_with_context(
        &self,
        alloc: Global,
        builder: SpanBuilder,
        parent: &Context,
    ) -> Result<SdkSpan, AllocError>
        ensures started { IfOk result (may_start self.now (builder_of builder) parent.now) }
        ensures running { IfOk result (λ span. span.has_ended ≡ false) };

    /// Is told that a span that it started begins under the parent context.
    fn begin(&mut self, parent: &Context, span: &SdkSpan)
        ensures { begins self.old parent.now span.now self.new };

    /// Returns the clock's timestamp, in nanoseconds since 1970.
    fn now(&self) -> u64
        ensures shown { may_show self.now result };
}

/// Starts the spans of one library or module (the Rust crate's `SdkTracer`).
///
/// Contracts see the pipeline.
///
/// See [`crate::trace::SdkTracerProvider`].
#[derive(Drop)]
pub struct SdkTracer<P> {
    pub(crate) pipeline: P,
}

impl<P> Model for SdkTracer<P> {
    ghost Value = { P };

    ghost view = { λ t. t.pipeline };
}

impl<P: Pipeline> SdkTracer<P> {
    /// Starts a span from a builder under a parent context, as [`Tracer::build_with_context`].
    ///
    /// # Errors
    ///
    /// `AllocError` if out of memory. The builder is dropped.
    pub(crate) fn start(
        &self,
        alloc: Global,
        builder: SpanBuilder,
        parent: &Context,
    ) -> Result<SdkSpan, AllocError>
        ensures started { IfOk result
            (P.may_start self.now (builder_of builder) parent.now) }
        ensures running { IfOk result (λ span. span.has_ended ≡ false) }
    {
        self.pipeline.build_with_context(alloc, builder, parent)
    }
}

impl<P: Pipeline> Tracer for SdkTracer<P> {
    type Span = SdkSpan;

    ghost may_build = { P.may_start };

    /// Starts a span from a builder under a parent context.
    ///
    /// # Errors
    ///
    /// `AllocError` if out of memory. The builder is dropped.
    fn build_with_context(
        &self,
        alloc: Global,
        builder: SpanBuilder,
        parent: &Context,
    ) -> Result<SdkSpan, AllocError> {
        self.pipeline.build_with_context(alloc, builder, parent)
    }
}

/// The configuration with which a provider's tracers start spans: the provider's sampler, generator
/// of ids and clock, and a scope. Not in the Rust crate.
///
/// A span has its parent's trace id, or a new one if it is a root, and a new span id. The sampler
/// decides whether it records.
///
/// Under suppressed telemetry, or once the provider is shut down, a span has no ids and doesn't
/// record. If the generator of ids fails, the span doesn't record and has the span context of its
/// parent, and the provider counts it.
///
/// See [`crate::trace::SdkTracerProvider`].
pub struct TracerPipeline<S, G, C> {
    pub(crate) provider: Rc<TracerProviderInner<S, G, C>>,
    pub(crate) scope: Rc<InstrumentationScope>,
}

// Written out, so that a caller's proof has one call here, and not the drops of all parts.
impl<S: Drop, G: Drop, C: Drop> Drop for TracerPipeline<S, G, C> {
    fn drop(self) {
        let TracerPipeline {
            provider: _,
            scope: _,
        } = self;
    }
}

impl<S, G, C> Model for TracerPipeline<S, G, C> {
    ghost use Rattle.std.specs.Rc.{rc_value};
    ghost use Rattle.otel_sdk.specs.Tracer.{TracerState};

    ghost Value = { TracerState S G };

    ghost view = { λ t. record {
      sampler = (rc_value t.provider).config.sampler;
      id_generator = (rc_value t.provider).config.id_generator;
      limits = (rc_value t.provider).config.limits;
      scope = rc_value t.scope;
    } };
}

impl<S: ShouldSample, G: IdGenerator, C: Clock> Pipeline for TracerPipeline<S, G, C>
where
    C: TracerCalls,
{
    ghost use Rattle.std.specs.Prelude.{◌≡◌};
    ghost use Rattle.otel_sdk.specs.Tracer as spec;

    ghost may_start = { λ pipeline builder parent. spec.MayBuild (S.answer pipeline.sampler)
        (G.random pipeline.id_generator) (G.may_trace pipeline.id_generator)
        (G.may_span pipeline.id_generator) C.TracerCalls.may_show C.TracerCalls.is_counted
        pipeline.limits pipeline.scope builder parent C.TracerCalls.is_read };

    ghost begins = { λ old _ _ new. new ≡ old };

    ghost may_show = { λ _. C.TracerCalls.may_show };

    /// Starts a span from a builder under a parent context.
    ///
    /// # Errors
    ///
    /// `AllocError` if out of memory. The builder is dropped.
    fn build_with_context(
        &self,
        alloc: Global,
        builder: SpanBuilder,
        parent: &Context,
    ) -> Result<SdkSpan, AllocError> {
        if parent.is_telemetry_suppressed() || C::read(&self.provider.is_shut_down) {
            return Ok(SdkSpan::without_data(SpanContext::NONE));
        }
        let config = &self.provider.config;
        config.start(alloc, &self.scope, builder, parent)
    }

    // The sampler of a provider keeps no state.
    fn begin(&mut self, _parent: &Context, _span: &SdkSpan) {}

    /// Returns the timestamp of the provider's clock, in nanoseconds since 1970.
    fn now(&self) -> u64 {
        self.provider.config.clock.show()
    }
}

/// The configuration with which an [`SdkTracing`](crate::trace::SdkTracing) starts spans, as a
/// [`TracerPipeline`] that nobody can shut down. Not in the Rust crate.
pub struct OpenPipeline<S, G, C> {
    pub(crate) config: TracerConfig<S, G, C>,
    pub(crate) scope: Rc<InstrumentationScope>,
}

// Written out, so that a caller's proof has one call here, and not the drops of all parts.
impl<S: Drop, G: Drop, C: Drop> Drop for OpenPipeline<S, G, C> {
    fn drop(self) {
        let OpenPipeline {
            config: _,
            scope: _,
        } = self;
    }
}

impl<S, G, C> Model for OpenPipeline<S, G, C> {
    ghost use Rattle.std.specs.Rc.{rc_value};
    ghost use Rattle.otel_sdk.specs.Tracer.{TracerState};

    ghost Value = { TracerState S G };

    ghost view = { λ t. record {
      sampler = t.config.sampler;
      id_generator = t.config.id_generator;
      limits = t.config.limits;
      scope = rc_value t.scope;
    } };
}

impl<S: ShouldSample, G: IdGenerator, C: Clock> Pipeline for OpenPipeline<S, G, C>
where
    C: TracerCalls,
{
    ghost use Rattle.otel_sdk.specs.Tracer as spec;

    ghost may_start = { λ pipeline builder parent. spec.MayStart (S.answer pipeline.sampler)
        (G.random pipeline.id_generator) (G.may_trace pipeline.id_generator)
        (G.may_span pipeline.id_generator) C.TracerCalls.may_show C.TracerCalls.is_counted
        pipeline.limits pipeline.scope builder parent };

    ghost begins = { spec.TellsSampler S.counts };

    ghost may_show = { λ _. C.TracerCalls.may_show };

    /// Starts a span from a builder under a parent context.
    ///
    /// # Errors
    ///
    /// `AllocError` if out of memory. The builder is dropped.
    fn build_with_context(
        &self,
        alloc: Global,
        builder: SpanBuilder,
        parent: &Context,
    ) -> Result<SdkSpan, AllocError> {
        if parent.is_telemetry_suppressed() {
            return Ok(SdkSpan::without_data(SpanContext::NONE));
        }
        self.config.start(alloc, &self.scope, builder, parent)
    }

    /// Tells the sampler.
    fn begin(&mut self, parent: &Context, span: &SdkSpan) {
        self.config.sampler.on_start(parent, span);
    }

    /// Returns the clock's timestamp, in nanoseconds since 1970.
    fn now(&self) -> u64 {
        self.config.clock.show()
    }
}
