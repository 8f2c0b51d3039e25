//! The provider, which makes the tracers of the SDK, and its builder.
ghost use Rattle.std.specs.Prelude.{◌≡◌, IfOk, Some, None};
ghost use Rattle.std.specs.Option.{unwrap_or};
ghost use Rattle.otel_sdk_base.specs.Resource.{with_defaults};
ghost use Rattle.otel_sdk_span.specs.SpanLimits.{default_limits};
ghost use Rattle.otel_sdk.specs.ParentBased.{after_parent};
ghost use Rattle.otel_sdk.specs.Tracer as spec;

use crate::trace::tracer::calls::TracerCalls;
use crate::trace::tracer::config::TracerConfig;
use crate::trace::tracer::{SdkTracer, TracerPipeline};
use crate::trace::{IdGenerator, ParentBased, RandomIdGenerator, Sampler, ShouldSample};
use opentelemetry::trace::TracerProvider;
use opentelemetry::{InstrumentationScope, StringValue};
use otel_sdk_base::resource::Resource;
use otel_sdk_base::{Clock, SystemClock};
use otel_sdk_span::SpanLimits;
use std::alloc::{AllocError, Global};
use std::cell::Cell;
use std::marker::Model;
use std::random::RandomSource;
use std::rc::Rc;

/// The state that the tracers of a provider share.
#[derive(Drop)]
pub(crate) struct TracerProviderInner<S, G, C> {
    pub resource: Rc<Resource>,
    pub config: TracerConfig<S, G, C>,
    pub is_shut_down: Cell<bool>,
}

/// Makes the tracers of the SDK, which share the provider's sampler, generator of ids, clock and
/// limits (the Rust crate's `SdkTracerProvider`).
///
/// ```
/// let provider = SdkTracerProvider::builder(rt)
///     .with_max_events_per_span(16)
///     .build(alloc)?;
/// let tracer = provider.tracer(alloc, StringValue::from("cart"))?;
/// ```
#[derive(Drop)]
pub struct SdkTracerProvider<S, G, C> {
    inner: Rc<TracerProviderInner<S, G, C>>,
}

impl<S, G, C> Model for SdkTracerProvider<S, G, C> {
    ghost use Rattle.std.specs.Rc.{rc_value};
    ghost use Rattle.otel_sdk.specs.Tracer.{ProviderState};

    ghost Value = { ProviderState S G };

    ghost view = { λ p. record {
      sampler = (rc_value p.inner).config.sampler;
      id_generator = (rc_value p.inner).config.id_generator;
      limits = (rc_value p.inner).config.limits;
      resource = rc_value (rc_value p.inner).resource;
    } };
}

impl<R> SdkTracerProvider<ParentBased<Sampler>, RandomIdGenerator<R>, SystemClock<R>>
where
    R: RandomSource + std::time::Clock + Copy + Drop,
{
    /// Returns a builder with the defaults. Doesn't allocate.
    ///
    /// - Roots are sampled, and any other span is sampled if its parent is.
    /// - Ids are random.
    /// - The clock is the system's.
    /// - The limits are [`SpanLimits::default`].
    pub fn builder(
        rt: R,
    ) -> TracerProviderBuilder<ParentBased<Sampler>, RandomIdGenerator<R>, SystemClock<R>>
        ensures limits { result.limits ≡ default_limits }
        ensures resource { result.resource ≡ None }
        ensures sampler { result.sampler ≡ after_parent Sampler.AlwaysOn }
    {
        TracerProviderBuilder {
            resource: None,
            sampler: ParentBased::new(Sampler::AlwaysOn),
            id_generator: RandomIdGenerator::new(rt),
            clock: SystemClock::new(rt),
            limits: SpanLimits::default(),
        }
    }
}

impl<S: ShouldSample, G: IdGenerator, C: TracerCalls> SdkTracerProvider<S, G, C> {
    /// Returns the resource that the telemetry describes.
    pub fn resource(&self) -> &Resource
        ensures { result.now ≡ self.now.resource }
    {
        &self.inner.resource
    }

    /// Shuts the provider down. From now on, a span that its tracers start has no ids and doesn't
    /// record. A second call does nothing.
    pub fn shutdown(&self)
        ensures { C.is_closed }
    {
        C::close(&self.inner.is_shut_down);
    }

    /// Returns the number of spans that don't record because no ids were generated.
    pub fn failed_ids(&self) -> u64
        ensures { C.may_have_failed result }
    {
        C::failed(&self.inner.config.failed_ids)
    }
}

impl<S: ShouldSample, G: IdGenerator, C: Clock> TracerProvider for SdkTracerProvider<S, G, C> {
    ghost use Rattle.std.specs.Prelude.{◌≡◌};
    ghost use Rattle.otel_sdk.specs.Tracer as spec;

    type Tracer = SdkTracer<TracerPipeline<S, G, C>>;

    ghost may_give = { λ provider scope tracer. tracer ≡ spec.tracer_of provider scope };

    /// Returns a tracer with this scope.
    ///
    /// # Errors
    ///
    /// `AllocError` if out of memory. The scope is dropped.
    fn tracer_with_scope(
        &self,
        alloc: Global,
        scope: InstrumentationScope,
    ) -> Result<SdkTracer<TracerPipeline<S, G, C>>, AllocError> {
        let pipeline = TracerPipeline {
            provider: self.inner.clone()?,
            scope: Rc::new(alloc, scope)?,
        };
        Ok(SdkTracer { pipeline })
    }

    // The same body as the trait's: the toolchain doesn't support a default method for this type.
    fn tracer(
        &self,
        alloc: Global,
        name: StringValue,
    ) -> Result<SdkTracer<TracerPipeline<S, G, C>>, AllocError> {
        let scope = InstrumentationScope::builder(name).build(alloc)?;
        self.tracer_with_scope(alloc, scope)
    }
}

/// Builds a provider (the Rust crate's `TracerProviderBuilder`).
///
/// See [`SdkTracerProvider`].
#[derive(Drop)]
pub struct TracerProviderBuilder<S, G, C> {
    resource: Option<Resource>,
    sampler: S,
    id_generator: G,
    clock: C,
    limits: SpanLimits,
}

impl<S, G, C> Model for TracerProviderBuilder<S, G, C> {
    ghost use Rattle.otel_sdk.specs.Tracer.{ProviderParts};

    ghost Value = { ProviderParts S G };

    ghost view = { λ b. record {
      sampler = b.sampler;
      id_generator = b.id_generator;
      limits = b.limits;
      resource = b.resource;
    } };
}

/// Returns the resource, or the default one if none is given.
///
/// # Errors
///
/// `AllocError` if out of memory. The resource is dropped.
fn resource_or_default(alloc: Global, given: Option<Resource>) -> Result<Resource, AllocError>
    ensures { IfOk result (λ resource. resource ≡ unwrap_or given with_defaults) }
{
    match given {
        Some(resource) => Ok(resource),
        None => Ok(Resource::builder(alloc)?.build()),
    }
}

impl<S: ShouldSample, G: IdGenerator, C: Clock> TracerProviderBuilder<S, G, C> {
    /// Sets the resource that the telemetry describes, in place of the default one. If a resource
    /// was already set, merges the new one into it.
    ///
    /// # Errors
    ///
    /// `AllocError` if out of memory. The builder and the resource are dropped.
    pub fn with_resource(self, resource: Resource) -> Result<Self, AllocError>
        ensures { IfOk result (λ b. b ≡ spec.with_resource resource self) }
    {
        let TracerProviderBuilder {
            resource: given,
            sampler,
            id_generator,
            clock,
            limits,
        } = self;
        let resource = match given {
            Some(old) => old.merge(resource)?,
            None => resource,
        };
        Ok(TracerProviderBuilder {
            resource: Some(resource),
            sampler,
            id_generator,
            clock,
            limits,
        })
    }

    /// Sets the sampler, which decides which spans record.
    pub fn with_sampler<T: ShouldSample>(self, sampler: T) -> TracerProviderBuilder<T, G, C>
        ensures { result ≡ spec.with_sampler sampler self }
    {
        TracerProviderBuilder {
            resource: self.resource,
            sampler,
            id_generator: self.id_generator,
            clock: self.clock,
            limits: self.limits,
        }
    }

    /// Sets the generator of ids.
    pub fn with_id_generator<T: IdGenerator>(
        self,
        id_generator: T,
    ) -> TracerProviderBuilder<S, T, C>
        ensures { result ≡ spec.with_id_generator id_generator self }
    {
        TracerProviderBuilder {
            resource: self.resource,
            sampler: self.sampler,
            id_generator,
            clock: self.clock,
            limits: self.limits,
        }
    }

    /// Sets the clock, which gives the start times of spans.
    pub fn with_clock<T: Clock>(self, clock: T) -> TracerProviderBuilder<S, G, T>
        ensures { result ≡ self }
    {
        TracerProviderBuilder {
            resource: self.resource,
            sampler: self.sampler,
            id_generator: self.id_generator,
            clock,
            limits: self.limits,
        }
    }

    /// Sets all limits of spans.
    pub fn with_span_limits(self, limits: SpanLimits) -> Self
        ensures { result ≡ record self { limits = limits } }
    {
        TracerProviderBuilder { limits, ..self }
    }

    /// Sets the maximum number of events per span.
    pub fn with_max_events_per_span(self, limit: u32) -> Self
        ensures { result ≡ record self {
          limits = record self.limits { max_events_per_span = limit };
        } }
    {
        let limits = SpanLimits {
            max_events_per_span: limit,
            ..self.limits
        };
        TracerProviderBuilder { limits, ..self }
    }

    /// Sets the maximum number of attributes per span.
    pub fn with_max_attributes_per_span(self, limit: u32) -> Self
        ensures { result ≡ record self {
          limits = record self.limits { max_attributes_per_span = limit };
        } }
    {
        let limits = SpanLimits {
            max_attributes_per_span: limit,
            ..self.limits
        };
        TracerProviderBuilder { limits, ..self }
    }

    /// Sets the maximum number of links per span.
    pub fn with_max_links_per_span(self, limit: u32) -> Self
        ensures { result ≡ record self {
          limits = record self.limits { max_links_per_span = limit };
        } }
    {
        let limits = SpanLimits {
            max_links_per_span: limit,
            ..self.limits
        };
        TracerProviderBuilder { limits, ..self }
    }

    /// Sets the maximum number of attributes per event.
    pub fn with_max_attributes_per_event(self, limit: u32) -> Self
        ensures { result ≡ record self {
          limits = record self.limits { max_attributes_per_event = limit };
        } }
    {
        let limits = SpanLimits {
            max_attributes_per_event: limit,
            ..self.limits
        };
        TracerProviderBuilder { limits, ..self }
    }

    /// Sets the maximum number of attributes per link.
    pub fn with_max_attributes_per_link(self, limit: u32) -> Self
        ensures { result ≡ record self {
          limits = record self.limits { max_attributes_per_link = limit };
        } }
    {
        let limits = SpanLimits {
            max_attributes_per_link: limit,
            ..self.limits
        };
        TracerProviderBuilder { limits, ..self }
    }

    /// Sets the maximum length of a text in an attribute, in characters.
    pub fn with_max_attribute_length(self, limit: u32) -> Self
        ensures { result ≡ record self {
          limits = record self.limits { max_attribute_length = Some limit };
        } }
    {
        let limits = SpanLimits {
            max_attribute_length: Some(limit),
            ..self.limits
        };
        TracerProviderBuilder { limits, ..self }
    }

    /// Returns the resource, or the default one if none is set, and the other parts.
    ///
    /// # Errors
    ///
    /// `AllocError` if out of memory. The builder is dropped.
    pub(crate) fn into_parts(
        self,
        alloc: Global,
    ) -> Result<(Resource, TracerConfig<S, G, C>), AllocError>
        ensures resource { IfOk result (λ parts.
            parts.0 ≡ unwrap_or self.resource with_defaults) }
        ensures sampler { IfOk result (λ parts. parts.1.sampler ≡ self.sampler) }
        ensures id_generator { IfOk result (λ parts. parts.1.id_generator ≡ self.id_generator) }
        ensures limits { IfOk result (λ parts. parts.1.limits ≡ self.limits) }
    {
        let TracerProviderBuilder {
            resource,
            sampler,
            id_generator,
            clock,
            limits,
        } = self;
        let resource = resource_or_default(alloc, resource)?;
        let config = TracerConfig {
            sampler,
            id_generator,
            clock,
            limits,
            failed_ids: Cell::new(0),
        };
        Ok((resource, config))
    }

    /// Builds the provider. Without a resource, it has the default one. Its sampler may keep no
    /// state, since its tracers don't tell it which spans begin.
    ///
    /// # Errors
    ///
    /// `AllocError` if out of memory. The builder is dropped.
    // The borrow check doesn't cover a call of `into_parts` here.
    pub fn build(self, alloc: Global) -> Result<SdkTracerProvider<S, G, C>, AllocError>
        requires { S.IsStateless }
        ensures { IfOk result (λ p. p ≡ spec.provider_of self) }
    {
        let TracerProviderBuilder {
            resource,
            sampler,
            id_generator,
            clock,
            limits,
        } = self;
        let resource = resource_or_default(alloc, resource)?;
        let inner = TracerProviderInner {
            resource: Rc::new(alloc, resource)?,
            config: TracerConfig {
                sampler,
                id_generator,
                clock,
                limits,
                failed_ids: Cell::new(0),
            },
            is_shut_down: Cell::new(false),
        };
        Ok(SdkTracerProvider {
            inner: Rc::new(alloc, inner)?,
        })
    }
}
