//! The builder of the SDK's value that traces.
ghost use Rattle.std.specs.Prelude.{◌≡◌, ◌&&◌, ◌||◌, [], IfOk, None, false, true};
ghost use Rattle.opentelemetry.specs.Scope.{scope_of_name};
ghost use Rattle.otel_sdk.specs.ParentBased.{after_parent};
ghost use Rattle.otel_sdk.specs.Tracer.{with_id_generator, with_resource, with_sampler};
ghost use Rattle.otel_sdk.specs.TracingBuilder.{IsBuilt, with_last, with_provider};
ghost use Rattle.otel_sdk_base.specs.Queue.{default_limits as default_batches, new as new_queue};
ghost use Rattle.otel_sdk_span.specs.SpanLimits.{default_limits};

use super::SdkTracing;
use crate::trace::processor::SpanProcessor;
use crate::trace::processor::batch::BatchSpanProcessor;
use crate::trace::processor::configured::{ConfiguredProcessor, ExporterProcessor};
use crate::trace::source::SdkSource;
use crate::trace::tracer::OpenPipeline;
use crate::trace::{
    CountedClock, CountedIdGenerator, IdGenerator, ParentBased, RandomIdGenerator, Sampler,
    SdkTracerProvider, ShouldSample, TracerProviderBuilder,
};
use opentelemetry::trace::{LocalTracing, SpanSource};
use opentelemetry::{InstrumentationScope, StringValue};
use otel_sdk_base::resource::Resource;
use otel_sdk_base::{BatchConfig, Clock, SystemClock};
use otel_sdk_span::{SpanExporter, SpanLimits};
use std::alloc::{AllocError, AllocGlobal, Global};
use std::marker::Model;
use std::random::RandomSource;
use std::rc::Rc;

/// Builds an [`SdkTracing`].
///
/// ```
/// let builder = TracingBuilder::new(rt).with_exporter(exporter);
/// let mut tracing = builder.build(alloc, "cart")?;
/// ```
pub struct TracingBuilder<S, G, C, X: SpanProcessor> {
    alloc: Global,
    provider: TracerProviderBuilder<S, G, C>,
    processors: X,
    config: BatchConfig,
    exports: bool,
    is_disabled: bool,
}

// Written out, so that a caller's proof has one call here, and not the drops of all parts.
impl<S: Drop, G: Drop, C: Drop, X: SpanProcessor> Drop for TracingBuilder<S, G, C, X> {
    fn drop(self) {
        let TracingBuilder {
            alloc: _,
            provider: _,
            processors: _,
            config: _,
            exports: _,
            is_disabled: _,
        } = self;
    }
}

impl<S, G, C, X: SpanProcessor> Model for TracingBuilder<S, G, C, X> {
    ghost use Rattle.std.specs.Prelude.{[]};
    ghost use Rattle.otel_sdk.specs.TracingBuilder.{BuilderParts};

    ghost Value = { BuilderParts S G X };

    ghost view = { λ b. record {
      provider = b.provider;
      processors = b.processors;
      config = b.config;
      exports = b.exports;
      is_disabled = b.is_disabled;
    } };

    ghost invariant = { λ b. X.calls.AccountsFor b.processors [] };
}

/// The pipeline with the defaults.
pub type StandardPipeline<R> = OpenPipeline<
    ParentBased<Sampler>,
    RandomIdGenerator<R>,
    SystemClock<R>,
>;

impl<R> TracingBuilder<ParentBased<Sampler>, RandomIdGenerator<R>, SystemClock<R>, ()>
where
    R: RandomSource + std::time::Clock + AllocGlobal + Copy + Drop,
{
    /// Returns a builder with the defaults of [`SdkTracerProvider::builder`] and of
    /// [`BatchConfig`], without processors. Takes no memory.
    pub fn new(rt: R) -> Self
        ensures limits { result.provider.limits ≡ default_limits }
        ensures resource { result.provider.resource ≡ None }
        ensures sampler { result.provider.sampler ≡ after_parent Sampler.AlwaysOn }
        ensures batches { result.config ≡ default_batches }
        ensures exporting { result.exports ≡ true }
        ensures enabled { result.is_disabled ≡ false }
    {
        TracingBuilder {
            alloc: rt.alloc(),
            provider: SdkTracerProvider::builder(rt),
            processors: (),
            config: BatchConfig::default(),
            exports: true,
            is_disabled: false,
        }
    }
}

impl<S: ShouldSample, G: IdGenerator, C: Clock, X: SpanProcessor> TracingBuilder<S, G, C, X> {
    /// Sets the sampler, which decides which spans record.
    pub fn with_sampler<T: ShouldSample>(self, sampler: T) -> TracingBuilder<T, G, C, X>
        ensures { result ≡ with_provider (with_sampler sampler self.provider) self }
    {
        let TracingBuilder {
            alloc,
            provider,
            processors,
            config,
            exports,
            is_disabled,
        } = self;
        TracingBuilder {
            alloc,
            provider: provider.with_sampler(sampler),
            processors,
            config,
            exports,
            is_disabled,
        }
    }

    /// Sets the generator of ids.
    pub fn with_id_generator<T: IdGenerator>(self, id_generator: T) -> TracingBuilder<S, T, C, X>
        ensures { result ≡ with_provider (with_id_generator id_generator self.provider) self }
    {
        let TracingBuilder {
            alloc,
            provider,
            processors,
            config,
            exports,
            is_disabled,
        } = self;
        TracingBuilder {
            alloc,
            provider: provider.with_id_generator(id_generator),
            processors,
            config,
            exports,
            is_disabled,
        }
    }

    /// Sets the clock, which shows the timestamps at which spans start and end.
    pub fn with_clock<T: Clock>(self, clock: T) -> TracingBuilder<S, G, T, X>
        ensures { result ≡ self }
    {
        let TracingBuilder {
            alloc,
            provider,
            processors,
            config,
            exports,
            is_disabled,
        } = self;
        TracingBuilder {
            alloc,
            provider: provider.with_clock(clock),
            processors,
            config,
            exports,
            is_disabled,
        }
    }

    /// Counts ids up from 1, and lets each reading of the clock be `step` nanoseconds later than
    /// the one before, so that every run gives the same spans. Use it in tests and examples.
    pub fn counted(self, step: u64) -> TracingBuilder<S, CountedIdGenerator, CountedClock, X>
        ensures { result ≡ with_provider
            (with_id_generator result.provider.id_generator self.provider) self }
    {
        self.with_id_generator(CountedIdGenerator::new())
            .with_clock(CountedClock::new(step))
    }

    /// Sets the resource: the entity that the spans describe.
    ///
    /// # Errors
    ///
    /// `AllocError` if out of memory. The parts are dropped.
    pub fn with_resource(self, resource: Resource) -> Result<Self, AllocError>
        ensures { IfOk result (λ b. b
            ≡ with_provider (with_resource resource self.provider) self) }
    {
        let TracingBuilder {
            alloc,
            provider,
            processors,
            config,
            exports,
            is_disabled,
        } = self;
        Ok(TracingBuilder {
            alloc,
            provider: provider.with_resource(resource)?,
            processors,
            config,
            exports,
            is_disabled,
        })
    }

    /// Sets the limits of the spans.
    pub fn with_limits(self, limits: SpanLimits) -> Self
        ensures { result ≡ record self {
          provider = record self.provider { limits = limits };
        } }
    {
        let TracingBuilder {
            alloc,
            provider,
            processors,
            config,
            exports,
            is_disabled,
        } = self;
        TracingBuilder {
            alloc,
            provider: provider.with_span_limits(limits),
            processors,
            config,
            exports,
            is_disabled,
        }
    }

    /// Sets the maximum size of the queue and of a batch, for the exporters that are added later.
    pub fn with_batch_config(self, config: BatchConfig) -> Self
        ensures { result ≡ record self { config = config } }
    {
        let mut builder = self;
        builder.config = config;
        builder
    }

    /// Disables the value: it starts no spans, generates no ids and takes no memory. Contexts are
    /// attached, received and sent as ever.
    pub fn disabled(self) -> Self
        ensures { result ≡ record self { is_disabled = true } }
    {
        self.disabled_if(true)
    }

    /// Lets exporters that are added later get spans only on the condition.
    pub(super) fn exporting_if(self, condition: bool) -> Self
        ensures { result ≡ record self { exports = self.exports && condition } }
    {
        let mut builder = self;
        builder.exports = builder.exports && condition;
        builder
    }

    /// Disables the value on the condition.
    pub(super) fn disabled_if(self, condition: bool) -> Self
        ensures { result ≡ record self { is_disabled = self.is_disabled || condition } }
    {
        let mut builder = self;
        builder.is_disabled = builder.is_disabled || condition;
        builder
    }
}

/// Adds a processor to a builder.
///
/// A trait of a final call, and not a method: the borrow checker covers no call of a method of a
/// builder whose processors hold lifetimes beside the `'static` of a span's strings.
pub trait WithProcessor<Q>: Sized {
    /// The builder with one more processor.
    type With;

    ghost has_no_spans: { Q → Type 0 };

    ghost may_give: { Self → Q → Self.With → Type 0 };

    /// Adds the processor, as [`WithProcessor::with_processor`].
    fn push_processor(self, processor: Q) -> Self::With
        requires { has_no_spans processor }
        ensures { may_give self processor result };

    /// Adds the processor after the ones before. It is told of each span that begins and ends. No
    /// span may have ended there.
    final fn with_processor(self, processor: Q) -> Self::With
        requires { has_no_spans processor }
        ensures { may_give self processor result }
    {
        self.push_processor(processor)
    }
}

impl<S, G, C, X, Q> WithProcessor<Q> for TracingBuilder<S, G, C, X>
where
    S: ShouldSample,
    G: IdGenerator,
    C: Clock,
    X: SpanProcessor,
    Q: SpanProcessor,
{
    type With = TracingBuilder<S, G, C, (X, Q)>;

    ghost has_no_spans = { λ processor. Q.calls.AccountsFor processor [] };

    ghost may_give = { λ builder processor made. made ≡ with_last processor builder };

    fn push_processor(self, processor: Q) -> TracingBuilder<S, G, C, (X, Q)> {
        let TracingBuilder {
            alloc,
            provider,
            processors,
            config,
            exports,
            is_disabled,
        } = self;
        TracingBuilder {
            alloc,
            provider,
            processors: (processors, processor),
            config,
            exports,
            is_disabled,
        }
    }
}

/// Adds an exporter to a builder. See [`WithProcessor`] for why it is a trait.
pub trait WithExporter<E>: Sized {
    /// The builder with one more exporter.
    type With;

    ghost may_give: { Self → E → Self.With → Type 0 };

    /// Adds the exporter, as [`WithExporter::with_exporter`].
    fn push_exporter(self, exporter: E) -> Self::With
        ensures { may_give self exporter result };

    /// Adds a [`BatchSpanProcessor`] with the exporter after the processors before, with the sizes
    /// that the builder has now. If the environment that the builder took says that spans aren't
    /// exported, nothing reaches the exporter.
    final fn with_exporter(self, exporter: E) -> Self::With
        ensures { may_give self exporter result }
    {
        self.push_exporter(exporter)
    }
}

impl<S, G, C, X, E> WithExporter<E> for TracingBuilder<S, G, C, X>
where
    S: ShouldSample,
    G: IdGenerator,
    C: Clock,
    X: SpanProcessor,
    E: SpanExporter,
{
    ghost use Rattle.std.specs.Prelude.{◌∷◌, [], not};
    ghost use Rattle.otel_sdk_base.specs.Queue as queue;

    type With = TracingBuilder<S, G, C, (X, ExporterProcessor<E>)>;

    ghost may_give = { λ builder exporter made. made ≡ with_last (record {
      processor = record {
        queue = queue.new exporter builder.config;
        given = exporter ∷ [];
        skips = 0;
      };
      is_off = not builder.exports;
    }) builder };

    fn push_exporter(self, exporter: E) -> Self::With {
        let TracingBuilder {
            alloc,
            provider,
            processors,
            config,
            exports,
            is_disabled,
        } = self;
        let processor = BatchSpanProcessor::new(alloc, exporter, config);
        let processor = ConfiguredProcessor::new(processor, !exports);
        TracingBuilder {
            alloc,
            provider,
            processors: (processors, processor),
            config,
            exports,
            is_disabled,
        }
    }
}

/// Is made over a source of spans. See [`WithProcessor`] for why it is a trait.
trait OverSource<B>: Sized {
    ghost can_make: { B → Type 0 };

    ghost may_make: { B → Self → Type 0 };

    /// Returns the value over the source.
    ///
    /// # Errors
    ///
    /// `AllocError` if out of memory. The source is dropped.
    fn make(alloc: Global, source: B) -> Result<Self, AllocError>
        requires { can_make source }
        ensures { IfOk result (may_make source) };
}

impl<B: SpanSource> OverSource<B> for LocalTracing<B> {
    ghost use Rattle.std.specs.Prelude.{◌≡◌, IsPermutation, map};
    ghost use Rattle.opentelemetry.specs.Tracing as tracing;

    ghost can_make = { λ source. IsPermutation (map B.calls.ids_of (B.calls.taken source))
        (map B.calls.ids_of (B.calls.begun source)) };

    ghost may_make = { λ source made. made ≡ tracing.at_start source };

    fn make(alloc: Global, source: B) -> Result<LocalTracing<B>, AllocError> {
        LocalTracing::new(alloc, source)
    }
}

/// Returns a value over the source.
///
/// # Errors
///
/// `AllocError` if out of memory. The source is dropped.
fn over<T: OverSource<B>, B>(alloc: Global, source: B) -> Result<T, AllocError>
    requires { T.can_make source }
    ensures { IfOk result (T.may_make source) }
{
    T::make(alloc, source)
}

/// Builds a value that traces. See [`WithProcessor`] for why it is a trait.
pub trait Build: Sized {
    ghost use Rattle.std.specs.Prelude.{ℕ, List};

    /// The value.
    type Built;

    ghost may_build: { Self → List ℕ → Self.Built → Type 0 };

    /// Builds the value, as [`Build::build`].
    ///
    /// # Errors
    ///
    /// As [`Build::build`].
    fn build_named(self, alloc: Global, name: StringValue) -> Result<Self::Built, AllocError>
        ensures { IfOk result (may_build self name) };

    /// Returns the value of the given parts, whose spans have the scope named `name`. If no resource
    /// names the service, that is its name too. Tells the exporters the resource.
    ///
    /// # Errors
    ///
    /// `AllocError` if out of memory. The parts are dropped.
    final fn build<N>(self, alloc: Global, name: N) -> Result<Self::Built, AllocError>
    where
        StringValue: From<N>,
        ensures { IfOk result (λ made. (text : List ℕ)
            × ⟦<StringValue as From<N>>⟧.from_gives name text × may_build self text made) }
    {
        self.build_named(alloc, StringValue::from(name))
    }
}

impl<S, G, C, X> Build for TracingBuilder<S, G, C, X>
where
    S: ShouldSample,
    G: IdGenerator,
    C: Clock,
    X: SpanProcessor,
{
    type Built = SdkTracing<OpenPipeline<S, G, C>, X>;

    ghost may_build = { λ builder name made.
        IsBuilt X.calls builder (scope_of_name name) made };

    fn build_named(
        self,
        alloc: Global,
        name: StringValue,
    ) -> Result<SdkTracing<OpenPipeline<S, G, C>, X>, AllocError> {
        let TracingBuilder {
            alloc: _,
            provider,
            mut processors,
            config: _,
            exports: _,
            is_disabled,
        } = self;
        let (resource, start) = provider.into_parts(alloc)?;
        let resource = resource.for_service(name.clone()?)?;
        processors.set_resource(&Rc::new(alloc, resource)?)?;
        let scope = InstrumentationScope::builder(name).build(alloc)?;
        let pipeline = OpenPipeline {
            config: start,
            scope: Rc::new(alloc, scope)?,
        };
        over(alloc, SdkSource::new(pipeline, processors, is_disabled))
    }
}
