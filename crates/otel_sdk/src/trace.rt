//! Providers, tracers, spans and their recorded data, exporters and processors, samplers,
//! generators of ids, and clocks.
mod history;
mod id_generator;
mod in_memory_exporter;
mod processor;
mod provider;
mod sampler;
mod source;
mod start;
mod tracer;
mod tracing;

pub use id_generator::{
    ByteSource, CountCell, CountedIdGenerator, CountedIds, IdError, IdGenerator, RandomIdGenerator,
};
pub use in_memory_exporter::{FinishedSpans, InMemorySpanExporter};
pub use otel_sdk_base::{
    BatchConfig, BatchConfigBuilder, Clock, CountedClock, Exporter, InMemoryExporter, Losses,
    ManualClock, SystemClock,
};
pub use otel_sdk_span::{SdkSpan, SpanData, SpanEvents, SpanExporter, SpanLimits, SpanLinks};
pub use processor::SpanProcessor;
pub use processor::baggage::BaggageSpanProcessor;
pub use processor::batch::BatchSpanProcessor;
pub use processor::configured::{ConfiguredProcessor, ExporterProcessor};
pub use processor::simple::SimpleSpanProcessor;
pub use provider::{SdkTracerProvider, TracerProviderBuilder};
pub use sampler::parent_based::ParentBased;
pub use sampler::rate::RateLimitingSampler;
pub use sampler::{
    Sampler, SamplingDecision, SamplingParameters, SamplingResult, ShouldSample, laws,
};
pub use source::SdkSource;
pub use tracer::calls::TracerCalls;
pub use tracer::{OpenPipeline, Pipeline, SdkTracer, TracerPipeline};
pub use tracing::{
    Build, ExportSchedule, Exports, SdkTracing, StandardPipeline, TracingBuilder, Unfinished,
    WithExporter, WithProcessor, finish,
};
