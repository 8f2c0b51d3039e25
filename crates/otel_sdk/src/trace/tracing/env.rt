//! A value that traces and that environment variables configure.
ghost use Rattle.std.specs.Prelude.{◌≡◌, IfOk};
ghost use Rattle.otel_sdk.specs.EnvConfig.{with_env};

use super::TracingBuilder;
use crate::env::{EnvConfig, EnvSampler};
use crate::trace::processor::SpanProcessor;
use crate::trace::{IdGenerator, ShouldSample};
use otel_sdk_base::Clock;
use std::alloc::{AllocError, Global};

impl<S: ShouldSample, G: IdGenerator, C: Clock, X: SpanProcessor> TracingBuilder<S, G, C, X> {
    /// Sets the sampler, the resource, the limits of spans and the sizes of batches that the
    /// environment gives, or their defaults. A call that comes later wins. If the SDK is disabled,
    /// so is the value. The sizes are for the exporters that are added later, which get no span if
    /// the environment names `none`.
    ///
    /// # Errors
    ///
    /// `AllocError` if out of memory. The parts are dropped.
    pub fn with_env(
        self,
        alloc: Global,
        config: &EnvConfig,
    ) -> Result<TracingBuilder<EnvSampler, G, C, X>, AllocError>
        ensures { IfOk result (λ b. b ≡ with_env config.now self) }
    {
        let builder = self
            .with_sampler(config.sampler())
            .with_limits(config.span_limits)
            .with_batch_config(config.span_batches.config())
            .exporting_if(config.traces_exporter.exports())
            .disabled_if(config.is_disabled);
        builder.with_resource(config.resource(alloc)?)
    }
}
