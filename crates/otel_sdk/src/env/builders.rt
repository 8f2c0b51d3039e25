//! Builders of providers that environment variables configure.
ghost use Rattle.std.specs.Prelude.{◌≡◌, ◌||◌, IfOk};
ghost use Rattle.otel_sdk.specs.EnvConfig.{provider_with_env};

use crate::env::{EnvConfig, EnvSampler};
use crate::trace::{IdGenerator, ShouldSample, TracerProviderBuilder};
use otel_sdk_base::Clock;
use otel_sdk_logs::LoggerProviderBuilder;
use std::alloc::{AllocError, Global};

impl<S: ShouldSample, G: IdGenerator, C: Clock> TracerProviderBuilder<S, G, C> {
    /// Sets the sampler, the resource and the limits of spans that the environment gives, or their
    /// defaults. A call that comes later wins. If the SDK is disabled, no span is sampled.
    ///
    /// # Errors
    ///
    /// `AllocError` if out of memory. The builder is dropped.
    pub fn with_env(
        self,
        alloc: Global,
        config: &EnvConfig,
    ) -> Result<TracerProviderBuilder<EnvSampler, G, C>, AllocError>
        ensures { IfOk result (λ b. b ≡ provider_with_env config.now self) }
    {
        let builder = self
            .with_sampler(config.sampler())
            .with_span_limits(config.span_limits);
        builder.with_resource(config.resource(alloc)?)
    }
}

/// A builder of another crate that environment variables configure. Not in the Rust crate.
///
/// The sizes of a queue of log records are for its processor: `config.log_batches.config()`.
///
/// ```
/// let provider = SdkLoggerProvider::builder(rt)
///     .with_log_processor(processor)
///     .with_env(alloc, &config)?
///     .build(alloc)?;
/// ```
pub trait WithEnv: Drop {
    ghost use Rattle.otel_sdk.specs.declared.env.EnvConfig.{EnvConfig};

    ghost configured: { EnvConfig → Self → Self → Type 0 };

    /// Sets the parts that the environment gives, or their defaults. A call that comes later wins.
    ///
    /// # Errors
    ///
    /// `AllocError` if out of memory. The builder is dropped.
    fn with_env(self, alloc: Global, config: &EnvConfig) -> Result<Self, AllocError>
        ensures { IfOk result (configured config.now self) };
}

/// Returns the builder, disabled on the condition.
pub(super) fn disabled_if<P: Drop, C: Clock>(
    builder: LoggerProviderBuilder<P, C>,
    condition: bool,
) -> LoggerProviderBuilder<P, C>
    ensures { result ≡ record builder { is_disabled = builder.is_disabled || condition } }
{
    if condition {
        builder.disabled()
    } else {
        builder
    }
}

/// Sets the resource and the limits of log records. If the SDK is disabled, so is the provider.
impl<P: Drop, C: Clock> WithEnv for LoggerProviderBuilder<P, C> {
    ghost use Rattle.std.specs.Prelude.{◌≡◌};
    ghost use Rattle.otel_sdk.specs.EnvConfig.{loggers_with_env};

    ghost configured = { λ config builder given. given ≡ loggers_with_env config builder };

    fn with_env(self, alloc: Global, config: &EnvConfig) -> Result<Self, AllocError> {
        let builder = self.with_log_record_limits(config.log_limits);
        let builder = disabled_if(builder, config.is_disabled);
        builder.with_resource(config.resource(alloc)?)
    }
}
