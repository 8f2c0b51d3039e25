//! Loggers that environment variables configure.
ghost use Rattle.std.specs.Prelude.{◌≡◌, IfOk, OnOk};
ghost use Rattle.opentelemetry.specs.Scope.{scope_of_name};
ghost use Rattle.otel_sdk.specs.EnvConfig.{resource_of};
ghost use Rattle.otel_sdk_base.specs.Resource.{for_service};

use super::EnvConfig;
use super::builders::disabled_if;
use opentelemetry::StringValue;
use opentelemetry::logs::LoggerProvider;
use otel_sdk_base::SystemClock;
use otel_sdk_logs::{RecordIntake, SdkLogger, SdkLoggerProvider};
use std::alloc::{AllocError, Global};
use std::time::Clock;

impl EnvConfig {
    /// Returns a logger whose scope has the name, and whose records go to the processor, with the
    /// resource and the limits that the environment gives, or their defaults. If the environment
    /// names no service, it has the name too. If the SDK is disabled, so is the logger. The
    /// runtime's clock gives the observed times.
    ///
    /// ```
    /// let lines = SimpleLogProcessor::new(alloc, OtlpJsonLogExporter::new(alloc, rt.stderr())?)?;
    /// let logger = config.logger(alloc, rt, lines, "shop")?;
    /// ```
    ///
    /// # Errors
    ///
    /// `AllocError` if out of memory. The processor is dropped.
    pub fn logger<P: RecordIntake, R: Clock + Copy + Drop>(
        &self,
        alloc: Global,
        rt: R,
        processor: P,
        name: &'static str,
    ) -> Result<SdkLogger<P, SystemClock<R>>, AllocError>
        ensures logger { IfOk result (λ logger. logger ≡ record {
          scope = scope_of_name name.now;
          limits = self.now.log_limits;
          is_disabled = self.now.is_disabled;
        }) }
        ensures told { OnOk result (P.is_told (for_service name.now (resource_of self.now))) }
    {
        let resource = self.resource(alloc)?;
        let builder = SdkLoggerProvider::builder(rt)
            .with_log_processor(processor)
            .with_log_record_limits(self.log_limits)
            .with_resource(resource.for_service(StringValue::from(name))?)?;
        let provider = disabled_if(builder, self.is_disabled).build(alloc)?;
        provider.logger(alloc, StringValue::from(name))
    }
}
