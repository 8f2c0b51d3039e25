//! The configuration of an SDK by environment variables.
ghost use Rattle.std.specs.Prelude.{◌≡◌, [], IsOk, IfOk};
ghost use Rattle.otel_sdk.specs.EnvConfig as spec;
ghost use Rattle.otel_sdk.specs.EnvConfig.{config_of};
ghost use Rattle.otel_sdk.specs.EnvTexts.{variables_of};

mod builders;
mod configured;
mod endpoints;
mod export;
mod groups;
mod headers;
mod help;
mod limits;
mod loggers;
mod propagators;
mod read;
mod sampler;
mod texts;
mod unsupported;
mod variables;
mod warning;

use crate::trace::Sampler;
pub use builders::WithEnv;
pub use configured::ConfiguredPropagator;
pub use export::EnvExporter;
use groups::{Choices, Limits, Outlets, read_choices, read_limits, read_outlets};
pub use limits::EnvBatches;
use opentelemetry::StringValue;
pub use otel_sdk_base::otlp::{EnvEndpoint, EnvOtlp};
use otel_sdk_base::resource::Resource;
use otel_sdk_logs::LogRecordLimits;
use otel_sdk_span::SpanLimits;
pub use propagators::EnvPropagator;
pub use read::WarningSink;
pub use sampler::EnvSampler;
use std::alloc::{AllocError, Global};
pub use variables::VariableSource;
pub use warning::{EnvFault, EnvWarning, Instead};

/// The configuration that environment variables give.
///
/// A variable that is empty counts as one that isn't set, and blanks at the ends of a text don't
/// count. Names of samplers, propagators, exporters and protocols have any case. A text that isn't
/// understood is never an error: the default counts, and a warning is in `warnings`. Numbers are
/// written as ASCII digits, and are at most 4294967295.
///
/// The variables, with the defaults in parentheses:
///
/// - `OTEL_SDK_DISABLED`: `true` or `false`, in any case (`false`).
/// - `OTEL_SERVICE_NAME`, `OTEL_RESOURCE_ATTRIBUTES`: see [`Resource::from_texts`].
/// - `OTEL_PROPAGATORS`: a list of `tracecontext`, `baggage`, `b3` and `b3multi`, or `none`
///   (`tracecontext,baggage`). Of a list, what is understood counts.
/// - `OTEL_TRACES_SAMPLER`: `always_on`, `always_off`, `traceidratio`, or one of these after
///   `parentbased_` (`parentbased_always_on`).
/// - `OTEL_TRACES_SAMPLER_ARG`: the ratio, from 0 to 1 (1).
/// - `OTEL_ATTRIBUTE_COUNT_LIMIT` (128), and in its place `OTEL_SPAN_ATTRIBUTE_COUNT_LIMIT` and
///   `OTEL_LOGRECORD_ATTRIBUTE_COUNT_LIMIT`.
/// - `OTEL_ATTRIBUTE_VALUE_LENGTH_LIMIT`, in characters (none), and in its place
///   `OTEL_SPAN_ATTRIBUTE_VALUE_LENGTH_LIMIT`.
/// - `OTEL_SPAN_EVENT_COUNT_LIMIT`, `OTEL_SPAN_LINK_COUNT_LIMIT`,
///   `OTEL_EVENT_ATTRIBUTE_COUNT_LIMIT`, `OTEL_LINK_ATTRIBUTE_COUNT_LIMIT` (128 each).
/// - `OTEL_BSP_MAX_QUEUE_SIZE`, from 1 (2048), and `OTEL_BSP_MAX_EXPORT_BATCH_SIZE`, from 1 to the
///   queue's (512).
/// - `OTEL_BSP_SCHEDULE_DELAY` and `OTEL_BSP_EXPORT_TIMEOUT`, in milliseconds (5000, 30000).
/// - The four with `OTEL_BLRP_` in place of `OTEL_BSP_`, for log records (2048, 512, 1000, 30000).
/// - `OTEL_TRACES_EXPORTER`, `OTEL_LOGS_EXPORTER`: `otlp`, `console` or `none` (`otlp`).
/// - `OTEL_EXPORTER_OTLP_ENDPOINT` (`http://localhost:4318`), and in its place
///   `OTEL_EXPORTER_OTLP_TRACES_ENDPOINT` and `OTEL_EXPORTER_OTLP_LOGS_ENDPOINT`: a URL of `http` or
///   `https` with a host and without user information. The first has no query and no fragment.
/// - `OTEL_EXPORTER_OTLP_HEADERS`: `NAME=VALUE,..` (none), and in its place
///   `OTEL_EXPORTER_OTLP_TRACES_HEADERS` and `OTEL_EXPORTER_OTLP_LOGS_HEADERS`. Of a list, what is
///   understood counts: the name and the value, their escapes decoded, are those of a header, without
///   blanks at their ends, but not `Content-Type`, `Content-Length`, `Transfer-Encoding` or `Host`.
/// - `OTEL_EXPORTER_OTLP_TIMEOUT`, in milliseconds (10000).
/// - `OTEL_EXPORTER_OTLP_PROTOCOL`: `http/json`. `OTEL_EXPORTER_OTLP_COMPRESSION`: `none`. Both also
///   with `TRACES_` or `LOGS_` after `OTLP_`.
///
/// No URL and no list of headers has more than 65,000 bytes. So an exporter refuses none that is
/// handed on here. Each other variable of exports by OTLP, `OTEL_CONFIG_FILE`, `OTEL_LOG_LEVEL` and
/// `OTEL_LOGRECORD_ATTRIBUTE_VALUE_LENGTH_LIMIT` give a warning if they are set, since they aren't
/// supported.
///
/// With the list that `std::env::vars` gives:
///
/// ```
/// let config = EnvConfig::from_vars(alloc, vars.as_slice())?;
/// let mut tracing = TracingBuilder::new(rt)
///     .with_env(alloc, &config)?
///     .counted(1)
///     .with_exporter(InMemorySpanExporter::new(alloc))
///     .build(alloc, "shop")?;
/// ```
#[derive(Debug)]
pub struct EnvConfig {
    /// Whether the SDK is disabled: no span is recorded.
    pub is_disabled: bool,
    /// The name of the service, or an empty text.
    pub service_name: StringValue,
    /// The list of the resource's attributes.
    pub resource_attributes: StringValue,
    /// The propagators, each once, in order of first appearance.
    pub propagators: Vec<EnvPropagator>,
    /// The sampler.
    pub sampler: EnvSampler,
    /// The limits of spans.
    pub span_limits: SpanLimits,
    /// The limits of log records.
    pub log_limits: LogRecordLimits,
    /// The sizes and times of a batch processor of spans.
    pub span_batches: EnvBatches,
    /// The sizes and times of a batch processor of log records.
    pub log_batches: EnvBatches,
    /// The exporter of spans.
    pub traces_exporter: EnvExporter,
    /// The exporter of log records.
    pub logs_exporter: EnvExporter,
    /// Where spans are sent by OTLP.
    pub otlp_traces: EnvOtlp,
    /// Where log records are sent by OTLP.
    pub otlp_logs: EnvOtlp,
    /// The time that an export by OTLP may take, in milliseconds.
    pub otlp_timeout_millis: u32,
    /// The texts that don't count, in the order of the variables above.
    pub warnings: Vec<EnvWarning>,
}

// Written out, so that a caller's proof has one call here, and not the drops of all parts.
impl Drop for EnvConfig {
    fn drop(self) {
        let EnvConfig {
            is_disabled: _,
            service_name: _,
            resource_attributes: _,
            propagators: _,
            sampler: _,
            span_limits: _,
            log_limits: _,
            span_batches: _,
            log_batches: _,
            traces_exporter: _,
            logs_exporter: _,
            otlp_traces: _,
            otlp_logs: _,
            otlp_timeout_millis: _,
            warnings: _,
        } = self;
    }
}

/// Returns the configuration of these parts.
fn joined(
    choices: Choices,
    limits: Limits,
    outlets: Outlets,
    warnings: Vec<EnvWarning>,
) -> EnvConfig
    ensures { result ≡ spec.joined choices limits outlets warnings }
{
    EnvConfig {
        is_disabled: choices.is_disabled,
        service_name: choices.service_name,
        resource_attributes: choices.resource_attributes,
        propagators: choices.propagators,
        sampler: choices.sampler,
        span_limits: limits.span_limits,
        log_limits: limits.log_limits,
        span_batches: limits.span_batches,
        log_batches: limits.log_batches,
        traces_exporter: outlets.traces_exporter,
        logs_exporter: outlets.logs_exporter,
        otlp_traces: outlets.otlp.traces,
        otlp_logs: outlets.otlp.logs,
        otlp_timeout_millis: outlets.otlp_timeout_millis,
        warnings,
    }
}

impl EnvConfig {
    /// The variables, a line each: the name, the values, and in parentheses the default. For the
    /// `--help` of a program.
    pub const HELP: &'static str = help::HELP;

    /// Reads the configuration from the names and texts of environment variables. If a name is
    /// given twice, the first text counts, as for the `getenv` of C.
    ///
    /// # Errors
    ///
    /// `AllocError` if out of memory.
    pub fn from_vars(alloc: Global, vars: &[(String, String)]) -> Result<EnvConfig, AllocError>
        ensures { IfOk result (λ config.
            spec.IsConfigOf (variables_of vars.now) (config_of config)) }
    {
        let mut warnings = Vec::new(alloc);
        let choices = read_choices(alloc, vars, &mut warnings)?;
        let limits = read_limits(alloc, vars, &mut warnings)?;
        let outlets = read_outlets(alloc, vars, &mut warnings)?;
        Ok(joined(choices, limits, outlets, warnings))
    }

    /// Returns the default resource, updated by the one that the variables describe.
    ///
    /// # Errors
    ///
    /// `AllocError` if out of memory.
    pub fn resource(&self, alloc: Global) -> Result<Resource, AllocError>
        ensures { IfOk result (λ r. r ≡ spec.resource_of self.now) }
    {
        let attributes = self.resource_attributes.as_str();
        let name = self.service_name.as_str();
        let (given, _error) = Resource::from_texts(alloc, attributes, name)?;
        Resource::builder(alloc)?.build().merge(given)
    }

    /// Returns the sampler that counts: if the SDK is disabled, it samples no trace.
    pub fn sampler(&self) -> EnvSampler
        ensures { result ≡ spec.sampler_of self.now }
    {
        if self.is_disabled {
            EnvSampler::Plain(Sampler::AlwaysOff)
        } else {
            self.sampler
        }
    }

    /// Returns the propagator of the listed ones, in order.
    ///
    /// # Errors
    ///
    /// `AllocError` if out of memory, which can't happen if none is listed.
    pub fn propagator(&self, alloc: Global) -> Result<ConfiguredPropagator, AllocError>
        ensures made { self.now.propagators.items ≡ [] → IsOk result }
        ensures names { IfOk result (λ p. p ≡ self.now.propagators.items) }
    {
        ConfiguredPropagator::new(alloc, self.propagators.as_slice())
    }
}
