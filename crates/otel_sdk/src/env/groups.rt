//! Reads the variables in three groups.
ghost use Rattle.std.specs.Prelude.{◌≡◌, ◌++◌, IfOk, OnOk};
ghost use Rattle.otel_sdk.specs.EnvConfig as spec;
ghost use Rattle.otel_sdk.specs.EnvExport as export;
ghost use Rattle.otel_sdk.specs.EnvLimits as limits;
ghost use Rattle.otel_sdk.specs.EnvPropagators.{propagators};
ghost use Rattle.otel_sdk.specs.EnvSampler.{sampler};
ghost use Rattle.otel_sdk.specs.EnvTexts.{variables_of};

use super::endpoints::EndpointFaults;
use super::export::EnvExporter;
use super::limits::EnvBatches;
use super::propagators::EnvPropagator;
use super::sampler::EnvSampler;
use super::warning::EnvWarning;
use super::{endpoints, export, headers, limits, propagators, sampler, unsupported};
use opentelemetry::StringValue;
use otel_sdk_base::otlp::EnvOtlp;
use otel_sdk_logs::LogRecordLimits;
use otel_sdk_span::SpanLimits;
use std::alloc::{AllocError, Global};

/// Who traces, and what.
#[derive(Drop)]
pub(super) struct Choices {
    pub(super) is_disabled: bool,
    pub(super) service_name: StringValue,
    pub(super) resource_attributes: StringValue,
    pub(super) propagators: Vec<EnvPropagator>,
    pub(super) sampler: EnvSampler,
}

/// Returns who traces, and what.
///
/// # Errors
///
/// `AllocError` if out of memory.
pub(super) fn read_choices(
    alloc: Global,
    vars: &[(String, String)],
    warnings: &mut Vec<EnvWarning>,
) -> Result<Choices, AllocError>
    ensures disabled { IfOk result (λ c.
        c.is_disabled ≡ export.is_disabled (variables_of vars.now)) }
    ensures service { IfOk result (λ c.
        c.service_name ≡ export.service_name (variables_of vars.now)) }
    ensures resource { IfOk result (λ c.
        c.resource_attributes ≡ export.resource_attributes (variables_of vars.now)) }
    ensures propagators { IfOk result (λ c.
        c.propagators.items ≡ propagators (variables_of vars.now)) }
    ensures sampler { IfOk result (λ c. c.sampler ≡ sampler (variables_of vars.now)) }
    ensures warnings { OnOk result (warnings.new.items ≡ warnings.old.items
        ++ spec.choice_warnings (variables_of vars.now)) }
{
    let service_name = export::service_name(alloc, vars)?;
    let is_disabled = export::is_disabled(alloc, vars, warnings)?;
    let resource_attributes = export::resource_attributes(alloc, vars, warnings)?;
    let propagators = propagators::propagators(alloc, vars, warnings)?;
    let sampler = sampler::sampler(alloc, vars, warnings)?;
    Ok(Choices {
        is_disabled,
        service_name,
        resource_attributes,
        propagators,
        sampler,
    })
}

/// All limits.
#[derive(Drop)]
pub(super) struct Limits {
    pub(super) span_limits: SpanLimits,
    pub(super) log_limits: LogRecordLimits,
    pub(super) span_batches: EnvBatches,
    pub(super) log_batches: EnvBatches,
}

/// Returns all limits.
///
/// # Errors
///
/// `AllocError` if out of memory.
pub(super) fn read_limits(
    alloc: Global,
    vars: &[(String, String)],
    warnings: &mut Vec<EnvWarning>,
) -> Result<Limits, AllocError>
    ensures spans { IfOk result (λ l. l.span_limits ≡ limits.span_limits (variables_of vars.now)) }
    ensures logs { IfOk result (λ l. l.log_limits ≡ limits.log_limits (variables_of vars.now)) }
    ensures span_batches { IfOk result (λ l. l.span_batches
        ≡ limits.batches limits.span_names 5000 (variables_of vars.now)) }
    ensures log_batches { IfOk result (λ l. l.log_batches
        ≡ limits.batches limits.log_names 1000 (variables_of vars.now)) }
    ensures warnings { OnOk result (warnings.new.items ≡ warnings.old.items
        ++ spec.limits_warnings (variables_of vars.now)) }
{
    let general = limits::attribute_limits(alloc, vars, warnings)?;
    let span_limits = limits::span_limits(alloc, vars, warnings, general)?;
    let log_limits = limits::log_limits(alloc, vars, warnings, general)?;
    let span_batches = limits::span_batches(alloc, vars, warnings)?;
    let log_batches = limits::log_batches(alloc, vars, warnings)?;
    Ok(Limits {
        span_limits,
        log_limits,
        span_batches,
        log_batches,
    })
}

/// Where spans and log records are sent, and what is wrong with the endpoints.
#[derive(Drop)]
pub(super) struct Destinations {
    pub(super) traces: EnvOtlp,
    pub(super) logs: EnvOtlp,
    pub(super) faults: EndpointFaults,
}

/// Returns where spans and log records are sent.
///
/// # Errors
///
/// `AllocError` if out of memory.
fn read_destinations(
    alloc: Global,
    vars: &[(String, String)],
    warnings: &mut Vec<EnvWarning>,
) -> Result<Destinations, AllocError>
    ensures read { IfOk result (spec.AreDestinations (variables_of vars.now)) }
    ensures warnings { IfOk result (λ d. warnings.new.items ≡ warnings.old.items
        ++ spec.destination_warnings d.faults (variables_of vars.now)) }
{
    let faults = endpoints::endpoint_faults(alloc, vars, warnings)?;
    headers::warn_of_headers(alloc, vars, warnings)?;
    let traces = export::otlp_traces(alloc, vars, faults)?;
    let logs = export::otlp_logs(alloc, vars, faults)?;
    Ok(Destinations {
        traces,
        logs,
        faults,
    })
}

/// Where to export.
#[derive(Drop)]
pub(super) struct Outlets {
    pub(super) traces_exporter: EnvExporter,
    pub(super) logs_exporter: EnvExporter,
    pub(super) otlp: Destinations,
    pub(super) otlp_timeout_millis: u32,
}

/// Returns where to export.
///
/// # Errors
///
/// `AllocError` if out of memory.
pub(super) fn read_outlets(
    alloc: Global,
    vars: &[(String, String)],
    warnings: &mut Vec<EnvWarning>,
) -> Result<Outlets, AllocError>
    ensures traces { IfOk result (λ o.
        o.traces_exporter ≡ spec.traces_exporter (variables_of vars.now)) }
    ensures logs { IfOk result (λ o.
        o.logs_exporter ≡ spec.logs_exporter (variables_of vars.now)) }
    ensures otlp { IfOk result (λ o. spec.AreDestinations (variables_of vars.now) o.otlp) }
    ensures timeout { IfOk result (λ o.
        o.otlp_timeout_millis ≡ export.timeout_millis (variables_of vars.now)) }
    ensures warnings { IfOk result (λ o. warnings.new.items ≡ warnings.old.items
        ++ spec.outlet_warnings o.otlp.faults (variables_of vars.now)) }
{
    let traces_exporter = export::exporter(alloc, vars, warnings, "OTEL_TRACES_EXPORTER")?;
    let logs_exporter = export::exporter(alloc, vars, warnings, "OTEL_LOGS_EXPORTER")?;
    let otlp = read_destinations(alloc, vars, warnings)?;
    let otlp_timeout_millis = export::timeout_millis(alloc, vars, warnings)?;
    unsupported::warn_of_all(alloc, vars, warnings)?;
    Ok(Outlets {
        traces_exporter,
        logs_exporter,
        otlp,
        otlp_timeout_millis,
    })
}
