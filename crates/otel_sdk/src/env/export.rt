//! Reads whether the SDK is disabled, the resource, and where to export.
ghost use Rattle.std.specs.Prelude.{◌≡◌, ◌++◌, IfOk, OnOk};
ghost use Rattle.otel_sdk.specs.EnvExport as spec;
ghost use Rattle.otel_sdk.specs.EnvTexts.{variables_of};

use super::endpoints::EndpointFaults;
use super::headers::listed_headers;
use super::texts::{is_named, number_or, short, text_of};
use super::warning::{EnvFault, EnvWarning, Instead, warn};
use opentelemetry::StringValue;
use otel_sdk_base::otlp::{EnvEndpoint, EnvOtlp};
use otel_sdk_base::resource::Resource;
use std::alloc::{AllocError, Global};

/// The exporter that a variable names. `otlp` and `console` are for the caller, who makes the
/// exporter.
#[derive(Clone, Copy, Debug, PartialEq, Eq)]
pub enum EnvExporter {
    /// `otlp`: to a collector.
    Otlp,
    /// `console`: to the standard output.
    Console,
    /// `none`: nowhere.
    Nothing,
}

impl EnvExporter {
    /// Returns `true` unless the variable names `none`.
    pub fn exports(self) -> bool
        ensures { result ≡ spec.exports self }
    {
        match self {
            EnvExporter::Otlp | EnvExporter::Console => true,
            EnvExporter::Nothing => false,
        }
    }
}

/// Returns a copy of the text.
///
/// # Errors
///
/// `AllocError` if out of memory.
fn kept(alloc: Global, text: &str) -> Result<StringValue, AllocError>
    ensures { IfOk result (λ copy. copy ≡ text.now) }
{
    Ok(StringValue::from(String::from_str(alloc, text)?))
}

/// Returns whether the text is `true`, in any case.
fn is_true(text: &str) -> bool
    ensures { result ≡ spec.is_true text.now }
{
    is_named(text, "true")
}

/// Returns whether the text is `false`, in any case.
fn is_false(text: &str) -> bool
    ensures { result ≡ spec.is_false text.now }
{
    is_named(text, "false")
}

/// Returns whether the text is `true` or `false`, in any case.
fn is_switch(text: &str) -> bool
    ensures { result ≡ spec.is_switch text.now }
{
    is_true(text) || is_false(text)
}

/// Returns whether the SDK is disabled.
///
/// # Errors
///
/// `AllocError` if out of memory.
pub(super) fn is_disabled(
    alloc: Global,
    vars: &[(String, String)],
    warnings: &mut Vec<EnvWarning>,
) -> Result<bool, AllocError>
    ensures disabled { IfOk result (λ b. b ≡ spec.is_disabled (variables_of vars.now)) }
    ensures warnings { OnOk result (warnings.new.items ≡ warnings.old.items
        ++ spec.disabled_warnings (variables_of vars.now)) }
{
    let name = "OTEL_SDK_DISABLED";
    let text = text_of(vars, name);
    warn(alloc, warnings, is_switch(text), name, text, Instead::False)?;
    Ok(is_true(text))
}

/// Returns the name of the service.
///
/// # Errors
///
/// `AllocError` if out of memory.
pub(super) fn service_name(
    alloc: Global,
    vars: &[(String, String)],
) -> Result<StringValue, AllocError>
    ensures { IfOk result (λ name. name ≡ spec.service_name (variables_of vars.now)) }
{
    kept(alloc, text_of(vars, "OTEL_SERVICE_NAME"))
}

/// Returns the list of the resource's attributes.
///
/// # Errors
///
/// `AllocError` if out of memory.
pub(super) fn resource_attributes(
    alloc: Global,
    vars: &[(String, String)],
    warnings: &mut Vec<EnvWarning>,
) -> Result<StringValue, AllocError>
    ensures text { IfOk result (λ text. text
        ≡ spec.resource_attributes (variables_of vars.now)) }
    ensures warnings { OnOk result (warnings.new.items ≡ warnings.old.items
        ++ spec.resource_warnings (variables_of vars.now)) }
{
    let name = "OTEL_RESOURCE_ATTRIBUTES";
    let text = text_of(vars, name);
    let (_resource, error) = Resource::from_texts(alloc, text, "")?;
    warn(
        alloc,
        warnings,
        error.is_none(),
        name,
        text,
        Instead::Nothing,
    )?;
    kept(alloc, text)
}

/// Returns the exporter of the name.
fn named(text: &str) -> Option<EnvExporter>
    ensures { result ≡ spec.named text.now }
{
    if is_named(text, "otlp") {
        Some(EnvExporter::Otlp)
    } else if is_named(text, "console") {
        Some(EnvExporter::Console)
    } else if is_named(text, "none") {
        Some(EnvExporter::Nothing)
    } else {
        None
    }
}

/// Returns the exporter that the variable names.
///
/// # Errors
///
/// `AllocError` if out of memory.
pub(super) fn exporter(
    alloc: Global,
    vars: &[(String, String)],
    warnings: &mut Vec<EnvWarning>,
    name: &'static str,
) -> Result<EnvExporter, AllocError>
    ensures exporter { IfOk result (λ e. e ≡ spec.exporter name.now (variables_of vars.now)) }
    ensures warnings { OnOk result (warnings.new.items ≡ warnings.old.items
        ++ spec.exporter_warnings name.now (variables_of vars.now)) }
{
    let text = text_of(vars, name);
    let named = named(text);
    warn(alloc, warnings, named.is_some(), name, text, Instead::Otlp)?;
    Ok(named.unwrap_or(EnvExporter::Otlp))
}

/// Returns whether the endpoint of this text, with this fault, counts.
fn counts(fault: Option<EnvFault>, text: &str) -> bool
    ensures { result ≡ spec.counts fault text.now }
{
    fault.is_none() && !text.is_empty()
}

/// Returns the endpoint of a signal whose own one has the name and this fault.
///
/// # Errors
///
/// `AllocError` if out of memory.
fn endpoint(
    alloc: Global,
    vars: &[(String, String)],
    own: &str,
    fault: Option<EnvFault>,
    fault_of_all: Option<EnvFault>,
) -> Result<EnvEndpoint, AllocError>
    ensures { IfOk result (λ e. e
        ≡ spec.endpoint own.now fault fault_of_all (variables_of vars.now)) }
{
    let own = text_of(vars, own);
    if counts(fault, own) {
        return Ok(EnvEndpoint::Exact(kept(alloc, own)?));
    }
    let general = text_of(vars, "OTEL_EXPORTER_OTLP_ENDPOINT");
    if counts(fault_of_all, general) {
        return Ok(EnvEndpoint::Base(kept(alloc, general)?));
    }
    Ok(EnvEndpoint::Base(StringValue::from("http://localhost:4318")))
}

/// Returns the headers of a signal whose own ones have the name.
///
/// # Errors
///
/// `AllocError` if out of memory.
fn headers(alloc: Global, vars: &[(String, String)], own: &str) -> Result<StringValue, AllocError>
    ensures { IfOk result (λ h. h ≡ spec.headers own.now (variables_of vars.now)) }
{
    let own = short(text_of(vars, own));
    let listed = if own.is_empty() {
        short(text_of(vars, "OTEL_EXPORTER_OTLP_HEADERS"))
    } else {
        own
    };
    Ok(StringValue::from(listed_headers(alloc, listed)?))
}

/// Returns the time that an export may take, in milliseconds.
///
/// # Errors
///
/// `AllocError` if out of memory.
pub(super) fn timeout_millis(
    alloc: Global,
    vars: &[(String, String)],
    warnings: &mut Vec<EnvWarning>,
) -> Result<u32, AllocError>
    ensures timeout { IfOk result (λ n. n ≡ spec.timeout_millis (variables_of vars.now)) }
    ensures warnings { OnOk result (warnings.new.items ≡ warnings.old.items
        ++ spec.timeout_warnings (variables_of vars.now)) }
{
    let name = "OTEL_EXPORTER_OTLP_TIMEOUT";
    number_or(alloc, vars, warnings, name, 0, 10000)
}

/// Returns where spans are sent, whose endpoints have these faults.
///
/// # Errors
///
/// `AllocError` if out of memory.
pub(super) fn otlp_traces(
    alloc: Global,
    vars: &[(String, String)],
    faults: EndpointFaults,
) -> Result<EnvOtlp, AllocError>
    ensures { IfOk result (λ o. o ≡ spec.otlp_traces faults (variables_of vars.now)) }
{
    let own = "OTEL_EXPORTER_OTLP_TRACES_ENDPOINT";
    Ok(EnvOtlp {
        endpoint: endpoint(alloc, vars, own, faults.traces, faults.all)?,
        headers: headers(alloc, vars, "OTEL_EXPORTER_OTLP_TRACES_HEADERS")?,
    })
}

/// Returns where log records are sent, whose endpoints have these faults.
///
/// # Errors
///
/// `AllocError` if out of memory.
pub(super) fn otlp_logs(
    alloc: Global,
    vars: &[(String, String)],
    faults: EndpointFaults,
) -> Result<EnvOtlp, AllocError>
    ensures { IfOk result (λ o. o ≡ spec.otlp_logs faults (variables_of vars.now)) }
{
    let own = "OTEL_EXPORTER_OTLP_LOGS_ENDPOINT";
    Ok(EnvOtlp {
        endpoint: endpoint(alloc, vars, own, faults.logs, faults.all)?,
        headers: headers(alloc, vars, "OTEL_EXPORTER_OTLP_LOGS_HEADERS")?,
    })
}
