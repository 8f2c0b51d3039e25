//! Reads the endpoints of exports by OTLP.
ghost use Rattle.std.specs.Prelude.{◌≡◌, ◌++◌, IfOk, OnOk};
ghost use Rattle.otel_sdk.specs.EnvEndpoints as spec;
ghost use Rattle.otel_sdk.specs.EnvTexts.{text_of, variables_of};

use super::texts::{is_long, text_of};
use super::warning::{EnvFault, EnvWarning, Instead, warn};
use http_uri::{Uri, UriError};
use std::alloc::{AllocError, Global};

/// What is wrong with each endpoint.
#[derive(Clone, Copy)]
pub(super) struct EndpointFaults {
    pub(super) all: Option<EnvFault>,
    pub(super) traces: Option<EnvFault>,
    pub(super) logs: Option<EnvFault>,
}

/// Returns the URL that the text spells, if it spells one.
///
/// # Errors
///
/// `AllocError` if out of memory.
fn url(alloc: Global, text: &str) -> Result<Option<Uri>, AllocError>
    ensures { IfOk result (spec.IsUrl text.now) }
{
    match Uri::from_str(alloc, text) {
        Ok(url) => Ok(Some(url)),
        Err(UriError::Invalid(_)) => Ok(None),
        Err(UriError::OutOfMemory) => Err(AllocError),
    }
}

/// Returns whether the scheme is `http` or `https`.
fn is_http(url: &Uri) -> bool
    ensures { result ≡ spec.is_http url.now }
{
    match url.scheme_str() {
        Some(scheme) => scheme == "http" || scheme == "https",
        None => false,
    }
}

/// Returns whether the text has an `@`.
fn has_at(text: &str) -> bool
    ensures { result ≡ spec.has_at text.now }
{
    text.bytes().any(|byte| byte == b'@')
}

/// Returns whether the URL has user information.
fn has_user(url: &Uri) -> bool
    ensures { result ≡ spec.has_user url.now }
{
    match url.authority() {
        Some(authority) => has_at(authority.as_str()),
        None => false,
    }
}

/// Returns whether the text has only ASCII characters.
fn is_ascii(text: &str) -> bool
    ensures { result ≡ spec.has_only_ascii text.now }
{
    text.bytes().all(|byte| byte.is_ascii())
}

/// Returns whether the URL has a host that isn't empty.
fn has_host(url: &Uri) -> bool
    ensures { result ≡ spec.has_host url.now }
{
    match url.host() {
        Some(host) => !host.is_empty(),
        None => false,
    }
}

/// Returns whether a query or a fragment begins in the text.
fn has_query(text: &str) -> bool
    ensures { result ≡ spec.has_query text.now }
{
    text.bytes().any(|byte| byte == b'?' || byte == b'#')
}

/// Returns what is wrong with the URL that the text spells, as an endpoint of one signal or of all.
fn fault_of(url: &Uri, text: &str, is_of_all: bool) -> Option<EnvFault>
    ensures { result ≡ spec.fault_of is_of_all text.now url.now }
{
    if !is_http(url) {
        Some(EnvFault::Scheme)
    } else if has_user(url) {
        Some(EnvFault::UserInfo)
    } else if !has_host(url) || !is_ascii(text) {
        Some(EnvFault::Url)
    } else if is_of_all && has_query(text) {
        Some(EnvFault::Query)
    } else {
        None
    }
}

/// Returns what is wrong with the text as an endpoint of one signal or of all.
///
/// # Errors
///
/// `AllocError` if out of memory.
fn fault(alloc: Global, text: &str, is_of_all: bool) -> Result<Option<EnvFault>, AllocError>
    ensures { IfOk result (spec.IsFault is_of_all text.now) }
{
    let url = url(alloc, text)?;
    if is_long(text) {
        return Ok(Some(EnvFault::Length));
    }
    match url {
        Some(url) => Ok(fault_of(&url, text, is_of_all)),
        None => Ok(Some(EnvFault::Url)),
    }
}

/// Returns the text as a warning shows it: without a password, and not if it is long.
fn shown(text: &str) -> &str
    ensures { result.now ≡ spec.shown text.now }
{
    if has_at(text) || is_long(text) {
        ".."
    } else {
        text
    }
}

/// Adds a warning if there is a fault and the text isn't empty.
///
/// # Errors
///
/// `AllocError` if out of memory.
fn warn_of(
    alloc: Global,
    warnings: &mut Vec<EnvWarning>,
    name: &'static str,
    text: &str,
    fault: Option<EnvFault>,
) -> Result<(), AllocError>
    ensures { OnOk result (warnings.new.items
        ≡ warnings.old.items ++ spec.fault_warnings name.now text.now fault) }
{
    match fault {
        Some(fault) => {
            let instead = Instead::Unset(fault);
            warn(alloc, warnings, false, name, shown(text), instead)
        }
        None => Ok(()),
    }
}

/// Returns what is wrong with the endpoint of the variable, with a warning if it is set.
///
/// # Errors
///
/// `AllocError` if out of memory.
fn judged(
    alloc: Global,
    vars: &[(String, String)],
    warnings: &mut Vec<EnvWarning>,
    name: &'static str,
    is_of_all: bool,
) -> Result<Option<EnvFault>, AllocError>
    ensures fault { IfOk result
        (spec.IsFault is_of_all (text_of name.now (variables_of vars.now))) }
    ensures warnings { IfOk result (λ fault. warnings.new.items ≡ warnings.old.items
        ++ spec.variable_warnings name.now fault (variables_of vars.now)) }
{
    let text = text_of(vars, name);
    let fault = fault(alloc, text, is_of_all)?;
    warn_of(alloc, warnings, name, text, fault)?;
    Ok(fault)
}

/// Returns what is wrong with each endpoint, with a warning about each that is set.
///
/// # Errors
///
/// `AllocError` if out of memory.
pub(super) fn endpoint_faults(
    alloc: Global,
    vars: &[(String, String)],
    warnings: &mut Vec<EnvWarning>,
) -> Result<EndpointFaults, AllocError>
    ensures faults { IfOk result (spec.AreFaults (variables_of vars.now)) }
    ensures warnings { IfOk result (λ faults. warnings.new.items ≡ warnings.old.items
        ++ spec.endpoint_warnings faults (variables_of vars.now)) }
{
    let name = "OTEL_EXPORTER_OTLP_ENDPOINT";
    let all = judged(alloc, vars, warnings, name, true)?;
    let name = "OTEL_EXPORTER_OTLP_TRACES_ENDPOINT";
    let traces = judged(alloc, vars, warnings, name, false)?;
    let name = "OTEL_EXPORTER_OTLP_LOGS_ENDPOINT";
    let logs = judged(alloc, vars, warnings, name, false)?;
    Ok(EndpointFaults { all, traces, logs })
}
