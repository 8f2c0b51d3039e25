//! The spans of requests of HTTP, by the stable semantic conventions of OpenTelemetry ("HTTP spans").

use http::header::HOST;
use http::uri::Authority;
use http::{HeaderMap, Method, StatusCode};
use opentelemetry::StringValue;
use opentelemetry::trace::{SpanBuilder, SpanKind, Status, Tracing};
use otel_semantic_conventions::attribute::{
    ERROR_TYPE, HTTP_REQUEST_METHOD, HTTP_RESPONSE_STATUS_CODE, HTTP_ROUTE, SERVER_ADDRESS,
    SERVER_PORT, URL_FULL, URL_PATH, URL_SCHEME,
};
use std::alloc::{AllocError, Global};

/// The methods that the conventions name.
const METHODS: [&'static str; 9] = [
    "CONNECT", "DELETE", "GET", "HEAD", "OPTIONS", "PATCH", "POST", "PUT", "TRACE",
];

/// Returns a span that is named after the method and, if there is one, the route. An unknown method
/// is `_OTHER`, and the name is then `HTTP`.
fn named_span(
    alloc: Global,
    kind: SpanKind,
    method: &str,
    route: Option<&'static str>,
) -> Result<SpanBuilder, AllocError> {
    let known = METHODS.iter().find(|known| **known == method).copied();
    let name = known.unwrap_or("HTTP");
    let name = match route {
        Some(route) => StringValue::from(format!(in alloc; "{name} {route}")?),
        None => StringValue::from(name),
    };
    SpanBuilder::from_name(name)
        .with_kind(kind)
        .with_attribute(alloc, HTTP_REQUEST_METHOD, known.unwrap_or("_OTHER"))
}

/// Adds the host and the port that a client named.
fn with_host(alloc: Global, span: SpanBuilder, host: &str) -> Result<SpanBuilder, AllocError> {
    let Ok(host) = Authority::from_str(alloc, host) else {
        return Ok(span);
    };
    let address = String::from_str(alloc, host.host())?;
    let span = span.with_attribute(alloc, SERVER_ADDRESS, address)?;
    match host.port_u16() {
        Some(port) => span.with_attribute(alloc, SERVER_PORT, i64::from(port)),
        None => Ok(span),
    }
}

/// Returns the span of a request that is served. The route is the path of the handler, if there is
/// one.
///
/// # Errors
///
/// Out of memory.
pub fn server_span(
    alloc: Global,
    method: &Method,
    path: &str,
    route: Option<&'static str>,
    headers: &HeaderMap,
) -> Result<SpanBuilder, AllocError> {
    let mut span = named_span(alloc, SpanKind::Server, method.as_str(), route)?
        .with_attribute(alloc, URL_SCHEME, "http")?
        .with_attribute(alloc, URL_PATH, String::from_str(alloc, path)?)?;
    if let Some(route) = route {
        span = span.with_attribute(alloc, HTTP_ROUTE, route)?;
    }
    match headers.get(&HOST).map(|host| host.to_str()) {
        Some(Ok(host)) => with_host(alloc, span, host),
        _ => Ok(span),
    }
}

/// Returns the span of a `GET` of a path that is sent to a host.
///
/// # Errors
///
/// Out of memory.
pub fn client_span(alloc: Global, host: &str, path: &str) -> Result<SpanBuilder, AllocError> {
    let span = named_span(alloc, SpanKind::Client, "GET", None)?;
    let url = format!(in alloc; "http://{host}{path}")?;
    with_host(alloc, span.with_attribute(alloc, URL_FULL, url)?, host)
}

/// Shows the status of the response in the current span. A 5xx is an error of both kinds of spans,
/// and a 4xx only of a client's.
///
/// # Errors
///
/// Out of memory.
pub fn set_response(
    tracing: &mut impl Tracing,
    alloc: Global,
    kind: SpanKind,
    status: StatusCode,
) -> Result<(), AllocError> {
    tracing.set(HTTP_RESPONSE_STATUS_CODE, i64::from(status.as_u16()))?;
    if status.is_server_error() || (kind == SpanKind::Client && status.is_client_error()) {
        tracing.set(ERROR_TYPE, format!(in alloc; "{}", status.as_u16())?)?;
        tracing.set_status(Status::error("".into()))?;
    }
    Ok(())
}
