//! HTTP requests: the context in the headers of a received request, and in a sent one.
ghost use Rattle.std.specs.Prelude.{◌≡◌, IfOk, OnOk};
ghost use Rattle.otel_context.specs.Context.{empty_context};
ghost use Rattle.opentelemetry.specs.Carrier.{Sets};
ghost use Rattle.opentelemetry.specs.Extraction.{Extracts};
ghost use Rattle.otel_http.specs.Headers.{texts};

use http_header::HeaderMap;
use opentelemetry::Context;
use opentelemetry::propagation::{PropagationError, TextMapPropagator};
use otel_http::{HeaderExtractor, HeaderInjector};
use std::alloc::Global;

/// Injects into headers.
fn inject<P: TextMapPropagator>(
    propagator: &P,
    context: &Context,
    injector: &mut HeaderInjector,
) -> Result<(), PropagationError>
    ensures { OnOk result (Sets (texts injector.old.headers)
        (P.pairs propagator.now context.now) (texts injector.new.headers)) }
{
    propagator.inject_context(context, injector)
}

/// Extracts from headers.
fn extract<P: TextMapPropagator>(
    propagator: &P,
    alloc: Global,
    context: &Context,
    extractor: &HeaderExtractor,
) -> Result<Context, PropagationError>
    ensures { Extracts (P.extracted propagator.now context.now extractor.now)
        (P.may_refuse propagator.now) result }
{
    propagator.extract_with_context(alloc, context, extractor)
}

/// Returns the context that the headers of a request carry.
///
/// # Errors
///
/// `Memory` if out of memory; `Refused` if the propagator refuses.
pub fn received<P: TextMapPropagator>(
    alloc: Global,
    propagator: &P,
    headers: &HeaderMap,
) -> Result<Context, PropagationError>
    ensures { IfOk result (λ context.
        context ≡ P.extracted propagator.now empty_context (texts headers.now)) }
{
    let extractor = HeaderExtractor::new(alloc, headers)?;
    extract(propagator, alloc, &Context::new(), &extractor)
}

/// Returns the headers with the context, for a request that is sent.
///
/// # Errors
///
/// `Memory` if out of memory; `Refused` if the propagator or the headers refuse. The headers are
/// dropped.
pub fn sent<P: TextMapPropagator>(
    propagator: &P,
    context: &Context,
    headers: HeaderMap,
) -> Result<HeaderMap, PropagationError>
    ensures { IfOk result (λ sent.
        Sets (texts headers) (P.pairs propagator.now context.now) (texts sent)) }
{
    let mut injector = HeaderInjector::new(headers);
    inject(propagator, context, &mut injector)?;
    Ok(injector.into_headers())
}
