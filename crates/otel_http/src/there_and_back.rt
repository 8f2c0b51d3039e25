//! Sends a context through HTTP headers and receives it, with the W3C propagators.
ghost use Rattle.std.specs.Prelude.{◌<◌, IfOk, IsTrue};
ghost use Rattle.otel_context.specs.Context.{empty_context};
ghost use Rattle.opentelemetry.specs.Extraction.{Extracts};
ghost use Rattle.opentelemetry.specs.Injection.{Injects};
ghost use Rattle.opentelemetry.specs.Refusal.{is_refused};
ghost use Rattle.otel_http.specs.Headers.{texts};
ghost use Rattle.otel_http.specs.Injector.{state};
ghost use Rattle.otel_propagators.specs.Laws.{ComesBack};

use crate::{HeaderExtractor, HeaderInjector};
use opentelemetry::Context;
use opentelemetry::propagation::{PropagationError, TextMapPropagator};
use otel_propagators::laws::{every_context, headers_there_and_back};
use otel_propagators::{BaggagePropagator, TraceContextPropagator};
use std::alloc::Global;

/// Injects into headers.
fn inject<P: TextMapPropagator>(
    propagator: &P,
    context: &Context,
    injector: &mut HeaderInjector,
) -> Result<(), PropagationError>
    ensures { Injects (P.pairs propagator.now context.now) (P.may_refuse propagator.now)
        (state injector.old) (state injector.new) result }
{
    propagator.inject_context(context, injector)
}

/// Extracts from headers.
fn extract<P: TextMapPropagator>(
    propagator: &P,
    alloc: Global,
    context: &Context,
    extractor: &HeaderExtractor,
) -> Result<Context, PropagationError>
    ensures { Extracts (P.extracted propagator.now context.now extractor.now)
        (P.may_refuse propagator.now) result }
{
    propagator.extract_with_context(alloc, context, extractor)
}

/// Injects the context into the headers with both propagators, and extracts it from them into an
/// empty context.
///
/// # Errors
///
/// `Memory` if out of memory. `Refused` if the headers refuse a text. The injector counts it. In
/// both cases, a prefix of the pairs is set.
pub fn there_and_back(
    alloc: Global,
    trace: &TraceContextPropagator,
    baggage: &BaggagePropagator,
    context: &Context,
    injector: &mut HeaderInjector,
) -> Result<Context, PropagationError>
    ensures back { IfOk result (λ back.
        ComesBack context.now (texts injector.old.headers) empty_context back) }
    ensures counted { IsTrue (is_refused result)
        → (state injector.old).refusals < (state injector.new).refusals }
{
    every_context(context);
    headers_there_and_back();
    inject(trace, context, injector)?;
    inject(baggage, context, injector)?;
    let extractor = HeaderExtractor::new(alloc, &injector.headers)?;
    let given = extract(trace, alloc, &Context::new(), &extractor)?;
    extract(baggage, alloc, &given, &extractor)
}
