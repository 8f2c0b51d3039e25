//! A context that is sent and received in the W3C headers, with two propagators in turn.
ghost use Rattle.std.specs.Prelude.{◌≡◌, IfOk, OnErr, false};
ghost use Rattle.otel_context.specs.Context.{empty_context};
ghost use Rattle.opentelemetry.specs.Carrier.{text_map};
ghost use Rattle.opentelemetry.specs.Refusal.{is_refused};
ghost use Rattle.otel_propagators.specs.Laws.{ComesBack};
ghost use Rattle.otel_examples.specs.ThereAndBack.{Fills, Reads, SetsSome};

use opentelemetry::Context;
use opentelemetry::propagation::{PropagationError, TextMapPropagator};
use otel_propagators::laws::{every_context, headers_there_and_back};
use otel_propagators::{BaggagePropagator, TraceContextPropagator};
use std::alloc::Global;
use std::collections::HashMap;

/// Injects into a map.
fn inject<P: TextMapPropagator>(
    propagator: &P,
    context: &Context,
    map: &mut HashMap<String, String>,
) -> Result<(), PropagationError>
    ensures { Fills (P.pairs propagator.now context.now) (P.may_refuse propagator.now)
        map.old map.new result }
{
    propagator.inject_context(context, map)
}

/// Extracts from a map.
fn extract<P: TextMapPropagator>(
    propagator: &P,
    alloc: Global,
    context: &Context,
    map: &HashMap<String, String>,
) -> Result<Context, PropagationError>
    ensures { Reads (P.extracted propagator.now context.now) (P.may_refuse propagator.now)
        map.now result }
{
    propagator.extract_with_context(alloc, context, map)
}

/// Injects the context into the carrier with both propagators. Returns the context that they then
/// extract.
///
/// # Errors
///
/// `Memory` if out of memory. A prefix of the pairs is then set.
pub fn there_and_back(
    alloc: Global,
    trace: &TraceContextPropagator,
    baggage: &BaggagePropagator,
    context: &Context,
    carrier: &mut HashMap<String, String>,
) -> Result<Context, PropagationError>
    ensures back { IfOk result (λ back.
        ComesBack context.now (text_map carrier.old.entries) empty_context back) }
    ensures err { OnErr result (SetsSome context.now carrier.old carrier.new) }
    // These propagators and maps never refuse.
    ensures refused { is_refused result ≡ false }
{
    every_context(context);
    headers_there_and_back();
    inject(trace, context, carrier)?;
    inject(baggage, context, carrier)?;
    let given = extract(trace, alloc, &Context::new(), carrier)?;
    extract(baggage, alloc, &given, carrier)
}
