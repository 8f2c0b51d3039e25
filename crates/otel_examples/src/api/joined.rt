//! A context that is sent and received with two composites, joined in either order.
ghost use Rattle.std.specs.Prelude.{◌≡◌, ◌||◌, IfOk, IsTrue, false};
ghost use Rattle.otel_context.specs.Context.{empty_context};
ghost use Rattle.opentelemetry.specs.Carrier.{text_map};
ghost use Rattle.opentelemetry.specs.Refusal.{is_refused};
ghost use Rattle.otel_propagators.specs.Laws.{ComesBack};
ghost use Rattle.otel_examples.specs.Composite.{ArrivesBy};

use crate::api::composite::send_and_receive;
use opentelemetry::Context;
use opentelemetry::propagation::{PropagationError, TextMapCompositePropagator, TextMapPropagator};
use otel_propagators::{BaggagePropagator, TraceContextPropagator};
use std::alloc::Global;
use std::collections::HashMap;

/// Which of two composites comes first when they are joined.
///
/// See [`there_and_back_by`].
#[derive(Clone, Copy, Debug)]
pub enum First {
    /// The composite of the trace context's propagator.
    Trace,
    /// The composite of the baggage's propagator.
    Baggage,
}

/// Joins composites of the first and of the second propagator, and injects the context with both.
/// Returns the context that they then extract.
fn by_both(
    alloc: Global,
    first: Box<dyn TextMapPropagator>,
    second: Box<dyn TextMapPropagator>,
    context: &Context,
    headers: &mut HashMap<String, String>,
) -> Result<Context, PropagationError>
    // If these are both W3C propagators, the context that was sent is returned.
    ensures back { ArrivesBy first second (λ m. pairs m) (λ m. extracted m) context.now
        headers.old headers.new result }
    ensures refused { IsTrue (is_refused result)
        → IsTrue (may_refuse first || may_refuse second) }
{
    let first = vec![in alloc; first]?;
    let second = vec![in alloc; second]?;
    let first = TextMapCompositePropagator::new(alloc, first)?;
    let second = TextMapCompositePropagator::new(alloc, second)?;
    let both = first.join(alloc, second)?;
    send_and_receive(alloc, &both, context, headers)
}

/// Injects the context into the W3C headers with joined composites of the trace context's
/// propagator and of the baggage's. Returns the context that they then extract.
///
/// # Errors
///
/// `Memory` if out of memory. Some of the headers may then be set.
pub fn there_and_back_by(
    alloc: Global,
    first: First,
    context: &Context,
    headers: &mut HashMap<String, String>,
) -> Result<Context, PropagationError>
    ensures back { IfOk result (λ back.
        ComesBack context.now (text_map headers.old.entries) empty_context back) }
    ensures refused { is_refused result ≡ false }
{
    let trace = Box::new(alloc, TraceContextPropagator::new(alloc)?)?;
    let baggage = Box::new(alloc, BaggagePropagator::new(alloc)?)?;
    match first {
        First::Trace => by_both(alloc, trace, baggage, context, headers),
        First::Baggage => by_both(alloc, baggage, trace, context, headers),
    }
}
