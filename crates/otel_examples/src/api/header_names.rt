//! The names of the headers that a composite sets and reads.
ghost use Rattle.std.specs.Prelude.{◌≡◌, ◌∷◌, [], IfOk, codes, map, string_bytes};
ghost use Rattle.otel_examples.specs.Composite.{AreFields, Keeps};

use crate::api::request_id::RequestId;
use opentelemetry::propagation::{TextMapCompositePropagator, TextMapPropagator};
use otel_propagators::{BaggagePropagator, TraceContextPropagator};
use std::alloc::{AllocError, Global};

/// Returns the names of the headers that a composite's members set and read, each once, in order
/// of first appearance. A gateway lets these headers through, or removes them.
///
/// # Errors
///
/// `AllocError` if out of memory. Nothing changes.
pub fn header_names(
    alloc: Global,
    composite: &TextMapCompositePropagator,
) -> Result<Vec<String>, AllocError>
    // The composite keeps its members' fields. Each composite from `new` or `join` does.
    requires { Keeps composite.now (λ m. field_names m) }
    ensures { IfOk result (λ names.
        AreFields composite.now (λ m. field_names m) (map string_bytes names.items)) }
{
    let mut names = Vec::new(alloc);
    for name in composite.fields() {
        names.push(String::from_str(alloc, name)?)?;
    }
    Ok(names)
}

/// Returns the names of the headers of two joined composites: one with both W3C propagators, and
/// one with the baggage propagator again and the propagator of a request's id.
///
/// # Errors
///
/// `AllocError` if out of memory.
pub fn gateway_headers(alloc: Global) -> Result<Vec<String>, AllocError>
    ensures { IfOk result (λ names. map string_bytes names.items
        ≡ codes "traceparent" ∷ codes "tracestate" ∷ codes "baggage" ∷ codes "x-request-id" ∷ []) }
{
    let mut standard: Vec<Box<dyn TextMapPropagator>> = Vec::new(alloc);
    standard.push(Box::new(alloc, TraceContextPropagator::new(alloc)?)?)?;
    standard.push(Box::new(alloc, BaggagePropagator::new(alloc)?)?)?;
    let mut own: Vec<Box<dyn TextMapPropagator>> = Vec::new(alloc);
    own.push(Box::new(alloc, BaggagePropagator::new(alloc)?)?)?;
    own.push(Box::new(alloc, RequestId::new(alloc)?)?)?;
    let standard = TextMapCompositePropagator::new(alloc, standard)?;
    let own = TextMapCompositePropagator::new(alloc, own)?;
    let composite = standard.join(alloc, own)?;
    header_names(alloc, &composite)
}
