//! The propagator of the headers `traceparent` and `tracestate`.
ghost use Rattle.std.specs.Prelude.{◌≡◌, IfOk, map, string_bytes, option_copied};
ghost use Rattle.std.specs.Option.{option_and_then};
ghost use Rattle.otel_propagators.specs.TraceParent.{parent_of};
ghost use Rattle.otel_propagators.specs.TraceContext.{state_of, trace_fields};

use crate::trace_context::traceparent::Parent;
use opentelemetry::Context;
use opentelemetry::propagation::text_map_propagator::FieldIter;
use opentelemetry::propagation::{Extractor, Injector, PropagationError, TextMapPropagator};
use opentelemetry::trace::{TraceState, TraceStateError};
use std::alloc::{AllocError, Global};

mod digits;
mod traceparent;

pub(crate) const TRACEPARENT: &str = "traceparent";

pub(crate) const TRACESTATE: &str = "tracestate";

/// Propagates the span context of a context from one process to another, in the headers
/// `traceparent` and `tracestate` (W3C trace-context-2; `TraceContextPropagator` of the Rust crate
/// `opentelemetry_sdk`).
///
/// A `traceparent` is `00-`, 32 lower-case hexadecimal digits of the trace id, `-`, 16 of the span
/// id, `-` and 2 of the flags. All eight bits of the flags are written and read.
///
/// A value of a `tracestate` may contain any byte except `,` and `=`, even CR, LF and NUL. A
/// carrier of text lines must refuse such a value.
///
/// See `otel_examples::api::service`, which uses a propagator of any type.
#[derive(Drop)]
pub struct TraceContextPropagator {
    alloc: Global,
    fields: Vec<String>,
    ghost named: { map string_bytes fields.items ≡ trace_fields },
}

impl TraceContextPropagator {
    /// Returns a propagator with the fields `traceparent` and `tracestate`.
    ///
    /// # Errors
    ///
    /// `AllocError` if out of memory for the fields' names.
    pub fn new(alloc: Global) -> Result<TraceContextPropagator, AllocError> {
        let traceparent = String::from_str(alloc, TRACEPARENT)?;
        let tracestate = String::from_str(alloc, TRACESTATE)?;
        let fields = vec![in alloc; traceparent, tracestate]?;
        Ok(TraceContextPropagator { alloc, fields })
    }
}

/// Reads the ids and flags of a `traceparent`, if it is present and has the right form.
fn read_parent(value: Option<&str>) -> Option<Parent>
    ensures { result ≡ option_and_then parent_of (option_copied value.entry) }
{
    traceparent::read(value?)
}

/// Reads the trace state of a `tracestate`. Returns an empty one if the value is absent or can't be
/// read.
fn read_state(alloc: Global, value: Option<&str>) -> Result<TraceState, AllocError>
    ensures { IfOk result (λ state. state ≡ state_of (option_copied value.entry)) }
{
    let Some(text) = value else {
        return Ok(TraceState::NONE);
    };
    match TraceState::from_str(alloc, text) {
        Ok(state) => Ok(state),
        Err(TraceStateError::Memory(error)) => Err(error),
        Err(_) => Ok(TraceState::NONE),
    }
}

/// Sets `traceparent`, and then `tracestate` with the header of the trace state, even if that is
/// empty. Both texts are made before the first is set. Sets nothing if the span context isn't
/// valid.
///
/// Extracts a copy of the given context with the remote span context of the two values, or a copy
/// of the given context if `traceparent` is absent, doesn't have this form between blanks, or has
/// an id that is 0. If `tracestate` is absent or can't be read, the trace state is empty. Never
/// refuses.
impl TextMapPropagator for TraceContextPropagator {
    ghost use Rattle.std.specs.Prelude.{false};
    ghost use Rattle.otel_propagators.specs.TraceContext.{trace_pairs, trace_extracted};
    ghost use Rattle.otel_propagators.specs.TraceContext.{trace_fields};

    ghost pairs = { λ _ context. trace_pairs context };

    ghost extracted = { λ _ context texts. trace_extracted context texts };

    ghost field_names = { λ _. trace_fields };

    ghost may_refuse = { λ _. false };

    fn inject_context(
        &self,
        context: &Context,
        injector: &mut dyn Injector,
    ) -> Result<(), PropagationError> {
        let span_context = context.span_context();
        if !span_context.is_valid() {
            return Ok(());
        }
        let traceparent = traceparent::write(self.alloc, span_context)?;
        let tracestate = span_context.trace_state().header(self.alloc)?;
        injector.set(TRACEPARENT, traceparent)?;
        injector.set(TRACESTATE, tracestate)
    }

    fn extract_with_context(
        &self,
        alloc: Global,
        context: &Context,
        extractor: &dyn Extractor,
    ) -> Result<Context, PropagationError> {
        let traceparent = extractor.get(alloc, TRACEPARENT)?;
        let Some(parent) = read_parent(traceparent) else {
            return Ok(context.clone()?);
        };
        let trace_state = read_state(alloc, extractor.get(alloc, TRACESTATE)?)?;
        Ok(context.with_remote_span_context(alloc, parent.remote(trace_state))?)
    }

    fn fields(&self) -> FieldIter<'_> {
        FieldIter::new(&self.fields)
    }
}
