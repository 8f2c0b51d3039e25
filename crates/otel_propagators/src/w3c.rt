//! The propagator of the headers `traceparent`, `tracestate` and `baggage`.
ghost use Rattle.std.specs.Prelude.{◌≡◌, map, string_bytes};
ghost use Rattle.otel_propagators.specs.W3cPropagator.{w3c_fields};

use crate::baggage::{BAGGAGE_HEADER, BaggagePropagator};
use crate::trace_context::{TRACEPARENT, TRACESTATE, TraceContextPropagator};
use opentelemetry::Context;
use opentelemetry::propagation::text_map_propagator::FieldIter;
use opentelemetry::propagation::{Extractor, Injector, PropagationError, TextMapPropagator};
use std::alloc::{AllocError, Global};

/// Propagates the span context and the baggage of a context, in the headers of the W3C. Not in the
/// Rust crate, where a composite has both propagators.
///
/// Injects and extracts with a [`TraceContextPropagator`], and then with a [`BaggagePropagator`].
/// Never refuses.
///
/// ```
/// let propagator = W3cPropagator::new(alloc)?;
/// ```
pub struct W3cPropagator {
    trace_context: TraceContextPropagator,
    baggage: BaggagePropagator,
    fields: Vec<String>,
    ghost named: { map string_bytes fields.items ≡ w3c_fields },
}

// Written out, so that a caller's proof has one call here, and not the drops of all parts.
impl Drop for W3cPropagator {
    fn drop(self) {
        let W3cPropagator {
            trace_context: _,
            baggage: _,
            fields: _,
        } = self;
    }
}

impl W3cPropagator {
    /// Returns a propagator with the fields `traceparent`, `tracestate` and `baggage`.
    ///
    /// # Errors
    ///
    /// `AllocError` if out of memory for the fields' names.
    pub fn new(alloc: Global) -> Result<W3cPropagator, AllocError> {
        let traceparent = String::from_str(alloc, TRACEPARENT)?;
        let tracestate = String::from_str(alloc, TRACESTATE)?;
        let baggage = String::from_str(alloc, BAGGAGE_HEADER)?;
        let fields = vec![in alloc; traceparent, tracestate, baggage]?;
        Ok(W3cPropagator {
            trace_context: TraceContextPropagator::new(alloc)?,
            baggage: BaggagePropagator::new(alloc)?,
            fields,
        })
    }
}

impl TextMapPropagator for W3cPropagator {
    ghost use Rattle.std.specs.Prelude.{false};
    ghost use Rattle.otel_propagators.specs.W3cPropagator.{w3c_extracted, w3c_fields, w3c_pairs};

    ghost pairs = { λ _ context. w3c_pairs context };

    ghost extracted = { λ _ context texts. w3c_extracted context texts };

    ghost field_names = { λ _. w3c_fields };

    ghost may_refuse = { λ _. false };

    fn inject_context(
        &self,
        context: &Context,
        injector: &mut dyn Injector,
    ) -> Result<(), PropagationError> {
        self.trace_context.inject_context(context, &mut *injector)?;
        self.baggage.inject_context(context, injector)
    }

    fn extract_with_context(
        &self,
        alloc: Global,
        context: &Context,
        extractor: &dyn Extractor,
    ) -> Result<Context, PropagationError> {
        let traced = self
            .trace_context
            .extract_with_context(alloc, context, extractor)?;
        self.baggage.extract_with_context(alloc, &traced, extractor)
    }

    fn fields(&self) -> FieldIter<'_> {
        FieldIter::new(&self.fields)
    }
}
