//! The propagator of the header `baggage` (W3C baggage).
ghost use Rattle.std.specs.Prelude.{◌≡◌, IfOk, map, string_bytes};
ghost use Rattle.otel_context.specs.BaggageHeader.{header};
ghost use Rattle.otel_propagators.specs.BaggagePropagator.{baggage_fields, members};

mod reading;

use self::reading::read_baggage;
use opentelemetry::Context;
use opentelemetry::propagation::text_map_propagator::FieldIter;
use opentelemetry::propagation::{Extractor, Injector, PropagationError, TextMapPropagator};
use std::alloc::{AllocError, Global};

/// The name of the header (W3C baggage, "Header Name").
pub(crate) const BAGGAGE_HEADER: &str = "baggage";

/// Propagates a context's baggage from one process to another, in the header `baggage` (W3C
/// baggage; `BaggagePropagator` of the Rust crate `opentelemetry_sdk`).
///
/// Sets `baggage` to the text of the context's baggage, which is empty if the context has no
/// baggage. Extracts a copy of the given context with the baggage read from the value of `baggage`,
/// or a copy of the given context if there is no value. The propagator itself never refuses: it
/// skips members that can't be read or aren't accepted.
///
/// Keys are tokens and values are escaped, but metadata is written as it is and may contain CR, LF
/// and NUL. A carrier of text lines must refuse such a text.
///
/// See `otel_examples::api::service`, which uses a propagator of any type.
#[derive(Drop)]
pub struct BaggagePropagator {
    alloc: Global,
    fields: Vec<String>,
    ghost named: { map string_bytes fields.items ≡ baggage_fields },
}

impl BaggagePropagator {
    /// Returns a propagator that allocates the texts that it sets in `alloc`.
    ///
    /// # Errors
    ///
    /// `AllocError` if out of memory for the field's name.
    pub fn new(alloc: Global) -> Result<BaggagePropagator, AllocError> {
        let fields = vec![in alloc; String::from_str(alloc, BAGGAGE_HEADER)?]?;
        Ok(BaggagePropagator { alloc, fields })
    }
}

/// Returns the text of the context's baggage, which is empty if the context has no baggage.
fn header_of(alloc: Global, context: &Context) -> Result<String, AllocError>
    ensures { IfOk result (λ text. string_bytes text ≡ header (members context.now)) }
{
    match context.baggage() {
        Some(baggage) => format!(in alloc; "{baggage}"),
        None => Ok(String::new(alloc)),
    }
}

impl TextMapPropagator for BaggagePropagator {
    ghost use Rattle.std.specs.Prelude.{false};
    ghost use Rattle.otel_propagators.specs.BaggagePropagator.{baggage_extracted};
    ghost use Rattle.otel_propagators.specs.BaggagePropagator.{baggage_fields, baggage_pairs};

    ghost pairs = { λ _ context. baggage_pairs context };

    ghost extracted = { λ _ context texts. baggage_extracted context texts };

    ghost field_names = { λ _. baggage_fields };

    ghost may_refuse = { λ _. false };

    fn inject_context(
        &self,
        context: &Context,
        injector: &mut dyn Injector,
    ) -> Result<(), PropagationError> {
        injector.set(BAGGAGE_HEADER, header_of(self.alloc, context)?)
    }

    fn extract_with_context(
        &self,
        alloc: Global,
        context: &Context,
        extractor: &dyn Extractor,
    ) -> Result<Context, PropagationError> {
        match extractor.get(alloc, BAGGAGE_HEADER)? {
            Some(text) => Ok(context.with_baggage(alloc, read_baggage(alloc, text)?)?),
            None => Ok(context.clone()?),
        }
    }

    fn fields(&self) -> FieldIter<'_> {
        FieldIter::new(&self.fields)
    }
}
