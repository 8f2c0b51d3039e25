//! A custom propagator: the id of a request, in a header of its own.
ghost use Rattle.std.specs.Prelude.{◌≡◌, IfOk, map, option_map, string_bytes};
ghost use Rattle.otel_examples.specs.RequestId.{fields, id_of};

use opentelemetry::logs::AnyValue;
use opentelemetry::propagation::text_map_propagator::FieldIter;
use opentelemetry::propagation::{Extractor, Injector, PropagationError, TextMapPropagator};
use opentelemetry::{Context, Key, StringValue};
use std::alloc::{AllocError, Global};

/// Returns the request id of a context: its entry `request.id`, if that is a text.
pub fn id_of(context: &Context) -> Option<&str>
    ensures { option_map (λ id. id.now) result ≡ id_of context.now }
{
    match context.get("request.id") {
        Some(AnyValue::String(id)) => Some(id.as_str()),
        _ => None,
    }
}

/// Carries the id of a request in the header `x-request-id`.
#[derive(Drop)]
pub struct RequestId {
    alloc: Global,
    fields: Vec<String>,
}

impl RequestId {
    /// Returns the propagator. It allocates the texts that it sets with `alloc`.
    ///
    /// # Errors
    ///
    /// `AllocError` if out of memory.
    pub fn new(alloc: Global) -> Result<RequestId, AllocError>
        ensures { IfOk result (λ made. map string_bytes made.fields.items ≡ fields) }
    {
        let fields = vec![in alloc; String::from_str(alloc, "x-request-id")?]?;
        Ok(RequestId { alloc, fields })
    }
}

impl TextMapPropagator for RequestId {
    ghost use Rattle.std.specs.Prelude.{false, map, string_bytes};
    ghost use Rattle.otel_examples.specs.RequestId.{pairs, extracted};

    ghost pairs = { λ _ context. pairs context };

    ghost extracted = { λ _ context texts. extracted context texts };

    ghost field_names = { λ made. map string_bytes made.fields.items };

    ghost may_refuse = { λ _. false };

    fn inject_context(
        &self,
        context: &Context,
        injector: &mut dyn Injector,
    ) -> Result<(), PropagationError> {
        match id_of(context) {
            Some(id) => injector.set("x-request-id", String::from_str(self.alloc, id)?),
            None => Ok(()),
        }
    }

    fn extract_with_context(
        &self,
        alloc: Global,
        context: &Context,
        extractor: &dyn Extractor,
    ) -> Result<Context, PropagationError> {
        match extractor.get(alloc, "x-request-id")? {
            Some(id) => {
                let id = StringValue::from(String::from_str(alloc, id)?);
                let key = Key::from("request.id");
                Ok(context.with_value(alloc, key, AnyValue::String(id))?)
            }
            None => Ok(context.clone()?),
        }
    }

    fn fields(&self) -> FieldIter<'_> {
        FieldIter::new(&self.fields)
    }
}
