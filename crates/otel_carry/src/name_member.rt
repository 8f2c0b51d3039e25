//! The program's own propagator, for a context's name.
ghost use Rattle.std.specs.Prelude.{◌≡◌, IfOk, map, option_map, string_bytes};
ghost use Rattle.otel_carry.specs.NamedContext.{name_in, name_fields};

use opentelemetry::Context;
use opentelemetry::logs::AnyValue;
use opentelemetry::propagation::text_map_propagator::FieldIter;
use opentelemetry::propagation::{Extractor, Injector, PropagationError, TextMapPropagator};
use std::alloc::{AllocError, Global};

/// Returns the name of the context: its entry `name`, if that is a text.
pub fn name_of(context: &Context) -> Option<&str>
    ensures { option_map (λ name. name.now) result ≡ name_in context.now }
{
    match context.get("name") {
        Some(AnyValue::String(name)) => Some(name.as_str()),
        _ => None,
    }
}

/// Sets `Context-Name` to the context's name, if it has one. Extracts a copy of the given context.
#[derive(Drop)]
pub struct NameMember {
    /// The allocator of the texts that are set.
    pub alloc: Global,
    /// The names of its fields.
    pub fields: Vec<String>,
}

impl NameMember {
    /// Returns the member, with its field `Context-Name`.
    ///
    /// # Errors
    ///
    /// `AllocError` if out of memory for the field's name.
    pub fn new(alloc: Global) -> Result<NameMember, AllocError>
        ensures { IfOk result (λ member. map string_bytes member.fields.items ≡ name_fields) }
    {
        let fields = vec![in alloc; String::from_str(alloc, "Context-Name")?]?;
        Ok(NameMember { alloc, fields })
    }
}

impl TextMapPropagator for NameMember {
    ghost use Rattle.std.specs.Prelude.{false, map, string_bytes};
    ghost use Rattle.otel_carry.specs.NamedContext.{name_pairs};

    ghost pairs = { λ _ context. name_pairs context };

    ghost extracted = { λ _ context _. context };

    ghost field_names = { λ member. map string_bytes member.fields.items };

    ghost may_refuse = { λ _. false };

    fn inject_context(
        &self,
        context: &Context,
        injector: &mut dyn Injector,
    ) -> Result<(), PropagationError> {
        match name_of(context) {
            Some(name) => injector.set("Context-Name", String::from_str(self.alloc, name)?),
            None => Ok(()),
        }
    }

    fn extract_with_context(
        &self,
        _alloc: Global,
        context: &Context,
        _extractor: &dyn Extractor,
    ) -> Result<Context, PropagationError> {
        Ok(context.clone()?)
    }

    fn fields(&self) -> FieldIter<'_> {
        FieldIter::new(&self.fields)
    }
}
