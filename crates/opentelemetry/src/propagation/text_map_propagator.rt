//! Propagators, which write a context into a carrier and read it back.
ghost use Rattle.std.specs.Prelude.{◌≡◌, map, string_bytes};
ghost use Rattle.opentelemetry.specs.Extraction.{Extracts, ExtractsCurrent};
ghost use Rattle.opentelemetry.specs.Injection.{InjectsBy, InjectsCurrent};

use crate::context::{Context, ContextStack};
use crate::propagation::{Extractor, Injector, PropagationError};
use std::alloc::Global;
use std::marker::Model;

/// Writes a context into a carrier of texts, and reads it back (the Rust crate's
/// `TextMapPropagator`).
///
/// Implementors define four ghost functions: the pairs to set for a context (`pairs`), the context
/// to return for a context and a map of texts (`extracted`), the names of the fields
/// (`field_names`), and whether the propagator itself may refuse (`may_refuse`).
///
/// See `otel_examples::api::request_id` for an implementation and `otel_examples::api::service` for
/// a caller.
pub trait TextMapPropagator: Drop {
    ghost use Rattle.std.specs.Prelude.{Bool, ℕ, List};
    ghost use Rattle.otel_context.specs.Context.{ContextRecord};
    ghost use Rattle.opentelemetry.specs.Carrier.{Pairs, TextMap};

    ghost pairs: { Self → ContextRecord → Pairs };

    ghost extracted: { Self → ContextRecord → TextMap → ContextRecord };

    ghost field_names: { Self → List (List ℕ) };

    ghost may_refuse: { Self → Bool };

    /// Sets the pairs of the context, in order.
    ///
    /// # Errors
    ///
    /// `Memory` if out of memory. `Refused` only if this propagator may refuse, or the carrier
    /// refuses a text. In both cases, a prefix of the pairs is set.
    fn inject_context(
        &self,
        context: &Context,
        injector: &mut dyn Injector,
    ) -> Result<(), PropagationError>
        ensures { InjectsBy pairs may_refuse self.now context.now
            (state injector.old) (state injector.new) result };

    /// Sets the pairs of the stack's current context, as `inject_context` does.
    ///
    /// # Errors
    ///
    /// See `inject_context`.
    final fn inject(
        &self,
        stack: &ContextStack,
        injector: &mut dyn Injector,
    ) -> Result<(), PropagationError>
        ensures { InjectsCurrent pairs may_refuse self.now stack.now
            (state injector.old) (state injector.new) result }
    {
        self.inject_context(stack.current(), injector)
    }

    /// Returns a copy of the context with the values that this propagator reads from the carrier.
    ///
    /// # Errors
    ///
    /// `Memory` if out of memory. `Refused` only if this propagator may refuse. In both cases, the
    /// context and the carrier are unchanged.
    fn extract_with_context(
        &self,
        alloc: Global,
        context: &Context,
        extractor: &dyn Extractor,
    ) -> Result<Context, PropagationError>
        ensures { Extracts (extracted self.now context.now (texts extractor.now))
            (may_refuse self.now) result };

    /// Returns a copy of the stack's current context with the values that this propagator reads
    /// from the carrier.
    ///
    /// # Errors
    ///
    /// See `extract_with_context`.
    final fn extract(
        &self,
        alloc: Global,
        stack: &ContextStack,
        extractor: &dyn Extractor,
    ) -> Result<Context, PropagationError>
        ensures { ExtractsCurrent extracted may_refuse self.now stack.now (texts extractor.now)
            result }
    {
        self.extract_with_context(alloc, stack.current(), extractor)
    }

    /// Returns the names of the carrier's fields that this propagator reads and sets, in order.
    fn fields(&self) -> FieldIter<'_>
        ensures { result ≡ field_names self.now };
}

/// The names of a propagator's fields, in order (the Rust crate's `FieldIter`).
///
/// See `otel_examples::api::request_id`.
#[derive(Drop)]
pub struct FieldIter<'a> {
    rest: &'a [String],
}

impl<'a> Model for FieldIter<'a> {
    ghost use Rattle.std.specs.Prelude.{ℕ, List, map, string_bytes};

    ghost Value = { List (List ℕ) };

    ghost view = { λ it. map string_bytes it.rest.now };
}

impl<'a> FieldIter<'a> {
    /// Returns an iterator over these names, in order.
    pub fn new(fields: &'a [String]) -> FieldIter<'a>
        ensures { result ≡ map string_bytes fields.now }
    {
        FieldIter { rest: fields }
    }
}

impl<'a> Iterator for FieldIter<'a> {
    ghost use Rattle.std.specs.Iterator.{YieldsFirstRef, item_count};

    type Item = &'a str;

    ghost next_gives = { YieldsFirstRef (λ it. it) };

    ghost remaining = { item_count (λ it. it) };

    fn next(&mut self) -> Option<&'a str> {
        let (first, others) = self.rest.split_first()?;
        self.rest = others;
        Some(first.as_str())
    }
}
