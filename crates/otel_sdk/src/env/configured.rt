//! The propagator that a configuration lists.
ghost use Rattle.std.specs.Prelude.{◌≡◌, [], false, IsOk, IfOk, OnOk};
ghost use Rattle.opentelemetry.specs.Composite.{AddsTexts, set_texts};
ghost use Rattle.opentelemetry.specs.Injection.{Injects};
ghost use Rattle.otel_sdk.specs.ConfiguredPropagator.{fields_by, listed_fields, listed_pairs};

mod member;

use self::member::Member;
use super::propagators::EnvPropagator;
use indexmap::IndexSet;
use opentelemetry::Context;
use opentelemetry::propagation::text_map_propagator::FieldIter;
use opentelemetry::propagation::{Extractor, Injector, PropagationError, TextMapPropagator};
use std::alloc::{AllocError, Global};
use std::marker::Model;

/// The propagators that a configuration lists, as one. Not in the Rust crate.
///
/// Injects and extracts with each, in order, as a `TextMapCompositePropagator` of them does.
/// Without propagators, sets nothing, and extraction returns a copy of the given context. Never
/// refuses.
///
/// Contracts see the list of their names. See [`EnvConfig::propagator`](crate::EnvConfig).
pub struct ConfiguredPropagator {
    members: Vec<Member>,
    fields: IndexSet<String>,
}

// Written out, so that a caller's proof has one call here, and not the drops of all parts.
impl Drop for ConfiguredPropagator {
    fn drop(self) {
        let ConfiguredPropagator {
            members: _,
            fields: _,
        } = self;
    }
}

impl Model for ConfiguredPropagator {
    ghost use Rattle.std.specs.Prelude.{◌≡◌, List};
    ghost use Rattle.opentelemetry.specs.Composite.{set_texts};
    ghost use Rattle.otel_sdk.specs.ConfiguredPropagator.{listed_fields};
    ghost use Rattle.otel_sdk.specs.declared.env.propagators.EnvPropagator.{EnvPropagator};

    ghost Value = { List EnvPropagator };

    ghost view = { λ p. p.members.items };

    ghost invariant = { λ p. set_texts p.fields ≡ listed_fields p.members.items };
}

/// Makes the propagators of these names, in order.
///
/// # Errors
///
/// `AllocError` if out of memory.
fn made(alloc: Global, names: &[EnvPropagator]) -> Result<Vec<Member>, AllocError>
    ensures all { IfOk result (λ members. members.items ≡ names.now) }
    ensures none { names.now ≡ [] → IsOk result }
{
    let mut members = Vec::new(alloc);
    for name in names {
        members.push(Member::new(alloc, *name)?)?;
    }
    Ok(members)
}

/// Adds the new fields of one propagator, in order.
fn add_fields(
    alloc: Global,
    fields: &mut IndexSet<String>,
    member: &Member,
) -> Result<(), AllocError>
    ensures { OnOk result (AddsTexts fields.old (fields_by member.now) fields.new) }
{
    for name in member.fields() {
        fields.insert(String::from_str(alloc, name)?)?;
    }
    Ok(())
}

/// Returns the fields of these propagators, each once.
fn joined_fields(alloc: Global, members: &[Member]) -> Result<IndexSet<String>, AllocError>
    ensures all { IfOk result (λ fields. set_texts fields ≡ listed_fields members.now) }
    ensures none { members.now ≡ [] → IsOk result }
{
    let mut fields = IndexSet::new(alloc);
    for member in members {
        add_fields(alloc, &mut fields, member)?;
    }
    Ok(fields)
}

/// Injects with each of these propagators, in order.
fn inject_all(
    members: &[Member],
    context: &Context,
    injector: &mut dyn Injector,
) -> Result<(), PropagationError>
    ensures { Injects (listed_pairs members.now context.now) false (state injector.old)
        (state injector.new) result }
{
    for member in members {
        member.inject_context(context, &mut *injector)?;
    }
    Ok(())
}

impl ConfiguredPropagator {
    /// Returns the propagator of these names, in this order.
    ///
    /// # Errors
    ///
    /// `AllocError` if out of memory, which can't happen without names.
    pub fn new(alloc: Global, names: &[EnvPropagator]) -> Result<ConfiguredPropagator, AllocError>
        ensures made { names.now ≡ [] → IsOk result }
        ensures names { IfOk result (λ p. p ≡ names.now) }
    {
        let members = made(alloc, names)?;
        let fields = joined_fields(alloc, members.as_slice())?;
        Ok(ConfiguredPropagator { members, fields })
    }
}

impl TextMapPropagator for ConfiguredPropagator {
    ghost use Rattle.std.specs.Prelude.{false};
    ghost use Rattle.otel_sdk.specs.ConfiguredPropagator.{listed_extracted, listed_fields};
    ghost use Rattle.otel_sdk.specs.ConfiguredPropagator.{listed_pairs};

    ghost pairs = { λ names context. listed_pairs names context };

    ghost extracted = { λ names context texts. listed_extracted names context texts };

    ghost field_names = { λ names. listed_fields names };

    ghost may_refuse = { λ _. false };

    fn inject_context(
        &self,
        context: &Context,
        injector: &mut dyn Injector,
    ) -> Result<(), PropagationError> {
        inject_all(self.members.as_slice(), context, injector)
    }

    fn extract_with_context(
        &self,
        alloc: Global,
        context: &Context,
        extractor: &dyn Extractor,
    ) -> Result<Context, PropagationError> {
        let mut given = context.clone()?;
        let mut rest = self.members.as_slice();
        while let Some((member, others)) = rest.split_first() {
            given = member.extract_with_context(alloc, &given, extractor)?;
            rest = others;
        }
        Ok(given)
    }

    fn fields(&self) -> FieldIter<'_> {
        FieldIter::new(self.fields.as_slice())
    }
}
