//! A propagator made of propagators.
ghost use Rattle.std.specs.Prelude.{◌≡◌, ◌++◌, [], IsOk, IfOk, OnOk};
ghost use Rattle.otel_context.specs.Stack.{current};
ghost use Rattle.opentelemetry.specs.Composite.{members_of, InjectsAll, ExtractsAll};
ghost use Rattle.opentelemetry.specs.Composite.{fields_of, kept_fields, AddsTexts, KeepsFields};
ghost use Rattle.opentelemetry.specs.Extraction.{Extracts};
ghost use Rattle.opentelemetry.specs.Injection.{Injects};

use crate::context::{Context, ContextStack};
use crate::propagation::text_map_propagator::{FieldIter, TextMapPropagator};
use crate::propagation::{Extractor, Injector, PropagationError};
use indexmap::IndexSet;
use std::alloc::{AllocError, Global};

/// Combines several propagators into one (the Rust crate's `TextMapCompositePropagator`).
///
/// Contracts see it as the list of its members.
///
/// ```
/// let mut members: Vec<Box<dyn TextMapPropagator>> = Vec::new(alloc);
/// members.push(Box::new(alloc, NoopTextMapPropagator::new())?)?;
/// let composite = TextMapCompositePropagator::new(alloc, members)?;
/// ```
pub struct TextMapCompositePropagator {
    members: Vec<Box<dyn TextMapPropagator>>,
    fields: IndexSet<String>,
}

// Written out, so that a caller's proof has one call here, and not the drops of all parts.
impl Drop for TextMapCompositePropagator {
    fn drop(self) {
        let TextMapCompositePropagator {
            members: _,
            fields: _,
        } = self;
    }
}

/// Injects with one member.
fn inject_member(
    member: &Box<dyn TextMapPropagator>,
    context: &Context,
    injector: &mut dyn Injector,
) -> Result<(), PropagationError>
    ensures { Injects (pairs member.now context.now) (may_refuse member.now)
        (state injector.old) (state injector.new) result }
{
    member.inject_context(context, injector)
}

/// Extracts with one member.
fn extract_member(
    member: &Box<dyn TextMapPropagator>,
    alloc: Global,
    context: &Context,
    extractor: &dyn Extractor,
) -> Result<Context, PropagationError>
    ensures { Extracts (extracted member.now context.now (texts extractor.now))
        (may_refuse member.now) result }
{
    member.extract_with_context(alloc, context, extractor)
}

/// Adds the new fields of one member, in order.
fn add_fields(
    alloc: Global,
    fields: &mut IndexSet<String>,
    member: &Box<dyn TextMapPropagator>,
) -> Result<(), AllocError>
    ensures { OnOk result (AddsTexts fields.old (field_names member.now) fields.new) }
{
    for name in member.fields() {
        fields.insert(String::from_str(alloc, name)?)?;
    }
    Ok(())
}

/// Returns the members of both, in order.
fn join_members(
    mut members: Vec<Box<dyn TextMapPropagator>>,
    others: Vec<Box<dyn TextMapPropagator>>,
) -> Result<Vec<Box<dyn TextMapPropagator>>, AllocError>
    ensures all { IfOk result (λ all. all.items ≡ members.items ++ others.items) }
    ensures none { others.items ≡ [] → IsOk result }
{
    for member in others {
        members.push(member)?;
    }
    Ok(members)
}

impl TextMapCompositePropagator {
    /// Returns a composite of these members, in this order. Stores the names of their fields.
    ///
    /// # Errors
    ///
    /// `AllocError` if out of memory for the names, which can't happen without members. The members
    /// are dropped.
    pub fn new(
        alloc: Global,
        members: Vec<Box<dyn TextMapPropagator>>,
    ) -> Result<TextMapCompositePropagator, AllocError>
        ensures made { members.items ≡ [] → IsOk result }
        ensures members { IfOk result (λ c. members_of c ≡ members.items) }
        ensures fields { IfOk result (KeepsFields (λ m. field_names m)) }
    {
        let mut fields = IndexSet::new(alloc);
        for member in &members {
            add_fields(alloc, &mut fields, member)?;
        }
        Ok(TextMapCompositePropagator { members, fields })
    }

    /// Returns a composite of the members of both, in order. It injects, extracts and names fields
    /// as they do. Not in the Rust crate; there a composite may be a member of another.
    ///
    /// # Errors
    ///
    /// `AllocError` if out of memory, which can't happen if neither has members. The members of
    /// both are dropped.
    pub fn join(
        self,
        alloc: Global,
        other: TextMapCompositePropagator,
    ) -> Result<TextMapCompositePropagator, AllocError>
        ensures made { members_of self ≡ [] → members_of other ≡ [] → IsOk result }
        ensures members { IfOk result (λ c. members_of c ≡ members_of self ++ members_of other) }
        ensures fields { IfOk result (KeepsFields (λ m. field_names m)) }
    {
        let TextMapCompositePropagator { members, fields: _ } = self;
        let TextMapCompositePropagator {
            members: others,
            fields: _,
        } = other;
        let members = join_members(members, others)?;
        TextMapCompositePropagator::new(alloc, members)
    }

    /// Injects the context with each member, in order. Stops at the first error and returns it.
    /// Without members, returns `Ok` and leaves the carrier unchanged.
    ///
    /// # Errors
    ///
    /// `Memory` if out of memory. `Refused` only if a member may refuse, or the carrier refuses a
    /// text. In both cases, a prefix of the members' pairs is set.
    pub fn inject_context(
        &self,
        context: &Context,
        injector: &mut dyn Injector,
    ) -> Result<(), PropagationError>
        ensures injected { InjectsAll (λ m. pairs m) (λ m. may_refuse m) self.now context.now
            (state injector.old) (state injector.new) result }
        ensures without_members { members_of self.now ≡ []
            → IsOk result × (state injector.new ≡ state injector.old) }
    {
        for member in &self.members {
            inject_member(member, context, &mut *injector)?;
        }
        Ok(())
    }

    /// Injects the stack's current context with each member, as `inject_context` does.
    ///
    /// # Errors
    ///
    /// See `inject_context`.
    pub fn inject(
        &self,
        stack: &ContextStack,
        injector: &mut dyn Injector,
    ) -> Result<(), PropagationError>
        ensures injected { InjectsAll (λ m. pairs m) (λ m. may_refuse m) self.now
            (current stack.now.live) (state injector.old) (state injector.new) result }
        ensures without_members { members_of self.now ≡ []
            → IsOk result × (state injector.new ≡ state injector.old) }
    {
        self.inject_context(stack.current(), injector)
    }

    /// Extracts with each member, in order. The first starts from the given context, and each other
    /// one from the context that the previous member returned. Stops at the first error and returns
    /// it. Without members, returns a copy of the given context.
    ///
    /// # Errors
    ///
    /// `Memory` if out of memory. `Refused` only if a member may refuse. In both cases, the context
    /// and the carrier are unchanged.
    pub fn extract_with_context(
        &self,
        alloc: Global,
        context: &Context,
        extractor: &dyn Extractor,
    ) -> Result<Context, PropagationError>
        ensures extracted { ExtractsAll (λ m. extracted m) (λ m. may_refuse m) self.now
            context.now (texts extractor.now) result }
        ensures without_members { members_of self.now ≡ []
            → IfOk result (λ given. given ≡ context.now) }
    {
        let mut given = context.clone()?;
        let mut rest = self.members.as_slice();
        while let Some((member, others)) = rest.split_first() {
            given = extract_member(member, alloc, &given, extractor)?;
            rest = others;
        }
        Ok(given)
    }

    /// Extracts with each member, starting from the stack's current context, as
    /// `extract_with_context` does.
    ///
    /// # Errors
    ///
    /// See `extract_with_context`.
    pub fn extract(
        &self,
        alloc: Global,
        stack: &ContextStack,
        extractor: &dyn Extractor,
    ) -> Result<Context, PropagationError>
        ensures extracted { ExtractsAll (λ m. extracted m) (λ m. may_refuse m) self.now
            (current stack.now.live) (texts extractor.now) result }
        ensures without_members { members_of self.now ≡ []
            → IfOk result (λ given. given ≡ current stack.now.live) }
    {
        self.extract_with_context(alloc, stack.current(), extractor)
    }

    /// Returns the names of the members' fields, each once, in order of first appearance.
    pub fn fields(&self) -> FieldIter<'_>
        ensures kept { result ≡ kept_fields self.now }
        // Each composite that `new` or `join` returns keeps its members' fields.
        ensures union { KeepsFields (λ m. field_names m) self.now
            → result ≡ fields_of (λ m. field_names m) self.now }
    {
        FieldIter::new(self.fields.as_slice())
    }
}
