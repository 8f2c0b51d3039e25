//! Batches of spans and of log records: their items sorted by scope, under a resource.
ghost use Rattle.std.specs.Prelude.{◌≡◌, [], ◌∷◌, IfOk, OnOk, Some, map, length};
ghost use Rattle.otel_proto.specs.Output.{Puts};
ghost use Rattle.otel_proto.specs.Wire.{read};
ghost use Rattle.otel_proto.specs.Written.{bytes_of, message, messages};
ghost use Rattle.otel_proto_batches.specs.Common as common;
ghost use Rattle.otel_proto_batches.specs.Groups as spec;
ghost use Rattle.otel_proto_batches.specs.GroupView.{group_fields};
ghost use Rattle.otel_proto_batches.specs.Sorted as sorted;
ghost use Rattle.otel_proto_batches.specs.SortedView.{groups_view};

use crate::common::{put_resource, put_scope, put_text_if_given};
use indexmap::IndexMap;
use opentelemetry::InstrumentationScope;
use otel_proto::{Output, put_head};
use otel_sdk_base::resource::Resource;
use std::alloc::{AllocError, Global};

/// An item of a batch: a span or a log record.
///
/// The ghost member `form` gives the protocol's form of a batch of such items.
pub trait Grouped: Drop {
    ghost use Rattle.std.specs.Prelude.{◌≡◌};
    ghost use Rattle.otel_proto.specs.Output.{Puts};
    ghost use Rattle.otel_proto_batches.specs.Groups.{Form};

    ghost form: { Form Self };

    /// Returns the scope.
    fn scope(&self) -> &InstrumentationScope
        ensures { result.now ≡ form.scope_of self.now };

    /// Puts the fields of the item's message.
    ///
    /// # Errors
    ///
    /// `AllocError` if they don't fit the output.
    fn put(&self, out: &mut Output) -> Result<(), AllocError>
        ensures { Puts result out.old out.new (form.fields_of self.now) };
}

/// The items of each scope, in the order in which the scopes first appear. An item is added in
/// constant time.
type ByScope<'a, R> = IndexMap<InstrumentationScope, Vec<&'a R>>;

/// The items of a scope.
#[derive(Drop)]
struct Group<'a, R: Grouped> {
    scope: InstrumentationScope,
    /// A resource of the scope's attributes, each key once: its last value at its first place.
    attributes: Resource,
    items: Vec<&'a R>,
}

/// Adds the item to the group of the scope.
fn put_in_group<'a, R: Grouped>(
    groups: &mut ByScope<'a, R>,
    alloc: Global,
    scope: &InstrumentationScope,
    item: &'a R,
) -> Result<(), AllocError>
    ensures { OnOk result (groups_view groups.new.entries
        ≡ sorted.put_in_group (groups_view groups.old.entries) scope.now item.now) }
{
    if let Some(items) = groups.get_mut(scope) {
        items.push(item)?;
        return Ok(());
    }
    let mut items = Vec::new(alloc);
    items.push(item)?;
    groups.insert(scope.clone()?, items)?;
    Ok(())
}

/// Sorts the items by scope.
fn sort<'a, R: Grouped>(alloc: Global, batch: &'a [R]) -> Result<ByScope<'a, R>, AllocError>
    ensures { IfOk result (λ m. groups_view m.entries ≡ sorted.sort R.form.scope_of batch.now) }
{
    let mut groups = IndexMap::new(alloc);
    for item in batch {
        put_in_group(&mut groups, alloc, item.scope(), item)?;
    }
    Ok(groups)
}

/// Returns the scope's attributes with each key once: its last value at its first place.
fn unique(alloc: Global, scope: &InstrumentationScope) -> Result<Resource, AllocError>
    ensures { IfOk result (λ r. r.attributes ≡ common.unique scope.now.attributes) }
{
    let mut given = Vec::new(alloc);
    for attribute in scope.attributes().as_slice() {
        given.push(attribute.clone()?)?;
    }
    Ok(
        Resource::builder_empty(alloc)
            .with_attributes(given)?
            .build(),
    )
}

/// Returns the group of each scope, in the order in which the scopes first appear. Takes time
/// linear in the number of items.
fn groups<'a, R: Grouped>(alloc: Global, batch: &'a [R]) -> Result<Vec<Group<'a, R>>, AllocError>
    ensures { IfOk result (λ v. map (group_fields R.form.fields_of) v.items
        ≡ map (spec.scope_group R.form batch.now) (spec.first_scopes R.form.scope_of [] batch.now)) }
{
    let mut groups = Vec::new(alloc);
    for (scope, items) in sort(alloc, batch)? {
        let attributes = unique(alloc, &scope)?;
        groups.push(Group {
            scope,
            attributes,
            items,
        })?;
    }
    Ok(groups)
}

/// Puts the message of each item.
fn put_items<R: Grouped>(out: &mut Output, items: &[&R]) -> Result<(), AllocError>
    ensures { Puts result out.old out.new
        (messages 2 (λ r. R.form.fields_of r.now) items.now) }
{
    for item in items.iter().rev() {
        let end = out.count();
        item.put(out)?;
        put_head(out, 2, end)?;
    }
    Ok(())
}

/// Puts a scope with its items (the protocol's `ScopeSpans`, `ScopeLogs`).
fn put_group<R: Grouped>(out: &mut Output, group: &Group<'_, R>) -> Result<(), AllocError>
    ensures { Puts result out.old out.new (group_fields R.form.fields_of group.now) }
{
    put_text_if_given(out, 3, group.scope.schema_url())?;
    put_items(out, group.items.as_slice())?;
    put_scope(out, &group.scope, group.attributes.attributes().as_slice())
}

/// Puts the message of each group.
fn put_groups<R: Grouped>(out: &mut Output, groups: &[Group<'_, R>]) -> Result<(), AllocError>
    ensures { Puts result out.old out.new
        (messages 2 (group_fields R.form.fields_of) groups.now) }
{
    for group in groups.iter().rev() {
        let end = out.count();
        put_group(out, group)?;
        put_head(out, 2, end)?;
    }
    Ok(())
}

/// Puts the groups under their resource (the protocol's `TracesData`, `LogsData`, which has one
/// `ResourceSpans` or `ResourceLogs`).
fn put_request<R: Grouped>(
    out: &mut Output,
    resource: &Resource,
    groups: &[Group<'_, R>],
) -> Result<(), AllocError>
    ensures { Puts result out.old out.new
        (spec.request_of resource.now (messages 2 (group_fields R.form.fields_of) groups.now)) }
{
    let end = out.count();
    put_text_if_given(out, 3, resource.schema_url())?;
    put_groups(out, groups)?;
    put_resource(out, resource)?;
    put_head(out, 1, end)
}

/// Returns a batch of items of one resource as bytes.
pub(crate) fn batch_bytes<R: Grouped>(
    alloc: Global,
    resource: &Resource,
    batch: &[R],
) -> Result<Vec<u8>, AllocError>
    ensures bytes { IfOk result (λ v. v.items ≡ bytes_of (spec.request R.form resource.now batch.now)) }
    ensures reads { IfOk result (λ v.
        read v.items ≡ Some (spec.request R.form resource.now batch.now)) }
{
    let groups = groups(alloc, batch)?;
    let mut counted = Output::counting();
    put_request(&mut counted, resource, groups.as_slice())?;
    let mut out = Output::with_size(alloc, counted.count())?;
    put_request(&mut out, resource, groups.as_slice())?;
    out.into_bytes()
}
