//! Groups records by scope, and scopes under a resource, for the messages of traces and of logs.
//! Members are written in the order of their names.
ghost use Rattle.std.specs.Prelude.{◌≡◌, [], ◌∷◌, ◌++◌, IfOk, OnOk, codes, map, string_bytes};
ghost use Rattle.otel_otlp.specs.Groups as spec;
ghost use Rattle.otel_otlp.specs.Sorted as sorted;
ghost use Rattle.otel_otlp.specs.SortedView.{groups_view};
ghost use Rattle.otel_otlp.specs.Common as common;
ghost use Rattle.otel_otlp.specs.Json.{list_member, text_if_given, IsTextOf};
ghost use Rattle.otel_otlp.specs.Tokens.{WritesValue, WritesMembers, WritesItems};

use crate::common::{instrumentation_scope, resource};
use crate::object::{begin_list, put_text_if_given};
use indexmap::IndexMap;
use json::Writer;
use opentelemetry::InstrumentationScope;
use otel_sdk_base::resource::Resource;
use std::alloc::{AllocError, Global};

/// The names of the lists in the object of a batch.
#[derive(Clone, Copy, Drop)]
pub struct ListNames {
    /// The list of resources.
    pub resources: &'static str,
    /// The list of a resource's scopes.
    pub scopes: &'static str,
    /// The list of a scope's items.
    pub items: &'static str,
    /// Whether the list of a scope's items comes before `schemaUrl` and `scope` in the order of
    /// names, or after them.
    pub items_come_first: bool,
}

/// An item of a batch: a span or a log record.
///
/// The ghost member `form` gives the protocol's form of a batch of such items.
pub trait Grouped: Drop {
    ghost use Rattle.std.specs.Prelude.{◌≡◌};
    ghost use Rattle.otel_otlp.specs.Groups.{BatchForm, HasPlaces};
    ghost use Rattle.otel_otlp.specs.Tokens.{WritesValue};

    ghost form: { BatchForm Self };

    /// Returns the scope.
    fn scope(&self) -> &InstrumentationScope
        ensures { result.now ≡ form.scope_of self.now };

    /// Writes the message of the item.
    ///
    /// # Errors
    ///
    /// `AllocError` if out of memory.
    fn write(&self, out: &mut Writer, alloc: Global) -> Result<(), AllocError>
        ensures { WritesValue result out.old out.new (form.value_of self.now) };

    /// Returns the names of the lists in the object of a batch.
    fn list_names() -> ListNames
        ensures resources { result.resources.now ≡ form.resources }
        ensures scopes { result.scopes.now ≡ form.scopes }
        ensures items { result.items.now ≡ form.items }
        ensures places { HasPlaces form result.items_come_first };
}

/// The items of each scope, in the order in which the scopes first appear. An item is added in
/// constant time.
type ByScope<'a, R> = IndexMap<InstrumentationScope, Vec<&'a R>>;

/// Adds the item to the group of the scope.
fn put_in_group<'a, R: Grouped>(
    groups: &mut ByScope<'a, R>,
    alloc: Global,
    scope: &InstrumentationScope,
    item: &'a R,
) -> Result<(), AllocError>
    ensures { OnOk result (groups_view R.form.value_of groups.new.entries
        ≡ sorted.put_in_group (groups_view R.form.value_of groups.old.entries)
        scope.now (R.form.value_of item.now)) }
{
    if let Some(items) = groups.get_mut(scope) {
        items.push(item)?;
        return Ok(());
    }
    let mut items = Vec::new(alloc);
    items.push(item)?;
    groups.insert(scope.clone()?, items)?;
    Ok(())
}

/// Sorts the items by scope.
fn sort<'a, R: Grouped>(alloc: Global, batch: &'a [R]) -> Result<ByScope<'a, R>, AllocError>
    ensures { IfOk result (λ m. groups_view R.form.value_of m.entries
        ≡ sorted.sort R.form.scope_of R.form.value_of batch.now) }
{
    let mut groups = IndexMap::new(alloc);
    for item in batch {
        put_in_group(&mut groups, alloc, item.scope(), item)?;
    }
    Ok(groups)
}

/// Writes the message of each item.
fn values<R: Grouped>(out: &mut Writer, alloc: Global, items: &[&R]) -> Result<(), AllocError>
    ensures { WritesItems result out.old out.new (map (λ r. R.form.value_of r.now) items.now) }
{
    for item in items {
        item.write(out, alloc)?;
    }
    Ok(())
}

/// Writes the member with the items of a scope.
fn put_items<R: Grouped>(
    out: &mut Writer,
    alloc: Global,
    name: &str,
    items: &[&R],
) -> Result<(), AllocError>
    ensures { WritesMembers result out.old out.new
        (list_member name.now (map (λ r. R.form.value_of r.now) items.now)) }
{
    begin_list(out, name)?;
    values(out, alloc, items)?;
    out.end_array()
}

/// Writes the members with the scope: its schema URL, if it has one, and itself.
fn put_scope(
    out: &mut Writer,
    alloc: Global,
    scope: &InstrumentationScope,
) -> Result<(), AllocError>
    ensures { WritesMembers result out.old out.new
        (text_if_given (codes "schemaUrl") scope.now.schema_url
        ++ (codes "scope", common.instrumentation_scope scope.now) ∷ []) }
{
    put_text_if_given(out, "schemaUrl", scope.schema_url())?;
    out.key("scope")?;
    instrumentation_scope(out, alloc, scope)
}

/// Writes a scope with its items (the protocol's `ScopeSpans`, `ScopeLogs`).
fn scope_group<R: Grouped>(
    out: &mut Writer,
    alloc: Global,
    scope: &InstrumentationScope,
    items: &[&R],
) -> Result<(), AllocError>
    ensures { WritesValue result out.old out.new (sorted.scope_group R.form.items
        (scope.now, map (λ r. R.form.value_of r.now) items.now)) }
{
    let names = R::list_names();
    out.begin_object()?;
    if names.items_come_first {
        put_items(out, alloc, names.items, items)?;
        put_scope(out, alloc, scope)?;
    } else {
        put_scope(out, alloc, scope)?;
        put_items(out, alloc, names.items, items)?;
    }
    out.end_object()
}

/// Writes the group of each scope, in the order in which the scopes first appear. Takes time linear
/// in the number of items.
fn groups<R: Grouped>(out: &mut Writer, alloc: Global, batch: &[R]) -> Result<(), AllocError>
    ensures { WritesItems result out.old out.new
        (map (spec.scope_value R.form batch.now) (spec.first_scopes R.form.scope_of [] batch.now)) }
{
    for (scope, items) in sort(alloc, batch)? {
        scope_group(out, alloc, &scope, items.as_slice())?;
    }
    Ok(())
}

/// Writes the groups of the resource (the protocol's `ResourceSpans`, `ResourceLogs`).
fn resource_group<R: Grouped>(
    out: &mut Writer,
    alloc: Global,
    of: &Resource,
    batch: &[R],
) -> Result<(), AllocError>
    ensures { WritesValue result out.old out.new (spec.resource_value R.form of.now batch.now) }
{
    out.begin_object()?;
    out.key("resource")?;
    resource(out, of)?;
    put_text_if_given(out, "schemaUrl", of.schema_url())?;
    begin_list(out, R::list_names().scopes)?;
    groups(out, alloc, batch)?;
    out.end_array()?;
    out.end_object()
}

/// Writes a batch of items of one resource (the protocol's `TracesData`, `LogsData`).
fn batch_value<R: Grouped>(
    out: &mut Writer,
    alloc: Global,
    resource: &Resource,
    batch: &[R],
) -> Result<(), AllocError>
    ensures { WritesValue result out.old out.new (spec.batch_value R.form resource.now batch.now) }
{
    out.begin_object()?;
    begin_list(out, R::list_names().resources)?;
    resource_group(out, alloc, resource, batch)?;
    out.end_array()?;
    out.end_object()
}

/// Returns a batch of items of one resource as one JSON object, without a line break.
pub(crate) fn batch_text<R: Grouped>(
    alloc: Global,
    resource: &Resource,
    batch: &[R],
) -> Result<String, AllocError>
    ensures { IfOk result (λ s.
        IsTextOf (string_bytes s) (spec.batch_value R.form resource.now batch.now)) }
{
    let mut out = Writer::new(Vec::new(alloc));
    batch_value(&mut out, alloc, resource, batch)?;
    match String::from_utf8(out.into_inner()) {
        Ok(text) => Ok(text),
        Err(_) => unreachable!(),
    }
}
