//! Reads items, which are spans or log records, under their scopes and resources.
ghost use Rattle.std.specs.Prelude.{◌≡◌, List, IfOk, IfErr, map};
ghost use Rattle.std.specs.List.{All, AllZip};
ghost use Rattle.std.specs.Rc.{rc_value};
ghost use Rattle.serde_json.specs.View.{view};
ghost use Rattle.otel_otlp.specs.ReadMembers.{IsRefused, AreIn};
ghost use Rattle.otel_otlp.specs.ReadGroups as spec;

use crate::groups::Grouped;
use crate::read::error::Fault;
use crate::read::members::{check_object, given_text, items};
use crate::read::messages::{Message, read_list};
use crate::read::scopes::scope_in;
use opentelemetry::InstrumentationScope;
use serde_json::Value;
use std::alloc::{AllocError, Global};
use std::rc::Rc;

/// An item of a batch that can be read.
///
/// The ghost member `says` relates the JSON of an item and the item, except for its scope.
pub(crate) trait Item: Grouped + Sized {
    ghost use Rattle.std.specs.Prelude.{◌≡◌, IfOk, IfErr};
    ghost use Rattle.std.specs.Rc.{rc_value};
    ghost use Rattle.serde_json.specs.Data.{Data};
    ghost use Rattle.serde_json.specs.View.{view};
    ghost use Rattle.otel_otlp.specs.ReadMembers.{IsRefused};

    ghost says: { Data → Self → Type 0 };

    /// Reads the item of the scope.
    ///
    /// # Errors
    ///
    /// `Unexpected` if the value isn't such an item; `Memory` if out of memory.
    fn read(alloc: Global, value: &Value, scope: &Rc<InstrumentationScope>) -> Result<Self, Fault>
        ensures ok { IfOk result (says (view value.now)) }
        ensures scope { IfOk result (λ item. Self.form.scope_of item ≡ rc_value scope.now) }
        ensures err { IfErr result (λ e. IsRefused e → (item : Self)
            → ¬ says (view value.now) item) };
}

/// Reads each of the items of the scope.
fn each_item<I: Item>(
    alloc: Global,
    values: &[Value],
    scope: &Rc<InstrumentationScope>,
) -> Result<Vec<I>, Fault>
    ensures ok { IfOk result (λ read. AllZip I.says (map view values.now) read.items) }
    ensures scope { IfOk result (λ read.
        All (λ item. I.form.scope_of item ≡ rc_value scope.now) read.items) }
    ensures err { IfErr result (λ e. IsRefused e
        → (items : List I) → ¬ AllZip I.says (map view values.now) items) }
{
    let mut read = Vec::with_capacity(alloc, values.len())?;
    for (index, value) in values.iter().enumerate() {
        match I::read(alloc, value, scope) {
            Ok(item) => read.push(item)?,
            Err(error) => return Err(error.in_item(alloc, index)),
        }
    }
    Ok(read)
}

/// Returns the items of the group, which are of the scope.
fn items_in<I: Item>(
    alloc: Global,
    group: &Value,
    scope: &Rc<InstrumentationScope>,
) -> Result<Vec<I>, Fault>
    ensures ok { IfOk result (λ read. AreIn I.says I.form.items (view group.now) read.items) }
    ensures scope { IfOk result (λ read.
        All (λ item. I.form.scope_of item ≡ rc_value scope.now) read.items) }
    ensures err { IfErr result (λ e. IsRefused e
        → (items : List I) → ¬ AreIn I.says I.form.items (view group.now) items) }
{
    let name = I::list_names().items;
    let values = items(alloc, group, name)?;
    match each_item(alloc, values, scope) {
        Ok(read) => Ok(read),
        Err(error) => Err(error.within(alloc, name)),
    }
}

/// A group of items. The ghost member `held` gives its items.
pub(crate) trait Group<I: Drop>: Drop {
    ghost use Rattle.std.specs.Prelude.{◌≡◌, List};

    ghost held: { Self → List I };

    /// Returns the items of the group.
    fn into_items(self) -> Vec<I>
        ensures { result.items ≡ held self };
}

/// Returns the items of all groups, in order.
#[tactic(auto, using(crate::proofs::ReadGroups::joined_more))]
pub(crate) fn joined<I: Drop, G: Group<I>>(
    alloc: Global,
    groups: Vec<G>,
) -> Result<Vec<I>, AllocError>
    ensures { IfOk result (λ all. all.items ≡ spec.joined (map G.held groups.items)) }
{
    let mut all = Vec::new(alloc);
    for group in groups {
        let mut items = group.into_items();
        all.append(&mut items)?;
    }
    Ok(all)
}

/// The items of a scope (the protocol's `ScopeSpans` and `ScopeLogs`).
#[derive(Drop)]
struct ScopeGroup<I> {
    items: Vec<I>,
}

impl<I: Item> Group<I> for ScopeGroup<I> {
    ghost held = { λ group. group.items.items };

    fn into_items(self) -> Vec<I> {
        self.items
    }
}

impl<I: Item> Message for ScopeGroup<I> {
    ghost use Rattle.std.specs.Prelude.{List};
    ghost use Rattle.otel_otlp.specs.ReadGroups as spec;

    ghost Seen = { List I };

    ghost seen = { λ group. group.items.items };

    ghost says = { spec.IsScopeGroup I.form I.says };

    fn read(alloc: Global, value: &Value) -> Result<ScopeGroup<I>, Fault> {
        check_object(alloc, value)?;
        let url = given_text(alloc, value, "schemaUrl")?;
        let scope = scope_in(alloc, value, url)?;
        let shared = Rc::new(alloc, scope)?;
        let items = items_in::<I>(alloc, value, &shared)?;
        Ok(ScopeGroup { items })
    }
}

/// Returns the items of all scopes of the resource, in order.
pub(crate) fn items_of<I: Item>(alloc: Global, resource: &Value) -> Result<Vec<I>, Fault>
    ensures ok { IfOk result (λ read. spec.HasItems I.form I.says (view resource.now) read.items) }
    ensures err { IfErr result (λ e. IsRefused e
        → (items : List I) → ¬ spec.HasItems I.form I.says (view resource.now) items) }
{
    let groups = read_list::<ScopeGroup<I>>(alloc, resource, I::list_names().scopes)?;
    Ok(joined(alloc, groups)?)
}
