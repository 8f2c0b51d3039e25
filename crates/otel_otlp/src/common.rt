//! The messages that traces and logs share: attributes, resources, instrumentation scopes.
ghost use Rattle.std.specs.Prelude.{◌≡◌, [], ◌∷◌, IfOk, OnOk, codes, map};
ghost use Rattle.json.specs.Token.{key, string, begin_object, end_object, begin_array, end_array};
ghost use Rattle.otel_base.specs.View.{attribute_of, value_of, array_of};
ghost use Rattle.otel_otlp.specs.Common as spec;
ghost use Rattle.otel_otlp.specs.Tokens.{Appended, WritesValue, WritesMembers, WritesItems};

use crate::object::{begin_list, put_integer, put_text, put_text_if_given};
use json::Writer;
use opentelemetry::{Array, InstrumentationScope, KeyValue, StringValue, Value};
use otel_sdk_base::resource::Resource;
use std::alloc::{AllocError, Global};

/// Writes the value of a boolean.
pub(crate) fn boolean_value(out: &mut Writer, value: bool) -> Result<(), AllocError>
    ensures { WritesValue result out.old out.new (spec.boolean_value value) }
{
    out.begin_object()?;
    out.key("boolValue")?;
    out.boolean(value)?;
    out.end_object()
}

/// Writes the value of an integer, as the text of its digits.
pub(crate) fn integer_value(out: &mut Writer, value: i64) -> Result<(), AllocError>
    ensures { WritesValue result out.old out.new (spec.integer_value value) }
{
    out.begin_object()?;
    put_integer(out, "intValue", value)?;
    out.end_object()
}

/// Writes the value of a text.
pub(crate) fn text_value(out: &mut Writer, value: &str) -> Result<(), AllocError>
    ensures { WritesValue result out.old out.new (spec.text_value value.now) }
{
    out.begin_object()?;
    put_text(out, "stringValue", value)?;
    out.end_object()
}

/// Begins the value of a list or of a map, which has its items under the name.
pub(crate) fn begin_values(out: &mut Writer, name: &str) -> Result<(), AllocError>
    ensures { OnOk result (Appended out.old out.new
        (begin_object ∷ key name.now ∷ begin_object ∷ key (codes "values") ∷ begin_array ∷ [])) }
{
    out.begin_object()?;
    out.key(name)?;
    out.begin_object()?;
    begin_list(out, "values")
}

/// Ends the value of a list or of a map.
pub(crate) fn end_values(out: &mut Writer) -> Result<(), AllocError>
    ensures { OnOk result (Appended out.old out.new
        (end_array ∷ end_object ∷ end_object ∷ [])) }
{
    out.end_array()?;
    out.end_object()?;
    out.end_object()
}

/// Writes the value of each boolean.
fn boolean_values(out: &mut Writer, items: &[bool]) -> Result<(), AllocError>
    ensures { WritesItems result out.old out.new (map spec.boolean_value items.now) }
{
    for item in items {
        boolean_value(out, *item)?;
    }
    Ok(())
}

/// Writes the value of each integer.
fn integer_values(out: &mut Writer, items: &[i64]) -> Result<(), AllocError>
    ensures { WritesItems result out.old out.new (map spec.integer_value items.now) }
{
    for item in items {
        integer_value(out, *item)?;
    }
    Ok(())
}

/// Writes the value of each text.
fn text_values(out: &mut Writer, items: &[StringValue]) -> Result<(), AllocError>
    ensures { WritesItems result out.old out.new (map spec.text_value items.now) }
{
    for item in items {
        text_value(out, item.as_str())?;
    }
    Ok(())
}

/// Writes the value of each item of the array.
fn array_values(out: &mut Writer, array: &Array) -> Result<(), AllocError>
    ensures { WritesItems result out.old out.new (spec.array_values (array_of array.now)) }
{
    match array {
        Array::Bool(items) => boolean_values(out, items.as_slice()),
        Array::I64(items) => integer_values(out, items.as_slice()),
        Array::String(items) => text_values(out, items.as_slice()),
    }
}

/// Writes the value of an array.
fn array_value(out: &mut Writer, array: &Array) -> Result<(), AllocError>
    ensures { WritesValue result out.old out.new
        (spec.list_value (spec.array_values (array_of array.now))) }
{
    begin_values(out, "arrayValue")?;
    array_values(out, array)?;
    end_values(out)
}

/// Writes the value of an attribute (the protocol's `AnyValue`).
fn any_value(out: &mut Writer, value: &Value) -> Result<(), AllocError>
    ensures { WritesValue result out.old out.new (spec.any_value (value_of value.now)) }
{
    match value {
        Value::Bool(value) => boolean_value(out, *value),
        Value::I64(value) => integer_value(out, *value),
        Value::String(value) => text_value(out, value.as_str()),
        Value::Array(array) => array_value(out, array),
    }
}

/// Begins a key with its value (the protocol's `KeyValue`), which ends with the object.
pub(crate) fn begin_pair(out: &mut Writer, name: &str) -> Result<(), AllocError>
    ensures { OnOk result (Appended out.old out.new
        (begin_object ∷ key (codes "key") ∷ string name.now ∷ key (codes "value") ∷ [])) }
{
    out.begin_object()?;
    put_text(out, "key", name)?;
    out.key("value")
}

/// Writes an attribute.
fn key_value(out: &mut Writer, attribute: &KeyValue) -> Result<(), AllocError>
    ensures { WritesValue result out.old out.new (spec.key_value (attribute_of attribute.now)) }
{
    begin_pair(out, attribute.key.as_str())?;
    any_value(out, &attribute.value)?;
    out.end_object()
}

/// Writes each attribute.
fn key_values(out: &mut Writer, attributes: &[KeyValue]) -> Result<(), AllocError>
    ensures { WritesItems result out.old out.new
        (map spec.key_value (map attribute_of attributes.now)) }
{
    for attribute in attributes {
        key_value(out, attribute)?;
    }
    Ok(())
}

/// Writes the member with the attributes, unless there are none.
pub(crate) fn put_attributes(out: &mut Writer, attributes: &[KeyValue]) -> Result<(), AllocError>
    ensures { WritesMembers result out.old out.new
        (spec.attributes_member (map attribute_of attributes.now)) }
{
    if attributes.is_empty() {
        return Ok(());
    }
    begin_list(out, "attributes")?;
    key_values(out, attributes)?;
    out.end_array()
}

/// Writes a resource (the protocol's `Resource`).
pub(crate) fn resource(out: &mut Writer, resource: &Resource) -> Result<(), AllocError>
    ensures { WritesValue result out.old out.new (spec.resource resource.now) }
{
    out.begin_object()?;
    put_attributes(out, resource.attributes().as_slice())?;
    out.end_object()
}

/// Returns the scope's attributes with each key once: its last value at its first place.
fn unique(alloc: Global, scope: &InstrumentationScope) -> Result<Resource, AllocError>
    ensures { IfOk result (λ r. r.attributes ≡ spec.unique scope.now.attributes) }
{
    let mut given = Vec::new(alloc);
    for attribute in scope.attributes().as_slice() {
        given.push(attribute.clone()?)?;
    }
    Ok(
        Resource::builder_empty(alloc)
            .with_attributes(given)?
            .build(),
    )
}

/// Writes an instrumentation scope (the protocol's `InstrumentationScope`).
pub(crate) fn instrumentation_scope(
    out: &mut Writer,
    alloc: Global,
    scope: &InstrumentationScope,
) -> Result<(), AllocError>
    ensures { WritesValue result out.old out.new (spec.instrumentation_scope scope.now) }
{
    let given = unique(alloc, scope)?;
    out.begin_object()?;
    put_attributes(out, given.attributes().as_slice())?;
    put_text(out, "name", scope.name())?;
    put_text_if_given(out, "version", scope.version())?;
    out.end_object()
}
