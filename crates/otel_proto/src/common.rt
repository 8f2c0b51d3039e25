//! The messages that traces and logs share: values and attributes.
ghost use Rattle.std.specs.Prelude.{◌≡◌, ◌∷◌, [], IfOk, Some, map};
ghost use Rattle.otel_base.specs.View.{attribute_of, value_of, array_of};
ghost use Rattle.otel_proto.specs.Common as spec;
ghost use Rattle.otel_proto.specs.Output.{Puts};
ghost use Rattle.otel_proto.specs.Wire.{read};
ghost use Rattle.otel_proto.specs.Written.{bytes_of, message, messages};

use crate::fields::{put_boolean, put_bytes, put_bytes_unless_empty, put_head, put_integer};
use crate::output::Output;
use otel_base::{Array, KeyValue, StringValue, Value};
use std::alloc::{AllocError, Global};

/// Puts the value of a boolean.
pub(crate) fn boolean_value(out: &mut Output, value: bool) -> Result<(), AllocError>
    ensures { Puts result out.old out.new (spec.boolean_value value) }
{
    put_boolean(out, 2, value)
}

/// Puts the value of an integer.
pub(crate) fn integer_value(out: &mut Output, value: i64) -> Result<(), AllocError>
    ensures { Puts result out.old out.new (spec.integer_value value) }
{
    put_integer(out, 3, value)
}

/// Puts the value of a string.
pub(crate) fn text_value(out: &mut Output, value: &str) -> Result<(), AllocError>
    ensures { Puts result out.old out.new (spec.text_value value.now) }
{
    put_bytes(out, 1, value.as_bytes())
}

/// Puts the value of each boolean.
fn boolean_values(out: &mut Output, items: &[bool]) -> Result<(), AllocError>
    ensures { Puts result out.old out.new (messages 1 spec.boolean_value items.now) }
{
    for item in items.iter().rev() {
        let end = out.count();
        boolean_value(out, *item)?;
        put_head(out, 1, end)?;
    }
    Ok(())
}

/// Puts the value of each integer.
fn integer_values(out: &mut Output, items: &[i64]) -> Result<(), AllocError>
    ensures { Puts result out.old out.new (messages 1 spec.integer_value items.now) }
{
    for item in items.iter().rev() {
        let end = out.count();
        integer_value(out, *item)?;
        put_head(out, 1, end)?;
    }
    Ok(())
}

/// Puts the value of each string.
fn text_values(out: &mut Output, items: &[StringValue]) -> Result<(), AllocError>
    ensures { Puts result out.old out.new (messages 1 spec.text_value items.now) }
{
    for item in items.iter().rev() {
        let end = out.count();
        text_value(out, item.as_str())?;
        put_head(out, 1, end)?;
    }
    Ok(())
}

/// Puts the value of each item of the array.
fn array_values(out: &mut Output, array: &Array) -> Result<(), AllocError>
    ensures { Puts result out.old out.new (spec.array_values (array_of array.now)) }
{
    match array {
        Array::Bool(items) => boolean_values(out, items.as_slice()),
        Array::I64(items) => integer_values(out, items.as_slice()),
        Array::String(items) => text_values(out, items.as_slice()),
    }
}

/// Puts the value of an array.
fn array_value(out: &mut Output, array: &Array) -> Result<(), AllocError>
    ensures { Puts result out.old out.new
        (message 5 (spec.array_values (array_of array.now)) ∷ []) }
{
    let end = out.count();
    array_values(out, array)?;
    put_head(out, 5, end)
}

/// Puts the value of an attribute (the protocol's `AnyValue`).
fn any_value(out: &mut Output, value: &Value) -> Result<(), AllocError>
    ensures { Puts result out.old out.new (spec.any_value (value_of value.now)) }
{
    match value {
        Value::Bool(value) => boolean_value(out, *value),
        Value::I64(value) => integer_value(out, *value),
        Value::String(value) => text_value(out, value.as_str()),
        Value::Array(array) => array_value(out, array),
    }
}

/// Puts an attribute (the protocol's `KeyValue`).
fn key_value(out: &mut Output, attribute: &KeyValue) -> Result<(), AllocError>
    ensures { Puts result out.old out.new (spec.key_value (attribute_of attribute.now)) }
{
    let end = out.count();
    any_value(out, &attribute.value)?;
    put_head(out, 2, end)?;
    put_bytes_unless_empty(out, 1, attribute.key.as_str().as_bytes())
}

/// Puts each attribute, as a field of the number (the protocol's `KeyValue`).
///
/// # Errors
///
/// `AllocError` if the bytes don't fit the output, which may then hold some of them.
pub fn put_attributes(
    out: &mut Output,
    number: u32,
    attributes: &[KeyValue],
) -> Result<(), AllocError>
    ensures { Puts result out.old out.new
        (spec.attributes number (map attribute_of attributes.now)) }
{
    for attribute in attributes.iter().rev() {
        let end = out.count();
        key_value(out, attribute)?;
        put_head(out, number, end)?;
    }
    Ok(())
}

/// Returns attributes, in order, as the bytes of the protocol's `KeyValueList`.
///
/// The bytes are counted first, and their buffer is allocated once.
///
/// # Errors
///
/// `AllocError` if out of memory.
pub fn key_value_list_bytes(alloc: Global, attributes: &[KeyValue]) -> Result<Vec<u8>, AllocError>
    ensures bytes { IfOk result (λ v.
        v.items ≡ bytes_of (spec.key_value_list (map attribute_of attributes.now))) }
    ensures reads { IfOk result (λ v.
        read v.items ≡ Some (spec.key_value_list (map attribute_of attributes.now))) }
{
    let mut counted = Output::counting();
    put_attributes(&mut counted, 1, attributes)?;
    let mut out = Output::with_size(alloc, counted.count())?;
    put_attributes(&mut out, 1, attributes)?;
    out.into_bytes()
}
