//! Reads attributes and their values.
ghost use Rattle.std.specs.Prelude.{◌≡◌, List, ℕ, Some, IfOk, IfErr, map, option_map, string_bytes};
ghost use Rattle.std.specs.Prelude.{codes, Bool, ℤ};
ghost use Rattle.serde_json.specs.View.{view};
ghost use Rattle.otel_base.specs.Array.{ArrayValue};
ghost use Rattle.otel_base.specs.KeyValue.{Attribute};
ghost use Rattle.otel_base.specs.Value.{AttributeValue};
ghost use Rattle.otel_base.specs.View.{array_of, attribute_of, value_of};
ghost use Rattle.std.specs.List.{list_all};
ghost use Rattle.otel_otlp.specs.ReadErrors.{NamesPlace};
ghost use Rattle.otel_otlp.specs.ReadMembers as members;
ghost use Rattle.otel_otlp.specs.ReadMembers.{IsRefused};
ghost use Rattle.otel_otlp.specs.ReadValues as spec;

use crate::read::error::{Fault, unexpected};
use crate::read::members::{check_object, integer_of, member, text, to_text};
use crate::read::messages::{Message, read_list};
use opentelemetry::{Array, Key, KeyValue, StringValue, Value};
use serde_json::Value as Json;
use std::alloc::{AllocError, Global};

impl Message for bool {
    ghost use Rattle.std.specs.Prelude.{Bool};
    ghost use Rattle.otel_otlp.specs.ReadValues as spec;

    ghost Seen = { Bool };

    ghost seen = { λ b. b };

    ghost says = { spec.IsTruth };

    fn read(alloc: Global, value: &Json) -> Result<bool, Fault>
        ensures ok { IfOk result (λ truth. spec.IsTruth (view value.now) truth) }
        ensures err { IfErr result (λ e. IsRefused e
            → (truth : Bool) → ¬ spec.IsTruth (view value.now) truth) }
        ensures place { IfErr result (NamesPlace (codes "boolValue") (codes "true or false")) }
    {
        match member(value, "boolValue").and_then(Json::as_bool) {
            Some(truth) => Ok(truth),
            None => Err(unexpected(alloc, "boolValue", "true or false")),
        }
    }
}

impl Message for i64 {
    ghost use Rattle.std.specs.Prelude.{ℤ};
    ghost use Rattle.otel_otlp.specs.ReadValues as spec;

    ghost Seen = { ℤ };

    ghost seen = { λ z. z };

    ghost says = { spec.IsWhole };

    fn read(alloc: Global, value: &Json) -> Result<i64, Fault>
        ensures ok { IfOk result (λ integer. spec.IsWhole (view value.now) integer) }
        ensures err { IfErr result (λ e. IsRefused e
            → (integer : ℤ) → ¬ spec.IsWhole (view value.now) integer) }
        ensures place { IfErr result
            (NamesPlace (codes "intValue") (codes "an integer of 64 bits")) }
    {
        match member(value, "intValue").and_then(integer_of) {
            Some(integer) => Ok(integer),
            None => Err(unexpected(alloc, "intValue", "an integer of 64 bits")),
        }
    }
}

/// Returns the text, float, bytes or map that an `AnyValue` of the protocol holds, if there is one.
fn held_other(value: &Json) -> Option<&Json>
    ensures { option_map (λ v. view v.now) result ≡ spec.held_other (view value.now) }
{
    if let Some(text) = member(value, "stringValue") {
        return Some(text);
    }
    if let Some(float) = member(value, "doubleValue") {
        return Some(float);
    }
    if let Some(bytes) = member(value, "bytesValue") {
        return Some(bytes);
    }
    member(value, "kvlistValue")
}

/// Returns the boolean, integer or array that an `AnyValue` of the protocol holds, if there is one.
fn held_case(value: &Json) -> Option<&Json>
    ensures { option_map (λ v. view v.now) result ≡ spec.held_case (view value.now) }
{
    if let Some(truth) = member(value, "boolValue") {
        return Some(truth);
    }
    if let Some(integer) = member(value, "intValue") {
        return Some(integer);
    }
    member(value, "arrayValue")
}

/// Returns the value that an `AnyValue` of the protocol holds, if there is one.
fn held(value: &Json) -> Option<&Json>
    ensures { option_map (λ v. view v.now) result ≡ spec.held (view value.now) }
{
    match held_other(value) {
        Some(held) => Some(held),
        None => held_case(value),
    }
}

/// Returns the text, or the JSON of another value.
fn text_for(alloc: Global, value: &Json) -> Result<String, AllocError>
    ensures { IfOk result (λ text. spec.IsTextFor (view value.now) (string_bytes text)) }
{
    match value {
        Json::String(text) => String::from_str(alloc, text.as_str()),
        _ => to_text(alloc, value),
    }
}

/// Returns the text for any value, which is empty for the empty value.
fn held_text(alloc: Global, value: &Json) -> Result<StringValue, AllocError>
    ensures { IfOk result (spec.IsHeldText (view value.now)) }
{
    match held(value) {
        Some(value) => Ok(StringValue::from(text_for(alloc, value)?)),
        None => Ok(StringValue::from("")),
    }
}

impl Message for StringValue {
    ghost use Rattle.std.specs.Prelude.{List, ℕ};
    ghost use Rattle.otel_otlp.specs.ReadValues as spec;

    ghost Seen = { List ℕ };

    ghost seen = { λ text. text };

    ghost says = { spec.IsItemText };

    fn read(alloc: Global, value: &Json) -> Result<StringValue, Fault> {
        check_object(alloc, value)?;
        Ok(held_text(alloc, value)?)
    }
}

/// Returns `true` if the value has the member.
pub(crate) fn has(value: &Json, name: &str) -> bool
    ensures { result ≡ members.has name.now (view value.now) }
{
    match member(value, name) {
        Some(_) => true,
        None => false,
    }
}

/// Returns `true` if each of the values has the member.
fn each_has(values: &[Json], name: &str) -> bool
    ensures { result ≡ list_all (λ value. members.has name.now (view value)) values.now }
{
    values.iter().all(|value| has(value, name))
}

/// Returns `true` if there are values, and each of them has the member.
#[tactic(auto, using(crate::proofs::ReadLists::all_have_each))]
fn all_have(values: &[Json], name: &str) -> bool
    ensures { result ≡ members.all_have name.now (Some (map view values.now)) }
{
    !values.is_empty() && each_has(values, name)
}

/// Returns `true` if the list has values, and each of them has the member.
#[tactic(auto, using(crate::proofs::ReadLists::items_again))]
fn all_values_have(list: &Json, name: &str) -> bool
    ensures { result ≡ spec.all_values_have name.now (view list.now) }
{
    let Some(value) = member(list, "values") else {
        return false;
    };
    match value.as_array() {
        Some(values) => all_have(values.as_slice(), name),
        None => false,
    }
}

/// Reads an array: of booleans or integers if all items are, otherwise of texts.
fn array(alloc: Global, list: &Json) -> Result<Array, Fault>
    ensures ok { IfOk result (λ a. spec.IsArray (view list.now) (array_of a)) }
    ensures err { IfErr result (λ e. IsRefused e
        → (xs : ArrayValue) → ¬ spec.IsArray (view list.now) xs) }
{
    if all_values_have(list, "boolValue") {
        Ok(Array::Bool(read_list::<bool>(alloc, list, "values")?))
    } else if all_values_have(list, "intValue") {
        Ok(Array::I64(read_list::<i64>(alloc, list, "values")?))
    } else {
        Ok(Array::String(read_list::<StringValue>(alloc, list, "values")?))
    }
}

/// Reads a value that is neither a boolean nor an integer.
fn other(alloc: Global, value: &Json) -> Result<Value, Fault>
    ensures ok { IfOk result (λ v. spec.IsOther (view value.now) (value_of v)) }
    ensures err { IfErr result (λ e. IsRefused e
        → (v : AttributeValue) → ¬ spec.IsOther (view value.now) v) }
{
    let Some(list) = member(value, "arrayValue") else {
        return Ok(Value::String(held_text(alloc, value)?));
    };
    match array(alloc, list) {
        Ok(array) => Ok(Value::Array(array)),
        Err(error) => Err(error.within(alloc, "arrayValue")),
    }
}

/// Reads the value of an attribute (the protocol's `AnyValue`).
fn any_value(alloc: Global, value: &Json) -> Result<Value, Fault>
    ensures ok { IfOk result (λ v. spec.IsValue (view value.now) (value_of v)) }
    ensures err { IfErr result (λ e. IsRefused e
        → (v : AttributeValue) → ¬ spec.IsValue (view value.now) v) }
{
    check_object(alloc, value)?;
    if has(value, "boolValue") {
        return Ok(Value::Bool(bool::read(alloc, value)?));
    }
    if has(value, "intValue") {
        return Ok(Value::I64(i64::read(alloc, value)?));
    }
    other(alloc, value)
}

/// Returns the value of the pair, an empty text if it is absent.
fn value_in(alloc: Global, pair: &Json) -> Result<Value, Fault>
    ensures ok { IfOk result (λ v. spec.IsValueIn (view pair.now) (value_of v)) }
    ensures err { IfErr result (λ e. IsRefused e
        → (v : AttributeValue) → ¬ spec.IsValueIn (view pair.now) v) }
{
    let Some(value) = member(pair, "value") else {
        return Ok(Value::from(""));
    };
    match any_value(alloc, value) {
        Ok(value) => Ok(value),
        Err(error) => Err(error.within(alloc, "value")),
    }
}

/// The protocol's `KeyValue`.
impl Message for KeyValue {
    ghost use Rattle.otel_base.specs.KeyValue.{Attribute};
    ghost use Rattle.otel_base.specs.View.{attribute_of};
    ghost use Rattle.otel_otlp.specs.ReadValues as spec;

    ghost Seen = { Attribute };

    ghost seen = { attribute_of };

    ghost says = { spec.IsAttribute };

    fn read(alloc: Global, value: &Json) -> Result<KeyValue, Fault> {
        check_object(alloc, value)?;
        let key = text(alloc, value, "key")?;
        let value = value_in(alloc, value)?;
        Ok(KeyValue::new(Key::new(key), value))
    }
}

/// Returns the attributes of the object.
pub(crate) fn attributes(alloc: Global, object: &Json) -> Result<Vec<KeyValue>, Fault>
    ensures ok { IfOk result (λ read.
        spec.HasAttributes (view object.now) (map attribute_of read.items)) }
    ensures err { IfErr result (λ e. IsRefused e
        → (xs : List Attribute) → ¬ spec.HasAttributes (view object.now) xs) }
{
    read_list(alloc, object, "attributes")
}
