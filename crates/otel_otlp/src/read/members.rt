//! Reads the members of an object: texts, numbers, ids and lists.
ghost use Rattle.std.specs.Prelude.{◌≡◌, List, None, Some, IfOk, IfErr, OnOk, map, option_map};
ghost use Rattle.std.specs.Prelude.{string_bytes, ℕ, Option, [], codes};
ghost use Rattle.serde_json.specs.View.{view};
ghost use Rattle.otel_ids.specs.TraceState.{Pair};
ghost use Rattle.otel_otlp.specs.HttpResponse.{IsCount};
ghost use Rattle.otel_otlp.specs.Json.{IsTextOf};
ghost use Rattle.otel_otlp.specs.ReadMembers as spec;
ghost use Rattle.otel_otlp.specs.ReadMembers.{IsRefused};
ghost use Rattle.otel_otlp.specs.ReadErrors.{NamesPlace};

use crate::read::error::{Fault, no_object, unexpected};
use hex::FromHex;
use opentelemetry::StringValue;
use opentelemetry::trace::{SpanId, TraceId, TraceState, TraceStateError};
use serde_json::Value;
use std::alloc::{AllocError, Global};

/// Returns the member, unless it is absent or null.
pub(crate) fn member<'v>(object: &'v Value, name: &str) -> Option<&'v Value>
    ensures { option_map (λ v. view v.now) result ≡ spec.member_of name.now (view object.now) }
{
    match object.get(name) {
        Some(value) => if value.is_null() { None } else { Some(value) },
        None => None,
    }
}

/// Returns the text of the value.
pub(crate) fn to_text(alloc: Global, value: &Value) -> Result<String, AllocError>
    ensures { IfOk result (λ s. IsTextOf (string_bytes s) (view value.now)) }
{
    value.to_string(alloc)
}

/// Checks that the value is an object.
pub(crate) fn check_object(alloc: Global, value: &Value) -> Result<(), Fault>
    ensures ok { OnOk result (spec.IsObject (view value.now)) }
    ensures err { IfErr result (λ e. IsRefused e → ¬ spec.IsObject (view value.now)) }
    ensures place { IfErr result (NamesPlace [] (codes "an object")) }
{
    if value.is_object() {
        Ok(())
    } else {
        Err(no_object(alloc))
    }
}

/// Returns the text of the member, which is empty if it is absent.
pub(crate) fn text(alloc: Global, object: &Value, name: &str) -> Result<String, Fault>
    ensures ok { IfOk result (λ text.
        spec.text_in name.now (view object.now) ≡ Some (string_bytes text)) }
    ensures err { IfErr result (λ e. IsRefused e
        → spec.text_in name.now (view object.now) ≡ None) }
    ensures place { IfErr result (NamesPlace name.now (codes "a text")) }
{
    let Some(value) = member(object, name) else {
        return Ok(String::new(alloc));
    };
    match value.as_str() {
        Some(text) => Ok(String::from_str(alloc, text)?),
        None => Err(unexpected(alloc, name, "a text")),
    }
}

/// Returns the text of the member, if it isn't absent.
pub(crate) fn given_text(
    alloc: Global,
    object: &Value,
    name: &str,
) -> Result<Option<StringValue>, Fault>
    ensures ok { IfOk result (λ text.
        spec.given_text_in name.now (view object.now) ≡ Some text) }
    ensures err { IfErr result (λ e. IsRefused e
        → spec.given_text_in name.now (view object.now) ≡ None) }
    ensures place { IfErr result (NamesPlace name.now (codes "a text")) }
{
    let Some(value) = member(object, name) else {
        return Ok(None);
    };
    match value.as_str() {
        Some(text) => Ok(Some(StringValue::from(String::from_str(alloc, text)?))),
        None => Err(unexpected(alloc, name, "a text")),
    }
}

/// Returns the number of 64 bits, which may be written as a text of decimal digits.
fn wide_of(value: &Value) -> Option<u64>
    ensures { IsCount (view value.now) result }
{
    match value {
        Value::String(text) => text.as_str().parse::<u64>().ok(),
        _ => value.as_u64(),
    }
}

/// Returns the integer of 64 bits, which may be written as a text of decimal digits after a sign.
pub(crate) fn integer_of(value: &Value) -> Option<i64>
    ensures { spec.IsInteger (view value.now) result }
{
    match value {
        Value::String(text) => text.as_str().parse::<i64>().ok(),
        _ => value.as_i64(),
    }
}

/// Returns the number of 64 bits of the member, 0 if it is absent.
pub(crate) fn wide(alloc: Global, object: &Value, name: &str) -> Result<u64, Fault>
    ensures ok { IfOk result (spec.IsWideIn name.now (view object.now)) }
    ensures err { IfErr result (λ e. IsRefused e
        → (n : ℕ) → ¬ spec.IsWideIn name.now (view object.now) n) }
    ensures place { IfErr result (NamesPlace name.now (codes "a number of 64 bits")) }
{
    let Some(value) = member(object, name) else {
        return Ok(0);
    };
    match wide_of(value) {
        Some(number) => Ok(number),
        None => Err(unexpected(alloc, name, "a number of 64 bits")),
    }
}

/// Returns the number of 64 bits of the member, if it isn't absent.
pub(crate) fn given_wide(alloc: Global, object: &Value, name: &str) -> Result<Option<u64>, Fault>
    ensures ok { IfOk result (spec.IsGivenWideIn name.now (view object.now)) }
    ensures err { IfErr result (λ e. IsRefused e
        → (n : Option ℕ) → ¬ spec.IsGivenWideIn name.now (view object.now) n) }
    ensures place { IfErr result (NamesPlace name.now (codes "a number of 64 bits")) }
{
    let Some(value) = member(object, name) else {
        return Ok(None);
    };
    match wide_of(value) {
        Some(number) => Ok(Some(number)),
        None => Err(unexpected(alloc, name, "a number of 64 bits")),
    }
}

/// Returns the number of 32 bits of the member, 0 if it is absent.
pub(crate) fn narrow(alloc: Global, object: &Value, name: &str) -> Result<u32, Fault>
    ensures ok { IfOk result (spec.IsNarrowIn name.now (view object.now)) }
    ensures err { IfErr result (λ e. IsRefused e
        → (n : ℕ) → ¬ spec.IsNarrowIn name.now (view object.now) n) }
    ensures wide { ((n : ℕ) → ¬ spec.IsWideIn name.now (view object.now) n)
        → IfErr result (NamesPlace name.now (codes "a number of 64 bits")) }
    ensures narrow { (n : ℕ) → spec.IsWideIn name.now (view object.now) n
        → IfErr result (NamesPlace name.now (codes "a number of 32 bits")) }
{
    let number = wide(alloc, object, name)?;
    if number > u32::MAX as u64 {
        return Err(unexpected(alloc, name, "a number of 32 bits"));
    }
    Ok(number as u32)
}

/// Returns the number of 32 bits of the member, if it isn't absent.
pub(crate) fn given_narrow(alloc: Global, object: &Value, name: &str) -> Result<Option<u32>, Fault>
    ensures ok { IfOk result (spec.IsGivenNarrowIn name.now (view object.now)) }
    ensures err { IfErr result (λ e. IsRefused e
        → (n : Option ℕ) → ¬ spec.IsGivenNarrowIn name.now (view object.now) n) }
    ensures wide { ((n : ℕ) → ¬ spec.IsWideIn name.now (view object.now) n)
        → IfErr result (NamesPlace name.now (codes "a number of 64 bits")) }
    ensures narrow { (n : ℕ) → spec.IsWideIn name.now (view object.now) n
        → IfErr result (NamesPlace name.now (codes "a number of 32 bits")) }
{
    if member(object, name).is_none() {
        return Ok(None);
    }
    Ok(Some(narrow(alloc, object, name)?))
}

/// Reads 32 hexadecimal digits of either case.
fn trace_id_of(text: &str) -> Option<TraceId>
    ensures { result ≡ spec.trace_id_of text.now }
{
    match <[u8; 16]>::from_hex(text) {
        Ok(bytes) => Some(TraceId::from_bytes(bytes)),
        Err(_) => None,
    }
}

/// Reads 16 hexadecimal digits of either case.
fn span_id_of(text: &str) -> Option<SpanId>
    ensures { result ≡ spec.span_id_of text.now }
{
    match <[u8; 8]>::from_hex(text) {
        Ok(bytes) => Some(SpanId::from_bytes(bytes)),
        Err(_) => None,
    }
}

/// Returns the trace id of the object.
pub(crate) fn trace_id(alloc: Global, object: &Value) -> Result<TraceId, Fault>
    ensures ok { IfOk result (λ id. spec.trace_id_in (view object.now) ≡ Some id) }
    ensures err { IfErr result (λ e. IsRefused e → spec.trace_id_in (view object.now) ≡ None) }
    ensures place { IfErr result (NamesPlace (codes "traceId") (codes "32 hexadecimal digits")) }
{
    match member(object, "traceId")
        .and_then(Value::as_str)
        .and_then(trace_id_of)
    {
        Some(id) => Ok(id),
        None => Err(unexpected(alloc, "traceId", "32 hexadecimal digits")),
    }
}

/// Returns the span id of the object.
pub(crate) fn span_id(alloc: Global, object: &Value) -> Result<SpanId, Fault>
    ensures ok { IfOk result (λ id. spec.span_id_in (view object.now) ≡ Some id) }
    ensures err { IfErr result (λ e. IsRefused e → spec.span_id_in (view object.now) ≡ None) }
    ensures place { IfErr result (NamesPlace (codes "spanId") (codes "16 hexadecimal digits")) }
{
    match member(object, "spanId")
        .and_then(Value::as_str)
        .and_then(span_id_of)
    {
        Some(id) => Ok(id),
        None => Err(unexpected(alloc, "spanId", "16 hexadecimal digits")),
    }
}

/// Reads the span id of a parent, which is empty for a root.
fn parent_id_of(text: &str) -> Option<SpanId>
    ensures { result ≡ spec.parent_id_of text.now }
{
    if text.is_empty() {
        return Some(SpanId::INVALID);
    }
    span_id_of(text)
}

/// Returns the span id of the object's parent, 0 for a root.
pub(crate) fn parent_id(alloc: Global, object: &Value) -> Result<SpanId, Fault>
    ensures ok { IfOk result (λ id. spec.parent_id_in (view object.now) ≡ Some id) }
    ensures err { IfErr result (λ e. IsRefused e → spec.parent_id_in (view object.now) ≡ None) }
    ensures place { IfErr result
        (NamesPlace (codes "parentSpanId") (codes "16 hexadecimal digits")) }
{
    let Some(value) = member(object, "parentSpanId") else {
        return Ok(SpanId::INVALID);
    };
    match value.as_str().and_then(parent_id_of) {
        Some(id) => Ok(id),
        None => Err(unexpected(alloc, "parentSpanId", "16 hexadecimal digits")),
    }
}

/// Reads a trace id, which may be empty.
fn given_trace_id_of(text: &str) -> Option<Option<TraceId>>
    ensures { result ≡ spec.given_trace_id_of text.now }
{
    if text.is_empty() {
        return Some(None);
    }
    match trace_id_of(text) {
        Some(id) => Some(Some(id)),
        None => None,
    }
}

/// Reads a span id, which may be empty.
fn given_span_id_of(text: &str) -> Option<Option<SpanId>>
    ensures { result ≡ spec.given_span_id_of text.now }
{
    if text.is_empty() {
        return Some(None);
    }
    match span_id_of(text) {
        Some(id) => Some(Some(id)),
        None => None,
    }
}

/// Returns the trace id of the object, unless it is absent or empty.
pub(crate) fn given_trace_id(alloc: Global, object: &Value) -> Result<Option<TraceId>, Fault>
    ensures ok { IfOk result (λ id. spec.given_trace_id_in (view object.now) ≡ Some id) }
    ensures err { IfErr result (λ e. IsRefused e
        → spec.given_trace_id_in (view object.now) ≡ None) }
    ensures place { IfErr result (NamesPlace (codes "traceId") (codes "32 hexadecimal digits")) }
{
    let Some(value) = member(object, "traceId") else {
        return Ok(None);
    };
    match value.as_str().and_then(given_trace_id_of) {
        Some(id) => Ok(id),
        None => Err(unexpected(alloc, "traceId", "32 hexadecimal digits")),
    }
}

/// Returns the span id of the object, unless it is absent or empty.
pub(crate) fn given_span_id(alloc: Global, object: &Value) -> Result<Option<SpanId>, Fault>
    ensures ok { IfOk result (λ id. spec.given_span_id_in (view object.now) ≡ Some id) }
    ensures err { IfErr result (λ e. IsRefused e
        → spec.given_span_id_in (view object.now) ≡ None) }
    ensures place { IfErr result (NamesPlace (codes "spanId") (codes "16 hexadecimal digits")) }
{
    let Some(value) = member(object, "spanId") else {
        return Ok(None);
    };
    match value.as_str().and_then(given_span_id_of) {
        Some(id) => Ok(id),
        None => Err(unexpected(alloc, "spanId", "16 hexadecimal digits")),
    }
}

/// Returns the trace state of the object, which is empty if it is absent.
pub(crate) fn trace_state(alloc: Global, object: &Value) -> Result<TraceState, Fault>
    ensures ok { IfOk result (spec.HasState (view object.now)) }
    ensures err { IfErr result (λ e. IsRefused e
        → (pairs : List Pair) → ¬ spec.HasState (view object.now) pairs) }
    ensures text { spec.text_in (codes "traceState") (view object.now) ≡ None
        → IfErr result (NamesPlace (codes "traceState") (codes "a text")) }
    ensures pairs { (text : List ℕ)
        → spec.text_in (codes "traceState") (view object.now) ≡ Some text
        → IfErr result
        (NamesPlace (codes "traceState") (codes "pairs of keys and values")) }
{
    let text = text(alloc, object, "traceState")?;
    match TraceState::from_str(alloc, text.as_str()) {
        Ok(state) => Ok(state),
        Err(TraceStateError::Memory(error)) => Err(Fault::Memory(error)),
        Err(_) => Err(unexpected(alloc, "traceState", "pairs of keys and values")),
    }
}

/// Returns the values of the list, none if it is absent.
#[tactic(auto, using(crate::proofs::ReadLists::items_again))]
pub(crate) fn items<'v>(alloc: Global, object: &'v Value, name: &str) -> Result<&'v [Value], Fault>
    ensures ok { IfOk result (λ values.
        spec.list_in name.now (view object.now) ≡ Some (map view values.now)) }
    ensures err { IfErr result (λ e. IsRefused e
        → spec.list_in name.now (view object.now) ≡ None) }
    ensures place { IfErr result (NamesPlace name.now (codes "a list")) }
{
    let Some(value) = member(object, name) else {
        return Ok(&[]);
    };
    match value.as_array() {
        Some(list) => Ok(list.as_slice()),
        None => Err(unexpected(alloc, name, "a list")),
    }
}
