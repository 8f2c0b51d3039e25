//! Reads the body of a collector's response.
ghost use Rattle.std.specs.Prelude.{◌≡◌, [], Some, IfOk, IsOk, codes, option_and_then};
ghost use Rattle.std.specs.Prelude.{string_bytes, option_map};
ghost use Rattle.serde_json.specs.View.{view};
ghost use Rattle.serde_json.specs.Find.{get, as_str};
ghost use Rattle.otel_otlp.specs.HttpResponse as spec;

use serde_json::Value;
use std::alloc::{AllocError, Global};

/// How many items a collector has rejected of a request that it has taken, and its message.
#[derive(Drop)]
pub struct Partial {
    /// The number of rejected items.
    pub rejected: u64,
    /// The message, if there is one.
    pub message: Option<String>,
}

/// Returns the number, which may be written as a text of decimal digits; null counts as 0.
fn count_of(value: &Value) -> Option<u64>
    ensures { spec.IsCountOrNull (view value.now) result }
{
    match value {
        Value::Null => Some(0),
        Value::String(text) => text.as_str().parse::<u64>().ok(),
        _ => value.as_u64(),
    }
}

/// Returns the number of rejected items, 0 if the member is absent or null, and `None` if it is no
/// number.
fn rejected_of(partial: &Value, name: &str) -> Option<u64>
    ensures { spec.IsRejected name.now (view partial.now) result }
{
    match partial.get(name) {
        Some(value) => count_of(value),
        None => Some(0),
    }
}

/// Returns the text of the member, if it is there and a text.
pub(crate) fn text_of(
    alloc: Global,
    object: &Value,
    name: &str,
) -> Result<Option<String>, AllocError>
    ensures { IfOk result (λ text. option_map string_bytes text
        ≡ option_and_then as_str (get name.now (view object.now))) }
{
    match object.get(name).and_then(Value::as_str) {
        Some(text) => Ok(Some(String::from_str(alloc, text)?)),
        None => Ok(None),
    }
}

/// Returns what the member `partialSuccess` says. `None` if it has no number of rejected items.
fn partial_of(alloc: Global, partial: &Value, name: &str) -> Result<Option<Partial>, AllocError>
    ensures { IfOk result (spec.Tells (spec.SaysPartial name.now (view partial.now))) }
{
    let Some(rejected) = rejected_of(partial, name) else {
        return Ok(None);
    };
    let message = text_of(alloc, partial, "errorMessage")?;
    Ok(Some(Partial { rejected, message }))
}

/// Returns what the response says. `None` if it is no object, or if it has no number of rejected
/// items.
fn read_object(alloc: Global, value: &Value, name: &str) -> Result<Option<Partial>, AllocError>
    ensures { IfOk result (spec.Tells (spec.IsPartial name.now (view value.now))) }
{
    if !value.is_object() {
        return Ok(None);
    }
    match value.get("partialSuccess") {
        Some(partial) => partial_of(alloc, partial, name),
        None => Ok(Some(Partial {
            rejected: 0,
            message: None,
        })),
    }
}

/// Reads the bytes as JSON. `None` if they aren't.
fn json_of(alloc: Global, bytes: &[u8]) -> Result<Option<Value>, AllocError>
    ensures { IfOk result (spec.IsJsonOf bytes.now) }
{
    match Value::from_slice(alloc, bytes) {
        Ok(value) => Ok(Some(value)),
        Err(error) => {
            if error.is_memory() {
                return Err(AllocError);
            }
            Ok(None)
        }
    }
}

/// Reads the body of a response to a request that the collector has taken. The member of this name
/// has the number of rejected items. `None` if the body isn't readable: if it is no JSON object, or
/// if the number is none.
///
/// # Errors
///
/// `AllocError` if out of memory. An empty body needs none.
pub(crate) fn read_partial(
    alloc: Global,
    body: &[u8],
    name: &str,
) -> Result<Option<Partial>, AllocError>
    ensures read { IfOk result (spec.Tells (spec.SaysOfItems name.now body.now)) }
    ensures empty { body.now ≡ [] → IsOk result }
{
    if body.is_empty() {
        return Ok(Some(Partial {
            rejected: 0,
            message: None,
        }));
    }
    match json_of(alloc, body)? {
        Some(value) => read_object(alloc, &value, name),
        None => Ok(None),
    }
}

/// Returns the message of a response that isn't a success. `None` if there is none.
///
/// # Errors
///
/// `AllocError` if out of memory.
pub(crate) fn message_of(alloc: Global, body: &[u8]) -> Result<Option<String>, AllocError>
    ensures { IfOk result (spec.Tells (spec.HasText body.now)) }
{
    match json_of(alloc, body)? {
        Some(value) => text_of(alloc, &value, "message"),
        None => Ok(None),
    }
}
