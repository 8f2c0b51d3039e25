//! Truncates the texts in attributes to a number of characters.
ghost use Rattle.std.specs.Prelude.{◌≡◌, IfOk, map, take};
ghost use Rattle.std.specs.Fmt.{is_char_start, take_chars};
ghost use Rattle.std.specs.String.Boundary.{IsSplitPoint};
ghost use Rattle.otel_base.specs.View.{array_of, attribute_of, value_of};
ghost use Rattle.otel_sdk_base.specs.Attributes as spec;

use otel_base::{Array, KeyValue, StringValue, Value};
use std::alloc::{AllocError, Global};

/// Returns whether a character begins with the byte, in UTF-8.
fn is_char_start(byte: u8) -> bool
    ensures { result ≡ is_char_start byte }
{
    byte < 0x80 || byte >= 0xc0
}

/// Returns the byte position at which the first `length` characters of the text end.
fn end_of_chars(text: &str, length: u32) -> usize
    ensures characters { take result text.now ≡ take_chars length text.now }
    ensures boundary { IsSplitPoint text.now result }
{
    let bytes = text.as_bytes();
    let mut left = length;
    for index in 0..bytes.len() {
        if is_char_start(bytes[index]) {
            if left == 0 {
                return index;
            }
            left -= 1;
        }
    }
    bytes.len()
}

/// Returns the first `length` characters of the text. Doesn't allocate if the text isn't longer.
///
/// # Errors
///
/// `AllocError` if out of memory. The text is dropped.
pub fn cut_text(alloc: Global, length: u32, text: StringValue) -> Result<StringValue, AllocError>
    ensures { IfOk result (λ cut. cut ≡ take_chars length text) }
{
    let end = end_of_chars(text.as_str(), length);
    if end == text.as_str().len() {
        return Ok(text);
    }
    let mut kept = text.into_string(alloc)?;
    kept.truncate(end);
    Ok(StringValue::from(kept))
}

fn cut_texts(
    alloc: Global,
    length: u32,
    texts: Vec<StringValue>,
) -> Result<Vec<StringValue>, AllocError>
    ensures { IfOk result (λ cut. cut.items ≡ map (take_chars length) texts.items) }
{
    let mut cut = Vec::with_capacity(alloc, texts.len())?;
    for text in texts {
        cut.push(cut_text(alloc, length, text)?)?;
    }
    Ok(cut)
}

fn cut_value(alloc: Global, length: u32, value: Value) -> Result<Value, AllocError>
    ensures { IfOk result (λ cut. value_of cut ≡ spec.cut_value length (value_of value)) }
{
    match value {
        Value::String(text) => Ok(Value::String(cut_text(alloc, length, text)?)),
        Value::Array(Array::String(texts)) => {
            Ok(Value::Array(Array::String(cut_texts(alloc, length, texts)?)))
        }
        value => Ok(value),
    }
}

/// Returns the attribute with each text of its value truncated to `length` characters, or unchanged
/// if there is no `length`.
///
/// # Errors
///
/// `AllocError` if out of memory. The attribute is dropped.
pub fn cut(alloc: Global, length: Option<u32>, attribute: KeyValue) -> Result<KeyValue, AllocError>
    ensures { IfOk result (λ cut. attribute_of cut ≡ spec.cut length (attribute_of attribute)) }
{
    match length {
        Some(length) => {
            let value = cut_value(alloc, length, attribute.value)?;
            Ok(KeyValue::new(attribute.key, value))
        }
        None => Ok(attribute),
    }
}
