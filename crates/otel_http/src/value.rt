//! The values of headers as texts.
ghost use Rattle.std.specs.Prelude.{◌≡◌, IfOk, string_bytes, option_copied, map};
ghost use Rattle.std.specs.List.{filter_map};
ghost use Rattle.std.specs.Option.{option_map};
ghost use Rattle.otel_http.specs.Headers.{first, joined, only, text, text_of};

use http_header::{GetAll, HeaderValue};
use std::alloc::{AllocError, Global};

/// Returns the text of the value, if it is readable.
pub(crate) fn read(value: &HeaderValue) -> Option<&str>
    ensures { option_copied result ≡ text value.now }
{
    match value.to_str() {
        Ok(text) => Some(text),
        Err(_) => None,
    }
}

/// Returns the text of the first value.
fn read_first<'a>(values: &GetAll<'a, HeaderValue>) -> Option<&'a str>
    ensures { option_copied result ≡ first values.now }
{
    match values.iter().next() {
        Some(value) => read(value),
        None => None,
    }
}

/// Returns the text of the only value, or `None` if there are more.
fn read_only<'a>(values: &GetAll<'a, HeaderValue>) -> Option<&'a str>
    ensures { option_copied result ≡ only values.now }
{
    let mut rest = values.iter();
    match (rest.next(), rest.next()) {
        (Some(value), None) => read(value),
        _ => None,
    }
}

/// Returns the texts of the readable values, joined by commas, if there are any.
fn read_joined(
    alloc: Global,
    values: &GetAll<'_, HeaderValue>,
) -> Result<Option<String>, AllocError>
    ensures { IfOk result (λ found. option_map (λ t. string_bytes t) found
        ≡ joined (filter_map text values.now)) }
{
    let mut pieces: Vec<&str> = Vec::new(alloc);
    for value in values {
        if let Some(piece) = read(value) {
            pieces.push(piece)?;
        }
    }
    if pieces.is_empty() {
        return Ok(None);
    }
    Ok(Some(pieces.join(alloc, ",")?))
}

/// Returns the text of a name with these values.
pub(crate) fn read_all(
    alloc: Global,
    name: &str,
    values: &GetAll<'_, HeaderValue>,
) -> Result<Option<String>, AllocError>
    ensures { IfOk result (λ found. option_map (λ t. string_bytes t) found
        ≡ text_of name.now values.now) }
{
    let one = if name == "traceparent" {
        read_only(values)
    } else if name == "tracestate" || name == "baggage" {
        return read_joined(alloc, values);
    } else {
        read_first(values)
    };
    match one {
        Some(text) => Ok(Some(String::from_str(alloc, text)?)),
        None => Ok(None),
    }
}
