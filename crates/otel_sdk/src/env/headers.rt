//! Reads the headers of exports by OTLP.
ghost use Rattle.std.specs.Prelude.{◌≡◌, ◌++◌, IfOk, OnOk, option_map, string_bytes};
ghost use Rattle.otel_base.specs.View.{attribute_of, value_of};
ghost use Rattle.otel_sdk.specs.EnvHeaders as spec;
ghost use Rattle.otel_sdk.specs.EnvTexts.{variables_of};

use super::texts::{is_long, is_named, short, text_of};
use super::warning::{EnvFault, EnvWarning, Instead, warn};
use http_header::{HeaderValue, HeaderValueError, is_token_char};
use opentelemetry::{KeyValue, Value};
use otel_base::cut_blanks;
use otel_sdk_base::resource::Resource;
use std::alloc::{AllocError, Global};

/// Returns whether each byte may be in a token.
fn has_token_bytes(text: &str) -> bool
    ensures { result ≡ spec.has_token_bytes text.now }
{
    text.bytes().all(|byte| is_token_char(byte))
}

/// Returns whether the text is a token (RFC 9110, section 5.6.2).
fn is_token(text: &str) -> bool
    ensures { result ≡ spec.is_token text.now }
{
    !text.is_empty() && has_token_bytes(text)
}

/// Returns whether the exporter writes the header of this name itself.
fn is_reserved(name: &str) -> bool
    ensures { result ≡ spec.is_reserved name.now }
{
    is_named(name, "content-type")
        || is_named(name, "content-length")
        || is_named(name, "transfer-encoding")
        || is_named(name, "host")
}

/// Returns whether the text has no blank at an end.
fn is_trimmed(text: &str) -> bool
    ensures { result ≡ spec.is_trimmed text.now }
{
    cut_blanks(text).len() == text.len()
}

/// Returns whether each byte may be in a header's value.
///
/// # Errors
///
/// `AllocError` if out of memory.
fn has_value_bytes(alloc: Global, text: &str) -> Result<bool, AllocError>
    ensures { IfOk result (λ b. b ≡ spec.has_value_bytes text.now) }
{
    match HeaderValue::from_str(alloc, text) {
        Ok(_) => Ok(true),
        Err(HeaderValueError::Invalid) => Ok(false),
        Err(HeaderValueError::OutOfMemory) => Err(AllocError),
    }
}

/// Returns whether a configuration may set the header of this name and this value.
///
/// # Errors
///
/// `AllocError` if out of memory.
fn is_allowed(alloc: Global, name: &str, value: &str) -> Result<bool, AllocError>
    ensures { IfOk result (λ b. b ≡ spec.is_allowed name.now value.now) }
{
    if !is_token(name) || is_reserved(name) || !is_trimmed(value) {
        return Ok(false);
    }
    has_value_bytes(alloc, value)
}

/// Returns the text of the value.
fn text_in(value: &Value) -> &str
    ensures { result.now ≡ spec.text_in (value_of value.now) }
{
    match value {
        Value::String(text) => text.as_str(),
        _ => "",
    }
}

/// Returns the first attribute of the resource, if there is one.
fn first_of(resource: &Resource) -> Option<&KeyValue>
    ensures { option_map (λ a. attribute_of a.now) result ≡ spec.first resource.now.attributes }
{
    resource.attributes().next()
}

/// Returns whether the piece is `NAME=VALUE`, with a name and a value that a configuration may set
/// once their escapes are decoded.
///
/// # Errors
///
/// `AllocError` if out of memory.
fn is_header(alloc: Global, piece: &str) -> Result<bool, AllocError>
    ensures { IfOk result (λ b. b ≡ spec.is_header piece.now) }
{
    let (read, _error) = Resource::from_texts(alloc, piece, "")?;
    match first_of(&read) {
        Some(read) => is_allowed(alloc, read.key.as_str(), text_in(&read.value)),
        None => Ok(false),
    }
}

/// Adds the piece to the list, if it is a header.
///
/// # Errors
///
/// `AllocError` if out of memory.
fn add_header(alloc: Global, listed: &mut String, piece: &str) -> Result<(), AllocError>
    ensures { OnOk result (string_bytes listed.new
        ≡ spec.with_header (string_bytes listed.old) piece.now) }
{
    let piece = cut_blanks(piece);
    if !is_header(alloc, piece)? {
        return Ok(());
    }
    if !listed.is_empty() {
        listed.push(',')?;
    }
    listed.push_str(piece)?;
    Ok(())
}

/// Returns the list of the pieces that are headers.
///
/// # Errors
///
/// `AllocError` if out of memory.
pub(super) fn listed_headers(alloc: Global, text: &str) -> Result<String, AllocError>
    ensures { IfOk result (λ listed. string_bytes listed ≡ spec.headers_in text.now) }
{
    let mut listed = String::new(alloc);
    for piece in text.split(',') {
        add_header(alloc, &mut listed, piece)?;
    }
    Ok(listed)
}

/// Returns the piece as a warning shows it: the name, without the value.
fn shown(piece: &str) -> &str
    ensures { result.now ≡ spec.shown piece.now }
{
    match piece.split_once('=') {
        Some((name, _value)) => {
            let name = cut_blanks(name);
            if name.is_empty() { "=" } else { name }
        }
        None => piece,
    }
}

/// Adds a warning for each piece of the variable's text that isn't a header.
///
/// # Errors
///
/// `AllocError` if out of memory.
fn warn_of_pieces(
    alloc: Global,
    warnings: &mut Vec<EnvWarning>,
    name: &'static str,
    text: &str,
) -> Result<(), AllocError>
    ensures { OnOk result (warnings.new.items
        ≡ warnings.old.items ++ spec.list_warnings name.now text.now) }
{
    for piece in text.split(',') {
        let piece = cut_blanks(piece);
        let understood = is_header(alloc, piece)?;
        warn(
            alloc,
            warnings,
            understood,
            name,
            shown(piece),
            Instead::Nothing,
        )?;
    }
    Ok(())
}

/// Adds a warning if the variable's text is too long, or else for each piece that isn't a header.
///
/// # Errors
///
/// `AllocError` if out of memory.
fn warn_of_list(
    alloc: Global,
    warnings: &mut Vec<EnvWarning>,
    name: &'static str,
    text: &str,
) -> Result<(), AllocError>
    ensures { OnOk result (warnings.new.items
        ≡ warnings.old.items ++ spec.text_warnings name.now text.now) }
{
    let understood = !is_long(text);
    let instead = Instead::Unset(EnvFault::Length);
    warn(alloc, warnings, understood, name, "..", instead)?;
    warn_of_pieces(alloc, warnings, name, short(text))
}

/// Adds a warning for each piece that isn't a header.
///
/// # Errors
///
/// `AllocError` if out of memory.
pub(super) fn warn_of_headers(
    alloc: Global,
    vars: &[(String, String)],
    warnings: &mut Vec<EnvWarning>,
) -> Result<(), AllocError>
    ensures { OnOk result (warnings.new.items
        ≡ warnings.old.items ++ spec.header_warnings (variables_of vars.now)) }
{
    let name = "OTEL_EXPORTER_OTLP_HEADERS";
    warn_of_list(alloc, warnings, name, text_of(vars, name))?;
    let name = "OTEL_EXPORTER_OTLP_TRACES_HEADERS";
    warn_of_list(alloc, warnings, name, text_of(vars, name))?;
    let name = "OTEL_EXPORTER_OTLP_LOGS_HEADERS";
    warn_of_list(alloc, warnings, name, text_of(vars, name))?;
    Ok(())
}
