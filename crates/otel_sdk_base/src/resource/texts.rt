//! Reads a resource from the texts of two environment variables.
ghost use Rattle.std.specs.Prelude.{◌≡◌, IfOk, OnErr, OnOk, option_map, string_bytes};
ghost use Rattle.otel_base.specs.View.{attribute_of};
ghost use Rattle.otel_sdk_base.specs.ResourceTexts as spec;

use crate::attributes::put;
use otel_base::{Key, KeyValue, Value, cut_blanks};
use percent_encoding::percent_decode_str;
use std::alloc::{AllocError, Global};
use thiserror::Error;

/// The error for an attribute text with a faulty piece. None of the text's attributes is used.
#[derive(Clone, Copy, Debug, PartialEq, Eq, Error)]
#[error("the attributes of the resource have a fault in piece {piece}")]
pub struct ResourceTextError {
    /// The number of the first faulty piece between commas, counted from 0.
    pub piece: usize,
}

/// Returns whether the text begins with two hexadecimal digits.
fn begins_with_byte(text: &str) -> bool
    ensures { result ≡ spec.begins_with_byte text.now }
{
    match text.as_bytes() {
        [high, low, ..] => high.is_ascii_hexdigit() && low.is_ascii_hexdigit(),
        _ => false,
    }
}

/// Returns whether two hexadecimal digits follow each `%`.
fn has_whole_escapes(text: &str) -> bool
    ensures { result ≡ spec.has_whole_escapes text.now }
{
    text.split('%').skip(1).all(|rest| begins_with_byte(rest))
}

/// Decodes the escapes of a text. Returns `None` if an escape is incomplete or the bytes aren't
/// UTF-8.
fn decode(alloc: Global, text: &str) -> Result<Option<String>, AllocError>
    ensures { IfOk result (λ t. option_map string_bytes t ≡ spec.decoded text.now) }
{
    if !has_whole_escapes(text) {
        return Ok(None);
    }
    let mut bytes = Vec::new(alloc);
    percent_decode_str(text).append_to(&mut bytes)?;
    match String::from_utf8(bytes) {
        Ok(text) => Ok(Some(text)),
        Err(_) => Ok(None),
    }
}

/// Splits a piece at its first `=`, and trims the blanks from both ends of each part. Returns
/// `None` if the piece has no `=`.
fn split_piece(piece: &str) -> Option<(&str, &str)>
    ensures { spec.AreParts piece.now result }
{
    let (key, value) = piece.split_once('=')?;
    Some((cut_blanks(key), cut_blanks(value)))
}

/// Returns the attribute that a piece denotes, or `None` if the piece isn't an attribute.
fn attribute_in(alloc: Global, piece: &str) -> Result<Option<KeyValue>, AllocError>
    ensures { IfOk result (λ a. option_map attribute_of a ≡ spec.attribute_in piece.now) }
{
    let Some((key, value)) = split_piece(piece) else {
        return Ok(None);
    };
    let key = decode(alloc, key)?;
    let value = decode(alloc, value)?;
    match (key, value) {
        (Some(key), Some(value)) => {
            if key.is_empty() {
                return Ok(None);
            }
            Ok(Some(KeyValue::new(Key::from(key), Value::from(value))))
        }
        _ => Ok(None),
    }
}

/// Returns the attributes of the text, or an error that names its first faulty piece.
pub fn read_attributes(
    alloc: Global,
    text: &str,
) -> Result<Result<Vec<KeyValue>, ResourceTextError>, AllocError>
    ensures { IfOk result (spec.IsReadAs text.now) }
{
    let mut attributes = Vec::new(alloc);
    for (number, piece) in text.split(',').enumerate() {
        match attribute_in(alloc, piece)? {
            Some(attribute) => put(&mut attributes, attribute)?,
            None => {
                if !cut_blanks(piece).is_empty() {
                    return Ok(Err(ResourceTextError { piece: number }));
                }
            }
        }
    }
    Ok(Ok(attributes))
}

/// Sets the attribute `service.name` to the name, with the blanks trimmed from both ends. Does
/// nothing if the name is blank.
///
/// # Errors
///
/// `AllocError` if out of memory. The attributes are unchanged.
pub fn set_service_name(
    alloc: Global,
    attributes: &mut Vec<KeyValue>,
    name: &str,
) -> Result<(), AllocError>
    ensures ok { OnOk result (spec.NamesService name.now attributes.old attributes.new) }
    ensures err { OnErr result (attributes.new.items ≡ attributes.old.items) }
{
    let name = cut_blanks(name);
    if name.is_empty() {
        return Ok(());
    }
    let name = Value::from(String::from_str(alloc, name)?);
    put(attributes, KeyValue::new(Key::from("service.name"), name))
}
