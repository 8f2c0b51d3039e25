//! Reads the value of a `baggage` header.
ghost use Rattle.std.specs.Prelude.{◌≡◌, length, not, Some, IfOk, IsTrue, OnOk, option_copied};
ghost use Rattle.std.specs.List.{after_first, list_any};
ghost use Rattle.otel_context.specs.BaggageText.{IsTrimmed};
ghost use Rattle.otel_propagators.specs.BaggagePieces.{ArePartsOf, IsFilledWith, IsSplitAtEquals};
ghost use Rattle.otel_propagators.specs.BaggagePieces.{decoded_value, is_percent};
ghost use Rattle.otel_propagators.specs.BaggagePieces.{longest_decoded, short_decoded};
ghost use Rattle.otel_propagators.specs.BaggagePieces.{with_member, with_value};
ghost use Rattle.otel_propagators.specs.BaggageReading.{is_semicolon, key_and_value};
ghost use Rattle.otel_propagators.specs.BaggageReading.{with_piece, read_baggage};

use opentelemetry::baggage::{Baggage, BaggageMetadata};
use opentelemetry::{Key, StringValue};
use otel_base::cut_blanks;
use otel_context::baggage::MAX_LEN_OF_ALL_PAIRS;
use percent_encoding::percent_decode;
use std::alloc::{AllocError, Global};
use std::str;

/// The maximum length in bytes, as written, of a value that is decoded into a short buffer.
/// Clearing a buffer for the longest value that a baggage accepts takes longer than reading a short
/// header.
const SHORT_LEN: usize = 1024;

/// Splits a piece at its first `;`. Without one, the second part is empty.
fn split_metadata(piece: &str) -> (&str, &str)
    ensures before { result.0.now ≡ key_and_value piece.now }
    ensures after { result.1.now ≡ after_first is_semicolon piece.now }
{
    match piece.split_once(';') {
        Some(parts) => parts,
        None => (piece, ""),
    }
}

/// Splits a text at its first `=`, if there is one.
fn split_value(member: &str) -> Option<(&str, &str)>
    ensures { IsSplitAtEquals member.now result }
{
    let (key, value) = member.split_once('=')?;
    Some((key, value))
}

/// Returns the key, the value as written, and the metadata of a piece, if it has a `=` before its
/// first `;`.
fn split_piece(piece: &str) -> Option<(&str, &str, &str)>
    ensures { ArePartsOf piece.now result }
{
    let (member, metadata) = split_metadata(piece);
    let (key, value) = split_value(member)?;
    Some((cut_blanks(key), cut_blanks(value), metadata.trim()))
}

/// Returns `true` if the value contains no `%`, so that decoding doesn't change it.
fn is_plain(value: &str) -> bool
    ensures sign { result ≡ not (list_any is_percent value.now) }
    ensures itself { IsTrue result
        → decoded_value (length value.now) value.now ≡ Some value.now }
{
    !value.as_bytes().contains(&b'%')
}

/// Decodes the value into the front of `room`. Returns the number of bytes, or `None` if `room` is
/// too small.
fn fill(value: &str, room: &mut [u8]) -> Option<usize>
    ensures { IsFilledWith value.now room.new result }
{
    let mut len = 0;
    for byte in percent_decode(value.as_bytes()) {
        if len == room.len() {
            return None;
        }
        room[len] = byte;
        len += 1;
    }
    Some(len)
}

/// Decodes the value. Returns it if it is UTF-8 and `room` is large enough.
fn decode<'a>(value: &str, room: &'a mut [u8]) -> Option<&'a str>
    ensures { option_copied result ≡ decoded_value (length room.old) value.now }
{
    let len = fill(value, room)?;
    match str::from_utf8(&room[..len]) {
        Ok(text) => Some(text),
        Err(_) => None,
    }
}

/// Inserts the member with this key, value and metadata, if it is accepted.
fn insert_member(
    alloc: Global,
    baggage: &mut Baggage,
    key: &str,
    value: &str,
    metadata: &str,
) -> Result<(), AllocError>
    ensures { OnOk result
        (baggage.new ≡ with_member baggage.old key.now value.now metadata.now) }
{
    let key = Key::from(String::from_str(alloc, key)?);
    let value = StringValue::from(String::from_str(alloc, value)?);
    let metadata = BaggageMetadata::new(alloc, metadata)?;
    drop(baggage.insert_with_metadata(key, value, metadata)?);
    Ok(())
}

/// Inserts the member with this key, value and metadata, if there is a value and the member is
/// accepted. Allocates only then: the code that decides has no allocator.
fn insert_value(
    alloc: Global,
    baggage: &mut Baggage,
    key: &str,
    value: Option<&str>,
    metadata: &str,
) -> Result<(), AllocError>
    requires { IsTrimmed metadata.now }
    ensures { OnOk result
        (baggage.new ≡ with_value baggage.old key.now (option_copied value.entry) metadata.now) }
{
    let Some(value) = value else {
        return Ok(());
    };
    if !baggage.accepts(key, value, metadata) {
        return Ok(());
    }
    insert_member(alloc, baggage, key, value, metadata)
}

/// Decodes the value into a short buffer, and inserts the member with it, if it is accepted.
#[inline(never)]
fn insert_short(
    alloc: Global,
    baggage: &mut Baggage,
    key: &str,
    value: &str,
    metadata: &str,
) -> Result<(), AllocError>
    requires { IsTrimmed metadata.now }
    ensures { OnOk result (baggage.new
        ≡ with_value baggage.old key.now (short_decoded value.now) metadata.now) }
{
    let mut room = [0; SHORT_LEN];
    insert_value(alloc, baggage, key, decode(value, &mut room), metadata)
}

/// Decodes the value into a buffer for the longest value that a baggage accepts, and inserts the
/// member with it, if it is accepted. Not inlined, since a function clears the buffer on entry.
#[inline(never)]
fn insert_long(
    alloc: Global,
    baggage: &mut Baggage,
    key: &str,
    value: &str,
    metadata: &str,
) -> Result<(), AllocError>
    requires { IsTrimmed metadata.now }
    ensures { OnOk result (baggage.new
        ≡ with_value baggage.old key.now (longest_decoded value.now) metadata.now) }
{
    let mut room = [0; MAX_LEN_OF_ALL_PAIRS];
    insert_value(alloc, baggage, key, decode(value, &mut room), metadata)
}

/// Inserts the member of the piece, if it has one and it is accepted. A value without `%` is copied
/// once, into the member.
fn insert_piece(alloc: Global, baggage: &mut Baggage, piece: &str) -> Result<(), AllocError>
    ensures { OnOk result (baggage.new ≡ with_piece baggage.old piece.now) }
{
    let Some((key, value, metadata)) = split_piece(piece) else {
        return Ok(());
    };
    if is_plain(value) {
        insert_value(alloc, baggage, key, Some(value), metadata)
    } else if value.len() <= SHORT_LEN {
        insert_short(alloc, baggage, key, value, metadata)
    } else {
        insert_long(alloc, baggage, key, value, metadata)
    }
}

/// Returns the baggage read from the text: the members of its pieces, inserted in order into an
/// empty baggage. Only members that are accepted take memory, so a million commas take no more than
/// a baggage does.
pub(super) fn read_baggage(alloc: Global, text: &str) -> Result<Baggage, AllocError>
    ensures { IfOk result (λ baggage. baggage ≡ read_baggage text.now) }
{
    let mut baggage = Baggage::new(alloc);
    for piece in text.split(',') {
        insert_piece(alloc, &mut baggage, piece)?;
    }
    Ok(baggage)
}
