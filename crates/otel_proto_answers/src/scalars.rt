//! An integer and a string, which each message of an answer has.
ghost use Rattle.std.specs.Prelude.{◌≡◌, [], ◌∷◌, option_map, option_and_then, option_to_list};
ghost use Rattle.otel_proto.specs.Wire.{read};
ghost use Rattle.otel_proto_answers.specs.Answers as spec;
ghost use Rattle.otel_proto_answers.specs.Answers.{unwritten};
ghost use Rattle.otel_proto_answers.specs.Parts.{field_of};
ghost use Rattle.otel_proto_answers.specs.Seen.{response_after, scalars_of};

use crate::parts::first_part;
use crate::wire::{Content, Field};

/// The number of the integer.
const INTEGER: u32 = 1;
/// The number of the string.
const STRING: u32 = 2;
/// The number of a partial success in a response.
const PARTIAL_SUCCESS: u32 = 1;

/// The last integer and the last string.
#[derive(Clone, Copy)]
pub(crate) struct Scalars<'a> {
    /// The low 64 bits of the integer.
    pub integer: u64,
    /// The string.
    pub string: &'a str,
}

/// The values of a message without fields.
const UNWRITTEN: Scalars<'static> = Scalars {
    integer: 0,
    string: "",
};

/// Returns the values after the field. `None` if it is a string that isn't UTF-8.
fn with_field<'a>(scalars: Scalars<'a>, field: Field<'a>) -> Option<Scalars<'a>>
    ensures { option_map scalars_of result
        ≡ spec.scalars (scalars_of scalars.entry) (field_of field.entry ∷ []) }
{
    match field.content {
        Content::Varint(integer) if field.number == INTEGER => {
            Some(Scalars { integer, ..scalars })
        }
        Content::Bytes(bytes) if field.number == STRING => match str::from_utf8(bytes) {
            Ok(string) => Some(Scalars { string, ..scalars }),
            Err(_) => None,
        },
        _ => Some(scalars),
    }
}

/// Returns the values after the part of a message, which is a field or a skipped group.
fn with_part<'a>(scalars: Scalars<'a>, part: Option<Field<'a>>) -> Option<Scalars<'a>>
    ensures { option_map scalars_of result ≡ spec.scalars (scalars_of scalars.entry)
        (option_to_list (option_map field_of part.entry)) }
{
    match part {
        Some(field) => with_field(scalars, field),
        None => Some(scalars),
    }
}

/// Returns the values after the fields of a message. `None` if the bytes are no such message.
fn merge<'a>(before: Scalars<'a>, bytes: &'a [u8]) -> Option<Scalars<'a>>
    ensures { option_map scalars_of result
        ≡ option_and_then (spec.scalars (scalars_of before.entry)) (read bytes.now) }
{
    let mut scalars = before;
    let mut rest = bytes;
    while !rest.is_empty() {
        let (part, after) = first_part(rest)?;
        scalars = with_part(scalars, part)?;
        rest = after;
    }
    Some(scalars)
}

/// Returns the values of a message of integer and string. `None` if the bytes are no such message.
pub(crate) fn read_scalars(bytes: &[u8]) -> Option<Scalars<'_>>
    ensures { option_map scalars_of result
        ≡ option_and_then (spec.scalars unwritten) (read bytes.now) }
{
    merge(UNWRITTEN, bytes)
}

/// Returns the values after the part of a response, which may be a partial success.
fn with_partial<'a>(scalars: Scalars<'a>, part: Option<Field<'a>>) -> Option<Scalars<'a>>
    ensures { option_map scalars_of result ≡ response_after (scalars_of scalars.entry)
        (option_to_list (option_map field_of part.entry)) }
{
    match part {
        Some(field) => match field.content {
            Content::Bytes(bytes) if field.number == PARTIAL_SUCCESS => merge(scalars, bytes),
            _ => Some(scalars),
        },
        None => Some(scalars),
    }
}

/// Returns the values of the partial success in a response. `None` if the bytes are no response.
pub(crate) fn read_partial_success(bytes: &[u8]) -> Option<Scalars<'_>>
    ensures { option_map scalars_of result
        ≡ option_and_then (response_after unwritten) (read bytes.now) }
{
    let mut scalars = UNWRITTEN;
    let mut rest = bytes;
    while !rest.is_empty() {
        let (part, after) = first_part(rest)?;
        scalars = with_partial(scalars, part)?;
        rest = after;
    }
    Some(scalars)
}
