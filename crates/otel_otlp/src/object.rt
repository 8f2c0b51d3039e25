//! Writes JSON objects member by member.
//!
//! An object's members are written in the order of their names, as a `Value` of `serde_json` has
//! them, so that no tree is built and sorted first.
ghost use Rattle.std.specs.Prelude.{[], ◌∷◌, ◌≡◌, ◌*◌, OnOk, length};
ghost use Rattle.std.specs.Fmt.{signed_decimal};
ghost use Rattle.std.specs.Option.{option_copied};
ghost use Rattle.hex.specs.Hex.{encode_lower};
ghost use Rattle.json.specs.Token.{key, begin_array};
ghost use Rattle.otel_otlp.specs.Json.{text_member, number_member, decimal_member};
ghost use Rattle.otel_otlp.specs.Json.{text_unless_empty, number_unless_zero, text_if_given};
ghost use Rattle.otel_otlp.specs.Json.{number_if_given, decimal_if_given};
ghost use Rattle.otel_otlp.specs.Json.{trace_id_text, span_id_text};
ghost use Rattle.otel_otlp.specs.Tokens.{Appended, WritesMembers};

use json::Writer;
use opentelemetry::trace::{SpanId, TraceId};
use std::alloc::AllocError;

/// Writes a member with a text.
pub(crate) fn put_text(out: &mut Writer, name: &str, text: &str) -> Result<(), AllocError>
    ensures { WritesMembers result out.old out.new (text_member name.now text.now) }
{
    out.key(name)?;
    out.string(text)
}

/// Writes a member with a number of at most 32 bits.
pub(crate) fn put_number(out: &mut Writer, name: &str, number: u32) -> Result<(), AllocError>
    ensures { WritesMembers result out.old out.new (number_member name.now number) }
{
    out.key(name)?;
    out.u64(u64::from(number))
}

/// Writes a member with a number of 64 bits, as the text of its decimal digits.
pub(crate) fn put_decimal(out: &mut Writer, name: &str, number: u64) -> Result<(), AllocError>
    ensures { WritesMembers result out.old out.new (decimal_member name.now number) }
{
    out.key(name)?;
    out.quoted_u64(number)
}

/// Writes a member with a signed number of 64 bits, as the text of its decimal digits.
pub(crate) fn put_integer(out: &mut Writer, name: &str, number: i64) -> Result<(), AllocError>
    ensures { WritesMembers result out.old out.new
        (text_member name.now (signed_decimal number)) }
{
    out.key(name)?;
    out.quoted_i64(number)
}

/// Begins a member with a list.
pub(crate) fn begin_list(out: &mut Writer, name: &str) -> Result<(), AllocError>
    ensures { OnOk result (Appended out.old out.new (key name.now ∷ begin_array ∷ [])) }
{
    out.key(name)?;
    out.begin_array()
}

/// Writes a member with a text, unless it is empty.
pub(crate) fn put_text_unless_empty(
    out: &mut Writer,
    name: &str,
    text: &str,
) -> Result<(), AllocError>
    ensures { WritesMembers result out.old out.new (text_unless_empty name.now text.now) }
{
    if text.is_empty() {
        return Ok(());
    }
    put_text(out, name, text)
}

/// Writes a member with a number of at most 32 bits, unless it is 0.
pub(crate) fn put_number_unless_zero(
    out: &mut Writer,
    name: &str,
    number: u32,
) -> Result<(), AllocError>
    ensures { WritesMembers result out.old out.new (number_unless_zero name.now number) }
{
    if number == 0 {
        return Ok(());
    }
    put_number(out, name, number)
}

/// Writes a member with a text, if it is given.
pub(crate) fn put_text_if_given(
    out: &mut Writer,
    name: &str,
    text: Option<&str>,
) -> Result<(), AllocError>
    ensures { WritesMembers result out.old out.new
        (text_if_given name.now (option_copied text.entry)) }
{
    match text {
        Some(text) => put_text(out, name, text),
        None => Ok(()),
    }
}

/// Writes a member with a number of at most 32 bits, if it is given.
pub(crate) fn put_number_if_given(
    out: &mut Writer,
    name: &str,
    number: Option<u32>,
) -> Result<(), AllocError>
    ensures { WritesMembers result out.old out.new (number_if_given name.now number) }
{
    match number {
        Some(number) => put_number(out, name, number),
        None => Ok(()),
    }
}

/// Writes a member with a number of 64 bits, if it is given.
pub(crate) fn put_decimal_if_given(
    out: &mut Writer,
    name: &str,
    number: Option<u64>,
) -> Result<(), AllocError>
    ensures { WritesMembers result out.old out.new (decimal_if_given name.now number) }
{
    match number {
        Some(number) => put_decimal(out, name, number),
        None => Ok(()),
    }
}

/// Writes a member with two lower-case hexadecimal digits for each byte. `room` has one byte for
/// each digit.
fn put_hex(out: &mut Writer, name: &str, bytes: &[u8], room: &mut [u8]) -> Result<(), AllocError>
    requires { length room.old ≡ 2 * length bytes.now }
    ensures { WritesMembers result out.old out.new
        (text_member name.now (encode_lower bytes.now)) }
{
    hex::encode_to_slice(bytes, room).unwrap();
    let digits = str::from_utf8(room).unwrap();
    put_text(out, name, digits)
}

/// Writes a member with the id of a trace as 32 hexadecimal digits.
pub(crate) fn put_trace_id(out: &mut Writer, name: &str, id: TraceId) -> Result<(), AllocError>
    ensures { WritesMembers result out.old out.new (text_member name.now (trace_id_text id)) }
{
    put_hex(out, name, &id.to_bytes(), &mut [0; 32])
}

/// Writes a member with the id of a span as 16 hexadecimal digits.
pub(crate) fn put_span_id(out: &mut Writer, name: &str, id: SpanId) -> Result<(), AllocError>
    ensures { WritesMembers result out.old out.new (text_member name.now (span_id_text id)) }
{
    put_hex(out, name, &id.to_bytes(), &mut [0; 16])
}
