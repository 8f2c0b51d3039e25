//! The fields of a message, which are put before the fields after them.
ghost use Rattle.std.specs.Prelude.{◌≡◌, ◌<◌, ◌∷◌, [], OnOk};
ghost use Rattle.otel_proto.specs.Output.{Puts, put_bytes, put_head};
ghost use Rattle.otel_proto.specs.Wire.{varint, fixed32, bytes};
ghost use Rattle.otel_proto.specs.Written as spec;
ghost use Rattle.otel_proto.specs.Written.{varint_bytes};

use crate::output::Output;
use std::alloc::AllocError;

/// The wire type of a varint.
const VARINT: u64 = 0;
/// The wire type of 8 bytes.
const FIXED64: u64 = 1;
/// The wire type of bytes after their length.
const BYTES: u64 = 2;
/// The wire type of 4 bytes.
const FIXED32: u64 = 5;

/// Puts a varint, which has 7 bits a byte, the lowest first.
fn put_varint(out: &mut Output, value: u64) -> Result<(), AllocError>
    ensures { OnOk result (out.new ≡ put_bytes (varint_bytes value) out.old) }
{
    if value < 128 {
        return out.put(&[value as u8]);
    }
    put_varint(out, value / 128)?;
    out.put(&[(value % 128 + 128) as u8])
}

/// Puts a tag, which is the number times 8 plus the wire type.
fn put_tag(out: &mut Output, number: u32, kind: u64) -> Result<(), AllocError>
    requires { kind < 8 }
    ensures { OnOk result (out.new ≡ put_bytes (spec.tag number kind) out.old) }
{
    put_varint(out, u64::from(number) * 8 + kind)
}

/// Puts a number (the protocol's `enum`, `uint32`, `uint64`).
///
/// # Errors
///
/// `AllocError` if the bytes don't fit the output, which may then hold some of them.
pub fn put_number(out: &mut Output, number: u32, value: u64) -> Result<(), AllocError>
    ensures { Puts result out.old out.new ((number, varint value) ∷ []) }
{
    put_varint(out, value)?;
    put_tag(out, number, VARINT)
}

/// Puts a number, unless it is 0.
///
/// # Errors
///
/// `AllocError` if the bytes don't fit the output, which may then hold some of them.
pub fn put_number_unless_zero(out: &mut Output, number: u32, value: u32) -> Result<(), AllocError>
    ensures { Puts result out.old out.new (spec.number_unless_zero number value) }
{
    if value == 0 {
        return Ok(());
    }
    put_number(out, number, value as u64)
}

/// Puts 8 bytes, the lowest first, unless the number is 0 (the protocol's `fixed64`).
///
/// # Errors
///
/// `AllocError` if the bytes don't fit the output, which may then hold some of them.
pub fn put_fixed64_unless_zero(out: &mut Output, number: u32, value: u64) -> Result<(), AllocError>
    ensures { Puts result out.old out.new (spec.fixed64_unless_zero number value) }
{
    if value == 0 {
        return Ok(());
    }
    out.put(&u64::to_le_bytes(value))?;
    put_tag(out, number, FIXED64)
}

/// Puts 4 bytes, the lowest first (the protocol's `fixed32`).
///
/// # Errors
///
/// `AllocError` if the bytes don't fit the output, which may then hold some of them.
pub fn put_fixed32(out: &mut Output, number: u32, value: u32) -> Result<(), AllocError>
    ensures { Puts result out.old out.new ((number, fixed32 value) ∷ []) }
{
    out.put(&u32::to_le_bytes(value))?;
    put_tag(out, number, FIXED32)
}

/// Puts 4 bytes, the lowest first, unless the number is 0 (the protocol's `fixed32`).
///
/// # Errors
///
/// `AllocError` if the bytes don't fit the output, which may then hold some of them.
pub fn put_fixed32_unless_zero(out: &mut Output, number: u32, value: u32) -> Result<(), AllocError>
    ensures { Puts result out.old out.new (spec.fixed32_unless_zero number value) }
{
    if value == 0 {
        return Ok(());
    }
    put_fixed32(out, number, value)
}

/// Puts a boolean.
pub(crate) fn put_boolean(out: &mut Output, number: u32, value: bool) -> Result<(), AllocError>
    ensures { Puts result out.old out.new (spec.boolean number value ∷ []) }
{
    put_number(out, number, u64::from(value))
}

/// Puts an integer, whose two's complement in 64 bits is a varint.
pub(crate) fn put_integer(out: &mut Output, number: u32, value: i64) -> Result<(), AllocError>
    ensures { Puts result out.old out.new (spec.integer number value ∷ []) }
{
    put_number(out, number, value.cast_unsigned())
}

/// Puts the tag of bytes, and the length of the bytes that were put since the count was `end`.
///
/// # Errors
///
/// `AllocError` if the bytes don't fit the output, which may then hold some of them.
pub fn put_head(out: &mut Output, number: u32, end: usize) -> Result<(), AllocError>
    ensures { OnOk result (out.new ≡ put_head number end out.old) }
{
    let length = out.count().saturating_sub(end);
    put_varint(out, length as u64)?;
    put_tag(out, number, BYTES)
}

/// Puts bytes.
///
/// # Errors
///
/// `AllocError` if the bytes don't fit the output, which may then hold some of them.
pub fn put_bytes(out: &mut Output, number: u32, value: &[u8]) -> Result<(), AllocError>
    ensures { Puts result out.old out.new ((number, bytes value.now) ∷ []) }
{
    let end = out.count();
    out.put(value)?;
    put_head(out, number, end)
}

/// Puts bytes, unless there are none.
///
/// # Errors
///
/// `AllocError` if the bytes don't fit the output, which may then hold some of them.
pub fn put_bytes_unless_empty(out: &mut Output, number: u32, value: &[u8]) -> Result<(), AllocError>
    ensures { Puts result out.old out.new (spec.bytes_unless_empty number value.now) }
{
    if value.is_empty() {
        return Ok(());
    }
    put_bytes(out, number, value)
}

/// Puts a string, unless it is empty.
///
/// # Errors
///
/// `AllocError` if the bytes don't fit the output, which may then hold some of them.
pub fn put_text_unless_empty(out: &mut Output, number: u32, text: &str) -> Result<(), AllocError>
    ensures { Puts result out.old out.new (spec.bytes_unless_empty number text.now) }
{
    put_bytes_unless_empty(out, number, text.as_bytes())
}
