//! Conversion of bytes to hexadecimal digits, and functions that write the digits.
ghost use Rattle.std.specs.Prelude.{◌≡◌, IfOk};
ghost use Rattle.std.specs.List.{flat_map};
ghost use Rattle.std.specs.Fmt.{WritesOnOk, WritesStyledOnOk};
ghost use Rattle.otel_ids.specs.Ids.{two_digits, without_zeros, some_digit, bytes_digits};
ghost use Rattle.otel_ids.specs.Ids.{hex_styled};

use std::fmt;

/// Returns two lower-case hexadecimal digits for each byte. `room` has one byte for each digit.
fn hex_text<'a>(bytes: &[u8], room: &'a mut [u8]) -> Result<&'a str, fmt::Error>
    ensures { IfOk result (λ text. text.now ≡ flat_map two_digits bytes.now) }
{
    let Ok(()) = hex::encode_to_slice(bytes, room) else {
        return Err(fmt::Error);
    };
    let Ok(digits) = str::from_utf8(room) else {
        return Err(fmt::Error);
    };
    Ok(digits)
}

/// Returns the digits without leading zeros, or `0` if no other digit is left.
fn without_leading_zeros(digits: &str) -> &str
    ensures { result.now ≡ some_digit (without_zeros digits.now) }
{
    let significant = digits.trim_start_matches('0');
    if significant.is_empty() {
        "0"
    } else {
        significant
    }
}

/// Writes two lower-case hexadecimal digits for each byte, in one write. `room` has one byte for
/// each digit.
pub(crate) fn write_hex<W: fmt::Write>(
    bytes: &[u8],
    room: &mut [u8],
    f: &mut fmt::Formatter<W>,
) -> fmt::Result
    ensures { WritesOnOk W.write_str_gives f.old result (flat_map two_digits bytes.now) f.new }
{
    let digits = hex_text(bytes, room)?;
    f.write_str(digits)
}

/// Writes the number that the bytes encode in lower-case hexadecimal digits, without leading zeros,
/// with the formatter's options. `room` has two bytes for each byte of the number.
pub(crate) fn write_number<W: fmt::Write>(
    bytes: &[u8],
    room: &mut [u8],
    f: &mut fmt::Formatter<W>,
) -> fmt::Result
    ensures writes { WritesOnOk W.write_str_gives f.old result (bytes_digits bytes.now) f.new }
    ensures styled { WritesStyledOnOk W.write_str_gives f.old result
        (hex_styled f.old (bytes_digits bytes.now)) f.new }
{
    let digits = hex_text(bytes, room)?;
    f.pad_integral(true, "0x", without_leading_zeros(digits))
}
