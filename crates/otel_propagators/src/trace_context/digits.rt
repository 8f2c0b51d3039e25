//! Numbers as lower-case hexadecimal digits.
ghost use Rattle.std.specs.Prelude.{◌≡◌, ◌≤◌, IfOk, length, string_bytes};
ghost use Rattle.otel_ids.specs.Ids.{id_text};
ghost use Rattle.otel_propagators.specs.Digits.{IsDigitOf, IsNumberOf, IsNumberBefore};

use std::alloc::{AllocError, Global};

/// Returns the value of a digit, or `None` for any other byte.
fn digit_value(byte: u8) -> Option<u8>
    ensures { IsDigitOf byte result }
{
    match byte {
        b'0'..=b'9' => Some(byte - b'0'),
        b'a'..=b'f' => Some(byte - b'a' + 10),
        _ => None,
    }
}

/// Reads a number of at most 32 digits, if all bytes are digits.
fn read_number(bytes: &[u8]) -> Option<u128>
    requires { length bytes.now ≤ 32 }
    ensures { IsNumberOf (length bytes.now) bytes.now result }
{
    let mut number: u128 = 0;
    for byte in bytes {
        let digit = digit_value(*byte)?;
        number = number * 16 + u128::from(digit);
    }
    Some(number)
}

/// Reads a number of `count` digits at the front. Returns it and the bytes after it.
pub(crate) fn number_before(bytes: &[u8], count: usize) -> Option<(u128, &[u8])>
    requires { count ≤ 32 }
    ensures { IsNumberBefore count bytes.now result }
{
    let (digits, rest) = bytes.split_at_checked(count)?;
    let number = read_number(digits)?;
    Some((number, rest))
}

/// Returns the two digits of a byte.
pub(crate) fn byte_text(alloc: Global, byte: u8) -> Result<String, AllocError>
    ensures { IfOk result (λ text. string_bytes text ≡ id_text 2 byte) }
{
    format!(in alloc; "{byte:02x}")
}
