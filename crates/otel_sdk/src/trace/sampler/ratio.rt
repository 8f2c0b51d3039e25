//! The bound of a ratio: the ratio samples the traces whose number is below it.
ghost use Rattle.std.specs.Prelude.{◌≡◌, ◌<◌, ◌*◌, ◌/◌, ◌^◌, IfOk, IsTrue, Some};
ghost use Rattle.std.specs.Prelude.{string_bytes, to_bits};
ghost use Rattle.std.specs.Float.{binary64};
ghost use Rattle.otel_sdk.specs.Ratio.{bound, denoted, IsNumberText};

use ryu::Buffer;
use std::alloc::{AllocError, Global};
use std::num::f64_to_bits_with_nan;

/// The weight of the last bit of a double's exponent.
const LEADING: u64 = 1 << 52;

/// The bits of 1.0.
const ONE: u64 = 1023 << 52;

/// The bits of infinity. Greater bits are NaN or have the sign set.
const INFINITY: u64 = 2047 << 52;

/// Returns the ratio times 2 ^ 63, without its fraction.
pub(crate) fn bound(ratio: f64) -> u64
    ensures { result ≡ bound (to_bits binary64 ratio) }
{
    bound_of_bits(f64_to_bits_with_nan(ratio))
}

/// Returns the bound of the double with these bits.
fn bound_of_bits(bits: u64) -> u64
    ensures { result ≡ bound bits }
{
    if bits > INFINITY {
        0
    } else if bits >= ONE {
        1 << 63
    } else {
        scaled(bits % LEADING + LEADING, bits / LEADING)
    }
}

/// Returns the bound of the double `significand * 2 ^ (exponent - 1075)`.
fn scaled(significand: u64, exponent: u64) -> u64
    requires exponent { exponent < 1023 }
    requires significand { significand < 2 ^ 53 }
    ensures { result ≡ significand * 2 ^ exponent / 2 ^ 1012 }
{
    if exponent >= 1012 {
        significand << (exponent - 1012)
    } else if exponent > 1012 - 53 {
        significand >> (1012 - exponent)
    } else {
        0
    }
}

/// Returns the effective ratio, from 0 to 1, as the shortest decimal that parses to it.
///
/// # Errors
///
/// `AllocError` if out of memory.
pub(crate) fn number_text(alloc: Global, ratio: f64) -> Result<String, AllocError>
    ensures { IfOk result (λ text. IsNumberText (to_bits binary64 ratio) (string_bytes text)) }
{
    let bits = f64_to_bits_with_nan(ratio);
    if bits == 0 || bits > INFINITY {
        String::from_str(alloc, "0")
    } else if bits >= ONE {
        String::from_str(alloc, "1")
    } else {
        decimal(alloc, ratio)
    }
}

/// Returns the shortest decimal that parses to the number, without an exponent.
///
/// # Errors
///
/// `AllocError` if out of memory.
fn decimal(alloc: Global, number: f64) -> Result<String, AllocError>
    ensures { IfOk result (λ text.
        denoted (string_bytes text) ≡ Some (to_bits binary64 number)) }
{
    let text = number.to_string(alloc)?;
    // std doesn't say what `to_string` returns.
    if denotes(text.as_str(), number) {
        Ok(text)
    } else {
        String::from_str(alloc, Buffer::new().format(number))
    }
}

/// Returns whether the text denotes the number.
fn denotes(text: &str, number: f64) -> bool
    ensures { IsTrue result → denoted text.now ≡ Some (to_bits binary64 number) }
{
    match text.parse::<f64>() {
        Ok(parsed) => f64_to_bits_with_nan(parsed) == f64_to_bits_with_nan(number),
        Err(_) => false,
    }
}
