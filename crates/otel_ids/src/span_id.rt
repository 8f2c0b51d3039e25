//! The id of a span.
ghost use Rattle.std.specs.Prelude.{◌≡◌, ◌↔◌, IsTrue, nat_eq, ℕ, ◌<◌, ◌^◌, IfOk, Ok, Some};
ghost use Rattle.std.specs.Cmp.{nat_eq_equiv, partial_equiv_from_equiv};
ghost use Rattle.std.specs.Int.{w64, to_be_bytes, from_be_bytes};
ghost use Rattle.std.specs.Fmt.{WritesOnOk, WritesStyledOnOk};
ghost use Rattle.std.specs.Str.Parse.{ExplainsUnsignedError};
ghost use Rattle.otel_ids.specs.Ids.{ReadsId, id_text, hex_digits, hex_styled};

use crate::digits::{write_hex, write_number};
use hex::FromHex;
use std::fmt;
use std::marker::Model;
use std::num::ParseIntError;

/// The id of a span, 8 bytes. It is valid if it isn't 0.
///
/// Contracts see the number below 2 ^ 64. `{}` prints the id as 16 lower-case hexadecimal digits,
/// `{:x}` as a number without leading zeros. See W3C trace-context-2, "parent-id".
///
/// See `otel_examples::api::log_bridge`.
#[derive(Clone, Copy, Eq, Hash)]
pub struct SpanId(u64);

impl Model for SpanId {
    ghost use Rattle.std.specs.Prelude.{ℕ};

    ghost Value = { ℕ };

    ghost view = { λ id. id.0 };

    ghost inverse = { λ n. record { 0 = n } };
}

impl SpanId {
    /// The id 0, which isn't valid.
    pub const INVALID: SpanId = SpanId(0);

    /// Creates an id from its bytes, most significant first.
    pub fn from_bytes(bytes: [u8; 8]) -> SpanId
        ensures { result ≡ from_be_bytes w64 bytes }
    {
        SpanId(u64::from_be_bytes(bytes))
    }

    /// Returns the bytes of the id, most significant first.
    pub fn to_bytes(self) -> [u8; 8]
        ensures bytes { result ≡ to_be_bytes w64 self }
        ensures below { self < 2 ^ 64 }
    {
        u64::to_be_bytes(self.0)
    }

    /// Reads an optional `+` and one or more hexadecimal digits of either case.
    ///
    /// # Errors
    ///
    /// `Empty` if the text is empty; `InvalidDigit` if a character isn't a digit, or if no digit
    /// follows the `+`; `PosOverflow` if the number is 2 ^ 64 or more. If the digits before the
    /// first invalid character are already too many, the contract allows either
    /// `InvalidDigit` or `PosOverflow`; tests show `PosOverflow`.
    pub fn from_hex(hex: &str) -> Result<SpanId, ParseIntError>
        ensures read { IfOk result (λ id. ReadsId 64 hex.now id) }
        ensures returned { (id : ℕ) → ReadsId 64 hex.now id → result ≡ Ok id }
        ensures error { ExplainsUnsignedError 16 hex.now result }
    {
        // Most texts are exactly 16 digits. This reads them faster.
        if let Ok(bytes) = <[u8; 8]>::from_hex(hex) {
            return Ok(SpanId::from_bytes(bytes));
        }
        let number = u64::from_str_radix(hex, 16)?;
        Ok(SpanId(number))
    }
}

impl PartialEq for SpanId {
    ghost eq = { nat_eq };

    ghost laws = { partial_equiv_from_equiv nat_eq_equiv };

    /// Returns `true` if both are the same number.
    fn eq(&self, other: &SpanId) -> bool
        ensures value { result ≡ nat_eq self.now other.now }
        ensures same { IsTrue result ↔ (self.now ≡ other.now) }
    {
        self.0 == other.0
    }
}

impl From<u64> for SpanId {
    ghost from_gives = { λ n id. id ≡ n };

    fn from(value: u64) -> SpanId {
        SpanId(value)
    }
}

/// Formats the id as 16 digits, like `Display`.
impl fmt::Debug for SpanId {
    ghost debug_output = { λ id. Some (id_text 16 id) };

    fn fmt<W: fmt::Write>(&self, f: &mut fmt::Formatter<W>) -> fmt::Result {
        fmt::Display::fmt(self, f)
    }
}

impl fmt::Display for SpanId {
    ghost output = { λ id. Some (id_text 16 id) };

    fn fmt<W: fmt::Write>(&self, f: &mut fmt::Formatter<W>) -> fmt::Result {
        write_hex(&self.to_bytes(), &mut [0; 16], f)
    }
}

impl fmt::LowerHex for SpanId {
    /// Writes the number in lower-case hexadecimal digits, without leading zeros.
    fn fmt<W: fmt::Write>(&self, f: &mut fmt::Formatter<W>) -> fmt::Result
        ensures writes { WritesOnOk W.write_str_gives f.old result (hex_digits self.now) f.new }
        // The text that is written with a width, a fill, `0` or `#`.
        ensures styled { WritesStyledOnOk W.write_str_gives f.old result
            (hex_styled f.old (hex_digits self.now)) f.new }
    {
        write_number(&self.to_bytes(), &mut [0; 16], f)
    }
}

impl fmt::HasDigits for SpanId {
    ghost word = { λ id. Some id };

    fn bits(self) -> (u64, u64) {
        self.0.bits()
    }
}
