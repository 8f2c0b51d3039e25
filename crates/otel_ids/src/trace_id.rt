//! The id of a trace.
ghost use Rattle.std.specs.Prelude.{◌≡◌, ◌↔◌, IsTrue, nat_eq, ℕ, ◌<◌, ◌^◌, ◌/◌, ◌%◌};
ghost use Rattle.std.specs.Prelude.{IfOk, IfSome, Ok, Some};
ghost use Rattle.std.specs.Cmp.{nat_eq_equiv, partial_equiv_from_equiv};
ghost use Rattle.std.specs.Int.{w128, to_be_bytes, from_be_bytes};
ghost use Rattle.std.specs.Fmt.{WritesOnOk, WritesStyledOnOk};
ghost use Rattle.std.specs.Str.Parse.{ExplainsUnsignedError};
ghost use Rattle.otel_ids.specs.Ids.{ReadsId, id_text, number_text, word_of, hex_styled};

use crate::digits::{write_hex, write_number};
use hex::FromHex;
use std::fmt;
use std::marker::Model;
use std::num::ParseIntError;

/// 2 ^ 64, the divisor that splits the number of a trace id into halves.
const HALF: u128 = 1 << 64;

/// The id of a trace, 16 bytes. It is valid if it isn't 0.
///
/// Contracts see the number below 2 ^ 128. `{}` prints the id as 32 lower-case hexadecimal digits,
/// `{:x}` as a number without leading zeros. See W3C trace-context-2, "trace-id".
///
/// ```
/// let trace_id = TraceId::from_hex("0af7651916cd43dd8448eb211c80319c")?;
/// ```
#[derive(Clone, Copy, Eq, Hash)]
pub struct TraceId(u128);

impl Model for TraceId {
    ghost use Rattle.std.specs.Prelude.{ℕ};

    ghost Value = { ℕ };

    ghost view = { λ id. id.0 };

    ghost inverse = { λ n. record { 0 = n } };
}

impl TraceId {
    /// The id 0, which isn't valid.
    pub const INVALID: TraceId = TraceId(0);

    /// Creates an id from its bytes, most significant first.
    pub fn from_bytes(bytes: [u8; 16]) -> TraceId
        ensures { result ≡ from_be_bytes w128 bytes }
    {
        TraceId(u128::from_be_bytes(bytes))
    }

    /// Returns the bytes of the id, most significant first.
    pub fn to_bytes(self) -> [u8; 16]
        ensures bytes { result ≡ to_be_bytes w128 self }
        ensures below { self < 2 ^ 128 }
    {
        u128::to_be_bytes(self.0)
    }

    /// Reads an optional `+` and one or more hexadecimal digits of either case.
    ///
    /// # Errors
    ///
    /// `Empty` if the text is empty; `InvalidDigit` if a character isn't a digit, or if no digit
    /// follows the `+`; `PosOverflow` if the number is 2 ^ 128 or more. If the digits before the
    /// first invalid character are already too many, the contract allows either
    /// `InvalidDigit` or `PosOverflow`; tests show `PosOverflow`.
    pub fn from_hex(hex: &str) -> Result<TraceId, ParseIntError>
        ensures read { IfOk result (λ id. ReadsId 128 hex.now id) }
        ensures returned { (id : ℕ) → ReadsId 128 hex.now id → result ≡ Ok id }
        ensures error { ExplainsUnsignedError 16 hex.now result }
    {
        // Most texts are exactly 32 digits. This reads them faster.
        if let Ok(bytes) = <[u8; 16]>::from_hex(hex) {
            return Ok(TraceId::from_bytes(bytes));
        }
        let number = u128::from_str_radix(hex, 16)?;
        Ok(TraceId(number))
    }
}

impl PartialEq for TraceId {
    ghost eq = { nat_eq };

    ghost laws = { partial_equiv_from_equiv nat_eq_equiv };

    /// Returns `true` if both are the same number.
    fn eq(&self, other: &TraceId) -> bool
        ensures value { result ≡ nat_eq self.now other.now }
        ensures same { IsTrue result ↔ (self.now ≡ other.now) }
    {
        self.0 == other.0
    }
}

impl From<u128> for TraceId {
    ghost from_gives = { λ n id. id ≡ n };

    fn from(value: u128) -> TraceId {
        TraceId(value)
    }
}

/// Formats the id as 32 digits, like `Display`.
impl fmt::Debug for TraceId {
    ghost debug_output = { λ id. Some (id_text 32 id) };

    fn fmt<W: fmt::Write>(&self, f: &mut fmt::Formatter<W>) -> fmt::Result {
        fmt::Display::fmt(self, f)
    }
}

impl fmt::Display for TraceId {
    ghost output = { λ id. Some (id_text 32 id) };

    fn fmt<W: fmt::Write>(&self, f: &mut fmt::Formatter<W>) -> fmt::Result {
        write_hex(&self.to_bytes(), &mut [0; 32], f)
    }
}

impl fmt::LowerHex for TraceId {
    /// Writes the number in lower-case hexadecimal digits, without leading zeros.
    fn fmt<W: fmt::Write>(&self, f: &mut fmt::Formatter<W>) -> fmt::Result
        ensures writes { WritesOnOk W.write_str_gives f.old result (number_text self.now) f.new }
        // The text that is written with a width, a fill, `0` or `#`.
        ensures styled { WritesStyledOnOk W.write_str_gives f.old result
            (hex_styled f.old (number_text self.now)) f.new }
    {
        write_number(&self.to_bytes(), &mut [0; 32], f)
    }
}

impl fmt::HasDigits for TraceId {
    ghost word = { word_of };

    /// Returns the high and the low 64 bits of the number.
    fn bits(self) -> (u64, u64)
        ensures word { IfSome (word_of self) (λ n. (result.0 ≡ 0) × (result.1 ≡ n)) }
        ensures high { result.0 ≡ self / 2 ^ 64 }
        ensures low { result.1 ≡ self % 2 ^ 64 }
    {
        ((self.0 / HALF) as u64, (self.0 % HALF) as u64)
    }
}
