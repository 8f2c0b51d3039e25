//! The flags of a trace.
ghost use Rattle.std.specs.Prelude.{◌≡◌, ◌↔◌, IsTrue, nat_eq, ℕ, ◌<◌, ◌-◌, Some};
ghost use Rattle.std.specs.Prelude.{bit_and, bit_or};
ghost use Rattle.std.specs.Cmp.{nat_eq_equiv, partial_equiv_from_equiv};
ghost use Rattle.std.specs.Int.{bit_at};
ghost use Rattle.std.specs.Fmt.{WritesOnOk, WritesStyledOnOk};
ghost use Rattle.otel_ids.specs.TraceFlags.{is_sampled, with_sampled};
ghost use Rattle.otel_ids.specs.Ids.{hex_digits, hex_styled};

use crate::digits::write_number;
use std::fmt;
use std::marker::Model;
use std::ops::{BitAnd, BitOr, Not};

/// The flags of a trace, one byte. Bit 0 is the flag `sampled`. The other bits are preserved.
///
/// Contracts see the byte as a number. `{:x}` prints it. See W3C trace-context-2, "trace-flags".
///
/// See `otel_examples::api::log_bridge`.
#[derive(Clone, Copy, Debug, Eq, Hash)]
pub struct TraceFlags(u8);

impl Model for TraceFlags {
    ghost use Rattle.std.specs.Prelude.{ℕ};

    ghost Value = { ℕ };

    ghost view = { λ flags. flags.0 };

    ghost inverse = { λ n. record { 0 = n } };
}

impl TraceFlags {
    /// No flag set.
    pub const NOT_SAMPLED: TraceFlags = TraceFlags(0x00);

    /// The flag `sampled` only (W3C trace-context-2, "Sampled flag").
    pub const SAMPLED: TraceFlags = TraceFlags(0x01);

    /// Creates flags from a byte.
    pub fn new(flags: u8) -> TraceFlags
        ensures { result ≡ flags }
    {
        TraceFlags(flags)
    }

    /// Returns `true` if the flag `sampled` is set.
    pub fn is_sampled(&self) -> bool
        ensures { result ≡ is_sampled self.now }
    {
        (*self & TraceFlags::SAMPLED) == TraceFlags::SAMPLED
    }

    /// Returns the flags with `sampled` set or cleared, and every other bit unchanged.
    pub fn with_sampled(&self, sampled: bool) -> TraceFlags
        ensures flags { result ≡ with_sampled self.now sampled }
        // Only bit 0 may change.
        ensures others { (i : ℕ) → 0 < i → bit_at result i ≡ bit_at self.now i }
    {
        if sampled {
            TraceFlags(self.0 | TraceFlags::SAMPLED.0)
        } else {
            TraceFlags(self.0 & !TraceFlags::SAMPLED.0)
        }
    }

    /// Returns the byte.
    pub fn to_u8(self) -> u8
        ensures { result ≡ self }
    {
        let TraceFlags(byte) = self;
        byte
    }
}

impl PartialEq for TraceFlags {
    ghost eq = { nat_eq };

    ghost laws = { partial_equiv_from_equiv nat_eq_equiv };

    /// Returns `true` if both are the same byte.
    fn eq(&self, other: &TraceFlags) -> bool
        ensures value { result ≡ nat_eq self.now other.now }
        ensures same { IsTrue result ↔ (self.now ≡ other.now) }
    {
        self.0 == other.0
    }
}

impl Default for TraceFlags {
    ghost is_default = { λ flags. flags ≡ 0 };

    /// Returns flags with no bit set.
    fn default() -> TraceFlags
        ensures { result ≡ 0 }
    {
        TraceFlags::NOT_SAMPLED
    }
}

impl BitAnd for TraceFlags {
    type Output = TraceFlags;

    ghost bitand_gives = { λ a b r. r ≡ bit_and a b };

    fn bitand(self, rhs: TraceFlags) -> TraceFlags {
        TraceFlags(self.0 & rhs.0)
    }
}

impl BitOr for TraceFlags {
    type Output = TraceFlags;

    ghost bitor_gives = { λ a b r. r ≡ bit_or a b };

    fn bitor(self, rhs: TraceFlags) -> TraceFlags {
        TraceFlags(self.0 | rhs.0)
    }
}

impl Not for TraceFlags {
    type Output = TraceFlags;

    ghost not_gives = { λ a r. r ≡ 255 - a };

    fn not(self) -> TraceFlags {
        TraceFlags(!self.0)
    }
}

impl fmt::LowerHex for TraceFlags {
    /// Writes the number in lower-case hexadecimal digits, without leading zeros.
    fn fmt<W: fmt::Write>(&self, f: &mut fmt::Formatter<W>) -> fmt::Result
        ensures writes { WritesOnOk W.write_str_gives f.old result (hex_digits self.now) f.new }
        // The text that is written with a width, a fill, `0` or `#`.
        ensures styled { WritesStyledOnOk W.write_str_gives f.old result
            (hex_styled f.old (hex_digits self.now)) f.new }
    {
        write_number(&[self.to_u8()], &mut [0; 2], f)
    }
}

impl fmt::HasDigits for TraceFlags {
    ghost word = { λ flags. Some flags };

    fn bits(self) -> (u64, u64) {
        self.to_u8().bits()
    }
}
