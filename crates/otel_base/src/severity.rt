//! The severity of a log record.
ghost use Rattle.std.specs.Prelude.{◌≡◌, ◌↔◌, ◌==◌, IsTrue};
ghost use Rattle.std.proofs.Common.{rules};
ghost use Rattle.std.specs.Cmp.{partial_order_from_own_ties, unsigned_ties};
ghost use Rattle.std.specs.Cmp.Rules.{comparing};
ghost use Rattle.std.specs.Ordering.{nat_cmp, on, as_partial_cmp};
ghost use Rattle.otel_base.specs.Severity as spec;

use std::cmp::Ordering;

/// A severity of the OpenTelemetry logs data model, least severe first.
///
/// Severities are ordered by number.
///
/// ```
/// record.set_severity_number(Severity::Warn);
/// ```
#[derive(Clone, Copy, Debug)]
pub enum Severity {
    /// `TRACE`
    Trace = 1,
    /// `TRACE2`
    Trace2 = 2,
    /// `TRACE3`
    Trace3 = 3,
    /// `TRACE4`
    Trace4 = 4,
    /// `DEBUG`
    Debug = 5,
    /// `DEBUG2`
    Debug2 = 6,
    /// `DEBUG3`
    Debug3 = 7,
    /// `DEBUG4`
    Debug4 = 8,
    /// `INFO`
    Info = 9,
    /// `INFO2`
    Info2 = 10,
    /// `INFO3`
    Info3 = 11,
    /// `INFO4`
    Info4 = 12,
    /// `WARN`
    Warn = 13,
    /// `WARN2`
    Warn2 = 14,
    /// `WARN3`
    Warn3 = 15,
    /// `WARN4`
    Warn4 = 16,
    /// `ERROR`
    Error = 17,
    /// `ERROR2`
    Error2 = 18,
    /// `ERROR3`
    Error3 = 19,
    /// `ERROR4`
    Error4 = 20,
    /// `FATAL`
    Fatal = 21,
    /// `FATAL2`
    Fatal2 = 22,
    /// `FATAL3`
    Fatal3 = 23,
    /// `FATAL4`
    Fatal4 = 24,
}

impl Severity {
    /// Returns the short name in the OpenTelemetry logs data model, such as `WARN2`.
    pub fn name(&self) -> &'static str
        ensures { result.now ≡ spec.name self.now }
    {
        match self {
            Severity::Trace => "TRACE",
            Severity::Trace2 => "TRACE2",
            Severity::Trace3 => "TRACE3",
            Severity::Trace4 => "TRACE4",
            Severity::Debug => "DEBUG",
            Severity::Debug2 => "DEBUG2",
            Severity::Debug3 => "DEBUG3",
            Severity::Debug4 => "DEBUG4",
            Severity::Info => "INFO",
            Severity::Info2 => "INFO2",
            Severity::Info3 => "INFO3",
            Severity::Info4 => "INFO4",
            Severity::Warn => "WARN",
            Severity::Warn2 => "WARN2",
            Severity::Warn3 => "WARN3",
            Severity::Warn4 => "WARN4",
            Severity::Error => "ERROR",
            Severity::Error2 => "ERROR2",
            Severity::Error3 => "ERROR3",
            Severity::Error4 => "ERROR4",
            Severity::Fatal => "FATAL",
            Severity::Fatal2 => "FATAL2",
            Severity::Fatal3 => "FATAL3",
            Severity::Fatal4 => "FATAL4",
        }
    }

    /// Returns the number in the OpenTelemetry logs data model, from 1 for `TRACE` to 24 for
    /// `FATAL4`. Not in the Rust crate, which has `severity as u8`.
    pub fn number(&self) -> u8
        ensures { result ≡ spec.number self.now }
    {
        *self as u8
    }
}

impl PartialEq for Severity {
    ghost eq = { on spec.number ◌==◌ };

    ghost laws = { Prim.search (comparing, rules) };

    /// Returns `true` if both are the same severity.
    fn eq(&self, other: &Severity) -> bool
        ensures value { result ≡ (spec.number self.now == spec.number other.now) }
        ensures same { IsTrue result ↔ (self.now ≡ other.now) }
    {
        self.number() == other.number()
    }
}

impl Eq for Severity {
    ghost laws = { Prim.search (comparing, rules) };
}

impl PartialOrd for Severity {
    ghost partial_cmp = { as_partial_cmp (on spec.number nat_cmp) };

    ghost laws = { partial_order_from_own_ties (Prim.search (comparing, rules))
        (λ x y. unsigned_ties (spec.number x) (spec.number y)) };

    fn partial_cmp(&self, other: &Severity) -> Option<Ordering> {
        Some(self.cmp(other))
    }
}

impl Ord for Severity {
    ghost cmp = { on spec.number nat_cmp };

    ghost total = { Prim.search (comparing, rules) };

    ghost matches_partial_cmp = { Prim.search (comparing, rules) };

    ghost matches_eq = { λ x y. unsigned_ties (spec.number x) (spec.number y) };

    fn cmp(&self, other: &Severity) -> Ordering {
        self.number().cmp(&other.number())
    }
}
