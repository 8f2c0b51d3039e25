//! Failures, for which there is no report.
ghost use Rattle.std.specs.Prelude.{◌≡◌, Some};
ghost use Rattle.otel_carry.specs.Failures.{status_of, text_of};
ghost use Rattle.otel_carry.specs.declared.failure.Failure.TheVariants.{NoMemory};

use crate::lines::Fault;
use std::alloc::{AllocError, AllocFailed};
use std::fmt;

/// The reason why there is no report. Its `Display` prints the line that the program writes
/// instead.
#[derive(Clone, Copy, Debug, PartialEq, Eq)]
pub enum Failure {
    /// A read failed, or no read reported the end of the input.
    Unreadable,
    /// The input isn't UTF-8.
    NotUtf8,
    /// The number of the first faulty line, counted from 1, and its fault.
    Line(usize, Fault),
    /// Out of memory.
    NoMemory,
}

impl Failure {
    /// Returns the exit status of the program: 2 if the input has a fault, otherwise 1.
    pub fn status(self) -> u8
        ensures { result ≡ status_of self }
    {
        match self {
            Failure::Unreadable | Failure::NoMemory => 1,
            Failure::NotUtf8 | Failure::Line(_, _) => 2,
        }
    }
}

impl fmt::Display for Failure {
    ghost output = { λ failure. Some (text_of failure) };

    fn fmt<W: fmt::Write>(&self, f: &mut fmt::Formatter<W>) -> fmt::Result {
        match self {
            Failure::Unreadable => f.write_str("input: cannot be read"),
            Failure::NotUtf8 => f.write_str("input: not UTF-8"),
            Failure::Line(number, fault) => write!(f, "line {number}: {fault}"),
            Failure::NoMemory => f.write_str("no memory"),
        }
    }
}

impl From<AllocError> for Failure {
    ghost from_gives = { λ _ failure. failure ≡ NoMemory };

    fn from(_error: AllocError) -> Failure {
        Failure::NoMemory
    }
}

impl<T: Drop> From<AllocFailed<T>> for Failure {
    ghost from_gives = { λ _ failure. failure ≡ NoMemory };

    fn from(_failed: AllocFailed<T>) -> Failure {
        Failure::NoMemory
    }
}
