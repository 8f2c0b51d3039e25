//! The error of processors and exporters.
ghost use Rattle.std.specs.Prelude.{◌≡◌, alloc_error};
ghost use Rattle.otel_sdk_base.specs.Errors.{of_cause, of_io, of_propagation, of_start};
ghost use Rattle.otel_sdk_base.specs.declared.error.OTelSdkError.TheVariants.{Memory};

use opentelemetry::propagation::PropagationError;
use opentelemetry::trace::{SpanCause, SpanRefused, StartError};
use std::alloc::{AllocError, AllocFailed};
use std::io;
use thiserror::Error;

/// The error of a processor or an exporter (the Rust crate's `OTelSdkError`, without `Timeout`,
/// since nothing waits here).
///
/// `?` also converts the errors of the API, of I/O and of the end of a span, so that one error type
/// is enough for a program. Each cause has its own variant, and out of memory is always `Memory`.
///
/// ```
/// assert!(rt; matches!(answer, Err(OTelSdkError::AlreadyShutdown)));
/// ```
#[derive(Debug, Drop, Error)]
pub enum OTelSdkError {
    /// The processor or exporter was already shut down.
    #[error("Shutdown already invoked")]
    AlreadyShutdown,
    /// The processor or exporter failed. The text says why.
    #[error("Operation failed: {0}")]
    InternalFailure(String),
    /// Out of memory. Not in the Rust crate, which aborts.
    #[error("no memory")]
    Memory(AllocError),
    /// A table of spans has no number left. Not in the Rust crate.
    #[error("no span number left")]
    NumbersUsedUp,
    /// No position is left to attach a context. Not in the Rust crate.
    #[error("no position left")]
    PositionsUsedUp,
    /// A carrier or a propagator refused. Not in the Rust crate.
    #[error("propagation refused")]
    PropagationRefused,
    /// An I/O error other than out of memory. Not in the Rust crate.
    #[error("{0}")]
    Io(io::Error),
}

/// The result of calls to processors and exporters (the Rust crate's `OTelSdkResult`).
pub type OTelSdkResult = Result<(), OTelSdkError>;

impl From<AllocError> for OTelSdkError {
    ghost from_gives = { λ error converted. converted ≡ Memory error };

    fn from(error: AllocError) -> OTelSdkError {
        OTelSdkError::Memory(error)
    }
}

impl<T: Drop> From<AllocFailed<T>> for OTelSdkError {
    ghost from_gives = { λ _ converted. converted ≡ Memory alloc_error };

    fn from(_failed: AllocFailed<T>) -> OTelSdkError {
        OTelSdkError::Memory(AllocError)
    }
}

impl From<SpanCause> for OTelSdkError {
    ghost from_gives = { λ cause converted. converted ≡ of_cause cause };

    fn from(cause: SpanCause) -> OTelSdkError {
        match cause {
            SpanCause::NumbersUsedUp => OTelSdkError::NumbersUsedUp,
            SpanCause::Memory(error) => OTelSdkError::Memory(error),
        }
    }
}

/// Drops the span.
impl<S: Drop> From<SpanRefused<S>> for OTelSdkError {
    ghost from_gives = { λ refused converted. converted ≡ of_cause refused.cause };

    fn from(refused: SpanRefused<S>) -> OTelSdkError {
        OTelSdkError::from(refused.cause)
    }
}

/// Drops the span, if there is one.
impl<S: Drop> From<StartError<S>> for OTelSdkError {
    ghost from_gives = { λ error converted. converted ≡ of_start error };

    fn from(error: StartError<S>) -> OTelSdkError {
        match error {
            StartError::Build(error) => OTelSdkError::Memory(error),
            StartError::Refused(refused) => OTelSdkError::from(refused),
        }
    }
}

impl From<PropagationError> for OTelSdkError {
    ghost from_gives = { λ error converted. converted ≡ of_propagation error };

    fn from(error: PropagationError) -> OTelSdkError {
        match error {
            PropagationError::Memory(error) => OTelSdkError::Memory(error),
            PropagationError::Refused => OTelSdkError::PropagationRefused,
        }
    }
}

impl From<io::Error> for OTelSdkError {
    ghost from_gives = { λ error converted. converted ≡ of_io error };

    fn from(error: io::Error) -> OTelSdkError {
        match error.kind() {
            io::ErrorKind::OutOfMemory => OTelSdkError::Memory(AllocError),
            _ => OTelSdkError::Io(error),
        }
    }
}
