//! The error of a propagation.
ghost use Rattle.std.specs.Prelude.{◌≡◌, alloc_error};
ghost use Rattle.opentelemetry.specs.declared.propagation.error.PropagationError.TheVariants.{Memory};

use std::alloc::{AllocError, AllocFailed};
use thiserror::Error;

/// The error of a carrier or a propagator. Not in the Rust crate, whose calls return no error.
///
/// See `otel_examples::api::service`.
#[derive(Clone, Copy, Debug, PartialEq, Eq, Drop, Error)]
pub enum PropagationError {
    /// Out of memory.
    #[error("no memory")]
    Memory(AllocError),
    /// The carrier or the propagator itself refused.
    #[error("refused")]
    Refused,
}

// By hand: the one from `thiserror` promises nothing, so no clause could say that `?` gives
// `Memory`.
impl From<AllocError> for PropagationError {
    ghost from_gives = { λ error converted. converted ≡ Memory error };

    fn from(error: AllocError) -> PropagationError {
        PropagationError::Memory(error)
    }
}

impl<T: Drop> From<AllocFailed<T>> for PropagationError {
    ghost from_gives = { λ _ converted. converted ≡ Memory alloc_error };

    fn from(_failed: AllocFailed<T>) -> PropagationError {
        PropagationError::Memory(AllocError)
    }
}
