//! The reason why an answer wasn't read.
ghost use Rattle.std.specs.Prelude.{◌≡◌};
ghost use Rattle.otel_proto_answers.specs.declared.error.ReadError.TheVariants.{Memory};

use std::alloc::AllocError;
use thiserror::Error;

/// The reason why an answer wasn't read.
#[derive(Debug, Drop, Error)]
pub enum ReadError {
    /// The bytes aren't a message, or a string in it isn't UTF-8.
    #[error("not a message of Protocol Buffers")]
    Malformed,
    /// Out of memory.
    #[error("no memory")]
    Memory(AllocError),
}

impl From<AllocError> for ReadError {
    ghost from_gives = { λ error converted. converted ≡ Memory error };

    fn from(error: AllocError) -> ReadError {
        ReadError::Memory(error)
    }
}
