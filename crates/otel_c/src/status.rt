//! The status of a call from C.
ghost use Rattle.std.specs.Prelude.{◌≡◌};
ghost use Rattle.otel_c.specs.Status.{code_of};

use opentelemetry::propagation::PropagationError;
use otel_ids::TraceStateError;
use std::alloc::{AllocError, AllocFailed};

/// The reason why a call did nothing: `enum otel_status` in `include/otel.h`, without
/// `OTEL_STATUS_OK`.
#[derive(Clone, Copy, Debug, PartialEq, Eq)]
pub enum Status {
    /// Out of memory.
    NoMemory,
    /// The text isn't UTF-8.
    NotText,
    /// The room is too short for the result.
    NoRoom,
    /// No such entry exists.
    Absent,
    /// The key isn't valid.
    Key,
    /// The value isn't valid.
    Value,
    /// A member has no `=`.
    List,
    /// A handle is empty, or holds another kind of object.
    Invalid,
    /// The headers can't carry a text.
    Refused,
    /// No header can carry a text.
    Unsendable,
}

impl From<AllocError> for Status {
    ghost use Rattle.otel_c.specs.declared.status.Status.TheVariants.{NoMemory};

    ghost from_gives = { λ _ status. status ≡ NoMemory };

    fn from(_error: AllocError) -> Status {
        Status::NoMemory
    }
}

impl<T: Drop> From<AllocFailed<T>> for Status {
    ghost use Rattle.otel_c.specs.declared.status.Status.TheVariants.{NoMemory};

    ghost from_gives = { λ _ status. status ≡ NoMemory };

    fn from(_failed: AllocFailed<T>) -> Status {
        Status::NoMemory
    }
}

impl From<PropagationError> for Status {
    ghost use Rattle.otel_c.specs.Status.{IsOfCarrier};

    ghost from_gives = { λ _ status. IsOfCarrier status };

    fn from(error: PropagationError) -> Status {
        match error {
            PropagationError::Memory(_) => Status::NoMemory,
            PropagationError::Refused => Status::Refused,
        }
    }
}

impl From<TraceStateError> for Status {
    ghost use Rattle.std.specs.Prelude.{Option};
    ghost use Rattle.otel_ids.specs.TraceStateError.{Fault, Reports};
    ghost use Rattle.otel_c.specs.Status.{Blames};

    ghost from_gives = { λ error status. (fault : Option Fault)
        → Reports error fault → Blames fault status };

    fn from(error: TraceStateError) -> Status {
        match error {
            TraceStateError::Key(_) => Status::Key,
            TraceStateError::Value(_) => Status::Value,
            TraceStateError::List(_) => Status::List,
            TraceStateError::Memory(_) => Status::NoMemory,
        }
    }
}

/// Returns the number of the outcome in C: 0 for success.
pub fn code(outcome: Result<(), Status>) -> u32
    ensures { result ≡ code_of outcome }
{
    match outcome {
        Ok(()) => 0,
        Err(Status::NoMemory) => 1,
        Err(Status::NotText) => 2,
        Err(Status::NoRoom) => 3,
        Err(Status::Absent) => 4,
        Err(Status::Key) => 5,
        Err(Status::Value) => 6,
        Err(Status::List) => 7,
        Err(Status::Invalid) => 8,
        Err(Status::Refused) => 9,
        Err(Status::Unsendable) => 10,
    }
}
