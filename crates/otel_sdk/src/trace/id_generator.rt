//! Generators of trace ids and span ids.
ghost use Rattle.std.specs.Prelude.{◌≡◌, ◌≢◌, IfOk, true, false, nat_eq};

pub(crate) mod count;
mod draws;

pub use crate::trace::id_generator::count::CountCell;
use crate::trace::id_generator::count::count_up;
pub use crate::trace::id_generator::draws::ByteSource;
use crate::trace::id_generator::draws::{SpanDraws, TraceDraws, first_valid};
use opentelemetry::trace::{SpanId, TraceId};
use std::cell::Cell;
use std::random::RandomSource;
use thiserror::Error;

/// The reason why no new id was made.
#[derive(Clone, Copy, Debug, PartialEq, Eq, Error)]
pub enum IdError {
    /// Every number drawn was 0, which isn't a valid id, or the numbers are used up.
    #[error("no valid id was drawn")]
    Zero,
    /// The source of random numbers failed.
    #[error("the source of random numbers failed")]
    Source,
}

/// Makes the ids of spans and traces (the Rust crate's `IdGenerator`). An id is never 0.
///
/// Implementors define the ghost function `random`, whether the trace ids are random, and two ghost
/// relations: the results that `new_trace_id` (`may_trace`) and `new_span_id` (`may_span`) may
/// have. Code that is generic over a generator knows nothing of these two: only a call shows a
/// result.
///
/// See [`RandomIdGenerator`] and [`CountedIdGenerator`].
pub trait IdGenerator: Drop {
    ghost use Rattle.std.specs.Prelude.{ℕ, Bool, Result};
    ghost use Rattle.otel_sdk.specs.declared.trace.id_generator.IdError.{IdError};

    ghost random: { Self → Bool };

    ghost may_trace: { Self → Result ℕ IdError → Type 0 };

    ghost may_span: { Self → Result ℕ IdError → Type 0 };

    /// Returns a new trace id.
    ///
    /// # Errors
    ///
    /// `Zero` if no valid id was drawn. `Source` if the source of random numbers failed.
    fn new_trace_id(&self) -> Result<TraceId, IdError>
        ensures valid { IfOk result (λ id. id ≢ 0) }
        ensures given { may_trace self.now result };

    /// Returns a new span id.
    ///
    /// # Errors
    ///
    /// `Zero` if no valid id was drawn. `Source` if the source of random numbers failed.
    fn new_span_id(&self) -> Result<SpanId, IdError>
        ensures valid { IfOk result (λ id. id ≢ 0) }
        ensures given { may_span self.now result };

    /// Returns `true` if the trace ids are random (W3C trace-context-2, "Random Trace ID Flag").
    fn is_random(&self) -> bool
        ensures { result ≡ random self.now };
}

/// Draws ids from a source of random numbers, such as the system's (the Rust crate's
/// `RandomIdGenerator`). An id of 0 is drawn again, with at most 8 draws in all.
///
/// Use it in production: `RandomIdGenerator::new(rt)` draws from the system's source.
#[derive(Drop)]
pub struct RandomIdGenerator<R> {
    source: R,
}

impl<R: RandomSource + Drop> RandomIdGenerator<R> {
    /// Returns a generator that draws from this source.
    pub fn new(source: R) -> RandomIdGenerator<R> {
        RandomIdGenerator { source }
    }
}

impl<R: RandomSource + Drop> IdGenerator for RandomIdGenerator<R>
where
    R: ByteSource,
{
    ghost use Rattle.std.specs.Prelude.{true};
    ghost use Rattle.std.specs.Int.{w64, w128};
    ghost use Rattle.otel_sdk.specs.IdGenerator.{IsRandomId};

    ghost random = { λ _. true };

    ghost may_trace = { λ _. IsRandomId R.ByteSource.may_fill w128 };

    ghost may_span = { λ _. IsRandomId R.ByteSource.may_fill w64 };

    fn new_trace_id(&self) -> Result<TraceId, IdError> {
        first_valid(&mut TraceDraws(&self.source))
    }

    fn new_span_id(&self) -> Result<SpanId, IdError> {
        first_valid(&mut SpanDraws(&self.source))
    }

    fn is_random(&self) -> bool {
        true
    }
}

/// Counts ids up from 1, trace ids and span ids separately. Use it in tests. Not public in the Rust
/// crate.
pub type CountedIdGenerator = CountedIds<Cell<u64>, Cell<u64>>;

/// Counts trace ids up in one counter, and span ids in another. Not in the Rust crate.
///
/// See [`CountedIdGenerator`].
#[derive(Drop)]
pub struct CountedIds<T, S> {
    traces: T,
    spans: S,
}

impl CountedIds<Cell<u64>, Cell<u64>> {
    /// Returns a generator whose first ids are 1.
    pub fn new() -> CountedIdGenerator {
        CountedIds {
            traces: Cell::new(0),
            spans: Cell::new(0),
        }
    }
}

impl<T: CountCell + Drop, S: CountCell + Drop> IdGenerator for CountedIds<T, S> {
    ghost use Rattle.std.specs.Prelude.{false};
    ghost use Rattle.otel_sdk.specs.IdGenerator.{CountsUp};

    ghost random = { λ _. false };

    ghost may_trace = { λ _. CountsUp T.may_have T.is_given };

    ghost may_span = { λ _. CountsUp S.may_have S.is_given };

    /// Returns 1, then 2, and so on.
    ///
    /// # Errors
    ///
    /// `Zero` if the numbers are used up.
    fn new_trace_id(&self) -> Result<TraceId, IdError> {
        let number = count_up(&self.traces)?;
        Ok(TraceId::from(number as u128))
    }

    /// Returns 1, then 2, and so on.
    ///
    /// # Errors
    ///
    /// `Zero` if the numbers are used up.
    fn new_span_id(&self) -> Result<SpanId, IdError> {
        let number = count_up(&self.spans)?;
        Ok(SpanId::from(number))
    }

    fn is_random(&self) -> bool {
        false
    }
}
