//! Drawing ids until one is valid.
ghost use Rattle.std.specs.Prelude.{◌≡◌, ◌≢◌, IfOk, Some, None, if◌then◌else◌, length, nat_eq};
ghost use Rattle.otel_sdk.specs.IdGenerator.{FirstValid, max_draws};

use crate::trace::id_generator::IdError;
use opentelemetry::trace::{SpanId, TraceId};
use std::marker::Model;
use std::random::RandomSource;

/// The maximum number of draws for one id.
const MAX_DRAWS: u32 = 8;

/// A source of random bytes. Every [`RandomSource`] is one.
///
/// No contract says which bytes a source draws. So a call ensures a ghost relation of which code
/// that is generic over this trait knows nothing: only the call shows that bytes were drawn.
pub trait ByteSource {
    ghost use Rattle.std.specs.Prelude.{ℕ, List, Option};

    ghost may_fill: { Option (List ℕ) → Type 0 };

    /// Fills the buffer with random bytes. Returns `false` if the source failed.
    fn fill(&self, bytes: &mut [u8]) -> bool
        ensures filled { may_fill (if result then Some bytes.new else None) }
        ensures size { length bytes.new ≡ length bytes.old };
}

impl<R: RandomSource> ByteSource for R {
    ghost may_fill = { λ _. Unit {0} };

    fn fill(&self, bytes: &mut [u8]) -> bool {
        self.fill_bytes(bytes).is_ok()
    }
}

/// A source of ids, some of which may be 0.
///
/// `may_draw` relates a source to the possible results of a draw, and to the source after it. A
/// failed draw returns `None`.
pub(crate) trait Draws {
    ghost use Rattle.std.specs.Prelude.{ℕ, Option, Bool};

    type Id: Copy;

    ghost may_draw: { Self → Option Self.Id → Self → Type 0 };

    ghost number: { Self.Id → ℕ };

    /// Draws an id.
    fn draw(&mut self) -> Option<Self::Id>
        ensures { may_draw self.old result self.new };

    /// Returns `true` if the id is 0.
    fn is_zero(id: Self::Id) -> bool
        ensures { result ≡ nat_eq (number id) 0 };
}

/// Returns the first id drawn that isn't 0, with at most 8 draws.
///
/// # Errors
///
/// `Source` at the first draw that fails. `Zero` after 8 draws of 0.
pub(crate) fn first_valid<D: Draws>(draws: &mut D) -> Result<D::Id, IdError>
    ensures drawn { FirstValid D.may_draw D.number max_draws draws.old result draws.new }
    ensures valid { IfOk result (λ id. D.number id ≢ 0) }
{
    for _ in 0..MAX_DRAWS {
        let Some(id) = draws.draw() else {
            return Err(IdError::Source);
        };
        if !D::is_zero(id) {
            return Ok(id);
        }
    }
    Err(IdError::Zero)
}

/// Trace ids from a source of random numbers.
#[derive(Drop)]
pub(crate) struct TraceDraws<'a, R>(pub(crate) &'a R);

impl<'a, R> Model for TraceDraws<'a, R> {
    ghost Value = { Unit {0} };

    ghost view = { λ _. tt };
}

impl<'a, R: ByteSource> Draws for TraceDraws<'a, R> {
    ghost use Rattle.std.specs.Int.{w128};
    ghost use Rattle.otel_sdk.specs.IdGenerator.{IsDraw};

    type Id = TraceId;

    ghost may_draw = { λ _ drawn _. IsDraw R.may_fill w128 drawn };

    ghost number = { λ id. id };

    fn draw(&mut self) -> Option<TraceId> {
        let mut bytes = [0; 16];
        if self.0.fill(&mut bytes) {
            Some(TraceId::from_bytes(bytes))
        } else {
            None
        }
    }

    fn is_zero(id: TraceId) -> bool {
        id == TraceId::INVALID
    }
}

/// Span ids from a source of random numbers.
#[derive(Drop)]
pub(crate) struct SpanDraws<'a, R>(pub(crate) &'a R);

impl<'a, R> Model for SpanDraws<'a, R> {
    ghost Value = { Unit {0} };

    ghost view = { λ _. tt };
}

impl<'a, R: ByteSource> Draws for SpanDraws<'a, R> {
    ghost use Rattle.std.specs.Int.{w64};
    ghost use Rattle.otel_sdk.specs.IdGenerator.{IsDraw};

    type Id = SpanId;

    ghost may_draw = { λ _ drawn _. IsDraw R.may_fill w64 drawn };

    ghost number = { λ id. id };

    fn draw(&mut self) -> Option<SpanId> {
        let mut bytes = [0; 8];
        if self.0.fill(&mut bytes) {
            Some(SpanId::from_bytes(bytes))
        } else {
            None
        }
    }

    fn is_zero(id: SpanId) -> bool {
        id == SpanId::INVALID
    }
}
