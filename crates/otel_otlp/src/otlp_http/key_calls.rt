//! The call that draws random keys, of whose answers no contract of a [`RandomSource`] speaks.

use std::hash::RandomState;
use std::io;
use std::random::RandomSource;

/// The call that draws the keys of a map. Every [`RandomSource`] has it.
///
/// The ghost member `draws` gives the answers. Code that is generic over this trait knows nothing
/// of it: only a call shows an answer.
pub trait KeyCalls: RandomSource {
    ghost use Rattle.std.specs.Prelude.{Result};
    ghost use Rattle.std.specs.declared.hash.RandomState.{RandomState};
    ghost use Rattle.std.specs.declared.io.Error.{Error};

    ghost draws: { Result RandomState Error → Type 0 };

    /// Draws the keys of a map, as [`RandomState::new`].
    ///
    /// # Errors
    ///
    /// The source's own error.
    fn draw_keys(&self) -> io::Result<RandomState>
        ensures { draws result };
}

impl<R: RandomSource> KeyCalls for R {
    ghost draws = { λ _. Unit {0} };

    fn draw_keys(&self) -> io::Result<RandomState> {
        RandomState::new(self)
    }
}
