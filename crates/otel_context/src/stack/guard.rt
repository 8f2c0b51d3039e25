//! The guard of an attached context.
ghost use Rattle.std.specs.Prelude.{◌≡◌, ◌≢◌, ◌↔◌, IsTrue};
ghost use Rattle.otel_context.specs.Stack.{no_position};

use std::marker::Model;

/// The position returned if none is left.
pub(crate) const NO_POSITION: u16 = u16::MAX;

/// The position of an attached context. Pass it to `ContextStack::detach`.
///
/// A guard can't be dropped: a program that doesn't spend it doesn't compile. If it is passed to a
/// stack other than the one that returned it, it names whatever is live at its position there.
///
/// Do the work in between in a function of its own, and use `?` on its result after the detach:
///
/// ```
/// let guard = stack.attach(context)?;
/// let amount = current_amount(stack);
/// stack.detach(guard);
/// let amount = amount?;
/// ```
pub struct ContextGuard {
    position: u16,
}

impl Model for ContextGuard {
    ghost use Rattle.std.specs.Prelude.{ℕ};

    ghost Value = { ℕ };

    ghost view = { λ guard. guard.position };
}

impl ContextGuard {
    pub(crate) fn new(position: u16) -> ContextGuard
        ensures { result ≡ position }
    {
        ContextGuard { position }
    }

    /// Returns the position of the attached context, from 1 to 65534, or 65535 if the stack was
    /// full. Not in the Rust crate.
    pub fn position(&self) -> u16
        ensures { result ≡ self.now }
    {
        self.position
    }

    /// Returns `true` if the context was attached, that is, if the position isn't 65535. Later
    /// removals don't change the result. Not in the Rust crate.
    pub fn is_attached(&self) -> bool
        ensures { IsTrue result ↔ (self.now ≢ no_position) }
    {
        self.position != NO_POSITION
    }

    pub(crate) fn into_position(self) -> u16
        ensures { result ≡ self }
    {
        let ContextGuard { position } = self;
        position
    }
}
