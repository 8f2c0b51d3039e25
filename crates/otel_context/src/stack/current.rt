//! Calls on the current value.
ghost use Rattle.std.specs.Prelude.{◌≡◌};
ghost use Rattle.std.specs.Fn.{FnOnceReturnsAt};

/// A type with a current value, such as a `ContextStack` with its current context. Not in the Rust
/// crate.
///
/// It replaces the method `map_current` of the Rust crate's `Context`. Import the trait and call
/// `stack.map_current(|context| ..)`.
///
/// ```
/// let has_span = stack.map_current(|context| context.has_active_span());
/// ```
pub trait HasCurrent {
    /// The type of the current value.
    type Current;

    ghost current_value: { Self → Self.Current };

    /// Returns the current value.
    fn lend_current(&self) -> &Self::Current
        ensures { result.now ≡ Self.current_value self.now };

    /// Calls `f` once with the current value, and returns its result.
    final fn map_current<T, F: FnOnce(&Self::Current) -> T>(&self, f: F) -> T
        requires { F.IsAlwaysCallable f }
        ensures { FnOnceReturnsAt F.FnOnce f (Self.current_value self.now) result }
    {
        f(self.lend_current())
    }
}
