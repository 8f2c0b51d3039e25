//! The name of an attribute, of a context entry or of a baggage entry.
ghost use Rattle.std.specs.Prelude.{◌≡◌, ◌↔◌, IfOk, IsTrue, string_bytes, Some, nat_eq};
ghost use Rattle.std.specs.Cmp.Lexicographic.{pointwise};
ghost use Rattle.std.proofs.Common.{rules};
ghost use Rattle.std.specs.Cmp.Rules.{comparing};
ghost use Rattle.std.specs.Rc.{rc_str_bytes};

use crate::text::Text;
use std::alloc::{AllocError, Global};
use std::fmt;
use std::marker::Model;
use std::rc::RcStr;

/// The key of an attribute, a context entry or a baggage entry (the Rust crate's `Key`).
///
/// Contracts see its text, the list of its UTF-8 bytes, which may be owned, static or shared.
/// Equality, order (by bytes), hash and `Display` depend on the text only, so it can be the key of
/// a map.
///
/// For a literal, use `Key::from("tenant")`. A text made at run time has to be owned:
///
/// ```
/// let key = Key::from(String::from_str(alloc, name)?);
/// ```
#[derive(Eq, PartialOrd, Ord, Hash, Debug, Drop)]
pub struct Key {
    text: Text,
}

impl Model for Key {
    ghost use Rattle.std.specs.Prelude.{List, ℕ};

    ghost Value = { List ℕ };

    ghost view = { λ k. k.text };

    ghost inverse = { λ t. record { text = t } };
}

impl Key {
    /// Creates a key from an owned text. Doesn't allocate.
    pub fn new(value: String) -> Key
        ensures { result ≡ string_bytes value }
    {
        Key {
            text: Text::from(value),
        }
    }

    /// Creates a key from a static text. Neither this nor cloning the key allocates.
    pub fn from_static_str(value: &'static str) -> Key
        ensures { result ≡ value.now }
    {
        Key::from(value)
    }

    /// Returns the text.
    pub fn as_str(&self) -> &str
        ensures { result.now ≡ self.now }
    {
        self.text.as_str()
    }

    /// Returns the text as an owned `String` (the Rust crate's `From<Key> for String`).
    ///
    /// A key made from a `String` returns that `String` without allocating. A static or shared
    /// text is copied.
    ///
    /// # Errors
    ///
    /// `AllocError` if out of memory for the copy. The text is dropped.
    pub fn into_string(self, alloc: Global) -> Result<String, AllocError>
        ensures { IfOk result (λ s. string_bytes s ≡ self) }
    {
        self.text.into_string(alloc)
    }
}

impl PartialEq for Key {
    ghost eq = { pointwise nat_eq };

    ghost laws = { Prim.search (comparing, rules) };

    /// Returns `true` if both have the same text, whether owned, static or shared.
    fn eq(&self, other: &Key) -> bool
        ensures value { result ≡ pointwise nat_eq self.now other.now }
        ensures same { IsTrue result ↔ (self.now ≡ other.now) }
    {
        self.text == other.text
    }
}

impl Clone for Key {
    ghost is_clone = { λ s copy. copy ≡ s };

    /// Returns a key with the same text. Allocates only if the text is owned.
    fn clone(&self) -> Result<Key, AllocError> {
        Ok(Key {
            text: self.text.clone()?,
        })
    }
}

impl From<&'static str> for Key {
    ghost from_gives = { λ s k. k ≡ s.now };

    /// Creates a key from a static text.
    ///
    /// For a text made at run time, write `Key::from(String::from_str(alloc, name)?)`.
    fn from(value: &'static str) -> Key {
        let text = Text::from(value);
        Key { text }
    }
}

impl From<String> for Key {
    ghost from_gives = { λ s k. k ≡ string_bytes s };

    /// Creates a key from an owned text.
    fn from(value: String) -> Key {
        Key::new(value)
    }
}

impl From<RcStr> for Key {
    ghost from_gives = { λ s k. k ≡ rc_str_bytes s };

    /// Creates a key from a shared text.
    fn from(value: RcStr) -> Key {
        let text = Text::from(value);
        Key { text }
    }
}

impl fmt::Display for Key {
    ghost output = { λ k. Some k };

    /// Writes the plain text. Ignores width, fill and precision.
    fn fmt<W: fmt::Write>(&self, f: &mut fmt::Formatter<W>) -> fmt::Result {
        fmt::Display::fmt(&self.text, f)
    }
}
