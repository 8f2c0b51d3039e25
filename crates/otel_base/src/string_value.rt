//! The text of a value.
ghost use Rattle.std.specs.Prelude.{◌≡◌, ◌↔◌, IfOk, IsOk, IsTrue, string_bytes, Some, nat_eq};
ghost use Rattle.std.specs.Cmp.Lexicographic.{pointwise};
ghost use Rattle.std.proofs.Common.{rules};
ghost use Rattle.std.specs.Cmp.Rules.{comparing};
ghost use Rattle.std.specs.Rc.{rc_str_bytes};
ghost use Rattle.otel_base.specs.Value.{display, is_text};
ghost use Rattle.otel_base.specs.View.{value_of};

use crate::text::Text;
use crate::value::Value;
use std::alloc::{AllocError, Global};
use std::fmt;
use std::marker::Model;
use std::rc::RcStr;

/// A text as a value (the Rust crate's `StringValue`).
///
/// Contracts see its text, the list of its UTF-8 bytes, which may be owned, static or shared.
/// Equality, order (by bytes), hash and `Display` depend on the text only.
///
/// For a literal, use `StringValue::from("acme")`. A text made at run time has to be owned:
///
/// ```
/// let text = StringValue::from(String::from_str(alloc, name)?);
/// ```
#[derive(Eq, PartialOrd, Ord, Hash, Debug, Drop)]
pub struct StringValue {
    text: Text,
}

impl Model for StringValue {
    ghost use Rattle.std.specs.Prelude.{List, ℕ};

    ghost Value = { List ℕ };

    ghost view = { λ k. k.text };

    ghost inverse = { λ t. record { text = t } };
}

impl StringValue {
    /// Returns the text.
    pub fn as_str(&self) -> &str
        ensures { result.now ≡ self.now }
    {
        self.text.as_str()
    }

    /// Returns the text as an owned `String` (the Rust crate's `From<StringValue> for String`).
    ///
    /// A value made from a `String` returns that `String` without allocating. A static or shared
    /// text is copied.
    ///
    /// # Errors
    ///
    /// `AllocError` if out of memory for the copy. The text is dropped.
    pub fn into_string(self, alloc: Global) -> Result<String, AllocError>
        ensures { IfOk result (λ s. string_bytes s ≡ self) }
    {
        self.text.into_string(alloc)
    }

    /// Returns the `Display` text of a value (the Rust crate's `From<Value> for StringValue`).
    ///
    /// A value that is a text is moved without allocating.
    ///
    /// # Errors
    ///
    /// `AllocError` if out of memory. This is possible only for a value that isn't a text. The
    /// value is dropped.
    pub fn from_value(alloc: Global, value: Value) -> Result<StringValue, AllocError>
        ensures text { IfOk result (λ s. s ≡ display (value_of value)) }
        ensures without_memory { IsTrue (is_text (value_of value)) → IsOk result }
    {
        match value {
            Value::String(text) => Ok(text),
            other => {
                let mut out = String::new(alloc);
                other.append_to(&mut out)?;
                Ok(StringValue::from(out))
            }
        }
    }
}

impl PartialEq for StringValue {
    ghost eq = { pointwise nat_eq };

    ghost laws = { Prim.search (comparing, rules) };

    /// Returns `true` if both have the same text, whether owned, static or shared.
    fn eq(&self, other: &StringValue) -> bool
        ensures value { result ≡ pointwise nat_eq self.now other.now }
        ensures same { IsTrue result ↔ (self.now ≡ other.now) }
    {
        self.text == other.text
    }
}

impl Clone for StringValue {
    ghost is_clone = { λ s copy. copy ≡ s };

    /// Returns a value with the same text. Allocates only if the text is owned.
    fn clone(&self) -> Result<StringValue, AllocError> {
        Ok(StringValue {
            text: self.text.clone()?,
        })
    }
}

impl From<&'static str> for StringValue {
    ghost from_gives = { λ s k. k ≡ s.now };

    /// Creates a value from a static text.
    ///
    /// For a text made at run time, write `StringValue::from(String::from_str(alloc, name)?)`.
    fn from(value: &'static str) -> StringValue {
        StringValue {
            text: Text::from(value),
        }
    }
}

impl From<String> for StringValue {
    ghost from_gives = { λ s k. k ≡ string_bytes s };

    /// Creates a value from an owned text.
    fn from(value: String) -> StringValue {
        StringValue {
            text: Text::from(value),
        }
    }
}

impl From<RcStr> for StringValue {
    ghost from_gives = { λ s k. k ≡ rc_str_bytes s };

    /// Creates a value from a shared text.
    fn from(value: RcStr) -> StringValue {
        StringValue {
            text: Text::from(value),
        }
    }
}

impl fmt::Display for StringValue {
    ghost output = { λ k. Some k };

    /// Writes the plain text. Ignores width, fill and precision.
    fn fmt<W: fmt::Write>(&self, f: &mut fmt::Formatter<W>) -> fmt::Result {
        fmt::Display::fmt(&self.text, f)
    }
}
