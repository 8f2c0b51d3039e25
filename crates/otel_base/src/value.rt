//! The values of attributes.
ghost use Rattle.std.specs.Prelude.{◌≡◌, ◌↔◌, IfOk, IsOk, IsTrue, Some, string_bytes};
ghost use Rattle.std.specs.Rc.{rc_str_bytes};
ghost use Rattle.std.specs.Cmp.{on_per, partial_equiv_from_equiv};
ghost use Rattle.std.specs.Cow.{cow_str_bytes};
ghost use Rattle.otel_base.specs.Value as spec;
ghost use Rattle.otel_base.specs.Value.{is_text, boolean, integer, text};
ghost use Rattle.otel_base.specs.Appends.{Appends};
ghost use Rattle.otel_base.specs.View.{value_of};
ghost use Rattle.otel_base.specs.KeyValueLaws.{value_eq-Decides, equiv_from_decides};

use crate::array::{Array, append_boolean, append_integer};
use crate::string_value::StringValue;
use std::alloc::{AllocError, Global};
use std::borrow::CowStr;
use std::fmt;
use std::rc::RcStr;

/// The value of an attribute (the Rust crate's `Value`, without its floats).
///
/// Values of different types are never equal.
///
/// ```
/// let value = Value::Array(Array::from(vec![in alloc; true, false]?));
/// ```
#[derive(Debug, Drop)]
pub enum Value {
    /// A boolean.
    Bool(bool),
    /// An integer.
    I64(i64),
    /// A text.
    String(StringValue),
    /// A list of values of one type.
    Array(Array),
}

impl From<bool> for Value {
    ghost from_gives = { λ b v. value_of v ≡ boolean b };

    /// Creates a value from a boolean.
    fn from(value: bool) -> Value {
        Value::Bool(value)
    }
}

impl From<i64> for Value {
    ghost from_gives = { λ n v. value_of v ≡ integer n };

    /// Creates a value from an integer.
    fn from(value: i64) -> Value {
        Value::I64(value)
    }
}

impl From<StringValue> for Value {
    ghost from_gives = { λ s v. value_of v ≡ text s };

    /// Creates a value from a text.
    fn from(value: StringValue) -> Value {
        Value::String(value)
    }
}

impl From<&'static str> for Value {
    ghost from_gives = { λ s v. value_of v ≡ text s.now };

    /// Creates a value from a static text.
    fn from(value: &'static str) -> Value {
        Value::String(StringValue::from(value))
    }
}

impl From<String> for Value {
    ghost from_gives = { λ s v. value_of v ≡ text (string_bytes s) };

    /// Creates a value from an owned text.
    fn from(value: String) -> Value {
        Value::String(StringValue::from(value))
    }
}

impl From<RcStr> for Value {
    ghost from_gives = { λ s v. value_of v ≡ text (rc_str_bytes s) };

    /// Creates a value from a shared text.
    fn from(value: RcStr) -> Value {
        Value::String(StringValue::from(value))
    }
}

impl Value {
    /// Returns the `Display` text.
    ///
    /// A value that is a text is borrowed without allocating.
    ///
    /// # Errors
    ///
    /// `AllocError` if out of memory. This is possible only for a value that isn't a text.
    pub fn as_str(&self, alloc: Global) -> Result<CowStr<'_>, AllocError>
        ensures text { IfOk result (λ s. cow_str_bytes s ≡ spec.display (value_of self.now)) }
        ensures without_memory { IsTrue (is_text (value_of self.now)) → IsOk result }
    {
        match self {
            Value::String(text) => Ok(CowStr::Borrowed(text.as_str())),
            _ => {
                let mut out = String::new(alloc);
                self.append_to(&mut out)?;
                Ok(CowStr::Owned(out))
            }
        }
    }
}

impl Value {
    // Appends the `Display` text of the value.
    pub(crate) fn append_to(&self, out: &mut String) -> Result<(), AllocError>
        ensures { Appends result out.old (spec.display (value_of self.now)) out.new }
    {
        match self {
            Value::Bool(value) => append_boolean(*value, out),
            Value::I64(value) => append_integer(*value, out),
            Value::String(value) => out.push_str(value.as_str()),
            Value::Array(value) => value.append_to(out),
        }
    }
}

impl Clone for Value {
    ghost is_clone = { λ a copy. value_of copy ≡ value_of a };

    /// Returns a copy.
    fn clone(&self) -> Result<Value, AllocError> {
        match self {
            Value::Bool(value) => Ok(Value::Bool(*value)),
            Value::I64(value) => Ok(Value::I64(*value)),
            Value::String(value) => Ok(Value::String(value.clone()?)),
            Value::Array(value) => Ok(Value::Array(value.clone()?)),
        }
    }
}

impl PartialEq for Value {
    ghost eq = { λ a b. spec.eq (value_of a) (value_of b) };

    ghost laws = { on_per value_of (partial_equiv_from_equiv
        (equiv_from_decides spec.eq value_eq-Decides)) };

    /// Returns `true` if both have the same type and content.
    fn eq(&self, other: &Value) -> bool
        ensures value { result ≡ spec.eq (value_of self.now) (value_of other.now) }
        ensures same { IsTrue result ↔ (value_of self.now ≡ value_of other.now) }
    {
        match (self, other) {
            (Value::Bool(a), Value::Bool(b)) => a == b,
            (Value::I64(a), Value::I64(b)) => a == b,
            (Value::String(a), Value::String(b)) => a == b,
            (Value::Array(a), Value::Array(b)) => *a == *b,
            _ => false,
        }
    }
}

impl fmt::Display for Value {
    ghost output = { λ a. Some (spec.display (value_of a)) };

    /// Writes `true` or `false`, the decimal number, the raw text, or the array.
    fn fmt<W: fmt::Write>(&self, f: &mut fmt::Formatter<W>) -> fmt::Result {
        match self {
            Value::Bool(value) => write!(f, "{value}"),
            Value::I64(value) => write!(f, "{value}"),
            Value::String(value) => f.write_str(value.as_str()),
            Value::Array(value) => write!(f, "{value}"),
        }
    }
}
