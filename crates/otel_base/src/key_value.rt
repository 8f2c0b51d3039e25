//! Attributes: keys with values.
ghost use Rattle.std.specs.Prelude.{◌≡◌, ◌↔◌, IsTrue};
ghost use Rattle.std.specs.Cmp.{on_per, on_equiv, partial_equiv_from_equiv};
ghost use Rattle.std.proofs.Common.{ap};
ghost use Rattle.otel_base.specs.KeyValue as spec;
ghost use Rattle.otel_base.specs.View.{value_of, attribute_of};
ghost use Rattle.otel_base.specs.KeyValueLaws.{attribute_eq-Decides, equiv_from_decides};

use crate::array::Array;
use crate::key::Key;
use crate::value::Value;
use std::alloc::AllocError;
use std::hash::{Hash, Hasher};

/// An attribute: a key and its value (the Rust crate's `KeyValue`).
///
/// ```
/// let attribute = KeyValue::new(Key::from("k"), Value::from(1));
/// ```
#[derive(Debug, Drop)]
pub struct KeyValue {
    /// The name of the attribute.
    pub key: Key,
    /// The value of the attribute.
    pub value: Value,
}

impl KeyValue {
    /// Creates an attribute from a key and a value.
    pub fn new(key: Key, value: Value) -> KeyValue
        ensures { attribute_of result ≡ (key, value_of value) }
    {
        KeyValue { key, value }
    }
}

impl Clone for KeyValue {
    ghost is_clone = { λ a copy. attribute_of copy ≡ attribute_of a };

    /// Returns a copy.
    fn clone(&self) -> Result<KeyValue, AllocError> {
        Ok(KeyValue {
            key: self.key.clone()?,
            value: self.value.clone()?,
        })
    }
}

impl PartialEq for KeyValue {
    ghost eq = { λ a b. spec.eq (attribute_of a) (attribute_of b) };

    ghost laws = { on_per attribute_of
        (partial_equiv_from_equiv (equiv_from_decides spec.eq attribute_eq-Decides)) };

    /// Returns `true` if both have the same key and the same value.
    fn eq(&self, other: &KeyValue) -> bool
        ensures value { result ≡ spec.eq (attribute_of self.now) (attribute_of other.now) }
        ensures same { IsTrue result ↔ (attribute_of self.now ≡ attribute_of other.now) }
    {
        self.key == other.key && self.value == other.value
    }
}

impl Eq for KeyValue {
    ghost laws = { on_equiv attribute_of (equiv_from_decides spec.eq attribute_eq-Decides) };
}

impl Hash for KeyValue {
    ghost hash_input = { λ a. spec.hash (attribute_of a) };

    ghost respects_eq = { λ x y h.
        ap spec.hash ((attribute_eq-Decides (attribute_of x) (attribute_of y)).0 h) };

    /// Hashes the key, then the value without its type, as the Rust crate does.
    fn hash<H: Hasher>(&self, state: &mut H) {
        self.key.hash(state);
        match &self.value {
            Value::Bool(value) => value.hash(state),
            Value::I64(value) => value.hash(state),
            Value::String(value) => value.hash(state),
            Value::Array(Array::Bool(items)) => items.hash(state),
            Value::Array(Array::I64(items)) => items.hash(state),
            Value::Array(Array::String(items)) => items.hash(state),
        }
    }
}
