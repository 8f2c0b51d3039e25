//! Value trees: the bodies and attributes of log records, and the entries of contexts.
ghost use Rattle.std.specs.Prelude.{◌≡◌, ◌↔◌, IfOk, IsTrue, string_bytes, pos};
ghost use Rattle.std.specs.Cmp.{on_per, partial_equiv_from_equiv};
ghost use Rattle.otel_base.specs.AnyValue as spec;
ghost use Rattle.otel_base.specs.AnyValue.{integer, text, boolean, bytes, list, trees_eq};
ghost use Rattle.otel_base.specs.AnyValue.{entries_eq, IsMapOf};
ghost use Rattle.otel_base.specs.AnyValueLaws.{eq-equiv};
ghost use Rattle.otel_base.specs.View.{tree, trees_view, entries_view, pairs_view};

use crate::key::Key;
use crate::string_value::StringValue;
use std::alloc::{AllocError, Global};
use std::collections::BTreeMap;
use std::default::Emptied;

/// A tree of values (the Rust crate's `AnyValue`, without its floats).
///
/// Trees are equal if they have the same shape and content. Values of different variants are never
/// equal; maps are equal if they have equal trees under the same keys.
///
/// `AnyValue::from("text")` and `AnyValue::from(1)` don't allocate; lists and maps do.
/// See `otel_examples::api::log_bridge`, which uses a tree as the body of a record.
#[derive(Debug, Drop)]
pub enum AnyValue {
    /// An integer.
    Int(i64),
    /// A text.
    String(StringValue),
    /// A boolean.
    Boolean(bool),
    /// A list of bytes.
    Bytes(Box<Vec<u8>>),
    /// A list of trees.
    ListAny(Box<Vec<AnyValue>>),
    /// A map from texts to trees, in the order of the keys.
    Map(Box<BTreeMap<Key, AnyValue>>),
}

impl AnyValue {
    /// Creates a list of the given trees, in order (the Rust crate's `FromIterator<T> for
    /// AnyValue`).
    ///
    /// # Errors
    ///
    /// `AllocError` if out of memory. The trees are dropped.
    pub fn list(alloc: Global, values: Vec<AnyValue>) -> Result<AnyValue, AllocError>
        ensures { IfOk result (λ v. tree v ≡ list (trees_view values.items)) }
    {
        Ok(AnyValue::ListAny(Box::new(alloc, values)?))
    }

    /// Creates a map from the pairs; the last value of a key wins (the Rust crate's
    /// `FromIterator<(K, V)> for AnyValue`).
    ///
    /// # Errors
    ///
    /// `AllocError` if out of memory. The pairs are dropped.
    pub fn map(alloc: Global, pairs: Vec<(Key, AnyValue)>) -> Result<AnyValue, AllocError>
        ensures { IfOk result (λ v. IsMapOf (pairs_view pairs.items) (tree v)) }
    {
        let mut entries = BTreeMap::new(alloc);
        for (key, value) in pairs {
            drop(entries.insert(key, value)?);
        }
        Ok(AnyValue::Map(Box::new(alloc, entries)?))
    }

    /// Creates a tree with a copy of the given bytes (the Rust crate's `From<&[u8]> for AnyValue`).
    ///
    /// # Errors
    ///
    /// `AllocError` if out of memory.
    pub fn bytes(alloc: Global, value: &[u8]) -> Result<AnyValue, AllocError>
        ensures { IfOk result (λ v. tree v ≡ bytes value.now) }
    {
        let items = Vec::from_slice(alloc, value)?;
        Ok(AnyValue::Bytes(Box::new(alloc, items)?))
    }
}

impl Clone for AnyValue {
    ghost is_clone = { λ v w. tree w ≡ tree v };

    /// Returns a copy, made in one traversal.
    ///
    /// # Errors
    ///
    /// `AllocError` if out of memory. The tree is unchanged.
    fn clone(&self) -> Result<AnyValue, AllocError> {
        copy(self)
    }
}

#[cycle(copy)]
fn copy(value: &AnyValue) -> Result<AnyValue, AllocError>
    ensures { IfOk result (λ v. tree v ≡ tree value.now) }
{
    match value {
        AnyValue::Int(n) => Ok(AnyValue::Int(*n)),
        AnyValue::String(text) => Ok(AnyValue::String(text.clone()?)),
        AnyValue::Boolean(b) => Ok(AnyValue::Boolean(*b)),
        AnyValue::Bytes(items) => AnyValue::bytes(*Box::allocator(items), items.as_slice()),
        AnyValue::ListAny(items) => {
            let copies = copy_items(items)?;
            Ok(AnyValue::ListAny(Box::new(*Box::allocator(items), copies)?))
        }
        AnyValue::Map(entries) => {
            let copies = copy_entries(entries)?;
            Ok(AnyValue::Map(Box::new(*Box::allocator(entries), copies)?))
        }
    }
}

#[cycle(copy)]
fn copy_items(items: &Vec<AnyValue>) -> Result<Vec<AnyValue>, AllocError>
    ensures { IfOk result (λ v. trees_view v.items ≡ trees_view items.now.items) }
{
    let mut copies = Vec::with_capacity(*items.allocator(), items.len())?;
    for item in items {
        copies.push(copy(item)?)?;
    }
    Ok(copies)
}

#[cycle(copy)]
fn copy_entries(entries: &BTreeMap<Key, AnyValue>) -> Result<BTreeMap<Key, AnyValue>, AllocError>
    ensures { IfOk result (λ m. entries_view m.entries ≡ entries_view entries.now.entries) }
{
    let mut copies = BTreeMap::emptied(entries)?;
    for (key, value) in entries.iter() {
        let name = key.clone()?;
        drop(copies.insert(name, copy(value)?)?);
    }
    Ok(copies)
}

impl PartialEq for AnyValue {
    ghost eq = { λ a b. spec.eq (tree a) (tree b) };

    ghost laws = { on_per tree (partial_equiv_from_equiv eq-equiv) };

    /// Returns `true` if both are the same tree. Doesn't allocate.
    fn eq(&self, other: &AnyValue) -> bool
        ensures value { result ≡ spec.eq (tree self.now) (tree other.now) }
        ensures same { IsTrue result ↔ (tree self.now ≡ tree other.now) }
    {
        same(self, other)
    }
}

#[cycle(same)]
fn same(a: &AnyValue, b: &AnyValue) -> bool
    ensures { result ≡ spec.eq (tree a.now) (tree b.now) }
{
    match (a, b) {
        (AnyValue::Int(x), AnyValue::Int(y)) => x == y,
        (AnyValue::String(x), AnyValue::String(y)) => x == y,
        (AnyValue::Boolean(x), AnyValue::Boolean(y)) => x == y,
        (AnyValue::Bytes(x), AnyValue::Bytes(y)) => x.as_slice() == y.as_slice(),
        (AnyValue::ListAny(x), AnyValue::ListAny(y)) => same_items(x, y),
        (AnyValue::Map(x), AnyValue::Map(y)) => same_entries(x, y),
        _ => false,
    }
}

#[cycle(same)]
fn same_items(a: &Vec<AnyValue>, b: &Vec<AnyValue>) -> bool
    ensures { result ≡ trees_eq (trees_view a.now.items) (trees_view b.now.items) }
{
    let mut others = b.iter();
    for x in a {
        let Some(y) = others.next() else {
            return false;
        };
        if !same(x, y) {
            return false;
        }
    }
    others.next().is_none()
}

#[cycle(same)]
fn same_entries(a: &BTreeMap<Key, AnyValue>, b: &BTreeMap<Key, AnyValue>) -> bool
    ensures { result ≡ entries_eq (entries_view a.now.entries) (entries_view b.now.entries) }
{
    let mut others = b.iter();
    for (j, x) in a.iter() {
        let Some((k, y)) = others.next() else {
            return false;
        };
        if j != k || !same(x, y) {
            return false;
        }
    }
    others.next().is_none()
}

impl From<i8> for AnyValue {
    ghost from_gives = { λ n v. tree v ≡ integer n };

    /// Returns the tree of an integer.
    fn from(value: i8) -> AnyValue {
        AnyValue::Int(i64::from(value))
    }
}

impl From<i16> for AnyValue {
    ghost from_gives = { λ n v. tree v ≡ integer n };

    /// Returns the tree of an integer.
    fn from(value: i16) -> AnyValue {
        AnyValue::Int(i64::from(value))
    }
}

impl From<i32> for AnyValue {
    ghost from_gives = { λ n v. tree v ≡ integer n };

    /// Returns the tree of an integer.
    fn from(value: i32) -> AnyValue {
        AnyValue::Int(i64::from(value))
    }
}

impl From<i64> for AnyValue {
    ghost from_gives = { λ n v. tree v ≡ integer n };

    /// Returns the tree of an integer.
    fn from(value: i64) -> AnyValue {
        AnyValue::Int(value)
    }
}

impl From<u8> for AnyValue {
    ghost from_gives = { λ n v. tree v ≡ integer (pos n) };

    /// Returns the tree of an integer.
    fn from(value: u8) -> AnyValue {
        AnyValue::Int(i64::from(value))
    }
}

impl From<u16> for AnyValue {
    ghost from_gives = { λ n v. tree v ≡ integer (pos n) };

    /// Returns the tree of an integer.
    fn from(value: u16) -> AnyValue {
        AnyValue::Int(i64::from(value))
    }
}

impl From<u32> for AnyValue {
    ghost from_gives = { λ n v. tree v ≡ integer (pos n) };

    /// Returns the tree of an integer.
    fn from(value: u32) -> AnyValue {
        AnyValue::Int(i64::from(value))
    }
}

impl From<bool> for AnyValue {
    ghost from_gives = { λ b v. tree v ≡ boolean b };

    /// Returns the tree of a boolean.
    fn from(value: bool) -> AnyValue {
        AnyValue::Boolean(value)
    }
}

impl From<StringValue> for AnyValue {
    ghost from_gives = { λ s v. tree v ≡ text s };

    /// Returns the tree of a text.
    fn from(value: StringValue) -> AnyValue {
        AnyValue::String(value)
    }
}

impl From<String> for AnyValue {
    ghost from_gives = { λ s v. tree v ≡ text (string_bytes s) };

    /// Returns the tree of an owned text.
    fn from(value: String) -> AnyValue {
        AnyValue::String(StringValue::from(value))
    }
}

impl From<&'static str> for AnyValue {
    ghost from_gives = { λ s v. tree v ≡ text s.now };

    /// Returns the tree of a static text.
    fn from(value: &'static str) -> AnyValue {
        AnyValue::String(StringValue::from(value))
    }
}
