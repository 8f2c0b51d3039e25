//! Truncates the texts and bytes in trees.
ghost use Rattle.std.specs.Prelude.{◌≡◌, IfOk, take, map};
ghost use Rattle.otel_base.specs.View.{tree, trees_view, entries_view, pairs_view};
ghost use Rattle.otel_sdk_logs.specs.Cuts as spec;

use opentelemetry::Key;
use opentelemetry::logs::AnyValue;
use otel_sdk_base::cutting::cut_text;
use std::alloc::{AllocError, Global};
use std::collections::BTreeMap;
use std::default::Emptied;

/// Returns the first `length` bytes.
fn first_bytes(bytes: &[u8], length: u32) -> &[u8]
    ensures { result.now ≡ take length bytes.now }
{
    if bytes.len() <= length as usize {
        return bytes;
    }
    &bytes[..length as usize]
}

/// Returns a copy of the tree with each text truncated to `length` characters, and each list of
/// bytes to `length` bytes.
#[cycle(cut)]
fn cut_tree(alloc: Global, length: u32, value: &AnyValue) -> Result<AnyValue, AllocError>
    ensures { IfOk result (λ v. tree v ≡ spec.cut_tree length (tree value.now)) }
{
    match value {
        AnyValue::Int(n) => Ok(AnyValue::Int(*n)),
        AnyValue::String(text) => Ok(AnyValue::String(cut_text(alloc, length, text.clone()?)?)),
        AnyValue::Boolean(b) => Ok(AnyValue::Boolean(*b)),
        AnyValue::Bytes(bytes) => AnyValue::bytes(alloc, first_bytes(bytes.as_slice(), length)),
        AnyValue::ListAny(items) => {
            let copies = cut_items(alloc, length, items)?;
            Ok(AnyValue::ListAny(Box::new(alloc, copies)?))
        }
        AnyValue::Map(entries) => {
            let copies = cut_entries(alloc, length, entries)?;
            Ok(AnyValue::Map(Box::new(alloc, copies)?))
        }
    }
}

#[cycle(cut)]
fn cut_items(alloc: Global, length: u32, items: &Vec<AnyValue>) -> Result<Vec<AnyValue>, AllocError>
    ensures { IfOk result (λ v.
        trees_view v.items ≡ spec.cut_trees length (trees_view items.now.items)) }
{
    let mut copies = Vec::with_capacity(alloc, items.len())?;
    for item in items {
        copies.push(cut_tree(alloc, length, item)?)?;
    }
    Ok(copies)
}

#[cycle(cut)]
fn cut_entries(
    alloc: Global,
    length: u32,
    entries: &BTreeMap<Key, AnyValue>,
) -> Result<BTreeMap<Key, AnyValue>, AllocError>
    ensures { IfOk result (λ m. entries_view m.entries
        ≡ spec.cut_entries length (entries_view entries.now.entries)) }
{
    let mut copies = BTreeMap::emptied(entries)?;
    for (key, value) in entries.iter() {
        let name = key.clone()?;
        drop(copies.insert(name, cut_tree(alloc, length, value)?)?);
    }
    Ok(copies)
}

/// Returns the value truncated, or unchanged if there is no `length`. Without a `length`, and for a
/// text that isn't longer, doesn't allocate.
///
/// # Errors
///
/// `AllocError` if out of memory. The value is dropped.
pub(crate) fn cut(
    alloc: Global,
    length: Option<u32>,
    value: AnyValue,
) -> Result<AnyValue, AllocError>
    ensures { IfOk result (λ v. tree v ≡ spec.cut_value length (tree value)) }
{
    match (length, value) {
        (None, value) => Ok(value),
        (Some(length), AnyValue::String(text)) => {
            Ok(AnyValue::String(cut_text(alloc, length, text)?))
        }
        (Some(length), value) => cut_tree(alloc, length, &value),
    }
}

/// Returns the attributes with each value truncated, or unchanged if there is no `length`.
///
/// # Errors
///
/// `AllocError` if out of memory. The attributes are dropped.
pub(crate) fn cut_all(
    alloc: Global,
    length: Option<u32>,
    given: Vec<(Key, AnyValue)>,
) -> Result<Vec<(Key, AnyValue)>, AllocError>
    ensures { IfOk result (λ kept.
        pairs_view kept.items ≡ map (spec.cut length) (pairs_view given.items)) }
{
    if length.is_none() {
        return Ok(given);
    }
    let mut kept = Vec::with_capacity(alloc, given.len())?;
    for (key, value) in given {
        kept.push((key, cut(alloc, length, value)?))?;
    }
    Ok(kept)
}
