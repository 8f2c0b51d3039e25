//! Value trees as texts.

use opentelemetry::Key;
use opentelemetry::logs::AnyValue;
use std::alloc::{AllocError, Global};
use std::collections::BTreeMap;

/// Appends the tree: texts as they are, bytes in hexadecimal digits, lists in `[` and `]`, and maps
/// in `{` and `}`.
///
/// # Errors
///
/// `AllocError` if out of memory.
#[cycle(tree)]
pub fn push_tree(alloc: Global, text: &mut String, tree: &AnyValue) -> Result<(), AllocError> {
    match tree {
        AnyValue::Int(number) => text.push_str(format!(in alloc; "{number}")?.as_str()),
        AnyValue::String(shown) => text.push_str(shown.as_str()),
        AnyValue::Boolean(truth) => text.push_str(if *truth { "true" } else { "false" }),
        AnyValue::Bytes(bytes) => { text.push_str(hex::encode(alloc, bytes.as_slice())?.as_str()) }
        AnyValue::ListAny(items) => push_items(alloc, text, items),
        AnyValue::Map(entries) => push_entries(alloc, text, entries),
    }
}

/// Returns what is written in front of an item: a comma, unless it is the first.
fn separator(is_first: bool) -> &'static str {
    if is_first { "" } else { ", " }
}

/// Appends a list.
#[cycle(tree)]
fn push_items(alloc: Global, text: &mut String, items: &Vec<AnyValue>) -> Result<(), AllocError> {
    text.push_str("[")?;
    let mut is_first = true;
    for item in items {
        text.push_str(separator(is_first))?;
        push_tree(alloc, text, item)?;
        is_first = false;
    }
    text.push_str("]")
}

/// Appends a map.
#[cycle(tree)]
fn push_entries(
    alloc: Global,
    text: &mut String,
    entries: &BTreeMap<Key, AnyValue>,
) -> Result<(), AllocError> {
    text.push_str("{")?;
    let mut is_first = true;
    for (key, item) in entries.iter() {
        text.push_str(separator(is_first))?;
        text.push_str(key.as_str())?;
        text.push_str(": ")?;
        push_tree(alloc, text, item)?;
        is_first = false;
    }
    text.push_str("}")
}
