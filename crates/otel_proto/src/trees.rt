//! The messages of trees of values, which are the bodies and attributes of log records.
ghost use Rattle.std.specs.Prelude.{◌≡◌, IfOk, Some};
ghost use Rattle.std.specs.List.{All};
ghost use Rattle.otel_base.specs.AnyValue as any;
ghost use Rattle.otel_base.specs.View.{tree, trees_view, entries_view};
ghost use Rattle.otel_proto.specs.Common as common;
ghost use Rattle.otel_proto.specs.Laws.{IsField};
ghost use Rattle.otel_proto.specs.Output.{Puts};
ghost use Rattle.otel_proto.specs.Trees as spec;
ghost use Rattle.otel_proto.specs.Wire.{read};
ghost use Rattle.otel_proto.specs.Written.{bytes_of};

use crate::common::{boolean_value, integer_value, text_value};
use crate::fields::{put_bytes, put_bytes_unless_empty, put_head};
use crate::output::Output;
use otel_base::{AnyValue, Key};
use std::alloc::{AllocError, Global};
use std::collections::BTreeMap;

/// The maximum number of lists and maps within each other that are written, as in the JSON form.
/// Readers take 100 messages within each other, and a map within a map is three.
pub const MAX_LEVELS: u32 = 29;

/// Puts the value of the tree (the protocol's `AnyValue`), with the string `..` for each list and
/// map within `levels` others.
#[cycle(tree)]
fn tree_value(out: &mut Output, value: &AnyValue, levels: u32) -> Result<(), AllocError>
    ensures { Puts result out.old out.new (spec.tree_value (spec.cut levels (tree value.now))) }
{
    match value {
        AnyValue::Int(n) => integer_value(out, *n),
        AnyValue::String(text) => text_value(out, text.as_str()),
        AnyValue::Boolean(b) => boolean_value(out, *b),
        AnyValue::Bytes(bytes) => put_bytes(out, 7, bytes.as_slice()),
        AnyValue::ListAny(items) => list_value(out, items, levels),
        AnyValue::Map(entries) => map_value(out, entries, levels),
    }
}

/// Puts the value of a list, or the string `..` if there is no level left.
#[cycle(tree)]
fn list_value(out: &mut Output, items: &Vec<AnyValue>, levels: u32) -> Result<(), AllocError>
    ensures { Puts result out.old out.new
        (spec.tree_value (spec.cut levels (any.list (trees_view items.now.items)))) }
{
    if levels == 0 {
        return text_value(out, "..");
    }
    let end = out.count();
    list_values(out, items, levels - 1)?;
    put_head(out, 5, end)
}

/// Puts the value of a map, or the string `..` if there is no level left.
#[cycle(tree)]
fn map_value(
    out: &mut Output,
    entries: &BTreeMap<Key, AnyValue>,
    levels: u32,
) -> Result<(), AllocError>
    ensures { Puts result out.old out.new
        (spec.tree_value (spec.cut levels (any.map (entries_view entries.now.entries)))) }
{
    if levels == 0 {
        return text_value(out, "..");
    }
    let end = out.count();
    map_values(out, entries, levels - 1)?;
    put_head(out, 6, end)
}

/// Puts the value of each tree (the protocol's `ArrayValue`).
#[cycle(tree)]
fn list_values(out: &mut Output, items: &Vec<AnyValue>, levels: u32) -> Result<(), AllocError>
    ensures { Puts result out.old out.new
        (spec.list_values (spec.cut_trees levels (trees_view items.now.items))) }
{
    for item in items.iter().rev() {
        let end = out.count();
        tree_value(out, item, levels)?;
        put_head(out, 1, end)?;
    }
    Ok(())
}

/// Puts each entry as a key with its value (the protocol's `KeyValueList`).
#[cycle(tree)]
fn map_values(
    out: &mut Output,
    entries: &BTreeMap<Key, AnyValue>,
    levels: u32,
) -> Result<(), AllocError>
    ensures { Puts result out.old out.new
        (spec.map_values (spec.cut_entries levels (entries_view entries.now.entries))) }
{
    for (key, value) in entries.iter().rev() {
        let end = out.count();
        put_pair(out, key, value, levels)?;
        put_head(out, 1, end)?;
    }
    Ok(())
}

/// Puts a key with its value (the protocol's `KeyValue`).
#[cycle(tree)]
fn put_pair(out: &mut Output, key: &Key, value: &AnyValue, levels: u32) -> Result<(), AllocError>
    ensures { Puts result out.old out.new
        (common.pair key.now (spec.tree_value (spec.cut levels (tree value.now)))) }
{
    let end = out.count();
    tree_value(out, value, levels)?;
    put_head(out, 2, end)?;
    put_bytes_unless_empty(out, 1, key.as_str().as_bytes())
}

/// Puts the fields of a value (the protocol's `AnyValue`). Each list or map inside 29 others is the
/// string `..`.
///
/// # Errors
///
/// `AllocError` if the bytes don't fit the output, which may then hold some of them.
pub fn put_value(out: &mut Output, value: &AnyValue) -> Result<(), AllocError>
    ensures { Puts result out.old out.new (spec.cut_value (tree value.now)) }
{
    tree_value(out, value, MAX_LEVELS)
}

/// Puts the fields of a key with its value (the protocol's `KeyValue`). Each list or map inside 29
/// others is the string `..`.
///
/// # Errors
///
/// `AllocError` if the bytes don't fit the output, which may then hold some of them.
pub fn put_entry(out: &mut Output, key: &Key, value: &AnyValue) -> Result<(), AllocError>
    ensures { Puts result out.old out.new
        (common.pair key.now (spec.cut_value (tree value.now))) }
{
    put_pair(out, key, value, MAX_LEVELS)
}

/// Returns a value as the bytes of the protocol's `AnyValue`.
///
/// Each list or map inside 29 others is the string `..`. The bytes are counted first, and their
/// buffer is allocated once.
///
/// # Errors
///
/// `AllocError` if out of memory.
pub fn any_value_bytes(alloc: Global, value: &AnyValue) -> Result<Vec<u8>, AllocError>
    ensures bytes { IfOk result (λ v.
        v.items ≡ bytes_of (spec.cut_value (tree value.now))) }
    // An integer of a value has 64 bits, so that it is a field.
    ensures reads { IfOk result (λ v.
        All IsField (spec.cut_value (tree value.now))
        → read v.items ≡ Some (spec.cut_value (tree value.now))) }
{
    let mut counted = Output::counting();
    tree_value(&mut counted, value, MAX_LEVELS)?;
    let mut out = Output::with_size(alloc, counted.count())?;
    tree_value(&mut out, value, MAX_LEVELS)?;
    out.into_bytes()
}
