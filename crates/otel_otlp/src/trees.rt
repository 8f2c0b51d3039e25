//! The values of trees, which are the bodies and attributes of log records.
ghost use Rattle.std.specs.Prelude.{◌≡◌};
ghost use Rattle.otel_base.specs.AnyValue as any;
ghost use Rattle.otel_base.specs.AnyValue.{list};
ghost use Rattle.otel_base.specs.View.{tree, trees_view, entries_view};
ghost use Rattle.otel_sdk_base.specs.Attributes as attributes;
ghost use Rattle.otel_otlp.specs.Common as spec;
ghost use Rattle.otel_otlp.specs.Tokens.{WritesValue, WritesItems};
ghost use Rattle.otel_otlp.specs.Trees.{cut, cut_trees, cut_entries, cut_parts};

use crate::common::{
    begin_pair, begin_values, boolean_value, end_values, integer_value, text_value,
};
use crate::object::put_text;
use base64::engine::general_purpose::STANDARD;
use json::Writer;
use opentelemetry::Key;
use opentelemetry::logs::AnyValue;
use otel_sdk_base::attributes::up_by;
use std::alloc::{AllocError, Global};
use std::collections::BTreeMap;

/// The greatest number of lists and maps within each other that are written.
pub(crate) const MAX_LEVELS: u32 = 29;

/// Writes the value of bytes, as their text in base64.
fn bytes_value(out: &mut Writer, alloc: Global, bytes: &[u8]) -> Result<(), AllocError>
    ensures { WritesValue result out.old out.new (spec.bytes_value bytes.now) }
{
    let text = STANDARD.encode(alloc, bytes)?;
    out.begin_object()?;
    put_text(out, "bytesValue", text.as_str())?;
    out.end_object()
}

/// Writes the value of the tree (the protocol's `AnyValue`), with the text `..` in place of each
/// list and map within `levels` others.
#[cycle(tree)]
pub(crate) fn tree_value(
    out: &mut Writer,
    alloc: Global,
    value: &AnyValue,
    levels: u32,
) -> Result<(), AllocError>
    ensures { WritesValue result out.old out.new (spec.tree_value (cut levels (tree value.now))) }
{
    match value {
        AnyValue::Int(n) => integer_value(out, *n),
        AnyValue::String(text) => text_value(out, text.as_str()),
        AnyValue::Boolean(b) => boolean_value(out, *b),
        AnyValue::Bytes(bytes) => bytes_value(out, alloc, bytes.as_slice()),
        AnyValue::ListAny(items) => trees_value(out, alloc, items, levels),
        AnyValue::Map(entries) => entries_value(out, alloc, entries, levels),
    }
}

/// Writes the value of a list of trees, or the text `..` if there is no level left.
#[cycle(tree)]
fn trees_value(
    out: &mut Writer,
    alloc: Global,
    items: &Vec<AnyValue>,
    levels: u32,
) -> Result<(), AllocError>
    ensures { WritesValue result out.old out.new
        (spec.tree_value (cut levels (list (trees_view items.now.items)))) }
{
    if levels == 0 {
        return text_value(out, "..");
    }
    begin_values(out, "arrayValue")?;
    tree_values(out, alloc, items, levels - 1)?;
    end_values(out)
}

/// Writes the value of a map of trees, or the text `..` if there is no level left.
#[cycle(tree)]
fn entries_value(
    out: &mut Writer,
    alloc: Global,
    entries: &BTreeMap<Key, AnyValue>,
    levels: u32,
) -> Result<(), AllocError>
    ensures { WritesValue result out.old out.new
        (spec.tree_value (cut levels (any.map (entries_view entries.now.entries)))) }
{
    if levels == 0 {
        return text_value(out, "..");
    }
    begin_values(out, "kvlistValue")?;
    entry_values(out, alloc, entries, levels - 1)?;
    end_values(out)
}

/// Writes the value of each tree.
#[cycle(tree)]
fn tree_values(
    out: &mut Writer,
    alloc: Global,
    items: &Vec<AnyValue>,
    levels: u32,
) -> Result<(), AllocError>
    ensures { WritesItems result out.old out.new
        (spec.tree_values (cut_trees levels (trees_view items.now.items))) }
{
    for item in items {
        tree_value(out, alloc, item, levels)?;
    }
    Ok(())
}

/// Writes each entry as a key with its value.
#[cycle(tree)]
fn entry_values(
    out: &mut Writer,
    alloc: Global,
    entries: &BTreeMap<Key, AnyValue>,
    levels: u32,
) -> Result<(), AllocError>
    ensures { WritesItems result out.old out.new
        (spec.entry_values (cut_entries levels (entries_view entries.now.entries))) }
{
    for (key, value) in entries.iter() {
        begin_pair(out, key.as_str())?;
        tree_value(out, alloc, value, levels)?;
        out.end_object()?;
    }
    Ok(())
}

/// Returns the count plus the number of lists and maps within `levels` others, which
/// [`tree_value`] cuts.
#[cycle(parts)]
pub(crate) fn add_cut_parts(count: u32, value: &AnyValue, levels: u32) -> u32
    ensures { result ≡ attributes.up_by count (cut_parts levels (tree value.now)) }
{
    match value {
        AnyValue::ListAny(items) => add_cut_items(count, items, levels),
        AnyValue::Map(entries) => add_cut_entries(count, entries, levels),
        _ => count,
    }
}

/// Returns the count plus the number of parts of a list that are cut.
#[cycle(parts)]
fn add_cut_items(count: u32, items: &Vec<AnyValue>, levels: u32) -> u32
    ensures { result ≡ attributes.up_by count
        (cut_parts levels (list (trees_view items.now.items))) }
{
    if levels == 0 {
        return up_by(count, 1);
    }
    let mut counted = count;
    for item in items {
        counted = add_cut_parts(counted, item, levels - 1);
    }
    counted
}

/// Returns the count plus the number of parts of a map that are cut.
#[cycle(parts)]
fn add_cut_entries(count: u32, entries: &BTreeMap<Key, AnyValue>, levels: u32) -> u32
    ensures { result ≡ attributes.up_by count
        (cut_parts levels (any.map (entries_view entries.now.entries))) }
{
    if levels == 0 {
        return up_by(count, 1);
    }
    let mut counted = count;
    for (_, item) in entries.iter() {
        counted = add_cut_parts(counted, item, levels - 1);
    }
    counted
}
