//! The parts of trees that are cut: the lists and maps within the maximum number of others.
ghost use Rattle.std.specs.Prelude.{◌≡◌, option_map};
ghost use Rattle.otel_base.specs.AnyValue as any;
ghost use Rattle.otel_base.specs.View.{tree, trees_view, entries_view, pairs_view};
ghost use Rattle.otel_sdk_base.specs.Attributes.{up_by};
ghost use Rattle.otel_proto_batches.specs.Cuts.{cut_parts, cut_parts_of_attributes};
ghost use Rattle.otel_proto_batches.specs.Cuts.{cut_parts_of_body};

use opentelemetry::Key;
use opentelemetry::logs::AnyValue;
use otel_proto::MAX_LEVELS;
use otel_sdk_base::attributes::up_by;
use std::collections::BTreeMap;

/// Returns the count plus the number of lists and maps within `levels` others.
#[cycle(parts)]
fn add_cut_parts(count: u32, value: &AnyValue, levels: u32) -> u32
    ensures { result ≡ up_by count (cut_parts levels (tree value.now)) }
{
    match value {
        AnyValue::ListAny(items) => add_cut_items(count, items, levels),
        AnyValue::Map(entries) => add_cut_entries(count, entries, levels),
        _ => count,
    }
}

/// Returns the count plus the number of parts of a list that are cut.
#[cycle(parts)]
fn add_cut_items(count: u32, items: &Vec<AnyValue>, levels: u32) -> u32
    ensures { result ≡ up_by count
        (cut_parts levels (any.list (trees_view items.now.items))) }
{
    if levels == 0 {
        return up_by(count, 1);
    }
    let mut counted = count;
    for item in items {
        counted = add_cut_parts(counted, item, levels - 1);
    }
    counted
}

/// Returns the count plus the number of parts of a map that are cut.
#[cycle(parts)]
fn add_cut_entries(count: u32, entries: &BTreeMap<Key, AnyValue>, levels: u32) -> u32
    ensures { result ≡ up_by count
        (cut_parts levels (any.map (entries_view entries.now.entries))) }
{
    if levels == 0 {
        return up_by(count, 1);
    }
    let mut counted = count;
    for (_, item) in entries.iter() {
        counted = add_cut_parts(counted, item, levels - 1);
    }
    counted
}

/// Returns the count plus the number of parts of the attributes that are cut.
pub(crate) fn add_cut_parts_of(count: u32, attributes: &[(Key, AnyValue)]) -> u32
    ensures { result ≡ up_by count
        (cut_parts_of_attributes (pairs_view attributes.now)) }
{
    let mut counted = count;
    for attribute in attributes {
        counted = add_cut_parts(counted, &attribute.1, MAX_LEVELS);
    }
    counted
}

/// Returns the count plus the number of parts of the body that are cut.
pub(crate) fn add_cut_parts_of_body(count: u32, body: &Option<AnyValue>) -> u32
    ensures { result ≡ up_by count (cut_parts_of_body (option_map tree body.now)) }
{
    match body {
        Some(body) => add_cut_parts(count, body, MAX_LEVELS),
        None => count,
    }
}
