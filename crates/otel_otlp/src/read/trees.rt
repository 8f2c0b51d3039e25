//! Reads value trees, which are the bodies and attributes of log records.
ghost use Rattle.std.specs.Prelude.{◌≡◌, List, Option, IfOk, IfErr, map, option_map, codes};
ghost use Rattle.std.specs.List.{AllZip};
ghost use Rattle.serde_json.specs.View.{view};
ghost use Rattle.otel_base.specs.AnyValue.{Tree};
ghost use Rattle.otel_base.specs.View.{tree, pairs_view};
ghost use Rattle.otel_sdk_logs.specs.Attributes.{Attribute};
ghost use Rattle.otel_otlp.specs.ReadMembers.{IsRefused, AreIn};
ghost use Rattle.otel_otlp.specs.ReadErrors.{NamesPlace};
ghost use Rattle.otel_otlp.specs.ReadTrees as spec;

use crate::read::error::{Fault, unexpected};
use crate::read::members::{check_object, items, member, text, to_text};
use crate::read::messages::Message;
use crate::read::values::has;
use base64::DecodeAllocError;
use base64::engine::general_purpose::{STANDARD_PAD_INDIFFERENT, URL_SAFE_PAD_INDIFFERENT};
use opentelemetry::Key;
use opentelemetry::logs::AnyValue;
use serde_json::Value as Json;
use std::alloc::{AllocError, Global};

/// Reads bytes in base64 with the alphabet for URLs, with or without padding.
fn url_safe_bytes_of(alloc: Global, text: &str) -> Result<Option<Vec<u8>>, AllocError>
    ensures { IfOk result (λ bytes.
        option_map (λ v. v.items) bytes ≡ spec.url_safe_bytes_of text.now) }
{
    match URL_SAFE_PAD_INDIFFERENT.decode(alloc, text.as_bytes()) {
        Ok(bytes) => Ok(Some(bytes)),
        Err(DecodeAllocError::OutOfMemory) => Err(AllocError),
        Err(DecodeAllocError::DecodeError(_)) => Ok(None),
    }
}

/// Reads bytes in base64 of either alphabet, with or without padding.
fn bytes_of(alloc: Global, text: &str) -> Result<Option<Vec<u8>>, AllocError>
    ensures { IfOk result (λ bytes. option_map (λ v. v.items) bytes ≡ spec.bytes_of text.now) }
{
    match STANDARD_PAD_INDIFFERENT.decode(alloc, text.as_bytes()) {
        Ok(bytes) => Ok(Some(bytes)),
        Err(DecodeAllocError::OutOfMemory) => Err(AllocError),
        Err(DecodeAllocError::DecodeError(_)) => url_safe_bytes_of(alloc, text),
    }
}

/// Reads bytes, which are a text in base64.
fn read_bytes(alloc: Global, value: &Json) -> Result<AnyValue, Fault>
    ensures ok { IfOk result (λ t. spec.AreBytes (view value.now) (tree t)) }
    ensures err { IfErr result (λ e. IsRefused e
        → (t : Tree) → ¬ spec.AreBytes (view value.now) t) }
    ensures place { IfErr result (NamesPlace (codes "bytesValue") (codes "bytes in base64")) }
{
    let Some(text) = value.as_str() else {
        return Err(unexpected(alloc, "bytesValue", "bytes in base64"));
    };
    match bytes_of(alloc, text)? {
        Some(bytes) => Ok(AnyValue::bytes(alloc, bytes.as_slice())?),
        None => Err(unexpected(alloc, "bytesValue", "bytes in base64")),
    }
}

/// Reads a float, of which a tree has the text.
fn read_float(alloc: Global, value: &Json) -> Result<AnyValue, Fault>
    ensures ok { IfOk result (λ t. spec.IsFloat (view value.now) (tree t)) }
    ensures err { IfErr result (λ e. IsRefused e
        → (t : Tree) → ¬ spec.IsFloat (view value.now) t) }
    ensures place { IfErr result (NamesPlace (codes "doubleValue") (codes "a number")) }
{
    match value {
        Json::Number(_) => Ok(AnyValue::from(to_text(alloc, value)?)),
        Json::String(text) => Ok(AnyValue::from(String::from_str(alloc, text.as_str())?)),
        _ => Err(unexpected(alloc, "doubleValue", "a number")),
    }
}

/// Reads bytes, a float or a text. The empty value is read as the empty text.
fn read_text(alloc: Global, value: &Json) -> Result<AnyValue, Fault>
    ensures ok { IfOk result (λ t. spec.IsTextLike (view value.now) (tree t)) }
    ensures err { IfErr result (λ e. IsRefused e
        → (t : Tree) → ¬ spec.IsTextLike (view value.now) t) }
{
    if let Some(bytes) = member(value, "bytesValue") {
        return read_bytes(alloc, bytes);
    }
    if let Some(float) = member(value, "doubleValue") {
        return read_float(alloc, float);
    }
    Ok(AnyValue::from(text(alloc, value, "stringValue")?))
}

/// Reads a value that is neither a list nor a map.
fn read_leaf(alloc: Global, value: &Json) -> Result<AnyValue, Fault>
    ensures ok { IfOk result (λ t. spec.IsLeaf (view value.now) (tree t)) }
    ensures err { IfErr result (λ e. IsRefused e
        → (t : Tree) → ¬ spec.IsLeaf (view value.now) t) }
{
    if has(value, "boolValue") {
        return Ok(AnyValue::from(bool::read(alloc, value)?));
    }
    if has(value, "intValue") {
        return Ok(AnyValue::from(i64::read(alloc, value)?));
    }
    read_text(alloc, value)
}

/// Reads a value (the protocol's `AnyValue`). Of a list or map within `levels` others, the text of
/// its JSON is read.
#[cycle(tree)]
pub(crate) fn read_tree(alloc: Global, value: &Json, levels: u32) -> Result<AnyValue, Fault>
    ensures ok { IfOk result (λ t. spec.IsTree levels (view value.now) (tree t)) }
    ensures err { IfErr result (λ e. IsRefused e
        → (t : Tree) → ¬ spec.IsTree levels (view value.now) t) }
{
    check_object(alloc, value)?;
    if let Some(list) = member(value, "arrayValue") {
        return match read_list(alloc, list, levels) {
            Ok(tree) => Ok(tree),
            Err(error) => Err(error.within(alloc, "arrayValue")),
        };
    }
    if let Some(map) = member(value, "kvlistValue") {
        return match read_map(alloc, map, levels) {
            Ok(tree) => Ok(tree),
            Err(error) => Err(error.within(alloc, "kvlistValue")),
        };
    }
    read_leaf(alloc, value)
}

/// Reads a list (the protocol's `ArrayValue`).
#[cycle(tree)]
fn read_list(alloc: Global, list: &Json, levels: u32) -> Result<AnyValue, Fault>
    ensures ok { IfOk result (λ t. spec.IsList levels (view list.now) (tree t)) }
    ensures err { IfErr result (λ e. IsRefused e
        → (t : Tree) → ¬ spec.IsList levels (view list.now) t) }
{
    check_object(alloc, list)?;
    if levels == 0 {
        return Ok(AnyValue::from(to_text(alloc, list)?));
    }
    let values = items(alloc, list, "values")?;
    match read_trees(alloc, values, levels - 1) {
        Ok(trees) => Ok(AnyValue::list(alloc, trees)?),
        Err(error) => Err(error.within(alloc, "values")),
    }
}

/// Reads each of the values.
#[cycle(tree)]
fn read_trees(alloc: Global, values: &[Json], levels: u32) -> Result<Vec<AnyValue>, Fault>
    ensures ok { IfOk result (λ read.
        AllZip (spec.IsTree levels) (map view values.now) (map tree read.items)) }
    ensures err { IfErr result (λ e. IsRefused e
        → (ts : List Tree) → ¬ AllZip (spec.IsTree levels) (map view values.now) ts) }
{
    let mut read = Vec::with_capacity(alloc, values.len())?;
    for (index, value) in values.iter().enumerate() {
        match read_tree(alloc, value, levels) {
            Ok(tree) => read.push(tree)?,
            Err(error) => return Err(error.in_item(alloc, index)),
        }
    }
    Ok(read)
}

/// Reads a map (the protocol's `KeyValueList`). Of a key's values, the last is read.
#[cycle(tree)]
fn read_map(alloc: Global, list: &Json, levels: u32) -> Result<AnyValue, Fault>
    ensures ok { IfOk result (λ t. spec.IsMap levels (view list.now) (tree t)) }
    ensures err { IfErr result (λ e. IsRefused e
        → (t : Tree) → ¬ spec.IsMap levels (view list.now) t) }
{
    check_object(alloc, list)?;
    if levels == 0 {
        return Ok(AnyValue::from(to_text(alloc, list)?));
    }
    let pairs = pairs_in(alloc, list, "values", levels - 1)?;
    Ok(AnyValue::map(alloc, pairs)?)
}

/// Reads the pairs of the list with this name, none if it is absent.
#[cycle(tree)]
fn pairs_in(
    alloc: Global,
    object: &Json,
    name: &str,
    levels: u32,
) -> Result<Vec<(Key, AnyValue)>, Fault>
    ensures ok { IfOk result (λ read.
        AreIn (spec.IsPair levels) name.now (view object.now) (pairs_view read.items)) }
    ensures err { IfErr result (λ e. IsRefused e
        → (ps : List Attribute) → ¬ AreIn (spec.IsPair levels) name.now (view object.now) ps) }
{
    let values = items(alloc, object, name)?;
    match read_pairs(alloc, values, levels) {
        Ok(read) => Ok(read),
        Err(error) => Err(error.within(alloc, name)),
    }
}

/// Reads each of the pairs.
#[cycle(tree)]
fn read_pairs(alloc: Global, values: &[Json], levels: u32) -> Result<Vec<(Key, AnyValue)>, Fault>
    ensures ok { IfOk result (λ read.
        AllZip (spec.IsPair levels) (map view values.now) (pairs_view read.items)) }
    ensures err { IfErr result (λ e. IsRefused e
        → (ps : List Attribute) → ¬ AllZip (spec.IsPair levels) (map view values.now) ps) }
{
    let mut read = Vec::with_capacity(alloc, values.len())?;
    for (index, value) in values.iter().enumerate() {
        match read_pair(alloc, value, levels) {
            Ok(pair) => read.push(pair)?,
            Err(error) => return Err(error.in_item(alloc, index)),
        }
    }
    Ok(read)
}

/// Reads a key with its value (the protocol's `KeyValue`).
#[cycle(tree)]
fn read_pair(alloc: Global, pair: &Json, levels: u32) -> Result<(Key, AnyValue), Fault>
    ensures ok { IfOk result (λ p. spec.IsPair levels (view pair.now) (p.0, tree p.1)) }
    ensures err { IfErr result (λ e. IsRefused e
        → (p : Attribute) → ¬ spec.IsPair levels (view pair.now) p) }
{
    check_object(alloc, pair)?;
    let key = text(alloc, pair, "key")?;
    let value = value_in(alloc, pair, levels)?;
    Ok((Key::new(key), value))
}

/// Returns the value of the pair, an empty text if it is absent.
#[cycle(tree)]
fn value_in(alloc: Global, pair: &Json, levels: u32) -> Result<AnyValue, Fault>
    ensures ok { IfOk result (λ t. spec.IsValueIn levels (view pair.now) (tree t)) }
    ensures err { IfErr result (λ e. IsRefused e
        → (t : Tree) → ¬ spec.IsValueIn levels (view pair.now) t) }
{
    let Some(value) = member(pair, "value") else {
        return Ok(AnyValue::from(""));
    };
    match read_tree(alloc, value, levels) {
        Ok(tree) => Ok(tree),
        Err(error) => Err(error.within(alloc, "value")),
    }
}

/// Returns the number of lists and maps within each other that are read as such.
// More than an exporter writes, since other programs write lines too.
#[tactic(auto, unfolding(crate::specs::ReadTrees::levels))]
fn levels() -> u32
    ensures { result ≡ spec.levels }
{
    32
}

/// Returns the attributes of the object.
pub(crate) fn tree_attributes(alloc: Global, object: &Json) -> Result<Vec<(Key, AnyValue)>, Fault>
    ensures ok { IfOk result (λ read.
        spec.HasAttributes (view object.now) (pairs_view read.items)) }
    ensures err { IfErr result (λ e. IsRefused e
        → (ps : List Attribute) → ¬ spec.HasAttributes (view object.now) ps) }
{
    pairs_in(alloc, object, "attributes", levels())
}

/// Returns the body of the record, if there is one.
pub(crate) fn body_in(alloc: Global, object: &Json) -> Result<Option<AnyValue>, Fault>
    ensures ok { IfOk result (λ body. spec.HasBody (view object.now) (option_map tree body)) }
    ensures err { IfErr result (λ e. IsRefused e
        → (body : Option Tree) → ¬ spec.HasBody (view object.now) body) }
{
    let Some(value) = member(object, "body") else {
        return Ok(None);
    };
    match read_tree(alloc, value, levels()) {
        Ok(tree) => Ok(Some(tree)),
        Err(error) => Err(error.within(alloc, "body")),
    }
}
