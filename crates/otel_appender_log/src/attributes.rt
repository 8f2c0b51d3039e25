//! The key-value pairs of a record, and its source location, as attributes.
ghost use Rattle.std.specs.Prelude.{◌≡◌, [], IfOk, IfSome, OnOk};
ghost use Rattle.std.specs.List.{FoldsTo};
ghost use Rattle.log.specs.Kv.{value_text};
ghost use Rattle.otel_base.specs.View.{pairs_view};
ghost use Rattle.otel_appender_log.specs.Attributes.{TakesPair, AddsValue, has_key, with_absent};
ghost use Rattle.otel_appender_log.specs.Location.{text_of, number_of, with_location, IsLocated};

use crate::value::attribute_value;
use log::kv;
use log::kv::{Source, Value, VisitSource};
use opentelemetry::Key;
use opentelemetry::logs::AnyValue;
use std::alloc::{AllocError, Global};
use std::fmt::Display;

/// The source location of a record, as far as it is known.
///
/// The macros of the crate `log` don't record it: see [`SourceLocation::UNKNOWN`].
#[derive(Clone, Copy, Debug)]
pub struct SourceLocation<'a> {
    /// The path of the file.
    pub file: Option<&'a str>,
    /// The line, counted from 1.
    pub line: Option<u32>,
    /// The path of the module.
    pub module: Option<&'a str>,
}

impl SourceLocation<'static> {
    /// An unknown location.
    pub const UNKNOWN: SourceLocation<'static> = SourceLocation {
        file: None,
        line: None,
        module: None,
    };
}

type Pairs = Vec<(Key, AnyValue)>;

// The attributes of the pairs visited so far.
#[derive(Drop)]
struct Attributes {
    pairs: Pairs,
}

impl VisitSource for Attributes {
    ghost visit_pair_gives = { λ before pair after.
        TakesPair (pairs_view before.pairs.items) pair (pairs_view after.pairs.items) };

    // Appends the attribute of a pair. Only null is left out, and not the text `None`.
    fn visit_pair<D: Display>(&mut self, key: &str, value: Value<'_, D>) -> Result<(), kv::Error>
        ensures added { OnOk result (AddsValue D.output key.now value.entry
            (pairs_view self.old.pairs.items) (pairs_view self.new.pairs.items)) }
        ensures taken { OnOk result (IfSome (value_text D.output value.entry) (λ text.
            TakesPair (pairs_view self.old.pairs.items) (key.now, text)
            (pairs_view self.new.pairs.items))) }
    {
        match push_pair(&mut self.pairs, key, &value) {
            Ok(()) => Ok(()),
            Err(_) => Err(kv::Error::msg("out of memory")),
        }
    }
}

// Appends the attribute of a pair. Appends nothing for null.
fn push_pair<D: Display>(
    pairs: &mut Pairs,
    key: &str,
    value: &Value<'_, D>,
) -> Result<(), AllocError>
    ensures { OnOk result
        (AddsValue D.output key.now value.now (pairs_view pairs.old.items)
        (pairs_view pairs.new.items)) }
{
    let alloc = *pairs.allocator();
    if let Some(value) = attribute_value(alloc, value)? {
        let key = Key::from(String::from_str(alloc, key)?);
        pairs.push((key, value))?;
    }
    Ok(())
}

/// Returns the attributes of key-value pairs, in order, leaving out nulls.
///
/// # Errors
///
/// `AllocError` if out of memory, or if the source or a value's own `fmt` fails.
pub fn attributes_of<K: Source>(
    alloc: Global,
    source: &K,
) -> Result<Vec<(Key, AnyValue)>, AllocError>
    ensures { IfOk result (λ v. IfSome (K.pairs source.now)
        (λ pairs. FoldsTo TakesPair [] pairs (pairs_view v.items))) }
{
    let mut visitor = Attributes {
        pairs: Vec::new(alloc),
    };
    match source.visit(&mut visitor) {
        Ok(()) => {
            let Attributes { pairs } = visitor;
            Ok(pairs)
        }
        Err(_) => Err(AllocError),
    }
}

// Returns `true` if an attribute has the key.
fn has_key(pairs: &Pairs, key: &str) -> bool
    ensures { result ≡ has_key key.now (pairs_view pairs.now.items) }
{
    pairs.iter().any(|pair| pair.0.as_str() == key)
}

// Appends an attribute with the text, if there is a text and the key isn't present.
fn push_text(pairs: &mut Pairs, key: &'static str, value: Option<&str>) -> Result<(), AllocError>
    ensures { OnOk result (pairs_view pairs.new.items
        ≡ with_absent (pairs_view pairs.old.items) key.now (text_of value.entry)) }
{
    let alloc = *pairs.allocator();
    if let Some(value) = value
        && !has_key(pairs, key)
    {
        let value = AnyValue::from(String::from_str(alloc, value)?);
        pairs.push((Key::from(key), value))?;
    }
    Ok(())
}

// Appends an attribute with the number, if there is a number and the key isn't present.
fn push_number(pairs: &mut Pairs, key: &'static str, value: Option<u32>) -> Result<(), AllocError>
    ensures { OnOk result (pairs_view pairs.new.items
        ≡ with_absent (pairs_view pairs.old.items) key.now (number_of value)) }
{
    if let Some(value) = value
        && !has_key(pairs, key)
    {
        pairs.push((Key::from(key), AnyValue::from(value)))?;
    }
    Ok(())
}

// Appends the known parts of the location, except under keys that are present.
fn push_location(pairs: &mut Pairs, location: &SourceLocation<'_>) -> Result<(), AllocError>
    ensures { OnOk result (pairs_view pairs.new.items
        ≡ with_location (pairs_view pairs.old.items) location.now) }
{
    push_text(pairs, "code.file.path", location.file)?;
    push_number(pairs, "code.line.number", location.line)?;
    push_text(pairs, "code.namespace", location.module)
}

// Returns the attributes of the pairs, followed by the ones of the location whose keys aren't
// present.
pub(crate) fn located_attributes<K: Source>(
    alloc: Global,
    source: &K,
    location: &SourceLocation<'_>,
) -> Result<Vec<(Key, AnyValue)>, AllocError>
    ensures { IfOk result (λ v. IsLocated (K.pairs source.now) location.now (pairs_view v.items)) }
{
    let mut attributes = attributes_of(alloc, source)?;
    push_location(&mut attributes, location)?;
    Ok(attributes)
}
