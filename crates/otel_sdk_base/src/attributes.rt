//! Lists of attributes with unique keys and a limit.
ghost use Rattle.std.specs.Prelude.{◌≡◌, map, IfOk, OnOk, OnErr};
ghost use Rattle.otel_base.specs.View.{attribute_of};
ghost use Rattle.otel_sdk_base.specs.Attributes as spec;

use crate::cutting::cut;
use otel_base::{Key, KeyValue};
use std::alloc::{AllocError, Global};

/// Returns the count plus `more`, saturating at `u32::MAX`.
pub fn up_by(count: u32, more: u32) -> u32
    ensures { result ≡ spec.up_by count more }
{
    count.saturating_add(more)
}

// Returns the position of the attribute with the key, if there is one.
fn place(attributes: &[KeyValue], key: &Key) -> Option<usize>
    ensures { result ≡ spec.place key.now (map attribute_of attributes.now) }
{
    attributes.iter().position(|held| held.key == *key)
}

/// Replaces the attribute with the same key, or appends the attribute if its key is new.
///
/// # Errors
///
/// `AllocError` if out of memory. The list is then unchanged, and the attribute is dropped.
pub fn put(attributes: &mut Vec<KeyValue>, attribute: KeyValue) -> Result<(), AllocError>
    ensures ok { OnOk result (spec.Puts attribute attributes.old attributes.new) }
    ensures err { OnErr result (attributes.new.items ≡ attributes.old.items) }
{
    match place(attributes, &attribute.key) {
        Some(place) => attributes[place] = attribute,
        None => attributes.push(attribute)?,
    }
    Ok(())
}

/// Sets the attribute, and returns whether it was kept. An attribute with a new key is dropped if
/// the list has reached the limit.
///
/// # Errors
///
/// `AllocError` if out of memory. The list is then unchanged, and the attribute is dropped.
pub fn set(
    attributes: &mut Vec<KeyValue>,
    limit: u32,
    attribute: KeyValue,
) -> Result<bool, AllocError>
    ensures kept { IfOk result (λ kept. kept ≡ spec.is_kept limit attribute attributes.old) }
    ensures ok { OnOk result (spec.Sets limit attribute attributes.old attributes.new) }
    ensures err { OnErr result (attributes.new.items ≡ attributes.old.items) }
{
    let is_held = place(attributes, &attribute.key).is_some();
    if !is_held && attributes.len() >= limit as usize {
        return Ok(false);
    }
    put(attributes, attribute)?;
    Ok(true)
}

/// Puts each of the attributes in turn.
///
/// # Errors
///
/// `AllocError` if out of memory. The attributes before the failure have been put, and the others
/// are dropped.
pub fn put_all(attributes: &mut Vec<KeyValue>, given: Vec<KeyValue>) -> Result<(), AllocError>
    ensures ok { OnOk result (spec.PutsAll given attributes.old attributes.new) }
    ensures err { OnErr result (spec.PutsFirst given attributes.old attributes.new) }
{
    for attribute in given {
        put(attributes, attribute)?;
    }
    Ok(())
}

/// Truncates each of the given attributes and sets it in turn in a new list, up to the limit.
/// Returns the list, and the count plus the number of dropped attributes.
///
/// # Errors
///
/// `AllocError` if out of memory. The attributes are dropped.
pub fn limited(
    alloc: Global,
    limit: u32,
    length: Option<u32>,
    given: Vec<KeyValue>,
    mut count: u32,
) -> Result<(Vec<KeyValue>, u32), AllocError>
    ensures kept { IfOk result (λ r.
        spec.attributes_of r.0 ≡ spec.limited limit length (spec.attributes_of given)) }
    ensures count { IfOk result (λ r.
        r.1 ≡ spec.up_by count (spec.left_out limit length (spec.attributes_of given))) }
{
    let mut kept = Vec::new(alloc);
    for attribute in given {
        if !set(&mut kept, limit, cut(alloc, length, attribute)?)? {
            count = up_by(count, 1);
        }
    }
    Ok((kept, count))
}
