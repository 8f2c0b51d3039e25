//! Attributes with unique keys within limits.
ghost use Rattle.std.specs.Prelude.{◌≡◌, ◌<◌, ◌≤◌, ◌+◌, IfOk, OnOk, OnErr, length, vec_len};
ghost use Rattle.std.specs.Prelude.{vec_capacity};
ghost use Rattle.otel_base.specs.View.{tree, pairs_view};
ghost use Rattle.otel_sdk_logs.specs.Attributes as spec;

use crate::cutting::{cut, cut_all};
use crate::limits::LogRecordLimits;
use opentelemetry::Key;
use opentelemetry::logs::AnyValue;
use std::alloc::{AllocError, Global};

type Pairs = Vec<(Key, AnyValue)>;

// Returns the position of the attribute with the key, if there is one.
fn place(held: &[(Key, AnyValue)], key: &str) -> Option<usize>
    ensures { result ≡ spec.place key.now (pairs_view held.now) }
{
    held.iter().position(|pair| pair.0.as_str() == key)
}

// Replaces the attribute with the same key, or appends the attribute if its key is new.
fn put(held: &mut Pairs, key: Key, value: AnyValue)
    requires { vec_len held.old < vec_capacity held.old }
    ensures put { pairs_view held.new.items
        ≡ spec.put (pairs_view held.old.items) (key, tree value) }
    ensures len { vec_len held.new ≤ vec_len held.old + 1 }
    ensures capacity { vec_capacity held.new ≡ vec_capacity held.old }
{
    match place(held, key.as_str()) {
        Some(place) => held[place] = (key, value),
        None => held.push_reserved((key, value)),
    }
}

// Sets the attribute, and returns whether it was kept.
fn set(held: &mut Pairs, limit: u32, key: Key, value: AnyValue) -> bool
    requires { vec_len held.old < vec_capacity held.old }
    ensures kept { result ≡ spec.keeps limit (pairs_view held.old.items) (key, tree value) }
    ensures set { pairs_view held.new.items
        ≡ spec.set limit (pairs_view held.old.items) (key, tree value) }
    ensures len { vec_len held.new ≤ vec_len held.old + 1 }
    ensures capacity { vec_capacity held.new ≡ vec_capacity held.old }
{
    let is_held = place(held, key.as_str()).is_some();
    if !is_held && held.len() >= limit as usize {
        return false;
    }
    put(held, key, value);
    true
}

// Sets the attribute, or counts it if it isn't kept.
fn set_counted(held: &mut Pairs, limit: u32, dropped: &mut u32, key: Key, value: AnyValue)
    requires { vec_len held.old < vec_capacity held.old }
    ensures set { spec.held_in held.new dropped.new
        ≡ spec.with_one limit (spec.held_in held.old dropped.old)
        (key, tree value) }
    ensures len { vec_len held.new ≤ vec_len held.old + 1 }
    ensures capacity { vec_capacity held.new ≡ vec_capacity held.old }
{
    if !set(held, limit, key, value) {
        *dropped = dropped.saturating_add(1);
    }
}

/// Returns a copy of the attributes.
///
/// # Errors
///
/// `AllocError` if out of memory.
pub(crate) fn copy_all(held: &Pairs) -> Result<Pairs, AllocError>
    ensures { IfOk result (λ copy. pairs_view copy.items ≡ pairs_view held.now.items) }
{
    Ok(held.clone()?)
}

/// Truncates the attribute and sets it, or counts it if it isn't kept.
///
/// # Errors
///
/// `AllocError` if out of memory. Nothing changes; the attribute is dropped.
pub(crate) fn set_one(
    alloc: Global,
    limits: LogRecordLimits,
    held: &mut Pairs,
    dropped: &mut u32,
    key: Key,
    value: AnyValue,
) -> Result<(), AllocError>
    ensures ok { OnOk result (spec.held_in held.new dropped.new
        ≡ spec.with_one_within limits (spec.held_in held.old dropped.old)
        (key, tree value)) }
    ensures err { OnErr result (held.new.items ≡ held.old.items) }
    ensures uncounted { OnErr result (dropped.new ≡ dropped.old) }
{
    let value = cut(alloc, limits.max_attribute_length, value)?;
    held.reserve(1)?;
    set_counted(held, limits.max_attributes_per_record, dropped, key, value);
    Ok(())
}

/// Truncates each of the attributes and sets it in turn, and counts each that isn't kept.
///
/// # Errors
///
/// `AllocError` if out of memory. Nothing changes; the attributes are dropped.
pub(crate) fn set_all(
    alloc: Global,
    limits: LogRecordLimits,
    held: &mut Pairs,
    dropped: &mut u32,
    given: Pairs,
) -> Result<(), AllocError>
    ensures ok { OnOk result (spec.held_in held.new dropped.new
        ≡ spec.with_all_within limits (spec.held_in held.old dropped.old)
        (pairs_view given.items)) }
    ensures err { OnErr result (held.new.items ≡ held.old.items) }
    ensures uncounted { OnErr result (dropped.new ≡ dropped.old) }
{
    let truncated = cut_all(alloc, limits.max_attribute_length, given)?;
    held.reserve(truncated.len())?;
    for (key, value) in truncated {
        set_counted(held, limits.max_attributes_per_record, dropped, key, value);
    }
    Ok(())
}
