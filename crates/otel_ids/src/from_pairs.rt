//! Functions on the pairs of a trace state: checking, copying, formatting and hashing.
ghost use Rattle.std.specs.Prelude.{◌≡◌, ◌++◌, ◌-◌, ◌^◌, ◌≤◌, min, length, take, fold};
ghost use Rattle.std.specs.Prelude.{IfOk, IfErr, OnOk, IsOk, [], None, string_bytes};
ghost use Rattle.otel_ids.specs.Limits.{max_pairs};
ghost use Rattle.otel_ids.specs.TraceState.{IsState, from_key_value, delete, header_delimited};
ghost use Rattle.otel_ids.specs.TraceState.{Pair, pair_with, lent_pair, lent_pairs, entry};
ghost use Rattle.otel_ids.specs.TraceStateError.{Makes, Reports, pairs_fault};
ghost use Rattle.otel_ids.specs.Equal.{pairs_writes};

use crate::error::TraceStateError;
use crate::pairs::{Pairs, TraceStateIter};
use crate::reading::add_pair;
use std::alloc::{AllocError, Global};
use std::hash::{Hash, Hasher};

/// The maximum number of pairs of a trace state.
pub(crate) const MAX_PAIRS: usize = 32;

/// Checks the first 32 of the caller's pairs. Returns them without the pairs whose key an earlier
/// pair has.
pub(crate) fn checked_pairs(
    alloc: Global,
    offered: &[(&str, &str)],
) -> Result<Pairs, TraceStateError>
    ensures makes { let fault = pairs_fault (lent_pairs offered.now) in
        Makes (from_key_value offered.now) fault result }
    ensures empty { offered.now ≡ [] → IsOk result }
{
    let most = offered.len().min(MAX_PAIRS);
    let mut made = Pairs::new(alloc);
    for i in 0..most {
        let (key, value) = offered[i];
        add_pair(&mut made, alloc, 0, key, value)?;
    }
    Ok(made)
}

/// Appends the pairs that don't have the key, until `out` has 32 pairs.
pub(crate) fn copy_without(
    out: &mut Pairs,
    others: TraceStateIter<'_>,
    key: &str,
) -> Result<(), AllocError>
    requires few { length out.old ≤ max_pairs }
    requires state { IsState others }
    ensures { OnOk result (out.new ≡ out.old
        ++ take (max_pairs - length out.old) (delete others.entry key.now)) }
{
    for pair in others {
        if out.len() == MAX_PAIRS {
            break;
        }
        if pair.0 == key {
            continue;
        }
        out.push(pair.0, pair.1)?;
    }
    Ok(())
}

fn push_entry(text: &mut String, pair: (&str, &str), delimiter: &str) -> Result<(), AllocError>
    ensures { OnOk result (string_bytes text.new ≡ string_bytes text.old
        ++ entry delimiter.now (lent_pair pair.entry)) }
{
    text.push_str(pair.0)?;
    text.push_str(delimiter)?;
    text.push_str(pair.1)?;
    Ok(())
}

/// Returns the pairs as a text with these delimiters.
pub(crate) fn delimited(
    alloc: Global,
    mut pairs: TraceStateIter<'_>,
    entry_delimiter: &str,
    list_delimiter: &str,
) -> Result<String, AllocError>
    ensures text { IfOk result (λ text. string_bytes text
        ≡ header_delimited pairs.entry entry_delimiter.now list_delimiter.now) }
    ensures empty { pairs.entry ≡ [] → IsOk result }
{
    let mut text = String::new(alloc);
    let Some(first) = pairs.next() else {
        return Ok(text);
    };
    push_entry(&mut text, first, entry_delimiter)?;
    for pair in pairs {
        text.push_str(list_delimiter)?;
        push_entry(&mut text, pair, entry_delimiter)?;
    }
    Ok(text)
}

/// Hashes the number of pairs, then the key and the value of each.
pub(crate) fn hash_pairs<H: Hasher>(pairs: TraceStateIter<'_>, state: &mut H)
    ensures { state.new ≡ fold H.write state.old (pairs_writes pairs.entry) }
{
    pairs.len().hash(state);
    for pair in pairs {
        pair.hash(state);
    }
}
