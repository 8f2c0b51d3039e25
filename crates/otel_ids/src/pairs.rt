//! The pairs of a trace state: one text, and the lengths of each key and value.
ghost use Rattle.std.specs.Prelude.{◌≡◌, ◌++◌, ◌∷◌, [], ◌+◌, ◌<◌, ◌≤◌, length, take, drop};
ghost use Rattle.std.specs.Prelude.{OnOk, IfSome, Some, string_bytes, option_copied};
ghost use Rattle.std.specs.Iterator.{YieldsFirstBy, UpTo, item_count, at_most};
ghost use Rattle.std.specs.Iterator.SizeHint.{IsWithinCount};
ghost use Rattle.otel_ids.specs.Limits.{max_length};
ghost use Rattle.std.specs.List.{list_any};
ghost use Rattle.otel_ids.specs.TraceState.{Pair, pair_with, lent_pair, entry, has_key, get};
ghost use Rattle.otel_ids.specs.TraceState.{header};
ghost use Rattle.otel_ids.specs.View.{separator, place, cut, IsCut, IsLeft};
ghost use Rattle.std.specs.Str.{IsUtf8};

use std::alloc::{AllocError, Global};
use std::fmt;
use std::iter::FusedIterator;
use std::marker::Model;

/// The lengths of a pair's key and value, in bytes.
#[derive(Clone, Copy)]
struct Place {
    key: u16,
    value: u16,
}

/// The pairs, stored as the text of their header.
///
/// Contracts see the list of the pairs.
#[derive(Drop)]
pub(crate) struct Pairs {
    text: String,
    places: Vec<Place>,
}

impl Model for Pairs {
    ghost use Rattle.std.specs.Prelude.{List, string_bytes};
    ghost use Rattle.otel_ids.specs.TraceState.{Pair};

    ghost Value = { List Pair };

    ghost use Rattle.otel_ids.specs.View.{pairs_code};

    ghost coded = { pairs_code };

    ghost use Rattle.otel_ids.specs.View.{IsStored, cut};

    ghost view = { λ s. cut s.places.items (string_bytes s.text) };

    ghost invariant = { λ s. IsStored s.places.items (string_bytes s.text) };
}

impl Pairs {
    /// Returns an empty list of pairs. Doesn't allocate.
    pub(crate) fn new(alloc: Global) -> Pairs
        ensures { result ≡ [] }
    {
        Pairs {
            text: String::new(alloc),
            places: Vec::new(alloc),
        }
    }

    /// Reserves capacity for at least `bytes` more bytes and `pairs` more pairs.
    pub(crate) fn reserve(&mut self, bytes: usize, pairs: usize) -> Result<(), AllocError>
        ensures { self.new ≡ self.old }
    {
        self.text.reserve(bytes)?;
        self.places.reserve(pairs)
    }

    /// Returns the number of pairs.
    pub(crate) fn len(&self) -> usize
        ensures { result ≡ length self.now }
    {
        self.places.len()
    }

    /// Returns the header: each key, `=` and value, joined by commas.
    pub(crate) fn text(&self) -> &str
        ensures { result.now ≡ header self.now }
    {
        self.text.as_str()
    }

    /// Returns an iterator over the pairs, in order.
    pub(crate) fn iter(&self) -> TraceStateIter<'_>
        ensures { result ≡ self.now }
    {
        TraceStateIter {
            text: self.text.as_str(),
            at: 0,
            places: self.places.as_slice(),
        }
    }

    /// Returns the value of the key, or `None` if no pair has the key.
    pub(crate) fn get(&self, key: &str) -> Option<&str>
        ensures { option_copied result ≡ get self.now key.now }
    {
        value_of(self.text.as_str(), self.places.as_slice(), key)
    }

    /// Returns `true` if a pair has the key.
    pub(crate) fn has_key(&self, key: &str) -> bool
        ensures { result ≡ list_any (has_key key.now) self.now }
    {
        self.get(key).is_some()
    }

    /// Appends a pair. If out of memory, all pairs are removed.
    pub(crate) fn push(&mut self, key: &str, value: &str) -> Result<(), AllocError>
        requires short_key { length key.now ≤ max_length }
        requires short_value { length value.now ≤ max_length }
        ensures { OnOk result (self.new ≡ self.old ++ pair_with key.now value.now ∷ []) }
    {
        if let Err(error) = push_pair(&mut self.text, &mut self.places, key, value) {
            self.text.clear();
            self.places.clear();
            return Err(error);
        }
        Ok(())
    }
}

/// Appends a pair's entry and its lengths. Writes a comma before the entry if it isn't the first.
fn push_pair(
    text: &mut String,
    places: &mut Vec<Place>,
    key: &str,
    value: &str,
) -> Result<(), AllocError>
    requires short_key { length key.now ≤ max_length }
    requires short_value { length value.now ≤ max_length }
    ensures text { OnOk result (string_bytes text.new ≡ string_bytes text.old
        ++ (separator places.old.items ++ entry (61 ∷ []) (pair_with key.now value.now))) }
    ensures places { OnOk result (places.new.items ≡ places.old.items
        ++ place (pair_with key.now value.now) ∷ []) }
{
    if !places.is_empty() {
        text.push_str(",")?;
    }
    text.push_str(key)?;
    text.push_str("=")?;
    text.push_str(value)?;
    places.push(Place {
        key: key.len() as u16,
        value: value.len() as u16,
    })?;
    Ok(())
}

/// Returns the key and the value of the pair that begins at byte index `at`, and its end index.
fn pair_at(text: &str, at: usize, place: Place) -> (&str, &str, usize)
    requires cut { IsCut place (drop at text.now) }
    requires text { IsUtf8 (drop at text.now) }
    ensures key { result.0.now ≡ take place.key (drop at text.now) }
    ensures value { result.1.now ≡ take place.value (drop (place.key + 1) (drop at text.now)) }
    ensures end { result.2 ≡ at + place.key + 1 + place.value }
    ensures within { result.2 ≤ length text.now }
{
    let equals = at + place.key as usize;
    let end = equals + 1 + place.value as usize;
    (&text[at..equals], &text[equals + 1..end], end)
}

/// Returns the value of the first pair with the key. Keys of another length, or with another last
/// byte, are skipped without a comparison.
fn value_of<'a>(text: &'a str, places: &[Place], key: &str) -> Option<&'a str>
    requires { IsLeft places.now text.now }
    ensures { option_copied result ≡ get (cut places.now text.now) key.now }
{
    let last = key.as_bytes().last();
    let mut at = 0;
    for place in places {
        let length = place.key as usize;
        if length == key.len() && text.as_bytes()[at..at + length].last() == last {
            let (name, value, _) = pair_at(text, at, *place);
            if name == key {
                return Some(value);
            }
        }
        at += length + place.value as usize + 2;
    }
    None
}

/// An iterator over the pairs of a trace state, in order. Its exact length is known.
///
/// Contracts see the list of the remaining pairs.
///
/// ```
/// for (key, value) in &state {
/// ```
#[derive(Drop)]
pub struct TraceStateIter<'a> {
    text: &'a str,
    at: usize,
    places: &'a [Place],
}

impl<'a> Model for TraceStateIter<'a> {
    ghost use Rattle.std.specs.Prelude.{List};
    ghost use Rattle.otel_ids.specs.TraceState.{Pair};

    ghost Value = { List Pair };

    ghost use Rattle.otel_ids.specs.View.{IsLeft, cut};
    ghost use Rattle.std.specs.Prelude.{drop};

    ghost view = { λ it. cut it.places.now (drop it.at it.text.now) };

    ghost invariant = { λ it. IsLeft it.places.now (drop it.at it.text.now) };
}

impl<'a> TraceStateIter<'a> {
    /// Returns an iterator over no pairs.
    pub(crate) fn empty() -> TraceStateIter<'a>
        ensures { result ≡ [] }
    {
        TraceStateIter {
            text: "",
            at: 0,
            places: &[],
        }
    }
}

impl<'a> Iterator for TraceStateIter<'a> {
    type Item = (&'a str, &'a str);

    ghost next_gives = { YieldsFirstBy lent_pair (λ rest. rest) };

    ghost remaining = { item_count (λ rest. rest) };

    fn next(&mut self) -> Option<(&'a str, &'a str)> {
        let (place, places) = self.places.split_first()?;
        let (key, value, end) = pair_at(self.text, self.at, *place);
        self.at = end + 1;
        self.places = places;
        Some((key, value))
    }

    fn size_hint(&self) -> (usize, Option<usize>)
        ensures lower { IsWithinCount result.0 (at_most (length self.now)) }
        ensures upper { IfSome result.1 (UpTo (at_most (length self.now))) }
        ensures exact { result ≡ (length self.now, Some (length self.now)) }
    {
        (self.places.len(), Some(self.places.len()))
    }
}

impl<'a> ExactSizeIterator for TraceStateIter<'a> {
    fn len(&self) -> usize {
        self.places.len()
    }
}

impl<'a> FusedIterator for TraceStateIter<'a> {}

/// Formats the header of the remaining pairs, as in `TraceStateIter("a=1,b=2")`.
impl<'a> fmt::Debug for TraceStateIter<'a> {
    fn fmt<W: fmt::Write>(&self, f: &mut fmt::Formatter<W>) -> fmt::Result {
        let left = self.text.get(self.at..).unwrap_or("");
        f.debug_tuple("TraceStateIter").field(&left).finish()
    }
}
