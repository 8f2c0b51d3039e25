//! Many members, found by the hashes of their keys.
ghost use Rattle.std.specs.Prelude.{◌≡◌, ◌≤◌, List, [], length, position, slice_get, remove, IfOk};
ghost use Rattle.std.specs.Prelude.{OnOk, OnErr, None, option_map};
ghost use Rattle.std.specs.List.{IsDistinct};
ghost use Rattle.std.specs.Map.{keys_of, lookup};
ghost use Rattle.std.specs.Option.{option_copied};
ghost use Rattle.std.specs.Str.{bytes_eq};
ghost use Rattle.indexmap.specs.IndexMap.{insert_entry, insert_all, spare};
ghost use Rattle.otel_context.specs.Names.{entries_of, AreHeld};

use super::super::metadata::BaggageMetadata;
use super::few::Few;
use crate::names::Name;
use indexmap::{IndexMap, map};
use otel_base::{Key, StringValue};
use std::alloc::{AllocError, Global};
use std::marker::Model;

/// Keys, each with a value and metadata, in insertion order.
///
/// The keys of the map are names, each made from an owned key. A look-up uses a name that borrows a
/// text, so it doesn't allocate: a map of `'static` names may be used as one of names with the
/// lifetime of that text. Such a name needs no impl of the map's trait for look-ups.
#[derive(Drop)]
pub struct Many {
    map: IndexMap<Name<'static>, (StringValue, BaggageMetadata)>,
}

impl Model for Many {
    ghost use Rattle.std.specs.Prelude.{List};
    ghost use Rattle.otel_context.specs.BaggageView.{Entry};
    ghost use Rattle.otel_context.specs.Names.{entries_of, AreHeld};

    ghost Value = { List Entry };

    ghost view = { λ m. entries_of m.map.entries };

    ghost invariant = { λ m. AreHeld m.map.entries };
}

impl Many {
    /// Returns an empty map. Doesn't allocate.
    pub fn new(alloc: Global) -> Many
        ensures { result ≡ [] }
    {
        Many {
            map: IndexMap::new(alloc),
        }
    }

    /// Returns the number of members.
    pub fn len(&self) -> usize
        ensures { result ≡ length self.now }
    {
        self.map.len()
    }

    /// Returns the index of the key, if present, by its hash.
    pub fn index_of(&self, key: &str) -> Option<usize>
        ensures { result ≡ position (bytes_eq key.now) (keys_of self.now) }
    {
        find(&self.map, key)
    }

    /// Returns the value and the metadata at the index, or `None` if the index is out of range.
    pub fn pair_at(&self, index: usize) -> Option<&(StringValue, BaggageMetadata)>
        ensures { option_copied result ≡ option_map (λ e. e.1) (slice_get self.now index) }
    {
        let (_, pair) = self.map.get_index(index)?;
        Some(pair)
    }

    /// Sets the value and the metadata of the key. Returns the old ones. A present key keeps its
    /// place, and a new one goes last.
    ///
    /// # Errors
    ///
    /// `AllocError` if out of memory, which can only happen for a new key. Nothing changes.
    pub fn insert(
        &mut self,
        key: Key,
        pair: (StringValue, BaggageMetadata),
    ) -> Result<Option<(StringValue, BaggageMetadata)>, AllocError>
        ensures old { IfOk result (λ old. old ≡ lookup (bytes_eq key) self.old) }
        ensures entries { OnOk result (self.new ≡ insert_entry bytes_eq self.old key pair) }
        ensures err { OnErr result (self.new ≡ self.old) }
        ensures absent { OnErr result (lookup (bytes_eq key) self.old ≡ None) }
        ensures distinct { IsDistinct bytes_eq (keys_of self.new) }
    {
        let old = self.map.insert(Name::Held(key), pair)?;
        Ok(old)
    }

    /// Removes the member at the index, and returns it. Later members move down.
    pub fn remove_at(&mut self, index: usize) -> Option<(Key, (StringValue, BaggageMetadata))>
        ensures entry { result ≡ slice_get self.old index }
        ensures entries { self.new ≡ remove self.old index }
        ensures distinct { IsDistinct bytes_eq (keys_of self.new) }
    {
        let (name, pair) = self.map.shift_remove_index(index)?;
        match name {
            Name::Held(key) => Some((key, pair)),
            Name::Asked(_) => unreachable!(),
        }
    }

    /// Takes the few members, in order, into an empty map.
    ///
    /// # Errors
    ///
    /// `AllocError` if out of memory. Nothing changes.
    pub fn take(&mut self, few: &mut Few) -> Result<(), AllocError>
        requires { self.old ≡ [] }
        ensures taken { OnOk result (self.new ≡ few.old) }
        ensures emptied { OnOk result (few.new ≡ []) }
        ensures err { OnErr result (self.new ≡ self.old) }
        ensures few_err { OnErr result (few.new ≡ few.old) }
    {
        // Room for as many new ones, so that the next insert doesn't allocate again.
        self.map.reserve(few.len().saturating_mul(2))?;
        fill(&mut self.map, few.take());
        Ok(())
    }

    /// Returns an iterator over the keys with their values and metadata, in order.
    pub fn iter(&self) -> Iter<'_>
        ensures { result ≡ self.now }
    {
        Iter {
            entries: self.map.iter(),
        }
    }
}

/// Inserts the members, in order. There is room for them.
fn fill(
    map: &mut IndexMap<Name<'static>, (StringValue, BaggageMetadata)>,
    entries: Vec<(Key, (StringValue, BaggageMetadata))>,
)
    requires room { length entries.items ≤ spare map.old }
    requires held { AreHeld map.old.entries }
    ensures entries { entries_of map.new.entries
        ≡ insert_all bytes_eq (entries_of map.old.entries) entries.items }
    ensures held { AreHeld map.new.entries }
{
    for (key, pair) in entries {
        drop(map.insert(Name::Held(key), pair).unwrap());
    }
}

/// Returns the index of the key, if present, by its hash. Not inlined, so that a walk stays short.
#[inline(never)]
fn find<'a>(
    map: &'a IndexMap<Name<'a>, (StringValue, BaggageMetadata)>,
    key: &'a str,
) -> Option<usize>
    ensures { result ≡ position (bytes_eq key.now) (keys_of (entries_of map.now.entries)) }
{
    map.get_index_of(&Name::Asked(key))
}

/// An iterator over [`Many`]. Contracts see it as the list of the remaining members.
#[derive(Debug, Drop)]
pub struct Iter<'a> {
    entries: map::Iter<'a, Name<'static>, (StringValue, BaggageMetadata)>,
}

impl<'a> Model for Iter<'a> {
    ghost use Rattle.std.specs.Prelude.{List};
    ghost use Rattle.otel_context.specs.BaggageView.{Entry};
    ghost use Rattle.otel_context.specs.Names.{entries_of, AreHeld};

    ghost Value = { List Entry };

    ghost view = { λ i. entries_of i.entries };

    ghost invariant = { λ i. AreHeld i.entries };
}

impl<'a> Iter<'a> {
    /// Returns the number of remaining members.
    pub fn len(&self) -> usize
        ensures { result ≡ length self.now }
    {
        self.entries.len()
    }
}

impl<'a> Iterator for Iter<'a> {
    ghost use Rattle.std.specs.Prelude.{◌≡◌, length, Some, IfSome};
    ghost use Rattle.std.specs.Iterator.{at_most, UpTo};
    ghost use Rattle.std.specs.Iterator.SizeHint.{IsWithinCount};
    ghost use Rattle.std.specs.Map.Iter.{TakesFirst};
    ghost use Rattle.otel_context.specs.BaggageView.{lent_entry};

    type Item = (&'a Key, &'a (StringValue, BaggageMetadata));

    ghost next_gives = { TakesFirst lent_entry };

    ghost remaining = { λ s. at_most (length s) };

    fn next(&mut self) -> Option<(&'a Key, &'a (StringValue, BaggageMetadata))> {
        let (name, pair) = self.entries.next()?;
        match name {
            Name::Held(key) => Some((key, pair)),
            Name::Asked(_) => unreachable!(),
        }
    }

    fn size_hint(&self) -> (usize, Option<usize>)
        ensures lower { IsWithinCount result.0 (at_most (length self.now)) }
        ensures upper { IfSome result.1 (UpTo (at_most (length self.now))) }
    {
        let len = self.len();
        (len, Some(len))
    }
}
