//! Few members, found by comparing their keys one by one.
ghost use Rattle.std.specs.Prelude.{◌≡◌, List, [], false, length, position, slice_get, remove};
ghost use Rattle.std.specs.Prelude.{IfOk, OnOk, OnErr, None, option_map};
ghost use Rattle.std.specs.List.{IsDistinct};
ghost use Rattle.std.specs.Map.{keys_of, lookup};
ghost use Rattle.std.specs.Option.{option_copied};
ghost use Rattle.std.specs.Str.{bytes_eq};
ghost use Rattle.indexmap.specs.IndexMap.{insert_entry};

use super::super::metadata::BaggageMetadata;
use crate::names::is_same;
use otel_base::{Key, StringValue};
use std::alloc::{AllocError, Global};
use std::marker::Model;
use std::mem;

/// The number of members for which a walk is faster than a hash.
const WALKED: usize = 4;

/// Keys, each with a value and metadata, in insertion order. All of them take one allocation.
#[derive(Drop)]
pub struct Few {
    entries: Vec<(Key, (StringValue, BaggageMetadata))>,
}

impl Model for Few {
    ghost use Rattle.std.specs.Prelude.{List};
    ghost use Rattle.std.specs.List.{IsDistinct};
    ghost use Rattle.std.specs.Map.{keys_of};
    ghost use Rattle.std.specs.Str.{bytes_eq};
    ghost use Rattle.otel_context.specs.BaggageView.{Entry};

    ghost Value = { List Entry };

    ghost view = { λ f. f.entries.items };

    ghost invariant = { λ f. IsDistinct bytes_eq (keys_of f.entries.items) };
}

impl Few {
    /// Returns an empty list. Doesn't allocate.
    pub fn new(alloc: Global) -> Few
        ensures { result ≡ [] }
    {
        Few {
            entries: Vec::new(alloc),
        }
    }

    /// Returns the number of members.
    pub fn len(&self) -> usize
        ensures { result ≡ length self.now }
    {
        self.entries.len()
    }

    /// Returns `true` if the key is present, or if there is room for it.
    pub fn takes(&self, key: &str) -> bool
        ensures absent { result ≡ false → lookup (bytes_eq key.now) self.now ≡ None }
        ensures distinct { IsDistinct bytes_eq (keys_of self.now) }
    {
        self.entries.len() < WALKED || self.index_of(key).is_some()
    }

    /// Returns the index of the key, if present, by comparing keys one by one.
    pub fn index_of(&self, key: &str) -> Option<usize>
        ensures { result ≡ position (bytes_eq key.now) (keys_of self.now) }
    {
        walk(&self.entries, key)
    }

    /// Returns the value and the metadata at the index, or `None` if the index is out of range.
    pub fn pair_at(&self, index: usize) -> Option<&(StringValue, BaggageMetadata)>
        ensures { option_copied result ≡ option_map (λ e. e.1) (slice_get self.now index) }
    {
        let (_, pair) = self.entries.get(index)?;
        Some(pair)
    }

    /// Sets the value and the metadata of the key. Returns the old ones. A present key keeps its
    /// place, and a new one goes last.
    ///
    /// # Errors
    ///
    /// `AllocError` if out of memory, which can only happen for a new key. Nothing changes.
    pub fn insert(
        &mut self,
        key: Key,
        pair: (StringValue, BaggageMetadata),
    ) -> Result<Option<(StringValue, BaggageMetadata)>, AllocError>
        ensures old { IfOk result (λ old. old ≡ lookup (bytes_eq key) self.old) }
        ensures entries { OnOk result (self.new ≡ insert_entry bytes_eq self.old key pair) }
        ensures err { OnErr result (self.new ≡ self.old) }
        ensures absent { OnErr result (lookup (bytes_eq key) self.old ≡ None) }
        ensures distinct { IsDistinct bytes_eq (keys_of self.new) }
    {
        if let Some(index) = self.index_of(key.as_str()) {
            let old = mem::replace(&mut self.entries[index].1, pair);
            return Ok(Some(old));
        }
        self.entries.push((key, pair))?;
        Ok(None)
    }

    /// Removes the member at the index, and returns it. Later members move down.
    pub fn remove_at(&mut self, index: usize) -> Option<(Key, (StringValue, BaggageMetadata))>
        ensures entry { result ≡ slice_get self.old index }
        ensures entries { self.new ≡ remove self.old index }
        ensures distinct { IsDistinct bytes_eq (keys_of self.new) }
    {
        if index < self.entries.len() {
            Some(self.entries.remove(index))
        } else {
            None
        }
    }

    /// Removes all members, and returns them.
    pub fn take(&mut self) -> Vec<(Key, (StringValue, BaggageMetadata))>
        ensures entries { result.items ≡ self.old }
        ensures empty { self.new ≡ [] }
        ensures distinct { IsDistinct bytes_eq (keys_of self.old) }
    {
        let none = Vec::new(*self.entries.allocator());
        mem::replace(&mut self.entries, none)
    }

    /// Returns the members.
    pub fn as_slice(&self) -> &[(Key, (StringValue, BaggageMetadata))]
        ensures { result.now ≡ self.now }
    {
        self.entries.as_slice()
    }
}

/// Returns the index of the key, if present, by comparing keys one by one.
fn walk(entries: &[(Key, (StringValue, BaggageMetadata))], key: &str) -> Option<usize>
    ensures { result ≡ position (λ e. bytes_eq key.now e.0) entries.now }
{
    entries
        .iter()
        .position(|entry| is_same(key, entry.0.as_str()))
}
