//! The members of a baggage, found by the text of their key.
ghost use Rattle.std.specs.Prelude.{◌≡◌, List, [], length, position, slice_get, remove, IfOk};
ghost use Rattle.std.specs.Prelude.{OnOk, OnErr, None, option_map};
ghost use Rattle.std.specs.List.{IsDistinct};
ghost use Rattle.std.specs.Map.{keys_of, lookup};
ghost use Rattle.std.specs.Map.Iter.{ShowsInOrder};
ghost use Rattle.std.specs.Option.{option_copied};
ghost use Rattle.std.specs.Str.{bytes_eq};
ghost use Rattle.indexmap.specs.IndexMap.{insert_entry};
ghost use Rattle.otel_context.specs.BaggageView.{lent_entry};

mod few;
mod many;

use self::few::Few;
use self::many::Many;
use super::metadata::BaggageMetadata;
use otel_base::{Key, StringValue};
use std::alloc::{AllocError, Global};
use std::fmt;
use std::marker::Model;

/// Keys, each with a value and metadata, in insertion order.
#[derive(Drop)]
pub struct Members {
    // The members, until there are too many to walk. Empty if there are members in `many`.
    few: Few,
    many: Many,
}

impl Model for Members {
    ghost use Rattle.std.specs.Prelude.{◌≡◌, ◌<◌, ◌++◌, List, [], length};
    ghost use Rattle.otel_context.specs.BaggageView.{Entry};

    ghost Value = { List Entry };

    ghost view = { λ m. m.few ++ m.many };

    ghost invariant = { λ m. 0 < length m.many → m.few ≡ [] };
}

impl Members {
    /// Returns an empty map. Doesn't allocate.
    pub fn new(alloc: Global) -> Members
        ensures { result ≡ [] }
    {
        Members {
            few: Few::new(alloc),
            many: Many::new(alloc),
        }
    }

    /// Returns the number of members.
    pub fn len(&self) -> usize
        ensures { result ≡ length self.now }
    {
        if self.many.len() > 0 {
            self.many.len()
        } else {
            self.few.len()
        }
    }

    /// Returns the index of the key, if present.
    pub fn index_of(&self, key: &str) -> Option<usize>
        ensures { result ≡ position (bytes_eq key.now) (keys_of self.now) }
    {
        if self.many.len() > 0 {
            self.many.index_of(key)
        } else {
            self.few.index_of(key)
        }
    }

    /// Returns the value and the metadata at the index, or `None` if the index is out of range.
    pub fn pair_at(&self, index: usize) -> Option<&(StringValue, BaggageMetadata)>
        ensures { option_copied result ≡ option_map (λ e. e.1) (slice_get self.now index) }
    {
        if self.many.len() > 0 {
            self.many.pair_at(index)
        } else {
            self.few.pair_at(index)
        }
    }

    /// Sets the value and the metadata of the key. Returns the old ones. A present key keeps its
    /// place, and a new one goes last.
    ///
    /// # Errors
    ///
    /// `AllocError` if out of memory, which can only happen for a new key. Nothing changes.
    pub fn insert(
        &mut self,
        key: Key,
        pair: (StringValue, BaggageMetadata),
    ) -> Result<Option<(StringValue, BaggageMetadata)>, AllocError>
        ensures old { IfOk result (λ old. old ≡ lookup (bytes_eq key) self.old) }
        ensures entries { OnOk result (self.new ≡ insert_entry bytes_eq self.old key pair) }
        ensures err { OnErr result (self.new ≡ self.old) }
        ensures absent { OnErr result (lookup (bytes_eq key) self.old ≡ None) }
        ensures distinct { IsDistinct bytes_eq (keys_of self.new) }
    {
        if self.many.len() == 0 {
            if self.few.takes(key.as_str()) {
                return self.few.insert(key, pair);
            }
            self.many.take(&mut self.few)?;
        }
        self.many.insert(key, pair)
    }

    /// Removes the member at the index, and returns it. Later members move down.
    pub fn remove_at(&mut self, index: usize) -> Option<(Key, (StringValue, BaggageMetadata))>
        ensures entry { result ≡ slice_get self.old index }
        ensures entries { self.new ≡ remove self.old index }
        ensures distinct { IsDistinct bytes_eq (keys_of self.new) }
    {
        if self.many.len() > 0 {
            self.many.remove_at(index)
        } else {
            self.few.remove_at(index)
        }
    }

    /// Returns an iterator over the keys with their values and metadata, in order.
    pub fn iter(&self) -> Entries<'_>
        ensures rest { result ≡ self.now }
        ensures runs { ShowsInOrder lent_entry }
    {
        Entries {
            few: self.few.as_slice(),
            many: self.many.iter(),
        }
    }
}

impl fmt::Debug for Members {
    fn fmt<W: fmt::Write>(&self, f: &mut fmt::Formatter<W>) -> fmt::Result {
        let mut out = f.debug_map();
        for (key, pair) in self.iter() {
            out.entry(key, pair);
        }
        out.finish()
    }
}

/// An iterator over [`Members`]. Contracts see it as the list of the remaining members.
#[derive(Debug, Drop)]
pub struct Entries<'a> {
    few: &'a [(Key, (StringValue, BaggageMetadata))],
    many: many::Iter<'a>,
}

impl<'a> Model for Entries<'a> {
    ghost use Rattle.std.specs.Prelude.{◌≡◌, ◌<◌, ◌++◌, List, [], length};
    ghost use Rattle.otel_context.specs.BaggageView.{Entry};

    ghost Value = { List Entry };

    ghost view = { λ i. i.few.now ++ i.many };

    ghost invariant = { λ i. 0 < length i.many → i.few.now ≡ [] };
}

impl<'a> Entries<'a> {
    /// Returns the number of remaining members.
    pub fn len(&self) -> usize
        ensures { result ≡ length self.now }
    {
        if self.many.len() > 0 {
            self.many.len()
        } else {
            self.few.len()
        }
    }
}

impl<'a> Iterator for Entries<'a> {
    ghost use Rattle.std.specs.Prelude.{◌≡◌, length, Some, IfSome};
    ghost use Rattle.std.specs.Iterator.{at_most, UpTo};
    ghost use Rattle.std.specs.Iterator.SizeHint.{IsWithinCount};
    ghost use Rattle.std.specs.Map.Iter.{TakesFirst};
    ghost use Rattle.otel_context.specs.BaggageView.{lent_entry};

    type Item = (&'a Key, &'a (StringValue, BaggageMetadata));

    ghost next_gives = { TakesFirst lent_entry };

    ghost remaining = { λ s. at_most (length s) };

    fn next(&mut self) -> Option<(&'a Key, &'a (StringValue, BaggageMetadata))> {
        if let Some((first, others)) = self.few.split_first() {
            self.few = others;
            return Some((&first.0, &first.1));
        }
        self.many.next()
    }

    fn size_hint(&self) -> (usize, Option<usize>)
        ensures lower { IsWithinCount result.0 (at_most (length self.now)) }
        ensures upper { IfSome result.1 (UpTo (at_most (length self.now))) }
    {
        let len = self.len();
        (len, Some(len))
    }
}
