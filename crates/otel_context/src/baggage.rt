//! Baggage: named values that travel with a request, in insertion order.
//!
//! Contracts see a baggage as the list of its members, each a key with its value and its metadata
//! (W3C baggage, `list-member`). A baggage has at most 64 members, with distinct keys, and at most
//! 8192 bytes.
ghost use Rattle.std.specs.Prelude.{◌≡◌, List, [], length, map as map_list, Some, IfOk};
ghost use Rattle.std.specs.Prelude.{IsOk, IsTrue, ◌↔◌};
ghost use Rattle.std.specs.Map.Iter.{ShowsInOrder};
ghost use Rattle.std.specs.Option.{option_copied};
ghost use Rattle.otel_context.specs.Baggage.{accepts, get, get_with_metadata, Inserts, replaced};
ghost use Rattle.otel_context.specs.Baggage.{replaced_value, remove, from_members, IsBaggage};
ghost use Rattle.otel_context.specs.BaggageHeader.{header};
ghost use Rattle.otel_context.specs.BaggageMember.{member_of};
ghost use Rattle.otel_context.specs.BaggageView.{entry_members, lent_member};
ghost use Rattle.otel_context.specs.KeyValueMetadata.{from_key_value, AreTexts};

mod header;
mod key;
mod members;
mod metadata;
mod weight;

use self::header::write_header;
use self::members::{Entries, Members};
pub use self::metadata::{BaggageMetadata, KeyValueMetadata};
pub use self::weight::{MAX_KEY_VALUE_PAIRS, MAX_LEN_OF_ALL_PAIRS};
use self::weight::{weight_after, weight_of};
use otel_base::{Key, KeyValue, StringValue};
use std::alloc::{AllocError, Global};
use std::fmt;
use std::marker::Model;

/// Named values that travel with a request, each with metadata, in insertion order.
///
/// It has at most 64 members with distinct keys. All keys, values and metadata together have at
/// most 8192 bytes. A key is one or more of the ASCII characters `!` to `~`, except the delimiters
/// `(),/:;<=>?@[\]{}"` (RFC 7230, section 3.2.6).
///
/// It prints as the value of a `baggage` header (W3C baggage). Each member is printed as the key,
/// `=` and the value, then `;` and the metadata unless it is empty. In the value, every byte except
/// A-Z, a-z, 0-9 and `.` `-` `_` `~` is escaped as `%` and two hexadecimal digits. Metadata is
/// printed as it is. Members are joined by `,`.
///
/// ```
/// let mut baggage = Baggage::new(alloc);
/// baggage.insert(Key::from("tenant"), StringValue::from("acme"))?;
/// baggage.insert(Key::from("region"), StringValue::from("eu west"))?;
/// ```
#[derive(Debug)]
pub struct Baggage {
    inner: Members,
    // The total bytes of all keys, values and metadata in `inner`.
    content_len: usize,
}

// Written out, so that a caller's proof has one call here, and not the drops of all parts.
impl Drop for Baggage {
    #[inline(always)]
    fn drop(self) {
        let Baggage {
            inner: _,
            content_len: _,
        } = self;
    }
}

impl Model for Baggage {
    ghost use Rattle.std.specs.Prelude.{◌≡◌, List};
    ghost use Rattle.otel_context.specs.Baggage.{IsBaggage, weight};
    ghost use Rattle.otel_context.specs.BaggageMember.{Member};
    ghost use Rattle.otel_context.specs.BaggageView.{entry_members};

    ghost Value = { List Member };

    ghost view = { λ b. entry_members b.inner };

    ghost invariant = { λ b. IsBaggage (entry_members b.inner)
        × (b.content_len ≡ weight (entry_members b.inner)) };
}

impl Baggage {
    /// Returns an empty baggage. Doesn't allocate, but keeps the allocator for later inserts.
    pub fn new(alloc: Global) -> Baggage
        ensures { result ≡ [] }
    {
        Baggage {
            inner: Members::new(alloc),
            content_len: 0,
        }
    }

    /// Returns the value of the key, or `None` if no member has the key.
    ///
    /// Doesn't allocate. Compares the keys one by one until there are more than four members, and
    /// from then on finds the key by its hash.
    pub fn get(&self, key: &str) -> Option<&StringValue>
        ensures { option_copied result ≡ get self.now key.now }
    {
        let (value, _) = self.get_with_metadata(key)?;
        Some(value)
    }

    /// Returns the value and the metadata of the key, or `None` if no member has the key.
    ///
    /// Finds the key as [`get`](Self::get) does. Doesn't allocate.
    pub fn get_with_metadata(&self, key: &str) -> Option<&(StringValue, BaggageMetadata)>
        ensures { option_copied result ≡ get_with_metadata self.now key.now }
    {
        let index = self.inner.index_of(key)?;
        self.inner.pair_at(index)
    }

    /// Sets the value of the key, with empty metadata. Returns the replaced value.
    ///
    /// Returns `None` if the key is new, or if the member isn't accepted (see
    /// [`insert_with_metadata`](Self::insert_with_metadata)), which leaves the baggage unchanged.
    ///
    /// # Errors
    ///
    /// `AllocError` if out of memory, which can only happen for a new key that is accepted. The
    /// baggage is unchanged, and the arguments are dropped.
    pub fn insert(
        &mut self,
        key: Key,
        value: StringValue,
    ) -> Result<Option<StringValue>, AllocError>
        ensures { let m = member_of key value [] in
            Inserts self.old self.new m (replaced_value self.old m) result }
    {
        match self.insert_with_metadata(key, value, BaggageMetadata::default())? {
            Some((value, _)) => Ok(Some(value)),
            None => Ok(None),
        }
    }

    /// Sets the value and the metadata of the key. Returns the replaced ones.
    ///
    /// A present key keeps its place and isn't checked again. A new key goes last. The member is
    /// accepted if the baggage would then have at most 8192 bytes, not counting replaced ones, and
    /// if a new key is valid and there are fewer than 64 members. Returns `None` if the key is new,
    /// or if the member isn't accepted, which leaves the baggage unchanged.
    ///
    /// # Errors
    ///
    /// `AllocError` if out of memory, which can only happen for a new key that is accepted. The
    /// baggage is unchanged, and the arguments are dropped.
    pub fn insert_with_metadata(
        &mut self,
        key: Key,
        value: StringValue,
        metadata: BaggageMetadata,
    ) -> Result<Option<(StringValue, BaggageMetadata)>, AllocError>
        ensures { let m = member_of key value metadata in
            Inserts self.old self.new m (replaced self.old m) result }
    {
        let name = key.as_str();
        let text = value.as_str();
        let properties = metadata.as_str();
        let pair = self.get_with_metadata(name);
        let Some(total) = weight_after(&self.inner, self.content_len, name, pair, text, properties)
        else {
            return Ok(None);
        };
        let old = self.inner.insert(key, (value, metadata))?;
        self.content_len = total;
        Ok(old)
    }

    /// Returns `true` if [`insert_with_metadata`](Self::insert_with_metadata) would accept the
    /// member.
    ///
    /// Use it to detect a member that would be ignored. Finds the key as [`get`](Self::get) does.
    /// Doesn't allocate. Not in the Rust crate.
    pub fn accepts(&self, key: &str, value: &str, metadata: &str) -> bool
        ensures { let m = member_of key.now value.now metadata.now in
            result ≡ accepts self.now m }
    {
        let pair = self.get_with_metadata(key);
        weight_after(&self.inner, self.content_len, key, pair, value, metadata).is_some()
    }

    /// Removes the member with the key. Returns its value and metadata, or `None` if no member has
    /// the key.
    ///
    /// The other members keep their order, and the removed bytes no longer count. Finds the key as
    /// [`get`](Self::get) does. Doesn't allocate.
    pub fn remove(&mut self, key: &str) -> Option<(StringValue, BaggageMetadata)>
        ensures list { self.new ≡ remove self.old key.now }
        ensures old { result ≡ get_with_metadata self.old key.now }
    {
        let index = self.inner.index_of(key)?;
        let (name, pair) = self.inner.remove_at(index)?;
        self.content_len -= weight_of(name.as_str(), &pair);
        Some(pair)
    }

    /// Returns the number of members, at most 64.
    pub fn len(&self) -> usize
        ensures len { result ≡ length self.now }
        ensures baggage { IsBaggage self.now }
    {
        self.inner.len()
    }

    /// Returns `true` if there are no members.
    pub fn is_empty(&self) -> bool
        ensures empty { IsTrue result ↔ (self.now ≡ []) }
        ensures baggage { IsBaggage self.now }
    {
        self.len() == 0
    }

    /// Returns an iterator over the members in order, each a key with its value and metadata.
    /// Doesn't allocate.
    pub fn iter(&self) -> Iter<'_>
        ensures list { result ≡ self.now }
        ensures baggage { IsBaggage self.now }
        ensures runs { ShowsInOrder lent_member }
    {
        Iter {
            entries: self.inner.iter(),
        }
    }

    /// Returns a baggage with these members, inserted in order. Members that aren't accepted are
    /// left out.
    ///
    /// # Errors
    ///
    /// `AllocError` if out of memory, which can only happen for a member that is accepted. All
    /// members are dropped.
    pub fn from_pairs(
        alloc: Global,
        members: Vec<(Key, (StringValue, BaggageMetadata))>,
    ) -> Result<Baggage, AllocError>
        ensures members { IfOk result (λ b. b ≡ from_members (entry_members members.items)) }
        ensures none_accepted { from_members (entry_members members.items) ≡ [] → IsOk result }
    {
        let mut baggage = Baggage::new(alloc);
        for (key, (value, metadata)) in members {
            drop(baggage.insert_with_metadata(key, value, metadata)?);
        }
        Ok(baggage)
    }

    /// Returns a baggage with these attributes, inserted in order, each with the printed text of
    /// its value and no metadata. Attributes that aren't accepted are left out.
    ///
    /// # Errors
    ///
    /// `AllocError` if out of memory, which can only happen for an attribute that is accepted or
    /// whose value isn't a text. All attributes are dropped.
    pub fn from_key_values(alloc: Global, attributes: Vec<KeyValue>) -> Result<Baggage, AllocError>
        ensures members { IfOk result (λ b.
            b ≡ from_members (map_list from_key_value attributes.items)) }
        ensures none_accepted { from_members (map_list from_key_value attributes.items) ≡ []
            → AreTexts attributes.items → IsOk result }
    {
        let mut baggage = Baggage::new(alloc);
        for attribute in attributes {
            let member = KeyValueMetadata::from_key_value(alloc, attribute)?;
            drop(baggage.insert_member(member)?);
        }
        Ok(baggage)
    }

    /// Returns a baggage with these members, inserted in order. Members that aren't accepted are
    /// left out.
    ///
    /// # Errors
    ///
    /// `AllocError` if out of memory, which can only happen for a member that is accepted. All
    /// members are dropped.
    pub fn from_key_values_with_metadata(
        alloc: Global,
        members: Vec<KeyValueMetadata>,
    ) -> Result<Baggage, AllocError>
        ensures members { IfOk result (λ b. b ≡ from_members members.items) }
        ensures none_accepted { from_members members.items ≡ [] → IsOk result }
    {
        let mut baggage = Baggage::new(alloc);
        for member in members {
            drop(baggage.insert_member(member)?);
        }
        Ok(baggage)
    }

    fn insert_member(
        &mut self,
        member: KeyValueMetadata,
    ) -> Result<Option<(StringValue, BaggageMetadata)>, AllocError>
        ensures { Inserts self.old self.new member (replaced self.old member) result }
    {
        let KeyValueMetadata {
            key,
            value,
            metadata,
        } = member;
        self.insert_with_metadata(key, value, metadata)
    }
}

impl fmt::Display for Baggage {
    ghost output = { λ baggage. Some (header baggage) };

    /// Writes the value of a `baggage` header, in one pass.
    fn fmt<W: fmt::Write>(&self, f: &mut fmt::Formatter<W>) -> fmt::Result {
        write_header(&self.inner, f)
    }
}

impl<'a> IntoIterator for &'a Baggage {
    ghost into_iter_gives = { λ baggage iter. iter ≡ baggage.now };

    type Item = (&'a Key, &'a (StringValue, BaggageMetadata));

    type IntoIter = Iter<'a>;

    /// Returns an iterator over the members in order, as [`Baggage::iter`] does.
    fn into_iter(self) -> Iter<'a> {
        self.iter()
    }
}

/// An iterator over the members of a [`Baggage`], in order. Contracts see it as the list of the
/// remaining members.
///
/// ```
/// for (key, (value, metadata)) in &baggage {
/// ```
#[derive(Debug, Drop)]
pub struct Iter<'a> {
    entries: Entries<'a>,
}

impl<'a> Model for Iter<'a> {
    ghost use Rattle.std.specs.Prelude.{List};
    ghost use Rattle.otel_context.specs.BaggageMember.{Member};
    ghost use Rattle.otel_context.specs.BaggageView.{entry_members};

    ghost Value = { List Member };

    ghost view = { λ i. entry_members i.entries };
}

impl<'a> Iterator for Iter<'a> {
    ghost use Rattle.std.specs.Prelude.{◌≡◌, length, Some, IfSome};
    ghost use Rattle.std.specs.Iterator.{at_most, UpTo};
    ghost use Rattle.std.specs.Iterator.SizeHint.{IsWithinCount};
    ghost use Rattle.std.specs.Map.Iter.{TakesFirst};
    ghost use Rattle.otel_context.specs.BaggageView.{lent_member};

    type Item = (&'a Key, &'a (StringValue, BaggageMetadata));

    ghost next_gives = { TakesFirst lent_member };

    ghost remaining = { λ s. at_most (length s) };

    /// Returns the next member, or `None` if none is left.
    fn next(&mut self) -> Option<(&'a Key, &'a (StringValue, BaggageMetadata))> {
        self.entries.next()
    }

    /// Returns the exact number of remaining members.
    fn size_hint(&self) -> (usize, Option<usize>)
        ensures lower { IsWithinCount result.0 (at_most (length self.now)) }
        ensures upper { IfSome result.1 (UpTo (at_most (length self.now))) }
        ensures exact { result ≡ (length self.now, Some (length self.now)) }
    {
        let len = self.entries.len();
        (len, Some(len))
    }
}
