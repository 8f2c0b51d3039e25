//! The named entries of a context.
ghost use Rattle.std.specs.Prelude.{◌≡◌, ◌↔◌, ◌<◌, ◌∷◌, IsTrue, length, IfOk, option_map};
ghost use Rattle.std.specs.Prelude.{slice_index};
ghost use Rattle.std.specs.FinMap as map;
ghost use Rattle.std.specs.List.Sorted.{IsSearchInRange, IsBinarySearchResult};
ghost use Rattle.otel_base.specs.View.{tree};
ghost use Rattle.otel_context.specs.View.{by_key, IsRising, entries_seen, AreInSlots, AreLasts};
ghost use Rattle.otel_context.specs.View.{IsInSlot, IsOtherAt, text_cmp, sort_key, slot_number};

use otel_base::{AnyValue, Key};
use std::alloc::{AllocError, Global};
use std::cmp::Ordering;
use std::marker::Model;
use std::rc::Rc;

/// The number of slots. Each name falls into one. More slots make a map larger and slower to copy;
/// with fewer, more names share a slot.
const SLOTS: usize = 128;

/// Stands for the index of a slot's last entry if the slot has none.
const EMPTY: u8 = u8::MAX;

/// Stands for the index of a slot's last entry if that is this or higher.
const FAR: u8 = EMPTY - 1;

/// A name and its value, which maps share.
#[derive(Drop)]
pub struct Entry {
    // The slot of the key. Kept because a map that shares the entry asks for it again.
    slot: usize,
    key: Key,
    value: AnyValue,
}

impl Entry {
    /// Returns the entry with this name and value.
    pub fn new(key: Key, value: AnyValue) -> Entry
        ensures slot { IsInSlot result }
        ensures key { result.key ≡ key }
        ensures value { result.value ≡ value }
    {
        let slot = slot_of(key.as_str());
        Entry { slot, key, value }
    }
}

/// Entries, and where to find the ones of a slot.
#[derive(Drop)]
struct Table {
    // In ascending order of their slots, and in a slot of the bytes of their keys.
    items: Vec<Rc<Entry>>,
    // For each slot the index of its last entry, `FAR` or `EMPTY`.
    lasts: [u8; SLOTS],
}

/// The entries of a map that isn't made yet. Making it can't fail.
#[derive(Drop)]
pub struct Items {
    items: Vec<Rc<Entry>>,
}

impl Model for Items {
    ghost use Rattle.otel_context.specs.Context.{EntryMap};
    ghost use Rattle.otel_context.specs.View.{AreInSlots, IsRising, entries_code, entries_seen};

    ghost Value = { EntryMap };

    ghost coded = { entries_code };

    ghost view = { λ i. entries_seen i.items.items };

    ghost invariant = { λ i. IsRising i.items.items × AreInSlots i.items.items };
}

/// A map from names to values, with distinct names.
///
/// Immutable. A map that differs in one entry shares the others.
#[derive(Drop)]
pub struct Entries {
    table: Table,
}

impl Model for Entries {
    ghost use Rattle.otel_context.specs.Context.{EntryMap};
    ghost use Rattle.otel_context.specs.View.{entries_code};
    ghost use Rattle.otel_context.specs.View.{entries_seen, IsRising, AreInSlots, AreLasts};

    ghost Value = { EntryMap };

    ghost coded = { entries_code };

    ghost view = { λ e. entries_seen e.table.items.items };

    ghost invariant = { λ e. IsRising e.table.items.items
        × AreInSlots e.table.items.items × AreLasts e.table.lasts e.table.items.items };
}

impl Entries {
    /// Returns the empty map. Doesn't allocate.
    pub fn new(alloc: Global) -> Entries
        ensures { result ≡ map.empty }
    {
        Entries {
            table: Table {
                items: Vec::new(alloc),
                lasts: [EMPTY; SLOTS],
            },
        }
    }

    /// Returns the value named `key`.
    ///
    /// Compares `key` with the last name of its slot, and with the others only if they differ.
    #[inline(always)]
    pub fn get(&self, key: &str) -> Option<&AnyValue>
        ensures { option_map (λ v. tree v.now) result ≡ map.get self.now key.now }
    {
        let last = self.table.lasts[slot_of(key)];
        if last == EMPTY {
            return None;
        }
        let entry = &self.table.items[usize::from(last)];
        if key == entry.key.as_str() {
            return Some(&entry.as_ref().value);
        }
        self.table.get_older(key)
    }

    /// Returns `true` if the map has no entries.
    pub fn is_empty(&self) -> bool
        ensures { IsTrue result ↔ (self.now ≡ map.empty) }
    {
        self.table.items.is_empty()
    }

    /// Returns what a map with the entry set is made from, replacing any entry with its name.
    ///
    /// # Errors
    ///
    /// `AllocError` if out of memory. The entry is dropped.
    pub fn with(&self, alloc: Global, entry: Rc<Entry>) -> Result<Items, AllocError>
        requires slot { IsInSlot entry.value }
        ensures { IfOk result (λ items. items
            ≡ map.insert self.now entry.value.key (tree entry.value.value)) }
    {
        let items = with_entry(alloc, &self.table.items, entry)?;
        Ok(Items { items })
    }
}

impl From<Items> for Entries {
    ghost from_gives = { λ items entries. entries ≡ items };

    fn from(items: Items) -> Entries {
        let Items { items } = items;
        let lasts = lasts_of(&items);
        Entries {
            table: Table { items, lasts },
        }
    }
}

impl Clone for Entries {
    ghost is_clone = { λ e copy. copy ≡ e };

    fn clone(&self) -> Result<Entries, AllocError> {
        Ok(Entries {
            table: Table {
                items: self.table.items.clone()?,
                lasts: self.table.lasts,
            },
        })
    }
}

impl Table {
    /// Returns the value named `key`, which isn't the name of the entry that `get` compared.
    // Cold, so that `get`, which rarely calls it, needs fewer registers and jumps.
    #[cold]
    fn get_older(&self, key: &str) -> Option<&AnyValue>
        requires rising { IsRising self.now.items.items }
        requires in_slots { AreInSlots self.now.items.items }
        requires lasts { AreLasts self.now.lasts self.now.items.items }
        requires has_last { slice_index self.now.lasts (slot_number key.now) < 255 }
        requires is_older { IsOtherAt key.now self.now.items.items
            (slice_index self.now.lasts (slot_number key.now)) }
        ensures { option_map (λ v. tree v.now) result
            ≡ map.get (entries_seen self.now.items.items) key.now }
    {
        let slot = slot_of(key);
        let last = self.lasts[slot];
        if last == FAR {
            return get_far(&self.items, slot, key);
        }
        let end = usize::from(last);
        let mut first = end;
        while first > 0 && self.items[first - 1].slot == slot {
            first -= 1;
        }
        for older in &self.items[first..end] {
            if key == older.key.as_str() {
                return Some(&older.as_ref().value);
            }
        }
        None
    }
}

/// Returns the value named `key`, by binary search.
// Not inlined, so that `get_older`, which rarely calls it, needs fewer registers.
#[inline(never)]
fn get_far<'a>(items: &'a [Rc<Entry>], slot: usize, key: &str) -> Option<&'a AnyValue>
    requires rising { IsRising items.now }
    requires in_slots { AreInSlots items.now }
    requires slot { slot ≡ slot_number key.now }
    ensures { option_map (λ v. tree v.now) result ≡ map.get (entries_seen items.now) key.now }
{
    match search(items, slot, key) {
        Ok(at) => Some(&items[at].as_ref().value),
        Err(_) => None,
    }
}

/// Returns these entries with another one added, replacing any entry with the same name.
fn with_entry(
    alloc: Global,
    items: &[Rc<Entry>],
    entry: Rc<Entry>,
) -> Result<Vec<Rc<Entry>>, AllocError>
    requires rising { IsRising items.now }
    requires in_slots { AreInSlots items.now }
    requires slot { IsInSlot entry.value }
    ensures rising { IfOk result (λ es. IsRising es.items) }
    ensures in_slots { IfOk result (λ es. AreInSlots es.items) }
    ensures inserted { IfOk result (λ es. entries_seen es.items
        ≡ map.insert (entries_seen items.now) entry.value.key (tree entry.value.value)) }
{
    let (before, after) = match search(items, entry.slot, entry.key.as_str()) {
        Ok(at) => (at, at + 1),
        Err(at) => (at, at),
    };
    let mut made = Vec::with_capacity(alloc, items.len().saturating_add(1))?;
    made.extend_with_clones(&items[..before])?;
    made.push(entry)?;
    made.extend_with_clones(&items[after..])?;
    Ok(made)
}

/// Returns the index of the entry in this slot named `key`, or the index at which to insert it, by
/// binary search.
fn search(items: &[Rc<Entry>], slot: usize, key: &str) -> Result<usize, usize>
    ensures bound { IsSearchInRange result (length items.now) }
    ensures position { IsBinarySearchResult (by_key (slot ∷ key.now)) items.now result }
{
    items.binary_search_by(|entry| compare(entry, slot, key))
}

/// Compares the slots, and the keys if the slots are equal.
fn compare(entry: &Entry, slot: usize, key: &str) -> Ordering
    ensures { result ≡ text_cmp (sort_key entry.now) (slot ∷ key.now) }
{
    if entry.slot == slot {
        entry.key.as_str().cmp(key)
    } else {
        entry.slot.cmp(&slot)
    }
}

/// Returns the slot of a name: a mix of its length and three of its bytes, the first one and, since
/// names are often numbered, the last two.
fn slot_of(name: &str) -> usize
    ensures { result ≡ slot_number name.now }
{
    let bytes = name.as_bytes();
    let length = bytes.len();
    if length < 2 {
        return bytes.first().map_or(0, |byte| usize::from(*byte) % SLOTS);
    }
    let first = usize::from(bytes[0]);
    let last_but_one = usize::from(bytes[length - 2]);
    let last = usize::from(bytes[length - 1]);
    (4 * (length % SLOTS) + first + 10 * last_but_one + last) % SLOTS
}

/// Returns for each slot the index of its last entry, `FAR` or `EMPTY`.
fn lasts_of(items: &[Rc<Entry>]) -> [u8; SLOTS]
    requires { AreInSlots items.now }
    ensures { AreLasts result items.now }
{
    let mut lasts = [EMPTY; SLOTS];
    let mut index = 0u8;
    for entry in items {
        lasts[entry.slot] = index;
        if index < FAR {
            index += 1;
        }
    }
    lasts
}
