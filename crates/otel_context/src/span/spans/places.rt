//! Where the spans of a table are.
ghost use Rattle.std.specs.Prelude.{◌<◌, OnOk};
ghost use Rattle.std.specs.Vec.{vec_len, vec_capacity};
ghost use Rattle.otel_context.specs.SpanPlaces.{Finds, IsIndexOf, KeepsPlaces, MovesTo, TakesOut};

use std::alloc::AllocError;

// A number that was given out, and the index of its slot, or `None` once its span was taken.
#[derive(Drop)]
pub(super) struct Place {
    pub(super) number: u64,
    pub(super) slot: Option<usize>,
}

// Returns the index of the slot with the number.
pub(super) fn slot_of(places: &[Place], number: u64) -> Option<usize>
    ensures { Finds places.now number result }
{
    let index = index_of(places, number)?;
    places[index].slot
}

// Gives the number another slot, if it has a place.
pub(super) fn move_to(places: &mut Vec<Place>, number: u64, slot: usize)
    ensures { MovesTo places.old.items number slot places.new.items }
{
    if let Some(index) = index_of(places, number) {
        places[index].slot = Some(slot);
    }
}

// Makes room for one more place. If fifteen of sixteen are vacant, that is theirs. `live` is the
// number of spans.
#[inline(always)]
pub(super) fn reserve_place(places: &mut Vec<Place>, live: usize) -> Result<(), AllocError>
    ensures kept { KeepsPlaces places.old.items places.new.items }
    ensures room { OnOk result (vec_len places.new < vec_capacity places.new) }
{
    if places.len() == places.capacity() && places.len() / 16 >= live {
        drop_vacant(places);
    }
    places.reserve(1)
}

// Takes out the number, and returns the index of its slot. Drops its place if that is the last one.
#[inline(always)]
pub(super) fn vacate(places: &mut Vec<Place>, number: u64) -> Option<usize>
    ensures { TakesOut places.old.items number result places.new.items }
{
    let index = index_of(places, number)?;
    if index + 1 == places.len() {
        return places.pop()?.slot;
    }
    places[index].slot.take()
}

// Drops the places of spans that were taken.
#[inline(never)]
pub(super) fn drop_vacant(places: &mut Vec<Place>)
    ensures { KeepsPlaces places.old.items places.new.items }
{
    places.retain(|place| place.slot.is_some());
}

// Returns the index of the place of the number. The last places mostly have consecutive numbers, so
// one index is tried before a search.
fn index_of(places: &[Place], number: u64) -> Option<usize>
    ensures { IsIndexOf places.now number result }
{
    let len = places.len();
    if len == 0 || places[len - 1].number < number {
        return None;
    }
    let below = (places[len - 1].number - number) as usize;
    if below < len && places[len - 1 - below].number == number {
        return Some(len - 1 - below);
    }
    places
        .binary_search_by_key(&number, |place| place.number)
        .ok()
}
