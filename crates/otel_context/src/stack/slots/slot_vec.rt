//! The vector of the slots of a stack, and the only calls that access it.
//!
//! Each call reads or changes only the slots at the given positions, which must be live. There are
//! two exceptions: `ask` returns whether its position is live and counts the query; `set_live`
//! writes a slot that isn't live, and returns nothing of its old parts.
ghost use Rattle.std.specs.Prelude.{◌≡◌, ◌+◌, ◌<◌, ◌≤◌, ◌∷◌, [], true, false, length, IfOk};
ghost use Rattle.std.specs.Prelude.{IfSome, IfNone, OnSome, OnOk, OnErr};
ghost use Rattle.otel_context.specs.Links.{put, set_slot, slot_at, live_at, older_at, newer_at};
ghost use Rattle.otel_context.specs.Links.{shared_at, base_slot, live_slot, unlinked};
ghost use Rattle.otel_context.specs.Links.{covered, uncovered, with_older};
ghost use Rattle.otel_context.specs.Stack.{last_position};

use crate::context::Shared;
use crate::stack::counter::Counter;
use std::alloc::{AllocError, Global};
use std::marker::Model;
use std::mem::{self, size_of};

/// The slot of a position.
#[derive(Drop)]
struct Slot {
    // What the context that is live here shares. For the newest position, it is stored beside the
    // slots. A slot that isn't live has nothing, so it keeps no context alive.
    shared: Shared,
    is_live: bool,
    // The next lower live position, or 0. At position 0: the newest.
    older: u16,
    // The next higher live position, or 0. At position 0: the oldest.
    newer: u16,
}

const _: () = prove!(size_of::<Slot>() == 24);

/// The next lower and the next higher live position of a live one, or 0.
#[derive(Drop)]
pub struct Neighbors {
    pub older: u16,
    pub newer: u16,
}

/// A slot for each position, starting with the base at position 0.
#[derive(Drop)]
pub struct SlotVec {
    slots: Vec<Slot>,
    // The number of emptied slots that were stepped over. No call steps over one.
    stepped: Counter,
    // The number of calls of `ask`.
    asked: Counter,
}

impl Model for SlotVec {
    ghost use Rattle.std.specs.Prelude.{vec_capacity};
    ghost use Rattle.otel_context.specs.SlotVec.{SlotVecState, slot_vec_code};

    ghost Value = { SlotVecState };

    ghost coded = { slot_vec_code };

    ghost view = { λ s. record {
      items = s.slots.items;
      capacity = vec_capacity s.slots;
      stepped = s.stepped;
      asked = s.asked;
    } };
}

impl SlotVec {
    /// Returns only the base, with room for `capacity` more slots.
    pub fn with_capacity(alloc: Global, capacity: usize) -> Result<SlotVec, AllocError>
        requires { capacity < last_position }
        ensures items { IfOk result (λ s. s.items ≡ base_slot ∷ []) }
        ensures capacity { IfOk result (λ s. capacity < s.capacity) }
        ensures stepped { IfOk result (λ s. s.stepped ≡ 0) }
    {
        let mut slots = Vec::with_capacity(alloc, capacity + 1)?;
        slots.push(Slot {
            shared: Shared::Nothing,
            is_live: true,
            older: 0,
            newer: 0,
        })?;
        Ok(SlotVec {
            slots,
            stepped: Counter::new(),
            asked: Counter::new(),
        })
    }

    /// Returns the next lower live position, or 0. At position 0: the newest.
    pub fn older(&self, position: u16) -> u16
        requires { live_at self.now.items position ≡ true }
        ensures { result ≡ older_at self.now.items position }
    {
        self.slots[position as usize].older
    }

    /// Makes a dead position live, or appends its slot. No live slot may be above it.
    pub fn set_live(&mut self, position: u16, older: u16) -> Result<(), AllocError>
        requires within { position ≤ length self.old.items }
        requires dead { live_at self.old.items position ≡ false }
        ensures live { OnOk result (self.new.items ≡ put self.old.items position
            (live_slot older (slot_at self.old.items position))) }
        ensures err { OnErr result (self.new.items ≡ self.old.items) }
        ensures full { OnErr result (self.old.capacity ≤ position) }
        ensures capacity { self.old.capacity ≤ self.new.capacity }
        ensures stepped { self.new.stepped ≡ self.old.stepped }
        ensures asked { self.new.asked ≡ self.old.asked }
    {
        if (position as usize) < self.slots.len() {
            let slot = &mut self.slots[position as usize];
            slot.is_live = true;
            slot.older = older;
            slot.newer = 0;
        } else {
            self.slots.push(Slot {
                shared: Shared::Nothing,
                is_live: true,
                older,
                newer: 0,
            })?;
        }
        Ok(())
    }

    /// Sets the parts in a live position's slot, and the next higher live position.
    pub fn cover(&mut self, position: u16, shared: Shared, newer: u16)
        requires { live_at self.old.items position ≡ true }
        ensures { self.new ≡ record self.old {
          items = set_slot self.old.items position (covered shared newer);
        } }
    {
        let slot = &mut self.slots[position as usize];
        slot.shared = shared;
        slot.newer = newer;
    }

    /// Sets the next lower live position of a live position.
    pub fn set_older(&mut self, position: u16, older: u16)
        requires { live_at self.old.items position ≡ true }
        ensures { self.new ≡ record self.old {
          items = set_slot self.old.items position (with_older older);
        } }
    {
        self.slots[position as usize].older = older;
    }

    /// Makes a live position dead, and links its neighbors.
    pub fn unlink(&mut self, position: u16, older: u16, newer: u16)
        requires position { live_at self.old.items position ≡ true }
        requires older { live_at self.old.items older ≡ true }
        requires newer { live_at self.old.items newer ≡ true }
        ensures { self.new ≡ record self.old {
          items = unlinked position older newer self.old.items;
        } }
    {
        self.slots[position as usize].is_live = false;
        self.slots[older as usize].newer = newer;
        self.slots[newer as usize].older = older;
    }

    /// Takes the parts out of a live position's slot.
    pub fn uncover(&mut self, position: u16) -> Shared
        requires { live_at self.old.items position ≡ true }
        ensures given { result ≡ shared_at self.old.items position }
        ensures left { self.new ≡ record self.old {
          items = set_slot self.old.items position uncovered;
        } }
    {
        mem::replace(&mut self.slots[position as usize].shared, Shared::Nothing)
    }

    /// Returns the neighbors of a position, or `None` if it isn't live.
    ///
    /// No other call returns whether a position is live. A removal calls this once, for the
    /// position that it was given.
    pub fn ask(&mut self, position: u16) -> Option<Neighbors>
        requires { position < length self.old.items }
        ensures dead { IfNone result (live_at self.old.items position ≡ false) }
        ensures live { OnSome result (live_at self.old.items position ≡ true) }
        ensures older { IfSome result (λ neighbors.
            neighbors.older ≡ older_at self.old.items position) }
        ensures newer { IfSome result (λ neighbors.
            neighbors.newer ≡ newer_at self.old.items position) }
        ensures asked { self.new ≡ record self.old { asked = self.old.asked + 1 } }
    {
        self.asked.tick();
        let slot = &self.slots[position as usize];
        if !slot.is_live {
            return None;
        }
        Some(Neighbors {
            older: slot.older,
            newer: slot.newer,
        })
    }
}
