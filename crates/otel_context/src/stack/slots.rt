//! The slots of the attached contexts, linked in the order of their positions.
//!
//! They are reached only through the calls of `slot_vec`. Every slot that is read is live, except
//! the slot of a position to be removed.
ghost use Rattle.std.specs.Prelude.{◌≡◌, ◌+◌, ◌<◌, ◌≤◌, [], IfOk, OnOk, OnErr};
ghost use Rattle.otel_context.specs.Stack.{newest_position, current, context_at, attach, detach};
ghost use Rattle.otel_context.specs.Stack.{last_position};
ghost use Rattle.otel_context.specs.Slots.{live_of};

mod slot_vec;

use self::slot_vec::{Neighbors, SlotVec};
use crate::context::{Context, of_shared, replace_shared};
use std::alloc::{AllocError, Global};
use std::marker::Model;

/// The slots, starting with the base at position 0, and the current context.
///
/// A live slot has the positions of its live neighbors.
#[derive(Drop)]
pub struct Slots {
    slots: SlotVec,
    // The context of the newest live position, or the empty context.
    current: Context,
}

impl Model for Slots {
    ghost use Rattle.std.specs.Prelude.{◌-◌};
    ghost use Rattle.otel_context.specs.Slots.{SlotsState};
    ghost use Rattle.otel_context.specs.Links.{occupants, IsLinked};
    ghost use Rattle.otel_context.specs.View.{slots_code};

    ghost Value = { SlotsState };

    ghost coded = { slots_code };

    ghost view = { λ s. record {
      slots = occupants s.current s.slots.items;
      capacity = s.slots.capacity - 1;
      stepped = s.slots.stepped;
      asked = s.slots.asked;
    } };

    ghost invariant = { λ s. IsLinked s.current s.slots.items };
}

impl Slots {
    /// Returns only the base, with room for `capacity` attachments.
    pub fn with_capacity(alloc: Global, capacity: usize) -> Result<Slots, AllocError>
        requires { capacity < last_position }
        ensures slots { IfOk result (λ s. s.slots ≡ []) }
        ensures stepped { IfOk result (λ s. s.stepped ≡ 0) }
        ensures capacity { IfOk result (λ s. capacity ≤ s.capacity) }
    {
        Ok(Slots {
            slots: SlotVec::with_capacity(alloc, capacity)?,
            current: Context::new(),
        })
    }

    /// Returns the newest live position, or 0.
    pub fn newest(&self) -> u16
        ensures newest { result ≡ newest_position (live_of self.now) }
        ensures within { result ≤ last_position }
    {
        self.slots.older(0)
    }

    /// Returns the context of the newest live position, or the empty context.
    pub fn current(&self) -> &Context
        ensures { result.now ≡ current (live_of self.now) }
    {
        &self.current
    }

    /// Makes the position above the newest one live, and returns it. Adds a slot if it has none.
    // Inlined, since a call copies the context.
    #[inline(always)]
    pub fn push(&mut self, context: Context) -> Result<u16, AllocError>
        requires { newest_position (live_of self.old) < last_position }
        ensures position { IfOk result (λ position.
            position ≡ newest_position (live_of self.old) + 1) }
        ensures live { OnOk result (live_of self.new ≡ attach context (live_of self.old)) }
        ensures err { OnErr result (live_of self.new ≡ live_of self.old) }
        ensures full { OnErr result (self.old.capacity ≤ newest_position (live_of self.old)) }
        ensures stepped { self.new.stepped ≡ self.old.stepped }
        ensures asked { self.new.asked ≡ self.old.asked }
        ensures capacity { self.old.capacity ≤ self.new.capacity }
    {
        let newest = self.newest();
        let position = newest + 1;
        self.slots.set_live(position, newest)?;
        let below = replace_shared(&mut self.current, context.into_shared());
        self.slots.cover(newest, below, position);
        self.slots.set_older(0, position);
        Ok(position)
    }

    /// Makes the position dead, links its neighbors, and returns the context that was live there.
    pub fn take(&mut self, position: u16) -> Option<Context>
        requires above { 0 < position }
        requires below { position ≤ newest_position (live_of self.old) }
        ensures given { result ≡ context_at position (live_of self.old) }
        ensures live { live_of self.new ≡ detach position (live_of self.old) }
        ensures stepped { self.new.stepped ≡ self.old.stepped }
        ensures asked { self.new.asked ≡ self.old.asked + 1 }
        ensures capacity { self.new.capacity ≡ self.old.capacity }
    {
        let Some(Neighbors { older, newer }) = self.slots.ask(position) else {
            return None;
        };
        if newer > 0 {
            let shared = self.slots.uncover(position);
            self.slots.unlink(position, older, newer);
            return Some(of_shared(shared));
        }
        self.slots.unlink(position, older, newer);
        let below = self.slots.uncover(older);
        let shared = replace_shared(&mut self.current, below);
        Some(of_shared(shared))
    }
}
