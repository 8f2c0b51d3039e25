//! The parts that wait for the collector.
ghost use Rattle.std.specs.Prelude.{◌≡◌, [], ◌∷◌, List, length};
ghost use Rattle.opentelemetry.specs.Clock.{within_u64};
ghost use Rattle.otel_sdk_base.specs.Export.{items_of};
ghost use Rattle.otel_otlp.specs.HttpPart.{PartOf, count_waiting, leave};

use crate::otlp_http::part::Part;
use otel_sdk_base::Accepted;
use std::alloc::Global;
use std::marker::Model;

/// How a part has left.
#[derive(Clone, Copy, Debug, PartialEq, Eq)]
pub enum End {
    /// The collector has taken it, and rejected this number of its items.
    Taken(u64),
    /// It was given up, and its items are counted.
    GivenUp,
}

/// The items of a part that has left. They exist only in contracts.
#[derive(Drop)]
pub struct Left<R> {
    items: Accepted<R>,
    end: End,
}

impl<R> Model for Left<R> {
    ghost use Rattle.otel_sdk_base.specs.Export.{items_of};
    ghost use Rattle.otel_otlp.specs.HttpPart.{LeftOf};

    ghost Value = { LeftOf R };

    ghost view = { λ l. record { items = items_of l.items.batches; end = l.end } };
}

/// The parts that wait, in order. Contracts also see the parts that have left.
pub struct Outbox<R> {
    parts: Vec<Part<R>>,
    left: Accepted<Left<R>>,
}

// Written out, so that a caller's proof has one call here, and not the drops of all parts.
impl<R> Drop for Outbox<R> {
    fn drop(self) {
        let Outbox { parts: _, left: _ } = self;
    }
}

impl<R> Model for Outbox<R> {
    ghost use Rattle.otel_sdk_base.specs.Export.{items_of};
    ghost use Rattle.otel_otlp.specs.HttpPart.{Box};

    ghost Value = { Box R };

    ghost view = { λ o. record {
      left = items_of o.left.batches;
      waiting = o.parts.items;
    } };
}

impl<R: Drop> Outbox<R> {
    /// Returns an outbox without parts.
    pub(crate) fn new(alloc: Global) -> Outbox<R>
        ensures { result ≡ record { left = []; waiting = [] } }
    {
        Outbox {
            parts: Vec::new(alloc),
            left: Accepted::new(),
        }
    }

    /// Returns the number of parts that wait.
    pub(crate) fn len(&self) -> usize
        ensures { result ≡ length self.now.waiting }
    {
        self.parts.len()
    }

    /// Returns the number of items of the parts that wait. Stops at the maximum `u64`.
    pub(crate) fn count(&self) -> u64
        ensures { result ≡ within_u64 (count_waiting self.now.waiting) }
    {
        let mut count = 0u64;
        for part in &self.parts {
            count = count.saturating_add(part.count());
        }
        count
    }

    /// Returns the part that waits first.
    pub(crate) fn first(&self) -> &Part<R>
        requires { ¬ (self.now.waiting ≡ []) }
        ensures { (more : List (PartOf R)) × (self.now.waiting ≡ result.now ∷ more) }
    {
        &self.parts[0]
    }

    /// Removes the part that waits first. Returns the number of its items.
    pub(crate) fn leave(&mut self, end: End) -> u64
        requires { ¬ (self.old.waiting ≡ []) }
        ensures { (part : PartOf R) × (self.old.waiting ≡ part ∷ self.new.waiting)
            × (self.new ≡ leave end part self.old) × (result ≡ length part.items) }
    {
        let part = self.parts.remove(0);
        let count = part.count();
        let left = Left {
            items: part.into_items(),
            end,
        };
        self.left = self.left.and_one(&left);
        count
    }

    /// Sets the parts that wait.
    pub(crate) fn fill(&mut self, parts: Vec<Part<R>>)
        ensures { self.new ≡ record self.old { waiting = parts.items } }
    {
        self.parts = parts;
    }
}
