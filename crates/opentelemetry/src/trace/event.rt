//! Events of spans.
ghost use Rattle.std.specs.Prelude.{◌≡◌, ◌↔◌, IsTrue, []};
ghost use Rattle.std.specs.Cmp.{on_per, partial_equiv_from_equiv};
ghost use Rattle.otel_base.specs.KeyValueLaws.{equiv_from_decides};
ghost use Rattle.otel_context.specs.SpanEffects.{attributes_of};
ghost use Rattle.opentelemetry.specs.Event.{new_event, event_eq, event_eq-Decides};
ghost use Rattle.opentelemetry.specs.View.{event_of};

use crate::trace::attributes::{copy_attributes, same_attributes};
use otel_base::{KeyValue, StringValue};
use std::alloc::{AllocError, Global};

/// Something that happened at a point in time during a span (the Rust crate's `Event`).
///
/// Contracts see the record of its four parts, the attributes as a list.
#[derive(Debug, Drop)]
pub struct Event {
    /// The name of the event.
    pub name: StringValue,
    /// When it happened, in nanoseconds since 1970-01-01T00:00:00Z.
    pub timestamp: u64,
    /// Its attributes, in the given order.
    pub attributes: Vec<KeyValue>,
    /// The number of dropped attributes, for example because of a limit.
    pub dropped_attributes_count: u32,
}

impl Event {
    /// Returns an event with these four parts.
    pub fn new(
        name: StringValue,
        timestamp: u64,
        attributes: Vec<KeyValue>,
        dropped_attributes_count: u32,
    ) -> Event
        ensures { event_of result
            ≡ new_event name timestamp (attributes_of attributes) dropped_attributes_count }
    {
        Event {
            name,
            timestamp,
            attributes,
            dropped_attributes_count,
        }
    }

    /// Returns an event without attributes, at `timestamp` nanoseconds since 1970-01-01T00:00:00Z.
    pub fn with_name(alloc: Global, name: StringValue, timestamp: u64) -> Event
        ensures { event_of result ≡ new_event name timestamp [] 0 }
    {
        Event::new(name, timestamp, Vec::new(alloc), 0)
    }
}

impl Clone for Event {
    ghost is_clone = { λ e copy. event_of copy ≡ event_of e };

    /// Returns an event with the same parts.
    ///
    /// # Errors
    ///
    /// `AllocError` if out of memory. The event is unchanged.
    fn clone(&self) -> Result<Event, AllocError> {
        Ok(Event {
            name: self.name.clone()?,
            timestamp: self.timestamp,
            attributes: copy_attributes(&self.attributes)?,
            dropped_attributes_count: self.dropped_attributes_count,
        })
    }
}

impl PartialEq for Event {
    ghost eq = { λ a b. event_eq (event_of a) (event_of b) };

    ghost laws = { on_per event_of (partial_equiv_from_equiv
        (equiv_from_decides event_eq event_eq-Decides)) };

    /// Returns `true` if both have the same four parts, with the attributes in the same order.
    fn eq(&self, other: &Event) -> bool
        ensures value { result ≡ event_eq (event_of self.now) (event_of other.now) }
        ensures same { IsTrue result ↔ (event_of self.now ≡ event_of other.now) }
    {
        self.name == other.name
            && self.timestamp == other.timestamp
            && same_attributes(&self.attributes, &other.attributes)
            && self.dropped_attributes_count == other.dropped_attributes_count
    }
}
