//! A span that keeps a list of the effects of its calls.
ghost use Rattle.std.specs.Prelude.{◌≡◌, OnOk, OnErr, map, refl, true, false};

use otel_base::{KeyValue, StringValue};
use otel_context::{Span, Status};
use otel_ids::SpanContext;
use std::alloc::{AllocError, Global};
use std::marker::Model;

/// An effect of a call that a span keeps.
///
/// See [`RecordingSpan::effects`].
#[derive(Debug, Drop)]
pub enum Effect {
    /// An event: its name, its time in nanoseconds since 1970, and its attributes.
    Event(StringValue, u64, Vec<KeyValue>),
    /// An attribute.
    Attribute(KeyValue),
    /// A link: the other span, and the attributes.
    Link(SpanContext, Vec<KeyValue>),
}

/// A span for tests. It keeps its events, attributes and links, even if it doesn't record.
///
/// It records until it ends, until [`RecordingSpan::stop`], or until the first attribute after
/// [`RecordingSpan::stop_at_attribute`]. It can be made to fail as if out of memory: see
/// [`RecordingSpan::fail_after`].
pub struct RecordingSpan {
    context: SpanContext,
    name: StringValue,
    effects: Vec<Effect>,
    status: Status,
    ended: Option<u64>,
    recording: bool,
    stops_at_attribute: bool,
    // The number of effects that it can still keep. No contract sees it.
    room: u64,
}

// Inlined, since a table that drops a span would copy it to call this.
impl Drop for RecordingSpan {
    #[inline(always)]
    fn drop(self) {
        let RecordingSpan {
            context: _,
            name: _,
            effects: _,
            status: _,
            ended: _,
            recording: _,
            stops_at_attribute: _,
            room: _,
        } = self;
    }
}

impl Model for RecordingSpan {
    ghost use Rattle.std.specs.Prelude.{map};
    ghost use Rattle.otel_examples.specs.Recording.{Recorded, kept};

    ghost Value = { Recorded };

    ghost view = { λ s. record {
      context = s.context;
      name = s.name;
      effects = map kept s.effects.items;
      status = s.status;
      ended = s.ended;
      recording = s.recording;
      stops_at_attribute = s.stops_at_attribute;
    } };
}

impl RecordingSpan {
    ghost use Rattle.otel_examples.specs.Recording.{new, kept, with_effect};

    /// Returns a span without effects. Doesn't allocate.
    pub fn new(alloc: Global, context: SpanContext, name: StringValue) -> RecordingSpan
        ensures { result ≡ new context name }
    {
        RecordingSpan {
            context,
            name,
            effects: Vec::new(alloc),
            status: Status::Unset,
            ended: None,
            recording: true,
            stops_at_attribute: false,
            room: u64::MAX,
        }
    }

    /// Makes the next attribute stop the recording.
    pub fn stop_at_attribute(&mut self)
        ensures { self.new ≡ record self.old { stops_at_attribute = true } }
    {
        self.stops_at_attribute = true;
    }

    /// Stops the recording.
    pub fn stop(&mut self)
        ensures { self.new ≡ record self.old { recording = false } }
    {
        self.recording = false;
    }

    /// Makes each event, attribute and link after the next `taken` ones fail as if out of memory.
    pub fn fail_after(&mut self, taken: u64)
        ensures { self.new ≡ self.old }
    {
        self.room = taken;
    }

    /// Returns the effects that it keeps, in order.
    pub fn effects(&self) -> &[Effect]
        ensures { map kept result.now ≡ self.now.effects }
    {
        self.effects.as_slice()
    }

    /// Returns the name.
    pub fn name(&self) -> &str
        ensures { result.now ≡ self.now.name }
    {
        self.name.as_str()
    }

    /// Returns the status.
    pub fn status(&self) -> &Status
        ensures { result.now ≡ self.now.status }
    {
        &self.status
    }

    /// Returns the time at which it ended, in nanoseconds since 1970.
    pub fn ended(&self) -> Option<u64>
        ensures { result ≡ self.now.ended }
    {
        self.ended
    }

    // Keeps one more effect, if it can.
    fn keep(&mut self, effect: Effect) -> Result<(), AllocError>
        ensures ok { OnOk result (self.new ≡ with_effect self.old (kept effect)) }
        ensures err { OnErr result (self.new ≡ self.old) }
    {
        if self.room == 0 {
            return Err(AllocError);
        }
        self.effects.push(effect)?;
        self.room -= 1;
        Ok(())
    }
}

impl Span for RecordingSpan {
    ghost use Rattle.otel_examples.specs.Recording.{with_event, with_attribute, with_link};
    ghost use Rattle.otel_examples.specs.Recording.{with_end};

    ghost context_of = { λ span. span.context };

    ghost records = { λ span. span.recording };

    ghost after_event = { with_event };

    ghost after_attribute = { with_attribute };

    ghost after_link = { with_link };

    ghost after_status = { λ span status. record span { status = status } };

    ghost after_name = { λ span name. record span { name = name } };

    ghost after_end = { with_end };

    fn add_event_with_timestamp(
        &mut self,
        _alloc: Global,
        name: StringValue,
        timestamp: u64,
        attributes: Vec<KeyValue>,
    ) -> Result<(), AllocError> {
        self.keep(Effect::Event(name, timestamp, attributes))
    }

    fn set_attribute(&mut self, _alloc: Global, attribute: KeyValue) -> Result<(), AllocError> {
        self.keep(Effect::Attribute(attribute))?;
        self.recording = self.recording && !self.stops_at_attribute;
        Ok(())
    }

    fn add_link(
        &mut self,
        _alloc: Global,
        span_context: SpanContext,
        attributes: Vec<KeyValue>,
    ) -> Result<(), AllocError> {
        self.keep(Effect::Link(span_context, attributes))
    }

    fn set_status(&mut self, status: Status) {
        self.status = status;
    }

    fn update_name(&mut self, name: StringValue) {
        self.name = name;
    }

    fn end_with_timestamp(&mut self, timestamp: u64) {
        self.ended = Some(timestamp);
        self.recording = false;
    }

    fn span_context(&self) -> &SpanContext {
        &self.context
    }

    fn is_recording(&self) -> bool {
        self.recording
    }

    ghost event_keeps = { λ span name time attributes. refl };

    ghost attribute_keeps = { λ span attribute. refl };

    ghost link_keeps = { λ span linked attributes. refl };

    ghost status_keeps = { λ span status. refl };

    ghost name_keeps = { λ span name. refl };

    ghost end_keeps = { λ span time. refl };
}
