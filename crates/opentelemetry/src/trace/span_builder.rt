//! The builder of a span.
ghost use Rattle.std.specs.Prelude.{◌≡◌, IfOk, Some, [], map};
ghost use Rattle.otel_context.specs.SpanEffects.{attributes_of};
ghost use Rattle.otel_context.specs.Stack.{current};
ghost use Rattle.opentelemetry.specs.SpanBuilder.{from_name, is_valid_link, valid_links};
ghost use Rattle.opentelemetry.specs.SpanBuilder.{with_attribute, with_links};
ghost use Rattle.otel_base.specs.View.{value_of};
ghost use Rattle.otel_base.specs.declared.value.Value.{Value};
ghost use Rattle.opentelemetry.specs.View.{builder_of, event_of, link_of};

use crate::trace::attributes::copy_attributes;
use crate::trace::event::Event;
use crate::trace::link::Link;
use crate::trace::tracer::Tracer;
use otel_base::{Key, KeyValue, StringValue, Value};
use otel_context::{Context, ContextStack, SpanKind};
use std::alloc::{AllocError, Global};

/// The initial parts of a span (the Rust crate's `SpanBuilder`).
///
/// Use it to start a span that needs more than a name. A field that is `None` is left to the
/// tracer. Contracts see the record of the six parts.
///
/// See [`SpanKind`](otel_context::SpanKind).
#[derive(Debug, Drop)]
pub struct SpanBuilder {
    /// Which side of a call the span describes.
    pub span_kind: Option<SpanKind>,
    /// The name of the span.
    pub name: StringValue,
    /// The start time, in nanoseconds since 1970-01-01T00:00:00Z.
    pub start_time: Option<u64>,
    /// Its attributes, in the given order.
    pub attributes: Option<Vec<KeyValue>>,
    /// Events that happened before the start.
    pub events: Option<Vec<Event>>,
    /// Its links to other spans.
    pub links: Option<Vec<Link>>,
}

impl SpanBuilder {
    /// Returns a builder with only the name set.
    pub fn from_name(name: StringValue) -> SpanBuilder
        ensures { builder_of result ≡ from_name name }
    {
        SpanBuilder {
            span_kind: None,
            name,
            start_time: None,
            attributes: None,
            events: None,
            links: None,
        }
    }

    /// Sets the kind: which side of a call the span describes.
    pub fn with_kind(self, span_kind: SpanKind) -> SpanBuilder
        ensures { builder_of result ≡ record (builder_of self) { span_kind = Some span_kind } }
    {
        SpanBuilder {
            span_kind: Some(span_kind),
            ..self
        }
    }

    /// Sets the start time, in nanoseconds since 1970-01-01T00:00:00Z.
    pub fn with_start_time(self, start_time: u64) -> SpanBuilder
        ensures { builder_of result ≡ record (builder_of self) { start_time = Some start_time } }
    {
        SpanBuilder {
            start_time: Some(start_time),
            ..self
        }
    }

    /// Sets the attributes, replacing any set before.
    pub fn with_attributes(self, attributes: Vec<KeyValue>) -> SpanBuilder
        ensures { builder_of result ≡ record (builder_of self) {
          attributes = Some (attributes_of attributes);
        } }
    {
        SpanBuilder {
            attributes: Some(attributes),
            ..self
        }
    }

    /// Adds an attribute after those that are set.
    ///
    /// ```
    /// let span = SpanBuilder::from_name(operation.into())
    ///     .with_kind(SpanKind::Client)
    ///     .with_attribute(alloc, "db.operation.name", operation)?
    ///     .with_attribute(alloc, "db.query.text", String::from_str(alloc, key)?)?;
    /// ```
    ///
    /// # Errors
    ///
    /// `AllocError` if out of memory. The builder and the value are dropped.
    pub fn with_attribute<V>(
        self,
        alloc: Global,
        key: &'static str,
        value: V,
    ) -> Result<SpanBuilder, AllocError>
    where
        Value: From<V>,
        ensures { IfOk result (λ b. (made : Value) × ⟦<Value as From<V>>⟧.from_gives value made
            × (builder_of b ≡ with_attribute (builder_of self) (key.now, value_of made))) }
    {
        let attribute = KeyValue::new(Key::from(key), Value::from(value));
        let SpanBuilder {
            span_kind,
            name,
            start_time,
            attributes,
            events,
            links,
        } = self;
        let mut attributes = match attributes {
            Some(attributes) => attributes,
            None => Vec::new(alloc),
        };
        attributes.push(attribute)?;
        let attributes = Some(attributes);
        Ok(SpanBuilder {
            span_kind,
            name,
            start_time,
            attributes,
            events,
            links,
        })
    }

    /// Sets the events, replacing any set before.
    pub fn with_events(self, events: Vec<Event>) -> SpanBuilder
        ensures { builder_of result ≡ record (builder_of self) {
          events = Some (map event_of events.items);
        } }
    {
        SpanBuilder {
            events: Some(events),
            ..self
        }
    }

    /// Sets the links, replacing any set before. Keeps only links with a valid span context, in the
    /// given order.
    pub fn with_links(self, links: Vec<Link>) -> SpanBuilder
        ensures { builder_of result ≡ with_links (builder_of self) (map link_of links.items) }
    {
        SpanBuilder {
            links: Some(valid_links(links)),
            ..self
        }
    }

    /// Starts a span from this builder, with the current context as its parent.
    ///
    /// # Errors
    ///
    /// `AllocError` if out of memory. The builder is dropped.
    pub fn start<T: Tracer>(
        self,
        alloc: Global,
        tracer: &T,
        stack: &ContextStack,
    ) -> Result<T::Span, AllocError>
        ensures { IfOk result
            (T.may_build tracer.now (builder_of self) (current stack.now.live)) }
    {
        self.start_with_context(alloc, tracer, stack.current())
    }

    /// Starts a span from this builder, with the given parent context.
    ///
    /// # Errors
    ///
    /// `AllocError` if out of memory. The builder is dropped.
    pub fn start_with_context<T: Tracer>(
        self,
        alloc: Global,
        tracer: &T,
        parent: &Context,
    ) -> Result<T::Span, AllocError>
        ensures { IfOk result (T.may_build tracer.now (builder_of self) parent.now) }
    {
        tracer.build_with_context(alloc, self, parent)
    }
}

// Returns the links with a valid span context, in order.
fn valid_links(links: Vec<Link>) -> Vec<Link>
    ensures { map link_of result.items ≡ valid_links (map link_of links.items) }
{
    let mut valid = links;
    valid.retain(is_valid_link);
    valid
}

fn is_valid_link(linked: &Link) -> bool
    ensures { result ≡ is_valid_link (link_of linked.now) }
{
    linked.span_context.is_valid()
}

impl Default for SpanBuilder {
    ghost is_default = { λ b. builder_of b ≡ from_name [] };

    /// Returns a builder with an empty name and nothing else set.
    fn default() -> SpanBuilder {
        SpanBuilder::from_name(StringValue::from(""))
    }
}

fn copy_events(events: &Vec<Event>) -> Result<Vec<Event>, AllocError>
    ensures { IfOk result (λ copy. map event_of copy.items ≡ map event_of events.now.items) }
{
    Ok(events.clone()?)
}

fn copy_links(links: &Vec<Link>) -> Result<Vec<Link>, AllocError>
    ensures { IfOk result (λ copy. map link_of copy.items ≡ map link_of links.now.items) }
{
    Ok(links.clone()?)
}

impl Clone for SpanBuilder {
    ghost is_clone = { λ b copy. builder_of copy ≡ builder_of b };

    /// Returns a builder with the same parts.
    ///
    /// # Errors
    ///
    /// `AllocError` if out of memory. The builder is unchanged.
    fn clone(&self) -> Result<SpanBuilder, AllocError> {
        Ok(SpanBuilder {
            span_kind: self.span_kind,
            name: self.name.clone()?,
            start_time: self.start_time,
            attributes: match &self.attributes {
                Some(attributes) => Some(copy_attributes(attributes)?),
                None => None,
            },
            events: match &self.events {
                Some(events) => Some(copy_events(events)?),
                None => None,
            },
            links: match &self.links {
                Some(links) => Some(copy_links(links)?),
                None => None,
            },
        })
    }
}
