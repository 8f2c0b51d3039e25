//! The recorded data of a span.
ghost use Rattle.std.specs.Prelude.{◌≡◌, IfOk, OnOk, OnErr, fold, map};
ghost use Rattle.otel_base.specs.View.{attribute_of};
ghost use Rattle.opentelemetry.specs.View.{event_of, link_of};
ghost use Rattle.otel_sdk_base.specs.Attributes.{attributes_of};
ghost use Rattle.otel_sdk_span.specs.Span as spec;

use crate::limits::{SpanLimits, limited_event, limited_link};
use opentelemetry::trace::{Event, Link, SpanContext, SpanId, SpanKind, Status, TraceState};
use opentelemetry::{InstrumentationScope, KeyValue, StringValue};
use otel_sdk_base::attributes::{set, up_by};
use otel_sdk_base::cutting::cut;
use std::alloc::{AllocError, Global};
use std::marker::Model;
use std::mem;
use std::rc::Rc;

/// The recorded data of a span, for processors and exporters (the Rust crate's `SpanData`).
///
/// Contracts see the record of its parts, with each list next to its count.
#[derive(Debug, Drop)]
pub struct SpanData {
    /// The span context, which identifies the span.
    pub span_context: SpanContext,
    /// The span id of the parent, or [`SpanId::INVALID`] for a root.
    pub parent_span_id: SpanId,
    /// Whether the parent came from another process.
    pub parent_span_is_remote: bool,
    /// The side of a call that the span describes.
    pub span_kind: SpanKind,
    /// The name of the span.
    pub name: StringValue,
    /// The time of the start, in nanoseconds since 1970-01-01T00:00:00Z.
    pub start_time: u64,
    /// The time of the end, in nanoseconds since 1970-01-01T00:00:00Z. It may be before the start.
    pub end_time: u64,
    /// The attributes, in order.
    pub attributes: Vec<KeyValue>,
    /// The number of attributes that were dropped because of a limit.
    pub dropped_attributes_count: u32,
    /// The events.
    pub events: SpanEvents,
    /// The links to other spans.
    pub links: SpanLinks,
    /// The status.
    pub status: Status,
    /// The library or module whose tracer started the span. The spans of a tracer share it.
    pub instrumentation_scope: Rc<InstrumentationScope>,
}

/// The events of a span (the Rust crate's `SpanEvents`).
#[derive(Debug, Drop)]
pub struct SpanEvents {
    /// The events, in order.
    pub events: Vec<Event>,
    /// The number of events that were dropped because of a limit.
    pub dropped_count: u32,
}

/// The links of a span (the Rust crate's `SpanLinks`).
#[derive(Debug, Drop)]
pub struct SpanLinks {
    /// The links, in order.
    pub links: Vec<Link>,
    /// The number of links that were dropped because of a limit.
    pub dropped_count: u32,
}

impl Model for SpanData {
    ghost use Rattle.std.specs.Prelude.{map};
    ghost use Rattle.std.specs.Rc.{rc_value};
    ghost use Rattle.otel_base.specs.View.{attribute_of};
    ghost use Rattle.opentelemetry.specs.View.{event_of, link_of};
    ghost use Rattle.otel_sdk_span.specs.SpanData.{SpanRecord};

    ghost Value = { SpanRecord };

    ghost view = { λ d. record {
      span_context = d.span_context;
      parent_span_id = d.parent_span_id;
      parent_span_is_remote = d.parent_span_is_remote;
      span_kind = d.span_kind;
      name = d.name;
      start_time = d.start_time;
      end_time = d.end_time;
      attributes = map attribute_of d.attributes.items;
      dropped_attributes = d.dropped_attributes_count;
      events = map event_of d.events.events.items;
      dropped_events = d.events.dropped_count;
      links = map link_of d.links.links.items;
      dropped_links = d.links.dropped_count;
      status = d.status;
      scope = rc_value d.instrumentation_scope;
    } };
}

/// Returns `true` if the link is empty: its span context isn't valid, and it has neither attributes
/// nor a trace state.
fn says_nothing(link: &Link) -> bool
    ensures { result ≡ spec.says_nothing (link_of link.now) }
{
    !link.span_context.is_valid()
        && link.attributes.is_empty()
        && *link.span_context.trace_state() == TraceState::NONE
}

impl SpanData {
    /// Truncates the attribute and sets it if the limit allows it. Otherwise counts it as dropped.
    ///
    /// # Errors
    ///
    /// `AllocError` if out of memory. Nothing changes.
    pub(crate) fn set_attribute(
        &mut self,
        alloc: Global,
        limits: SpanLimits,
        attribute: KeyValue,
    ) -> Result<(), AllocError>
        ensures ok { OnOk result
            (self.new ≡ spec.with_attribute limits self.old (attribute_of attribute)) }
        ensures err { OnErr result (self.new ≡ self.old) }
    {
        let attribute = cut(alloc, limits.max_attribute_length, attribute)?;
        if !set(
            &mut self.attributes,
            limits.max_attributes_per_span,
            attribute,
        )? {
            self.dropped_attributes_count = up_by(self.dropped_attributes_count, 1);
        }
        Ok(())
    }

    /// Adds the event, within its own limits, if the limit allows it. Otherwise counts it as
    /// dropped.
    ///
    /// # Errors
    ///
    /// `AllocError` if out of memory. Nothing changes.
    pub(crate) fn add_event(
        &mut self,
        alloc: Global,
        limits: SpanLimits,
        event: Event,
    ) -> Result<(), AllocError>
        ensures ok { OnOk result
            (self.new ≡ spec.with_event limits self.old (event_of event)) }
        ensures err { OnErr result (self.new ≡ self.old) }
    {
        if self.events.events.len() >= limits.max_events_per_span as usize {
            self.events.dropped_count = up_by(self.events.dropped_count, 1);
            return Ok(());
        }
        let event = limited_event(alloc, limits, event)?;
        self.events.events.push(event)?;
        Ok(())
    }

    /// Adds the link, within its own limits, if the limit allows it. Otherwise counts it as
    /// dropped. An empty link changes nothing.
    ///
    /// # Errors
    ///
    /// `AllocError` if out of memory. Nothing changes.
    pub(crate) fn add_link(
        &mut self,
        alloc: Global,
        limits: SpanLimits,
        link: Link,
    ) -> Result<(), AllocError>
        ensures ok { OnOk result
            (self.new ≡ spec.with_link limits self.old (link_of link)) }
        ensures err { OnErr result (self.new ≡ self.old) }
    {
        if says_nothing(&link) {
            return Ok(());
        }
        if self.links.links.len() >= limits.max_links_per_span as usize {
            self.links.dropped_count = up_by(self.links.dropped_count, 1);
            return Ok(());
        }
        let link = limited_link(alloc, limits, link)?;
        self.links.links.push(link)?;
        Ok(())
    }

    /// Sets the status if it is greater than the current one.
    pub(crate) fn set_status(&mut self, status: Status)
        ensures { self.new ≡ spec.with_status self.old status }
    {
        if status > self.status {
            self.status = status;
        }
    }

    // Sets each of the attributes in turn.
    fn set_attributes(
        &mut self,
        alloc: Global,
        limits: SpanLimits,
        attributes: Vec<KeyValue>,
    ) -> Result<(), AllocError>
        ensures { OnOk result
            (self.new ≡ fold (spec.with_attribute limits) self.old (attributes_of attributes)) }
    {
        for attribute in attributes {
            self.set_attribute(alloc, limits, attribute)?;
        }
        Ok(())
    }

    // Adds each of the events in turn.
    fn add_events(
        &mut self,
        alloc: Global,
        limits: SpanLimits,
        events: Vec<Event>,
    ) -> Result<(), AllocError>
        ensures { OnOk result
            (self.new ≡ fold (spec.with_event limits) self.old (map event_of events.items)) }
    {
        for event in events {
            self.add_event(alloc, limits, event)?;
        }
        Ok(())
    }

    // Adds each of the links in turn.
    fn add_links(
        &mut self,
        alloc: Global,
        limits: SpanLimits,
        links: Vec<Link>,
    ) -> Result<(), AllocError>
        ensures { OnOk result
            (self.new ≡ fold (spec.with_link limits) self.old (map link_of links.items)) }
    {
        for link in links {
            self.add_link(alloc, limits, link)?;
        }
        Ok(())
    }

    /// Keeps the data within the limits: its attributes are set in turn, and then its events and
    /// links are added in turn.
    ///
    /// # Errors
    ///
    /// `AllocError` if out of memory. Attributes, events and links may be lost.
    // In place, since a returned record is copied.
    pub(crate) fn keep_within(
        &mut self,
        alloc: Global,
        limits: SpanLimits,
    ) -> Result<(), AllocError>
        ensures { OnOk result (self.new ≡ spec.keep_within limits self.old) }
    {
        let attributes = mem::replace(&mut self.attributes, Vec::new(alloc));
        let events = mem::replace(&mut self.events.events, Vec::new(alloc));
        let links = mem::replace(&mut self.links.links, Vec::new(alloc));
        self.set_attributes(alloc, limits, attributes)?;
        self.add_events(alloc, limits, events)?;
        self.add_links(alloc, limits, links)
    }
}
