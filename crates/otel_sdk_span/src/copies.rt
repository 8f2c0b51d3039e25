//! Copies of spans.
ghost use Rattle.std.specs.Prelude.{◌≡◌, IfOk, map};
ghost use Rattle.std.specs.Rc.{rc_value};
ghost use Rattle.opentelemetry.specs.View.{event_of, link_of};
ghost use Rattle.otel_base.specs.View.{attribute_of};

use crate::data::{SpanData, SpanEvents, SpanLinks};
use opentelemetry::trace::{Event, Link, SpanContext, Status};
use opentelemetry::{InstrumentationScope, KeyValue, StringValue};
use otel_sdk_base::ExactClone;
use std::alloc::AllocError;
use std::clone::Clone;
use std::rc::Rc;

// Returns a copy whose attributes have the same meaning as the originals.
fn copy_attributes(attributes: &Vec<KeyValue>) -> Result<Vec<KeyValue>, AllocError>
    ensures { IfOk result (λ copy.
        map attribute_of copy.items ≡ map attribute_of attributes.now.items) }
{
    Ok(attributes.clone()?)
}

fn copy_events(events: &Vec<Event>) -> Result<Vec<Event>, AllocError>
    ensures { IfOk result (λ copy. map event_of copy.items ≡ map event_of events.now.items) }
{
    Ok(events.clone()?)
}

fn copy_links(links: &Vec<Link>) -> Result<Vec<Link>, AllocError>
    ensures { IfOk result (λ copy. map link_of copy.items ≡ map link_of links.now.items) }
{
    Ok(links.clone()?)
}

/// Copies of the lists of a span.
#[derive(Drop)]
struct Lists {
    attributes: Vec<KeyValue>,
    events: Vec<Event>,
    links: Vec<Link>,
}

fn copy_lists(span: &SpanData) -> Result<Lists, AllocError>
    ensures attributes { IfOk result (λ copies.
        map attribute_of copies.attributes.items ≡ span.now.attributes) }
    ensures events { IfOk result (λ copies. map event_of copies.events.items ≡ span.now.events) }
    ensures links { IfOk result (λ copies. map link_of copies.links.items ≡ span.now.links) }
{
    Ok(Lists {
        attributes: copy_attributes(&span.attributes)?,
        events: copy_events(&span.events.events)?,
        links: copy_links(&span.links.links)?,
    })
}

/// Copies of the other parts that a span shares or owns.
#[derive(Drop)]
struct Parts {
    span_context: SpanContext,
    name: StringValue,
    status: Status,
    scope: Rc<InstrumentationScope>,
}

fn copy_parts(span: &SpanData) -> Result<Parts, AllocError>
    ensures span_context { IfOk result (λ copies. copies.span_context ≡ span.now.span_context) }
    ensures name { IfOk result (λ copies. copies.name ≡ span.now.name) }
    ensures status { IfOk result (λ copies. copies.status ≡ span.now.status) }
    ensures scope { IfOk result (λ copies. rc_value copies.scope ≡ span.now.scope) }
{
    Ok(Parts {
        span_context: span.span_context.clone()?,
        name: span.name.clone()?,
        status: span.status.clone()?,
        scope: span.instrumentation_scope.clone()?,
    })
}

impl Clone for SpanData {
    ghost is_clone = { λ d copy. copy ≡ d };

    /// Returns a copy that shares the scope.
    ///
    /// # Errors
    ///
    /// `AllocError` if out of memory.
    fn clone(&self) -> Result<SpanData, AllocError> {
        let lists = copy_lists(self)?;
        let parts = copy_parts(self)?;
        Ok(SpanData {
            span_context: parts.span_context,
            parent_span_id: self.parent_span_id,
            parent_span_is_remote: self.parent_span_is_remote,
            span_kind: self.span_kind,
            name: parts.name,
            start_time: self.start_time,
            end_time: self.end_time,
            attributes: lists.attributes,
            dropped_attributes_count: self.dropped_attributes_count,
            events: SpanEvents {
                events: lists.events,
                dropped_count: self.events.dropped_count,
            },
            links: SpanLinks {
                links: lists.links,
                dropped_count: self.links.dropped_count,
            },
            status: parts.status,
            instrumentation_scope: parts.scope,
        })
    }
}

impl ExactClone for SpanData {
    ghost is_exact = { λ _ _ same. same };
}
