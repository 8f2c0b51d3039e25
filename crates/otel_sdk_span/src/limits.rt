//! Limits on the data of a span.
ghost use Rattle.std.specs.Prelude.{◌≡◌, IfOk};
ghost use Rattle.opentelemetry.specs.View.{event_of, link_of};
ghost use Rattle.otel_sdk_span.specs.SpanLimits as spec;

use opentelemetry::trace::{Event, Link};
use otel_sdk_base::attributes::limited;
use std::alloc::{AllocError, Global};

/// Limits on the data that a span records (the Rust crate's `SpanLimits`). Items beyond a limit are
/// dropped and counted, so the first ones stay.
///
/// ```
/// let limits = SpanLimits {
///     max_attributes_per_span: 2,
///     ..SpanLimits::default()
/// };
/// ```
///
/// Counts stop at the greatest `u32`. See OpenTelemetry trace SDK, "Span Limits".
#[derive(Clone, Copy, Debug)]
pub struct SpanLimits {
    /// The maximum number of events per span.
    pub max_events_per_span: u32,
    /// The maximum number of attributes per span.
    pub max_attributes_per_span: u32,
    /// The maximum number of links per span.
    pub max_links_per_span: u32,
    /// The maximum number of attributes per event.
    pub max_attributes_per_event: u32,
    /// The maximum number of attributes per link.
    pub max_attributes_per_link: u32,
    /// The maximum length of a text in an attribute or in an array, in characters. Longer texts are
    /// truncated, and not counted. The Rust crate has no such limit.
    pub max_attribute_length: Option<u32>,
}

impl Default for SpanLimits {
    ghost is_default = { λ l. l ≡ spec.default_limits };

    /// Returns 128 for each maximum number, and no limit on the length of texts.
    fn default() -> SpanLimits {
        SpanLimits {
            max_events_per_span: 128,
            max_attributes_per_span: 128,
            max_links_per_span: 128,
            max_attributes_per_event: 128,
            max_attributes_per_link: 128,
            max_attribute_length: None,
        }
    }
}

/// Returns the event with its attributes truncated, and dropped and counted beyond the limit.
///
/// # Errors
///
/// `AllocError` if out of memory. The event is dropped.
pub(crate) fn limited_event(
    alloc: Global,
    limits: SpanLimits,
    event: Event,
) -> Result<Event, AllocError>
    ensures { IfOk result (λ kept. event_of kept ≡ spec.limited_event limits (event_of event)) }
{
    let (attributes, dropped_attributes_count) = limited(
        alloc,
        limits.max_attributes_per_event,
        limits.max_attribute_length,
        event.attributes,
        event.dropped_attributes_count,
    )?;
    Ok(Event::new(
        event.name,
        event.timestamp,
        attributes,
        dropped_attributes_count,
    ))
}

/// Returns the link with its attributes truncated, and dropped and counted beyond the limit.
///
/// # Errors
///
/// `AllocError` if out of memory. The link is dropped.
pub(crate) fn limited_link(
    alloc: Global,
    limits: SpanLimits,
    link: Link,
) -> Result<Link, AllocError>
    ensures { IfOk result (λ kept. link_of kept ≡ spec.limited_link limits (link_of link)) }
{
    let Link {
        span_context,
        attributes,
        dropped_attributes_count,
    } = link;
    let (attributes, dropped_attributes_count) = limited(
        alloc,
        limits.max_attributes_per_link,
        limits.max_attribute_length,
        attributes,
        dropped_attributes_count,
    )?;
    Ok(Link::new(span_context, attributes, dropped_attributes_count))
}
