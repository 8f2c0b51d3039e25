//! Links between spans.
ghost use Rattle.std.specs.Prelude.{◌≡◌, ◌↔◌, IsTrue, []};
ghost use Rattle.std.specs.Cmp.{on_per, partial_equiv_from_equiv};
ghost use Rattle.otel_base.specs.KeyValueLaws.{equiv_from_decides};
ghost use Rattle.otel_context.specs.SpanEffects.{attributes_of};
ghost use Rattle.opentelemetry.specs.Event.{new_link, link_eq, link_eq-Decides};
ghost use Rattle.opentelemetry.specs.View.{link_of};

use crate::trace::attributes::{copy_attributes, same_attributes};
use otel_base::KeyValue;
use otel_ids::SpanContext;
use std::alloc::{AllocError, Global};

/// A link to another span that isn't the parent (the Rust crate's `Link`).
///
/// Contracts see the record of its three parts, the attributes as a list.
#[derive(Debug, Drop)]
pub struct Link {
    /// The span context of the other span.
    pub span_context: SpanContext,
    /// Its attributes, in the given order.
    pub attributes: Vec<KeyValue>,
    /// The number of dropped attributes, for example because of a limit.
    pub dropped_attributes_count: u32,
}

impl Link {
    /// Returns a link with these three parts.
    pub fn new(
        span_context: SpanContext,
        attributes: Vec<KeyValue>,
        dropped_attributes_count: u32,
    ) -> Link
        ensures { link_of result
            ≡ new_link span_context (attributes_of attributes) dropped_attributes_count }
    {
        Link {
            span_context,
            attributes,
            dropped_attributes_count,
        }
    }

    /// Returns a link without attributes.
    pub fn with_context(alloc: Global, span_context: SpanContext) -> Link
        ensures { link_of result ≡ new_link span_context [] 0 }
    {
        Link::new(span_context, Vec::new(alloc), 0)
    }
}

impl Clone for Link {
    ghost is_clone = { λ l copy. link_of copy ≡ link_of l };

    /// Returns a link with the same parts.
    ///
    /// # Errors
    ///
    /// `AllocError` if out of memory. The link is unchanged.
    fn clone(&self) -> Result<Link, AllocError> {
        Ok(Link {
            span_context: self.span_context.clone()?,
            attributes: copy_attributes(&self.attributes)?,
            dropped_attributes_count: self.dropped_attributes_count,
        })
    }
}

impl PartialEq for Link {
    ghost eq = { λ a b. link_eq (link_of a) (link_of b) };

    ghost laws = { on_per link_of (partial_equiv_from_equiv
        (equiv_from_decides link_eq link_eq-Decides)) };

    /// Returns `true` if both have the same three parts, with the attributes in the same order.
    fn eq(&self, other: &Link) -> bool
        ensures value { result ≡ link_eq (link_of self.now) (link_of other.now) }
        ensures same { IsTrue result ↔ (link_of self.now ≡ link_of other.now) }
    {
        self.span_context == other.span_context
            && same_attributes(&self.attributes, &other.attributes)
            && self.dropped_attributes_count == other.dropped_attributes_count
    }
}
