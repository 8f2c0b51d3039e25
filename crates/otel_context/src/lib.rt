//! Baggage, contexts, the stack of attached contexts, and spans.
//!
//! A call runs out of memory if an allocation fails or a reference count is at its limit.
#![tactic(auto)]

pub mod baggage;
mod context;
pub mod laws;
mod names;
mod span;
mod stack;

pub use baggage::{Baggage, BaggageMetadata, Iter, KeyValueMetadata};
pub use context::Context;
pub use span::{
    Span, SpanCause, SpanKind, SpanRef, SpanRefused, Spans, Status, get_active_span,
    mark_span_as_active,
};
pub use stack::{ContextGuard, ContextStack, HasCurrent};
