//! Contexts, baggage, ids and trace states, and the propagation of contexts through carriers of
//! texts, after the Rust crate `opentelemetry`.
//!
//! A call runs out of memory if an allocation fails or a reference count is at its limit.
#![tactic(auto)]

pub mod baggage;
pub mod carry;
pub mod context;
mod history;
pub mod logs;
pub mod propagation;
pub mod time;
pub mod trace;

pub use history::History;
pub use otel_base::{
    Array, InstrumentationScope, InstrumentationScopeBuilder, Key, KeyValue, StringValue, Value,
};
pub use otel_context::{Context, ContextGuard};
pub use otel_ids::{SpanId, TraceFlags, TraceId};
