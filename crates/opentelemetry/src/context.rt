//! Contexts, and the stack of attached contexts.
pub use otel_context::{Context, ContextGuard, ContextStack, HasCurrent};
