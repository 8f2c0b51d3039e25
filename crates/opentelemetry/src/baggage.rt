//! Baggage: key-value pairs with metadata that travel with a request.
pub use otel_context::{Baggage, BaggageMetadata, Iter, KeyValueMetadata};
