//! Callers of the crate `opentelemetry`, in the order in which to learn them.

pub mod active;
pub mod baggage;
pub mod composite;
pub mod header_names;
pub mod headers;
pub mod in_span;
pub mod joined;
pub mod log_bridge;
pub mod overlap;
pub mod request_id;
pub mod scope;
pub mod service;
pub mod there_and_back;
pub mod trace_state;
