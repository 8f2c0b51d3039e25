//! The propagators of the headers `traceparent`, `tracestate` and `baggage`, and of B3.
#![tactic(auto)]

pub mod b3;
pub mod baggage;
pub mod laws;
pub mod trace_context;
pub mod w3c;

pub use b3::B3Propagator;
pub use baggage::BaggagePropagator;
pub use trace_context::TraceContextPropagator;
pub use w3c::W3cPropagator;
