//! A tracing SDK after the Rust crate `opentelemetry_sdk`: providers whose tracers start spans,
//! resources, and processors that pass ended spans to an exporter.
#![tactic(auto)]

pub mod env;
pub mod laws;
pub mod trace;

pub use env::EnvConfig;
pub use otel_sdk_base::{error, resource};
pub use otel_sdk_logs as logs;
