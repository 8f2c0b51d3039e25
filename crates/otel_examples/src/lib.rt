//! Small callers of the crate `opentelemetry` and of the SDK, each proved from public contracts,
//! and recording spans and loggers for tests.
#![tactic(auto)]

pub mod api;
pub mod recording;
pub mod sdk;
