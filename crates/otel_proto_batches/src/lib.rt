//! Batches of spans and of log records in the binary form of the OpenTelemetry protocol (OTLP), in
//! Protocol Buffers.
#![tactic(auto)]

mod common;
mod cuts;
mod groups;
pub mod laws;
mod logs;
mod traces;

pub use logs::logs_bytes;
pub use traces::traces_bytes;
