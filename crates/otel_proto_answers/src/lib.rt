//! What a collector answers in the binary form of the OpenTelemetry protocol (OTLP), in Protocol
//! Buffers.
#![tactic(auto)]

mod answers;
mod error;
pub mod laws;
mod parts;
mod scalars;
mod wire;

pub use answers::{Partial, Status, read_partial, read_status};
pub use error::ReadError;
