//! The parts that the trace and log SDKs share: errors, resources, clocks, attributes with limits,
//! and where telemetry is sent. `otel_sdk` re-exports them.
#![tactic(auto)]

mod accepted;
pub mod attributes;
pub mod cutting;
pub mod error;
mod export;
mod in_memory_exporter;
mod losses;
mod not_entered;
pub mod otlp;
mod queue;
pub mod resource;
mod writer_calls;

pub use accepted::Accepted;
pub use export::Exporter;
pub use in_memory_exporter::{ExactClone, InMemoryExporter};
pub use losses::Losses;
pub use opentelemetry::time::{Clock, CountedClock, ManualClock, SystemClock, TimeSource};
pub use queue::Queue;
pub use queue::config::{BatchConfig, BatchConfigBuilder};
pub use writer_calls::WriterCalls;
