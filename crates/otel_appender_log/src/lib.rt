//! A sink for the crate `log` that sends each record to an OpenTelemetry logger (the Rust crate
//! `opentelemetry-appender-log`).
#![tactic(auto)]

mod attributes;
mod bridge;
mod calls;
mod record;
mod severity;
mod value;

pub use attributes::{SourceLocation, attributes_of};
pub use bridge::{BridgeSink, OpenTelemetryLogBridge};
pub use calls::{EmittingLogger, StampedRecord};
pub use record::bridged_record;
pub use severity::severity_of_level;
pub use value::attribute_value;
