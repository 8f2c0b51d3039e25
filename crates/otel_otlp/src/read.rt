//! Reads the messages of the protocol from JSON, whoever wrote it.
mod error;
mod groups;
mod lines;
mod logs;
mod members;
mod messages;
mod records;
mod resources;
mod scopes;
mod spans;
mod traces;
mod trees;
mod values;

pub use crate::read::error::ReadError;
pub use crate::read::logs::{ResourceLogs, read_logs, read_resource_logs};
pub use crate::read::traces::{ResourceSpans, read_resource_spans, read_traces};
