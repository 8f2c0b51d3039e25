//! Telemetry as JSON, in the form of the OpenTelemetry protocol (OTLP).
#![tactic(auto)]

mod append_file;
mod common;
mod exporter;
mod groups;
pub mod laws;
mod lines;
mod logs;
mod object;
mod otlp_http;
mod read;
mod traces;
mod trees;
mod written;

pub use crate::otlp_http::{
    Backoff, ClockCalls, ConfigError, FileCalls, FileClient, HttpClient, HttpError, KeyCalls,
    OtlpHttpConfig, OtlpHttpExporter, OtlpHttpLogExporter, OtlpHttpSpanExporter, PipeError,
    PipeExporter, ReaderCalls, StreamClient, pipe_exporter,
};
pub use crate::read::{
    ReadError, ResourceLogs, ResourceSpans, read_logs, read_resource_logs, read_resource_spans,
    read_traces,
};
pub use append_file::{AppendCalls, AppendFile};
pub use exporter::{OtlpJsonExporter, OtlpJsonLogExporter, OtlpJsonSpanExporter};
pub use logs::logs_text;
pub use traces::traces_text;
