//! A log SDK for the API of the crate `opentelemetry`, modeled on the Rust crate
//! `opentelemetry_sdk`: providers whose loggers emit records with limited attributes, and
//! processors that hand the records to an exporter. `otel_sdk` re-exports it as `logs`.
#![tactic(auto)]

mod attributes;
mod cutting;
mod export;
mod in_memory_exporter;
mod intake;
mod limits;
mod logger;
mod processor;
mod provider;
mod record;

pub use export::{LogData, LogExporter};
pub use in_memory_exporter::{EmittedLogs, InMemoryLogExporter};
pub use intake::RecordIntake;
pub use limits::LogRecordLimits;
pub use logger::{SdkLogger, SimpleLogger};
pub use otel_sdk_base::{BatchConfig, BatchConfigBuilder};
pub use processor::LogProcessor;
pub use processor::batch::BatchLogProcessor;
pub use processor::simple::SimpleLogProcessor;
pub use provider::{LoggerProviderBuilder, SdkLoggerProvider};
pub use record::{SdkLogRecord, TraceContext};
