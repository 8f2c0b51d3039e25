//! Logs: value trees, severities, log records, loggers and their providers.
mod logger;
mod noop;
mod record;

pub use logger::{Logger, LoggerProvider};
pub use noop::{NoopLogRecord, NoopLogger, NoopLoggerProvider};
pub use otel_base::{AnyValue, Severity};
pub use record::LogRecord;
