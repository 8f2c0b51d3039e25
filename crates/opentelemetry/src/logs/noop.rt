//! Loggers that do nothing, for programs without logging.
ghost use Rattle.std.specs.Prelude.{◌≡◌, false, IsOk};

use crate::logs::{AnyValue, LogRecord, Logger, LoggerProvider, Severity};
use otel_base::{InstrumentationScope, Key, StringValue};
use std::alloc::{AllocError, Global};

/// A provider of loggers that do nothing (the Rust crate's `NoopLoggerProvider`).
///
/// See [`LoggerProvider`].
#[derive(Clone, Debug, Default, Drop)]
pub struct NoopLoggerProvider;

impl NoopLoggerProvider {
    /// Returns a provider of loggers that do nothing.
    pub fn new() -> NoopLoggerProvider {
        NoopLoggerProvider
    }
}

impl LoggerProvider for NoopLoggerProvider {
    ghost use Rattle.std.specs.Prelude.{IsOk};

    type Logger = NoopLogger;

    ghost may_give = { λ _ _ _. Unit {0} };

    /// Returns a logger that does nothing, whatever the scope. Doesn't allocate.
    fn logger_with_scope(
        &self,
        _alloc: Global,
        _scope: InstrumentationScope,
    ) -> Result<NoopLogger, AllocError>
        ensures { IsOk result }
    {
        Ok(NoopLogger)
    }

    /// Returns a logger that does nothing, whatever the name. Doesn't allocate.
    fn logger(&self, alloc: Global, name: StringValue) -> Result<NoopLogger, AllocError>
        ensures { IsOk result }
    {
        let _ = (alloc, name);
        Ok(NoopLogger)
    }
}

/// A logger that drops every record (the Rust crate's `NoopLogger`).
///
/// See [`LoggerProvider`].
#[derive(Clone, Debug, Drop)]
pub struct NoopLogger;

impl Logger for NoopLogger {
    ghost use Rattle.std.specs.Prelude.{◌≡◌, false, IsOk};

    type LogRecord = NoopLogRecord;

    ghost may_create = { λ _ _. Unit {0} };

    ghost may_enable = { λ _ _ _ _ enabled. enabled ≡ false };

    /// Returns a record that ignores everything set on it. Doesn't allocate.
    fn create_log_record(&self, _alloc: Global) -> Result<NoopLogRecord, AllocError>
        ensures { IsOk result }
    {
        Ok(NoopLogRecord)
    }

    fn emit(&self, _record: NoopLogRecord) {}

    /// Always returns `false`.
    fn event_enabled(&self, _level: Severity, _target: &str, _name: Option<&str>) -> bool {
        false
    }
}

/// A log record that ignores everything set on it (the Rust crate's `NoopLogRecord`).
///
/// See [`LogRecord`].
#[derive(Clone, Debug, Default, Drop)]
pub struct NoopLogRecord;

impl LogRecord for NoopLogRecord {
    ghost use Rattle.std.specs.Prelude.{IsOk, refl};

    ghost after_event_name = { λ r _. r };

    ghost after_target = { λ r _. r };

    ghost after_timestamp = { λ r _. r };

    ghost after_observed_timestamp = { λ r _. r };

    ghost after_severity_text = { λ r _. r };

    ghost after_severity_number = { λ r _. r };

    ghost after_body = { λ r _. r };

    ghost after_attributes = { λ r _. r };

    ghost after_attribute = { λ r _ _. r };

    fn set_event_name(&mut self, _name: &'static str) {}

    fn set_target(&mut self, _target: StringValue) {}

    fn set_timestamp(&mut self, _timestamp: u64) {}

    fn set_observed_timestamp(&mut self, _timestamp: u64) {}

    fn set_severity_text(&mut self, _text: &'static str) {}

    fn set_severity_number(&mut self, _number: Severity) {}

    fn set_body(&mut self, _body: AnyValue) {}

    /// Drops the attributes. Doesn't allocate.
    fn add_attributes(
        &mut self,
        _alloc: Global,
        _attributes: Vec<(Key, AnyValue)>,
    ) -> Result<(), AllocError>
        ensures ok { IsOk result }
        ensures same { self.new ≡ self.old }
    {
        Ok(())
    }

    /// Drops the attribute. Doesn't allocate.
    fn add_attribute(
        &mut self,
        _alloc: Global,
        _key: Key,
        _value: AnyValue,
    ) -> Result<(), AllocError>
        ensures ok { IsOk result }
        ensures same { self.new ≡ self.old }
    {
        Ok(())
    }

    ghost may_be_untraced = { λ r trace_id span_id trace_flags. refl };
}
