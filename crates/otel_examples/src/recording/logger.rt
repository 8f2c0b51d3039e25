//! A logger that keeps the records that it emits, and its provider.
ghost use Rattle.std.specs.Prelude.{◌≡◌, IsOkAnd};

use opentelemetry::logs::{Logger, LoggerProvider, Severity};
use otel_base::InstrumentationScope;
use otel_sdk_logs::SdkLogRecord;
use std::alloc::{AllocError, Global};
use std::cell::RefCell;

/// A logger for tests. It keeps the records that it emits, in order.
///
/// An event is enabled if its severity is at least `least`.
#[derive(Drop)]
pub struct RecordingLogger {
    /// The library or module that the logger is for.
    pub scope: InstrumentationScope,
    /// The least severity of an event that is enabled.
    pub least: Severity,
    emitted: RefCell<Vec<SdkLogRecord>>,
}

impl RecordingLogger {
    /// Returns a logger without records. Doesn't allocate.
    pub fn new(alloc: Global, scope: InstrumentationScope, least: Severity) -> RecordingLogger
        ensures scope { result.scope ≡ scope }
        ensures least { result.least ≡ least }
    {
        RecordingLogger {
            scope,
            least,
            emitted: RefCell::new(Vec::new(alloc)),
        }
    }

    /// Returns the emitted records, in order.
    pub fn into_emitted(self) -> Vec<SdkLogRecord> {
        let RecordingLogger {
            scope: _,
            least: _,
            emitted,
        } = self;
        emitted.into_inner()
    }
}

impl Logger for RecordingLogger {
    ghost use Rattle.std.specs.Prelude.{◌≡◌, nat_le, IsOkAnd};
    ghost use Rattle.otel_base.specs.Severity.{number};
    ghost use Rattle.otel_sdk_logs.specs.LogRecord.{empty};

    type LogRecord = SdkLogRecord;

    ghost may_create = { λ _ log. log ≡ empty };

    ghost may_enable = { λ logger level _ _ enabled.
        enabled ≡ nat_le (number logger.least) (number level) };

    /// Returns a record with nothing set. Doesn't allocate.
    fn create_log_record(&self, alloc: Global) -> Result<SdkLogRecord, AllocError>
        ensures { IsOkAnd result (λ log. log ≡ empty) }
    {
        Ok(SdkLogRecord::new(alloc))
    }

    /// Keeps the record, after the others. Drops it if out of memory.
    fn emit(&self, record: SdkLogRecord) {
        if let Ok(mut emitted) = self.emitted.try_borrow_mut() {
            drop(emitted.push(record));
        }
    }

    /// Returns whether the severity is at least `least`.
    fn event_enabled(&self, level: Severity, _target: &str, _name: Option<&str>) -> bool {
        self.least.number() <= level.number()
    }
}

/// A provider that returns a [`RecordingLogger`] for each scope.
#[derive(Clone, Copy, Debug)]
pub struct RecordingLoggerProvider {
    /// The least severity of an event that is enabled.
    pub least: Severity,
}

impl LoggerProvider for RecordingLoggerProvider {
    ghost use Rattle.std.specs.Prelude.{◌≡◌, IsOkAnd};

    type Logger = RecordingLogger;

    ghost may_give = { λ provider scope logger.
        (logger.scope ≡ scope) × (logger.least ≡ provider.least) };

    /// Returns a logger for the scope. Doesn't allocate.
    fn logger_with_scope(
        &self,
        alloc: Global,
        scope: InstrumentationScope,
    ) -> Result<RecordingLogger, AllocError>
        ensures { IsOkAnd result (λ logger.
            (logger.scope ≡ scope) × (logger.least ≡ self.now.least)) }
    {
        Ok(RecordingLogger::new(alloc, scope, self.least))
    }
}
