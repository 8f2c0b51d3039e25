//! Exporters, which send log records out of the program.
ghost use Rattle.std.specs.Prelude.{◌≡◌};

use crate::record::SdkLogRecord;
use opentelemetry::InstrumentationScope;
use otel_sdk_base::{ExactClone, Exporter};
use std::alloc::AllocError;
use std::clone::Clone;
use std::marker::Model;
use std::rc::Rc;

/// A log record with the scope of its logger (a pair in the Rust crate's `LogBatch`).
///
/// Contracts see both as one record.
///
/// See [`Exporter::export`].
#[derive(Debug, Drop)]
pub struct LogData {
    /// The record.
    pub record: SdkLogRecord,
    /// The library or module whose logger emitted the record. All records of that logger share it.
    pub instrumentation_scope: Rc<InstrumentationScope>,
}

impl Model for LogData {
    ghost use Rattle.std.specs.Coded.{codes};
    ghost use Rattle.std.specs.Rc.{rc_value};
    ghost use Rattle.otel_sdk_logs.specs.LogRecord.{LogEntry, log_state_code};

    ghost Value = { LogEntry };

    ghost coded = { Prim.hlevel (codes, log_state_code) };

    ghost view = { λ d. record {
      log = d.«record»;
      scope = rc_value d.instrumentation_scope;
    } };
}

impl Clone for LogData {
    ghost is_clone = { λ d copy. copy ≡ d };

    /// Returns a copy that shares the scope.
    ///
    /// # Errors
    ///
    /// `AllocError` if out of memory.
    fn clone(&self) -> Result<LogData, AllocError> {
        let instrumentation_scope = self.instrumentation_scope.clone()?;
        Ok(LogData {
            record: self.record.clone()?,
            instrumentation_scope,
        })
    }
}

impl ExactClone for LogData {
    ghost is_exact = { λ _ _ same. same };
}

/// Sends log records out of the program in batches (the Rust crate's `LogExporter`). Every
/// [`Exporter`] of log records is a `LogExporter`.
///
/// See [`crate::InMemoryLogExporter`].
pub trait LogExporter: Exporter<LogData> {}

impl<E: Exporter<LogData>> LogExporter for E {}
