//! The exporter that keeps log records in memory.
ghost use Rattle.std.specs.Prelude.{◌≡◌, IfOk};
ghost use Rattle.otel_sdk_base.specs.Export.{items_of};

use crate::export::LogData;
use otel_sdk_base::InMemoryExporter;
use std::alloc::AllocError;

/// Keeps copies of the log records that it accepts, for tests (the Rust crate's
/// `InMemoryLogExporter`).
///
/// ```
/// let exporter = InMemoryLogExporter::new(alloc);
/// ```
pub type InMemoryLogExporter = InMemoryExporter<LogData>;

/// The method `get_emitted_logs` of an [`InMemoryLogExporter`].
///
/// The ghost member `emitted` gives the batches that the exporter keeps.
pub trait EmittedLogs {
    ghost use Rattle.std.specs.Prelude.{List};
    ghost use Rattle.otel_sdk_logs.specs.LogRecord.{LogEntry};

    ghost emitted: { Self → List (List LogEntry) };

    /// Returns copies of the kept records, in order.
    ///
    /// # Errors
    ///
    /// `AllocError` if out of memory. The exporter is unchanged.
    fn get_emitted_logs(&self) -> Result<Vec<LogData>, AllocError>
        ensures { IfOk result (λ records. records.items ≡ items_of (emitted self.now)) };
}

impl EmittedLogs for InMemoryExporter<LogData> {
    ghost emitted = { λ e. e.accepted };

    fn get_emitted_logs(&self) -> Result<Vec<LogData>, AllocError> {
        self.get_items()
    }
}
