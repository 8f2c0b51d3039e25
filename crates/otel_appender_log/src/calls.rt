//! The calls on loggers and log records whose effects no contract sees.
use opentelemetry::logs::{LogRecord, Logger};
use opentelemetry::trace::{SpanId, TraceFlags, TraceId};
use std::cell::Cell;

/// A logger that a bridge emits records to. Every [`Logger`] is one.
///
/// No contract sees a change through `&self`. So each call ensures a ghost member of which code
/// that is generic over this trait knows nothing: only the call shows it.
pub trait EmittingLogger: Logger {
    ghost emits: { Self → Self.LogRecord → Type 0 };

    ghost counts: { Type 0 };

    /// Emits the record, as [`Logger::emit`].
    fn emit_record(&self, emitted: Self::LogRecord)
        ensures { emits self.now emitted };

    /// Counts a record that was dropped, up to `u64::MAX`.
    fn count_dropped(dropped: &Cell<u64>)
        ensures { counts };
}

impl<L: Logger> EmittingLogger for L {
    ghost emits = { λ _ _. Unit {0} };

    ghost counts = { Unit {0} };

    fn emit_record(&self, emitted: L::LogRecord) {
        self.emit(emitted);
    }

    fn count_dropped(dropped: &Cell<u64>) {
        dropped.set(dropped.get().saturating_add(1));
    }
}

/// A log record that a bridge sets the active span of. Every [`LogRecord`] is one.
///
/// A type of log records may ignore the span, so `may_be_traced` of [`LogRecord`] always allows the
/// unchanged record. Of the ghost member `stamps`, code that is generic over this trait knows
/// nothing: only a call of `set_span` shows it. So a contract that cites it says that the ids were
/// set.
pub trait StampedRecord: LogRecord {
    ghost use Rattle.std.specs.Prelude.{ℕ, Option};

    ghost stamps: { Self → ℕ → ℕ → Option ℕ → Self → Type 0 };

    /// Sets the span that was active, as [`LogRecord::set_trace_context`].
    fn set_span(&mut self, trace_id: TraceId, span_id: SpanId, trace_flags: TraceFlags)
        ensures { stamps self.old trace_id span_id (Some trace_flags) self.new };
}

impl<R: LogRecord> StampedRecord for R {
    ghost stamps = { R.may_be_traced };

    fn set_span(&mut self, trace_id: TraceId, span_id: SpanId, trace_flags: TraceFlags) {
        self.set_trace_context(trace_id, span_id, Some(trace_flags));
    }
}
