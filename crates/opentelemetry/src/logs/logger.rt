//! Loggers, which create and emit log records, and their providers.
ghost use Rattle.std.specs.Prelude.{IfOk, option_map};

use crate::logs::{LogRecord, Severity};
use otel_base::{InstrumentationScope, StringValue};
use std::alloc::{AllocError, Global};

/// Creates and emits log records (the Rust crate's `Logger`).
///
/// Implementors define two ghost relations: the records that may be created (`may_create`), and the
/// answers that `event_enabled` may return (`may_enable`). These are relations rather than
/// functions, so that a logger may read a clock and its configuration may change.
///
/// See `otel_examples::api::log_bridge`.
pub trait Logger {
    ghost use Rattle.std.specs.Prelude.{ℕ, List, Option, Bool};
    ghost use Rattle.otel_base.specs.declared.severity.Severity.{Severity};

    /// The records that it creates and emits.
    type LogRecord: LogRecord;

    ghost may_create: { Self → Self.LogRecord → Type 0 };

    ghost may_enable: { Self → Severity → List ℕ → Option (List ℕ) → Bool → Type 0 };

    /// Returns a new record.
    ///
    /// # Errors
    ///
    /// `AllocError` if out of memory.
    fn create_log_record(&self, alloc: Global) -> Result<Self::LogRecord, AllocError>
        ensures { IfOk result (may_create self.now) };

    /// Emits a complete record. Doesn't read a context: to record the active span, call
    /// `set_trace_context` first. (In the Rust crate, the logger reads the thread's context.)
    fn emit(&self, record: Self::LogRecord);

    /// Returns `true` if the logger accepts records with this severity, target and event name. Call
    /// it to avoid creating a record that would be dropped.
    fn event_enabled(&self, level: Severity, target: &str, name: Option<&str>) -> bool
        ensures { let asked = option_map (λ n. n.now) name.entry in
            may_enable self.now level target.now asked result };
}

/// Makes loggers (the Rust crate's `LoggerProvider`).
/// Get a logger from it once per library or module. Implementors define the ghost relation
/// `may_give`: the loggers that may be returned for a scope.
///
/// For a provider, see `SdkLoggerProvider` in the crate `otel_sdk_logs`.
/// See `otel_examples::api::log_bridge`.
pub trait LoggerProvider {
    ghost use Rattle.otel_base.specs.InstrumentationScope.{Scope};
    ghost use Rattle.opentelemetry.specs.Scope.{scope_of_name};

    /// The loggers that it makes.
    type Logger: Logger;

    ghost may_give: { Self → Scope → Self.Logger → Type 0 };

    /// Returns a logger for the library or module of a scope.
    ///
    /// # Errors
    ///
    /// `AllocError` if out of memory. The scope is dropped.
    fn logger_with_scope(
        &self,
        alloc: Global,
        scope: InstrumentationScope,
    ) -> Result<Self::Logger, AllocError>
        ensures { IfOk result (may_give self.now scope) };

    /// Returns a logger for the library or module named `name`, without version, schema URL and
    /// attributes.
    ///
    /// # Errors
    ///
    /// `AllocError` if out of memory. The name is dropped.
    fn logger(&self, alloc: Global, name: StringValue) -> Result<Self::Logger, AllocError>
        ensures { IfOk result (may_give self.now (scope_of_name name)) }
    {
        let scope = InstrumentationScope::builder(name).build(alloc)?;
        self.logger_with_scope(alloc, scope)
    }
}
