//! The logger of the SDK.
ghost use Rattle.std.specs.Prelude.{◌≡◌, ◌⊎◌, true, false, IfOk, IsTrue, None};
ghost use Rattle.std.specs.Option.{unwrap_or};
ghost use Rattle.otel_context.specs.Context.{is_telemetry_suppressed, span_context};
ghost use Rattle.otel_sdk_logs.specs.LogRecord.{IsEmitted, IsInSpan};
ghost use Rattle.otel_sdk_logs.specs.Processor.{IsHandedIn, IsHandedInFrom, IsHandedOver, asked};

use crate::export::LogData;
use crate::intake::RecordIntake;
use crate::processor::LogProcessor;
use crate::processor::simple::SimpleLogProcessor;
use crate::provider::LoggerProviderInner;
use crate::record::SdkLogRecord;
use opentelemetry::logs::{LogRecord, Logger, Severity};
use opentelemetry::{Context, InstrumentationScope};
use otel_sdk_base::{Clock, SystemClock};
use std::alloc::{AllocError, Global};
use std::marker::Model;
use std::rc::Rc;

/// Emits the log records of one library or module (the Rust crate's `SdkLogger`).
///
/// Contracts see its scope, the limits of its records, and whether it is disabled. A disabled
/// logger enables no event and emits nothing.
///
/// See [`crate::SdkLoggerProvider`].
pub struct SdkLogger<P, C> {
    pub(crate) provider: Rc<LoggerProviderInner<P, C>>,
    pub(crate) scope: Rc<InstrumentationScope>,
}

// Written out, so that a caller's proof has one call here, and not the drops of all parts.
impl<P: Drop, C: Drop> Drop for SdkLogger<P, C> {
    fn drop(self) {
        let SdkLogger {
            provider: _,
            scope: _,
        } = self;
    }
}

/// A logger whose records go to the exporter one by one, with the time of the system.
pub type SimpleLogger<E, R> = SdkLogger<SimpleLogProcessor<E>, SystemClock<R>>;

impl<P, C> Model for SdkLogger<P, C> {
    ghost use Rattle.std.specs.Rc.{rc_value};
    ghost use Rattle.otel_sdk_logs.specs.LogRecord.{LoggerParts};

    ghost Value = { LoggerParts };

    ghost view = { λ l. record {
      scope = rc_value l.scope;
      limits = (rc_value l.provider).limits;
      is_disabled = (rc_value l.provider).is_disabled;
    } };
}

/// Returns the record with the ids and flags of the active span of the context, unless the record
/// already has a span or the span context isn't valid.
fn in_context(mut emitted: SdkLogRecord, context: &Context) -> SdkLogRecord
    ensures { IsInSpan (span_context context.now) emitted result }
{
    let span = context.span_context();
    if emitted.trace_context.is_none() && span.is_valid() {
        let flags = Some(span.trace_flags());
        emitted.set_trace_context(span.trace_id(), span.span_id(), flags);
    }
    emitted
}

impl<P: RecordIntake, C: Clock> SdkLogger<P, C> {
    /// Returns the given time, or the clock's time if none is given.
    fn observed_time(&self, given: Option<u64>) -> u64
        ensures given { result ≡ unwrap_or given result }
        ensures shown { given ≡ None → P.may_show result }
    {
        match given {
            Some(observed_time) => observed_time,
            None => P::show(&self.provider.clock),
        }
    }

    /// Returns the record with the logger's scope. Sets the observed time to now, unless it is
    /// already set.
    ///
    /// # Errors
    ///
    /// `AllocError` if the scope's reference count is at its limit.
    fn data_of(&self, mut emitted: SdkLogRecord) -> Result<LogData, AllocError>
        ensures { IfOk result (IsEmitted P.may_show emitted self.now.scope) }
    {
        let observed_time = self.observed_time(emitted.observed_timestamp);
        emitted.observed_timestamp = Some(observed_time);
        Ok(LogData {
            record: emitted,
            instrumentation_scope: self.scope.clone()?,
        })
    }

    /// Hands the record to the provider's processor, or counts it.
    fn hand_over(&self, emitted: SdkLogRecord)
        ensures { IsHandedOver (IsEmitted P.may_show emitted self.now.scope)
            P.is_taken P.is_counted P.is_unmade }
    {
        match self.data_of(emitted) {
            Ok(given) => self.provider.hand_in(given),
            Err(error) => P::count_unmade(&self.provider.dropped_records, error),
        }
    }

    /// Emits the record in the context, as the Rust crate's `emit` does in the thread's context. A
    /// record without a span gets the active span of the context. Drops the record if telemetry is
    /// suppressed in the context, or if the logger is disabled. Not in the Rust crate.
    pub fn emit_in(&self, context: &Context, emitted: SdkLogRecord)
        ensures handed_in { IsHandedInFrom context.now self.now emitted
            P.may_show P.is_taken P.is_counted P.is_unmade }
        ensures suppressed { IsTrue (is_telemetry_suppressed context.now) → P.is_left_out emitted }
        ensures disabled { IsTrue self.now.is_disabled → P.is_left_out emitted }
    {
        if self.provider.is_disabled || context.is_telemetry_suppressed() {
            P::leave_out(emitted);
        } else {
            self.hand_over(in_context(emitted, context));
        }
    }

    /// Returns `true` if the provider's processor is open and wants records with this severity,
    /// target and event name, and telemetry isn't suppressed in the context. Not in the Rust crate.
    pub fn event_enabled_in(
        &self,
        context: &Context,
        level: Severity,
        target: &str,
        name: Option<&str>,
    ) -> bool
        ensures suppressed { IsTrue (is_telemetry_suppressed context.now) → result ≡ false }
        ensures disabled { IsTrue self.now.is_disabled → result ≡ false }
        ensures wanted { result ≡ true → P.is_wanted level target.now (asked name.entry) }
        ensures unwanted { is_telemetry_suppressed context.now ≡ false
            → self.now.is_disabled ≡ false → result ≡ false
            → P.is_unwanted level target.now (asked name.entry) ⊎ P.is_at_work }
    {
        !context.is_telemetry_suppressed() && self.provider.is_enabled(level, target, name)
    }
}

impl<P: LogProcessor, C: Clock> Logger for SdkLogger<P, C>
where
    P: RecordIntake,
{
    ghost use Rattle.std.specs.Prelude.{◌≡◌};
    ghost use Rattle.otel_sdk_logs.specs.LogRecord.{empty_within};

    type LogRecord = SdkLogRecord;

    ghost may_create = { λ logger log. log ≡ empty_within logger.limits };

    ghost may_enable = { λ _ _ _ _ _. Unit {0} };

    /// Creates a record with nothing set and the provider's limits. Never allocates.
    fn create_log_record(&self, alloc: Global) -> Result<SdkLogRecord, AllocError> {
        Ok(SdkLogRecord::with_limits(alloc, self.provider.limits))
    }

    /// Hands the record to the provider's processor. Sets the observed time to now, unless it is
    /// already set. Drops the record if the logger is disabled. Knows no context: see
    /// [`SdkLogger::emit_in`].
    fn emit(&self, emitted: SdkLogRecord)
        ensures handed_in { IsHandedIn self.now emitted P.RecordIntake.may_show
            P.RecordIntake.is_taken P.RecordIntake.is_counted P.RecordIntake.is_unmade }
        ensures disabled { IsTrue self.now.is_disabled → P.RecordIntake.is_left_out emitted }
    {
        if self.provider.is_disabled {
            P::leave_out(emitted);
        } else {
            self.hand_over(emitted);
        }
    }

    /// Returns `true` if the provider's processor is open and wants such records. Knows no context:
    /// see [`SdkLogger::event_enabled_in`].
    fn event_enabled(&self, level: Severity, target: &str, name: Option<&str>) -> bool
        ensures wanted { result ≡ true
            → P.RecordIntake.is_wanted level target.now (asked name.entry) }
        ensures unwanted { self.now.is_disabled ≡ false → result ≡ false
            → P.RecordIntake.is_unwanted level target.now (asked name.entry)
            ⊎ P.RecordIntake.is_at_work }
        ensures disabled { IsTrue self.now.is_disabled → result ≡ false }
    {
        self.provider.is_enabled(level, target, name)
    }
}
