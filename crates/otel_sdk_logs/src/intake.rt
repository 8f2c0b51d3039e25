//! The calls of loggers and providers whose results no contract sees.
ghost use Rattle.std.specs.Prelude.{◌≡◌, ◌⊎◌, true, false, IsErrOf, OnOk, is_ok, option_map};
ghost use Rattle.std.specs.Rc.{rc_value};
ghost use Rattle.otel_sdk_base.specs.Queue.{IsKeptOrDropped};
ghost use Rattle.otel_sdk_base.specs.declared.error.OTelSdkError.TheVariants.{AlreadyShutdown};
ghost use Rattle.otel_sdk_logs.specs.Processor.{SaysAtWork};

use crate::export::LogData;
use crate::processor::LogProcessor;
use crate::record::SdkLogRecord;
use opentelemetry::logs::Severity;
use otel_sdk_base::Clock;
use otel_sdk_base::error::{OTelSdkError, OTelSdkResult};
use otel_sdk_base::resource::Resource;
use std::alloc::{AllocError, Global};
use std::cell::{BorrowError, BorrowMutError, Cell, Ref, RefCell};
use std::rc::Rc;

/// A processor that loggers hand records to. Every [`LogProcessor`] is one.
///
/// No contract sees what a cell holds, and a provider and its loggers share a processor in a cell.
/// So each call ensures a ghost member of which code that is generic over this trait knows nothing:
/// only the call shows it. A contract that cites it says that the call was made.
pub trait RecordIntake: LogProcessor {
    ghost use Rattle.std.specs.Prelude.{ℕ, Bool, List, Option, Result};
    ghost use Rattle.otel_base.specs.declared.severity.Severity.{Severity};
    ghost use Rattle.otel_sdk_base.specs.Resource.{Parts};
    ghost use Rattle.otel_sdk_base.specs.declared.error.OTelSdkError.{OTelSdkError};
    ghost use Rattle.otel_sdk_logs.specs.LogRecord.{LogEntry, LogState};

    ghost is_taken: { LogEntry → Type 0 };

    ghost is_counted: { Type 0 };

    ghost is_unmade: { Type 0 };

    ghost is_left_out: { LogState → Type 0 };

    ghost is_wanted: { Severity → List ℕ → Option (List ℕ) → Type 0 };

    ghost is_unwanted: { Severity → List ℕ → Option (List ℕ) → Type 0 };

    ghost is_at_work: { Type 0 };

    ghost may_lend: { Bool → Type 0 };

    ghost is_told: { Parts → Type 0 };

    ghost may_flush: { Result (Unit {0}) OTelSdkError → Type 0 };

    ghost may_shut_down: { Result (Unit {0}) OTelSdkError → Type 0 };

    ghost may_show: { ℕ → Type 0 };

    ghost may_have_missed: { ℕ → Type 0 };

    ghost may_have_dropped: { ℕ → Type 0 };

    /// Receives a record, as [`LogProcessor::on_emit`].
    fn take(&mut self, given: LogData)
        ensures taken { is_taken given }
        ensures handed_in { IsKeptOrDropped given (Self.received self.old)
            (Self.received self.new) }
        ensures emitted { Self.calls.emits self.old given self.new };

    /// Counts a record that meets a processor at work, up to `u64::MAX`. The error is of the
    /// attempt to borrow it.
    fn count_missed(missed: &Cell<u64>, error: BorrowMutError)
        ensures { is_counted };

    /// Counts a record for whose scope there is no memory, up to `u64::MAX`.
    fn count_unmade(missed: &Cell<u64>, error: AllocError)
        ensures { is_unmade };

    /// Drops a record that no processor is to receive. It isn't counted.
    fn leave_out(emitted: SdkLogRecord)
        ensures { is_left_out emitted };

    /// Returns `true` if the processor is open and wants records with this severity, target and
    /// event name: see [`LogProcessor::event_enabled`].
    fn wants(&self, severity: Severity, target: &str, name: Option<&str>) -> bool
        ensures wanted { let asked = option_map (λ n. n.now) name.entry in
            result ≡ true → is_wanted severity target.now asked }
        ensures unwanted { let asked = option_map (λ n. n.now) name.entry in
            result ≡ false → is_unwanted severity target.now asked }
        ensures open { result ≡ true → Self.receives self.now ≡ true }
        ensures wished { let asked = option_map (λ n. n.now) name.entry in
            result ≡ true → Self.may_want self.now severity target.now asked }
        ensures refused { let asked = option_map (λ n. n.now) name.entry in
            result ≡ false → (Self.receives self.now ≡ false)
            ⊎ Self.may_refuse self.now severity target.now asked };

    /// Returns `false`, since a processor at work wants no records. The error is of the attempt to
    /// borrow it.
    fn wants_none(error: BorrowError) -> bool
        ensures none { result ≡ false }
        ensures at_work { is_at_work };

    /// Returns the error of a call that meets a processor at work. The other error is of the
    /// attempt to borrow it.
    fn refusal(alloc: Global, error: BorrowMutError) -> OTelSdkError
        ensures says { SaysAtWork result }
        ensures at_work { is_at_work };

    /// Borrows the processor, unless it is at work.
    fn lend(processor: &RefCell<Self>) -> Result<Ref<'_, Self>, BorrowError>
        ensures { may_lend (is_ok result) };

    /// Sets the exporter's resource, as [`LogProcessor::set_resource`].
    fn tell(&mut self, resource: Rc<Resource>)
        ensures told { is_told (rc_value resource) }
        ensures same { Self.received self.new ≡ Self.received self.old }
        ensures open { Self.receives self.new ≡ Self.receives self.old }
        ensures called { Self.calls.takes_resource self.old (rc_value resource) self.new };

    /// Flushes the processor, as [`LogProcessor::force_flush`].
    fn flush(&mut self) -> OTelSdkResult
        ensures flushed { may_flush result }
        ensures same { Self.received self.new ≡ Self.received self.old }
        ensures closed { Self.receives self.old ≡ false → IsErrOf result AlreadyShutdown }
        ensures called { Self.calls.flushes self.old result self.new };

    /// Shuts the processor down, as [`LogProcessor::shutdown`].
    fn shut_down(&mut self) -> OTelSdkResult
        ensures shut_down { may_shut_down result }
        ensures ok { OnOk result (Self.receives self.new ≡ false) }
        ensures again { Self.receives self.old ≡ false → IsErrOf result AlreadyShutdown }
        ensures called { Self.calls.shuts_down self.old result self.new };

    /// Returns the current time, as [`Clock::now`].
    fn show<C: Clock>(clock: &C) -> u64
        ensures shown { may_show result }
        ensures read { C.reads clock.now result };

    /// Returns the number of records that didn't reach the processor.
    fn missed(missed: &Cell<u64>) -> u64
        ensures { may_have_missed result };

    /// Returns the number of dropped records, as [`LogProcessor::dropped_records`].
    fn dropped(&self) -> u64
        ensures shown { may_have_dropped result }
        ensures dropped { result ≡ (Self.received self.now).dropped };

    /// Returns 0 in place of the number of records that a processor at work dropped. The error is
    /// of the attempt to borrow it.
    fn dropped_unseen(error: BorrowError) -> u64
        ensures none { result ≡ 0 }
        ensures at_work { is_at_work };
}

impl<P: LogProcessor> RecordIntake for P {
    ghost is_taken = { λ _. Unit {0} };

    ghost is_counted = { Unit {0} };

    ghost is_unmade = { Unit {0} };

    ghost is_left_out = { λ _. Unit {0} };

    ghost is_wanted = { λ _ _ _. Unit {0} };

    ghost is_unwanted = { λ _ _ _. Unit {0} };

    ghost is_at_work = { Unit {0} };

    ghost may_lend = { λ _. Unit {0} };

    ghost is_told = { λ _. Unit {0} };

    ghost may_flush = { λ _. Unit {0} };

    ghost may_shut_down = { λ _. Unit {0} };

    ghost may_show = { λ _. Unit {0} };

    ghost may_have_missed = { λ _. Unit {0} };

    ghost may_have_dropped = { λ _. Unit {0} };

    fn take(&mut self, given: LogData) {
        self.on_emit(given);
    }

    fn count_missed(missed: &Cell<u64>, _error: BorrowMutError) {
        missed.set(missed.get().saturating_add(1));
    }

    fn count_unmade(missed: &Cell<u64>, _error: AllocError) {
        missed.set(missed.get().saturating_add(1));
    }

    fn leave_out(_emitted: SdkLogRecord) {}

    fn wants(&self, severity: Severity, target: &str, name: Option<&str>) -> bool {
        self.is_open() && self.event_enabled(severity, target, name)
    }

    fn wants_none(_error: BorrowError) -> bool {
        false
    }

    fn refusal(alloc: Global, _error: BorrowMutError) -> OTelSdkError {
        match String::from_str(alloc, "the processor is at work") {
            Ok(words) => OTelSdkError::InternalFailure(words),
            Err(error) => OTelSdkError::from(error),
        }
    }

    fn lend(processor: &RefCell<P>) -> Result<Ref<'_, P>, BorrowError> {
        processor.try_borrow()
    }

    fn tell(&mut self, resource: Rc<Resource>) {
        self.set_resource(resource);
    }

    fn flush(&mut self) -> OTelSdkResult {
        self.force_flush()
    }

    fn shut_down(&mut self) -> OTelSdkResult {
        self.shutdown()
    }

    fn show<C: Clock>(clock: &C) -> u64 {
        clock.now()
    }

    fn missed(missed: &Cell<u64>) -> u64 {
        missed.get()
    }

    fn dropped(&self) -> u64 {
        self.dropped_records()
    }

    fn dropped_unseen(_error: BorrowError) -> u64 {
        0
    }
}
