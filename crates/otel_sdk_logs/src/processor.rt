//! Processors of log records, which hand them to an exporter.
ghost use Rattle.std.specs.Prelude.{◌≡◌, true, false, IsErrOf, OnOk, option_map};
ghost use Rattle.std.specs.Rc.{rc_value};
ghost use Rattle.otel_sdk_base.specs.Queue.{IsKeptOrDropped, with_dropped};
ghost use Rattle.otel_sdk_base.specs.declared.error.OTelSdkError.TheVariants.{AlreadyShutdown};

pub(crate) mod batch;
pub(crate) mod simple;

use crate::export::LogData;
use opentelemetry::logs::Severity;
use otel_sdk_base::error::OTelSdkResult;
use otel_sdk_base::resource::Resource;
use std::rc::Rc;

/// Receives log records, and hands them to an exporter (the Rust crate's `LogProcessor`). There are
/// no threads: records are exported only during calls.
///
/// The ghost member `received` gives the records that the processor received and keeps, in order,
/// and how many it dropped. The ghost member `receives` says whether it is open. The ghost members
/// `may_want` and `may_refuse` give the severities, targets and event names of records that it may
/// want, by default all, and that it may not want, by default none. The ghost member `calls` says
/// what each record, flush, shutdown and resource did, by default anything: each relates the states
/// before and after, and the record, the answer or the resource.
///
/// See [`crate::BatchLogProcessor`].
pub trait LogProcessor: Drop {
    ghost use Rattle.std.specs.Prelude.{ℕ, Bool, List, Option};
    ghost use Rattle.otel_base.specs.declared.severity.Severity.{Severity};
    ghost use Rattle.otel_sdk_base.specs.Queue.{Received};
    ghost use Rattle.otel_sdk_logs.specs.LogRecord.{LogEntry};
    ghost use Rattle.otel_sdk_logs.specs.Processor.{LogCalls, any_log_calls};

    ghost received: { Self → Received LogEntry };

    ghost receives: { Self → Bool };

    ghost may_want: { Self → Severity → List ℕ → Option (List ℕ) → Type 0 } = { λ _ _ _ _. Unit {0} };

    ghost may_refuse: { Self → Severity → List ℕ → Option (List ℕ) → Type 0 } = { λ _ _ _ _. ⊥ };

    ghost calls: { LogCalls Self } = { any_log_calls };

    /// Receives a record. The record is kept, or dropped and counted.
    fn on_emit(&mut self, given: LogData)
        ensures handed_in { IsKeptOrDropped given (received self.old) (received self.new) }
        ensures closed { receives self.old ≡ false
            → received self.new ≡ with_dropped (received self.old) }
        ensures open { receives self.new ≡ receives self.old }
        ensures emitted { calls.emits self.old given self.new };

    /// Hands the queued records to the exporter, and flushes the exporter.
    ///
    /// # Errors
    ///
    /// `AlreadyShutdown` after [`LogProcessor::shutdown`], or the exporter's error. Records that it
    /// didn't accept stay queued, in order.
    fn force_flush(&mut self) -> OTelSdkResult
        ensures same { received self.new ≡ received self.old }
        ensures closed { receives self.old ≡ false → IsErrOf result AlreadyShutdown }
        ensures open { receives self.new ≡ receives self.old }
        ensures flushed { calls.flushes self.old result self.new };

    /// Flushes the processor, then shuts down the processor and its exporter. Later records are
    /// dropped and counted.
    ///
    /// # Errors
    ///
    /// `AlreadyShutdown` after an earlier call, or the exporter's error. If the flush failed, the
    /// processor stays open for another try.
    fn shutdown(&mut self) -> OTelSdkResult
        ensures ok { OnOk result (receives self.new ≡ false) }
        ensures again { receives self.old ≡ false → IsErrOf result AlreadyShutdown }
        ensures same { receives self.old ≡ false → received self.new ≡ received self.old }
        ensures closed { receives self.old ≡ false → receives self.new ≡ false }
        ensures open { receives self.new ≡ true → received self.new ≡ received self.old }
        ensures dropped { (received self.new).dropped ≡ (received self.old).dropped }
        ensures shut_down { calls.shuts_down self.old result self.new };

    /// Returns `true` if the processor is open. An open processor keeps records unless its queue is
    /// full.
    fn is_open(&self) -> bool
        ensures { result ≡ receives self.now };

    /// Returns `false` if the processor doesn't want records with this severity, target and event
    /// name, so that they needn't be made.
    // No default body: it couldn't prove `may_want`, which an `impl` may replace.
    fn event_enabled(&self, severity: Severity, target: &str, name: Option<&str>) -> bool
        ensures wanted { let asked = option_map (λ n. n.now) name.entry in
            result ≡ true → may_want self.now severity target.now asked }
        ensures refused { let asked = option_map (λ n. n.now) name.entry in
            result ≡ false → may_refuse self.now severity target.now asked };

    /// Returns the number of dropped records.
    fn dropped_records(&self) -> u64
        ensures { result ≡ (received self.now).dropped };

    /// Sets the exporter's resource for later records.
    // No default body: it couldn't prove `calls`, which an `impl` may replace.
    fn set_resource(&mut self, resource: Rc<Resource>)
        ensures same { received self.new ≡ received self.old }
        ensures open { receives self.new ≡ receives self.old }
        ensures told { calls.takes_resource self.old (rc_value resource) self.new };
}
