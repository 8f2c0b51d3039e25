//! The processor that exports each log record when it is emitted.
ghost use Rattle.std.specs.Prelude.{◌≡◌, true, false, not, length, IfOk, Result};
ghost use Rattle.std.specs.Rc.{rc_value};
ghost use Rattle.otel_sdk_base.specs.Queue as spec;
ghost use Rattle.otel_sdk_base.specs.Queue.{IsForceFlushed, IsKeptOrDropped, IsShutDown};
ghost use Rattle.otel_sdk_base.specs.Queue.{TellsResource, received_of, with_dropped};
ghost use Rattle.otel_sdk_base.specs.declared.error.OTelSdkError.{OTelSdkError};
ghost use Rattle.otel_sdk_logs.specs.Processor.{after_emit};
ghost use Rattle.otel_sdk_logs.specs.Batch.{simple_state};

use crate::export::{LogData, LogExporter};
use crate::processor::LogProcessor;
use crate::processor::batch::BatchLogProcessor;
use opentelemetry::logs::Severity;
use otel_sdk_base::BatchConfigBuilder;
use otel_sdk_base::error::OTelSdkResult;
use otel_sdk_base::resource::Resource;
use std::alloc::{AllocError, Global};
use std::rc::Rc;

/// Exports each log record when it is emitted, in a batch of its own (the Rust crate's
/// `SimpleLogProcessor`).
///
/// Up to 2,048 records that the exporter refuses are queued. They are exported again, before other
/// records, at the next record or flush.
///
/// ```
/// let mut processor = SimpleLogProcessor::new(alloc, exporter)?;
/// ```
pub struct SimpleLogProcessor<E> {
    inner: BatchLogProcessor<E>,
}

// Written out, so that a caller's proof has one call here, and not the drops of all parts.
impl<E: Drop> Drop for SimpleLogProcessor<E> {
    fn drop(self) {
        let SimpleLogProcessor { inner: _ } = self;
    }
}

impl<E: LogExporter> SimpleLogProcessor<E> {
    /// Creates a processor without records, with space reserved for refused records.
    ///
    /// # Errors
    ///
    /// `AllocError` if out of memory. The exporter is dropped.
    pub fn new(alloc: Global, exporter: E) -> Result<SimpleLogProcessor<E>, AllocError>
        ensures { IfOk result (λ p. simple_state p ≡ spec.new exporter spec.single_limits) }
    {
        let config = BatchConfigBuilder::default()
            .with_max_export_batch_size(1)
            .build();
        Ok(SimpleLogProcessor {
            inner: BatchLogProcessor::new(alloc, exporter, config)?,
        })
    }

    /// Returns the exporter.
    pub fn exporter(&self) -> &E
        ensures { result.now ≡ (simple_state self.now).exporter }
    {
        self.inner.exporter()
    }

    /// Returns the number of records that are queued because the exporter refused them.
    pub fn queued_records(&self) -> usize
        ensures { result ≡ length (simple_state self.now).queue }
    {
        self.inner.queued_records()
    }
}

impl<E: LogExporter> LogProcessor for SimpleLogProcessor<E> {
    ghost use Rattle.std.specs.Prelude.{not};
    ghost use Rattle.otel_sdk_base.specs.Queue.{received_of};
    ghost use Rattle.otel_sdk_logs.specs.Batch.{simple_calls, simple_state, simple_is_open};

    ghost received = { λ p. received_of E.accepted (simple_state p) };

    ghost receives = { λ p. not (simple_state p).is_shut_down };

    ghost calls = { simple_calls E.accepted E.calls };

    /// Queues the record, or drops and counts it if the processor is closed or the queue is full.
    /// Then flushes the processor. Records that the exporter didn't accept stay queued, in order.
    fn on_emit(&mut self, given: LogData)
        ensures flushed { (answer : Result (Unit {0}) OTelSdkError)
            × IsForceFlushed E.accepted E.calls answer (after_emit given (simple_state self.old))
            (simple_state self.new) }
        ensures handed_in { IsKeptOrDropped given (received_of E.accepted (simple_state self.old))
            (received_of E.accepted (simple_state self.new)) }
        ensures closed { simple_is_open self.old ≡ false
            → received_of E.accepted (simple_state self.new)
            ≡ with_dropped (received_of E.accepted (simple_state self.old)) }
    {
        self.inner.on_emit(given);
        let _ = self.inner.force_flush();
    }

    fn force_flush(&mut self) -> OTelSdkResult
        ensures { IsForceFlushed E.accepted E.calls result
            (simple_state self.old) (simple_state self.new) }
    {
        self.inner.force_flush()
    }

    fn shutdown(&mut self) -> OTelSdkResult
        ensures shut_down { IsShutDown E.accepted E.calls result
            (simple_state self.old) (simple_state self.new) }
        ensures open { simple_is_open self.new ≡ true
            → received_of E.accepted (simple_state self.new)
            ≡ received_of E.accepted (simple_state self.old) }
    {
        self.inner.shutdown()
    }

    /// Returns `true` until it is shut down.
    fn is_open(&self) -> bool
        ensures { result ≡ not (simple_state self.now).is_shut_down }
    {
        self.inner.is_open()
    }

    /// Returns `true`.
    fn event_enabled(&self, _severity: Severity, _target: &str, _name: Option<&str>) -> bool {
        true
    }

    /// Returns the number of dropped records, saturating at `u64::MAX`.
    fn dropped_records(&self) -> u64
        ensures { result ≡ (simple_state self.now).dropped }
    {
        self.inner.dropped_records()
    }

    /// Sets the exporter's resource for later records.
    fn set_resource(&mut self, resource: Rc<Resource>)
        ensures { TellsResource E.accepted E.calls (rc_value resource)
            (simple_state self.old) (simple_state self.new) }
    {
        self.inner.set_resource(resource);
    }
}
