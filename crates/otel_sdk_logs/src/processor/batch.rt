//! The processor that exports log records in batches.
ghost use Rattle.std.specs.Prelude.{◌≡◌, ◌≤◌, true, false, not, length, IfOk};
ghost use Rattle.std.specs.Rc.{rc_value};
ghost use Rattle.otel_sdk_base.specs.QueueView as queue_view;

use crate::export::{LogData, LogExporter};
use crate::processor::LogProcessor;
use opentelemetry::logs::Severity;
use otel_sdk_base::error::OTelSdkResult;
use otel_sdk_base::resource::Resource;
use otel_sdk_base::{BatchConfig, Queue};
use std::alloc::{AllocError, Global};
use std::rc::Rc;

/// Queues log records, and exports them in batches when it is flushed (the Rust crate's
/// `BatchLogProcessor`). The caller flushes it: a full batch isn't exported by itself.
///
/// Space for the whole queue is reserved at creation, so queueing a record never allocates. A
/// record is dropped and counted if the queue is full or the processor is closed. A batch that the
/// exporter refuses stays queued, in order.
///
/// ```
/// let mut processor = BatchLogProcessor::new(alloc, exporter, config)?;
/// ```
pub struct BatchLogProcessor<E> {
    queue: Queue<LogData, E>,
    ghost is_reserved: { (queue_view.state queue).config.max_queue_size ≤ queue_view.capacity queue },
}

// Written out, so that a caller's proof has one call here, and not the drops of all parts.
impl<E: Drop> Drop for BatchLogProcessor<E> {
    fn drop(self) {
        let BatchLogProcessor { queue: _ } = self;
    }
}

impl<E: LogExporter> BatchLogProcessor<E> {
    ghost use Rattle.otel_sdk_base.specs.Queue as spec;
    ghost use Rattle.otel_sdk_logs.specs.Batch.{state};

    /// Creates a processor without records, with space reserved for its whole queue.
    ///
    /// # Errors
    ///
    /// `AllocError` if out of memory. The exporter is dropped.
    pub fn new(
        alloc: Global,
        exporter: E,
        config: BatchConfig,
    ) -> Result<BatchLogProcessor<E>, AllocError>
        ensures { IfOk result (λ p. state p ≡ spec.new exporter config) }
    {
        Ok(BatchLogProcessor {
            queue: Queue::with_capacity(alloc, exporter, config)?,
        })
    }

    /// Returns the exporter.
    pub fn exporter(&self) -> &E
        ensures { result.now ≡ (state self.now).exporter }
    {
        self.queue.exporter()
    }

    /// Returns the number of records that are queued.
    pub fn queued_records(&self) -> usize
        ensures { result ≡ length (state self.now).queue }
    {
        self.queue.len()
    }
}

impl<E: LogExporter> LogProcessor for BatchLogProcessor<E> {
    ghost use Rattle.std.specs.Prelude.{not};
    ghost use Rattle.otel_sdk_base.specs.Queue.{IsForceFlushed, IsKeptOrDropped, IsShutDown};
    ghost use Rattle.otel_sdk_base.specs.Queue.{TellsResource, received_of, with_dropped};
    ghost use Rattle.otel_sdk_logs.specs.Processor.{after_emit};
    ghost use Rattle.otel_sdk_logs.specs.Batch.{batch_calls, state};

    ghost received = { λ p. received_of E.accepted (state p) };

    ghost receives = { λ p. not (state p).is_shut_down };

    ghost calls = { batch_calls E.accepted E.calls };

    /// Queues the record, or drops and counts it if the processor is closed or the queue is full.
    fn on_emit(&mut self, given: LogData)
        ensures emitted { state self.new ≡ after_emit given (state self.old) }
        ensures handed_in { IsKeptOrDropped given (received_of E.accepted (state self.old))
            (received_of E.accepted (state self.new)) }
        ensures closed { not (state self.old).is_shut_down ≡ false
            → received_of E.accepted (state self.new)
            ≡ with_dropped (received_of E.accepted (state self.old)) }
    {
        if self.queue.is_shut_down() {
            self.queue.count_dropped();
        } else {
            self.queue.add(given);
        }
    }

    /// Exports the queued records in order, in batches of at most `max_export_batch_size`, and then
    /// flushes the exporter.
    ///
    /// # Errors
    ///
    /// `AlreadyShutdown` after [`LogProcessor::shutdown`]: nothing changes. Otherwise the error of
    /// the first refused batch, or of the exporter's flush. Accepted records have left the queue.
    fn force_flush(&mut self) -> OTelSdkResult
        ensures { IsForceFlushed E.accepted E.calls result (state self.old) (state self.new) }
    {
        self.queue.force_flush()
    }

    fn shutdown(&mut self) -> OTelSdkResult
        ensures shut_down { IsShutDown E.accepted E.calls result
            (state self.old) (state self.new) }
        ensures open { not (state self.new).is_shut_down ≡ true
            → received_of E.accepted (state self.new) ≡ received_of E.accepted (state self.old) }
    {
        self.queue.shutdown()
    }

    /// Returns `true` until it is shut down.
    fn is_open(&self) -> bool
        ensures { result ≡ not (state self.now).is_shut_down }
    {
        !self.queue.is_shut_down()
    }

    /// Returns `true`.
    fn event_enabled(&self, _severity: Severity, _target: &str, _name: Option<&str>) -> bool {
        true
    }

    /// Returns the number of dropped records, saturating at `u64::MAX`.
    fn dropped_records(&self) -> u64
        ensures { result ≡ (state self.now).dropped }
    {
        self.queue.dropped()
    }

    /// Sets the exporter's resource for later records.
    fn set_resource(&mut self, resource: Rc<Resource>)
        ensures { TellsResource E.accepted E.calls (rc_value resource)
            (state self.old) (state self.new) }
    {
        self.queue.set_resource(resource);
    }
}
