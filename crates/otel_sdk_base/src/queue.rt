//! The queue of items that wait for an exporter.
ghost use Rattle.std.specs.Prelude.{◌≡◌, ◌≤◌, ◌<◌, ◌+◌, [], not, length, min, IfOk, IfErr};
ghost use Rattle.std.specs.Prelude.{IsTrue, OnOk};
ghost use Rattle.std.specs.Rc.{rc_value};
ghost use Rattle.otel_sdk_base.specs.Export.{refuses_with};
ghost use Rattle.otel_sdk_base.specs.Writers.{FlushesNever};

mod batches;
pub(crate) mod config;

use crate::error::{OTelSdkError, OTelSdkResult};
use crate::export::Exporter;
use crate::queue::batches::export_batches;
use crate::queue::config::BatchConfig;
use crate::resource::Resource;
use std::alloc::{AllocError, Global};
use std::rc::Rc;

/// A processor's queue of items that wait for its exporter, in order. A full queue drops and counts
/// new items. Not in the Rust crates.
///
/// A batch that the exporter refuses stays queued, in order.
///
/// ```
/// let queue: Queue<u64, E> = Queue::new(alloc, exporter, BatchConfig::default());
/// ```
#[derive(Drop)]
pub struct Queue<T, E> {
    exporter: E,
    items: Vec<T>,
    dropped: u64,
    config: BatchConfig,
    is_shut_down: bool,
}

impl<T: Drop, E: Exporter<T>> Queue<T, E> {
    ghost use Rattle.otel_sdk_base.specs.Queue as spec;
    ghost use Rattle.otel_sdk_base.specs.Queue.{IsFlushed, IsFlushedUpTo, IsForceFlushed};
    ghost use Rattle.otel_sdk_base.specs.Queue.{IsShutDown, TellsResource};
    ghost use Rattle.otel_sdk_base.specs.QueueView.{capacity, state};

    /// Creates an empty queue. Never allocates.
    pub fn new(alloc: Global, exporter: E, config: BatchConfig) -> Queue<T, E>
        ensures { state result ≡ spec.new exporter config }
    {
        Queue {
            exporter,
            items: Vec::new(alloc),
            dropped: 0,
            config,
            is_shut_down: false,
        }
    }

    /// Creates an empty queue with space reserved for its maximum size.
    ///
    /// # Errors
    ///
    /// `AllocError` if out of memory. The exporter is dropped.
    pub fn with_capacity(
        alloc: Global,
        exporter: E,
        config: BatchConfig,
    ) -> Result<Queue<T, E>, AllocError>
        ensures { IfOk result (λ queue. (state queue ≡ spec.new exporter config)
            × (config.max_queue_size ≤ capacity queue)) }
    {
        let items = Vec::with_capacity(alloc, config.max_queue_size)?;
        Ok(Queue {
            exporter,
            items,
            dropped: 0,
            config,
            is_shut_down: false,
        })
    }

    /// Returns the exporter.
    pub fn exporter(&self) -> &E
        ensures { result.now ≡ (state self.now).exporter }
    {
        &self.exporter
    }

    /// Returns the number of items that are queued.
    pub fn len(&self) -> usize
        ensures { result ≡ length (state self.now).queue }
    {
        self.items.len()
    }

    /// Returns `true` if no more item can be queued.
    pub fn is_full(&self) -> bool
        ensures { result ≡ not (spec.has_space (state self.now)) }
    {
        self.items.len() >= self.config.max_queue_size
    }

    /// Returns the maximum number of items in a batch.
    pub fn max_export_batch_size(&self) -> usize
        ensures { result ≡ (state self.now).config.max_export_batch_size }
    {
        self.config.max_export_batch_size
    }

    /// Returns the number of dropped items, saturating at `u64::MAX`.
    pub fn dropped(&self) -> u64
        ensures { result ≡ (state self.now).dropped }
    {
        self.dropped
    }

    /// Returns `true` if the queue was shut down.
    pub fn is_shut_down(&self) -> bool
        ensures { result ≡ (state self.now).is_shut_down }
    {
        self.is_shut_down
    }

    /// Reserves space for one more item unless the queue is full, so the next [`Queue::add`] has
    /// space.
    ///
    /// # Errors
    ///
    /// `AlreadyShutdown` after [`Queue::shutdown`], otherwise `Memory` if out of memory. The items
    /// are unchanged.
    pub fn reserve(&mut self) -> OTelSdkResult
        ensures same { state self.new ≡ state self.old }
        ensures ok { OnOk result (IsTrue (spec.has_space (state self.old))
            → length (state self.new).queue < capacity self.new) }
        ensures open { OnOk result (IsTrue (not (state self.old).is_shut_down)) }
        ensures refused { IfErr result (λ error. error ≡ spec.cause (state self.old)) }
    {
        if self.is_shut_down {
            return Err(OTelSdkError::AlreadyShutdown);
        }
        if self.items.len() < self.config.max_queue_size {
            self.items.reserve(1)?;
        }
        Ok(())
    }

    /// Reserves space for this many more items, as far as the queue's maximum size allows, so that
    /// [`Queue::reserve`] needs no memory for them.
    ///
    /// # Errors
    ///
    /// `AllocError` if out of memory. The items are unchanged.
    pub fn reserve_for(&mut self, count: usize) -> Result<(), AllocError>
        ensures same { state self.new ≡ state self.old }
        ensures ok { OnOk result (min (length (state self.new).queue + count)
            (state self.new).config.max_queue_size ≤ capacity self.new) }
    {
        let size = self.config.max_queue_size;
        let wanted = self.items.len().saturating_add(count).min(size);
        self.items.reserve(wanted.saturating_sub(self.items.len()))
    }

    /// Queues the item, or drops and counts it if the queue is full. Never allocates.
    pub fn add(&mut self, item: T)
        requires { IsTrue (spec.has_space (state self.old))
            → length (state self.old).queue < capacity self.old }
        ensures { (state self.new ≡ spec.after_add item (state self.old))
            × (capacity self.new ≡ capacity self.old) }
    {
        if self.items.len() < self.config.max_queue_size {
            self.items.push_reserved(item);
        } else {
            self.count_dropped();
        }
    }

    /// Counts an item that was dropped.
    pub fn count_dropped(&mut self)
        ensures { (state self.new ≡ spec.counted (state self.old))
            × (capacity self.new ≡ capacity self.old) }
    {
        self.dropped = self.dropped.saturating_add(1);
    }

    // Exports the queued items. Accepted batches leave the queue.
    fn export_all(&mut self) -> OTelSdkResult
        ensures flushed { IsFlushed E.accepted (state self.old) (state self.new) }
        ensures ok { OnOk result ((state self.new).queue ≡ []) }
        ensures refused { IfErr result (λ error. IsFlushedUpTo E.accepted
            (refuses_with E.calls error) (state self.old) (state self.new)) }
        ensures unflushed { FlushesNever E.calls.flushed
            (state self.old).exporter (state self.new).exporter }
        ensures capacity { capacity self.new ≡ capacity self.old }
    {
        let size = self.config.max_export_batch_size;
        let (left, outcome) = export_batches(&mut self.exporter, self.items.as_slice(), size);
        let accepted = self.items.len() - left;
        drop(self.items.drain(..accepted));
        outcome
    }

    /// Exports the queued items in order, in batches of at most `max_export_batch_size`, and then
    /// flushes the exporter.
    ///
    /// # Errors
    ///
    /// `AlreadyShutdown` after [`Queue::shutdown`]: nothing changes. Otherwise the error of the
    /// first refused batch, or of the exporter's flush. Accepted items have left the queue.
    pub fn force_flush(&mut self) -> OTelSdkResult
        ensures { IsForceFlushed E.accepted E.calls result (state self.old) (state self.new)
            × (capacity self.new ≡ capacity self.old) }
    {
        if self.is_shut_down {
            return Err(OTelSdkError::AlreadyShutdown);
        }
        self.export_all()?;
        self.exporter.force_flush()
    }

    /// Flushes the queue, then shuts down the queue and its exporter.
    ///
    /// # Errors
    ///
    /// `AlreadyShutdown` after an earlier call, or the exporter's error. If the flush failed, the
    /// queue stays open for another try.
    pub fn shutdown(&mut self) -> OTelSdkResult
        ensures { IsShutDown E.accepted E.calls result (state self.old) (state self.new)
            × (capacity self.new ≡ capacity self.old) }
    {
        self.force_flush()?;
        let outcome = self.exporter.shutdown();
        self.is_shut_down = true;
        outcome
    }

    /// Sets the exporter's resource for later items.
    pub fn set_resource(&mut self, resource: Rc<Resource>)
        ensures { TellsResource E.accepted E.calls (rc_value resource)
            (state self.old) (state self.new) × (capacity self.new ≡ capacity self.old) }
    {
        self.exporter.set_resource(resource);
    }
}
