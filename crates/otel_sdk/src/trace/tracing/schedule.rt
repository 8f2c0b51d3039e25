//! When a service exports.
ghost use Rattle.std.specs.Prelude.{◌≡◌, option_map};
ghost use Rattle.std.specs.Duration.{as_nanos};
ghost use Rattle.otel_sdk.specs.ExportSchedule as spec;
ghost use Rattle.otel_sdk.specs.ExportSchedule.{ExportsIfDue, IsTimeLeft};
ghost use Rattle.otel_sdk.specs.Exports.{Flushes};

use super::Exports;
use super::last_export::Timer;
use crate::env::EnvBatches;
use crate::trace::processor::SpanProcessor;
use opentelemetry::trace::Tracing;
use otel_sdk_base::Clock;
use otel_sdk_base::error::OTelSdkResult;
use std::marker::Model;
use std::time::Duration;

/// Says when a service exports: once a batch of spans has ended (`OTEL_BSP_MAX_EXPORT_BATCH_SIZE`),
/// or a delay has passed since the last export (`OTEL_BSP_SCHEDULE_DELAY`). Not in the Rust crate,
/// whose processor has a thread.
///
/// Nothing is exported by itself: a service calls [`ExportSchedule::export_if_due`] after each
/// request, and waits for the next one no longer than [`ExportSchedule::time_left`].
///
/// ```
/// let mut schedule = ExportSchedule::new(&clock, &config.span_batches);
/// schedule.export_if_due(&mut tracing, &clock)?;
/// let timeout = schedule.time_left(&tracing);
/// ```
pub struct ExportSchedule {
    timer: Timer,
    delay_millis: u32,
    batch_size: usize,
    has_failed: bool,
}

// Written out, so that a caller's proof has one call here, and not the drops of all parts.
impl Drop for ExportSchedule {
    fn drop(self) {
        let ExportSchedule {
            timer: _,
            delay_millis: _,
            batch_size: _,
            has_failed: _,
        } = self;
    }
}

impl Model for ExportSchedule {
    ghost use Rattle.otel_sdk.specs.ExportSchedule.{ScheduleState};
    ghost use Rattle.otel_sdk.specs.LastExport.{nanos_of};

    ghost Value = { ScheduleState };

    ghost view = { λ s. record {
      time = s.timer;
      delay = nanos_of s.delay_millis;
      batch_size = s.batch_size;
      has_failed = s.has_failed;
    } };
}

impl ExportSchedule {
    /// Returns a schedule that begins now. The queues of the exporters have these sizes.
    pub fn new<C: Clock>(clock: &C, batches: &EnvBatches) -> ExportSchedule
        ensures shown { C.reads clock.now result.time.last }
        ensures state { result ≡ spec.at_start result.time.last batches.now }
    {
        let queue_size = batches.max_queue_size.max(1);
        ExportSchedule {
            timer: Timer::new(clock, batches.schedule_delay_millis),
            delay_millis: batches.schedule_delay_millis,
            batch_size: batches.max_export_batch_size.max(1).min(queue_size) as usize,
            has_failed: false,
        }
    }

    /// Returns `true` if an export of so many queued spans is due.
    fn is_due(&self, queued: usize) -> bool
        ensures { result ≡ spec.is_due queued self.now }
    {
        let is_full = queued >= self.batch_size && !self.has_failed;
        is_full || self.timer.left() == 0 && (queued > 0 || self.has_failed)
    }

    /// Exports every span that has ended if a batch is full, or if the delay has passed since the
    /// last export. Otherwise does nothing. Call it after each request, and when a wait of
    /// [`ExportSchedule::time_left`] is over.
    ///
    /// After an export that failed, the next one is due after the delay: a full batch doesn't count
    /// until an export succeeds. If the clock was set back, the delay starts where it was at the
    /// last call, and is no longer.
    ///
    /// # Errors
    ///
    /// As [`Exports::flush`], if an export was due. The spans that an exporter didn't accept are
    /// kept, in order.
    pub fn export_if_due<T: Exports, C: Clock>(
        &mut self,
        tracing: &mut T,
        clock: &C,
    ) -> OTelSdkResult
        ensures { ExportsIfDue (λ answer old new. Flushes T.Source.calls T.Processors.calls
            T.processors_of answer (T.Tracing.held old) (T.Tracing.held new))
            (λ t. T.Processors.calls.queued (T.processors_of (T.Tracing.held t).source))
            (C.reads clock.now) result self.old self.new tracing.old tracing.new }
    {
        let _ = self.timer.read(clock);
        if !self.is_due(tracing.processors().queued_spans()) {
            return Ok(());
        }
        let exported = tracing.flush();
        self.timer.restart(self.delay_millis);
        self.has_failed = exported.is_err();
        exported
    }

    /// Returns how long a service may wait for its next request: until an export is due, by the
    /// timestamp that the clock showed last. Returns `None` if there is nothing to export.
    pub fn time_left<T: Exports>(&self, tracing: &T) -> Option<Duration>
        ensures { IsTimeLeft
            (T.Processors.calls.queued (T.processors_of (T.Tracing.held tracing.now).source))
            self.now (option_map as_nanos result) }
    {
        let queued = tracing.processors().queued_spans();
        if self.is_due(queued) {
            return Some(Duration::ZERO);
        }
        if queued == 0 && !self.has_failed {
            return None;
        }
        Some(Duration::from_nanos(self.timer.left()))
    }
}
