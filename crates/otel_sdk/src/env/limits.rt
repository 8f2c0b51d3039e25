//! Reads the limits of spans, log records and batches.
ghost use Rattle.std.specs.Prelude.{◌≡◌, ◌++◌, IfOk, OnOk};
ghost use Rattle.otel_sdk_base.specs.Queue.{effective};
ghost use Rattle.otel_sdk.specs.EnvLimits as spec;
ghost use Rattle.otel_sdk.specs.EnvTexts.{variables_of};

use super::texts::{limit_or, number, number_or, text_of};
use super::warning::{EnvWarning, Instead, warn};
use otel_sdk_base::{BatchConfig, BatchConfigBuilder};
use otel_sdk_logs::LogRecordLimits;
use otel_sdk_span::SpanLimits;
use std::alloc::{AllocError, Global};

/// The sizes and times of a batch processor. Nothing waits in this crate: an
/// [`ExportSchedule`](crate::trace::ExportSchedule) goes by the delay, and
/// [`finish`](crate::trace::finish) by the time of an export.
#[derive(Clone, Copy, Debug, PartialEq, Eq)]
pub struct EnvBatches {
    /// The maximum number of queued items, at least 1.
    pub max_queue_size: u32,
    /// The maximum number of items in a batch, at least 1 and at most the queue's.
    pub max_export_batch_size: u32,
    /// The time between two exports, in milliseconds.
    pub schedule_delay_millis: u32,
    /// The time that an export may take, in milliseconds.
    pub export_timeout_millis: u32,
}

impl EnvBatches {
    /// Returns the sizes as a processor takes them.
    pub fn config(&self) -> BatchConfig
        ensures { result ≡ effective (spec.sizes_of self.now) }
    {
        BatchConfigBuilder::default()
            .with_max_queue_size(self.max_queue_size as usize)
            .with_max_export_batch_size(self.max_export_batch_size as usize)
            .build()
    }
}

/// The limits of all attributes: their number, and the length of their texts.
#[derive(Clone, Copy, Debug)]
pub(super) struct AttributeLimits {
    pub(super) count: u32,
    pub(super) length: Option<u32>,
}

/// Returns the limits of all attributes.
///
/// # Errors
///
/// `AllocError` if out of memory.
pub(super) fn attribute_limits(
    alloc: Global,
    vars: &[(String, String)],
    warnings: &mut Vec<EnvWarning>,
) -> Result<AttributeLimits, AllocError>
    ensures count { IfOk result (λ g. g.count ≡ spec.general_count (variables_of vars.now)) }
    ensures length { IfOk result (λ g. g.length ≡ spec.general_length (variables_of vars.now)) }
    ensures warnings { OnOk result (warnings.new.items ≡ warnings.old.items
        ++ spec.general_warnings (variables_of vars.now)) }
{
    Ok(AttributeLimits {
        count: number_or(alloc, vars, warnings, "OTEL_ATTRIBUTE_COUNT_LIMIT", 0, 128)?,
        length: limit_or(
            alloc,
            vars,
            warnings,
            "OTEL_ATTRIBUTE_VALUE_LENGTH_LIMIT",
            None,
        )?,
    })
}

/// Returns the limits of spans.
///
/// # Errors
///
/// `AllocError` if out of memory.
pub(super) fn span_limits(
    alloc: Global,
    vars: &[(String, String)],
    warnings: &mut Vec<EnvWarning>,
    general: AttributeLimits,
) -> Result<SpanLimits, AllocError>
    requires count { general.count ≡ spec.general_count (variables_of vars.now) }
    requires length { general.length ≡ spec.general_length (variables_of vars.now) }
    ensures limits { IfOk result (λ limits. limits ≡ spec.span_limits (variables_of vars.now)) }
    ensures warnings { OnOk result (warnings.new.items ≡ warnings.old.items
        ++ spec.span_warnings (variables_of vars.now)) }
{
    let events = number_or(alloc, vars, warnings, "OTEL_SPAN_EVENT_COUNT_LIMIT", 0, 128)?;
    let own = "OTEL_SPAN_ATTRIBUTE_COUNT_LIMIT";
    let attributes = number_or(alloc, vars, warnings, own, 0, general.count)?;
    let links = number_or(alloc, vars, warnings, "OTEL_SPAN_LINK_COUNT_LIMIT", 0, 128)?;
    let of_event = number_or(
        alloc,
        vars,
        warnings,
        "OTEL_EVENT_ATTRIBUTE_COUNT_LIMIT",
        0,
        128,
    )?;
    let of_link = number_or(
        alloc,
        vars,
        warnings,
        "OTEL_LINK_ATTRIBUTE_COUNT_LIMIT",
        0,
        128,
    )?;
    let own = "OTEL_SPAN_ATTRIBUTE_VALUE_LENGTH_LIMIT";
    let length = limit_or(alloc, vars, warnings, own, general.length)?;
    Ok(SpanLimits {
        max_events_per_span: events,
        max_attributes_per_span: attributes,
        max_links_per_span: links,
        max_attributes_per_event: of_event,
        max_attributes_per_link: of_link,
        max_attribute_length: length,
    })
}

/// Returns the limits of log records.
///
/// # Errors
///
/// `AllocError` if out of memory.
pub(super) fn log_limits(
    alloc: Global,
    vars: &[(String, String)],
    warnings: &mut Vec<EnvWarning>,
    general: AttributeLimits,
) -> Result<LogRecordLimits, AllocError>
    requires count { general.count ≡ spec.general_count (variables_of vars.now) }
    requires length { general.length ≡ spec.general_length (variables_of vars.now) }
    ensures limits { IfOk result (λ limits. limits ≡ spec.log_limits (variables_of vars.now)) }
    ensures warnings { OnOk result (warnings.new.items ≡ warnings.old.items
        ++ spec.log_warnings (variables_of vars.now)) }
{
    let own = "OTEL_LOGRECORD_ATTRIBUTE_COUNT_LIMIT";
    Ok(LogRecordLimits {
        max_attributes_per_record: number_or(alloc, vars, warnings, own, 0, general.count)?,
        max_attribute_length: general.length,
    })
}

/// Returns the size of a batch of a queue.
///
/// # Errors
///
/// `AllocError` if out of memory.
fn batch_size(
    alloc: Global,
    vars: &[(String, String)],
    warnings: &mut Vec<EnvWarning>,
    name: &'static str,
    queue: u32,
) -> Result<u32, AllocError>
    ensures size { IfOk result (λ n. n ≡ spec.batch_size name.now queue (variables_of vars.now)) }
    ensures warnings { OnOk result (warnings.new.items ≡ warnings.old.items
        ++ spec.batch_warnings name.now queue (variables_of vars.now)) }
{
    let text = text_of(vars, name);
    let number = number(text, 1);
    let size = number.unwrap_or(512).min(queue);
    let within = match number {
        Some(number) => number <= queue,
        None => false,
    };
    let instead = Instead::Number(u64::from(size));
    warn(alloc, warnings, within, name, text, instead)?;
    Ok(size)
}

/// The names of the variables of a batch processor.
#[derive(Clone, Copy)]
struct Names {
    queue: &'static str,
    batch: &'static str,
    delay: &'static str,
    timeout: &'static str,
}

/// Returns the sizes and times of a batch processor, with this delay if none is given.
///
/// # Errors
///
/// `AllocError` if out of memory.
fn batches(
    alloc: Global,
    vars: &[(String, String)],
    warnings: &mut Vec<EnvWarning>,
    names: Names,
    delay: u32,
) -> Result<EnvBatches, AllocError>
    ensures batches { IfOk result (λ b. b
        ≡ spec.batches (spec.names_of names) delay (variables_of vars.now)) }
    ensures warnings { OnOk result (warnings.new.items ≡ warnings.old.items
        ++ spec.batches_warnings (spec.names_of names) delay (variables_of vars.now)) }
{
    let queue = number_or(alloc, vars, warnings, names.queue, 1, 2048)?;
    let batch = batch_size(alloc, vars, warnings, names.batch, queue)?;
    let delay = number_or(alloc, vars, warnings, names.delay, 0, delay)?;
    let timeout = number_or(alloc, vars, warnings, names.timeout, 0, 30000)?;
    Ok(EnvBatches {
        max_queue_size: queue,
        max_export_batch_size: batch,
        schedule_delay_millis: delay,
        export_timeout_millis: timeout,
    })
}

/// Returns the sizes and times of a batch processor of spans.
///
/// # Errors
///
/// `AllocError` if out of memory.
pub(super) fn span_batches(
    alloc: Global,
    vars: &[(String, String)],
    warnings: &mut Vec<EnvWarning>,
) -> Result<EnvBatches, AllocError>
    ensures batches { IfOk result (λ b. b
        ≡ spec.batches spec.span_names 5000 (variables_of vars.now)) }
    ensures warnings { OnOk result (warnings.new.items ≡ warnings.old.items
        ++ spec.batches_warnings spec.span_names 5000 (variables_of vars.now)) }
{
    let names = Names {
        queue: "OTEL_BSP_MAX_QUEUE_SIZE",
        batch: "OTEL_BSP_MAX_EXPORT_BATCH_SIZE",
        delay: "OTEL_BSP_SCHEDULE_DELAY",
        timeout: "OTEL_BSP_EXPORT_TIMEOUT",
    };
    batches(alloc, vars, warnings, names, 5000)
}

/// Returns the sizes and times of a batch processor of log records.
///
/// # Errors
///
/// `AllocError` if out of memory.
pub(super) fn log_batches(
    alloc: Global,
    vars: &[(String, String)],
    warnings: &mut Vec<EnvWarning>,
) -> Result<EnvBatches, AllocError>
    ensures batches { IfOk result (λ b. b
        ≡ spec.batches spec.log_names 1000 (variables_of vars.now)) }
    ensures warnings { OnOk result (warnings.new.items ≡ warnings.old.items
        ++ spec.batches_warnings spec.log_names 1000 (variables_of vars.now)) }
{
    let names = Names {
        queue: "OTEL_BLRP_MAX_QUEUE_SIZE",
        batch: "OTEL_BLRP_MAX_EXPORT_BATCH_SIZE",
        delay: "OTEL_BLRP_SCHEDULE_DELAY",
        timeout: "OTEL_BLRP_EXPORT_TIMEOUT",
    };
    batches(alloc, vars, warnings, names, 1000)
}
