//! A log record of the SDK, on its way to an exporter.
ghost use Rattle.otel_sdk_base.specs.Queue.{IsKeptOrDropped};

use otel_sdk::error::OTelSdkResult;
use otel_sdk::logs::{LogData, LogProcessor};

/// Hands the record to the processor, and flushes it. If its queue is full or it was shut down, the
/// record is dropped and counted.
///
/// # Errors
///
/// The error of the flush. Records that the exporter refused stay queued.
pub fn emit<Q: LogProcessor>(processor: &mut Q, given: LogData) -> OTelSdkResult
    ensures { IsKeptOrDropped given (Q.received processor.old) (Q.received processor.new) }
{
    processor.on_emit(given);
    processor.force_flush()
}
