//! A bridge from a log to a logger. Each record names the span that is active when it is created.
ghost use Rattle.std.specs.Prelude.{IfOk, codes, string_bytes};
ghost use Rattle.otel_context.specs.Context.{span_context};
ghost use Rattle.otel_context.specs.Stack.{current};
ghost use Rattle.otel_examples.specs.LogBridge.{IsStamped};

use opentelemetry::StringValue;
use opentelemetry::context::ContextStack;
use opentelemetry::logs::{AnyValue, LogRecord, Logger};
use std::alloc::{AllocError, Global};

/// Returns a record with the message as its body. If the current context has a valid span, the
/// record has its trace id, span id and flags.
///
/// # Errors
///
/// `AllocError` if out of memory. The message is dropped.
pub fn stamped_record<L: Logger>(
    alloc: Global,
    logger: &L,
    stack: &ContextStack,
    message: String,
) -> Result<L::LogRecord, AllocError>
    ensures { IfOk result (IsStamped (L.may_create logger.now) L.LogRecord.LogRecord
        (span_context (current stack.now.live)) (string_bytes message)) }
{
    let mut record = logger.create_log_record(alloc)?;
    record.set_body(AnyValue::from(message));
    let span = stack.current().span_context();
    if span.is_valid() {
        let flags = Some(span.trace_flags());
        record.set_trace_context(span.trace_id(), span.span_id(), flags);
    }
    Ok(record)
}

/// Emits a record with the message.
///
/// # Errors
///
/// `AllocError` if out of memory. Nothing is emitted.
pub fn log<L: Logger>(
    alloc: Global,
    logger: &L,
    stack: &ContextStack,
    message: String,
) -> Result<(), AllocError> {
    let record = stamped_record(alloc, logger, stack, message)?;
    logger.emit(record);
    Ok(())
}
