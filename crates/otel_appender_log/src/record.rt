//! The log record that a logger gets for a record of the crate `log`.
ghost use Rattle.std.specs.Prelude.{true, is_some, IfOk, OnOk, OnErr};
ghost use Rattle.otel_appender_log.specs.Bridge.{IfMade, IsBridgedFrom, IsFilled, IsStamped};
ghost use Rattle.otel_appender_log.specs.Bridge.{MayEnable, setters, source_of};

use crate::attributes::{SourceLocation, located_attributes};
use crate::calls::StampedRecord;
use crate::severity::severity_of_level;
use log::Record;
use log::kv::Source;
use opentelemetry::StringValue;
use opentelemetry::logs::{AnyValue, LogRecord, Logger};
use opentelemetry::trace::SpanContext;
use std::alloc::{AllocError, Global};
use std::fmt::Display;

// Sets the severity, body, target and attributes.
fn fill<R: LogRecord, D: Display, K: Source, S>(
    alloc: Global,
    filled: &mut R,
    source: &Record<'_, D, K, S>,
    location: &SourceLocation<'_>,
) -> Result<(), AllocError>
    ensures { OnOk result (IsFilled (setters R.LogRecord)
        (source_of D.output K.pairs source.now location.now) filled.old filled.new) }
{
    let attributes = located_attributes(alloc, source.key_values(), location)?;
    let body = String::format(alloc, source.args())?;
    let target = String::from_str(alloc, source.target())?;
    let severity = severity_of_level(source.level());
    filled.set_severity_number(severity);
    filled.set_severity_text(severity.name());
    filled.set_body(AnyValue::from(body));
    filled.set_target(StringValue::from(target));
    filled.add_attributes(alloc, attributes)
}

// Sets the ids and flags of a valid span context.
fn stamp<R: StampedRecord>(stamped: &mut R, span: &SpanContext)
    ensures { IsStamped R.stamps span.now stamped.old stamped.new }
{
    if span.is_valid() {
        stamped.set_span(span.trace_id(), span.span_id(), span.trace_flags());
    }
}

// Returns a record of the logger with the content of the source, whether it is enabled or not.
fn made_record<L: Logger, D: Display, K: Source, S>(
    alloc: Global,
    logger: &L,
    source: &Record<'_, D, K, S>,
    location: &SourceLocation<'_>,
    span: &SpanContext,
) -> Result<L::LogRecord, AllocError>
where
    L::LogRecord: StampedRecord,
    ensures { IfOk result (IsBridgedFrom (L.may_create logger.now) L.LogRecord.LogRecord
        L.LogRecord.StampedRecord.stamps D.output K.pairs source.now location.now span.now) }
{
    let mut made = logger.create_log_record(alloc)?;
    fill(alloc, &mut made, source, location)?;
    stamp(&mut made, span);
    Ok(made)
}

/// Returns the log record for a record of the crate `log`, or `None` if the logger doesn't accept
/// records with its severity and target.
///
/// The log record has the level's name and its severity, the message's text as body, and the
/// target. Its attributes are the key-value pairs, in order, followed by the known parts of the
/// source location, except under keys that are present. It has the ids and flags of the span
/// context if that is valid, whether the span is sampled or not, and local or remote. It has no
/// timestamp and no event name. The spans of the crate `log` are left out.
///
/// # Errors
///
/// `AllocError` if out of memory, or if the message's or a value's own `fmt` fails. Only a record
/// that the logger accepts can fail.
pub fn bridged_record<L: Logger, D: Display, K: Source, S>(
    alloc: Global,
    logger: &L,
    source: &Record<'_, D, K, S>,
    location: &SourceLocation<'_>,
    span: &SpanContext,
) -> Result<Option<L::LogRecord>, AllocError>
where
    L::LogRecord: StampedRecord,
    ensures asked { IfOk result (λ made.
        MayEnable (L.may_enable logger.now) source.now (is_some made)) }
    ensures err { OnErr result (MayEnable (L.may_enable logger.now) source.now true) }
    ensures bridged { IfMade result (IsBridgedFrom (L.may_create logger.now) L.LogRecord.LogRecord
        L.LogRecord.StampedRecord.stamps D.output K.pairs source.now location.now span.now) }
{
    let severity = severity_of_level(source.level());
    if !logger.event_enabled(severity, source.target(), None) {
        return Ok(None);
    }
    let made = made_record(alloc, logger, source, location, span)?;
    Ok(Some(made))
}
