//! The OTLP messages for log records.
ghost use Rattle.std.specs.Prelude.{◌≡◌, ◌∷◌, [], IfOk, Some, codes, option_map};
ghost use Rattle.std.specs.List.{list_any};
ghost use Rattle.otel_base.specs.AnyValue as any;
ghost use Rattle.otel_base.specs.Severity.{number};
ghost use Rattle.otel_base.specs.View.{tree, pairs_view};
ghost use Rattle.otel_proto.specs.Output.{Puts};
ghost use Rattle.otel_proto.specs.Wire.{read};
ghost use Rattle.otel_proto.specs.Written.{bytes_of, message, messages};
ghost use Rattle.otel_proto_batches.specs.Common.{text_if_given};
ghost use Rattle.otel_proto_batches.specs.Logs as spec;

use crate::common::{put_span_id, put_trace_id};
use crate::cuts::{add_cut_parts_of, add_cut_parts_of_body};
use crate::groups::{Grouped, batch_bytes};
use opentelemetry::logs::{AnyValue, Severity};
use opentelemetry::trace::TraceFlags;
use opentelemetry::{InstrumentationScope, Key, StringValue};
use otel_proto::{
    Output, put_bytes, put_entry, put_fixed32_unless_zero, put_fixed64_unless_zero, put_head,
    put_number_unless_zero, put_text_unless_empty, put_value,
};
use otel_sdk_base::resource::Resource;
use otel_sdk_logs::{LogData, SdkLogRecord, TraceContext};
use std::alloc::{AllocError, Global};

/// Puts a string, unless there is none or it is empty.
fn put_name(out: &mut Output, number: u32, text: &Option<StringValue>) -> Result<(), AllocError>
    ensures { Puts result out.old out.new (text_if_given number text.now) }
{
    match text {
        Some(text) => put_text_unless_empty(out, number, text.as_str()),
        None => Ok(()),
    }
}

/// Puts a time, unless there is none or it is 0.
fn put_time(out: &mut Output, number: u32, time: Option<u64>) -> Result<(), AllocError>
    ensures { Puts result out.old out.new (spec.time_if_given number time) }
{
    match time {
        Some(time) => put_fixed64_unless_zero(out, number, time),
        None => Ok(()),
    }
}

/// Puts the number of the severity, if there is one (the protocol's `SeverityNumber`).
fn put_severity(out: &mut Output, severity: Option<Severity>) -> Result<(), AllocError>
    ensures { Puts result out.old out.new (spec.severity (option_map number severity)) }
{
    match severity {
        Some(severity) => put_number_unless_zero(out, 2, u32::from(severity.number())),
        None => Ok(()),
    }
}

/// Puts the message of the body, if there is one.
fn put_body(out: &mut Output, body: &Option<AnyValue>) -> Result<(), AllocError>
    ensures { Puts result out.old out.new (spec.body (option_map tree body.now)) }
{
    match body {
        Some(body) => {
            let end = out.count();
            put_value(out, body)?;
            put_head(out, 5, end)
        }
        None => Ok(()),
    }
}

/// Puts the content of the record.
fn put_content(out: &mut Output, log: &SdkLogRecord) -> Result<(), AllocError>
    ensures { Puts result out.old out.new (spec.content log.now) }
{
    put_body(out, &log.body)?;
    put_name(out, 3, &log.severity_text)?;
    put_severity(out, log.severity_number)?;
    put_time(out, 1, log.timestamp)
}

/// Puts the message of each attribute.
fn put_pairs(out: &mut Output, attributes: &[(Key, AnyValue)]) -> Result<(), AllocError>
    ensures { Puts result out.old out.new
        (messages 6 spec.attribute (pairs_view attributes.now)) }
{
    for attribute in attributes.iter().rev() {
        let end = out.count();
        put_entry(out, &attribute.0, &attribute.1)?;
        put_head(out, 6, end)?;
    }
    Ok(())
}

/// Returns whether the attribute has the key of a target.
fn is_target(attribute: &(Key, AnyValue)) -> bool
    ensures { result ≡ spec.is_target (attribute.now.0, tree attribute.now.1) }
{
    attribute.0.as_str() == "log.target"
}

/// Returns whether one of the attributes has the key of a target.
fn has_target(attributes: &[(Key, AnyValue)]) -> bool
    ensures { result ≡ list_any spec.is_target (pairs_view attributes.now) }
{
    attributes.iter().any(|attribute| is_target(attribute))
}

/// Puts the message of the attribute that a target is.
fn put_target(out: &mut Output, target: &str) -> Result<(), AllocError>
    ensures { Puts result out.old out.new
        (message 6 (spec.attribute (codes "log.target", any.text target.now)) ∷ []) }
{
    let end = out.count();
    put_bytes(out, 1, target.as_bytes())?;
    put_head(out, 2, end)?;
    put_bytes(out, 1, b"log.target")?;
    put_head(out, 6, end)
}

/// Puts the target as an attribute, unless one of the attributes has its key.
fn put_target_unless_held(
    out: &mut Output,
    held: &[(Key, AnyValue)],
    target: &Option<StringValue>,
) -> Result<(), AllocError>
    ensures { Puts result out.old out.new
        (messages 6 spec.attribute (spec.target_attribute (pairs_view held.now) target.now)) }
{
    let Some(target) = target else {
        return Ok(());
    };
    if has_target(held) {
        return Ok(());
    }
    put_target(out, target.as_str())
}

/// Puts the record's attributes, with the target last.
fn put_attributes(out: &mut Output, log: &SdkLogRecord) -> Result<(), AllocError>
    ensures { Puts result out.old out.new (messages 6 spec.attribute (spec.attributes log.now)) }
{
    let held = log.attributes.as_slice();
    put_target_unless_held(out, held, &log.target)?;
    put_pairs(out, held)
}

/// Returns the number of attributes that were dropped because of the limit, plus the number of
/// parts of the attributes and the body that are cut, saturating at `u32::MAX`.
fn dropped(log: &SdkLogRecord) -> u32
    ensures { result ≡ spec.dropped log.now }
{
    let count = add_cut_parts_of(log.dropped_attributes_count, log.attributes.as_slice());
    add_cut_parts_of_body(count, &log.body)
}

/// Puts the attributes, and the number of attributes that were dropped and parts that are cut.
fn put_details(out: &mut Output, log: &SdkLogRecord) -> Result<(), AllocError>
    ensures { Puts result out.old out.new (spec.details log.now) }
{
    put_number_unless_zero(out, 7, dropped(log))?;
    put_attributes(out, log)
}

/// Puts the trace flags, unless there are none or they are 0.
fn put_flags(out: &mut Output, flags: Option<TraceFlags>) -> Result<(), AllocError>
    ensures { Puts result out.old out.new (spec.flags flags) }
{
    match flags {
        Some(flags) => put_fixed32_unless_zero(out, 8, u32::from(flags.to_u8())),
        None => Ok(()),
    }
}

/// Puts the flags and the ids of the span that was active.
fn put_context(out: &mut Output, context: &TraceContext) -> Result<(), AllocError>
    ensures { Puts result out.old out.new (spec.context context.now) }
{
    put_span_id(out, 10, context.span_id)?;
    put_trace_id(out, 9, context.trace_id)?;
    put_flags(out, context.trace_flags)
}

/// Puts the flags and the ids of the span that was active, if there was one.
fn put_trace(out: &mut Output, context: &Option<TraceContext>) -> Result<(), AllocError>
    ensures { Puts result out.old out.new (spec.trace context.now) }
{
    match context {
        Some(context) => put_context(out, context),
        None => Ok(()),
    }
}

/// Puts the time at which the event was observed, and its name.
fn put_origin(out: &mut Output, log: &SdkLogRecord) -> Result<(), AllocError>
    ensures { Puts result out.old out.new (spec.origin log.now) }
{
    put_name(out, 12, &log.event_name)?;
    put_time(out, 11, log.observed_timestamp)
}

/// Puts a log record (the protocol's `LogRecord`).
fn log_record(out: &mut Output, log: &SdkLogRecord) -> Result<(), AllocError>
    ensures { Puts result out.old out.new (spec.log_record log.now) }
{
    put_origin(out, log)?;
    put_trace(out, &log.trace_context)?;
    put_details(out, log)?;
    put_content(out, log)
}

impl Grouped for LogData {
    ghost use Rattle.otel_proto_batches.specs.Logs as spec;

    ghost form = { spec.form };

    fn scope(&self) -> &InstrumentationScope {
        &self.instrumentation_scope
    }

    fn put(&self, out: &mut Output) -> Result<(), AllocError> {
        log_record(out, &self.record)
    }
}

/// Returns a batch of log records of one resource as the bytes of the protocol's
/// `ExportLogsServiceRequest`, which are those of `LogsData`.
///
/// The scopes are in the order in which they first appear, each with its records in order. A
/// record's target is its last attribute, `log.target`, unless the record already has that key. In
/// its body and attributes, each list or map inside 29 others is the string `..`, and adds 1 to the
/// record's count of dropped attributes, saturating at `u32::MAX`. The bytes are counted first, and
/// their buffer is allocated once.
///
/// # Errors
///
/// `AllocError` if out of memory.
pub fn logs_bytes(
    alloc: Global,
    resource: &Resource,
    batch: &[LogData],
) -> Result<Vec<u8>, AllocError>
    ensures bytes { IfOk result (λ v. v.items ≡ bytes_of (spec.request resource.now batch.now)) }
    ensures reads { IfOk result (λ v.
        read v.items ≡ Some (spec.request resource.now batch.now)) }
{
    batch_bytes(alloc, resource, batch)
}
