//! The OTLP messages for log records. Members are written in the order of their names.
ghost use Rattle.std.specs.Prelude.{◌≡◌, ◌++◌, ◌==◌, IfOk, codes, length, map, not};
ghost use Rattle.std.specs.Prelude.{option_and_then, option_map, string_bytes};
ghost use Rattle.std.specs.List.{list_any};
ghost use Rattle.otel_base.specs.Severity.{number};
ghost use Rattle.otel_base.specs.View.{tree, pairs_view};
ghost use Rattle.otel_sdk_base.specs.Attributes.{up_by};
ghost use Rattle.otel_otlp.specs.Json.{IsTextOf, number_if_given, text_if_given};
ghost use Rattle.otel_otlp.specs.Json.{list_unless_empty, trace_id_text, span_id_text};
ghost use Rattle.otel_otlp.specs.Logs as spec;
ghost use Rattle.otel_otlp.specs.Tokens.{WritesValue, WritesMembers, WritesItems};
ghost use Rattle.otel_otlp.specs.Trees.{cut_parts_of_attributes};

use crate::common::{begin_pair, text_value};
use crate::groups::{Grouped, ListNames, batch_text};
use crate::object::{
    begin_list, put_decimal_if_given, put_number, put_number_if_given, put_number_unless_zero,
    put_span_id, put_text, put_trace_id,
};
use crate::trees::{MAX_LEVELS, add_cut_parts, tree_value};
use json::Writer;
use opentelemetry::logs::{AnyValue, Severity};
use opentelemetry::trace::TraceFlags;
use opentelemetry::{InstrumentationScope, Key, StringValue};
use otel_sdk_base::resource::Resource;
use otel_sdk_logs::{LogData, SdkLogRecord, TraceContext};
use std::alloc::{AllocError, Global};

/// Writes a member with a text, if it is given.
fn put_name(out: &mut Writer, name: &str, text: &Option<StringValue>) -> Result<(), AllocError>
    ensures { WritesMembers result out.old out.new (text_if_given name.now text.now) }
{
    match text {
        Some(text) => put_text(out, name, text.as_str()),
        None => Ok(()),
    }
}

/// Writes the member with the number of the severity, if it is given (the protocol's
/// `SeverityNumber`).
fn put_severity(out: &mut Writer, severity: Option<Severity>) -> Result<(), AllocError>
    ensures { WritesMembers result out.old out.new
        (number_if_given (codes "severityNumber") (option_map number severity)) }
{
    match severity {
        Some(severity) => {
            let number = u32::from(severity.number());
            put_number(out, "severityNumber", number)
        }
        None => Ok(()),
    }
}

/// Writes the member with the body, if there is one.
fn put_body(out: &mut Writer, alloc: Global, body: &Option<AnyValue>) -> Result<(), AllocError>
    ensures { WritesMembers result out.old out.new (spec.body_member (option_map tree body.now)) }
{
    match body {
        Some(body) => {
            out.key("body")?;
            tree_value(out, alloc, body, MAX_LEVELS)
        }
        None => Ok(()),
    }
}

/// Writes each attribute.
fn pairs(out: &mut Writer, alloc: Global, attributes: &[(Key, AnyValue)]) -> Result<(), AllocError>
    ensures { WritesItems result out.old out.new
        (map spec.attribute (pairs_view attributes.now)) }
{
    for attribute in attributes {
        begin_pair(out, attribute.0.as_str())?;
        tree_value(out, alloc, &attribute.1, MAX_LEVELS)?;
        out.end_object()?;
    }
    Ok(())
}

/// Returns whether the attribute has the key of a target.
fn is_target(attribute: &(Key, AnyValue)) -> bool
    ensures { result ≡ spec.is_target (attribute.now.0, tree attribute.now.1) }
{
    attribute.0.as_str() == "log.target"
}

/// Returns whether one of the attributes has the key of a target.
fn has_target(attributes: &[(Key, AnyValue)]) -> bool
    ensures { result ≡ list_any spec.is_target (pairs_view attributes.now) }
{
    attributes.iter().any(|attribute| is_target(attribute))
}

/// Writes the target as an attribute, unless one of the attributes has its key.
fn add_target(
    out: &mut Writer,
    held: &[(Key, AnyValue)],
    target: &Option<StringValue>,
) -> Result<(), AllocError>
    ensures { WritesItems result out.old out.new
        (map spec.attribute (spec.target_attribute (pairs_view held.now) target.now)) }
{
    let Some(target) = target else {
        return Ok(());
    };
    if has_target(held) {
        return Ok(());
    }
    begin_pair(out, "log.target")?;
    text_value(out, target.as_str())?;
    out.end_object()
}

/// Returns whether the record has an attribute or a target.
fn has_attributes(log: &SdkLogRecord) -> bool
    ensures { result ≡ not (length (spec.attributes log.now) == 0) }
{
    !log.attributes.is_empty() || log.target.is_some()
}

/// Writes the member with the record's attributes, with the target last, unless there are none.
fn put_attributes(out: &mut Writer, alloc: Global, log: &SdkLogRecord) -> Result<(), AllocError>
    ensures { WritesMembers result out.old out.new
        (list_unless_empty (codes "attributes") (map spec.attribute (spec.attributes log.now))) }
{
    if !has_attributes(log) {
        return Ok(());
    }
    let held = log.attributes.as_slice();
    begin_list(out, "attributes")?;
    pairs(out, alloc, held)?;
    add_target(out, held, &log.target)?;
    out.end_array()
}

/// Returns the count plus the number of parts of the attributes that are cut.
fn add_cut_parts_of(count: u32, attributes: &[(Key, AnyValue)]) -> u32
    ensures { result ≡ up_by count (cut_parts_of_attributes (pairs_view attributes.now)) }
{
    let mut counted = count;
    for attribute in attributes {
        counted = add_cut_parts(counted, &attribute.1, MAX_LEVELS);
    }
    counted
}

/// Returns the number of attributes that were dropped because of the limit, plus the number of
/// parts of the attributes and the body that are cut, saturating at `u32::MAX`.
fn dropped(log: &SdkLogRecord) -> u32
    ensures { result ≡ spec.dropped log.now }
{
    let count = add_cut_parts_of(log.dropped_attributes_count, log.attributes.as_slice());
    match &log.body {
        Some(body) => add_cut_parts(count, body, MAX_LEVELS),
        None => count,
    }
}

/// Writes the member with the trace flags, if there are any.
fn put_flags(out: &mut Writer, context: &Option<TraceContext>) -> Result<(), AllocError>
    ensures { WritesMembers result out.old out.new (number_if_given (codes "flags")
        (option_and_then (λ c. c.trace_flags) context.now)) }
{
    match context {
        Some(context) => {
            let flags = context
                .trace_flags
                .map(|flags: TraceFlags| u32::from(flags.to_u8()));
            put_number_if_given(out, "flags", flags)
        }
        None => Ok(()),
    }
}

/// Writes the member with the id of the span that was active, if there was one.
fn put_span(out: &mut Writer, context: &Option<TraceContext>) -> Result<(), AllocError>
    ensures { WritesMembers result out.old out.new (text_if_given (codes "spanId")
        (option_map (λ c. span_id_text c.span_id) context.now)) }
{
    match context {
        Some(context) => put_span_id(out, "spanId", context.span_id),
        None => Ok(()),
    }
}

/// Writes the member with the id of the trace that was active, if there was one.
fn put_trace(out: &mut Writer, context: &Option<TraceContext>) -> Result<(), AllocError>
    ensures { WritesMembers result out.old out.new (text_if_given (codes "traceId")
        (option_map (λ c. trace_id_text c.trace_id) context.now)) }
{
    match context {
        Some(context) => put_trace_id(out, "traceId", context.trace_id),
        None => Ok(()),
    }
}

/// Writes a log record (the protocol's `LogRecord`).
fn log_record(out: &mut Writer, alloc: Global, log: &SdkLogRecord) -> Result<(), AllocError>
    ensures { WritesValue result out.old out.new (spec.log_record log.now) }
{
    out.begin_object()?;
    put_attributes(out, alloc, log)?;
    put_body(out, alloc, &log.body)?;
    put_number_unless_zero(out, "droppedAttributesCount", dropped(log))?;
    put_name(out, "eventName", &log.event_name)?;
    put_flags(out, &log.trace_context)?;
    put_decimal_if_given(out, "observedTimeUnixNano", log.observed_timestamp)?;
    put_severity(out, log.severity_number)?;
    put_name(out, "severityText", &log.severity_text)?;
    put_span(out, &log.trace_context)?;
    put_decimal_if_given(out, "timeUnixNano", log.timestamp)?;
    put_trace(out, &log.trace_context)?;
    out.end_object()
}

impl Grouped for LogData {
    ghost use Rattle.otel_otlp.specs.Logs as spec;

    ghost form = { spec.form };

    fn scope(&self) -> &InstrumentationScope {
        &self.instrumentation_scope
    }

    fn write(&self, out: &mut Writer, alloc: Global) -> Result<(), AllocError> {
        log_record(out, alloc, &self.record)
    }

    fn list_names() -> ListNames {
        ListNames {
            resources: "resourceLogs",
            scopes: "scopeLogs",
            items: "logRecords",
            items_come_first: true,
        }
    }
}

/// Returns a batch of log records of one resource as one JSON object, without a line break (the
/// protocol's `LogsData`).
///
/// The scopes are in the order in which they first appear, each with its records in order. A
/// record's target is its last attribute, `log.target`, unless the record already has that key.
/// In its body and attributes, each list or map inside 29 others is the text `..`, and adds 1 to
/// the record's `droppedAttributesCount`, saturating at `u32::MAX`. The members of an object are in
/// the order of their names.
///
/// # Errors
///
/// `AllocError` if out of memory.
pub fn logs_text(
    alloc: Global,
    resource: &Resource,
    batch: &[LogData],
) -> Result<String, AllocError>
    ensures text { IfOk result (λ s.
        IsTextOf (string_bytes s) (spec.logs_data resource.now batch.now)) }
{
    batch_text(alloc, resource, batch)
}
