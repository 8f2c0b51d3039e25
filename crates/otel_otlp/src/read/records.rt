//! Reads log records.
ghost use Rattle.std.specs.Prelude.{◌≡◌, List, ℕ, Option, Some, IfOk, IfErr, option_map};
ghost use Rattle.std.specs.Prelude.{position, codes};
ghost use Rattle.std.specs.Str.{bytes_eq};
ghost use Rattle.serde_json.specs.View.{view};
ghost use Rattle.otel_base.specs.AnyValue.{Tree};
ghost use Rattle.otel_base.specs.Severity.{number as number_of};
ghost use Rattle.otel_base.specs.View.{tree, pairs_view};
ghost use Rattle.otel_sdk_logs.specs.Attributes.{Attribute, default_limits};
ghost use Rattle.otel_sdk_logs.specs.LogRecord.{LogState};
ghost use Rattle.otel_sdk_logs.specs.declared.record.TraceContext.{TraceContext as Active};
ghost use Rattle.otel_otlp.specs.ReadMembers.{IsRefused};
ghost use Rattle.otel_otlp.specs.ReadErrors.{NamesPlace};
ghost use Rattle.otel_otlp.specs.ReadLogs as spec;

use crate::read::error::{Fault, unexpected};
use crate::read::groups::Item;
use crate::read::members::{
    check_object, given_narrow, given_span_id, given_text, given_trace_id, given_wide, member,
    narrow,
};
use crate::read::trees::{body_in, tree_attributes};
use opentelemetry::logs::{AnyValue, Severity};
use opentelemetry::trace::{SpanId, TraceFlags, TraceId};
use opentelemetry::{InstrumentationScope, Key, StringValue};
use otel_sdk_logs::{LogData, SdkLogRecord, TraceContext};
use serde_json::Value;
use std::alloc::{AllocError, Global};
use std::rc::Rc;

/// The names of the severities, each at the place of its number.
const SEVERITIES: [&'static str; 25] = [
    "SEVERITY_NUMBER_UNSPECIFIED",
    "SEVERITY_NUMBER_TRACE",
    "SEVERITY_NUMBER_TRACE2",
    "SEVERITY_NUMBER_TRACE3",
    "SEVERITY_NUMBER_TRACE4",
    "SEVERITY_NUMBER_DEBUG",
    "SEVERITY_NUMBER_DEBUG2",
    "SEVERITY_NUMBER_DEBUG3",
    "SEVERITY_NUMBER_DEBUG4",
    "SEVERITY_NUMBER_INFO",
    "SEVERITY_NUMBER_INFO2",
    "SEVERITY_NUMBER_INFO3",
    "SEVERITY_NUMBER_INFO4",
    "SEVERITY_NUMBER_WARN",
    "SEVERITY_NUMBER_WARN2",
    "SEVERITY_NUMBER_WARN3",
    "SEVERITY_NUMBER_WARN4",
    "SEVERITY_NUMBER_ERROR",
    "SEVERITY_NUMBER_ERROR2",
    "SEVERITY_NUMBER_ERROR3",
    "SEVERITY_NUMBER_ERROR4",
    "SEVERITY_NUMBER_FATAL",
    "SEVERITY_NUMBER_FATAL2",
    "SEVERITY_NUMBER_FATAL3",
    "SEVERITY_NUMBER_FATAL4",
];

/// Returns the severity with this number, from 1 to 24.
fn severity_with(number: u64) -> Option<Severity>
    ensures { option_map number_of result ≡ spec.severity_with number }
{
    match number {
        1 => Some(Severity::Trace),
        2 => Some(Severity::Trace2),
        3 => Some(Severity::Trace3),
        4 => Some(Severity::Trace4),
        5 => Some(Severity::Debug),
        6 => Some(Severity::Debug2),
        7 => Some(Severity::Debug3),
        8 => Some(Severity::Debug4),
        9 => Some(Severity::Info),
        10 => Some(Severity::Info2),
        11 => Some(Severity::Info3),
        12 => Some(Severity::Info4),
        13 => Some(Severity::Warn),
        14 => Some(Severity::Warn2),
        15 => Some(Severity::Warn3),
        16 => Some(Severity::Warn4),
        17 => Some(Severity::Error),
        18 => Some(Severity::Error2),
        19 => Some(Severity::Error3),
        20 => Some(Severity::Error4),
        21 => Some(Severity::Fatal),
        22 => Some(Severity::Fatal2),
        23 => Some(Severity::Fatal3),
        24 => Some(Severity::Fatal4),
        _ => None,
    }
}

/// Returns the severity with this number, or none of them for 0.
#[tactic(auto, unfolding(crate::specs::ReadLogs::severity_numbered))]
fn severity_numbered(number: u64) -> Option<Option<Severity>>
    ensures { option_map (option_map number_of) result ≡ spec.severity_numbered number }
{
    if number == 0 {
        return Some(None);
    }
    match severity_with(number) {
        Some(severity) => Some(Some(severity)),
        None => None,
    }
}

/// Returns the place of the name among these.
fn place_of(names: &[&'static str], name: &str) -> Option<usize>
    ensures { result ≡ position (λ known. bytes_eq known.now name.now) names.now }
{
    names.iter().position(|known| *known == name)
}

/// Returns the number of the severity with this name.
#[tactic(auto, unfolding(crate::specs::ReadLogs::severity_named))]
fn severity_named(name: &str) -> Option<u64>
    ensures { result ≡ spec.severity_named name.now }
{
    match place_of(&SEVERITIES, name) {
        Some(number) => Some(number as u64),
        None => None,
    }
}

/// Returns the number of a severity, which is a number or a name.
fn severity_number(value: &Value) -> Option<u64>
    ensures { result ≡ spec.severity_number (view value.now) }
{
    match value {
        Value::String(name) => severity_named(name.as_str()),
        _ => value.as_u64(),
    }
}

/// Reads a severity.
fn severity_of(value: &Value) -> Option<Option<Severity>>
    ensures { option_map (option_map number_of) result ≡ spec.severity_of (view value.now) }
{
    match severity_number(value) {
        Some(number) => severity_numbered(number),
        None => None,
    }
}

/// Returns the severity of the record, if it has one.
fn severity(alloc: Global, record: &Value) -> Result<Option<Severity>, Fault>
    ensures ok { IfOk result (λ s. spec.HasSeverity (view record.now) (option_map number_of s)) }
    ensures err { IfErr result (λ e. IsRefused e
        → (s : Option ℕ) → ¬ spec.HasSeverity (view record.now) s) }
    ensures place { IfErr result (NamesPlace (codes "severityNumber") (codes "a severity")) }
{
    let Some(value) = member(record, "severityNumber") else {
        return Ok(None);
    };
    match severity_of(value) {
        Some(severity) => Ok(severity),
        None => Err(unexpected(alloc, "severityNumber", "a severity")),
    }
}

/// Returns the span with these ids, unless both are absent.
fn active_of(
    trace_id: Option<TraceId>,
    span_id: Option<SpanId>,
    flags: Option<u32>,
) -> Option<TraceContext>
    ensures { result ≡ spec.active_of trace_id span_id flags }
{
    if trace_id.is_none() && span_id.is_none() {
        return None;
    }
    Some(TraceContext {
        trace_id: trace_id.unwrap_or(TraceId::INVALID),
        span_id: span_id.unwrap_or(SpanId::INVALID),
        trace_flags: flags.map(|flags| TraceFlags::new((flags % 256) as u8)),
    })
}

/// Returns the span that was active, if the record names one.
fn active_in(alloc: Global, record: &Value) -> Result<Option<TraceContext>, Fault>
    ensures ok { IfOk result (spec.HasActive (view record.now)) }
    ensures err { IfErr result (λ e. IsRefused e
        → (c : Option Active) → ¬ spec.HasActive (view record.now) c) }
{
    let trace_id = given_trace_id(alloc, record)?;
    let span_id = given_span_id(alloc, record)?;
    let flags = given_narrow(alloc, record, "flags")?;
    Ok(active_of(trace_id, span_id, flags))
}

/// Returns the text of the attribute, if it is a target.
fn target_of(attribute: &(Key, AnyValue)) -> Option<&StringValue>
    ensures { option_map (λ t. t.now) result
        ≡ spec.target_of (attribute.now.0, tree attribute.now.1) }
{
    match &attribute.1 {
        AnyValue::String(text) => {
            if attribute.0.as_str() == "log.target" {
                Some(text)
            } else {
                None
            }
        }
        _ => None,
    }
}

/// Returns the target of a record with these attributes, which is the last of them.
fn target_among(attributes: &[(Key, AnyValue)]) -> Result<Option<StringValue>, AllocError>
    ensures { IfOk result (λ target. target ≡ spec.target_among (pairs_view attributes.now)) }
{
    match attributes.last().and_then(target_of) {
        Some(target) => Ok(Some(target.clone()?)),
        None => Ok(None),
    }
}

/// The attributes of a record, its target, and the number of attributes that were dropped.
#[derive(Drop)]
struct Details {
    attributes: Vec<(Key, AnyValue)>,
    target: Option<StringValue>,
    dropped: u32,
}

/// Returns the attributes without the target.
fn without_target(
    attributes: Vec<(Key, AnyValue)>,
    target: &Option<StringValue>,
) -> Vec<(Key, AnyValue)>
    ensures { pairs_view result.items
        ≡ spec.without_target (pairs_view attributes.items) target.now }
{
    let mut attributes = attributes;
    if target.is_some() {
        drop(attributes.pop());
    }
    attributes
}

/// Returns the attributes, the target and the number of attributes that were dropped.
fn details_in(alloc: Global, record: &Value) -> Result<Details, Fault>
    ensures ok { IfOk result (λ d.
        spec.HasDetails (view record.now) (pairs_view d.attributes.items) d.target d.dropped) }
    ensures err { IfErr result (λ e. IsRefused e
        → (xs : List Attribute) (target : Option (List ℕ)) (dropped : ℕ)
        → ¬ spec.HasDetails (view record.now) xs target dropped) }
{
    let given = tree_attributes(alloc, record)?;
    let dropped = narrow(alloc, record, "droppedAttributesCount")?;
    let target = target_among(given.as_slice())?;
    let attributes = without_target(given, &target);
    Ok(Details {
        attributes,
        target,
        dropped,
    })
}

/// The times and the severity of a record.
#[derive(Drop)]
struct Moment {
    timestamp: Option<u64>,
    observed_timestamp: Option<u64>,
    severity: Option<Severity>,
}

/// Returns the times and the severity of a record.
fn moment_in(alloc: Global, record: &Value) -> Result<Moment, Fault>
    ensures ok { IfOk result (λ m. spec.HasMoment (view record.now)
        m.timestamp m.observed_timestamp (option_map number_of m.severity)) }
    ensures err { IfErr result (λ e. IsRefused e → (happened observed severity : Option ℕ)
        → ¬ spec.HasMoment (view record.now) happened observed severity) }
{
    let timestamp = given_wide(alloc, record, "timeUnixNano")?;
    let observed_timestamp = given_wide(alloc, record, "observedTimeUnixNano")?;
    let severity = severity(alloc, record)?;
    Ok(Moment {
        timestamp,
        observed_timestamp,
        severity,
    })
}

/// The text of the severity, the name of the event and the body of a record.
#[derive(Drop)]
struct Words {
    severity: Option<StringValue>,
    event_name: Option<StringValue>,
    body: Option<AnyValue>,
}

/// Returns the text of the severity, the name of the event and the body of a record.
fn words_in(alloc: Global, record: &Value) -> Result<Words, Fault>
    ensures ok { IfOk result (λ w. spec.HasWords (view record.now)
        w.severity w.event_name (option_map tree w.body)) }
    ensures err { IfErr result (λ e. IsRefused e
        → (severity name : Option (List ℕ)) (body : Option Tree)
        → ¬ spec.HasWords (view record.now) severity name body) }
{
    let severity = given_text(alloc, record, "severityText")?;
    let event_name = given_text(alloc, record, "eventName")?;
    let body = body_in(alloc, record)?;
    Ok(Words {
        severity,
        event_name,
        body,
    })
}

/// Returns the record with these parts and the default limits.
fn record_of(
    alloc: Global,
    moment: Moment,
    words: Words,
    details: Details,
    active: Option<TraceContext>,
) -> SdkLogRecord
    ensures timestamp { result.timestamp ≡ moment.timestamp }
    ensures observed { result.observed_timestamp ≡ moment.observed_timestamp }
    ensures number { result.severity_number ≡ option_map number_of moment.severity }
    ensures severity { result.severity_text ≡ words.severity }
    ensures event_name { result.event_name ≡ words.event_name }
    ensures body { result.body ≡ option_map tree words.body }
    ensures attributes { result.attributes ≡ pairs_view details.attributes.items }
    ensures target { result.target ≡ details.target }
    ensures dropped { result.dropped_attributes ≡ details.dropped }
    ensures active { result.trace_context ≡ active }
    ensures limits { result.limits ≡ default_limits }
{
    let mut record = SdkLogRecord::new(alloc);
    record.timestamp = moment.timestamp;
    record.observed_timestamp = moment.observed_timestamp;
    record.severity_number = moment.severity;
    record.severity_text = words.severity;
    record.event_name = words.event_name;
    record.body = words.body;
    record.attributes = details.attributes;
    record.target = details.target;
    record.dropped_attributes_count = details.dropped;
    record.trace_context = active;
    record
}

/// Reads a log record.
fn record_in(alloc: Global, value: &Value) -> Result<SdkLogRecord, Fault>
    ensures ok { IfOk result (λ r. spec.IsRecord (view value.now) r) }
    ensures err { IfErr result (λ e. IsRefused e
        → (r : LogState) → ¬ spec.IsRecord (view value.now) r) }
{
    check_object(alloc, value)?;
    let moment = moment_in(alloc, value)?;
    let words = words_in(alloc, value)?;
    let details = details_in(alloc, value)?;
    let active = active_in(alloc, value)?;
    Ok(record_of(alloc, moment, words, details, active))
}

/// The protocol's `LogRecord`.
impl Item for LogData {
    ghost use Rattle.otel_otlp.specs.ReadLogs as spec;

    ghost says = { spec.IsEntry };

    fn read(
        alloc: Global,
        value: &Value,
        scope: &Rc<InstrumentationScope>,
    ) -> Result<LogData, Fault> {
        let record = record_in(alloc, value)?;
        let instrumentation_scope = scope.clone()?;
        Ok(LogData {
            record,
            instrumentation_scope,
        })
    }
}
