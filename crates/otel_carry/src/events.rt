//! The events that the lines of the input request.
ghost use Rattle.std.specs.Prelude.{◌≡◌, ◌<◌, ◌-◌, ◌^◌, IfOk, IfErr};
ghost use Rattle.otel_carry.specs.Events.{AreRead, AskFor, AsksFor, IsFaultIn, IsReported};
ghost use Rattle.otel_carry.specs.Events.{IsTold, lines_of};
ghost use Rattle.otel_carry.specs.NamedContext.{context_for, span_context_for};

use crate::failure::Failure;
use crate::lines::{Fault, Line, parse};
use opentelemetry::carry::StackEvent;
use opentelemetry::logs::AnyValue;
use opentelemetry::trace::{SpanContext, TraceState, TraceStateError};
use opentelemetry::{Context, Key, SpanId, StringValue, TraceFlags, TraceId};
use std::alloc::{AllocError, Global};

/// Returns the events of the lines, in order. Each line ends with `\n`, except possibly the last.
/// Empty lines are skipped, but counted.
///
/// # Errors
///
/// `Failure::Line` with the number, from 1, of the first line that can't be carried out.
/// `Failure::NoMemory` if out of memory. The events so far are dropped.
pub fn events_of(alloc: Global, text: &str) -> Result<Vec<StackEvent>, Failure>
    ensures events { IfOk result (λ events. AskFor (lines_of text.now) events.items) }
    ensures failure { IfErr result (IsReported (lines_of text.now)) }
{
    let mut events = Vec::new(alloc);
    let mut attaches = 0;
    for (index, line) in text.split('\n').enumerate() {
        if line.is_empty() {
            continue;
        }
        let event = event_of(alloc, index + 1, line, attaches)?;
        if matches!(&event, StackEvent::Attach(_)) {
            attaches += 1;
        }
        events.push(event)?;
    }
    Ok(events)
}

/// Returns the event that the line with this number requests, after `attaches` attaches.
fn event_of(alloc: Global, number: usize, line: &str, attaches: u64) -> Result<StackEvent, Failure>
    requires { attaches < 2 ^ 64 - 1 }
    ensures event { IfOk result (AsksFor attaches line.now) }
    ensures failure { IfErr result (IsTold number line.now) }
{
    match parse(line).map_err(|fault| Failure::Line(number, fault))? {
        Line::Attach { name, state } => {
            let state = read_state(alloc, state).map_err(|error| match error {
                TraceStateError::Memory(_) => Failure::NoMemory,
                _ => Failure::Line(number, Fault::BadTraceState),
            })?;
            let context = context_of(alloc, name, state, attaches + 1)?;
            Ok(StackEvent::Attach(context))
        }
        Line::Detach(number) => Ok(StackEvent::Detach(number)),
    }
}

/// Parses the trace state of the text, if there is one.
fn read_state(alloc: Global, text: Option<&str>) -> Result<Option<TraceState>, TraceStateError>
    ensures state { IfOk result (AreRead text.entry) }
    ensures fault { IfErr result (IsFaultIn text.entry) }
{
    match text {
        Some(text) => Ok(Some(TraceState::from_str(alloc, text)?)),
        None => Ok(None),
    }
}

/// Returns the context of the attach with this name; `id` is 1 for the first attach.
fn context_of(
    alloc: Global,
    name: &str,
    state: Option<TraceState>,
    id: u64,
) -> Result<Context, AllocError>
    ensures { IfOk result (λ context. context ≡ context_for name.now state id) }
{
    let name = StringValue::from(String::from_str(alloc, name)?);
    let context = Context::new().with_value(alloc, Key::from("name"), AnyValue::String(name))?;
    let Some(state) = state else {
        return Ok(context);
    };
    context.with_remote_span_context(alloc, span_context_of(state, id))
}

/// Returns the span context of the attach with this trace state; `id` is 1 for the first attach.
fn span_context_of(state: TraceState, id: u64) -> SpanContext
    ensures { result ≡ span_context_for state id }
{
    let trace_id = TraceId::from(u128::from(id));
    SpanContext::new(trace_id, SpanId::from(id), TraceFlags::SAMPLED, true, state)
}
