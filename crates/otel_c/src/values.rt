//! Contexts from the values of headers, without headers.
ghost use Rattle.std.specs.Prelude.{◌≡◌, true, IfOk, IfErr, OnOk, OnErr, option_copied};
ghost use Rattle.http_header.specs.FieldValue.{is_visible_text};
ghost use Rattle.otel_context.specs.Context.{empty_context};
ghost use Rattle.opentelemetry.specs.Carrier.{at};
ghost use Rattle.otel_propagators.specs.TraceContext.{trace_extracted};
ghost use Rattle.otel_c.specs.Context.{extracted};
ghost use Rattle.otel_c.specs.Status.{Refuses, IsOutOfMemory};
ghost use Rattle.otel_c.specs.Values.{texts_of, IsUnreadable, ReadsAs, Reads, ReadRefused};
ghost use Rattle.otel_c.specs.Values.{ReadsSpan, SpanRefused, WritesSpan, WriteSpanRefused};

use crate::context::make;
use crate::handle::Handle;
use crate::room::{text_of, write};
use crate::sendable;
use crate::span::SpanParts;
use crate::status::{Status, code};
use opentelemetry::Context;
use opentelemetry::propagation::{Extractor, TextMapPropagator};
use otel_propagators::{TraceContextPropagator, W3cPropagator};
use std::alloc::{AllocError, Global};

/// The values of the headers that carry a context.
#[derive(Drop)]
pub struct Values<'a> {
    baggage: &'a str,
    traceparent: &'a str,
    tracestate: &'a str,
}

impl Values<'_> {
    /// Returns the value of a name in lower case.
    fn at(&self, name: &str) -> Option<&str>
        ensures { option_copied result
            ≡ at (texts_of self.now.baggage.now self.now.traceparent.now self.now.tracestate.now)
            name.now }
    {
        if name == "baggage" {
            Some(self.baggage)
        } else if name == "traceparent" {
            Some(self.traceparent)
        } else if name == "tracestate" {
            Some(self.tracestate)
        } else {
            None
        }
    }
}

impl Extractor for Values<'_> {
    ghost use Rattle.otel_c.specs.Values.{texts_of};

    ghost texts = { λ v. texts_of v.baggage.now v.traceparent.now v.tracestate.now };

    fn get(&self, alloc: Global, key: &str) -> Result<Option<&str>, AllocError> {
        let name = key.to_ascii_lowercase(alloc)?;
        Ok(self.at(name.as_str()))
    }

    fn keys(&self, alloc: Global) -> Result<Vec<&str>, AllocError> {
        Ok(vec![in alloc; "baggage", "traceparent", "tracestate"]?)
    }
}

/// Returns the value of a header as a text.
///
/// # Errors
///
/// `NotText` if it isn't UTF-8. `Unsendable` if no header can carry it.
fn readable(value: &[u8]) -> Result<&str, Status>
    ensures text { IfOk result (λ text. text.now ≡ value.now) }
    ensures readable { OnOk result (is_visible_text value.now ≡ true) }
    ensures refused { IfErr result (IsUnreadable value.now) }
{
    let text = text_of(value)?;
    sendable::check(text)?;
    Ok(text)
}

/// Returns the context of the values.
fn extract(alloc: Global, values: &Values) -> Result<Context, Status>
    ensures read { IfOk result (λ context. context ≡ extracted empty_context
        (texts_of values.now.baggage.now values.now.traceparent.now values.now.tracestate.now)) }
    ensures refused { IfErr result IsOutOfMemory }
{
    let propagator = W3cPropagator::new(alloc)?;
    match propagator.extract_with_context(alloc, &Context::new(), values) {
        Ok(context) => Ok(context),
        Err(_) => Err(Status::NoMemory),
    }
}

/// Returns the context of the values, if headers can have them.
fn read(
    alloc: Global,
    traceparent: &[u8],
    tracestate: &[u8],
    baggage: &[u8],
) -> Result<Context, Status>
    ensures read { IfOk result (ReadsAs traceparent.now tracestate.now baggage.now) }
    ensures refused { IfErr result (ReadRefused traceparent.now tracestate.now baggage.now) }
{
    let values = Values {
        baggage: readable(baggage)?,
        traceparent: readable(traceparent)?,
        tracestate: readable(tracestate)?,
    };
    extract(alloc, &values)
}

fn from_values(
    alloc: Global,
    context: &mut Handle,
    traceparent: &[u8],
    tracestate: &[u8],
    baggage: &[u8],
) -> Result<(), Status>
    ensures read { OnOk result (Reads traceparent.now tracestate.now baggage.now
        context.new.object) }
    ensures unchanged { OnErr result (context.new.object ≡ context.old.object) }
    ensures refused { IfErr result (ReadRefused traceparent.now tracestate.now baggage.now) }
{
    let made = read(alloc, traceparent, tracestate, baggage)?;
    make(alloc, context, made)
}

/// Makes the context of the values, and frees the object that the handle held.
#[unsafe(no_mangle)]
pub extern "C" fn otel_context_from_values(
    alloc: Global,
    context: &mut Handle,
    traceparent: &[u8],
    tracestate: &[u8],
    baggage: &[u8],
) -> u32
    ensures read { result ≡ 0
        → Reads traceparent.now tracestate.now baggage.now context.new.object }
    ensures unchanged { (result ≡ 0 → ⊥) → context.new.object ≡ context.old.object }
    ensures refused { (result ≡ 0 → ⊥)
        → Refuses (ReadRefused traceparent.now tracestate.now baggage.now) result }
{
    code(from_values(alloc, context, traceparent, tracestate, baggage))
}

/// Returns the context with the span of the values.
fn extract_span(alloc: Global, values: &Values) -> Result<Context, Status>
    ensures read { IfOk result (λ context. context ≡ trace_extracted empty_context
        (texts_of values.now.baggage.now values.now.traceparent.now values.now.tracestate.now)) }
    ensures refused { IfErr result IsOutOfMemory }
{
    let propagator = TraceContextPropagator::new(alloc)?;
    match propagator.extract_with_context(alloc, &Context::new(), values) {
        Ok(context) => Ok(context),
        Err(_) => Err(Status::NoMemory),
    }
}

/// Returns the context with the span of the values, if headers can have them.
fn read_span(alloc: Global, traceparent: &[u8], tracestate: &[u8]) -> Result<Context, Status>
    ensures read { IfOk result (ReadsSpan traceparent.now tracestate.now) }
    ensures refused { IfErr result (SpanRefused traceparent.now tracestate.now) }
{
    let traceparent = readable(traceparent)?;
    let tracestate = readable(tracestate)?;
    let values = Values {
        baggage: "",
        traceparent,
        tracestate,
    };
    extract_span(alloc, &values)
}

fn span_from_values(
    alloc: Global,
    traceparent: &[u8],
    tracestate: &[u8],
    span: &mut SpanParts,
    room: &mut [u8],
    written: &mut usize,
) -> Result<(), Status>
    ensures span { OnOk result (WritesSpan traceparent.now tracestate.now span.new
        room.old room.new written.new) }
    ensures unchanged { OnErr result (span.new ≡ span.old) }
    ensures room { OnErr result (room.new ≡ room.old) }
    ensures refused { IfErr result (WriteSpanRefused traceparent.now tracestate.now
        room.old written.new) }
{
    let context = read_span(alloc, traceparent, tracestate)?;
    let read = context.span_context();
    let text = read.trace_state().header(alloc)?;
    write(text.as_str(), room, written)?;
    *span = SpanParts::of(read);
    Ok(())
}

/// Writes the ids and the flags of the span of the values, and the header of its trace state.
#[unsafe(no_mangle)]
pub extern "C" fn otel_span_from_values(
    alloc: Global,
    traceparent: &[u8],
    tracestate: &[u8],
    span: &mut SpanParts,
    room: &mut [u8],
    written: &mut usize,
) -> u32
    ensures span { result ≡ 0 → WritesSpan traceparent.now tracestate.now span.new
        room.old room.new written.new }
    ensures unchanged { (result ≡ 0 → ⊥) → span.new ≡ span.old }
    ensures room { (result ≡ 0 → ⊥) → room.new ≡ room.old }
    ensures refused { (result ≡ 0 → ⊥) → Refuses
        (WriteSpanRefused traceparent.now tracestate.now room.old written.new) result }
{
    code(span_from_values(alloc, traceparent, tracestate, span, room, written))
}
