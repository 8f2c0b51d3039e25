//! The `traceparent` of a context.
ghost use Rattle.std.specs.Prelude.{◌≡◌, [], IfOk, IfErr, OnOk, OnErr, string_bytes};
ghost use Rattle.otel_ids.specs.Ids.{id_text};
ghost use Rattle.otel_propagators.specs.TraceContext.{parent};
ghost use Rattle.otel_propagators.specs.TraceParent.{parent_text};
ghost use Rattle.otel_c.specs.Baggage.{Shows, ShowRefused};
ghost use Rattle.otel_c.specs.Room.{HoldsFound};
ghost use Rattle.otel_c.specs.Span.{parent_header, traceparent_of, span_of, ParentRefused};
ghost use Rattle.otel_c.specs.Status.{Refuses};

use crate::child::is_valid;
use crate::context::copy;
use crate::handle::Handle;
use crate::room::write_found;
use crate::span::SpanParts;
use crate::status::{Status, code};
use otel_ids::{SpanContext, TraceState};
use std::alloc::{AllocError, Global};

/// Returns the two digits of the flags.
fn flags_text(alloc: Global, flags: u8) -> Result<String, AllocError>
    ensures { IfOk result (λ text. string_bytes text ≡ id_text 2 flags) }
{
    format!(in alloc; "{flags:02x}")
}

/// Returns the value of `traceparent` for the span context.
fn parent_text(alloc: Global, span_context: &SpanContext) -> Result<String, AllocError>
    ensures { IfOk result (λ text. string_bytes text ≡ parent_text (parent span_context.now)) }
{
    let trace_id = span_context.trace_id();
    let span_id = span_context.span_id();
    let flags = flags_text(alloc, span_context.trace_flags().to_u8())?;
    format!(in alloc; "00-{trace_id}-{span_id}-{flags}")
}

/// Writes the value of `traceparent` for the span context.
///
/// # Errors
///
/// `Absent` if one of its ids is 0. `NoMemory` if out of memory. `NoRoom` as for [`write_found`].
fn write_parent(
    alloc: Global,
    span: &SpanContext,
    room: &mut [u8],
    written: &mut usize,
) -> Result<(), Status>
    ensures header { OnOk result (HoldsFound (parent_header span.now)
        room.old room.new written.new) }
    ensures unchanged { OnErr result (room.new ≡ room.old) }
    ensures refused { IfErr result (ParentRefused span.now room.old written.new) }
{
    if !is_valid(span) {
        return Err(Status::Absent);
    }
    let text = parent_text(alloc, span)?;
    write_found(Some(text.as_str()), room, written)
}

fn traceparent(
    alloc: Global,
    context: &mut Handle,
    room: &mut [u8],
    written: &mut usize,
) -> Result<(), Status>
    ensures header { OnOk result (Shows traceparent_of
        context.old.object room.old room.new written.new) }
    ensures unchanged { OnErr result (room.new ≡ room.old) }
    ensures kept { context.new.object ≡ context.old.object }
    ensures refused { IfErr result (λ status.
        ShowRefused traceparent_of context.old.object room.old written.new status) }
{
    let context = copy(alloc, context)?;
    write_parent(alloc, context.span_context(), room, written)
}

/// Writes the value of `traceparent` for the context's span.
#[unsafe(no_mangle)]
pub extern "C" fn otel_context_traceparent(
    alloc: Global,
    context: &mut Handle,
    room: &mut [u8],
    written: &mut usize,
) -> u32
    ensures header { result ≡ 0
        → Shows traceparent_of context.old.object room.old room.new written.new }
    ensures unchanged { (result ≡ 0 → ⊥) → room.new ≡ room.old }
    ensures kept { context.new.object ≡ context.old.object }
    ensures refused { (result ≡ 0 → ⊥) → Refuses
        (ShowRefused traceparent_of context.old.object room.old written.new) result }
{
    code(traceparent(alloc, context, room, written))
}

/// Writes the value of `traceparent` for the ids and the flags of a span.
#[unsafe(no_mangle)]
pub extern "C" fn otel_span_traceparent(
    alloc: Global,
    span_context: &SpanParts,
    room: &mut [u8],
    written: &mut usize,
) -> u32
    ensures header { result ≡ 0 → HoldsFound (parent_header (span_of span_context.now []))
        room.old room.new written.new }
    ensures unchanged { (result ≡ 0 → ⊥) → room.new ≡ room.old }
    ensures refused { (result ≡ 0 → ⊥) → Refuses
        (ParentRefused (span_of span_context.now []) room.old written.new) result }
{
    let span = span_context.with_state(TraceState::NONE);
    code(write_parent(alloc, &span, room, written))
}
