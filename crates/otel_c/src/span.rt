//! The span of a context.
ghost use Rattle.std.specs.Prelude.{◌≡◌, IfOk, IfErr, OnOk, OnErr};
ghost use Rattle.otel_c.specs.Context.{CopyRefused};
ghost use Rattle.otel_c.specs.Span.{parts_of, ShowsSpan, ShowsState, ShowStateRefused};
ghost use Rattle.otel_c.specs.Span.{span_of, SetsSpan, SetSpanRefused};
ghost use Rattle.otel_c.specs.Span.{ReadsSendable, ReadSendableRefused};
ghost use Rattle.otel_c.specs.Status.{Refuses};

use crate::context::{copy, make};
use crate::handle::Handle;
use crate::room::write;
use crate::sendable;
use crate::status::{Status, code};
use crate::trace_state::read;
use otel_ids::{SpanContext, SpanId, TraceFlags, TraceId, TraceState};
use std::alloc::Global;

/// The ids and the flags of a span: `otel_span_context` in `include/otel.h`.
#[repr(C)]
#[derive(Clone, Copy)]
pub struct SpanParts {
    /// The id of the trace, most significant byte first.
    pub trace_id: [u8; 16],
    /// The id of the span in it.
    pub span_id: [u8; 8],
    /// The flags. Bit 0 is the flag `sampled`.
    pub flags: u8,
    /// Whether the span is from another process.
    pub is_remote: bool,
}

impl SpanParts {
    /// Returns the parts of the span context, without its trace state.
    pub fn of(context: &SpanContext) -> SpanParts
        ensures { result ≡ parts_of context.now }
    {
        SpanParts {
            trace_id: context.trace_id().to_bytes(),
            span_id: context.span_id().to_bytes(),
            flags: context.trace_flags().to_u8(),
            is_remote: context.is_remote(),
        }
    }

    /// Returns the span context with these parts and this trace state.
    pub fn with_state(&self, trace_state: TraceState) -> SpanContext
        ensures { result ≡ span_of self.now trace_state }
    {
        SpanContext::new(
            TraceId::from_bytes(self.trace_id),
            SpanId::from_bytes(self.span_id),
            TraceFlags::new(self.flags),
            self.is_remote,
            trace_state,
        )
    }
}

fn span(alloc: Global, context: &mut Handle, span: &mut SpanParts) -> Result<(), Status>
    ensures parts { OnOk result (ShowsSpan context.old.object span.new) }
    ensures unchanged { OnErr result (span.new ≡ span.old) }
    ensures kept { context.new.object ≡ context.old.object }
    ensures refused { IfErr result (CopyRefused context.old.object) }
{
    let context = copy(alloc, context)?;
    *span = SpanParts::of(context.span_context());
    Ok(())
}

/// Writes the ids and the flags of the context's span.
#[unsafe(no_mangle)]
pub extern "C" fn otel_context_span(
    alloc: Global,
    context: &mut Handle,
    span_context: &mut SpanParts,
) -> u32
    ensures parts { result ≡ 0 → ShowsSpan context.old.object span_context.new }
    ensures unchanged { (result ≡ 0 → ⊥) → span_context.new ≡ span_context.old }
    ensures kept { context.new.object ≡ context.old.object }
    ensures refused { (result ≡ 0 → ⊥) → Refuses (CopyRefused context.old.object) result }
{
    code(span(alloc, context, span_context))
}

fn trace_state(
    alloc: Global,
    context: &mut Handle,
    room: &mut [u8],
    written: &mut usize,
) -> Result<(), Status>
    ensures header { OnOk result (ShowsState context.old.object room.old room.new written.new) }
    ensures unchanged { OnErr result (room.new ≡ room.old) }
    ensures kept { context.new.object ≡ context.old.object }
    ensures refused { IfErr result (λ status.
        ShowStateRefused context.old.object room.old written.new status) }
{
    let context = copy(alloc, context)?;
    let text = context.span_context().trace_state().header(alloc)?;
    write(text.as_str(), room, written)
}

/// Writes the header of the trace state of the context's span.
#[unsafe(no_mangle)]
pub extern "C" fn otel_context_trace_state(
    alloc: Global,
    context: &mut Handle,
    room: &mut [u8],
    written: &mut usize,
) -> u32
    ensures header { result ≡ 0
        → ShowsState context.old.object room.old room.new written.new }
    ensures unchanged { (result ≡ 0 → ⊥) → room.new ≡ room.old }
    ensures kept { context.new.object ≡ context.old.object }
    ensures refused { (result ≡ 0 → ⊥)
        → Refuses (ShowStateRefused context.old.object room.old written.new) result }
{
    code(trace_state(alloc, context, room, written))
}

/// Reads the trace state of the header, if it can be sent.
///
/// # Errors
///
/// `Unsendable` if no header can carry it. Otherwise as specified by [`read`].
fn read_sendable(alloc: Global, trace_state: &[u8]) -> Result<TraceState, Status>
    ensures read { IfOk result (ReadsSendable trace_state.now) }
    ensures refused { IfErr result (ReadSendableRefused trace_state.now) }
{
    let state = read(alloc, trace_state)?;
    let text = state.header(alloc)?;
    sendable::check(text.as_str())?;
    Ok(state)
}

fn set_span(
    alloc: Global,
    context: &mut Handle,
    parts: &SpanParts,
    trace_state: &[u8],
) -> Result<(), Status>
    ensures span { OnOk result (SetsSpan parts.now trace_state.now
        context.old.object context.new.object) }
    ensures unchanged { OnErr result (context.new.object ≡ context.old.object) }
    ensures refused { IfErr result (SetSpanRefused trace_state.now context.old.object) }
{
    let before = copy(alloc, context)?;
    let state = read_sendable(alloc, trace_state)?;
    let made = before.with_remote_span_context(alloc, parts.with_state(state))?;
    make(alloc, context, made)
}

/// Sets the context's span, with the trace state of the header.
#[unsafe(no_mangle)]
pub extern "C" fn otel_context_set_span(
    alloc: Global,
    context: &mut Handle,
    span_context: &SpanParts,
    trace_state: &[u8],
) -> u32
    ensures span { result ≡ 0 → SetsSpan span_context.now trace_state.now
        context.old.object context.new.object }
    ensures unchanged { (result ≡ 0 → ⊥) → context.new.object ≡ context.old.object }
    ensures refused { (result ≡ 0 → ⊥)
        → Refuses (SetSpanRefused trace_state.now context.old.object) result }
{
    code(set_span(alloc, context, span_context, trace_state))
}
