//! Beginning a span below the span of a context.
ghost use Rattle.std.specs.Prelude.{◌≡◌, IfOk, IfErr, OnOk, OnErr};
ghost use Rattle.otel_propagators.specs.TraceContext.{is_valid};
ghost use Rattle.otel_c.specs.Child.{child_of, root_of, StartsChild, StartRefused};
ghost use Rattle.otel_c.specs.Status.{Refuses};

use crate::context::{copy, make};
use crate::handle::Handle;
use crate::span::SpanParts;
use crate::status::{Status, code};
use otel_ids::{SpanContext, SpanId, TraceFlags, TraceId, TraceState};
use std::alloc::{AllocError, Global};

/// Returns `true` if neither id is 0.
pub(crate) fn is_valid(context: &SpanContext) -> bool
    ensures { result ≡ is_valid context.now }
{
    context.is_valid()
}

/// Returns the first span of a trace.
fn root_of(given: &SpanParts) -> SpanContext
    ensures { result ≡ root_of given.now }
{
    SpanContext::new(
        TraceId::from_bytes(given.trace_id),
        SpanId::from_bytes(given.span_id),
        TraceFlags::new(given.flags),
        false,
        TraceState::NONE,
    )
}

/// Returns the span with the given id in the parent's trace, or a root if the parent isn't valid.
fn child_of(given: &SpanParts, parent: &SpanContext) -> Result<SpanContext, AllocError>
    ensures { IfOk result (λ child. child ≡ child_of given.now parent.now) }
{
    if !is_valid(parent) {
        return Ok(root_of(given));
    }
    Ok(SpanContext::new(
        parent.trace_id(),
        SpanId::from_bytes(given.span_id),
        parent.trace_flags(),
        false,
        parent.trace_state().clone()?,
    ))
}

fn start(
    alloc: Global,
    context: &mut Handle,
    given: &SpanParts,
    child: &mut Handle,
) -> Result<(), Status>
    ensures child { OnOk result (StartsChild given.now context.old.object child.new.object) }
    ensures unchanged { OnErr result (child.new.object ≡ child.old.object) }
    ensures kept { context.new.object ≡ context.old.object }
    ensures refused { IfErr result (StartRefused given.now context.old.object) }
{
    let parent = copy(alloc, context)?;
    let span = child_of(given, parent.span_context())?;
    if !is_valid(&span) {
        return Err(Status::Invalid);
    }
    let made = parent.with_remote_span_context(alloc, span)?;
    make(alloc, child, made)
}

/// Puts the context with a child of its span into the other handle, and frees the object that this
/// held. The child has the given span id. If the context has no span, it begins a trace with the
/// given trace id and flags.
#[unsafe(no_mangle)]
pub extern "C" fn otel_context_start_child_with(
    alloc: Global,
    context: &mut Handle,
    given: &SpanParts,
    child: &mut Handle,
) -> u32
    ensures child { result ≡ 0
        → StartsChild given.now context.old.object child.new.object }
    ensures unchanged { (result ≡ 0 → ⊥) → child.new.object ≡ child.old.object }
    ensures kept { context.new.object ≡ context.old.object }
    ensures refused { (result ≡ 0 → ⊥)
        → Refuses (StartRefused given.now context.old.object) result }
{
    code(start(alloc, context, given, child))
}
