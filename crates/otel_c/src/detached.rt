//! Copies of contexts that share no memory with them: for another thread.
//!
//! Contracts don't see what is shared. The threads of `tests/c/threads.c` do.
ghost use Rattle.std.specs.Prelude.{◌≡◌, IfOk, IfErr, OnOk, OnErr};
ghost use Rattle.otel_c.specs.Context.{CopyRefused};
ghost use Rattle.otel_c.specs.Detached.{only_these, CopiesApart};
ghost use Rattle.otel_c.specs.Status.{Refuses, IsOutOfMemory};

use crate::context::{copy, make};
use crate::handle::Handle;
use crate::member::baggage_of;
use crate::pair::with_state;
use crate::status::{Status, code};
use opentelemetry::Context;
use otel_ids::{SpanContext, TraceState};
use std::alloc::Global;

/// Returns the same trace state in memory of its own.
fn state_of(alloc: Global, state: &TraceState) -> Result<TraceState, Status>
    ensures same { IfOk result (λ made. made ≡ state.now) }
    ensures refused { IfErr result IsOutOfMemory }
{
    let Some((key, value)) = state.iter().next() else {
        return Ok(TraceState::NONE);
    };
    // A clone would share the pairs. Inserting the first again copies them.
    match state.insert(alloc, key, value) {
        Ok(made) => Ok(made),
        Err(_) => Err(Status::NoMemory),
    }
}

/// Returns the same span context in memory of its own.
fn span_of(alloc: Global, span: &SpanContext) -> Result<SpanContext, Status>
    ensures same { IfOk result (λ made. made ≡ span.now) }
    ensures refused { IfErr result IsOutOfMemory }
{
    Ok(with_state(span, state_of(alloc, span.trace_state())?))
}

/// Returns a context with the same span and baggage in memory of its own.
fn apart(alloc: Global, context: &Context) -> Result<Context, Status>
    ensures same { IfOk result (λ made. made ≡ only_these context.now) }
    ensures refused { IfErr result IsOutOfMemory }
{
    let span = span_of(alloc, context.span_context())?;
    let baggage = baggage_of(alloc, context)?;
    let made = Context::new().with_remote_span_context(alloc, span)?;
    Ok(made.with_baggage(alloc, baggage)?)
}

fn detach(alloc: Global, context: &mut Handle, copied: &mut Handle) -> Result<(), Status>
    ensures copy { OnOk result (CopiesApart context.old.object copied.new.object) }
    ensures unchanged { OnErr result (copied.new.object ≡ copied.old.object) }
    ensures kept { context.new.object ≡ context.old.object }
    ensures refused { IfErr result (CopyRefused context.old.object) }
{
    let shared = copy(alloc, context)?;
    let made = apart(alloc, &shared)?;
    make(alloc, copied, made)
}

/// Puts a copy of the context that shares nothing with it into the other handle, and frees the
/// object that this held.
#[unsafe(no_mangle)]
pub extern "C" fn otel_context_detach_copy(
    alloc: Global,
    context: &mut Handle,
    copied: &mut Handle,
) -> u32
    ensures copy { result ≡ 0 → CopiesApart context.old.object copied.new.object }
    ensures unchanged { (result ≡ 0 → ⊥) → copied.new.object ≡ copied.old.object }
    ensures kept { context.new.object ≡ context.old.object }
    ensures refused { (result ≡ 0 → ⊥) → Refuses (CopyRefused context.old.object) result }
{
    code(detach(alloc, context, copied))
}
