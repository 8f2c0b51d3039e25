//! Setting a pair of the trace state of a context's span.
ghost use Rattle.std.specs.Prelude.{◌≡◌, IfOk, IfErr, OnOk, OnErr};
ghost use Rattle.otel_c.specs.Member.{GivesFrom, Makes};
ghost use Rattle.otel_c.specs.Pair.{with_state, InsertsSendable, PairRefused};
ghost use Rattle.otel_c.specs.Pair.{SetsPair, SetPairRefused};
ghost use Rattle.otel_c.specs.Status.{Refuses};

use crate::context::{copy, make};
use crate::handle::Handle;
use crate::room::text_of;
use crate::sendable;
use crate::status::{Status, code};
use opentelemetry::Context;
use otel_ids::{SpanContext, TraceState};
use std::alloc::Global;

/// Returns the span context with this trace state.
pub(crate) fn with_state(span: &SpanContext, state: TraceState) -> SpanContext
    ensures { result ≡ with_state span.now state }
{
    SpanContext::new(
        span.trace_id(),
        span.span_id(),
        span.trace_flags(),
        span.is_remote(),
        state,
    )
}

/// Returns the trace state with the pair in front.
///
/// # Errors
///
/// `NotText` if a text isn't UTF-8. `Key` or `Value` if the pair isn't valid. `Unsendable` if no
/// header can carry the value. `NoMemory` if out of memory.
fn with_pair(
    alloc: Global,
    state: &TraceState,
    key: &[u8],
    value: &[u8],
) -> Result<TraceState, Status>
    ensures made { IfOk result (InsertsSendable key.now value.now state.now) }
    ensures refused { IfErr result (PairRefused key.now value.now) }
{
    let key = text_of(key)?;
    let value = text_of(value)?;
    let made = state.insert(alloc, key, value)?;
    sendable::check(value)?;
    Ok(made)
}

/// Returns a copy of the handle's context with the pair in front of the trace state of its span.
fn set_in(alloc: Global, context: &mut Handle, key: &[u8], value: &[u8]) -> Result<Context, Status>
    ensures pair { IfOk result (GivesFrom (SetsPair key.now value.now) context.old.object) }
    ensures kept { context.new.object ≡ context.old.object }
    ensures refused { IfErr result (SetPairRefused key.now value.now context.old.object) }
{
    let before = copy(alloc, context)?;
    let span = before.span_context();
    let state = with_pair(alloc, span.trace_state(), key, value)?;
    Ok(before.with_remote_span_context(alloc, with_state(span, state))?)
}

fn set(alloc: Global, context: &mut Handle, key: &[u8], value: &[u8]) -> Result<(), Status>
    ensures pair { OnOk result (Makes (SetsPair key.now value.now)
        context.old.object context.new.object) }
    ensures unchanged { OnErr result (context.new.object ≡ context.old.object) }
    ensures refused { IfErr result (SetPairRefused key.now value.now context.old.object) }
{
    let given = set_in(alloc, context, key, value)?;
    make(alloc, context, given)
}

/// Sets the pair in front of the trace state of the context's span.
#[unsafe(no_mangle)]
pub extern "C" fn otel_context_set_trace_state_pair(
    alloc: Global,
    context: &mut Handle,
    key: &[u8],
    value: &[u8],
) -> u32
    ensures pair { result ≡ 0 → Makes (SetsPair key.now value.now)
        context.old.object context.new.object }
    ensures unchanged { (result ≡ 0 → ⊥) → context.new.object ≡ context.old.object }
    ensures refused { (result ≡ 0 → ⊥)
        → Refuses (SetPairRefused key.now value.now context.old.object) result }
{
    code(set(alloc, context, key, value))
}
