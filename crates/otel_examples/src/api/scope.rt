//! Work under a context of its own: attach, work, detach, even if the work fails.
ghost use Rattle.std.specs.Prelude.{◌≡◌, ◌<◌, IfOk};
ghost use Rattle.otel_context.specs.Stack.{current, newest_position, last_position};
ghost use Rattle.otel_examples.specs.Scope.{HasAmount};

use opentelemetry::Context;
use opentelemetry::context::ContextStack;
use opentelemetry::logs::AnyValue;
use otel_context::laws::stack_calls;
use std::alloc::AllocError;
use thiserror::Error;

/// The reason why an amount can't be read.
#[derive(Debug, Drop, Error)]
pub enum AmountError {
    /// The current context has no integer under `amount`.
    #[error("no amount")]
    Missing,
    /// Out of memory.
    #[error("no memory")]
    Memory(#[from] AllocError),
}

/// Returns the integer under `amount` in the current context.
///
/// # Errors
///
/// `Missing` if there is none.
pub fn current_amount(stack: &ContextStack) -> Result<i64, AmountError>
    ensures { IfOk result (HasAmount (current stack.now.live)) }
{
    match stack.current().get("amount") {
        Some(AnyValue::Int(amount)) => Ok(*amount),
        _ => Err(AmountError::Missing),
    }
}

/// Attaches a context, reads its amount, and detaches it, even if it has no amount.
///
/// # Errors
///
/// `Missing` if the context has no integer under `amount`; `Memory` if out of memory. After either
/// the same contexts are live on the stack as before.
pub fn amount_under(stack: &mut ContextStack, context: Context) -> Result<i64, AmountError>
    ensures amount { newest_position stack.old.live < last_position
        → IfOk result (HasAmount context) }
    ensures restored { stack.new.live ≡ stack.old.live }
{
    stack_calls();
    stack.newest_position();
    let guard = stack.attach(context)?;
    let amount = current_amount(stack);
    stack.detach(guard);
    let amount = amount?;
    Ok(amount)
}
