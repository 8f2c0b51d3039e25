//! Two pieces of work that overlap, each under a context of its own.
ghost use Rattle.std.specs.Prelude.{◌≡◌, ◌<◌, ◌+◌, IfOk};
ghost use Rattle.otel_context.specs.Stack.{newest_position, last_position};

use opentelemetry::Context;
use opentelemetry::context::ContextStack;
use otel_context::laws::stack_calls;
use std::alloc::AllocError;

/// Attaches two contexts and detaches the older one first. Returns a copy of the context that is
/// current in between.
///
/// # Errors
///
/// `AllocError` if out of memory. The same contexts are live on the stack as before.
pub fn current_between(
    stack: &mut ContextStack,
    first: Context,
    second: Context,
) -> Result<Context, AllocError>
    ensures second { newest_position stack.old.live + 1 < last_position
        → IfOk result (λ seen. seen ≡ second) }
    ensures restored { stack.new.live ≡ stack.old.live }
{
    stack_calls();
    stack.newest_position();
    let older = stack.attach(first)?;
    let newer = match stack.attach(second) {
        Ok(newer) => newer,
        Err(error) => {
            stack.detach(older);
            return Err(error);
        }
    };
    stack.detach(older);
    let seen: Result<_, _> = stack.current().clone();
    stack.detach(newer);
    seen
}
