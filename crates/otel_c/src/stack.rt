//! Stacks of attached contexts.
ghost use Rattle.std.specs.Prelude.{◌≡◌, ◌+◌, ◌⊎◌, IfOk, IfErr, OnOk, OnErr, Some, IsSome};
ghost use Rattle.otel_context.specs.Stack.{new_stack, newest_position, context_at};
ghost use Rattle.otel_c.specs.Object.{stack_of};
ghost use Rattle.otel_c.specs.Stack.{attached, detached, IsFull, PushRefused, Pushes, Attaches};
ghost use Rattle.otel_c.specs.Stack.{AttachRefused, Detaches, DetachRefused, GivesCurrent};
ghost use Rattle.otel_c.specs.Stack.{HasCurrent, CurrentRefused};
ghost use Rattle.otel_c.specs.Status.{Refuses, IsOutOfMemory, IsNothing};

use crate::context::{copy, make};
use crate::handle::Handle;
use crate::object::Object;
use crate::status::{Status, code};
use opentelemetry::Context;
use opentelemetry::context::ContextStack;
use std::alloc::Global;

/// The greatest position.
const LAST_POSITION: u16 = 65534;

fn new(alloc: Global, stack: &mut Handle) -> Result<(), Status>
    ensures empty { OnOk result (stack_of stack.new.object ≡ Some new_stack) }
    ensures unchanged { OnErr result (stack.new.object ≡ stack.old.object) }
    ensures refused { IfErr result IsOutOfMemory }
{
    let object = Object::Stack(ContextStack::new(alloc)?);
    stack.put(alloc, Box::new(alloc, object)?);
    Ok(())
}

/// Attaches the context to the stack.
fn push(stack: &mut ContextStack, context: Context, position: &mut u16) -> Result<(), Status>
    ensures position { OnOk result (position.new ≡ newest_position stack.old.live + 1) }
    ensures stack { OnOk result (stack.new ≡ attached context stack.old) }
    ensures kept { OnErr result (position.new ≡ position.old) }
    ensures unchanged { OnErr result (stack.new ≡ stack.old) }
    ensures refused { IfErr result (λ status. IsOutOfMemory status ⊎ IsFull stack.old status) }
{
    if stack.newest_position() == LAST_POSITION {
        return Err(Status::Refused);
    }
    *position = stack.push(context)?;
    Ok(())
}

fn push_in(object: &mut Object, context: Context, position: &mut u16) -> Result<(), Status>
    ensures attached { OnOk result (Pushes context
        (Some object.old) (Some object.new) position.new) }
    ensures kept { OnErr result (position.new ≡ position.old) }
    ensures unchanged { OnErr result (object.new ≡ object.old) }
    ensures refused { IfErr result (PushRefused (Some object.old)) }
{
    match object {
        Object::Stack(stack) => push(stack, context, position),
        _ => Err(Status::Invalid),
    }
}

fn push_to(
    alloc: Global,
    stack: &mut Handle,
    context: Context,
    position: &mut u16,
) -> Result<(), Status>
    ensures attached { OnOk result (Pushes context
        stack.old.object stack.new.object position.new) }
    ensures kept { OnErr result (position.new ≡ position.old) }
    ensures unchanged { OnErr result (stack.new.object ≡ stack.old.object) }
    ensures refused { IfErr result (PushRefused stack.old.object) }
{
    let mut object = stack.take(alloc)?;
    let outcome = push_in(&mut object, context, position);
    stack.put(alloc, object);
    outcome
}

fn attach(
    alloc: Global,
    stack: &mut Handle,
    context: &mut Handle,
    position: &mut u16,
) -> Result<(), Status>
    ensures attached { OnOk result (Attaches context.old.object
        stack.old.object stack.new.object position.new) }
    ensures unattached { OnErr result (position.new ≡ position.old) }
    ensures unchanged { OnErr result (stack.new.object ≡ stack.old.object) }
    ensures kept { context.new.object ≡ context.old.object }
    ensures refused { IfErr result (AttachRefused context.old.object stack.old.object) }
{
    // Takes a copy, so a refusal loses nothing.
    let context = copy(alloc, context)?;
    push_to(alloc, stack, context, position)
}

/// Detaches the context at the position.
fn pop(stack: &mut ContextStack, position: u16) -> Result<(), Status>
    ensures detached { OnOk result (IsSome (context_at position stack.old.live)) }
    ensures stack { OnOk result (stack.new ≡ detached position stack.old) }
    ensures unchanged { OnErr result (stack.new ≡ stack.old) }
    ensures refused { IfErr result (IsNothing (context_at position stack.old.live)) }
{
    match stack.pop_id(position) {
        Some(_) => Ok(()),
        None => Err(Status::Absent),
    }
}

fn pop_in(object: &mut Object, position: u16) -> Result<(), Status>
    ensures detached { OnOk result (Detaches position (Some object.old) (Some object.new)) }
    ensures unchanged { OnErr result (object.new ≡ object.old) }
    ensures refused { IfErr result (DetachRefused position (Some object.old)) }
{
    match object {
        Object::Stack(stack) => pop(stack, position),
        _ => Err(Status::Invalid),
    }
}

fn detach(alloc: Global, stack: &mut Handle, position: u16) -> Result<(), Status>
    ensures detached { OnOk result (Detaches position stack.old.object stack.new.object) }
    ensures unchanged { OnErr result (stack.new.object ≡ stack.old.object) }
    ensures refused { IfErr result (DetachRefused position stack.old.object) }
{
    let mut object = stack.take(alloc)?;
    let outcome = pop_in(&mut object, position);
    stack.put(alloc, object);
    outcome
}

fn current_in(object: &Object) -> Result<Context, Status>
    ensures current { IfOk result (GivesCurrent (Some object.now)) }
    ensures refused { IfErr result (CurrentRefused (Some object.now)) }
{
    Ok(object.stack()?.current().clone()?)
}

fn current_of(alloc: Global, stack: &mut Handle) -> Result<Context, Status>
    ensures current { IfOk result (GivesCurrent stack.old.object) }
    ensures kept { stack.new.object ≡ stack.old.object }
    ensures refused { IfErr result (CurrentRefused stack.old.object) }
{
    let object = stack.take(alloc)?;
    let current = current_in(&object);
    stack.put(alloc, object);
    current
}

fn current(alloc: Global, stack: &mut Handle, context: &mut Handle) -> Result<(), Status>
    ensures current { OnOk result (HasCurrent stack.old.object context.new.object) }
    ensures unchanged { OnErr result (context.new.object ≡ context.old.object) }
    ensures kept { stack.new.object ≡ stack.old.object }
    ensures refused { IfErr result (CurrentRefused stack.old.object) }
{
    let found = current_of(alloc, stack)?;
    make(alloc, context, found)
}

/// Makes an empty stack, and frees the object that the handle held.
#[unsafe(no_mangle)]
pub extern "C" fn otel_stack_new(alloc: Global, stack: &mut Handle) -> u32
    ensures empty { result ≡ 0 → stack_of stack.new.object ≡ Some new_stack }
    ensures unchanged { (result ≡ 0 → ⊥) → stack.new.object ≡ stack.old.object }
    ensures refused { (result ≡ 0 → ⊥) → Refuses IsOutOfMemory result }
{
    code(new(alloc, stack))
}

/// Attaches a copy of the context at the position above the newest. Writes that position.
#[unsafe(no_mangle)]
pub extern "C" fn otel_stack_attach(
    alloc: Global,
    stack: &mut Handle,
    context: &mut Handle,
    position: &mut u16,
) -> u32
    ensures attached { result ≡ 0 → Attaches context.old.object
        stack.old.object stack.new.object position.new }
    ensures unattached { (result ≡ 0 → ⊥) → position.new ≡ position.old }
    ensures unchanged { (result ≡ 0 → ⊥) → stack.new.object ≡ stack.old.object }
    ensures kept { context.new.object ≡ context.old.object }
    ensures refused { (result ≡ 0 → ⊥)
        → Refuses (AttachRefused context.old.object stack.old.object) result }
{
    code(attach(alloc, stack, context, position))
}

/// Detaches the context at the position.
#[unsafe(no_mangle)]
pub extern "C" fn otel_stack_detach(alloc: Global, stack: &mut Handle, position: u16) -> u32
    ensures detached { result ≡ 0 → Detaches position stack.old.object stack.new.object }
    ensures unchanged { (result ≡ 0 → ⊥) → stack.new.object ≡ stack.old.object }
    ensures refused { (result ≡ 0 → ⊥)
        → Refuses (DetachRefused position stack.old.object) result }
{
    code(detach(alloc, stack, position))
}

/// Puts a copy of the current context into the other handle, and frees the object that this held.
#[unsafe(no_mangle)]
pub extern "C" fn otel_stack_current(alloc: Global, stack: &mut Handle, context: &mut Handle) -> u32
    ensures current { result ≡ 0 → HasCurrent stack.old.object context.new.object }
    ensures unchanged { (result ≡ 0 → ⊥) → context.new.object ≡ context.old.object }
    ensures kept { stack.new.object ≡ stack.old.object }
    ensures refused { (result ≡ 0 → ⊥) → Refuses (CurrentRefused stack.old.object) result }
{
    code(current(alloc, stack, context))
}
