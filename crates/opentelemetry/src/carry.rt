//! A run of attaches and detaches on one stack, followed by an injection of the current context.
ghost use Rattle.std.specs.Prelude.{◌≡◌, ◌≤◌, ◌∷◌, [], IsOk, IfOk, OnErr};
ghost use Rattle.otel_context.specs.Stack.{newest_position, current, IsLawful};
ghost use Rattle.opentelemetry.specs.Carrier.{HasSameTexts};
ghost use Rattle.opentelemetry.specs.Composite.{members_of, RefusedByMember, Sends, SendsCurrent};
ghost use Rattle.opentelemetry.specs.Progress.{after_attach, IsPlayed, Plays};
ghost use Rattle.opentelemetry.specs.Run.{IsOutcome, IsCurrent, Legal, survivors};
ghost use Rattle.opentelemetry.specs.Run.{accepted_of, stack_of};

use crate::context::{Context, ContextStack};
use crate::propagation::{PropagationError, TextMapCompositePropagator};
use std::alloc::{AllocError, Global};
use std::collections::HashMap;

mod event;
pub mod laws;

pub use event::{AttachOutcome, StackEvent};

/// The position that `push` returns if no position is left.
const FULL: u16 = 65535;

/// The result of a run.
///
/// See [`run`].
#[derive(Drop)]
pub struct RunReport {
    /// The stack after the events.
    pub stack: ContextStack,
    /// The outcome of each attach, in order.
    pub outcomes: Vec<AttachOutcome>,
    /// The result of injecting the stack's current context.
    pub injected: Result<(), PropagationError>,
}

/// Attaches the context. Returns the outcome.
fn attach(stack: &mut ContextStack, context: Context) -> AttachOutcome
    ensures outcome { IsLawful stack.old → IsOutcome (newest_position stack.old.live) result }
    ensures after { IsLawful stack.old → stack.new ≡ after_attach stack.old result context }
    ensures lawful { IsLawful stack.new }
{
    match stack.push(context) {
        Ok(FULL) => AttachOutcome::Full,
        Ok(position) => AttachOutcome::Attached(position),
        Err(_) => AttachOutcome::NoMemory,
    }
}

/// Applies one event. `positions` holds the position of each earlier attach while it is live. So an
/// event takes constant time, and a reused position isn't removed twice.
fn apply(
    stack: &mut ContextStack,
    positions: &mut Vec<Option<u16>>,
    outcomes: &mut Vec<AttachOutcome>,
    event: StackEvent,
) -> Result<(), AllocError>
    ensures { Plays (event ∷ []) outcomes.old positions.old stack.old
        outcomes.new positions.new stack.new result }
{
    match event {
        StackEvent::Attach(context) => {
            let outcome = attach(stack, context);
            outcomes.push(outcome)?;
            positions.push(match outcome {
                AttachOutcome::Attached(position) => Some(position),
                AttachOutcome::Full | AttachOutcome::NoMemory => None,
            })?;
            Ok(())
        }
        StackEvent::Detach(number) => {
            if number < positions.len() {
                let live = positions[number];
                if let Some(position) = live {
                    positions[number] = None;
                    let _ = stack.pop_id(position);
                }
            }
            Ok(())
        }
    }
}

/// Applies the events in order.
fn apply_all(
    stack: &mut ContextStack,
    positions: &mut Vec<Option<u16>>,
    outcomes: &mut Vec<AttachOutcome>,
    events: Vec<StackEvent>,
) -> Result<(), AllocError>
    ensures { Plays events.items outcomes.old positions.old stack.old
        outcomes.new positions.new stack.new result }
{
    for event in events {
        apply(stack, positions, outcomes, event)?;
    }
    Ok(())
}

/// The stack and the outcomes after a list of events.
#[derive(Drop)]
struct Played {
    stack: ContextStack,
    outcomes: Vec<AttachOutcome>,
}

/// Applies the events in order, starting from an empty stack.
fn play(alloc: Global, events: Vec<StackEvent>) -> Result<Played, AllocError>
    ensures { IfOk result (λ played. IsPlayed events.items played.outcomes.items played.stack) }
{
    let mut stack = ContextStack::new(alloc)?;
    let mut outcomes = Vec::new(alloc);
    let mut positions = Vec::new(alloc);
    apply_all(&mut stack, &mut positions, &mut outcomes, events)?;
    Ok(Played { stack, outcomes })
}

/// Injects the context into a map of texts.
fn send(
    composite: &TextMapCompositePropagator,
    context: &Context,
    carrier: &mut HashMap<String, String>,
) -> Result<(), PropagationError>
    ensures injected { Sends (λ m. pairs m) (λ m. may_refuse m) composite.now context.now
        carrier.old carrier.new result }
    ensures refused { RefusedByMember (λ m. may_refuse m) composite.now result }
    ensures without_members { members_of composite.now ≡ []
        → IsOk result × HasSameTexts carrier.old carrier.new }
{
    composite.inject_context(context, carrier)
}

/// Applies the events in order to an empty stack, then injects the current context.
///
/// Use it to replay a recorded run, as the program `otel_carry` does. A refused attach or detach
/// changes nothing, and the run continues. The report holds the result of the injection. If it is
/// an error, only a prefix of the pairs is set in the carrier. Not in the Rust crate.
///
/// # Errors
///
/// `AllocError` if out of memory for the stack or the run's lists. The carrier is unchanged. The
/// events and the stack are dropped.
pub fn run(
    alloc: Global,
    events: Vec<StackEvent>,
    composite: &TextMapCompositePropagator,
    carrier: &mut HashMap<String, String>,
) -> Result<RunReport, AllocError>
    ensures live { IfOk result (λ report.
        report.stack.live ≡ survivors events.items report.outcomes.items) }
    ensures current { IfOk result (λ report.
        IsCurrent events.items report.outcomes.items (current report.stack.live)) }
    ensures legal { IfOk result (λ report. Legal events.items report.outcomes.items) }
    ensures injected { IfOk result
        (SendsCurrent (λ m. pairs m) (λ m. may_refuse m) composite.now carrier.old carrier.new) }
    ensures refused { IfOk result (λ report.
        RefusedByMember (λ m. may_refuse m) composite.now report.injected) }
    ensures accepted { IfOk result (λ report.
        report.stack.accepted ≡ accepted_of report.outcomes.items) }
    ensures stepped { IfOk result (λ report. report.stack.stepped ≤ report.stack.accepted) }
    ensures stack { IfOk result (λ report.
        report.stack ≡ stack_of events.items report.outcomes.items) }
    ensures without_members { members_of composite.now ≡ []
        → IfOk result (λ report. IsOk report.injected) }
    ensures nothing_sent { members_of composite.now ≡ []
        → HasSameTexts carrier.old carrier.new }
    ensures err { OnErr result (HasSameTexts carrier.old carrier.new) }
{
    let Played { stack, outcomes } = play(alloc, events)?;
    let injected = send(composite, stack.current(), carrier);
    Ok(RunReport {
        stack,
        outcomes,
        injected,
    })
}
