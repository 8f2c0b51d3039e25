//! Composite propagators: a run whose current context is injected with two members, and a context
//! that is sent and received with three.
ghost use Rattle.std.specs.Prelude.{◌≡◌, IfOk, OnOk, false};
ghost use Rattle.otel_context.specs.Stack.{current};
ghost use Rattle.opentelemetry.specs.Carrier.{text_map};
ghost use Rattle.opentelemetry.specs.Refusal.{is_refused};
ghost use Rattle.opentelemetry.specs.Run.{IsCurrent};
ghost use Rattle.otel_examples.specs.Composite.{Arrives, ComesBackWithId, IsIdSent, Receives};
ghost use Rattle.otel_examples.specs.Composite.{RefusesByMember, Sends, SendsCurrent, SetsAll};

use crate::api::request_id::RequestId;
use opentelemetry::Context;
use opentelemetry::carry::{RunReport, StackEvent, run};
use opentelemetry::propagation::{PropagationError, TextMapCompositePropagator, TextMapPropagator};
use otel_propagators::laws::{every_context, headers_there_and_back};
use otel_propagators::{BaggagePropagator, TraceContextPropagator};
use std::alloc::{AllocError, Global};
use std::collections::HashMap;

/// Runs the events. Then injects the current context into the headers `x-request-id` and
/// `baggage`.
///
/// # Errors
///
/// `AllocError` if out of memory. The headers are unchanged.
pub fn run_and_send(
    alloc: Global,
    events: Vec<StackEvent>,
    headers: &mut HashMap<String, String>,
) -> Result<RunReport, AllocError>
    // The latest context that isn't detached is current, or the empty context if there is none.
    ensures current { IfOk result (λ report.
        IsCurrent events.items report.outcomes.items (current report.stack.live)) }
    ensures sent { IfOk result (λ report.
        SendsCurrent report.injected report.stack.live headers.old headers.new) }
    // Neither of these propagators refuses.
    ensures refused { IfOk result (λ report. is_refused report.injected ≡ false) }
{
    let mut members: Vec<Box<dyn TextMapPropagator>> = Vec::new(alloc);
    members.push(Box::new(alloc, RequestId::new(alloc)?)?)?;
    members.push(Box::new(alloc, BaggagePropagator::new(alloc)?)?)?;
    let composite = TextMapCompositePropagator::new(alloc, members)?;
    run(alloc, events, &composite, headers)
}

/// Injects the context with a composite.
fn send(
    composite: &TextMapCompositePropagator,
    context: &Context,
    headers: &mut HashMap<String, String>,
) -> Result<(), PropagationError>
    ensures { Sends composite.now (λ m. pairs m) (λ m. may_refuse m) context.now
        headers.old headers.new result }
{
    composite.inject_context(context, headers)
}

/// Returns the given context with the values that a composite extracts.
fn receive(
    composite: &TextMapCompositePropagator,
    alloc: Global,
    context: &Context,
    headers: &HashMap<String, String>,
) -> Result<Context, PropagationError>
    ensures { Receives composite.now (λ m. extracted m) (λ m. may_refuse m) context.now
        headers.now result }
{
    composite.extract_with_context(alloc, context, headers)
}

/// Injects the context with a composite. Returns the context that it then extracts.
///
/// # Errors
///
/// `Memory` if out of memory; `Refused` if a member refuses. Some of the headers may then be set.
pub fn send_and_receive(
    alloc: Global,
    composite: &TextMapCompositePropagator,
    context: &Context,
    headers: &mut HashMap<String, String>,
) -> Result<Context, PropagationError>
    // If the composite has both W3C propagators, the context that was sent is returned.
    ensures back { Arrives composite.now (λ m. pairs m) (λ m. extracted m) context.now
        headers.old headers.new result }
    // The headers of its members are set.
    ensures sent { OnOk result
        (SetsAll composite.now (λ m. pairs m) context.now headers.old headers.new) }
    ensures refused { RefusesByMember composite.now (λ m. may_refuse m) result }
{
    every_context(context);
    headers_there_and_back();
    send(composite, context, headers)?;
    let empty = Context::new();
    receive(composite, alloc, &empty, headers)
}

/// Injects the context into the W3C headers, and the request's id into a header of its own, with
/// one composite. Returns the context that it then extracts.
///
/// # Errors
///
/// `Memory` if out of memory. Some of the headers may then be set.
pub fn after_request_id(
    alloc: Global,
    context: &Context,
    headers: &mut HashMap<String, String>,
) -> Result<Context, PropagationError>
    ensures back { IfOk result (ComesBackWithId context.now headers.old headers.new) }
    // The id's header is set, or unchanged if there is no id.
    ensures id { OnOk result (IsIdSent context.now (text_map headers.old.entries)
        (text_map headers.new.entries)) }
    ensures refused { is_refused result ≡ false }
{
    let mut propagators: Vec<Box<dyn TextMapPropagator>> = Vec::new(alloc);
    propagators.push(Box::new(alloc, RequestId::new(alloc)?)?)?;
    propagators.push(Box::new(alloc, TraceContextPropagator::new(alloc)?)?)?;
    propagators.push(Box::new(alloc, BaggagePropagator::new(alloc)?)?)?;
    let composite = TextMapCompositePropagator::new(alloc, propagators)?;
    send_and_receive(alloc, &composite, context, headers)
}
