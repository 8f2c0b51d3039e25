//! The state with which a span starts: its parent, its ids and flags, the sampler's answer and the
//! data.
ghost use Rattle.std.specs.Prelude.{◌≡◌, IfOk, IfErr, map, option_copied};
ghost use Rattle.std.specs.Option.{option_map};
ghost use Rattle.std.specs.Rc.{rc_value};
ghost use Rattle.otel_base.specs.View.{attribute_of};
ghost use Rattle.opentelemetry.specs.View.{builder_of, event_of, link_of};
ghost use Rattle.otel_sdk.specs.Sampler.{result_of};
ghost use Rattle.otel_sdk.specs.Tracer as spec;
ghost use Rattle.otel_sdk_base.specs.Attributes.{attributes_of};

use crate::trace::{
    IdError, IdGenerator, SamplingDecision, SamplingParameters, SamplingResult, ShouldSample,
};
use opentelemetry::trace::{
    Event, Link, SpanBuilder, SpanContext, SpanId, SpanKind, Status, TraceFlags, TraceId,
    TraceState,
};
use opentelemetry::{Context, InstrumentationScope, KeyValue};
use otel_sdk_span::{SpanData, SpanEvents, SpanLinks};
use std::alloc::{AllocError, Global};
use std::rc::Rc;

/// The flag `random` (W3C trace-context-2, "Random Trace ID Flag").
const RANDOM: u8 = 0x02;

/// The ids of a span that is about to start.
#[derive(Clone, Copy)]
pub(crate) struct Ids {
    pub trace_id: TraceId,
    pub span_id: SpanId,
}

/// Returns the span context of the parent, or `None` if one of its ids is 0: the span is then a
/// root.
pub(crate) fn parent_of(context: &Context) -> Option<&SpanContext>
    ensures { option_copied result ≡ spec.parent_of context.now }
{
    let span_context = context.span_context();
    if span_context.is_valid() {
        Some(span_context)
    } else {
        None
    }
}

/// Returns `true` if the flag `random` is set.
fn is_random(flags: TraceFlags) -> bool
    ensures { result ≡ spec.is_random flags }
{
    flags.to_u8() / RANDOM % 2 == 1
}

/// Returns `true` if a span with this decision records.
pub(crate) fn records(decision: SamplingDecision) -> bool
    ensures { result ≡ spec.records decision }
{
    decision != SamplingDecision::Drop
}

/// Returns the flags of a span. `sampled` is set if it is exported. `random` is set if the parent
/// has that flag, or, for a root, if its trace id is random.
fn flags_of(decision: SamplingDecision, parent: Option<&SpanContext>, random: bool) -> TraceFlags
    ensures { result ≡ spec.flags_of decision
        (spec.has_random_id (option_copied parent.entry) random) }
{
    let random = match parent {
        Some(parent) => is_random(parent.trace_flags()),
        None => random,
    };
    let flags = if random {
        TraceFlags::new(RANDOM)
    } else {
        TraceFlags::NOT_SAMPLED
    };
    flags.with_sampled(decision == SamplingDecision::RecordAndSample)
}

/// Returns the parent's trace id, or a new one for a root, and a new span id.
///
/// # Errors
///
/// The errors of the generator.
pub(crate) fn new_ids<G: IdGenerator>(
    id_generator: &G,
    parent: Option<&SpanContext>,
) -> Result<Ids, IdError>
    ensures trace { IfOk result (λ ids. spec.IsTraceId (G.may_trace id_generator.now)
        (option_copied parent.entry) ids.trace_id) }
    ensures span { IfOk result (λ ids. spec.IsSpanId (G.may_span id_generator.now) ids.span_id) }
    ensures failed { IfErr result (λ error. spec.HasFailed (G.may_trace id_generator.now)
        (G.may_span id_generator.now) (option_copied parent.entry) error) }
{
    let trace_id = match parent {
        Some(parent) => parent.trace_id(),
        None => id_generator.new_trace_id()?,
    };
    Ok(Ids {
        trace_id,
        span_id: id_generator.new_span_id()?,
    })
}

/// Returns the sampler's answer for a span of this trace.
///
/// # Errors
///
/// The errors of the sampler.
pub(crate) fn ask<S: ShouldSample>(
    alloc: Global,
    sampler: &S,
    builder: &SpanBuilder,
    parent_context: &Context,
    trace_id: TraceId,
) -> Result<SamplingResult, AllocError>
    ensures { IfOk result (λ r. result_of r ≡ S.answer sampler.now
        (spec.asked (builder_of builder.now) parent_context.now trace_id)) }
{
    let span = SamplingParameters {
        parent_context,
        trace_id,
        name: builder.name.as_str(),
        span_kind: builder.span_kind.unwrap_or(SpanKind::Internal),
        attributes: match &builder.attributes {
            Some(attributes) => attributes.as_slice(),
            None => &[],
        },
        links: match &builder.links {
            Some(links) => links.as_slice(),
            None => &[],
        },
        start_time: builder.start_time,
    };
    sampler.should_sample(alloc, &span)
}

/// Returns the span context with these ids: local, with the flags of the decision and this trace
/// state.
pub(crate) fn span_context_of(
    ids: Ids,
    decision: SamplingDecision,
    parent: Option<&SpanContext>,
    random: bool,
    trace_state: TraceState,
) -> SpanContext
    ensures { result ≡ spec.span_context_of ids.trace_id ids.span_id decision
        (spec.has_random_id (option_copied parent.entry) random) trace_state }
{
    let flags = flags_of(decision, parent, random);
    SpanContext::new(ids.trace_id, ids.span_id, flags, false, trace_state)
}

/// Returns the given attributes, or an empty list.
fn listed_attributes(alloc: Global, given: Option<Vec<KeyValue>>) -> Vec<KeyValue>
    ensures { map attribute_of result.items
        ≡ spec.listed (option_map (λ v. map attribute_of v.items) given) }
{
    match given {
        Some(attributes) => attributes,
        None => Vec::new(alloc),
    }
}

/// Returns the given events, or an empty list.
fn listed_events(alloc: Global, given: Option<Vec<Event>>) -> Vec<Event>
    ensures { map event_of result.items
        ≡ spec.listed (option_map (λ v. map event_of v.items) given) }
{
    match given {
        Some(events) => events,
        None => Vec::new(alloc),
    }
}

/// Returns the given links, or an empty list.
fn listed_links(alloc: Global, given: Option<Vec<Link>>) -> Vec<Link>
    ensures { map link_of result.items
        ≡ spec.listed (option_map (λ v. map link_of v.items) given) }
{
    match given {
        Some(links) => links,
        None => Vec::new(alloc),
    }
}

/// Returns the data of a span that starts at `start_time`: the builder's parts, with the sampler's
/// attributes after the builder's.
///
/// # Errors
///
/// `AllocError` if out of memory. All arguments are dropped.
// Inlined, since a call copies the data.
#[inline(always)]
pub(crate) fn given_data(
    alloc: Global,
    scope: Rc<InstrumentationScope>,
    builder: SpanBuilder,
    parent: Option<&SpanContext>,
    span_context: SpanContext,
    mut sampled: Vec<KeyValue>,
    start_time: u64,
) -> Result<SpanData, AllocError>
    ensures { IfOk result (λ d. d ≡ spec.given_data (rc_value scope) (builder_of builder)
        (option_copied parent.entry) span_context (attributes_of sampled) start_time) }
{
    let mut attributes = listed_attributes(alloc, builder.attributes);
    attributes.append(&mut sampled)?;
    let (parent_span_id, parent_span_is_remote) = match parent {
        Some(parent) => (parent.span_id(), parent.is_remote()),
        None => (SpanId::INVALID, false),
    };
    Ok(SpanData {
        span_context,
        parent_span_id,
        parent_span_is_remote,
        span_kind: builder.span_kind.unwrap_or(SpanKind::Internal),
        name: builder.name,
        start_time,
        end_time: start_time,
        attributes,
        dropped_attributes_count: 0,
        events: SpanEvents {
            events: listed_events(alloc, builder.events),
            dropped_count: 0,
        },
        links: SpanLinks {
            links: listed_links(alloc, builder.links),
            dropped_count: 0,
        },
        status: Status::Unset,
        instrumentation_scope: scope,
    })
}
