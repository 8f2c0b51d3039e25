//! The start of a span: its ids, the sampler's answer, and its data.
ghost use Rattle.std.specs.Prelude.{◌≡◌, IfOk, option_copied};
ghost use Rattle.opentelemetry.specs.View.{builder_of};
ghost use Rattle.otel_sdk.specs.Tracer as spec;
ghost use Rattle.otel_sdk.specs.Tracer.{of_config};
ghost use Rattle.otel_sdk_base.specs.Attributes.{attributes_of};

use crate::trace::start::{Ids, ask, given_data, new_ids, parent_of, records, span_context_of};
use crate::trace::tracer::calls::TracerCalls;
use crate::trace::{IdGenerator, ShouldSample};
use opentelemetry::trace::{SpanBuilder, SpanContext};
use opentelemetry::{Context, InstrumentationScope, KeyValue};
use otel_sdk_span::{SdkSpan, SpanLimits};
use std::alloc::{AllocError, Global};
use std::cell::Cell;
use std::rc::Rc;

/// The sampler, generator of ids, clock and limits with which spans start, and the number of spans
/// for which no ids were generated.
#[derive(Drop)]
pub(crate) struct TracerConfig<S, G, C> {
    pub sampler: S,
    pub id_generator: G,
    pub clock: C,
    pub limits: SpanLimits,
    pub failed_ids: Cell<u64>,
}

/// Returns a span that doesn't record, with the span context of the parent if there is one.
///
/// # Errors
///
/// `AllocError` if the reference count of the trace state is at its limit.
fn without_ids(parent: Option<&SpanContext>) -> Result<SdkSpan, AllocError>
    ensures { IfOk result (λ span. span ≡ spec.without_ids (option_copied parent.entry)) }
{
    match parent {
        Some(parent) => Ok(SdkSpan::without_data(parent.clone()?)),
        None => Ok(SdkSpan::without_data(SpanContext::NONE)),
    }
}

impl<S: ShouldSample, G: IdGenerator, C: TracerCalls> TracerConfig<S, G, C> {
    /// Returns the given time, or the clock's time if none is given.
    fn start_time(&self, given: Option<u64>) -> u64
        ensures { spec.IsStartTime C.may_show given result }
    {
        match given {
            Some(start_time) => start_time,
            None => self.clock.show(),
        }
    }

    /// Starts a span that records, with this span context and these attributes from the sampler.
    ///
    /// # Errors
    ///
    /// `AllocError` if out of memory. The builder, span context and attributes are dropped.
    fn record(
        &self,
        alloc: Global,
        scope: &Rc<InstrumentationScope>,
        builder: SpanBuilder,
        parent: Option<&SpanContext>,
        span_context: SpanContext,
        sampled: Vec<KeyValue>,
    ) -> Result<SdkSpan, AllocError>
        ensures { IfOk result (spec.IsRecorded C.may_show (of_config self.now scope.now)
            (builder_of builder) (option_copied parent.entry) span_context
            (attributes_of sampled)) }
    {
        let start_time = self.start_time(builder.start_time);
        let scope = scope.clone()?;
        let data = given_data(
            alloc,
            scope,
            builder,
            parent,
            span_context,
            sampled,
            start_time,
        )?;
        SdkSpan::new(alloc, data, self.limits)
    }

    /// Starts the span with these ids.
    ///
    /// # Errors
    ///
    /// `AllocError` if out of memory. The builder is dropped.
    fn start_with_ids(
        &self,
        alloc: Global,
        scope: &Rc<InstrumentationScope>,
        builder: SpanBuilder,
        parent_context: &Context,
        ids: Ids,
    ) -> Result<SdkSpan, AllocError>
        ensures { IfOk result (spec.IsStarted S.answer G.random C.may_show
            (of_config self.now scope.now) (builder_of builder) parent_context.now
            ids.trace_id ids.span_id) }
    {
        let parent = parent_of(parent_context);
        let answer = ask(alloc, &self.sampler, &builder, parent_context, ids.trace_id)?;
        let random = self.id_generator.is_random();
        let span_context = span_context_of(
            ids,
            answer.decision,
            parent,
            random,
            answer.trace_state,
        );
        if !records(answer.decision) {
            return Ok(SdkSpan::without_data(span_context));
        }
        self.record(
            alloc,
            scope,
            builder,
            parent,
            span_context,
            answer.attributes,
        )
    }

    /// Starts a span, whether or not telemetry is suppressed. If the generator of ids fails, the
    /// span doesn't record and has the span context of its parent, and is counted.
    ///
    /// # Errors
    ///
    /// `AllocError` if out of memory. The builder is dropped.
    pub fn start(
        &self,
        alloc: Global,
        scope: &Rc<InstrumentationScope>,
        builder: SpanBuilder,
        parent: &Context,
    ) -> Result<SdkSpan, AllocError>
        ensures { IfOk result (spec.TracerStarts S.answer G.random G.may_trace G.may_span
            C.may_show C.is_counted (of_config self.now scope.now)
            (builder_of builder) parent.now) }
    {
        match new_ids(&self.id_generator, parent_of(parent)) {
            Ok(ids) => self.start_with_ids(alloc, scope, builder, parent, ids),
            Err(_) => {
                C::count_failed(&self.failed_ids);
                without_ids(parent_of(parent))
            }
        }
    }
}
