//! The traces of a page.
ghost use Rattle.std.specs.Prelude.{◌≡◌, IfNone, IfSome, IfOk, OnOk, nat_eq};
ghost use Rattle.indexmap.specs.IndexMap.{IsEmpty, get, insert_entry, values};
ghost use Rattle.otel_view.specs.Chosen as spec;

use crate::input::SpanTaker;
use indexmap::IndexMap;
use opentelemetry::StringValue;
use opentelemetry::trace::TraceId;
use otel_sdk_span::SpanData;
use otel_waterfall::{PageSpan, PageTrace};
use std::alloc::{AllocError, Global};

/// The traces that were chosen, in the order of the page.
#[derive(Drop)]
pub struct Chosen {
    traces: IndexMap<TraceId, PageTrace>,
}

impl Chosen {
    /// Returns no traces.
    pub fn new(alloc: Global) -> Chosen
        ensures { IsEmpty result.traces }
    {
        Chosen {
            traces: IndexMap::new(alloc),
        }
    }

    /// Adds a trace, without its spans, at the end of the page. A trace with this id is replaced.
    ///
    /// # Errors
    ///
    /// `AllocError` if out of memory.
    pub fn choose(&mut self, trace: PageTrace) -> Result<(), AllocError>
        ensures { OnOk result (self.new.traces.entries
            ≡ insert_entry nat_eq self.old.traces.entries trace.trace_id trace) }
    {
        self.traces.insert(trace.trace_id, trace)?;
        Ok(())
    }

    /// Adds the span to its trace, after its other spans. A span of a trace that wasn't chosen
    /// isn't kept.
    ///
    /// # Errors
    ///
    /// `AllocError` if out of memory.
    fn add(&mut self, id: TraceId, service: &StringValue, span: SpanData) -> Result<(), AllocError>
        ensures kept { OnOk result (IfSome (get nat_eq self.old.traces id)
            (spec.KeepsSpan id service.now span self.old.traces self.new.traces)) }
        ensures other { OnOk result (IfNone (get nat_eq self.old.traces id)
            (self.new.traces ≡ self.old.traces)) }
    {
        if let Some(trace) = self.traces.get_mut(&id) {
            let service = service.clone()?;
            trace.spans.push(PageSpan {
                service,
                data: span,
            })?;
        }
        Ok(())
    }

    /// Returns the traces, in the order in which they were chosen.
    ///
    /// # Errors
    ///
    /// `AllocError` if out of memory.
    pub fn into_traces(self, alloc: Global) -> Result<Vec<PageTrace>, AllocError>
        ensures { IfOk result (λ traces. traces.items ≡ values self.traces) }
    {
        self.traces.into_values().collect(alloc)
    }
}

impl SpanTaker for Chosen {
    fn take(&mut self, service: &StringValue, span: SpanData) -> Result<(), AllocError> {
        self.add(span.span_context.trace_id(), service, span)
    }
}
