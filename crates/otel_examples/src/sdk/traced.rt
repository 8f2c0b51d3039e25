//! A span of the SDK, from its start to an exporter.
ghost use Rattle.std.specs.Prelude.{OnOk};
ghost use Rattle.otel_examples.specs.Traced.{IsTraced};

use opentelemetry::trace::{Span, Tracer};
use opentelemetry::{Context, Key, KeyValue, StringValue, Value};
use otel_sdk::error::OTelSdkResult;
use otel_sdk::trace::{Exports, Pipeline, SdkTracer, SpanProcessor};
use std::alloc::{AllocError, Global};

/// Starts a span named `price` under the parent, sets the item as an attribute, ends the span at
/// `end`, and hands it to the processor.
///
/// # Errors
///
/// `AllocError` if out of memory. The processor is told of no span.
pub fn price<P: Pipeline, Q: SpanProcessor>(
    alloc: Global,
    tracer: &SdkTracer<P>,
    processor: &mut Q,
    parent: &Context,
    item: i64,
    end: u64,
) -> Result<(), AllocError>
    ensures { OnOk result (IsTraced (P.may_start tracer.now) Q.calls parent.now item end
        processor.old processor.new) }
{
    let mut span = tracer.start_with_context(alloc, StringValue::from("price"), parent)?;
    span.set_attribute(alloc, KeyValue::new(Key::from("item"), Value::I64(item)))?;
    span.end_with_timestamp(end);
    if let Some(data) = span.into_data() {
        processor.on_end(data);
    }
    Ok(())
}

/// Exports the spans that have ended. Open spans stay open.
///
/// # Errors
///
/// The error of an exporter. The spans that it didn't accept stay, in order.
pub fn export<T: Exports>(tracing: &mut T) -> OTelSdkResult
    ensures { OnOk result (T.Processors.calls.IsEmpty
        (T.processors_of (T.Tracing.held tracing.new).source)) }
{
    tracing.flush()
}
