//! The messages that traces and logs share: resources, instrumentation scopes, ids.
ghost use Rattle.std.specs.Prelude.{◌≡◌, ◌∷◌, [], map, option_map};
ghost use Rattle.otel_base.specs.View.{attribute_of};
ghost use Rattle.otel_proto.specs.Output.{Puts};
ghost use Rattle.otel_proto.specs.Written.{message};
ghost use Rattle.otel_proto_batches.specs.Common as spec;

use opentelemetry::trace::{SpanId, TraceId};
use opentelemetry::{InstrumentationScope, KeyValue};
use otel_proto::{Output, put_attributes, put_bytes, put_head, put_text_unless_empty};
use otel_sdk_base::resource::Resource;
use std::alloc::AllocError;

/// Puts a string, unless there is none or it is empty.
pub(crate) fn put_text_if_given(
    out: &mut Output,
    number: u32,
    text: Option<&str>,
) -> Result<(), AllocError>
    ensures { Puts result out.old out.new
        (spec.text_if_given number (option_map (λ t. t.now) text.entry)) }
{
    match text {
        Some(text) => put_text_unless_empty(out, number, text),
        None => Ok(()),
    }
}

/// Puts the id of a trace.
pub(crate) fn put_trace_id(out: &mut Output, number: u32, id: TraceId) -> Result<(), AllocError>
    ensures { Puts result out.old out.new (spec.trace_id number id ∷ []) }
{
    put_bytes(out, number, &id.to_bytes())
}

/// Puts the id of a span.
pub(crate) fn put_span_id(out: &mut Output, number: u32, id: SpanId) -> Result<(), AllocError>
    ensures { Puts result out.old out.new (spec.span_id number id ∷ []) }
{
    put_bytes(out, number, &id.to_bytes())
}

/// Puts the message of a resource (the protocol's `Resource`).
pub(crate) fn put_resource(out: &mut Output, resource: &Resource) -> Result<(), AllocError>
    ensures { Puts result out.old out.new (message 1 (spec.resource resource.now) ∷ []) }
{
    let end = out.count();
    put_attributes(out, 1, resource.attributes().as_slice())?;
    put_head(out, 1, end)
}

/// Puts the message of an instrumentation scope (the protocol's `InstrumentationScope`) that has
/// these attributes, each key once.
pub(crate) fn put_scope(
    out: &mut Output,
    scope: &InstrumentationScope,
    attributes: &[KeyValue],
) -> Result<(), AllocError>
    ensures { Puts result out.old out.new
        (message 1 (spec.scope_with scope.now (map attribute_of attributes.now)) ∷ []) }
{
    let end = out.count();
    put_attributes(out, 3, attributes)?;
    put_text_if_given(out, 2, scope.version())?;
    put_text_unless_empty(out, 1, scope.name())?;
    put_head(out, 1, end)
}
