//! Reads lines of traces.
ghost use Rattle.std.specs.Prelude.{List, IfOk, IfErr, map};
ghost use Rattle.otel_sdk_span.specs.SpanData.{SpanRecord};
ghost use Rattle.otel_otlp.specs.ReadGroups.{ResourceItems};
ghost use Rattle.otel_otlp.specs.ReadErrors.{NamesLine, IsRefusal};
ghost use Rattle.otel_otlp.specs.ReadTraces as spec;
ghost use Rattle.otel_otlp.specs.ReadView.{spans_of};

use crate::read::error::{Fault, ReadError};
use crate::read::groups::{Group, items_of, joined};
use crate::read::lines::groups_in_line;
use crate::read::members::check_object;
use crate::read::messages::Message;
use crate::read::resources::resource_in;
use otel_sdk_base::resource::Resource;
use otel_sdk_span::SpanData;
use serde_json::Value;
use std::alloc::Global;

/// The spans of a resource (the protocol's `ResourceSpans`).
///
/// See [`read_resource_spans`].
#[derive(Debug, Drop)]
pub struct ResourceSpans {
    /// The entity that the spans describe.
    pub resource: Resource,
    /// The spans, in the order of the line.
    pub spans: Vec<SpanData>,
}

impl Group<SpanData> for ResourceSpans {
    ghost held = { λ group. group.spans.items };

    fn into_items(self) -> Vec<SpanData> {
        self.spans
    }
}

impl Message for ResourceSpans {
    ghost use Rattle.otel_sdk_span.specs.SpanData.{SpanRecord};
    ghost use Rattle.otel_otlp.specs.ReadGroups.{ResourceItems, IsResourceGroup};
    ghost use Rattle.otel_otlp.specs.ReadTraces.{IsSpan};
    ghost use Rattle.otel_otlp.specs.ReadView.{spans_of};
    ghost use Rattle.otel_otlp.specs.Traces.{form};

    ghost Seen = { ResourceItems SpanRecord };

    ghost seen = { spans_of };

    ghost says = { IsResourceGroup form IsSpan };

    fn read(alloc: Global, value: &Value) -> Result<ResourceSpans, Fault> {
        check_object(alloc, value)?;
        let resource = resource_in(alloc, value)?;
        let spans = items_of::<SpanData>(alloc, value)?;
        Ok(ResourceSpans { resource, spans })
    }
}

/// Reads the spans of a line of OTLP's JSON, whoever wrote it, with the resource that they describe
/// (OpenTelemetry protocol, "JSON Protobuf Encoding"). Resources and spans are in the order of the
/// line; a resource that the line names twice is there twice.
///
/// Unknown members are ignored. A member that is absent or null has the protocol's default, but a
/// span and a link need both ids. Ids are hexadecimal digits of either case, numbers of 64 bits are
/// numbers or decimal texts, and kinds and codes are numbers or names. An unspecified kind is read
/// as an internal one. Of a resource's attributes with the same key, the last value is read.
///
/// Attributes have no floats, bytes and maps: such a value is read as its text, if it is a JSON
/// text, and otherwise as its JSON. An array whose items aren't all booleans or all integers is
/// read as an array of such texts, and an empty value as the empty text.
///
/// A line may have at most 127 lists and objects within each other. The memory is in proportion to
/// the line.
///
/// # Errors
///
/// `Json` if the line isn't JSON; `Unexpected` with the place of a value that isn't allowed there;
/// `Memory` if out of memory.
pub fn read_resource_spans(alloc: Global, line: &str) -> Result<Vec<ResourceSpans>, ReadError>
    ensures read { IfOk result (λ read.
        spec.AreGroupsReadFrom line.now (map spans_of read.items)) }
    ensures refused { IfErr result (λ e. IsRefusal e
        → (gs : List (ResourceItems SpanRecord)) → ¬ spec.AreGroupsReadFrom line.now gs) }
    ensures line { IfErr result (NamesLine line.now) }
{
    groups_in_line::<ResourceSpans>(alloc, line, "resourceSpans")
}

/// Reads the spans of a line as [`read_resource_spans`] does, in order, without their resources.
///
/// # Errors
///
/// As of [`read_resource_spans`].
pub fn read_traces(alloc: Global, line: &str) -> Result<Vec<SpanData>, ReadError>
    ensures read { IfOk result (λ read. spec.AreReadFrom line.now read.items) }
    ensures refused { IfErr result (λ e. IsRefusal e
        → (ss : List SpanRecord) → ¬ spec.AreReadFrom line.now ss) }
    ensures line { IfErr result (NamesLine line.now) }
{
    let groups = read_resource_spans(alloc, line)?;
    Ok(joined(alloc, groups)?)
}
