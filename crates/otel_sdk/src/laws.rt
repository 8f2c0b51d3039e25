//! Laws about the crate's types, each the contract of a function that does nothing.
ghost use Rattle.otel_sdk.specs.EnvConfig.{GiveOneConfig};
ghost use Rattle.otel_sdk.specs.LossLaws.{SpansAreCounted};
ghost use Rattle.otel_sdk.specs.Parents.{TracersStartChildren};

use crate::trace::{IdGenerator, SpanExporter, TracerCalls};

/// States which ids a span of a provider's tracers inherits from its parent, for a generator `G` of
/// ids and a clock `C`. Not in the Rust crate.
pub fn tracer_children<G: IdGenerator, C: TracerCalls>()
    // A span that records has its parent's trace id, and its parent's span id as the parent id.
    ensures { TracersStartChildren G.may_trace G.may_span C.may_show C.is_counted C.is_read }
{}

/// States that each sampled span that ended at a [`BatchSpanProcessor`](crate::trace::BatchSpanProcessor)
/// has arrived at its exporter's receiver, or is counted by
/// [`losses`](crate::trace::SpanProcessor::losses), for one cause.
///
/// The exporter has to count those of its spans that haven't arrived, as
/// `otel_otlp::laws::records_are_counted` states of one.
pub fn spans_are_counted<E: SpanExporter>()
    ensures { SpansAreCounted E.accepted E.calls }
{}

/// States that the same variables of the environment give the same configuration. Not in the Rust
/// crate.
pub fn variables_give_one_configuration()
    // No text of an endpoint has two faults.
    ensures { GiveOneConfig }
{}
