//! Laws of the headers. Each function does nothing: its contract is the law. Not in the Rust crate.
ghost use Rattle.otel_propagators.specs.BaggageReading.{BaggageReads, ReadsBaggage};
ghost use Rattle.otel_propagators.specs.B3Laws.{MultiComesBack, NoSpanIsSent, SingleComesBack};
ghost use Rattle.otel_propagators.specs.Laws.{ComesBackInTurn, ComesBackTogether, CompositeSets};
ghost use Rattle.otel_propagators.specs.Laws.{ComesBackByW3c, IsContext};
ghost use Rattle.otel_propagators.specs.TraceParent.{OneParent, ParentLength, ParentReads};
ghost use Rattle.otel_propagators.specs.TraceParent.{ParentsAgree};

use otel_context::Context;

/// States that a context that both propagators inject into a carrier is restored if both extract it
/// again. A valid span context is restored as a remote one, with the same ids, flags and trace
/// state, except blanks at the ends of the trace state's values. The members of the baggage are
/// restored if no metadata contains a comma. If the span context isn't valid and the carrier had no
/// `traceparent`, the context that is extracted into keeps its span. Nothing else of that context
/// changes.
///
/// A law ranges over all records, so it requires `IsContext`. Every context meets that, by
/// [`every_context`].
pub fn headers_there_and_back()
    // One propagator injects after the other, in either order.
    ensures in_turn { ComesBackInTurn }
    // The three keys have the values that both set; other keys may have any.
    ensures together { ComesBackTogether }
    // A composite of both, possibly with members of other keys, sets the three keys so.
    ensures composite { CompositeSets }
    // One `W3cPropagator` injects, and one extracts.
    ensures w3c { ComesBackByW3c }
{}

/// States the properties of every context: its span context has ids of 128 and of 64 bits, flags of
/// 8 bits and a trace state, and its members form a baggage. Doesn't allocate.
pub fn every_context(context: &Context)
    ensures { IsContext context.now }
{
    let span_context = context.span_context();
    let _ = span_context.trace_id().to_bytes();
    let _ = span_context.span_id().to_bytes();
    let _ = span_context.trace_flags().to_u8();
    let _ = span_context.trace_state().iter();
    if let Some(baggage) = context.baggage() {
        let _ = baggage.len();
    }
}

/// States how the text of a `traceparent` is read.
pub fn traceparent_reading()
    // The text of ids and flags is read as the same ids and flags.
    ensures reads { ParentReads }
    // A text is read as at most one trace id, span id and flags.
    ensures one { OneParent }
    // `parent_of` returns exactly this trace id, span id and flags.
    ensures function { ParentsAgree }
    // Each text of ids and flags has 55 bytes.
    ensures length { ParentLength }
{}

/// States how the text of a `baggage` is read.
pub fn baggage_reading()
    // The header of a baggage is read as that baggage, if no metadata contains a comma.
    ensures reads { BaggageReads }
    // Whatever is read from a text is a baggage.
    ensures limits { ReadsBaggage }
{}

/// States that a context with a valid span context that is injected as B3, in either form, is
/// restored if it is extracted again, into any context: a remote span context with the same ids and
/// the same flag `sampled`, and the same debug flag, which sets `sampled` too. A deferred decision
/// stays deferred. Other flags and the trace state are lost. The propagator may be a member of a
/// composite, beside members with other keys.
pub fn b3_there_and_back()
    // The header `b3` is read whatever the carrier had.
    ensures single { SingleComesBack }
    // An older `b3` or `x-b3-flags` of the carrier would count instead, and an older `x-b3-sampled`
    // if the decision is deferred.
    ensures multi { MultiComesBack }
    // Without a valid span context nothing is set.
    ensures no_span { NoSpanIsSent }
{}
