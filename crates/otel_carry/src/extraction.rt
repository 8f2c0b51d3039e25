//! The output for an extraction.
ghost use Rattle.std.specs.Prelude.{◌≡◌, Some};
ghost use Rattle.otel_carry.specs.Extracted.{shown, shown_of_context, status_of, text_of};

use opentelemetry::propagation::PropagationError;
use opentelemetry::{Context, SpanId, TraceId};
use std::fmt;

/// The output for an extraction. Print it with `Display`.
#[derive(Clone, Copy, Debug, PartialEq, Eq)]
pub enum Extracted {
    /// The context has an active span, with this trace id and this span id.
    Span(TraceId, SpanId),
    /// The context has no active span.
    NoSpan,
    /// A member refused.
    Refused,
    /// Out of memory.
    NoMemory,
}

impl Extracted {
    /// Returns the output for the result of an extraction.
    pub fn of(extraction: &Result<Context, PropagationError>) -> Extracted
        ensures { result ≡ shown extraction.now }
    {
        match extraction {
            Ok(context) => of_context(context),
            Err(PropagationError::Refused) => Extracted::Refused,
            Err(PropagationError::Memory(_)) => Extracted::NoMemory,
        }
    }

    /// Returns the exit status of the program: 0 if there is a context, otherwise 1.
    pub fn status(self) -> u8
        ensures { result ≡ status_of self }
    {
        match self {
            Extracted::Span(_, _) | Extracted::NoSpan => 0,
            Extracted::Refused | Extracted::NoMemory => 1,
        }
    }
}

impl fmt::Display for Extracted {
    ghost output = { λ extracted. Some (text_of extracted) };

    fn fmt<W: fmt::Write>(&self, f: &mut fmt::Formatter<W>) -> fmt::Result {
        match self {
            Extracted::Span(trace_id, span_id) => write!(f, "{trace_id} {span_id}"),
            Extracted::NoSpan => f.write_str("none"),
            Extracted::Refused => f.write_str("refused"),
            Extracted::NoMemory => f.write_str("no memory"),
        }
    }
}

/// Returns the output for a context.
fn of_context(context: &Context) -> Extracted
    ensures { result ≡ shown_of_context context.now }
{
    if !context.has_active_span() {
        return Extracted::NoSpan;
    }
    let span = context.span_context();
    Extracted::Span(span.trace_id(), span.span_id())
}
