//! Reads a trace state, changes it and prints it.
ghost use Rattle.std.specs.Prelude.{IfOk, string_bytes};
ghost use Rattle.otel_examples.specs.TraceState.{PutsOwnFirst};

use opentelemetry::trace::{TraceState, TraceStateError};
use std::alloc::Global;

/// Returns the value of a `tracestate` header, with the entry `acme` and this value in front.
///
/// # Errors
///
/// The errors of [`TraceState::from_str`] for the header, and of [`TraceState::insert`] for the
/// value.
pub fn with_own_entry(alloc: Global, received: &str, value: &str) -> Result<String, TraceStateError>
    ensures { IfOk result (λ sent. PutsOwnFirst received.now value.now (string_bytes sent)) }
{
    let state = TraceState::from_str(alloc, received)?;
    let state = state.insert(alloc, "acme", value)?;
    Ok(state.header(alloc)?)
}
