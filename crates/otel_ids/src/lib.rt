//! Ids, flags, trace states and span contexts: the data that the headers of a distributed trace
//! carry (W3C trace-context-2).
#![tactic(auto)]

mod digits;
mod error;
mod from_pairs;
pub mod laws;
mod list_member;
mod pairs;
mod reading;
mod span_context;
mod span_id;
mod trace_flags;
mod trace_id;
mod trace_state;

pub use error::TraceStateError;
pub use pairs::TraceStateIter;
pub use span_context::SpanContext;
pub use span_id::SpanId;
pub use trace_flags::TraceFlags;
pub use trace_id::TraceId;
pub use trace_state::TraceState;
