//! Spans as they are drawn.
use otel_ids::{SpanId, TraceId};

/// The text that a span's row shows for its status.
#[derive(Clone, Copy, Debug)]
pub(crate) enum Outcome {
    /// Nothing.
    Unset,
    /// `ok`.
    Ok,
    /// `error`.
    Error,
}

/// A span as it is drawn. Moments are in nanoseconds since 1970-01-01T00:00:00Z.
#[derive(Debug, Drop)]
pub(crate) struct Span {
    /// The id of its trace.
    pub trace_id: TraceId,
    /// Its own id.
    pub span_id: SpanId,
    /// The id of its parent, [`SpanId::INVALID`] for a root.
    pub parent_span_id: SpanId,
    /// Whether the parent is in another process.
    pub is_parent_remote: bool,
    /// The characters that show its name, as [`crate::name::shown_name`] returns them.
    pub name: Vec<char>,
    /// When it started.
    pub start: u64,
    /// When it ended. It may be before the start.
    pub end: u64,
    /// The moments of its events.
    pub moments: Vec<u64>,
    /// Its status.
    pub outcome: Outcome,
}
