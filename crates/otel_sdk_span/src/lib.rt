//! Spans that record within limits, their recorded data, and exporters of ended spans.
//! `otel_sdk` re-exports all of it.
#![tactic(auto)]

mod copies;
mod data;
mod export;
mod limits;
mod span;

pub use data::{SpanData, SpanEvents, SpanLinks};
pub use export::SpanExporter;
pub use limits::SpanLimits;
pub use span::SdkSpan;
