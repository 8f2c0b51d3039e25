//! Exporters, which send ended spans out of the program.
use crate::data::SpanData;
use otel_sdk_base::Exporter;

/// Sends ended spans out of the program, in batches (the Rust crate's `SpanExporter`): any
/// [`Exporter`] of spans.
///
/// For tests, `otel_sdk` has `InMemorySpanExporter`.
pub trait SpanExporter: Exporter<SpanData> {}

impl<E: Exporter<SpanData>> SpanExporter for E {}
