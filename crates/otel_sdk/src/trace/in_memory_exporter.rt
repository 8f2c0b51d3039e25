//! An exporter that keeps spans in memory.
ghost use Rattle.std.specs.Prelude.{◌≡◌, IfOk};
ghost use Rattle.otel_sdk_base.specs.Export.{items_of};

use otel_sdk_base::InMemoryExporter;
use otel_sdk_span::SpanData;
use std::alloc::AllocError;

/// Keeps copies of the spans that it accepts, for tests (the Rust crate's `InMemorySpanExporter`).
///
/// ```
/// let spans = processor.exporter().get_finished_spans()?;
/// assert_eq!(rt; spans.len(), 1);
/// assert_eq!(rt; spans[0].name.as_str(), "price");
/// ```
pub type InMemorySpanExporter = InMemoryExporter<SpanData>;

/// The method `get_finished_spans` of an [`InMemorySpanExporter`].
///
/// Implementors define the ghost function `finished`: the batches that the exporter keeps.
pub trait FinishedSpans {
    ghost use Rattle.std.specs.Prelude.{List};
    ghost use Rattle.otel_sdk_span.specs.SpanData.{SpanRecord};

    ghost finished: { Self → List (List SpanRecord) };

    /// Returns copies of the spans that the exporter keeps, in order.
    ///
    /// # Errors
    ///
    /// `AllocError` if out of memory. The exporter is unchanged.
    fn get_finished_spans(&self) -> Result<Vec<SpanData>, AllocError>
        ensures { IfOk result (λ spans. spans.items ≡ items_of (finished self.now)) };
}

impl FinishedSpans for InMemoryExporter<SpanData> {
    ghost finished = { λ e. e.accepted };

    fn get_finished_spans(&self) -> Result<Vec<SpanData>, AllocError> {
        self.get_items()
    }
}
