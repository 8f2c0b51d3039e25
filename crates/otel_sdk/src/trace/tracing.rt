//! The SDK's value that traces, and what it does besides: it exports.
ghost use Rattle.std.specs.Prelude.{◌≡◌, [], length, IfOk, OnOk, true};
ghost use Rattle.otel_sdk.specs.Exports.{Flushes, ShutsDown};

mod builder;
mod env;
mod last_export;
mod schedule;

use crate::trace::processor::SpanProcessor;
use crate::trace::source::{Flush, SdkSource, Shutdown};
use crate::trace::tracer::Pipeline;
pub use builder::{Build, StandardPipeline, TracingBuilder, WithExporter, WithProcessor};
pub use last_export::{Unfinished, finish};
use opentelemetry::trace::{LocalTracing, SpanSource, Tracing};
use otel_sdk_base::error::{OTelSdkError, OTelSdkResult};
pub use schedule::ExportSchedule;

/// The SDK's value that traces: a [`LocalTracing`] whose spans a pipeline starts, and whose ended
/// spans go to processors. Not in the Rust crate.
///
/// [`TracingBuilder`] makes one, and [`Exports`] has its calls besides the ones of [`Tracing`].
pub type SdkTracing<P, X> = LocalTracing<SdkSource<P, X>>;

/// Traces, and exports: a [`Tracing`] whose ended spans go to processors. Not in the Rust crate,
/// whose provider exports.
///
/// Nothing is exported in the background: a program flushes, a service by an [`ExportSchedule`],
/// and shuts down at its end. Besides, a span that comes to a full queue flushes it.
///
/// ```
/// fn serve(tracing: &mut impl Exports) -> Result<(), OTelSdkError> {
///     let serve = tracing.enter("serve")?;
///     tracing.exit(serve);
///     tracing.shutdown()?;
///     Ok(())
/// }
/// ```
///
/// Contracts see its processors, and the data of the spans that ended, through the ghost members
/// `processors_of` and `ended_of` of its source.
pub trait Exports: Tracing {
    ghost use Rattle.std.specs.Prelude.{List};
    ghost use Rattle.otel_sdk_span.specs.SpanData.{SpanRecord};

    /// Gets the spans that end.
    type Processors: SpanProcessor;

    ghost processors_of: { Self.Source → Self.Processors };

    ghost ended_of: { Self.Source → List SpanRecord };

    /// Returns the processors.
    fn processors(&self) -> &Self::Processors
        ensures { result.now ≡ processors_of (Self.Tracing.held self.now).source };

    /// States that the processors account for the data of every span that ended. Does nothing at
    /// run time.
    fn accounts(&self)
        ensures { Self.Processors.calls.AccountsFor
            (processors_of (Self.Tracing.held self.now).source)
            (ended_of (Self.Tracing.held self.now).source) };

    /// Exports every span that has ended, in batches, in the order of their ends, and flushes the
    /// exporters. Open spans stay open.
    ///
    /// # Errors
    ///
    /// `AlreadyShutdown` after [`Exports::shutdown`] if there is an exporter, or the first error of
    /// one. Each span that an exporter didn't accept is kept, in order, for its next try. The other
    /// exporters were flushed as well.
    fn flush(&mut self) -> OTelSdkResult
        ensures flushes { Flushes Self.Source.calls Self.Processors.calls processors_of
            result (Self.Tracing.held self.old) (Self.Tracing.held self.new) }
        ensures exported { OnOk result (Self.Processors.calls.IsEmpty
            (processors_of (Self.Tracing.held self.new).source)) };

    /// Ends every open span, the newest first, exports every span as [`Exports::flush`] does, and
    /// shuts the exporters down. Returns the number of spans that were open.
    ///
    /// # Errors
    ///
    /// As [`Exports::flush`]. The open spans have ended. An exporter that refused spans isn't shut
    /// down: try again.
    fn shutdown(&mut self) -> Result<usize, OTelSdkError>
        ensures shuts_down { ShutsDown Self.Source.calls Self.Processors.calls processors_of
            Self.Source.Span.after_end result
            (Self.Tracing.held self.old) (Self.Tracing.held self.new) }
        ensures none_open { (Self.Tracing.held self.new).places ≡ [] }
        ensures closed { OnOk result (Self.Processors.calls.is_shut_down
            (processors_of (Self.Tracing.held self.new).source) ≡ true) };
}

impl<P: Pipeline, X: SpanProcessor> Exports for LocalTracing<SdkSource<P, X>> {
    ghost use Rattle.otel_sdk.specs.Processor.{data_of};

    type Processors = X;

    ghost processors_of = { λ source. source.processors };

    ghost ended_of = { λ source. data_of source.taken };

    fn processors(&self) -> &X {
        self.source().processors()
    }

    fn accounts(&self) {
        self.source().accounts();
    }

    fn flush(&mut self) -> OTelSdkResult {
        self.upkeep(Flush)
    }

    fn shutdown(&mut self) -> Result<usize, OTelSdkError> {
        let count = self.end_all();
        self.upkeep(Shutdown)?;
        Ok(count)
    }
}
