//! Spans and loggers for tests, which keep everything that they are given, and their providers.

mod logger;
mod span;
mod tracer;
mod tracer_provider;

pub use logger::{RecordingLogger, RecordingLoggerProvider};
pub use span::{Effect, RecordingSpan};
pub use tracer::RecordingTracer;
pub use tracer_provider::{RecordingTracerProvider, ScopedTracer};
