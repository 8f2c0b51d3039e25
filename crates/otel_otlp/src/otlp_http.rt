//! Telemetry by OTLP over HTTP. No socket is opened here: a client of the caller carries the
//! requests.

mod backoff;
mod client;
mod clock_calls;
mod config;
mod exporter;
mod fate;
mod file_calls;
mod file_client;
mod key_calls;
mod link;
mod outbox;
mod part;
mod pause;
mod pipes;
mod reader_calls;
mod response;
mod signal;
mod status;
mod stream_client;
mod tally;

pub use crate::otlp_http::backoff::Backoff;
pub use crate::otlp_http::client::{HttpClient, HttpError};
pub use crate::otlp_http::clock_calls::ClockCalls;
pub use crate::otlp_http::config::{ConfigError, OtlpHttpConfig};
pub use crate::otlp_http::exporter::{OtlpHttpExporter, OtlpHttpLogExporter, OtlpHttpSpanExporter};
pub use crate::otlp_http::file_calls::FileCalls;
pub use crate::otlp_http::file_client::FileClient;
pub use crate::otlp_http::key_calls::KeyCalls;
pub use crate::otlp_http::pipes::{PipeError, PipeExporter, pipe_exporter};
pub use crate::otlp_http::reader_calls::ReaderCalls;
pub use crate::otlp_http::stream_client::StreamClient;
