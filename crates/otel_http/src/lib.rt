//! HTTP headers as carriers: a context is extracted from the headers of a received request and
//! injected into the headers of a request to send (the Rust crate `opentelemetry-http`).
#![tactic(auto)]

mod extractor;
mod injector;
mod lines;
pub mod there_and_back;
mod value;

pub use extractor::HeaderExtractor;
pub use injector::HeaderInjector;
pub use lines::add_header_line;
