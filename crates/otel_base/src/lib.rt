//! Texts, attributes, instrumentation scopes, value trees and severities of OpenTelemetry: the
//! plain data that contexts, spans and log records carry.
#![tactic(auto)]

mod any_value;
mod array;
mod blanks;
mod key;
mod key_value;
pub mod laws;
mod scope;
mod severity;
mod string_value;
mod text;
mod value;

pub use any_value::AnyValue;
pub use array::Array;
pub use blanks::cut_blanks;
pub use key::Key;
pub use key_value::KeyValue;
pub use scope::{InstrumentationScope, InstrumentationScopeBuilder};
pub use severity::Severity;
pub use string_value::StringValue;
pub use value::Value;
