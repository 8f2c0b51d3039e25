//! The stable semantic conventions of OpenTelemetry: names on which instrumentation and backends
//! agree ([specification](https://opentelemetry.io/docs/specs/semconv/)).
#![tactic(auto)]

pub mod attribute;
