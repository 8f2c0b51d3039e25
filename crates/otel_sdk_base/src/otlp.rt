//! Where telemetry is sent by OTLP, as environment variables say it.

use otel_base::StringValue;

/// The address of a collector.
#[derive(Debug, Drop)]
pub enum EnvEndpoint {
    /// The address of all signals, to whose path `/v1/traces` or `/v1/logs` is joined.
    Base(StringValue),
    /// The address of one signal, which is taken as it is.
    Exact(StringValue),
}

/// Where a signal is sent by OTLP, as the variables say it. `EnvConfig::from_vars` of `otel_sdk`
/// reads it.
#[derive(Debug, Drop)]
pub struct EnvOtlp {
    /// The address of the collector.
    pub endpoint: EnvEndpoint,
    /// The headers to add, a list `NAME=VALUE,..` whose names are tokens (RFC 9110, section 5.6.2).
    pub headers: StringValue,
}
