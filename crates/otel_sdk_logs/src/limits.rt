//! Limits on the attributes of a log record.
ghost use Rattle.std.specs.Prelude.{◌≡◌};
ghost use Rattle.otel_sdk_logs.specs.Attributes as spec;

/// Limits on the attributes of a log record. Attributes beyond the limit are dropped and counted,
/// so the first ones stay. The Rust crate has no such limits.
///
/// ```
/// let limits = LogRecordLimits {
///     max_attributes_per_record: 1,
///     ..LogRecordLimits::default()
/// };
/// ```
///
/// Counts stop at the greatest `u32`. See OpenTelemetry logs SDK, "LogRecord Limits".
#[derive(Clone, Copy, Debug)]
pub struct LogRecordLimits {
    /// The maximum number of attributes per record.
    pub max_attributes_per_record: u32,
    /// The maximum length of an attribute's texts, in characters, and of its lists of bytes, also
    /// within lists and maps. Longer ones are truncated, and not counted.
    pub max_attribute_length: Option<u32>,
}

impl Default for LogRecordLimits {
    ghost is_default = { λ l. l ≡ spec.default_limits };

    /// Returns 128 attributes, and no limit on the length of texts.
    fn default() -> LogRecordLimits {
        LogRecordLimits {
            max_attributes_per_record: 128,
            max_attribute_length: None,
        }
    }
}
