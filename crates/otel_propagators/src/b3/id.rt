//! Reads the ids in the headers of B3.
ghost use Rattle.std.specs.Prelude.{◌≡◌, ◌==◌, ◌&&◌, ◌≤◌, ◌<◌, length};
ghost use Rattle.std.specs.Char.{is_ascii_hexdigit};
ghost use Rattle.std.specs.List.{list_all};
ghost use Rattle.otel_propagators.specs.B3.{id_in, span_id_in, trace_id_in};

use opentelemetry::trace::{SpanId, TraceId};

/// Returns `true` if all bytes are hexadecimal digits of either case.
fn are_digits(bytes: &[u8]) -> bool
    ensures { result ≡ list_all is_ascii_hexdigit bytes.now }
{
    bytes.iter().all(|byte| byte.is_ascii_hexdigit())
}

/// Returns `true` if the text is exactly this many digits.
fn is_number(text: &str, count: usize) -> bool
    ensures { result ≡ (length text.now == count && list_all is_ascii_hexdigit text.now) }
{
    text.len() == count && are_digits(text.as_bytes())
}

/// Reads a trace id of exactly this many digits.
fn trace_id_of(text: &str, count: usize) -> Option<TraceId>
    requires some { 0 < count }
    requires fits { count ≤ 32 }
    ensures { result ≡ id_in count text.now }
{
    if !is_number(text, count) {
        return None;
    }
    TraceId::from_hex(text).ok()
}

/// Reads a trace id of 32 digits, or of 16: then its high half is 0.
pub(crate) fn trace_id_in(text: &str) -> Option<TraceId>
    ensures { result ≡ trace_id_in text.now }
{
    match trace_id_of(text, 32) {
        Some(trace_id) => Some(trace_id),
        None => trace_id_of(text, 16),
    }
}

/// Reads a span id of 16 digits.
pub(crate) fn span_id_in(text: &str) -> Option<SpanId>
    ensures { result ≡ span_id_in text.now }
{
    if !is_number(text, 16) {
        return None;
    }
    SpanId::from_hex(text).ok()
}
