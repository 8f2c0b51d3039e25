//! The signals that are exported: spans and log records.
use crate::groups::Grouped;
use otel_sdk_logs::LogData;
use otel_sdk_span::SpanData;

/// An item that is sent to a collector.
///
/// The ghost members give the path of its requests, and the name of the member that has the number
/// of rejected items in a response.
pub trait Signal: Grouped {
    ghost use Rattle.std.specs.Prelude.{◌≡◌, ℕ, List};

    ghost target_path: { List ℕ };

    ghost rejected_member: { List ℕ };

    /// Returns the path of the requests.
    fn path() -> &'static str
        ensures { result.now ≡ target_path };

    /// Returns the name of the member with the number of rejected items.
    fn rejected_name() -> &'static str
        ensures { result.now ≡ rejected_member };
}

impl Signal for SpanData {
    ghost use Rattle.std.specs.Prelude.{codes};

    ghost target_path = { codes "/v1/traces" };

    ghost rejected_member = { codes "rejectedSpans" };

    fn path() -> &'static str {
        "/v1/traces"
    }

    fn rejected_name() -> &'static str {
        "rejectedSpans"
    }
}

impl Signal for LogData {
    ghost use Rattle.std.specs.Prelude.{codes};

    ghost target_path = { codes "/v1/logs" };

    ghost rejected_member = { codes "rejectedLogRecords" };

    fn path() -> &'static str {
        "/v1/logs"
    }

    fn rejected_name() -> &'static str {
        "rejectedLogRecords"
    }
}
