//! The severities of levels.
ghost use Rattle.std.specs.Prelude.{◌≡◌};
ghost use Rattle.otel_appender_log.specs.Severity.{severity_of};

use log::Level;
use opentelemetry::logs::Severity;

/// Returns the severity of a level: the first in the range with the level's name (the Rust crate's
/// `severity_of_level`).
pub fn severity_of_level(level: Level) -> Severity
    ensures { result ≡ severity_of level }
{
    match level {
        Level::Error => Severity::Error,
        Level::Warn => Severity::Warn,
        Level::Info => Severity::Info,
        Level::Debug => Severity::Debug,
        Level::Trace => Severity::Trace,
    }
}
