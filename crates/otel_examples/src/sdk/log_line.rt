//! A line of the crate `log` for a logger, with the ids of the active span.
ghost use Rattle.std.specs.Prelude.{◌≡◌, [], is_some, None, IfOk, IfSome, codes};
ghost use Rattle.otel_base.specs.declared.severity.Severity.TheVariants.{Warn};
ghost use Rattle.otel_context.specs.Context.{span_context};
ghost use Rattle.otel_examples.specs.LogLine.{IsLine};

use log::{Level, Metadata, Record};
use opentelemetry::Context;
use opentelemetry::logs::Logger;
use otel_appender_log::{SourceLocation, bridged_record};
use std::alloc::{AllocError, Global};

/// Returns the logger's record of the warning `no price`, or `None` if the logger doesn't want the
/// warning.
///
/// # Errors
///
/// `AllocError` if out of memory.
pub fn no_price<L: Logger>(
    alloc: Global,
    logger: &L,
    context: &Context,
) -> Result<Option<L::LogRecord>, AllocError>
    ensures asked { IfOk result (λ made.
        L.may_enable logger.now Warn (codes "cart") None (is_some made)) }
    ensures line { IfOk result (λ made. IfSome made (IsLine (L.may_create logger.now)
        L.LogRecord.LogRecord (codes "no price") (codes "cart") (span_context context.now))) }
{
    let metadata = Metadata::new(Level::Warn, "cart");
    let line = Record::new(metadata, "no price", (), ());
    bridged_record(
        alloc,
        logger,
        &line,
        &SourceLocation::UNKNOWN,
        context.span_context(),
    )
}
