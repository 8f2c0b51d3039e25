//! The sink that sends records of the crate `log` to a logger.
ghost use Rattle.std.specs.Prelude.{◌≡◌, true, false, [], Some, is_some};
ghost use Rattle.std.specs.Prelude.{IfOk, IsNone, IsOkAnd, IsTrue, OnErr};
ghost use Rattle.otel_context.specs.Context.{is_telemetry_suppressed};
ghost use Rattle.otel_appender_log.specs.Bridge.{IfMade, IsBridgedBy, IsLoggedBy};
ghost use Rattle.otel_appender_log.specs.Bridge.{MayEnable, MayEnableFor};
ghost use Rattle.otel_appender_log.specs.Location.{nowhere};

use crate::attributes::SourceLocation;
use crate::calls::{EmittingLogger, StampedRecord};
use crate::record::bridged_record;
use crate::severity::severity_of_level;
use log::kv::Source;
use log::span::Spans;
use log::{Log, Metadata, Record};
use opentelemetry::Context;
use opentelemetry::logs::Logger;
use std::alloc::{AllocError, Global};
use std::cell::Cell;
use std::fmt::Display;

/// Sends the records of the crate `log` to a logger (the Rust crate's `OpenTelemetryLogBridge`).
///
/// In the Rust crate, the bridge is itself a sink, and its logger reads the thread's context. Here,
/// a sink is made for a context: see [`OpenTelemetryLogBridge::sink`].
///
/// ```
/// let bridge = OpenTelemetryLogBridge::new(alloc, logger);
/// let rt = Logged::new(rt, Level::Info, bridge.sink(&context));
/// ```
pub struct OpenTelemetryLogBridge<L> {
    /// The logger that gets the records.
    pub logger: L,
    alloc: Global,
    dropped: Cell<u64>,
}

// Written out, so that a caller's proof has one call here, and not the drops of all parts.
impl<L: Drop> Drop for OpenTelemetryLogBridge<L> {
    fn drop(self) {
        let OpenTelemetryLogBridge {
            logger: _,
            alloc: _,
            dropped: _,
        } = self;
    }
}

impl<L: Logger> OpenTelemetryLogBridge<L> {
    /// Returns a bridge to the logger. Doesn't allocate.
    pub fn new(alloc: Global, logger: L) -> OpenTelemetryLogBridge<L>
        ensures { result.logger ≡ logger }
    {
        OpenTelemetryLogBridge {
            logger,
            alloc,
            dropped: Cell::new(0),
        }
    }

    /// Returns a sink whose records refer to the active span of the context. Doesn't allocate.
    pub fn sink<'a>(&'a self, context: &'a Context) -> BridgeSink<'a, L>
        ensures bridge { result.bridge.now ≡ self.now }
        ensures context { result.context.now ≡ context.now }
        ensures location { result.location ≡ nowhere }
    {
        BridgeSink {
            bridge: self,
            context,
            location: SourceLocation::UNKNOWN,
        }
    }

    /// Returns the number of records that were dropped because the program was out of memory.
    pub fn dropped_records(&self) -> u64 {
        self.dropped.get()
    }

    /// Returns the logger.
    pub fn into_logger(self) -> L
        ensures { result ≡ self.logger }
    {
        let OpenTelemetryLogBridge {
            logger,
            alloc: _,
            dropped: _,
        } = self;
        logger
    }
}

/// A sink of the crate `log` that sends each record to the logger of a bridge.
///
/// See [`OpenTelemetryLogBridge::sink`].
#[derive(Drop)]
pub struct BridgeSink<'a, L> {
    /// The bridge to the logger.
    pub bridge: &'a OpenTelemetryLogBridge<L>,
    /// The context to whose active span the records refer.
    pub context: &'a Context,
    /// The source location of the records, as far as it is known.
    pub location: SourceLocation<'a>,
}

impl<L: Logger> BridgeSink<'_, L>
where
    L::LogRecord: StampedRecord,
{
    /// Returns the log record that [`Log::log`] emits for the record: the one of
    /// [`bridged_record`], with the active span of the context. Returns `None` if telemetry is
    /// suppressed in the context, or if the logger doesn't accept records with this severity and
    /// target.
    ///
    /// # Errors
    ///
    /// The errors of [`bridged_record`].
    fn bridged<D: Display, K: Source, S>(
        &self,
        record: &Record<'_, D, K, S>,
    ) -> Result<Option<L::LogRecord>, AllocError>
        ensures suppressed { IsTrue (is_telemetry_suppressed self.now.context.now)
            → IsOkAnd result (λ made. IsNone made) }
        ensures asked { is_telemetry_suppressed self.now.context.now ≡ false → IfOk result (λ made.
            MayEnable (L.may_enable self.now.bridge.now.logger) «record».now (is_some made)) }
        ensures err { OnErr result
            (MayEnable (L.may_enable self.now.bridge.now.logger) «record».now true) }
        ensures bridged { IfMade result (IsBridgedBy L.may_create L.LogRecord.LogRecord
            L.LogRecord.StampedRecord.stamps D.output K.pairs self.now «record».now) }
    {
        if self.context.is_telemetry_suppressed() {
            return Ok(None);
        }
        let logger = &self.bridge.logger;
        let span = self.context.span_context();
        bridged_record(self.bridge.alloc, logger, record, &self.location, span)
    }
}

impl<L: Logger> Log for BridgeSink<'_, L>
where
    L: EmittingLogger,
    L::LogRecord: StampedRecord,
{
    ghost target_of = { λ _. Some [] };

    /// Returns `true` if the logger accepts records with this severity and target. Returns `false`
    /// if telemetry is suppressed in the context.
    fn enabled(&self, metadata: &Metadata<'_>) -> bool
        ensures suppressed { IsTrue (is_telemetry_suppressed self.now.context.now)
            → result ≡ false }
        ensures asked { is_telemetry_suppressed self.now.context.now ≡ false
            → MayEnableFor (L.Logger.may_enable self.now.bridge.now.logger) metadata.now result }
    {
        let severity = severity_of_level(metadata.level());
        !self.context.is_telemetry_suppressed()
            && self
                .bridge
                .logger
                .event_enabled(severity, metadata.target(), None)
    }

    /// Emits the log record of [`bridged_record`], with the active span of the context. Counts it
    /// as dropped if out of memory. Does nothing if telemetry is suppressed in the context.
    fn log<D: Display, K: Source, S: Spans>(&self, record: &Record<'_, D, K, S>)
        ensures { IsLoggedBy L.Logger L.EmittingLogger.emits L.EmittingLogger.counts
            L.LogRecord.LogRecord L.LogRecord.StampedRecord.stamps D.output K.pairs
            self.now «record».now }
    {
        match self.bridged(record) {
            Ok(Some(made)) => self.bridge.logger.emit_record(made),
            Ok(None) => {}
            Err(_) => L::count_dropped(&self.bridge.dropped),
        }
    }

    /// Does nothing. The owner of the provider flushes it.
    fn flush(&self) {}

    /// Returns the empty text: a sink has no target of its own.
    fn target(&self) -> &str {
        ""
    }
}
