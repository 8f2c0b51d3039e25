//! The provider of the SDK's loggers.
ghost use Rattle.std.specs.Prelude.{◌≡◌, ◌⊎◌, true, false, IfOk, IsTrue, OnOk, Some, None};
ghost use Rattle.std.specs.Prelude.{is_ok, option_map};
ghost use Rattle.std.specs.Option.{option_map_or, unwrap_or};
ghost use Rattle.otel_sdk_base.specs.Resource.{merge, with_defaults};
ghost use Rattle.otel_sdk_logs.specs.Attributes.{default_limits};
ghost use Rattle.otel_sdk_logs.specs.Processor.{CountsDropped, IsProcessorsAnswer};

use crate::export::LogData;
use crate::intake::RecordIntake;
use crate::limits::LogRecordLimits;
use crate::logger::SdkLogger;
use crate::processor::LogProcessor;
use opentelemetry::logs::{LoggerProvider, Severity};
use opentelemetry::{InstrumentationScope, StringValue};
use otel_sdk_base::error::OTelSdkResult;
use otel_sdk_base::resource::Resource;
use otel_sdk_base::{Clock, SystemClock};
use std::alloc::{AllocError, Global};
use std::cell::{BorrowError, Cell, Ref, RefCell};
use std::marker::Model;
use std::rc::Rc;

/// The state that the loggers of a provider share.
#[derive(Drop)]
pub(crate) struct LoggerProviderInner<P, C> {
    pub alloc: Global,
    pub resource: Rc<Resource>,
    pub processor: RefCell<P>,
    pub clock: C,
    pub limits: LogRecordLimits,
    pub dropped_records: Cell<u64>,
    pub is_disabled: bool,
}

impl<P: RecordIntake, C> LoggerProviderInner<P, C> {
    /// Hands the record to the processor, or counts it if the processor is at work.
    pub(crate) fn hand_in(&self, given: LogData)
        ensures { P.is_taken given ⊎ P.is_counted }
    {
        match self.processor.try_borrow_mut() {
            Ok(mut processor) => processor.take(given),
            Err(error) => P::count_missed(&self.dropped_records, error),
        }
    }

    /// Returns `true` if the processor is open, wants such records, and isn't at work, and the
    /// provider isn't disabled.
    pub(crate) fn is_enabled(&self, level: Severity, target: &str, name: Option<&str>) -> bool
        ensures wanted { let asked = option_map (λ n. n.now) name.entry in
            result ≡ true → P.is_wanted level target.now asked }
        ensures unwanted { let asked = option_map (λ n. n.now) name.entry in
            self.now.is_disabled ≡ false → result ≡ false
            → P.is_unwanted level target.now asked ⊎ P.is_at_work }
        ensures disabled { IsTrue self.now.is_disabled → result ≡ false }
    {
        if self.is_disabled {
            return false;
        }
        match self.processor.try_borrow() {
            Ok(processor) => processor.wants(level, target, name),
            Err(error) => P::wants_none(error),
        }
    }

    /// Flushes the processor.
    fn force_flush(&self) -> OTelSdkResult
        ensures { IsProcessorsAnswer P.may_flush P.is_at_work result }
    {
        match self.processor.try_borrow_mut() {
            Ok(mut processor) => processor.flush(),
            Err(error) => Err(P::refusal(self.alloc, error)),
        }
    }

    /// Shuts the processor down.
    fn shutdown(&self) -> OTelSdkResult
        ensures { IsProcessorsAnswer P.may_shut_down P.is_at_work result }
    {
        match self.processor.try_borrow_mut() {
            Ok(mut processor) => processor.shut_down(),
            Err(error) => Err(P::refusal(self.alloc, error)),
        }
    }

    /// Returns the number of records dropped here and by the processor.
    fn dropped_records(&self) -> u64
        ensures { CountsDropped P.may_have_missed P.may_have_dropped P.is_at_work result }
    {
        let missed = P::missed(&self.dropped_records);
        let dropped = match self.processor.try_borrow() {
            Ok(processor) => processor.dropped(),
            Err(error) => P::dropped_unseen(error),
        };
        missed.saturating_add(dropped)
    }
}

/// Makes the loggers of the SDK, which share its processor, clock and limits (the Rust crate's
/// `SdkLoggerProvider`).
///
/// A record that is emitted while the processor is at work, for example from within its exporter,
/// is dropped and counted.
///
/// Contracts see its resource, its limits, and whether it is disabled.
///
/// ```
/// let provider = SdkLoggerProvider::builder(rt)
///     .with_log_processor(processor)
///     .build(alloc)?;
/// let logger = provider.logger(alloc, StringValue::from("tests"))?;
/// ```
#[derive(Drop)]
pub struct SdkLoggerProvider<P, C> {
    inner: Rc<LoggerProviderInner<P, C>>,
}

impl<P, C> Model for SdkLoggerProvider<P, C> {
    ghost use Rattle.std.specs.Rc.{rc_value};
    ghost use Rattle.otel_sdk_logs.specs.Provider.{ProviderState};

    ghost Value = { ProviderState };

    ghost view = { λ p. record {
      resource = rc_value (rc_value p.inner).resource;
      limits = (rc_value p.inner).limits;
      is_disabled = (rc_value p.inner).is_disabled;
    } };
}

impl<R: std::time::Clock + Copy + Drop> SdkLoggerProvider<(), SystemClock<R>> {
    /// Returns a builder with the defaults: the clock is the system's, and the limits are
    /// [`LogRecordLimits::default`]. A processor must be set. Never allocates.
    pub fn builder(rt: R) -> LoggerProviderBuilder<(), SystemClock<R>>
        ensures limits { result.limits ≡ default_limits }
        ensures resource { result.resource ≡ None }
        ensures enabled { result.is_disabled ≡ false }
    {
        LoggerProviderBuilder {
            resource: None,
            processor: (),
            clock: SystemClock::new(rt),
            limits: LogRecordLimits::default(),
            is_disabled: false,
        }
    }
}

impl<P: RecordIntake, C: Clock> SdkLoggerProvider<P, C> {
    /// Returns the resource, the entity that the telemetry describes.
    pub fn resource(&self) -> &Resource
        ensures { result.now ≡ self.now.resource }
    {
        &self.inner.resource
    }

    /// Borrows the processor, for inspection. Records that are emitted while it is borrowed are
    /// dropped and counted.
    ///
    /// # Errors
    ///
    /// `BorrowError` if called from within the processor's own work.
    pub fn processor(&self) -> Result<Ref<'_, P>, BorrowError>
        ensures { P.may_lend (is_ok result) }
    {
        P::lend(&self.inner.processor)
    }

    /// Returns the number of records that the processor dropped or that didn't reach it. If called
    /// from within the processor's own work, counts only records that didn't reach it.
    pub fn dropped_records(&self) -> u64
        ensures { CountsDropped P.may_have_missed P.may_have_dropped P.is_at_work result }
    {
        self.inner.dropped_records()
    }

    /// Flushes the processor.
    ///
    /// # Errors
    ///
    /// The errors of [`LogProcessor::force_flush`], or `InternalFailure` if called from within the
    /// processor's own work.
    pub fn force_flush(&self) -> OTelSdkResult
        ensures { IsProcessorsAnswer P.may_flush P.is_at_work result }
    {
        self.inner.force_flush()
    }

    /// Shuts down the processor. The provider's loggers then enable no event, and later records are
    /// dropped and counted.
    ///
    /// # Errors
    ///
    /// The errors of [`LogProcessor::shutdown`], or `InternalFailure` if called from within the
    /// processor's own work. If the flush failed, the provider stays open for another try.
    pub fn shutdown(&self) -> OTelSdkResult
        ensures { IsProcessorsAnswer P.may_shut_down P.is_at_work result }
    {
        self.inner.shutdown()
    }
}

impl<P: LogProcessor, C: Clock> LoggerProvider for SdkLoggerProvider<P, C> {
    ghost use Rattle.std.specs.Prelude.{◌≡◌};

    type Logger = SdkLogger<P, C>;

    ghost may_give = { λ provider scope logger. logger ≡ record {
      scope = scope;
      limits = provider.limits;
      is_disabled = provider.is_disabled;
    } };

    /// Returns a logger with the given scope.
    ///
    /// # Errors
    ///
    /// `AllocError` if out of memory. The scope is dropped.
    fn logger_with_scope(
        &self,
        alloc: Global,
        scope: InstrumentationScope,
    ) -> Result<SdkLogger<P, C>, AllocError> {
        Ok(SdkLogger {
            provider: self.inner.clone()?,
            scope: Rc::new(alloc, scope)?,
        })
    }

    // Same as the trait's default method, which the toolchain doesn't cover for this type.
    fn logger(&self, alloc: Global, name: StringValue) -> Result<SdkLogger<P, C>, AllocError> {
        let scope = InstrumentationScope::builder(name).build(alloc)?;
        self.logger_with_scope(alloc, scope)
    }
}

/// Builds a logger provider (the Rust crate's `LoggerProviderBuilder`, with one processor).
///
/// Contracts see its processor, its limits, its resource if one is given, and whether it is
/// disabled.
///
/// See [`SdkLoggerProvider`].
#[derive(Drop)]
pub struct LoggerProviderBuilder<P, C> {
    resource: Option<Resource>,
    processor: P,
    clock: C,
    limits: LogRecordLimits,
    is_disabled: bool,
}

impl<P, C> Model for LoggerProviderBuilder<P, C> {
    ghost use Rattle.otel_sdk_logs.specs.Provider.{ProviderParts};

    ghost Value = { ProviderParts P };

    ghost view = { λ b. record {
      processor = b.processor;
      resource = b.resource;
      limits = b.limits;
      is_disabled = b.is_disabled;
    } };
}

impl<C: Clock> LoggerProviderBuilder<(), C> {
    /// Sets the processor, which receives the records and hands them to an exporter.
    pub fn with_log_processor<P: LogProcessor>(self, processor: P) -> LoggerProviderBuilder<P, C>
        ensures { result ≡ record {
          processor = processor;
          resource = self.resource;
          limits = self.limits;
          is_disabled = self.is_disabled;
        } }
    {
        LoggerProviderBuilder {
            resource: self.resource,
            processor,
            clock: self.clock,
            limits: self.limits,
            is_disabled: self.is_disabled,
        }
    }
}

impl<P: Drop, C: Clock> LoggerProviderBuilder<P, C> {
    /// Sets the resource, in place of the default one. A second resource is merged into the first.
    ///
    /// # Errors
    ///
    /// `AllocError` if out of memory. The builder is dropped.
    pub fn with_resource(self, resource: Resource) -> Result<Self, AllocError>
        ensures { IfOk result (λ b. b ≡ record self {
          resource = Some (option_map_or (λ old. merge old resource) self.resource resource);
        }) }
    {
        let LoggerProviderBuilder {
            resource: given,
            processor,
            clock,
            limits,
            is_disabled,
        } = self;
        let resource = match given {
            Some(old) => old.merge(resource)?,
            None => resource,
        };
        Ok(LoggerProviderBuilder {
            resource: Some(resource),
            processor,
            clock,
            limits,
            is_disabled,
        })
    }

    /// Sets the clock that supplies the observed times of records.
    pub fn with_clock<T: Clock>(self, clock: T) -> LoggerProviderBuilder<P, T>
        ensures { result ≡ self }
    {
        LoggerProviderBuilder {
            resource: self.resource,
            processor: self.processor,
            clock,
            limits: self.limits,
            is_disabled: self.is_disabled,
        }
    }

    /// Sets all limits of records.
    pub fn with_log_record_limits(self, limits: LogRecordLimits) -> Self
        ensures { result ≡ record self { limits = limits } }
    {
        LoggerProviderBuilder { limits, ..self }
    }

    /// Sets the maximum number of attributes per record.
    pub fn with_max_attributes_per_record(self, limit: u32) -> Self
        ensures { result ≡ record self {
          limits = record self.limits { max_attributes_per_record = limit };
        } }
    {
        let limits = LogRecordLimits {
            max_attributes_per_record: limit,
            ..self.limits
        };
        LoggerProviderBuilder { limits, ..self }
    }

    /// Sets the maximum length of a text in an attribute, in characters.
    pub fn with_max_attribute_length(self, limit: u32) -> Self
        ensures { result ≡ record self {
          limits = record self.limits { max_attribute_length = Some limit };
        } }
    {
        let limits = LogRecordLimits {
            max_attribute_length: Some(limit),
            ..self.limits
        };
        LoggerProviderBuilder { limits, ..self }
    }

    /// Disables the provider: its loggers enable no event and emit nothing. Nothing is counted.
    pub fn disabled(self) -> Self
        ensures { result ≡ record self { is_disabled = true } }
    {
        LoggerProviderBuilder {
            is_disabled: true,
            ..self
        }
    }
}

impl<P: RecordIntake, C: Clock> LoggerProviderBuilder<P, C> {
    /// Builds the provider, and passes the resource to the processor.
    ///
    /// # Errors
    ///
    /// `AllocError` if out of memory. The builder is dropped.
    pub fn build(self, alloc: Global) -> Result<SdkLoggerProvider<P, C>, AllocError>
        ensures built { IfOk result (λ p. p ≡ record {
          resource = unwrap_or self.resource with_defaults;
          limits = self.limits;
          is_disabled = self.is_disabled;
        }) }
        ensures told { OnOk result (P.is_told (unwrap_or self.resource with_defaults)) }
    {
        let LoggerProviderBuilder {
            resource,
            mut processor,
            clock,
            limits,
            is_disabled,
        } = self;
        let resource = match resource {
            Some(resource) => resource,
            None => Resource::builder(alloc)?.build(),
        };
        let resource = Rc::new(alloc, resource)?;
        processor.tell(resource.clone()?);
        let inner = LoggerProviderInner {
            alloc,
            resource,
            processor: RefCell::new(processor),
            clock,
            limits,
            dropped_records: Cell::new(0),
            is_disabled,
        };
        Ok(SdkLoggerProvider {
            inner: Rc::new(alloc, inner)?,
        })
    }
}
