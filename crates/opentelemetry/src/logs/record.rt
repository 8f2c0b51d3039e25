//! Log records.
ghost use Rattle.std.specs.Prelude.{◌≡◌, OnOk, OnErr};
ghost use Rattle.otel_base.specs.View.{tree, pairs_view};

use crate::logs::{AnyValue, Severity};
use otel_base::{Key, StringValue};
use otel_ids::{SpanId, TraceFlags, TraceId};
use std::alloc::{AllocError, Global};

/// A log record that is being built (the Rust crate's `LogRecord`).
///
/// Implementors define the effect of each setter as a ghost function of the record and of the
/// arguments' meaning: `after_event_name`, `after_target`, `after_timestamp`,
/// `after_observed_timestamp`, `after_severity_text`, `after_severity_number`, `after_body`,
/// `after_attributes`, `after_attribute`. After an error the record is unchanged. `may_be_traced`
/// relates a record to the possible results of `set_trace_context`. The unchanged record is one of
/// them (`may_be_untraced`), and by default the only one.
///
/// Times are nanoseconds since 1970-01-01T00:00:00Z. In the Rust crate, times are of type
/// `SystemTime`, and attributes are passed as an iterator.
///
/// See `otel_examples::api::log_bridge`.
pub trait LogRecord: Drop {
    ghost use Rattle.std.specs.Prelude.{ℕ, List, Option};
    ghost use Rattle.otel_base.specs.AnyValue.{Tree};
    ghost use Rattle.otel_base.specs.declared.severity.Severity.{Severity};

    ghost after_event_name: { Self → List ℕ → Self };

    ghost after_target: { Self → List ℕ → Self };

    ghost after_timestamp: { Self → ℕ → Self };

    ghost after_observed_timestamp: { Self → ℕ → Self };

    ghost after_severity_text: { Self → List ℕ → Self };

    ghost after_severity_number: { Self → Severity → Self };

    ghost after_body: { Self → Tree → Self };

    ghost after_attributes: { Self → List (List ℕ × Tree) → Self };

    ghost after_attribute: { Self → List ℕ → Tree → Self };

    ghost may_be_traced: { Self → ℕ → ℕ → Option ℕ → Self → Type 0 } = { λ old _ _ _ x. x ≡ old };

    /// Sets the name of the event that the record describes.
    fn set_event_name(&mut self, name: &'static str)
        ensures { self.new ≡ after_event_name self.old name.now };

    /// Sets the target: the part of the program that emits the record, such as a module path.
    fn set_target(&mut self, target: StringValue)
        ensures { self.new ≡ after_target self.old target };

    /// Sets the time at which the event happened.
    fn set_timestamp(&mut self, timestamp: u64)
        ensures { self.new ≡ after_timestamp self.old timestamp };

    /// Sets the time at which the event was observed.
    fn set_observed_timestamp(&mut self, timestamp: u64)
        ensures { self.new ≡ after_observed_timestamp self.old timestamp };

    /// Sets the severity text: the name of the severity at the record's source.
    fn set_severity_text(&mut self, text: &'static str)
        ensures { self.new ≡ after_severity_text self.old text.now };

    /// Sets the severity.
    fn set_severity_number(&mut self, number: Severity)
        ensures { self.new ≡ after_severity_number self.old number };

    /// Sets the body: the message of the record.
    fn set_body(&mut self, body: AnyValue)
        ensures { self.new ≡ after_body self.old (tree body) };

    /// Adds attributes, in order.
    ///
    /// # Errors
    ///
    /// `AllocError` if out of memory. The record is unchanged, and the attributes are dropped.
    fn add_attributes(
        &mut self,
        alloc: Global,
        attributes: Vec<(Key, AnyValue)>,
    ) -> Result<(), AllocError>
        ensures ok { OnOk result
            (self.new ≡ after_attributes self.old (pairs_view attributes.items)) }
        ensures err { OnErr result (self.new ≡ self.old) };

    /// Adds one attribute.
    ///
    /// # Errors
    ///
    /// `AllocError` if out of memory. The record is unchanged, and the attribute is dropped.
    fn add_attribute(&mut self, alloc: Global, key: Key, value: AnyValue) -> Result<(), AllocError>
        ensures ok { OnOk result (self.new ≡ after_attribute self.old key (tree value)) }
        ensures err { OnErr result (self.new ≡ self.old) };

    /// Sets the span that was active when the event happened, if this type of record stores one.
    /// Does nothing by default.
    fn set_trace_context(
        &mut self,
        trace_id: TraceId,
        span_id: SpanId,
        trace_flags: Option<TraceFlags>,
    )
        ensures { may_be_traced self.old trace_id span_id trace_flags self.new }
    {
        let _ = (trace_id, span_id, trace_flags);
    }

    ghost may_be_untraced: { (log : Self) (trace_id span_id : ℕ) (trace_flags : Option ℕ)
        → may_be_traced log trace_id span_id trace_flags log };
}
