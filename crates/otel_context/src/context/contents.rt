//! The contents of a context, which may be shared.
ghost use Rattle.std.specs.Prelude.{◌≡◌, ◌↔◌, IsTrue, IfOk, option_map};
ghost use Rattle.otel_base.specs.View.{tree};
ghost use Rattle.otel_context.specs.Context.{empty_context, get, with_value, with_baggage};
ghost use Rattle.otel_context.specs.Context.{with_cleared_baggage, is_telemetry_suppressed};
ghost use Rattle.otel_context.specs.Context.{with_telemetry_suppressed};
ghost use Rattle.otel_context.specs.View.{IsInSlot, without_span};

use super::entries::{Entries, Entry};
use crate::baggage::Baggage;
use otel_base::AnyValue;
use std::alloc::{AllocError, Global};
use std::marker::Model;
use std::rc::Rc;

/// The contents of a context: named entries, a baggage, and whether telemetry is suppressed. They
/// have no active span.
///
/// Immutable. Each `with_` method returns new contents that differ in one part and share the
/// others, or an error if out of memory.
#[derive(Drop)]
pub struct Contents {
    entries: Entries,
    baggage: Option<Rc<Baggage>>,
    suppressed: bool,
}

impl Model for Contents {
    ghost use Rattle.std.specs.Prelude.{None, option_map};
    ghost use Rattle.otel_context.specs.Context.{ContextRecord};
    ghost use Rattle.otel_context.specs.View.{context_code};

    ghost Value = { ContextRecord };

    ghost coded = { context_code };

    ghost view = { λ c. record {
      entries = c.entries;
      baggage = option_map (λ b. b.value) c.baggage;
      span = None;
      suppressed = c.suppressed;
    } };
}

impl Contents {
    /// Returns no entry, no baggage, and telemetry that isn't suppressed. Doesn't
    /// allocate.
    pub fn new(alloc: Global) -> Contents
        ensures { result ≡ empty_context }
    {
        Contents {
            entries: Entries::new(alloc),
            baggage: None,
            suppressed: false,
        }
    }

    /// Returns the value of the entry named `key`.
    #[inline(always)]
    pub fn get(&self, key: &str) -> Option<&AnyValue>
        ensures { option_map (λ v. tree v.now) result ≡ get self.now key.now }
    {
        self.entries.get(key)
    }

    /// Returns contents with only this entry.
    // Not inlined, so that a context that has entries doesn't pay for empty contents.
    #[inline(never)]
    pub fn of_entry(alloc: Global, entry: Rc<Entry>) -> Result<Rc<Contents>, AllocError>
        requires slot { IsInSlot entry.value }
        ensures { IfOk result (λ c. c.value
            ≡ with_value empty_context entry.value.key (tree entry.value.value)) }
    {
        Contents::new(alloc).with_entry(alloc, entry)
    }

    /// Returns contents with the entry set, replacing any entry with its name.
    pub fn with_entry(&self, alloc: Global, entry: Rc<Entry>) -> Result<Rc<Contents>, AllocError>
        requires slot { IsInSlot entry.value }
        ensures { IfOk result (λ c. c.value
            ≡ with_value self.now entry.value.key (tree entry.value.value)) }
    {
        let items = self.entries.with(alloc, entry)?;
        let baggage = self.baggage.clone()?;
        let contents = Contents {
            // Last, since a large value is moved again by each `?`.
            entries: Entries::from(items),
            baggage,
            suppressed: self.suppressed,
        };
        Ok(Rc::new(alloc, contents)?)
    }

    /// Returns the baggage. `None` means the empty baggage.
    pub fn baggage(&self) -> Option<&Baggage>
        ensures { option_map (λ b. b.now) result ≡ self.now.baggage }
    {
        match &self.baggage {
            Some(baggage) => Some(baggage.as_ref()),
            None => None,
        }
    }

    /// Returns contents with the given baggage.
    pub fn with_baggage(&self, alloc: Global, baggage: Baggage) -> Result<Rc<Contents>, AllocError>
        ensures { IfOk result (λ c. c.value ≡ with_baggage self.now baggage) }
    {
        let mut contents = self.clone()?;
        contents.baggage = Some(Rc::new(alloc, baggage)?);
        Ok(Rc::new(alloc, contents)?)
    }

    /// Returns contents without baggage.
    pub fn with_cleared_baggage(&self, alloc: Global) -> Result<Rc<Contents>, AllocError>
        ensures { IfOk result (λ c. c.value ≡ with_cleared_baggage self.now) }
    {
        let mut contents = self.clone()?;
        contents.baggage = None;
        Ok(Rc::new(alloc, contents)?)
    }

    /// Returns `true` if the contents hold nothing but a baggage.
    pub fn has_only_baggage(&self) -> bool
        ensures { IsTrue result ↔ (with_cleared_baggage (without_span self.now) ≡ empty_context) }
    {
        self.entries.is_empty() && !self.suppressed
    }

    /// Returns `true` if the contents hold nothing.
    pub fn is_empty(&self) -> bool
        ensures { IsTrue result ↔ (without_span self.now ≡ empty_context) }
    {
        self.has_only_baggage() && self.baggage.is_none()
    }

    /// Returns `true` if telemetry is suppressed.
    pub fn is_telemetry_suppressed(&self) -> bool
        ensures { result ≡ is_telemetry_suppressed self.now }
    {
        self.suppressed
    }

    /// Returns contents in which telemetry is suppressed.
    pub fn with_telemetry_suppressed(&self, alloc: Global) -> Result<Rc<Contents>, AllocError>
        ensures { IfOk result (λ c. c.value ≡ with_telemetry_suppressed self.now) }
    {
        let mut contents = self.clone()?;
        contents.suppressed = true;
        Ok(Rc::new(alloc, contents)?)
    }
}

impl Clone for Contents {
    ghost is_clone = { λ c copy. copy ≡ c };

    fn clone(&self) -> Result<Contents, AllocError> {
        Ok(Contents {
            entries: self.entries.clone()?,
            baggage: self.baggage.clone()?,
            suppressed: self.suppressed,
        })
    }
}
