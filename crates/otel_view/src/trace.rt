//! The spans of one trace.
ghost use Rattle.std.specs.Prelude.{◌≡◌, ◌&&◌, IfOk, OnOk, string_bytes};
ghost use Rattle.otel_view.specs.Trace as spec;

use crate::input::SpanTaker;
use opentelemetry::StringValue;
use opentelemetry::trace::TraceId;
use otel_sdk_span::SpanData;
use std::alloc::{AllocError, Global};

/// The number of ids that are named if several traces begin with the digits.
const NAMED: usize = 4;

/// Returns the 32 digits of an id.
fn digits_of(id: TraceId) -> [u8; 32]
    ensures { result ≡ spec.digits_of id }
{
    let mut digits = [0; 32];
    let _ = hex::encode_to_slice(id.to_bytes(), &mut digits);
    digits
}

/// Returns whether the id begins with the digits.
fn begins_with(digits: &str, id: TraceId) -> bool
    ensures { result ≡ spec.begins_with digits.now id }
{
    digits_of(id).starts_with(digits.as_bytes())
}

/// Returns whether the id is one of these.
fn is_known(ids: &[TraceId], id: TraceId) -> bool
    ensures { result ≡ spec.is_known id ids.now }
{
    ids.iter().any(|known| *known == id)
}

/// Adds the id, unless it is there or there are enough.
fn add_id(ids: &mut Vec<TraceId>, id: TraceId) -> Result<(), AllocError>
    ensures { OnOk result (ids.new.items ≡ spec.with_id id ids.old.items) }
{
    if is_known(ids.as_slice(), id) || ids.len() >= NAMED {
        return Ok(());
    }
    ids.push(id)?;
    Ok(())
}

/// Returns whether the id is the first of these.
fn is_first(ids: &[TraceId], id: TraceId) -> bool
    ensures { result ≡ spec.is_first id ids.now }
{
    match ids {
        [] => false,
        [first, ..] => *first == id,
    }
}

/// The spans of the trace that was asked for.
#[derive(Drop)]
pub struct Found {
    /// The digits that the trace's id begins with, in lower case.
    digits: String,
    /// The ids that begin with them, at most [`NAMED`].
    pub ids: Vec<TraceId>,
    /// The spans of the first of them.
    pub spans: Vec<SpanData>,
    /// The services of these spans.
    pub services: Vec<StringValue>,
}

impl Found {
    /// Returns no spans of the trace whose id begins with these digits, of either case.
    pub fn new(alloc: Global, digits: &str) -> Result<Found, AllocError> {
        let mut digits = String::from_str(alloc, digits)?;
        digits.make_ascii_lowercase();
        Ok(Found {
            digits,
            ids: Vec::new(alloc),
            spans: Vec::new(alloc),
            services: Vec::new(alloc),
        })
    }

    /// Returns whether the trace is the first whose id begins with the digits. Another such id is
    /// kept.
    fn takes(&mut self, id: TraceId) -> Result<bool, AllocError>
        ensures { IfOk result (λ taken. taken ≡ (spec.begins_with (string_bytes self.old.digits) id
            && spec.is_first id (spec.with_id id self.old.ids.items))) }
    {
        if !begins_with(self.digits.as_str(), id) {
            return Ok(false);
        }
        add_id(&mut self.ids, id)?;
        Ok(is_first(self.ids.as_slice(), id))
    }

    /// Adds the service of a span.
    fn add_service(&mut self, service: &StringValue) -> Result<(), AllocError> {
        self.services.push(service.clone()?)?;
        Ok(())
    }

    /// Adds a span of this service.
    fn add(&mut self, service: &StringValue, span: SpanData) -> Result<(), AllocError> {
        self.add_service(service)?;
        self.spans.push(span)?;
        Ok(())
    }

    /// Returns the starts and the places of the spans, ordered by start and then by place.
    ///
    /// # Errors
    ///
    /// `AllocError` if out of memory.
    pub fn places(&self, alloc: Global) -> Result<Vec<(u64, usize)>, AllocError> {
        let mut places = Vec::with_capacity(alloc, self.spans.len())?;
        for (place, span) in self.spans.iter().enumerate() {
            places.push((span.start_time, place))?;
        }
        places.sort()?;
        Ok(places)
    }
}

impl SpanTaker for Found {
    /// Adds the span, if it belongs to the trace.
    fn take(&mut self, service: &StringValue, span: SpanData) -> Result<(), AllocError> {
        if self.takes(span.span_context.trace_id())? {
            return self.add(service, span);
        }
        Ok(())
    }
}
