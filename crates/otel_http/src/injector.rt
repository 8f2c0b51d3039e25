//! HTTP headers as a carrier to which texts are written.
ghost use Rattle.std.specs.Prelude.{◌≡◌, ◌+◌, ◌<◌, ◌^◌, IsTrue, IsErr, IfOk, OnOk, OnErr, Some};
ghost use Rattle.std.specs.Prelude.{if◌then◌else◌, string_bytes};
ghost use Rattle.std.specs.Fmt.{WritesOnOk};
ghost use Rattle.http_header.specs.FieldName.{IsFieldName};
ghost use Rattle.http_header.specs.FieldValue.{plain_value, IsVisibleAscii};
ghost use Rattle.http_header.specs.HeaderMap.{insert, RefusesInsert};
ghost use Rattle.opentelemetry.specs.Carrier.{SetsValue, lower};
ghost use Rattle.opentelemetry.specs.Refusal.{is_refused};
ghost use Rattle.otel_http.specs.Headers.{Refuses, texts, text as text_of_value};
ghost use Rattle.otel_http.specs.Injector.{carrier, state};
ghost use Rattle.otel_http.specs.Lines.{header_line, header_lines};

use crate::value::read;
use http_header::{
    HeaderMap, HeaderMapError, HeaderName, HeaderNameError, HeaderValue, HeaderValueError,
};
use opentelemetry::propagation::{Injector, PropagationError};
use std::alloc::{AllocError, Global};
use std::fmt;

/// Headers to which texts are written (the Rust crate's `HeaderInjector` of `opentelemetry-http`).
///
/// Use it to inject a context into the headers of a request to send. It owns the headers until
/// [`HeaderInjector::into_headers`] returns them.
pub struct HeaderInjector {
    /// The headers.
    pub headers: HeaderMap,
    refusals: u64,
}

// Written out, so that a caller's proof has one call here, and not the drops of all parts.
impl Drop for HeaderInjector {
    fn drop(self) {
        let HeaderInjector {
            headers: _,
            refusals: _,
        } = self;
    }
}

/// Returns the key as the name of a header.
fn name_of(alloc: Global, key: &str) -> Result<HeaderName, PropagationError>
    ensures ok { IfOk result (λ name. name ≡ lower key.now) }
    ensures refused { IsTrue (is_refused result) → ¬ (IsFieldName key.now) }
    ensures refuses { ¬ (IsFieldName key.now) → IsTrue (is_refused result) }
{
    match HeaderName::from_bytes(alloc, key.as_bytes()) {
        Ok(name) => Ok(name),
        Err(HeaderNameError::Invalid) => Err(PropagationError::Refused),
        Err(HeaderNameError::OutOfMemory) => Err(PropagationError::Memory(AllocError)),
    }
}

/// Returns this text as the value of a header.
fn value_of(text: String) -> Result<HeaderValue, PropagationError>
    ensures ok { IfOk result (λ value. value ≡ plain_value (string_bytes text)) }
    ensures readable { OnOk result
        (text_of_value (plain_value (string_bytes text)) ≡ Some (string_bytes text)) }
    ensures refused { IsTrue (is_refused result) → ¬ (IsVisibleAscii (string_bytes text)) }
    ensures refuses { ¬ (IsVisibleAscii (string_bytes text)) → IsErr result }
{
    match HeaderValue::from_string(text) {
        Ok(value) => {
            if read(&value).is_some() {
                Ok(value)
            } else {
                Err(PropagationError::Refused)
            }
        }
        Err(HeaderValueError::Invalid) => Err(PropagationError::Refused),
        Err(HeaderValueError::OutOfMemory) => Err(PropagationError::Memory(AllocError)),
    }
}

/// Replaces all values of the name with this one.
fn replace(
    headers: &mut HeaderMap,
    name: HeaderName,
    value: HeaderValue,
) -> Result<(), PropagationError>
    ensures ok { OnOk result (headers.new ≡ insert headers.old name value) }
    ensures refused { IsTrue (is_refused result) → RefusesInsert headers.old name }
    ensures refuses { RefusesInsert headers.old name → IsTrue (is_refused result) }
    ensures err { OnErr result (headers.new ≡ headers.old) }
{
    match headers.insert(name, value) {
        Ok(_) => Ok(()),
        Err(HeaderMapError::MaxSizeReached) => Err(PropagationError::Refused),
        Err(HeaderMapError::OutOfMemory) => Err(PropagationError::Memory(AllocError)),
    }
}

/// Replaces all values of the key, in lower case, with this one.
fn put(headers: &mut HeaderMap, key: &str, value: String) -> Result<(), PropagationError>
    ensures ok { OnOk result (headers.new
        ≡ insert headers.old (lower key.now) (plain_value (string_bytes value))) }
    ensures readable { OnOk result
        (text_of_value (plain_value (string_bytes value)) ≡ Some (string_bytes value)) }
    ensures refused { IsTrue (is_refused result)
        → Refuses headers.old key.now (string_bytes value) }
    ensures refuses { Refuses headers.old key.now (string_bytes value) → IsErr result }
    ensures err { OnErr result (headers.new ≡ headers.old) }
{
    let name = name_of(*value.allocator(), key)?;
    let value = value_of(value)?;
    replace(headers, name, value)
}

impl HeaderInjector {
    /// Returns an injector into these headers. It has refused nothing so far.
    pub fn new(headers: HeaderMap) -> HeaderInjector
        ensures headers { result.headers ≡ headers }
        ensures carrier { state result ≡ carrier headers 0 }
    {
        HeaderInjector {
            headers,
            refusals: 0,
        }
    }

    /// Returns the headers.
    pub fn into_headers(self) -> HeaderMap
        ensures { result ≡ self.headers }
    {
        let HeaderInjector {
            headers,
            refusals: _,
        } = self;
        headers
    }

    /// Counts a refusal. Returns the error, or `Memory` if the count is at its maximum.
    fn refuse(&mut self) -> Result<(), PropagationError>
        ensures err { IsErr result }
        ensures refused { self.old.refusals + 1 < 2 ^ 64 → IsTrue (is_refused result) }
        ensures headers { self.new.headers ≡ self.old.headers }
        ensures count { self.new.refusals
            ≡ self.old.refusals + (if is_refused result then 1 else 0) }
    {
        match self.refusals.checked_add(1) {
            Some(refusals) => {
                self.refusals = refusals;
                Err(PropagationError::Refused)
            }
            None => Err(PropagationError::Memory(AllocError)),
        }
    }
}

/// Writes the line of a header. Fails if the value isn't visible ASCII text.
fn write_line<W: fmt::Write>(
    name: &HeaderName,
    value: &HeaderValue,
    f: &mut fmt::Formatter<W>,
) -> fmt::Result
    ensures { WritesOnOk W.write_str_gives f.old result (header_line (name.now, value.now)) f.new }
{
    let Ok(text) = value.to_str() else {
        return Err(fmt::Error);
    };
    writeln!(f, "{name}: {text}")
}

impl fmt::Display for HeaderInjector {
    ghost output = { λ i. Some (header_lines i.headers) };

    /// Writes a line `name: value` for each header. Fails if a value isn't visible ASCII text.
    fn fmt<W: fmt::Write>(&self, f: &mut fmt::Formatter<W>) -> fmt::Result {
        for (name, value) in &self.headers {
            write_line(name, value, f)?;
        }
        Ok(())
    }
}

impl Injector for HeaderInjector {
    ghost use Rattle.otel_http.specs.Injector.{state as carrier_state};

    ghost state = { λ i. carrier_state i };

    /// Replaces all values of the key, in lower case, with this one.
    ///
    /// # Errors
    ///
    /// - `Refused` if the key isn't a field name, if the value isn't readable, or if the headers
    ///   are full. The injector counts it.
    /// - `Memory` if out of memory.
    ///
    /// In both cases, the headers are unchanged.
    fn set(&mut self, key: &str, value: String) -> Result<(), PropagationError>
        ensures ok { OnOk result (SetsValue (texts self.old.headers) key.now (string_bytes value)
            (texts self.new.headers)) }
        ensures headers { OnOk result (self.new.headers
            ≡ insert self.old.headers (lower key.now) (plain_value (string_bytes value))) }
        ensures err { OnErr result (self.new.headers ≡ self.old.headers) }
        ensures refused { IsTrue (is_refused result)
            → Refuses self.old.headers key.now (string_bytes value) }
        ensures refuses { Refuses self.old.headers key.now (string_bytes value) → IsErr result }
        ensures count { self.new.refusals
            ≡ self.old.refusals + (if is_refused result then 1 else 0) }
    {
        match put(&mut self.headers, key, value) {
            Ok(()) => Ok(()),
            Err(PropagationError::Refused) => self.refuse(),
            Err(error) => Err(error),
        }
    }
}
