//! Propagation: carriers of texts, and the propagators that read and write them.
ghost use Rattle.std.specs.Prelude.{◌≡◌, ◌+◌, OnOk, OnErr, IfOk, string_bytes, if◌then◌else◌};
ghost use Rattle.std.specs.Option.{option_copied, option_map};
ghost use Rattle.opentelemetry.specs.Carrier.{CarrierState, SetsValue, TextMap, AreKeys};
ghost use Rattle.opentelemetry.specs.Carrier.{get, get_all, borrowed_texts, map_state, text_map};
ghost use Rattle.opentelemetry.specs.Refusal.{is_refused};

use std::alloc::{AllocError, Global};
use std::collections::HashMap;
use std::hash::BuildHasher;

pub mod composite;
mod error;
pub mod text_map_propagator;

pub use composite::TextMapCompositePropagator;
pub use error::PropagationError;
pub use text_map_propagator::TextMapPropagator;

/// A carrier to which texts are written, such as the headers of a request (the Rust crate's
/// `Injector`).
///
/// Contracts see it as its `state`: a finite map of texts, and a count of its own refusals. The
/// count exists only in contracts.
///
/// A value may contain any character. A carrier of text lines, such as HTTP headers, must refuse a
/// key or a value that contains CR, LF or NUL (RFC 9110, section 5.5). Otherwise the sender of a
/// value could add headers.
///
/// See `otel_examples::api::headers` for an implementation.
pub trait Injector {
    ghost state: { Self → CarrierState };

    /// Sets the value of the key, which is stored in ASCII lower case.
    ///
    /// # Errors
    ///
    /// `Refused` if the carrier itself refuses the text, which increments its count. `Memory` if
    /// out of memory. In both cases, the texts are unchanged and the value is dropped.
    fn set(&mut self, key: &str, value: String) -> Result<(), PropagationError>
        ensures ok { OnOk result (SetsValue (state self.old).texts key.now (string_bytes value)
            (state self.new).texts) }
        ensures err { OnErr result ((state self.new).texts ≡ (state self.old).texts) }
        ensures count { (state self.new).refusals
            ≡ (state self.old).refusals + (if is_refused result then 1 else 0) };

    /// Hints that `additional` more texts will be set. The carrier's `state` doesn't change, even
    /// if out of memory.
    fn reserve(&mut self, additional: usize)
        ensures { state self.new ≡ state self.old }
    {
        let _ = additional;
    }
}

/// A map never refuses a text: its count of refusals is always 0.
impl<S: BuildHasher> Injector for HashMap<String, String, S> {
    ghost state = { λ m. map_state m.entries };

    fn set(&mut self, key: &str, value: String) -> Result<(), PropagationError> {
        let alloc = *value.allocator();
        let lowered = key.to_ascii_lowercase(alloc)?;
        self.insert(lowered, value)?;
        Ok(())
    }

    fn reserve(&mut self, additional: usize) {
        let _ = HashMap::reserve(self, additional);
    }
}

/// A carrier from which texts are read, such as the headers of a request (the Rust crate's
/// `Extractor`).
///
/// Contracts see it as its `texts`, a finite map.
///
/// See `otel_examples::api::headers` for an implementation.
pub trait Extractor {
    ghost texts: { Self → TextMap };

    /// Returns the value stored for the key's ASCII lower case, if any.
    ///
    /// # Errors
    ///
    /// `AllocError` if out of memory. Nothing changes.
    fn get(&self, alloc: Global, key: &str) -> Result<Option<&str>, AllocError>
        ensures { IfOk result (λ found. option_copied found ≡ get (texts self.now) key.now) };

    /// Returns all keys as they are stored, in ascending order of their bytes.
    ///
    /// # Errors
    ///
    /// `AllocError` if out of memory. Nothing changes.
    fn keys(&self, alloc: Global) -> Result<Vec<&str>, AllocError>
        ensures { IfOk result (λ keys. AreKeys (texts self.now) (borrowed_texts keys)) };

    /// Returns all values stored for the key's ASCII lower case. By default, returns the one value
    /// that `get` returns.
    ///
    /// # Errors
    ///
    /// `AllocError` if out of memory. Nothing changes.
    fn get_all(&self, alloc: Global, key: &str) -> Result<Option<Vec<&str>>, AllocError>
        ensures { IfOk result (λ found.
            option_map borrowed_texts found ≡ get_all (texts self.now) key.now) }
    {
        match self.get(alloc, key)? {
            Some(value) => Ok(Some(vec![in alloc; value]?)),
            None => Ok(None),
        }
    }
}

impl<S: BuildHasher> Extractor for HashMap<String, String, S> {
    ghost texts = { λ m. text_map m.entries };

    fn get(&self, alloc: Global, key: &str) -> Result<Option<&str>, AllocError> {
        let name = key.to_ascii_lowercase(alloc)?;
        match HashMap::get(self, name.as_str()) {
            Some(value) => Ok(Some(value.as_str())),
            None => Ok(None),
        }
    }

    fn keys(&self, alloc: Global) -> Result<Vec<&str>, AllocError> {
        let mut all = Vec::new(alloc);
        for key in HashMap::keys(self) {
            all.push(key.as_str())?;
        }
        all.sort()?;
        Ok(all)
    }
}
