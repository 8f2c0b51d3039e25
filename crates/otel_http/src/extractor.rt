//! HTTP headers as a carrier from which texts are read.
ghost use Rattle.std.specs.Prelude.{◌≡◌, IfOk};
ghost use Rattle.otel_http.specs.Headers.{texts};

use crate::value::read_all;
use http_header::HeaderMap;
use opentelemetry::propagation::Extractor;
use std::alloc::{AllocError, Global};
use std::collections::HashMap;
use std::marker::Model;

/// The texts of a header map, read once (the Rust crate's `HeaderExtractor` of
/// `opentelemetry-http`).
///
/// Use it to extract a context from the headers of a received request. A value is readable if each
/// byte is a tab, or 20 to 7e in hexadecimal. The readable values of `tracestate` and of `baggage`
/// are joined by commas. A repeated `traceparent` counts as absent. For any other name, the first
/// value counts, if it is readable.
///
/// Contracts see it as a finite map of texts.
pub struct HeaderExtractor {
    texts: HashMap<String, String>,
}

// Written out, so that a caller's proof has one call here, and not the drops of all parts.
impl Drop for HeaderExtractor {
    fn drop(self) {
        let HeaderExtractor { texts: _ } = self;
    }
}

impl Model for HeaderExtractor {
    ghost use Rattle.std.specs.Coded.{coded_list, coded_ℕ};
    ghost use Rattle.std.specs.FinMap as fin;
    ghost use Rattle.opentelemetry.specs.Carrier.{TextMap, text_map};

    ghost Value = { TextMap };

    ghost coded = { fin.code (coded_list coded_ℕ) (coded_list coded_ℕ) };

    ghost view = { λ e. text_map e.texts.entries };
}

impl HeaderExtractor {
    /// Returns the texts of the headers.
    ///
    /// # Errors
    ///
    /// `AllocError` if out of memory. Nothing changes.
    pub fn new(alloc: Global, headers: &HeaderMap) -> Result<HeaderExtractor, AllocError>
        ensures { IfOk result (λ extractor. extractor ≡ texts headers.now) }
    {
        let mut held = HashMap::new(alloc);
        for name in headers.keys() {
            if let Some(text) = read_all(alloc, name.as_str(), &headers.get_all(name))? {
                held.insert(String::from_str(alloc, name.as_str())?, text)?;
            }
        }
        Ok(HeaderExtractor { texts: held })
    }
}

impl Extractor for HeaderExtractor {
    ghost texts = { λ extractor. extractor };

    fn get(&self, alloc: Global, key: &str) -> Result<Option<&str>, AllocError> {
        Extractor::get(&self.texts, alloc, key)
    }

    fn keys(&self, alloc: Global) -> Result<Vec<&str>, AllocError> {
        Extractor::keys(&self.texts, alloc)
    }
}
