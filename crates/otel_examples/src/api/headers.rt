//! A custom carrier: headers as in HTTP, a list of names and values.
ghost use Rattle.std.specs.Prelude.{◌≡◌, string_bytes};
ghost use Rattle.std.specs.List.{position};
ghost use Rattle.std.specs.Str.{bytes_eq};
ghost use Rattle.opentelemetry.specs.Carrier.{TextMap, text_map};

use opentelemetry::propagation::{Extractor, Injector, PropagationError};
use std::alloc::{AllocError, Global};

/// Headers: names in lower case with their values, in order. If a name occurs twice, its first
/// value counts.
#[derive(Drop)]
pub struct Headers {
    /// The names with their values.
    pub pairs: Vec<(String, String)>,
}

/// Returns the index of the first pair named `name`.
fn index_of(pairs: &Vec<(String, String)>, name: &str) -> Option<usize>
    ensures { result
        ≡ position (λ pair. bytes_eq name.now (string_bytes pair.0)) pairs.now.items }
{
    pairs.iter().position(|pair| name == pair.0.as_str())
}

impl Injector for Headers {
    ghost use Rattle.opentelemetry.specs.Carrier.{map_state};

    ghost state = { λ headers. map_state headers.pairs.items };

    fn set(&mut self, key: &str, value: String) -> Result<(), PropagationError> {
        let name = key.to_ascii_lowercase(*value.allocator())?;
        match index_of(&self.pairs, name.as_str()) {
            Some(index) => self.pairs[index].1 = value,
            None => self.pairs.push((name, value))?,
        }
        Ok(())
    }
}

impl Extractor for Headers {
    ghost use Rattle.opentelemetry.specs.Carrier.{text_map};

    ghost texts = { λ headers. text_map headers.pairs.items };

    fn get(&self, alloc: Global, key: &str) -> Result<Option<&str>, AllocError> {
        let name = key.to_ascii_lowercase(alloc)?;
        match index_of(&self.pairs, name.as_str()) {
            Some(index) => Ok(Some(self.pairs[index].1.as_str())),
            None => Ok(None),
        }
    }

    fn keys(&self, alloc: Global) -> Result<Vec<&str>, AllocError> {
        let mut names = Vec::new(alloc);
        for (name, _) in &self.pairs {
            names.push(name.as_str())?;
        }
        names.sort()?;
        names.dedup();
        Ok(names)
    }
}
