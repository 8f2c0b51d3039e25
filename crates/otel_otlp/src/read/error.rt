//! The reason why a line wasn't read.
ghost use Rattle.std.specs.Prelude.{◌≡◌, [], codes, alloc_error, string_bytes, IfOk};
ghost use Rattle.otel_otlp.specs.ReadErrors.{IsWithin, NamesPlace, item_step, told};
ghost use Rattle.otel_otlp.specs.ReadErrors.{place_within as place_in, separator_of};
ghost use Rattle.otel_otlp.specs.ReadMembers.{IsRefused};
ghost use Rattle.otel_otlp.specs.declared.read.error.Fault.TheVariants as fault;
ghost use Rattle.otel_otlp.specs.declared.read.error.ReadError.TheVariants.{Memory};

use std::alloc::{AllocError, AllocFailed, Global};
use thiserror::Error;

/// The reason why a line wasn't read.
#[derive(Debug, Drop, Error)]
pub enum ReadError {
    /// The line isn't JSON, or has more than 127 lists and objects within each other.
    #[error("not JSON")]
    Json,
    /// The value at the place isn't allowed there by the protocol.
    #[error("{place}: expected {wanted}")]
    Unexpected {
        /// The place in the line, such as `resourceSpans[0].scopeSpans[1].spans[2].traceId`, or
        /// `line` for the whole line.
        place: String,
        /// The kind of value that is allowed there.
        wanted: &'static str,
    },
    /// Out of memory.
    #[error("no memory")]
    Memory(AllocError),
}

impl From<AllocError> for ReadError {
    ghost from_gives = { λ error converted. converted ≡ Memory error };

    fn from(error: AllocError) -> ReadError {
        ReadError::Memory(error)
    }
}

impl<T: Drop> From<AllocFailed<T>> for ReadError {
    ghost from_gives = { λ _ converted. converted ≡ Memory alloc_error };

    fn from(_error: AllocFailed<T>) -> ReadError {
        ReadError::Memory(AllocError)
    }
}

/// The reason why a value of a line wasn't read.
#[derive(Debug, Drop)]
pub(crate) enum Fault {
    /// The value at the place isn't allowed there by the protocol.
    Unexpected {
        /// The place in the value.
        place: String,
        /// The kind of value that is allowed there.
        wanted: &'static str,
    },
    /// Out of memory.
    Memory(AllocError),
}

impl From<AllocError> for Fault {
    ghost from_gives = { λ error converted. converted ≡ fault.Memory error };

    fn from(error: AllocError) -> Fault {
        Fault::Memory(error)
    }
}

impl<T: Drop> From<AllocFailed<T>> for Fault {
    ghost from_gives = { λ _ converted. converted ≡ fault.Memory alloc_error };

    fn from(_error: AllocFailed<T>) -> Fault {
        Fault::Memory(AllocError)
    }
}

impl From<Fault> for ReadError {
    ghost from_gives = { λ given converted. converted ≡ told given };

    fn from(fault: Fault) -> ReadError {
        match fault {
            Fault::Unexpected { place, wanted } => ReadError::Unexpected { place, wanted },
            Fault::Memory(error) => ReadError::Memory(error),
        }
    }
}

/// Returns the text between a step and the place within it: a dot, unless the place begins with the
/// index of an item, or is empty.
fn separator(place: &str) -> &'static str
    ensures { result.now ≡ separator_of place.now }
{
    match place.as_bytes().first() {
        Some(byte) => if *byte == b'[' { "" } else { "." },
        None => "",
    }
}

/// Returns the place within the step that leads to it.
fn place_within(alloc: Global, step: &str, place: &str) -> Result<String, AllocError>
    ensures { IfOk result (λ text. string_bytes text ≡ place_in step.now place.now) }
{
    let mut text = String::from_str(alloc, step)?;
    text.push_str(separator(place))?;
    text.push_str(place)?;
    Ok(text)
}

/// Returns the fault of a value at the place.
pub(crate) fn unexpected(alloc: Global, place: &str, wanted: &'static str) -> Fault
    ensures { NamesPlace place.now wanted.now result }
{
    match String::from_str(alloc, place) {
        Ok(place) => Fault::Unexpected { place, wanted },
        Err(error) => Fault::Memory(error),
    }
}

/// Returns the fault of a value that isn't an object.
pub(crate) fn no_object(alloc: Global) -> Fault
    ensures { NamesPlace [] (codes "an object") result }
{
    unexpected(alloc, "", "an object")
}

impl Fault {
    /// Returns the fault with the step before its place.
    pub(crate) fn within(self, alloc: Global, step: &str) -> Fault
        ensures refusal { IsRefused result → IsRefused self }
        ensures place { IsWithin step.now self result }
    {
        match self {
            Fault::Unexpected { place, wanted } => {
                match place_within(alloc, step, place.as_str()) {
                    Ok(place) => Fault::Unexpected { place, wanted },
                    Err(error) => Fault::Memory(error),
                }
            }
            other => other,
        }
    }

    /// Returns the fault with the index of an item before its place.
    pub(crate) fn in_item(self, alloc: Global, index: usize) -> Fault
        ensures refusal { IsRefused result → IsRefused self }
        ensures place { IsWithin (item_step index) self result }
    {
        match format!(in alloc; "[{index}]") {
            Ok(step) => self.within(alloc, step.as_str()),
            Err(error) => Fault::Memory(error),
        }
    }
}
