//! The metadata of a value, and a member made of a key, a value and metadata.
ghost use Rattle.std.specs.Prelude.{◌≡◌, [], IfOk, IsOk, IsTrue, Some};
ghost use Rattle.std.specs.Str.{trim};
ghost use Rattle.otel_base.specs.Value.{is_text};
ghost use Rattle.otel_base.specs.View.{value_of};
ghost use Rattle.otel_context.specs.BaggageMember.{member_of};
ghost use Rattle.otel_context.specs.BaggageText.{IsTrimmed};
ghost use Rattle.otel_context.specs.KeyValueMetadata.{from_key_value};

use otel_base::{Key, KeyValue, StringValue};
use std::alloc::{AllocError, Global};
use std::fmt;
use std::marker::Model;

/// The properties of a value in a [`Baggage`](super::Baggage).
///
/// The text is stored without the white space at its ends. Its properties aren't parsed. W3C
/// baggage writes them as names or pairs separated by semicolons, as in `ttl=30;private`. Texts are
/// compared and ordered by their bytes. The default is the empty text, which means no properties.
#[derive(PartialEq, Eq, PartialOrd, Debug, Drop)]
pub struct BaggageMetadata {
    text: StringValue,
}

impl Model for BaggageMetadata {
    ghost use Rattle.std.specs.Prelude.{List, ℕ};
    ghost use Rattle.otel_context.specs.BaggageText.{IsTrimmed};

    ghost Value = { List ℕ };

    ghost view = { λ m. m.text };

    ghost invariant = { λ m. IsTrimmed m.text };

    ghost inverse = { λ t. record { text = t } };
}

impl BaggageMetadata {
    /// Returns the text as metadata, without the Unicode white space at its ends (`From<&str>` of
    /// the Rust crate).
    ///
    /// # Errors
    ///
    /// `AllocError` if out of memory.
    pub fn new(alloc: Global, text: &str) -> Result<BaggageMetadata, AllocError>
        ensures { IfOk result (λ m. m ≡ trim text.now) }
    {
        let trimmed = String::from_str(alloc, text.trim())?;
        Ok(BaggageMetadata {
            text: StringValue::from(trimmed),
        })
    }

    /// Returns the text, which has no white space at its ends.
    pub fn as_str(&self) -> &str
        ensures text { result.now ≡ self.now }
        ensures trimmed { IsTrimmed self.now }
    {
        self.text.as_str()
    }
}

impl Default for BaggageMetadata {
    ghost is_default = { λ m. m ≡ [] };

    /// Returns the empty text. Doesn't allocate.
    fn default() -> BaggageMetadata {
        BaggageMetadata {
            text: StringValue::from(""),
        }
    }
}

impl Clone for BaggageMetadata {
    ghost is_clone = { λ s copy. copy ≡ s };

    /// Returns a copy.
    ///
    /// # Errors
    ///
    /// `AllocError` if out of memory. The original is unchanged.
    fn clone(&self) -> Result<BaggageMetadata, AllocError> {
        Ok(BaggageMetadata {
            text: self.text.clone()?,
        })
    }
}

impl fmt::Display for BaggageMetadata {
    ghost output = { λ m. Some m };

    /// Writes the plain text. Ignores width, fill and precision.
    fn fmt<W: fmt::Write>(&self, f: &mut fmt::Formatter<W>) -> fmt::Result {
        fmt::Display::fmt(&self.text, f)
    }
}

/// A member of a baggage: a key with its value and its metadata.
///
/// Pass it to [`Baggage::from_key_values_with_metadata`](super::Baggage). The key isn't checked
/// until it is inserted into a baggage.
#[derive(PartialEq, Debug, Drop)]
pub struct KeyValueMetadata {
    pub(super) key: Key,
    pub(super) value: StringValue,
    pub(super) metadata: BaggageMetadata,
}

impl Model for KeyValueMetadata {
    ghost use Rattle.otel_context.specs.BaggageMember.{Member, member_of};

    ghost Value = { Member };

    ghost view = { λ k. member_of k.key k.value k.metadata };

    ghost inverse = { λ m. record { key = m.key; value = m.value; metadata = m.metadata } };
}

impl KeyValueMetadata {
    /// Returns a member with these three parts.
    pub fn new(key: Key, value: StringValue, metadata: BaggageMetadata) -> KeyValueMetadata
        ensures { result ≡ member_of key value metadata }
    {
        KeyValueMetadata {
            key,
            value,
            metadata,
        }
    }

    /// Returns a member with the attribute's key, the printed text of its value, and no metadata
    /// (`From<KeyValue>` of the Rust crate).
    ///
    /// A text value is moved without allocating.
    ///
    /// # Errors
    ///
    /// `AllocError` if out of memory, which can only happen if the value isn't a text. The
    /// attribute is dropped.
    pub fn from_key_value(
        alloc: Global,
        attribute: KeyValue,
    ) -> Result<KeyValueMetadata, AllocError>
        ensures member { IfOk result (λ k. k ≡ from_key_value attribute) }
        ensures without_memory { IsTrue (is_text (value_of attribute.value)) → IsOk result }
    {
        let KeyValue { key, value } = attribute;
        Ok(KeyValueMetadata {
            key,
            value: StringValue::from_value(alloc, value)?,
            metadata: BaggageMetadata::default(),
        })
    }
}

impl Clone for KeyValueMetadata {
    ghost is_clone = { λ s copy. copy ≡ s };

    /// Returns a copy.
    ///
    /// # Errors
    ///
    /// `AllocError` if out of memory. The original is unchanged.
    fn clone(&self) -> Result<KeyValueMetadata, AllocError> {
        Ok(KeyValueMetadata {
            key: self.key.clone()?,
            value: self.value.clone()?,
            metadata: self.metadata.clone()?,
        })
    }
}
