//! Instrumentation scopes: the libraries and modules that make spans and log records.
ghost use Rattle.std.specs.Prelude.{◌≡◌, IsTrue, ◌↔◌, IfOk, IsOk, Some, None, [], ◌++◌, map};
ghost use Rattle.std.specs.Prelude.{option_map, fold, length};
ghost use Rattle.std.specs.Cmp.{partial_equiv_from_equiv};
ghost use Rattle.std.specs.Cmp.Lexicographic.{pointwise};
ghost use Rattle.std.specs.Option.{option_eq};
ghost use Rattle.std.specs.List.{slice_get, flat_map};
ghost use Rattle.std.specs.Slice.Iter.{iter_rest};
ghost use Rattle.otel_base.specs.View.{attribute_of};
ghost use Rattle.otel_base.specs.KeyValue as attribute;
ghost use Rattle.otel_base.specs.KeyOrder as order;
ghost use Rattle.otel_base.specs.KeyOrder.{IsKeyOrder, in_key_order, position_cmp};
ghost use Rattle.otel_base.specs.InstrumentationScope as spec;
ghost use Rattle.otel_base.specs.InstrumentationScope.{IsSameScope, texts_eq};
ghost use Rattle.otel_base.specs.InstrumentationScopeLaws.{eq-IsEquivalence, hash-respects};

use crate::key_value::KeyValue;
use crate::string_value::StringValue;
use std::alloc::{AllocError, Global};
use std::cmp::Ordering;
use std::hash::{Hash, Hasher};
use std::marker::Model;
use std::slice::Iter;

/// A library or module that makes spans or log records (the Rust crate's `InstrumentationScope`).
///
/// Two scopes are equal if they have the same name, version and schema URL and, for every key, the
/// same values under that key, in the same order. Equality and hash don't allocate, and take time
/// linear in the number of attributes.
///
/// ```
/// let scope = InstrumentationScope::builder(StringValue::from("lib"))
///     .with_version(StringValue::from("1.0"))
///     .build(alloc)?;
/// ```
#[derive(Debug)]
pub struct InstrumentationScope {
    name: StringValue,
    version: Option<StringValue>,
    schema_url: Option<StringValue>,
    attributes: Vec<KeyValue>,
    // The positions of the attributes, sorted by key. Attributes with the same key keep their
    // order.
    positions: Vec<usize>,
}

// Written out, so that a caller's proof has one call here, and not the drops of all parts.
impl Drop for InstrumentationScope {
    fn drop(self) {
        let InstrumentationScope {
            name: _,
            version: _,
            schema_url: _,
            attributes: _,
            positions: _,
        } = self;
    }
}

impl Model for InstrumentationScope {
    ghost use Rattle.std.specs.Prelude.{map};
    ghost use Rattle.otel_base.specs.View.{attribute_of};
    ghost use Rattle.otel_base.specs.InstrumentationScope.{Scope};
    ghost use Rattle.otel_base.specs.KeyOrder.{IsKeyOrder};

    ghost Value = { Scope };

    ghost view = { λ s. record {
      name = s.name;
      version = s.version;
      schema_url = s.schema_url;
      attributes = map attribute_of s.attributes.items;
    } };

    ghost invariant = { λ s. IsKeyOrder (map attribute_of s.attributes.items) s.positions.items };
}

impl InstrumentationScope {
    /// Returns a builder with the name, and without a version, schema URL or attributes.
    pub fn builder(name: StringValue) -> InstrumentationScopeBuilder
        ensures { result ≡ spec.builder name }
    {
        InstrumentationScopeBuilder {
            name,
            version: None,
            schema_url: None,
            attributes: None,
        }
    }

    /// Returns the name of the library or module.
    pub fn name(&self) -> &str
        ensures { result.now ≡ self.now.name }
    {
        self.name.as_str()
    }

    /// Returns the version of the library or module, if one was given.
    pub fn version(&self) -> Option<&str>
        ensures { option_map (λ v. v.now) result ≡ self.now.version }
    {
        match &self.version {
            Some(version) => Some(version.as_str()),
            None => None,
        }
    }

    /// Returns the URL of the schema of the telemetry, if one was given.
    pub fn schema_url(&self) -> Option<&str>
        ensures { option_map (λ v. v.now) result ≡ self.now.schema_url }
    {
        match &self.schema_url {
            Some(url) => Some(url.as_str()),
            None => None,
        }
    }

    /// Returns the attributes in the order in which they were given, including repeated keys.
    pub fn attributes(&self) -> Iter<'_, KeyValue>
        ensures { map attribute_of (iter_rest result) ≡ self.now.attributes }
    {
        self.attributes.iter()
    }

    // Returns `true` if both have the same name, version and schema URL.
    fn has_texts_of(&self, other: &InstrumentationScope) -> bool
        ensures { result ≡ texts_eq self.now other.now }
    {
        self.name == other.name
            && self.version == other.version
            && self.schema_url == other.schema_url
    }
}

impl Clone for InstrumentationScope {
    ghost is_clone = { λ s copy. copy ≡ s };

    /// Returns a copy.
    fn clone(&self) -> Result<InstrumentationScope, AllocError> {
        Ok(InstrumentationScope {
            name: self.name.clone()?,
            version: self.version.clone()?,
            schema_url: self.schema_url.clone()?,
            attributes: self.attributes.clone()?,
            positions: self.positions.clone()?,
        })
    }
}

fn attribute_at(attributes: &[KeyValue], position: usize) -> Option<&KeyValue>
    ensures { option_map (λ a. attribute_of a.now) result
        ≡ slice_get (map attribute_of attributes.now) position }
{
    attributes.get(position)
}

// Returns `true` if both lists, each in the order of its positions, have the same attributes.
fn same_in_order(
    left: &[KeyValue],
    left_positions: &[usize],
    right: &[KeyValue],
    right_positions: &[usize],
) -> bool
    ensures { result ≡ order.same_in_order
        (map attribute_of left.now) left_positions.now
        (map attribute_of right.now) right_positions.now }
{
    if left_positions.len() != right_positions.len() {
        return false;
    }
    for (place, position) in left_positions.iter().enumerate() {
        if attribute_at(left, *position) != attribute_at(right, right_positions[place]) {
            return false;
        }
    }
    true
}

impl PartialEq for InstrumentationScope {
    ghost eq = { spec.eq };

    ghost laws = { partial_equiv_from_equiv eq-IsEquivalence };

    /// Returns `true` if both are the same scope. Doesn't allocate.
    fn eq(&self, other: &InstrumentationScope) -> bool
        ensures value { result ≡ spec.eq self.now other.now }
        ensures same { IsTrue result ↔ IsSameScope self.now other.now }
    {
        self.has_texts_of(other)
            && same_in_order(
                &self.attributes,
                &self.positions,
                &other.attributes,
                &other.positions,
            )
    }
}

impl Eq for InstrumentationScope {
    ghost laws = { eq-IsEquivalence };
}

// Hashes the attributes at the positions, in order.
fn hash_in_order<H: Hasher>(attributes: &[KeyValue], positions: &[usize], state: &mut H)
    requires { IsKeyOrder (map attribute_of attributes.now) positions.now }
    ensures { state.new ≡ fold H.write state.old
        (flat_map attribute.hash (in_key_order (map attribute_of attributes.now))) }
{
    for position in positions {
        attributes[*position].hash(state);
    }
}

impl Hash for InstrumentationScope {
    ghost hash_input = { spec.hash };

    ghost respects_eq = { hash-respects };

    /// Hashes the texts, then the attributes in the order of their keys. Doesn't allocate.
    fn hash<H: Hasher>(&self, state: &mut H) {
        self.name.hash(state);
        self.version.hash(state);
        self.schema_url.hash(state);
        hash_in_order(&self.attributes, &self.positions, state);
    }
}

/// Builds an instrumentation scope (the Rust crate's `InstrumentationScopeBuilder`).
///
/// See [`InstrumentationScope`].
#[derive(Debug, Drop)]
pub struct InstrumentationScopeBuilder {
    name: StringValue,
    version: Option<StringValue>,
    schema_url: Option<StringValue>,
    attributes: Option<Vec<KeyValue>>,
}

impl Model for InstrumentationScopeBuilder {
    ghost use Rattle.otel_base.specs.InstrumentationScope.{Scope};
    ghost use Rattle.otel_base.specs.View.{given_attributes};

    ghost Value = { Scope };

    ghost view = { λ s. record {
      name = s.name;
      version = s.version;
      schema_url = s.schema_url;
      attributes = given_attributes s.attributes;
    } };
}

// Compares the keys at two positions. A position without an attribute is less than the others.
fn by_key(attributes: &[KeyValue], a: usize, b: usize) -> Ordering
    ensures { result ≡ position_cmp (map attribute_of attributes.now) a b }
{
    let first = attributes.get(a).map(|x| &x.key);
    let second = attributes.get(b).map(|x| &x.key);
    first.cmp(&second)
}

// Returns the positions of the attributes, sorted by key. Attributes with the same key keep their
// order.
fn key_order(alloc: Global, attributes: &[KeyValue]) -> Result<Vec<usize>, AllocError>
    ensures order { IfOk result (λ v. IsKeyOrder (map attribute_of attributes.now) v.items) }
    ensures empty { length attributes.now ≡ 0 → IsOk result }
{
    let mut positions = Vec::with_capacity(alloc, attributes.len())?;
    for position in 0..attributes.len() {
        positions.push(position)?;
    }
    positions.sort_by(|a, b| by_key(attributes, *a, *b))?;
    Ok(positions)
}

impl InstrumentationScopeBuilder {
    /// Sets the version. Replaces the version of an earlier call.
    pub fn with_version(mut self, version: StringValue) -> InstrumentationScopeBuilder
        ensures { result ≡ spec.with_version version self }
    {
        self.version = Some(version);
        self
    }

    /// Sets the schema URL. Replaces the schema URL of an earlier call.
    pub fn with_schema_url(mut self, schema_url: StringValue) -> InstrumentationScopeBuilder
        ensures { result ≡ spec.with_schema_url schema_url self }
    {
        self.schema_url = Some(schema_url);
        self
    }

    /// Sets the attributes. Replaces the attributes of an earlier call. Keeps their order and
    /// repeated keys.
    pub fn with_attributes(mut self, attributes: Vec<KeyValue>) -> InstrumentationScopeBuilder
        ensures { result ≡ spec.with_attributes (map attribute_of attributes.items) self }
    {
        self.attributes = Some(attributes);
        self
    }

    /// Builds the scope from the given parts.
    ///
    /// Sorts the positions of the attributes by their keys, once. Doesn't allocate if there are no
    /// attributes.
    ///
    /// # Errors
    ///
    /// `AllocError` if out of memory. This is possible only with attributes. The given parts are
    /// dropped.
    pub fn build(self, alloc: Global) -> Result<InstrumentationScope, AllocError>
        ensures built { IfOk result (λ s. s ≡ self) }
        ensures without_memory { self.attributes ≡ [] → IsOk result }
    {
        let attributes = self.attributes.unwrap_or(Vec::new(alloc));
        let positions = key_order(alloc, &attributes)?;
        Ok(InstrumentationScope {
            name: self.name,
            version: self.version,
            schema_url: self.schema_url,
            attributes,
            positions,
        })
    }
}
