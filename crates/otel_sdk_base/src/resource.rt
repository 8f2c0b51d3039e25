//! Resources: the entities that telemetry describes.
ghost use Rattle.std.specs.Prelude.{◌≡◌, ◌↔◌, [], IfOk, IsTrue, length, map, option_map};
ghost use Rattle.std.specs.Prelude.{string_bytes};
ghost use Rattle.std.specs.Slice.Iter.{iter_rest};
ghost use Rattle.otel_base.specs.View.{attribute_of, value_of};
ghost use Rattle.otel_sdk_base.specs.Resource as spec;
ghost use Rattle.otel_sdk_base.specs.ResourceTexts.{fault, from_texts, reported_piece};

mod texts;

use crate::attributes::{put, put_all};
pub use crate::resource::texts::ResourceTextError;
use crate::resource::texts::{read_attributes, set_service_name};
use otel_base::{Key, KeyValue, StringValue, Value};
use std::alloc::{AllocError, Global};
use std::marker::Model;
use std::slice::Iter;

/// The entity that telemetry describes: attributes with unique keys, in order, and an optional
/// schema URL (the Rust crate's `Resource`).
///
/// ```
/// let resource = Resource::builder(alloc)?
///     .with_service_name(StringValue::from("cart"))?
///     .build();
/// ```
#[derive(Debug, Drop)]
pub struct Resource {
    attributes: Vec<KeyValue>,
    schema_url: Option<StringValue>,
}

impl Model for Resource {
    ghost use Rattle.std.specs.Prelude.{map};
    ghost use Rattle.otel_base.specs.View.{attribute_of};
    ghost use Rattle.otel_sdk_base.specs.Resource.{Parts};

    ghost Value = { Parts };

    ghost view = { λ r. record {
      attributes = map attribute_of r.attributes.items;
      schema_url = r.schema_url;
    } };
}

// Returns the URL, or `None` if it is empty.
fn given(url: Option<StringValue>) -> Option<StringValue>
    ensures { result ≡ spec.given url }
{
    match url {
        Some(url) => {
            if url.as_str().is_empty() {
                return None;
            }
            Some(url)
        }
        None => None,
    }
}

// Returns the URL if only one is given, or if both are equal. Returns `None` if they differ.
fn merged_url(old: Option<StringValue>, new: Option<StringValue>) -> Option<StringValue>
    ensures { result ≡ spec.merged_url old new }
{
    match (old, new) {
        (None, new) => new,
        (old, None) => old,
        (Some(old), Some(new)) => { if old == new { Some(old) } else { None } }
    }
}

impl Resource {
    /// Returns a builder without attributes. Never allocates.
    pub fn builder_empty(alloc: Global) -> ResourceBuilder
        ensures { result ≡ spec.empty }
    {
        ResourceBuilder {
            attributes: Vec::new(alloc),
            schema_url: None,
        }
    }

    /// Returns a builder with the default attributes: `service.name` is `unknown_service`, and
    /// `telemetry.sdk.language`, `telemetry.sdk.name` and `telemetry.sdk.version` name this crate.
    ///
    /// # Errors
    ///
    /// `AllocError` if out of memory.
    pub fn builder(alloc: Global) -> Result<ResourceBuilder, AllocError>
        ensures { IfOk result (λ b. b ≡ spec.with_defaults) }
    {
        let attributes = vec![in alloc;
            text("service.name", "unknown_service"),
            text("telemetry.sdk.language", "rattle"),
            text("telemetry.sdk.name", "otel_sdk"),
            text("telemetry.sdk.version", "0.1.0"),
        ]?;
        Ok(ResourceBuilder {
            attributes,
            schema_url: None,
        })
    }

    /// Reads a resource from the texts of the environment variables `OTEL_RESOURCE_ATTRIBUTES` and
    /// `OTEL_SERVICE_NAME`. The text of a variable that isn't set is empty. The resource has no
    /// other attributes and no schema URL.
    ///
    /// The first text is a comma-separated list of `key=value` pairs, in which escapes such as
    /// `%2C` denote bytes. The service name is set unless it is blank. If a piece of the list is
    /// faulty, none of the list's attributes is used, and the returned error names the piece
    /// (OpenTelemetry specification, "Specifying resource information via an environment
    /// variable").
    ///
    /// # Errors
    ///
    /// `AllocError` if out of memory.
    pub fn from_texts(
        alloc: Global,
        attributes: &str,
        service_name: &str,
    ) -> Result<(Resource, Option<ResourceTextError>), AllocError>
        ensures resource { IfOk result (λ r. r.0 ≡ from_texts attributes.now service_name.now) }
        ensures error { IfOk result (λ r. reported_piece r.1 ≡ fault attributes.now) }
    {
        let (mut attributes, error) = match read_attributes(alloc, attributes)? {
            Ok(attributes) => (attributes, None),
            Err(error) => (Vec::new(alloc), Some(error)),
        };
        set_service_name(alloc, &mut attributes, service_name)?;
        Ok((
            Resource {
                attributes,
                schema_url: None,
            },
            error,
        ))
    }

    /// Merges the updating resource into this one, and returns the result. The updating attributes
    /// are set in turn: their values win, and existing attributes keep their place.
    ///
    /// The schema URL is kept if only one resource has it, or if both have the same one. If the
    /// URLs differ, the result has none. An empty URL counts as none.
    ///
    /// # Errors
    ///
    /// `AllocError` if out of memory. Both resources are dropped.
    pub fn merge(self, updating: Resource) -> Result<Resource, AllocError>
        ensures { IfOk result (λ r. r ≡ spec.merge self updating) }
    {
        let mut attributes = self.attributes;
        put_all(&mut attributes, updating.attributes)?;
        Ok(Resource {
            attributes,
            schema_url: merged_url(given(self.schema_url), given(updating.schema_url)),
        })
    }

    /// Returns the value of the attribute with the key, if there is one.
    pub fn get(&self, key: &str) -> Option<&Value>
        ensures { option_map (λ v. value_of v.now) result ≡ spec.get key.now self.now }
    {
        let found = self
            .attributes
            .iter()
            .find(|attribute| attribute.key.as_str() == key);
        match found {
            Some(attribute) => Some(&attribute.value),
            None => None,
        }
    }

    /// Returns `true` if the resource names a service: its attribute `service.name` isn't
    /// `unknown_service`, the default. Not in the Rust crate.
    pub fn names_service(&self) -> bool
        ensures { result ≡ spec.names_service self.now }
    {
        match self.get("service.name") {
            Some(Value::String(name)) => name.as_str() != "unknown_service",
            Some(_) => true,
            None => false,
        }
    }

    /// Sets the attribute `service.name`, unless the resource names a service. Not in the Rust
    /// crate.
    ///
    /// # Errors
    ///
    /// `AllocError` if out of memory. The resource is dropped.
    pub fn for_service(self, name: StringValue) -> Result<Resource, AllocError>
        ensures { IfOk result (λ r. r ≡ spec.for_service name self) }
    {
        if self.names_service() {
            return Ok(self);
        }
        let builder = ResourceBuilder {
            attributes: self.attributes,
            schema_url: self.schema_url,
        };
        Ok(builder.with_service_name(name)?.build())
    }

    /// Returns the attributes in order.
    pub fn attributes(&self) -> Iter<'_, KeyValue>
        ensures { map attribute_of (iter_rest result) ≡ self.now.attributes }
    {
        self.attributes.iter()
    }

    /// Returns the schema URL, if there is one.
    pub fn schema_url(&self) -> Option<&str>
        ensures { option_map (λ v. v.now) result ≡ self.now.schema_url }
    {
        match &self.schema_url {
            Some(url) => Some(url.as_str()),
            None => None,
        }
    }

    /// Returns the number of attributes.
    pub fn len(&self) -> usize
        ensures { result ≡ length self.now.attributes }
    {
        self.attributes.len()
    }

    /// Returns `true` if there are no attributes.
    pub fn is_empty(&self) -> bool
        ensures { IsTrue result ↔ (self.now.attributes ≡ []) }
    {
        self.attributes.is_empty()
    }
}

// Returns an attribute whose value is a static text.
fn text(key: &'static str, value: &'static str) -> KeyValue
    ensures { attribute_of result ≡ spec.named key.now value.now }
{
    KeyValue::new(Key::from(key), Value::from(value))
}

/// Builds a resource (the Rust crate's `ResourceBuilder`).
///
/// See [`Resource`].
#[derive(Debug, Drop)]
pub struct ResourceBuilder {
    attributes: Vec<KeyValue>,
    schema_url: Option<StringValue>,
}

impl Model for ResourceBuilder {
    ghost use Rattle.std.specs.Prelude.{map};
    ghost use Rattle.otel_base.specs.View.{attribute_of};
    ghost use Rattle.otel_sdk_base.specs.Resource.{Parts};

    ghost Value = { Parts };

    ghost view = { λ r. record {
      attributes = map attribute_of r.attributes.items;
      schema_url = r.schema_url;
    } };
}

impl ResourceBuilder {
    /// Sets the attribute. An existing key keeps its place.
    ///
    /// # Errors
    ///
    /// `AllocError` if out of memory. The builder is dropped.
    pub fn with_attribute(mut self, attribute: KeyValue) -> Result<ResourceBuilder, AllocError>
        ensures { IfOk result (λ b. b ≡ spec.with_attribute (attribute_of attribute) self) }
    {
        put(&mut self.attributes, attribute)?;
        Ok(self)
    }

    /// Sets each of the attributes in turn.
    ///
    /// # Errors
    ///
    /// `AllocError` if out of memory. The builder is dropped.
    pub fn with_attributes(
        mut self,
        attributes: Vec<KeyValue>,
    ) -> Result<ResourceBuilder, AllocError>
        ensures { IfOk result (λ b.
            b ≡ spec.with_attributes (map attribute_of attributes.items) self) }
    {
        put_all(&mut self.attributes, attributes)?;
        Ok(self)
    }

    /// Sets the attribute `service.name`.
    ///
    /// # Errors
    ///
    /// `AllocError` if out of memory. The builder is dropped.
    pub fn with_service_name(self, name: StringValue) -> Result<ResourceBuilder, AllocError>
        ensures { IfOk result (λ b. b ≡ spec.with_service_name name self) }
    {
        self.with_attribute(KeyValue::new(Key::from("service.name"), Value::String(name)))
    }

    /// Sets the schema URL; the last call wins.
    pub fn with_schema_url(mut self, url: StringValue) -> ResourceBuilder
        ensures { result ≡ spec.with_schema_url url self }
    {
        self.schema_url = Some(url);
        self
    }

    /// Builds the resource. Never allocates.
    pub fn build(self) -> Resource
        ensures { result ≡ self }
    {
        Resource {
            attributes: self.attributes,
            schema_url: self.schema_url,
        }
    }
}
