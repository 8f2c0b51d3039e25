//! Reads resources.
ghost use Rattle.std.specs.Prelude.{◌≡◌, List, IfOk, IfErr, map};
ghost use Rattle.serde_json.specs.View.{view};
ghost use Rattle.otel_base.specs.KeyValue.{Attribute};
ghost use Rattle.otel_base.specs.View.{attribute_of};
ghost use Rattle.otel_sdk_base.specs.Resource.{Parts};
ghost use Rattle.otel_otlp.specs.Common.{unique};
ghost use Rattle.otel_otlp.specs.ReadGroups as spec;
ghost use Rattle.otel_otlp.specs.ReadMembers.{IsRefused};

use crate::read::error::Fault;
use crate::read::members::{check_object, given_text, member};
use crate::read::values::attributes;
use opentelemetry::{KeyValue, StringValue};
use otel_sdk_base::resource::Resource;
use serde_json::Value;
use std::alloc::{AllocError, Global};

/// Returns the resource with these attributes, each set in turn, and this schema URL.
fn resource_of(
    alloc: Global,
    given: Vec<KeyValue>,
    url: Option<StringValue>,
) -> Result<Resource, AllocError>
    ensures { IfOk result (λ r. r ≡ record {
      attributes = unique (map attribute_of given.items);
      schema_url = url;
    }) }
{
    let builder = Resource::builder_empty(alloc).with_attributes(given)?;
    match url {
        Some(url) => Ok(builder.with_schema_url(url).build()),
        None => Ok(builder.build()),
    }
}

/// Reads the attributes of a resource (the protocol's `Resource`).
fn resource_attributes(alloc: Global, value: &Value) -> Result<Vec<KeyValue>, Fault>
    ensures ok { IfOk result (λ read.
        spec.IsResource (view value.now) (map attribute_of read.items)) }
    ensures err { IfErr result (λ e. IsRefused e
        → (xs : List Attribute) → ¬ spec.IsResource (view value.now) xs) }
{
    check_object(alloc, value)?;
    let given = attributes(alloc, value)?;
    Ok(given)
}

/// Returns the attributes of the group's resource, none if it is absent.
fn attributes_in(alloc: Global, group: &Value) -> Result<Vec<KeyValue>, Fault>
    ensures ok { IfOk result (λ read.
        spec.HasResourceAttributes (view group.now) (map attribute_of read.items)) }
    ensures err { IfErr result (λ e. IsRefused e
        → (xs : List Attribute) → ¬ spec.HasResourceAttributes (view group.now) xs) }
{
    let Some(value) = member(group, "resource") else {
        return Ok(Vec::new(alloc));
    };
    match resource_attributes(alloc, value) {
        Ok(given) => Ok(given),
        Err(error) => Err(error.within(alloc, "resource")),
    }
}

/// Returns the resource of the group.
pub(crate) fn resource_in(alloc: Global, group: &Value) -> Result<Resource, Fault>
    ensures ok { IfOk result (spec.HasResource (view group.now)) }
    ensures err { IfErr result (λ e. IsRefused e
        → (r : Parts) → ¬ spec.HasResource (view group.now) r) }
{
    let given = attributes_in(alloc, group)?;
    let url = given_text(alloc, group, "schemaUrl")?;
    Ok(resource_of(alloc, given, url)?)
}
