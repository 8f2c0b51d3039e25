//! Reads instrumentation scopes.
ghost use Rattle.std.specs.Prelude.{◌≡◌, IfOk, IfErr, map, string_bytes};
ghost use Rattle.serde_json.specs.View.{view};
ghost use Rattle.otel_base.specs.InstrumentationScope.{Scope};
ghost use Rattle.otel_base.specs.View.{attribute_of};
ghost use Rattle.otel_otlp.specs.ReadMembers.{IsRefused};
ghost use Rattle.otel_otlp.specs.ReadGroups as spec;

use crate::read::error::Fault;
use crate::read::members::{check_object, given_text, member, text};
use crate::read::values::attributes;
use opentelemetry::{InstrumentationScope, InstrumentationScopeBuilder, KeyValue, StringValue};
use serde_json::Value;
use std::alloc::Global;

/// Returns the builder of a scope with these parts.
fn builder_of(
    name: String,
    version: Option<StringValue>,
    url: Option<StringValue>,
    given: Vec<KeyValue>,
) -> InstrumentationScopeBuilder
    ensures { result ≡ record {
      name = string_bytes name;
      version = version;
      schema_url = url;
      attributes = map attribute_of given.items;
    } }
{
    let builder = InstrumentationScope::builder(StringValue::from(name)).with_attributes(given);
    match (version, url) {
        (Some(version), Some(url)) => builder.with_version(version).with_schema_url(url),
        (Some(version), None) => builder.with_version(version),
        (None, Some(url)) => builder.with_schema_url(url),
        (None, None) => builder,
    }
}

/// Reads a scope, which has this schema URL (the protocol's `InstrumentationScope`).
fn scope(
    alloc: Global,
    value: &Value,
    url: Option<StringValue>,
) -> Result<InstrumentationScope, Fault>
    ensures ok { IfOk result (spec.IsScope url (view value.now)) }
    ensures err { IfErr result (λ e. IsRefused e
        → (s : Scope) → ¬ spec.IsScope url (view value.now) s) }
{
    check_object(alloc, value)?;
    let name = text(alloc, value, "name")?;
    let version = given_text(alloc, value, "version")?;
    let given = attributes(alloc, value)?;
    Ok(builder_of(name, version, url, given).build(alloc)?)
}

/// Returns the scope of the group, with an empty name if it is absent.
pub(crate) fn scope_in(
    alloc: Global,
    group: &Value,
    url: Option<StringValue>,
) -> Result<InstrumentationScope, Fault>
    ensures ok { IfOk result (spec.HasScope url (view group.now)) }
    ensures err { IfErr result (λ e. IsRefused e
        → (s : Scope) → ¬ spec.HasScope url (view group.now) s) }
{
    let Some(value) = member(group, "scope") else {
        let builder = builder_of(String::new(alloc), None, url, Vec::new(alloc));
        return Ok(builder.build(alloc)?);
    };
    match scope(alloc, value, url) {
        Ok(scope) => Ok(scope),
        Err(error) => Err(error.within(alloc, "scope")),
    }
}
