//! Fills a baggage, reads it and prints it.
ghost use Rattle.std.specs.Prelude.{◌≡◌, IfOk, codes, string_bytes, option_map};
ghost use Rattle.otel_context.specs.Baggage.{get};
ghost use Rattle.otel_examples.specs.Baggage.{of_tenant};

use opentelemetry::baggage::Baggage;
use opentelemetry::{Key, StringValue};
use std::alloc::{AllocError, Global};

/// Returns a baggage with a tenant and a region.
///
/// # Errors
///
/// `AllocError` if out of memory.
pub fn of_tenant(alloc: Global) -> Result<Baggage, AllocError>
    ensures { IfOk result (λ baggage. baggage ≡ of_tenant) }
{
    let mut baggage = Baggage::new(alloc);
    baggage.insert(Key::from("tenant"), StringValue::from("acme"))?;
    baggage.insert(Key::from("region"), StringValue::from("eu west"))?;
    Ok(baggage)
}

/// Returns the region of a baggage, if it has one.
pub fn region(baggage: &Baggage) -> Option<&str>
    ensures { option_map (λ region. region.now) result ≡ get baggage.now (codes "region") }
{
    let region = baggage.get("region")?;
    Some(region.as_str())
}

/// Returns the baggage of a tenant as the value of a `baggage` header.
///
/// # Errors
///
/// `AllocError` if out of memory.
pub fn tenant_header(alloc: Global) -> Result<String, AllocError>
    ensures { IfOk result (λ header.
        string_bytes header ≡ codes "tenant=acme,region=eu%20west") }
{
    let baggage = of_tenant(alloc)?;
    format!(in alloc; "{baggage}")
}
