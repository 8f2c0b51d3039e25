//! The baggage of a context.
ghost use Rattle.std.specs.Prelude.{◌≡◌, IfOk, IfErr, OnOk, OnErr, length, string_bytes};
ghost use Rattle.std.specs.Option.{option_copied};
ghost use Rattle.otel_context.specs.BaggageHeader.{header};
ghost use Rattle.otel_propagators.specs.BaggagePropagator.{members};
ghost use Rattle.otel_c.specs.Baggage.{key_at, value_of, metadata_of, header_of, Counts, Shows};
ghost use Rattle.otel_c.specs.Baggage.{ShowRefused, NamedRefused};
ghost use Rattle.otel_c.specs.Context.{CopyRefused};
ghost use Rattle.otel_c.specs.Status.{Refuses};

use crate::context::copy;
use crate::handle::Handle;
use crate::room::{text_of, write_found};
use crate::status::{Status, code};
use opentelemetry::Context;
use std::alloc::{AllocError, Global};

/// Returns the number of members.
fn len_of(context: &Context) -> usize
    ensures { result ≡ length (members context.now) }
{
    match context.baggage() {
        Some(baggage) => baggage.len(),
        None => 0,
    }
}

/// Returns the key of the member at the position, counted from 0.
fn key_at(context: &Context, position: usize) -> Option<&str>
    ensures { option_copied result ≡ key_at context.now position }
{
    let (key, _) = context.baggage()?.iter().nth(position)?;
    Some(key.as_str())
}

/// Returns the value of the member with the key.
fn value_of<'a>(context: &'a Context, key: &str) -> Option<&'a str>
    ensures { option_copied result ≡ value_of context.now key.now }
{
    let value = context.baggage()?.get(key)?;
    Some(value.as_str())
}

/// Returns the metadata of the member with the key.
fn metadata_of<'a>(context: &'a Context, key: &str) -> Option<&'a str>
    ensures { option_copied result ≡ metadata_of context.now key.now }
{
    let (_, metadata) = context.baggage()?.get_with_metadata(key)?;
    Some(metadata.as_str())
}

fn count(alloc: Global, context: &mut Handle, number: &mut usize) -> Result<(), Status>
    ensures number { OnOk result (Counts context.old.object number.new) }
    ensures unchanged { OnErr result (number.new ≡ number.old) }
    ensures kept { context.new.object ≡ context.old.object }
    ensures refused { IfErr result (CopyRefused context.old.object) }
{
    let context = copy(alloc, context)?;
    *number = len_of(&context);
    Ok(())
}

/// Writes the number of members of the context's baggage.
#[unsafe(no_mangle)]
pub extern "C" fn otel_baggage_length(
    alloc: Global,
    context: &mut Handle,
    number: &mut usize,
) -> u32
    ensures number { result ≡ 0 → Counts context.old.object number.new }
    ensures unchanged { (result ≡ 0 → ⊥) → number.new ≡ number.old }
    ensures kept { context.new.object ≡ context.old.object }
    ensures refused { (result ≡ 0 → ⊥) → Refuses (CopyRefused context.old.object) result }
{
    code(count(alloc, context, number))
}

fn key(
    alloc: Global,
    context: &mut Handle,
    position: usize,
    room: &mut [u8],
    written: &mut usize,
) -> Result<(), Status>
    ensures key { OnOk result (Shows (λ c. key_at c position)
        context.old.object room.old room.new written.new) }
    ensures unchanged { OnErr result (room.new ≡ room.old) }
    ensures kept { context.new.object ≡ context.old.object }
    ensures refused { IfErr result (λ status. ShowRefused (λ c. key_at c position)
        context.old.object room.old written.new status) }
{
    let context = copy(alloc, context)?;
    write_found(key_at(&context, position), room, written)
}

/// Writes the key of the member at the position, counted from 0.
#[unsafe(no_mangle)]
pub extern "C" fn otel_baggage_key(
    alloc: Global,
    context: &mut Handle,
    position: usize,
    room: &mut [u8],
    written: &mut usize,
) -> u32
    ensures key { result ≡ 0 → Shows (λ c. key_at c position)
        context.old.object room.old room.new written.new }
    ensures unchanged { (result ≡ 0 → ⊥) → room.new ≡ room.old }
    ensures kept { context.new.object ≡ context.old.object }
    ensures refused { (result ≡ 0 → ⊥) → Refuses (ShowRefused (λ c. key_at c position)
        context.old.object room.old written.new) result }
{
    code(key(alloc, context, position, room, written))
}

fn value(
    alloc: Global,
    context: &mut Handle,
    key: &[u8],
    room: &mut [u8],
    written: &mut usize,
) -> Result<(), Status>
    ensures value { OnOk result (Shows (λ c. value_of c key.now)
        context.old.object room.old room.new written.new) }
    ensures unchanged { OnErr result (room.new ≡ room.old) }
    ensures kept { context.new.object ≡ context.old.object }
    ensures refused { IfErr result (λ status. NamedRefused (λ c. value_of c key.now) key.now
        context.old.object room.old written.new status) }
{
    let key = text_of(key)?;
    let context = copy(alloc, context)?;
    write_found(value_of(&context, key), room, written)
}

/// Writes the value of the member with the key.
#[unsafe(no_mangle)]
pub extern "C" fn otel_baggage_get(
    alloc: Global,
    context: &mut Handle,
    key: &[u8],
    room: &mut [u8],
    written: &mut usize,
) -> u32
    ensures value { result ≡ 0 → Shows (λ c. value_of c key.now)
        context.old.object room.old room.new written.new }
    ensures unchanged { (result ≡ 0 → ⊥) → room.new ≡ room.old }
    ensures kept { context.new.object ≡ context.old.object }
    ensures refused { (result ≡ 0 → ⊥) → Refuses (NamedRefused (λ c. value_of c key.now) key.now
        context.old.object room.old written.new) result }
{
    code(value(alloc, context, key, room, written))
}

fn metadata(
    alloc: Global,
    context: &mut Handle,
    key: &[u8],
    room: &mut [u8],
    written: &mut usize,
) -> Result<(), Status>
    ensures metadata { OnOk result (Shows (λ c. metadata_of c key.now)
        context.old.object room.old room.new written.new) }
    ensures unchanged { OnErr result (room.new ≡ room.old) }
    ensures kept { context.new.object ≡ context.old.object }
    ensures refused { IfErr result (λ status. NamedRefused (λ c. metadata_of c key.now) key.now
        context.old.object room.old written.new status) }
{
    let key = text_of(key)?;
    let context = copy(alloc, context)?;
    write_found(metadata_of(&context, key), room, written)
}

/// Writes the metadata of the member with the key.
#[unsafe(no_mangle)]
pub extern "C" fn otel_baggage_metadata(
    alloc: Global,
    context: &mut Handle,
    key: &[u8],
    room: &mut [u8],
    written: &mut usize,
) -> u32
    ensures metadata { result ≡ 0 → Shows (λ c. metadata_of c key.now)
        context.old.object room.old room.new written.new }
    ensures unchanged { (result ≡ 0 → ⊥) → room.new ≡ room.old }
    ensures kept { context.new.object ≡ context.old.object }
    ensures refused { (result ≡ 0 → ⊥) → Refuses (NamedRefused (λ c. metadata_of c key.now) key.now
        context.old.object room.old written.new) result }
{
    code(metadata(alloc, context, key, room, written))
}

/// Returns the header of the context's baggage, which is empty if it has none.
fn header_of(alloc: Global, context: &Context) -> Result<String, AllocError>
    ensures { IfOk result (λ text. string_bytes text ≡ header (members context.now)) }
{
    match context.baggage() {
        Some(baggage) => format!(in alloc; "{baggage}"),
        None => Ok(String::new(alloc)),
    }
}

fn header(
    alloc: Global,
    context: &mut Handle,
    room: &mut [u8],
    written: &mut usize,
) -> Result<(), Status>
    ensures header { OnOk result (Shows header_of
        context.old.object room.old room.new written.new) }
    ensures unchanged { OnErr result (room.new ≡ room.old) }
    ensures kept { context.new.object ≡ context.old.object }
    ensures refused { IfErr result (λ status.
        ShowRefused header_of context.old.object room.old written.new status) }
{
    let context = copy(alloc, context)?;
    let text = header_of(alloc, &context)?;
    write_found(Some(text.as_str()), room, written)
}

/// Writes the header of the context's baggage.
#[unsafe(no_mangle)]
pub extern "C" fn otel_context_baggage(
    alloc: Global,
    context: &mut Handle,
    room: &mut [u8],
    written: &mut usize,
) -> u32
    ensures header { result ≡ 0
        → Shows header_of context.old.object room.old room.new written.new }
    ensures unchanged { (result ≡ 0 → ⊥) → room.new ≡ room.old }
    ensures kept { context.new.object ≡ context.old.object }
    ensures refused { (result ≡ 0 → ⊥) → Refuses
        (ShowRefused header_of context.old.object room.old written.new) result }
{
    code(header(alloc, context, room, written))
}
