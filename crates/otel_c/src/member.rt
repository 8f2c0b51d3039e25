//! Setting and removing members of a context's baggage.
ghost use Rattle.std.specs.Prelude.{◌≡◌, IfOk, IfErr, OnOk, OnErr};
ghost use Rattle.otel_context.specs.Baggage.{accepts, insert};
ghost use Rattle.otel_context.specs.BaggageMember.{member_of};
ghost use Rattle.otel_context.specs.BaggageView.{entry_member};
ghost use Rattle.otel_propagators.specs.BaggagePropagator.{members};
ghost use Rattle.otel_c.specs.Member.{given_member, reason, SetsMember, RemovesMember};
ghost use Rattle.otel_c.specs.Member.{ClearsBaggage, GivesFrom, Makes};
ghost use Rattle.otel_c.specs.Member.{PutRefused, SetRefused, RemoveRefused};
ghost use Rattle.otel_c.specs.Context.{CopyRefused};
ghost use Rattle.otel_c.specs.Status.{Refuses};

use crate::context::{copy, make};
use crate::handle::Handle;
use crate::room::text_of;
use crate::sendable;
use crate::status::{Status, code};
use opentelemetry::baggage::{Baggage, BaggageMetadata};
use opentelemetry::{Context, Key, StringValue};
use std::alloc::{AllocError, Global};

/// Puts a copy of the member into the baggage, if it is accepted.
fn copy_member(
    baggage: &mut Baggage,
    key: &Key,
    pair: &(StringValue, BaggageMetadata),
) -> Result<(), AllocError>
    ensures { OnOk result
        (baggage.new ≡ insert baggage.old (entry_member (key.now, pair.now))) }
{
    let (value, metadata) = pair;
    drop(baggage.insert_with_metadata(key.clone()?, value.clone()?, metadata.clone()?)?);
    Ok(())
}

/// Returns a baggage with the same members.
fn copied(alloc: Global, held: &Baggage) -> Result<Baggage, AllocError>
    ensures { IfOk result (λ copy. copy ≡ held.now) }
{
    let mut copy = Baggage::new(alloc);
    for (key, pair) in held.iter() {
        copy_member(&mut copy, key, pair)?;
    }
    Ok(copy)
}

/// Returns a baggage with the context's members.
pub(crate) fn baggage_of(alloc: Global, context: &Context) -> Result<Baggage, AllocError>
    ensures { IfOk result (λ baggage. baggage ≡ members context.now) }
{
    match context.baggage() {
        Some(held) => copied(alloc, held),
        None => Ok(Baggage::new(alloc)),
    }
}

/// Returns `true` if the context's baggage accepts the member.
fn accepts(alloc: Global, context: &Context, key: &str, value: &str, metadata: &str) -> bool
    ensures { result
        ≡ accepts (members context.now) (member_of key.now value.now metadata.now) }
{
    match context.baggage() {
        Some(held) => held.accepts(key, value, metadata),
        None => Baggage::new(alloc).accepts(key, value, metadata),
    }
}

/// Returns the reason why a baggage refuses a member with the key.
pub(crate) fn reason(alloc: Global, key: &str) -> Status
    ensures { result ≡ reason key.now }
{
    let empty = Baggage::new(alloc);
    if empty.accepts(key, "", "") {
        Status::Refused
    } else {
        Status::Key
    }
}

/// Puts the member into the baggage, if it is accepted.
pub(crate) fn insert(
    alloc: Global,
    baggage: &mut Baggage,
    key: &str,
    value: &str,
    metadata: &str,
) -> Result<(), AllocError>
    ensures { OnOk result
        (baggage.new ≡ insert baggage.old (given_member key.now value.now metadata.now)) }
{
    let key = Key::from(String::from_str(alloc, key)?);
    let value = StringValue::from(String::from_str(alloc, value)?);
    let metadata = BaggageMetadata::new(alloc, metadata)?;
    drop(baggage.insert_with_metadata(key, value, metadata)?);
    Ok(())
}

/// Returns a copy of the context with the member in its baggage.
///
/// # Errors
///
/// `Unsendable` if no header can carry the metadata. `Key` if no baggage can have the key.
/// `Refused` if the baggage would have more than 64 members or 8192 bytes. `NoMemory` if out of
/// memory.
fn with_member(
    alloc: Global,
    context: &Context,
    key: &str,
    value: &str,
    metadata: &str,
) -> Result<Context, Status>
    ensures member { IfOk result
        (SetsMember (given_member key.now value.now metadata.now) context.now) }
    ensures refused { IfErr result
        (PutRefused (given_member key.now value.now metadata.now) (members context.now)) }
{
    let trimmed = metadata.trim();
    sendable::check(trimmed)?;
    // Asks the baggage first, so a refusal copies nothing.
    if !accepts(alloc, context, key, value, trimmed) {
        return Err(reason(alloc, key));
    }
    let mut baggage = baggage_of(alloc, context)?;
    insert(alloc, &mut baggage, key, value, metadata)?;
    Ok(context.with_baggage(alloc, baggage)?)
}

/// Returns a copy of the context without the member with the key.
fn without_member(alloc: Global, context: &Context, key: &str) -> Result<Context, AllocError>
    ensures { IfOk result (RemovesMember key.now context.now) }
{
    let mut baggage = baggage_of(alloc, context)?;
    drop(baggage.remove(key));
    context.with_baggage(alloc, baggage)
}

fn set_in(
    alloc: Global,
    context: &mut Handle,
    key: &[u8],
    value: &[u8],
    metadata: &[u8],
) -> Result<Context, Status>
    ensures member { IfOk result (GivesFrom
        (SetsMember (given_member key.now value.now metadata.now)) context.old.object) }
    ensures kept { context.new.object ≡ context.old.object }
    ensures refused { IfErr result
        (SetRefused key.now value.now metadata.now context.old.object) }
{
    let key = text_of(key)?;
    let value = text_of(value)?;
    let metadata = text_of(metadata)?;
    let context = copy(alloc, context)?;
    with_member(alloc, &context, key, value, metadata)
}

fn remove_in(alloc: Global, context: &mut Handle, key: &[u8]) -> Result<Context, Status>
    ensures context { IfOk result (GivesFrom (RemovesMember key.now) context.old.object) }
    ensures kept { context.new.object ≡ context.old.object }
    ensures refused { IfErr result (RemoveRefused key.now context.old.object) }
{
    let key = text_of(key)?;
    let context = copy(alloc, context)?;
    Ok(without_member(alloc, &context, key)?)
}

fn clear_in(alloc: Global, context: &mut Handle) -> Result<Context, Status>
    ensures context { IfOk result (GivesFrom ClearsBaggage context.old.object) }
    ensures kept { context.new.object ≡ context.old.object }
    ensures refused { IfErr result (CopyRefused context.old.object) }
{
    let context = copy(alloc, context)?;
    Ok(context.with_cleared_baggage(alloc)?)
}

fn set(
    alloc: Global,
    context: &mut Handle,
    key: &[u8],
    value: &[u8],
    metadata: &[u8],
    changed: &mut Handle,
) -> Result<(), Status>
    ensures member { OnOk result (Makes (SetsMember (given_member key.now value.now metadata.now))
        context.old.object changed.new.object) }
    ensures unchanged { OnErr result (changed.new.object ≡ changed.old.object) }
    ensures kept { context.new.object ≡ context.old.object }
    ensures refused { IfErr result
        (SetRefused key.now value.now metadata.now context.old.object) }
{
    let given = set_in(alloc, context, key, value, metadata)?;
    make(alloc, changed, given)
}

fn remove(
    alloc: Global,
    context: &mut Handle,
    key: &[u8],
    changed: &mut Handle,
) -> Result<(), Status>
    ensures context { OnOk result (Makes (RemovesMember key.now)
        context.old.object changed.new.object) }
    ensures unchanged { OnErr result (changed.new.object ≡ changed.old.object) }
    ensures kept { context.new.object ≡ context.old.object }
    ensures refused { IfErr result (RemoveRefused key.now context.old.object) }
{
    let given = remove_in(alloc, context, key)?;
    make(alloc, changed, given)
}

fn clear(alloc: Global, context: &mut Handle, changed: &mut Handle) -> Result<(), Status>
    ensures context { OnOk result (Makes ClearsBaggage
        context.old.object changed.new.object) }
    ensures unchanged { OnErr result (changed.new.object ≡ changed.old.object) }
    ensures kept { context.new.object ≡ context.old.object }
    ensures refused { IfErr result (CopyRefused context.old.object) }
{
    let given = clear_in(alloc, context)?;
    make(alloc, changed, given)
}

/// Puts the context with the member in its baggage into the other handle, and frees the object that
/// this held.
#[unsafe(no_mangle)]
pub extern "C" fn otel_baggage_set(
    alloc: Global,
    context: &mut Handle,
    key: &[u8],
    value: &[u8],
    metadata: &[u8],
    changed: &mut Handle,
) -> u32
    ensures member { result ≡ 0
        → Makes (SetsMember (given_member key.now value.now metadata.now))
        context.old.object changed.new.object }
    ensures unchanged { (result ≡ 0 → ⊥) → changed.new.object ≡ changed.old.object }
    ensures kept { context.new.object ≡ context.old.object }
    ensures refused { (result ≡ 0 → ⊥)
        → Refuses (SetRefused key.now value.now metadata.now context.old.object) result }
{
    code(set(alloc, context, key, value, metadata, changed))
}

/// Puts the context without the member with the key into the other handle, and frees the object
/// that this held.
#[unsafe(no_mangle)]
pub extern "C" fn otel_baggage_remove(
    alloc: Global,
    context: &mut Handle,
    key: &[u8],
    changed: &mut Handle,
) -> u32
    ensures context { result ≡ 0
        → Makes (RemovesMember key.now) context.old.object changed.new.object }
    ensures unchanged { (result ≡ 0 → ⊥) → changed.new.object ≡ changed.old.object }
    ensures kept { context.new.object ≡ context.old.object }
    ensures refused { (result ≡ 0 → ⊥)
        → Refuses (RemoveRefused key.now context.old.object) result }
{
    code(remove(alloc, context, key, changed))
}

/// Puts the context without its baggage into the other handle, and frees the object that this held.
#[unsafe(no_mangle)]
pub extern "C" fn otel_baggage_clear(
    alloc: Global,
    context: &mut Handle,
    changed: &mut Handle,
) -> u32
    ensures context { result ≡ 0
        → Makes ClearsBaggage context.old.object changed.new.object }
    ensures unchanged { (result ≡ 0 → ⊥) → changed.new.object ≡ changed.old.object }
    ensures kept { context.new.object ≡ context.old.object }
    ensures refused { (result ≡ 0 → ⊥) → Refuses (CopyRefused context.old.object) result }
{
    code(clear(alloc, context, changed))
}
