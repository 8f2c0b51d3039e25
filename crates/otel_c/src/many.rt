//! Setting many members of a context's baggage at once.
ghost use Rattle.std.specs.Prelude.{◌≡◌, IfOk, IfErr, OnOk, OnErr, map};
ghost use Rattle.otel_propagators.specs.BaggagePropagator.{members};
ghost use Rattle.otel_c.specs.Member.{given_member, GivesFrom, Makes, PutRefused};
ghost use Rattle.otel_c.specs.Many.{given_of, Puts, PutsAll, GiveRefused, FaultAt};
ghost use Rattle.otel_c.specs.Many.{SetsAll, SetAllRefused, PutAllRefused};
ghost use Rattle.otel_c.specs.Status.{Refuses};

use crate::context::{copy, make};
use crate::handle::Handle;
use crate::member::{baggage_of, insert, reason};
use crate::room::text_of;
use crate::sendable;
use crate::status::{Status, code};
use opentelemetry::Context;
use opentelemetry::baggage::Baggage;
use std::alloc::Global;

/// The texts of a member: `otel_member` in `include/otel.h`.
#[repr(C)]
pub struct MemberTexts<'a> {
    /// The key.
    pub key: &'a [u8],
    /// The value, as it is.
    pub value: &'a [u8],
    /// The metadata.
    pub metadata: &'a [u8],
}

/// Puts the member into the baggage.
///
/// # Errors
///
/// `Unsendable`, `Key`, `Refused` and `NoMemory` as for one member. The baggage is unchanged.
fn put(
    alloc: Global,
    baggage: &mut Baggage,
    key: &str,
    value: &str,
    metadata: &str,
) -> Result<(), Status>
    ensures put { OnOk result (Puts (given_member key.now value.now metadata.now)
        baggage.old baggage.new) }
    ensures refused { IfErr result
        (PutRefused (given_member key.now value.now metadata.now) baggage.old) }
{
    let trimmed = metadata.trim();
    sendable::check(trimmed)?;
    if !baggage.accepts(key, value, trimmed) {
        return Err(reason(alloc, key));
    }
    insert(alloc, baggage, key, value, metadata)?;
    Ok(())
}

/// Puts the member of these texts into the baggage.
///
/// # Errors
///
/// `NotText` if one of them isn't UTF-8. Otherwise as for [`put`].
fn put_texts(alloc: Global, baggage: &mut Baggage, given: &MemberTexts) -> Result<(), Status>
    ensures put { OnOk result (Puts (given_of given.now) baggage.old baggage.new) }
    ensures refused { IfErr result (GiveRefused given.now baggage.old) }
{
    let key = text_of(given.key)?;
    let value = text_of(given.value)?;
    let metadata = text_of(given.metadata)?;
    put(alloc, baggage, key, value, metadata)
}

/// Puts each of the members into the baggage, in order. Writes the position of the last one that it
/// tries.
///
/// # Errors
///
/// The error of [`put_texts`] for that one. The members before it are in the baggage.
fn put_all(
    alloc: Global,
    baggage: &mut Baggage,
    given: &[MemberTexts],
    at: &mut usize,
) -> Result<(), Status>
    ensures all { OnOk result (PutsAll baggage.old (map given_of given.now) baggage.new) }
    ensures refused { IfErr result (FaultAt baggage.old given.now at.new) }
{
    for position in 0..given.len() {
        *at = position;
        put_texts(alloc, baggage, &given[position])?;
    }
    Ok(())
}

/// Returns a copy of the context with each of the members in its baggage, in linear time: the
/// baggage is copied once.
///
/// # Errors
///
/// As for [`put_all`], and `NoMemory` if out of memory.
fn with_all(
    alloc: Global,
    context: &Context,
    given: &[MemberTexts],
    at: &mut usize,
) -> Result<Context, Status>
    ensures members { IfOk result (SetsAll (map given_of given.now) context.now) }
    ensures refused { IfErr result
        (PutAllRefused (members context.now) given.now at.new) }
{
    let mut baggage = baggage_of(alloc, context)?;
    put_all(alloc, &mut baggage, given, at)?;
    Ok(context.with_baggage(alloc, baggage)?)
}

fn set_all_in(
    alloc: Global,
    context: &mut Handle,
    given: &[MemberTexts],
    at: &mut usize,
) -> Result<Context, Status>
    ensures members { IfOk result
        (GivesFrom (SetsAll (map given_of given.now)) context.old.object) }
    ensures kept { context.new.object ≡ context.old.object }
    ensures refused { IfErr result (SetAllRefused given.now context.old.object at.new) }
{
    let context = copy(alloc, context)?;
    with_all(alloc, &context, given, at)
}

fn set_all(
    alloc: Global,
    context: &mut Handle,
    given: &[MemberTexts],
    at: &mut usize,
    changed: &mut Handle,
) -> Result<(), Status>
    ensures members { OnOk result (Makes (SetsAll (map given_of given.now))
        context.old.object changed.new.object) }
    ensures unchanged { OnErr result (changed.new.object ≡ changed.old.object) }
    ensures kept { context.new.object ≡ context.old.object }
    ensures refused { IfErr result (SetAllRefused given.now context.old.object at.new) }
{
    let given = set_all_in(alloc, context, given, at)?;
    make(alloc, changed, given)
}

/// Puts the context with each of the members in its baggage, in order, into the other handle, and
/// frees the object that this held. Writes the position of the first member that is refused.
///
/// # Errors
///
/// If a member is refused, the number of the status that `otel_baggage_set` would return for it
/// after the members before it: `NotText`, `Unsendable`, `Key` or `Refused`. `Invalid` if the first
/// handle holds no context. `NoMemory` if out of memory. Both handles are unchanged.
#[unsafe(no_mangle)]
pub extern "C" fn otel_baggage_set_all(
    alloc: Global,
    context: &mut Handle,
    given: &[MemberTexts],
    changed: &mut Handle,
    failed: &mut usize,
) -> u32
    ensures members { result ≡ 0 → Makes (SetsAll (map given_of given.now))
        context.old.object changed.new.object }
    ensures unchanged { (result ≡ 0 → ⊥) → changed.new.object ≡ changed.old.object }
    ensures kept { context.new.object ≡ context.old.object }
    ensures refused { (result ≡ 0 → ⊥)
        → Refuses (SetAllRefused given.now context.old.object failed.new) result }
{
    code(set_all(alloc, context, given, failed, changed))
}
