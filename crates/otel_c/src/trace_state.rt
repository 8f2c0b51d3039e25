//! Trace states, as the text of a `tracestate` header.
ghost use Rattle.std.specs.Prelude.{◌≡◌, IfOk, IfErr, OnOk, OnErr};
ghost use Rattle.otel_ids.specs.Reading.{Reads};
ghost use Rattle.std.specs.Option.{option_copied};
ghost use Rattle.otel_c.specs.TraceState.{Gets, GetsKey, KeyRefused, Inserts, Deletes, key_at};
ghost use Rattle.otel_c.specs.TraceState.{ReadRefused, GetRefused, InsertRefused, DeleteRefused};
ghost use Rattle.otel_c.specs.Status.{Refuses};

use crate::room::{text_of, write, write_found};
use crate::status::{Status, code};
use otel_ids::TraceState;
use std::alloc::Global;

/// Reads the header.
///
/// # Errors
///
/// `NotText` if it isn't UTF-8. `List`, `Key` or `Value` as specified by [`TraceState::from_str`].
/// `NoMemory` if out of memory.
pub(crate) fn read(alloc: Global, header: &[u8]) -> Result<TraceState, Status>
    ensures read { IfOk result (λ state. Reads header.now state) }
    ensures refused { IfErr result (λ status. ReadRefused header.now status) }
{
    Ok(TraceState::from_str(alloc, text_of(header)?)?)
}

fn get(
    alloc: Global,
    header: &[u8],
    key: &[u8],
    room: &mut [u8],
    written: &mut usize,
) -> Result<(), Status>
    ensures value { OnOk result (Gets header.now key.now room.old room.new written.new) }
    ensures unchanged { OnErr result (room.new ≡ room.old) }
    ensures refused { IfErr result (λ status.
        GetRefused header.now key.now room.old written.new status) }
{
    let state = read(alloc, header)?;
    let Some(value) = state.get(text_of(key)?) else {
        return Err(Status::Absent);
    };
    write(value, room, written)
}

/// Returns the key of the pair at the position, counted from 0.
fn key_at(state: &TraceState, position: usize) -> Option<&str>
    ensures { option_copied result ≡ key_at state.now position }
{
    let (key, _) = state.iter().nth(position)?;
    Some(key)
}

fn key(
    alloc: Global,
    header: &[u8],
    position: usize,
    room: &mut [u8],
    written: &mut usize,
) -> Result<(), Status>
    ensures key { OnOk result (GetsKey header.now position room.old room.new written.new) }
    ensures unchanged { OnErr result (room.new ≡ room.old) }
    ensures refused { IfErr result (λ status.
        KeyRefused header.now position room.old written.new status) }
{
    let state = read(alloc, header)?;
    write_found(key_at(&state, position), room, written)
}

fn insert(
    alloc: Global,
    header: &[u8],
    key: &[u8],
    value: &[u8],
    room: &mut [u8],
    written: &mut usize,
) -> Result<(), Status>
    ensures header { OnOk result (Inserts header.now key.now value.now
        room.old room.new written.new) }
    ensures unchanged { OnErr result (room.new ≡ room.old) }
    ensures refused { IfErr result (λ status.
        InsertRefused header.now key.now value.now room.old written.new status) }
{
    let state = read(alloc, header)?;
    let state = state.insert(alloc, text_of(key)?, text_of(value)?)?;
    let text = state.header(alloc)?;
    write(text.as_str(), room, written)
}

fn delete(
    alloc: Global,
    header: &[u8],
    key: &[u8],
    room: &mut [u8],
    written: &mut usize,
) -> Result<(), Status>
    ensures header { OnOk result (Deletes header.now key.now room.old room.new written.new) }
    ensures unchanged { OnErr result (room.new ≡ room.old) }
    ensures refused { IfErr result (λ status.
        DeleteRefused header.now key.now room.old written.new status) }
{
    let state = read(alloc, header)?;
    let state = state.delete(alloc, text_of(key)?)?;
    let text = state.header(alloc)?;
    write(text.as_str(), room, written)
}

/// Writes the value of the key in the trace state of the header.
#[unsafe(no_mangle)]
pub extern "C" fn otel_trace_state_get(
    alloc: Global,
    header: &[u8],
    key: &[u8],
    room: &mut [u8],
    written: &mut usize,
) -> u32
    ensures value { result ≡ 0 → Gets header.now key.now room.old room.new written.new }
    ensures unchanged { (result ≡ 0 → ⊥) → room.new ≡ room.old }
    ensures refused { (result ≡ 0 → ⊥)
        → Refuses (GetRefused header.now key.now room.old written.new) result }
{
    code(get(alloc, header, key, room, written))
}

/// Writes the key of the pair at the position, counted from 0, in the trace state of the header.
#[unsafe(no_mangle)]
pub extern "C" fn otel_trace_state_key(
    alloc: Global,
    header: &[u8],
    position: usize,
    room: &mut [u8],
    written: &mut usize,
) -> u32
    ensures key { result ≡ 0 → GetsKey header.now position room.old room.new written.new }
    ensures unchanged { (result ≡ 0 → ⊥) → room.new ≡ room.old }
    ensures refused { (result ≡ 0 → ⊥)
        → Refuses (KeyRefused header.now position room.old written.new) result }
{
    code(key(alloc, header, position, room, written))
}

/// Writes the header of the trace state with the pair inserted in front.
#[unsafe(no_mangle)]
pub extern "C" fn otel_trace_state_insert(
    alloc: Global,
    header: &[u8],
    key: &[u8],
    value: &[u8],
    room: &mut [u8],
    written: &mut usize,
) -> u32
    ensures header { result ≡ 0
        → Inserts header.now key.now value.now room.old room.new written.new }
    ensures unchanged { (result ≡ 0 → ⊥) → room.new ≡ room.old }
    ensures refused { (result ≡ 0 → ⊥)
        → Refuses (InsertRefused header.now key.now value.now room.old written.new) result }
{
    code(insert(alloc, header, key, value, room, written))
}

/// Writes the header of the trace state without the pair with the key.
#[unsafe(no_mangle)]
pub extern "C" fn otel_trace_state_delete(
    alloc: Global,
    header: &[u8],
    key: &[u8],
    room: &mut [u8],
    written: &mut usize,
) -> u32
    ensures header { result ≡ 0 → Deletes header.now key.now room.old room.new written.new }
    ensures unchanged { (result ≡ 0 → ⊥) → room.new ≡ room.old }
    ensures refused { (result ≡ 0 → ⊥)
        → Refuses (DeleteRefused header.now key.now room.old written.new) result }
{
    code(delete(alloc, header, key, room, written))
}
