//! Reads lists of messages.
ghost use Rattle.std.specs.Prelude.{List, IfOk, IfErr, map};
ghost use Rattle.std.specs.List.{AllZip};
ghost use Rattle.serde_json.specs.View.{view};
ghost use Rattle.otel_otlp.specs.ReadMembers.{IsRefused, AreIn};

use crate::read::error::Fault;
use crate::read::members::items;
use serde_json::Value;
use std::alloc::Global;

/// A message of the protocol that lists contain.
///
/// The ghost member `says` relates the JSON of a message and the message as contracts see it, which
/// `seen` gives.
pub(crate) trait Message: Sized + Drop {
    ghost use Rattle.std.specs.Prelude.{IfOk, IfErr};
    ghost use Rattle.serde_json.specs.Data.{Data};
    ghost use Rattle.serde_json.specs.View.{view};
    ghost use Rattle.otel_otlp.specs.ReadMembers.{IsRefused};

    ghost Seen: { Type 0 };

    ghost seen: { Self → Seen };

    ghost says: { Data → Seen → Type 0 };

    /// Reads the message.
    ///
    /// # Errors
    ///
    /// `Unexpected` if the value isn't such a message; `Memory` if out of memory.
    fn read(alloc: Global, value: &Value) -> Result<Self, Fault>
        ensures ok { IfOk result (λ message. says (view value.now) (seen message)) }
        ensures err { IfErr result (λ e. IsRefused e → (m : Seen) → ¬ says (view value.now) m) };
}

/// Reads each of the messages.
fn read_each<M: Message>(alloc: Global, values: &[Value]) -> Result<Vec<M>, Fault>
    ensures ok { IfOk result (λ read.
        AllZip M.says (map view values.now) (map M.seen read.items)) }
    ensures err { IfErr result (λ e. IsRefused e
        → (ms : List M.Seen) → ¬ AllZip M.says (map view values.now) ms) }
{
    let mut read = Vec::with_capacity(alloc, values.len())?;
    for (index, value) in values.iter().enumerate() {
        match M::read(alloc, value) {
            Ok(message) => read.push(message)?,
            Err(error) => return Err(error.in_item(alloc, index)),
        }
    }
    Ok(read)
}

/// Reads the messages of the list, none if it is absent.
pub(crate) fn read_list<M: Message>(
    alloc: Global,
    object: &Value,
    name: &str,
) -> Result<Vec<M>, Fault>
    ensures ok { IfOk result (λ read.
        AreIn M.says name.now (view object.now) (map M.seen read.items)) }
    ensures err { IfErr result (λ e. IsRefused e
        → (ms : List M.Seen) → ¬ AreIn M.says name.now (view object.now) ms) }
{
    let values = items(alloc, object, name)?;
    match read_each(alloc, values) {
        Ok(read) => Ok(read),
        Err(error) => Err(error.within(alloc, name)),
    }
}
