//! Reads lines of JSON.
ghost use Rattle.std.specs.Prelude.{List, IfOk, IfErr, map, codes};
ghost use Rattle.serde_json.specs.Errors.{IsMemory};
ghost use Rattle.serde_json.specs.View.{view};
ghost use Rattle.otel_otlp.specs.ReadGroups as spec;
ghost use Rattle.otel_otlp.specs.ReadErrors.{NamesPlace, NamesLine, IsNoJson, IsRefusal};
ghost use Rattle.otel_otlp.specs.ReadMembers.{IsRefused, IsObject, AreIn};

use crate::read::error::{Fault, ReadError, unexpected};
use crate::read::messages::{Message, read_list};
use serde_json::{Error, Value};
use std::alloc::{AllocError, Global};

/// Reads the groups of a batch, a list with this name.
fn groups<M: Message>(alloc: Global, value: &Value, name: &str) -> Result<Vec<M>, Fault>
    ensures object { IfOk result (λ _. IsObject (view value.now)) }
    ensures ok { IfOk result (λ read.
        AreIn M.says name.now (view value.now) (map M.seen read.items)) }
    ensures err { IfErr result (λ e. IsRefused e → (ms : List M.Seen)
        → IsObject (view value.now) → ¬ AreIn M.says name.now (view value.now) ms) }
    ensures no_object { ¬ (IsObject (view value.now))
        → IfErr result (NamesPlace (codes "line") (codes "an object")) }
{
    if !value.is_object() {
        return Err(unexpected(alloc, "line", "an object"));
    }
    read_list::<M>(alloc, value, name)
}

/// Returns the error for a line that isn't read as JSON.
fn no_json(error: Error) -> ReadError
    ensures refusal { IsRefusal result → ¬ IsMemory error }
    ensures told { IsNoJson result }
{
    if error.is_memory() {
        ReadError::Memory(AllocError)
    } else {
        ReadError::Json
    }
}

/// Reads the groups of a line's batch, a list with this name.
pub(crate) fn groups_in_line<M: Message>(
    alloc: Global,
    line: &str,
    name: &str,
) -> Result<Vec<M>, ReadError>
    ensures ok { IfOk result (λ read.
        spec.AreInLine M.says name.now line.now (map M.seen read.items)) }
    ensures err { IfErr result (λ e. IsRefusal e
        → (ms : List M.Seen) → ¬ spec.AreInLine M.says name.now line.now ms) }
    ensures line { IfErr result (NamesLine line.now) }
{
    match Value::from_str(alloc, line) {
        Ok(value) => match groups(alloc, &value, name) {
            Ok(read) => Ok(read),
            Err(fault) => Err(ReadError::from(fault)),
        },
        Err(error) => Err(no_json(error)),
    }
}
