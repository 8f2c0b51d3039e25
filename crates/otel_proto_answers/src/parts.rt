//! The parts of a message: its fields, and groups, which are skipped.
ghost use Rattle.std.specs.Prelude.{◌<◌, length, IfSome};
ghost use Rattle.otel_proto_answers.specs.Parts.{IsAfterGroup, IsFirst};

use crate::wire::{Field, Item, read_item};

/// The most groups within each other.
const MAX_GROUPS: u32 = 100;

/// Returns the bytes after the end of a group that has begun within `depth` others. `None` if it
/// doesn't end, or if groups within it are too deep.
fn after_group(bytes: &[u8], number: u32, depth: u32) -> Option<&[u8]>
    requires { depth < MAX_GROUPS }
    ensures after { IsAfterGroup number depth bytes.now result }
    ensures shorter { IfSome result (λ r. length r.now < length bytes.now) }
{
    let mut rest = bytes;
    while !rest.is_empty() {
        let (item, after) = read_item(rest)?;
        match item {
            Item::Field(_) => rest = after,
            Item::GroupStart(inner) => {
                if depth + 1 == MAX_GROUPS {
                    return None;
                }
                rest = after_group(after, inner, depth + 1)?;
            }
            Item::GroupEnd(ended) => {
                return if ended == number { Some(after) } else { None };
            }
        }
    }
    None
}

/// Reads the first field or group, and returns the field. `None` if the bytes begin with none.
pub(crate) fn first_part(bytes: &[u8]) -> Option<(Option<Field<'_>>, &[u8])>
    requires { 0 < length bytes.now }
    ensures { IsFirst bytes.now result }
{
    let (item, rest) = read_item(bytes)?;
    match item {
        Item::Field(field) => Some((Some(field), rest)),
        Item::GroupStart(number) => {
            let rest = after_group(rest, number, 0)?;
            Some((None, rest))
        }
        Item::GroupEnd(_) => None,
    }
}
