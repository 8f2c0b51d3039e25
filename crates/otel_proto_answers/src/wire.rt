//! One field of a message, with its tag.
ghost use Rattle.otel_proto.specs.Wire.{varint_at, prefixed, value_at, item_at};
ghost use Rattle.otel_proto_answers.specs.Parts.{Reads, content_of, varint_in, fixed64_at};
ghost use Rattle.otel_proto_answers.specs.Parts.{fixed32_at, content_at, item_of};

/// The most bytes of a varint.
const MAX_VARINT_LEN: u32 = 10;

/// The highest number of a field.
const MAX_NUMBER: u64 = (1 << 29) - 1;

/// The wire type of a varint.
const VARINT: u64 = 0;
/// The wire type of 8 bytes.
const FIXED64: u64 = 1;
/// The wire type of bytes after their length.
const BYTES: u64 = 2;
/// The wire type of the start of a group.
const GROUP_START: u64 = 3;
/// The wire type of the end of a group.
const GROUP_END: u64 = 4;
/// The wire type of 4 bytes.
const FIXED32: u64 = 5;

/// The content of a field, by its wire type.
#[derive(Clone, Copy)]
pub(crate) enum Content<'a> {
    /// A varint.
    Varint(u64),
    /// 8 bytes, the lowest first.
    Fixed64(u64),
    /// Bytes after their length.
    Bytes(&'a [u8]),
    /// 4 bytes, the lowest first.
    Fixed32(u32),
}

/// A field of a message.
#[derive(Clone, Copy)]
pub(crate) struct Field<'a> {
    /// The number.
    pub number: u32,
    /// The content.
    pub content: Content<'a>,
}

/// A tag with the value after it.
#[derive(Clone, Copy)]
pub(crate) enum Item<'a> {
    /// A field.
    Field(Field<'a>),
    /// The start of a group of this number.
    GroupStart(u32),
    /// The end of a group of this number.
    GroupEnd(u32),
}

/// Reads a varint of at most `count` bytes. `None` if the bytes begin with none.
fn varint_within(bytes: &[u8], count: u32) -> Option<(u64, &[u8])>
    ensures { Reads (λ v. v) result (varint_in count bytes.now) }
{
    if count == 0 {
        return None;
    }
    match bytes {
        [] => None,
        [byte, rest @ ..] => {
            if *byte < 128 {
                return Some((u64::from(*byte), rest));
            }
            let (high, rest) = varint_within(rest, count - 1)?;
            let low = u64::from(*byte - 128);
            Some((high.wrapping_mul(128).wrapping_add(low), rest))
        }
    }
}

/// Reads a varint. `None` if the bytes begin with none.
fn varint(bytes: &[u8]) -> Option<(u64, &[u8])>
    ensures { Reads (λ v. v) result (varint_at bytes.now) }
{
    varint_within(bytes, MAX_VARINT_LEN)
}

/// Reads bytes after their length. `None` if the length is none, or passes the end.
fn prefixed(bytes: &[u8]) -> Option<(&[u8], &[u8])>
    ensures { Reads (λ s. s.now) result (prefixed bytes.now) }
{
    let (length, rest) = varint(bytes)?;
    rest.split_at_checked(length as usize)
}

/// Reads 8 bytes, the lowest first. `None` if there are fewer.
fn fixed64(bytes: &[u8]) -> Option<(u64, &[u8])>
    ensures { Reads (λ v. v) result (fixed64_at bytes.now) }
{
    let (front, rest) = bytes.split_first_chunk::<8>()?;
    Some((u64::from_le_bytes(*front), rest))
}

/// Reads 4 bytes, the lowest first. `None` if there are fewer.
fn fixed32(bytes: &[u8]) -> Option<(u32, &[u8])>
    ensures { Reads (λ v. v) result (fixed32_at bytes.now) }
{
    let (front, rest) = bytes.split_first_chunk::<4>()?;
    Some((u32::from_le_bytes(*front), rest))
}

/// Reads the content of a field of the wire type. `None` if the bytes begin with none, or if fields
/// have no such type.
fn field_content(kind: u64, bytes: &[u8]) -> Option<(Content<'_>, &[u8])>
    ensures { Reads content_of result (content_at kind bytes.now) }
{
    match kind {
        VARINT => {
            let (value, rest) = varint(bytes)?;
            Some((Content::Varint(value), rest))
        }
        FIXED64 => {
            let (value, rest) = fixed64(bytes)?;
            Some((Content::Fixed64(value), rest))
        }
        BYTES => {
            let (value, rest) = prefixed(bytes)?;
            Some((Content::Bytes(value), rest))
        }
        FIXED32 => {
            let (value, rest) = fixed32(bytes)?;
            Some((Content::Fixed32(value), rest))
        }
        _ => None,
    }
}

/// Reads what follows a tag: a field's content, or nothing after the tag of a group. `None` if the
/// bytes begin with no value of the wire type.
fn value(number: u32, kind: u64, bytes: &[u8]) -> Option<(Item<'_>, &[u8])>
    ensures { Reads item_of result (value_at number kind bytes.now) }
{
    match kind {
        GROUP_START => Some((Item::GroupStart(number), bytes)),
        GROUP_END => Some((Item::GroupEnd(number), bytes)),
        _ => {
            let (content, rest) = field_content(kind, bytes)?;
            Some((Item::Field(Field { number, content }), rest))
        }
    }
}

/// Reads a tag and what follows it. `None` if the bytes begin with none.
pub(crate) fn read_item(bytes: &[u8]) -> Option<(Item<'_>, &[u8])>
    ensures { Reads item_of result (item_at bytes.now) }
{
    let (tag, rest) = varint(bytes)?;
    let number = tag / 8;
    if number == 0 || number > MAX_NUMBER {
        return None;
    }
    value(number as u32, tag % 8, rest)
}
