//! Arrays: lists of values of one type.
ghost use Rattle.std.specs.Prelude.{◌≡◌, ◌↔◌, ℕ, List, IfOk, IsTrue, Some, map};
ghost use Rattle.std.specs.Cmp.{on_per, partial_equiv_from_equiv};
ghost use Rattle.std.specs.Fmt.{WritesOnOk, signed_decimal};
ghost use Rattle.otel_base.specs.Array as spec;
ghost use Rattle.otel_base.specs.Array.{bracketed, boolean_text, quoted, booleans, integers, texts};
ghost use Rattle.otel_base.specs.Appends.{Appends};
ghost use Rattle.otel_base.specs.View.{array_of};
ghost use Rattle.otel_base.specs.KeyValueLaws.{array_eq-Decides, equiv_from_decides};

use crate::string_value::StringValue;
use itoa::Buffer;
use std::alloc::AllocError;
use std::fmt;

/// A list of values of one type (the Rust crate's `Array`, without its floats).
///
/// Arrays of different types are never equal, even if both are empty.
///
/// See [`Value`](crate::Value).
#[derive(Debug, Drop)]
pub enum Array {
    /// A list of booleans.
    Bool(Vec<bool>),
    /// A list of integers.
    I64(Vec<i64>),
    /// A list of texts.
    String(Vec<StringValue>),
}

impl From<Vec<bool>> for Array {
    ghost from_gives = { λ v a. array_of a ≡ booleans v.items };

    /// Creates an array of these booleans.
    fn from(bools: Vec<bool>) -> Array {
        Array::Bool(bools)
    }
}

impl From<Vec<i64>> for Array {
    ghost from_gives = { λ v a. array_of a ≡ integers v.items };

    /// Creates an array of these integers.
    fn from(integers: Vec<i64>) -> Array {
        Array::I64(integers)
    }
}

impl From<Vec<StringValue>> for Array {
    ghost from_gives = { λ v a. array_of a ≡ texts v.items };

    /// Creates an array of these texts.
    fn from(texts: Vec<StringValue>) -> Array {
        Array::String(texts)
    }
}

impl Clone for Array {
    ghost is_clone = { λ a copy. array_of copy ≡ array_of a };

    /// Returns a copy.
    fn clone(&self) -> Result<Array, AllocError> {
        match self {
            Array::Bool(items) => Ok(Array::Bool(items.clone()?)),
            Array::I64(items) => Ok(Array::I64(items.clone()?)),
            Array::String(items) => Ok(Array::String(items.clone()?)),
        }
    }
}

impl PartialEq for Array {
    ghost eq = { λ a b. spec.eq (array_of a) (array_of b) };

    ghost laws = { on_per array_of (partial_equiv_from_equiv
        (equiv_from_decides spec.eq array_eq-Decides)) };

    /// Returns `true` if both have the same type and the same items in the same order.
    fn eq(&self, other: &Array) -> bool
        ensures value { result ≡ spec.eq (array_of self.now) (array_of other.now) }
        ensures same { IsTrue result ↔ (array_of self.now ≡ array_of other.now) }
    {
        match (self, other) {
            (Array::Bool(a), Array::Bool(b)) => a == b,
            (Array::I64(a), Array::I64(b)) => a == b,
            (Array::String(a), Array::String(b)) => a == b,
            _ => false,
        }
    }
}

// An item of an array, with its printed text.
trait Item {
    ghost text: { Self → List ℕ };

    fn write_item<W: fmt::Write>(&self, f: &mut fmt::Formatter<W>) -> fmt::Result
        ensures { WritesOnOk W.write_str_gives f.old result (text self.now) f.new };

    fn append_item(&self, out: &mut String) -> Result<(), AllocError>
        ensures { Appends result out.old (text self.now) out.new };
}

impl Item for bool {
    ghost text = { boolean_text };

    fn write_item<W: fmt::Write>(&self, f: &mut fmt::Formatter<W>) -> fmt::Result {
        write!(f, "{self}")
    }

    fn append_item(&self, out: &mut String) -> Result<(), AllocError> {
        append_boolean(*self, out)
    }
}

impl Item for i64 {
    ghost text = { signed_decimal };

    fn write_item<W: fmt::Write>(&self, f: &mut fmt::Formatter<W>) -> fmt::Result {
        write!(f, "{self}")
    }

    fn append_item(&self, out: &mut String) -> Result<(), AllocError> {
        append_integer(*self, out)
    }
}

impl Item for StringValue {
    ghost text = { quoted };

    fn write_item<W: fmt::Write>(&self, f: &mut fmt::Formatter<W>) -> fmt::Result {
        write!(f, "\"{self}\"")
    }

    fn append_item(&self, out: &mut String) -> Result<(), AllocError> {
        out.push_str("\"")?;
        out.push_str(self.as_str())?;
        out.push_str("\"")
    }
}

pub fn append_boolean(value: bool, out: &mut String) -> Result<(), AllocError>
    ensures { Appends result out.old (boolean_text value) out.new }
{
    out.push_str(if value { "true" } else { "false" })
}

pub fn append_integer(value: i64, out: &mut String) -> Result<(), AllocError>
    ensures { Appends result out.old (signed_decimal value) out.new }
{
    let mut digits = Buffer::new();
    out.push_str(digits.format(value))
}

// Returns the text that is printed before the item at this index.
fn separator(position: usize) -> &'static str
    ensures { result.now ≡ spec.separator position }
{
    if position > 0 { "," } else { "" }
}

fn write_items<I: Item, W: fmt::Write>(items: &[I], f: &mut fmt::Formatter<W>) -> fmt::Result
    ensures { WritesOnOk W.write_str_gives f.old result (bracketed (map I.text items.now)) f.new }
{
    f.write_str("[")?;
    for (i, item) in items.iter().enumerate() {
        f.write_str(separator(i))?;
        item.write_item(f)?;
    }
    f.write_str("]")
}

fn append_items<I: Item>(items: &[I], out: &mut String) -> Result<(), AllocError>
    ensures { Appends result out.old (bracketed (map I.text items.now)) out.new }
{
    out.push_str("[")?;
    for (i, item) in items.iter().enumerate() {
        out.push_str(separator(i))?;
        item.append_item(out)?;
    }
    out.push_str("]")
}

impl Array {
    // Appends the `Display` text of the array.
    pub(crate) fn append_to(&self, out: &mut String) -> Result<(), AllocError>
        ensures { Appends result out.old (spec.display (array_of self.now)) out.new }
    {
        match self {
            Array::Bool(items) => append_items(items, out),
            Array::I64(items) => append_items(items, out),
            Array::String(items) => append_items(items, out),
        }
    }
}

impl fmt::Display for Array {
    ghost output = { λ a. Some (spec.display (array_of a)) };

    /// Writes `[`, the items joined by `,` (texts between `"`, nothing escaped), and `]`.
    fn fmt<W: fmt::Write>(&self, f: &mut fmt::Formatter<W>) -> fmt::Result {
        match self {
            Array::Bool(items) => write_items(items, f),
            Array::I64(items) => write_items(items, f),
            Array::String(items) => write_items(items, f),
        }
    }
}
