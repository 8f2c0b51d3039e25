//! Names, by which keys are found.
ghost use Rattle.std.specs.Prelude.{◌≡◌};
ghost use Rattle.std.specs.Str.{bytes_eq};
ghost use Rattle.otel_context.specs.Names.{text_of};

use otel_base::Key;
use std::fmt;
use std::hash::{Hash, Hasher};

/// An owned key of a map, or a text by which to look one up. Equality and hash depend only on the
/// text, so a look-up doesn't allocate.
#[derive(Drop)]
pub enum Name<'a> {
    Held(Key),
    Asked(&'a str),
}

impl Name<'_> {
    /// Returns the text.
    pub fn as_str(&self) -> &str
        ensures { result.now ≡ text_of self.now }
    {
        match self {
            Name::Held(key) => key.as_str(),
            Name::Asked(text) => text,
        }
    }
}

impl PartialEq for Name<'_> {
    ghost use Rattle.std.specs.Cmp.{partial_equiv_from_equiv};
    ghost use Rattle.std.specs.Cmp.Lexicographic.{on_texts_equal};
    ghost use Rattle.otel_context.specs.Names.{text_of, has_same_text};

    ghost eq = { has_same_text };

    ghost laws = { partial_equiv_from_equiv (on_texts_equal text_of) };

    fn eq(&self, other: &Self) -> bool {
        self.as_str() == other.as_str()
    }
}

impl Eq for Name<'_> {
    ghost use Rattle.std.specs.Cmp.Lexicographic.{on_texts_equal};
    ghost use Rattle.otel_context.specs.Names.{text_of};

    ghost laws = { on_texts_equal text_of };
}

impl Hash for Name<'_> {
    ghost use Rattle.std.specs.Hash as fed;
    ghost use Rattle.std.proofs.Common.{ap};
    ghost use Rattle.std.specs.Cmp.Lexicographic.{bytes_decides};
    ghost use Rattle.otel_context.specs.Names.{text_of};

    ghost hash_input = { λ name. fed.str (text_of name) };

    ghost respects_eq = { λ x y h. ap fed.str ((bytes_decides (text_of x) (text_of y)).0 h) };

    fn hash<H: Hasher>(&self, state: &mut H) {
        self.as_str().hash(state);
    }
}

impl fmt::Debug for Name<'_> {
    fn fmt<W: fmt::Write>(&self, f: &mut fmt::Formatter<W>) -> fmt::Result {
        match self {
            Name::Held(key) => fmt::Debug::fmt(key, f),
            Name::Asked(text) => fmt::Debug::fmt(text, f),
        }
    }
}

/// Returns `true` if both are the same text.
///
/// Compares the lengths and the last bytes first, since names often share a prefix. That settles
/// most comparisons without a call.
pub fn is_same(name: &str, other: &str) -> bool
    ensures { result ≡ bytes_eq name.now other.now }
{
    name.len() == other.len() && name.as_bytes().last() == other.as_bytes().last() && name == other
}
