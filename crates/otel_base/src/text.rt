//! A text that is owned, static or shared. Contracts see only its bytes.
ghost use Rattle.std.specs.Prelude.{◌≡◌, IfOk, string_bytes, Some, refl, nat_eq, ℕ, List};
ghost use Rattle.std.specs.Rc.{rc_str_bytes};
ghost use Rattle.std.specs.Ordering.{nat_cmp};
ghost use Rattle.std.specs.Cmp.Lexicographic.{pointwise, slice_cmp};
ghost use Rattle.std.specs.Cmp;
ghost use Rattle.std.specs.Hash as fed;
ghost use Rattle.std.proofs.Common.{rules};
ghost use Rattle.std.specs.Cmp.Rules.{comparing, hashing};

use std::alloc::{AllocError, Global};
use std::cmp::Ordering;
use std::fmt;
use std::hash::{Hash, Hasher};
use std::marker::Model;
use std::rc::RcStr;

// An owned, static or shared text. Cloning a static or shared text doesn't allocate.
#[derive(Drop)]
enum Form {
    Owned(String),
    Static(&'static str),
    Shared(RcStr),
}

pub struct Text {
    form: Form,
}

// Written out, so that a caller's proof has one call here, and not the drops of all parts.
impl Drop for Text {
    #[inline]
    fn drop(self) {
        let Text { form: _ } = self;
    }
}

impl Model for Text {
    ghost use Rattle.std.specs.Prelude.{List, ℕ};

    ghost Value = { List ℕ };

    ghost use Rattle.otel_base.specs.Text.{text_of};

    ghost view = { λ t. text_of t.form };
}

impl Text {
    pub fn as_str(&self) -> &str
        ensures { result.now ≡ self.now }
    {
        match &self.form {
            Form::Owned(text) => text.as_str(),
            Form::Static(text) => text,
            Form::Shared(text) => text.as_str(),
        }
    }

    /// Returns the text as an owned `String`. Doesn't allocate if the text is owned.
    pub fn into_string(self, alloc: Global) -> Result<String, AllocError>
        ensures { IfOk result (λ s. string_bytes s ≡ self) }
    {
        let Text { form } = self;
        match form {
            Form::Owned(text) => Ok(text),
            Form::Static(text) => String::from_str(alloc, text),
            Form::Shared(text) => String::from_str(alloc, text.as_str()),
        }
    }
}

impl From<&'static str> for Text {
    ghost from_gives = { λ s t. t ≡ s.now };

    fn from(text: &'static str) -> Text {
        Text {
            form: Form::Static(text),
        }
    }
}

impl From<String> for Text {
    ghost from_gives = { λ s t. t ≡ string_bytes s };

    fn from(text: String) -> Text {
        Text {
            form: Form::Owned(text),
        }
    }
}

impl From<RcStr> for Text {
    ghost from_gives = { λ s t. t ≡ rc_str_bytes s };

    fn from(text: RcStr) -> Text {
        Text {
            form: Form::Shared(text),
        }
    }
}

impl Clone for Text {
    ghost is_clone = { λ s copy. copy ≡ s };

    fn clone(&self) -> Result<Text, AllocError> {
        let form = match &self.form {
            Form::Owned(text) => Form::Owned(text.clone()?),
            Form::Static(text) => Form::Static(text),
            Form::Shared(text) => Form::Shared(text.clone()?),
        };
        Ok(Text { form })
    }
}

impl PartialEq for Text {
    ghost eq = { pointwise nat_eq };

    ghost laws = { Prim.search (comparing, rules) };

    fn eq(&self, other: &Text) -> bool {
        self.as_str() == other.as_str()
    }
}

impl Eq for Text {
    ghost laws = { Prim.search (comparing, rules) };
}

impl PartialOrd for Text {
    ghost partial_cmp = { λ x y. Some (slice_cmp nat_cmp x y) };

    ghost laws = { Prim.search (comparing, rules) };

    fn partial_cmp(&self, other: &Text) -> Option<Ordering> {
        Some(self.cmp(other))
    }
}

impl Ord for Text {
    ghost cmp = { slice_cmp nat_cmp };

    ghost total = { Prim.search (comparing, rules) };

    ghost matches_partial_cmp = { λ x y. refl };

    ghost matches_eq = { Prim.search (comparing, rules) };

    fn cmp(&self, other: &Text) -> Ordering {
        self.as_str().cmp(other.as_str())
    }
}

impl Hash for Text {
    ghost hash_input = { fed.str };

    ghost respects_eq = { Prim.search (hashing, rules) };

    fn hash<H: Hasher>(&self, state: &mut H) {
        self.as_str().hash(state);
    }
}

impl fmt::Display for Text {
    ghost output = { λ t. Some t };

    fn fmt<W: fmt::Write>(&self, f: &mut fmt::Formatter<W>) -> fmt::Result {
        f.write_str(self.as_str())
    }
}

impl fmt::Debug for Text {
    fn fmt<W: fmt::Write>(&self, f: &mut fmt::Formatter<W>) -> fmt::Result {
        fmt::Debug::fmt(self.as_str(), f)
    }
}
