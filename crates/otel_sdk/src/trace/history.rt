//! A list of spans that exists only in contracts, and not at run time.
ghost use Rattle.std.specs.Prelude.{◌≡◌, [], ◌∷◌, ◌++◌, List};
ghost use Rattle.std.specs.Borrow.{ftrue};
ghost use Rattle.std.specs.Coded.{coded_list};
ghost use Rattle.otel_sdk_span.specs.Span.{SpanState};
ghost use Rattle.otel_sdk_span.specs.contracts.span.SdkSpan as span;

use otel_sdk_span::SdkSpan;
use std::marker::{Model, PhantomData};

/// The spans so far, as a list that only contracts see. The type has size zero. Only
/// [`SpanHistory::and`] makes a longer list.
// Not a `History<SdkSpan>`, which holds the `'static` of a span's strings: the borrow checker covers
// no call of a value that holds it beside a type parameter. The proofs, which are by hand, are those
// of `History`, so the type has a parameter too, which means nothing.
pub(crate) struct SpanHistory<K> {
    of: PhantomData<K>,
    ghost items: { List SpanState } by { coded_list span.the_row.coded },
}

// Written out, so that a caller's proof has one call here, and not the drops of all parts.
impl<K> Drop for SpanHistory<K> {
    fn drop(self) {
        let SpanHistory { of: _ } = self;
    }
}

impl<K> Model for SpanHistory<K> {
    ghost also_owns = { λ _. ftrue };
}

impl<K> SpanHistory<K> {
    /// Returns the empty list.
    pub fn new() -> SpanHistory<K>
        ensures { result.items ≡ [] }
    {
        SpanHistory { of: PhantomData }
    }

    /// Returns the list with one more span at the end.
    pub fn and(&self, _span: &SdkSpan) -> SpanHistory<K>
        ensures { result.items ≡ self.now.items ++ _span.now ∷ [] }
    {
        SpanHistory { of: PhantomData }
    }
}
