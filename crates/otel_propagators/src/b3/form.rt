//! The forms in which B3 is injected.

/// The headers in which a span is injected.
#[derive(Clone, Copy)]
pub(crate) enum Form {
    /// The one header `b3`.
    Single,
    /// A header for each part.
    Multi,
}
