//! What the clones of a context share.
ghost use Rattle.std.specs.Prelude.{◌≡◌, None, Some, IfOk, IsOk, option_map};
ghost use Rattle.otel_context.specs.Context.{empty_context};
ghost use Rattle.otel_context.specs.Shared.{record_of, contents_of, span_part};

use super::contents::Contents;
use otel_ids::SpanContext;
use std::alloc::{AllocError, Global};
use std::rc::Rc;

/// The active span, with the other parts of its context.
#[derive(Drop)]
pub struct ActiveSpan {
    pub context: SpanContext,
    // The number of a local span in its span table, or `None` for a remote span.
    pub number: Option<u64>,
    // `None` if there are no other parts.
    contents: Option<Rc<Contents>>,
}

impl ActiveSpan {
    /// Returns the same active span with these other parts.
    // Not inlined, so that a context without a span doesn't pay for the copy.
    #[inline(never)]
    fn with_contents(
        &self,
        alloc: Global,
        contents: Option<Rc<Contents>>,
    ) -> Result<Shared, AllocError>
        ensures { IfOk result (λ s. record_of s
            ≡ record (contents_of contents) { span = Some (span_part self.now) }) }
    {
        let span = ActiveSpan {
            context: self.context.clone()?,
            number: self.number,
            contents,
        };
        Ok(Shared::Span(Rc::new(alloc, span)?))
    }
}

/// What the clones of a context share. A context with an active span takes one allocation more than
/// its other parts.
#[derive(Drop)]
pub enum Shared {
    /// The empty context, which doesn't allocate.
    Nothing,
    /// A context without an active span.
    Contents(Rc<Contents>),
    /// A context with an active span.
    Span(Rc<ActiveSpan>),
}

impl Shared {
    /// Returns the parts other than the active span.
    pub fn contents(&self) -> Option<&Rc<Contents>>
        ensures { contents_of (option_map (λ c. c.now) result)
            ≡ record (record_of self.now) { span = None } }
    {
        // First, since a look-up then takes fewer instructions than a `match` of all three.
        if let Shared::Contents(contents) = self {
            return Some(contents);
        }
        match self {
            Shared::Span(span) => span.as_ref().contents.as_ref(),
            _ => None,
        }
    }

    /// Returns the active span.
    pub fn span(&self) -> Option<&ActiveSpan>
        ensures { option_map (λ span. span_part span.now) result ≡ (record_of self.now).span }
    {
        match self {
            Shared::Span(span) => Some(span.as_ref()),
            _ => None,
        }
    }

    /// Returns the same active span with these other parts. Doesn't allocate if no span is active.
    #[inline(always)]
    pub fn with_contents(
        &self,
        alloc: Global,
        contents: Option<Rc<Contents>>,
    ) -> Result<Shared, AllocError>
        ensures made { IfOk result (λ s. record_of s
            ≡ record (contents_of contents) { span = (record_of self.now).span }) }
        ensures free { (record_of self.now).span ≡ None → IsOk result }
    {
        match (self, contents) {
            (Shared::Span(span), contents) => span.with_contents(alloc, contents),
            (_, Some(contents)) => Ok(Shared::Contents(contents)),
            (_, None) => Ok(Shared::Nothing),
        }
    }

    /// Returns the same with this active span.
    // Inlined, since a call copies the span context.
    #[inline(always)]
    pub fn with_span(
        &self,
        alloc: Global,
        context: SpanContext,
        number: Option<u64>,
    ) -> Result<Shared, AllocError>
        ensures { IfOk result (λ s. record_of s ≡ record (record_of self.now) {
          span = Some (record { context = context; number = number });
        }) }
    {
        let contents = match self.contents() {
            Some(contents) => Some(contents.clone()?),
            None => None,
        };
        let span = ActiveSpan {
            context,
            number,
            contents,
        };
        Ok(Shared::Span(Rc::new(alloc, span)?))
    }
}

/// A clone raises a reference count.
impl Clone for Shared {
    ghost is_clone = { λ s copy. record_of copy ≡ record_of s };

    ghost is_infallible = { λ s. record_of s ≡ empty_context };

    fn clone(&self) -> Result<Shared, AllocError> {
        match self {
            Shared::Span(span) => Ok(Shared::Span(span.clone()?)),
            Shared::Contents(contents) if !contents.is_empty() => {
                Ok(Shared::Contents(contents.clone()?))
            }
            _ => Ok(Shared::Nothing),
        }
    }
}
