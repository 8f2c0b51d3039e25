//! The propagator of B3, the headers of Zipkin.
ghost use Rattle.std.specs.Prelude.{◌≡◌, IfOk, false, option_copied};
ghost use Rattle.std.specs.Option.{option_and_then};
ghost use Rattle.opentelemetry.specs.Injection.{Injects};
ghost use Rattle.otel_propagators.specs.B3 as spec;
ghost use Rattle.otel_propagators.specs.declared.b3.form.Form.TheVariants.{Multi, Single};

mod form;
mod id;
mod multi;
mod sampling;
mod single;
mod span;

use self::form::Form;
use self::span::B3Span;
use opentelemetry::Context;
use opentelemetry::propagation::text_map_propagator::FieldIter;
use opentelemetry::propagation::{Extractor, Injector, PropagationError, TextMapPropagator};
use std::alloc::{AllocError, Global};
use std::marker::Model;

const B3: &str = "b3";

/// Propagates the span context of a context from one process to another, in the headers of B3,
/// which Zipkin, Envoy and Istio send ([B3](https://github.com/openzipkin/b3-propagation)). Not in
/// the Rust crate.
///
/// A propagator injects in one form, and extracts both:
///
/// - single: the header `b3`, with the value `TRACE-SPAN-STATE-PARENT`, of which `-PARENT` and
///   `-STATE-PARENT` may be missing. A state is `0`, `1` or, for debug, `d`. A `STATE` alone is read
///   too, but names no span: the given context is extracted, even beside headers of the other form.
/// - multi: the headers `x-b3-traceid`, `x-b3-spanid`, `x-b3-sampled`, which is `0` or `1`
///   (`false` and `true` are read too), and `x-b3-flags`, which is `1` for debug.
///
/// Ids are hexadecimal digits, 32 or 16 of the trace id and 16 of the others. 32 and 16 lower-case
/// digits are written. The id of the parent is never written.
///
/// Without a state the decision to sample is deferred: the caller leaves it to this process. Then
/// the remote span context isn't sampled, so a parent-based sampler asks its sampler for remote
/// parents that aren't, which by default drops the span. A span that starts here decides, so its
/// own decision is injected. If none starts, the decision is injected as deferred again.
///
/// The debug flag is the entry `b3-debug` of a context, `AnyValue::Boolean(true)`, which spans that
/// start under it keep. A deferred span is the entry `b3-deferred`, the string `TRACE-SPAN`, which
/// counts only for the remote span context with these ids. Contracts see the form in which a
/// propagator injects.
///
/// ```
/// let propagator = B3Propagator::single(alloc)?;
/// ```
#[derive(Drop)]
pub struct B3Propagator {
    alloc: Global,
    form: Form,
    fields: Vec<String>,
}

impl Model for B3Propagator {
    ghost use Rattle.std.specs.Prelude.{◌≡◌, map, string_bytes};
    ghost use Rattle.otel_propagators.specs.B3.{b3_fields};
    ghost use Rattle.otel_propagators.specs.declared.b3.form.Form.{Form};

    ghost Value = { Form };

    ghost view = { λ p. p.form };

    ghost invariant = { λ p. map string_bytes p.fields.items ≡ b3_fields p.form };
}

impl B3Propagator {
    /// Returns a propagator that injects the header `b3`.
    ///
    /// # Errors
    ///
    /// `AllocError` if out of memory for the field's name.
    pub fn single(alloc: Global) -> Result<B3Propagator, AllocError>
        ensures { IfOk result (λ p. p ≡ Single) }
    {
        let fields = vec![in alloc; String::from_str(alloc, B3)?]?;
        Ok(B3Propagator {
            alloc,
            form: Form::Single,
            fields,
        })
    }

    /// Returns a propagator that injects a header for each part.
    ///
    /// # Errors
    ///
    /// `AllocError` if out of memory for the fields' names.
    pub fn multi(alloc: Global) -> Result<B3Propagator, AllocError>
        ensures { IfOk result (λ p. p ≡ Multi) }
    {
        let trace_id = String::from_str(alloc, multi::TRACE_ID)?;
        let span_id = String::from_str(alloc, multi::SPAN_ID)?;
        let sampled = String::from_str(alloc, multi::SAMPLED)?;
        let flags = String::from_str(alloc, multi::FLAGS)?;
        let fields = vec![in alloc; trace_id, span_id, sampled, flags]?;
        Ok(B3Propagator {
            alloc,
            form: Form::Multi,
            fields,
        })
    }
}

/// Sets the header `b3` of a span.
fn inject_single(
    alloc: Global,
    span: B3Span,
    injector: &mut dyn Injector,
) -> Result<(), PropagationError>
    ensures { Injects (spec.span_pairs Single span) false (state injector.old)
        (state injector.new) result }
{
    let value = single::write(alloc, span)?;
    injector.set(B3, value)
}

fn read_single(header: Option<&str>) -> Option<B3Span>
    ensures { result ≡ option_and_then spec.single_in (option_copied header.entry) }
{
    single::read(header?)
}

/// Reads the span in the headers. `b3` decides alone if it has the right form.
fn read(alloc: Global, extractor: &dyn Extractor) -> Result<Option<B3Span>, AllocError>
    ensures { IfOk result (λ span. span ≡ spec.b3_in (texts extractor.now)) }
{
    match read_single(extractor.get(alloc, B3)?) {
        Some(span) => Ok(Some(span)),
        None => multi::read(alloc, extractor),
    }
}

/// Sets the headers of a valid span context: `b3`, or `x-b3-traceid`, `x-b3-spanid` and then
/// `x-b3-flags` for debug and otherwise `x-b3-sampled`. The state is debug if the context's debug
/// flag is set, and otherwise `1` if the flag `sampled` is set. If it isn't, a deferred decision has
/// no state, and another is `0`. Sets nothing if the span context isn't valid. Older headers that
/// aren't set stay in the carrier.
///
/// Extracts a copy of the given context with the remote span context of `b3`, ignoring blanks at
/// the ends of its value, or of the other headers if `b3` is absent or doesn't have this form. The
/// trace state is empty, only the flag `sampled` may be set, and the debug flag and the deferred
/// span are set or unset as in the headers. An `x-b3-flags` other than `1` is ignored, and an
/// `x-b3-sampled` that can't be read counts as `0`. Without ids, or if one is 0, the result is a
/// copy of the given context. Never refuses.
impl TextMapPropagator for B3Propagator {
    ghost use Rattle.std.specs.Prelude.{false};
    ghost use Rattle.otel_propagators.specs.B3.{b3_extracted, b3_fields, b3_pairs};

    ghost pairs = { λ form context. b3_pairs form context };

    ghost extracted = { λ _ context texts. b3_extracted context texts };

    ghost field_names = { λ form. b3_fields form };

    ghost may_refuse = { λ _. false };

    fn inject_context(
        &self,
        context: &Context,
        injector: &mut dyn Injector,
    ) -> Result<(), PropagationError> {
        if !context.span_context().is_valid() {
            return Ok(());
        }
        let span = B3Span::sent(self.alloc, context)?;
        match self.form {
            Form::Single => inject_single(self.alloc, span, injector),
            Form::Multi => multi::inject(self.alloc, span, injector),
        }
    }

    fn extract_with_context(
        &self,
        alloc: Global,
        context: &Context,
        extractor: &dyn Extractor,
    ) -> Result<Context, PropagationError> {
        match read(alloc, extractor)? {
            Some(span) => Ok(span.added_to(alloc, context)?),
            None => Ok(context.clone()?),
        }
    }

    fn fields(&self) -> FieldIter<'_> {
        FieldIter::new(&self.fields)
    }
}
