//! Contexts, and the headers that carry them.
ghost use Rattle.std.specs.Prelude.{◌≡◌, IfOk, IfErr, OnOk, OnErr, None, Some};
ghost use Rattle.otel_context.specs.Context.{empty_context};
ghost use Rattle.opentelemetry.specs.Carrier.{Sets};
ghost use Rattle.otel_http.specs.Headers.{texts};
ghost use Rattle.otel_propagators.specs.TraceContext.{trace_pairs, trace_extracted};
ghost use Rattle.otel_propagators.specs.BaggagePropagator.{baggage_pairs, baggage_extracted};
ghost use Rattle.otel_c.specs.Context.{extracted, cleared, Extracts, ExtractRefused};
ghost use Rattle.otel_c.specs.Context.{SetsBoth, Injects, InjectRefused, Copies, CopyRefused};
ghost use Rattle.otel_c.specs.Object.{context_of};
ghost use Rattle.otel_c.specs.Status.{Refuses, IsOutOfMemory, IsOfCarrier};

use crate::handle::Handle;
use crate::object::Object;
use crate::status::{Status, code};
use http_header::HeaderMap;
use opentelemetry::Context;
use opentelemetry::propagation::{PropagationError, TextMapPropagator};
use otel_http::{HeaderExtractor, HeaderInjector};
use otel_propagators::{BaggagePropagator, TraceContextPropagator};
use std::alloc::Global;

/// Extracts the span from the headers.
fn extract_trace(
    alloc: Global,
    context: &Context,
    extractor: &HeaderExtractor,
) -> Result<Context, Status>
    ensures read { IfOk result (λ given. given ≡ trace_extracted context.now extractor.now) }
    ensures refused { IfErr result IsOutOfMemory }
{
    let propagator = TraceContextPropagator::new(alloc)?;
    match propagator.extract_with_context(alloc, context, extractor) {
        Ok(given) => Ok(given),
        Err(_) => Err(Status::NoMemory),
    }
}

/// Extracts the baggage from the headers.
fn extract_baggage(
    alloc: Global,
    context: &Context,
    extractor: &HeaderExtractor,
) -> Result<Context, Status>
    ensures read { IfOk result (λ given. given ≡ baggage_extracted context.now extractor.now) }
    ensures refused { IfErr result IsOutOfMemory }
{
    let propagator = BaggagePropagator::new(alloc)?;
    match propagator.extract_with_context(alloc, context, extractor) {
        Ok(given) => Ok(given),
        Err(_) => Err(Status::NoMemory),
    }
}

/// Returns a copy of the context with the values of the headers.
fn extract_all(alloc: Global, headers: &HeaderMap, context: &Context) -> Result<Context, Status>
    ensures read { IfOk result (λ given. given ≡ extracted context.now (texts headers.now)) }
    ensures refused { IfErr result IsOutOfMemory }
{
    let extractor = HeaderExtractor::new(alloc, headers)?;
    let traced = extract_trace(alloc, context, &extractor)?;
    let given = extract_baggage(alloc, &traced, &extractor)?;
    Ok(given)
}

/// Injects with one propagator.
fn write<P: TextMapPropagator>(
    propagator: &P,
    context: &Context,
    injector: &mut HeaderInjector,
) -> Result<(), PropagationError>
    ensures { OnOk result (Sets (texts injector.old.headers)
        (P.pairs propagator.now context.now) (texts injector.new.headers)) }
{
    propagator.inject_context(context, injector)
}

/// Sets the headers of the context's span.
fn inject_trace(
    alloc: Global,
    context: &Context,
    injector: &mut HeaderInjector,
) -> Result<(), Status>
    ensures written { OnOk result (Sets (texts injector.old.headers)
        (trace_pairs context.now) (texts injector.new.headers)) }
    ensures refused { IfErr result IsOfCarrier }
{
    let propagator = TraceContextPropagator::new(alloc)?;
    write(&propagator, context, injector)?;
    Ok(())
}

/// Sets the header of the context's baggage.
fn inject_baggage(
    alloc: Global,
    context: &Context,
    injector: &mut HeaderInjector,
) -> Result<(), Status>
    ensures written { OnOk result (Sets (texts injector.old.headers)
        (baggage_pairs context.now) (texts injector.new.headers)) }
    ensures refused { IfErr result IsOfCarrier }
{
    let propagator = BaggagePropagator::new(alloc)?;
    write(&propagator, context, injector)?;
    Ok(())
}

/// Removes the headers that carry a context.
fn clear(headers: &mut HeaderMap)
    ensures { headers.new ≡ cleared headers.old }
{
    drop(headers.remove("traceparent"));
    drop(headers.remove("tracestate"));
    drop(headers.remove("baggage"));
}

/// Sets the headers that carry the context.
#[tactic(auto, using(crate::proofs::Carried::both))]
fn inject_all(alloc: Global, context: &Context, injector: &mut HeaderInjector) -> Result<(), Status>
    ensures written { OnOk result (SetsBoth context.now
        (texts injector.old.headers) (texts injector.new.headers)) }
    ensures refused { IfErr result IsOfCarrier }
{
    inject_trace(alloc, context, injector)?;
    inject_baggage(alloc, context, injector)?;
    Ok(())
}

fn extract_in(alloc: Global, headers: &Object, object: &mut Object) -> Result<(), Status>
    ensures context { OnOk result (Extracts (Some headers.now)
        (Some object.old) (Some object.new)) }
    ensures unchanged { OnErr result (object.new ≡ object.old) }
    ensures refused { IfErr result (ExtractRefused (Some headers.now) (Some object.old)) }
{
    let injector = headers.headers()?;
    match object {
        Object::Context(context) => {
            *context = extract_all(alloc, &injector.headers, context)?;
            Ok(())
        }
        _ => Err(Status::Invalid),
    }
}

fn inject_in(alloc: Global, object: &Object, headers: &mut Object) -> Result<(), Status>
    ensures headers { OnOk result (Injects (Some object.now) (Some headers.old)
        (Some headers.new)) }
    ensures refused { IfErr result (InjectRefused (Some object.now) (Some headers.old)) }
{
    let context = object.context()?;
    match headers {
        Object::Headers(injector) => {
            clear(&mut injector.headers);
            inject_all(alloc, context, injector)?;
            Ok(())
        }
        _ => Err(Status::Invalid),
    }
}

/// Passes the object of a handle to `extract_in`.
fn extract_from(alloc: Global, headers: &mut Handle, object: &mut Object) -> Result<(), Status>
    ensures context { OnOk result (Extracts headers.old.object
        (Some object.old) (Some object.new)) }
    ensures unchanged { OnErr result (object.new ≡ object.old) }
    ensures kept { headers.new.object ≡ headers.old.object }
    ensures refused { IfErr result (ExtractRefused headers.old.object (Some object.old)) }
{
    let carrier = headers.take(alloc)?;
    let outcome = extract_in(alloc, &carrier, object);
    headers.put(alloc, carrier);
    outcome
}

fn extract(alloc: Global, headers: &mut Handle, context: &mut Handle) -> Result<(), Status>
    ensures context { OnOk result (Extracts headers.old.object
        context.old.object context.new.object) }
    ensures unchanged { OnErr result (context.new.object ≡ context.old.object) }
    ensures kept { headers.new.object ≡ headers.old.object }
    ensures refused { IfErr result (ExtractRefused headers.old.object context.old.object) }
{
    let mut object = context.take(alloc)?;
    let outcome = extract_from(alloc, headers, &mut object);
    context.put(alloc, object);
    outcome
}

fn inject_from(alloc: Global, context: &mut Handle, headers: &mut Object) -> Result<(), Status>
    ensures headers { OnOk result (Injects context.old.object
        (Some headers.old) (Some headers.new)) }
    ensures kept { context.new.object ≡ context.old.object }
    ensures refused { IfErr result (InjectRefused context.old.object (Some headers.old)) }
{
    let object = context.take(alloc)?;
    let outcome = inject_in(alloc, &object, headers);
    context.put(alloc, object);
    outcome
}

fn inject(alloc: Global, context: &mut Handle, headers: &mut Handle) -> Result<(), Status>
    ensures headers { OnOk result (Injects context.old.object
        headers.old.object headers.new.object) }
    ensures kept { context.new.object ≡ context.old.object }
    ensures refused { IfErr result (InjectRefused context.old.object headers.old.object) }
{
    let mut object = headers.take(alloc)?;
    let outcome = inject_from(alloc, context, &mut object);
    headers.put(alloc, object);
    outcome
}

/// Puts the context into a handle.
pub(crate) fn make(alloc: Global, handle: &mut Handle, context: Context) -> Result<(), Status>
    ensures context { OnOk result (context_of handle.new.object ≡ Some context) }
    ensures unchanged { OnErr result (handle.new.object ≡ handle.old.object) }
    ensures refused { IfErr result IsOutOfMemory }
{
    handle.put(alloc, Box::new(alloc, Object::Context(context))?);
    Ok(())
}

fn copy_in(object: &Object) -> Result<Context, Status>
    ensures copy { IfOk result (λ copy. context_of (Some object.now) ≡ Some copy) }
    ensures refused { IfErr result (CopyRefused (Some object.now)) }
{
    Ok(object.context()?.clone()?)
}

/// Returns a copy of the context of a handle, which shares its contents.
///
/// # Errors
///
/// `Invalid` if the handle holds no context. `NoMemory` if too many contexts share the contents.
pub(crate) fn copy(alloc: Global, context: &mut Handle) -> Result<Context, Status>
    ensures copy { IfOk result (λ copy. context_of context.old.object ≡ Some copy) }
    ensures kept { context.new.object ≡ context.old.object }
    ensures refused { IfErr result (CopyRefused context.old.object) }
{
    let object = context.take(alloc)?;
    let copy = copy_in(&object);
    context.put(alloc, object);
    copy
}

fn copy_into(alloc: Global, context: &mut Handle, clone: &mut Handle) -> Result<(), Status>
    ensures copy { OnOk result (Copies context.old.object clone.new.object) }
    ensures unchanged { OnErr result (clone.new.object ≡ clone.old.object) }
    ensures kept { context.new.object ≡ context.old.object }
    ensures refused { IfErr result (CopyRefused context.old.object) }
{
    let made = copy(alloc, context)?;
    make(alloc, clone, made)
}

/// Puts a copy of the context into the other handle, and frees the object that this held.
#[unsafe(no_mangle)]
pub extern "C" fn otel_context_clone(alloc: Global, context: &mut Handle, clone: &mut Handle) -> u32
    ensures copy { result ≡ 0 → Copies context.old.object clone.new.object }
    ensures unchanged { (result ≡ 0 → ⊥) → clone.new.object ≡ clone.old.object }
    ensures kept { context.new.object ≡ context.old.object }
    ensures refused { (result ≡ 0 → ⊥) → Refuses (CopyRefused context.old.object) result }
{
    code(copy_into(alloc, context, clone))
}

/// Makes an empty context, and frees the object that the handle held.
#[unsafe(no_mangle)]
pub extern "C" fn otel_context_new(alloc: Global, context: &mut Handle) -> u32
    ensures empty { result ≡ 0 → context_of context.new.object ≡ Some empty_context }
    ensures unchanged { (result ≡ 0 → ⊥) → context.new.object ≡ context.old.object }
    ensures refused { (result ≡ 0 → ⊥) → Refuses IsOutOfMemory result }
{
    code(make(alloc, context, Context::new()))
}

/// Reads the headers into the context.
#[unsafe(no_mangle)]
pub extern "C" fn otel_context_extract(
    alloc: Global,
    headers: &mut Handle,
    context: &mut Handle,
) -> u32
    ensures context { result ≡ 0
        → Extracts headers.old.object context.old.object context.new.object }
    ensures unchanged { (result ≡ 0 → ⊥) → context.new.object ≡ context.old.object }
    ensures kept { headers.new.object ≡ headers.old.object }
    ensures refused { (result ≡ 0 → ⊥)
        → Refuses (ExtractRefused headers.old.object context.old.object) result }
{
    code(extract(alloc, headers, context))
}

/// Sets the headers that carry the context, in place of the ones that carried another.
#[unsafe(no_mangle)]
pub extern "C" fn otel_context_inject(
    alloc: Global,
    context: &mut Handle,
    headers: &mut Handle,
) -> u32
    ensures headers { result ≡ 0
        → Injects context.old.object headers.old.object headers.new.object }
    ensures kept { context.new.object ≡ context.old.object }
    ensures refused { (result ≡ 0 → ⊥)
        → Refuses (InjectRefused context.old.object headers.old.object) result }
{
    code(inject(alloc, context, headers))
}

/// Frees the object of the handle, which is then empty.
#[unsafe(no_mangle)]
pub extern "C" fn otel_free(alloc: Global, handle: &mut Handle)
    ensures { handle.new.object ≡ None }
{
    drop(handle.take(alloc));
}
