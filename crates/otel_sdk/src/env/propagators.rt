//! Reads the list of propagators.
ghost use Rattle.std.specs.Prelude.{◌≡◌, ◌++◌, IfOk, OnOk};
ghost use Rattle.otel_sdk.specs.EnvPropagators as spec;
ghost use Rattle.otel_sdk.specs.EnvTexts.{variables_of};

use super::texts::{is_named, text_of};
use super::warning::{EnvWarning, Instead, warn};
use otel_base::cut_blanks;
use std::alloc::{AllocError, Global};

/// A propagator that `OTEL_PROPAGATORS` can name.
#[derive(Clone, Copy, Debug, PartialEq, Eq)]
pub enum EnvPropagator {
    /// `tracecontext`: the W3C's headers `traceparent` and `tracestate`.
    TraceContext,
    /// `baggage`: the W3C's header `baggage`.
    Baggage,
    /// `b3`: the single header of B3.
    B3,
    /// `b3multi`: the separate headers of B3.
    B3Multi,
}

const NAME: &str = "OTEL_PROPAGATORS";

/// Returns the propagator of the name.
fn named(text: &str) -> Option<EnvPropagator>
    ensures { result ≡ spec.named text.now }
{
    if is_named(text, "tracecontext") {
        Some(EnvPropagator::TraceContext)
    } else if is_named(text, "baggage") {
        Some(EnvPropagator::Baggage)
    } else if is_named(text, "b3") {
        Some(EnvPropagator::B3)
    } else if is_named(text, "b3multi") {
        Some(EnvPropagator::B3Multi)
    } else {
        None
    }
}

/// Returns the propagator's number.
fn place(propagator: EnvPropagator) -> u8
    ensures { result ≡ spec.place propagator }
{
    match propagator {
        EnvPropagator::TraceContext => 0,
        EnvPropagator::Baggage => 1,
        EnvPropagator::B3 => 2,
        EnvPropagator::B3Multi => 3,
    }
}

/// Returns whether the propagator is one of these.
fn has(known: &[EnvPropagator], propagator: EnvPropagator) -> bool
    ensures { result ≡ spec.has propagator known.now }
{
    let place_of = place(propagator);
    known.iter().any(|other| place(*other) == place_of)
}

/// Adds the propagator, if there is one and it isn't one of these.
///
/// # Errors
///
/// `AllocError` if out of memory.
fn add_once(
    known: &mut Vec<EnvPropagator>,
    propagator: Option<EnvPropagator>,
) -> Result<(), AllocError>
    ensures { OnOk result (known.new.items ≡ spec.with_once known.old.items propagator) }
{
    let Some(propagator) = propagator else {
        return Ok(());
    };
    if !has(known.as_slice(), propagator) {
        known.push(propagator)?;
    }
    Ok(())
}

/// Returns the propagators that the text names, each once, in order of first appearance.
///
/// # Errors
///
/// `AllocError` if out of memory.
fn listed(alloc: Global, text: &str) -> Result<Vec<EnvPropagator>, AllocError>
    ensures { IfOk result (λ known. known.items ≡ spec.listed text.now) }
{
    let mut known = Vec::new(alloc);
    for piece in text.split(',') {
        add_once(&mut known, named(cut_blanks(piece)))?;
    }
    Ok(known)
}

/// Returns whether the piece is `none`, but for blanks.
fn is_none(piece: &str) -> bool
    ensures { result ≡ spec.is_none piece.now }
{
    is_named(cut_blanks(piece), "none")
}

/// Returns whether a piece is `none`.
fn has_none(text: &str) -> bool
    ensures { result ≡ spec.has_none text.now }
{
    text.split(',').any(|piece| is_none(piece))
}

/// Returns whether the piece has more than blanks.
fn is_given(piece: &str) -> bool
    ensures { result ≡ spec.is_given piece.now }
{
    !cut_blanks(piece).is_empty()
}

/// Returns whether a piece has more than blanks.
fn has_given(text: &str) -> bool
    ensures { result ≡ spec.has_given text.now }
{
    text.split(',').any(|piece| is_given(piece))
}

/// Returns whether the piece names a propagator, or is `none` without others beside it.
fn is_understood(others: bool, piece: &str) -> bool
    ensures { result ≡ spec.is_understood others piece.now }
{
    if is_none(piece) {
        !others
    } else {
        named(cut_blanks(piece)).is_some()
    }
}

/// Adds a warning for each piece that isn't understood.
///
/// # Errors
///
/// `AllocError` if out of memory.
fn warn_of_pieces(
    alloc: Global,
    warnings: &mut Vec<EnvWarning>,
    others: bool,
    instead: Instead,
    text: &str,
) -> Result<(), AllocError>
    ensures { OnOk result (warnings.new.items
        ≡ warnings.old.items ++ spec.pieces_warnings others instead text.now) }
{
    for piece in text.split(',') {
        let understood = is_understood(others, piece);
        warn(
            alloc,
            warnings,
            understood,
            NAME,
            cut_blanks(piece),
            instead,
        )?;
    }
    Ok(())
}

/// Returns what counts in place of a piece that isn't understood, of a list that counts or not.
fn instead_of(counts: bool) -> Instead
    ensures { result ≡ spec.instead_of counts }
{
    if counts {
        Instead::Nothing
    } else {
        Instead::W3cPropagators
    }
}

/// Adds the warnings about the list, which names a propagator or not, and counts or not.
///
/// # Errors
///
/// `AllocError` if out of memory.
fn warn_of_list(
    alloc: Global,
    warnings: &mut Vec<EnvWarning>,
    others: bool,
    counts: bool,
    text: &str,
) -> Result<(), AllocError>
    ensures { OnOk result (warnings.new.items
        ≡ warnings.old.items ++ spec.list_warnings others counts text.now) }
{
    warn_of_pieces(alloc, warnings, others, instead_of(counts), text)?;
    let given = has_given(text);
    warn(alloc, warnings, given, NAME, text, Instead::W3cPropagators)?;
    Ok(())
}

/// Returns the default propagators.
///
/// # Errors
///
/// `AllocError` if out of memory.
fn defaults(alloc: Global) -> Result<Vec<EnvPropagator>, AllocError>
    ensures { IfOk result (λ known. known.items ≡ spec.defaults) }
{
    Ok(vec![in alloc; EnvPropagator::TraceContext, EnvPropagator::Baggage]?)
}

/// Returns the propagators that the variables list: the defaults if none of the list is understood.
///
/// # Errors
///
/// `AllocError` if out of memory.
pub(super) fn propagators(
    alloc: Global,
    vars: &[(String, String)],
    warnings: &mut Vec<EnvWarning>,
) -> Result<Vec<EnvPropagator>, AllocError>
    ensures known { IfOk result (λ known. known.items
        ≡ spec.propagators (variables_of vars.now)) }
    ensures warnings { OnOk result (warnings.new.items ≡ warnings.old.items
        ++ spec.propagator_warnings (variables_of vars.now)) }
{
    let text = text_of(vars, NAME);
    let known = listed(alloc, text)?;
    let others = !known.is_empty();
    let counts = others || has_none(text);
    warn_of_list(alloc, warnings, others, counts, text)?;
    if counts { Ok(known) } else { defaults(alloc) }
}
