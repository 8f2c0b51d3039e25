//! Reads the sampler.
ghost use Rattle.std.specs.Prelude.{◌≡◌, ◌++◌, IfOk, OnOk};
ghost use Rattle.otel_sdk.specs.EnvSampler as spec;
ghost use Rattle.otel_sdk.specs.EnvTexts.{variables_of};

use super::texts::{is_named, text_of};
use super::warning::{EnvWarning, Instead, warn};
use crate::trace::{ParentBased, Sampler, SamplingParameters, SamplingResult, ShouldSample};
use opentelemetry::Context;
use otel_sdk_span::SdkSpan;
use std::alloc::{AllocError, Global};
use std::num::{f64_from_bits_with_nan, f64_to_bits_with_nan};

/// A sampler that `OTEL_TRACES_SAMPLER` can name.
#[derive(Clone, Copy, Debug, PartialEq)]
pub enum EnvSampler {
    /// The sampler itself: `always_on`, `always_off` or `traceidratio`.
    Plain(Sampler),
    /// Follows the parent, and asks the sampler about a root: `parentbased_always_on`,
    /// `parentbased_always_off` or `parentbased_traceidratio`.
    ParentBased(Sampler),
}

impl ShouldSample for EnvSampler {
    ghost answer = { spec.answer_of };

    ghost may_describe = { spec.Describes };

    /// Returns the sampler's answer.
    ///
    /// # Errors
    ///
    /// `AllocError` if the reference count of the trace state's pairs is at its limit.
    fn should_sample(
        &self,
        alloc: Global,
        span: &SamplingParameters<'_>,
    ) -> Result<SamplingResult, AllocError> {
        match self {
            EnvSampler::Plain(sampler) => sampler.should_sample(alloc, span),
            EnvSampler::ParentBased(root) => ParentBased::new(*root).should_sample(alloc, span),
        }
    }

    fn on_start(&mut self, _parent: &Context, _span: &SdkSpan) {}

    /// Returns the description of the sampler, or of the [`ParentBased`] with it as root.
    ///
    /// # Errors
    ///
    /// `AllocError` if out of memory.
    fn description(&self, alloc: Global) -> Result<String, AllocError> {
        match self {
            EnvSampler::Plain(sampler) => sampler.description(alloc),
            EnvSampler::ParentBased(root) => ParentBased::new(*root).description(alloc),
        }
    }
}

const NAME: &str = "OTEL_TRACES_SAMPLER";

const ARG: &str = "OTEL_TRACES_SAMPLER_ARG";

/// The bits of 1.0.
const ONE: u64 = 1023 << 52;

/// Returns the number that the text denotes, if it is from 0 to 1 and has no sign.
fn ratio(text: &str) -> Option<f64>
    ensures { result ≡ spec.ratio text.now }
{
    match text.parse::<f64>() {
        // The bits of these numbers have the numbers' order.
        Ok(ratio) => {
            if f64_to_bits_with_nan(ratio) <= ONE {
                Some(ratio)
            } else {
                None
            }
        }
        Err(_) => None,
    }
}

/// Returns whether the name is of a sampler with a ratio.
fn takes_ratio(name: &str) -> bool
    ensures { result ≡ spec.takes_ratio name.now }
{
    is_named(name, "traceidratio") || is_named(name, "parentbased_traceidratio")
}

/// Returns the sampler of the name, with the ratio.
fn named(name: &str, ratio: f64) -> Option<EnvSampler>
    ensures { result ≡ spec.named name.now ratio }
{
    if is_named(name, "always_on") {
        Some(EnvSampler::Plain(Sampler::AlwaysOn))
    } else if is_named(name, "always_off") {
        Some(EnvSampler::Plain(Sampler::AlwaysOff))
    } else if is_named(name, "traceidratio") {
        Some(EnvSampler::Plain(Sampler::TraceIdRatioBased(ratio)))
    } else if is_named(name, "parentbased_always_on") {
        Some(EnvSampler::ParentBased(Sampler::AlwaysOn))
    } else if is_named(name, "parentbased_always_off") {
        Some(EnvSampler::ParentBased(Sampler::AlwaysOff))
    } else if is_named(name, "parentbased_traceidratio") {
        Some(EnvSampler::ParentBased(Sampler::TraceIdRatioBased(ratio)))
    } else {
        None
    }
}

/// Returns the sampler that the variables name.
///
/// # Errors
///
/// `AllocError` if out of memory.
pub(super) fn sampler(
    alloc: Global,
    vars: &[(String, String)],
    warnings: &mut Vec<EnvWarning>,
) -> Result<EnvSampler, AllocError>
    ensures sampler { IfOk result (λ s. s ≡ spec.sampler (variables_of vars.now)) }
    ensures warnings { OnOk result (warnings.new.items ≡ warnings.old.items
        ++ spec.sampler_warnings (variables_of vars.now)) }
{
    let name = text_of(vars, NAME);
    let arg = text_of(vars, ARG);
    let ratio = ratio(arg);
    let counts = !takes_ratio(name) || ratio.is_some();
    let named = named(name, ratio.unwrap_or(f64_from_bits_with_nan(ONE)));
    let instead = Instead::ParentBasedAlwaysOn;
    warn(alloc, warnings, named.is_some(), NAME, name, instead)?;
    warn(alloc, warnings, counts, ARG, arg, Instead::Number(1))?;
    Ok(named.unwrap_or(EnvSampler::ParentBased(Sampler::AlwaysOn)))
}
