//! Laws of samplers, for any question to a sampler. Each function does nothing: its contract is the
//! law.
ghost use Rattle.otel_sdk.specs.SamplerLaws.{RootIsNotAsked, ParentIsFollowed, NoRootIsSampled};
ghost use Rattle.otel_sdk.specs.RateLimit.{AtMostInEachSecond};
ghost use Rattle.otel_sdk.specs.RatioLaws.{OnlyHalfCounts, BoundRises, SampledAtGreater};

/// States how [`crate::trace::ParentBased`] follows a parent.
pub fn parent_is_followed()
    // Under a valid parent, the answer doesn't depend on the root sampler.
    ensures root_is_not_asked { RootIsNotAsked }
    // With the samplers of `new`, a span is sampled if and only if its valid parent is.
    ensures followed { ParentIsFollowed }
    // With `AlwaysOff` for roots, no root is sampled.
    ensures no_root_is_sampled { NoRootIsSampled }
{}

/// States which traces a ratio samples.
pub fn ratios_nest()
    // Only the low half of the trace id counts.
    ensures half { OnlyHalfCounts }
    // The bound doesn't decrease as the ratio increases.
    ensures bound_rises { BoundRises }
    // A trace that is sampled at one ratio is sampled at every greater ratio.
    ensures nested { SampledAtGreater }
{}

/// States how many roots a [`crate::trace::RateLimitingSampler`] samples, of any that start one
/// after the other, with the state that each leaves.
pub fn rates_are_limited()
    ensures { AtMostInEachSecond }
{}
