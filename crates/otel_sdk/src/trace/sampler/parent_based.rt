//! A sampler that follows the parent's decision.
ghost use Rattle.std.specs.Prelude.{◌≡◌, ◌++◌, IfOk, OnOk, codes, string_bytes};
ghost use Rattle.otel_sdk.specs.ParentBased.{IsParentBasedText, after_parent};

use crate::trace::sampler::{Sampler, SamplingParameters, SamplingResult, ShouldSample};
use opentelemetry::Context;
use otel_sdk_span::SdkSpan;
use std::alloc::{AllocError, Global};

/// Asks one of five samplers: `root` for a span without a valid parent, and otherwise one of the
/// others, chosen by whether the parent is remote and whether it is sampled (the Rust crate's
/// `Sampler::ParentBased`, whose other four are fixed).
///
/// By default, the other four are `AlwaysOn` for a sampled parent and `AlwaysOff` for any other, so
/// that a span is sampled if its parent is. For example,
/// `ParentBased::new(Sampler::TraceIdRatioBased(0.5))` samples half of the traces that start here.
#[derive(Debug, Drop)]
pub struct ParentBased<
    Root,
    RemoteOn = Sampler,
    RemoteOff = Sampler,
    LocalOn = Sampler,
    LocalOff = Sampler,
> {
    /// Asked for a span without a valid parent.
    pub root: Root,
    /// Asked under a remote parent that is sampled.
    pub remote_parent_sampled: RemoteOn,
    /// Asked under a remote parent that isn't sampled.
    pub remote_parent_not_sampled: RemoteOff,
    /// Asked under a local parent that is sampled.
    pub local_parent_sampled: LocalOn,
    /// Asked under a local parent that isn't sampled.
    pub local_parent_not_sampled: LocalOff,
}

impl<Root> ParentBased<Root> {
    /// Returns a sampler that samples a span if its parent is sampled, and asks `root` for a root.
    pub fn new(root: Root) -> ParentBased<Root>
        ensures { result ≡ after_parent root }
    {
        ParentBased {
            root,
            remote_parent_sampled: Sampler::AlwaysOn,
            remote_parent_not_sampled: Sampler::AlwaysOff,
            local_parent_sampled: Sampler::AlwaysOn,
            local_parent_not_sampled: Sampler::AlwaysOff,
        }
    }
}

/// Returns the description made from the descriptions of the five samplers.
///
/// # Errors
///
/// `AllocError` if out of memory.
fn joined(
    alloc: Global,
    root: &str,
    remote_on: &str,
    remote_off: &str,
    local_on: &str,
    local_off: &str,
) -> Result<String, AllocError>
    ensures { IfOk result (IsParentBasedText
        root.now remote_on.now remote_off.now local_on.now local_off.now) }
{
    let mut text = String::from_str(alloc, "ParentBased{root:")?;
    text.push_str(root)?;
    text.push_str(",remoteParentSampled:")?;
    text.push_str(remote_on)?;
    text.push_str(",remoteParentNotSampled:")?;
    text.push_str(remote_off)?;
    text.push_str(",localParentSampled:")?;
    text.push_str(local_on)?;
    text.push_str(",localParentNotSampled:")?;
    text.push_str(local_off)?;
    text.push_str("}")?;
    Ok(text)
}

impl<A, B, C, D, E> ShouldSample for ParentBased<A, B, C, D, E>
where
    A: ShouldSample,
    B: ShouldSample,
    C: ShouldSample,
    D: ShouldSample,
    E: ShouldSample,
{
    ghost use Rattle.std.specs.Prelude.{◌≡◌, List, ℕ};
    ghost use Rattle.otel_sdk.specs.Sampler.{parent_based, DescribesParentBased};
    ghost use Rattle.otel_sdk.specs.Sampler.{ParentBasedCounts};

    ghost answer = { λ s. parent_based (A.answer s.root) (B.answer s.remote_parent_sampled)
        (C.answer s.remote_parent_not_sampled) (D.answer s.local_parent_sampled)
        (E.answer s.local_parent_not_sampled) };

    ghost counts = { ParentBasedCounts A.counts B.counts C.counts D.counts E.counts };

    ghost IsStateless = { A.IsStateless × B.IsStateless × C.IsStateless × D.IsStateless
        × E.IsStateless };

    ghost may_describe = { λ s. DescribesParentBased (A.may_describe s.root)
        (B.may_describe s.remote_parent_sampled) (C.may_describe s.remote_parent_not_sampled)
        (D.may_describe s.local_parent_sampled) (E.may_describe s.local_parent_not_sampled) };

    /// Returns the answer of the sampler for this kind of parent.
    ///
    /// # Errors
    ///
    /// The errors of that sampler.
    fn should_sample(
        &self,
        alloc: Global,
        span: &SamplingParameters<'_>,
    ) -> Result<SamplingResult, AllocError> {
        let parent = span.parent_context.span_context();
        let sampled = parent.is_sampled();
        if !parent.is_valid() {
            self.root.should_sample(alloc, span)
        } else if parent.is_remote() && sampled {
            self.remote_parent_sampled.should_sample(alloc, span)
        } else if parent.is_remote() {
            self.remote_parent_not_sampled.should_sample(alloc, span)
        } else if sampled {
            self.local_parent_sampled.should_sample(alloc, span)
        } else {
            self.local_parent_not_sampled.should_sample(alloc, span)
        }
    }

    /// Tells the sampler for this kind of parent.
    fn on_start(&mut self, parent: &Context, span: &SdkSpan) {
        let own = parent.span_context();
        let sampled = own.is_sampled();
        if !own.is_valid() {
            self.root.on_start(parent, span);
        } else if own.is_remote() && sampled {
            self.remote_parent_sampled.on_start(parent, span);
        } else if own.is_remote() {
            self.remote_parent_not_sampled.on_start(parent, span);
        } else if sampled {
            self.local_parent_sampled.on_start(parent, span);
        } else {
            self.local_parent_not_sampled.on_start(parent, span);
        }
    }

    /// Returns `ParentBased` with the descriptions of the five samplers, for example
    /// `ParentBased{root:AlwaysOnSampler,remoteParentSampled:..}`.
    ///
    /// # Errors
    ///
    /// `AllocError` if out of memory.
    fn description(&self, alloc: Global) -> Result<String, AllocError> {
        let root = self.root.description(alloc)?;
        let remote_on = self.remote_parent_sampled.description(alloc)?;
        let remote_off = self.remote_parent_not_sampled.description(alloc)?;
        let local_on = self.local_parent_sampled.description(alloc)?;
        let local_off = self.local_parent_not_sampled.description(alloc)?;
        joined(
            alloc,
            root.as_str(),
            remote_on.as_str(),
            remote_off.as_str(),
            local_on.as_str(),
            local_off.as_str(),
        )
    }
}
