//! A propagator of one name.
ghost use Rattle.std.specs.Prelude.{◌≡◌, IfOk};

use crate::env::propagators::EnvPropagator;
use opentelemetry::Context;
use opentelemetry::propagation::text_map_propagator::FieldIter;
use opentelemetry::propagation::{Extractor, Injector, PropagationError, TextMapPropagator};
use otel_propagators::{B3Propagator, BaggagePropagator, TraceContextPropagator};
use std::alloc::{AllocError, Global};
use std::marker::Model;

/// The propagators that can be listed.
#[derive(Drop)]
enum Kind {
    W3cTrace(TraceContextPropagator),
    W3cBaggage(BaggagePropagator),
    Zipkin(B3Propagator),
}

/// A propagator of one name. Contracts see the name.
#[derive(Drop)]
pub(super) struct Member {
    kind: Kind,
}

impl Model for Member {
    ghost use Rattle.otel_sdk.specs.ConfiguredPropagator.{name_of};
    ghost use Rattle.otel_sdk.specs.declared.env.propagators.EnvPropagator.{EnvPropagator};

    ghost Value = { EnvPropagator };

    ghost view = { λ m. name_of m.kind };
}

impl Member {
    /// Returns the propagator of the name.
    ///
    /// # Errors
    ///
    /// `AllocError` if out of memory for the names of its fields.
    pub(super) fn new(alloc: Global, name: EnvPropagator) -> Result<Member, AllocError>
        ensures { IfOk result (λ member. member ≡ name) }
    {
        let kind = match name {
            EnvPropagator::TraceContext => Kind::W3cTrace(TraceContextPropagator::new(alloc)?),
            EnvPropagator::Baggage => Kind::W3cBaggage(BaggagePropagator::new(alloc)?),
            EnvPropagator::B3 => Kind::Zipkin(B3Propagator::single(alloc)?),
            EnvPropagator::B3Multi => Kind::Zipkin(B3Propagator::multi(alloc)?),
        };
        Ok(Member { kind })
    }
}

impl TextMapPropagator for Member {
    ghost use Rattle.std.specs.Prelude.{false};
    ghost use Rattle.otel_sdk.specs.ConfiguredPropagator.{extracted_by, fields_by, pairs_by};

    ghost pairs = { λ name context. pairs_by name context };

    ghost extracted = { λ name context texts. extracted_by name context texts };

    ghost field_names = { λ name. fields_by name };

    ghost may_refuse = { λ _. false };

    fn inject_context(
        &self,
        context: &Context,
        injector: &mut dyn Injector,
    ) -> Result<(), PropagationError> {
        match &self.kind {
            Kind::W3cTrace(propagator) => propagator.inject_context(context, injector),
            Kind::W3cBaggage(propagator) => propagator.inject_context(context, injector),
            Kind::Zipkin(propagator) => propagator.inject_context(context, injector),
        }
    }

    fn extract_with_context(
        &self,
        alloc: Global,
        context: &Context,
        extractor: &dyn Extractor,
    ) -> Result<Context, PropagationError> {
        match &self.kind {
            Kind::W3cTrace(propagator) => {
                propagator.extract_with_context(alloc, context, extractor)
            }
            Kind::W3cBaggage(propagator) => {
                propagator.extract_with_context(alloc, context, extractor)
            }
            Kind::Zipkin(propagator) => propagator.extract_with_context(alloc, context, extractor),
        }
    }

    fn fields(&self) -> FieldIter<'_> {
        match &self.kind {
            Kind::W3cTrace(propagator) => propagator.fields(),
            Kind::W3cBaggage(propagator) => propagator.fields(),
            Kind::Zipkin(propagator) => propagator.fields(),
        }
    }
}
