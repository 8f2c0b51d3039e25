//! Providers, which make tracers.
ghost use Rattle.std.specs.Prelude.{IfOk};

use crate::trace::tracer::Tracer;
use otel_base::{InstrumentationScope, StringValue};
use std::alloc::{AllocError, Global};

/// Makes tracers (the Rust crate's `TracerProvider`).
///
/// Get a tracer from it once per library or module. Implementors define the ghost relation
/// `may_give`: the tracers that may be returned for a scope.
///
/// For a provider, see `SdkTracerProvider` in the crate `otel_sdk`.
pub trait TracerProvider {
    ghost use Rattle.otel_base.specs.InstrumentationScope.{Scope};
    ghost use Rattle.opentelemetry.specs.Scope.{scope_of_name};

    /// The tracers that it makes.
    type Tracer: Tracer;

    ghost may_give: { Self → Scope → Self.Tracer → Type 0 };

    /// Returns a tracer for the library or module of a scope.
    ///
    /// # Errors
    ///
    /// `AllocError` if out of memory. The scope is dropped.
    fn tracer_with_scope(
        &self,
        alloc: Global,
        scope: InstrumentationScope,
    ) -> Result<Self::Tracer, AllocError>
        ensures { IfOk result (may_give self.now scope) };

    /// Returns a tracer for the library or module named `name`, without version, schema URL and
    /// attributes.
    ///
    /// # Errors
    ///
    /// `AllocError` if out of memory. The name is dropped.
    fn tracer(&self, alloc: Global, name: StringValue) -> Result<Self::Tracer, AllocError>
        ensures { IfOk result (may_give self.now (scope_of_name name)) }
    {
        let scope = InstrumentationScope::builder(name).build(alloc)?;
        self.tracer_with_scope(alloc, scope)
    }
}
