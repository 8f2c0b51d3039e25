//! The objects that handles can hold.
ghost use Rattle.std.specs.Prelude.{◌≡◌, IfOk, IfErr, Some};
ghost use Rattle.otel_c.specs.Object.{headers_of, context_of, stack_of};
ghost use Rattle.otel_c.specs.Status.{IsOtherKind};

use crate::status::Status;
use opentelemetry::Context;
use opentelemetry::context::ContextStack;
use otel_http::HeaderInjector;

/// An object that a handle can hold.
#[derive(Drop)]
pub enum Object {
    /// The headers of a request.
    Headers(HeaderInjector),
    /// A context.
    Context(Context),
    /// A stack of attached contexts.
    Stack(ContextStack),
}

impl Object {
    /// Returns the headers.
    ///
    /// # Errors
    ///
    /// `Invalid` if it is another kind of object.
    pub fn headers(&self) -> Result<&HeaderInjector, Status>
        ensures headers { IfOk result (λ injector.
            headers_of (Some self.now) ≡ Some injector.now.headers) }
        ensures refused { IfErr result (λ status. IsOtherKind (headers_of (Some self.now)) status) }
    {
        match self {
            Object::Headers(headers) => Ok(headers),
            _ => Err(Status::Invalid),
        }
    }

    /// Returns the context.
    ///
    /// # Errors
    ///
    /// `Invalid` if it is another kind of object.
    pub fn context(&self) -> Result<&Context, Status>
        ensures context { IfOk result (λ context. context_of (Some self.now) ≡ Some context.now) }
        ensures refused { IfErr result (λ status. IsOtherKind (context_of (Some self.now)) status) }
    {
        match self {
            Object::Context(context) => Ok(context),
            _ => Err(Status::Invalid),
        }
    }

    /// Returns the stack.
    ///
    /// # Errors
    ///
    /// `Invalid` if it is another kind of object.
    pub fn stack(&self) -> Result<&ContextStack, Status>
        ensures stack { IfOk result (λ stack. stack_of (Some self.now) ≡ Some stack.now) }
        ensures refused { IfErr result (λ status. IsOtherKind (stack_of (Some self.now)) status) }
    {
        match self {
            Object::Stack(stack) => Ok(stack),
            _ => Err(Status::Invalid),
        }
    }
}
