//! Work that runs in a span.
ghost use Rattle.std.specs.Prelude.{◌≡◌, IfSome, IfOk, IfErr, IsErr, OnErr};
ghost use Rattle.otel_context.specs.Active.{AttachesAt};
ghost use Rattle.otel_context.specs.Spans.{HasSameSpans, get, take, used_up};
ghost use Rattle.otel_context.specs.Stack.{current};
ghost use Rattle.opentelemetry.specs.Closure.{CallLeaves};
ghost use Rattle.opentelemetry.specs.InSpan.{Holds, Enters, RunsAt, out_of_memory, refused_by};

use otel_context::{Context, ContextStack, Span, SpanCause, SpanRefused, Spans};
use std::alloc::{AllocError, Global};
use std::error::Error;
use std::fmt;

/// The error of [`Tracer::in_span`](crate::trace::Tracer::in_span) and its variants. Not in the
/// Rust crate.
///
/// The stack is unchanged, and the table holds the same spans. No clause says that the body wasn't
/// run, but its type does: [`SpanBody::Out`] has no `Drop` bound, so code that had run the body
/// couldn't discard its result and wouldn't compile.
///
/// See `otel_examples::api::in_span`.
#[derive(Drop)]
pub enum StartError<S> {
    /// Out of memory before the span was built. The table is unchanged.
    Build(AllocError),
    /// The table has no number left, or out of memory after the span was built. Contains the span.
    /// In the first case, the table is unchanged. In the second, its next number may be one higher.
    Refused(SpanRefused<S>),
}

/// Prints which step failed, and the reason.
impl<S> fmt::Display for StartError<S> {
    ghost use Rattle.std.specs.Prelude.{Some};
    ghost use Rattle.opentelemetry.specs.InSpan.{error_text};

    ghost output = { λ error. Some (error_text error) };

    fn fmt<W: fmt::Write>(&self, f: &mut fmt::Formatter<W>) -> fmt::Result {
        match self {
            StartError::Build(_) => f.write_str("span not built: no memory"),
            StartError::Refused(refused) => write!(f, "span refused: {refused}"),
        }
    }
}

/// Prints the step and the reason without the span, whose type may not be `Debug`.
impl<S> fmt::Debug for StartError<S> {
    fn fmt<W: fmt::Write>(&self, f: &mut fmt::Formatter<W>) -> fmt::Result {
        match self {
            StartError::Build(error) => f.debug_tuple("Build").field(error).finish(),
            StartError::Refused(refused) => f.debug_tuple("Refused").field(refused).finish(),
        }
    }
}

impl<S: Drop> Error for StartError<S> {}

/// Code that runs in a span. Not in the Rust crate, whose `in_span` takes a closure: [`Run`] turns
/// a closure into a body.
///
/// Implementors define the ghost relation `may_leave` between the stack, the table and the context
/// that a body is given, its result, and the stack and the table that it leaves. If a body can't
/// always be called, `can_call` says when it can.
///
/// See `otel_examples::api::in_span` for two implementations.
pub trait SpanBody<S>: Drop {
    ghost use Rattle.opentelemetry.specs.InSpan.{MayLeave};

    /// The type of the body's result.
    type Out;

    ghost may_leave: { Self → MayLeave S Self.Out };

    ghost can_call: { Self → Type 0 } = { λ _. Unit {0} };

    /// Runs the body. The context is the current one, unless it couldn't be attached because the
    /// greatest position was live.
    fn call(self, stack: &mut ContextStack, spans: &mut Spans<S>, context: Context) -> Self::Out
        requires { can_call self }
        ensures { may_leave self stack.old spans.old context result stack.new spans.new };
}

/// A body made from a closure: `Run(|stack, spans, context| ..)`. Not in the Rust crate.
///
/// May leave whatever the closure's contract allows.
///
/// ```
/// Run(|stack: &mut ContextStack, _spans: &mut Spans<NoopSpan>, _context: Context| {
///     stack.newest_position()
/// })
/// ```
#[derive(Drop)]
pub struct Run<F>(pub F);

/// A closure on any stack and context, which [`Run`] turns into a body. Not in the Rust crate.
///
/// Callers use [`Run`] and never name this trait.
pub trait CallClosure<S, K, C>: Drop {
    ghost use Rattle.otel_context.specs.Spans.{SpansState};

    /// The type of the closure's result.
    type Out;

    ghost leaves: { Self → K → SpansState S → C → Self.Out → K → SpansState S → Type 0 };

    ghost is_callable: { Self → Type 0 };

    /// Calls the closure.
    fn call_closure(self, stack: &mut K, spans: &mut Spans<S>, context: C) -> Self::Out
        requires { is_callable self }
        ensures { leaves self stack.old spans.old context result stack.new spans.new };
}

impl<S, K, C, T, F: FnOnce(&mut K, &mut Spans<S>, C) -> T + Drop> CallClosure<S, K, C> for Run<F> {
    type Out = T;

    ghost leaves = { λ body stack spans context out left left_spans.
        CallLeaves F.FnOnce body.0 stack spans context out left left_spans };

    ghost is_callable = { λ body. F.IsAlwaysCallable body.0 };

    fn call_closure(self, stack: &mut K, spans: &mut Spans<S>, context: C) -> T {
        let Run(f) = self;
        f(stack, spans, context)
    }
}

impl<S, F: Drop> SpanBody<S> for Run<F>
where
    Run<F>: CallClosure<S, ContextStack, Context>,
{
    type Out = <Run<F> as CallClosure<S, ContextStack, Context>>::Out;

    ghost may_leave = { λ body. bound-1.leaves body };

    ghost can_call = { λ body. bound-1.is_callable body };

    fn call(self, stack: &mut ContextStack, spans: &mut Spans<S>, context: Context) -> Self::Out {
        self.call_closure(stack, spans, context)
    }
}

/// The context of a body, the number of its span, and the position at which the context is
/// attached.
#[derive(Drop)]
pub(crate) struct Entered {
    pub context: Context,
    pub number: u64,
    pub position: u16,
}

// Attaches a copy of the context. Returns its position, or 65535 if the greatest position is live.
#[inline(always)]
fn attach_copy(stack: &mut ContextStack, context: &Context) -> Result<u16, AllocError>
    ensures attached { IfOk result (λ position.
        AttachesAt position context.now stack.old stack.new) }
    ensures same { OnErr result (stack.new ≡ stack.old) }
{
    match context.clone() {
        Ok(copy) => stack.push(copy),
        Err(error) => Err(error),
    }
}

// Takes back a span whose context can't be attached.
#[cold]
fn take_back<S: Span>(spans: &mut Spans<S>, number: u64, error: AllocError) -> StartError<S>
    requires found { Holds spans.now number }
    ensures taken { spans.new ≡ take spans.old number }
    ensures refused { IfSome (get spans.old number) (λ span. result ≡ out_of_memory span) }
{
    match spans.take(number) {
        Some(span) => StartError::Refused(SpanRefused {
            span,
            cause: SpanCause::Memory(error),
        }),
        None => unreachable!(),
    }
}

/// Inserts the span into the table, and attaches a copy of the parent's context in which it is
/// active.
// Inlined, since a call copies the span.
#[inline(always)]
pub(crate) fn enter<S: Span>(
    alloc: Global,
    stack: &mut ContextStack,
    spans: &mut Spans<S>,
    parent: &Context,
    span: S,
) -> Result<Entered, StartError<S>>
    ensures entered { IfOk result (λ e.
        Enters S.context_of parent.now span stack.old spans.old stack.new spans.new e) }
    ensures same_stack { OnErr result (stack.new ≡ stack.old) }
    ensures same_spans { OnErr result (HasSameSpans spans.old spans.new) }
    ensures used_up { spans.old.next_number ≡ used_up
        → IsErr result × (spans.new ≡ spans.old) }
    ensures refused { IfErr result (λ error. error ≡ refused_by spans.old span) }
{
    let number = spans.next_number();
    let context = match parent.with_span(alloc, spans, span) {
        Ok(context) => context,
        Err(refused) => return Err(StartError::Refused(refused)),
    };
    let position = match attach_copy(stack, &context) {
        Ok(position) => position,
        Err(error) => return Err(take_back(spans, number, error)),
    };
    Ok(Entered {
        context,
        number,
        position,
    })
}

/// Does the same with the current context as the parent, which needn't be cloned.
#[inline(always)]
pub(crate) fn enter_current<S: Span>(
    alloc: Global,
    stack: &mut ContextStack,
    spans: &mut Spans<S>,
    span: S,
) -> Result<Entered, StartError<S>>
    ensures entered { IfOk result (λ e. Enters S.context_of (current stack.old.live) span
        stack.old spans.old stack.new spans.new e) }
    ensures same_stack { OnErr result (stack.new ≡ stack.old) }
    ensures same_spans { OnErr result (HasSameSpans spans.old spans.new) }
    ensures used_up { spans.old.next_number ≡ used_up
        → IsErr result × (spans.new ≡ spans.old) }
    ensures refused { IfErr result (λ error. error ≡ refused_by spans.old span) }
{
    let number = spans.next_number();
    let context = match stack.current().with_span(alloc, spans, span) {
        Ok(context) => context,
        Err(refused) => return Err(StartError::Refused(refused)),
    };
    let position = match attach_copy(stack, &context) {
        Ok(position) => position,
        Err(error) => return Err(take_back(spans, number, error)),
    };
    Ok(Entered {
        context,
        number,
        position,
    })
}

/// Runs the body in the context that was entered, and removes whatever is attached at its position
/// then. Returns the body's result and the span's number.
pub(crate) fn run_entered<S: Span, F: SpanBody<S>>(
    stack: &mut ContextStack,
    spans: &mut Spans<S>,
    entered: Entered,
    f: F,
) -> (F::Out, u64)
    requires { F.can_call f }
    ensures { RunsAt (F.may_leave f) entered stack.old spans.old stack.new spans.new result }
{
    let Entered {
        context,
        number,
        position,
    } = entered;
    let answer = f.call(stack, spans, context);
    stack.pop_id(position);
    (answer, number)
}
