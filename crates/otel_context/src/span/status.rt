//! The status and the kind of a span.
ghost use Rattle.std.specs.Prelude.{◌≡◌, ◌↔◌, IsTrue, Some};
ghost use Rattle.std.proofs.Common.{rules};
ghost use Rattle.std.specs.Cmp.Rules.{comparing};
ghost use Rattle.std.specs.Ordering.{as_partial_cmp};
ghost use Rattle.otel_context.specs.Status as status;
ghost use Rattle.otel_context.specs.declared.span.status.Status.TheVariants as Variant;

use otel_base::StringValue;
use std::alloc::AllocError;
use std::cmp::Ordering;

/// Which side of a call a span describes (OpenTelemetry trace API, "SpanKind").
///
/// ```
/// let built = tracer
///     .span_builder(StringValue::from("work"))
///     .with_kind(SpanKind::Client)
///     .start(alloc, &tracer, &stack)?;
/// ```
#[derive(Clone, Copy, Debug, PartialEq, Eq)]
pub enum SpanKind {
    /// A request that waits for its response.
    Client,
    /// The handling of a client's request.
    Server,
    /// The start of work that another span continues later.
    Producer,
    /// The work that a producer started.
    Consumer,
    /// Work within one process.
    Internal,
}

/// The status of a span (OpenTelemetry trace API, "Set Status").
///
/// `Unset` is less than an error, and an error is less than `Ok`. Two errors compare by their
/// descriptions, byte by byte.
///
/// ```
/// span.set_status(Status::error(StringValue::from("why")));
/// ```
#[derive(Debug, Drop)]
pub enum Status {
    /// The default status.
    Unset,
    /// The operation failed.
    Error {
        /// The description of the failure.
        description: StringValue,
    },
    /// The operation succeeded, as marked by the application developer.
    Ok,
}

impl Status {
    /// Returns the status of a failure with this description.
    pub fn error(description: StringValue) -> Status
        ensures { result ≡ Variant.Error description }
    {
        Status::Error { description }
    }

    /// Returns the rank of the status among the three variants.
    fn rank(&self) -> u8
        ensures { result ≡ status.rank self.now }
    {
        match self {
            Status::Unset => 0,
            Status::Error { .. } => 1,
            Status::Ok => 2,
        }
    }
}

impl Default for Status {
    ghost is_default = { λ s. s ≡ Variant.Unset };

    /// Returns `Unset`.
    fn default() -> Status {
        Status::Unset
    }
}

impl Clone for Status {
    ghost is_clone = { λ s copy. copy ≡ s };

    /// Returns a copy.
    ///
    /// # Errors
    ///
    /// `AllocError` if out of memory for the description.
    fn clone(&self) -> Result<Status, AllocError> {
        match self {
            Status::Unset => Ok(Status::Unset),
            Status::Error { description } => Ok(Status::error(description.clone()?)),
            Status::Ok => Ok(Status::Ok),
        }
    }
}

impl PartialEq for Status {
    ghost eq = { status.eq };

    ghost laws = { Prim.search (comparing, rules) };

    /// Returns `true` if both are the same variant and, if they are errors, have the same
    /// description.
    fn eq(&self, other: &Status) -> bool
        ensures value { result ≡ status.eq self.now other.now }
        ensures same { IsTrue result ↔ (self.now ≡ other.now) }
    {
        match (self, other) {
            (Status::Error { description: a }, Status::Error { description: b }) => a == b,
            _ => self.rank() == other.rank(),
        }
    }
}

impl Eq for Status {
    ghost laws = { Prim.search (comparing, rules) };
}

impl PartialOrd for Status {
    ghost partial_cmp = { as_partial_cmp status.cmp };

    ghost laws = { Prim.search (comparing, rules) };

    /// Compares the variants, and the descriptions of two errors.
    fn partial_cmp(&self, other: &Status) -> Option<Ordering> {
        match (self, other) {
            (Status::Error { description: a }, Status::Error { description: b }) => {
                a.partial_cmp(b)
            }
            _ => self.rank().partial_cmp(&other.rank()),
        }
    }
}
